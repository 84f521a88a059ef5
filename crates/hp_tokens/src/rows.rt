//! What becomes of the code point that a row read.

/// What becomes of the code point that a row read: it is consumed, it is read again, or it was the end of input.
#[derive(Clone, Copy)]
pub enum Reads {
    Consume,
    Again,
    End,
}

/// What `advance` answers.
#[derive(Clone, Copy)]
pub enum Turn {
    /// Tokens were appended.
    Emitted,
    /// Moves were made, nothing was appended, and the state belongs to another crate.
    Moved,
    /// More input is needed, and nothing was appended.
    NeedsMore,
    /// After `<![CDATA[`: is there an adjusted current node outside the HTML namespace?
    AskCdata,
    /// The last start tag's name is needed.
    AskLastTag,
}

/// What one step of `advance` did.
#[derive(Clone, Copy)]
pub enum Step {
    Made { emitted: bool },
    NeedsMore,
    AskCdata,
    AskLastTag,
}

/// What one step of `at_end` did: some moves, or the end of input was appended.
#[derive(Clone, Copy)]
pub enum EndStep {
    Made,
    Ended,
}
