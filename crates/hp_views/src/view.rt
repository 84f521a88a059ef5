//! The view.
use hp_control::{Change, Edits};

/// What is known of the page where the parser starts from a known state: the head element, and whether it is in quirks mode.
#[derive(Clone, Copy)]
pub struct PageFacts {
    pub head: Option<u64>,
    pub quirks: bool,
}

/// A control state whose lower part is asked: what a chunk changed of it so far, and the edits that it makes.
/// After a refusal of any call the view is spent: what it shows is not promised.
#[derive(Drop)]
pub struct View<'p, B> {
    /// The state below, which is asked.
    pub below: B,
    /// What was changed of it. Where there is no older state, all of the state is the view's own.
    pub change: Change,
    /// The edits made so far.
    pub edits: Edits<'p>,
    /// Whether the chunk began among pending table characters.
    pub older_text: bool,
    /// The facts of the page, where there is no older state.
    pub page: Option<PageFacts>,
}
