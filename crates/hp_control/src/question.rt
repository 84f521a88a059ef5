//! What a fragment asks of the state below it, and what it is answered.
ghost use Rattle.std.specs.Prelude.{◌≡◌, IfOk};

use hp_elements::{Kinds, List, Mode, Name, Namespace, NoMemory, Point, Rest, Tag};
use std::alloc::Global;

/// A question of an older state. A depth is counted in its stack from the current node, which has depth 0; `cuts` is a
/// number of clearings of its formatting list, each up to and with the last marker. `answer_of` of specs/Truth.antt says
/// what the true answer to each is.
#[derive(Drop)]
pub enum Question {
    /// What is told at the chunk's start: whether the lexer is at rest, and with it the mode.
    Entry,
    /// The element at that depth.
    Elem {
        depth: u64,
    },
    /// Whether the first element from there on that is one of the goals or of the stops is one of the goals.
    Seen {
        depth: u64,
        goals: Kinds,
        stops: Kinds,
    },
    /// The depth of that element.
    Reach {
        depth: u64,
        goals: Kinds,
        stops: Kinds,
    },
    /// How many elements from there on are of those kinds, one after the other.
    RunOf {
        depth: u64,
        names: Kinds,
    },
    /// Whether an HTML `template` stands there or below.
    HasTemplate {
        depth: u64,
    },
    /// The mode to which the insertion mode is reset, seen from there (13.2.4.1).
    ResetFrom {
        depth: u64,
    },
    /// Whether nothing below is to be reconstructed (13.2.4.3).
    Quiet {
        depth: u64,
        cuts: u64,
    },
    /// How the last entry of that name after the last marker stands.
    Listed {
        depth: u64,
        cuts: u64,
        name: Name,
    },
    /// How many entries after the last marker are equal to that tag, at most 3.
    Same {
        cuts: u64,
        tag: Tag,
    },
    /// How the element of the form pointer stands.
    Pointer {
        depth: u64,
    },
    /// A fact of the older state as a whole.
    Fact {
        which: FactKind,
    },
    /// Whether the second element is an HTML `body` that stands there or below, and `frameset_ok`.
    Whole {
        depth: u64,
    },
}

/// A fact of the older state as a whole.
#[derive(Clone, Copy)]
pub enum FactKind {
    /// Whether the document is in quirks mode.
    Quirks,
    /// The name of the last start tag.
    LastTag,
}

/// How the last entry of a name stands.
#[derive(Clone, Copy, PartialEq, Eq)]
pub enum EntryKind {
    /// There is none.
    Absent,
    /// Its element isn't open.
    Closed,
    /// The end of a scope stands above its element.
    Hidden,
    /// Its element is in scope.
    InScope,
}

/// An answer.
#[derive(Drop)]
pub enum Answer {
    NotResting,
    Resting {
        rest: Rest,
        after_cr: bool,
        mode: Mode,
        original: Option<Mode>,
        skip_lf: bool,
    },
    NoElement,
    Element {
        namespace: Namespace,
        name: Name,
        point: Point,
    },
    Yes,
    No,
    NoDepth,
    /// A depth of the older stack.
    Depth(u64),
    Count(u64),
    NewMode(Mode),
    /// How the last entry of a name stands, and whether the element at the depth has an entry.
    Entry {
        kind: EntryKind,
        top: bool,
    },
    /// The form pointer is empty.
    Null,
    /// The element of the form pointer isn't in scope.
    Away,
    LastTag(Name),
    Whole {
        body: bool,
        frameset_ok: bool,
    },
}

impl Answer {
    /// The same answer once more.
    pub fn copy(&self, alloc: Global) -> Result<Answer, NoMemory>
        ensures { IfOk result (λ copy. copy ≡ self.now) }
    {
        Ok(match self {
            Answer::NotResting => Answer::NotResting,
            Answer::Resting {
                rest,
                after_cr,
                mode,
                original,
                skip_lf,
            } => Answer::Resting {
                rest: *rest,
                after_cr: *after_cr,
                mode: *mode,
                original: *original,
                skip_lf: *skip_lf,
            },
            Answer::NoElement => Answer::NoElement,
            Answer::Element {
                namespace,
                name,
                point,
            } => Answer::Element {
                namespace: *namespace,
                name: name.copy(alloc)?,
                point: *point,
            },
            Answer::Yes => Answer::Yes,
            Answer::No => Answer::No,
            Answer::NoDepth => Answer::NoDepth,
            Answer::Depth(depth) => Answer::Depth(*depth),
            Answer::Count(count) => Answer::Count(*count),
            Answer::NewMode(mode) => Answer::NewMode(*mode),
            Answer::Entry { kind, top } => Answer::Entry {
                kind: *kind,
                top: *top,
            },
            Answer::Null => Answer::Null,
            Answer::Away => Answer::Away,
            Answer::LastTag(name) => Answer::LastTag(name.copy(alloc)?),
            Answer::Whole { body, frameset_ok } => Answer::Whole {
                body: *body,
                frameset_ok: *frameset_ok,
            },
        })
    }
}

/// A question with the answer that was given.
#[derive(Drop)]
pub struct Kept {
    pub question: Question,
    pub answer: Answer,
}

/// The answers that a fragment was given, in the order of its questions.
pub type Assumptions = List<Kept>;

/// How the handling of a token touches what was there before the chunk.
#[derive(Clone, Copy)]
pub enum Crossing {
    /// It removes an older formatting entry other than by a clearing.
    X1,
    /// It creates the element of an older formatting entry anew.
    X2,
    /// It takes an older element off the stack elsewhere than from the top.
    X3,
    /// It is a token in the modes initial to after head.
    X4,
    /// It adds attributes to the html or body element, or replaces the body.
    X5,
    /// It pops or replaces an older template mode.
    X6,
    /// It flushes the pending table characters of the chunk's start.
    X7,
}
