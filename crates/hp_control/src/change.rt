//! What a chunk changes of the state below it, and why an act may be refused.
ghost use Rattle.std.specs.Prelude.{◌≡◌};
ghost use Rattle.hp_control.specs.declared.change.Refusal.TheVariants as refusal;

use crate::element::FormattingEntry;
use crate::open_elements::OpenElements;
use crate::question::Crossing;
use crate::stack::Stack;
use hp_elements::{Mode, Text};
use hp_tokens::LexState;
use std::alloc::{AllocError, AllocFailed};

/// What becomes of the form pointer.
#[derive(Clone, Copy)]
pub enum FormChange {
    Kept,
    Cleared,
    /// It points at an element of the chunk's own.
    Own(u64),
}

/// What a chunk changes of the state below it. Ids count its own elements from 0. What isn't named stays.
#[derive(Drop)]
pub struct Change {
    /// How many older elements are gone from the top of the stack.
    pub popped: u64,
    /// How often the older formatting list was cleared up to its last marker.
    pub cuts: u64,
    /// The chunk's own elements, which stand on what is left.
    pub stack: OpenElements,
    /// The chunk's own entries, which stand on what is left.
    pub formatting: Stack<FormattingEntry>,
    pub lex: LexState,
    /// Whether the lexer's last start tag is the chunk's own; else the older one stays.
    pub last_tag_set: bool,
    pub mode: Mode,
    pub original: Option<Mode>,
    /// The chunk's own template modes, which stand on the older ones.
    pub templates: Stack<Mode>,
    pub form: FormChange,
    pub frameset_off: bool,
    /// Pending table characters, which follow the older ones.
    pub pending: Text<'static>,
    pub skip_lf: bool,
    /// How many elements the chunk makes.
    pub made: u64,
}

/// Why an act isn't carried out. The view that it was tried on is spent: what it shows then is not promised.
#[derive(Clone, Copy)]
pub enum Refusal {
    /// It touches what was there before the chunk.
    Crossed(Crossing),
    NoMemory,
}

impl From<AllocError> for Refusal {
    ghost from_gives = { λ _ refused. refused ≡ refusal.NoMemory };

    fn from(_error: AllocError) -> Self {
        Refusal::NoMemory
    }
}

impl<T: Drop> From<AllocFailed<T>> for Refusal {
    ghost from_gives = { λ _ refused. refused ≡ refusal.NoMemory };

    fn from(_error: AllocFailed<T>) -> Self {
        Refusal::NoMemory
    }
}
