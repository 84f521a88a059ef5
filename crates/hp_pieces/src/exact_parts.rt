//! The parts of an exact fragment.
ghost use Rattle.std.specs.Prelude.{◌≡◌};
ghost use Rattle.hp_pieces.specs.Fragments.{IsRun};
ghost use Rattle.hp_pieces.specs.Parts.{run_of};

use crate::exact::Exact;
use hp_arena::Grove;
use hp_control::{Control, Edits};

/// The states before and behind a text.
#[derive(Drop)]
pub struct States {
    /// The state before the text.
    pub entry: Control,
    /// The state behind the text.
    pub exit: Control,
}

/// An exact fragment taken apart.
#[derive(Drop)]
pub struct ExactParts<'p> {
    /// The text, in bytes.
    pub text: &'p [u8],
    /// The states before and behind the text, in memory of their own, so that a fragment is small.
    pub states: Box<States>,
    /// What the inner edits make.
    pub grove: Grove<'p>,
    /// The outer edits.
    pub outer: Edits<'p>,
}

impl<'p> ExactParts<'p> {
    /// The fragment of which these are the parts.
    pub fn together(self) -> Exact<'p>
        requires run { IsRun (run_of self) }
        ensures { result ≡ run_of self.entry }
    {
        Exact::of_parts(self)
    }
}
