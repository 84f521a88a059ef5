//! The run over a text from a known state.
ghost use Rattle.std.specs.Prelude.{◌≡◌};

use crate::exact_parts::ExactParts;
use hp_control::{Control, Edits};
use std::marker::Model;

/// The run of the sequential parser over a text from a known state. A contract sees it as a `Known`, and each value is
/// such a run: `IsRun` of specs/Fragments.antt says what that is.
pub struct Exact<'p> {
    parts: ExactParts<'p>,
}

impl<'p> Drop for Exact<'p> {
    fn drop(self) {
        let Exact { parts: _ } = self;
    }
}

impl<'p> Model for Exact<'p> {
    ghost use Rattle.hp_pieces.specs.Fragments.{Known, IsRun};
    ghost use Rattle.hp_pieces.specs.Parts.{run_of};

    ghost Value = { Known };

    ghost view = { λ f. run_of f.parts };

    ghost invariant = { λ f. IsRun (run_of f.parts) };
}

impl<'p> Exact<'p> {
    ghost use Rattle.hp_pieces.specs.Fragments.{IsRun};
    ghost use Rattle.hp_pieces.specs.Parts.{run_of};

    /// The fragment of these parts.
    pub(crate) fn of_parts(parts: ExactParts<'p>) -> Exact<'p>
        requires run { IsRun (run_of parts) }
        ensures { result ≡ run_of parts.entry }
    {
        Exact { parts }
    }

    /// The text, in bytes.
    pub fn text(&self) -> &'p [u8]
        ensures text { result.now ≡ self.now.text }
        ensures run { IsRun self.now }
    {
        self.parts.text
    }

    /// The state before the text.
    pub fn entry(&self) -> &Control
        ensures { result.now ≡ self.now.entry }
    {
        &self.parts.states.entry
    }

    /// The state behind the text.
    pub fn exit(&self) -> &Control
        ensures { result.now ≡ self.now.exit }
    {
        &self.parts.states.exit
    }

    /// The outer edits.
    pub fn outer(&self) -> &Edits<'p>
        ensures { result.now ≡ self.now.outer }
    {
        &self.parts.outer
    }

    /// The parts.
    pub fn into_parts(self) -> ExactParts<'p>
        ensures parts { run_of result ≡ self.entry }
        ensures run { IsRun self.entry }
    {
        let Exact { parts } = self;
        parts
    }
}
