//! A parser whose type doesn't tell its callers what is below it.
ghost use Rattle.std.specs.Prelude.{IfErr, OnOk};
ghost use Rattle.hp_fragment.specs.Reading.{stage, Crosses, GoesToEnd, IfCrossed, IsAtEnd, IsReady, Stage};

use crate::parsing::Parsing;
use hp_control::{Below, Refusal};
use std::alloc::Global;

/// What reads a text to its end.
pub(crate) trait Reads {
    /// How far it has come.
    ghost at: { Self → Stage };

    /// Reads the text to its end.
    fn read(&mut self, alloc: Global) -> Result<(), Refusal>
        requires ready { IsReady (at self.old) }
        ensures at_end { OnOk result (IsAtEnd (at self.new)) }
        ensures reads { OnOk result (GoesToEnd (at self.old) (at self.new)) }
        ensures crossed { IfErr result (λ refused. IfCrossed refused (Crosses (at self.old) (at self.new))) };
}

impl<'p, B: Below + Drop> Reads for Parsing<'p, B> {
    ghost at = { stage B.heard };

    fn read(&mut self, alloc: Global) -> Result<(), Refusal> {
        self.run(alloc)
    }
}

/// Has it read the text to its end. What a predictor borrows is no part of this signature, so it may be any.
pub(crate) fn read_to_end<R: Reads>(alloc: Global, reader: &mut R) -> Result<(), Refusal>
    requires ready { IsReady (R.at reader.old) }
    ensures at_end { OnOk result (IsAtEnd (R.at reader.new)) }
    ensures reads { OnOk result (GoesToEnd (R.at reader.old) (R.at reader.new)) }
    ensures crossed { IfErr result (λ refused. IfCrossed refused (Crosses (R.at reader.old) (R.at reader.new))) }
{
    reader.read(alloc)
}
