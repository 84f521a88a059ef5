//! The end of input behind a state.
ghost use Rattle.std.specs.Prelude.{◌≡◌, IfOk};
ghost use Rattle.hp_control.specs.States.{IsValid};
ghost use Rattle.hp_pieces.specs.Fragments.{IsEnd};

use crate::NoMemory;
use crate::leaving::{leave, leave_edits};
use crate::parsing::Parsing;
use crate::sink::Sink;
use crate::told::told_edits;
use hp_control::{Control, Edits};
use hp_pieces::Ending;
use std::alloc::Global;

/// The end of input from this state: the lexer's last tokens, and what tree construction makes of them (13.2.6, 13.2.7).
pub fn ending<'p>(alloc: Global, from: &Control) -> Result<Ending<'p>, NoMemory>
    ensures { IfOk result (λ ending. ending.entry ≡ from.now) }
{
    from.is_kept();
    let edits = end_edits(alloc, from)?;
    match from.copy(alloc) {
        Ok(entry) => Ok(Ending::of_end(entry, edits)),
        Err(fault) => {
            leave_edits(edits);
            Err(fault)
        }
    }
}

/// The edits of the end of input.
fn end_edits<'p>(alloc: Global, from: &Control) -> Result<Edits<'p>, NoMemory>
    requires valid { IsValid from.now }
    ensures { IfOk result (λ edits. IsEnd (record { entry = from.now; edits = edits })) }
{
    let mut parsing = Parsing::before(alloc, from, "", Sink::Keeps)?;
    match parsing.end_input(alloc) {
        Ok(()) => Ok(told_edits(parsing)),
        Err(_) => {
            leave(parsing);
            Err(NoMemory)
        }
    }
}
