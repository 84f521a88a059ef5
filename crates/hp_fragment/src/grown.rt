//! What the edits of a part of a page come to: the tree of its own elements, and the edits that wait for what is older.
ghost use Rattle.std.specs.Prelude.{◌≡◌, IfOk, List};
ghost use Rattle.std.specs.Str.{chars};
ghost use Rattle.hp_control.specs.States.{IsValid};
ghost use Rattle.hp_control.specs.Tree.{Tree as TreeOf};
ghost use Rattle.hp_control.specs.declared.edit.Edit.{Edit as EditOf};
ghost use Rattle.hp_pieces.specs.Guesses.{IsSound};
ghost use Rattle.hp_fragment.specs.Guessing.{made_by};
ghost use Rattle.hp_fragment.specs.Known.{LeadsPartlySplit};
ghost use Rattle.hp_fragment.specs.Making.{AllComeTo};

use crate::NoMemory;
use crate::leaving::{leave_change, leave_edits, leave_splitting, leave_states};
use crate::sink::{Splitting, split};
use hp_arena::Grove;
use hp_control::{Assumptions, Change, Control, Edits};
use hp_pieces::{Exact, ExactParts, Guessed, States};
use std::alloc::Global;

/// The run over a text from one state to another, of which the first edits were split, and these are the others. `Err` is want of memory.
pub(crate) fn grown_run<'p>(
    alloc: Global,
    text: &'p str,
    entry: Control,
    exit: Control,
    splitting: Splitting<'p>,
    rest: Edits<'p>,
) -> Result<Exact<'p>, NoMemory>
    requires valid { IsValid entry }
    requires run { LeadsPartlySplit (chars text.now) entry splitting rest exit }
    ensures text { IfOk result (λ known. known.text ≡ text.now) }
    ensures entry { IfOk result (λ known. known.entry ≡ entry) }
{
    hp_growing::guesses_grow();
    let states = match Box::new(alloc, States { entry, exit }) {
        Ok(states) => states,
        Err(failed) => {
            leave_states(failed.value);
            leave_splitting(splitting);
            leave_edits(rest);
            return Err(NoMemory);
        }
    };
    match grown(alloc, splitting, rest) {
        Ok((grove, outer)) => {
            let parts = ExactParts {
                text: text.as_bytes(),
                states,
                grove,
                outer,
            };
            Ok(parts.together())
        }
        Err(fault) => {
            leave_states(Box::into_inner(states));
            Err(fault)
        }
    }
}

/// A guess that covers so much of a text, where these answers are true, by this change and by what the edits come to, of which the first
/// were split, and these are the others. `Err` is want of memory.
pub(crate) fn grown_guess<'p>(
    alloc: Global,
    text: &'p str,
    covered: u64,
    kept: Assumptions,
    change: Change,
    splitting: Splitting<'p>,
    rest: Edits<'p>,
) -> Result<Guessed<'p>, NoMemory>
    requires sound { (grove : TreeOf) (outer : List EditOf) → AllComeTo splitting rest grove outer → IsSound (made_by text.now covered kept change grove outer) }
    ensures { IfOk result (λ guessed. guessed ≡ made_by text.now covered kept change guessed.grove guessed.outer) }
{
    let change = match Box::new(alloc, change) {
        Ok(change) => change,
        Err(failed) => {
            leave_change(failed.value, kept);
            leave_splitting(splitting);
            leave_edits(rest);
            return Err(NoMemory);
        }
    };
    match grown(alloc, splitting, rest) {
        Ok((grove, outer)) => {
            let text = text.as_bytes();
            Ok(Guessed::of_guess(text, covered, kept, change, grove, outer))
        }
        Err(fault) => {
            leave_change(Box::into_inner(change), kept);
            Err(fault)
        }
    }
}

/// What the inner edits make, and the outer edits, with these behind those that were split. `Err` is want of memory.
fn grown<'p>(
    alloc: Global,
    mut splitting: Splitting<'p>,
    mut rest: Edits<'p>,
) -> Result<(Grove<'p>, Edits<'p>), NoMemory>
    ensures { IfOk result (λ parts. AllComeTo splitting.entry rest.entry parts.0 parts.1) }
{
    let Ok(()) = split(alloc, &mut splitting, &mut rest) else {
        leave_splitting(splitting);
        return Err(NoMemory);
    };
    Ok(splitting.growing.into_parts())
}
