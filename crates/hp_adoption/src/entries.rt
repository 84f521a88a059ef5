//! Entries of the list of active formatting elements, found by their elements' ids (13.2.4.3).
ghost use Rattle.std.specs.Prelude.{◌≡◌, [], ◌∷◌, IfOk};
ghost use Rattle.hp_control.specs.Adoption.{edit_at};

use hp_control::{FormattingEntry, Stack};
use hp_elements::NoMemory;
use hp_views::{Walk, listed_walk};
use std::alloc::Global;

/// Takes the entry of this id off the list, where it stands there.
pub fn strike(list: &mut Stack<FormattingEntry>, id: u64)
    ensures { list.new ≡ edit_at id 1 [] list.old }
{
    match listed_walk(list, id) {
        Walk::Found(depth) => list.take_out(depth),
        Walk::Stopped => {}
        Walk::PastAll => {}
    }
}

/// Puts an entry in the place of the one of this id, where that stands there.
pub fn supplant(list: &mut Stack<FormattingEntry>, id: u64, entry: FormattingEntry)
    ensures { list.new ≡ edit_at id 1 (entry ∷ []) list.old }
{
    match listed_walk(list, id) {
        Walk::Found(depth) => {
            let _ = list.replace(depth, entry);
        }
        Walk::Stopped => {}
        Walk::PastAll => {}
    }
}

/// Puts an entry just after the one of this id, where that stands there.
pub fn follow(
    alloc: Global,
    list: &mut Stack<FormattingEntry>,
    id: u64,
    entry: FormattingEntry,
) -> Result<(), NoMemory>
    ensures { IfOk result (λ _. list.new ≡ edit_at id 0 (entry ∷ []) list.old) }
{
    match listed_walk(list, id) {
        Walk::Found(depth) => list.insert_at(alloc, depth, entry),
        Walk::Stopped => Ok(()),
        Walk::PastAll => Ok(()),
    }
}
