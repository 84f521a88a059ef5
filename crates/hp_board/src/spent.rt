//! What is left of fragments that were joined or rolled back.
ghost use Rattle.std.specs.Prelude.{◌≡◌, slice_get};
ghost use Rattle.hp_board.specs.Desk.{SamePage};

use crate::board::Board;
use crate::pairs::take_pairs;
use crate::slot::Slot;
use hp_control::Kept;
use hp_merge::Spent;
use hp_pieces::{Guessed, GuessedParts};
use std::alloc::Global;

/// The pair that a guess assumed at that place, and what is left of the guess.
pub(crate) fn told_and_spent<'p>(
    alloc: Global,
    guessed: Guessed<'p>,
    place: usize,
) -> (Option<Kept>, Spent<'p>)
    ensures { result.0 ≡ slice_get guessed.entry.assumptions place }
{
    let GuessedParts {
        assumptions,
        change,
        grove,
        outer,
        ..
    } = guessed.into_parts();
    let mut behind = assumptions.into_iter();
    let before = take_pairs(alloc, &mut behind, place);
    let told = behind.next();
    let spent = Spent::RolledBack {
        before,
        behind,
        change,
        grove,
        outer,
    };
    (told, spent)
}

impl<'p> Board<'p> {
    /// Keeps what is left of a guess that is rolled back. For want of memory it is given back at once.
    pub(crate) fn keep_spent(&mut self, spent: Spent<'p>)
        ensures page { SamePage self.old self.new }
        ensures board { self.new ≡ self.old }
    {
        self.front.keep_spent(spent);
    }

    /// Hands out what is left of fragments that were joined or rolled back, so that it is given back with no board at hand; nothing where
    /// the front chunk is to be run again, which is more urgent.
    pub fn take_spent(&mut self, alloc: Global) -> Vec<Spent<'p>>
        ensures page { SamePage self.old self.new }
        ensures board { self.new ≡ self.old }
    {
        if let Some(Slot::Again) = self.slots.get(self.done as usize) {
            return Vec::new(alloc);
        }
        self.front.take_spent(alloc)
    }
}
