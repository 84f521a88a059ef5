//! What is left of fragments, and of which nothing is needed any more.

use hp_arena::Grove;
use hp_control::{Assumptions, Change, Edit, Edits, Kept};
use hp_elements::ListIntoIter;
use hp_pieces::States;

/// What is left of a fragment that was joined or rolled back, and of which nothing is needed any more. Giving it back takes time, and
/// needs no front.
#[derive(Drop)]
pub enum Spent<'p> {
    /// Of what is exact, which was joined.
    Exact {
        /// The state before its text, and the front's, which the one behind its text took the place of.
        states: Box<States>,
        /// Its outer edits, as their making left them.
        outer: Vec<Edit<'p>>,
    },
    /// Of a guess that was joined.
    Guessed {
        /// The answers that it assumed.
        assumptions: Assumptions,
        /// Its outer edits, as their making left them.
        outer: Vec<Edit<'p>>,
    },
    /// Of a guess that was rolled back.
    RolledBack {
        /// The answers that it assumed before the one that was told.
        before: Vec<Kept>,
        /// The answers that it assumed behind that.
        behind: ListIntoIter<Kept>,
        /// What changes of the state below it.
        change: Box<Change>,
        /// What its inner edits had made.
        grove: Grove<'p>,
        /// Its outer edits.
        outer: Edits<'p>,
    },
}
