//! The parts of a guessed fragment.
ghost use Rattle.std.specs.Prelude.{◌≡◌, IfSome};
ghost use Rattle.hp_pieces.specs.By.{IsBy};
ghost use Rattle.hp_pieces.specs.Guesses.{IsSound};
ghost use Rattle.hp_pieces.specs.Parts.{guess_of};

use crate::by::By;
use crate::guessed::Guessed;
use hp_arena::Grove;
use hp_control::{Assumptions, Change, Edits};

/// A guessed fragment taken apart.
#[derive(Drop)]
pub struct GuessedParts<'p> {
    /// The text, in bytes.
    pub text: &'p [u8],
    /// How many bytes of the text are covered, from the front on.
    pub covered: u64,
    /// The answers that are assumed.
    pub assumptions: Assumptions,
    /// What changes of the state below it, in memory of its own, so that a fragment is small.
    pub change: Box<Change>,
    /// What the inner edits make.
    pub grove: Grove<'p>,
    /// The outer edits.
    pub outer: Edits<'p>,
    /// Who guessed, where that is known.
    pub by: Option<By<'p>>,
}

impl<'p> GuessedParts<'p> {
    /// The fragment of which these are the parts.
    pub fn together(self) -> Guessed<'p>
        requires sound { IsSound (guess_of self) }
        requires said { IfSome self.by (IsBy (guess_of self)) }
        ensures { result ≡ guess_of self.entry }
    {
        Guessed::of_parts(self)
    }
}
