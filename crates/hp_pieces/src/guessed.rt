//! The run over a text over an older state that isn't known.
ghost use Rattle.std.specs.Prelude.{◌≡◌, ◌≤◌, IfSome, None, Some, length};

use crate::by::By;
use crate::guessed_parts::GuessedParts;
use hp_arena::Grove;
use hp_control::{Assumptions, Change, Edits};
use std::marker::Model;

/// What a part of a page does to the parser, where some answers about the state before it are true. A contract sees it as the record
/// of that name, and each value is sound: `IsSound` of specs/Guesses.antt says what that is. Where it is known who guessed it, `IsBy` of
/// specs/By.antt holds.
pub struct Guessed<'p> {
    parts: GuessedParts<'p>,
}

impl<'p> Drop for Guessed<'p> {
    fn drop(self) {
        let Guessed { parts: _ } = self;
    }
}

impl<'p> Model for Guessed<'p> {
    ghost use Rattle.std.specs.Prelude.{IfSome};
    ghost use Rattle.hp_pieces.specs.By.{IsBy};
    ghost use Rattle.hp_pieces.specs.Guesses.{Guessed, IsSound};
    ghost use Rattle.hp_pieces.specs.Parts.{guess_of};

    ghost Value = { Guessed };

    ghost view = { λ f. guess_of f.parts };

    ghost invariant = { λ f. IsSound (guess_of f.parts) × IfSome f.parts.by (IsBy (guess_of f.parts)) };
}

impl<'p> Guessed<'p> {
    ghost use Rattle.hp_names.specs.BuiltIn.{built_in};
    ghost use Rattle.hp_pieces.specs.By.{IsBy};
    ghost use Rattle.hp_pieces.specs.Guesses.{IsSound};
    ghost use Rattle.hp_pieces.specs.Parts.{guess_of};

    /// What was guessed of this text: so much of it is covered, where these answers are true, by this change, what the inner edits
    /// make, and the outer edits. Who guessed isn't told.
    pub fn of_guess(
        text: &'p [u8],
        covered: u64,
        assumptions: Assumptions,
        change: Box<Change>,
        grove: Grove<'p>,
        outer: Edits<'p>,
    ) -> Guessed<'p>
        requires sound { IsSound (record { names = built_in; text = text.now; covered = covered; assumptions = assumptions; change = change.value; grove = grove; outer = outer; by = None }) }
        ensures { result ≡ record { names = built_in; text = text.now; covered = covered; assumptions = assumptions; change = change.value; grove = grove.entry; outer = outer.entry; by = None } }
    {
        let parts = GuessedParts {
            text,
            covered,
            assumptions,
            change,
            grove,
            outer,
            by: None,
        };
        Guessed { parts }
    }

    /// The same, where it is told who guessed.
    pub fn told_by(self, by: By<'p>) -> Guessed<'p>
        requires by { IsBy self by }
        ensures { result ≡ record self.entry { by = Some by.entry } }
    {
        let Guessed { mut parts } = self;
        parts.by = Some(by);
        Guessed { parts }
    }

    /// The text, in bytes.
    pub fn text(&self) -> &'p [u8]
        ensures text { result.now ≡ self.now.text }
        ensures names { self.now.names ≡ built_in }
        ensures sound { IsSound self.now }
    {
        self.parts.text
    }

    /// How many bytes of the text are covered, from the front on.
    pub fn covered(&self) -> u64
        ensures covered { result ≡ self.now.covered }
        ensures within { result ≤ length self.now.text }
    {
        self.parts.covered
    }

    /// The answers that are assumed.
    pub fn assumptions(&self) -> &Assumptions
        ensures { result.now ≡ self.now.assumptions }
    {
        &self.parts.assumptions
    }

    /// What changes of the state below it.
    pub fn change(&self) -> &Change
        ensures { result.now ≡ self.now.change }
    {
        &self.parts.change
    }

    /// The outer edits.
    pub fn outer(&self) -> &Edits<'p>
        ensures { result.now ≡ self.now.outer }
    {
        &self.parts.outer
    }

    /// Who guessed, where that is known.
    pub fn by(&self) -> Option<By<'p>>
        ensures by { result ≡ self.now.by }
        ensures said { IfSome self.now.by (IsBy self.now) }
    {
        self.parts.by
    }

    /// The parts.
    pub fn into_parts(self) -> GuessedParts<'p>
        ensures parts { guess_of result ≡ self.entry }
        ensures sound { IsSound self.entry }
        ensures said { IfSome self.entry.by (IsBy self.entry) }
    {
        let Guessed { parts } = self;
        parts
    }

    /// The fragment of these parts.
    pub(crate) fn of_parts(parts: GuessedParts<'p>) -> Guessed<'p>
        requires sound { IsSound (guess_of parts) }
        requires said { IfSome parts.by (IsBy (guess_of parts)) }
        ensures { result ≡ guess_of parts.entry }
    {
        Guessed { parts }
    }

    /// The answers that were assumed; what was made is given up.
    pub fn into_assumptions(self) -> Assumptions
        ensures { result ≡ self.entry.assumptions }
    {
        let Guessed { parts } = self;
        parts.assumptions
    }
}
