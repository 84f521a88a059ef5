//! Fragments.
ghost use Rattle.std.specs.Prelude.{◌≡◌, ◌≤◌, length};

use crate::exact::Exact;
use crate::guessed::Guessed;

/// What a part of a page does to the parser.
#[derive(Drop)]
pub enum Fragment<'p> {
    /// From a known state.
    Exact(Exact<'p>),
    /// Over any state of which some answers are true.
    Guessed(Guessed<'p>),
}

impl<'p> Fragment<'p> {
    ghost use Rattle.hp_pieces.specs.Texts.{covered_of, text_of};

    /// The text of which it is a fragment, in bytes.
    pub fn text(&self) -> &'p [u8]
        ensures { result.now ≡ text_of self.now }
    {
        match self {
            Fragment::Exact(exact) => exact.text(),
            Fragment::Guessed(guessed) => guessed.text(),
        }
    }

    /// How many bytes of its text it covers, from the front on. An exact one covers all.
    pub fn covered(&self) -> u64
        ensures covered { result ≡ covered_of self.now }
        ensures within { result ≤ length (text_of self.now) }
    {
        match self {
            Fragment::Exact(exact) => exact.text().len() as u64,
            Fragment::Guessed(guessed) => guessed.covered(),
        }
    }
}
