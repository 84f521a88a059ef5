//! The run over a chunk behind a guess by a predictor of a kind, which the fragment tells.
ghost use Rattle.std.specs.Prelude.{◌≡◌, IfOk, slice_range};
ghost use Rattle.hp_text.specs.Page.{text_of as page_text};
ghost use Rattle.hp_control.specs.Truth.{answer_of};
ghost use Rattle.hp_predict.specs.declared.quiet.GuessKind.TheVariants as kinds;
ghost use Rattle.hp_pieces.specs.By.{chunk_of, says_by};
ghost use Rattle.hp_pieces.specs.Texts.{text_of};
ghost use Rattle.hp_fragment.specs.Guessing.{IsGuessBy, IsGuessedBy, IsReached};

use crate::NoMemory;
use crate::leaving::leave_prescan;
use crate::speculating::{guess, text_in};
use hp_control::{Answer, Predictor, Question};
use hp_pieces::{By, Fragment, Guessed};
use hp_predict::{Contrary, GuessKind, Prescan, Quiet};
use hp_text::Chunk;
use std::alloc::Global;

/// What the chunk does to the parser, whatever the state before it, where that answers as a predictor of this kind says: as `speculate`
/// does, and the fragment tells who guessed.
pub fn speculate_by<'p>(
    alloc: Global,
    chunk: Chunk<'p>,
    kind: GuessKind,
) -> Result<Fragment<'p>, NoMemory>
    ensures text { IfOk result (λ fragment. text_of fragment ≡ slice_range (page_text chunk.entry.page) chunk.entry.from chunk.entry.to) }
    ensures by { IfOk result (IsGuessedBy (record { kind = kind; chunk = chunk.entry })) }
    ensures guess { IfOk result (IsGuessBy (says_by (record { kind = kind; chunk = chunk.entry }))) }
{
    let by = By { kind, chunk };
    let guessed = guess_by(alloc, by)?;
    Ok(Fragment::Guessed(guessed.told_by(by)))
}

/// A guess of the chunk's text by what a predictor of that kind says.
fn guess_by<'p>(alloc: Global, by: By<'p>) -> Result<Guessed<'p>, NoMemory>
    ensures { IfOk result (IsReached (says_by by.entry) (chunk_of by.entry) (chunk_of by.entry)) }
{
    let text = text_in(by.chunk);
    match by.kind {
        GuessKind::Quiet => guess(alloc, text, Quiet),
        GuessKind::Prescan => guess_by_prescan(alloc, by.chunk),
        GuessKind::Contrary => guess(alloc, text, Contrary),
    }
}

/// A guess of the chunk's text by the state that its tags and those before it tell.
fn guess_by_prescan<'p>(alloc: Global, chunk: Chunk<'p>) -> Result<Guessed<'p>, NoMemory>
    ensures { IfOk result (IsReached (says_by (record { kind = kinds.Prescan; chunk = chunk.entry })) (chunk_of (record { kind = kinds.Prescan; chunk = chunk.entry })) (chunk_of (record { kind = kinds.Prescan; chunk = chunk.entry }))) }
{
    let prescan = Prescan::new(alloc, &chunk)?;
    let guessed = guess(alloc, text_in(chunk), Lent { prescan: &prescan });
    leave_prescan(prescan);
    guessed
}

/// A guessed state that is lent. A call with a bare reference in its place isn't covered by the borrow check.
#[derive(Clone, Copy)]
struct Lent<'a> {
    prescan: &'a Prescan,
}

impl<'a> Predictor for Lent<'a> {
    ghost says = { λ lent. answer_of lent.prescan.now };

    fn say(&self, alloc: Global, question: &Question) -> Result<Answer, NoMemory> {
        self.prescan.say(alloc, question)
    }
}
