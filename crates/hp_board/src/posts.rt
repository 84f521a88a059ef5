//! Posts of fragments.
ghost use Rattle.std.specs.Prelude.{◌≡◌, ◌<◌, ◌≤◌, IfErr, IsTrue, ◌↔◌, MatchOption, OnErr, OnOk, length, true};
ghost use Rattle.hp_text.specs.Page.{text_of as page_text};
ghost use Rattle.hp_cut.specs.Places.{IsOf};
ghost use Rattle.hp_board.specs.Calls.{IsGuess, IsPostable, IsRefused, Starts, StartsAs, is_yours, posted_on};
ghost use Rattle.hp_board.specs.Desk.{SamePage, origin_in, status_of};
ghost use Rattle.hp_pieces.specs.Texts.{IsExactFrom};
ghost use Rattle.hp_board.specs.Origins.{IsToldOf, looks_alike as spec_looks_alike, origin_of as spec_origin_of};
ghost use Rattle.hp_board.specs.Tallies.{IsLater, IsRaised};
ghost use Rattle.std.specs.Prelude.{slice_range, take};
ghost use Rattle.hp_predict.specs.Guess.{last_bytes as spec_last_bytes};

use crate::board::Board;
use crate::journal::{BoardStep, Origin};
use crate::laws::stays_fair;
use crate::slot::Slot;
use crate::steps::{PostCause, PostRefusal};
use crate::tally::Tally;
use hp_control::Control;
use hp_pieces::{By, Fragment};
use hp_text::Chunk;

/// How many bytes before a chunk a predictor may look at.
const BEFORE: usize = 4096;

impl<'p> Board<'p> {
    /// Takes the fragment of a chunk that this worker claimed. The causes are looked at in the order of `PostCause`. It takes no memory.
    pub fn post(
        &mut self,
        tally: &mut Tally,
        chunk: u32,
        fragment: Fragment<'p>,
    ) -> Result<(), PostRefusal<'p>>
        ensures page { SamePage self.old self.new }
        ensures later { IsLater tally.old tally.new }
        ensures can { OnOk result (IsPostable self.old tally.old.worker chunk fragment.entry) }
        ensures board { OnOk result (self.new ≡ posted_on self.old tally.old.worker chunk fragment.entry) }
        ensures raised { OnOk result (IsRaised tally.old tally.new) }
        ensures cause { IfErr result (λ refusal. IsRefused self.old tally.old.worker chunk fragment.entry refusal.cause) }
        ensures back { IfErr result (λ refusal. refusal.fragment ≡ fragment.entry) }
        ensures unchanged { OnErr result ((self.new ≡ self.old) × (tally.new ≡ tally.old)) }
    {
        if let Some(cause) = self.cause_of(tally.worker(), chunk, &fragment) {
            return Err(PostRefusal { cause, fragment });
        }
        self.kept();
        stays_fair();
        told(&fragment);
        let covered = fragment.covered();
        let by = self.origin(chunk, &fragment);
        let step = BoardStep::Posted { chunk, covered, by };
        let _ = self.put(tally, chunk, Slot::Posted(fragment), step);
        Ok(())
    }

    /// Why a fragment is refused, if it is.
    fn cause_of(&self, worker: u32, chunk: u32, fragment: &Fragment<'p>) -> Option<PostCause>
        ensures { MatchOption result (IsPostable self.now worker chunk fragment.now) (IsRefused self.now worker chunk fragment.now) }
    {
        if !self.is_yours(worker, chunk) {
            return Some(PostCause::NotYours);
        }
        self.yours_open(worker, chunk);
        if fragment.text() != self.rest_text(chunk) {
            return Some(PostCause::OtherText);
        }
        if !self.starts(chunk, fragment) {
            return Some(PostCause::OtherStart);
        }
        None
    }

    /// Whether the chunk is claimed by this worker.
    pub(crate) fn is_yours(&self, worker: u32, chunk: u32) -> bool
        ensures { result ≡ is_yours self.now worker chunk }
    {
        match self.slots.get(chunk as usize) {
            Some(Slot::Claimed(w) | Slot::AgainClaimed(w)) => *w == worker,
            _ => false,
        }
    }

    /// A chunk that is claimed isn't done.
    fn yours_open(&self, worker: u32, chunk: u32)
        requires { is_yours self.now worker chunk ≡ true }
        ensures within { chunk < length self.now.slots }
        ensures undone { self.now.done ≤ chunk }
    {
        let _ = (worker, chunk);
        self.kept();
    }

    /// Whether the fragment is of the claim's kind, and where that is from the front's state, from that.
    fn starts(&self, chunk: u32, fragment: &Fragment<'p>) -> bool
        requires { chunk < length self.now.slots }
        ensures { IsTrue result ↔ Starts self.now chunk fragment.now }
    {
        starts(&self.slots[chunk as usize], self.front.control(), fragment)
    }

    /// Where a fragment that is posted for this chunk comes from.
    fn origin(&self, number: u32, fragment: &Fragment<'p>) -> Origin
        requires { number < length self.now.slots }
        ensures { result ≡ origin_in self.now number fragment.now }
    {
        let chunk = self.cuts.chunk(self.page, number);
        origin_of(fragment, &chunk)
    }
}

/// Whether the fragment is of the kind of a chunk's claim, and where that is from a known state, from this one.
fn starts(slot: &Slot<'_>, control: &Control, fragment: &Fragment<'_>) -> bool
    ensures { IsTrue result ↔ StartsAs control.now (status_of slot.now) fragment.now }
{
    match slot {
        Slot::AgainClaimed(_) => is_exact_from(control, fragment),
        Slot::Claimed(_) => is_guess(fragment),
        Slot::Unclaimed | Slot::Posted(_) | Slot::Again | Slot::Done => false,
    }
}

fn is_exact_from(control: &Control, fragment: &Fragment<'_>) -> bool
    ensures { IsTrue result ↔ IsExactFrom control.now fragment.now }
{
    match fragment {
        Fragment::Exact(exact) => exact.entry().same(control),
        Fragment::Guessed(_) => false,
    }
}

fn is_guess(fragment: &Fragment<'_>) -> bool
    ensures { IsTrue result ↔ IsGuess fragment.now }
{
    match fragment {
        Fragment::Exact(_) => false,
        Fragment::Guessed(_) => true,
    }
}

/// What is known of a fragment by who guessed it.
pub(crate) fn told(fragment: &Fragment<'_>)
    ensures { IsToldOf fragment.now }
{
    if let Fragment::Guessed(guessed) = fragment {
        let _text = guessed.text();
        let _by = guessed.by();
    }
}

/// Where a fragment that is posted for this chunk comes from.
fn origin_of(fragment: &Fragment<'_>, chunk: &Chunk<'_>) -> Origin
    ensures { result ≡ spec_origin_of fragment.now (take chunk.now.from (page_text chunk.now.page)) (slice_range (page_text chunk.now.page) chunk.now.from chunk.now.to) }
{
    match fragment {
        Fragment::Exact(_) => Origin::Replayed,
        Fragment::Guessed(guessed) => match guessed.by() {
            Some(by) if looks_alike(&by, chunk) => Origin::GuessedBy(by.kind),
            _ => Origin::Guessed,
        },
    }
}

/// Whether a predictor can't tell the chunk of a guess from this one.
fn looks_alike(by: &By<'_>, chunk: &Chunk<'_>) -> bool
    ensures { result ≡ spec_looks_alike by.now (take chunk.now.from (page_text chunk.now.page)) (slice_range (page_text chunk.now.page) chunk.now.from chunk.now.to) }
{
    last_bytes(by.chunk.before()) == last_bytes(chunk.before()) && by.chunk.text() == chunk.text()
}

/// The last 4,096 bytes, or all where there are fewer.
fn last_bytes(bytes: &[u8]) -> &[u8]
    ensures { result.now ≡ spec_last_bytes bytes.now }
{
    &bytes[bytes.len().saturating_sub(BEFORE)..]
}
