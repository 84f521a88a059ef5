//! How a board begins and ends.
ghost use Rattle.std.specs.Prelude.{◌≡◌, ◌+◌, ◌≤◌, ◌^◌, ◌<◌, ◌↔◌, IfOk, IsTrue, Some, length, replicate, slice_set};
ghost use Rattle.hp_text.specs.Page.{text_of as page_text};
ghost use Rattle.hp_cut.specs.Places.{IsOf};
ghost use Rattle.hp_pieces.specs.At.{IsAt};
ghost use Rattle.hp_board.specs.declared.journal.Status.TheVariants as status;
ghost use Rattle.hp_board.specs.declared.slot.Slot.TheVariants as slot;
ghost use Rattle.hp_board.specs.Calls.{IsBoardOf, IsDone, fresh_tallies, opened};
ghost use Rattle.hp_board.specs.Desk.{IsKept};
ghost use Rattle.hp_board.specs.Machine.{replay};

use crate::board::Board;
use crate::journal::{Journal, MAIN};
use crate::slot::Slot;
use crate::tally::Tally;
use hp_cut::Cuts;
use hp_elements::NoMemory;
use hp_merge::Front;
use hp_text::Page;
use std::alloc::Global;

impl<'p> Board<'p> {
    /// The board of a page and its cuts, with a tally for each worker, and last main's. `Err` is want of memory.
    pub fn begin(
        alloc: Global,
        page: Page<'p>,
        cuts: Cuts,
        workers: u32,
    ) -> Result<(Board<'p>, Vec<Tally>), NoMemory>
        requires some { 1 ≤ workers }
        requires most { workers ≤ 64 }
        requires cuts { IsOf (page_text page) cuts }
        requires limit { length (page_text page) ≤ 2 ^ 24 }
        ensures board { IfOk result (λ r. r.0 ≡ opened (page_text page.entry) cuts workers) }
        ensures tallies { IfOk result (λ r. r.1.items ≡ fresh_tallies workers) }
    {
        hp_pieces::pages_at();
        let _text = page.text();
        let _places = cuts.places();
        let slots = opening_slots(alloc, cuts.chunks())?;
        let tallies = make_tallies(alloc, workers)?;
        let front = Front::start(alloc)?;
        let board = Board {
            page,
            cuts,
            workers,
            slots,
            journal: Vec::new(alloc),
            done: 0,
            place: 0,
            front,
            owed: 0,
        };
        Ok((board, tallies))
    }

    /// Whether all chunks are done.
    pub fn is_done(&self) -> bool
        ensures done { IsTrue result ↔ IsDone self.now }
        ensures kept { IsKept self.now }
        ensures short { length self.now.journal < 2 ^ 63 }
    {
        self.done == self.chunks()
    }
}

/// The slots of an opening board.
fn opening_slots<'p>(alloc: Global, count: u32) -> Result<Vec<Slot<'p>>, NoMemory>
    requires { 0 < count }
    ensures { IfOk result (λ slots. slots.items ≡ slice_set (replicate count slot.Unclaimed) 0 slot.Again) }
{
    let mut slots = Vec::new(alloc);
    for _made in 0..count {
        slots.push(Slot::Unclaimed)?;
    }
    slots[0] = Slot::Again;
    Ok(slots)
}

/// A tally for each worker, and last main's.
#[tactic(auto, unfolding(crate::specs::Calls::worker_tallies))]
fn make_tallies(alloc: Global, workers: u32) -> Result<Vec<Tally>, NoMemory>
    ensures { IfOk result (λ tallies. tallies.items ≡ fresh_tallies workers) }
{
    let mut tallies = Vec::new(alloc);
    for worker in 0..workers {
        tallies.push(Tally::new(worker))?;
    }
    tallies.push(Tally::new(MAIN))?;
    Ok(tallies)
}
