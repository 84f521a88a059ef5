//! The board.
ghost use Rattle.std.specs.Prelude.{◌≡◌, ◌<◌, ◌≤◌, ◌^◌, [], Some, length, replicate, slice_set};
ghost use Rattle.hp_text.specs.Page.{text_of as page_text};
ghost use Rattle.hp_control.specs.States.{Fits};
ghost use Rattle.hp_pieces.specs.At.{IsAt};
ghost use Rattle.hp_board.specs.declared.journal.Status.TheVariants as status;
ghost use Rattle.hp_board.specs.Calls.{IsBoardOf, IsDone};
ghost use Rattle.hp_board.specs.Desk.{IsInOrder, IsKept, SamePage, entry, owed_of, put, rest_of, rest_start, slot_at, status_of, statuses};
ghost use Rattle.hp_board.specs.FairLaws.{IsFairOn};
ghost use Rattle.hp_board.specs.Machine.{end_of, kept_by, moved, replay, stepped};
ghost use Rattle.hp_board.specs.Origins.{chunk_of_step};
ghost use Rattle.hp_board.specs.Tallies.{IsRaised};

use crate::journal::{BoardStep, Entry, Journal};
use crate::slot::Slot;
use crate::tally::Tally;
use hp_cut::Cuts;
use hp_merge::Front;
use hp_text::{Chunk, Page};
use std::marker::Model;
use std::mem;

/// Which chunk of a page is whose, what was posted, what is committed, and how it came to that. A contract sees it as a `Desk`; what
/// it keeps is `IsKept` of specs/Desk.antt.
pub struct Board<'p> {
    pub(crate) page: Page<'p>,
    pub(crate) cuts: Cuts,
    pub(crate) workers: u32,
    pub(crate) slots: Vec<Slot<'p>>,
    pub(crate) journal: Journal,
    /// The front chunk.
    pub(crate) done: u32,
    /// Up to where the page is committed, in bytes of its text.
    pub(crate) place: u64,
    pub(crate) front: Front<'p>,
    /// For how many entries the journal keeps room, so that no step behind a claim takes memory.
    pub(crate) owed: usize,
}

impl<'p> Drop for Board<'p> {
    fn drop(self) {
        let Board {
            page: _,
            cuts: _,
            workers: _,
            slots: _,
            journal: _,
            done: _,
            place: _,
            front: _,
            owed: _,
        } = self;
    }
}

impl<'p> Model for Board<'p> {
    ghost use Rattle.std.specs.Prelude.{◌≡◌, ◌≤◌, ◌+◌, sum_by, vec_capacity, vec_len};
    ghost use Rattle.hp_text.specs.Page.{text_of};
    ghost use Rattle.hp_board.specs.Desk.{Desk, IsKept, owed_of};

    ghost Value = { Desk };

    ghost view = { λ b. record { text = text_of b.page; cuts = b.cuts; workers = b.workers; slots = b.slots.items; journal = b.journal.items; done = b.done; place = b.place; control = b.front.control; tree = b.front.tree } };

    ghost invariant = { λ b. IsKept (record { text = text_of b.page; cuts = b.cuts; workers = b.workers; slots = b.slots.items; journal = b.journal.items; done = b.done; place = b.place; control = b.front.control; tree = b.front.tree })
        × (b.owed ≡ sum_by owed_of b.slots.items)
        × (vec_len b.journal + b.owed ≤ vec_capacity b.journal) };
}

impl<'p> Board<'p> {
    /// What each board keeps: this hands the fact to whoever has one.
    pub fn kept(&self)
        ensures kept { IsKept self.now }
        ensures fits { Fits self.now.control }
    {
        hp_pieces::pages_at();
        let _done = self.done;
    }

    /// The front and the journal of a board on which all is done. The tallies are given up.
    pub fn finish(self, tallies: Vec<Tally>) -> (Front<'p>, Journal)
        requires done { IsDone self }
        requires tallies { IsBoardOf self self.text self.cuts tallies.items }
        ensures at { IsAt self.entry.text (length self.entry.text) result.0.control result.0.tree }
        ensures front { (result.0.control ≡ self.entry.control) × (result.0.tree ≡ self.entry.tree) }
        ensures journal { result.1.items ≡ self.entry.journal }
        ensures replayed { replay (length self.entry.slots) result.1.items ≡ Some (replicate (length self.entry.slots) status.Done) }
    {
        self.kept();
        let _ = tallies;
        let Board {
            page: _,
            cuts: _,
            workers: _,
            slots: _,
            journal,
            done: _,
            place: _,
            front,
            owed: _,
        } = self;
        (front, journal)
    }

    /// The number of chunks.
    pub(crate) fn chunks(&self) -> u32
        ensures count { result ≡ length self.now.slots }
        ensures few { result ≤ 4096 }
    {
        self.cuts.chunks()
    }

    /// What is left of a chunk that isn't done.
    pub(crate) fn rest(&self, number: u32) -> Chunk<'p>
        requires within { number < length self.now.slots }
        requires undone { self.now.done ≤ number }
        ensures page { page_text result.page ≡ self.now.text }
        ensures number { result.number ≡ number }
        ensures from { result.from ≡ rest_start self.now number }
        ensures to { result.to ≡ end_of self.now.cuts number }
    {
        let page = self.page;
        let chunk = self.cuts.chunk(page, number);
        let from = self.place.max(chunk.from);
        Chunk {
            page,
            number,
            from,
            to: chunk.to,
        }
    }

    /// The bytes that are left of a chunk that isn't done.
    pub(crate) fn rest_text(&self, number: u32) -> &'p [u8]
        requires within { number < length self.now.slots }
        requires undone { self.now.done ≤ number }
        ensures { result.now ≡ rest_of self.now number }
    {
        self.rest(number).text()
    }

    /// Puts a slot in place of one that owes more, with its entry, and answers that one.
    pub(crate) fn put(
        &mut self,
        tally: &mut Tally,
        chunk: u32,
        slot: Slot<'p>,
        step: BoardStep,
    ) -> Slot<'p>
        requires within { chunk < length self.old.slots }
        requires about { chunk_of_step step ≡ chunk }
        requires step { stepped (statuses self.old) tally.old.worker step ≡ Some (slice_set (statuses self.old) chunk (status_of slot)) }
        requires stays { moved self.old.cuts self.old.place step ≡ self.old.place }
        requires keeps { kept_by step ≡ [] }
        requires fits { IsInOrder (put self.old chunk slot (entry tally.old.worker step)) chunk slot }
        requires fair { IsFairOn self.old tally.old.worker step }
        requires owes { owed_of slot < owed_of (slot_at self.old chunk) }
        ensures page { SamePage self.old self.new }
        ensures board { self.new ≡ put self.old chunk slot.entry (entry tally.old.worker step) }
        ensures raised { IsRaised tally.old tally.new }
        ensures before { result ≡ slot_at self.old chunk }
    {
        let owes = slot.owes();
        self.owed -= self.slots[chunk as usize].owes() - owes;
        let before = mem::replace(&mut self.slots[chunk as usize], slot);
        self.journal.push_reserved(Entry {
            worker: tally.worker(),
            step,
        });
        tally.raise();
        before
    }
}
