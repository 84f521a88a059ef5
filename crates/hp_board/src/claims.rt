//! Claims of chunks, and what takes them back.
ghost use Rattle.std.specs.Prelude.{Bool, ◌≡◌, ◌+◌, ◌-◌, ◌<◌, ◌≤◌, ◌^◌, IfNone, IfOk, IfSome, OnErr, count_by, is_some, length, min, true};
ghost use Rattle.std.specs.Bool.{OnFalse, OnTrue};
ghost use Rattle.hp_board.specs.Calls.{IsAllClaimed, IsClaim, is_claimed, is_yours, recalled, released, released_slot};
ghost use Rattle.hp_board.specs.Desk.{SamePage, slot_at, statuses};
ghost use Rattle.hp_board.specs.Machine.{at, is_again, is_first, is_next, is_unclaimed, none};
ghost use Rattle.hp_board.specs.Tallies.{IsLater, IsRaised};

use crate::board::Board;
use crate::journal::{BoardStep, Entry};
use crate::slot::{Slot, first_unclaimed};
use crate::steps::Claim;
use crate::tally::Tally;
use hp_elements::NoMemory;
use std::alloc::Global;

impl<'p> Board<'p> {
    /// Claims the next chunk: what is left of the one that is Again, with the front's state, or else the first that is Unclaimed. `None`
    /// where there is neither. It takes the journal's room for the steps that follow a claim; `Err` is want of memory.
    pub fn claim(&mut self, alloc: Global, tally: &mut Tally) -> Result<Option<Claim<'p>>, NoMemory>
        ensures page { SamePage self.old self.new }
        ensures later { IsLater tally.old tally.new }
        ensures some { IfOk result (λ claim. IfSome claim (λ claim. IsClaim self.old tally.old.worker claim self.new × IsRaised tally.old tally.new)) }
        ensures none { IfOk result (λ claim. IfNone claim (IsAllClaimed self.old × (self.new ≡ self.old) × (tally.new ≡ tally.old))) }
        ensures err { OnErr result ((self.new ≡ self.old) × (tally.new ≡ tally.old)) }
    {
        let Some((number, again)) = self.next_chunk() else {
            return Ok(None);
        };
        let chunk = self.rest(number);
        let from = if again {
            Some(self.front.control().copy(alloc)?)
        } else {
            None
        };
        self.journal.reserve(self.owed + 3)?;
        let worker = tally.worker();
        self.slots[number as usize] = Slot::claimed(worker, again);
        self.owed += 2;
        let step = BoardStep::Claimed {
            chunk: number,
            again,
        };
        self.journal.push_reserved(Entry { worker, step });
        tally.raise();
        Ok(Some(Claim { chunk, from }))
    }

    /// How many chunks the next one to claim stands behind the front chunk. `None` where there is none to claim.
    pub fn lead(&self) -> Option<u32>
        ensures some { IfSome result (λ lead. (again : Bool) × (is_next (statuses self.now) (self.now.done + lead) again ≡ true)) }
        ensures none { IfNone result (IsAllClaimed self.now) }
    {
        let (number, _) = self.next_chunk()?;
        Some(number - self.done)
    }

    /// The next chunk to claim, and whether it is Again.
    fn next_chunk(&self) -> Option<(u32, bool)>
        ensures within { IfSome result (λ next. (next.0 < length self.now.slots) × (self.now.done ≤ next.0)) }
        ensures next { IfSome result (λ next. is_next (statuses self.now) next.0 next.1 ≡ true) }
        ensures none { IfNone result (IsAllClaimed self.now) }
    {
        self.kept();
        if self.is_front_again() {
            return Some((self.done, true));
        }
        match self.first_free() {
            Some(chunk) => Some((chunk, false)),
            None => None,
        }
    }

    /// Whether the front chunk is Again.
    fn is_front_again(&self) -> bool
        ensures { result ≡ is_again (at (statuses self.now) self.now.done) }
    {
        matches!(self.slots.get(self.done as usize), Some(Slot::Again))
    }

    /// The first chunk that is Unclaimed. Those before the front chunk are Done.
    fn first_free(&self) -> Option<u32>
        ensures within { IfSome result (λ chunk. chunk < length self.now.slots) }
        ensures first { IfSome result (λ chunk. is_first is_unclaimed (statuses self.now) chunk ≡ true) }
        ensures none { IfNone result (none is_unclaimed (statuses self.now) ≡ true) }
    {
        let _few = self.chunks();
        match first_unclaimed(&self.slots[self.done as usize..]) {
            Some(behind) => Some(self.done + behind as u32),
            None => None,
        }
    }

    /// Takes back the claim of a chunk of this worker. It takes no memory.
    pub fn release(&mut self, tally: &mut Tally, chunk: u32) -> bool
        ensures page { SamePage self.old self.new }
        ensures later { IsLater tally.old tally.new }
        ensures yours { result ≡ is_yours self.old tally.old.worker chunk }
        ensures board { OnTrue result (self.new ≡ released tally.old.worker self.old chunk) }
        ensures raised { OnTrue result (IsRaised tally.old tally.new) }
        ensures unchanged { OnFalse result ((self.new ≡ self.old) × (tally.new ≡ tally.old)) }
    {
        self.is_yours(tally.worker(), chunk) && self.unclaim(tally, chunk)
    }

    /// Takes back every claim, and answers how many there were. It takes no memory.
    #[tactic(auto, unfolding(crate::specs::Calls::recalled))]
    pub fn recall(&mut self, tally: &mut Tally) -> u32
        ensures page { SamePage self.old self.new }
        ensures later { IsLater tally.old tally.new }
        ensures board { self.new ≡ recalled tally.old.worker self.old (length self.old.slots) }
        ensures count { result ≡ count_by is_claimed self.old.slots }
        ensures raised { tally.new.entries ≡ min (tally.old.entries + result) (2 ^ 64 - 1) }
    {
        let _before = tally.entries();
        let mut count = 0;
        for chunk in 0..self.chunks() {
            if self.unclaim(tally, chunk) {
                count += 1;
            }
        }
        count
    }

    /// Takes back the claim of a chunk, whoever has it.
    fn unclaim(&mut self, tally: &mut Tally, chunk: u32) -> bool
        ensures page { SamePage self.old self.new }
        ensures later { IsLater tally.old tally.new }
        ensures board { self.new ≡ released tally.old.worker self.old chunk }
        ensures some { result ≡ is_some (released_slot (slot_at self.old chunk)) }
        ensures raised { OnTrue result (IsRaised tally.old tally.new) }
        ensures unchanged { OnFalse result (tally.new ≡ tally.old) }
    {
        match self.before_claim(chunk) {
            None => false,
            Some(before) => {
                self.kept();
                let _ = self.put(tally, chunk, before, BoardStep::Released { chunk });
                true
            }
        }
    }

    /// The slot that a claimed chunk had before its claim.
    fn before_claim(&self, chunk: u32) -> Option<Slot<'p>>
        ensures { result ≡ released_slot (slot_at self.now chunk) }
    {
        match self.slots.get(chunk as usize) {
            Some(slot) => slot.released(),
            None => None,
        }
    }
}
