//! Judgements of the front chunk.
ghost use Rattle.std.specs.Prelude.{◌≡◌, ◌+◌, ◌<◌, ◌≤◌, IfNone, IfOk, IfSome, OnErr, false, length};
ghost use Rattle.hp_board.specs.declared.slot.Slot.TheVariants as slot;
ghost use Rattle.hp_board.specs.Calls.{IsAdvance, IsLookedAt, MayCommit, MayRollBack};
ghost use Rattle.hp_board.specs.Cost.{advance_cost, commit_cost, look_cost};
ghost use Rattle.hp_board.specs.Desk.{SamePage, slot_at, statuses};
ghost use Rattle.hp_board.specs.Machine.{at, is_posted};
ghost use Rattle.hp_board.specs.Tallies.{IsLater, IsRaised, IsRaisedUnlessIdle};

use crate::board::Board;
use crate::journal::{BoardStep, Entry};
use crate::kinds::{QuestionKind, kind_of};
use crate::laws::stays_fair;
use crate::pairs::question_at;
use crate::posts::told;
use crate::slot::Slot;
use crate::spent::told_and_spent;
use crate::steps::Advance;
use crate::tally::Tally;
use hp_control::Kept;
use hp_elements::NoMemory;
use hp_merge::{Looked, fronts_go_on, is_sound};
use hp_pieces::Fragment;
use hp_steps::Steps;
use std::alloc::Global;
use std::mem;
use std::sync::ledger::Ledger;

/// What comes of looking at the front chunk's fragment.
#[derive(Clone, Copy)]
enum Look {
    /// What it assumes is true.
    Holds,
    /// The first pair that it assumes and that is false is of this kind, and stands at this place.
    Fails { kind: QuestionKind, place: usize },
}

impl<'p> Board<'p> {
    /// Judges the front chunk. `Idle` where it isn't posted. Where its fragment assumes what isn't true of the front, it is rolled back;
    /// else what it covers is committed. It takes no more steps than that fragment costs, whatever the chunk's length. `Err` is want of
    /// memory.
    pub fn advance<L: Ledger>(
        &mut self,
        alloc: Global,
        tally: &mut Tally,
        steps: &mut Steps<L>,
    ) -> Result<Advance, NoMemory>
        ensures page { SamePage self.old self.new }
        ensures later { IsLater tally.old tally.new }
        ensures judged { IfOk result (IsAdvance self.old tally.old.worker self.new) }
        ensures raised { IfOk result (IsRaisedUnlessIdle tally.old tally.new) }
        ensures err { OnErr result ((self.new ≡ self.old) × (tally.new ≡ tally.old)) }
        ensures cost { steps.new ≤ steps.old + advance_cost self.old }
    {
        match self.looked_at(steps) {
            None => Ok(Advance::Idle),
            Some(Look::Fails { kind, place }) => Ok(self.roll_back(alloc, tally, kind, place)),
            Some(Look::Holds) => self.commit(alloc, tally, steps),
        }
    }

    /// Whether there is a front chunk to judge: it is posted.
    pub fn is_to_judge(&self) -> bool
        ensures { result ≡ is_posted (at (statuses self.now) self.now.done) }
    {
        matches!(self.slots.get(self.done as usize), Some(Slot::Posted(_)))
    }

    /// What comes of looking at the front chunk's fragment, where that chunk is posted.
    fn looked_at<L: Ledger>(&self, steps: &mut Steps<L>) -> Option<Look>
        ensures within { IfSome result (λ _. self.now.done < length self.now.slots) }
        ensures look { IfSome result (IsLookedAt self.now) }
        ensures idle { IfNone result (is_posted (at (statuses self.now) self.now.done) ≡ false) }
        ensures cost { steps.new ≤ steps.old + look_cost (slot_at self.now self.now.done) }
    {
        self.kept();
        let Some(fragment) = self.posted() else {
            return None;
        };
        told(fragment);
        match self.front.look(fragment, steps) {
            Looked::OtherEntry => unreachable!(),
            Looked::Fails { place } => Some(Look::Fails {
                kind: kind_of(question_at(fragment, place)),
                place,
            }),
            Looked::Holds => Some(Look::Holds),
        }
    }

    /// The front chunk's fragment, where that chunk is posted.
    fn posted(&self) -> Option<&Fragment<'p>>
        ensures within { IfSome result (λ _. self.now.done < length self.now.slots) }
        ensures posted { IfSome result (λ fragment. slot_at self.now self.now.done ≡ slot.Posted fragment.now) }
        ensures idle { IfNone result (is_posted (at (statuses self.now) self.now.done) ≡ false) }
    {
        match self.slots.get(self.done as usize) {
            Some(Slot::Posted(fragment)) => Some(fragment),
            _ => None,
        }
    }

    /// Gives up the front chunk's fragment, of which the first false pair is of that kind and stands at that place.
    fn roll_back(
        &mut self,
        alloc: Global,
        tally: &mut Tally,
        kind: QuestionKind,
        place: usize,
    ) -> Advance
        requires within { self.old.done < length self.old.slots }
        requires posted { MayRollBack self.old kind place }
        ensures page { SamePage self.old self.new }
        ensures judged { IsAdvance self.old tally.old.worker self.new result }
        ensures raised { IsRaised tally.old tally.new }
    {
        self.kept();
        stays_fair();
        let chunk = self.done;
        let step = BoardStep::RolledBack { chunk, kind };
        let Slot::Posted(Fragment::Guessed(guessed)) = self.put(tally, chunk, Slot::Again, step)
        else {
            unreachable!()
        };
        let (pair, spent) = told_and_spent(alloc, guessed, place);
        self.keep_spent(spent);
        match pair {
            Some(Kept { question, answer }) => Advance::RolledBack { question, answer },
            None => unreachable!(),
        }
    }

    /// Commits what the front chunk's fragment covers.
    fn commit<L: Ledger>(
        &mut self,
        alloc: Global,
        tally: &mut Tally,
        steps: &mut Steps<L>,
    ) -> Result<Advance, NoMemory>
        requires within { self.old.done < length self.old.slots }
        requires posted { MayCommit self.old }
        ensures page { SamePage self.old self.new }
        ensures later { IsLater tally.old tally.new }
        ensures judged { IfOk result (IsAdvance self.old tally.old.worker self.new) }
        ensures raised { IfOk result (IsRaisedUnlessIdle tally.old tally.new) }
        ensures err { OnErr result ((self.new ≡ self.old) × (tally.new ≡ tally.old)) }
        ensures cost { steps.new ≤ steps.old + commit_cost (slot_at self.old self.old.done) }
    {
        self.kept();
        fronts_go_on();
        let chunk = self.done;
        let start = self.cuts.chunk(self.page, chunk).from;
        let Slot::Posted(fragment) = mem::replace(&mut self.slots[chunk as usize], Slot::Again)
        else {
            unreachable!()
        };
        is_sound(&fragment);
        told(&fragment);
        stays_fair();
        let covered = fragment.covered();
        let is_whole = covered == fragment.text().len() as u64;
        if let Err(refusal) = self.front.join(alloc, fragment, steps) {
            self.slots[chunk as usize] = Slot::Posted(refusal.fragment);
            return Err(NoMemory);
        }
        self.place += covered;
        self.owed -= 1;
        let worker = tally.worker();
        tally.raise();
        if is_whole {
            self.slots[chunk as usize] = Slot::Done;
            self.done += 1;
            let step = BoardStep::Kept { chunk };
            self.journal.push_reserved(Entry { worker, step });
            Ok(Advance::Kept)
        } else {
            let at = self.place - start;
            let step = BoardStep::Repaired { chunk, at };
            self.journal.push_reserved(Entry { worker, step });
            Ok(Advance::Repaired { at })
        }
    }
}
