//! Popping elements off the stack.
ghost use Rattle.std.specs.Prelude.{◌≡◌, ◌≢◌, ◌≤◌, length, Ok, Err, OnOk, IsNone};
ghost use Rattle.hp_views.specs.Steps.{pop_run_step, pop_step, pop_to_first_step, pop_to_step, through_step};
ghost use Rattle.hp_views.specs.View.{sight, split_of, Carries, Meets};
ghost use Rattle.hp_views.specs.StackPlans.{own_popped, pop_run_on, pop_to_on, through_on};
ghost use Rattle.hp_views.specs.declared.walks.Walk.TheVariants.{PastAll};

use crate::asking::{older_reach, older_run};
use crate::view::View;
use crate::walks::{Walk, element_walk, run_of_walk};
use hp_control::{Below, Crossing, Refusal};
use hp_elements::Kinds;
use std::alloc::Global;

impl<'p, B: Below> View<'p, B> {
    /// Pops so many own elements; without an older state the last one stays.
    #[tactic(auto, using(crate::proofs::Popping::popped_none))]
    #[inline(always)]
    pub fn pop_own(&mut self, count: usize)
        requires { count ≤ length self.old.change.stack }
        ensures split { split_of self.new ≡ own_popped count (split_of self.old) }
        ensures below { self.new.below ≡ self.old.below }
    {
        match count {
            0 => {}
            _ => self.pop_some(count),
        }
    }

    /// The same, out of line: mostly there is nothing to pop.
    #[inline(never)]
    fn pop_some(&mut self, count: usize)
        requires { count ≤ length self.old.change.stack }
        ensures split { split_of self.new ≡ own_popped count (split_of self.old) }
        ensures below { self.new.below ≡ self.old.below }
    {
        match self.page {
            Some(_) => {
                let most = self.change.stack.len().saturating_sub(1);
                self.change.stack.drop_top(count.min(most));
            }
            None => self.change.stack.drop_top(count),
        }
    }

    /// Pops all own elements and so many older ones.
    fn pop_past(&mut self, older: u64) -> Result<(), Refusal>
        ensures { PopsPast result older (split_of self.old) self.old.below (split_of self.new) self.new.below }
    {
        let count = self.change.stack.len();
        match self.page {
            Some(_) => self.change.stack.drop_top(count.saturating_sub(1)),
            None => {
                let Some(popped) = self.change.popped.checked_add(older) else {
                    return Err(Refusal::NoMemory);
                };
                self.change.stack.drop_top(count);
                self.change.popped = popped;
            }
        }
        Ok(())
    }

    /// Pops the current node.
    pub fn pop(&mut self, _alloc: Global) -> Result<(), Refusal>
        ensures { Meets result (sight B.heard self.old) (sight B.heard self.new) pop_step }
    {
        if self.change.stack.is_empty() {
            return self.pop_past(1);
        }
        self.pop_own(1);
        Ok(())
    }

    /// Pops while the current node is of these kinds.
    #[inline(always)]
    pub fn pop_run(&mut self, alloc: Global, names: Kinds) -> Result<(), Refusal>
        ensures { Meets result (sight B.heard self.old) (sight B.heard self.new) (pop_run_step names) }
    {
        match run_of_walk(&self.change.stack, &names) {
            Walk::Found(depth) => {
                self.pop_own(depth);
                Ok(())
            }
            _ => self.pop_run_below(alloc, names),
        }
    }

    /// The same where all own elements are of these kinds.
    #[inline(never)]
    fn pop_run_below(&mut self, alloc: Global, names: Kinds) -> Result<(), Refusal>
        ensures { Carries result (sight B.heard self.old) (sight B.heard self.new) (λ v. pop_run_on names v PastAll) }
    {
        let depth = self.change.popped;
        let count = older_run(&mut self.below, alloc, depth, names)?;
        self.pop_past(count)
    }

    /// Pops until the current node is of these kinds.
    #[inline(always)]
    pub fn pop_to(&mut self, alloc: Global, goals: Kinds) -> Result<(), Refusal>
        ensures { Meets result (sight B.heard self.old) (sight B.heard self.new) (pop_to_step goals) }
    {
        match element_walk(&self.change.stack, &goals, &Kinds::Nothing) {
            Walk::Found(depth) => {
                self.pop_own(depth);
                Ok(())
            }
            _ => self.pop_to_below(alloc, goals),
        }
    }

    /// The same where no own element is of these kinds.
    #[inline(never)]
    fn pop_to_below(&mut self, alloc: Global, goals: Kinds) -> Result<(), Refusal>
        ensures { Carries result (sight B.heard self.old) (sight B.heard self.new) (λ v. pop_to_on goals v PastAll) }
    {
        let depth = self.change.popped;
        let reached = older_reach(&mut self.below, alloc, depth, goals, Kinds::Nothing)?;
        match reached {
            Some(count) => self.pop_past(count),
            None => self.pop_past(0),
        }
    }

    /// Pops up to and with the first of the goals, unless a stop stands above it.
    #[inline(always)]
    pub fn through(&mut self, alloc: Global, goals: Kinds, stops: Kinds) -> Result<(), Refusal>
        ensures { Meets result (sight B.heard self.old) (sight B.heard self.new) (through_step goals stops) }
    {
        let walk = element_walk(&self.change.stack, &goals, &stops);
        match walk {
            Walk::Found(depth) => self.pop_own(depth + 1),
            Walk::Stopped => {}
            Walk::PastAll => return self.through_below(alloc, goals, stops),
        }
        Ok(())
    }

    /// The same where no own element is a goal or a stop.
    #[inline(never)]
    fn through_below(&mut self, alloc: Global, goals: Kinds, stops: Kinds) -> Result<(), Refusal>
        ensures { Carries result (sight B.heard self.old) (sight B.heard self.new) (λ v. through_on goals stops v PastAll) }
    {
        let depth = self.change.popped;
        match older_reach(&mut self.below, alloc, depth, goals, stops)? {
            Some(count) => self.pop_past(count + 1),
            None => Ok(()),
        }
    }

    /// Pops all but the first element.
    pub fn pop_to_first(&mut self, _alloc: Global) -> Result<(), Refusal>
        ensures plan { Meets result (sight B.heard self.old) (sight B.heard self.new) pop_to_first_step }
        ensures no_memory { IsNone self.old.page → result ≢ Err Refusal.NoMemory }
    {
        match self.page {
            Some(_) => self.pop_past(0),
            None => Err(Refusal::Crossed(Crossing::X5)),
        }
    }
}

ghost use Rattle.hp_views.specs.View.{PopsPast};
