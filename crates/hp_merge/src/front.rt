//! The front.
ghost use Rattle.std.specs.Prelude.{◌≡◌, ◌+◌, ◌≤◌, IfOk, IfErr, OnOk, OnErr};
ghost use Rattle.hp_control.specs.States.{Fits, start};
ghost use Rattle.hp_control.specs.Tree.{applied_all, document};

use crate::checking::{Checked, Looked, check, look};
use crate::joining::{end_tree, join_exact, joined_to};
use crate::spent::Spent;
use hp_arena::Tree;
use hp_control::Control;
use hp_elements::NoMemory;
use hp_pieces::{Ending, Exact, Fragment, Guessed};
use hp_steps::Steps;
use std::alloc::Global;
use std::marker::Model;
use std::mem;
use std::sync::ledger::Ledger;

/// The state and the tree behind the text of a page that was joined so far. A contract sees it as a `Fore`.
pub struct Front<'p> {
    control: Control,
    tree: Tree<'p>,
    /// What is left of fragments, until somebody gives it back.
    spent: Vec<Spent<'p>>,
}

impl<'p> Drop for Front<'p> {
    fn drop(self) {
        let Front {
            control: _,
            tree: _,
            spent: _,
        } = self;
    }
}

impl<'p> Model for Front<'p> {
    ghost use Rattle.hp_merge.specs.Fore.{Fore};

    ghost Value = { Fore };

    ghost view = { λ f. record { control = f.control; tree = f.tree.branches } };
}

/// There is no memory to join a fragment, which comes back.
#[derive(Drop)]
pub struct JoinRefusal<'p> {
    pub fragment: Fragment<'p>,
}

impl<'p> Front<'p> {
    ghost use Rattle.hp_merge.specs.Checked.{IsChecked, IsLooked, MayJoin};
    ghost use Rattle.hp_merge.specs.Cost.{check_cost, join_cost};
    ghost use Rattle.hp_merge.specs.Joined.{joined};
    ghost use Rattle.hp_pieces.specs.declared.fragment.Fragment.TheVariants as fragment_of;

    /// The front before a page's text. `Err` is want of memory.
    pub fn start(alloc: Global) -> Result<Front<'p>, NoMemory>
        ensures { IfOk result (λ front. front ≡ record { control = start; tree = document }) }
    {
        let tree = Tree::start(alloc)?;
        Ok(Front {
            control: Control::start(),
            tree,
            spent: Vec::new(alloc),
        })
    }

    /// The state.
    pub fn control(&self) -> &Control
        ensures { result.now ≡ self.now.control }
    {
        &self.control
    }

    /// The tree.
    pub fn tree(&self) -> &Tree<'p>
        ensures { result.now.branches ≡ self.now.tree }
    {
        &self.tree
    }

    /// Whether a fragment may be joined, and if not, which answer that it assumes is the first that isn't the true one. It takes no
    /// memory, and a step for each answer that is looked at.
    pub fn check<'f, L: Ledger>(
        &self,
        fragment: &'f Fragment<'_>,
        steps: &mut Steps<L>,
    ) -> Checked<'f>
        ensures checked { IsChecked self.now.control fragment.now result }
        ensures cost { steps.new ≤ steps.old + check_cost fragment.now }
    {
        check(&self.control, fragment, steps)
    }

    /// The same as `check`, where the first answer that isn't the true one is told by its place among those that the fragment assumes,
    /// which lends nothing of it.
    pub fn look<L: Ledger>(&self, fragment: &Fragment<'_>, steps: &mut Steps<L>) -> Looked
        ensures looked { IsLooked self.now.control fragment.now result }
        ensures cost { steps.new ≤ steps.old + check_cost fragment.now }
    {
        look(&self.control, fragment, steps)
    }

    /// Joins a fragment: the front is then the state and the tree behind what the fragment covers. It takes a step for each entry that is
    /// put on top and for each edit that is made; that what a fragment has made is put behind the tree counts for nothing. `Err` is want of
    /// memory, which hands the fragment back.
    pub fn join<L: Ledger>(
        &mut self,
        alloc: Global,
        fragment: Fragment<'p>,
        steps: &mut Steps<L>,
    ) -> Result<(), JoinRefusal<'p>>
        requires fits { Fits self.old.control }
        requires holds { MayJoin self.old.control fragment }
        ensures ok { OnOk result (self.new ≡ joined self.old fragment.entry) }
        ensures err { OnErr result (self.new ≡ self.old) }
        ensures back { IfErr result (λ refusal. refusal.fragment ≡ fragment.entry) }
        ensures cost { steps.new ≤ steps.old + join_cost fragment.entry }
    {
        match fragment {
            Fragment::Exact(exact) => self.join_exact(alloc, exact, steps),
            Fragment::Guessed(guess) => self.join_guess(alloc, guess, steps),
        }
    }

    /// Joins what is exact from this state.
    fn join_exact<L: Ledger>(
        &mut self,
        alloc: Global,
        exact: Exact<'p>,
        steps: &mut Steps<L>,
    ) -> Result<(), JoinRefusal<'p>>
        requires holds { MayJoin self.old.control (fragment_of.Exact exact) }
        ensures ok { OnOk result (self.new ≡ joined self.old (fragment_of.Exact exact.entry)) }
        ensures err { OnErr result (self.new ≡ self.old) }
        ensures back { IfErr result (λ refusal. refusal.fragment ≡ fragment_of.Exact exact.entry) }
        ensures cost { steps.new ≤ steps.old + join_cost (fragment_of.Exact exact.entry) }
    {
        match join_exact(alloc, &mut self.tree, exact, steps) {
            Ok((mut states, outer)) => {
                mem::swap(&mut self.control, &mut states.exit);
                self.keep_spent(Spent::Exact { states, outer });
                Ok(())
            }
            Err(exact) => Err(JoinRefusal {
                fragment: Fragment::Exact(exact),
            }),
        }
    }

    /// Joins a guess of which the answers are true.
    fn join_guess<L: Ledger>(
        &mut self,
        alloc: Global,
        guess: Guessed<'p>,
        steps: &mut Steps<L>,
    ) -> Result<(), JoinRefusal<'p>>
        requires fits { Fits self.old.control }
        requires holds { MayJoin self.old.control (fragment_of.Guessed guess) }
        ensures ok { OnOk result (self.new ≡ joined self.old (fragment_of.Guessed guess.entry)) }
        ensures err { OnErr result (self.new ≡ self.old) }
        ensures back { IfErr result (λ refusal. refusal.fragment ≡ fragment_of.Guessed guess.entry) }
        ensures cost { steps.new ≤ steps.old + join_cost (fragment_of.Guessed guess.entry) }
    {
        if guess.covered() == 0 {
            return Ok(());
        }
        let control = mem::replace(&mut self.control, Control::start());
        match joined_to(alloc, control, &mut self.tree, guess, steps) {
            Ok((control, spent)) => {
                self.control = control;
                self.keep_spent(spent);
                Ok(())
            }
            Err((control, guess)) => {
                self.control = control;
                Err(JoinRefusal {
                    fragment: Fragment::Guessed(guess),
                })
            }
        }
    }

    /// Keeps what is left of a fragment. For want of memory it is given back at once.
    pub fn keep_spent(&mut self, spent: Spent<'p>)
        ensures { self.new ≡ self.old }
    {
        match self.spent.push(spent) {
            Ok(()) => {}
            Err(failed) => {
                let _ = failed;
            }
        }
    }

    /// Hands out what is left of fragments, so that it is given back with no front at hand.
    pub fn take_spent(&mut self, alloc: Global) -> Vec<Spent<'p>>
        ensures { self.new ≡ self.old }
    {
        mem::replace(&mut self.spent, Vec::new(alloc))
    }

    /// Ends the page: the tree with the edits of the end of input. `Err` is want of memory.
    pub fn end(self, alloc: Global, ending: Ending<'p>) -> Result<Tree<'p>, NoMemory>
        requires { ending.entry ≡ self.control }
        ensures { IfOk result (λ tree. tree.branches ≡ applied_all self.entry.tree ending.entry.edits) }
    {
        let Front {
            control: _,
            tree,
            spent: _,
        } = self;
        end_tree(alloc, tree, ending)
    }
}
