//! Elements and entries of a view's own that are taken out of mid-list.
ghost use Rattle.std.specs.Prelude.{◌≡◌};
ghost use Rattle.hp_control.specs.Walks.{has_entry};
ghost use Rattle.hp_views.specs.RemovePlans.{take_off_plan, remove_entry_plan};
ghost use Rattle.hp_views.specs.View.{sight, Carries};

use crate::view::View;
use crate::walks::{Walk, listed_walk, open_walk};
use hp_control::{Below, Refusal};
use std::alloc::Global;

impl<'p, B: Below> View<'p, B> {
    /// Takes the own element of this id off the stack, where it stands there. One at the top is popped.
    pub fn take_off(&mut self, _alloc: Global, id: u64) -> Result<(), Refusal>
        ensures { Carries result (sight B.heard self.old) (sight B.heard self.new) (take_off_plan id) }
    {
        match open_walk(&self.change.stack, id) {
            Walk::Found(0) => self.pop_own(1),
            Walk::Found(depth) => self.change.stack.take_out(depth),
            _ => {}
        }
        Ok(())
    }

    /// Takes the own entry of this id out of the list, where it stands there.
    pub fn remove_entry(&mut self, _alloc: Global, id: u64) -> Result<(), Refusal>
        ensures { Carries result (sight B.heard self.old) (sight B.heard self.new) (remove_entry_plan id) }
    {
        if let Walk::Found(depth) = listed_walk(&self.change.formatting, id) {
            self.change.formatting.take_out(depth);
        }
        Ok(())
    }

    /// Whether an own entry has this id.
    pub fn has_entry(&self, id: u64) -> bool
        ensures { result ≡ has_entry id self.now.change.formatting }
    {
        match listed_walk(&self.change.formatting, id) {
            Walk::Found(_) => true,
            Walk::Stopped => false,
            Walk::PastAll => false,
        }
    }
}
