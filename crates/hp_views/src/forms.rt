//! The end of a form (13.2.6.4.7).
ghost use Rattle.std.specs.Prelude.{◌≡◌, [], Err};
ghost use Rattle.hp_views.specs.FormPlans.{own_form_plan, older_form_on, older_form_plan, older_off_plan};
ghost use Rattle.hp_views.specs.Steps.{end_form_step};
ghost use Rattle.hp_views.specs.View.{sight, Carries, Meets};
ghost use Rattle.hp_views.specs.declared.walks.Walk.TheVariants.{PastAll};

use crate::asking::{Pointed, older_pointer};
use crate::view::View;
use crate::walks::{Walk, element_walk, scope_walk};
use hp_control::{Below, Crossing, FormChange, Refusal};
use hp_elements::{Kinds, SetName};
use std::alloc::Global;

impl<'p, B: Below> View<'p, B> {
    /// The end of a form.
    pub fn end_form(&mut self, alloc: Global) -> Result<(), Refusal>
        ensures { Meets result (sight B.heard self.old) (sight B.heard self.new) end_form_step }
    {
        if self.template_in_stack(alloc)? {
            return self.end_form_in_template(alloc);
        }
        match self.change.form {
            FormChange::Cleared => Ok(()),
            FormChange::Own(id) => self.end_own_form(alloc, id),
            FormChange::Kept => self.end_older_form(alloc),
        }
    }

    /// The end of an own form outside of templates: the pointer is emptied, and its element, where it is in scope, leaves the stack.
    fn end_own_form(&mut self, alloc: Global, id: u64) -> Result<(), Refusal>
        ensures { Carries result (sight B.heard self.old) (sight B.heard self.new) (own_form_plan id) }
    {
        self.change.form = FormChange::Cleared;
        match scope_walk(&self.change.stack, id) {
            Walk::Found(_) => {
                self.implied(alloc)?;
                self.take_off(alloc, id)
            }
            _ => Ok(()),
        }
    }

    /// The same of a form that stands in the older state, if one does. Where an own end of a scope stands above it, it isn't in scope,
    /// and nothing is asked.
    fn end_older_form(&mut self, alloc: Global) -> Result<(), Refusal>
        ensures { Carries result (sight B.heard self.old) (sight B.heard self.new) older_form_plan }
    {
        let ends = Kinds::Set(SetName::DefaultScopeEnds);
        let walk = element_walk(&self.change.stack, &Kinds::Nothing, &ends);
        match walk {
            Walk::PastAll => self.end_pointed_form(alloc),
            _ => {
                self.change.form = FormChange::Cleared;
                Ok(())
            }
        }
    }

    /// The same where the older state tells whether it is in scope.
    fn end_pointed_form(&mut self, alloc: Global) -> Result<(), Refusal>
        ensures { Carries result (sight B.heard self.old) (sight B.heard self.new) (λ v. older_form_on v PastAll) }
    {
        let depth = self.change.popped;
        let pointed = older_pointer(&mut self.below, alloc, depth)?;
        self.change.form = FormChange::Cleared;
        match pointed {
            Pointed::Here(count) => {
                self.implied(alloc)?;
                self.take_older_off(alloc, depth + count)
            }
            Pointed::Nowhere | Pointed::Away => Ok(()),
        }
    }

    /// Takes the older element at that depth off the stack, where it stands there still: one that isn't the current node is
    /// not this view's to take. Memory is wanting only where it is the current node.
    fn take_older_off(&mut self, alloc: Global, depth: u64) -> Result<(), Refusal>
        ensures plan { Carries result (sight B.heard self.old) (sight B.heard self.new) (older_off_plan depth) }
        ensures no_memory { result ≡ Err Refusal.NoMemory → (self.old.change.stack ≡ []) × (depth ≡ self.old.change.popped) }
    {
        if depth < self.change.popped {
            return Ok(());
        }
        if self.change.stack.is_empty() && depth == self.change.popped {
            return self.pop(alloc);
        }
        Err(Refusal::Crossed(Crossing::X3))
    }
}
