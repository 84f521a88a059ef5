//! Resetting the insertion mode (13.2.4.1).
ghost use Rattle.std.specs.Prelude.{◌≡◌, ◌<◌, ◌≤◌, ◌+◌, drop, length, slice_index_or, ℕ};
ghost use Rattle.hp_control.specs.declared.element.OpenElement.{OpenElement};
ghost use Rattle.hp_views.specs.Steps.{reset_step};
ghost use Rattle.hp_views.specs.View.{sight, split_of, Answers, Meets};
ghost use Rattle.hp_views.specs.ResetPlans.{table_plan};

use crate::asking::older_reset;
use crate::place::{a_table, a_template};
use crate::view::View;
use crate::walks::{Walk, element_walk_from};
use hp_control::{Below, OpenElement, Refusal, Stack, is_named, mode_of};
use hp_elements::{Known, Mode};
use std::alloc::Global;

/// What an element decides of the insertion mode.
#[derive(Clone, Copy)]
pub enum Decides {
    Nothing,
    /// It is a select: in select, in or out of a table.
    Select,
    To(Mode),
}

/// What an element decides, of which it is said whether it is the first of all, and whether the page has a head.
fn decided(
    element: &OpenElement,
    is_first: bool,
    templates: &Stack<Mode>,
    has_head: bool,
) -> Decides
    ensures { result ≡ decided_by is_first has_head templates.now element.now }
{
    if is_named(Known::SELECT, element) {
        return Decides::Select;
    }
    let is_cell = is_named(Known::TD, element) || is_named(Known::TH, element);
    if is_cell && !is_first {
        return Decides::To(Mode::InCell);
    }
    if is_named(Known::TEMPLATE, element) {
        return Decides::To(if templates.is_empty() {
            Mode::InBody
        } else {
            *templates.at(0)
        });
    }
    if is_named(Known::HEAD, element) && !is_first {
        return Decides::To(Mode::InHead);
    }
    if is_named(Known::HTML, element) {
        return Decides::To(if has_head {
            Mode::AfterHead
        } else {
            Mode::BeforeHead
        });
    }
    match mode_of(element) {
        Some(mode) => Decides::To(mode),
        None => Decides::Nothing,
    }
}

ghost use Rattle.hp_views.specs.ResetPlans.{decided_by, decides_at};

impl<'p, B: Below> View<'p, B> {
    /// What the own element at that depth decides.
    fn decides_at(&self, depth: usize) -> Decides
        requires { depth < length self.now.change.stack }
        ensures { result ≡ decides_at (split_of self.now) (drop depth self.now.change.stack) }
    {
        let element = self.change.stack.at(depth);
        let templates = &self.change.templates;
        match self.page {
            Some(facts) => {
                let is_first = self.change.stack.len() == depth + 1;
                decided(element, is_first, templates, facts.head.is_some())
            }
            None => decided(element, false, templates, true),
        }
    }

    /// Whether a table stands before a template from that depth downward.
    fn table_comes(&mut self, alloc: Global, from: usize) -> Result<bool, Refusal>
        requires { from ≤ length self.old.change.stack }
        ensures { Answers result (sight B.heard self.old) (sight B.heard self.new) (λ v. table_plan v (drop from self.old.change.stack)) }
    {
        let walk = element_walk_from(&self.change.stack, from, &a_table(), &a_template());
        match walk {
            Walk::Found(_) => Ok(true),
            Walk::Stopped => Ok(false),
            Walk::PastAll => self.seen_below(alloc, a_table(), a_template()),
        }
    }

    /// Resets the insertion mode.
    pub fn reset(&mut self, alloc: Global) -> Result<(), Refusal>
        ensures { Meets result (sight B.heard self.old) (sight B.heard self.new) reset_step }
    {
        for depth in 0..self.change.stack.len() {
            match self.decides_at(depth) {
                Decides::Nothing => {}
                Decides::Select => {
                    self.change.mode = if self.table_comes(alloc, depth + 1)? {
                        Mode::InSelectInTable
                    } else {
                        Mode::InSelect
                    };
                    return Ok(());
                }
                Decides::To(mode) => {
                    self.change.mode = mode;
                    return Ok(());
                }
            }
        }
        let depth = self.change.popped;
        let mode = older_reset(&mut self.below, alloc, depth)?;
        self.change.mode = mode;
        Ok(())
    }
}
