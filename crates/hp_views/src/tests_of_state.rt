//! What the rules test of the state.
ghost use Rattle.std.specs.Prelude.{◌≡◌};
ghost use Rattle.hp_views.specs.View.{sight, Answers};
ghost use Rattle.hp_views.specs.StackPlans.{seen_plan, in_scope_plan, current_is_plan, below_is_plan, template_plan, frameset_ok_plan, is_quirks_plan, has_form_plan, is_table_mode};

use crate::asking::{
    Pointed, older_body, older_foreign, older_frameset, older_html, older_last_tag,
    older_paragraph, older_pointer, older_quirks, older_seen, older_template, older_there,
};
use crate::place::a_template;
use crate::view::View;
use crate::walks::{Walk, element_walk};
use hp_control::{
    Below, FormChange, OpenElements, Refusal, is_html, is_named, is_within, second_is_body,
};
use hp_elements::{Kinds, Known, Mode, Name, NoMemory, Scope, SetName};
use std::alloc::Global;

/// The elements that end a scope.
fn ends_of(scope: Scope) -> SetName
    ensures { result ≡ spec_ends_of scope }
{
    match scope {
        Scope::Default => SetName::DefaultScopeEnds,
        Scope::ListItem => SetName::ListItemScopeEnds,
        Scope::Button => SetName::ButtonScopeEnds,
        Scope::Table => SetName::TableScopeEnds,
        Scope::Select => SetName::SelectScopeEnds,
    }
}

ghost use Rattle.hp_control.specs.Composed.{ends_of as spec_ends_of};

/// Whether the first element of the stack is an HTML `body`.
fn last_is_body(stack: &OpenElements) -> bool
    ensures { result ≡ spec_last_is_body stack.now }
{
    let count = stack.len();
    count >= 1 && is_named(Known::BODY, stack.at(count - 1))
}

ghost use Rattle.hp_views.specs.SecondPlans.{last_is_body as spec_last_is_body, second_plan, own_modes, foreign_now_plan};
ghost use Rattle.hp_views.specs.View.{Knows};
ghost use Rattle.hp_views.specs.Asking.{ask_html, ask_last_tag, ask_paragraph, ask_seen};
ghost use Rattle.hp_elements.specs.declared.kinds.Kinds.TheVariants as kinds;

impl<'p, B: Below> View<'p, B> {
    /// Whether a goal stands above each stop.
    #[inline(always)]
    pub fn is_seen(&mut self, alloc: Global, goals: Kinds, stops: Kinds) -> Result<bool, Refusal>
        ensures { Answers result (sight B.heard self.old) (sight B.heard self.new) (seen_plan goals stops) }
    {
        let walk = element_walk(&self.change.stack, &goals, &stops);
        match walk {
            Walk::PastAll => self.seen_below(alloc, goals, stops),
            _ => Ok(matches!(walk, Walk::Found(_))),
        }
    }

    /// The same of what is left of the older stack.
    #[inline(never)]
    pub(crate) fn seen_below(
        &mut self,
        alloc: Global,
        goals: Kinds,
        stops: Kinds,
    ) -> Result<bool, Refusal>
        ensures { Answers result (sight B.heard self.old) (sight B.heard self.new) (λ v. ask_seen v.change.popped goals stops) }
    {
        let depth = self.change.popped;
        Ok(older_seen(&mut self.below, alloc, depth, goals, stops)?)
    }

    /// Whether the older current node is of these kinds.
    #[inline(always)]
    fn older_is(&mut self, alloc: Global, goals: Kinds) -> Result<bool, Refusal>
        ensures { Answers result (sight B.heard self.old) (sight B.heard self.new) (λ v. ask_seen v.change.popped goals kinds.All) }
    {
        match goals {
            Kinds::AnyHtml => self.html_below(alloc),
            other => self.seen_below(alloc, other, Kinds::All),
        }
    }

    /// Whether it is an HTML element.
    #[inline(always)]
    fn html_below(&mut self, alloc: Global) -> Result<bool, Refusal>
        ensures { Answers result (sight B.heard self.old) (sight B.heard self.new) (λ v. ask_html v.change.popped) }
    {
        let depth = self.change.popped;
        Ok(older_html(&mut self.below, alloc, depth)?)
    }

    /// Whether a p element of what is left of the older stack is in button scope.
    #[inline(always)]
    pub(crate) fn paragraph_below(&mut self, alloc: Global) -> Result<bool, Refusal>
        ensures { Answers result (sight B.heard self.old) (sight B.heard self.new) (λ v. ask_paragraph v.change.popped) }
    {
        let depth = self.change.popped;
        Ok(older_paragraph(&mut self.below, alloc, depth)?)
    }

    /// Whether an element of these kinds is in that scope (13.2.4.2).
    #[inline(always)]
    pub fn in_scope(&mut self, alloc: Global, scope: Scope, goals: Kinds) -> Result<bool, Refusal>
        ensures { Answers result (sight B.heard self.old) (sight B.heard self.new) (in_scope_plan scope goals) }
    {
        self.is_seen(alloc, goals, Kinds::Set(ends_of(scope)))
    }

    /// Whether the current node is of these kinds.
    #[inline(always)]
    pub fn current_is(&mut self, alloc: Global, goals: Kinds) -> Result<bool, Refusal>
        ensures { Answers result (sight B.heard self.old) (sight B.heard self.new) (current_is_plan goals) }
    {
        if self.change.stack.is_empty() {
            self.older_is(alloc, goals)
        } else {
            Ok(is_within(&goals, self.change.stack.at(0)))
        }
    }

    /// Whether the element next below the current node is of these kinds.
    pub fn below_is(&mut self, alloc: Global, goals: Kinds) -> Result<bool, Refusal>
        ensures { Answers result (sight B.heard self.old) (sight B.heard self.new) (below_is_plan goals) }
    {
        match self.change.stack.len() {
            0 => {
                let Some(depth) = self.change.popped.checked_add(1) else {
                    return Err(Refusal::NoMemory);
                };
                Ok(older_seen(&mut self.below, alloc, depth, goals, Kinds::All)?)
            }
            1 => self.seen_below(alloc, goals, Kinds::All),
            _ => Ok(is_within(&goals, self.change.stack.at(1))),
        }
    }

    /// Whether the current node is not an HTML element: there CDATA sections are read (13.2.5.42).
    pub fn foreign_now(&mut self, alloc: Global) -> Result<bool, NoMemory>
        ensures { Knows result (sight B.heard self.old) (sight B.heard self.new) foreign_now_plan }
    {
        if !self.change.stack.is_empty() {
            return Ok(!is_html(self.change.stack.at(0)));
        }
        let depth = self.change.popped;
        if older_html(&mut self.below, alloc, depth)? {
            return Ok(false);
        }
        older_foreign(&mut self.below, alloc, depth)
    }

    /// The name of the last start tag before the chunk.
    pub fn last_tag(&mut self, alloc: Global) -> Result<Name, NoMemory>
        ensures { Knows result (sight B.heard self.old) (sight B.heard self.new) (λ v. ask_last_tag) }
    {
        older_last_tag(&mut self.below, alloc)
    }

    /// Whether the second element is an HTML `body`. Over an older state an own element is the second where only the first one
    /// is left below, which is asked where that matters.
    pub fn second_is_body(&mut self, alloc: Global) -> Result<bool, Refusal>
        ensures { Answers result (sight B.heard self.old) (sight B.heard self.new) second_plan }
    {
        if self.page.is_some() {
            return Ok(second_is_body(&self.change.stack, 0));
        }
        let depth = self.change.popped;
        if last_is_body(&self.change.stack) {
            let Some(next) = depth.checked_add(1) else {
                return Err(Refusal::NoMemory);
            };
            if !older_there(&mut self.below, alloc, next)? {
                return Ok(true);
            }
        }
        Ok(older_body(&mut self.below, alloc, depth)?)
    }

    /// Whether there is a template mode. Over an older state only those of the view's own are seen.
    pub fn has_template_modes(&self) -> bool
        ensures { result ≡ own_modes self.now.change.templates }
    {
        !self.change.templates.is_empty()
    }

    /// Whether a template is open.
    pub fn template_in_stack(&mut self, alloc: Global) -> Result<bool, Refusal>
        ensures { Answers result (sight B.heard self.old) (sight B.heard self.new) template_plan }
    {
        let walk = element_walk(&self.change.stack, &a_template(), &Kinds::Nothing);
        match walk {
            Walk::Found(_) => Ok(true),
            _ => {
                let depth = self.change.popped;
                Ok(older_template(&mut self.below, alloc, depth)?)
            }
        }
    }

    /// Whether a frameset may still replace the body.
    pub fn is_frameset_ok(&mut self, alloc: Global) -> Result<bool, Refusal>
        ensures { Answers result (sight B.heard self.old) (sight B.heard self.new) frameset_ok_plan }
    {
        if self.change.frameset_off {
            return Ok(false);
        }
        match self.page {
            Some(_) => Ok(true),
            None => {
                let depth = self.change.popped;
                Ok(older_frameset(&mut self.below, alloc, depth)?)
            }
        }
    }

    /// Whether the page is in quirks mode.
    pub fn is_quirks(&mut self, alloc: Global) -> Result<bool, Refusal>
        ensures { Answers result (sight B.heard self.old) (sight B.heard self.new) is_quirks_plan }
    {
        match self.page {
            Some(facts) => Ok(facts.quirks),
            None => Ok(older_quirks(&mut self.below, alloc)?),
        }
    }

    /// Whether the form pointer points at an element.
    pub fn has_form(&mut self, alloc: Global) -> Result<bool, Refusal>
        ensures { Answers result (sight B.heard self.old) (sight B.heard self.new) has_form_plan }
    {
        match self.change.form {
            FormChange::Own(_) => Ok(true),
            FormChange::Cleared => Ok(false),
            FormChange::Kept => {
                let depth = self.change.popped;
                match older_pointer(&mut self.below, alloc, depth)? {
                    Pointed::Nowhere => Ok(false),
                    Pointed::Away | Pointed::Here(_) => Ok(true),
                }
            }
        }
    }

    /// Whether the mode is one of those in a table.
    pub fn in_table_modes(&self) -> bool
        ensures { result ≡ is_table_mode self.now.change.mode }
    {
        matches!(
            self.change.mode,
            Mode::InTable | Mode::InCaption | Mode::InTableBody | Mode::InRow | Mode::InCell
        )
    }
}
