//! Closing elements with what their ends imply (13.2.6.3, 13.2.6.4.7).
ghost use Rattle.std.specs.Prelude.{◌≡◌};
ghost use Rattle.hp_control.specs.Composed.{implied_but as spec_implied_but};
ghost use Rattle.hp_elements.specs.Names.{text_of};
ghost use Rattle.hp_elements.specs.declared.kinds.Kinds.TheVariants as kinds;
ghost use Rattle.hp_views.specs.View.{sight, Meets};
ghost use Rattle.hp_views.specs.Steps.{implied_step, implied_except_step, implied_thoroughly_step, through_named_step, walk_step, close_step, close_paragraph_step, close_item_step, close_description_step, end_form_in_template_step};
ghost use Rattle.hp_views.specs.View.{Answers};
ghost use Rattle.hp_views.specs.StackPlans.{in_scope_plan};
ghost use Rattle.hp_elements.specs.declared.act.Scope.TheVariants as scope;
ghost use Rattle.hp_elements.specs.KnownNames as known;

use crate::view::View;
use hp_control::{Below, Refusal, WalkEnd};
use hp_elements::{ElementName, Kinds, Known, Name, Scope, SetName};
use std::alloc::Global;

/// The elements whose end tags are implied, but that one.
fn implied_but(name: Known) -> SetName
    ensures { result ≡ spec_implied_but name }
{
    match name {
        Known::Element(ElementName::Dd) => SetName::ImpliedButDd,
        Known::Element(ElementName::Dt) => SetName::ImpliedButDt,
        Known::Element(ElementName::Li) => SetName::ImpliedButLi,
        Known::Element(ElementName::Optgroup) => SetName::ImpliedButOptgroup,
        Known::Element(ElementName::Option) => SetName::ImpliedButOption,
        Known::Element(ElementName::P) => SetName::ImpliedButP,
        Known::Element(ElementName::Rb) => SetName::ImpliedButRb,
        Known::Element(ElementName::Rp) => SetName::ImpliedButRp,
        Known::Element(ElementName::Rt) => SetName::ImpliedButRt,
        Known::Element(ElementName::Rtc) => SetName::ImpliedButRtc,
        _ => SetName::Implied,
    }
}

impl<'p, B: Below> View<'p, B> {
    /// Generates implied end tags.
    #[inline(always)]
    pub fn implied(&mut self, alloc: Global) -> Result<(), Refusal>
        ensures { Meets result (sight B.heard self.old) (sight B.heard self.new) implied_step }
    {
        self.pop_run(alloc, Kinds::Set(SetName::Implied))
    }

    /// Generates implied end tags, but not that of the name.
    #[inline(always)]
    pub fn implied_except(&mut self, alloc: Global, name: Known) -> Result<(), Refusal>
        ensures { Meets result (sight B.heard self.old) (sight B.heard self.new) (implied_except_step name) }
    {
        self.pop_run(alloc, Kinds::Set(implied_but(name)))
    }

    /// Generates all implied end tags thoroughly.
    pub fn implied_thoroughly(&mut self, alloc: Global) -> Result<(), Refusal>
        ensures { Meets result (sight B.heard self.old) (sight B.heard self.new) implied_thoroughly_step }
    {
        self.pop_run(alloc, Kinds::Set(SetName::ThoroughlyImplied))
    }

    /// Pops up to and with the first HTML element of the name, where one is open.
    #[inline(always)]
    pub fn through_named(&mut self, alloc: Global, name: Name) -> Result<(), Refusal>
        ensures { Meets result (sight B.heard self.old) (sight B.heard self.new) (through_named_step name) }
    {
        self.through(alloc, Kinds::Html(name), Kinds::Nothing)
    }

    /// Any other end tag (13.2.6.4.7): pops up to and with the nearest HTML element of the name, unless a special one stands above it.
    pub fn walk(&mut self, alloc: Global, name: Name) -> Result<(), Refusal>
        ensures { Meets result (sight B.heard self.old) (sight B.heard self.new) (walk_step name) }
    {
        self.through(alloc, Kinds::Html(name), Kinds::Set(SetName::Special))
    }

    /// Closes the HTML element of the name with what its end implies.
    pub fn close(&mut self, alloc: Global, name: Known) -> Result<(), Refusal>
        ensures { Meets result (sight B.heard self.old) (sight B.heard self.new) (close_step name) }
    {
        self.implied_except(alloc, name)?;
        self.through_named(alloc, Name::of_known(name))
    }

    /// Whether a p element is in button scope. The stack knows it of its own elements, so that none of them is passed.
    pub fn has_paragraph(&mut self, alloc: Global) -> Result<bool, Refusal>
        ensures { Answers result (sight B.heard self.old) (sight B.heard self.new) (in_scope_plan scope.Button (kinds.Html (text_of known.P))) }
    {
        match self.change.stack.paragraph() {
            WalkEnd::Goal => Ok(true),
            WalkEnd::Stop => Ok(false),
            WalkEnd::BelowAll => self.paragraph_below(alloc),
        }
    }

    /// Closes a p element, where one is in button scope.
    pub fn close_paragraph(&mut self, alloc: Global) -> Result<(), Refusal>
        ensures { Meets result (sight B.heard self.old) (sight B.heard self.new) close_paragraph_step }
    {
        if self.has_paragraph(alloc)? {
            self.close(alloc, Known::P)
        } else {
            Ok(())
        }
    }

    /// Closes a list item that a new one ends: all down to it is popped, and what its end implies with that.
    #[inline(always)]
    pub fn close_item(&mut self, alloc: Global) -> Result<(), Refusal>
        ensures { Meets result (sight B.heard self.old) (sight B.heard self.new) close_item_step }
    {
        let items = Kinds::Html(Name::of_known(Known::LI));
        self.through(alloc, items, Kinds::Set(SetName::ItemBarriers))
    }

    /// Closes a term or a description that a new one ends.
    pub fn close_description(&mut self, alloc: Global) -> Result<(), Refusal>
        ensures { Meets result (sight B.heard self.old) (sight B.heard self.new) close_description_step }
    {
        let items = Kinds::Set(SetName::DescriptionItems);
        self.through(alloc, items, Kinds::Set(SetName::ItemBarriers))
    }

    /// The end of a form in a template.
    pub fn end_form_in_template(&mut self, alloc: Global) -> Result<(), Refusal>
        ensures { Meets result (sight B.heard self.old) (sight B.heard self.new) end_form_in_template_step }
    {
        let form = Kinds::Html(Name::of_known(Known::FORM));
        if self.in_scope(alloc, Scope::Default, form)? {
            self.implied(alloc)?;
            self.through_named(alloc, Name::of_known(Known::FORM))
        } else {
            Ok(())
        }
    }
}
