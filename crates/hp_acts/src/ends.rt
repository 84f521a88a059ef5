//! The end tags of blocks, of list items, of terms and their descriptions, and of paragraphs (13.2.6.4.7). Most often the current
//! node is what ends, and is popped at once.
ghost use Rattle.std.specs.Prelude.{◌≡◌, true};
ghost use Rattle.hp_elements.specs.Names.{known_of, text_of};
ghost use Rattle.hp_views.specs.View.{sight, Carries};
ghost use Rattle.hp_acts.specs.Plans.{implied_but_plan};
ghost use Rattle.hp_acts.specs.TopEnds.{EndsDescription, ends_top};
ghost use Rattle.hp_acts.specs.Usual.{block_end_plan, description_end_plan, item_end_plan, paragraph_end_plan};

use crate::token_parts::bare;
use hp_control::{Below, OpenElements, Refusal, is_html, is_within};
use hp_elements::{ElementName, Kinds, Known, Name, Point, Scope, SetName};
use hp_views::View;
use std::alloc::Global;

/// Whether the current node is an own HTML element of the name, and stays where those of the set are popped.
pub(crate) fn ends_top(stack: &OpenElements, name: &Name, passed: SetName) -> bool
    ensures { result ≡ ends_top passed name.now stack.now }
{
    if stack.is_empty() {
        return false;
    }
    let top = stack.at(0);
    is_html(top) && name.same(&top.name) && !is_within(&Kinds::Set(passed), top)
}

/// The same of a known name.
fn ends_known(stack: &OpenElements, known: Known, passed: SetName) -> bool
    ensures { result ≡ ends_top passed (text_of known) stack.now }
{
    let name = Name::of_known(known);
    ends_top(stack, &name, passed)
}

/// The same of a term, or of its description.
fn ends_description(stack: &OpenElements, name: &Name) -> bool
    ensures { result ≡ true → EndsDescription name.now stack.now }
{
    match name.known() {
        Some(Known::Element(ElementName::Dt)) => ends_top(stack, name, SetName::ImpliedButDt),
        Some(Known::Element(ElementName::Dd)) => ends_top(stack, name, SetName::ImpliedButDd),
        _ => false,
    }
}

/// Ends the block of the name.
#[inline(never)]
pub(crate) fn close_block<'p, B: Below>(
    alloc: Global,
    view: &mut View<'p, B>,
    name: Name,
) -> Result<(), Refusal>
    ensures { Carries result (sight B.heard view.old) (sight B.heard view.new) (block_end_plan name) }
{
    if ends_top(&view.change.stack, &name, SetName::Implied) {
        view.pop_own(1);
        return Ok(());
    }
    close_block_any(alloc, view, name)
}

/// The same where it may not be the current node: it is closed with what its end implies, where it is in scope.
#[inline(never)]
fn close_block_any<'p, B: Below>(
    alloc: Global,
    view: &mut View<'p, B>,
    name: Name,
) -> Result<(), Refusal>
    ensures { Carries result (sight B.heard view.old) (sight B.heard view.new) (block_end_plan name) }
{
    let goals = Kinds::Html(name.copy(alloc)?);
    let is_open = view.in_scope(alloc, Scope::Default, goals)?;
    if !is_open {
        return Ok(());
    }
    view.implied(alloc)?;
    view.through(alloc, Kinds::Html(name), Kinds::Nothing)
}

/// Ends a list item.
#[inline(never)]
pub(crate) fn close_item<'p, B: Below>(alloc: Global, view: &mut View<'p, B>) -> Result<(), Refusal>
    ensures { Carries result (sight B.heard view.old) (sight B.heard view.new) item_end_plan }
{
    if ends_known(&view.change.stack, Known::LI, SetName::ImpliedButLi) {
        view.pop_own(1);
        return Ok(());
    }
    close_item_any(alloc, view)
}

/// The same where it may not be the current node: it is closed with what its end implies, where one is in scope.
#[inline(never)]
fn close_item_any<'p, B: Below>(alloc: Global, view: &mut View<'p, B>) -> Result<(), Refusal>
    ensures { Carries result (sight B.heard view.old) (sight B.heard view.new) item_end_plan }
{
    let goals = Kinds::Html(Name::of_known(Known::LI));
    let is_open = view.in_scope(alloc, Scope::ListItem, goals)?;
    if !is_open {
        return Ok(());
    }
    view.implied_except(alloc, Known::LI)?;
    view.through_named(alloc, Name::of_known(Known::LI))
}

/// Ends a term or its description.
#[inline(never)]
pub(crate) fn close_description<'p, B: Below>(
    alloc: Global,
    view: &mut View<'p, B>,
    name: Name,
) -> Result<(), Refusal>
    ensures { Carries result (sight B.heard view.old) (sight B.heard view.new) (description_end_plan name) }
{
    if ends_description(&view.change.stack, &name) {
        view.pop_own(1);
        return Ok(());
    }
    close_description_any(alloc, view, name)
}

/// The same where it may not be the current node: it is closed with what its end implies, where it is in scope.
#[inline(never)]
fn close_description_any<'p, B: Below>(
    alloc: Global,
    view: &mut View<'p, B>,
    name: Name,
) -> Result<(), Refusal>
    ensures { Carries result (sight B.heard view.old) (sight B.heard view.new) (description_end_plan name) }
{
    let goals = Kinds::Html(name.copy(alloc)?);
    let is_open = view.in_scope(alloc, Scope::Default, goals)?;
    if !is_open {
        return Ok(());
    }
    implied_but(alloc, view, &name)?;
    view.through(alloc, Kinds::Html(name), Kinds::Nothing)
}

/// Generates implied end tags, but not that of the name.
pub(crate) fn implied_but<'p, B: Below>(
    alloc: Global,
    view: &mut View<'p, B>,
    name: &Name,
) -> Result<(), Refusal>
    ensures { Carries result (sight B.heard view.old) (sight B.heard view.new) (implied_but_plan (known_of name.now)) }
{
    match name.known() {
        Some(known) => view.implied_except(alloc, known),
        None => view.implied(alloc),
    }
}

/// Ends a paragraph.
#[inline(never)]
pub(crate) fn close_paragraph<'p, B: Below>(
    alloc: Global,
    view: &mut View<'p, B>,
) -> Result<(), Refusal>
    ensures { Carries result (sight B.heard view.old) (sight B.heard view.new) paragraph_end_plan }
{
    if ends_known(&view.change.stack, Known::P, SetName::ImpliedButP) {
        view.pop_own(1);
        return Ok(());
    }
    close_paragraph_any(alloc, view)
}

/// The same where it may not be the current node; where none is in scope, an empty one stands there.
#[inline(never)]
fn close_paragraph_any<'p, B: Below>(alloc: Global, view: &mut View<'p, B>) -> Result<(), Refusal>
    ensures { Carries result (sight B.heard view.old) (sight B.heard view.new) paragraph_end_plan }
{
    let is_open = view.has_paragraph(alloc)?;
    if is_open {
        return view.close_paragraph(alloc);
    }
    view.insert(alloc, false, bare(Known::P), Point::No)?;
    view.close_paragraph(alloc)
}
