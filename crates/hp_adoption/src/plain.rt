//! The adoption agency algorithm (13.2.6.4.7).
ghost use Rattle.std.specs.Prelude.{◌≡◌, ◌<◌, ◌&&◌, length};
ghost use Rattle.hp_control.specs.States.{is_html};
ghost use Rattle.hp_views.specs.StackPlans.{own_popped};
ghost use Rattle.hp_views.specs.View.{sight, split_of, Answers, Carries};
ghost use Rattle.hp_adoption.specs.AdoptPlans.{plain_below, is_plain_plan, adopt_plan};
ghost use Rattle.hp_adoption.specs.LastEntry.{is_own, is_last, without_last};

use crate::turns::turns;
use hp_control::{Below, Change, FormattingEntry, OpenElement, Refusal, is_html, same_name};
use hp_elements::{Kinds, Name};
use hp_views::{View, older_listed};
use std::alloc::Global;

/// Whether the current node is an HTML element of the name and has no entry.
fn is_plain<'p, B: Below>(
    alloc: Global,
    view: &mut View<'p, B>,
    name: &Name,
) -> Result<bool, Refusal>
    ensures { Answers result (sight B.heard view.old) (sight B.heard view.new) (is_plain_plan name.now) }
{
    if view.change.stack.is_empty() {
        return is_plain_below(alloc, view, name);
    }
    let top = view.change.stack.at(0);
    Ok(is_html(top) && same_name(name, &top.name) && !view.has_entry(top.id))
}

/// The same of the older current node.
#[inline(never)]
fn is_plain_below<'p, B: Below>(
    alloc: Global,
    view: &mut View<'p, B>,
    name: &Name,
) -> Result<bool, Refusal>
    ensures { Answers result (sight B.heard view.old) (sight B.heard view.new) (plain_below name.now) }
{
    if !view.current_is(alloc, Kinds::Html(name.copy(alloc)?))? {
        return Ok(false);
    }
    let depth = view.change.popped;
    let cuts = view.change.cuts;
    let standing = older_listed(&mut view.below, alloc, depth, cuts, name.copy(alloc)?)?;
    Ok(!standing.top)
}

/// Whether the last entry is the current node's, and its tag has the name.
#[tactic(auto, using(crate::proofs::LastEntry::no_stack, crate::proofs::LastEntry::no_list, crate::proofs::LastEntry::both_there))]
#[inline(always)]
fn is_last(change: &Change, name: &Name) -> bool
    ensures { result ≡ is_last name.now change.now.stack change.now.formatting }
{
    if change.stack.is_empty() {
        return false;
    }
    if change.formatting.is_empty() {
        return false;
    }
    is_own(change.stack.at(0), change.formatting.at(0), name)
}

/// Whether the entry is that element's, and its tag has the name.
#[inline(always)]
fn is_own(element: &OpenElement, entry: &FormattingEntry, name: &Name) -> bool
    ensures { result ≡ is_own name.now element.now entry.now }
{
    match entry {
        FormattingEntry::Marker => false,
        FormattingEntry::Element { id, tag } => *id == element.id && same_name(name, &tag.name),
    }
}

/// Takes the current node off the stack and the last entry off the list.
#[inline(always)]
fn close_last<'p, B: Below>(view: &mut View<'p, B>)
    requires open { 0 < length view.old.change.stack }
    requires listed { 0 < length view.old.change.formatting }
    ensures split { split_of view.new ≡ without_last (own_popped 1 (split_of view.old)) }
    ensures below { view.new.below ≡ view.old.below }
{
    view.pop_own(1);
    view.change.formatting.drop_top(1);
}

/// Runs the adoption agency algorithm for the name; `fostering` says that content may not stand in a table. Where an older entry
/// would be removed, it crosses.
#[inline(always)]
pub fn adopt<'p, B: Below>(
    alloc: Global,
    view: &mut View<'p, B>,
    fostering: bool,
    name: Name,
) -> Result<(), Refusal>
    ensures { Carries result (sight B.heard view.old) (sight B.heard view.new) (adopt_plan fostering name) }
{
    if is_last(&view.change, &name) {
        close_last(view);
        return Ok(());
    }
    adopt_any(alloc, view, fostering, &name)
}

/// The same wherever the formatting element stands.
#[inline(never)]
fn adopt_any<'p, B: Below>(
    alloc: Global,
    view: &mut View<'p, B>,
    fostering: bool,
    name: &Name,
) -> Result<(), Refusal>
    ensures { Carries result (sight B.heard view.old) (sight B.heard view.new) (adopt_plan fostering name.now) }
{
    if is_plain(alloc, view, name)? {
        view.pop(alloc)
    } else {
        turns(alloc, view, fostering, name)
    }
}
