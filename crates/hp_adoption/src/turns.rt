//! The turns of the adoption agency algorithm (13.2.6.4.7).
ghost use Rattle.std.specs.Prelude.{◌≡◌, ◌+◌, ◌^◌, ◌<◌, ◌≤◌, length, slice_get, take, true, IfSome};
ghost use Rattle.hp_control.specs.Adoption.{hides as spec_hides, furthest as spec_furthest};
ghost use Rattle.hp_views.specs.View.{sight, Carries};
ghost use Rattle.hp_views.specs.declared.walks.Walk.TheVariants.{Found};
ghost use Rattle.hp_adoption.specs.AdoptPlans.{own_turn, entry_turn, walk_turn, older_turn, turn_plan, turns_plan};
ghost use Rattle.hp_adoption.specs.Entries.{is_element, tag_in};
ghost use Rattle.hp_adoption.specs.Turning.{Turns, seat_depth};

use crate::adopting::{Tangle, untangle};
use crate::entries::strike;
use hp_control::{Below, Crossing, EntryKind, FormattingEntry, OpenElements, Refusal, is_within};
use hp_elements::{Kinds, Name, SetName};
use hp_views::{View, Walk, name_walk, older_listed, open_walk};
use std::alloc::Global;

/// Whether an end of a scope stands above that depth.
fn hides(stack: &OpenElements, depth: usize) -> bool
    requires { depth ≤ length stack.now }
    ensures { result ≡ spec_hides (take depth stack.now) }
{
    for above in 0..depth {
        if is_within(&Kinds::Set(SetName::DefaultScopeEnds), stack.at(above)) {
            return true;
        }
    }
    false
}

/// The depth of the special element above that depth that is nearest to it.
fn furthest(stack: &OpenElements, depth: usize) -> Option<usize>
    requires { depth ≤ length stack.now }
    ensures found { result ≡ seat_depth (spec_furthest (take depth stack.now)) }
    ensures above { IfSome result (λ block. block < depth) }
{
    for turn in 0..depth {
        let above = depth - 1 - turn;
        if is_within(&Kinds::Set(SetName::Special), stack.at(above)) {
            return Some(above);
        }
    }
    None
}

/// A turn whose formatting element is an open own one, at that depth of the stack, with its entry at that depth of the own list.
fn turn_open<'p, B: Below>(
    alloc: Global,
    view: &mut View<'p, B>,
    fostering: bool,
    id: u64,
    at: usize,
    depth: usize,
) -> Result<bool, Refusal>
    requires inside { at < length view.old.change.formatting }
    requires listed { is_element (slice_get view.old.change.formatting at) ≡ true }
    requires open { depth < length view.old.change.stack }
    requires small { depth + 1 < 2 ^ 64 }
    ensures { Turns result (sight B.heard view.old) (sight B.heard view.new) (λ v. own_turn fostering id (tag_in (slice_get v.change.formatting at)) v (Found depth)) }
{
    if hides(&view.change.stack, depth) {
        return Ok(false);
    }
    match furthest(&view.change.stack, depth) {
        None => {
            view.pop_own(depth + 1);
            strike(&mut view.change.formatting, id);
            Ok(false)
        }
        Some(block) => {
            let FormattingEntry::Element { tag, .. } = view.change.formatting.at(at) else {
                unreachable!()
            };
            let tag = tag.copy(alloc)?;
            untangle(alloc, view, fostering, Tangle { id, depth, block }, tag)?;
            Ok(true)
        }
    }
}

/// A turn whose entry is an own one, at that depth of the own list.
fn turn_entry<'p, B: Below>(
    alloc: Global,
    view: &mut View<'p, B>,
    fostering: bool,
    at: usize,
) -> Result<bool, Refusal>
    requires { at < length view.old.change.formatting }
    ensures { Turns result (sight B.heard view.old) (sight B.heard view.new) (λ v. entry_turn fostering v (slice_get v.change.formatting at)) }
{
    let FormattingEntry::Element { id, .. } = view.change.formatting.at(at) else {
        return Ok(false);
    };
    let id = *id;
    match open_walk(&view.change.stack, id) {
        Walk::Found(depth) => turn_open(alloc, view, fostering, id, at, depth),
        Walk::Stopped | Walk::PastAll => {
            strike(&mut view.change.formatting, id);
            Ok(false)
        }
    }
}

/// A turn whose entry, where there is one, is older. Where it has to change older elements, it crosses.
fn turn_older<'p, B: Below>(
    alloc: Global,
    view: &mut View<'p, B>,
    name: &Name,
) -> Result<bool, Refusal>
    ensures { Turns result (sight B.heard view.old) (sight B.heard view.new) (older_turn name.now) }
{
    let depth = view.change.popped;
    let cuts = view.change.cuts;
    let standing = older_listed(&mut view.below, alloc, depth, cuts, name.copy(alloc)?)?;
    match standing.kind {
        EntryKind::Absent => walk(alloc, view, name),
        EntryKind::Closed => Err(Refusal::Crossed(Crossing::X1)),
        EntryKind::Hidden => Ok(false),
        EntryKind::InScope => {
            let stack = &view.change.stack;
            if hides(stack, stack.len()) {
                Ok(false)
            } else {
                Err(Refusal::Crossed(Crossing::X1))
            }
        }
    }
}

/// Any other end tag (13.2.6.4.7): pops up to and with the nearest HTML element of the name, unless a special one stands above it.
/// There is no turn after it.
fn walk<'p, B: Below>(alloc: Global, view: &mut View<'p, B>, name: &Name) -> Result<bool, Refusal>
    ensures { Turns result (sight B.heard view.old) (sight B.heard view.new) (walk_turn name.now) }
{
    view.walk(alloc, name.copy(alloc)?)?;
    Ok(false)
}

/// One turn. It answers whether there may be another.
fn turn<'p, B: Below>(
    alloc: Global,
    view: &mut View<'p, B>,
    fostering: bool,
    name: &Name,
) -> Result<bool, Refusal>
    ensures { Turns result (sight B.heard view.old) (sight B.heard view.new) (turn_plan fostering name.now) }
{
    match name_walk(&view.change.formatting, name) {
        Walk::Found(at) => turn_entry(alloc, view, fostering, at),
        Walk::Stopped => walk(alloc, view, name),
        Walk::PastAll => turn_older(alloc, view, name),
    }
}

/// The turns of an adoption: at most eight.
pub fn turns<'p, B: Below>(
    alloc: Global,
    view: &mut View<'p, B>,
    fostering: bool,
    name: &Name,
) -> Result<(), Refusal>
    ensures { Carries result (sight B.heard view.old) (sight B.heard view.new) (turns_plan 8 fostering name.now) }
{
    for _turn in 0..8usize {
        match turn(alloc, view, fostering, name) {
            Ok(true) => {}
            Ok(false) => return Ok(()),
            Err(refusal) => return Err(refusal),
        }
    }
    Ok(())
}
