//! Reconstruction of the active formatting elements (13.2.4.3).
ghost use Rattle.std.specs.Prelude.{◌≡◌};
ghost use Rattle.hp_views.specs.View.{sight, Carries};
ghost use Rattle.hp_views.specs.Walks.{IsWithin};
ghost use Rattle.hp_adoption.specs.Still.{is_still_at};
ghost use Rattle.hp_adoption.specs.ReconPlans.{is_settled as spec_is_settled, stale_walk as spec_stale_walk, renew_plan, renew_down_plan, reconstruct_plan};

use hp_control::{Below, Change, Crossing, FormattingEntry, OpenElements, Refusal};
use hp_views::{View, Walk, older_quiet, point_of};
use std::alloc::Global;

/// Whether the entry is a marker or its element is open.
fn is_settled(stack: &OpenElements, entry: &FormattingEntry) -> bool
    ensures { result ≡ spec_is_settled stack.now entry.now }
{
    match entry {
        FormattingEntry::Marker => true,
        FormattingEntry::Element { id, .. } => stack.is_open(*id),
    }
}

/// Walks down the list to the last entry that is a marker or open.
#[inline(always)]
fn stale_walk(change: &Change) -> Walk
    ensures walk { result ≡ spec_stale_walk change.now.stack change.now.formatting }
    ensures within { IsWithin result change.now.formatting }
{
    for depth in 0..change.formatting.len() {
        if is_settled(&change.stack, change.formatting.at(depth)) {
            return Walk::Found(depth);
        }
    }
    Walk::PastAll
}

/// Makes the element of an own entry anew.
#[tactic(auto, using(crate::proofs::Renewing::got, crate::proofs::Renewing::put_back, crate::proofs::Renewing::past_end, crate::proofs::Renewing::set_twice))]
#[inline(never)]
fn renew<'p, B: Below>(
    alloc: Global,
    view: &mut View<'p, B>,
    fostering: bool,
    depth: usize,
) -> Result<(), Refusal>
    ensures { Carries result (sight B.heard view.old) (sight B.heard view.new) (renew_plan fostering depth) }
{
    if depth >= view.change.formatting.len() {
        return Ok(());
    }
    let old = view
        .change
        .formatting
        .replace(depth, FormattingEntry::Marker);
    match old {
        FormattingEntry::Marker => Ok(()),
        FormattingEntry::Element { tag, .. } => {
            let id = view.change.made;
            let copy = tag.copy(alloc)?;
            let point = point_of(&tag);
            let entry = FormattingEntry::Element { id, tag: copy };
            let _ = view.change.formatting.replace(depth, entry);
            view.insert(alloc, fostering, tag, point)
        }
    }
}

/// Makes the elements of so many own entries anew, the last entry's last.
#[inline(always)]
fn renew_down<'p, B: Below>(
    alloc: Global,
    view: &mut View<'p, B>,
    fostering: bool,
    count: usize,
) -> Result<(), Refusal>
    ensures { Carries result (sight B.heard view.old) (sight B.heard view.new) (renew_down_plan fostering count) }
{
    for turn in 0..count {
        renew(alloc, view, fostering, count - 1 - turn)?;
    }
    Ok(())
}

/// Whether the entry is a marker, or the current node's.
#[inline(always)]
fn is_still_at(stack: &OpenElements, entry: &FormattingEntry) -> bool
    ensures { result ≡ is_still_at stack.now entry.now }
{
    match entry {
        FormattingEntry::Marker => true,
        FormattingEntry::Element { id, .. } => !stack.is_empty() && stack.at(0).id == *id,
    }
}

/// Makes the elements anew of the entries after the last one that is a marker or open; `fostering` says that they may not stand
/// in a table. Where an older entry would be made anew, it crosses.
#[inline(always)]
pub fn reconstruct<'p, B: Below>(
    alloc: Global,
    view: &mut View<'p, B>,
    fostering: bool,
) -> Result<(), Refusal>
    ensures { Carries result (sight B.heard view.old) (sight B.heard view.new) (reconstruct_plan fostering) }
{
    if view.change.formatting.is_empty() {
        return reconstruct_below(alloc, view, fostering);
    }
    let change = &view.change;
    if is_still_at(&change.stack, change.formatting.at(0)) {
        return Ok(());
    }
    reconstruct_any(alloc, view, fostering)
}

/// The same whatever the last entry is.
#[inline(never)]
fn reconstruct_any<'p, B: Below>(
    alloc: Global,
    view: &mut View<'p, B>,
    fostering: bool,
) -> Result<(), Refusal>
    ensures { Carries result (sight B.heard view.old) (sight B.heard view.new) (reconstruct_plan fostering) }
{
    match stale_walk(&view.change) {
        Walk::Found(count) => renew_down(alloc, view, fostering, count),
        Walk::Stopped => reconstruct_below(alloc, view, fostering),
        Walk::PastAll => reconstruct_below(alloc, view, fostering),
    }
}

/// The same where no own entry is a marker or open.
#[inline(always)]
fn reconstruct_below<'p, B: Below>(
    alloc: Global,
    view: &mut View<'p, B>,
    fostering: bool,
) -> Result<(), Refusal>
    ensures { Carries result (sight B.heard view.old) (sight B.heard view.new) (recon_below fostering) }
{
    let depth = view.change.popped;
    let cuts = view.change.cuts;
    if older_quiet(&mut view.below, alloc, depth, cuts)? {
        let count = view.change.formatting.len();
        renew_down(alloc, view, fostering, count)
    } else {
        Err(Refusal::Crossed(Crossing::X2))
    }
}

ghost use Rattle.hp_adoption.specs.ReconPlans.{recon_below};
