//! The start of a link closes one that is open (13.2.6.4.7).
ghost use Rattle.std.specs.Prelude.{◌≡◌, ◌<◌, length, slice_get};
ghost use Rattle.hp_views.specs.View.{sight, Carries};
ghost use Rattle.hp_adoption.specs.LinkPlans.{close_own_plan, close_older_plan, close_link_plan};

use crate::plain::adopt;
use hp_control::{Below, Crossing, EntryKind, FormattingEntry, Refusal};
use hp_elements::{Known, Name};
use hp_views::{View, Walk, name_walk, older_listed};
use std::alloc::Global;

/// Adopts the link of the own entry at that depth, and then takes its element off list and stack.
fn close_own<'p, B: Below>(
    alloc: Global,
    view: &mut View<'p, B>,
    fostering: bool,
    at: usize,
) -> Result<(), Refusal>
    requires { at < length view.old.change.formatting }
    ensures { Carries result (sight B.heard view.old) (sight B.heard view.new) (λ v. close_own_plan fostering v (slice_get v.change.formatting at)) }
{
    let FormattingEntry::Element { id, .. } = view.change.formatting.at(at) else {
        return Ok(());
    };
    let id = *id;
    adopt(alloc, view, fostering, Name::of_known(Known::A))?;
    view.remove_entry(alloc, id)?;
    view.take_off(alloc, id)
}

/// Where the older list has a link, it would go.
fn close_older<'p, B: Below>(alloc: Global, view: &mut View<'p, B>) -> Result<(), Refusal>
    ensures { Carries result (sight B.heard view.old) (sight B.heard view.new) close_older_plan }
{
    let depth = view.change.popped;
    let cuts = view.change.cuts;
    let name = Name::of_known(Known::A);
    let standing = older_listed(&mut view.below, alloc, depth, cuts, name)?;
    match standing.kind {
        EntryKind::Absent => Ok(()),
        EntryKind::Closed | EntryKind::Hidden | EntryKind::InScope => {
            Err(Refusal::Crossed(Crossing::X1))
        }
    }
}

/// Where the list has a link after its last marker, that is adopted, and its element leaves list and stack. Where it is an older
/// one, it crosses.
pub fn close_link<'p, B: Below>(
    alloc: Global,
    view: &mut View<'p, B>,
    fostering: bool,
) -> Result<(), Refusal>
    ensures { Carries result (sight B.heard view.old) (sight B.heard view.new) (close_link_plan fostering) }
{
    match name_walk(&view.change.formatting, &Name::of_known(Known::A)) {
        Walk::Found(at) => close_own(alloc, view, fostering, at),
        Walk::Stopped => Ok(()),
        Walk::PastAll => close_older(alloc, view),
    }
}
