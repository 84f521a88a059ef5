//! An element put into the list of active formatting elements (13.2.4.3).
ghost use Rattle.std.specs.Prelude.{◌≡◌, ◌<◌, ◌^◌, IfOk};
ghost use Rattle.hp_views.specs.View.{sight, Carries, Knows};
ghost use Rattle.hp_adoption.specs.ArkPlans.{tally as spec_tally, older_equals as spec_older_equals, room_with, room_plan, append_to_list_plan};

use hp_control::{Below, Crossing, FormattingEntry, Refusal, Stack, same_tag};
use hp_elements::{NoMemory, Tag};
use hp_views::{View, older_same};
use std::alloc::Global;
use std::marker::Model;

/// How many equal entries there may be.
const MOST: u64 = 3;

/// As many entries of a list. In a shorter one there are not so many equal ones, so that none has to go.
const FEW: usize = 3;

/// The own entries after the last marker that are equal to a tag.
#[derive(Drop)]
pub struct Equal {
    pub count: u64,
    /// The id of the earliest.
    pub earliest: u64,
    /// Whether an own marker ends them.
    pub ended: bool,
}

impl Model for Equal {
    ghost use Rattle.hp_adoption.specs.ArkPlans.{Tally};

    ghost Value = { Tally };

    ghost view = { λ e. record { count = e.count; earliest = e.earliest; ended = e.ended } };
}

/// Counts the own entries after the last marker that are equal to the tag.
fn equal_entries(list: &Stack<FormattingEntry>, tag: &Tag) -> Equal
    ensures { result ≡ spec_tally tag.now list.now 0 0 }
{
    let mut count = 0;
    let mut earliest = 0;
    for depth in 0..list.len() {
        match list.at(depth) {
            FormattingEntry::Marker => {
                return Equal {
                    count,
                    earliest,
                    ended: true,
                };
            }
            FormattingEntry::Element { id, tag: other } => {
                if same_tag(tag, other) {
                    count += 1;
                    earliest = *id;
                }
            }
        }
    }
    Equal {
        count,
        earliest,
        ended: false,
    }
}

/// How many older entries are equal to the tag.
fn older_equals<'p, B: Below>(
    alloc: Global,
    view: &mut View<'p, B>,
    tag: &Tag,
) -> Result<u64, NoMemory>
    ensures { Knows result (sight B.heard view.old) (sight B.heard view.new) (λ v. spec_older_equals v.page v.change.cuts tag.now) }
{
    match view.page {
        Some(_) => Ok(0),
        None => {
            let cuts = view.change.cuts;
            older_same(&mut view.below, alloc, cuts, tag)
        }
    }
}

/// Of three entries that are equal, so many of them older, the earliest goes.
fn make_room_by<'p, B: Below>(
    alloc: Global,
    view: &mut View<'p, B>,
    own: Equal,
    older: u64,
) -> Result<(), Refusal>
    ensures { Carries result (sight B.heard view.old) (sight B.heard view.new) (λ v. room_with own v older) }
{
    if older < MOST.saturating_sub(own.count) {
        return Ok(());
    }
    if 0 < older {
        return Err(Refusal::Crossed(Crossing::X1));
    }
    view.remove_entry(alloc, own.earliest)
}

/// Of three entries that are equal to the tag the earliest goes.
fn make_room<'p, B: Below>(alloc: Global, view: &mut View<'p, B>, tag: &Tag) -> Result<(), Refusal>
    ensures { Carries result (sight B.heard view.old) (sight B.heard view.new) (room_plan tag.now) }
{
    let own = equal_entries(&view.change.formatting, tag);
    if own.ended {
        make_room_by(alloc, view, own, 0)
    } else {
        let older = older_equals(alloc, view, tag)?;
        make_room_by(alloc, view, own, older)
    }
}

/// An entry for the current node, which was made for the tag; of three equal entries after the last marker the earliest goes first.
/// Where that is an older one, it crosses.
#[inline(always)]
pub fn append_to_list<'p, B: Below>(
    alloc: Global,
    view: &mut View<'p, B>,
    tag: Tag,
) -> Result<(), Refusal>
    ensures { Carries result (sight B.heard view.old) (sight B.heard view.new) (append_to_list_plan tag) }
{
    // No entry is older, and there are too few for three equal ones.
    if view.page.is_some() && view.change.formatting.len() < FEW {
        return view.append_entry(alloc, tag);
    }
    append_with_room(alloc, view, tag)
}

/// The same however many entries there are.
#[inline(never)]
fn append_with_room<'p, B: Below>(
    alloc: Global,
    view: &mut View<'p, B>,
    tag: Tag,
) -> Result<(), Refusal>
    ensures { Carries result (sight B.heard view.old) (sight B.heard view.new) (append_to_list_plan tag) }
{
    make_room(alloc, view, &tag)?;
    view.append_entry(alloc, tag)
}
