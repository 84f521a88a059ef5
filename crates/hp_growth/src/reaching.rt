//! Which edits reach what is older or was touched. The usual edit of own elements is told by a few marks: where the children of none were
//! touched, no parent is looked up.

ghost use Rattle.std.specs.Prelude.{◌≡◌, ◌==◌, ◌≤◌, length, true};
ghost use Rattle.std.specs.List.{list_any};
ghost use Rattle.hp_control.specs.Tree.{id_of};
ghost use Rattle.hp_groves.specs.Naming.{child_by, own_at, place_by};
ghost use Rattle.hp_groves.specs.Split.{parents_from};
ghost use Rattle.hp_growth.specs.Growing.{IsRooted, own_edit};
ghost use Rattle.hp_growth.specs.Marking.{children_touched, is_child_made, is_made, is_place_made, names_made};
ghost use Rattle.hp_growth.specs.Reaching.{both, child_reaches, is_tied, place_reaches, reaches, way};

use crate::marks::Marks;
use crate::naming::{is_made, own_id};
use hp_arena::Tree;
use hp_control::{Child, Edit, Place, Ref};

/// Which way an edit goes, or a part of one.
#[derive(Clone, Copy)]
pub(crate) enum Way {
    /// It names an own element that isn't made yet.
    Refused,
    /// It reaches what is older or was touched.
    Outer,
    /// It reaches none of that.
    Inner,
}

impl Way {
    /// The way of what names only what it can, and reaches so far or doesn't.
    #[inline(always)]
    fn of_reach(reaches: bool) -> Way
        ensures { result ≡ way true reaches }
    {
        if reaches { Way::Outer } else { Way::Inner }
    }

    /// The way of two parts together.
    #[inline(always)]
    fn and(self, other: Way) -> Way
        ensures { result ≡ both self other }
    {
        match self {
            Way::Refused => Way::Refused,
            Way::Outer => match other {
                Way::Refused => Way::Refused,
                Way::Outer | Way::Inner => Way::Outer,
            },
            Way::Inner => other,
        }
    }
}

/// Which way an edit goes.
#[inline(always)]
pub(crate) fn way_of(grove: &Tree<'_>, marks: &Marks, edit: &Edit<'_>) -> Way
    requires { IsRooted grove.now.branches (length marks.now) }
    ensures { result ≡ way (names_made (length marks.now) edit.now) (reaches grove.now.branches marks.now (own_edit edit.now)) }
{
    match edit {
        Edit::NewElement { .. } => Way::Inner,
        Edit::Put { child, place } => {
            way_of_child(grove, marks, child).and(way_of_place(grove, marks, *place))
        }
        Edit::Detach { node } => way_of_moved(grove, marks, *node),
        Edit::MoveChildren { from, to } => way_of_parent(marks, *from).and(way_of_parent(
            marks, *to,
        )),
        Edit::AddMissing { node, .. } => way_of_changed(marks, *node),
    }
}

#[inline(always)]
fn way_of_child(grove: &Tree<'_>, marks: &Marks, child: &Child<'_>) -> Way
    requires { IsRooted grove.now.branches (length marks.now) }
    ensures { result ≡ way (is_child_made (length marks.now) child.now) (child_reaches grove.now.branches marks.now (child_by (own_at 1) child.now)) }
{
    match child {
        Child::Element(node) => way_of_moved(grove, marks, *node),
        Child::Text(_) | Child::Comment(_) | Child::Doctype(_) => Way::Inner,
    }
}

#[inline(always)]
fn way_of_place(grove: &Tree<'_>, marks: &Marks, place: Place) -> Way
    requires { IsRooted grove.now.branches (length marks.now) }
    ensures { result ≡ way (is_place_made (length marks.now) place) (place_reaches grove.now.branches marks.now (place_by (own_at 1) place)) }
{
    match place {
        Place::Into(parent) => way_of_parent(marks, parent),
        Place::Foster { table, above } => {
            way_of_moved(grove, marks, table).and(way_of_parent(marks, above))
        }
    }
}

/// The way of an edit that changes the children of an element.
#[inline(always)]
fn way_of_parent(marks: &Marks, node: Ref) -> Way
    ensures { result ≡ way (is_made (length marks.now) node) (children_touched marks.now (id_of (own_at 1 node))) }
{
    if !is_made(node, marks.len()) {
        return Way::Refused;
    }
    Way::of_reach(marks.children_touched(own_id(node, marks.len())))
}

/// The way of an edit that takes an element from where it stands, or looks where that is.
#[inline(always)]
fn way_of_moved(grove: &Tree<'_>, marks: &Marks, node: Ref) -> Way
    requires { IsRooted grove.now.branches (length marks.now) }
    ensures { result ≡ way (is_made (length marks.now) node) (is_tied grove.now.branches marks.now (id_of (own_at 1 node))) }
{
    if !is_made(node, marks.len()) {
        return Way::Refused;
    }
    Way::of_reach(is_tied(grove, marks, own_id(node, marks.len())))
}

/// The way of an edit that changes an element itself.
#[inline(always)]
fn way_of_changed(marks: &Marks, node: Ref) -> Way
    ensures { result ≡ way (is_made (length marks.now) node) (id_of (own_at 1 node) == 0) }
{
    if !is_made(node, marks.len()) {
        return Way::Refused;
    }
    Way::of_reach(own_id(node, marks.len()) == 0)
}

/// Whether the parent of an element was touched, or the children among which it stands.
#[inline(always)]
fn is_tied(grove: &Tree<'_>, marks: &Marks, id: u32) -> bool
    requires within { id ≤ length marks.now }
    requires rooted { IsRooted grove.now.branches (length marks.now) }
    ensures { result ≡ is_tied grove.now.branches marks.now id }
{
    if marks.parent_touched(id) {
        return true;
    }
    if !marks.any() {
        return false;
    }
    stands_among_touched(grove, marks, id)
}

/// Whether an element stands among children that were touched.
#[inline(never)]
fn stands_among_touched(grove: &Tree<'_>, marks: &Marks, id: u32) -> bool
    requires within { id ≤ length marks.now }
    requires rooted { IsRooted grove.now.branches (length marks.now) }
    ensures { result ≡ list_any (children_touched marks.now) (parents_from 0 grove.now.branches id) }
{
    match grove.parent_of(id) {
        Some(parent) => marks.children_touched(parent),
        None => false,
    }
}
