//! What an edit touches.

ghost use Rattle.std.specs.Prelude.{◌≡◌, ◌≤◌, true, IfSome, option_to_list};
ghost use Rattle.hp_control.specs.Tree.{id_of};
ghost use Rattle.hp_groves.specs.Naming.{child_by, own_at, place_by};
ghost use Rattle.hp_groves.specs.Split.{child_ids, moved, parent_id, parents_named, table_ids};
ghost use Rattle.hp_growth.specs.Growing.{own_edit};
ghost use Rattle.hp_growth.specs.Marking.{is_child_made, is_place_made, names_made};

use crate::naming::own_id;
use hp_control::{Child, Edit, Place};

/// The ids of the elements that an edit touches by name.
#[derive(Clone, Copy)]
pub(crate) struct Touched {
    /// An element whose children it reads or changes.
    pub parent: Option<u32>,
    /// Another one.
    pub other: Option<u32>,
    /// The element that it moves.
    pub child: Option<u32>,
    /// The table before which it puts something.
    pub table: Option<u32>,
}

/// What an edit touches, where there are so many own elements.
pub(crate) fn touched_by(edit: &Edit<'_>, count: u32) -> Touched
    requires { names_made count edit.now ≡ true }
    ensures parents { parents_of result ≡ parents_named (own_edit edit.now) }
    ensures moved { moved_of result ≡ moved (own_edit edit.now) }
    ensures within { AreWithin count result }
{
    match edit {
        Edit::NewElement { .. } | Edit::AddMissing { .. } => Touched {
            parent: None,
            other: None,
            child: None,
            table: None,
        },
        Edit::Put { child, place } => Touched {
            parent: Some(parent_of(*place, count)),
            other: None,
            child: child_of(child, count),
            table: table_of(*place, count),
        },
        Edit::Detach { node } => Touched {
            parent: None,
            other: None,
            child: Some(own_id(*node, count)),
            table: None,
        },
        Edit::MoveChildren { from, to } => Touched {
            parent: Some(own_id(*from, count)),
            other: Some(own_id(*to, count)),
            child: None,
            table: None,
        },
    }
}

/// The element that is put, if it is one.
fn child_of(child: &Child<'_>, count: u32) -> Option<u32>
    requires { is_child_made count child.now ≡ true }
    ensures child { option_to_list result ≡ child_ids (child_by (own_at 1) child.now) }
    ensures within { IfSome result (λ id. id ≤ count) }
{
    match child {
        Child::Element(node) => Some(own_id(*node, count)),
        Child::Text(_) | Child::Comment(_) | Child::Doctype(_) => None,
    }
}

/// The table of a place, if it has one.
fn table_of(place: Place, count: u32) -> Option<u32>
    requires { is_place_made count place ≡ true }
    ensures table { option_to_list result ≡ table_ids (place_by (own_at 1) place) }
    ensures within { IfSome result (λ id. id ≤ count) }
{
    match place {
        Place::Into(_) => None,
        Place::Foster { table, .. } => Some(own_id(table, count)),
    }
}

/// The element that a place names as the parent.
pub(crate) fn parent_of(place: Place, count: u32) -> u32
    requires { is_place_made count place ≡ true }
    ensures parent { result ≡ parent_id (place_by (own_at 1) place) }
    ensures within { result ≤ count }
{
    match place {
        Place::Into(parent) => own_id(parent, count),
        Place::Foster { above, .. } => own_id(above, count),
    }
}

ghost use Rattle.hp_growth.specs.Reaching.{AreWithin, moved_of, parents_of};
