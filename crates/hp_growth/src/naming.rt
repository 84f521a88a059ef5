//! Own elements told by ids: an own element has the id after its number, and the id 0 stands for what is older.

ghost use Rattle.std.specs.Prelude.{◌≡◌, ◌≤◌, true};
ghost use Rattle.std.specs.List.{list_all};
ghost use Rattle.hp_control.specs.Apply.{named, named_child, named_edit, named_place};
ghost use Rattle.hp_control.specs.Nothing.{nothing};
ghost use Rattle.hp_control.specs.Tree.{id_of};
ghost use Rattle.hp_groves.specs.Naming.{child_by, child_refs, own_at, place_by, place_refs, refs};
ghost use Rattle.hp_growth.specs.Growing.{own_edit};
ghost use Rattle.hp_growth.specs.Marking.{is_child_made, is_first, is_made, is_place_made, names_made};
ghost use Rattle.hp_growth.specs.Telling.{own_from, own_named};

use hp_control::{Child, Edit, Place, Ref};

/// Whether an element is older, or among so many own ones.
#[inline(always)]
pub(crate) fn is_made(node: Ref, count: u32) -> bool
    ensures { result ≡ is_made count node }
{
    match node {
        Ref::Own(number) => number < count as u64,
        Ref::Fixed(_) | Ref::Older(_) => true,
    }
}

/// The id of an element, of which there are so many own ones.
#[inline(always)]
pub(crate) fn own_id(node: Ref, count: u32) -> u32
    requires { is_made count node ≡ true }
    ensures id { result ≡ id_of (own_at 1 node) }
    ensures within { result ≤ count }
{
    match node {
        Ref::Own(number) => number as u32 + 1,
        Ref::Fixed(_) | Ref::Older(_) => 0,
    }
}

/// Tells the elements of an edit by ids.
#[inline(always)]
pub(crate) fn tell(edit: &mut Edit<'_>, count: u32)
    requires { names_made count edit.old ≡ true }
    ensures edit { edit.new ≡ own_edit edit.old }
    ensures told { named_edit nothing edit.new ≡ edit.new }
{
    if let Edit::Put { place, .. } = edit {
        tell_place(place, count);
    }
    match edit {
        Edit::NewElement { .. } => {}
        Edit::Put { child, .. } => tell_child(child, count),
        Edit::Detach { node } => tell_node(node, count),
        Edit::MoveChildren { from, to } => {
            tell_node(from, count);
            tell_node(to, count);
        }
        Edit::AddMissing { node, .. } => tell_node(node, count),
    }
}

#[inline(always)]
fn tell_child(child: &mut Child<'_>, count: u32)
    requires { is_child_made count child.old ≡ true }
    ensures { child.new ≡ child_by (own_at 1) child.old }
{
    match child {
        Child::Element(node) => tell_node(node, count),
        Child::Text(_) | Child::Comment(_) | Child::Doctype(_) => {}
    }
}

#[inline(always)]
fn tell_place(place: &mut Place, count: u32)
    requires { is_place_made count place.old ≡ true }
    ensures { place.new ≡ place_by (own_at 1) place.old }
{
    match place {
        Place::Into(parent) => tell_node(parent, count),
        Place::Foster { table, above } => {
            tell_node(table, count);
            tell_node(above, count);
        }
    }
}

#[inline(always)]
fn tell_node(node: &mut Ref, count: u32)
    requires { is_made count node.old ≡ true }
    ensures { node.new ≡ own_at 1 node.old }
{
    *node = Ref::Fixed(own_id(*node, count) as u64);
}

/// Tells each element by its id, where no older state is below, and by number those that have an id from `next` on.
#[inline(always)]
pub(crate) fn tell_own(edit: &mut Edit<'_>, next: u64)
    ensures { edit.new ≡ own_named next edit.old }
{
    if let Edit::Put { place, .. } = edit {
        tell_own_place(place, next);
    }
    match edit {
        Edit::NewElement { .. } => {}
        Edit::Put { child, .. } => tell_own_child(child, next),
        Edit::Detach { node } => tell_own_node(node, next),
        Edit::MoveChildren { from, to } => {
            tell_own_node(from, next);
            tell_own_node(to, next);
        }
        Edit::AddMissing { node, .. } => tell_own_node(node, next),
    }
}

#[inline(always)]
fn tell_own_child(child: &mut Child<'_>, next: u64)
    ensures { child.new ≡ child_by (own_from next) (named_child nothing child.old) }
{
    match child {
        Child::Element(node) => tell_own_node(node, next),
        Child::Text(_) | Child::Comment(_) | Child::Doctype(_) => {}
    }
}

#[inline(always)]
fn tell_own_place(place: &mut Place, next: u64)
    ensures { place.new ≡ place_by (own_from next) (named_place nothing place.old) }
{
    match place {
        Place::Into(parent) => tell_own_node(parent, next),
        Place::Foster { table, above } => {
            tell_own_node(table, next);
            tell_own_node(above, next);
        }
    }
}

#[inline(always)]
fn tell_own_node(node: &mut Ref, next: u64)
    ensures { node.new ≡ own_from next (named nothing node.old) }
{
    let id = node.told();
    *node = if id < next {
        Ref::Fixed(id)
    } else {
        Ref::Own(id - next)
    };
}

/// Whether the edit names by ids no other elements than the document and the page's first one.
#[inline(always)]
pub(crate) fn names_first(edit: &Edit<'_>) -> bool
    ensures { result ≡ list_all is_first (refs edit.now) }
{
    match edit {
        Edit::NewElement { .. } => true,
        Edit::Put { child, place } => is_child_first(child) && is_place_first(*place),
        Edit::Detach { node } | Edit::AddMissing { node, .. } => is_first(*node),
        Edit::MoveChildren { from, to } => is_first(*from) && is_first(*to),
    }
}

#[inline(always)]
fn is_child_first(child: &Child<'_>) -> bool
    ensures { result ≡ list_all is_first (child_refs child.now) }
{
    match child {
        Child::Element(node) => is_first(*node),
        Child::Text(_) | Child::Comment(_) | Child::Doctype(_) => true,
    }
}

#[inline(always)]
fn is_place_first(place: Place) -> bool
    ensures { result ≡ list_all is_first (place_refs place) }
{
    match place {
        Place::Into(parent) => is_first(parent),
        Place::Foster { table, above } => is_first(table) && is_first(above),
    }
}

#[inline(always)]
fn is_first(node: Ref) -> bool
    ensures { result ≡ is_first node }
{
    match node {
        Ref::Fixed(id) => id <= 1,
        Ref::Older(_) | Ref::Own(_) => true,
    }
}
