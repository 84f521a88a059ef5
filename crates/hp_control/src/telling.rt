//! Edits whose elements are told by their ids: over the stack of an older state, or where none is below.
ghost use Rattle.std.specs.Prelude.{◌≡◌, ◌≤◌, drop, length, map, slice_get};
ghost use Rattle.hp_control.specs.Apply.{element_id, named, named_child, named_edit, named_place};
ghost use Rattle.hp_control.specs.Edits.{IsFixed, IsFixedChild, IsFixedEdit, IsFixedPlace};
ghost use Rattle.hp_control.specs.Nothing.{nothing};
ghost use Rattle.hp_control.specs.Telling.{below, counted, counted_child, counted_place, named_edit_over, told_over};

use crate::edit::{Child, Edit, Place, Ref};
use crate::open_elements::OpenElements;

impl<'p> Edit<'p> {
    /// Tells each element by its id over the older stack that begins at a depth of this one; own elements count from `next` on.
    /// An id past 64 bits becomes the highest, of which no tree has an element. It takes no memory.
    pub fn name_over(&mut self, stack: &OpenElements, above: usize, next: u64)
        requires { above ≤ length stack.now }
        ensures edit { self.new ≡ told_over (drop above stack.now) next self.old }
        ensures from_0 { next ≡ 0 → self.new ≡ named_edit_over (drop above stack.now) next self.old }
        ensures fixed { IsFixedEdit self.new }
    {
        if let Edit::Put { place, .. } = self {
            name_place(place, stack, above, next);
        }
        match self {
            Edit::NewElement { .. } => {}
            Edit::Put { child, .. } => name_child(child, stack, above, next),
            Edit::Detach { node } => name_node(node, stack, above, next),
            Edit::MoveChildren { from, to } => {
                name_node(from, stack, above, next);
                name_node(to, stack, above, next);
            }
            Edit::AddMissing { node, .. } => name_node(node, stack, above, next),
        }
    }

    /// Tells each element by its id, where no older state is below: an own element's number is its id there.
    pub fn tell(&mut self)
        ensures edit { self.new ≡ named_edit nothing self.old }
        ensures fixed { IsFixedEdit self.new }
    {
        self.name_over(&OpenElements::new(), 0, 0);
    }
}

/// Tells the elements of each edit by their ids, where no older state is below. It takes no memory.
pub(crate) fn tell_all(edits: &mut [Edit<'_>])
    ensures { edits.new ≡ map (named_edit nothing) edits.old }
{
    for edit in edits.iter_mut() {
        edit.tell();
    }
}

impl<'p> Child<'p> {
    /// Tells an element by its id, where no older state is below.
    pub fn tell(&mut self)
        ensures child { self.new ≡ named_child nothing self.old }
        ensures fixed { IsFixedChild self.new }
    {
        name_child(self, &OpenElements::new(), 0, 0);
    }
}

fn name_child(child: &mut Child<'_>, stack: &OpenElements, above: usize, next: u64)
    requires { above ≤ length stack.now }
    ensures child { child.new ≡ counted_child (named_child (below (drop above stack.now) next) child.old) }
    ensures from_0 { next ≡ 0 → child.new ≡ named_child (below (drop above stack.now) next) child.old }
    ensures fixed { IsFixedChild child.new }
{
    match child {
        Child::Element(node) => name_node(node, stack, above, next),
        Child::Text(_) | Child::Comment(_) | Child::Doctype(_) => {}
    }
}

fn name_place(place: &mut Place, stack: &OpenElements, above: usize, next: u64)
    requires { above ≤ length stack.now }
    ensures place { place.new ≡ counted_place (named_place (below (drop above stack.now) next) place.old) }
    ensures from_0 { next ≡ 0 → place.new ≡ named_place (below (drop above stack.now) next) place.old }
    ensures fixed { IsFixedPlace place.new }
{
    match place {
        Place::Into(parent) => name_node(parent, stack, above, next),
        Place::Foster {
            table,
            above: otherwise,
        } => {
            name_node(table, stack, above, next);
            name_node(otherwise, stack, above, next);
        }
    }
}

fn name_node(node: &mut Ref, stack: &OpenElements, above: usize, next: u64)
    requires { above ≤ length stack.now }
    ensures node { node.new ≡ counted (named (below (drop above stack.now) next) node.old) }
    ensures from_0 { next ≡ 0 → node.new ≡ named (below (drop above stack.now) next) node.old }
    ensures fixed { IsFixed node.new }
{
    let id = match *node {
        Ref::Fixed(id) => id,
        Ref::Older(depth) => id_at(stack, above, depth),
        Ref::Own(number) => next.saturating_add(number),
    };
    *node = Ref::Fixed(id);
}

/// The id at a depth of the older stack; 0 where no element stands there.
fn id_at(stack: &OpenElements, above: usize, depth: u64) -> u64
    requires { above ≤ length stack.now }
    ensures { result ≡ element_id (slice_get (drop above stack.now) depth) }
{
    if depth < (stack.len() - above) as u64 {
        stack.at(above + depth as usize).id
    } else {
        0
    }
}

impl Ref {
    /// The id of the element that it means, where no older state is below: an own element's number is its id there.
    #[inline]
    pub fn told(self) -> u64
        ensures { named nothing self ≡ Ref.Fixed result }
    {
        match self {
            Ref::Fixed(id) | Ref::Own(id) => id,
            Ref::Older(_) => 0,
        }
    }
}
