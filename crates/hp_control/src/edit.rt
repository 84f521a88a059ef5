//! The edits of a document tree. What they do to a tree stands in specs/Tree.antt.

ghost use Rattle.std.specs.Prelude.{◌≡◌, ◌+◌, ◌∷◌, ◌++◌, [], length, map, IsTrue, ◌↔◌, OnOk, OnErr};
ghost use Rattle.hp_control.specs.Apply.{named_edit};
ghost use Rattle.hp_control.specs.Nothing.{nothing};
ghost use Rattle.hp_control.specs.Edits.{room_of, room_of_all};

use crate::items::{add, as_slice, begin, lose};
use crate::telling::tell_all;
use hp_elements::{Attribute, Chain, Doctype, Tag, Text};
use std::alloc::{AllocError, Global};
use std::marker::Model;
use std::mem;

/// Which element an edit means.
#[derive(Clone, Copy)]
pub enum Ref {
    /// The element of this id. The document is 0.
    Fixed(u64),
    /// The element at this depth of the stack of open elements as the chunk begins; the current node has depth 0.
    Older(u64),
    /// The element that the fragment makes after so many others.
    Own(u64),
}

/// Where a child goes.
#[derive(Clone, Copy)]
pub enum Place {
    /// Last among the children of an element. A template has its contents there.
    Into(Ref),
    /// Directly before the table where that has a parent, and else last into `above`.
    Foster { table: Ref, above: Ref },
}

/// What is put into a place.
#[derive(Drop)]
pub enum Child<'p> {
    Element(Ref),
    Text(Text<'p>),
    Comment(Text<'p>),
    /// Kept on the heap, so that edits stay small.
    Doctype(Doctype<'p>),
}

/// One step in the making of a tree.
#[derive(Drop)]
pub enum Edit<'p> {
    /// Makes the next element, which has no parent.
    NewElement {
        tag: Tag,
    },
    /// Puts a child into a place. An element that has a parent is taken out of it first.
    Put {
        child: Child<'p>,
        place: Place,
    },
    /// Takes an element out of its parent.
    Detach {
        node: Ref,
    },
    /// Appends all children of one element, in order, to those of another.
    MoveChildren {
        from: Ref,
        to: Ref,
    },
    /// Adds the attributes whose names the element doesn't have.
    AddMissing {
        node: Ref,
        attributes: Chain<Attribute>,
    },
}

impl<'p> Edit<'p> {
    /// How much room the edit needs in a tree: one for itself and one for each of its attributes.
    pub fn room(&self) -> u64
        ensures { result ≡ room_of self.now }
    {
        match self {
            Edit::NewElement { tag } => tag.attributes.len() as u64 + 1,
            Edit::AddMissing { attributes, .. } => attributes.len() as u64 + 1,
            Edit::Put { .. } | Edit::Detach { .. } | Edit::MoveChildren { .. } => 1,
        }
    }
}

/// Edits in the order in which they are made.
#[derive(Drop)]
pub struct Edits<'p> {
    items: Option<Vec<Edit<'p>>>,
    /// The room that they need together.
    room: u64,
}

impl<'p> Model for Edits<'p> {
    ghost use Rattle.std.specs.Prelude.{◌≡◌, List};
    ghost use Rattle.hp_control.specs.declared.edit.Edit.{Edit};

    ghost Value = { List Edit };

    ghost use Rattle.hp_control.specs.Edits.{room_of_all};
    ghost use Rattle.hp_control.specs.Held.{held};

    ghost view = { λ e. held e.items };

    ghost invariant = { λ e. e.room ≡ room_of_all (held e.items) };
}

impl<'p> Edits<'p> {
    /// No edits. It takes no memory.
    pub fn new() -> Edits<'p>
        ensures { result ≡ [] }
    {
        Edits {
            items: None,
            room: 0,
        }
    }

    /// One more edit, made after the others. At an `Err`, which comes only for want of memory, the edits are as before and the edit
    /// is dropped.
    #[inline(always)]
    pub fn push(&mut self, alloc: Global, edit: Edit<'p>) -> Result<(), AllocError>
        ensures ok { OnOk result (self.new ≡ self.old ++ edit.entry ∷ []) }
        ensures err { OnErr result (self.new ≡ self.old) }
    {
        let Some(room) = self.room.checked_add(edit.room()) else {
            lose(edit);
            return Err(AllocError);
        };
        add(alloc, &mut self.items, edit)?;
        self.room = room;
        Ok(())
    }

    /// An element made for the tag, which has so many attributes, and put into a place, after the others. At an `Err`, which comes
    /// only for want of memory, the edits are as before and the tag is dropped.
    #[inline(always)]
    pub fn push_element(
        &mut self,
        alloc: Global,
        tag: Tag,
        attributes: usize,
        node: Ref,
        place: Place,
    ) -> Result<(), AllocError>
        requires { attributes ≡ length tag.attributes }
        ensures ok { OnOk result (self.new ≡ (self.old ++ NewElement tag ∷ []) ++ Put (Element node) place ∷ []) }
        ensures err { OnErr result (self.new ≡ self.old) }
    {
        let Some(room) = self.room.checked_add(attributes as u64 + 2) else {
            lose(tag);
            return Err(AllocError);
        };
        begin(alloc, &mut self.items);
        let Some(items) = &mut self.items else {
            unreachable!();
        };
        match items.reserve(2) {
            Ok(()) => {
                items.push_reserved(Edit::NewElement { tag });
                let child = Child::Element(node);
                items.push_reserved(Edit::Put { child, place });
                self.room = room;
                Ok(())
            }
            Err(failed) => {
                lose(tag);
                Err(failed)
            }
        }
    }

    /// The number of edits.
    pub fn len(&self) -> usize
        ensures { result ≡ length self.now }
    {
        self.as_slice().len()
    }

    /// Whether there is no edit.
    pub fn is_empty(&self) -> bool
        ensures { IsTrue result ↔ (self.now ≡ []) }
    {
        self.as_slice().is_empty()
    }

    /// How much room the edits need together in a tree: one each, and one for each of their attributes.
    pub fn room(&self) -> u64
        ensures { result ≡ room_of_all self.now }
    {
        self.room
    }

    /// The edits, in order.
    pub fn as_slice(&self) -> &[Edit<'p>]
        ensures { result.now ≡ self.now }
    {
        as_slice(&self.items)
    }

    /// Tells the elements of each edit by their ids, where no older state is below. It takes no memory.
    pub fn tell(&mut self)
        ensures { self.new ≡ map (named_edit nothing) self.old }
    {
        let Some(items) = &mut self.items else {
            return;
        };
        tell_all(items);
    }

    /// The edits as a `Vec`. It takes no memory.
    pub fn into_vec(self, alloc: Global) -> Vec<Edit<'p>>
        ensures { result.items ≡ self.entry }
    {
        match self.items {
            Some(items) => items,
            None => Vec::new(alloc),
        }
    }

    /// Moves all edits, in order, into a `Vec` without items, whose memory is kept for the edits to come. It takes no memory.
    pub fn take_into(&mut self, taken: &mut Vec<Edit<'p>>)
        requires { taken.old.items ≡ [] }
        ensures taken { taken.new.items ≡ self.old }
        ensures left { self.new ≡ [] }
    {
        if let Some(items) = &mut self.items {
            mem::swap(items, taken);
        }
        self.room = 0;
    }
}

ghost use Rattle.hp_control.specs.Held.{held};
ghost use Rattle.hp_control.specs.declared.edit.Child.TheVariants.{Element};
ghost use Rattle.hp_control.specs.declared.edit.Edit.TheVariants.{NewElement, Put};
