//! Edits that grow a tree.

use hp_arena::Tree;
use hp_control::{Child, Edit, Edits, Place, Ref};
use hp_elements::{Chain, Known, Name, Namespace, Tag, Text};
use std::alloc::Global;
use std::mem;
use std::process::Abort;

/// Makes room for 1024 edits without attributes where there is less than for 32. What is owned is kept to the end of the test.
pub fn keep_room(rt: &impl Abort, alloc: Global, tree: &mut Tree<'static>) {
    if tree.spare() >= 32 {
        return;
    }
    let mut edits: Edits<'static> = Edits::new();
    for _ in 0..1024 {
        edits.push(alloc, comment(0)).expect(rt, "there is memory");
    }
    tree.reserve(alloc, &edits).expect(rt, "there is memory");
    mem::forget(edits);
}

/// Makes an edit for which there is room.
pub fn make(rt: &impl Abort, tree: &mut Tree<'static>, mut edit: Edit<'static>) {
    let room = edit.room();
    assert!(rt; room <= tree.spare());
    tree.make(&mut edit);
}

/// Makes the HTML element `b` of that number and puts it last into another.
pub fn make_element(rt: &impl Abort, tree: &mut Tree<'static>, id: u64, parent: u64) {
    let tag = Tag {
        namespace: Namespace::Html,
        name: Name::of_known(Known::B),
        attributes: Chain::new(),
    };
    let made: Edit<'static> = Edit::NewElement { tag };
    let child: Child<'static> = Child::Element(Ref::Fixed(id));
    make(rt, tree, made);
    make(rt, tree, put(child, parent));
}

/// Puts a child last into an element.
pub fn put(child: Child<'static>, parent: u64) -> Edit<'static> {
    Edit::Put {
        child,
        place: Place::Into(Ref::Fixed(parent)),
    }
}

/// Puts an empty comment last into an element.
pub fn comment(parent: u64) -> Edit<'static> {
    put(Child::Comment(Text::new()), parent)
}

/// Puts a child before the second element.
pub fn foster(child: Child<'static>) -> Edit<'static> {
    Edit::Put {
        child,
        place: Place::Foster {
            table: Ref::Fixed(2),
            above: Ref::Fixed(0),
        },
    }
}
