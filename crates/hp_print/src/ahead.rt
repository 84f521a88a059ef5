//! The walk ahead over a tree, which finds where its parts begin.

ghost use Rattle.std.specs.Prelude.{◌≤◌, vec_len, vec_capacity};
ghost use Rattle.hp_arena.specs.Readers.{IsAt};
ghost use Rattle.hp_print.specs.Parts.{AreRoomy};
ghost use Rattle.hp_print.specs.Stack.{AreMarks, IsMark};

use crate::walk::{Mark, push_inside, push_next};
use hp_arena::{At, NodeView, Tree};

/// About how many elements a part has. The walk ahead looks at no more items than these to pass over a part.
const ELEMENTS: u32 = 1 << 13;

/// Moves marks over about as many elements as a part has, and prints nothing. As a rule elements have their ids in the order of their
/// start tags: so an element is passed over with all that stands inside it where the ids say that this is little enough.
pub fn pass(tree: &Tree<'_>, marks: &mut Vec<Mark>)
    requires { AreRoomy tree.now marks.old.items (vec_capacity marks.old) }
    ensures { AreRoomy tree.now marks.new.items (vec_capacity marks.new) }
{
    let mut left = ELEMENTS;
    for _ in 0..ELEMENTS {
        if left == 0 {
            return;
        }
        let Some(mark) = marks.pop() else {
            return;
        };
        left = left.saturating_sub(pass_one(tree, marks, mark, left));
    }
}

/// Moves marks over the item at the mark that was the last of them: with all that stands inside it where that is so many elements at
/// most, and else alone. How many elements were passed over whole. Nothing is promised of the number.
fn pass_one(tree: &Tree<'_>, marks: &mut Vec<Mark>, mark: Mark, most: u32) -> u32
    requires mark { IsMark tree.now mark }
    requires rising { vec_len marks.old ≤ mark.level }
    requires marks { AreRoomy tree.now marks.old.items (vec_capacity marks.old) }
    ensures { AreRoomy tree.now marks.new.items (vec_capacity marks.new) }
{
    push_next(tree, marks, mark);
    let count = elements_in(tree, mark.at, marks.as_slice());
    if count == 0 || most < count {
        push_inside(tree, marks, mark);
        return 0;
    }
    count
}

/// How many elements an item is with what stands inside it, by the ids of it and of the element behind it, at the last mark; 0 where they
/// don't say it. Nothing is promised of the number, since ids may come in any order.
fn elements_in(tree: &Tree<'_>, at: At, behind: &[Mark]) -> u32
    requires there { IsAt tree.now at }
    requires behind { AreMarks tree.now 0 behind.now }
{
    let Some(next) = behind.last() else {
        return 0;
    };
    match (id_of(tree, at), id_from(tree, next.at)) {
        (Some(id), Some(next)) => next.saturating_sub(id),
        _ => 0,
    }
}

/// The id of the element there, or else of the next in the same list.
fn id_from(tree: &Tree<'_>, at: At) -> Option<u32>
    requires { IsAt tree.now at }
{
    if let Some(id) = id_of(tree, at) {
        return Some(id);
    }
    match tree.next_sibling(at) {
        Some(next) => id_of(tree, next),
        None => None,
    }
}

/// The id of the element there.
fn id_of(tree: &Tree<'_>, at: At) -> Option<u32>
    requires { IsAt tree.now at }
{
    match tree.view(at) {
        NodeView::Element { id, .. } => Some(id),
        _ => None,
    }
}

/// The number by which the tree finds the item at the last mark, which is printed next. `None` where nothing is left.
#[inline]
pub fn next_node(marks: &[Mark]) -> Option<u32> {
    match marks.last() {
        Some(mark) => node_of(mark.at),
        None => None,
    }
}

/// The number by which the tree finds an item.
#[inline]
fn node_of(at: At) -> Option<u32> {
    match at {
        At::Child(spot) => Some(spot.node),
        At::Document | At::Contents(_) => None,
    }
}
