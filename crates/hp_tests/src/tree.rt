//! The runs of texts that a tree keeps.

use crate::growing::{keep_room, make, make_element, put};
use hp_arena::{NodeView, Runs, Tree};
use hp_control::Child;
use hp_elements::Text;
use std::mem;
use std::process::Abort;

/// A page that begins with `one two`, of which the rest doesn't fit into a text's own value.
const PAGE: &str = "one two, and more than one value holds";

/// Puts the part of the page between two places last into the element 1, for which there is room.
fn put_part(rt: &impl Abort, tree: &mut Tree<'static>, from: usize, to: usize) {
    assert!(rt; from <= to && to <= PAGE.len());
    assert!(rt; PAGE.is_char_boundary(from));
    assert!(rt; PAGE.is_char_boundary(to));
    let part: Child<'static> = Child::Text(Text::of_page(PAGE, from, to));
    make(rt, tree, put(part, 1));
}

/// How many runs the first text in the document's element has.
fn count_runs(tree: &Tree<'_>) -> Option<usize> {
    let inside = tree.first_child(tree.first_child(tree.root())?)?;
    match tree.view(inside) {
        NodeView::Text { runs } => Some(match runs {
            Runs::One(_) => 1,
            Runs::Several(runs) => runs.len(),
        }),
        _ => None,
    }
}

/// Two texts side by side in the page become one run, a short one behind them a part of it, a long one a second run of the same text.
#[test]
fn texts_are_kept_in_runs(rt: HostRuntime) {
    let mut tree: Tree<'static> = Tree::start(rt.alloc()).expect(&rt, "there is memory");
    keep_room(&rt, rt.alloc(), &mut tree);
    make_element(&rt, &mut tree, 1, 0);
    put_part(&rt, &mut tree, 0, 3);
    put_part(&rt, &mut tree, 3, 7);
    put_part(&rt, &mut tree, 0, 1);
    let short = count_runs(&tree);
    put_part(&rt, &mut tree, 7, 38);
    let long = count_runs(&tree);
    mem::forget(tree);
    assert!(rt; short == Some(1) && long == Some(2));
}
