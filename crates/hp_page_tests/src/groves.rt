//! What a fragment carries of a list that stands within its chunk.
use crate::chunks::{in_two, page_of};
use hp_control::Control;
use hp_fragment::{replay, speculate_by};
use hp_pieces::{ExactParts, Fragment, States};
use hp_predict::GuessKind;
use hp_text::Chunk;
use std::alloc::Global;
use std::mem;
use std::process::Abort;

/// How much a guess carries.
#[derive(Clone, Copy)]
struct Carried {
    /// The elements that its inner edits make.
    elements: u32,
    outer: usize,
    /// The own elements that stay open.
    open: usize,
    /// The own formatting entries that stay.
    listed: usize,
    assumed: usize,
}

/// What a guess carries.
fn carried_by(rt: &impl Abort, fragment: Fragment<'_>) -> Carried {
    match fragment {
        Fragment::Guessed(guess) => {
            let parts = guess.into_parts();
            let carried = Carried {
                elements: parts.grove.len(),
                outer: parts.outer.len(),
                open: parts.change.stack.len(),
                listed: parts.change.formatting.len(),
                assumed: parts.assumptions.as_slice().len(),
            };
            mem::forget(parts);
            carried
        }
        Fragment::Exact(_) => panic!(rt; "the chunk is guessed"),
    }
}

/// A page with a list of so many items in a `<div>`.
fn list_of(rt: &impl Abort, alloc: Global, items: usize) -> String {
    let mut text = String::new(alloc);
    text.push_str("<div><ul>").expect(rt, "there is memory");
    for _item in 0..items {
        text.push_str("<li>x").expect(rt, "there is memory");
    }
    text.push_str("</ul>").expect(rt, "there is memory");
    text
}

/// What the guess of such a list behind its `<div>` carries.
fn carried_of_list(rt: &impl Abort, alloc: Global, items: usize) -> Carried {
    let text = list_of(rt, alloc, items);
    let page = page_of(rt, text.as_str());
    let cuts = in_two(rt, alloc, page, 5);
    assert!(rt; cuts.chunks() == 2);
    let guess = speculate_by(alloc, cuts.chunk(page, 1), GuessKind::Prescan);
    let carried = carried_by(rt, guess.expect(rt, "there is memory"));
    mem::forget(cuts);
    mem::forget(text);
    carried
}

/// The run over a part of a page from a state.
fn run_from<'p>(rt: &impl Abort, alloc: Global, chunk: Chunk<'p>, from: Control) -> ExactParts<'p> {
    match replay(alloc, chunk, from).expect(rt, "there is memory") {
        Fragment::Exact(exact) => exact.into_parts(),
        Fragment::Guessed(_) => panic!(rt; "the state is known"),
    }
}

/// How many elements the inner edits of the run over such a list behind its `<div>` make, and how many outer edits there are.
fn run_over_list(rt: &impl Abort, alloc: Global, items: usize) -> (u32, usize) {
    let text = list_of(rt, alloc, items);
    let page = page_of(rt, text.as_str());
    let cuts = in_two(rt, alloc, page, 5);
    assert!(rt; cuts.chunks() == 2);
    let ExactParts {
        text: _,
        states,
        grove,
        outer,
    } = run_from(rt, alloc, cuts.chunk(page, 0), Control::start());
    let States { entry, exit } = Box::into_inner(states);
    let parts = run_from(rt, alloc, cuts.chunk(page, 1), exit);
    let carried = (parts.grove.len(), parts.outer.len());
    mem::forget((entry, grove, outer, parts));
    mem::forget((cuts, text));
    carried
}

#[test]
fn a_list_is_one_outer_edit(rt: HostRuntime) {
    let few = carried_of_list(&rt, rt.alloc(), 2);
    let many = carried_of_list(&rt, rt.alloc(), 1000);
    assert_eq!(&rt; few.elements, 3);
    assert_eq!(&rt; many.elements, 1001);
    for carried in [few, many] {
        assert_eq!(&rt; carried.outer, 1);
        assert_eq!(&rt; carried.open, 0);
        assert_eq!(&rt; carried.listed, 0);
        assert_eq!(&rt; carried.assumed, few.assumed);
    }
}

#[test]
fn a_list_that_is_run_is_one_outer_edit(rt: HostRuntime) {
    assert_eq!(&rt; run_over_list(&rt, rt.alloc(), 2), (3, 1));
    assert_eq!(&rt; run_over_list(&rt, rt.alloc(), 1000), (1001, 1));
}
