//! Large trees whose text goes to an output. What is owned is kept to the end of a test.

use crate::growing::{comment, foster, keep_room, make, make_element};
use hp_arena::Tree;
use hp_control::Child;
use hp_elements::Text;
use hp_print::{Refusal, print_tree, write_tree, write_tree_by};
use hp_text::MemorySink;
use std::alloc::Global;
use std::mem;
use std::process::Abort;
use std::thread::Threads;

/// What a tree is grown by.
#[derive(Clone, Copy)]
enum By {
    /// An empty comment in the document, whose text takes 12 bytes.
    Comment,
    /// An element in the one before.
    Element,
    /// An element in the document.
    Sibling,
    /// A comment and a text of one letter before the second element, each between those that were put there before and the element.
    Pair,
}

/// A tree with so many elements, each in the one before.
fn nested(rt: &impl Abort, alloc: Global, elements: u64) -> Tree<'static> {
    let mut tree: Tree<'static> = Tree::start(alloc).expect(rt, "there is memory");
    grow(rt, alloc, &mut tree, By::Element, elements);
    tree
}

/// Grows a tree so many times; by elements, the document alone.
fn grow(rt: &impl Abort, alloc: Global, tree: &mut Tree<'static>, by: By, count: u64) {
    for number in 0..count {
        keep_room(rt, alloc, tree);
        match by {
            By::Comment => make(rt, tree, comment(0)),
            By::Element => make_element(rt, tree, number.wrapping_add(1), number),
            By::Sibling => {
                let made = tree.len() as u64;
                make_element(rt, tree, made, 0);
            }
            By::Pair => {
                let note: Child<'static> = Child::Comment(Text::new());
                let letter: Child<'static> = Child::Text(Text::of_char('t'));
                make(rt, tree, foster(note));
                make(rt, tree, foster(letter));
            }
        }
    }
}

/// An output with so much room takes that much of the text, and the fault tells it; and all of it where there is room for it.
fn assert_taken(rt: &impl Abort, alloc: Global, tree: &Tree<'_>, text: &[u8], room: usize) {
    let mut out = MemorySink::new(alloc, room, &[]).expect(rt, "there is memory");
    let outcome = write_tree(alloc, tree, &mut out);
    assert!(rt; room <= text.len());
    let expected = if room == text.len() {
        Ok(())
    } else {
        Err(Refusal::Fault { taken: room as u64 })
    };
    let well = out.taken() == &text[..room] && outcome == expected;
    mem::forget(out);
    assert!(rt; well, "room for {room}");
}

/// The line of an empty comment.
const LINE: [u8; 12] = *b"| <!--  -->\n";

/// Whether a text is lines of empty comments alone.
fn is_of_comments(text: &[u8]) -> bool {
    for place in 0..text.len() {
        if text[place] != LINE[place % 12] {
            return false;
        }
    }
    true
}

/// How many bytes of 120,000 an output has room for.
const ROOMS: &[usize] = &[0, 1, 65_535, 65_536, 65_537, 100_000, 119_999, 120_000];

fn assert_all_taken(rt: &impl Abort, alloc: Global, tree: &Tree<'_>, text: &[u8], rooms: &[usize]) {
    for room in rooms {
        assert_taken(rt, alloc, tree, text, *room);
    }
}

/// What is gathered goes out behind 65,536 bytes. An output without room for all took the first part.
#[test]
fn an_output_that_ends_within_the_text(rt: HostRuntime) {
    let mut tree = nested(&rt, rt.alloc(), 0);
    grow(&rt, rt.alloc(), &mut tree, By::Comment, 10_000);
    let text = print_tree(rt.alloc(), &tree).expect(&rt, "there is memory");
    let well = text.len() == 120_000 && is_of_comments(&text);
    assert_all_taken(&rt, rt.alloc(), &tree, &text, ROOMS);
    mem::forget(text);
    mem::forget(tree);
    assert!(rt; well);
}

/// The text of 200,000 elements, each in the one before, would take 40 GB.
#[test]
fn a_text_of_absurd_length_is_not_begun(rt: HostRuntime) {
    let tree = nested(&rt, rt.alloc(), 200_000);
    let mut out = MemorySink::new(rt.alloc(), 1_000, &[]).expect(&rt, "there is memory");
    let refused = write_tree(rt.alloc(), &tree, &mut out) == Err(Refusal::NoMemory);
    let well = refused && out.taken().is_empty();
    mem::forget(out);
    mem::forget(tree);
    assert!(rt; well);
}

/// The length of the text of a tree of so many elements, each in the one before, that is grown so many times.
fn length_of(rt: &impl Abort, alloc: Global, elements: u64, by: By, count: u64) -> usize {
    let mut tree = nested(rt, alloc, elements);
    grow(rt, alloc, &mut tree, by, count);
    let text = print_tree(alloc, &tree).expect(rt, "there is memory");
    let length = text.len();
    mem::forget(text);
    mem::forget(tree);
    length
}

/// Each level indents by two, so 2,000 levels take 4 MB. Of the children before one element none that was put there before is looked at.
#[test]
fn large_trees_are_printed(rt: HostRuntime) {
    let alloc = rt.alloc();
    assert!(rt; length_of(&rt, alloc, 2_000, By::Comment, 0) == 4_010_000);
    assert!(rt; length_of(&rt, alloc, 0, By::Comment, 1_000_000) == 1_000_000 * 12);
    assert!(rt; length_of(&rt, alloc, 2, By::Pair, 100_000) == 6 + 8 + 100_000 * (14 + 8));
}

/// An output with so much room takes that much of the text by this many threads, and the fault tells it.
fn assert_taken_by<R: Abort + Threads + Sync>(
    rt: &R,
    alloc: Global,
    tree: &Tree<'_>,
    text: &[u8],
    threads: u32,
    room: usize,
) {
    let mut out = MemorySink::new(alloc, room, &[]).expect(rt, "there is memory");
    let outcome = write_tree_by(rt, alloc, tree, &mut out, threads);
    assert!(rt; room <= text.len());
    let expected = if room == text.len() {
        Ok(())
    } else {
        Err(Refusal::Fault { taken: room as u64 })
    };
    let well = out.taken() == &text[..room] && outcome == expected;
    mem::forget(out);
    assert!(rt; well, "{threads} threads, room for {room}");
}

/// A tree of so many elements, each in the one before, of so many more in the document, and of so many comments and texts in the first
/// element is printed the same by any number of threads.
fn assert_printed_alike<R: Abort + Threads + Sync>(
    rt: &R,
    alloc: Global,
    elements: u64,
    more: u64,
    pairs: u64,
) {
    let mut tree = nested(rt, alloc, elements);
    grow(rt, alloc, &mut tree, By::Sibling, more);
    grow(rt, alloc, &mut tree, By::Pair, pairs);
    let text = print_tree(alloc, &tree).expect(rt, "there is memory");
    for threads in [1, 2, 4] {
        assert_taken_by(rt, alloc, &tree, &text, threads, text.len());
    }
    assert_taken_by(rt, alloc, &tree, &text, 4, text.len() / 2);
    mem::forget(text);
    mem::forget(tree);
}

/// A part has some 8,192 elements. That of 1,600 levels ends early: their text takes more than two megabytes.
#[test]
fn several_threads_print_as_one_does(rt: HostRuntime) {
    assert_printed_alike(&rt, rt.alloc(), 0, 70_000, 0);
    assert_printed_alike(&rt, rt.alloc(), 1_600, 70_000, 0);
    assert_printed_alike(&rt, rt.alloc(), 2, 40_000, 20_000);
}
