//! Whole pages, and the same in two parts, of which the second is run from the state behind the first, and how many elements they make.

use hp_control::{Control, Edit, Edits};
use hp_fragment::{ending, parse_whole, replay};
use hp_pieces::{ExactParts, Fragment, States};
use hp_text::{Chunk, check_page};
use std::alloc::Global;
use std::mem;
use std::process::Abort;

/// The part of a page between two places.
pub(crate) fn chunk_of<'p>(rt: &impl Abort, page: &'p str, from: usize, to: usize) -> Chunk<'p> {
    let page = check_page(page.as_bytes()).expect(rt, "the page is UTF-8");
    let text = page.as_str();
    assert!(rt; from <= to && to <= text.len());
    assert!(rt; text.is_char_boundary(from));
    assert!(rt; text.is_char_boundary(to));
    Chunk {
        page,
        number: 1,
        from: from as u64,
        to: to as u64,
    }
}

/// How many elements these edits make.
fn made(edits: &Edits<'_>) -> u32 {
    let mut count: u32 = 0;
    for edit in edits.as_slice() {
        if matches!(edit, Edit::NewElement { .. }) {
            count = count.saturating_add(1);
        }
    }
    count
}

/// The state behind the part, and how many elements it makes. What is owned is kept to the end of the test.
pub(crate) fn run_part(
    rt: &impl Abort,
    alloc: Global,
    chunk: Chunk<'_>,
    from: Control,
) -> (Control, u32) {
    let Fragment::Exact(exact) = replay(alloc, chunk, from).expect(rt, "there is memory") else {
        panic!(rt; "a replay is exact");
    };
    let ExactParts {
        text: _,
        states,
        grove,
        outer,
    } = exact.into_parts();
    let States { entry, exit } = Box::into_inner(states);
    let count = grove.len();
    mem::forget(entry);
    mem::forget(grove);
    mem::forget(outer);
    (exit, count)
}

/// How many elements the page makes in two parts, with those that the end of input makes.
fn in_parts(rt: &impl Abort, alloc: Global, page: &str, cut: usize) -> u32 {
    let first = chunk_of(rt, page, 0, cut);
    let second = chunk_of(rt, page, cut, page.len());
    let (mid, front) = run_part(rt, alloc, first, Control::start());
    let (exit, back) = run_part(rt, alloc, second, mid);
    let end = ending(alloc, &exit).expect(rt, "there is memory");
    let last = made(end.edits());
    mem::forget(end);
    mem::forget(exit);
    front.saturating_add(back).saturating_add(last)
}

/// How many elements the page's tree has, with the document.
fn in_tree(rt: &impl Abort, alloc: Global, page: &str) -> u32 {
    let page = check_page(page.as_bytes()).expect(rt, "the page is UTF-8");
    let tree = parse_whole(alloc, page).expect(rt, "there is memory");
    let count = tree.len();
    mem::forget(tree);
    count
}

/// A page, a cut, and how many elements it makes. The cuts stand before the page, in a name, a value, a reference, raw text,
/// a section's opening, and behind the page.
type Parted = (&'static str, usize, u32);

const PARTED: &[Parted] = &[
    ("", 0, 3),
    ("x<!--y-->&amp;", 4, 3),
    ("<p>one<p>two", 0, 5),
    ("<table>x<td>y", 3, 7),
    ("<b><p>x</b>y", 8, 6),
    ("<b id='a b'><p>x</b>y", 10, 6),
    ("x&notit;<p>y", 5, 4),
    ("<template><td>a</template>b", 12, 5),
    ("<script>a<b></script>z", 10, 4),
    ("<script><!--<script></script>--></script>z", 14, 4),
    ("<svg><![CDATA[x]]><p>y", 9, 5),
    ("<svg><![CDATA[x]]><p>y<![CDATA[z]]>", 24, 5),
    ("<title>x", 8, 4),
];

fn compare(rt: &impl Abort, alloc: Global, pages: &[Parted]) {
    for (page, cut, count) in pages {
        let whole = in_tree(rt, alloc, page);
        let parts = in_parts(rt, alloc, page, *cut);
        assert!(rt;
            whole == count.wrapping_add(1) && parts == *count,
            "over {page}"
        );
    }
}

#[test]
fn pages_and_their_parts_make_the_same_elements(rt: HostRuntime) {
    compare(&rt, rt.alloc(), PARTED);
}
