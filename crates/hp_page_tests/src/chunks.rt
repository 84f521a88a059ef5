//! Pages chunk by chunk: their printed trees, whatever is guessed, and what becomes of the guesses.
ghost use Rattle.std.specs.Prelude.{◌≤◌, ◌^◌, length};
ghost use Rattle.hp_text.specs.Page.{text_of as page_text};
ghost use Rattle.hp_cut.specs.Places.{IsOf};

use hp_control::Control;
use hp_cut::{Cuts, cuts_at_tags, cuts_listed};
use hp_fragment::{replay, speculate_by};
use hp_merge::Front;
use hp_pieces::pages_at;
use hp_predict::GuessKind;
use hp_print::print_tree;
use hp_text::{Page, check_page};
use hp_workers::{Joined, join_chunk, parse_in_order};
use std::alloc::Global;
use std::mem;
use std::process::Abort;

/// A page, a place where it is cut, and its printed tree. The cuts stand in a text, in a tag, in a reference, within a line's end, in a
/// value, in a script, and before end tags.
type Parted = (&'static str, u64, &'static str);

const PARTED: &[Parted] = &[
    (
        "<p>one two",
        6,
        "| <html>\n|   <head>\n|   <body>\n|     <p>\n|       \"one two\"\n",
    ),
    (
        "<b><p>x</b>y",
        7,
        "| <html>\n|   <head>\n|   <body>\n|     <b>\n|     <p>\n|       <b>\n|         \"x\"\n|       \"y\"\n",
    ),
    (
        "x&amp;y",
        4,
        "| <html>\n|   <head>\n|   <body>\n|     \"x&y\"\n",
    ),
    (
        "a\r\nb",
        2,
        "| <html>\n|   <head>\n|   <body>\n|     \"a\nb\"\n",
    ),
    (
        "<a title=\"1>2\">t",
        13,
        "| <html>\n|   <head>\n|   <body>\n|     <a>\n|       title=\"1>2\"\n|       \"t\"\n",
    ),
    (
        "<script><!--<script></script>--></script>z",
        20,
        "| <html>\n|   <head>\n|     <script>\n|       \"<!--<script></script>-->\"\n|   <body>\n|     \"z\"\n",
    ),
    (
        "<table><tr><td>a</td></tr></table>b",
        16,
        "| <html>\n|   <head>\n|   <body>\n|     <table>\n|       <tbody>\n|         <tr>\n|           <td>\n|             \"a\"\n|     \"b\"\n",
    ),
    (
        "<template><td>a</template>b",
        15,
        "| <html>\n|   <head>\n|     <template>\n|       content\n|         <td>\n|           \"a\"\n|   <body>\n|     \"b\"\n",
    ),
];

/// A page, a place where it is cut, a predictor, and what becomes of what it guesses of the second part.
type Guessed = (&'static str, u64, GuessKind, Joined);

const GUESSED: &[Guessed] = &[
    ("<p>one two", 6, GuessKind::Quiet, Joined::Kept),
    ("<b><p>x</b>y", 7, GuessKind::Quiet, Joined::RolledBack),
    (
        "<b><p>x</b>y",
        7,
        GuessKind::Prescan,
        Joined::Repaired { at: 0 },
    ),
    ("x&amp;y", 4, GuessKind::Quiet, Joined::RolledBack),
    ("x&amp;y", 4, GuessKind::Prescan, Joined::RolledBack),
    ("x&amp;y", 4, GuessKind::Contrary, Joined::RolledBack),
    ("a\r\nb", 2, GuessKind::Quiet, Joined::RolledBack),
    ("a\r\nb", 2, GuessKind::Prescan, Joined::Kept),
    (
        "<a title=\"1>2\">t",
        13,
        GuessKind::Quiet,
        Joined::RolledBack,
    ),
    (
        "<a title=\"1>2\">t",
        13,
        GuessKind::Prescan,
        Joined::RolledBack,
    ),
    (
        "<a title=\"1>2\">t",
        13,
        GuessKind::Contrary,
        Joined::RolledBack,
    ),
    (
        "<script><!--<script></script>--></script>z",
        20,
        GuessKind::Quiet,
        Joined::RolledBack,
    ),
    (
        "<script><!--<script></script>--></script>z",
        20,
        GuessKind::Prescan,
        Joined::RolledBack,
    ),
    (
        "<script><!--<script></script>--></script>z",
        20,
        GuessKind::Contrary,
        Joined::RolledBack,
    ),
    (
        "<table><tr><td>a</td></tr></table>b",
        16,
        GuessKind::Quiet,
        Joined::RolledBack,
    ),
    (
        "<table><tr><td>a</td></tr></table>b",
        16,
        GuessKind::Prescan,
        Joined::Kept,
    ),
    (
        "<template><td>a</template>b",
        15,
        GuessKind::Prescan,
        Joined::Repaired { at: 0 },
    ),
];

/// A page of some six chunks, and its printed tree.
pub(crate) const PAGE: &str =
    "<!DOCTYPE html>\n<html lang=\"en\">\n<head>\n<meta charset=\"utf-8\">\n<title>Price &amp; stock</title>\n<style>td > a { color: red }</style>\n</head>\n<body>\n<h1>Stock</h1>\n<ul>\n<li>Caf&eacute;\n<li><a href=\"?a=1&b=2\">Link</a>\n</ul>\n<table>\n<tr><td>1<td>2\n</table>\n<form action=\"/s\"><input name=q></form>\n<script>if (a < b && c) d();</script>\n</body>\n</html>\n";

pub(crate) const TREE: &str =
    "| <!DOCTYPE html>\n| <html>\n|   lang=\"en\"\n|   <head>\n|     \"\n\"\n|     <meta>\n|       charset=\"utf-8\"\n|     \"\n\"\n|     <title>\n|       \"Price & stock\"\n|     \"\n\"\n|     <style>\n|       \"td > a { color: red }\"\n|     \"\n\"\n|   \"\n\"\n|   <body>\n|     \"\n\"\n|     <h1>\n|       \"Stock\"\n|     \"\n\"\n|     <ul>\n|       \"\n\"\n|       <li>\n|         \"Café\n\"\n|       <li>\n|         <a>\n|           href=\"?a=1&b=2\"\n|           \"Link\"\n|         \"\n\"\n|     \"\n\"\n|     <table>\n|       \"\n\"\n|       <tbody>\n|         <tr>\n|           <td>\n|             \"1\"\n|           <td>\n|             \"2\n\"\n|     \"\n\"\n|     <form>\n|       action=\"/s\"\n|       <input>\n|         name=\"q\"\n|     \"\n\"\n|     <script>\n|       \"if (a < b && c) d();\"\n|     \"\n\n\n\"\n";

const KINDS: [GuessKind; 3] = [GuessKind::Quiet, GuessKind::Prescan, GuessKind::Contrary];

/// The page of a short text.
pub(crate) fn page_of<'p>(rt: &impl Abort, text: &'p str) -> Page<'p>
    ensures { length (page_text result) ≤ 2 ^ 24 }
{
    let page = check_page(text.as_bytes()).expect(rt, "the page is UTF-8");
    assert!(rt; page.text().len() <= 1 << 24);
    page
}

/// The cuts of a page into two parts.
pub(crate) fn in_two(rt: &impl Abort, alloc: Global, page: Page<'_>, place: u64) -> Cuts
    ensures { IsOf (page_text page.entry) result }
{
    match cuts_listed(alloc, page, &[place]) {
        Ok(cuts) => cuts,
        Err(_) => panic!(rt; "the place cuts the page"),
    }
}

/// The page, so cut, has the tree that is printed so, whatever is guessed. What is owned is kept to the test's end.
fn assert_trees(rt: &impl Abort, alloc: Global, page: Page<'_>, cuts: &Cuts, wanted: &str)
    requires limit { length (page_text page) ≤ 2 ^ 24 }
    requires cuts_of_page { IsOf (page_text page) cuts.now }
{
    for kind in KINDS {
        let tree = parse_in_order(alloc, page, cuts, kind).expect(rt, "there is memory");
        let printed = print_tree(alloc, &tree).expect(rt, "there is memory");
        let same = printed.as_slice() == wanted.as_bytes();
        mem::forget(printed);
        mem::forget(tree);
        assert!(rt; same, "by {kind:?} over {page:?}");
    }
}

#[test]
fn trees_are_the_same_whatever_is_guessed(rt: HostRuntime) {
    for (text, place, wanted) in PARTED {
        let page = page_of(&rt, text);
        let cuts = in_two(&rt, rt.alloc(), page, *place);
        assert_trees(&rt, rt.alloc(), page, &cuts, wanted);
        mem::forget(cuts);
    }
    let page = page_of(&rt, PAGE);
    let cuts = cuts_at_tags(rt.alloc(), page, 64).expect(&rt, "there is memory");
    assert_trees(&rt, rt.alloc(), page, &cuts, TREE);
    mem::forget(cuts);
}

/// What becomes of what is guessed of the second of two parts.
fn second_part(
    rt: &impl Abort,
    alloc: Global,
    page: Page<'_>,
    place: u64,
    kind: GuessKind,
) -> Joined
    requires { length (page_text page) ≤ 2 ^ 24 }
{
    pages_at();
    let cuts = in_two(rt, alloc, page, place);
    assert!(rt; cuts.chunks() == 2);
    let (first, second) = (cuts.chunk(page, 0), cuts.chunk(page, 1));
    let mut front = Front::start(alloc).expect(rt, "there is memory");
    let exact = replay(alloc, first, Control::start()).expect(rt, "there is memory");
    let kept = join_chunk(alloc, &mut front, first, exact).expect(rt, "there is memory");
    assert_eq!(rt; kept, Joined::Kept);
    let fragment = speculate_by(alloc, second, kind).expect(rt, "there is memory");
    let joined = join_chunk(alloc, &mut front, second, fragment).expect(rt, "there is memory");
    mem::forget(front);
    mem::forget(cuts);
    joined
}

#[test]
fn guesses_become_what_they_are(rt: HostRuntime) {
    for (text, place, kind, wanted) in GUESSED {
        let page = page_of(&rt, text);
        let joined = second_part(&rt, rt.alloc(), page, *place, *kind);
        assert_eq!(&rt; joined, *wanted, "by {kind:?} over {text:?}");
    }
}
