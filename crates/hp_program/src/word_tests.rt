//! The worked examples with words: what is written, and what the notes say.

ghost use Rattle.std.specs.Prelude.{◌≤◌, ◌^◌, length};
ghost use Rattle.hp_text.specs.Page.{text_of as page_text};
ghost use Rattle.hp_cut.specs.Places.{IsOf};

use super::*;
use crate::tests::{repeated, room_for};
use hp_cut::{Cuts, cuts_at_tags, cuts_by_size};
use hp_predict::GuessKind;
use hp_report::append_counts;
use hp_text::{MemorySink, Page, SteadySource, check_page};
use hp_workers::parse_page;
use std::alloc::Global;
use std::process::Abort;
use std::sync::Wait;
use std::sync::atomic::{AtomicU64, Ordering};
use std::thread::Threads;
use std::{mem, str};

/// The words, a page, and what the run answers, writes and says in the notes.
type Worked = (
    &'static str,
    &'static [u8],
    Status,
    &'static [u8],
    &'static [u8],
);

const USAGE: &[u8] =
    b"usage: hpar [--workers N] [--chunk N] [--cuts A,B,C] [--guess quiet|prescan|contrary] [--report] [--html] [--select TEXT]\n";

/// Two items in a list, and one behind it.
const LISTS: &[u8] = b"<ul class=\"a b\"><li id=x>1<li>2</ul><li>3";

const WORKED: &[Worked] = &[
    (
        "--report",
        b"",
        Status::Done,
        b"| <html>\n|   <head>\n|   <body>\n",
        b"chunk 0: 0 bytes, exact\ntotal: 1 chunks, 1 exact, 0 kept, 0 repaired, 0 rolled back\n",
    ),
    (
        "--cuts 6 --guess quiet --report",
        b"<p>one two",
        Status::Done,
        b"| <html>\n|   <head>\n|   <body>\n|     <p>\n|       \"one two\"\n",
        b"chunk 0: 6 bytes, exact\nchunk 1: 4 bytes, kept\ntotal: 2 chunks, 1 exact, 1 kept, 0 repaired, 0 rolled back\n",
    ),
    (
        "--cuts 7 --guess quiet --report",
        b"<b><p>x</b>y",
        Status::Done,
        b"| <html>\n|   <head>\n|   <body>\n|     <b>\n|     <p>\n|       <b>\n|         \"x\"\n|       \"y\"\n",
        b"chunk 0: 7 bytes, exact\nchunk 1: 5 bytes, rolled back on Listed\ntotal: 2 chunks, 1 exact, 0 kept, 0 repaired, 1 rolled back\n",
    ),
    (
        "--cuts 7 --guess prescan --report",
        b"<b><p>x</b>y",
        Status::Done,
        b"| <html>\n|   <head>\n|   <body>\n|     <b>\n|     <p>\n|       <b>\n|         \"x\"\n|       \"y\"\n",
        b"chunk 0: 7 bytes, exact\nchunk 1: 5 bytes, repaired at 0\ntotal: 2 chunks, 1 exact, 0 kept, 1 repaired, 0 rolled back\n",
    ),
    (
        "--cuts 4 --guess quiet --report",
        b"x&amp;y",
        Status::Done,
        b"| <html>\n|   <head>\n|   <body>\n|     \"x&y\"\n",
        b"chunk 0: 4 bytes, exact\nchunk 1: 3 bytes, rolled back on Entry\ntotal: 2 chunks, 1 exact, 0 kept, 0 repaired, 1 rolled back\n",
    ),
    (
        "--cuts 4 --guess prescan --report",
        b"x&amp;y",
        Status::Done,
        b"| <html>\n|   <head>\n|   <body>\n|     \"x&y\"\n",
        b"chunk 0: 4 bytes, exact\nchunk 1: 3 bytes, rolled back on Entry\ntotal: 2 chunks, 1 exact, 0 kept, 0 repaired, 1 rolled back\n",
    ),
    (
        "--cuts 4 --guess contrary --report",
        b"x&amp;y",
        Status::Done,
        b"| <html>\n|   <head>\n|   <body>\n|     \"x&y\"\n",
        b"chunk 0: 4 bytes, exact\nchunk 1: 3 bytes, rolled back on Entry\ntotal: 2 chunks, 1 exact, 0 kept, 0 repaired, 1 rolled back\n",
    ),
    (
        "--cuts 2 --guess quiet --report",
        b"a\r\nb",
        Status::Done,
        b"| <html>\n|   <head>\n|   <body>\n|     \"a\nb\"\n",
        b"chunk 0: 2 bytes, exact\nchunk 1: 2 bytes, rolled back on Entry\ntotal: 2 chunks, 1 exact, 0 kept, 0 repaired, 1 rolled back\n",
    ),
    (
        "--cuts 2 --guess prescan --report",
        b"a\r\nb",
        Status::Done,
        b"| <html>\n|   <head>\n|   <body>\n|     \"a\nb\"\n",
        b"chunk 0: 2 bytes, exact\nchunk 1: 2 bytes, kept\ntotal: 2 chunks, 1 exact, 1 kept, 0 repaired, 0 rolled back\n",
    ),
    (
        "--cuts 13 --guess quiet --report",
        b"<a title=\"1>2\">t",
        Status::Done,
        b"| <html>\n|   <head>\n|   <body>\n|     <a>\n|       title=\"1>2\"\n|       \"t\"\n",
        b"chunk 0: 13 bytes, exact\nchunk 1: 3 bytes, rolled back on Entry\ntotal: 2 chunks, 1 exact, 0 kept, 0 repaired, 1 rolled back\n",
    ),
    (
        "--cuts 13 --guess prescan --report",
        b"<a title=\"1>2\">t",
        Status::Done,
        b"| <html>\n|   <head>\n|   <body>\n|     <a>\n|       title=\"1>2\"\n|       \"t\"\n",
        b"chunk 0: 13 bytes, exact\nchunk 1: 3 bytes, rolled back on Entry\ntotal: 2 chunks, 1 exact, 0 kept, 0 repaired, 1 rolled back\n",
    ),
    (
        "--cuts 13 --guess contrary --report",
        b"<a title=\"1>2\">t",
        Status::Done,
        b"| <html>\n|   <head>\n|   <body>\n|     <a>\n|       title=\"1>2\"\n|       \"t\"\n",
        b"chunk 0: 13 bytes, exact\nchunk 1: 3 bytes, rolled back on Entry\ntotal: 2 chunks, 1 exact, 0 kept, 0 repaired, 1 rolled back\n",
    ),
    (
        "--cuts 20 --guess quiet --report",
        b"<script><!--<script></script>--></script>z",
        Status::Done,
        b"| <html>\n|   <head>\n|     <script>\n|       \"<!--<script></script>-->\"\n|   <body>\n|     \"z\"\n",
        b"chunk 0: 20 bytes, exact\nchunk 1: 22 bytes, rolled back on Entry\ntotal: 2 chunks, 1 exact, 0 kept, 0 repaired, 1 rolled back\n",
    ),
    (
        "--cuts 20 --guess prescan --report",
        b"<script><!--<script></script>--></script>z",
        Status::Done,
        b"| <html>\n|   <head>\n|     <script>\n|       \"<!--<script></script>-->\"\n|   <body>\n|     \"z\"\n",
        b"chunk 0: 20 bytes, exact\nchunk 1: 22 bytes, rolled back on Entry\ntotal: 2 chunks, 1 exact, 0 kept, 0 repaired, 1 rolled back\n",
    ),
    (
        "--cuts 20 --guess contrary --report",
        b"<script><!--<script></script>--></script>z",
        Status::Done,
        b"| <html>\n|   <head>\n|     <script>\n|       \"<!--<script></script>-->\"\n|   <body>\n|     \"z\"\n",
        b"chunk 0: 20 bytes, exact\nchunk 1: 22 bytes, rolled back on Entry\ntotal: 2 chunks, 1 exact, 0 kept, 0 repaired, 1 rolled back\n",
    ),
    (
        "--cuts 16 --guess quiet --report",
        b"<table><tr><td>a</td></tr></table>b",
        Status::Done,
        b"| <html>\n|   <head>\n|   <body>\n|     <table>\n|       <tbody>\n|         <tr>\n|           <td>\n|             \"a\"\n|     \"b\"\n",
        b"chunk 0: 16 bytes, exact\nchunk 1: 19 bytes, rolled back on Entry\ntotal: 2 chunks, 1 exact, 0 kept, 0 repaired, 1 rolled back\n",
    ),
    (
        "--cuts 16 --guess prescan --report",
        b"<table><tr><td>a</td></tr></table>b",
        Status::Done,
        b"| <html>\n|   <head>\n|   <body>\n|     <table>\n|       <tbody>\n|         <tr>\n|           <td>\n|             \"a\"\n|     \"b\"\n",
        b"chunk 0: 16 bytes, exact\nchunk 1: 19 bytes, kept\ntotal: 2 chunks, 1 exact, 1 kept, 0 repaired, 0 rolled back\n",
    ),
    (
        "--cuts 15 --guess prescan --report",
        b"<template><td>a</template>b",
        Status::Done,
        b"| <html>\n|   <head>\n|     <template>\n|       content\n|         <td>\n|           \"a\"\n|   <body>\n|     \"b\"\n",
        b"chunk 0: 15 bytes, exact\nchunk 1: 12 bytes, repaired at 0\ntotal: 2 chunks, 1 exact, 0 kept, 1 repaired, 0 rolled back\n",
    ),
    ("", b"a\xFF", Status::NotUtf8, b"", b"not UTF-8 at byte 1\n"),
    (
        "--cuts 3,3",
        b"abcdef",
        Status::BadCuts,
        b"",
        b"cut 1: not rising\n",
    ),
    (
        "--cuts 1",
        b"\xC3\xA9b",
        Status::BadCuts,
        b"",
        b"cut 0: inside a character\n",
    ),
    (
        "--cuts 3",
        b"\xC3\xA9b",
        Status::BadCuts,
        b"",
        b"cut 0: past the end\n",
    ),
    (
        "--html",
        b"<p title=\"a&quot;b\">x&lt;&nbsp;<br>",
        Status::Done,
        b"<html><head></head><body><p title=\"a&quot;b\">x&lt;&nbsp;<br></p></body></html>",
        b"",
    ),
    (
        "--html --report",
        b"<!DOCTYPE html><svg viewbox=1 xlink:href=h></svg><script>a<b</script>",
        Status::Done,
        b"<!DOCTYPE html><html><head></head><body><svg viewBox=\"1\" xlink:href=\"h\"></svg><script>a<b</script></body></html>",
        b"chunk 0: 69 bytes, exact\ntotal: 1 chunks, 1 exact, 0 kept, 0 repaired, 0 rolled back\n",
    ),
    (
        "--select ul.b>li",
        LISTS,
        Status::Done,
        b"| <li>\n|   id=\"x\"\n| <li>\n",
        b"",
    ),
    (
        "--select li,#x --workers 2 --cuts 21,30",
        LISTS,
        Status::Done,
        b"| <li>\n|   id=\"x\"\n| <li>\n| <li>\n",
        b"",
    ),
    (
        "--select=* --report",
        b"<svg viewbox=1></svg><template><b>",
        Status::Done,
        b"| <html>\n| <head>\n| <body>\n| <svg svg>\n|   viewBox=\"1\"\n| <template>\n| <b>\n",
        b"chunk 0: 34 bytes, exact\ntotal: 1 chunks, 1 exact, 0 kept, 0 repaired, 0 rolled back\n",
    ),
    ("--select dl", LISTS, Status::Done, b"", b""),
    (
        "--select ul>",
        LISTS,
        Status::BadSelector,
        b"",
        b"selector is malformed\n",
    ),
    (
        "--select=",
        b"a\xFF",
        Status::BadSelector,
        b"",
        b"selector is malformed\n",
    ),
    (
        "--select li",
        b"a\xFF",
        Status::NotUtf8,
        b"",
        b"not UTF-8 at byte 1\n",
    ),
    (
        "--make 0 --bytes 40",
        b"",
        Status::Done,
        b"<!DOCTYPE html>text text <!-- note -->xx",
        b"",
    ),
    ("--make 5 --bytes 3", b"", Status::Done, b"xxx", b""),
    ("--workers 0", b"x", Status::Usage, b"", USAGE),
    ("--workers 65", b"x", Status::Usage, b"", USAGE),
    ("--cuts 3 --chunk 64", b"x", Status::Usage, b"", USAGE),
    ("--guess loud", b"x", Status::Usage, b"", USAGE),
    ("--report --report", b"x", Status::Usage, b"", USAGE),
    ("--bytes 20", b"x", Status::Usage, b"", USAGE),
    ("--html --html", b"x", Status::Usage, b"", USAGE),
    (
        "--make 0 --bytes 40 --html",
        b"x",
        Status::Usage,
        b"",
        USAGE,
    ),
    ("--select li --html", b"x", Status::Usage, b"", USAGE),
    (
        "--select li --make 0 --bytes 40",
        b"x",
        Status::Usage,
        b"",
        USAGE,
    ),
    (
        "--drill 0 --bytes 20 --select ul>",
        b"x",
        Status::Usage,
        b"",
        USAGE,
    ),
    ("--help", b"x", Status::Usage, b"", USAGE),
    (
        "--drill 0 --bytes 20",
        b"",
        Status::Done,
        b"page: 20 bytes\ntree: 63 bytes\nsize quiet: 1 chunks, 1 exact, 0 kept, 0 repaired, 0 rolled back\nsize prescan: 1 chunks, 1 exact, 0 kept, 0 repaired, 0 rolled back\nsize contrary: 1 chunks, 1 exact, 0 kept, 0 repaired, 0 rolled back\ntags quiet: 1 chunks, 1 exact, 0 kept, 0 repaired, 0 rolled back\ntags prescan: 1 chunks, 1 exact, 0 kept, 0 repaired, 0 rolled back\ntags contrary: 1 chunks, 1 exact, 0 kept, 0 repaired, 0 rolled back\n",
        b"",
    ),
    ("--cuts 3,3 --chunk 64", b"x", Status::Usage, b"", USAGE),
    ("--", b"x", Status::Usage, b"", USAGE),
    ("--workers 2 --", b"x", Status::Usage, b"", USAGE),
    ("--make 1", b"x", Status::Usage, b"", USAGE),
    (
        "--make 1 --drill 1 --bytes 5",
        b"x",
        Status::Usage,
        b"",
        USAGE,
    ),
    (
        "--make 1 --bytes 5 --workers 2",
        b"x",
        Status::Usage,
        b"",
        USAGE,
    ),
    (
        "--drill 1 --bytes 5 --report",
        b"x",
        Status::Usage,
        b"",
        USAGE,
    ),
    ("--workers +2", b"x", Status::Usage, b"", USAGE),
    ("--cuts 1,,2", b"x", Status::Usage, b"", USAGE),
    (
        "--guess=prescan --workers=64 --cuts=1 --report",
        b"ab",
        Status::Done,
        b"| <html>\n|   <head>\n|   <body>\n|     \"ab\"\n",
        b"chunk 0: 1 bytes, exact\nchunk 1: 1 bytes, kept\ntotal: 2 chunks, 1 exact, 1 kept, 0 repaired, 0 rolled back\n",
    ),
];

/// The words of a line.
fn words_in<R: AllocGlobal + Abort>(rt: &R, line: &str) -> Words {
    let mut words = Words::new();
    for word in line.split_ascii_whitespace() {
        words.push(rt.alloc(), word).expect(rt, "there is memory");
    }
    words
}

/// A run with these words over this page through this gate: its status, what it wrote, and its notes.
fn run_with<R: Threads + Wait + Sync + AllocGlobal + Abort, G: Gate + Sync>(
    rt: &R,
    line: &str,
    page: &[u8],
    gate: &G,
) -> (Status, MemorySink, MemorySink) {
    let words = words_in(rt, line);
    let mut source = SteadySource::new(page);
    let mut out = room_for(rt, 1_000_000);
    let mut notes = room_for(rt, 10_000);
    let status = hpar(
        rt,
        rt.alloc(),
        &words,
        &mut source,
        &mut out,
        &mut notes,
        gate,
    );
    mem::forget(words);
    (status, out, notes)
}

/// A run with these words over this page answers, writes and says this.
fn assert_worked<R: Threads + Wait + Sync + AllocGlobal + Abort>(
    rt: &R,
    (line, page, status, written, said): Worked,
) {
    let (answered, out, notes) = run_with(rt, line, page, &OpenGate);
    let same = (answered, out.taken(), notes.taken()) == (status, written, said);
    mem::forget(out);
    mem::forget(notes);
    assert!(rt; same, "with {line:?}: {answered:?}");
}

#[test]
fn words_are_done_as_they_ask(rt: HostRuntime) {
    for worked in WORKED {
        assert_worked(&rt, *worked);
    }
}

/// A page of 348 bytes, cut at tags into six chunks.
const PAGE: &[u8] =
    b"<!DOCTYPE html>\n<html lang=\"en\">\n<head>\n<meta charset=\"utf-8\">\n<title>Price &amp; stock</title>\n<style>td > a { color: red }</style>\n</head>\n<body>\n<h1>Stock</h1>\n<ul>\n<li>Caf&eacute;\n<li><a href=\"?a=1&b=2\">Link</a>\n</ul>\n<table>\n<tr><td>1<td>2\n</table>\n<form action=\"/s\"><input name=q></form>\n<script>if (a < b && c) d();</script>\n</body>\n</html>\n";

const TREE: &[u8] =
    b"| <!DOCTYPE html>\n| <html>\n|   lang=\"en\"\n|   <head>\n|     \"\n\"\n|     <meta>\n|       charset=\"utf-8\"\n|     \"\n\"\n|     <title>\n|       \"Price & stock\"\n|     \"\n\"\n|     <style>\n|       \"td > a { color: red }\"\n|     \"\n\"\n|   \"\n\"\n|   <body>\n|     \"\n\"\n|     <h1>\n|       \"Stock\"\n|     \"\n\"\n|     <ul>\n|       \"\n\"\n|       <li>\n|         \"Caf\xC3\xA9\n\"\n|       <li>\n|         <a>\n|           href=\"?a=1&b=2\"\n|           \"Link\"\n|         \"\n\"\n|     \"\n\"\n|     <table>\n|       \"\n\"\n|       <tbody>\n|         <tr>\n|           <td>\n|             \"1\"\n|           <td>\n|             \"2\n\"\n|     \"\n\"\n|     <form>\n|       action=\"/s\"\n|       <input>\n|         name=\"q\"\n|     \"\n\"\n|     <script>\n|       \"if (a < b && c) d();\"\n|     \"\n\n\n\"\n";

/// The words, and what the notes say of the page.
const REPORTS: &[(&str, &[u8])] = &[
    (
        "--chunk 64 --guess quiet --workers 1 --report",
        b"chunk 0: 96 bytes, exact\nchunk 1: 45 bytes, rolled back on Entry\nchunk 2: 81 bytes, rolled back on Entry\nchunk 3: 50 bytes, kept\nchunk 4: 48 bytes, rolled back on Pointer\nchunk 5: 28 bytes, rolled back on Entry\ntotal: 6 chunks, 1 exact, 1 kept, 0 repaired, 4 rolled back\n",
    ),
    (
        "--chunk 64 --guess quiet --workers 2 --report",
        b"chunk 0: 96 bytes, exact\nchunk 1: 45 bytes, rolled back on Entry\nchunk 2: 81 bytes, rolled back on Entry\nchunk 3: 50 bytes, kept\nchunk 4: 48 bytes, rolled back on Pointer\nchunk 5: 28 bytes, rolled back on Entry\ntotal: 6 chunks, 1 exact, 1 kept, 0 repaired, 4 rolled back\n",
    ),
    (
        "--chunk 64 --guess quiet --workers 8 --report",
        b"chunk 0: 96 bytes, exact\nchunk 1: 45 bytes, rolled back on Entry\nchunk 2: 81 bytes, rolled back on Entry\nchunk 3: 50 bytes, kept\nchunk 4: 48 bytes, rolled back on Pointer\nchunk 5: 28 bytes, rolled back on Entry\ntotal: 6 chunks, 1 exact, 1 kept, 0 repaired, 4 rolled back\n",
    ),
    (
        "--chunk 64 --guess prescan --workers 1 --report",
        b"chunk 0: 96 bytes, exact\nchunk 1: 45 bytes, rolled back on Entry\nchunk 2: 81 bytes, rolled back on Entry\nchunk 3: 50 bytes, kept\nchunk 4: 48 bytes, kept\nchunk 5: 28 bytes, kept\ntotal: 6 chunks, 1 exact, 3 kept, 0 repaired, 2 rolled back\n",
    ),
    (
        "--chunk 64 --guess prescan --workers 2 --report",
        b"chunk 0: 96 bytes, exact\nchunk 1: 45 bytes, rolled back on Entry\nchunk 2: 81 bytes, rolled back on Entry\nchunk 3: 50 bytes, kept\nchunk 4: 48 bytes, kept\nchunk 5: 28 bytes, kept\ntotal: 6 chunks, 1 exact, 3 kept, 0 repaired, 2 rolled back\n",
    ),
    (
        "--chunk 64 --guess prescan --workers 8 --report",
        b"chunk 0: 96 bytes, exact\nchunk 1: 45 bytes, rolled back on Entry\nchunk 2: 81 bytes, rolled back on Entry\nchunk 3: 50 bytes, kept\nchunk 4: 48 bytes, kept\nchunk 5: 28 bytes, kept\ntotal: 6 chunks, 1 exact, 3 kept, 0 repaired, 2 rolled back\n",
    ),
    (
        "--chunk 64 --guess contrary --workers 1 --report",
        b"chunk 0: 96 bytes, exact\nchunk 1: 45 bytes, rolled back on Entry\nchunk 2: 81 bytes, rolled back on Entry\nchunk 3: 50 bytes, rolled back on Entry\nchunk 4: 48 bytes, rolled back on Entry\nchunk 5: 28 bytes, rolled back on Entry\ntotal: 6 chunks, 1 exact, 0 kept, 0 repaired, 5 rolled back\n",
    ),
    (
        "--chunk 64 --guess contrary --workers 2 --report",
        b"chunk 0: 96 bytes, exact\nchunk 1: 45 bytes, rolled back on Entry\nchunk 2: 81 bytes, rolled back on Entry\nchunk 3: 50 bytes, rolled back on Entry\nchunk 4: 48 bytes, rolled back on Entry\nchunk 5: 28 bytes, rolled back on Entry\ntotal: 6 chunks, 1 exact, 0 kept, 0 repaired, 5 rolled back\n",
    ),
    (
        "--chunk 64 --guess contrary --workers 8 --report",
        b"chunk 0: 96 bytes, exact\nchunk 1: 45 bytes, rolled back on Entry\nchunk 2: 81 bytes, rolled back on Entry\nchunk 3: 50 bytes, rolled back on Entry\nchunk 4: 48 bytes, rolled back on Entry\nchunk 5: 28 bytes, rolled back on Entry\ntotal: 6 chunks, 1 exact, 0 kept, 0 repaired, 5 rolled back\n",
    ),
];

#[test]
fn a_page_has_one_tree_and_one_report(rt: HostRuntime) {
    for (line, report) in REPORTS {
        assert_worked(&rt, (line, PAGE, Status::Done, TREE, report));
    }
}

/// How often the first of two workers looks for the second.
const LOOKS: u64 = 1_000_000_000;

/// Holds the first guess until a second one began.
#[derive(Drop)]
struct Pair {
    begun: AtomicU64,
    given_up: AtomicU64,
}

impl Gate for Pair {
    fn before_guess(&self, _worker: u32, _chunk: u32) {
        self.begun.fetch_add(1, Ordering::SeqCst);
        for _look in 0..LOOKS {
            if self.begun.load(Ordering::SeqCst) >= 2 {
                return;
            }
        }
        self.given_up.store(1, Ordering::SeqCst);
    }
}

#[test]
fn two_guesses_at_once(rt: HostRuntime) {
    let gate = Pair {
        begun: AtomicU64::new(0),
        given_up: AtomicU64::new(0),
    };
    let line = "--workers 2 --cuts 3,6 --guess quiet --report";
    let (status, out, notes) = run_with(&rt, line, b"onetwothr", &gate);
    let last = b"total: 3 chunks, 1 exact, 2 kept, 0 repaired, 0 rolled back\n";
    let told = notes.taken().ends_with(last);
    mem::forget(out);
    mem::forget(notes);
    assert_eq!(&rt; (status, told), (Status::Done, true));
    assert_eq!(&rt; gate.given_up.load(Ordering::SeqCst), 0);
}

/// A drill writes the same each time.
#[test]
fn a_drill_is_the_same_at_each_run(rt: HostRuntime) {
    let line = "--drill 7 --bytes 1000000 --chunk 4096";
    let (first_status, first, first_notes) = run_with(&rt, line, b"", &OpenGate);
    let (second_status, second, second_notes) = run_with(&rt, line, b"", &OpenGate);
    let same = first.taken() == second.taken() && !first.taken().is_empty();
    mem::forget(first_notes);
    mem::forget(second_notes);
    mem::forget(first);
    mem::forget(second);
    assert_eq!(&rt;
        (first_status, second_status, same),
        (Status::Done, Status::Done, true)
    );
}

/// The words of a parse of the drill's page, with a predictor.
const TAGS: [(&str, &str); 3] = [
    ("tags quiet: ", "--chunk 4096 --report --guess quiet"),
    ("tags prescan: ", "--chunk 4096 --report --guess prescan"),
    ("tags contrary: ", "--chunk 4096 --report --guess contrary"),
];

/// The text of the notes or of an output.
fn text_of_sink<'t>(rt: &impl Abort, sink: &'t MemorySink) -> &'t str {
    match str::from_utf8(sink.taken()) {
        Ok(text) => text,
        Err(_) => panic!(rt; "it is UTF-8"),
    }
}

/// The report of this page with these words ends with the counts that the drill tells behind the label.
fn assert_counts<R: Threads + Wait + Sync + AllocGlobal + Abort>(
    rt: &R,
    page: &[u8],
    drilled: &str,
    (label, line): (&str, &str),
) {
    let (status, out, notes) = run_with(rt, line, page, &OpenGate);
    let counts = text_of_sink(rt, &notes).lines().last().unwrap_or("");
    let counts = counts.strip_prefix("total: ");
    let told = drilled.lines().any(|line| counts.is_some() && line.strip_prefix(label) == counts);
    mem::forget(out);
    mem::forget(notes);
    assert_eq!(rt; (status, told), (Status::Done, true), "behind {label:?}");
}

/// What the lines of a cutter begin with, by the predictor.
type Kinds = [(GuessKind, &'static str); 3];

const BY_SIZE: Kinds = [
    (GuessKind::Quiet, "size quiet: "),
    (GuessKind::Prescan, "size prescan: "),
    (GuessKind::Contrary, "size contrary: "),
];

const AT_TAGS: Kinds = [
    (GuessKind::Quiet, "tags quiet: "),
    (GuessKind::Prescan, "tags prescan: "),
    (GuessKind::Contrary, "tags contrary: "),
];

/// Appends the counts of a page with these cuts by each predictor, as the journals of `parse_page` say.
fn append_all<R: Threads + Wait + Sync + Abort>(
    rt: &R,
    alloc: Global,
    text: &mut Vec<u8>,
    page: Page<'_>,
    cuts: &Cuts,
    kinds: Kinds,
)
    requires limit { length (page_text page) ≤ 2 ^ 24 }
    requires cuts_of_page { IsOf (page_text page) cuts.now }
{
    for (kind, label) in kinds {
        let parsed = parse_page(rt, alloc, page, cuts, kind, 2, &OpenGate);
        let (tree, journal) = parsed.expect(rt, "there is memory");
        mem::forget(tree);
        let appended = append_counts(alloc, text, label, cuts, journal.as_slice());
        mem::forget(journal);
        appended.expect(rt, "there is memory");
    }
}

/// The lines of counts of a page in chunks of 4,096 bytes.
fn counts_of<R: Threads + Wait + Sync + Abort>(rt: &R, alloc: Global, bytes: &[u8]) -> Vec<u8> {
    let page = check_page(bytes).expect(rt, "the page is UTF-8");
    assert!(rt; page.text().len() <= 1 << 24);
    let by_size = cuts_by_size(alloc, page, 4096).expect(rt, "there is memory");
    let at_tags = cuts_at_tags(alloc, page, 4096).expect(rt, "there is memory");
    let mut text = Vec::new(alloc);
    append_all(rt, alloc, &mut text, page, &by_size, BY_SIZE);
    append_all(rt, alloc, &mut text, page, &at_tags, AT_TAGS);
    mem::forget(by_size);
    mem::forget(at_tags);
    text
}

#[test]
fn a_drill_counts_what_the_journals_say(rt: HostRuntime) {
    let (_, page, no_notes) = run_with(&rt, "--make 7 --bytes 100000", b"", &OpenGate);
    let line = "--drill 7 --bytes 100000 --chunk 4096";
    let (_, drilled, no_drill_notes) = run_with(&rt, line, b"", &OpenGate);
    let counts = counts_of(&rt, rt.alloc(), page.taken());
    let told = drilled.taken().ends_with(counts.as_slice());
    for tags in TAGS {
        assert_counts(&rt, page.taken(), text_of_sink(&rt, &drilled), tags);
    }
    mem::forget(counts);
    mem::forget(page);
    mem::forget(drilled);
    mem::forget(no_notes);
    mem::forget(no_drill_notes);
    assert!(&rt; told);
}

/// So many elements, each inside the one before, that their printed tree would be of absurd length.
#[test]
fn a_tree_of_absurd_length_is_not_written(rt: HostRuntime) {
    let bytes = repeated(&rt, "", "<div>", 200_000);
    let line = "--chunk 16777216";
    let (status, out, notes) = run_with(&rt, line, bytes.as_slice(), &OpenGate);
    let silent = out.taken().is_empty();
    let told = notes.taken() == b"out of memory\n".as_slice();
    mem::forget(out);
    mem::forget(notes);
    mem::forget(bytes);
    assert_eq!(&rt; (status, silent, told), (Status::NoMemory, true, true));
}
