//! Runs of the top call over devices in memory. What is owned is kept to the end of the test.

use super::*;
use hp_text::{MemorySink, MemorySource, PAGE_LIMIT, Sink, Source, SteadySource};
use std::mem;
use std::process::Abort;
use std::sync::Wait;
use std::thread::Threads;

const EMPTY_PAGE: &[u8] = b"| <html>\n|   <head>\n|   <body>\n";

/// An output in memory with room for so many bytes.
pub(crate) fn room_for<R: AllocGlobal + Abort>(rt: &R, room: usize) -> MemorySink {
    MemorySink::new(rt.alloc(), room, &[]).expect(rt, "there is memory")
}

/// The words with which the program is called.
fn words_of<R: AllocGlobal + Abort>(rt: &R, texts: &[&str]) -> Words {
    let mut words = Words::new();
    for text in texts {
        words.push(rt.alloc(), text).expect(rt, "there is memory");
    }
    words
}

/// The status of a run over this page and output.
fn run_over<R: Threads + Wait + Sync + AllocGlobal + Abort, S: Source, K: Sink>(
    rt: &R,
    texts: &[&str],
    page: &mut S,
    out: &mut K,
) -> Status {
    let words = words_of(rt, texts);
    let mut notes = room_for(rt, 100);
    let status = hpar(rt, rt.alloc(), &words, page, out, &mut notes, &OpenGate);
    mem::forget(notes);
    mem::forget(words);
    status
}

/// A run over a page of these bytes that ended so, with its status and what it wrote, was to end so.
fn assert_ended(rt: &impl Abort, over: &[u8], ended: (Status, &[u8]), wanted: (Status, &[u8])) {
    assert_eq!(rt; ended, wanted, "over {over:?}");
}

/// A run with these words over this page of these bytes, with so much room for the tree, answers this and writes this.
fn assert_page<R: Threads + Wait + Sync + AllocGlobal + Abort, S: Source>(
    rt: &R,
    texts: &[&str],
    (page, over): (&mut S, &[u8]),
    room: usize,
    wanted: (Status, &[u8]),
) {
    let mut out = room_for(rt, room);
    let status = run_over(rt, texts, page, &mut out);
    assert_ended(rt, over, (status, out.taken()), wanted);
    mem::forget(out);
}

/// The bytes of a page, what a run over them answers, and what it writes.
type Case = (&'static [u8], Status, &'static [u8]);

fn assert_cases<R: Threads + Wait + Sync + AllocGlobal + Abort>(rt: &R, cases: &[Case]) {
    for (bytes, status, written) in cases {
        let mut page = SteadySource::new(bytes);
        assert_page(rt, &[], (&mut page, bytes), 1_000, (*status, written));
    }
}

const JUDGED: &[Case] = &[
    (b"", Status::Done, EMPTY_PAGE),
    (b" \n\t\x0C", Status::Done, EMPTY_PAGE),
    (
        b"hello",
        Status::Done,
        b"| <html>\n|   <head>\n|   <body>\n|     \"hello\"\n",
    ),
    (
        b"\n a b",
        Status::Done,
        b"| <html>\n|   <head>\n|   <body>\n|     \"a b\"\n",
    ),
    (
        b"\xEF\xBB\xBFa",
        Status::Done,
        b"| <html>\n|   <head>\n|   <body>\n|     \"a\"\n",
    ),
    (
        b"\xEF\xBB\xBF\xEF\xBB\xBFa",
        Status::Done,
        b"| <html>\n|   <head>\n|   <body>\n|     \"\xEF\xBB\xBFa\"\n",
    ),
    (
        b"\xC3\xA9\nb ",
        Status::Done,
        b"| <html>\n|   <head>\n|   <body>\n|     \"\xC3\xA9\nb \"\n",
    ),
    (b"a\xFF", Status::NotUtf8, b""),
    (b"<\xFF", Status::NotUtf8, b""),
];

#[test]
fn pages_are_judged_and_printed(rt: HostRuntime) {
    assert_cases(&rt, JUDGED);
}

const MARKUP: &[Case] = &[
    (
        b"a<",
        Status::Done,
        b"| <html>\n|   <head>\n|   <body>\n|     \"a<\"\n",
    ),
    (
        b"a&",
        Status::Done,
        b"| <html>\n|   <head>\n|   <body>\n|     \"a&\"\n",
    ),
    (
        b"a\r\n\r",
        Status::Done,
        b"| <html>\n|   <head>\n|   <body>\n|     \"a\n\n\"\n",
    ),
    (
        b"a\0",
        Status::Done,
        b"| <html>\n|   <head>\n|   <body>\n|     \"a\"\n",
    ),
    (
        b"\xEF\xBB\xBF<p>",
        Status::Done,
        b"| <html>\n|   <head>\n|   <body>\n|     <p>\n",
    ),
    (
        b"<b><p>x</b>y",
        Status::Done,
        b"| <html>\n|   <head>\n|   <body>\n|     <b>\n|     <p>\n|       <b>\n|         \"x\"\n|       \"y\"\n",
    ),
    (
        b"<svg><![CDATA[x]]><p>y<![CDATA[z]]>",
        Status::Done,
        b"| <html>\n|   <head>\n|   <body>\n|     <svg svg>\n|       \"x\"\n|     <p>\n|       \"y\"\n|       <!-- [CDATA[z]] -->\n",
    ),
    // The text stands before the table. Two such texts become one, and what comes after the table is another.
    (
        b"<table>x<tr>\"\n<td>y</table>z",
        Status::Done,
        b"| <html>\n|   <head>\n|   <body>\n|     \"x\"\n\"\n|     <table>\n|       <tbody>\n|         <tr>\n|           <td>\n|             \"y\"\n|     \"z\"\n",
    ),
    // What is open again is a copy.
    (
        b"<a>1<a>2",
        Status::Done,
        b"| <html>\n|   <head>\n|   <body>\n|     <a>\n|       \"1\"\n|     <a>\n|       \"2\"\n",
    ),
    // With a doctype the table stands beside the paragraph.
    (
        b"<p><table>",
        Status::Done,
        b"| <html>\n|   <head>\n|   <body>\n|     <p>\n|       <table>\n",
    ),
    (
        b"<!DOCTYPE html><p><table>",
        Status::Done,
        b"| <!DOCTYPE html>\n| <html>\n|   <head>\n|   <body>\n|     <p>\n|     <table>\n",
    ),
    // An identifier that is absent is printed as empty.
    (
        b"<!DOCTYPE html PUBLIC \"p\"><!--\xC2\xACit-->",
        Status::Done,
        b"| <!DOCTYPE html \"p\" \"\">\n| <!-- \xC2\xACit -->\n| <html>\n|   <head>\n|   <body>\n",
    ),
    (
        b"<!DOCTYPE html SYSTEM \"about:legacy-compat\">",
        Status::Done,
        b"| <!DOCTYPE html \"\" \"about:legacy-compat\">\n| <html>\n|   <head>\n|   <body>\n",
    ),
    (
        b"&#128;&#0;&#xD800;",
        Status::Done,
        b"| <html>\n|   <head>\n|   <body>\n|     \"\xE2\x82\xAC\xEF\xBF\xBD\xEF\xBF\xBD\"\n",
    ),
    // U+0000 is gone, but in foreign content.
    (
        b"a\0b<svg>c\0",
        Status::Done,
        b"| <html>\n|   <head>\n|   <body>\n|     \"ab\"\n|     <svg svg>\n|       \"c\xEF\xBF\xBD\"\n",
    ),
    // Of four alike three are open again.
    (
        b"<p><b><b><b><b><p>x",
        Status::Done,
        b"| <html>\n|   <head>\n|   <body>\n|     <p>\n|       <b>\n|         <b>\n|           <b>\n|             <b>\n|     <p>\n|       <b>\n|         <b>\n|           <b>\n|             \"x\"\n",
    ),
    // The paragraph stands behind the element, whose copy has its children.
    (
        b"<b>1<p>2<!--c--></b>3",
        Status::Done,
        b"| <html>\n|   <head>\n|   <body>\n|     <b>\n|       \"1\"\n|     <p>\n|       <b>\n|         \"2\"\n|         <!-- c -->\n|       \"3\"\n",
    ),
    // The contents stand one deeper than children. A template of another namespace has none.
    (
        b"<template id=t><td>a</td><template><!--b--></template></template><svg><template></template></svg><math><mi>",
        Status::Done,
        b"| <html>\n|   <head>\n|     <template>\n|       id=\"t\"\n|       content\n|         <td>\n|           \"a\"\n|         <template>\n|           content\n|             <!-- b -->\n|   <body>\n|     <svg svg>\n|       <svg template>\n|     <math math>\n|       <math mi>\n",
    ),
    // By code points U+FF21 comes before U+1F600; its code unit FF21 comes after D83D. The word of a namespace counts.
    (
        b"<svg y='2\"' \xEF\xBC\xA1 \xF0\x9F\x98\x80 \xEE\x80\x80 xlink:href=# xlinka xmlns:xlink xml:lang=en x=b \xED\x9F\xBF>",
        Status::Done,
        b"| <html>\n|   <head>\n|   <body>\n|     <svg svg>\n|       x=\"b\"\n|       xlink href=\"#\"\n|       xlinka=\"\"\n|       xml lang=\"en\"\n|       xmlns xlink=\"\"\n|       y=\"2\"\"\n|       \xED\x9F\xBF=\"\"\n|       \xF0\x9F\x98\x80=\"\"\n|       \xEE\x80\x80=\"\"\n|       \xEF\xBC\xA1=\"\"\n",
    ),
    // Of the attributes of another such tag those that are missing are added.
    (
        b"<html a=1 b=2><body><html b=3 c=4 a=5>",
        Status::Done,
        b"| <html>\n|   a=\"1\"\n|   b=\"2\"\n|   c=\"4\"\n|   <head>\n|   <body>\n",
    ),
    // A whole page, with the line feeds between its elements.
    (
        b"<!DOCTYPE html>\n<html lang=\"en\">\n<head>\n<meta charset=\"utf-8\">\n<title>Price &amp; stock</title>\n<style>td > a { color: red }</style>\n</head>\n<body>\n<ul>\n<li>Caf&eacute;\n<li><a href=\"?a=1&b=2\">Link</a>\n</ul>\n<table>\n<tbody></table>\n</body>\n</html>\n",
        Status::Done,
        b"| <!DOCTYPE html>\n| <html>\n|   lang=\"en\"\n|   <head>\n|     \"\n\"\n|     <meta>\n|       charset=\"utf-8\"\n|     \"\n\"\n|     <title>\n|       \"Price & stock\"\n|     \"\n\"\n|     <style>\n|       \"td > a { color: red }\"\n|     \"\n\"\n|   \"\n\"\n|   <body>\n|     \"\n\"\n|     <ul>\n|       \"\n\"\n|       <li>\n|         \"Caf\xC3\xA9\n\"\n|       <li>\n|         <a>\n|           href=\"?a=1&b=2\"\n|           \"Link\"\n|         \"\n\"\n|     \"\n\"\n|     <table>\n|       \"\n\"\n|       <tbody>\n|     \"\n\n\n\"\n",
    ),
];

#[test]
fn markup_is_parsed(rt: HostRuntime) {
    assert_cases(&rt, MARKUP);
}

/// A page of two chunks: what it begins with, and what comes behind it so many times; and how these are printed.
type Long = (&'static str, &'static str, &'static str, &'static str);

/// In the first one the guess that the second chunk begins within the body is right. In the other one the table was opened too far
/// before to be seen.
const LONG: &[Long] = &[
    (
        "",
        "<p>one two",
        "| <html>\n|   <head>\n|   <body>\n",
        "|     <p>\n|       \"one two\"\n",
    ),
    (
        "<table>",
        "<tr><td>one",
        "| <html>\n|   <head>\n|   <body>\n|     <table>\n|       <tbody>\n",
        "|         <tr>\n|           <td>\n|             \"one\"\n",
    ),
];

/// A text, and another one behind it so many times. It stays to the test's end.
pub(crate) fn repeated<R: AllocGlobal + Abort>(
    rt: &R,
    first: &str,
    again: &str,
    times: usize,
) -> Vec<u8> {
    let mut text = String::from_str(rt.alloc(), first).expect(rt, "there is memory");
    let rest = again
        .repeat(rt.alloc(), times)
        .expect(rt, "there is memory");
    text.push_str(rest.as_str()).expect(rt, "there is memory");
    mem::forget(rest);
    text.into_bytes()
}

/// A run over a page of some 66,000 bytes answers `Done` and writes this.
fn assert_long<R: Threads + Wait + Sync + AllocGlobal + Abort>(
    rt: &R,
    (first, again, printed_first, printed_again): Long,
) {
    let times = 66_000 / again.len().max(1);
    let bytes = repeated(rt, first, again, times);
    let wanted = repeated(rt, printed_first, printed_again, times);
    let mut out = room_for(rt, wanted.len());
    let status = run_over(rt, &[], &mut SteadySource::new(&bytes), &mut out);
    let same = out.taken() == wanted.as_slice();
    mem::forget(out);
    mem::forget(wanted);
    mem::forget(bytes);
    assert_eq!(rt; (status, same), (Status::Done, true), "over {again:?}");
}

#[test]
fn pages_of_two_chunks_are_parsed(rt: HostRuntime) {
    for long in LONG {
        assert_long(&rt, *long);
    }
}

#[test]
fn a_word_is_none_that_is_known(rt: HostRuntime) {
    let mut page = MemorySource::new(rt.alloc(), b"hello", 5, &[0]).expect(&rt, "there is memory");
    let wanted = (Status::Usage, b"".as_slice());
    assert_page(&rt, &["--help", ""], (&mut page, b"hello"), 100, wanted);
    let faults = page.faults();
    mem::forget(page);
    assert!(rt; faults == 0);
}

/// A run that ended so, with its status and how many bytes it wrote, was to end so.
fn assert_measured(rt: &impl Abort, ended: (Status, usize), wanted: (Status, usize)) {
    assert_eq!(rt; ended, wanted);
}

/// The status of a run over these bytes, with so much room for the tree, and how many bytes it writes.
fn measured<R: Threads + Wait + Sync + AllocGlobal + Abort>(
    rt: &R,
    bytes: &[u8],
    room: usize,
) -> (Status, usize) {
    let mut out = room_for(rt, room);
    let status = run_over(rt, &[], &mut SteadySource::new(bytes), &mut out);
    let written = out.taken().len();
    mem::forget(out);
    (status, written)
}

/// A run over a page of so many letters answers this, and writes so many bytes.
fn assert_letters<R: Threads + Wait + Sync + AllocGlobal + Abort>(
    rt: &R,
    count: usize,
    wanted: (Status, usize),
) {
    let bytes = vec![in rt.alloc(); b'x'; count].expect(rt, "there is memory");
    let ended = measured(rt, &bytes, PAGE_LIMIT + 100);
    mem::forget(bytes);
    assert_measured(rt, ended, wanted);
}

#[test]
fn a_page_has_a_limit(rt: HostRuntime) {
    assert_letters(&rt, PAGE_LIMIT + 1, (Status::TooLarge, 0));
    assert_letters(&rt, PAGE_LIMIT, (Status::Done, 31 + 9 + PAGE_LIMIT));
}

/// A run over a page whose calls of these numbers fail, a byte a call.
fn assert_failing<R: Threads + Wait + Sync + AllocGlobal + Abort>(
    rt: &R,
    failing: &[u64],
    wanted: (Status, &[u8]),
) {
    let mut page = MemorySource::new(rt.alloc(), b"abc", 1, failing).expect(rt, "there is memory");
    assert_page(rt, &[], (&mut page, b"abc"), 100, wanted);
    mem::forget(page);
}

/// The calls that fail, what a run answers, and what it writes.
const FAILING: &[(&[u64], Status, &[u8])] = &[
    (&[], Status::Done, ABC_PAGE),
    (&[0], Status::ReadFault, b""),
    (&[1], Status::ReadFault, b""),
    (&[2], Status::ReadFault, b""),
    (&[3], Status::ReadFault, b""),
    (&[4], Status::Done, ABC_PAGE),
];

const ABC_PAGE: &[u8] = b"| <html>\n|   <head>\n|   <body>\n|     \"abc\"\n";

fn assert_all_failing<R: Threads + Wait + Sync + AllocGlobal + Abort>(
    rt: &R,
    cases: &[(&[u64], Status, &[u8])],
) {
    for (failing, status, written) in cases {
        assert_failing(rt, failing, (*status, written));
    }
}

#[test]
fn a_page_that_fails_is_not_printed(rt: HostRuntime) {
    assert_all_failing(&rt, FAILING);
}

const EMPTY_HTML: &[u8] = b"<html><head></head><body></body></html>";

/// An output without room for all that a run with these words over an empty page writes takes the first part of it.
fn assert_first_parts<R: Threads + Wait + Sync + AllocGlobal + Abort>(
    rt: &R,
    texts: &[&str],
    whole: &[u8],
) {
    for room in 0..whole.len() {
        let mut page = SteadySource::new(b"");
        let wanted = (Status::WriteFault, &whole[..room]);
        assert_page(rt, texts, (&mut page, b""), room, wanted);
    }
}

#[test]
fn an_output_without_room_takes_the_first_part(rt: HostRuntime) {
    assert_first_parts(&rt, &[], EMPTY_PAGE);
    assert_first_parts(&rt, &["--html"], EMPTY_HTML);
}

/// For `rt try --test --fail-alloc N`, where the Nth allocation fails. In the gate none fails, and the page is printed.
#[test]
fn without_memory_nothing_is_written(rt: HostRuntime) {
    let ended = measured(&rt, b"hello", 100);
    let wanted = match ended.0 {
        Status::NoMemory => (Status::NoMemory, 0),
        _ => (Status::Done, 45),
    };
    assert_measured(&rt, ended, wanted);
}
