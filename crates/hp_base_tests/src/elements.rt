//! Calls that take memory, and the sizes of the types that a page is made of. What is owned is kept to the end of a test.
use hp_elements::{Attribute, List, Name, Tag, Text, Token};
use std::alloc::Global;
use std::mem;
use std::process::Abort;

/// A text of a string and two pieces behind it, which make it too long for a text's own value.
fn grown_text(rt: &impl Abort, alloc: Global) -> Text<'static> {
    let own = String::from_str(alloc, "some words").expect(rt, "there is memory");
    let mut text = Text::of_owned(alloc, own).expect(rt, "there is memory");
    text.push(alloc, '!').expect(rt, "there is memory");
    text.push_str(alloc, " And then some more words.")
        .expect(rt, "there is memory");
    text
}

/// Whether two numbers more behind a list of one make three.
fn grows_list(rt: &impl Abort, alloc: Global) -> bool {
    let mut list = List::of_one(4);
    list.push(alloc, 5).expect(rt, "there is memory");
    list.push(alloc, 6).expect(rt, "there is memory");
    let well = list.len() == 3;
    mem::forget(list);
    well
}

#[test]
fn texts_and_lists_grow(rt: HostRuntime) {
    let text = grown_text(&rt, rt.alloc());
    let well = text.as_str() == "some words! And then some more words.";
    mem::forget(text);
    assert!(rt; well && grows_list(&rt, rt.alloc()));
}

/// What stands behind a text in its page becomes a part of it without memory; what doesn't, and is too long for a text's own value, stays apart.
#[test]
fn texts_side_by_side_join(rt: HostRuntime) {
    let page = "one two, and twenty-three code points more";
    let mut text = Text::of_page(page, 0, 3);
    let beside = text.join(Text::of_page(page, 3, 7));
    let apart = text.join(Text::of_page(page, 12, 42));
    let well = beside.is_none() && apart.is_some();
    mem::forget(beside);
    mem::forget(apart);
    mem::forget(text);
    assert!(rt; well);
}

#[test]
fn types_are_small(rt: HostRuntime) {
    let parts = size_of::<Name>() <= 16 && size_of::<Text<'static>>() <= 32;
    let tags = size_of::<Attribute>() <= 56 && size_of::<Tag>() <= 56;
    let tokens = size_of::<Token<'static>>() <= 64 && size_of::<List<Token<'static>>>() <= 72;
    assert!(rt; parts && tags && tokens);
}
