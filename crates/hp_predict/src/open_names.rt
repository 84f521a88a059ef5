//! The names that the tags of a text leave open, and its end tags that close none of them.
ghost use Rattle.std.specs.Prelude.{◌≡◌, ◌≤◌, false, [], ◌∷◌, ◌++◌, length, drop, Some, OnOk, IfOk, IfSome, if◌then◌else◌};
ghost use Rattle.std.specs.Option.{option_map};
ghost use Rattle.std.specs.Str.{IsAscii};
ghost use Rattle.hp_predict.specs.Tags.{counts, counted_tags, counting, tags};
ghost use Rattle.hp_predict.specs.Found.{closing, found_tag, tags_from};
ghost use Rattle.hp_predict.specs.OpenNames.{IsPair, begins_with_t, with_section, with_row, implied, below, is_unmatched, after_tag, after, unmatched};

use crate::found::FoundTag;
use crate::name::TagName;
use crate::tags::{from_less_than, next_tag};
use hp_control::Stack;
use hp_elements::{Known, List, NoMemory, SetName};
use std::alloc::Global;

/// What is known of a text's tags.
#[derive(Drop)]
pub struct Scan<'t> {
    /// The names that are open, the last one on top.
    pub names: Stack<TagName<'t>>,
    /// The end tags that closed none.
    pub unmatched: List<TagName<'t>>,
}

/// A `tbody` opens in a table.
fn open_section(alloc: Global, names: &mut Stack<TagName<'_>>) -> Result<(), NoMemory>
    ensures { OnOk result (names.new ≡ with_section names.old) }
{
    if names.len() > 0 && names.at(0).is(Known::TABLE) {
        names.add(alloc, TagName::of_known(Known::TBODY))
    } else {
        Ok(())
    }
}

/// A `tr` opens in a section of a table.
fn open_row(alloc: Global, names: &mut Stack<TagName<'_>>) -> Result<(), NoMemory>
    ensures { OnOk result (names.new ≡ with_row names.old) }
{
    if names.len() > 0 && names.at(0).is_in(SetName::TableSections) {
        names.add(alloc, TagName::of_known(Known::TR))
    } else {
        Ok(())
    }
}

/// What opens before a start tag of that name.
fn open_implied(
    alloc: Global,
    names: &mut Stack<TagName<'_>>,
    name: &TagName<'_>,
) -> Result<(), NoMemory>
    ensures { OnOk result (names.new ≡ implied name.now names.old) }
{
    if name.is(Known::TR) {
        open_section(alloc, names)
    } else if name.is_in(SetName::Cells) {
        open_section(alloc, names)?;
        open_row(alloc, names)
    } else {
        Ok(())
    }
}

/// How many names an end tag of that name closes: the last of that name, and those that opened after it. `None` where none is
/// open.
fn closed_by(names: &Stack<TagName<'_>>, name: &TagName<'_>) -> Option<usize>
    ensures below { below name.now names.now ≡ option_map (λ count. drop count names.now) result }
    ensures within { IfSome result (λ count. count ≤ length names.now) }
{
    for depth in 0..names.len() {
        if names.at(depth).same(name) {
            return Some(depth + 1);
        }
    }
    None
}

/// Whether a name as it stands in a text begins with `t`, as those of rows and cells do, before whose tags something else may open.
fn begins_with_t(name: &[u8]) -> bool
    ensures { result ≡ begins_with_t name.now }
{
    match name {
        [first, ..] => *first == b't' || *first == b'T',
        [] => false,
    }
}

/// What stands behind the tag that closes this one at once, where it is the front of a text, has the name in the same letters, and
/// nothing else opens before this one. The two leave the names as they are.
fn behind_closing<'t>(start: FoundTag<'t>, text: &'t [u8]) -> Option<&'t [u8]>
    ensures tags { IfSome result (λ rest. tags false text.now ≡ closing (found_tag start.entry) ∷ tags false rest.now) }
    ensures pair { IfSome result (λ rest. IsPair (found_tag start.entry) (closing (found_tag start.entry))) }
    ensures within { IfSome result (λ rest. length rest.now ≤ length text.now) }
{
    if start.is_end || begins_with_t(start.name) {
        return None;
    }
    let [b'<', b'/', name @ ..] = text else {
        return None;
    };
    match name.strip_prefix(start.name) {
        Some([b'>', rest @ ..]) => Some(rest),
        _ => None,
    }
}

impl<'t> Scan<'t> {
    /// Takes one more tag.
    fn take(&mut self, alloc: Global, is_end: bool, name: TagName<'t>) -> Result<(), NoMemory>
        ensures names { OnOk result (self.new.names ≡ (if counts name.entry then after_tag (record { is_end = is_end; name = name.entry }) self.old.names else self.old.names)) }
        ensures unmatched { OnOk result (self.new.unmatched ≡ (if counts name.entry then (if is_unmatched (record { is_end = is_end; name = name.entry }) self.old.names then self.old.unmatched ++ name.entry ∷ [] else self.old.unmatched) else self.old.unmatched)) }
    {
        if !name.counts() {
            Ok(())
        } else if is_end {
            match closed_by(&self.names, &name) {
                Some(count) => {
                    self.names.drop_top(count);
                    Ok(())
                }
                None => {
                    self.unmatched.push(alloc, name)?;
                    Ok(())
                }
            }
        } else {
            open_implied(alloc, &mut self.names, &name)?;
            self.names.add(alloc, name)
        }
    }

    /// Takes a tag, or it and the next one, where that closes it at once. Answers the text behind. A name is looked up only where
    /// its tag isn't closed at once.
    fn pass(&mut self, alloc: Global, tag: FoundTag<'t>) -> Result<&'t [u8], NoMemory>
        requires ascii { IsAscii tag.name.now }
        ensures names { IfOk result (λ rest. after (counted_tags rest.now) self.new.names ≡ after (counting (tags_from tag.entry)) self.old.names) }
        ensures unmatched { IfOk result (λ rest. self.new.unmatched ++ unmatched (counted_tags rest.now) self.new.names ≡ self.old.unmatched ++ unmatched (counting (tags_from tag.entry)) self.old.names) }
        ensures within { IfOk result (λ rest. length rest.now ≤ length tag.entry.rest.now) }
    {
        let rest = from_less_than(tag.rest);
        match behind_closing(tag, rest) {
            Some(behind) => Ok(behind),
            None => {
                self.take(alloc, tag.is_end, TagName::read(tag.name))?;
                Ok(rest)
            }
        }
    }
}

/// Reads the tags of a text.
pub fn read_tags<'t>(alloc: Global, text: &'t [u8]) -> Result<Scan<'t>, NoMemory>
    ensures names { IfOk result (λ scan. scan.names ≡ after (counted_tags text.now) []) }
    ensures unmatched { IfOk result (λ scan. scan.unmatched ≡ unmatched (counted_tags text.now) []) }
{
    let mut scan = Scan {
        names: Stack::new(),
        unmatched: List::new(),
    };
    let mut rest = text;
    while let Some(tag) = next_tag(rest) {
        rest = scan.pass(alloc, tag)?;
    }
    Ok(scan)
}
