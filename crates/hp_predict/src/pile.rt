//! The elements of guessed names, piled up from the first one.
ghost use Rattle.std.specs.Prelude.{◌≡◌, ◌+◌, ◌<◌, ◌≤◌, ◌^◌, Some, None, [], ◌∷◌, ◌++◌, length, drop, OnOk, if◌then◌else◌};
ghost use Rattle.hp_elements.specs.Names.{text_of};
ghost use Rattle.hp_elements.specs.KnownNames as knowns;
ghost use Rattle.hp_elements.specs.declared.token.Mode.TheVariants as modes;
ghost use Rattle.hp_predict.specs.OpenNames.{Names, is_name};
ghost use Rattle.hp_predict.specs.Guess.{entry, first_of, with_ends};
ghost use Rattle.hp_predict.specs.Piling.{IsOf};

use crate::name::TagName;
use hp_control::{FormattingEntry, OpenElement, OpenElements, Stack};
use hp_elements::{Chain, Known, Mode, Namespace, NoMemory, Point, SetName, Tag};
use std::alloc::Global;

/// The parts of a state that its open elements decide.
#[derive(Drop)]
pub struct Pile {
    pub stack: OpenElements,
    pub formatting: Stack<FormattingEntry>,
    pub templates: Stack<Mode>,
    pub form: Option<u64>,
}

/// Puts the formatting entry of an element, where it has one.
fn put_entry(
    alloc: Global,
    formatting: &mut Stack<FormattingEntry>,
    id: u64,
    name: &TagName<'_>,
) -> Result<(), NoMemory>
    ensures { OnOk result (formatting.new ≡ entry id name.now ++ formatting.old) }
{
    if name.is_in(SetName::Formatting) {
        let tag = Tag {
            namespace: Namespace::Html,
            name: name.to_name(alloc)?,
            attributes: Chain::new(),
        };
        formatting.add(alloc, FormattingEntry::Element { id, tag })
    } else if name.is_in(SetName::Markers) {
        formatting.add(alloc, FormattingEntry::Marker)
    } else {
        Ok(())
    }
}

/// Puts the template mode of an element, where it is a template.
fn put_mode(alloc: Global, templates: &mut Stack<Mode>, name: &TagName<'_>) -> Result<(), NoMemory>
    ensures { OnOk result (templates.new ≡ (if is_name knowns.Template name.now then modes.InTemplate ∷ templates.old else templates.old)) }
{
    if name.is(Known::TEMPLATE) {
        templates.add(alloc, Mode::InTemplate)
    } else {
        Ok(())
    }
}

/// The first form of a pile, which one more element may be.
fn first_form(form: Option<u64>, id: u64, name: &TagName<'_>) -> Option<u64>
    ensures { result ≡ first_of form (if is_name knowns.Form name.now then Some id else None) }
{
    match form {
        Some(first) => Some(first),
        None if name.is(Known::FORM) => Some(id),
        None => None,
    }
}

impl Pile {
    /// No element.
    pub fn new() -> Pile
        ensures of { IsOf [] result }
        ensures none { result.stack ≡ [] }
    {
        Pile {
            stack: OpenElements::new(),
            formatting: Stack::new(),
            templates: Stack::new(),
            form: None,
        }
    }

    /// Puts one more element on top.
    fn put(&mut self, alloc: Global, name: &TagName<'_>) -> Result<(), NoMemory>
        requires { length self.old.stack + 1 < 2 ^ 64 }
        ensures of { (base : Names) → IsOf base self.old → OnOk result (IsOf (name.now ∷ base) self.new) }
        ensures count { OnOk result (length self.new.stack ≡ length self.old.stack + 1) }
    {
        let id = self.stack.len() as u64 + 1;
        put_entry(alloc, &mut self.formatting, id, name)?;
        put_mode(alloc, &mut self.templates, name)?;
        self.form = first_form(self.form, id, name);
        let element = OpenElement {
            id,
            namespace: Namespace::Html,
            name: name.to_name(alloc)?,
            point: Point::No,
        };
        self.stack.push(alloc, element)
    }
}

/// How many of the end tags are found in the names, in order.
fn found_ends(names: &Stack<TagName<'_>>, ends: &[TagName<'_>]) -> usize
    ensures within { result ≤ length ends.now }
    ensures found { with_ends names.now ends.now ≡ names.now ++ drop result ends.now }
{
    let mut found = 0;
    for depth in 0..names.len() {
        let name = names.at(depth);
        if found < ends.len() && name.same(&ends[found]) {
            found += 1;
        }
    }
    found
}

/// Piles up end tags, the last one first.
fn put_ends(alloc: Global, pile: &mut Pile, ends: &[TagName<'_>]) -> Result<(), NoMemory>
    requires { length pile.old.stack + length ends.now < 2 ^ 64 }
    ensures of { (base : Names) → IsOf base pile.old → OnOk result (IsOf (ends.now ++ base) pile.new) }
    ensures count { OnOk result (length pile.new.stack ≡ length pile.old.stack + length ends.now) }
{
    for gone in 0..ends.len() {
        pile.put(alloc, &ends[ends.len() - 1 - gone])?;
    }
    Ok(())
}

/// Piles up open names, the first one first.
fn put_open(alloc: Global, pile: &mut Pile, names: &Stack<TagName<'_>>) -> Result<(), NoMemory>
    requires { length pile.old.stack + length names.now < 2 ^ 64 }
    ensures of { (base : Names) → IsOf base pile.old → OnOk result (IsOf (names.now ++ base) pile.new) }
    ensures count { OnOk result (length pile.new.stack ≡ length pile.old.stack + length names.now) }
{
    for gone in 0..names.len() {
        pile.put(alloc, names.at(names.len() - 1 - gone))?;
    }
    Ok(())
}

/// Piles up html and body, end tags that aren't found in the names, and the names.
pub fn put_all(
    alloc: Global,
    pile: &mut Pile,
    names: &Stack<TagName<'_>>,
    ends: &[TagName<'_>],
) -> Result<(), NoMemory>
    requires { length pile.old.stack + length names.now + length ends.now + 4 < 2 ^ 64 }
    ensures of { IsOf [] pile.old → OnOk result (IsOf (with_ends names.now ends.now ++ text_of knowns.Body ∷ text_of knowns.Html ∷ []) pile.new) }
    ensures count { OnOk result (length pile.new.stack + 2 < 2 ^ 64) }
{
    pile.put(alloc, &TagName::of_known(Known::HTML))?;
    pile.put(alloc, &TagName::of_known(Known::BODY))?;
    put_ends(alloc, pile, &ends[found_ends(names, ends)..])?;
    put_open(alloc, pile, names)
}
