//! How a selector is read.

ghost use Rattle.std.specs.Prelude.{◌≡◌, ◌≤◌, IfErr, IfOk, None, Some, length};
ghost use Rattle.std.specs.List.{prefix_len, take_while};
ghost use Rattle.std.specs.Str.{chars};
ghost use Rattle.hp_select.specs.Grammar.{attribute_at, attribute_end, begins_name, combinator_at, compound_at, goes_on_name, is_in_value, is_space, name_at, named, past, selector_of, simple_at, simples_at, type_at, value_at};
ghost use Rattle.hp_select.specs.Reading.{front_of, id_or_class, name_seen, part_seen};

use crate::selector::{CasedName, Combinator, SelectRefusal, Selector, Simple, Step};
use hp_elements::{List, NoMemory, Text};
use std::alloc::Global;

impl Selector {
    /// Reads a selector: a list of chains with `,` between them, each of which is one or more compounds, with spaces between two of them
    /// or `>`. A compound is a type, `*` or neither, and then any of `#id`, `.class`, `[name]` and `[name="value"]`, and it isn't empty.
    /// `Malformed` comes exactly where the text is none.
    pub fn read(alloc: Global, text: &str) -> Result<Selector, SelectRefusal>
        ensures ok { IfOk result (λ selector. selector_of (chars text.now) ≡ Some selector) }
        ensures malformed { IfErr result (λ refused. refused ≡ SelectRefusal.Malformed → selector_of (chars text.now) ≡ None) }
    {
        let letters = letters_of(alloc, text)?;
        match read_steps(alloc, letters.as_slice())? {
            Some(steps) => Ok(Selector { steps }),
            None => Err(SelectRefusal::Malformed),
        }
    }
}

/// The code points of a text.
fn letters_of(alloc: Global, text: &str) -> Result<Vec<char>, NoMemory>
    ensures { IfOk result (λ letters. letters.items ≡ chars text.now) }
{
    text.chars().collect(alloc)
}

/// The compounds of the chains that a text is.
fn read_steps(alloc: Global, text: &[char]) -> Result<Option<List<Step>>, NoMemory>
    ensures { IfOk result (λ steps. steps ≡ selector_of text.now) }
{
    let mut steps = List::new();
    let mut combinator = Combinator::Begin;
    let mut left = text;
    loop {
        let (compound, rest) = read_compound(alloc, left)?;
        if compound.is_empty() {
            return Ok(None);
        }
        steps.push(
            alloc,
            Step {
                combinator,
                compound,
            },
        )?;
        if rest.is_empty() {
            return Ok(Some(steps));
        }
        let Some((next, behind)) = combinator_at(rest) else {
            return Ok(None);
        };
        combinator = next;
        left = behind;
    }
}

/// The compound at the front of a text, which may be empty, and what stands behind it.
fn read_compound<'t>(
    alloc: Global,
    text: &'t [char],
) -> Result<(List<Simple>, &'t [char]), NoMemory>
    ensures { IfOk result (λ read. (read.0, read.1.now) ≡ compound_at text.now) }
{
    let (mut compound, mut left) = read_front(alloc, text)?;
    while let Some((simple, rest)) = read_simple(alloc, left)? {
        compound.push(alloc, simple)?;
        left = rest;
    }
    Ok((compound, left))
}

/// The type or `*` at the front of a text, if there is one, as a compound, and what stands behind it.
fn read_front<'t>(alloc: Global, text: &'t [char]) -> Result<(List<Simple>, &'t [char]), NoMemory>
    ensures { IfOk result (λ read. (read.0, read.1.now) ≡ front_of text.now (type_at text.now)) }
{
    match read_type(alloc, text)? {
        Some((simple, rest)) => Ok((List::of_one(simple), rest)),
        None => Ok((List::new(), text)),
    }
}

/// The type or `*` at the front of a text, and what stands behind it.
fn read_type<'t>(alloc: Global, text: &'t [char]) -> Result<Option<(Simple, &'t [char])>, NoMemory>
    ensures { IfOk result (λ read. part_seen read ≡ type_at text.now) }
{
    if let ['*', rest @ ..] = text {
        return Ok(Some((Simple::Universal, rest)));
    }
    let Some((name, rest)) = split_name(text) else {
        return Ok(None);
    };
    Ok(Some((Simple::OfType(cased_name(alloc, name)?), rest)))
}

/// The simple selector at the front of a text that is neither a type nor `*`, and what stands behind it.
fn read_simple<'t>(
    alloc: Global,
    text: &'t [char],
) -> Result<Option<(Simple, &'t [char])>, NoMemory>
    ensures { IfOk result (λ read. part_seen read ≡ simple_at text.now) }
{
    match text {
        ['#', rest @ ..] => read_named(alloc, false, rest),
        ['.', rest @ ..] => read_named(alloc, true, rest),
        ['[', rest @ ..] => read_attribute(alloc, rest),
        _ => Ok(None),
    }
}

/// The name behind `#`, or `.` for a class, as a simple selector.
fn read_named<'t>(
    alloc: Global,
    is_class: bool,
    text: &'t [char],
) -> Result<Option<(Simple, &'t [char])>, NoMemory>
    ensures { IfOk result (λ read. part_seen read ≡ named (id_or_class is_class) text.now) }
{
    let Some((name, rest)) = split_name(text) else {
        return Ok(None);
    };
    let name = text_of(alloc, name)?;
    if is_class {
        Ok(Some((Simple::Class(name), rest)))
    } else {
        Ok(Some((Simple::Id(name), rest)))
    }
}

/// What stands behind `[`, as a simple selector.
fn read_attribute<'t>(
    alloc: Global,
    text: &'t [char],
) -> Result<Option<(Simple, &'t [char])>, NoMemory>
    ensures { IfOk result (λ read. part_seen read ≡ attribute_at text.now) }
{
    let Some((name, rest)) = split_name(text) else {
        return Ok(None);
    };
    match rest {
        [']', rest @ ..] => Ok(Some((Simple::Attribute(cased_name(alloc, name)?), rest))),
        ['=', '"', rest @ ..] => read_value(alloc, name, rest),
        _ => Ok(None),
    }
}

/// What stands behind `[name="`, as a simple selector.
fn read_value<'t>(
    alloc: Global,
    name: &[char],
    text: &'t [char],
) -> Result<Option<(Simple, &'t [char])>, NoMemory>
    ensures { IfOk result (λ read. part_seen read ≡ value_at name.now text.now) }
{
    let (value, rest) = text.split_at(value_length(text));
    let ['"', ']', rest @ ..] = rest else {
        return Ok(None);
    };
    let name = cased_name(alloc, name)?;
    Ok(Some((Simple::Value(name, text_of(alloc, value)?), rest)))
}

/// The name at the front of a text, and what stands behind it.
fn split_name<'t>(text: &'t [char]) -> Option<(&'t [char], &'t [char])>
    ensures { name_seen result ≡ name_at text.now }
{
    let [first, rest @ ..] = text else {
        return None;
    };
    if !begins_name(*first) {
        return None;
    }
    Some(text.split_at(1 + name_length(rest)))
}

/// How many code points at the front may stand in a name behind its first one.
fn name_length(text: &[char]) -> usize
    ensures len { result ≡ prefix_len goes_on_name text.now }
    ensures within { result ≤ length text.now }
{
    for (at, c) in text.iter().enumerate() {
        if !goes_on_name(*c) {
            return at;
        }
    }
    text.len()
}

/// How many code points at the front may stand in a value.
fn value_length(text: &[char]) -> usize
    ensures len { result ≡ prefix_len is_in_value text.now }
    ensures within { result ≤ length text.now }
{
    for (at, c) in text.iter().enumerate() {
        if *c == '"' || *c == '\\' {
            return at;
        }
    }
    text.len()
}

/// How many spaces stand at the front.
fn space_count(text: &[char]) -> usize
    ensures len { result ≡ prefix_len is_space text.now }
    ensures within { result ≤ length text.now }
{
    for (at, c) in text.iter().enumerate() {
        if *c != ' ' {
            return at;
        }
    }
    text.len()
}

fn begins_name(c: char) -> bool
    ensures { result ≡ begins_name c }
{
    c.is_ascii_alphabetic() || c == '_'
}

fn goes_on_name(c: char) -> bool
    ensures { result ≡ goes_on_name c }
{
    begins_name(c) || c.is_ascii_digit() || c == '-'
}

/// What stands between two compounds, and behind that.
fn combinator_at<'t>(text: &'t [char]) -> Option<(Combinator, &'t [char])>
    ensures { part_seen result ≡ combinator_at text.now }
{
    let behind = past_spaces(text);
    match behind {
        [',', rest @ ..] => Some((Combinator::Begin, past_spaces(rest))),
        ['>', rest @ ..] => Some((Combinator::Child, past_spaces(rest))),
        _ => match text {
            [' ', ..] => Some((Combinator::Descendant, behind)),
            _ => None,
        },
    }
}

/// What stands behind the spaces at the front.
fn past_spaces<'t>(text: &'t [char]) -> &'t [char]
    ensures { result.now ≡ past is_space text.now }
{
    text.split_at(space_count(text)).1
}

/// A text of its own.
fn text_of(alloc: Global, letters: &[char]) -> Result<Text<'static>, NoMemory>
    ensures { IfOk result (λ text. text ≡ letters.now) }
{
    let mut text = Text::new();
    for c in letters {
        text.push(alloc, *c)?;
    }
    Ok(text)
}

/// A name that is compared by the namespace.
fn cased_name(alloc: Global, letters: &[char]) -> Result<CasedName, NoMemory>
    ensures { IfOk result (λ name. name ≡ letters.now) }
{
    let text = text_of(alloc, letters)?;
    CasedName::new(alloc, text.as_str())
}
