//! The rows of RCDATA, RAWTEXT and PLAINTEXT, and those that script data shares with them, one function a kind of state.
ghost use Rattle.std.specs.Prelude.{◌≡◌, IfOk};
ghost use Rattle.std.specs.Str.{bytes_eq, chars};
ghost use Rattle.hp_tokens.specs.Rows.{Follows};
ghost use Rattle.hp_tokens.specs.Rows as words;
ghost use Rattle.hp_lex_raw.specs.Letters.{less_than, solidus};
ghost use Rattle.hp_lex_raw.specs.Rows as rows;

use hp_elements::Tokens;
use hp_tokens::{
    Building, Machine, NoMemory, OwnedText, Part, Reads, Return, State, again, buffer_emitted,
    emitted, emitted_char, ended, go, is_blank, push_char, replaced,
};
use std::alloc::Global;

/// What ends the name of a tag.
pub fn ends_name(c: char) -> bool
    ensures { result ≡ rows.ends_name c }
{
    is_blank(c) || c == '/' || c == '>'
}

/// A code point is emitted, and the next one is read in another state.
#[inline]
pub fn push_and_go(
    alloc: Global,
    machine: &mut Machine,
    tokens: &mut Tokens<'_>,
    c: char,
    to: State,
) -> Result<Reads, NoMemory>
    ensures { IfOk result (Follows (words.plus c (words.go to machine.old)) tokens.old machine.new tokens.new) }
{
    push_char(alloc, tokens, c)?;
    Ok(go(machine, to))
}

/// A code point is emitted, and the present one is read again in another state.
#[inline]
pub fn push_and_again(
    alloc: Global,
    machine: &mut Machine,
    tokens: &mut Tokens<'_>,
    c: char,
    to: State,
) -> Result<Reads, NoMemory>
    ensures { IfOk result (Follows (words.plus c (words.again to machine.old)) tokens.old machine.new tokens.new) }
{
    push_char(alloc, tokens, c)?;
    Ok(again(machine, to))
}

/// The RCDATA state (13.2.5.2).
pub fn rcdata(
    alloc: Global,
    machine: &mut Machine,
    symbol: Option<char>,
    tokens: &mut Tokens<'_>,
) -> Result<Reads, NoMemory>
    ensures { IfOk result (Follows (rows.rcdata machine.old symbol) tokens.old machine.new tokens.new) }
{
    match symbol {
        None => ended(alloc, machine, tokens),
        Some('&') => {
            machine.return_to = Return::Rcdata;
            Ok(go(machine, State::CharacterReference))
        }
        Some('<') => Ok(go(machine, State::RcdataLessThanSign)),
        Some(c) => emitted_char(alloc, machine, tokens, replaced(c)),
    }
}

/// The RAWTEXT and the script data state (13.2.5.3, 13.2.5.4).
pub fn raw_text(
    alloc: Global,
    behind_less_than: State,
    machine: &mut Machine,
    symbol: Option<char>,
    tokens: &mut Tokens<'_>,
) -> Result<Reads, NoMemory>
    ensures { IfOk result (Follows (rows.raw_text behind_less_than machine.old symbol) tokens.old machine.new tokens.new) }
{
    match symbol {
        None => ended(alloc, machine, tokens),
        Some('<') => Ok(go(machine, behind_less_than)),
        Some(c) => emitted_char(alloc, machine, tokens, replaced(c)),
    }
}

/// The PLAINTEXT state (13.2.5.5).
pub fn plaintext(
    alloc: Global,
    machine: &mut Machine,
    symbol: Option<char>,
    tokens: &mut Tokens<'_>,
) -> Result<Reads, NoMemory>
    ensures { IfOk result (Follows (rows.plaintext machine.old symbol) tokens.old machine.new tokens.new) }
{
    match symbol {
        None => ended(alloc, machine, tokens),
        Some(c) => emitted_char(alloc, machine, tokens, replaced(c)),
    }
}

/// The less-than sign states of RCDATA and RAWTEXT (13.2.5.9, 13.2.5.12).
pub fn less_than_sign(
    alloc: Global,
    behind_solidus: State,
    text: State,
    machine: &mut Machine,
    symbol: Option<char>,
    tokens: &mut Tokens<'_>,
) -> Result<Reads, NoMemory>
    ensures { IfOk result (Follows (rows.less_than_sign behind_solidus text machine.old symbol) tokens.old machine.new tokens.new) }
{
    match symbol {
        Some('/') => {
            machine.buffer.clear();
            Ok(go(machine, behind_solidus))
        }
        Some(_) | None => { push_and_again(alloc, machine, tokens, '<', text) }
    }
}

/// No name begins behind `</`: it is text.
fn no_name(
    alloc: Global,
    text: State,
    machine: &mut Machine,
    tokens: &mut Tokens<'_>,
) -> Result<Reads, NoMemory>
    ensures { IfOk result (Follows (words.plus less_than (words.plus solidus (words.again text machine.old))) tokens.old machine.new tokens.new) }
{
    push_char(alloc, tokens, '<')?;
    push_and_again(alloc, machine, tokens, '/', text)
}

/// The end tag open states of RCDATA, RAWTEXT, script data and its escaped part (13.2.5.10, 13.2.5.13, 13.2.5.16, 13.2.5.24).
pub fn end_tag_open(
    alloc: Global,
    name: State,
    text: State,
    machine: &mut Machine,
    symbol: Option<char>,
    tokens: &mut Tokens<'_>,
) -> Result<Reads, NoMemory>
    ensures { IfOk result (Follows (rows.end_tag_open name text machine.old symbol) tokens.old machine.new tokens.new) }
{
    match symbol {
        Some(c) if c.is_ascii_alphabetic() => {
            machine.begin_end_tag();
            Ok(again(machine, name))
        }
        Some(_) | None => no_name(alloc, text, machine, tokens),
    }
}

/// Whether the code points are those of a text.
pub fn spells(owned: &OwnedText, text: &str) -> bool
    ensures { result ≡ bytes_eq owned.now (chars text.now) }
{
    owned.as_str() == text
}

/// Whether the end tag's name is that of the last start tag.
fn is_appropriate(machine: &Machine) -> bool
    ensures { result ≡ rows.is_appropriate machine.now }
{
    match &machine.building {
        Building::EndTag(name) => match &machine.last_tag {
            Some(last) => spells(name, last.as_str()),
            None => spells(name, ""),
        },
        _ => false,
    }
}

/// Behind the name of the appropriate end tag.
fn after_name(
    alloc: Global,
    c: char,
    machine: &mut Machine,
    tokens: &mut Tokens<'_>,
) -> Result<Reads, NoMemory>
    ensures { IfOk result (Follows (rows.after_name c machine.old) tokens.old machine.new tokens.new) }
{
    match c {
        c if is_blank(c) => Ok(go(machine, State::BeforeAttributeName)),
        '/' => Ok(go(machine, State::SelfClosingStartTag)),
        _ => emitted(alloc, machine, State::Data, tokens),
    }
}

/// It was no end tag: it is text.
fn no_end_tag(
    alloc: Global,
    text: State,
    machine: &mut Machine,
    tokens: &mut Tokens<'_>,
) -> Result<Reads, NoMemory>
    ensures { IfOk result (Follows (rows.no_end_tag text machine.old) tokens.old machine.new tokens.new) }
{
    push_char(alloc, tokens, '<')?;
    push_char(alloc, tokens, '/')?;
    buffer_emitted(alloc, machine, text, tokens)
}

/// The end tag name states of RCDATA, RAWTEXT, script data and its escaped part (13.2.5.11, 13.2.5.14, 13.2.5.17, 13.2.5.25).
pub fn end_tag_name(
    alloc: Global,
    text: State,
    machine: &mut Machine,
    symbol: Option<char>,
    tokens: &mut Tokens<'_>,
) -> Result<Reads, NoMemory>
    ensures { IfOk result (Follows (rows.end_tag_name text machine.old symbol) tokens.old machine.new tokens.new) }
{
    match symbol {
        Some(c) if c.is_ascii_alphabetic() => {
            machine.put(alloc, Part::Name, c.to_ascii_lowercase())?;
            machine.buffer.push(alloc, c)?;
            Ok(Reads::Consume)
        }
        Some(c) if ends_name(c) && is_appropriate(machine) => {
            after_name(alloc, c, machine, tokens)
        }
        Some(_) | None => no_end_tag(alloc, text, machine, tokens),
    }
}
