//! The rows of CDATA sections, and what other rows have in common.
ghost use Rattle.std.specs.Prelude.{◌≡◌, IfOk, OnOk, IsTrue};
ghost use Rattle.std.specs.List.{list_all};
ghost use Rattle.std.specs.Char.{is_ascii};
ghost use Rattle.hp_tokens.specs.Rows.{Follows, putting_text};
ghost use Rattle.hp_tokens.specs.Rows as words;
ghost use Rattle.hp_tokens.specs.declared.state.State.TheVariants as states;
ghost use Rattle.hp_lex_markup.specs.Letters.{right_bracket};
ghost use Rattle.hp_lex_markup.specs.Rows as rows;

use hp_elements::Tokens;
use hp_tokens::{Machine, NoMemory, Part, Reads, State, again, emitted_char, ended, go, push_char};
use std::alloc::Global;

/// An ASCII text goes to a part of what is built.
pub fn put_ascii(
    alloc: Global,
    machine: &mut Machine,
    part: Part,
    text: &str,
) -> Result<(), NoMemory>
    requires ascii { IsTrue (list_all is_ascii text.now) }
    ensures { OnOk result (machine.new ≡ putting_text part text.now machine.old) }
{
    machine.put_text(alloc, part, text)
}

/// The CDATA section state (13.2.5.69).
pub fn cdata_section(
    alloc: Global,
    machine: &mut Machine,
    symbol: Option<char>,
    tokens: &mut Tokens<'_>,
) -> Result<Reads, NoMemory>
    ensures { IfOk result (Follows (rows.cdata_section machine.old symbol) tokens.old machine.new tokens.new) }
{
    match symbol {
        None => ended(alloc, machine, tokens),
        Some(']') => Ok(go(machine, State::CdataSectionBracket)),
        Some(c) => emitted_char(alloc, machine, tokens, c),
    }
}

/// The CDATA section bracket state (13.2.5.70).
pub fn cdata_section_bracket(
    alloc: Global,
    machine: &mut Machine,
    symbol: Option<char>,
    tokens: &mut Tokens<'_>,
) -> Result<Reads, NoMemory>
    ensures { IfOk result (Follows (rows.cdata_section_bracket machine.old symbol) tokens.old machine.new tokens.new) }
{
    match symbol {
        Some(']') => Ok(go(machine, State::CdataSectionEnd)),
        _ => bracket_emitted(alloc, machine, tokens),
    }
}

/// A bracket that ends nothing is text, and the code point is read again in the section.
fn bracket_emitted(
    alloc: Global,
    machine: &mut Machine,
    tokens: &mut Tokens<'_>,
) -> Result<Reads, NoMemory>
    ensures { IfOk result (Follows (words.plus right_bracket (words.again states.CdataSection machine.old)) tokens.old machine.new tokens.new) }
{
    push_char(alloc, tokens, ']')?;
    Ok(again(machine, State::CdataSection))
}

/// The section goes on behind two brackets: they are text.
fn no_section_end(
    alloc: Global,
    machine: &mut Machine,
    tokens: &mut Tokens<'_>,
) -> Result<Reads, NoMemory>
    ensures { IfOk result (Follows (words.plus right_bracket (words.plus right_bracket (words.again states.CdataSection machine.old))) tokens.old machine.new tokens.new) }
{
    push_char(alloc, tokens, ']')?;
    bracket_emitted(alloc, machine, tokens)
}

/// The CDATA section end state (13.2.5.71).
pub fn cdata_section_end(
    alloc: Global,
    machine: &mut Machine,
    symbol: Option<char>,
    tokens: &mut Tokens<'_>,
) -> Result<Reads, NoMemory>
    ensures { IfOk result (Follows (rows.cdata_section_end machine.old symbol) tokens.old machine.new tokens.new) }
{
    match symbol {
        Some(']') => emitted_char(alloc, machine, tokens, ']'),
        Some('>') => Ok(go(machine, State::Data)),
        _ => no_section_end(alloc, machine, tokens),
    }
}
