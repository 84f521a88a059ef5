//! The rows of character references but for named ones, one function a state.
ghost use Rattle.std.specs.Prelude.{◌≡◌, ◌≤◌, IfOk, Option};
ghost use Rattle.hp_tokens.specs.Rows.{Follows};
ghost use Rattle.hp_lex_tags.specs.Rows as rows;

use hp_elements::Tokens;
use hp_names::numeric;
use hp_tokens::{
    Machine, NoMemory, Part, Reads, State, again, back, emitted_char, flushed, go, put,
};
use std::alloc::Global;

/// The character reference state (13.2.5.72).
pub fn character_reference(
    alloc: Global,
    machine: &mut Machine,
    symbol: Option<char>,
    tokens: &mut Tokens<'_>,
) -> Result<Reads, NoMemory>
    ensures { IfOk result (Follows (rows.character_reference machine.old symbol) tokens.old machine.new tokens.new) }
{
    machine.buffer.clear();
    machine.buffer.push(alloc, '&')?;
    match symbol {
        Some(c) if c.is_ascii_alphanumeric() => {
            Ok(again(machine, State::NamedCharacterReference))
        }
        Some('#') => {
            machine.buffer.push(alloc, '#')?;
            Ok(go(machine, State::NumericCharacterReference))
        }
        Some(_) | None => flushed(alloc, machine, tokens),
    }
}

/// The ambiguous ampersand state (13.2.5.74).
pub fn ambiguous_ampersand(
    alloc: Global,
    machine: &mut Machine,
    symbol: Option<char>,
    tokens: &mut Tokens<'_>,
) -> Result<Reads, NoMemory>
    ensures { IfOk result (Follows (rows.ambiguous_ampersand machine.old symbol) tokens.old machine.new tokens.new) }
{
    match symbol {
        Some(c) if c.is_ascii_alphanumeric() => {
            if machine.return_to.is_in_value() {
                put(alloc, machine, Part::Value, c)
            } else {
                emitted_char(alloc, machine, tokens, c)
            }
        }
        Some(_) | None => Ok(back(machine)),
    }
}

/// The numeric character reference state (13.2.5.75).
pub fn numeric_reference(
    alloc: Global,
    machine: &mut Machine,
    symbol: Option<char>,
    tokens: &mut Tokens<'_>,
) -> Result<Reads, NoMemory>
    ensures { IfOk result (Follows (rows.numeric_reference machine.old symbol) tokens.old machine.new tokens.new) }
{
    match symbol {
        Some(c) if matches!(c, 'x' | 'X') => {
            machine.buffer.push(alloc, c)?;
            Ok(go(machine, State::HexadecimalCharacterReferenceStart))
        }
        Some(_) | None => Ok(again(machine, State::DecimalCharacterReferenceStart)),
    }
}

/// The hexadecimal and the decimal character reference start states (13.2.5.76, 13.2.5.77).
pub fn number_start(
    alloc: Global,
    base: u32,
    digits: State,
    machine: &mut Machine,
    symbol: Option<char>,
    tokens: &mut Tokens<'_>,
) -> Result<Reads, NoMemory>
    requires low { 2 ≤ base }
    requires high { base ≤ 16 }
    ensures { IfOk result (Follows (rows.number_start base digits machine.old symbol) tokens.old machine.new tokens.new) }
{
    if let Some(c) = symbol {
        if c.to_digit(base).is_some() {
            machine.value = 0;
            return Ok(again(machine, digits));
        }
    }
    flushed(alloc, machine, tokens)
}

/// A value above the last code point stays above it.
pub(crate) fn capped(value: u64) -> u32
    ensures { result ≡ rows.capped value }
{
    if value > 0x10FFFF {
        0x110000
    } else {
        value as u32
    }
}

/// The hexadecimal and the decimal character reference states (13.2.5.78, 13.2.5.79).
pub fn number(
    base: u32,
    machine: &mut Machine,
    symbol: Option<char>,
    tokens: &mut Tokens<'_>,
) -> Result<Reads, NoMemory>
    requires low { 2 ≤ base }
    requires high { base ≤ 16 }
    ensures { IfOk result (Follows (rows.number base machine.old symbol) tokens.old machine.new tokens.new) }
{
    if let Some(c) = symbol {
        if let Some(digit) = c.to_digit(base) {
            let value = u64::from(machine.value) * u64::from(base) + u64::from(digit);
            machine.value = capped(value);
            return Ok(Reads::Consume);
        }
        if c == ';' {
            return Ok(go(machine, State::NumericCharacterReferenceEnd));
        }
    }
    Ok(again(machine, State::NumericCharacterReferenceEnd))
}

/// The numeric character reference end state (13.2.5.80).
pub fn numeric_end(
    alloc: Global,
    machine: &mut Machine,
    symbol: Option<char>,
    tokens: &mut Tokens<'_>,
) -> Result<Reads, NoMemory>
    ensures { IfOk result (Follows (rows.numeric_end machine.old symbol) tokens.old machine.new tokens.new) }
{
    machine.buffer.clear();
    machine
        .buffer
        .push(alloc, numeric(u64::from(machine.value)))?;
    flushed(alloc, machine, tokens)
}
