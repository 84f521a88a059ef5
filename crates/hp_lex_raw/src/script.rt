//! The rows of script data that are its own, one function a kind of state.
ghost use Rattle.std.specs.Prelude.{◌≡◌, IfOk};
ghost use Rattle.hp_tokens.specs.Rows.{Follows};
ghost use Rattle.hp_lex_raw.specs.Rows as rows;

use crate::rows::{ends_name, push_and_again, push_and_go, spells};
use hp_elements::Tokens;
use hp_tokens::{
    Machine, NoMemory, OwnedText, Reads, State, again, emitted_char, ended, go, push_char, replaced,
};
use std::alloc::Global;

/// The script data less-than sign state (13.2.5.15).
pub fn script_less_than_sign(
    alloc: Global,
    machine: &mut Machine,
    symbol: Option<char>,
    tokens: &mut Tokens<'_>,
) -> Result<Reads, NoMemory>
    ensures { IfOk result (Follows (rows.script_less_than_sign machine.old symbol) tokens.old machine.new tokens.new) }
{
    match symbol {
        Some('/') => {
            machine.buffer.clear();
            Ok(go(machine, State::ScriptDataEndTagOpen))
        }
        Some('!') => {
            push_char(alloc, tokens, '<')?;
            let to = State::ScriptDataEscapeStart;
            push_and_go(alloc, machine, tokens, '!', to)
        }
        Some(_) | None => {
            let to = State::ScriptData;
            push_and_again(alloc, machine, tokens, '<', to)
        }
    }
}

/// The script data escape start and escape start dash states (13.2.5.18, 13.2.5.19).
pub fn escape_start(
    alloc: Global,
    dash: State,
    machine: &mut Machine,
    symbol: Option<char>,
    tokens: &mut Tokens<'_>,
) -> Result<Reads, NoMemory>
    ensures { IfOk result (Follows (rows.escape_start dash machine.old symbol) tokens.old machine.new tokens.new) }
{
    match symbol {
        Some('-') => { push_and_go(alloc, machine, tokens, '-', dash) }
        Some(_) | None => Ok(again(machine, State::ScriptData)),
    }
}

/// The script data escaped state (13.2.5.20).
pub fn escaped(
    alloc: Global,
    machine: &mut Machine,
    symbol: Option<char>,
    tokens: &mut Tokens<'_>,
) -> Result<Reads, NoMemory>
    ensures { IfOk result (Follows (rows.escaped machine.old symbol) tokens.old machine.new tokens.new) }
{
    match symbol {
        None => ended(alloc, machine, tokens),
        Some('-') => {
            let to = State::ScriptDataEscapedDash;
            push_and_go(alloc, machine, tokens, '-', to)
        }
        Some('<') => Ok(go(machine, State::ScriptDataEscapedLessThanSign)),
        Some(c) => emitted_char(alloc, machine, tokens, replaced(c)),
    }
}

/// The script data escaped dash state (13.2.5.21).
pub fn escaped_dash(
    alloc: Global,
    machine: &mut Machine,
    symbol: Option<char>,
    tokens: &mut Tokens<'_>,
) -> Result<Reads, NoMemory>
    ensures { IfOk result (Follows (rows.escaped_dash machine.old symbol) tokens.old machine.new tokens.new) }
{
    match symbol {
        None => ended(alloc, machine, tokens),
        Some('-') => {
            let to = State::ScriptDataEscapedDashDash;
            push_and_go(alloc, machine, tokens, '-', to)
        }
        Some('<') => Ok(go(machine, State::ScriptDataEscapedLessThanSign)),
        Some(c) => {
            let to = State::ScriptDataEscaped;
            push_and_go(alloc, machine, tokens, replaced(c), to)
        }
    }
}

/// The script data escaped dash dash state (13.2.5.22).
pub fn escaped_dash_dash(
    alloc: Global,
    machine: &mut Machine,
    symbol: Option<char>,
    tokens: &mut Tokens<'_>,
) -> Result<Reads, NoMemory>
    ensures { IfOk result (Follows (rows.escaped_dash_dash machine.old symbol) tokens.old machine.new tokens.new) }
{
    match symbol {
        None => ended(alloc, machine, tokens),
        Some('-') => { emitted_char(alloc, machine, tokens, '-') }
        Some('<') => Ok(go(machine, State::ScriptDataEscapedLessThanSign)),
        Some('>') => {
            let to = State::ScriptData;
            push_and_go(alloc, machine, tokens, '>', to)
        }
        Some(c) => {
            let to = State::ScriptDataEscaped;
            push_and_go(alloc, machine, tokens, replaced(c), to)
        }
    }
}

/// The script data escaped less-than sign state (13.2.5.23).
pub fn escaped_less_than_sign(
    alloc: Global,
    machine: &mut Machine,
    symbol: Option<char>,
    tokens: &mut Tokens<'_>,
) -> Result<Reads, NoMemory>
    ensures { IfOk result (Follows (rows.escaped_less_than_sign machine.old symbol) tokens.old machine.new tokens.new) }
{
    match symbol {
        Some('/') => {
            machine.buffer.clear();
            Ok(go(machine, State::ScriptDataEscapedEndTagOpen))
        }
        Some(c) if c.is_ascii_alphabetic() => {
            machine.buffer.clear();
            let to = State::ScriptDataDoubleEscapeStart;
            push_and_again(alloc, machine, tokens, '<', to)
        }
        Some(_) | None => {
            let to = State::ScriptDataEscaped;
            push_and_again(alloc, machine, tokens, '<', to)
        }
    }
}

/// Whether the text is `script`.
fn is_script(text: &OwnedText) -> bool
    ensures { result ≡ rows.is_script text.now }
{
    spells(text, "script")
}

/// The script data double escape start and double escape end states (13.2.5.26, 13.2.5.31): the name
/// `script` begins or ends the double escape.
pub fn double_escape(
    alloc: Global,
    script: State,
    other: State,
    machine: &mut Machine,
    symbol: Option<char>,
    tokens: &mut Tokens<'_>,
) -> Result<Reads, NoMemory>
    ensures { IfOk result (Follows (rows.double_escape script other machine.old symbol) tokens.old machine.new tokens.new) }
{
    match symbol {
        Some(c) if ends_name(c) => {
            let next = if is_script(&machine.buffer) {
                script
            } else {
                other
            };
            push_and_go(alloc, machine, tokens, c, next)
        }
        Some(c) if c.is_ascii_alphabetic() => {
            machine.buffer.push(alloc, c.to_ascii_lowercase())?;
            emitted_char(alloc, machine, tokens, c)
        }
        Some(_) | None => Ok(again(machine, other)),
    }
}

/// The script data double escaped state (13.2.5.27).
pub fn double_escaped(
    alloc: Global,
    machine: &mut Machine,
    symbol: Option<char>,
    tokens: &mut Tokens<'_>,
) -> Result<Reads, NoMemory>
    ensures { IfOk result (Follows (rows.double_escaped machine.old symbol) tokens.old machine.new tokens.new) }
{
    match symbol {
        None => ended(alloc, machine, tokens),
        Some('-') => {
            let to = State::ScriptDataDoubleEscapedDash;
            push_and_go(alloc, machine, tokens, '-', to)
        }
        Some('<') => {
            let to = State::ScriptDataDoubleEscapedLessThanSign;
            push_and_go(alloc, machine, tokens, '<', to)
        }
        Some(c) => emitted_char(alloc, machine, tokens, replaced(c)),
    }
}

/// The script data double escaped dash state (13.2.5.28).
pub fn double_escaped_dash(
    alloc: Global,
    machine: &mut Machine,
    symbol: Option<char>,
    tokens: &mut Tokens<'_>,
) -> Result<Reads, NoMemory>
    ensures { IfOk result (Follows (rows.double_escaped_dash machine.old symbol) tokens.old machine.new tokens.new) }
{
    match symbol {
        None => ended(alloc, machine, tokens),
        Some('-') => {
            let to = State::ScriptDataDoubleEscapedDashDash;
            push_and_go(alloc, machine, tokens, '-', to)
        }
        Some('<') => {
            let to = State::ScriptDataDoubleEscapedLessThanSign;
            push_and_go(alloc, machine, tokens, '<', to)
        }
        Some(c) => {
            let to = State::ScriptDataDoubleEscaped;
            push_and_go(alloc, machine, tokens, replaced(c), to)
        }
    }
}

/// The script data double escaped dash dash state (13.2.5.29).
pub fn double_escaped_dash_dash(
    alloc: Global,
    machine: &mut Machine,
    symbol: Option<char>,
    tokens: &mut Tokens<'_>,
) -> Result<Reads, NoMemory>
    ensures { IfOk result (Follows (rows.double_escaped_dash_dash machine.old symbol) tokens.old machine.new tokens.new) }
{
    match symbol {
        None => ended(alloc, machine, tokens),
        Some('-') => { emitted_char(alloc, machine, tokens, '-') }
        Some('<') => {
            let to = State::ScriptDataDoubleEscapedLessThanSign;
            push_and_go(alloc, machine, tokens, '<', to)
        }
        Some('>') => {
            let to = State::ScriptData;
            push_and_go(alloc, machine, tokens, '>', to)
        }
        Some(c) => {
            let to = State::ScriptDataDoubleEscaped;
            push_and_go(alloc, machine, tokens, replaced(c), to)
        }
    }
}

/// The script data double escaped less-than sign state (13.2.5.30).
pub fn double_escaped_less_than_sign(
    alloc: Global,
    machine: &mut Machine,
    symbol: Option<char>,
    tokens: &mut Tokens<'_>,
) -> Result<Reads, NoMemory>
    ensures { IfOk result (Follows (rows.double_escaped_less_than_sign machine.old symbol) tokens.old machine.new tokens.new) }
{
    match symbol {
        Some('/') => {
            machine.buffer.clear();
            let to = State::ScriptDataDoubleEscapeEnd;
            push_and_go(alloc, machine, tokens, '/', to)
        }
        Some(_) | None => Ok(again(machine, State::ScriptDataDoubleEscaped)),
    }
}
