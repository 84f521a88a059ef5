//! The rows of comments, one function a state.
ghost use Rattle.std.specs.Prelude.{IfOk};
ghost use Rattle.hp_tokens.specs.Rows.{Follows};
ghost use Rattle.hp_lex_markup.specs.Rows as rows;

use crate::rows::put_ascii;
use hp_elements::Tokens;
use hp_tokens::{Machine, NoMemory, Part, Reads, State, again, emitted, emitted_at_end, go, put};
use std::alloc::Global;

/// The markup declaration open state, where no word is read (13.2.5.42): a bogus comment begins.
pub fn markup_declaration(machine: &mut Machine, symbol: Option<char>, tokens: &Tokens<'_>) -> Reads
    ensures { Follows (rows.markup_declaration machine.old symbol) tokens.now machine.new tokens.now result }
{
    machine.begin_comment();
    again(machine, State::BogusComment)
}

/// The bogus comment state (13.2.5.41).
pub fn bogus_comment(
    alloc: Global,
    machine: &mut Machine,
    symbol: Option<char>,
    tokens: &mut Tokens<'_>,
) -> Result<Reads, NoMemory>
    ensures { IfOk result (Follows (rows.bogus_comment machine.old symbol) tokens.old machine.new tokens.new) }
{
    match symbol {
        None => emitted_at_end(alloc, machine, tokens),
        Some('>') => emitted(alloc, machine, State::Data, tokens),
        Some(c) => put(alloc, machine, Part::Comment, c),
    }
}

/// The comment start state (13.2.5.43).
pub fn comment_start(
    alloc: Global,
    machine: &mut Machine,
    symbol: Option<char>,
    tokens: &mut Tokens<'_>,
) -> Result<Reads, NoMemory>
    ensures { IfOk result (Follows (rows.comment_start machine.old symbol) tokens.old machine.new tokens.new) }
{
    match symbol {
        Some('-') => Ok(go(machine, State::CommentStartDash)),
        Some('>') => emitted(alloc, machine, State::Data, tokens),
        _ => Ok(again(machine, State::Comment)),
    }
}

/// The comment start dash state (13.2.5.44).
pub fn comment_start_dash(
    alloc: Global,
    machine: &mut Machine,
    symbol: Option<char>,
    tokens: &mut Tokens<'_>,
) -> Result<Reads, NoMemory>
    ensures { IfOk result (Follows (rows.comment_start_dash machine.old symbol) tokens.old machine.new tokens.new) }
{
    match symbol {
        None => emitted_at_end(alloc, machine, tokens),
        Some('-') => Ok(go(machine, State::CommentEnd)),
        Some('>') => emitted(alloc, machine, State::Data, tokens),
        Some(_) => {
            machine.put(alloc, Part::Comment, '-')?;
            Ok(again(machine, State::Comment))
        }
    }
}

/// The comment state (13.2.5.45).
pub fn comment(
    alloc: Global,
    machine: &mut Machine,
    symbol: Option<char>,
    tokens: &mut Tokens<'_>,
) -> Result<Reads, NoMemory>
    ensures { IfOk result (Follows (rows.comment machine.old symbol) tokens.old machine.new tokens.new) }
{
    match symbol {
        None => emitted_at_end(alloc, machine, tokens),
        Some('<') => {
            machine.put(alloc, Part::Comment, '<')?;
            Ok(go(machine, State::CommentLessThanSign))
        }
        Some('-') => Ok(go(machine, State::CommentEndDash)),
        Some(c) => put(alloc, machine, Part::Comment, c),
    }
}

/// The comment less-than sign state (13.2.5.46). It emits nothing.
pub fn comment_less_than_sign(
    alloc: Global,
    machine: &mut Machine,
    symbol: Option<char>,
    tokens: &Tokens<'_>,
) -> Result<Reads, NoMemory>
    ensures { IfOk result (Follows (rows.comment_less_than_sign machine.old symbol) tokens.now machine.new tokens.now) }
{
    match symbol {
        Some('!') => {
            machine.put(alloc, Part::Comment, '!')?;
            Ok(go(machine, State::CommentLessThanSignBang))
        }
        Some('<') => put(alloc, machine, Part::Comment, '<'),
        _ => Ok(again(machine, State::Comment)),
    }
}

/// The comment less-than sign bang and bang dash states (13.2.5.47, 13.2.5.48): a hyphen leads further, anything else is read
/// again in another state.
pub fn comment_bang(
    further: State,
    otherwise: State,
    machine: &mut Machine,
    symbol: Option<char>,
    tokens: &Tokens<'_>,
) -> Reads
    ensures { Follows (rows.comment_bang further otherwise machine.old symbol) tokens.now machine.new tokens.now result }
{
    match symbol {
        Some('-') => go(machine, further),
        _ => again(machine, otherwise),
    }
}

/// The comment less-than sign bang dash dash state (13.2.5.49). It reads no code point.
pub fn comment_bang_dash_dash(
    machine: &mut Machine,
    symbol: Option<char>,
    tokens: &Tokens<'_>,
) -> Reads
    ensures { Follows (rows.comment_bang_dash_dash machine.old symbol) tokens.now machine.new tokens.now result }
{
    again(machine, State::CommentEnd)
}

/// The comment end dash state (13.2.5.50).
pub fn comment_end_dash(
    alloc: Global,
    machine: &mut Machine,
    symbol: Option<char>,
    tokens: &mut Tokens<'_>,
) -> Result<Reads, NoMemory>
    ensures { IfOk result (Follows (rows.comment_end_dash machine.old symbol) tokens.old machine.new tokens.new) }
{
    match symbol {
        None => emitted_at_end(alloc, machine, tokens),
        Some('-') => Ok(go(machine, State::CommentEnd)),
        Some(_) => {
            machine.put(alloc, Part::Comment, '-')?;
            Ok(again(machine, State::Comment))
        }
    }
}

/// The comment end state (13.2.5.51).
pub fn comment_end(
    alloc: Global,
    machine: &mut Machine,
    symbol: Option<char>,
    tokens: &mut Tokens<'_>,
) -> Result<Reads, NoMemory>
    ensures { IfOk result (Follows (rows.comment_end machine.old symbol) tokens.old machine.new tokens.new) }
{
    match symbol {
        None => emitted_at_end(alloc, machine, tokens),
        Some('>') => emitted(alloc, machine, State::Data, tokens),
        Some('!') => Ok(go(machine, State::CommentEndBang)),
        Some('-') => put(alloc, machine, Part::Comment, '-'),
        Some(_) => {
            put_ascii(alloc, machine, Part::Comment, "--")?;
            Ok(again(machine, State::Comment))
        }
    }
}

/// The comment end bang state (13.2.5.52).
pub fn comment_end_bang(
    alloc: Global,
    machine: &mut Machine,
    symbol: Option<char>,
    tokens: &mut Tokens<'_>,
) -> Result<Reads, NoMemory>
    ensures { IfOk result (Follows (rows.comment_end_bang machine.old symbol) tokens.old machine.new tokens.new) }
{
    match symbol {
        None => emitted_at_end(alloc, machine, tokens),
        Some('>') => emitted(alloc, machine, State::Data, tokens),
        Some(c) => {
            put_ascii(alloc, machine, Part::Comment, "--!")?;
            if c == '-' {
                Ok(go(machine, State::CommentEndDash))
            } else {
                Ok(again(machine, State::Comment))
            }
        }
    }
}
