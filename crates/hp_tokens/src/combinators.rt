//! What the code of a row does, one function a combinator of the rows.
ghost use Rattle.std.specs.Prelude.{◌≡◌, IfOk, OnOk};
ghost use Rattle.hp_tokens.specs.declared.rows.Reads.TheVariants as reads;
ghost use Rattle.hp_tokens.specs.States.{enter, return_state};
ghost use Rattle.hp_tokens.specs.Rows.{Follows, is_blank as spec_is_blank, replaced as spec_replaced, lowered as spec_lowered, go as spec_go, again as spec_again, stay, plus, back as spec_back, ended as spec_ended, putting, emitting_built, emitting_buffer, flushing};

use crate::NoMemory;
use crate::building::Part;
use crate::machine::{Machine, push_char, push_text, push_token};
use crate::rows::Reads;
use crate::state::State;
use hp_elements::{Token, Tokens};
use std::alloc::Global;

/// Whether the code point is what the standard calls whitespace: tab, line feed, form feed or space. CR was read as
/// LF before.
#[inline]
pub fn is_blank(c: char) -> bool
    ensures { result ≡ spec_is_blank c }
{
    matches!(c, '\t' | '\n' | '\x0c' | ' ')
}

/// U+0000 becomes U+FFFD.
pub fn replaced(c: char) -> char
    ensures { result ≡ spec_replaced c }
{
    if c == '\0' { '\u{FFFD}' } else { c }
}

/// The code point is consumed, and the lexer goes to a state.
#[inline]
pub fn go(machine: &mut Machine, state: State) -> Reads
    ensures reads { result ≡ reads.Consume }
    ensures to { machine.new ≡ enter state machine.old }
{
    machine.enter(state);
    Reads::Consume
}

/// The code point is read again in a state.
#[inline]
pub fn again(machine: &mut Machine, state: State) -> Reads
    ensures reads { result ≡ reads.Again }
    ensures to { machine.new ≡ enter state machine.old }
{
    machine.enter(state);
    Reads::Again
}

/// The code point is read again in the state that the character reference came from.
pub fn back(machine: &mut Machine) -> Reads
    ensures reads { result ≡ reads.Again }
    ensures to { machine.new ≡ enter (return_state machine.old.return_to) machine.old }
{
    let state = machine.return_to.state();
    again(machine, state)
}

/// The code point goes to the tokens, and the state stays.
pub fn emitted_char(
    alloc: Global,
    machine: &Machine,
    tokens: &mut Tokens<'_>,
    c: char,
) -> Result<Reads, NoMemory>
    ensures { IfOk result (Follows (plus c (stay machine.now)) tokens.old machine.now tokens.new) }
{
    push_char(alloc, tokens, c)?;
    Ok(Reads::Consume)
}

/// The end of input is emitted, and an unfinished tag is dropped.
pub fn ended(
    alloc: Global,
    machine: &mut Machine,
    tokens: &mut Tokens<'_>,
) -> Result<Reads, NoMemory>
    ensures { IfOk result (Follows (spec_ended machine.old) tokens.old machine.new tokens.new) }
{
    push_token(alloc, tokens, Token::EndOfInput)?;
    machine.enter(State::Data);
    Ok(Reads::End)
}

/// What was built is emitted, the code point is consumed, and the lexer goes to a state.
pub fn emitted(
    alloc: Global,
    machine: &mut Machine,
    state: State,
    tokens: &mut Tokens<'_>,
) -> Result<Reads, NoMemory>
    ensures { IfOk result (Follows (emitting_built (spec_go state) machine.old) tokens.old machine.new tokens.new) }
{
    machine.emit_built(alloc, tokens)?;
    Ok(go(machine, state))
}

/// What was built is emitted, and behind it the end of input.
pub fn emitted_at_end(
    alloc: Global,
    machine: &mut Machine,
    tokens: &mut Tokens<'_>,
) -> Result<Reads, NoMemory>
    ensures { IfOk result (Follows (emitting_built spec_ended machine.old) tokens.old machine.new tokens.new) }
{
    machine.emit_built(alloc, tokens)?;
    ended(alloc, machine, tokens)
}

/// The code points of the buffer are emitted, and the code point is read again in a state.
pub fn buffer_emitted(
    alloc: Global,
    machine: &mut Machine,
    state: State,
    tokens: &mut Tokens<'_>,
) -> Result<Reads, NoMemory>
    ensures { IfOk result (Follows (emitting_buffer (spec_again state) machine.old) tokens.old machine.new tokens.new) }
{
    push_text(alloc, tokens, &machine.buffer)?;
    Ok(again(machine, state))
}

/// The buffer goes where it goes, and the code point is read again in the state that the character reference came from.
pub fn flushed(
    alloc: Global,
    machine: &mut Machine,
    tokens: &mut Tokens<'_>,
) -> Result<Reads, NoMemory>
    ensures { IfOk result (Follows (flushing spec_back machine.old) tokens.old machine.new tokens.new) }
{
    machine.flush(alloc, tokens)?;
    Ok(back(machine))
}

/// The code point goes to a part of what is built, U+0000 as U+FFFD, and the state stays.
pub fn put(alloc: Global, machine: &mut Machine, part: Part, c: char) -> Result<Reads, NoMemory>
    ensures reads { IfOk result (λ r. r ≡ reads.Consume) }
    ensures to { OnOk result (machine.new ≡ putting part (spec_replaced c) machine.old) }
{
    machine.put(alloc, part, replaced(c))?;
    Ok(Reads::Consume)
}

/// The code point goes to a part of what is built, in ASCII lower case and U+0000 as U+FFFD, and the state stays.
pub fn put_lowered(
    alloc: Global,
    machine: &mut Machine,
    part: Part,
    c: char,
) -> Result<Reads, NoMemory>
    ensures reads { IfOk result (λ r. r ≡ reads.Consume) }
    ensures to { OnOk result (machine.new ≡ putting part (spec_replaced (spec_lowered c)) machine.old) }
{
    put(alloc, machine, part, c.to_ascii_lowercase())
}
