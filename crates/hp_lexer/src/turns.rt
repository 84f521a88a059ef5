//! One call of the part of the table that the state is in.
ghost use Rattle.std.specs.Prelude.{◌≡◌, ◌≤◌, ◌^◌, ℕ, [], IfOk, IsTrue, false, if◌then◌else◌, Bool};
ghost use Rattle.hp_tokens.specs.Advancing.{held, lexing, end_of_text, Turned, EndTurned, Ends, IsGroup};
ghost use Rattle.hp_tokens.specs.Moves.{move};
ghost use Rattle.hp_tokens.specs.declared.rows.Turn.TheVariants as turns;
ghost use Rattle.hp_tokens.specs.declared.rows.Turn.{Turn};
ghost use Rattle.hp_lexer.specs.Table.{table, part_of};
ghost use Rattle.hp_lex_tags.specs.Tags as tags;
ghost use Rattle.hp_lex_raw.specs.Raw as raw;
ghost use Rattle.hp_lex_markup.specs.Markup as markup;
ghost use Rattle.hp_lex_markup.specs.Rows as markup_rows;
ghost use Rattle.hp_lexer.specs.Table.{gone_on as spec_gone_on};

use crate::NoMemory;
use hp_elements::Tokens;
use hp_names::Names;
use hp_tokens::{Cursor, LexState, Turn};
use std::alloc::Global;

/// More input is needed only where the state is still the part's.
#[inline]
fn gone_on(turn: Turn, is_here: bool) -> Turn
    ensures { result ≡ spec_gone_on turn is_here }
{
    match turn {
        Turn::NeedsMore => if is_here {
            Turn::NeedsMore
        } else {
            Turn::Moved
        },
        _ => turn,
    }
}

/// Moves in text, tags and character references.
#[inline]
fn in_tags<'p>(
    alloc: Global,
    state: &mut LexState,
    input: &mut Cursor<'p>,
    names: &Names,
    rested: &mut u64,
    tokens: &mut Tokens<'p>,
) -> Result<Turn, NoMemory>
    requires here { IsTrue (tags.is_here state.old.machine.state) }
    requires held { held state.old ≤ input.old.place }
    ensures turn { IfOk result (λ turn. Turned (table names.now) tags.is_here (lexing state.old input.old rested.old) tokens.old (lexing state.new input.new rested.new) tokens.new rested.new turn) }
    ensures group { IfOk result (λ turn. turn ≡ turns.Emitted → IsGroup (move (table names.now)) tags.is_here (lexing state.old input.old rested.old) tokens.old (lexing state.new input.new rested.new) tokens.new rested.new) }
    ensures held { IfOk result (λ turn. held state.new ≤ input.new.place) }
{
    let turn = hp_lex_tags::advance(alloc, state, input, names, rested, tokens)?;
    Ok(gone_on(turn, hp_lex_tags::is_here(state.machine.state)))
}

/// Moves in raw text and script data.
fn in_raw<'p>(
    alloc: Global,
    state: &mut LexState,
    input: &mut Cursor<'p>,
    names: &Names,
    rested: &mut u64,
    tokens: &mut Tokens<'p>,
) -> Result<Turn, NoMemory>
    requires here { IsTrue (raw.is_here state.old.machine.state) }
    requires held { held state.old ≤ input.old.place }
    ensures turn { IfOk result (λ turn. Turned (table names.now) raw.is_here (lexing state.old input.old rested.old) tokens.old (lexing state.new input.new rested.new) tokens.new rested.new turn) }
    ensures group { IfOk result (λ turn. turn ≡ turns.Emitted → IsGroup (move (table names.now)) raw.is_here (lexing state.old input.old rested.old) tokens.old (lexing state.new input.new rested.new) tokens.new rested.new) }
    ensures held { IfOk result (λ turn. held state.new ≤ input.new.place) }
{
    let _ = names;
    let turn = hp_lex_raw::advance(alloc, state, input, rested, tokens)?;
    Ok(gone_on(turn, hp_lex_raw::is_here(state.machine.state)))
}

/// Moves in markup declarations, comments, doctypes and CDATA sections.
fn in_markup<'p>(
    alloc: Global,
    state: &mut LexState,
    input: &mut Cursor<'p>,
    names: &Names,
    rested: &mut u64,
    tokens: &mut Tokens<'p>,
) -> Result<Turn, NoMemory>
    requires here { IsTrue (markup_rows.is_here state.old.machine.state) }
    requires held { held state.old ≤ input.old.place }
    ensures turn { IfOk result (λ turn. Turned (table names.now) markup_rows.is_here (lexing state.old input.old rested.old) tokens.old (lexing state.new input.new rested.new) tokens.new rested.new turn) }
    ensures group { IfOk result (λ turn. turn ≡ turns.Emitted → IsGroup (move (table names.now)) markup_rows.is_here (lexing state.old input.old rested.old) tokens.old (lexing state.new input.new rested.new) tokens.new rested.new) }
    ensures held { IfOk result (λ turn. held state.new ≤ input.new.place) }
{
    let _ = names;
    let turn = hp_lex_markup::advance(alloc, state, input, rested, tokens)?;
    Ok(gone_on(turn, hp_lex_markup::is_here(state.machine.state)))
}

/// Makes moves in the part of the table that the state is in, from one rest to the next, and appends what they emit.
#[inline]
pub(crate) fn make_moves<'p>(
    alloc: Global,
    state: &mut LexState,
    input: &mut Cursor<'p>,
    names: &Names,
    rested: &mut u64,
    tokens: &mut Tokens<'p>,
) -> Result<Turn, NoMemory>
    requires held { held state.old ≤ input.old.place }
    ensures turn { IfOk result (λ turn. Turned (table names.now) (part_of state.old.machine.state) (lexing state.old input.old rested.old) tokens.old (lexing state.new input.new rested.new) tokens.new rested.new turn) }
    ensures group { IfOk result (λ turn. turn ≡ turns.Emitted → IsGroup (move (table names.now)) (part_of state.old.machine.state) (lexing state.old input.old rested.old) tokens.old (lexing state.new input.new rested.new) tokens.new rested.new) }
    ensures held { IfOk result (λ turn. held state.new ≤ input.new.place) }
{
    if hp_lex_tags::is_here(state.machine.state) {
        return in_tags(alloc, state, input, names, rested, tokens);
    }
    if hp_lex_raw::is_here(state.machine.state) {
        return in_raw(alloc, state, input, names, rested, tokens);
    }
    in_markup(alloc, state, input, names, rested, tokens)
}

/// Makes the moves of the end of input in the part of the table that the state is in, and appends what they emit.
fn make_end_moves(
    alloc: Global,
    state: &mut LexState,
    names: &Names,
    tokens: &mut Tokens<'static>,
) -> Result<Turn, NoMemory>
    requires held { held state.old ≤ 2 ^ 32 }
    ensures { IfOk result (λ turn. (rested : ℕ) → EndTurned (table names.now) (part_of state.old.machine.state) (lexing state.old end_of_text rested) tokens.old state.new tokens.new turn) }
{
    if hp_lex_tags::is_here(state.machine.state) {
        return hp_lex_tags::at_end(alloc, state, names, tokens);
    }
    if hp_lex_raw::is_here(state.machine.state) {
        return hp_lex_raw::at_end(alloc, state, tokens);
    }
    hp_lex_markup::at_end(alloc, state, tokens)
}

/// Makes the moves of the end of input, in one part of the table after the other: the tokens that they emit, `EndOfInput` last.
pub(crate) fn make_all_end_moves(
    alloc: Global,
    state: &mut LexState,
    names: &Names,
) -> Result<Tokens<'static>, NoMemory>
    requires held { held state.old ≤ 2 ^ 32 }
    ensures { IfOk result (λ tokens. (rested : ℕ) → Ends (table names.now) (lexing state.old end_of_text rested) [] tokens) }
{
    let mut tokens = Tokens::new();
    'parts: loop {
        match make_end_moves(alloc, state, names, &mut tokens)? {
            Turn::Moved => {}
            _ => return Ok(tokens),
        }
    }
}
