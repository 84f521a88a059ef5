//! Runs of plain code points, each of them many moves at once.
ghost use Rattle.std.specs.Prelude.{◌≡◌, ℕ, ◌≤◌, ◌==◌, false, true, [], ◌∷◌, IfOk, IfSome, IfNone, IsTrue, Bool};
ghost use Rattle.hp_elements.specs.Tokens.{class_of};
ghost use Rattle.hp_elements.specs.declared.token.CharClass.TheVariants as classes;
ghost use Rattle.hp_tokens.specs.Moves.{Lexing, Move, Rules, move};
ghost use Rattle.hp_tokens.specs.Advancing.{held, lexing, HasRows, MovesByRows, Steps, Turned, IsGroup};
ghost use Rattle.hp_tokens.specs.States.{is_resting};
ghost use Rattle.hp_tokens.specs.declared.state.State.{State};
ghost use Rattle.hp_tokens.specs.declared.rows.Turn.TheVariants as turns;
ghost use Rattle.hp_tokens.specs.Rows.{is_blank};
ghost use Rattle.hp_tokens.specs.Plain.{EmitsPlain, PutsPlain, IsOneToken, TextRan, PutRan};

use crate::NoMemory;
use crate::building::Part;
use crate::cursor::{Cursor, Run};
use crate::lexing::LexState;
use crate::machine::push_token;
use crate::rows::Step;
use crate::steps::{Table, step_by_row};
use hp_elements::{CharClass, Text, Token, Tokens};
use std::alloc::Global;

/// A test of bytes for runs of text, in which nothing is white space or U+0000.
pub trait TextRun: Run {
    ghost other: { (c : ℕ) → Self.passes c ≡ true → class_of c ≡ classes.Other };
}

/// A run of one class as one token; `None` where it is empty.
#[inline]
fn one_token<'p>(class: CharClass, run: Text<'p>) -> Option<Token<'p>>
    ensures { IsOneToken class run.entry result }
{
    if run.is_empty() {
        return None;
    }
    Some(Token::Characters { class, text: run })
}

/// Takes the run of text at the front, as one token that is borrowed from the page: white space, or code points that pass. A
/// line feed stands alone. `None` where there is no run.
#[inline]
fn text_run<'p, T: Table, R: TextRun>(state: &LexState, input: &mut Cursor<'p>) -> Option<Token<'p>>
    requires row { IsTrue (T.has_row state.now.machine.state) }
    requires blanks { EmitsPlain T.row_of is_blank state.now.machine.state }
    requires others { EmitsPlain T.row_of R.passes state.now.machine.state }
    requires held { held state.now ≤ input.old.place }
    ensures ran { TextRan T.has_row T.row_of state.now input.old result input.new }
    ensures held { held state.now ≤ input.new.place }
{
    if state.machine.after_cr || !state.ahead.is_empty() {
        return None;
    }
    match input.peek()? {
        '\n' => {
            let _ = input.next();
            Some(Token::Characters {
                class: CharClass::White,
                text: Text::of_char('\n'),
            })
        }
        '\t' | '\x0c' | ' ' => one_token(CharClass::White, input.take_blanks()),
        _ => one_token(CharClass::Other, input.take_text::<R>()),
    }
}

/// One step in a state of text: a run of text where there is one, otherwise by the rows.
#[inline]
pub fn step_in_text<'p, T: Table, R: TextRun>(
    alloc: Global,
    state: &mut LexState,
    input: &mut Cursor<'p>,
    tokens: &mut Tokens<'p>,
) -> Result<Step, NoMemory>
    requires row { IsTrue (T.has_row state.old.machine.state) }
    requires blanks { EmitsPlain T.row_of is_blank state.old.machine.state }
    requires others { EmitsPlain T.row_of R.passes state.old.machine.state }
    requires held { held state.old ≤ input.old.place }
    ensures step { IfOk result (λ step. (rules : Rules) → HasRows rules T.has_row T.row_of → Steps (move rules) state.old input.old tokens.old state.new input.new tokens.new step) }
    ensures held { IfOk result (λ step. held state.new ≤ input.new.place) }
{
    if let Some(token) = text_run::<T, R>(state, input) {
        push_token(alloc, tokens, token)?;
        return Ok(Step::Made { emitted: true });
    }
    step_by_row::<T>(alloc, state, input, tokens)
}

/// Appends the run at the front to a part of what is built, and answers whether there is one.
#[inline]
fn put_run<T: Table, R: Run>(
    alloc: Global,
    part: Part,
    state: &mut LexState,
    input: &mut Cursor<'_>,
) -> Result<bool, NoMemory>
    requires row { IsTrue (T.has_row state.old.machine.state) }
    requires plain { PutsPlain T.row_of R.passes part state.old.machine.state }
    requires held { held state.old ≤ input.old.place }
    ensures ran { IfOk result (PutRan T.has_row T.row_of state.old input.old state.new input.new) }
    ensures held { IfOk result (λ ran. held state.new ≤ input.new.place) }
{
    if state.machine.after_cr || !state.ahead.is_empty() {
        return Ok(false);
    }
    let run = input.take_run::<R>();
    if run.is_empty() {
        return Ok(false);
    }
    state.machine.put_text(alloc, part, run)?;
    Ok(true)
}

/// One step in a state that appends to what is built: a run where there is one, otherwise by the rows.
#[inline]
pub fn step_in_part<T: Table, R: Run>(
    alloc: Global,
    part: Part,
    state: &mut LexState,
    input: &mut Cursor<'_>,
    tokens: &mut Tokens<'_>,
) -> Result<Step, NoMemory>
    requires row { IsTrue (T.has_row state.old.machine.state) }
    requires plain { PutsPlain T.row_of R.passes part state.old.machine.state }
    requires held { held state.old ≤ input.old.place }
    ensures step { IfOk result (λ step. (rules : Rules) → HasRows rules T.has_row T.row_of → Steps (move rules) state.old input.old tokens.old state.new input.new tokens.new step) }
    ensures held { IfOk result (λ step. held state.new ≤ input.new.place) }
{
    let ran = put_run::<T, R>(alloc, part, state, input)?;
    if ran {
        return Ok(Step::Made { emitted: false });
    }
    step_by_row::<T>(alloc, state, input, tokens)
}

/// The run of text at the front as one token, in a resting state, where `rested` becomes the place of its start; `None` where
/// there is none, and then nothing changes. It is what `advance` does there.
#[inline]
pub fn next_text<'p, T: Table, R: TextRun>(
    state: &LexState,
    input: &mut Cursor<'p>,
    rested: &mut u64,
) -> Option<Token<'p>>
    requires row { IsTrue (T.has_row state.now.machine.state) }
    requires blanks { EmitsPlain T.row_of is_blank state.now.machine.state }
    requires others { EmitsPlain T.row_of R.passes state.now.machine.state }
    requires resting { is_resting state.now.machine.state ≡ true }
    requires held { held state.now ≤ input.old.place }
    ensures turn { IfSome result (λ token. (rules : Rules) (here : State → Bool) → HasRows rules T.has_row T.row_of → Turned rules here (lexing state.now input.old rested.old) [] (lexing state.now input.new rested.new) (token ∷ []) rested.new turns.Emitted) }
    ensures group { IfSome result (λ token. (rules : Rules) (here : State → Bool) → HasRows rules T.has_row T.row_of → here state.now.machine.state ≡ true → IsGroup (move rules) here (lexing state.now input.old rested.old) [] (lexing state.now input.new rested.new) (token ∷ []) rested.new) }
    ensures none { IfNone result ((input.new ≡ input.old) × (rested.new ≡ rested.old)) }
    ensures held { held state.now ≤ input.new.place }
{
    let place = state.place(input);
    let token = text_run::<T, R>(state, input)?;
    *rested = place;
    Some(token)
}

ghost use Rattle.std.specs.Prelude.{map, length, ◌<◌};
ghost use Rattle.std.specs.List.{list_all};
ghost use Rattle.hp_tokens.specs.Rows.{character};
ghost use Rattle.hp_tokens.specs.Plain.{none_of, whole_data_stops, whole_raw_stops};

/// The text at the front up to the next `<`, `&`, CR or U+0000, where a CR LF pair that comes first is LF, in a resting state, where
/// `rested` becomes the place of its start; `None` where there is none, and then nothing changes. It is what calls of `advance` do there, with each code point
/// in a token of its own.
#[inline]
pub fn next_data<'p, T: Table>(
    state: &LexState,
    input: &mut Cursor<'p>,
    rested: &mut u64,
) -> Option<Text<'p>>
    requires row { IsTrue (T.has_row state.now.machine.state) }
    requires plain { EmitsPlain T.row_of (none_of whole_data_stops) state.now.machine.state }
    requires resting { is_resting state.now.machine.state ≡ true }
    requires held { held state.now ≤ input.old.place }
    ensures turn { IfSome result (λ text. (rules : Rules) (here : State → Bool) → HasRows rules T.has_row T.row_of → Turned rules here (lexing state.now input.old rested.old) [] (lexing state.now input.new rested.new) (map character text) rested.new turns.Emitted) }
    ensures no_nul { IfSome result (λ text. list_all (none_of (0 ∷ [])) text ≡ true) }
    ensures long { IfSome result (λ text. 0 < length text) }
    ensures none { IfNone result ((input.new ≡ input.old) × (rested.new ≡ rested.old)) }
    ensures held { held state.now ≤ input.new.place }
{
    if state.machine.after_cr || !state.ahead.is_empty() {
        return None;
    }
    let place = input.place();
    input.skip_pair_cr();
    let text = input.take_data();
    if text.is_empty() {
        return None;
    }
    *rested = place;
    Some(text)
}

/// The same up to the next `<`, CR or U+0000.
#[inline]
pub fn next_raw<'p, T: Table>(
    state: &LexState,
    input: &mut Cursor<'p>,
    rested: &mut u64,
) -> Option<Text<'p>>
    requires row { IsTrue (T.has_row state.now.machine.state) }
    requires plain { EmitsPlain T.row_of (none_of whole_raw_stops) state.now.machine.state }
    requires resting { is_resting state.now.machine.state ≡ true }
    requires held { held state.now ≤ input.old.place }
    ensures turn { IfSome result (λ text. (rules : Rules) (here : State → Bool) → HasRows rules T.has_row T.row_of → Turned rules here (lexing state.now input.old rested.old) [] (lexing state.now input.new rested.new) (map character text) rested.new turns.Emitted) }
    ensures no_nul { IfSome result (λ text. list_all (none_of (0 ∷ [])) text ≡ true) }
    ensures long { IfSome result (λ text. 0 < length text) }
    ensures none { IfNone result ((input.new ≡ input.old) × (rested.new ≡ rested.old)) }
    ensures held { held state.now ≤ input.new.place }
{
    if state.machine.after_cr || !state.ahead.is_empty() {
        return None;
    }
    let place = input.place();
    input.skip_pair_cr();
    let text = input.take_raw();
    if text.is_empty() {
        return None;
    }
    *rested = place;
    Some(text)
}
