//! Steps by rows, and the way from one rest to the next.
ghost use Rattle.std.specs.Prelude.{◌≡◌, ℕ, ◌≤◌, ◌^◌, List, [], Option, Some, Bool, IfOk, IsTrue};
ghost use Rattle.hp_tokens.specs.declared.state.State.{State};
ghost use Rattle.hp_tokens.specs.declared.machine.Machine.{Machine};
ghost use Rattle.hp_tokens.specs.declared.rows.Turn.TheVariants as turns;
ghost use Rattle.hp_tokens.specs.Reading.{first};
ghost use Rattle.hp_tokens.specs.Rows.{Row, Follows};
ghost use Rattle.hp_tokens.specs.Moves.{Lexing, Move, Rules, move, end_move};
ghost use Rattle.hp_tokens.specs.Ranks.{IsFine};
ghost use Rattle.hp_tokens.specs.Advancing.{unread, held, lexing, HasRows, MovesByRows, ReadsOne, Steps, Turned, IsGroup, EndSteps, EndTurned, end_of_text};

use crate::NoMemory;
use crate::cursor::Cursor;
use crate::lexing::LexState;
use crate::machine::Machine;
use crate::rows::{EndStep, Reads, Step, Turn};
use crate::state::State;
use hp_elements::Tokens;
use std::alloc::Global;

/// The rows of some states of the lexer.
pub trait Table {
    ghost row_of: { Machine → Option ℕ → Row };

    ghost has_row: { State → Bool };

    /// Carries out the row of the machine's state on a code point, or on the end of input.
    fn row(
        alloc: Global,
        machine: &mut Machine,
        symbol: Option<char>,
        tokens: &mut Tokens<'_>,
    ) -> Result<Reads, NoMemory>
        requires { IsTrue (has_row machine.old.state) }
        ensures { IfOk result (Follows (row_of machine.old symbol) tokens.old machine.new tokens.new) };

    ghost fine: { (m : Machine) (symbol : Option ℕ) → IsTrue (has_row m.state) → IsFine m.state symbol (row_of m symbol) };
}

/// One code point, by the row of the state, where CR is read as LF; or the LF of a CR LF pair, which is dropped. Answers
/// whether something was appended.
#[inline]
fn read<T: Table>(
    alloc: Global,
    c: char,
    state: &mut LexState,
    input: &mut Cursor<'_>,
    tokens: &mut Tokens<'_>,
) -> Result<bool, NoMemory>
    requires row { IsTrue (T.has_row state.old.machine.state) }
    requires held { held state.old ≤ input.old.place }
    requires next { first (unread state.old input.old) ≡ Some c }
    ensures step { IfOk result (λ emitted. (next : Lexing → Move) → MovesByRows next T.has_row T.row_of → ReadsOne next state.old input.old tokens.old state.new input.new tokens.new emitted) }
    ensures held { IfOk result (λ step. held state.new ≤ input.new.place) }
    ensures ended { IfOk result (λ step. input.old.text ≡ [] → input.new.text ≡ []) }
{
    if state.machine.after_cr && c == '\n' {
        state.drop_line_feed(input);
        return Ok(false);
    }
    let symbol = if c == '\r' { '\n' } else { c };
    let before = tokens.len();
    match T::row(alloc, &mut state.machine, Some(symbol), tokens)? {
        Reads::Consume => {
            let _ = state.take(input);
            state.machine.after_cr = c == '\r';
        }
        Reads::Again => {}
        Reads::End => unreachable!(),
    }
    Ok(tokens.len() != before)
}

/// One step by the rows: a code point, or the LF of a CR LF pair, which is dropped.
#[inline(never)]
pub fn step_by_row<T: Table>(
    alloc: Global,
    state: &mut LexState,
    input: &mut Cursor<'_>,
    tokens: &mut Tokens<'_>,
) -> Result<Step, NoMemory>
    requires row { IsTrue (T.has_row state.old.machine.state) }
    requires held { held state.old ≤ input.old.place }
    ensures step { IfOk result (λ step. (rules : Rules) → HasRows rules T.has_row T.row_of → Steps (move rules) state.old input.old tokens.old state.new input.new tokens.new step) }
    ensures held { IfOk result (λ step. held state.new ≤ input.new.place) }
{
    let Some(c) = state.peek(input) else {
        return Ok(Step::NeedsMore);
    };
    let emitted = read::<T>(alloc, c, state, input, tokens)?;
    Ok(Step::Made { emitted })
}

/// One step by the rows where the input ends behind what was read ahead.
pub fn end_by_row<T: Table>(
    alloc: Global,
    state: &mut LexState,
    input: &mut Cursor<'_>,
    tokens: &mut Tokens<'_>,
) -> Result<EndStep, NoMemory>
    requires row { IsTrue (T.has_row state.old.machine.state) }
    requires held { held state.old ≤ input.old.place }
    requires ended { input.old.text ≡ [] }
    ensures step { IfOk result (λ step. (rules : Rules) → HasRows rules T.has_row T.row_of → EndSteps rules state.old input.old tokens.old state.new input.new tokens.new step) }
    ensures held { IfOk result (λ step. held state.new ≤ input.new.place) }
    ensures ended { IfOk result (λ step. input.new.text ≡ []) }
{
    if let Some(c) = state.peek(input) {
        let _ = read::<T>(alloc, c, state, input, tokens)?;
        return Ok(EndStep::Made);
    }
    match T::row(alloc, &mut state.machine, None, tokens)? {
        Reads::Consume => unreachable!(),
        Reads::Again => Ok(EndStep::Made),
        Reads::End => Ok(EndStep::Ended),
    }
}

/// A crate's part of the lexer: the rules of its states, and one step by them.
pub trait Lexes {
    ghost rules: { Self → Rules };

    ghost here: { State → Bool };

    /// Whether the state is one of this part's.
    fn is_here(state: State) -> bool
        ensures { result ≡ here state };

    /// Some moves, or none where more input is needed or a question is asked; nothing changes then.
    fn step<'p>(
        &self,
        alloc: Global,
        state: &mut LexState,
        input: &mut Cursor<'p>,
        tokens: &mut Tokens<'p>,
    ) -> Result<Step, NoMemory>
        requires here { IsTrue (here state.old.machine.state) }
        requires held { held state.old ≤ input.old.place }
        ensures step { IfOk result (λ step. Steps (move (rules self.now)) state.old input.old tokens.old state.new input.new tokens.new step) }
        ensures held { IfOk result (λ step. held state.new ≤ input.new.place) };

    /// Some moves, or the end, where the input ends behind what was read ahead.
    fn end(
        &self,
        alloc: Global,
        state: &mut LexState,
        input: &mut Cursor<'_>,
        tokens: &mut Tokens<'static>,
    ) -> Result<EndStep, NoMemory>
        requires here { IsTrue (here state.old.machine.state) }
        requires held { held state.old ≤ input.old.place }
        requires ended { input.old.text ≡ [] }
        ensures step { IfOk result (λ step. EndSteps (rules self.now) state.old input.old tokens.old state.new input.new tokens.new step) }
        ensures held { IfOk result (λ step. held state.new ≤ input.new.place) }
        ensures ended { IfOk result (λ step. input.new.text ≡ []) };
}

/// Makes moves, from one rest to the next, and appends what they emit. `rested` is the last place at or before the first
/// token that is appended where the lexer rested. After `NoMemory` the state is spent.
#[inline]
pub fn advance<'p, L: Lexes>(
    lexer: &L,
    alloc: Global,
    state: &mut LexState,
    input: &mut Cursor<'p>,
    rested: &mut u64,
    tokens: &mut Tokens<'p>,
) -> Result<Turn, NoMemory>
    requires here { IsTrue (L.here state.old.machine.state) }
    requires held { held state.old ≤ input.old.place }
    ensures turn { IfOk result (λ turn. Turned (L.rules lexer.now) L.here (lexing state.old input.old rested.old) tokens.old (lexing state.new input.new rested.new) tokens.new rested.new turn) }
    ensures group { IfOk result (λ turn. turn ≡ turns.Emitted → IsGroup (move (L.rules lexer.now)) L.here (lexing state.old input.old rested.old) tokens.old (lexing state.new input.new rested.new) tokens.new rested.new) }
    ensures held { IfOk result (λ turn. held state.new ≤ input.new.place) }
{
    let mut emitted = false;
    if state.machine.state.is_resting() {
        *rested = state.place(input);
    }
    'moves: while L::is_here(state.machine.state) {
        match lexer.step(alloc, state, input, tokens)? {
            Step::Made { emitted: now } => emitted |= now,
            Step::NeedsMore => return Ok(turned(emitted, Turn::NeedsMore)),
            Step::AskCdata => return Ok(turned(emitted, Turn::AskCdata)),
            Step::AskLastTag => return Ok(turned(emitted, Turn::AskLastTag)),
        }
        if state.machine.state.is_resting() {
            if emitted {
                return Ok(Turn::Emitted);
            }
            *rested = state.place(input);
        }
    }
    Ok(turned(emitted, Turn::Moved))
}

/// Makes the moves of the end of input behind what was read ahead, and appends what they emit. After `NoMemory` the state is
/// spent.
pub fn at_end<L: Lexes>(
    lexer: &L,
    alloc: Global,
    state: &mut LexState,
    tokens: &mut Tokens<'static>,
) -> Result<Turn, NoMemory>
    requires here { IsTrue (L.here state.old.machine.state) }
    requires held { held state.old ≤ 2 ^ 32 }
    ensures { IfOk result (λ turn. (rested : ℕ) → EndTurned (L.rules lexer.now) L.here (lexing state.old end_of_text rested) tokens.old state.new tokens.new turn) }
{
    let mut input = Cursor::of_str("");
    'moves: while L::is_here(state.machine.state) {
        match lexer.end(alloc, state, &mut input, tokens)? {
            EndStep::Made => {}
            EndStep::Ended => return Ok(Turn::Emitted),
        }
    }
    Ok(Turn::Moved)
}

ghost use Rattle.std.specs.Prelude.{if◌then◌else◌};

/// The answer, unless something was appended.
#[inline]
fn turned(emitted: bool, turn: Turn) -> Turn
    ensures { result ≡ (if emitted then turns.Emitted else turn) }
{
    if emitted { Turn::Emitted } else { turn }
}
