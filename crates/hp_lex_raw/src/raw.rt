//! The moves of this part of the lexer.
ghost use Rattle.std.specs.Prelude.{◌≡◌, ◌≤◌, ◌^◌, ◌==◌, ◌&&◌, ℕ, [], ◌∷◌, Option, Some, true, false, IfOk, IfSome, IfNone, IsTrue};
ghost use Rattle.hp_tokens.specs.declared.rows.Turn.TheVariants as turns;
ghost use Rattle.hp_tokens.specs.declared.machine.Machine.{Machine};
ghost use Rattle.hp_tokens.specs.declared.state.State.{State};
ghost use Rattle.std.specs.Prelude.{◌<◌, length, map};
ghost use Rattle.std.specs.List.{list_all};
ghost use Rattle.hp_tokens.specs.Rows.{Follows, character, is_blank};
ghost use Rattle.hp_tokens.specs.Plain.{EmitsPlain, none_of};
ghost use Rattle.hp_tokens.specs.Ranks.{IsFine};
ghost use Rattle.hp_tokens.specs.Advancing.{held, lexing, end_of_text, Steps, EndSteps, Turned, EndTurned, IsGroup};
ghost use Rattle.hp_tokens.specs.Moves.{move, read_as as spec_read_as};
ghost use Rattle.hp_lex_raw.specs.Rows as rows;
ghost use Rattle.hp_lex_raw.specs.Fine.{row_fine, text_fine};
ghost use Rattle.hp_lex_raw.specs.Raw.{is_here as spec_is_here, asks as spec_asks, reads_text, raw_rules};

use crate::rows::{
    end_tag_name, end_tag_open, ends_name, less_than_sign, plaintext, raw_text, rcdata,
};
use crate::script::{
    double_escape, double_escaped, double_escaped_dash, double_escaped_dash_dash,
    double_escaped_less_than_sign, escape_start, escaped, escaped_dash, escaped_dash_dash,
    escaped_less_than_sign, script_less_than_sign,
};
use hp_elements::{Text, Token, Tokens};
use hp_tokens::{
    Cursor, DataText, EndStep, EscapedText, LexState, Lexes, Machine, NoMemory, PlaintextText,
    RawText, Reads, State, Step, Table, TextRun, Turn, end_by_row, step_in_text,
};
use std::alloc::Global;

/// The row of the machine's state.
fn row(
    alloc: Global,
    machine: &mut Machine,
    symbol: Option<char>,
    tokens: &mut Tokens<'_>,
) -> Result<Reads, NoMemory>
    requires { IsTrue (rows.has_row machine.old.state) }
    ensures { IfOk result (Follows (rows.row machine.old symbol) tokens.old machine.new tokens.new) }
{
    match machine.state {
        State::Rcdata => rcdata(alloc, machine, symbol, tokens),
        State::Rawtext => raw_text(alloc, State::RawtextLessThanSign, machine, symbol, tokens),
        State::ScriptData => {
            raw_text(
                alloc,
                State::ScriptDataLessThanSign,
                machine,
                symbol,
                tokens,
            )
        }
        State::Plaintext => plaintext(alloc, machine, symbol, tokens),
        State::RcdataLessThanSign => {
            let open = State::RcdataEndTagOpen;
            less_than_sign(alloc, open, State::Rcdata, machine, symbol, tokens)
        }
        State::RcdataEndTagOpen => {
            let name = State::RcdataEndTagName;
            end_tag_open(alloc, name, State::Rcdata, machine, symbol, tokens)
        }
        State::RcdataEndTagName => end_tag_name(alloc, State::Rcdata, machine, symbol, tokens),
        State::RawtextLessThanSign => {
            let open = State::RawtextEndTagOpen;
            less_than_sign(alloc, open, State::Rawtext, machine, symbol, tokens)
        }
        State::RawtextEndTagOpen => {
            let name = State::RawtextEndTagName;
            end_tag_open(alloc, name, State::Rawtext, machine, symbol, tokens)
        }
        State::RawtextEndTagName => end_tag_name(alloc, State::Rawtext, machine, symbol, tokens),
        State::ScriptDataLessThanSign => script_less_than_sign(alloc, machine, symbol, tokens),
        State::ScriptDataEndTagOpen => {
            let name = State::ScriptDataEndTagName;
            end_tag_open(alloc, name, State::ScriptData, machine, symbol, tokens)
        }
        State::ScriptDataEndTagName => {
            end_tag_name(alloc, State::ScriptData, machine, symbol, tokens)
        }
        State::ScriptDataEscapeStart => {
            let dash = State::ScriptDataEscapeStartDash;
            escape_start(alloc, dash, machine, symbol, tokens)
        }
        State::ScriptDataEscapeStartDash => {
            let dash = State::ScriptDataEscapedDashDash;
            escape_start(alloc, dash, machine, symbol, tokens)
        }
        State::ScriptDataEscaped => escaped(alloc, machine, symbol, tokens),
        State::ScriptDataEscapedDash => escaped_dash(alloc, machine, symbol, tokens),
        State::ScriptDataEscapedDashDash => escaped_dash_dash(alloc, machine, symbol, tokens),
        State::ScriptDataEscapedLessThanSign => {
            escaped_less_than_sign(alloc, machine, symbol, tokens)
        }
        State::ScriptDataEscapedEndTagOpen => {
            let name = State::ScriptDataEscapedEndTagName;
            end_tag_open(
                alloc,
                name,
                State::ScriptDataEscaped,
                machine,
                symbol,
                tokens,
            )
        }
        State::ScriptDataEscapedEndTagName => {
            end_tag_name(alloc, State::ScriptDataEscaped, machine, symbol, tokens)
        }
        State::ScriptDataDoubleEscapeStart => {
            let script = State::ScriptDataDoubleEscaped;
            double_escape(
                alloc,
                script,
                State::ScriptDataEscaped,
                machine,
                symbol,
                tokens,
            )
        }
        State::ScriptDataDoubleEscaped => double_escaped(alloc, machine, symbol, tokens),
        State::ScriptDataDoubleEscapedDash => double_escaped_dash(alloc, machine, symbol, tokens),
        State::ScriptDataDoubleEscapedDashDash => {
            double_escaped_dash_dash(alloc, machine, symbol, tokens)
        }
        State::ScriptDataDoubleEscapedLessThanSign => {
            double_escaped_less_than_sign(alloc, machine, symbol, tokens)
        }
        State::ScriptDataDoubleEscapeEnd => {
            let script = State::ScriptDataEscaped;
            double_escape(
                alloc,
                script,
                State::ScriptDataDoubleEscaped,
                machine,
                symbol,
                tokens,
            )
        }
        _ => unreachable!(),
    }
}

/// The rows of this part.
#[derive(Drop)]
struct Rows;

impl Table for Rows {
    ghost row_of = { rows.row };

    ghost has_row = { rows.has_row };

    fn row(
        alloc: Global,
        machine: &mut Machine,
        symbol: Option<char>,
        tokens: &mut Tokens<'_>,
    ) -> Result<Reads, NoMemory>
        requires { IsTrue (rows.has_row machine.old.state) }
        ensures { IfOk result (Follows (rows.row machine.old symbol) tokens.old machine.new tokens.new) }
    {
        row(alloc, machine, symbol, tokens)
    }

    ghost fine = { row_fine };
}

/// The rows of the states whose text is read in runs.
#[derive(Drop)]
struct TextRows;

impl Table for TextRows {
    ghost row_of = { rows.row };

    ghost has_row = { reads_text };

    fn row(
        alloc: Global,
        machine: &mut Machine,
        symbol: Option<char>,
        tokens: &mut Tokens<'_>,
    ) -> Result<Reads, NoMemory>
        requires { IsTrue (reads_text machine.old.state) }
        ensures { IfOk result (Follows (rows.row machine.old symbol) tokens.old machine.new tokens.new) }
    {
        row(alloc, machine, symbol, tokens)
    }

    ghost fine = { text_fine };
}

/// A run of text, or a code point by its row.
fn read_text<'p, R: TextRun>(
    alloc: Global,
    state: &mut LexState,
    input: &mut Cursor<'p>,
    tokens: &mut Tokens<'p>,
) -> Result<Step, NoMemory>
    requires text { IsTrue (reads_text state.old.machine.state) }
    requires blanks { EmitsPlain rows.row is_blank state.old.machine.state }
    requires others { EmitsPlain rows.row R.passes state.old.machine.state }
    requires held { held state.old ≤ input.old.place }
    ensures step { IfOk result (λ step. Steps (move raw_rules) state.old input.old tokens.old state.new input.new tokens.new step) }
    ensures held { IfOk result (λ step. held state.new ≤ input.new.place) }
{
    step_in_text::<TextRows, R>(alloc, state, input, tokens)
}

/// CR is read as LF.
fn read_as(c: char) -> char
    ensures { result ≡ spec_read_as c }
{
    if c == '\r' { '\n' } else { c }
}

/// Whether the last start tag's name is asked before this code point is read.
fn asks(machine: &Machine, c: char) -> bool
    ensures { result ≡ spec_asks machine.now c }
{
    match machine.state {
        State::RcdataEndTagName
        | State::RawtextEndTagName
        | State::ScriptDataEndTagName
        | State::ScriptDataEscapedEndTagName => {
            machine.last_tag.is_none() && ends_name(read_as(c))
        }
        _ => false,
    }
}

/// One code point, by the row of the state, or the question of the last start tag's name.
fn read_one(
    alloc: Global,
    state: &mut LexState,
    input: &mut Cursor<'_>,
    tokens: &mut Tokens<'_>,
) -> Result<Step, NoMemory>
    requires here { IsTrue (spec_is_here state.old.machine.state) }
    requires held { held state.old ≤ input.old.place }
    ensures step { IfOk result (λ step. Steps (move raw_rules) state.old input.old tokens.old state.new input.new tokens.new step) }
    ensures held { IfOk result (λ step. held state.new ≤ input.new.place) }
{
    let Some(c) = state.peek(input) else {
        return Ok(Step::NeedsMore);
    };
    if state.machine.after_cr && c == '\n' {
        state.drop_line_feed(input);
        return Ok(Step::Made { emitted: false });
    }
    if asks(&state.machine, c) {
        return Ok(Step::AskLastTag);
    }
    let before = tokens.len();
    match row(alloc, &mut state.machine, Some(read_as(c)), tokens)? {
        Reads::Consume => {
            let _ = state.take(input);
            state.machine.after_cr = c == '\r';
        }
        Reads::Again => {}
        Reads::End => unreachable!(),
    }
    let emitted = tokens.len() != before;
    Ok(Step::Made { emitted })
}

/// This part of the lexer.
#[derive(Drop)]
struct Raw;

impl Lexes for Raw {
    ghost rules = { λ r. raw_rules };

    ghost here = { spec_is_here };

    fn is_here(state: State) -> bool
        ensures { result ≡ spec_is_here state }
    {
        is_here(state)
    }

    fn step<'p>(
        &self,
        alloc: Global,
        state: &mut LexState,
        input: &mut Cursor<'p>,
        tokens: &mut Tokens<'p>,
    ) -> Result<Step, NoMemory>
        requires here { IsTrue (spec_is_here state.old.machine.state) }
        requires held { held state.old ≤ input.old.place }
        ensures step { IfOk result (λ step. Steps (move raw_rules) state.old input.old tokens.old state.new input.new tokens.new step) }
        ensures held { IfOk result (λ step. held state.new ≤ input.new.place) }
    {
        match state.machine.state {
            State::Rcdata => read_text::<DataText>(alloc, state, input, tokens),
            State::Rawtext | State::ScriptData => {
                read_text::<RawText>(alloc, state, input, tokens)
            }
            State::Plaintext => read_text::<PlaintextText>(alloc, state, input, tokens),
            State::ScriptDataEscaped | State::ScriptDataDoubleEscaped => {
                read_text::<EscapedText>(alloc, state, input, tokens)
            }
            _ => read_one(alloc, state, input, tokens),
        }
    }

    fn end(
        &self,
        alloc: Global,
        state: &mut LexState,
        input: &mut Cursor<'_>,
        tokens: &mut Tokens<'static>,
    ) -> Result<EndStep, NoMemory>
        requires here { IsTrue (spec_is_here state.old.machine.state) }
        requires held { held state.old ≤ input.old.place }
        requires ended { input.old.text ≡ [] }
        ensures step { IfOk result (λ step. EndSteps raw_rules state.old input.old tokens.old state.new input.new tokens.new step) }
        ensures held { IfOk result (λ step. held state.new ≤ input.new.place) }
        ensures ended { IfOk result (λ step. input.new.text ≡ []) }
    {
        end_by_row::<Rows>(alloc, state, input, tokens)
    }
}

/// Whether the state is one of this part's: RCDATA, RAWTEXT, script data and its escaped states, PLAINTEXT (13.2.5.2 to
/// 13.2.5.5 and 13.2.5.9 to 13.2.5.31).
pub fn is_here(state: State) -> bool
    ensures { result ≡ spec_is_here state }
{
    match state {
        State::Rcdata
        | State::Rawtext
        | State::ScriptData
        | State::Plaintext
        | State::RcdataLessThanSign
        | State::RcdataEndTagOpen
        | State::RcdataEndTagName
        | State::RawtextLessThanSign
        | State::RawtextEndTagOpen
        | State::RawtextEndTagName
        | State::ScriptDataLessThanSign
        | State::ScriptDataEndTagOpen
        | State::ScriptDataEndTagName
        | State::ScriptDataEscapeStart
        | State::ScriptDataEscapeStartDash
        | State::ScriptDataEscaped
        | State::ScriptDataEscapedDash
        | State::ScriptDataEscapedDashDash
        | State::ScriptDataEscapedLessThanSign
        | State::ScriptDataEscapedEndTagOpen
        | State::ScriptDataEscapedEndTagName
        | State::ScriptDataDoubleEscapeStart
        | State::ScriptDataDoubleEscaped
        | State::ScriptDataDoubleEscapedDash
        | State::ScriptDataDoubleEscapedDashDash
        | State::ScriptDataDoubleEscapedLessThanSign
        | State::ScriptDataDoubleEscapeEnd => true,
        _ => false,
    }
}

/// Makes moves, from one rest to the next, and appends what they emit. `rested` is the last place at or before the first
/// token that is appended where the lexer rested. After `NoMemory` the state is spent.
///
/// It answers `AskLastTag` where the name of an end tag ends (13.2.5.11, 13.2.5.14, 13.2.5.17, 13.2.5.25) and the lexer knows
/// no last start tag's name: its state gets one, and the call is made again.
pub fn advance<'p>(
    alloc: Global,
    state: &mut LexState,
    input: &mut Cursor<'p>,
    rested: &mut u64,
    tokens: &mut Tokens<'p>,
) -> Result<Turn, NoMemory>
    requires here { IsTrue (spec_is_here state.old.machine.state) }
    requires held { held state.old ≤ input.old.place }
    ensures turn { IfOk result (λ turn. Turned raw_rules spec_is_here (lexing state.old input.old rested.old) tokens.old (lexing state.new input.new rested.new) tokens.new rested.new turn) }
    ensures group { IfOk result (λ turn. turn ≡ turns.Emitted → IsGroup (move raw_rules) spec_is_here (lexing state.old input.old rested.old) tokens.old (lexing state.new input.new rested.new) tokens.new rested.new) }
    ensures held { IfOk result (λ turn. held state.new ≤ input.new.place) }
{
    hp_tokens::advance(&Raw, alloc, state, input, rested, tokens)
}

/// In RCDATA, RAWTEXT and script data, the run of text at the front as one token, where `rested` becomes the place of its start;
/// otherwise `None`, and nothing changes. It is what `advance` does there.
#[inline]
pub fn next_text<'p>(
    state: &LexState,
    input: &mut Cursor<'p>,
    rested: &mut u64,
) -> Option<Token<'p>>
    requires held { held state.now ≤ input.old.place }
    ensures turn { IfSome result (λ token. Turned raw_rules spec_is_here (lexing state.now input.old rested.old) [] (lexing state.now input.new rested.new) (token ∷ []) rested.new turns.Emitted) }
    ensures group { IfSome result (λ token. IsGroup (move raw_rules) spec_is_here (lexing state.now input.old rested.old) [] (lexing state.now input.new rested.new) (token ∷ []) rested.new) }
    ensures here { IfSome result (λ token. spec_is_here state.now.machine.state ≡ true) }
    ensures none { IfNone result ((input.new ≡ input.old) × (rested.new ≡ rested.old)) }
    ensures held { held state.now ≤ input.new.place }
{
    match state.machine.state {
        State::Rcdata => hp_tokens::next_text::<TextRows, DataText>(state, input, rested),
        State::Rawtext | State::ScriptData => {
            hp_tokens::next_text::<TextRows, RawText>(state, input, rested)
        }
        _ => None,
    }
}

/// In RCDATA, RAWTEXT and script data, the text at the front up to the next `<`, CR or U+0000, in RCDATA also `&`, where `rested`
/// becomes the place of its start; otherwise `None`, and nothing changes. It is what calls of `advance` do there, with each
/// code point in a token of its own.
#[inline]
pub fn next_plain<'p>(
    state: &LexState,
    input: &mut Cursor<'p>,
    rested: &mut u64,
) -> Option<Text<'p>>
    requires held { held state.now ≤ input.old.place }
    ensures turn { IfSome result (λ text. Turned raw_rules spec_is_here (lexing state.now input.old rested.old) [] (lexing state.now input.new rested.new) (map character text) rested.new turns.Emitted) }
    ensures here { IfSome result (λ text. spec_is_here state.now.machine.state ≡ true) }
    ensures no_nul { IfSome result (λ text. list_all (none_of (0 ∷ [])) text ≡ true) }
    ensures long { IfSome result (λ text. 0 < length text) }
    ensures none { IfNone result ((input.new ≡ input.old) × (rested.new ≡ rested.old)) }
    ensures held { held state.now ≤ input.new.place }
{
    match state.machine.state {
        State::Rcdata => hp_tokens::next_data::<TextRows>(state, input, rested),
        State::Rawtext | State::ScriptData => {
            hp_tokens::next_raw::<TextRows>(state, input, rested)
        }
        _ => None,
    }
}

/// Makes the moves of the end of input behind what was read ahead, and appends what they emit. A last start tag's name that
/// the lexer was not told counts as the empty one. After `NoMemory` the state is spent.
pub fn at_end(
    alloc: Global,
    state: &mut LexState,
    tokens: &mut Tokens<'static>,
) -> Result<Turn, NoMemory>
    requires here { IsTrue (spec_is_here state.old.machine.state) }
    requires held { held state.old ≤ 2 ^ 32 }
    ensures { IfOk result (λ turn. (rested : ℕ) → EndTurned raw_rules spec_is_here (lexing state.old end_of_text rested) tokens.old state.new tokens.new turn) }
{
    hp_tokens::at_end(&Raw, alloc, state, tokens)
}

ghost use Rattle.hp_tokens.specs.Runs.{IsSteady, AnyPieces};

/// A move that is made stays made when more text follows; and so, however a text is cut into pieces, these states give the
/// same tokens, places and final state. It does nothing; its contract is the law.
pub fn any_pieces()
    ensures steady { IsSteady raw_rules }
    ensures pieces { AnyPieces raw_rules }
{
    hp_tokens::any_pieces();
}
