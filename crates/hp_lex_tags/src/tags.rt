//! The moves of this part of the lexer.
ghost use Rattle.std.specs.Prelude.{◌≡◌, ◌≤◌, ◌^◌, ℕ, [], ◌∷◌, true, Option, IfOk, IfSome, IfNone, IsTrue};
ghost use Rattle.hp_tokens.specs.declared.rows.Turn.TheVariants as turns;
ghost use Rattle.hp_tokens.specs.declared.machine.Machine.{Machine};
ghost use Rattle.hp_tokens.specs.declared.state.State.{State};
ghost use Rattle.std.specs.Prelude.{◌<◌, length, map};
ghost use Rattle.std.specs.List.{list_all};
ghost use Rattle.hp_tokens.specs.Plain.{none_of};
ghost use Rattle.hp_tokens.specs.Rows.{Follows, character};
ghost use Rattle.hp_tokens.specs.Ranks.{IsFine};
ghost use Rattle.hp_tokens.specs.Advancing.{held, lexing, end_of_text, HasRows, Steps, EndSteps, Turned, EndTurned, IsGroup};
ghost use Rattle.hp_tokens.specs.Moves.{Rules, move};
ghost use Rattle.hp_lex_tags.specs.Rows as rows;
ghost use Rattle.hp_lex_tags.specs.Fine.{row_fine};
ghost use Rattle.hp_lex_tags.specs.Tags.{is_here as spec_is_here, tag_rules};

use crate::named;
use crate::references::{
    ambiguous_ampersand, character_reference, number, number_start, numeric_end, numeric_reference,
};
use crate::rows::{
    after_attribute_name, after_quoted_value, attribute_name, before_attribute_name,
    before_attribute_value, data, end_tag_open, quoted_value, self_closing_start_tag, tag_name,
    tag_open, unquoted_value,
};
use crate::usual_reference::emit_reference;
use hp_elements::{Text, Token, Tokens};
use hp_names::Names;
use hp_tokens::{
    AttributeNameText, Cursor, DataText, DoubleQuotedText, EndStep, LexState, Lexes, Machine,
    NoMemory, Part, Reads, Return, SingleQuotedText, State, Step, Table, TagNameText, Turn,
    UnquotedText, end_by_row, step_by_row, step_in_part, step_in_text,
};
use std::alloc::Global;

/// The rows of this part.
#[derive(Drop)]
struct Rows;

impl Table for Rows {
    ghost row_of = { rows.row };

    ghost has_row = { rows.has_row };

    fn row(
        alloc: Global,
        machine: &mut Machine,
        symbol: Option<char>,
        tokens: &mut Tokens<'_>,
    ) -> Result<Reads, NoMemory>
        requires { IsTrue (rows.has_row machine.old.state) }
        ensures { IfOk result (Follows (rows.row machine.old symbol) tokens.old machine.new tokens.new) }
    {
        match machine.state {
            State::Data => data(alloc, machine, symbol, tokens),
            State::TagOpen => tag_open(alloc, machine, symbol, tokens),
            State::EndTagOpen => end_tag_open(alloc, machine, symbol, tokens),
            State::TagName => tag_name(alloc, machine, symbol, tokens),
            State::BeforeAttributeName => before_attribute_name(alloc, machine, symbol, tokens),
            State::AttributeName => attribute_name(alloc, machine, symbol, tokens),
            State::AfterAttributeName => after_attribute_name(alloc, machine, symbol, tokens),
            State::BeforeAttributeValue => before_attribute_value(alloc, machine, symbol, tokens),
            State::AttributeValueDoubleQuoted => {
                quoted_value(alloc, '"', Return::DoubleQuoted, machine, symbol, tokens)
            }
            State::AttributeValueSingleQuoted => {
                quoted_value(alloc, '\'', Return::SingleQuoted, machine, symbol, tokens)
            }
            State::AttributeValueUnquoted => unquoted_value(alloc, machine, symbol, tokens),
            State::AfterAttributeValueQuoted => after_quoted_value(alloc, machine, symbol, tokens),
            State::SelfClosingStartTag => self_closing_start_tag(alloc, machine, symbol, tokens),
            State::CharacterReference => character_reference(alloc, machine, symbol, tokens),
            State::AmbiguousAmpersand => ambiguous_ampersand(alloc, machine, symbol, tokens),
            State::NumericCharacterReference => numeric_reference(alloc, machine, symbol, tokens),
            State::HexadecimalCharacterReferenceStart => {
                let digits = State::HexadecimalCharacterReference;
                number_start(alloc, 16, digits, machine, symbol, tokens)
            }
            State::DecimalCharacterReferenceStart => {
                let digits = State::DecimalCharacterReference;
                number_start(alloc, 10, digits, machine, symbol, tokens)
            }
            State::HexadecimalCharacterReference => number(16, machine, symbol, tokens),
            State::DecimalCharacterReference => number(10, machine, symbol, tokens),
            State::NumericCharacterReferenceEnd => numeric_end(alloc, machine, symbol, tokens),
            _ => unreachable!(),
        }
    }

    ghost fine = { row_fine };
}

/// One step by the rows: a run of code points, where the state has runs, or one code point.
#[inline]
fn read<'p>(
    alloc: Global,
    state: &mut LexState,
    input: &mut Cursor<'p>,
    tokens: &mut Tokens<'p>,
) -> Result<Step, NoMemory>
    requires row { IsTrue (rows.has_row state.old.machine.state) }
    requires held { held state.old ≤ input.old.place }
    ensures step { IfOk result (λ step. (rules : Rules) → HasRows rules rows.has_row rows.row → Steps (move rules) state.old input.old tokens.old state.new input.new tokens.new step) }
    ensures held { IfOk result (λ step. held state.new ≤ input.new.place) }
{
    match state.machine.state {
        State::Data => step_in_text::<Rows, DataText>(alloc, state, input, tokens),
        State::TagName => {
            step_in_part::<Rows, TagNameText>(alloc, Part::Name, state, input, tokens)
        }
        State::AttributeName => {
            let part = Part::AttributeName;
            step_in_part::<Rows, AttributeNameText>(alloc, part, state, input, tokens)
        }
        State::AttributeValueDoubleQuoted => {
            step_in_part::<Rows, DoubleQuotedText>(alloc, Part::Value, state, input, tokens)
        }
        State::AttributeValueSingleQuoted => {
            step_in_part::<Rows, SingleQuotedText>(alloc, Part::Value, state, input, tokens)
        }
        State::AttributeValueUnquoted => {
            step_in_part::<Rows, UnquotedText>(alloc, Part::Value, state, input, tokens)
        }
        _ => step_by_row::<Rows>(alloc, state, input, tokens),
    }
}

/// This part of the lexer, over a table of names.
#[derive(Drop)]
struct Tags<'n> {
    names: &'n Names,
}

impl<'n> Lexes for Tags<'n> {
    ghost rules = { λ t. tag_rules t.names.now };

    ghost here = { spec_is_here };

    fn is_here(state: State) -> bool
        ensures { result ≡ spec_is_here state }
    {
        is_here(state)
    }

    fn step<'p>(
        &self,
        alloc: Global,
        state: &mut LexState,
        input: &mut Cursor<'p>,
        tokens: &mut Tokens<'p>,
    ) -> Result<Step, NoMemory>
        requires here { IsTrue (spec_is_here state.old.machine.state) }
        requires held { held state.old ≤ input.old.place }
        ensures step { IfOk result (λ step. Steps (move (tag_rules self.now.names.now)) state.old input.old tokens.old state.new input.new tokens.new step) }
        ensures held { IfOk result (λ step. held state.new ≤ input.new.place) }
    {
        match state.machine.state {
            State::NamedCharacterReference => named::step(alloc, state, input, self.names, tokens),
            _ => read(alloc, state, input, tokens),
        }
    }

    fn end(
        &self,
        alloc: Global,
        state: &mut LexState,
        input: &mut Cursor<'_>,
        tokens: &mut Tokens<'static>,
    ) -> Result<EndStep, NoMemory>
        requires here { IsTrue (spec_is_here state.old.machine.state) }
        requires held { held state.old ≤ input.old.place }
        requires ended { input.old.text ≡ [] }
        ensures step { IfOk result (λ step. EndSteps (tag_rules self.now.names.now) state.old input.old tokens.old state.new input.new tokens.new step) }
        ensures held { IfOk result (λ step. held state.new ≤ input.new.place) }
        ensures ended { IfOk result (λ step. input.new.text ≡ []) }
    {
        match state.machine.state {
            State::NamedCharacterReference => named::end(alloc, state, input, self.names, tokens),
            _ => end_by_row::<Rows>(alloc, state, input, tokens),
        }
    }
}

/// Whether the state is one of this part's: text, tags and character references.
#[inline]
pub fn is_here(state: State) -> bool
    ensures { result ≡ spec_is_here state }
{
    match state {
        State::Data
        | State::TagOpen
        | State::EndTagOpen
        | State::TagName
        | State::BeforeAttributeName
        | State::AttributeName
        | State::AfterAttributeName
        | State::BeforeAttributeValue
        | State::AttributeValueDoubleQuoted
        | State::AttributeValueSingleQuoted
        | State::AttributeValueUnquoted
        | State::AfterAttributeValueQuoted
        | State::SelfClosingStartTag
        | State::CharacterReference
        | State::NamedCharacterReference
        | State::AmbiguousAmpersand
        | State::NumericCharacterReference
        | State::HexadecimalCharacterReferenceStart
        | State::DecimalCharacterReferenceStart
        | State::HexadecimalCharacterReference
        | State::DecimalCharacterReference
        | State::NumericCharacterReferenceEnd => true,
        _ => false,
    }
}

/// Makes moves, from one rest to the next, and appends what they emit. `rested` is the last place at or before the first
/// token that is appended where the lexer rested. After `NoMemory` the state is spent.
#[inline]
pub fn advance<'p>(
    alloc: Global,
    state: &mut LexState,
    input: &mut Cursor<'p>,
    names: &Names,
    rested: &mut u64,
    tokens: &mut Tokens<'p>,
) -> Result<Turn, NoMemory>
    requires here { IsTrue (spec_is_here state.old.machine.state) }
    requires held { held state.old ≤ input.old.place }
    ensures turn { IfOk result (λ turn. Turned (tag_rules names.now) spec_is_here (lexing state.old input.old rested.old) tokens.old (lexing state.new input.new rested.new) tokens.new rested.new turn) }
    ensures group { IfOk result (λ turn. turn ≡ turns.Emitted → IsGroup (move (tag_rules names.now)) spec_is_here (lexing state.old input.old rested.old) tokens.old (lexing state.new input.new rested.new) tokens.new rested.new) }
    ensures held { IfOk result (λ turn. held state.new ≤ input.new.place) }
{
    if emit_reference(alloc, state, input, names, rested, tokens)? {
        return Ok(Turn::Emitted);
    }
    hp_tokens::advance(&Tags { names }, alloc, state, input, rested, tokens)
}

/// In the data state, the run of text at the front as one token, where `rested` becomes the place of its start; otherwise `None`,
/// and nothing changes. It is what `advance` does there.
#[inline]
pub fn next_text<'p>(
    state: &LexState,
    input: &mut Cursor<'p>,
    names: &Names,
    rested: &mut u64,
) -> Option<Token<'p>>
    requires held { held state.now ≤ input.old.place }
    ensures turn { IfSome result (λ token. Turned (tag_rules names.now) spec_is_here (lexing state.now input.old rested.old) [] (lexing state.now input.new rested.new) (token ∷ []) rested.new turns.Emitted) }
    ensures group { IfSome result (λ token. IsGroup (move (tag_rules names.now)) spec_is_here (lexing state.now input.old rested.old) [] (lexing state.now input.new rested.new) (token ∷ []) rested.new) }
    ensures here { IfSome result (λ token. spec_is_here state.now.machine.state ≡ true) }
    ensures none { IfNone result ((input.new ≡ input.old) × (rested.new ≡ rested.old)) }
    ensures held { held state.now ≤ input.new.place }
{
    let _names = names;
    match state.machine.state {
        State::Data => hp_tokens::next_text::<Rows, DataText>(state, input, rested),
        _ => None,
    }
}

/// In the data state, the text at the front up to the next `<`, `&`, CR or U+0000, where a CR LF pair that comes first is LF, and where
/// `rested` becomes the place of its start; otherwise `None`, and nothing changes. It is what calls of `advance` do there, with each
/// code point in a token of its own.
#[inline]
pub fn next_plain<'p>(
    state: &LexState,
    input: &mut Cursor<'p>,
    names: &Names,
    rested: &mut u64,
) -> Option<Text<'p>>
    requires held { held state.now ≤ input.old.place }
    ensures turn { IfSome result (λ text. Turned (tag_rules names.now) spec_is_here (lexing state.now input.old rested.old) [] (lexing state.now input.new rested.new) (map character text) rested.new turns.Emitted) }
    ensures here { IfSome result (λ text. spec_is_here state.now.machine.state ≡ true) }
    ensures no_nul { IfSome result (λ text. list_all (none_of (0 ∷ [])) text ≡ true) }
    ensures long { IfSome result (λ text. 0 < length text) }
    ensures none { IfNone result ((input.new ≡ input.old) × (rested.new ≡ rested.old)) }
    ensures held { held state.now ≤ input.new.place }
{
    let _names = names;
    match state.machine.state {
        State::Data => hp_tokens::next_data::<Rows>(state, input, rested),
        _ => None,
    }
}

/// Makes the moves of the end of input behind what was read ahead, and appends what they emit. After `NoMemory` the state is
/// spent.
pub fn at_end(
    alloc: Global,
    state: &mut LexState,
    names: &Names,
    tokens: &mut Tokens<'static>,
) -> Result<Turn, NoMemory>
    requires here { IsTrue (spec_is_here state.old.machine.state) }
    requires held { held state.old ≤ 2 ^ 32 }
    ensures { IfOk result (λ turn. (rested : ℕ) → EndTurned (tag_rules names.now) spec_is_here (lexing state.old end_of_text rested) tokens.old state.new tokens.new turn) }
{
    hp_tokens::at_end(&Tags { names }, alloc, state, tokens)
}

ghost use Rattle.hp_tokens.specs.Runs.{IsSteady, AnyPieces};

/// A move that is made stays made when more text follows; and so, however a text is cut into pieces, these states give the
/// same tokens, places and final state. It does nothing; its contract is the law.
pub fn any_pieces(names: &Names)
    ensures steady { IsSteady (tag_rules names.now) }
    ensures pieces { AnyPieces (tag_rules names.now) }
{
    let _names = names;
    hp_tokens::any_pieces();
}
