//! The moves of this part of the lexer.
ghost use Rattle.std.specs.Prelude.{◌≡◌, ◌≤◌, ◌^◌, ℕ, [], Option, IfOk, IsTrue};
ghost use Rattle.hp_tokens.specs.declared.machine.Machine.{Machine};
ghost use Rattle.hp_tokens.specs.declared.state.State.{State};
ghost use Rattle.hp_tokens.specs.Rows.{Follows};
ghost use Rattle.hp_tokens.specs.Ranks.{IsFine};
ghost use Rattle.hp_tokens.specs.Advancing.{held, lexing, end_of_text, HasRows, Steps, EndSteps, Turned, EndTurned, IsGroup};
ghost use Rattle.hp_tokens.specs.declared.rows.Turn.TheVariants as turns;
ghost use Rattle.hp_tokens.specs.Moves.{Rules, move};
ghost use Rattle.hp_tokens.specs.Runs.{IsSteady, AnyPieces};
ghost use Rattle.hp_lex_markup.specs.Rows as rows;
ghost use Rattle.hp_lex_markup.specs.Fine.{row_fine};
ghost use Rattle.hp_lex_markup.specs.Rows.{is_here as spec_is_here};
ghost use Rattle.hp_lex_markup.specs.Markup.{markup_rules};

use crate::comments::{
    bogus_comment, comment, comment_bang, comment_bang_dash_dash, comment_end, comment_end_bang,
    comment_end_dash, comment_less_than_sign, comment_start, comment_start_dash,
    markup_declaration,
};
use crate::doctypes::{
    after_doctype_name, after_keyword, after_public_identifier, after_system_identifier,
    before_doctype_name, before_identifier, between_identifiers, bogus_doctype, doctype,
    doctype_name, quoted_identifier,
};
use crate::rows::{cdata_section, cdata_section_bracket, cdata_section_end};
use crate::words;
use hp_elements::Tokens;
use hp_tokens::{
    BogusCommentText, CdataText, CommentText, Cursor, EndStep, LexState, Lexes, Machine, NoMemory,
    Part, Reads, State, Step, Table, Turn, end_by_row, step_by_row, step_in_part, step_in_text,
};
use std::alloc::Global;

/// The row of the machine's state.
pub fn row(
    alloc: Global,
    machine: &mut Machine,
    symbol: Option<char>,
    tokens: &mut Tokens<'_>,
) -> Result<Reads, NoMemory>
    requires { IsTrue (spec_is_here machine.old.state) }
    ensures { IfOk result (Follows (rows.row machine.old symbol) tokens.old machine.new tokens.new) }
{
    match machine.state {
        State::BogusComment => bogus_comment(alloc, machine, symbol, tokens),
        State::MarkupDeclarationOpen => Ok(markup_declaration(machine, symbol, tokens)),
        State::CommentStart => comment_start(alloc, machine, symbol, tokens),
        State::CommentStartDash => comment_start_dash(alloc, machine, symbol, tokens),
        State::Comment => comment(alloc, machine, symbol, tokens),
        State::CommentLessThanSign => comment_less_than_sign(alloc, machine, symbol, tokens),
        State::CommentLessThanSignBang => {
            let further = State::CommentLessThanSignBangDash;
            Ok(comment_bang(further, State::Comment, machine, symbol, tokens))
        }
        State::CommentLessThanSignBangDash => {
            let further = State::CommentLessThanSignBangDashDash;
            Ok(comment_bang(further, State::CommentEndDash, machine, symbol, tokens))
        }
        State::CommentLessThanSignBangDashDash => {
            Ok(comment_bang_dash_dash(machine, symbol, tokens))
        }
        State::CommentEndDash => comment_end_dash(alloc, machine, symbol, tokens),
        State::CommentEnd => comment_end(alloc, machine, symbol, tokens),
        State::CommentEndBang => comment_end_bang(alloc, machine, symbol, tokens),
        State::CdataSection => cdata_section(alloc, machine, symbol, tokens),
        State::CdataSectionBracket => cdata_section_bracket(alloc, machine, symbol, tokens),
        State::CdataSectionEnd => cdata_section_end(alloc, machine, symbol, tokens),
        State::Doctype => doctype(alloc, machine, symbol, tokens),
        State::BeforeDoctypeName => before_doctype_name(alloc, machine, symbol, tokens),
        State::DoctypeName => doctype_name(alloc, machine, symbol, tokens),
        State::AfterDoctypeName => after_doctype_name(alloc, machine, symbol, tokens),
        State::AfterDoctypePublicKeyword => {
            let before = State::BeforeDoctypePublicIdentifier;
            after_keyword(alloc, before, Part::Public, machine, symbol, tokens)
        }
        State::BeforeDoctypePublicIdentifier => {
            before_identifier(alloc, Part::Public, machine, symbol, tokens)
        }
        State::AfterDoctypePublicIdentifier => {
            after_public_identifier(alloc, machine, symbol, tokens)
        }
        State::BetweenDoctypePublicAndSystemIdentifiers => {
            between_identifiers(alloc, machine, symbol, tokens)
        }
        State::AfterDoctypeSystemKeyword => {
            let before = State::BeforeDoctypeSystemIdentifier;
            after_keyword(alloc, before, Part::System, machine, symbol, tokens)
        }
        State::BeforeDoctypeSystemIdentifier => {
            before_identifier(alloc, Part::System, machine, symbol, tokens)
        }
        State::AfterDoctypeSystemIdentifier => {
            after_system_identifier(alloc, machine, symbol, tokens)
        }
        State::BogusDoctype => bogus_doctype(alloc, machine, symbol, tokens),
        State::DoctypePublicIdentifierDoubleQuoted => {
            quoted_identifier(
                alloc,
                '"',
                Part::Public,
                State::AfterDoctypePublicIdentifier,
                machine,
                symbol,
                tokens,
            )
        }
        State::DoctypePublicIdentifierSingleQuoted => {
            quoted_identifier(
                alloc,
                '\'',
                Part::Public,
                State::AfterDoctypePublicIdentifier,
                machine,
                symbol,
                tokens,
            )
        }
        State::DoctypeSystemIdentifierDoubleQuoted => {
            quoted_identifier(
                alloc,
                '"',
                Part::System,
                State::AfterDoctypeSystemIdentifier,
                machine,
                symbol,
                tokens,
            )
        }
        State::DoctypeSystemIdentifierSingleQuoted => {
            quoted_identifier(
                alloc,
                '\'',
                Part::System,
                State::AfterDoctypeSystemIdentifier,
                machine,
                symbol,
                tokens,
            )
        }
        _ => unreachable!(),
    }
}

/// The rows of this part.
#[derive(Drop)]
struct Rows;

impl Table for Rows {
    ghost row_of = { rows.row };

    ghost has_row = { rows.has_row };

    fn row(
        alloc: Global,
        machine: &mut Machine,
        symbol: Option<char>,
        tokens: &mut Tokens<'_>,
    ) -> Result<Reads, NoMemory>
        requires { IsTrue (rows.has_row machine.old.state) }
        ensures { IfOk result (Follows (rows.row machine.old symbol) tokens.old machine.new tokens.new) }
    {
        row(alloc, machine, symbol, tokens)
    }

    ghost fine = { row_fine };
}

/// One step by the rows: a run of text where there is one.
fn step_by_rows<'p>(
    alloc: Global,
    state: &mut LexState,
    input: &mut Cursor<'p>,
    tokens: &mut Tokens<'p>,
) -> Result<Step, NoMemory>
    requires row { IsTrue (rows.has_row state.old.machine.state) }
    requires held { held state.old ≤ input.old.place }
    ensures step { IfOk result (λ step. (rules : Rules) → HasRows rules rows.has_row rows.row → Steps (move rules) state.old input.old tokens.old state.new input.new tokens.new step) }
    ensures held { IfOk result (λ step. held state.new ≤ input.new.place) }
{
    match state.machine.state {
        State::Comment => {
            step_in_part::<Rows, CommentText>(alloc, Part::Comment, state, input, tokens)
        }
        State::BogusComment => {
            step_in_part::<Rows, BogusCommentText>(alloc, Part::Comment, state, input, tokens)
        }
        State::CdataSection => step_in_text::<Rows, CdataText>(alloc, state, input, tokens),
        _ => step_by_row::<Rows>(alloc, state, input, tokens),
    }
}

/// This part of the lexer.
#[derive(Drop)]
struct Markup;

impl Lexes for Markup {
    ghost rules = { λ m. markup_rules };

    ghost here = { spec_is_here };

    fn is_here(state: State) -> bool
        ensures { result ≡ spec_is_here state }
    {
        is_here(state)
    }

    fn step<'p>(
        &self,
        alloc: Global,
        state: &mut LexState,
        input: &mut Cursor<'p>,
        tokens: &mut Tokens<'p>,
    ) -> Result<Step, NoMemory>
        requires here { IsTrue (spec_is_here state.old.machine.state) }
        requires held { held state.old ≤ input.old.place }
        ensures step { IfOk result (λ step. Steps (move markup_rules) state.old input.old tokens.old state.new input.new tokens.new step) }
        ensures held { IfOk result (λ step. held state.new ≤ input.new.place) }
    {
        if reads_word(state.machine.state) {
            return words::step(alloc, state, input, tokens);
        }
        step_by_rows(alloc, state, input, tokens)
    }

    fn end(
        &self,
        alloc: Global,
        state: &mut LexState,
        input: &mut Cursor<'_>,
        tokens: &mut Tokens<'static>,
    ) -> Result<EndStep, NoMemory>
        requires here { IsTrue (spec_is_here state.old.machine.state) }
        requires held { held state.old ≤ input.old.place }
        requires ended { input.old.text ≡ [] }
        ensures step { IfOk result (λ step. EndSteps markup_rules state.old input.old tokens.old state.new input.new tokens.new step) }
        ensures held { IfOk result (λ step. held state.new ≤ input.new.place) }
        ensures ended { IfOk result (λ step. input.new.text ≡ []) }
    {
        if reads_word(state.machine.state) {
            return words::end(alloc, state, input, tokens);
        }
        end_by_row::<Rows>(alloc, state, input, tokens)
    }
}

/// Whether the state is one of this part's: markup declarations, comments, doctypes and CDATA sections.
pub fn is_here(state: State) -> bool
    ensures { result ≡ spec_is_here state }
{
    match state {
        State::BogusComment
        | State::MarkupDeclarationOpen
        | State::CommentStart
        | State::CommentStartDash
        | State::Comment
        | State::CommentLessThanSign
        | State::CommentLessThanSignBang
        | State::CommentLessThanSignBangDash
        | State::CommentLessThanSignBangDashDash
        | State::CommentEndDash
        | State::CommentEnd
        | State::CommentEndBang
        | State::CdataSection
        | State::CdataSectionBracket
        | State::CdataSectionEnd => true,
        _ => in_doctype(state),
    }
}

/// Whether the state is one of a doctype's.
fn in_doctype(state: State) -> bool
    ensures { result ≡ rows.in_doctype state }
{
    match state {
        State::Doctype
        | State::BeforeDoctypeName
        | State::DoctypeName
        | State::AfterDoctypeName
        | State::AfterDoctypePublicKeyword
        | State::BeforeDoctypePublicIdentifier
        | State::AfterDoctypePublicIdentifier
        | State::BetweenDoctypePublicAndSystemIdentifiers
        | State::AfterDoctypeSystemKeyword
        | State::BeforeDoctypeSystemIdentifier
        | State::AfterDoctypeSystemIdentifier
        | State::DoctypePublicIdentifierDoubleQuoted
        | State::DoctypePublicIdentifierSingleQuoted
        | State::DoctypeSystemIdentifierDoubleQuoted
        | State::DoctypeSystemIdentifierSingleQuoted
        | State::BogusDoctype => true,
        _ => false,
    }
}

/// Whether a word may be read in the state.
fn reads_word(state: State) -> bool
    ensures { result ≡ rows.reads_word state }
{
    match state {
        State::MarkupDeclarationOpen | State::AfterDoctypeName => true,
        _ => false,
    }
}

/// Makes moves, from one rest to the next, and appends what they emit. `rested` is the last place at or before the first
/// token that is appended where the lexer rested. After `NoMemory` the state is spent.
pub fn advance<'p>(
    alloc: Global,
    state: &mut LexState,
    input: &mut Cursor<'p>,
    rested: &mut u64,
    tokens: &mut Tokens<'p>,
) -> Result<Turn, NoMemory>
    requires here { IsTrue (spec_is_here state.old.machine.state) }
    requires held { held state.old ≤ input.old.place }
    ensures turn { IfOk result (λ turn. Turned markup_rules spec_is_here (lexing state.old input.old rested.old) tokens.old (lexing state.new input.new rested.new) tokens.new rested.new turn) }
    ensures group { IfOk result (λ turn. turn ≡ turns.Emitted → IsGroup (move markup_rules) spec_is_here (lexing state.old input.old rested.old) tokens.old (lexing state.new input.new rested.new) tokens.new rested.new) }
    ensures held { IfOk result (λ turn. held state.new ≤ input.new.place) }
{
    hp_tokens::advance(&Markup, alloc, state, input, rested, tokens)
}

/// Makes the moves of the end of input behind what was read ahead, and appends what they emit. After `NoMemory` the state is
/// spent.
pub fn at_end(
    alloc: Global,
    state: &mut LexState,
    tokens: &mut Tokens<'static>,
) -> Result<Turn, NoMemory>
    requires here { IsTrue (spec_is_here state.old.machine.state) }
    requires held { held state.old ≤ 2 ^ 32 }
    ensures { IfOk result (λ turn. (rested : ℕ) → EndTurned markup_rules spec_is_here (lexing state.old end_of_text rested) tokens.old state.new tokens.new turn) }
{
    hp_tokens::at_end(&Markup, alloc, state, tokens)
}

/// A move that is made stays made when more text follows; and so, however a text is cut into pieces, these states give the
/// same tokens, places and final state. It does nothing; its contract is the law.
pub fn any_pieces()
    ensures steady { IsSteady markup_rules }
    ensures pieces { AnyPieces markup_rules }
{
    hp_tokens::any_pieces();
}
