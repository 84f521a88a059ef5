//! The rows of doctypes, one function a state.
ghost use Rattle.std.specs.Prelude.{◌≡◌, IfOk};
ghost use Rattle.hp_tokens.specs.Rows.{Follows};
ghost use Rattle.hp_lex_markup.specs.Rows.{double_quoted as spec_double_quoted, single_quoted as spec_single_quoted, unfinished as spec_unfinished, spoiled as spec_spoiled, opened as spec_opened, finished as spec_finished};
ghost use Rattle.hp_tokens.specs.Rows.{quirky, new_doctype};
ghost use Rattle.hp_lex_markup.specs.Rows as rows;

use crate::rows::put_ascii;
use hp_elements::Tokens;
use hp_tokens::{
    Machine, NoMemory, Part, Reads, State, again, emitted, emitted_at_end, go, is_blank, put,
    put_lowered,
};
use std::alloc::Global;

/// The input ends within a doctype.
fn unfinished(
    alloc: Global,
    machine: &mut Machine,
    tokens: &mut Tokens<'_>,
) -> Result<Reads, NoMemory>
    ensures { IfOk result (Follows (spec_unfinished machine.old) tokens.old machine.new tokens.new) }
{
    machine.building.force_quirks();
    emitted_at_end(alloc, machine, tokens)
}

/// A doctype ends before it is whole.
fn finished_with_quirks(
    alloc: Global,
    machine: &mut Machine,
    tokens: &mut Tokens<'_>,
) -> Result<Reads, NoMemory>
    ensures { IfOk result (Follows (spec_finished (quirky machine.old)) tokens.old machine.new tokens.new) }
{
    machine.building.force_quirks();
    emitted(alloc, machine, State::Data, tokens)
}

/// A doctype goes on with what has no meaning there.
fn spoiled(machine: &mut Machine, tokens: &Tokens<'_>) -> Reads
    ensures { Follows (spec_spoiled machine.old) tokens.now machine.new tokens.now result }
{
    machine.building.force_quirks();
    again(machine, State::BogusDoctype)
}

/// The state of an identifier in double quotation marks.
fn double_quoted(part: Part) -> State
    ensures { result ≡ spec_double_quoted part }
{
    match part {
        Part::System => State::DoctypeSystemIdentifierDoubleQuoted,
        _ => State::DoctypePublicIdentifierDoubleQuoted,
    }
}

/// The state of an identifier in single quotation marks.
fn single_quoted(part: Part) -> State
    ensures { result ≡ spec_single_quoted part }
{
    match part {
        Part::System => State::DoctypeSystemIdentifierSingleQuoted,
        _ => State::DoctypePublicIdentifierSingleQuoted,
    }
}

/// A quotation mark opens an identifier, which is empty then.
fn opened(
    alloc: Global,
    part: Part,
    machine: &mut Machine,
    c: char,
    tokens: &Tokens<'_>,
) -> Result<Reads, NoMemory>
    ensures { IfOk result (Follows (spec_opened part machine.old c) tokens.now machine.new tokens.now) }
{
    let state = match c {
        '"' => double_quoted(part),
        '\'' => single_quoted(part),
        _ => return Ok(spoiled(machine, tokens)),
    };
    put_ascii(alloc, machine, part, "")?;
    Ok(go(machine, state))
}

/// The DOCTYPE state (13.2.5.53).
pub fn doctype(
    alloc: Global,
    machine: &mut Machine,
    symbol: Option<char>,
    tokens: &mut Tokens<'_>,
) -> Result<Reads, NoMemory>
    ensures { IfOk result (Follows (rows.doctype machine.old symbol) tokens.old machine.new tokens.new) }
{
    match symbol {
        None => {
            machine.begin_doctype();
            unfinished(alloc, machine, tokens)
        }
        Some(c) if is_blank(c) => Ok(go(machine, State::BeforeDoctypeName)),
        Some(_) => Ok(again(machine, State::BeforeDoctypeName)),
    }
}

/// The before DOCTYPE name state (13.2.5.54).
pub fn before_doctype_name(
    alloc: Global,
    machine: &mut Machine,
    symbol: Option<char>,
    tokens: &mut Tokens<'_>,
) -> Result<Reads, NoMemory>
    ensures { IfOk result (Follows (rows.before_doctype_name machine.old symbol) tokens.old machine.new tokens.new) }
{
    match symbol {
        None => {
            machine.begin_doctype();
            unfinished(alloc, machine, tokens)
        }
        Some(c) if is_blank(c) => Ok(Reads::Consume),
        Some('>') => {
            machine.begin_doctype();
            finished_with_quirks(alloc, machine, tokens)
        }
        Some(c) => {
            machine.begin_doctype();
            let _ = put_lowered(alloc, machine, Part::DoctypeName, c)?;
            Ok(go(machine, State::DoctypeName))
        }
    }
}

/// The DOCTYPE name state (13.2.5.55).
pub fn doctype_name(
    alloc: Global,
    machine: &mut Machine,
    symbol: Option<char>,
    tokens: &mut Tokens<'_>,
) -> Result<Reads, NoMemory>
    ensures { IfOk result (Follows (rows.doctype_name machine.old symbol) tokens.old machine.new tokens.new) }
{
    match symbol {
        None => unfinished(alloc, machine, tokens),
        Some(c) if is_blank(c) => Ok(go(machine, State::AfterDoctypeName)),
        Some('>') => emitted(alloc, machine, State::Data, tokens),
        Some(c) => put_lowered(alloc, machine, Part::DoctypeName, c),
    }
}

/// The after DOCTYPE name state, where no word is read (13.2.5.56).
pub fn after_doctype_name(
    alloc: Global,
    machine: &mut Machine,
    symbol: Option<char>,
    tokens: &mut Tokens<'_>,
) -> Result<Reads, NoMemory>
    ensures { IfOk result (Follows (rows.after_doctype_name machine.old symbol) tokens.old machine.new tokens.new) }
{
    match symbol {
        None => unfinished(alloc, machine, tokens),
        Some(c) if is_blank(c) => Ok(Reads::Consume),
        Some('>') => emitted(alloc, machine, State::Data, tokens),
        Some(_) => Ok(spoiled(machine, tokens)),
    }
}

/// The after DOCTYPE public keyword and system keyword states (13.2.5.57, 13.2.5.63); `before` is the state before the identifier.
pub fn after_keyword(
    alloc: Global,
    before: State,
    part: Part,
    machine: &mut Machine,
    symbol: Option<char>,
    tokens: &mut Tokens<'_>,
) -> Result<Reads, NoMemory>
    ensures { IfOk result (Follows (rows.after_keyword before part machine.old symbol) tokens.old machine.new tokens.new) }
{
    match symbol {
        None => unfinished(alloc, machine, tokens),
        Some(c) if is_blank(c) => Ok(go(machine, before)),
        Some('>') => finished_with_quirks(alloc, machine, tokens),
        Some(c) => opened(alloc, part, machine, c, tokens),
    }
}

/// The before DOCTYPE public identifier and system identifier states (13.2.5.58, 13.2.5.64).
pub fn before_identifier(
    alloc: Global,
    part: Part,
    machine: &mut Machine,
    symbol: Option<char>,
    tokens: &mut Tokens<'_>,
) -> Result<Reads, NoMemory>
    ensures { IfOk result (Follows (rows.before_identifier part machine.old symbol) tokens.old machine.new tokens.new) }
{
    match symbol {
        None => unfinished(alloc, machine, tokens),
        Some(c) if is_blank(c) => Ok(Reads::Consume),
        Some('>') => finished_with_quirks(alloc, machine, tokens),
        Some(c) => opened(alloc, part, machine, c, tokens),
    }
}

/// The DOCTYPE public and system identifier states in double and in single quotation marks (13.2.5.59, 13.2.5.60, 13.2.5.65,
/// 13.2.5.66); the quotation mark leads behind the identifier.
pub fn quoted_identifier(
    alloc: Global,
    mark: char,
    part: Part,
    after: State,
    machine: &mut Machine,
    symbol: Option<char>,
    tokens: &mut Tokens<'_>,
) -> Result<Reads, NoMemory>
    ensures { IfOk result (Follows (rows.quoted_identifier mark part after machine.old symbol) tokens.old machine.new tokens.new) }
{
    match symbol {
        None => unfinished(alloc, machine, tokens),
        Some(c) if c == mark => Ok(go(machine, after)),
        Some('>') => finished_with_quirks(alloc, machine, tokens),
        Some(c) => put(alloc, machine, part, c),
    }
}

/// The after DOCTYPE public identifier state (13.2.5.61).
pub fn after_public_identifier(
    alloc: Global,
    machine: &mut Machine,
    symbol: Option<char>,
    tokens: &mut Tokens<'_>,
) -> Result<Reads, NoMemory>
    ensures { IfOk result (Follows (rows.after_public_identifier machine.old symbol) tokens.old machine.new tokens.new) }
{
    match symbol {
        None => unfinished(alloc, machine, tokens),
        Some(c) if is_blank(c) => {
            let between = State::BetweenDoctypePublicAndSystemIdentifiers;
            Ok(go(machine, between))
        }
        Some('>') => emitted(alloc, machine, State::Data, tokens),
        Some(c) => opened(alloc, Part::System, machine, c, tokens),
    }
}

/// The between DOCTYPE public and system identifiers state (13.2.5.62).
pub fn between_identifiers(
    alloc: Global,
    machine: &mut Machine,
    symbol: Option<char>,
    tokens: &mut Tokens<'_>,
) -> Result<Reads, NoMemory>
    ensures { IfOk result (Follows (rows.between_identifiers machine.old symbol) tokens.old machine.new tokens.new) }
{
    match symbol {
        None => unfinished(alloc, machine, tokens),
        Some(c) if is_blank(c) => Ok(Reads::Consume),
        Some('>') => emitted(alloc, machine, State::Data, tokens),
        Some(c) => opened(alloc, Part::System, machine, c, tokens),
    }
}

/// The after DOCTYPE system identifier state (13.2.5.67).
pub fn after_system_identifier(
    alloc: Global,
    machine: &mut Machine,
    symbol: Option<char>,
    tokens: &mut Tokens<'_>,
) -> Result<Reads, NoMemory>
    ensures { IfOk result (Follows (rows.after_system_identifier machine.old symbol) tokens.old machine.new tokens.new) }
{
    match symbol {
        None => unfinished(alloc, machine, tokens),
        Some(c) if is_blank(c) => Ok(Reads::Consume),
        Some('>') => emitted(alloc, machine, State::Data, tokens),
        Some(_) => Ok(again(machine, State::BogusDoctype)),
    }
}

/// The bogus DOCTYPE state (13.2.5.68).
pub fn bogus_doctype(
    alloc: Global,
    machine: &mut Machine,
    symbol: Option<char>,
    tokens: &mut Tokens<'_>,
) -> Result<Reads, NoMemory>
    ensures { IfOk result (Follows (rows.bogus_doctype machine.old symbol) tokens.old machine.new tokens.new) }
{
    match symbol {
        None => emitted_at_end(alloc, machine, tokens),
        Some('>') => emitted(alloc, machine, State::Data, tokens),
        Some(_) => Ok(Reads::Consume),
    }
}
