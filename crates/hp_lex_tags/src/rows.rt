//! The rows of text and tags, one function a state.
ghost use Rattle.std.specs.Prelude.{◌≡◌, IfOk, Option};
ghost use Rattle.hp_tokens.specs.Rows.{Follows, plus, ended as spec_ended};
ghost use Rattle.hp_lex_tags.specs.Rows as rows;

use hp_elements::Tokens;
use hp_tokens::{
    Machine, NoMemory, Part, Reads, Return, State, again, emitted, emitted_char, ended, go,
    is_blank, push_char, put, put_lowered,
};
use std::alloc::Global;

/// A code point is emitted, and behind it the end of input.
fn char_at_end(
    alloc: Global,
    machine: &mut Machine,
    c: char,
    tokens: &mut Tokens<'_>,
) -> Result<Reads, NoMemory>
    ensures { IfOk result (Follows (plus c (spec_ended machine.old)) tokens.old machine.new tokens.new) }
{
    push_char(alloc, tokens, c)?;
    ended(alloc, machine, tokens)
}

/// The data state (13.2.5.1).
pub fn data(
    alloc: Global,
    machine: &mut Machine,
    symbol: Option<char>,
    tokens: &mut Tokens<'_>,
) -> Result<Reads, NoMemory>
    ensures { IfOk result (Follows (rows.data_row machine.old symbol) tokens.old machine.new tokens.new) }
{
    match symbol {
        None => ended(alloc, machine, tokens),
        Some('&') => {
            machine.return_to = Return::Data;
            Ok(go(machine, State::CharacterReference))
        }
        Some('<') => Ok(go(machine, State::TagOpen)),
        Some(c) => emitted_char(alloc, machine, tokens, c),
    }
}

/// The tag open state (13.2.5.6).
pub fn tag_open(
    alloc: Global,
    machine: &mut Machine,
    symbol: Option<char>,
    tokens: &mut Tokens<'_>,
) -> Result<Reads, NoMemory>
    ensures { IfOk result (Follows (rows.tag_open machine.old symbol) tokens.old machine.new tokens.new) }
{
    match symbol {
        Some('!') => Ok(go(machine, State::MarkupDeclarationOpen)),
        Some('/') => Ok(go(machine, State::EndTagOpen)),
        Some(c) if c.is_ascii_alphabetic() => {
            machine.begin_start_tag();
            Ok(again(machine, State::TagName))
        }
        Some('?') => {
            machine.begin_comment();
            Ok(again(machine, State::BogusComment))
        }
        Some(_) => {
            push_char(alloc, tokens, '<')?;
            Ok(again(machine, State::Data))
        }
        None => char_at_end(alloc, machine, '<', tokens),
    }
}

/// The end tag open state (13.2.5.7).
pub fn end_tag_open(
    alloc: Global,
    machine: &mut Machine,
    symbol: Option<char>,
    tokens: &mut Tokens<'_>,
) -> Result<Reads, NoMemory>
    ensures { IfOk result (Follows (rows.end_tag_open machine.old symbol) tokens.old machine.new tokens.new) }
{
    match symbol {
        Some(c) if c.is_ascii_alphabetic() => {
            machine.begin_end_tag();
            Ok(again(machine, State::TagName))
        }
        Some('>') => Ok(go(machine, State::Data)),
        Some(_) => {
            machine.begin_comment();
            Ok(again(machine, State::BogusComment))
        }
        None => {
            push_char(alloc, tokens, '<')?;
            char_at_end(alloc, machine, '/', tokens)
        }
    }
}

/// The tag name state (13.2.5.8).
pub fn tag_name(
    alloc: Global,
    machine: &mut Machine,
    symbol: Option<char>,
    tokens: &mut Tokens<'_>,
) -> Result<Reads, NoMemory>
    ensures { IfOk result (Follows (rows.tag_name machine.old symbol) tokens.old machine.new tokens.new) }
{
    match symbol {
        None => ended(alloc, machine, tokens),
        Some(c) if is_blank(c) => Ok(go(machine, State::BeforeAttributeName)),
        Some('/') => Ok(go(machine, State::SelfClosingStartTag)),
        Some('>') => emitted(alloc, machine, State::Data, tokens),
        Some(c) => put_lowered(alloc, machine, Part::Name, c),
    }
}

/// The before attribute name state (13.2.5.32).
pub fn before_attribute_name(
    alloc: Global,
    machine: &mut Machine,
    symbol: Option<char>,
    tokens: &mut Tokens<'_>,
) -> Result<Reads, NoMemory>
    ensures { IfOk result (Follows (rows.before_attribute_name machine.old symbol) tokens.old machine.new tokens.new) }
{
    match symbol {
        Some(c) if is_blank(c) => Ok(Reads::Consume),
        None | Some('/' | '>') => Ok(again(machine, State::AfterAttributeName)),
        Some('=') => {
            machine.begin_attribute(alloc)?;
            machine.put(alloc, Part::AttributeName, '=')?;
            Ok(go(machine, State::AttributeName))
        }
        Some(_) => {
            machine.begin_attribute(alloc)?;
            Ok(again(machine, State::AttributeName))
        }
    }
}

/// The attribute name state (13.2.5.33).
pub fn attribute_name(
    alloc: Global,
    machine: &mut Machine,
    symbol: Option<char>,
    tokens: &mut Tokens<'_>,
) -> Result<Reads, NoMemory>
    ensures { IfOk result (Follows (rows.attribute_name machine.old symbol) tokens.old machine.new tokens.new) }
{
    match symbol {
        Some(c) if is_blank(c) => Ok(again(machine, State::AfterAttributeName)),
        None | Some('/' | '>') => Ok(again(machine, State::AfterAttributeName)),
        Some('=') => Ok(go(machine, State::BeforeAttributeValue)),
        Some(c) => put_lowered(alloc, machine, Part::AttributeName, c),
    }
}

/// The after attribute name state (13.2.5.34).
pub fn after_attribute_name(
    alloc: Global,
    machine: &mut Machine,
    symbol: Option<char>,
    tokens: &mut Tokens<'_>,
) -> Result<Reads, NoMemory>
    ensures { IfOk result (Follows (rows.after_attribute_name machine.old symbol) tokens.old machine.new tokens.new) }
{
    match symbol {
        None => ended(alloc, machine, tokens),
        Some(c) if is_blank(c) => Ok(Reads::Consume),
        Some('/') => Ok(go(machine, State::SelfClosingStartTag)),
        Some('=') => Ok(go(machine, State::BeforeAttributeValue)),
        Some('>') => emitted(alloc, machine, State::Data, tokens),
        Some(_) => {
            machine.begin_attribute(alloc)?;
            Ok(again(machine, State::AttributeName))
        }
    }
}

/// The before attribute value state (13.2.5.35).
pub fn before_attribute_value(
    alloc: Global,
    machine: &mut Machine,
    symbol: Option<char>,
    tokens: &mut Tokens<'_>,
) -> Result<Reads, NoMemory>
    ensures { IfOk result (Follows (rows.before_attribute_value machine.old symbol) tokens.old machine.new tokens.new) }
{
    match symbol {
        Some(c) if is_blank(c) => Ok(Reads::Consume),
        Some('"') => Ok(go(machine, State::AttributeValueDoubleQuoted)),
        Some('\'') => Ok(go(machine, State::AttributeValueSingleQuoted)),
        Some('>') => emitted(alloc, machine, State::Data, tokens),
        None | Some(_) => Ok(again(machine, State::AttributeValueUnquoted)),
    }
}

/// The attribute value states in double and in single quotation marks (13.2.5.36, 13.2.5.37).
pub fn quoted_value(
    alloc: Global,
    mark: char,
    here: Return,
    machine: &mut Machine,
    symbol: Option<char>,
    tokens: &mut Tokens<'_>,
) -> Result<Reads, NoMemory>
    ensures { IfOk result (Follows (rows.quoted_value mark here machine.old symbol) tokens.old machine.new tokens.new) }
{
    match symbol {
        None => ended(alloc, machine, tokens),
        Some(c) if c == mark => Ok(go(machine, State::AfterAttributeValueQuoted)),
        Some('&') => {
            machine.return_to = here;
            Ok(go(machine, State::CharacterReference))
        }
        Some(c) => put(alloc, machine, Part::Value, c),
    }
}

/// The attribute value (unquoted) state (13.2.5.38).
pub fn unquoted_value(
    alloc: Global,
    machine: &mut Machine,
    symbol: Option<char>,
    tokens: &mut Tokens<'_>,
) -> Result<Reads, NoMemory>
    ensures { IfOk result (Follows (rows.unquoted_value machine.old symbol) tokens.old machine.new tokens.new) }
{
    match symbol {
        None => ended(alloc, machine, tokens),
        Some(c) if is_blank(c) => Ok(go(machine, State::BeforeAttributeName)),
        Some('&') => {
            machine.return_to = Return::Unquoted;
            Ok(go(machine, State::CharacterReference))
        }
        Some('>') => emitted(alloc, machine, State::Data, tokens),
        Some(c) => put(alloc, machine, Part::Value, c),
    }
}

/// The after attribute value (quoted) state (13.2.5.39).
pub fn after_quoted_value(
    alloc: Global,
    machine: &mut Machine,
    symbol: Option<char>,
    tokens: &mut Tokens<'_>,
) -> Result<Reads, NoMemory>
    ensures { IfOk result (Follows (rows.after_quoted_value machine.old symbol) tokens.old machine.new tokens.new) }
{
    match symbol {
        None => ended(alloc, machine, tokens),
        Some(c) if is_blank(c) => Ok(go(machine, State::BeforeAttributeName)),
        Some('/') => Ok(go(machine, State::SelfClosingStartTag)),
        Some('>') => emitted(alloc, machine, State::Data, tokens),
        Some(_) => Ok(again(machine, State::BeforeAttributeName)),
    }
}

/// The self-closing start tag state (13.2.5.40).
pub fn self_closing_start_tag(
    alloc: Global,
    machine: &mut Machine,
    symbol: Option<char>,
    tokens: &mut Tokens<'_>,
) -> Result<Reads, NoMemory>
    ensures { IfOk result (Follows (rows.self_closing_start_tag machine.old symbol) tokens.old machine.new tokens.new) }
{
    match symbol {
        None => ended(alloc, machine, tokens),
        Some('>') => {
            machine.building.self_close();
            emitted(alloc, machine, State::Data, tokens)
        }
        Some(_) => Ok(again(machine, State::BeforeAttributeName)),
    }
}
