//! The usual tag, read straight from the page: what the rows do code point by code point, at once.
ghost use Rattle.std.specs.Prelude.{◌≡◌, ◌≢◌, ◌≤◌, ◌<◌, ℕ, List, [], Some, None, OnOk, IfOk, IfSome, IfNone, true, false, refl};
ghost use Rattle.std.specs.Str.{chars};
ghost use Rattle.hp_names.specs.References.{Reference};
ghost use Rattle.hp_tokens.specs.declared.state.State.TheVariants as states;
ghost use Rattle.hp_tokens.specs.declared.building.Building.TheVariants as building;
ghost use Rattle.hp_tokens.specs.Reading.{first, opens_start_tag, opens_end_tag};
ghost use Rattle.hp_tokens.specs.Parts.{added};
ghost use Rattle.hp_tokens.specs.Advancing.{held, lexing};
ghost use Rattle.hp_lex_tags.specs.Tags.{TagTurned};
ghost use Rattle.hp_lex_tags.specs.Straight.{Reading, tagging, tag_of, ends_part, is_between, behind_blanks as spec_behind_blanks, IsQuoted, BeginsBy, NameTaken, ValueGrows, ValueKept, Arrives, Continues, TagGrows, TagRead};
ghost use Rattle.hp_lex_tags.specs.declared.straight.Way.TheVariants as ways;
ghost use Rattle.hp_tokens.specs.Plain.{none_of, tag_name_stops, attribute_name_stops};
ghost use Rattle.hp_tokens.specs.PlainLaws.{none-high};

use crate::attribute_name::AttributeNameBytes;
use crate::usual_reference::take_reference;
use hp_elements::{Attribute, AttributeSpace, Chain, Name, Namespace, Tag, Text, Token};
use hp_names::Names;
use hp_tokens::{
    AnyTagNameText, Cursor, DoubleQuotedText, LexState, LongRun, Machine, NoMemory, OwnedText, Run,
    SingleQuotedText, State, UnquotedText, add,
};
use std::alloc::Global;

/// The name of a tag, in any case. Most of its bytes are letters, which stand above `>`.
#[derive(Drop)]
struct TagNameBytes;

impl Run for TagNameBytes {
    ghost passes = { none_of tag_name_stops };

    #[inline]
    fn passes(byte: u8) -> bool
        ensures { result ≡ none_of tag_name_stops byte }
    {
        byte > b'>' || AnyTagNameText::passes(byte)
    }

    ghost high = { none-high tag_name_stops refl };

    ghost no_cr = { refl };
}

/// How far a tag was read.
#[derive(Clone, Copy)]
enum Way {
    /// On, in this state, which stands between two attributes.
    At(State),
    /// To the end.
    Whole { self_closing: bool },
    /// Not to its end: it is for the rows.
    Left,
}

/// The attribute with that name and value goes behind the others, unless one of them has its name. The first one needs no
/// look at the others.
#[inline(always)]
fn keep(
    alloc: Global,
    attributes: &mut Chain<Attribute>,
    name: Name,
    value: Text<'static>,
) -> Result<(), NoMemory>
    ensures { OnOk result (attributes.new ≡ added attributes.old (Some (record { name = name; value = value.entry }))) }
{
    let space = AttributeSpace::Plain;
    if attributes.is_empty() {
        attributes.push(alloc, Attribute { space, name, value })?;
        return Ok(());
    }
    add(alloc, attributes, Attribute { space, name, value })
}

/// Whether the next code point begins a run.
#[inline]
fn begins<R: Run>(input: &Cursor<'_>) -> bool
    ensures { result ≡ true → BeginsBy R.passes input.now.text }
{
    match input.front() {
        Some(byte) => R::passes(byte),
        None => false,
    }
}

/// What ends the tag, if it comes next: `>`, or `/` and `>`.
#[inline]
fn close(input: &mut Cursor<'_>, state: State) -> Way
    requires { ends_part state ≡ true }
    ensures { (names : List Reference) (reading : Reading) → Arrives names state (building.StartTag (tag_of reading)) input.old reading input.new result }
{
    if input.take_byte(b'>') {
        return Way::Whole {
            self_closing: false,
        };
    }
    if !input.take_byte(b'/') {
        return Way::Left;
    }
    if input.take_byte(b'>') {
        return Way::Whole { self_closing: true };
    }
    Way::Left
}

/// The state behind blanks.
#[inline]
fn behind_blanks(state: State) -> State
    ensures { result ≡ spec_behind_blanks state }
{
    match state {
        State::AttributeName | State::AfterAttributeName => State::AfterAttributeName,
        _ => State::BeforeAttributeName,
    }
}

/// What stands behind a name: blanks, or what ends the tag.
#[inline]
fn behind(input: &mut Cursor<'_>, state: State) -> Way
    requires { ends_part state ≡ true }
    ensures { (names : List Reference) (reading : Reading) → Arrives names state (building.StartTag (tag_of reading)) input.old reading input.new result }
{
    if input.take_byte(b'>') {
        return Way::Whole {
            self_closing: false,
        };
    }
    if input.skip_blanks() {
        return Way::At(behind_blanks(state));
    }
    close(input, state)
}

/// The same behind a value in quotes, where the next name may stand at once.
#[inline]
fn behind_quoted(input: &mut Cursor<'_>) -> Way
    ensures { (names : List Reference) (reading : Reading) → Continues names input.old reading input.new result }
{
    if input.take_byte(b'>') {
        return Way::Whole {
            self_closing: false,
        };
    }
    if input.skip_blanks() {
        return Way::At(State::BeforeAttributeName);
    }
    if begins::<AttributeNameBytes>(input) {
        return Way::At(State::BeforeAttributeName);
    }
    close(input, State::AfterAttributeValueQuoted)
}

/// The same behind a value without quotes, where `/` ends nothing.
#[inline]
fn behind_unquoted(input: &mut Cursor<'_>) -> Way
    ensures { (names : List Reference) (reading : Reading) → Arrives names states.AttributeValueUnquoted (building.StartTag (tag_of reading)) input.old reading input.new result }
{
    if input.skip_blanks() {
        return Way::At(State::BeforeAttributeName);
    }
    if input.take_byte(b'>') {
        return Way::Whole {
            self_closing: false,
        };
    }
    Way::Left
}

/// The rest of a value in quotes, while references come next that are decided whatever follows.
fn read_references<R: Run>(
    alloc: Global,
    names: &Names,
    value: &mut Text<'static>,
    input: &mut Cursor<'_>,
    mark: u8,
    state: State,
) -> Result<(), NoMemory>
    requires quoted { IsQuoted R.passes mark state }
    ensures { OnOk result (ValueGrows names.now state value.old input.old value.new input.new) }
{
    let _quoted = (mark, state);
    'parts: while let Some(c) = take_reference(names, input) {
        value.push(alloc, c)?;
        value.push_str(alloc, input.take_run::<R>())?;
    }
    Ok(())
}

/// A value in quotes, behind its first run.
#[inline(never)]
fn read_behind_run<R: Run>(
    alloc: Global,
    names: &Names,
    attributes: &mut Chain<Attribute>,
    name: Name,
    value: Text<'static>,
    input: &mut Cursor<'_>,
    mark: u8,
    state: State,
) -> Result<Way, NoMemory>
    requires ascii { mark < 128 }
    requires quoted { IsQuoted R.passes mark state }
    ensures { IfOk result (ValueKept names.now state name value.entry attributes.old input.old attributes.new input.new) }
{
    let mut value = value;
    read_references::<R>(alloc, names, &mut value, input, mark, state)?;
    keep(alloc, attributes, name, value)?;
    if input.take_byte(mark) {
        return Ok(behind_quoted(input));
    }
    Ok(Way::Left)
}

/// A value in quotes, behind the first of them.
#[inline]
fn read_quoted<R: LongRun>(
    alloc: Global,
    names: &Names,
    attributes: &mut Chain<Attribute>,
    name: Name,
    input: &mut Cursor<'_>,
    mark: u8,
    state: State,
) -> Result<Way, NoMemory>
    requires ascii { mark < 128 }
    requires quoted { IsQuoted R.passes mark state }
    ensures { IfOk result (ValueKept names.now state name [] attributes.old input.old attributes.new input.new) }
{
    let run = input.take_long_run::<R>();
    let value = Text::from_str(alloc, run)?;
    if input.take_byte(mark) {
        keep(alloc, attributes, name, value)?;
        return Ok(behind_quoted(input));
    }
    read_behind_run::<R>(alloc, names, attributes, name, value, input, mark, state)
}

/// The value of an attribute, behind its `=`, where it is not in double quotes.
#[inline(never)]
fn read_other_value(
    alloc: Global,
    names: &Names,
    attributes: &mut Chain<Attribute>,
    name: Name,
    input: &mut Cursor<'_>,
) -> Result<Way, NoMemory>
    requires other { first input.old.text ≢ Some 34 }
    ensures { IfOk result (ValueKept names.now states.BeforeAttributeValue name [] attributes.old input.old attributes.new input.new) }
{
    if input.take_byte(b'\'') {
        let state = State::AttributeValueSingleQuoted;
        return read_quoted::<SingleQuotedText>(alloc, names, attributes, name, input, b'\'', state);
    }
    if begins::<UnquotedText>(input) {
        let value = Text::from_str(alloc, input.take_run::<UnquotedText>())?;
        keep(alloc, attributes, name, value)?;
        return Ok(behind_unquoted(input));
    }
    keep(alloc, attributes, name, Text::new())?;
    Ok(Way::Left)
}

/// The value of an attribute, behind its `=`.
#[inline]
fn read_value(
    alloc: Global,
    names: &Names,
    attributes: &mut Chain<Attribute>,
    name: Name,
    input: &mut Cursor<'_>,
) -> Result<Way, NoMemory>
    ensures { IfOk result (ValueKept names.now states.BeforeAttributeValue name [] attributes.old input.old attributes.new input.new) }
{
    if input.take_byte(b'"') {
        let state = State::AttributeValueDoubleQuoted;
        return read_quoted::<DoubleQuotedText>(alloc, names, attributes, name, input, b'"', state);
    }
    read_other_value(alloc, names, attributes, name, input)
}

/// An attribute, whose name begins here.
#[inline(never)]
fn read_attribute(
    alloc: Global,
    names: &Names,
    attributes: &mut Chain<Attribute>,
    input: &mut Cursor<'_>,
    state: State,
) -> Result<Way, NoMemory>
    requires between { is_between state ≡ true }
    requires name { BeginsBy (none_of attribute_name_stops) input.old.text }
    ensures { IfOk result (TagGrows names.now state attributes.old input.old attributes.new input.new) }
{
    let _state = state;
    let name = Name::from_lowered(alloc, input.take_long_run::<AttributeNameBytes>())?;
    if input.take_byte(b'=') {
        return read_value(alloc, names, attributes, name, input);
    }
    keep(alloc, attributes, name, Text::new())?;
    Ok(behind(input, State::AttributeName))
}

/// The attributes, and what ends the tag.
fn read_attributes(
    alloc: Global,
    names: &Names,
    attributes: &mut Chain<Attribute>,
    input: &mut Cursor<'_>,
    state: State,
) -> Result<Way, NoMemory>
    requires { is_between state ≡ true }
    ensures { IfOk result (TagGrows names.now state attributes.old input.old attributes.new input.new) }
{
    let mut now = state;
    'attributes: while begins::<AttributeNameBytes>(input) {
        let way = read_attribute(alloc, names, attributes, input, now)?;
        match way {
            Way::At(next) => now = next,
            _ => return Ok(way),
        }
    }
    Ok(close(input, now))
}

/// What follows the name of a start tag.
#[inline]
fn read_rest(
    alloc: Global,
    names: &Names,
    attributes: &mut Chain<Attribute>,
    input: &mut Cursor<'_>,
) -> Result<Way, NoMemory>
    ensures { IfOk result (TagGrows names.now states.TagName attributes.old input.old attributes.new input.new) }
{
    let way = behind(input, State::TagName);
    match way {
        Way::At(state) => read_attributes(alloc, names, attributes, input, state),
        _ => Ok(way),
    }
}

/// The name is the last start tag's.
#[inline]
fn tell_last(alloc: Global, machine: &mut Machine, name: &Name) -> Result<(), NoMemory>
    ensures { OnOk result (machine.new ≡ record machine.old { last_tag = Some name.now }) }
{
    match &mut machine.last_tag {
        Some(last) => last.set_name(alloc, name),
        None => {
            let mut last = OwnedText::new();
            last.set_name(alloc, name)?;
            machine.last_tag = Some(last);
            Ok(())
        }
    }
}

/// The name of a tag, in lower case.
#[inline(always)]
fn read_name(alloc: Global, input: &mut Cursor<'_>) -> Result<Name, NoMemory>
    ensures { IfOk result (λ name. NameTaken input.old name input.new) }
{
    Name::from_lowered(alloc, input.take_run::<TagNameBytes>())
}

/// What follows the name of a start tag, and whether it closes itself; the machine stands behind it. `None` where the rows go on.
#[inline(always)]
fn read_behind_name(
    alloc: Global,
    names: &Names,
    machine: &mut Machine,
    name: &Name,
    attributes: &mut Chain<Attribute>,
    input: &mut Cursor<'_>,
) -> Result<Option<bool>, NoMemory>
    requires clear { machine.old.after_cr ≡ false }
    ensures read { IfOk result (λ end. IfSome end (λ closing. TagGrows names.now states.TagName attributes.old input.old attributes.new input.new (ways.Whole closing))) }
    ensures behind { IfOk result (λ end. IfSome end (λ closing. machine.new ≡ tagging (Some name.now) states.Data building.Nothing)) }
    ensures left { IfOk result (λ end. IfNone end (machine.new ≡ machine.old)) }
{
    let way = read_rest(alloc, names, attributes, input)?;
    if let Way::Whole { self_closing } = way {
        tell_last(alloc, machine, name)?;
        machine.enter(State::Data);
        return Ok(Some(self_closing));
    }
    Ok(None)
}

/// A start tag, of which `<` comes next and then a letter; `None` where the rows go on.
#[inline(always)]
fn read_start_tag<'p>(
    alloc: Global,
    names: &Names,
    machine: &mut Machine,
    input: &mut Cursor<'p>,
) -> Result<Option<Token<'p>>, NoMemory>
    requires data { machine.old.state ≡ states.Data }
    requires clear { machine.old.after_cr ≡ false }
    requires opens { opens_start_tag input.old.text ≡ true }
    ensures { IfOk result (TagRead names.now machine.old input.old machine.new input.new) }
{
    let start = input.copy();
    input.skip_ascii(1);
    let name = read_name(alloc, input)?;
    let mut attributes = Chain::new();
    let end = read_behind_name(alloc, names, machine, &name, &mut attributes, input)?;
    match end {
        Some(self_closing) => {
            let tag = Tag {
                namespace: Namespace::Html,
                name,
                attributes,
            };
            Ok(Some(Token::Start { self_closing, tag }))
        }
        None => {
            *input = start;
            Ok(None)
        }
    }
}

/// An end tag, of which `</` comes next and then a letter; `None` where the rows go on.
#[inline(always)]
fn read_end_tag<'p>(
    alloc: Global,
    names: &Names,
    machine: &mut Machine,
    input: &mut Cursor<'p>,
) -> Result<Option<Token<'p>>, NoMemory>
    requires data { machine.old.state ≡ states.Data }
    requires clear { machine.old.after_cr ≡ false }
    requires opens { opens_end_tag input.old.text ≡ true }
    ensures { IfOk result (TagRead names.now machine.old input.old machine.new input.new) }
{
    let start = input.copy();
    input.skip_ascii(1);
    input.skip_ascii(1);
    let name = read_name(alloc, input)?;
    if input.take_byte(b'>') {
        machine.enter(State::Data);
        return Ok(Some(Token::EndTag { name }));
    }
    *input = start;
    Ok(None)
}

/// Whether the lexer stands in the data state, with nothing held back.
#[inline(always)]
pub(crate) fn stands_in_data(state: &LexState) -> bool
    ensures data { result ≡ true → state.now.machine.state ≡ states.Data }
    ensures clear { result ≡ true → state.now.machine.after_cr ≡ false }
    ensures ahead { result ≡ true → state.now.ahead ≡ [] }
{
    match state.machine.state {
        State::Data => !state.machine.after_cr && state.ahead.is_empty(),
        _ => false,
    }
}

/// In the data state, a tag at the front, if it is a usual one: the last of the moves that were made emitted it. With `None` moves
/// were made that emit nothing, or none, and the rows go on. `rested` is the last place at or before the tag where the lexer
/// rested. After `NoMemory` the state is spent.
#[inline]
pub fn next_tag<'p>(
    alloc: Global,
    names: &Names,
    state: &mut LexState,
    input: &mut Cursor<'p>,
    rested: &mut u64,
) -> Result<Option<Token<'p>>, NoMemory>
    requires held { held state.old ≤ input.old.place }
    ensures tag { IfOk result (λ tag. TagTurned names.now (lexing state.old input.old rested.old) tag (lexing state.new input.new rested.new) rested.new) }
    ensures held { IfOk result (λ tag. held state.new ≤ input.new.place) }
    ensures ahead { OnOk result (state.new.ahead ≡ state.old.ahead) }
{
    if !stands_in_data(state) {
        return Ok(None);
    }
    let place = input.place();
    if input.opens_start_tag() {
        *rested = place;
        return read_start_tag(alloc, names, &mut state.machine, input);
    }
    if input.opens_end_tag() {
        *rested = place;
        return read_end_tag(alloc, names, &mut state.machine, input);
    }
    Ok(None)
}
