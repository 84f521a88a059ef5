//! A named or a decimal reference in the data state or in an attribute's value, read straight from the page: what the rows do code point by code point, at once.
ghost use Rattle.std.specs.Prelude.{◌≡◌, ◌+◌, ◌*◌, ◌-◌, ◌≤◌, ◌<◌, ◌==◌, [], ◌∷◌, Some, map, length, true, false, IfOk, IfSome, IfNone, IsUtf8};
ghost use Rattle.std.specs.List.{list_all};
ghost use Rattle.std.specs.Str.{chars};
ghost use Rattle.std.specs.Char.{is_ascii_digit};
ghost use Rattle.hp_lex_tags.specs.Rows.{capped as spec_capped};
ghost use Rattle.hp_tokens.specs.declared.rows.Turn.TheVariants as turns;
ghost use Rattle.hp_tokens.specs.declared.state.State.TheVariants as states;
ghost use Rattle.hp_tokens.specs.Reading.{first};
ghost use Rattle.hp_tokens.specs.Plain.{none_of};
ghost use Rattle.hp_tokens.specs.Rows.{character};
ghost use Rattle.hp_tokens.specs.Advancing.{held, lexing, IsGroup, Turned};
ghost use Rattle.hp_tokens.specs.Moves.{move};
ghost use Rattle.hp_lex_tags.specs.Tags.{is_here, tag_rules};
ghost use Rattle.hp_lex_tags.specs.Decided.{EmitsOne, IsReference, IsDecimal};
ghost use Rattle.hp_lex_tags.specs.Usual.{IsUsual, ReferenceTaken};

use crate::references::capped;
use crate::straight::stands_in_data;
use hp_elements::{Text, Tokens};
use hp_names::{Found, Names, numeric};
use hp_tokens::{Cursor, LexState, NoMemory, State, push_char};
use std::alloc::Global;

/// The reference name at the front of a text, where it ends with a semicolon, so that it is decided whatever follows, is ASCII and
/// stands for one code point, which is not U+0000.
fn usual_name(names: &Names, text: &[u8]) -> Option<Found>
    requires utf8 { IsUtf8 text.now }
    ensures { IfSome result (λ found. IsUsual names.now (chars text.now) found) }
{
    names.rules();
    let first = *text.first()?;
    if !first.is_ascii_alphanumeric() {
        return None;
    }
    let found = names.longest(text)?;
    let name = &text[..found.length as usize];
    if !found.ends_with_semicolon || found.second.is_some() || found.first == '\0' {
        return None;
    }
    if !name.is_ascii() {
        return None;
    }
    Some(found)
}

/// The value of a number, once one more digit is read.
fn with_digit(value: u32, digit: u8) -> u32
    requires { is_ascii_digit digit ≡ true }
    ensures { result ≡ spec_capped (value * 10 + (digit - 48)) }
{
    capped(u64::from(value) * 10 + u64::from(digit - b'0'))
}

/// The value of the digits at the front of a text, and how many they are, where a semicolon and one more code point follow.
fn decimal(text: &[u8]) -> Option<(u32, usize)>
    ensures { IfSome result (λ read. IsDecimal text.now read.0 read.1) }
{
    let mut value: u32 = 0;
    let mut count: usize = 0;
    'digits: while count < text.len() && text[count].is_ascii_digit() {
        value = with_digit(value, text[count]);
        count += 1;
    }
    if count == 0 || count + 1 >= text.len() || text[count] != b';' {
        return None;
    }
    Some((value, count))
}

/// A reference that is decided whatever follows: what it stands for, and how many code points it has behind its `&`.
#[derive(Clone, Copy)]
struct UsualReference {
    stands_for: char,
    length: usize,
}

/// The decimal reference at the front of a text, behind its `&#`.
fn usual_number(names: &Names, text: &[u8]) -> Option<UsualReference>
    requires utf8 { IsUtf8 text.now }
    ensures { IfSome result (λ usual. IsReference names.now (35 ∷ chars text.now) usual.stands_for usual.length) }
{
    let _names = names;
    let (value, count) = decimal(text)?;
    let stands_for = numeric(u64::from(value));
    if stands_for == '\0' {
        return None;
    }
    Some(UsualReference {
        stands_for,
        length: count + 2,
    })
}

/// The reference at the front of a text, behind its `&`.
fn usual(names: &Names, text: &[u8]) -> Option<UsualReference>
    requires utf8 { IsUtf8 text.now }
    ensures { IfSome result (λ usual. IsReference names.now (chars text.now) usual.stands_for usual.length) }
{
    let first = *text.first()?;
    if first == b'#' {
        return usual_number(names, &text[1..]);
    }
    let found = usual_name(names, text)?;
    Some(UsualReference {
        stands_for: found.first,
        length: found.length as usize,
    })
}

/// Whether `&` comes next.
#[inline]
fn is_at_ampersand(input: &Cursor<'_>) -> bool
    ensures { result ≡ true → first input.now.text ≡ Some 38 }
{
    match input.front() {
        Some(b'&') => true,
        _ => false,
    }
}

/// A named or a decimal reference at the front that is decided whatever follows, which is taken.
#[inline(never)]
pub(crate) fn take_reference(names: &Names, input: &mut Cursor<'_>) -> Option<char>
    ensures some { IfSome result (λ c. ReferenceTaken names.now input.old c input.new) }
    ensures none { IfNone result (input.new ≡ input.old) }
{
    if !is_at_ampersand(input) {
        return None;
    }
    let usual = usual(names, input.behind_front())?;
    input.skip_ascii(1);
    input.skip_ascii(usual.length);
    Some(usual.stands_for)
}

/// A named or a decimal reference with its semicolon at the front, in the data state: what it stands for, where `rested` becomes the
/// place of its `&`; `None` where there is none that is decided whatever follows, and then nothing changes.
#[inline(never)]
fn read_reference(
    state: &mut LexState,
    input: &mut Cursor<'_>,
    names: &Names,
    rested: &mut u64,
) -> Option<char>
    requires held { held state.old ≤ input.old.place }
    ensures emits { IfSome result (λ c. EmitsOne names.now (lexing state.old input.old rested.old) (lexing state.new input.new rested.new) c rested.new) }
    ensures here { IfSome result (λ c. is_here state.old.machine.state ≡ true) }
    ensures rests { IfSome result (λ c. state.new.machine.state ≡ states.Data) }
    ensures no_nul { IfSome result (λ c. (c == 0) ≡ false) }
    ensures none { IfNone result ((state.new ≡ state.old) × (input.new ≡ input.old) × (rested.new ≡ rested.old)) }
    ensures held { held state.new ≤ input.new.place }
    ensures ahead { state.new.ahead ≡ state.old.ahead }
{
    if !stands_in_data(state) || !is_at_ampersand(input) {
        return None;
    }
    let place = input.place();
    let stands_for = take_reference(names, input)?;
    *rested = place;
    state.machine.enter(State::Data);
    Some(stands_for)
}

/// What a named or a decimal reference with its semicolon at the front stands for, in the data state, where `rested` becomes the place of its `&`; `None` where
/// there is none that is decided whatever follows, and then nothing changes. It is what calls of `advance` do there.
#[inline]
pub fn next_reference<'p>(
    state: &mut LexState,
    input: &mut Cursor<'p>,
    names: &Names,
    rested: &mut u64,
) -> Option<Text<'p>>
    requires held { held state.old ≤ input.old.place }
    ensures turn { IfSome result (λ text. Turned (tag_rules names.now) is_here (lexing state.old input.old rested.old) [] (lexing state.new input.new rested.new) (map character text) rested.new turns.Emitted) }
    ensures here { IfSome result (λ text. is_here state.old.machine.state ≡ true) }
    ensures none { IfNone result ((state.new ≡ state.old) × (input.new ≡ input.old) × (rested.new ≡ rested.old)) }
    ensures no_nul { IfSome result (λ text. list_all (none_of (0 ∷ [])) text ≡ true) }
    ensures long { IfSome result (λ text. 0 < length text) }
    ensures held { held state.new ≤ input.new.place }
    ensures ahead { state.new.ahead ≡ state.old.ahead }
{
    let stands_for = read_reference(state, input, names, rested)?;
    Some(Text::of_char(stands_for))
}

/// Appends what such a reference at the front stands for. Answers whether there was one; otherwise nothing changes.
pub(crate) fn emit_reference(
    alloc: Global,
    state: &mut LexState,
    input: &mut Cursor<'_>,
    names: &Names,
    rested: &mut u64,
    tokens: &mut Tokens<'_>,
) -> Result<bool, NoMemory>
    requires held { held state.old ≤ input.old.place }
    ensures turn { IfOk result (λ emitted. emitted ≡ true → Turned (tag_rules names.now) is_here (lexing state.old input.old rested.old) tokens.old (lexing state.new input.new rested.new) tokens.new rested.new turns.Emitted) }
    ensures group { IfOk result (λ emitted. emitted ≡ true → IsGroup (move (tag_rules names.now)) is_here (lexing state.old input.old rested.old) tokens.old (lexing state.new input.new rested.new) tokens.new rested.new) }
    ensures none { IfOk result (λ emitted. emitted ≡ false → (state.new ≡ state.old) × (input.new ≡ input.old) × (rested.new ≡ rested.old) × (tokens.new ≡ tokens.old)) }
    ensures held { held state.new ≤ input.new.place }
{
    match read_reference(state, input, names, rested) {
        Some(stands_for) => {
            push_char(alloc, tokens, stands_for)?;
            Ok(true)
        }
        None => Ok(false),
    }
}
