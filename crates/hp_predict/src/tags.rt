//! The tags of a text, as they are seen without a lexer.
ghost use Rattle.std.specs.Prelude.{◌≡◌, ◌+◌, ◌<◌, ◌≤◌, true, false, [], ◌∷◌, length, drop, IfSome, MatchOption};
ghost use Rattle.std.specs.List.{prefix_len};
ghost use Rattle.std.specs.Str.{IsAscii};
ghost use Rattle.std.specs.Char.{is_ascii_alphanumeric};
ghost use Rattle.memchr.specs.Find.{IsFirstByte, is_byte};
ghost use Rattle.hp_predict.specs.Tags.{has_end, tags, tag_after as spec_tag_after, named as spec_named};
ghost use Rattle.hp_predict.specs.Found.{opening as spec_opening, opening_tag, found_tag};

use crate::found::{FoundTag, Opening};
use memchr::memchr;

/// How many ASCII letters and digits stand at the front of a text.
fn name_length(text: &[u8]) -> usize
    ensures len { result ≡ prefix_len is_ascii_alphanumeric text.now }
    ensures within { result ≤ length text.now }
{
    for (at, byte) in text.iter().enumerate() {
        if !byte.is_ascii_alphanumeric() {
            return at;
        }
    }
    text.len()
}

/// The tag whose name stands at the front of a text, where a letter does.
fn named<'t>(is_end: bool, text: &'t [u8]) -> Option<Opening<'t>>
    ensures tag { opening_tag result ≡ spec_named is_end text.now }
    ensures ascii { IfSome result (λ opening. IsAscii opening.name.now) }
    ensures end { IfSome result (λ opening. has_end text.now ≡ has_end opening.behind.now) }
    ensures behind { IfSome result (λ opening. tags true text.now ≡ tags true opening.behind.now) }
    ensures within { IfSome result (λ opening. length opening.behind.now ≤ length text.now) }
{
    match text {
        [first, ..] if first.is_ascii_alphabetic() => {
            let (name, behind) = text.split_at(name_length(text));
            Some(Opening {
                is_end,
                name,
                behind,
            })
        }
        _ => None,
    }
}

/// The tag whose `<` stands before a text.
fn tag_after<'t>(text: &'t [u8]) -> Option<Opening<'t>>
    ensures tag { opening_tag result ≡ spec_tag_after text.now }
    ensures ascii { IfSome result (λ opening. IsAscii opening.name.now) }
    ensures end { IfSome result (λ opening. has_end text.now ≡ has_end opening.behind.now) }
    ensures behind { IfSome result (λ opening. tags true text.now ≡ tags true opening.behind.now) }
    ensures within { IfSome result (λ opening. length opening.behind.now ≤ length text.now) }
{
    match text {
        [b'/', rest @ ..] => named(true, rest),
        _ => named(false, text),
    }
}

/// The first place of a byte. Where it stands at the front, as it often does between tags, nothing is searched.
#[inline(always)]
fn first_place(byte: u8, text: &[u8]) -> Option<usize>
    ensures { IsFirstByte (is_byte byte) text.now result }
{
    match text {
        [front, ..] if *front == byte => Some(0),
        _ => memchr(byte, text),
    }
}

/// What stands behind a place of a text.
fn behind(text: &[u8], at: usize) -> &[u8]
    requires { at < length text.now }
    ensures { result.now ≡ drop (at + 1) text.now }
{
    &text[at + 1..]
}

/// The tag that was opened, where a `>` comes behind its name.
fn closed<'t>(opening: Opening<'t>) -> Option<FoundTag<'t>>
    ensures end { MatchOption result (has_end opening.entry.behind.now ≡ false) (λ found. has_end opening.entry.behind.now ≡ true) }
    ensures tag { IfSome result (λ found. found_tag found ≡ spec_opening opening.entry) }
    ensures rest { IfSome result (λ found. tags true opening.entry.behind.now ≡ tags false found.rest.now) }
    ensures shorter { IfSome result (λ found. length found.rest.now < length opening.entry.behind.now) }
    ensures name { IfSome result (λ found. found.name ≡ opening.entry.name) }
{
    match first_place(b'>', opening.behind) {
        None => None,
        Some(end) => Some(FoundTag {
            is_end: opening.is_end,
            name: opening.name,
            rest: behind(opening.behind, end),
        }),
    }
}

/// A text from its first `<` on.
pub fn from_less_than(text: &[u8]) -> &[u8]
    ensures tags { tags false result.now ≡ tags false text.now }
    ensures within { length result.now ≤ length text.now }
{
    match first_place(b'<', text) {
        None => &[],
        Some(at) => &text[at..],
    }
}

/// The first tag of a text.
pub fn next_tag<'t>(text: &'t [u8]) -> Option<FoundTag<'t>>
    ensures tags { MatchOption result (tags false text.now ≡ []) (λ found. tags false text.now ≡ found_tag found ∷ tags false found.rest.now) }
    ensures shorter { IfSome result (λ found. length found.rest.now < length text.now) }
    ensures ascii { IfSome result (λ found. IsAscii found.name.now) }
{
    let mut rest = text;
    while let Some(at) = first_place(b'<', rest) {
        rest = behind(rest, at);
        if let Some(opening) = tag_after(rest) {
            return closed(opening);
        }
    }
    None
}
