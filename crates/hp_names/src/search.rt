//! The search in a table of names that rise by their bytes.
ghost use Rattle.std.specs.Prelude.{◌≡◌, ◌≤◌, Some, IfSome, IsTrue, length};
ghost use Rattle.hp_names.specs.Order as order;
ghost use Rattle.hp_names.specs.References.{is_table, rises};
ghost use Rattle.hp_names.specs.Table.{name_at, reference_of, references};
ghost use Rattle.hp_names.specs.Search.{StandsAt};
ghost use Rattle.hp_names.specs.Longest as spec;

use crate::names::Found;
use crate::table::{PLACES, Row};

/// The longest name that the text begins with.
pub(crate) fn longest(bytes: &[u8], rows: &[Row], text: &[u8]) -> Option<Found>
    requires { IsTrue (is_table (references bytes.now rows.now)) }
    ensures { result ≡ spec.longest (references bytes.now rows.now) text.now }
{
    match usual(bytes, rows, text) {
        Some(found) => Some(found),
        None => searched(bytes, rows, text),
    }
}

/// The longest name, where it is the usual one for the text's first two bytes: that one ends with a semicolon, so no longer name
/// begins with it.
#[inline]
fn usual(bytes: &[u8], rows: &[Row], text: &[u8]) -> Option<Found>
    requires { IsTrue (is_table (references bytes.now rows.now)) }
    ensures { IfSome result (λ found. spec.longest (references bytes.now rows.now) text.now ≡ Some found) }
{
    let at = usual_place(text);
    if at >= rows.len() {
        return None;
    }
    let row = &rows[at];
    if !begins(text, name_of(bytes, row)) {
        return None;
    }
    let found = found_of(bytes, row);
    if !found.ends_with_semicolon {
        return None;
    }
    Some(found)
}

#[inline]
fn usual_place(text: &[u8]) -> usize {
    if text.len() < 2 {
        return usize::MAX;
    }
    usize::from(PLACES[(usize::from(text[0]) * 27 + usize::from(text[1])) % 256])
}

/// The longest name that the text begins with. A name that the text begins with is the last name up to the text, or else within
/// what that name and the text have in common.
#[inline(never)]
fn searched(bytes: &[u8], rows: &[Row], text: &[u8]) -> Option<Found>
    requires { IsTrue (rises (references bytes.now rows.now)) }
    ensures { result ≡ spec.longest (references bytes.now rows.now) text.now }
{
    let mut left = text;
    loop {
        let at = place(bytes, rows, left);
        if at == 0 {
            return None;
        }
        let row = &rows[at - 1];
        let name = name_of(bytes, row);
        let shared = common(name, left);
        if shared == name.len() {
            return Some(found_of(bytes, row));
        }
        left = &left[..shared];
    }
}

/// Whether a name goes on after the text: the first name above the text does, where one does.
pub(crate) fn may_grow(bytes: &[u8], rows: &[Row], text: &[u8]) -> bool
    requires { IsTrue (rises (references bytes.now rows.now)) }
    ensures { result ≡ spec.may_grow (references bytes.now rows.now) text.now }
{
    let at = place(bytes, rows, text);
    at < rows.len() && begins(name_of(bytes, &rows[at]), text)
}

fn place(bytes: &[u8], rows: &[Row], text: &[u8]) -> usize
    requires { IsTrue (rises (references bytes.now rows.now)) }
    ensures within { result ≤ length rows.now }
    ensures place { StandsAt (references bytes.now rows.now) text.now result }
{
    rows.partition_point(|row| is_upto(name_of(bytes, row), text))
}

fn found_of(bytes: &[u8], row: &Row) -> Found
    ensures { result ≡ spec.found_of (reference_of bytes.now row.now) }
{
    let name = name_of(bytes, row);
    Found {
        length: name.len() as u64,
        first: row.first,
        second: row.second,
        ends_with_semicolon: name.last() == Some(&b';'),
    }
}

fn name_of<'n>(bytes: &'n [u8], row: &Row) -> &'n [u8]
    ensures { result.now ≡ name_at bytes.now row.now }
{
    let from = usize::from(row.from).min(bytes.len());
    let rest = &bytes[from..];
    &rest[..usize::from(row.length).min(rest.len())]
}

fn is_upto(name: &[u8], text: &[u8]) -> bool
    ensures { result ≡ order.is_upto name.now text.now }
{
    name <= text
}

fn begins(text: &[u8], word: &[u8]) -> bool
    ensures { result ≡ order.begins text.now word.now }
{
    text.starts_with(word)
}

fn common(name: &[u8], text: &[u8]) -> usize
    ensures within { result ≤ length text.now }
    ensures exact { result ≡ order.common name.now text.now }
{
    let mut shared = 0;
    while shared < name.len() && shared < text.len() && name[shared] == text[shared] {
        shared += 1;
    }
    shared
}
