//! Texts and values with what has to be escaped in them.

ghost use Rattle.std.specs.Prelude.{◌≡◌, ◌<◌, ◌≤◌, ◌++◌, true, length, take, drop, IfOk, OnOk, encode_utf8_all};
ghost use Rattle.std.specs.Str.{chars};
ghost use Rattle.hp_serial.specs.Bytes.{begins_with_no_break_space, byte_escape, escaped_bytes, ArePlain, IsPlain};
ghost use Rattle.hp_serial.specs.Escaping.{escaped};
ghost use Rattle.hp_serial.specs.ReadBack.{ReadsBack};

use hp_elements::NoMemory;

/// Where a text stands, by which other code points are escaped in it.
#[derive(Clone, Copy, PartialEq, Eq)]
pub enum Place {
    /// Between tags.
    Text,
    /// The value of an attribute.
    Value,
}

/// The first byte of U+00A0, which is the first one of others too.
const LATIN: u8 = 0xC2;

/// The second byte of U+00A0.
const NO_BREAK_SPACE: u8 = 0xA0;

/// The lexer reads an escaped text back: from the data state on, its moves over it emit the code points of the text and nothing else.
pub fn escaped_texts_are_read_back()
    ensures { ReadsBack }
{}

/// Writes a text with what has to be escaped in it there, in UTF-8.
pub fn write_escaped(out: &mut Vec<u8>, place: Place, text: &str) -> Result<(), NoMemory>
    ensures { OnOk result (out.new.items ≡ out.old.items ++ encode_utf8_all (escaped place (chars text.now))) }
{
    let mut rest = text.as_bytes();
    while !rest.is_empty() {
        rest = write_some(out, place, rest)?;
    }
    Ok(())
}

/// Writes the bytes up to the first that may have to be escaped, and that one. Those behind it.
fn write_some<'b>(out: &mut Vec<u8>, place: Place, bytes: &'b [u8]) -> Result<&'b [u8], NoMemory>
    ensures written { IfOk result (λ rest. out.new.items ++ escaped_bytes place rest.now ≡ out.old.items ++ escaped_bytes place bytes.now) }
    ensures shorter { IfOk result (λ rest. 0 < length bytes.now → length rest.now < length bytes.now) }
{
    let plain = plain_len(place, bytes);
    out.extend_from_slice(&bytes[..plain])?;
    if plain == bytes.len() {
        return Ok(&bytes[plain..]);
    }
    write_first(out, place, &bytes[plain..])
}

/// How many bytes from the first on stand as they are.
fn plain_len(place: Place, bytes: &[u8]) -> usize
    ensures within { result ≤ length bytes.now }
    ensures plain { ArePlain place (take result bytes.now) }
{
    let mut len = 0;
    while len < bytes.len() && is_plain(place, bytes[len]) {
        len += 1;
    }
    len
}

/// Whether a byte stands as it is, whatever comes behind it.
#[inline(always)]
fn is_plain(place: Place, byte: u8) -> bool
    ensures { result ≡ true → IsPlain place byte }
{
    match place {
        Place::Text => byte != b'&' && byte != b'<' && byte != b'>' && byte != LATIN,
        Place::Value => byte != b'&' && byte != b'"' && byte != LATIN,
    }
}

/// Writes the first byte, escaped where it has to be, or the two bytes of U+00A0. The bytes behind them.
fn write_first<'b>(out: &mut Vec<u8>, place: Place, bytes: &'b [u8]) -> Result<&'b [u8], NoMemory>
    requires { 0 < length bytes.now }
    ensures written { IfOk result (λ rest. out.new.items ++ escaped_bytes place rest.now ≡ out.old.items ++ escaped_bytes place bytes.now) }
    ensures shorter { IfOk result (λ rest. length rest.now < length bytes.now) }
{
    if begins_with_no_break_space(bytes) {
        out.extend_from_slice(b"&nbsp;")?;
        return Ok(&bytes[2..]);
    }
    write_byte(out, place, bytes[0])?;
    Ok(&bytes[1..])
}

/// Whether the first two bytes are U+00A0.
fn begins_with_no_break_space(bytes: &[u8]) -> bool
    ensures { result ≡ begins_with_no_break_space bytes.now }
{
    bytes.len() > 1 && bytes[0] == LATIN && bytes[1] == NO_BREAK_SPACE
}

/// Writes a byte, escaped where it has to be.
fn write_byte(out: &mut Vec<u8>, place: Place, byte: u8) -> Result<(), NoMemory>
    ensures { OnOk result (out.new.items ≡ out.old.items ++ byte_escape place byte) }
{
    match (place, byte) {
        (_, b'&') => out.extend_from_slice(b"&amp;"),
        (Place::Text, b'<') => out.extend_from_slice(b"&lt;"),
        (Place::Text, b'>') => out.extend_from_slice(b"&gt;"),
        (Place::Value, b'"') => out.extend_from_slice(b"&quot;"),
        _ => out.extend_from_slice(&[byte]),
    }
}
