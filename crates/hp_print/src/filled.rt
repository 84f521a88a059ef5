//! Memory of one size that is filled from the front.

ghost use Rattle.std.specs.Prelude.{◌≡◌, ◌+◌, ◌*◌, ◌<◌, ◌≤◌, ◌++◌, [], ◌∷◌, true, false, IfOk, length, take, codes, encode_utf8_all};
ghost use Rattle.std.specs.Str.{chars};
ghost use Rattle.hp_print.specs.Print.{indentation};

use std::alloc::{AllocError as NoMemory, Global};
use std::marker::Model;

/// The bytes up to a place, which contracts see.
#[derive(Drop)]
pub struct Filled {
    bytes: Vec<u8>,
    len: usize,
}

impl Model for Filled {
    ghost use Rattle.std.specs.Prelude.{ℕ, List, ◌≤◌, take, vec_len};

    ghost Value = { List ℕ };

    ghost view = { λ f. take f.len f.bytes.items };

    ghost invariant = { λ f. f.len ≤ vec_len f.bytes };
}

/// How many bytes there are in all.
const ROOM: usize = 1 << 16;

/// What a line of depth 15 begins with: that of any lower depth is its front.
const FRONT: [u8; 32] = *b"|                               ";

/// More than what a line of depth 15 begins with takes with two short pieces.
const SPARE: usize = 40;

impl Filled {
    /// Nothing is filled.
    pub fn new(alloc: Global) -> Result<Filled, NoMemory>
        ensures { IfOk result (λ f. f ≡ []) }
    {
        let bytes = Vec::from_elem(alloc, 0u8, ROOM)?;
        Ok(Filled { bytes, len: 0 })
    }

    /// The bytes.
    pub fn as_slice(&self) -> &[u8]
        ensures { result.now ≡ self.now }
    {
        &self.bytes[..self.len]
    }

    /// Drops all bytes.
    pub fn clear(&mut self)
        ensures { self.new ≡ [] }
    {
        self.len = 0;
    }

    /// Appends bytes where there is room, and tells whether there was.
    #[inline(always)]
    pub fn append(&mut self, piece: &[u8]) -> bool
        ensures whole { result ≡ true → self.new ≡ self.old ++ piece.now }
        ensures kept { result ≡ false → self.new ≡ self.old }
    {
        if self.bytes.len() - self.len < piece.len() {
            return false;
        }
        self.len = put_at(self.bytes.as_mut_slice(), self.len, piece);
        true
    }

    /// Appends a line of a low depth where there is room, and tells whether it did: a text between two marks.
    #[inline(always)]
    pub fn append_line(&mut self, depth: u64, left: u8, text: &str, right: u8) -> bool
        ensures whole { result ≡ true → self.new ≡ self.old ++ (indentation depth ++ left ∷ (encode_utf8_all (chars text.now) ++ right ∷ 10 ∷ [])) }
        ensures kept { result ≡ false → self.new ≡ self.old }
    {
        let room = self.bytes.len() - self.len;
        if depth >= 16 || room < SPARE || room - SPARE < text.len() {
            return false;
        }
        self.len = line_at(
            self.bytes.as_mut_slice(),
            self.len,
            depth,
            left,
            text.as_bytes(),
            right,
        );
        true
    }

    /// Appends a line of a low depth where there is room, and tells whether it did: a name and a value.
    #[inline(always)]
    pub fn append_pair(&mut self, depth: u64, name: &str, value: &str) -> bool
        ensures whole { result ≡ true → self.new ≡ self.old ++ (indentation depth ++ encode_utf8_all (chars name.now) ++ codes "=\"" ++ encode_utf8_all (chars value.now) ++ codes "\"\n") }
        ensures kept { result ≡ false → self.new ≡ self.old }
    {
        let room = self.bytes.len() - self.len;
        if depth >= 16
            || room < SPARE
            || room - SPARE < name.len()
            || room - SPARE - name.len() < value.len()
        {
            return false;
        }
        self.len = pair_at(
            self.bytes.as_mut_slice(),
            self.len,
            depth,
            name.as_bytes(),
            value.as_bytes(),
        );
        true
    }
}

/// Writes bytes into others, from a place on. Where they end.
#[inline(always)]
fn put_at(into: &mut [u8], at: usize, piece: &[u8]) -> usize
    requires { at + length piece.now ≤ length into.old }
    ensures bytes { take result into.new ≡ take at into.old ++ piece.now }
    ensures end { result ≡ at + length piece.now }
    ensures len { length into.new ≡ length into.old }
{
    let end = at + piece.len();
    into[at..end].copy_from_slice(piece);
    end
}

/// Writes a byte into others. Where it ends.
#[inline(always)]
fn byte_at(into: &mut [u8], at: usize, byte: u8) -> usize
    requires { at < length into.old }
    ensures bytes { take result into.new ≡ take at into.old ++ byte ∷ [] }
    ensures end { result ≡ at + 1 }
    ensures len { length into.new ≡ length into.old }
{
    into[at] = byte;
    at + 1
}

/// Writes two bytes into others. Where they end.
#[inline(always)]
fn two_at(into: &mut [u8], at: usize, first: u8, second: u8) -> usize
    requires { at + 2 ≤ length into.old }
    ensures bytes { take result into.new ≡ take at into.old ++ first ∷ second ∷ [] }
    ensures end { result ≡ at + 2 }
    ensures len { length into.new ≡ length into.old }
{
    let at = byte_at(into, at, first);
    byte_at(into, at, second)
}

/// Writes what a line of a low depth begins with. Where it ends.
#[inline(always)]
fn front_at(into: &mut [u8], at: usize, depth: u64) -> usize
    requires low { depth < 16 }
    requires room { at + 32 ≤ length into.old }
    ensures bytes { take result into.new ≡ take at into.old ++ indentation depth }
    ensures end { result ≡ at + 2 + 2 * depth }
    ensures len { length into.new ≡ length into.old }
{
    let _ = put_at(into, at, &FRONT);
    at + 2 + 2 * depth as usize
}

/// Writes a line of a low depth. Where it ends.
#[inline(always)]
fn line_at(into: &mut [u8], at: usize, depth: u64, left: u8, text: &[u8], right: u8) -> usize
    requires low { depth < 16 }
    requires room { at + 40 + length text.now ≤ length into.old }
    ensures bytes { take result into.new ≡ take at into.old ++ (indentation depth ++ left ∷ (text.now ++ right ∷ 10 ∷ [])) }
    ensures within { result ≤ length into.new }
    ensures len { length into.new ≡ length into.old }
{
    let at = front_at(into, at, depth);
    let at = byte_at(into, at, left);
    let at = put_at(into, at, text);
    two_at(into, at, right, b'\n')
}

/// Writes a line of a low depth with a name and a value. Where it ends.
#[inline(always)]
fn pair_at(into: &mut [u8], at: usize, depth: u64, name: &[u8], value: &[u8]) -> usize
    requires low { depth < 16 }
    requires room { at + 40 + length name.now + length value.now ≤ length into.old }
    ensures bytes { take result into.new ≡ take at into.old ++ (indentation depth ++ name.now ++ codes "=\"" ++ value.now ++ codes "\"\n") }
    ensures within { result ≤ length into.new }
    ensures len { length into.new ≡ length into.old }
{
    let at = front_at(into, at, depth);
    let at = put_at(into, at, name);
    let at = two_at(into, at, b'=', b'"');
    let at = put_at(into, at, value);
    two_at(into, at, b'"', b'\n')
}
