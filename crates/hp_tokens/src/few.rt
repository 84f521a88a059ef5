//! A few bytes, which stand in the value itself.
ghost use Rattle.std.specs.Prelude.{◌≡◌, ℕ, List, [], ◌++◌, ◌≤◌, ◌+◌, length, drop};

use std::marker::Model;

/// How many bytes have room.
pub const ROOM: usize = 22;

/// A list of at most `ROOM` bytes, without a place on the heap.
#[derive(Drop)]
pub struct Few {
    len: usize,
    bytes: [u8; ROOM],
}

impl Model for Few {
    ghost use Rattle.std.specs.Prelude.{ℕ, List, take, ◌≤◌};

    ghost Value = { List ℕ };

    ghost view = { λ f. take f.len f.bytes };

    ghost invariant = { λ f. f.len ≤ 22 };
}

impl Few {
    /// An empty list.
    #[inline]
    pub fn new() -> Few
        ensures { result ≡ [] }
    {
        Few {
            len: 0,
            bytes: [0; ROOM],
        }
    }

    /// How many bytes it has.
    #[inline]
    pub fn len(&self) -> usize
        ensures len { result ≡ length self.now }
        ensures within { result ≤ 22 }
    {
        self.len
    }

    /// The bytes.
    #[inline]
    pub fn as_slice(&self) -> &[u8]
        ensures items { result.now ≡ self.now }
        ensures within { length result.now ≤ 22 }
    {
        &self.bytes[..self.len]
    }

    /// Drops all bytes.
    #[inline]
    pub fn clear(&mut self)
        ensures { self.new ≡ [] }
    {
        self.len = 0;
    }

    /// Appends bytes, for which there is room.
    #[inline]
    pub fn extend(&mut self, more: &[u8])
        requires { length self.old + length more.now ≤ 22 }
        ensures { self.new ≡ self.old ++ more.now }
    {
        let end = self.len + more.len();
        self.bytes[self.len..end].copy_from_slice(more);
        self.len = end;
    }

    /// Drops so many bytes off the front.
    #[inline(never)]
    pub fn drop_front(&mut self, count: usize)
        requires { count ≤ length self.old }
        ensures { self.new ≡ drop count self.old }
    {
        let mut rest = Few::new();
        rest.extend(&self.as_slice()[count..]);
        *self = rest;
    }
}
