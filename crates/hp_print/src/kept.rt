//! A sink that keeps all that it takes.

ghost use Rattle.std.specs.Prelude.{◌≡◌, [], Some};

use hp_text::{Failed, Sink};
use std::alloc::Global;

/// The bytes that were taken.
#[derive(Drop)]
pub struct Kept {
    bytes: Vec<u8>,
    faults: u64,
}

impl Kept {
    /// Nothing was taken yet.
    pub fn new(alloc: Global) -> Kept
        ensures { result.bytes.items ≡ [] }
    {
        Kept {
            bytes: Vec::new(alloc),
            faults: 0,
        }
    }

    /// The bytes.
    pub fn as_slice(&self) -> &[u8]
        ensures { result.now ≡ self.now.bytes.items }
    {
        self.bytes.as_slice()
    }

    /// Drops all bytes.
    pub fn clear(&mut self)
        ensures { self.new.bytes.items ≡ [] }
    {
        self.bytes.clear();
    }

    /// The bytes.
    pub fn into_bytes(self) -> Vec<u8>
        ensures { result ≡ self.bytes }
    {
        self.bytes
    }
}

impl Sink for Kept {
    ghost taken = { λ k. Some k.bytes.items };

    ghost faults = { λ k. k.faults };

    fn write(&mut self, piece: &[u8]) -> Result<usize, Failed> {
        match self.bytes.extend_from_slice(piece) {
            Ok(()) => Ok(piece.len()),
            Err(_) => {
                self.faults = self.faults.saturating_add(1);
                Err(Failed)
            }
        }
    }
}
