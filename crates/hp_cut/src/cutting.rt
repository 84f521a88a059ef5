//! The list of cuts.

ghost use Rattle.std.specs.Prelude.{◌≡◌, ◌+◌, ◌<◌, length, IfOk, IsTrue, ◌↔◌, slice_index};
ghost use Rattle.hp_text.specs.Page.{text_of};
ghost use Rattle.hp_cut.specs.Places.{AreLawful, IsOf, ends};

use hp_text::{Chunk, NoMemory, Page};
use std::alloc::Global;
use std::marker::Model;

/// The places at which a page's text is cut, with the length of that text in bytes.
///
/// The places are above 0 and rise, lie below the length and are at most 4,095. `n` places make
/// `n + 1` chunks, and an empty page has one empty chunk.
#[derive(Drop)]
pub struct Cuts {
    places: Vec<u64>,
    text_length: u64,
}

impl Model for Cuts {
    ghost use Rattle.hp_cut.specs.Places.{Cutting, AreLawful};

    ghost Value = { Cutting };

    ghost view = { λ cuts. record { places = cuts.places.items; text_length = cuts.text_length } };

    ghost invariant = { λ cuts. AreLawful cuts.places.items cuts.text_length };
}

impl Cuts {
    /// The cuts at these places of a text of this length.
    pub(crate) fn from_lawful(places: Vec<u64>, text_length: u64) -> Cuts
        requires { AreLawful places.items text_length }
        ensures { result ≡ record { places = places.items; text_length = text_length } }
    {
        Cuts {
            places,
            text_length,
        }
    }

    /// The places, in order.
    pub fn places(&self) -> &[u64]
        ensures places { result.now ≡ self.now.places }
        ensures lawful { AreLawful self.now.places self.now.text_length }
    {
        self.places.as_slice()
    }

    /// The length of the page's text in bytes.
    pub fn text_length(&self) -> u64
        ensures { result ≡ self.now.text_length }
    {
        self.text_length
    }

    /// The number of chunks.
    pub fn chunks(&self) -> u32
        ensures { result ≡ length self.now.places + 1 }
    {
        self.places.len() as u32 + 1
    }

    /// Equal cuts.
    pub fn copy(&self, alloc: Global) -> Result<Cuts, NoMemory>
        ensures { IfOk result (λ copy. copy ≡ self.now) }
    {
        let places = Vec::from_slice(alloc, self.places.as_slice())?;
        Ok(Cuts {
            places,
            text_length: self.text_length,
        })
    }

    /// Whether the two cut a text of the same length at the same places.
    pub fn same(&self, other: &Cuts) -> bool
        ensures { IsTrue result ↔ (self.now ≡ other.now) }
    {
        self.text_length == other.text_length && self.places.as_slice() == other.places.as_slice()
    }

    /// The chunk of this number, from 0.
    pub fn chunk<'p>(&self, page: Page<'p>, number: u32) -> Chunk<'p>
        requires cuts_of_page { IsOf (text_of page) self.now }
        requires number_below_chunks { number < length self.now.places + 1 }
        ensures page { result.page ≡ page.entry }
        ensures number { result.number ≡ number }
        ensures from { result.from ≡ slice_index (ends self.now) number }
        ensures to { result.to ≡ slice_index (ends self.now) (number + 1) }
    {
        let _text = page.text();
        let from = self.end_at(number as usize);
        let to = self.end_at(number as usize + 1);
        Chunk {
            page,
            number,
            from,
            to,
        }
    }

    /// Where the chunk of this number begins, or where the last one ends.
    fn end_at(&self, index: usize) -> u64
        requires { index < length self.now.places + 2 }
        ensures place { result ≡ slice_index (ends self.now) index }
        ensures lawful { AreLawful self.now.places self.now.text_length }
    {
        if index == 0 {
            0
        } else if index <= self.places.len() {
            self.places[index - 1]
        } else {
            self.text_length
        }
    }
}
