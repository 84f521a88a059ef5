//! Parts of a page's text.
ghost use Rattle.std.specs.Prelude.{◌≡◌, ◌≤◌, ◌+◌, length, take, slice_range, IsUtf8};
ghost use Rattle.std.specs.Str.{IsCharBoundary};
ghost use Rattle.hp_text.specs.Page.{text_of};

use crate::pages::Page;

/// A part of a page's text. Its ends stand at starts of code points or at the text's end.
#[derive(Clone, Copy, Debug)]
pub struct Chunk<'p> {
    /// The page that it is a part of.
    pub page: Page<'p>,
    /// Its number among the page's chunks, from 0.
    pub number: u32,
    /// The place of its first byte, counted in bytes of the text.
    pub from: u64,
    /// The place after its last byte, counted in bytes of the text.
    pub to: u64,
    pub ghost in_order: { from ≤ to },
    pub ghost starts_at_code_point: { IsCharBoundary (text_of page) from },
    pub ghost ends_at_code_point: { IsCharBoundary (text_of page) to },
}

impl<'p> Chunk<'p> {
    /// The bytes of this part.
    pub fn text(&self) -> &'p [u8]
        ensures value { result.now ≡ slice_range (text_of self.now.page) self.now.from self.now.to }
        ensures len { length result.now + self.now.from ≡ self.now.to }
        ensures utf8 { IsUtf8 result.now }
    {
        self.page.as_str()[self.from as usize..self.to as usize].as_bytes()
    }

    /// The bytes of the page's text before this part.
    pub fn before(&self) -> &'p [u8]
        ensures value { result.now ≡ take self.now.from (text_of self.now.page) }
        ensures len { length result.now ≡ self.now.from }
        ensures utf8 { IsUtf8 result.now }
    {
        self.page.as_str()[..self.from as usize].as_bytes()
    }
}
