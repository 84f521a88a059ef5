//! A page's text, and the check that bytes are UTF-8.
ghost use Rattle.std.specs.Prelude.{◌≡◌, ◌≤◌, length, IsUtf8, IfOk, IfErr, IsOk, ◌↔◌};
ghost use Rattle.std.specs.Str.{IsValidUpTo};
ghost use Rattle.hp_text.specs.Page.{text_of};
ghost use Rattle.hp_text.specs.Text.{without_mark};

use simdutf8::compat::from_utf8;
use thiserror::Error;

/// The UTF-8 of U+FEFF, which may stand before a text and is no part of it (13.2.3, and `UTF-8 decode` of the
/// Encoding Standard).
const BYTE_ORDER_MARK: [u8; 3] = [0xEF, 0xBB, 0xBF];

/// The text of a page: UTF-8, without one leading byte order mark. `'p` is the life of the page's bytes.
#[derive(Clone, Copy, Debug)]
pub struct Page<'p> {
    text: &'p str,
}

/// Bytes are not UTF-8.
#[derive(Clone, Copy, Debug, PartialEq, Eq, Error)]
#[error("not UTF-8 at byte {at}")]
pub struct NotUtf8 {
    /// How many bytes the longest prefix has that is UTF-8, counted in the bytes as they were read.
    pub at: u64,
}

impl<'p> Page<'p> {
    /// The bytes of the text.
    pub fn text(self) -> &'p [u8]
        ensures value { result.now ≡ text_of self.entry }
        ensures utf8 { IsUtf8 result.now }
    {
        self.text.as_bytes()
    }

    /// The text itself.
    pub fn as_str(self) -> &'p str
        ensures value { result.now ≡ text_of self.entry }
    {
        self.text
    }
}

/// The page of these bytes, exactly where they are UTF-8. Takes no memory and copies nothing.
pub fn check_page(bytes: &[u8]) -> Result<Page<'_>, NotUtf8>
    ensures utf8 { IsOk result ↔ IsUtf8 bytes.now }
    ensures text { IfOk result (λ page. text_of page ≡ without_mark bytes.now) }
    ensures short { IfOk result (λ page. length (text_of page) ≤ length bytes.now) }
    ensures at { IfErr result (λ fault. IsValidUpTo bytes.now fault.at) }
{
    match from_utf8(bytes) {
        Ok(text) if bytes.starts_with(&BYTE_ORDER_MARK) => Ok(Page {
            text: &text[BYTE_ORDER_MARK.len()..],
        }),
        Ok(text) => Ok(Page { text }),
        Err(fault) => Err(NotUtf8 {
            at: fault.valid_up_to() as u64,
        }),
    }
}
