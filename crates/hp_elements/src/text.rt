//! A text, which contracts see as its code points.
ghost use Rattle.std.specs.Prelude.{◌≡◌, ◌+◌, ◌-◌, ◌<◌, ◌≤◌, ◌==◌, ◌↔◌, [], ◌∷◌, ◌++◌, length, take, drop, slice_range, sum_by, OnSome, OnOk, OnErr, IfOk, IfSome, IfNone, IsNone, IsTrue, IsUtf8, string_bytes};
ghost use Rattle.std.specs.Str.{chars, IsCharBoundary};
ghost use Rattle.std.specs.Char.{len_utf8};

use crate::short::short_bytes;
use std::alloc::{AllocError, Global};
use std::marker::Model;
use std::str::from_utf8_unchecked;

/// How many bytes a text has at most that stands in the value itself.
const SHORT: usize = 30;

/// Where the code points of a text stand.
#[derive(Drop)]
enum Place<'p> {
    /// In the page: the bytes from the text's start, and how many of them stand behind the text.
    Page(u32, &'p [u8]),
    /// Here, in the first so many bytes.
    Here(u8, [u8; SHORT]),
    Owned(String),
}

/// A text: a part of the page, or code points of its own. A `Text<'static>` owns them.
pub struct Text<'p> {
    place: Place<'p>,
}

impl<'p> Drop for Text<'p> {
    #[inline(always)]
    fn drop(self) {
        let Text { place: _ } = self;
    }
}

impl<'p> Model for Text<'p> {
    ghost use Rattle.std.specs.Prelude.{ℕ, List};

    ghost Value = { List ℕ };

    ghost use Rattle.hp_elements.specs.Texts.{placed, IsPlaced};

    ghost view = { λ t. placed t.place };

    ghost invariant = { λ t. IsPlaced t.place };
}

impl<'p> Text<'p> {
    /// A text without code points.
    #[inline]
    pub fn new() -> Text<'p>
        ensures { result ≡ [] }
    {
        Text {
            place: Place::Here(0, [0; SHORT]),
        }
    }

    /// The part of the page from one byte to another. It takes no memory.
    #[inline]
    pub fn of_page(page: &'p str, from: usize, to: usize) -> Text<'p>
        requires ordered { from ≤ to }
        requires within { to ≤ length page.now }
        requires start { IsCharBoundary page.now from }
        requires end { IsCharBoundary page.now to }
        ensures { result ≡ chars (slice_range page.now from to) }
    {
        let bytes = page.as_bytes();
        let spare = (bytes.len() - to).min(u32::MAX as usize);
        Text {
            place: Place::Page(spare as u32, &bytes[from..to + spare]),
        }
    }

    /// The code points, in UTF-8.
    #[inline]
    pub fn as_str(&self) -> &str
        ensures { chars result.now ≡ self.now }
    {
        match &self.place {
            Place::Page(spare, bytes) => {
                let len = bytes.len() - *spare as usize;
                unsafe { from_utf8_unchecked(&bytes[..len]) }
            }
            Place::Here(len, bytes) => unsafe { from_utf8_unchecked(&bytes[..*len as usize]) },
            Place::Owned(text) => text.as_str(),
        }
    }

    /// How many bytes the text has in UTF-8.
    #[inline]
    pub fn len_bytes(&self) -> usize
        ensures { result ≡ sum_by len_utf8 self.now }
    {
        self.as_str().len()
    }

    /// Whether there is no code point.
    #[inline]
    pub fn is_empty(&self) -> bool
        ensures { result ≡ (length self.now == 0) }
    {
        self.as_str().is_empty()
    }

    /// Whether two texts have the same code points.
    pub fn same(&self, other: &Text<'_>) -> bool
        ensures { IsTrue result ↔ (self.now ≡ other.now) }
    {
        self.as_str() == other.as_str()
    }

    /// The text of one code point.
    #[inline]
    pub fn of_char(c: char) -> Text<'p>
        ensures { result ≡ c ∷ [] }
    {
        if c.is_ascii() {
            let mut bytes = [0; SHORT];
            bytes[0] = c as u8;
            return Text {
                place: Place::Here(1, bytes),
            };
        }
        let mut buffer = [0; 4];
        let text = c.encode_utf8(&mut buffer);
        Text {
            place: Place::Here(text.len() as u8, short_bytes(text.as_bytes())),
        }
    }

    /// A copy of a text. A short one takes no memory.
    pub fn from_str(alloc: Global, text: &str) -> Result<Text<'p>, AllocError>
        ensures { IfOk result (λ copy. copy ≡ chars text.now) }
    {
        if text.len() <= SHORT {
            return Ok(Text {
                place: Place::Here(text.len() as u8, short_bytes(text.as_bytes())),
            });
        }
        let text = String::from_str(alloc, text)?;
        Ok(Text {
            place: Place::Owned(text),
        })
    }

    /// The text that a string has.
    pub fn of_owned(alloc: Global, text: String) -> Result<Text<'p>, AllocError>
        ensures { IfOk result (λ own. own ≡ chars (string_bytes text)) }
    {
        if text.len() <= SHORT {
            return Text::from_str(alloc, text.as_str());
        }
        Ok(Text {
            place: Place::Owned(text),
        })
    }

    /// A text of its own with the same code points.
    pub fn copy(&self, alloc: Global) -> Result<Text<'static>, AllocError>
        ensures { IfOk result (λ copy. copy ≡ self.now) }
    {
        Text::from_str(alloc, self.as_str())
    }

    /// Drops all code points.
    pub fn clear(&mut self)
        ensures { self.new ≡ [] }
    {
        *self = Text::new();
    }

    /// Appends a text. At an `Err`, which comes only for want of memory, the text is as before.
    #[inline]
    pub fn push_str(&mut self, alloc: Global, more: &str) -> Result<(), AllocError>
        ensures ok { OnOk result (self.new ≡ self.old ++ chars more.now) }
        ensures err { OnErr result (self.new ≡ self.old) }
    {
        if let Place::Owned(text) = &mut self.place {
            return text.push_str(more);
        }
        if let Place::Here(len, bytes) = &self.place
            && more.len() <= SHORT - *len as usize
        {
            let longer = put_behind(bytes, *len, more.as_bytes());
            self.place = Place::Here(*len + more.len() as u8, longer);
            return Ok(());
        }
        let grown = grown(alloc, self.as_str(), more)?;
        *self = grown;
        Ok(())
    }

    /// Appends a code point. At an `Err`, which comes only for want of memory, the text is as before.
    #[inline]
    pub fn push(&mut self, alloc: Global, c: char) -> Result<(), AllocError>
        ensures ok { OnOk result (self.new ≡ self.old ++ c ∷ []) }
        ensures err { OnErr result (self.new ≡ self.old) }
    {
        let mut buffer = [0; 4];
        self.push_str(alloc, c.encode_utf8(&mut buffer))
    }

    /// Appends the next text where that takes no memory: where this one is empty, where it is a part of the page and the bytes
    /// that stand behind it there are those of the next text, or where both are so short that they fit into the value itself, in
    /// 30 bytes. Otherwise nothing changes, and the next text comes back.
    pub fn join(&mut self, next: Text<'p>) -> Option<Text<'p>>
        ensures joined { IfNone result (self.new ≡ self.old ++ next.entry) }
        ensures kept { IfSome result (λ back. (back ≡ next.entry) × (self.new ≡ self.old)) }
        ensures empty { self.old ≡ [] → IsNone result }
        ensures long { OnSome result (30 < sum_by len_utf8 self.old + sum_by len_utf8 next.entry) }
    {
        if self.is_empty() {
            *self = next;
            return None;
        }
        if let Place::Page(spare, bytes) = &mut self.place
            && let Some(left) = spare_behind(*spare, bytes, next.as_str())
        {
            *spare = left;
            return None;
        }
        if let Some(both) = both_here(self.as_str(), next.as_str()) {
            *self = both;
            return None;
        }
        Some(next)
    }
}

/// The first so many bytes, and more behind them.
#[inline]
fn put_behind(bytes: &[u8; SHORT], len: u8, more: &[u8]) -> [u8; SHORT]
    requires { len + length more.now ≤ 30 }
    ensures { take (len + length more.now) result ≡ take len bytes.now ++ more.now }
{
    let from = len as usize;
    let mut longer = *bytes;
    longer[from..from + more.len()].copy_from_slice(more);
    longer
}

/// One text and then another, where both fit into the value itself.
#[inline]
fn both_here<'p>(front: &str, back: &str) -> Option<Text<'p>>
    ensures both { IfSome result (λ both. both ≡ chars front.now ++ chars back.now) }
    ensures long { IfNone result (30 < length front.now + length back.now) }
{
    if front.len() > SHORT || back.len() > SHORT - front.len() {
        return None;
    }
    let len = front.len() as u8;
    let longer = put_behind(&short_bytes(front.as_bytes()), len, back.as_bytes());
    Some(Text {
        place: Place::Here(len + back.len() as u8, longer),
    })
}

/// A text of its own: one text and then another.
#[inline(never)]
fn grown<'p>(alloc: Global, front: &str, back: &str) -> Result<Text<'p>, AllocError>
    ensures { IfOk result (λ text. text ≡ chars front.now ++ chars back.now) }
{
    let mut text = String::with_capacity(alloc, front.len().saturating_add(back.len()))?;
    text.push_str(front)?;
    text.push_str(back)?;
    Text::of_owned(alloc, text)
}

/// How many bytes are left behind a text and the next one, where so many of some bytes stand behind the text, and those of the
/// next one come first among them.
fn spare_behind(spare: u32, bytes: &[u8], next: &str) -> Option<u32>
    requires { spare ≤ length bytes.now }
    ensures within { IfSome result (λ left. left ≤ spare) }
    ensures text { IfSome result (λ left. take (length bytes.now - left) bytes.now ≡ take (length bytes.now - spare) bytes.now ++ next.now) }
    ensures other { IfNone result (¬ (take (length next.now) (drop (length bytes.now - spare) bytes.now) ≡ next.now)) }
{
    let next = next.as_bytes();
    if next.len() > spare as usize {
        return None;
    }
    let at = bytes.len() - spare as usize;
    if &bytes[at..at + next.len()] == next {
        Some(spare - next.len() as u32)
    } else {
        None
    }
}
