//! Texts that own their code points, which contracts see as lists of code points.
ghost use Rattle.std.specs.Prelude.{◌≡◌, ◌↔◌, ℕ, List, [], ◌∷◌, ◌++◌, ◌<◌, ◌==◌, OnOk, OnErr, IfOk, IsTrue, string_bytes, length, MatchOption, sum_by};

use crate::NoMemory;
use crate::few::{Few, ROOM};
use hp_elements::{Known, Name, Text};
use std::alloc::Global;
use std::marker::Model;

/// A text that owns its code points. A short one takes no memory.
pub struct OwnedText {
    store: Store,
}

impl Drop for OwnedText {
    #[inline(always)]
    fn drop(self) {
        let OwnedText { store: _ } = self;
    }
}

#[derive(Drop)]
enum Store {
    Few(Few),
    Long(String),
    /// The text of a known name.
    Named(Known),
}

impl Model for OwnedText {
    ghost use Rattle.std.specs.Prelude.{ℕ, List};

    ghost Value = { List ℕ };

    ghost use Rattle.hp_tokens.specs.Texts.{spelled, IsStored};

    ghost view = { λ t. spelled t.store };

    ghost invariant = { λ t. IsStored t.store };
}

impl OwnedText {
    ghost use Rattle.std.specs.Str.{chars};
    ghost use Rattle.std.specs.Char.{len_utf8};
    ghost use Rattle.hp_tokens.specs.Reading.{first};

    /// The empty text.
    #[inline]
    pub fn new() -> OwnedText
        ensures { result ≡ [] }
    {
        OwnedText {
            store: Store::Few(Few::new()),
        }
    }

    /// The text, in UTF-8.
    #[inline]
    pub fn as_str(&self) -> &str
        ensures { chars result.now ≡ self.now }
    {
        match &self.store {
            Store::Few(bytes) => unsafe { std::str::from_utf8_unchecked(bytes.as_slice()) },
            Store::Long(text) => text.as_str(),
            Store::Named(known) => known.text(),
        }
    }

    /// Empties the text.
    #[inline]
    pub fn clear(&mut self)
        ensures { self.new ≡ [] }
    {
        match &mut self.store {
            Store::Few(bytes) => bytes.clear(),
            Store::Long(text) => text.clear(),
            Store::Named(_) => self.store = Store::Few(Few::new()),
        }
    }

    /// Becomes the text of a name. That of a known one is not copied. An `Err` leaves it empty.
    #[inline]
    pub fn set_name(&mut self, alloc: Global, name: &Name) -> Result<(), NoMemory>
        ensures ok { OnOk result (self.new ≡ name.now) }
        ensures err { OnErr result (self.new ≡ []) }
    {
        if let Some(known) = name.known() {
            self.store = Store::Named(known);
            return Ok(());
        }
        self.clear();
        self.push_str(alloc, name.as_str())
    }

    /// Appends a text. An `Err` changes nothing.
    #[inline]
    pub fn push_str(&mut self, alloc: Global, more: &str) -> Result<(), NoMemory>
        ensures ok { OnOk result (self.new ≡ self.old ++ chars more.now) }
        ensures err { OnErr result (self.new ≡ self.old) }
    {
        if let Store::Few(bytes) = &mut self.store
            && more.len() <= ROOM - bytes.len()
        {
            bytes.extend(more.as_bytes());
            return Ok(());
        }
        self.push_longer(alloc, more)
    }

    /// The same, also where the text is long or becomes so.
    #[inline(never)]
    fn push_longer(&mut self, alloc: Global, more: &str) -> Result<(), NoMemory>
        ensures ok { OnOk result (self.new ≡ self.old ++ chars more.now) }
        ensures err { OnErr result (self.new ≡ self.old) }
    {
        if let Store::Long(text) = &mut self.store {
            return text.push_str(more);
        }
        let text = joined(alloc, self.as_str(), more)?;
        self.store = Store::Long(text);
        Ok(())
    }

    /// Appends a code point. An `Err` changes nothing.
    pub fn push(&mut self, alloc: Global, c: char) -> Result<(), NoMemory>
        ensures ok { OnOk result (self.new ≡ self.old ++ c ∷ []) }
        ensures err { OnErr result (self.new ≡ self.old) }
    {
        let mut bytes = [0; 4];
        let text: &str = c.encode_utf8(&mut bytes);
        self.push_str(alloc, text)
    }

    /// How many bytes the text has in UTF-8.
    #[inline]
    pub fn len_bytes(&self) -> u64
        ensures { result ≡ sum_by len_utf8 self.now }
    {
        self.as_str().len() as u64
    }

    /// Whether there is no code point.
    #[inline]
    pub fn is_empty(&self) -> bool
        ensures { result ≡ (length self.now == 0) }
    {
        self.as_str().is_empty()
    }

    /// The first code point.
    #[inline]
    pub fn first(&self) -> Option<char>
        ensures { result ≡ first self.now }
    {
        self.as_str().chars().next()
    }

    /// Takes the first code point.
    #[inline]
    pub fn take_first(&mut self) -> Option<char>
        ensures { MatchOption result ((self.old ≡ []) × (self.new ≡ self.old)) (λ c. self.old ≡ c ∷ self.new) }
    {
        let c = self.first()?;
        match &mut self.store {
            Store::Few(bytes) => bytes.drop_front(c.len_utf8()),
            Store::Long(text) => {
                let _bytes = text.as_bytes();
                let _ = text.remove(0);
            }
            Store::Named(known) => {
                let mut bytes = Few::new();
                bytes.extend(known.text().as_bytes());
                bytes.drop_front(c.len_utf8());
                self.store = Store::Few(bytes);
            }
        }
        Some(c)
    }

    /// A copy.
    pub fn copy(&self, alloc: Global) -> Result<OwnedText, NoMemory>
        ensures { IfOk result (λ copy. copy ≡ self.now) }
    {
        let mut copy = OwnedText::new();
        copy.push_str(alloc, self.as_str())?;
        Ok(copy)
    }

    /// The text as a token has it. What stands on the heap is not copied.
    pub fn into_text<'p>(self, alloc: Global) -> Result<Text<'p>, NoMemory>
        ensures { IfOk result (λ text. text ≡ self) }
    {
        let OwnedText { store } = self;
        match store {
            Store::Few(bytes) => {
                let text = unsafe { std::str::from_utf8_unchecked(bytes.as_slice()) };
                Text::from_str(alloc, text)
            }
            Store::Long(text) => Text::of_owned(alloc, text),
            Store::Named(known) => Text::from_str(alloc, known.text()),
        }
    }

    /// Whether two texts are the same.
    pub fn same(&self, other: &OwnedText) -> bool
        ensures { IsTrue result ↔ (self.now ≡ other.now) }
    {
        self.as_str() == other.as_str()
    }
}

/// The two texts, one behind the other: with room for more, where the first one is not empty.
#[inline(never)]
fn joined(alloc: Global, first: &str, second: &str) -> Result<String, NoMemory>
    ensures { IfOk result (λ text. string_bytes text ≡ first.now ++ second.now) }
{
    let room = if first.is_empty() {
        second.len()
    } else {
        first.len().saturating_add(second.len()).saturating_mul(2)
    };
    let mut text = String::with_capacity(alloc, room)?;
    text.push_str(first)?;
    text.push_str(second)?;
    Ok(text)
}
