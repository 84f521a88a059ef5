//! A cursor over a text, which contracts see as its unread code points and the place of the first.
ghost use Rattle.std.specs.Prelude.{◌≡◌, ℕ, List, [], ◌∷◌, ◌++◌, length, drop, take, IsUtf8, ◌+◌, ◌<◌, ◌≤◌, ◌^◌, MatchOption, true, false, slice_index, Bool};
ghost use Rattle.std.specs.List.{list_all};

use crate::stops::four_stops_len;
use hp_elements::Text;
use memchr::memchr3;
use std::marker::Model;

/// The place of a text's first byte. Places count from here, so that the few code points that stood before a text, and
/// were read ahead, have places too.
pub const ORIGIN: u64 = 1 << 32;

/// A test of bytes: which of them a run goes over. A byte of 128 and above always passes, so that a run ends only
/// between two code points. CR, which is read as LF, never does.
pub trait Run {
    ghost passes: { ℕ → Bool };

    /// Whether the byte passes.
    fn passes(byte: u8) -> bool
        ensures { result ≡ passes byte };

    ghost high: { (c : ℕ) → 128 ≤ c → passes c ≡ true };

    ghost no_cr: { passes 13 ≡ false };
}

/// A test of bytes whose runs are found by whole vectors.
pub trait LongRun: Run {
    /// How many bytes from `at` on pass.
    fn run_len(bytes: &[u8], at: usize) -> usize
        requires { at ≤ length bytes.now }
        ensures { PassesFrom Self.passes bytes.now at result };
}

/// A cursor over a text.
#[derive(Drop)]
pub struct Cursor<'p> {
    text: &'p str,
    at: usize,
}

impl<'p> Model for Cursor<'p> {
    ghost use Rattle.std.specs.Prelude.{drop, ◌+◌, ◌^◌};
    ghost use Rattle.std.specs.Str.{chars};
    ghost use Rattle.hp_tokens.specs.Reading.{Unread, IsAt};

    ghost Value = { Unread };

    ghost view = { λ c. record { place = 2 ^ 32 + c.at; text = chars (drop c.at c.text.now) } };

    ghost invariant = { λ c. IsAt c.text.now c.at };
}

impl<'p> Cursor<'p> {
    ghost use Rattle.std.specs.Str.{chars};
    ghost use Rattle.hp_tokens.specs.Reading.{Unread, first, Reads, ReadsRun, StopsRun, ReadsAscii, SkipsRun, SkipsPairCr, IsFront, IsAsciiFront, opens_start_tag, opens_end_tag};
    ghost use Rattle.std.specs.Prelude.{◌≢◌, Some, IsUtf8};
    ghost use Rattle.hp_tokens.specs.Plain.{none_of, whole_data_stops, whole_raw_stops};
    ghost use Rattle.hp_tokens.specs.Rows.{is_blank};

    /// A cursor at the start of a text.
    pub fn of_str(text: &'p str) -> Cursor<'p>
        requires fits { length text.now < 2 ^ 63 }
        ensures { result ≡ record { place = 2 ^ 32; text = chars text.now } }
    {
        Cursor { text, at: 0 }
    }

    /// A cursor at the start of a text in UTF-8.
    pub fn new(text: &'p [u8]) -> Cursor<'p>
        requires utf8 { IsUtf8 text.now }
        requires fits { length text.now < 2 ^ 63 }
        ensures { result ≡ record { place = 2 ^ 32; text = chars text.now } }
    {
        let text = unsafe { std::str::from_utf8_unchecked(text) };
        Cursor { text, at: 0 }
    }

    /// A cursor at the same place.
    #[inline(always)]
    pub fn copy(&self) -> Cursor<'p>
        ensures { result ≡ self.now }
    {
        Cursor {
            text: self.text,
            at: self.at,
        }
    }

    /// The place of the first unread code point, in bytes from `ORIGIN`, which is the text's start.
    #[inline(always)]
    pub fn place(&self) -> u64
        ensures place { result ≡ self.now.place }
        ensures origin { 2 ^ 32 ≤ result }
    {
        ORIGIN + self.at as u64
    }

    /// The next code point.
    #[inline(always)]
    pub fn peek(&self) -> Option<char>
        ensures { result ≡ first self.now.text }
    {
        self.text[self.at..].chars().next()
    }

    /// Takes the next code point.
    #[inline(always)]
    pub fn next(&mut self) -> Option<char>
        ensures { MatchOption result ((self.old.text ≡ []) × (self.new ≡ self.old)) (λ c. Reads self.old c self.new) }
    {
        let c = self.text[self.at..].chars().next()?;
        self.at += c.len_utf8();
        Some(c)
    }

    /// The unread bytes.
    #[inline(always)]
    pub fn rest(&self) -> &'p [u8]
        ensures chars { chars result.now ≡ self.now.text }
        ensures utf8 { IsUtf8 result.now }
    {
        &self.text.as_bytes()[self.at..]
    }

    /// The first byte of the next code point, which is the code point where that is ASCII.
    #[inline(always)]
    pub fn front(&self) -> Option<u8>
        ensures { IsFront self.now.text result }
    {
        self.rest().first().copied()
    }

    /// Whether the next two code points are `<` and an ASCII letter.
    #[inline(always)]
    pub fn opens_start_tag(&self) -> bool
        ensures { result ≡ opens_start_tag self.now.text }
    {
        match self.rest() {
            [b'<', letter, ..] => letter.is_ascii_alphabetic(),
            _ => false,
        }
    }

    /// Whether the next three code points are `<`, `/` and an ASCII letter.
    #[inline(always)]
    pub fn opens_end_tag(&self) -> bool
        ensures { result ≡ opens_end_tag self.now.text }
    {
        match self.rest() {
            [b'<', b'/', letter, ..] => letter.is_ascii_alphabetic(),
            _ => false,
        }
    }

    /// Takes the next code point if it is this one, which is ASCII, and answers whether it is.
    #[inline(always)]
    pub fn take_byte(&mut self, byte: u8) -> bool
        requires ascii { byte < 128 }
        ensures taken { result ≡ true → Reads self.old byte self.new }
        ensures left { result ≡ false → (self.new ≡ self.old) × (first self.old.text ≢ Some byte) }
    {
        let bytes = self.text.as_bytes();
        if self.at < bytes.len() && bytes[self.at] == byte {
            self.at += 1;
            return true;
        }
        false
    }

    /// Takes the tabs, line feeds, form feeds and spaces at the front, and answers whether there are any.
    #[inline(always)]
    pub fn skip_blanks(&mut self) -> bool
        ensures run { SkipsRun is_blank self.old self.new result }
        ensures stops { StopsRun is_blank self.new }
    {
        let count = blanks_len(self.text.as_bytes(), self.at);
        self.at += count;
        count > 0
    }

    /// Takes the CR of a CR LF pair at the front, if there is one.
    #[inline(always)]
    pub fn skip_pair_cr(&mut self)
        ensures { SkipsPairCr self.old self.new }
    {
        if let [b'\r', b'\n', ..] = self.rest() {
            self.at += 1;
        }
    }

    /// The bytes behind the next code point, which is ASCII.
    #[inline(always)]
    pub fn behind_front(&self) -> &'p [u8]
        requires front { IsAsciiFront 1 self.now.text }
        ensures chars { chars result.now ≡ drop 1 self.now.text }
        ensures utf8 { IsUtf8 result.now }
    {
        &self.rest()[1..]
    }

    /// Takes so many code points, which are ASCII.
    #[inline(always)]
    pub fn skip_ascii(&mut self, count: usize)
        requires front { IsAsciiFront count self.old.text }
        ensures { ReadsAscii count self.old self.new }
    {
        self.at += count;
    }

    /// Takes the run of code points at the front that pass.
    #[inline(always)]
    pub fn take_run<R: Run>(&mut self) -> &'p str
        ensures run { ReadsRun R.passes self.old (chars result.now) self.new }
        ensures stops { StopsRun R.passes self.new }
    {
        let count = run_len::<R>(self.text.as_bytes(), self.at);
        let from = self.at;
        self.at += count;
        &self.text[from..self.at]
    }

    /// The same, for runs of which most are long.
    #[inline(always)]
    pub fn take_long_run<R: LongRun>(&mut self) -> &'p str
        ensures run { ReadsRun R.passes self.old (chars result.now) self.new }
        ensures stops { StopsRun R.passes self.new }
    {
        let count = R::run_len(self.text.as_bytes(), self.at);
        let from = self.at;
        self.at += count;
        &self.text[from..self.at]
    }

    /// Takes the run of code points at the front that pass, as a part of the text, in which nothing is copied.
    #[inline(always)]
    pub fn take_text<R: Run>(&mut self) -> Text<'p>
        ensures run { ReadsRun R.passes self.old result self.new }
        ensures stops { StopsRun R.passes self.new }
    {
        let count = run_len::<R>(self.text.as_bytes(), self.at);
        let from = self.at;
        self.at += count;
        Text::of_page(self.text, from, self.at)
    }

    /// Takes the text at the front up to the next `<`, `&`, CR or U+0000, as a part of the text.
    #[inline]
    pub fn take_data(&mut self) -> Text<'p>
        ensures run { ReadsRun (none_of whole_data_stops) self.old result self.new }
        ensures stops { StopsRun (none_of whole_data_stops) self.new }
    {
        let count = four_stops_len(self.text.as_bytes(), self.at, b'&', b'<');
        let from = self.at;
        self.at += count;
        Text::of_page(self.text, from, self.at)
    }

    /// Takes the text at the front up to the next `<`, CR or U+0000, as a part of the text.
    #[inline]
    pub fn take_raw(&mut self) -> Text<'p>
        ensures run { ReadsRun (none_of whole_raw_stops) self.old result self.new }
        ensures stops { StopsRun (none_of whole_raw_stops) self.new }
    {
        let rest = &self.text.as_bytes()[self.at..];
        let count = memchr3(b'<', b'\r', b'\0', rest).unwrap_or(rest.len());
        let from = self.at;
        self.at += count;
        Text::of_page(self.text, from, self.at)
    }

    /// Takes the tabs, line feeds, form feeds and spaces at the front, as a part of the text.
    #[inline(always)]
    pub fn take_blanks(&mut self) -> Text<'p>
        ensures run { ReadsRun is_blank self.old result self.new }
        ensures stops { StopsRun is_blank self.new }
    {
        let count = blanks_len(self.text.as_bytes(), self.at);
        let from = self.at;
        self.at += count;
        Text::of_page(self.text, from, self.at)
    }
}

ghost use Rattle.hp_tokens.specs.Reading.{PassesFrom};

/// How many bytes from `at` on pass.
#[inline(always)]
fn run_len<R: Run>(bytes: &[u8], at: usize) -> usize
    requires { at ≤ length bytes.now }
    ensures { PassesFrom R.passes bytes.now at result }
{
    for (i, byte) in bytes[at..].iter().enumerate() {
        if !R::passes(*byte) {
            return i;
        }
    }
    bytes.len() - at
}

ghost use Rattle.hp_tokens.specs.Rows.{is_blank};

/// How many bytes from `at` on are tabs, line feeds, form feeds or spaces.
#[inline(always)]
fn blanks_len(bytes: &[u8], at: usize) -> usize
    requires { at ≤ length bytes.now }
    ensures { PassesFrom is_blank bytes.now at result }
{
    for (i, byte) in bytes[at..].iter().enumerate() {
        if !matches!(*byte, b'\t' | b'\n' | b'\x0c' | b' ') {
            return i;
        }
    }
    bytes.len() - at
}
