//! The table of names, and the longest name that a text begins with.
ghost use Rattle.std.specs.Prelude.{◌≡◌, ℕ, List, IsTrue};
ghost use Rattle.hp_names.specs.BuiltIn as table;
ghost use Rattle.hp_names.specs.References.{is_table};
ghost use Rattle.std.specs.Bool.{OnFalse};
ghost use Rattle.hp_names.specs.Longest as spec;
ghost use Rattle.hp_names.specs.Longest.{IsLongest, OverChars, StaysClosed};

use crate::search;
use crate::table::{BYTES, ROWS, Row};
use std::marker::Model;

/// The name that was found: how many bytes it has, the one or two code points that it stands for, and whether its last byte is `;`.
#[derive(Clone, Copy, Debug, PartialEq, Eq)]
pub struct Found {
    pub length: u64,
    pub first: char,
    pub second: Option<char>,
    pub ends_with_semicolon: bool,
}

/// A table of reference names. Contracts see the references in the order of their names.
#[derive(Drop)]
pub struct Names {
    bytes: &'static [u8],
    rows: &'static [Row],
}

impl Model for Names {
    ghost use Rattle.std.specs.Prelude.{List, IsTrue};
    ghost use Rattle.hp_names.specs.References.{Reference, is_table};
    ghost use Rattle.hp_names.specs.Table.{references};

    ghost Value = { List Reference };

    ghost view = { λ n. references n.bytes.now n.rows.now };

    ghost invariant = { λ n. IsTrue (is_table (references n.bytes.now n.rows.now)) };
}

impl Names {
    /// The 365 built-in names: the 252 of HTML 4, `apos`, and `AMP COPY GT LT QUOT REG`, each with its semicolon, and 106 of them
    /// without it too.
    pub fn built_in() -> Names
        ensures { result ≡ table.built_in }
    {
        Names {
            bytes: &BYTES,
            rows: &ROWS,
        }
    }

    /// The longest name of the table that the text begins with (13.2.5.73); `None` where it begins with no name of the table.
    pub fn longest(&self, text: &[u8]) -> Option<Found>
        ensures exact { result ≡ spec.longest self.now text.now }
        ensures law { IsLongest self.now text.now result }
    {
        search::longest(self.bytes, self.rows, text)
    }

    /// Whether the text is the front of a longer name of the table, so that what follows may make a longer name.
    fn might_grow(&self, text: &[u8]) -> bool
        ensures exact { result ≡ spec.may_grow self.now text.now }
    {
        search::may_grow(self.bytes, self.rows, text)
    }

    /// Whether more text is needed (13.2.5.73): the text is the front of a longer name of the table, or a name of it without a
    /// semicolon.
    pub fn is_open(&self, text: &[u8]) -> bool
        ensures exact { result ≡ spec.is_open self.now text.now }
        ensures closed { OnFalse result (StaysClosed self.now text.now) }
    {
        self.might_grow(text) || is_whole_unclosed(self.longest(text), text)
    }

    /// The rules that each table keeps: its names are names, and rise by their bytes. So they are ASCII, and what is found in the UTF-8 of
    /// code points is what is found in the code points.
    pub fn rules(&self)
        ensures lawful { IsTrue (is_table self.now) }
        ensures over_chars { (chars : List ℕ) → OverChars self.now chars }
    {
        let _rows = &self.rows;
    }
}

fn is_whole_unclosed(found: Option<Found>, text: &[u8]) -> bool
    ensures { result ≡ spec.is_whole_unclosed found text.now }
{
    match found {
        Some(found) => found.length == text.len() as u64 && !found.ends_with_semicolon,
        None => false,
    }
}
