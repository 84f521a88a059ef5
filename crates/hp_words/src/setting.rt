//! What the words ask for, as types.
ghost use Rattle.std.specs.Prelude.{◌≡◌, IfOk};

use hp_predict::GuessKind;
use hp_text::NoMemory;
use std::alloc::Global;
use std::marker::Model;

/// What the words ask for.
#[derive(Drop)]
pub enum Setting {
    /// The page on the standard input is parsed (no mode).
    Page(PageSetting),
    /// The page of a seed is written.
    Make {
        seed: u64,
        bytes: u32,
    },
    /// The page of a seed is parsed with both cutters and the three predictors, and counts are written.
    Drill {
        seed: u64,
        bytes: u32,
        workers: u32,
        chunk: u32,
    },
}

/// How the page on the standard input is parsed.
#[derive(Drop)]
pub struct PageSetting {
    /// How many workers parse it: 1 to 64.
    pub workers: u32,
    /// Where it is cut.
    pub cutting: CutSetting,
    /// What guesses the state before a chunk.
    pub guess: GuessKind,
    /// A line for each chunk, and one of their sum, is written to the notes.
    pub report: bool,
    /// As what its tree is written.
    pub form: OutputForm,
}

/// As what a tree is written.
#[derive(Drop)]
pub enum OutputForm {
    /// The printed form: a line for each element, attribute, text, comment and doctype.
    PrintedTree,
    /// The HTML text.
    HtmlText,
    /// The lines of the elements that a selector matches, with those of their attributes.
    Elements { selector: SelectorText },
}

/// The text that a word gives for a selector: at most 1,024 bytes. It may be none. A contract sees its bytes.
#[derive(Drop)]
pub struct SelectorText {
    text: String,
}

impl Model for SelectorText {
    ghost use Rattle.std.specs.Prelude.{List, ℕ, string_bytes};

    ghost Value = { List ℕ };

    ghost view = { λ s. string_bytes s.text };
}

impl SelectorText {
    /// The text of a word.
    pub(crate) fn new(alloc: Global, text: &str) -> Result<SelectorText, NoMemory>
        ensures { IfOk result (λ selector. selector ≡ text.now) }
    {
        let text = String::from_str(alloc, text)?;
        Ok(SelectorText { text })
    }

    /// The text.
    pub fn as_str(&self) -> &str
        ensures { result.now ≡ self.now }
    {
        self.text.as_str()
    }
}

/// Where the page is cut.
#[derive(Drop)]
pub enum CutSetting {
    /// At tags, into chunks of about `size` bytes: 64 to 16,777,216.
    AtTags { size: u32 },
    /// At places that the words list.
    Listed { places: Places },
}

/// The places that the words list, in bytes of the text, each below 2^32 and in the order of the words. A contract sees the list.
#[derive(Drop)]
pub struct Places {
    items: Vec<u64>,
}

impl Model for Places {
    ghost use Rattle.std.specs.Prelude.{List, ℕ};

    ghost Value = { List ℕ };

    ghost view = { λ p. p.items.items };
}

impl Places {
    /// The places as a list that was read.
    pub(crate) fn new(items: Vec<u64>) -> Places
        ensures { result ≡ items.items }
    {
        Places { items }
    }

    /// The places in the order of the words.
    pub fn as_slice(&self) -> &[u64]
        ensures { result.now ≡ self.now }
    {
        self.items.as_slice()
    }
}
