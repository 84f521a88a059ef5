//! The words that the program is called with.
ghost use Rattle.std.specs.Prelude.{◌≡◌, ◌↔◌, [], ◌∷◌, ◌++◌, map, drop, string_bytes, IsTrue, IfOk, OnOk, OnErr};
ghost use Rattle.std.specs.Vec.Iter.{into_iter_items};

use hp_text::NoMemory;
use std::alloc::Global;
use std::env::Args;
use std::marker::Model;

/// The words after the program's name. A contract sees the list of their texts.
#[derive(Drop)]
pub struct Words {
    words: Option<Vec<String>>,
}

impl Model for Words {
    ghost use Rattle.std.specs.Prelude.{List, ℕ};

    ghost Value = { List (List ℕ) };

    ghost use Rattle.hp_words.specs.Words.{texts};

    ghost view = { λ w. texts w.words };
}

impl Words {
    /// No words. Takes no memory.
    pub fn new() -> Words
        ensures { result ≡ [] }
    {
        Words { words: None }
    }

    /// Appends a word.
    pub fn push(&mut self, alloc: Global, word: &str) -> Result<(), NoMemory>
        ensures ok { OnOk result (self.new ≡ self.old ++ word.now ∷ []) }
        ensures err { OnErr result (self.new ≡ self.old) }
    {
        let text = String::from_str(alloc, word)?;
        match &mut self.words {
            Some(words) => words.push(text)?,
            None => {
                let mut words = Vec::new(alloc);
                words.push(text)?;
                self.words = Some(words);
            }
        }
        Ok(())
    }

    /// There is no word.
    pub fn is_empty(&self) -> bool
        ensures { IsTrue result ↔ (self.now ≡ []) }
    {
        match &self.words {
            Some(words) => words.is_empty(),
            None => true,
        }
    }

    /// The words in their order.
    pub fn as_slice(&self) -> &[String]
        ensures { map string_bytes result.now ≡ self.now }
    {
        match &self.words {
            Some(words) => words.as_slice(),
            None => &[],
        }
    }
}

/// The words after the first one, which is the program's name.
pub fn words_after_name(alloc: Global, mut args: Args) -> Result<Words, NoMemory>
    ensures { IfOk result (λ words. words ≡ drop 1 (map string_bytes (into_iter_items args))) }
{
    let _name = args.next();
    let mut words = Words::new();
    for word in args {
        words.push(alloc, word.as_str())?;
    }
    Ok(words)
}
