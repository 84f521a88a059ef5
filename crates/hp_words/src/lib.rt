//! What the program's words ask for: a page is parsed, one is made, or the parser is drilled.
#![tactic(auto)]

ghost use Rattle.hp_words.specs.Examples.{Examples};

mod command;
mod numbers;
mod options;
mod reading;
mod setting;
mod words;

pub use hp_predict::GuessKind;
pub use hp_text::NoMemory;
pub use reading::read_setting;
pub use setting::{CutSetting, OutputForm, PageSetting, Places, SelectorText, Setting};
pub use words::{Words, words_after_name};

/// Lines of words ask for what they are meant to.
pub fn settings_by_example()
    ensures { Examples }
{}
