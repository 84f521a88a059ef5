//! The lexer's states for raw text: RCDATA, RAWTEXT, script data with its escaped states, and PLAINTEXT.
#![tactic(auto)]

mod raw;
mod rows;
mod script;

pub use raw::{advance, any_pieces, at_end, is_here, next_plain, next_text};
