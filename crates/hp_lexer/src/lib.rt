//! The whole lexer (13.2.5), over a text in any pieces.
#![tactic(auto)]

mod laws;
mod lexer;
mod turns;

pub use hp_tokens::{Cursor, LexState};
pub use laws::{any_pieces, places, steps_fall};
pub use lexer::{Asked, Lexer, NoMemory, Step};
