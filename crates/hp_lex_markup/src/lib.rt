//! The lexer's states for markup declarations, comments, doctypes and CDATA sections.
#![tactic(auto)]

mod comments;
mod doctypes;
mod markup;
mod rows;
mod words;

pub use markup::{advance, any_pieces, at_end, is_here};
