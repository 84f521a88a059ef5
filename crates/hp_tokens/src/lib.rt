//! The lexer's state, its cursor over a page's text, and what every row of the lexer's table has in common.
#![tactic(auto)]

mod building;
mod combinators;
mod cursor;
mod few;
mod laws;
mod lexing;
mod machine;
mod owned;
mod plain;
mod rows;
mod runs;
mod same;
mod state;
mod steps;
mod stops;

pub use building::{Building, NewAttribute, NewDoctype, NewTag, Part, add};
pub use combinators::{
    again, back, buffer_emitted, emitted, emitted_at_end, emitted_char, ended, flushed, go,
    is_blank, put, put_lowered, replaced,
};
pub use cursor::{Cursor, LongRun, ORIGIN, Run};
pub use laws::any_pieces;
pub use lexing::LexState;
pub use machine::{Machine, push_char};
pub use owned::OwnedText;
pub use plain::{
    AnyAttributeNameText, AnyTagNameText, AttributeNameText, BogusCommentText, CdataText,
    CommentText, DataText, DoubleQuotedText, EscapedText, PlaintextText, RawText, SingleQuotedText,
    TagNameText, UnquotedText,
};
pub use rows::{EndStep, Reads, Step, Turn};
pub use runs::{TextRun, next_data, next_raw, next_text, step_in_part, step_in_text};
pub use state::{Return, State};
pub use std::alloc::AllocError as NoMemory;
pub use steps::{Lexes, Table, advance, at_end, end_by_row, step_by_row};
