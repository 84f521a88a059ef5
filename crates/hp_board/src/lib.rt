//! The board of a page's chunks: which chunk is whose, what was posted, up to where the page is committed, and the journal of it.
#![tactic(auto)]

mod board;
mod claims;
mod ends;
mod journal;
mod judging;
mod kinds;
mod laws;
mod owner;
mod pairs;
mod posts;
mod slot;
mod spent;
mod steps;
mod tally;

pub use board::Board;
pub use hp_elements::NoMemory;
pub use journal::{BoardStep, Entry, Journal, MAIN, Origin, Status};
pub use kinds::{QuestionKind, kind_of};
pub use steps::{Advance, Claim, PostCause, PostRefusal};
pub use tally::Tally;
