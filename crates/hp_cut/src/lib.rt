//! Cuts a page into chunks: by size, at tags, and at listed places.
#![tactic(auto)]

mod choice;
mod cutters;
mod cutting;
mod listed;
mod scans;

pub use cutters::{cuts_at_tags, cuts_by_size};
pub use cutting::Cuts;
pub use hp_text::NoMemory;
pub use listed::{CutRefusal, cuts_listed};
