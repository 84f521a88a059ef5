//! Parts of a page and whole pages: the run over a part from a known state, the end of input, and the tree of a page, by one loop.
#![tactic(auto)]

mod at_end;
mod at_text;
mod blanks;
mod by_kind;
mod grown;
mod known;
mod laws;
mod leaving;
mod parsing;
mod reading;
mod replaying;
mod sink;
mod speculating;
mod told;
mod whole;

pub use at_end::ending;
pub use by_kind::speculate_by;
pub use hp_elements::NoMemory;
pub use replaying::replay;
pub use speculating::speculate;
pub use whole::parse_whole;
