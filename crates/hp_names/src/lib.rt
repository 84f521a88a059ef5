//! Character references: the names with what they stand for, the longest name that a text begins with, and numeric values.
#![tactic(auto)]

mod names;
mod search;
mod table;
mod values;

pub use names::{Found, Names};
pub use values::numeric;
