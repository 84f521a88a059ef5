//! Predictors: what is said of the state before a chunk while it isn't known yet.
#![tactic(auto)]

mod found;
pub mod laws;
mod name;
mod open_names;
mod pile;
mod prescan;
mod quiet;
mod tags;

pub use hp_elements::NoMemory;
pub use prescan::Prescan;
pub use quiet::{Contrary, GuessKind, Quiet};
