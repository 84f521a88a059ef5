//! The lists of a tree, in parts that were each made by itself, seen as plain lists: one tree's lists are hung behind another's as they are.
#![tactic(auto)]

mod appending;
mod attributes;
mod depth;
mod finding;
mod linking;
mod node;
mod part;
mod runs;
mod store;

pub use node::{Counts, Kind, Node};
pub use part::Leaf;
pub use runs::add_cells;
pub use store::Store;
