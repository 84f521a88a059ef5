//! Prints a document tree, without recursion.
#![tactic(auto)]

mod ahead;
mod attributes;
mod elements;
mod filled;
mod items;
mod kept;
mod output;
mod parts;
mod walk;

pub use attributes::attributes_are_in_order;
pub use elements::write_elements;
pub use hp_elements::NoMemory;
pub use parts::write_tree_by;
pub use walk::{Refusal, print_tree, write_tree};
