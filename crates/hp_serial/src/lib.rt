//! The HTML text of a document tree, without recursion.
#![tactic(auto)]

mod escape;
mod items;
mod walk;

pub use escape::escaped_texts_are_read_back;
pub use hp_elements::NoMemory;
pub use walk::html_text;
