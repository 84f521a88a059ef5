//! The lexer's states for text, tags and character references.
#![tactic(auto)]

mod attribute_name;
mod named;
mod references;
mod rows;
mod straight;
mod tags;
mod usual_reference;

pub use straight::next_tag;
pub use tags::{advance, any_pieces, at_end, is_here, next_plain, next_text};
pub use usual_reference::next_reference;
