//! The handling of one token: dispatch, and the rules carried out act by act (13.2.6). After a refusal the view is spent: what it
//! shows is not promised.
#![tactic(auto)]

mod acts;
mod characters;
mod ends;
mod inserts;
mod laws;
mod plain;
mod questions;
mod rows;
mod table_rows;
mod table_text;
mod token_parts;
mod turns;
mod usual;

pub use acts::carry;
pub use laws::{acts_mean, known_handled, older_handled, tests_tell};
pub use plain::{handle_text, handle_text_below, may_take_text, takes_text};
pub use token_parts::Spending;
pub use turns::{Handled, handle};
