//! Foreign content: which tokens its rules are for, and what those rules do (13.2.6, 13.2.6.5). After a refusal of any call
//! the view is spent.
#![tactic(auto)]

mod attributes;
mod dispatch;
mod ends;
mod inserts;

pub use attributes::has_font_attribute;
pub use dispatch::goes_to_foreign;
pub use ends::{names_foreign, pop_to_point, put_replacements, through_foreign};
pub use inserts::{insert_as_current, insert_foreign};
