//! The control state as a parser sees it whose chunk may begin in an unknown state, and the acts of tree construction on it.
//! After a refusal of any call the view is spent.
#![tactic(auto)]

mod asking;
mod closing;
mod fields;
mod forms;
mod guessed;
mod heads;
mod inserts;
mod laws;
mod lists;
mod place;
mod points;
mod pops;
mod removing;
mod reset;
mod tests_of_state;
mod view;
mod walks;
mod whole;

pub use asking::{Standing, older_html, older_listed, older_quiet, older_reach, older_same};
pub use laws::{
    begins_mean, closing_means, fields_mean, inserts_mean, lists_mean, places_mean, pops_mean,
    removes_mean, reset_means, steps_mean, tests_tell, whole_means,
};
pub use points::{is_called, point_of};
pub use view::{PageFacts, View};
pub use walks::{Walk, element_walk, listed_walk, name_walk, open_walk};
