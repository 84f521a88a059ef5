//! What a part of a page does to the parser: its fragment, and the end of input.
#![tactic(auto)]

mod by;
mod ending;
mod exact;
mod exact_parts;
mod fragment;
mod guessed;
mod guessed_parts;
mod laws;
mod tokens;

pub use by::By;
pub use ending::Ending;
pub use exact::Exact;
pub use exact_parts::{ExactParts, States};
pub use fragment::Fragment;
pub use guessed::Guessed;
pub use guessed_parts::GuessedParts;
pub use laws::{ends_of_text, firsts, pages_at, runs_between, states_wait};
pub use tokens::of_page;
