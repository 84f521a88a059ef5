//! The edits that build a document tree, and what each of them does to it; the control state, what a chunk asks of an
//! older one, and what it changes of it.
#![tactic(auto)]

mod answers;
mod asked;
mod below;
mod change;
mod control;
mod copies;
mod edit;
mod element;
mod guess;
mod hashing;
mod items;
mod kinds;
pub mod laws;
mod laying;
mod open_elements;
mod pairs;
mod places;
mod question;
mod recurring;
mod reset;
mod sameness;
mod sought;
mod spelled;
mod splice;
mod stack;
mod tags;
mod telling;
mod truths;
mod walks;

pub use answers::answer;
pub use below::{Below, Nothing, Predictor};
pub use change::{Change, FormChange, Refusal};
pub use control::{Control, lex_start};
pub use edit::{Child, Edit, Edits, Place, Ref};
pub use element::{FormattingEntry, OpenElement};
pub use guess::Guess;
pub use kinds::{is_html, is_named, is_within};
pub use laying::put_listed;
pub use open_elements::{OpenElements, WalkEnd, put_open};
pub use question::{Answer, Assumptions, Crossing, EntryKind, FactKind, Kept, Question};
pub use recurring::Recurring;
pub use reset::{mode_of, reset_from};
pub use spelled::same_name;
pub use stack::Stack;
pub use tags::same_tag;
pub use truths::{second_is_body, truth};
