//! The committed front of a page: the state and the tree behind the text that was joined, and how a fragment is joined to them.
#![tactic(auto)]

mod checking;
mod front;
mod joining;
mod laws;
mod laying;
mod making;
mod parts;
mod settling;
mod spent;

pub use checking::{Checked, Looked, is_sound};
pub use front::{Front, JoinRefusal};
pub use laws::fronts_go_on;
pub use spent::Spent;
