//! Reconstruction of the active formatting elements, the adoption agency algorithm and what else works on that list, over a
//! state whose lower part may be unknown. After a refusal of any call the view is spent.
#![tactic(auto)]

mod adopting;
mod ark;
mod climb;
mod elements;
mod entries;
mod laws;
mod links;
mod pending;
mod plain;
mod reconstruction;
mod turns;

pub use ark::append_to_list;
pub use laws::{adoption_means, append_to_list_means, flush_means, reconstruct_means};
pub use links::close_link;
pub use pending::flush;
pub use plain::adopt;
pub use reconstruction::reconstruct;
