//! A page chunk by chunk: each chunk behind a guess, on one thread or on several, joined to what stands before it.
#![tactic(auto)]

mod gate;
mod joining;
mod leaving;
mod mains;
mod order;
mod pace;
mod page;
mod turns;
mod uncounted;

pub use gate::{Gate, OpenGate};
pub use hp_text::NoMemory;
pub use joining::{Joined, join_chunk};
pub use order::parse_in_order;
pub use page::parse_page;
pub use turns::work;
