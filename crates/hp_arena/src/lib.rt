//! The document tree: nodes linked in rings, which edits change without memory.
#![tactic(auto)]

mod arena;
mod grove;
mod leaves;
mod levels;
mod links;
mod readers;
mod roots;
mod tree;

pub use grove::{GraftRefusal, Grove};
pub use readers::{At, NodeView, Runs, Spot, is_template};
pub use tree::Tree;
