//! Selectors: reading one, and the elements of a tree that it matches, without recursion.
#![tactic(auto)]

ghost use Rattle.hp_select.specs.Examples.{Examples};

mod matching;
mod reading;
mod rows;
mod selector;
mod walk;

pub use hp_elements::NoMemory;
pub use selector::{CasedName, Combinator, SelectRefusal, Selector, Simple, Step};
pub use walk::select;

/// Texts are read, and elements matched, as they are meant to be.
pub fn selectors_by_example()
    ensures { Examples }
{}
