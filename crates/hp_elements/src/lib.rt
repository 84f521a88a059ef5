//! The vocabulary of the parser: names, the sets of elements that the rules name, tokens, texts and lists.
#![tactic(auto)]

mod act;
mod attribute_name;
mod chain;
mod element_name;
mod find;
mod kinds;
mod known;
mod letters;
mod list;
mod name;
mod places;
mod quirks;
mod raw_text;
mod respelling;
mod set_masks;
mod sets;
mod short;
mod slots;
mod tag;
mod text;
mod token;

pub use act::{Act, Scope, Test, Which, acts_in};
pub use attribute_name::AttributeName;
pub use chain::{Chain, ChainIter};
pub use element_name::ElementName;
pub use kinds::{Kinds, Point};
pub use known::Known;
pub use list::{List, ListIntoIter};
pub use name::Name;
pub use respelling::{ForeignAttribute, Respelling};
pub use sets::{Namespace, SetName, is_in};
pub use std::alloc::AllocError as NoMemory;
pub use tag::{Attribute, AttributeSpace, Tag, copied_attributes, same_attributes};
pub use text::Text;
pub use token::{CharClass, Doctype, DoctypeParts, Kind, Mode, Rest, Token, Tokens};
