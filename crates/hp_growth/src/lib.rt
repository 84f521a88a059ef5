//! What a fragment's edits come to as they come: the inner ones are made at once into a tree of its own elements, and the outer ones are
//! kept in a list.
#![tactic(auto)]

ghost use Rattle.hp_growth.specs.Laws.{GroveIsAtHand, HandGrows, OuterGrows};

mod growing;
mod marks;
mod naming;
mod reaching;
mod touched;
mod touching;

pub use growing::Growing;

/// Edits that come one by one split as they do all together.
pub fn edits_split_one_by_one()
    ensures hand { HandGrows }
    ensures outer { OuterGrows }
    ensures grove { GroveIsAtHand }
{}
