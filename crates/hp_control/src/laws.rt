//! The laws of plans and acts, for the crates above. Each contract is one of them; the bodies do nothing.
ghost use Rattle.hp_control.specs.Laws.{FaithfulInOrder, FaithfulByTest, MeansWhereTrue, KeptWhereTrue, KeptOnceWhereTrue, StayDistinct, NothingOlder, ValidIsOlder};
ghost use Rattle.hp_control.specs.Telling.{NamedOver, FixedMeansSame, NamedOnce, NamedRoom, ToldOnce, ToldRoom, ToldMakesSame};
ghost use Rattle.hp_control.specs.Examples.{Examples};

/// A plan that is carried out after another means the one act after the other.
pub fn plans_follow()
    ensures in_order { FaithfulInOrder }
    ensures by_test { FaithfulByTest }
{}

/// What was said to the questions of a step gives the meaning of its act wherever it is true, and what was kept tells where.
pub fn answers_tell()
    ensures means { MeansWhereTrue }
    ensures kept { KeptWhereTrue }
    ensures once { KeptOnceWhereTrue }
    ensures distinct { StayDistinct }
{}

/// Without an older state no act touches one.
pub fn nothing_is_older()
    ensures { NothingOlder }
{}

/// A valid state whose ids and entries can be counted may stand below a chunk.
pub fn valid_states_are_older()
    ensures { ValidIsOlder }
{}

/// What an older state's names read of it; that an edit is told once, with the room that it needs; and that ids which are counted
/// in 64 bits make the same of a tree.
pub fn edits_are_told()
    ensures over { NamedOver }
    ensures fixed { FixedMeansSame }
    ensures named_once { NamedOnce }
    ensures named_room { NamedRoom }
    ensures told_once { ToldOnce }
    ensures told_room { ToldRoom }
    ensures same { ToldMakesSame }
{}

/// The acts, computed on small states.
pub fn acts_by_example()
    ensures { Examples }
{}
