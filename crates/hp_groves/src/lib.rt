//! Which edits of a fragment reach older elements, and that the others may be made first, by themselves. Laws on contracts whose bodies do
//! nothing.
#![tactic(auto)]

ghost use Rattle.hp_groves.specs.Examples.{Examples};
ghost use Rattle.hp_groves.specs.Laws.{
  CountsOn,
  GroveHasAll,
  GroveIsOwn,
  JoinedCountSame,
  JoinedGrovesSame,
  JoinedMakeSame,
  JoinedNameSame,
  JoinedOutersJoin,
  JoinedOwnGroveSame,
  JoinedOwnOuterJoin,
  NamedJoin,
  OneByOneJoin,
  OuterIsOwn,
  OuterMakesNone,
  OwnMakesSame,
  SplitMakesSame,
  StaysThere,
};

/// Edits that name what is there leave a tree that names what is there, and count its elements on.
pub fn trees_grow()
    ensures there { StaysThere }
    ensures count { CountsOn }
{}

/// What inner edits make by themselves, put behind a tree, and then the outer edits: that is what all edits make of the tree in order.
pub fn inner_edits_go_first()
    ensures same { SplitMakesSame }
    ensures all { GroveHasAll }
    ensures none { OuterMakesNone }
{}

/// It doesn't matter whether texts that go one after the other into the same place are one text or several.
pub fn texts_join()
    ensures same { JoinedMakeSame }
    ensures names { JoinedNameSame }
    ensures count { JoinedCountSame }
    ensures grove { JoinedGrovesSame }
    ensures outer { JoinedOutersJoin }
    ensures own_grove { JoinedOwnGroveSame }
    ensures own_outer { JoinedOwnOuterJoin }
    ensures named { NamedJoin }
    ensures one_by_one { OneByOneJoin }
{}

/// A fragment's edits are split by themselves, whatever state names their elements later.
pub fn fragments_split()
    ensures grove { GroveIsOwn }
    ensures outer { OuterIsOwn }
    ensures same { OwnMakesSame }
{}

/// What is inner and outer in small lists of edits.
pub fn splits_by_example()
    ensures { Examples }
{}
