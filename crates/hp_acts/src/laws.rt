//! The laws of the acts and tests of a row, for the crates above. Each contract is one of them; the bodies do nothing.
ghost use Rattle.hp_acts.specs.Known.{KnownHandled};
ghost use Rattle.hp_acts.specs.Older.{OlderHandled};
ghost use Rattle.hp_acts.specs.Laws.{ActsMean, TestsTell};

/// Each act of a row means on a view what it means on a full state.
pub fn acts_mean()
    ensures { ActsMean }
{}

/// Each test of a row tells of a view what holds of the full state.
pub fn tests_tell()
    ensures { TestsTell }
{}

/// Over a known state the plan of handling a token is its handling in that state, and it crosses nowhere.
pub fn known_handled()
    ensures { KnownHandled }
{}

/// Over any older state the plan of handling a token is its handling in the whole state, or it crosses where something older is
/// touched.
pub fn older_handled()
    ensures { OlderHandled }
{}
