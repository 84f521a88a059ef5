//! The laws of the plans, for the crates above. Each contract is one of them; the bodies do nothing.
ghost use Rattle.hp_views.specs.Steps.{StepsAre};
ghost use Rattle.hp_views.specs.Tests.{TestsAre};
ghost use Rattle.hp_views.specs.Laws.{FieldsMean, ListMeans, TestsTell, PopsMean, PlacesMean, InsertsMean, ResetMeans, ClosingMeans, RemovesMean, BeginsMean, WholeMeans};

/// The acts that set one field.
pub fn fields_mean()
    ensures { FieldsMean }
{}

/// The acts on the list of active formatting elements.
pub fn lists_mean()
    ensures { ListMeans }
{}

/// What the rules test of a state.
pub fn tests_tell()
    ensures { TestsTell }
{}

/// Popping.
pub fn pops_mean()
    ensures { PopsMean }
{}

/// Places.
pub fn places_mean()
    ensures { PlacesMean }
{}

/// Nodes put into places.
pub fn inserts_mean()
    ensures { InsertsMean }
{}

/// The step of each call, that is the plan that it carries out and the act that it means; and what each test asks and tells.
pub fn steps_mean()
    ensures steps { StepsAre }
    ensures tests { TestsAre }
{}

/// Resetting the insertion mode.
pub fn reset_means()
    ensures { ResetMeans }
{}

/// Closing elements with what their ends imply.
pub fn closing_means()
    ensures { ClosingMeans }
{}

/// The head element, the end of a form, and own elements and entries out of mid-list.
pub fn removes_mean()
    ensures { RemovesMean }
{}

/// Where a view begins over an older state.
pub fn begins_mean()
    ensures { BeginsMean }
{}

/// Over a known state no act crosses, and each is done as it is in that state.
pub fn whole_means()
    ensures { WholeMeans }
{}
