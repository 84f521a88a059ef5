//! That the edits of the sequential parser name only elements that are there before them, and that its next id counts the elements that
//! they make. Laws on contracts whose bodies do nothing.
#![tactic(auto)]

ghost use Rattle.hp_growing.specs.Laws.{
  AtOnceNamesThere,
  EndsHaveThere,
  EndsNameThere,
  FirstIsBelow,
  GrownBuilds,
  GuessBuilds,
  HandledNamesThere,
  LastNameThere,
  LeadsNameThere,
  LeadsSplit,
  PlacesCount,
  RunGrows,
  RunsCount,
  RunsNameThere,
  RunsSplit,
  TokensNameThere,
  TreesHaveThere,
};

/// From a valid state the edits of a token name only elements that are there before them, and the next id counts what they make; so it
/// is where tokens are handled at once.
pub fn tokens_name_there()
    ensures token { HandledNamesThere }
    ensures at_once { AtOnceNamesThere }
    ensures in_order { TokensNameThere }
{}

/// So do those of a run over a text from a valid state, and those of the end of input; and the inner edits of a run may be made first, by
/// themselves.
pub fn runs_name_there()
    ensures runs { RunsNameThere }
    ensures ends { EndsNameThere }
    ensures split { RunsSplit }
{}

/// So do a fragment's edits, which are those of the run but for how texts are joined, and those of the end of input; and the inner edits
/// of a fragment may be made first, by themselves.
pub fn fragments_name_there()
    ensures runs { LeadsNameThere }
    ensures ends { LastNameThere }
    ensures split { LeadsSplit }
{}

/// Where a tree has the elements below the next id, and only they stand in lists of children, so it is behind a run, at each place of a
/// page, and as far as the lists go behind the end of input.
pub fn trees_are_counted()
    ensures runs { RunsCount }
    ensures ends { EndsHaveThere }
    ensures places { PlacesCount }
    ensures pages { TreesHaveThere }
{}

/// A sound guess builds on the tree of a state what the run over what it covers builds there; and a fragment's edits name only what is
/// below it where, of ids, they name no others than the document's and that of the page's first element, which is there or no element is made.
/// A run over a known state comes to a grove and outer edits too, where its own elements are counted from the state's next id on; and
/// whatever a run comes to builds on the tree of its state what the run builds.
pub fn guesses_grow()
    ensures builds { GuessBuilds }
    ensures below { FirstIsBelow }
    ensures grown { GrownBuilds }
    ensures run { RunGrows }
{}
