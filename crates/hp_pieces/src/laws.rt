//! The laws of runs from known states, which the bodies do nothing for.

ghost use Rattle.hp_pieces.specs.At.{AtCovers, AtEnd, AtFits, AtGoesOn, AtOnce, AtStart, AtValid};
ghost use Rattle.hp_pieces.specs.FirstLaws.{FirstBefore, FirstExists, FirstInBytes, FirstOnce, FirstParts, OwnLeads, OwnOrTouches, OwnOverNothing, TouchesInside, WholeIsOwn};
ghost use Rattle.hp_pieces.specs.Laws.{EndsHandled, EndsRead, GuessGrows, LeadsExist, LeadsJoin, LeadsOnce, LeadsValid, NeverAsked, PageBuilt, RestingWaits, RestsForMore, RunsWait, StartWaits, WaitingStays};

/// From each state there is one run over each text, and it leads from a valid state to a valid one. The run over two texts in a row
/// is that over the first and then that over the second, from where the first led. The run over a page and the end of input behind
/// it build the page's tree. Along a run from a valid state the last start tag's name is never asked, and it rests only where more
/// text is needed.
pub fn runs_between()
    ensures exist { LeadsExist }
    ensures once { LeadsOnce }
    ensures valid { LeadsValid }
    ensures join { LeadsJoin }
    ensures page { PageBuilt }
    ensures asked { NeverAsked }
    ensures rests { RestsForMore }
{}

/// The tokens of the end of input, handled one behind the other, are the end of the run, whatever they call for.
pub fn ends_of_text()
    ensures read { EndsRead }
    ensures handled { EndsHandled }
{}

/// The state before a page waits for text, and so does each state that a run leads to from a valid one, and each valid one in a
/// resting state. Over a state that waits the run over nothing stays where it is, and a sound guess is the run over what it covers,
/// of whose edits the inner ones may be made first, by themselves.
pub fn states_wait()
    ensures start { StartWaits }
    ensures runs { RunsWait }
    ensures resting { RestingWaits }
    ensures stays { WaitingStays }
    ensures guess { GuessGrows }
{}

/// From each older state there is one place up to which a fragment of a text can reach. Of the text before the first group that
/// touches something older all can be covered. From a valid state that place is one between two code points, and what touches
/// something older began within the text; so where all can be covered nothing older is touched, and that is a run over the text.
pub fn firsts()
    ensures once { FirstOnce }
    ensures exist { FirstExists }
    ensures before { FirstBefore }
    ensures parts { FirstParts }
    ensures bytes { FirstInBytes }
    ensures inside { TouchesInside }
    ensures whole { WholeIsOwn }
    ensures apart { OwnOrTouches }
    ensures own { OwnLeads }
    ensures known { OwnOverNothing }
{}

/// At each place of a page there is one state and one tree of the sequential parser, valid, and such that ids can be counted. At
/// its front they are those of the start; a run over what follows leads on, and the end of input behind it builds the page's tree.
pub fn pages_at()
    ensures once { AtOnce }
    ensures start { AtStart }
    ensures on { AtGoesOn }
    ensures covers { AtCovers }
    ensures end { AtEnd }
    ensures valid { AtValid }
    ensures fits { AtFits }
{}
