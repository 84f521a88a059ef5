//! The laws of runs that the parser cites, each apart from the others.
ghost use Rattle.hp_pieces.specs.Laws.{LeadsValid, PageBuilt};

/// A run leads from a valid state to a valid one.
pub(crate) fn runs_stay_valid()
    ensures { LeadsValid }
{
    hp_pieces::runs_between();
}

/// The run over a page and the end of input behind it build the page's tree.
pub(crate) fn pages_end()
    ensures { PageBuilt }
{
    hp_pieces::runs_between();
}
