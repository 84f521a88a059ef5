//! The run over a text, by the standard's states of the lexer, and the tree of a page.

ghost use Rattle.hp_runs.specs.Pages.{Joined, OneTree, PagesFit, PagesStayValid, RunsExist, StayValid, TreesExist};

/// The run over two texts in a row is the run over the second from where the first led; runs keep states valid, and so each
/// state that a run over a page leads to is valid, and fits: at most an entry a code point, and ids below 2^60; there is a run over
/// each text, and of each page one tree.
pub fn pages()
    ensures join { Joined }
    ensures valid { StayValid }
    ensures pages { PagesStayValid }
    ensures fit { PagesFit }
    ensures tree { OneTree }
    ensures run_exists { RunsExist }
    ensures tree_exists { TreesExist }
{}
