//! What the sequential parser is: the handling of one token as a function of the whole state (13.2.6). Nothing here parses
//! at run time: specs/ has the definitions, and each contract is a law of them; the bodies do nothing.
#![tactic(auto)]

ghost use Rattle.hp_model.specs.Apart.{AtOnceApart, AtOnceLeaves, HandlingApart, HandlingLeaves, RunsApart, RunsLeave};
ghost use Rattle.hp_model.specs.AtOnce.{BuiltAtOnce, RunsAtOnce, RunsTouchFirst};
ghost use Rattle.hp_model.specs.Examples.{Examples};
ghost use Rattle.hp_model.specs.Growth.{BuiltGrows};
ghost use Rattle.hp_model.specs.Laws.{ForeignByActs, ModeByActs};
ghost use Rattle.hp_model.specs.Runs.{OneRun, OneTree, RunsJoin, RunsStayValid};
ghost use Rattle.hp_model.specs.Texts.{TextsAtOnce, TextsTouchFirst};
ghost use Rattle.hp_model.specs.Whole.{ActsFind, HandedOn, StaysValid, TurnsEnd};

/// Short pages lead to the trees of the standard.
pub fn pages_by_example()
    ensures { Examples }
{}

/// The rules of a mode, and those of foreign content, are the acts of the rows, one by one.
pub fn rules_by_acts()
    ensures mode { ModeByActs }
    ensures foreign { ForeignByActs }
{}

/// From a valid state, for a token as the lexer reads it: its turns end, a valid state is left, a token that is handed on is
/// handled from the state that the turn left, and each act finds what it reads.
pub fn handling()
    ensures ends { TurnsEnd }
    ensures valid { StaysValid }
    ensures handed_on { HandedOn }
    ensures found { ActsFind }
{}

/// Over any rules of the lexer's states whose moves stay made when more text follows: the run over two texts in a row is the run
/// over the second from where the first led. A text has one run and a page one tree, and runs keep states valid.
pub fn runs()
    ensures join { RunsJoin }
    ensures one { OneRun }
    ensures tree { OneTree }
    ensures valid { RunsStayValid }
{}

/// A run of characters handled at once is its code points handled one by one: the same state, switch, end of parsing and touched
/// parts of older states, and the same edits but for how texts are joined. So are the tokens that the lexer emits, taken as runs. Of
/// a run, and of a text that goes into the current node as it comes, only the first code point touches something older.
pub fn at_once()
    ensures token { RunsAtOnce }
    ensures tokens { BuiltAtOnce }
    ensures first { RunsTouchFirst }
    ensures first_of_text { TextsTouchFirst }
{}

/// A text that goes into the current node as it comes, handled as one run, of white space or not, is its code points handled one
/// by one, each of its own class.
pub fn texts_at_once()
    ensures { TextsAtOnce }
{}

/// What tokens make at most: characters bring no entry of the formatting list and use no ids but those that wait for them; each
/// other token inside a page brings at most one entry, and uses so many ids.
pub fn growth()
    ensures { BuiltGrows }
{}

/// Handling doesn't read the lexer's part of the control state: whatever it is, a token has the same outcome, switch and end of
/// parsing, and that part is left as it was. So are the steps of a run.
pub fn lexer_apart()
    ensures token { HandlingApart }
    ensures at_once { AtOnceApart }
    ensures left { HandlingLeaves }
    ensures left_at_once { AtOnceLeaves }
    ensures run { RunsApart }
    ensures left_by_run { RunsLeave }
{}
