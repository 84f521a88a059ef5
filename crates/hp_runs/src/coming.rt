//! How far a run over an older state has come, by the lexer's calls in code.

ghost use Rattle.hp_runs.specs.Coming.{BlanksCome, CutEnds, NameComes, RunBegins, SectionComes, SilenceComes, TagComes, TextBegins, TextComes, TokensCome, TokensRead};
ghost use Rattle.hp_runs.specs.Coming.{BlanksStop, TagStops, TextStops, TokensStop};

/// What the lexer's calls do to how far a run has come, where none of the tokens touches something older, each handled at once: the
/// run is at the lexer's place behind them, whatever switches they call for, and has the same edits but for how texts are joined.
pub fn comes_on()
    ensures begins { RunBegins }
    ensures text_begins { TextBegins }
    ensures read { TokensRead }
    ensures tokens { TokensCome }
    ensures tag { TagComes }
    ensures text { TextComes }
    ensures blanks { BlanksCome }
    ensures silence { SilenceComes }
    ensures section { SectionComes }
    ensures name { NameComes }
    ensures cut { CutEnds }
{}

/// And where one does, over a text before which nothing was read ahead: the run comes to the first that touches something older, which
/// began at the lexer's last place of rest before the answer.
pub fn comes_to_touch()
    ensures tokens { TokensStop }
    ensures tag { TagStops }
    ensures text { TextStops }
    ensures blanks { BlanksStop }
{}
