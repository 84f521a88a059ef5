//! What is left of a parser, and what a fault leaves behind, is given back here, one function for each type, so that its drop stands in one place.
ghost use Rattle.std.specs.Prelude.{◌≡◌};

use crate::parsing::Parsing;
use crate::sink::{Sink, Splitting};
use hp_control::{Assumptions, Change, Control, Edits, Guess, Nothing, Predictor};
use hp_lexer::Lexer;
use hp_pieces::States;
use hp_predict::Prescan;
use hp_tokens::LexState;
use hp_views::View;

/// Gives back a parser.
pub(crate) fn leave(parsing: Parsing<'_, Nothing>) {
    let Parsing {
        lexer,
        view,
        sink,
        ..
    } = parsing;
    leave_lexer(lexer);
    leave_edits(into_edits(view));
    leave_sink(sink);
}

/// Gives back a parser behind a guess.
pub(crate) fn leave_guess<P: Predictor + Drop>(parsing: Parsing<'_, Guess<P>>) {
    let _ = parsing;
}

/// Gives back a view of a guess.
pub(crate) fn leave_view<P: Predictor + Drop>(view: View<'_, Guess<P>>) {
    let _ = view;
}

/// Gives back a state.
pub(crate) fn leave_control(control: Control) {
    let Control { lex, .. } = control;
    leave_lex(lex);
}

/// Gives back the states before and behind a text.
pub(crate) fn leave_states(states: States) {
    let States { entry, exit } = states;
    leave_control(entry);
    leave_control(exit);
}

/// Gives back a change, and the answers that were kept with it.
pub(crate) fn leave_change(change: Change, kept: Assumptions) {
    let Change { lex, .. } = change;
    leave_lex(lex);
    let _ = kept;
}

/// Gives back edits that were split.
pub(crate) fn leave_splitting(splitting: Splitting<'_>) {
    let _ = splitting;
}

/// Gives back edits.
pub(crate) fn leave_edits(edits: Edits<'_>) {
    let _ = edits;
}

/// Gives back the lexer's part of a state.
pub(crate) fn leave_lex(lex: LexState) {
    let _ = lex;
}

/// Gives back a lexer.
pub(crate) fn leave_lexer(lexer: Lexer) {
    let Lexer { lex, .. } = lexer;
    leave_lex(lex);
}

/// Gives back the place of a parser's edits.
pub(crate) fn leave_sink(sink: Sink<'_>) {
    let _ = sink;
}

/// The edits of a view, whose state is given back.
pub(crate) fn into_edits<'p>(view: View<'p, Nothing>) -> Edits<'p>
    ensures { result ≡ view.entry.edits }
{
    let View { edits, change, .. } = view;
    let Change { lex, .. } = change;
    leave_lex(lex);
    edits
}

/// Gives back a guessed state.
pub(crate) fn leave_prescan(prescan: Prescan) {
    let _ = prescan;
}
