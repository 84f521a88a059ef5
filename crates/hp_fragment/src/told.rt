//! What a parser made behind a known state.
ghost use Rattle.std.specs.Prelude.{◌≡◌, map};
ghost use Rattle.hp_control.specs.Apply.{named_edit};
ghost use Rattle.hp_control.specs.Nothing.{nothing};
ghost use Rattle.hp_control.specs.States.{IsValid};
ghost use Rattle.hp_fragment.specs.Known.{stage_of, state_of};
ghost use Rattle.hp_fragment.specs.Making.{IsSplitIn, IsSplitting};

use crate::leaving::{into_edits, leave_lexer, leave_sink};
use crate::parsing::Parsing;
use crate::sink::{Splitting, into_splitting};
use hp_control::{Control, Edits, Nothing};
use hp_lexer::Lexer;

/// The state that a parser has reached, what its edits come to that were split, and the others.
pub(crate) fn told_state<'p>(parsing: Parsing<'p, Nothing>) -> (Control, Splitting<'p>, Edits<'p>)
    requires valid { IsValid (state_of (stage_of parsing)) }
    requires splits { IsSplitting parsing.sink }
    ensures state { result.0 ≡ state_of (stage_of parsing.entry) }
    ensures splitting { IsSplitIn parsing.entry.sink result.1 }
    ensures edits { result.2 ≡ parsing.entry.view.edits }
{
    let Parsing {
        lexer,
        view,
        sink,
        ..
    } = parsing;
    let splitting = into_splitting(sink);
    let Lexer { lex, .. } = lexer;
    let (control, edits) = view.into_control(lex);
    (control, splitting, edits)
}

/// The edits that a parser has made, with each element told by its id.
pub(crate) fn told_edits<'p>(parsing: Parsing<'p, Nothing>) -> Edits<'p>
    ensures { result ≡ map (named_edit nothing) parsing.entry.view.edits }
{
    let Parsing {
        lexer,
        view,
        sink,
        ..
    } = parsing;
    leave_lexer(lexer);
    leave_sink(sink);
    let mut edits = into_edits(view);
    edits.tell();
    edits
}
