//! A view over a guessed state: how it begins and ends.
ghost use Rattle.std.specs.Prelude.{◌≡◌, IfOk};
ghost use Rattle.hp_control.specs.declared.change.Change.{Change};
ghost use Rattle.hp_control.specs.Guessing.{AreDistinct};
ghost use Rattle.hp_views.specs.Begins.{begun_by, Begins, ended};
ghost use Rattle.hp_views.specs.View.{split_of};

use crate::view::View;
use hp_control::{
    Answer, Assumptions, Below, Change, Edits, FormChange, Guess, OpenElements, Predictor,
    Question, Stack,
};
use hp_elements::{Mode, NoMemory, Rest, Text};
use hp_tokens::LexState;
use std::alloc::Global;
use std::mem;

/// Nothing is changed yet, where that was answered at the start.
fn begun_by(answer: &Answer) -> Change
    ensures { result ≡ begun_by answer.now }
{
    let (lex, mode, original, skip_lf) = match answer {
        Answer::Resting {
            rest,
            after_cr,
            mode,
            original,
            skip_lf,
        } => (
            LexState::at_rest(*rest, *after_cr),
            *mode,
            *original,
            *skip_lf,
        ),
        _ => (
            LexState::at_rest(Rest::Data, false),
            Mode::Initial,
            None,
            false,
        ),
    };
    Change {
        popped: 0,
        cuts: 0,
        stack: OpenElements::new(),
        formatting: Stack::new(),
        lex,
        last_tag_set: false,
        mode,
        original,
        templates: Stack::new(),
        form: FormChange::Kept,
        frameset_off: false,
        pending: Text::new(),
        skip_lf,
        made: 0,
    }
}

/// Ends a change with this state of the lexer.
pub(crate) fn end_with(change: &mut Change, lex: LexState, last_tag_set: bool)
    ensures { change.new ≡ ended lex last_tag_set change.old }
{
    let _ = mem::replace(&mut change.lex, lex);
    change.last_tag_set = last_tag_set;
}

impl<'p, P: Predictor + Drop> View<'p, Guess<P>> {
    /// Asks what is told at the chunk's start, and answers the view that begins there, and what was told. Where that isn't that
    /// the lexer is at rest, the view can only be ended.
    pub fn guessed(alloc: Global, guess: Guess<P>) -> Result<(View<'p, Guess<P>>, Answer), NoMemory>
        ensures { IfOk result (λ pair. Begins P.says guess pair.0.below (split_of pair.0) pair.1) }
    {
        let mut below = guess;
        let answer = below.ask(alloc, Question::Entry)?;
        let change = begun_by(&answer);
        let view = View {
            below,
            older_text: matches!(change.mode, Mode::InTableText),
            change,
            edits: Edits::new(),
            page: None,
        };
        Ok((view, answer))
    }

    /// Ends the view: what it changed, with this state of the lexer, the answers that it was given, and the edits that were
    /// made. `last_tag_set` says whether the lexer was told a start tag since the chunk began.
    pub fn into_change(self, lex: LexState, last_tag_set: bool) -> (Change, Assumptions, Edits<'p>)
        ensures change { result.0 ≡ ended lex last_tag_set self.entry.change }
        ensures kept { result.1 ≡ self.entry.below.kept }
        ensures distinct { AreDistinct result.1 }
        ensures edits { result.2 ≡ self.entry.edits }
    {
        let View {
            below,
            mut change,
            edits,
            ..
        } = self;
        end_with(&mut change, lex, last_tag_set);
        (change, below.into_kept(), edits)
    }
}
