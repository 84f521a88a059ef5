//! A view that is a whole state: how it begins and ends.
ghost use Rattle.std.specs.Prelude.{◌≡◌};
ghost use Rattle.hp_control.specs.States.{IsValid};
ghost use Rattle.hp_control.specs.Faithful.{StandsOn, state_over};
ghost use Rattle.hp_control.specs.Nothing.{nothing};
ghost use Rattle.hp_views.specs.Begins.{whole_of, with_lexer};
ghost use Rattle.hp_views.specs.View.{split_of};

use crate::guessed::end_with;
use crate::view::{PageFacts, View};
use hp_control::{Change, Control, Edits, FormChange, Nothing};
use hp_tokens::LexState;

impl<'p> View<'p, Nothing> {
    /// The view that is this state, all of which is its own. It takes no memory.
    pub fn whole(control: Control) -> View<'p, Nothing>
        ensures whole { split_of result ≡ whole_of control }
        ensures state { state_over (split_of result) nothing ≡ control }
        ensures stands { StandsOn nothing (split_of result) }
    {
        let Control {
            lex,
            mode,
            original,
            templates,
            stack,
            formatting,
            head,
            form,
            frameset_ok,
            quirks,
            pending,
            skip_lf,
            next,
        } = control;
        let form = match form {
            Some(id) => FormChange::Own(id),
            None => FormChange::Cleared,
        };
        View {
            below: Nothing,
            change: Change {
                popped: 0,
                cuts: 0,
                stack,
                formatting,
                lex,
                last_tag_set: true,
                mode,
                original,
                templates,
                form,
                frameset_off: !frameset_ok,
                pending,
                skip_lf,
                made: next,
            },
            edits: Edits::new(),
            older_text: false,
            page: Some(PageFacts { head, quirks }),
        }
    }

    /// Ends the view: its state, with this state of the lexer, and the edits that were made.
    pub fn into_control(self, lex: LexState) -> (Control, Edits<'p>)
        requires valid { IsValid (with_lexer lex (state_over (split_of self) nothing)) }
        ensures state { result.0 ≡ with_lexer lex (state_over (split_of self.entry) nothing) }
        ensures edits { result.1 ≡ self.entry.edits }
    {
        let View {
            mut change,
            edits,
            page,
            ..
        } = self;
        end_with(&mut change, lex, true);
        let form = match change.form {
            FormChange::Own(id) => Some(id),
            FormChange::Kept => None,
            FormChange::Cleared => None,
        };
        let facts = page.unwrap_or(PageFacts {
            head: None,
            quirks: false,
        });
        let control = Control {
            lex: change.lex,
            mode: change.mode,
            original: change.original,
            templates: change.templates,
            stack: change.stack,
            formatting: change.formatting,
            head: facts.head,
            form,
            frameset_ok: !change.frameset_off,
            quirks: facts.quirks,
            pending: change.pending,
            skip_lf: change.skip_lf,
            next: change.made,
        };
        (control, edits)
    }
}
