//! The parser over a text behind a known state: how it begins and ends.
ghost use Rattle.std.specs.Prelude.{◌≡◌, [], IfOk, OnOk};
ghost use Rattle.std.specs.Str.{chars};
ghost use Rattle.hp_control.specs.Faithful.{state_over};
ghost use Rattle.hp_control.specs.Nothing.{nothing};
ghost use Rattle.hp_control.specs.States.{IsValid, lex_start};
ghost use Rattle.hp_lexer.specs.declared.lexer.Asked.TheVariants as asked;
ghost use Rattle.hp_older.specs.Over.{IsOver};
ghost use Rattle.hp_views.specs.View.{split_of};
ghost use Rattle.hp_fragment.specs.Known.{stage_of, state_of, way_from, EndsInput, RanFrom};
ghost use Rattle.hp_fragment.specs.Making.{Amounts, kind_of};
ghost use Rattle.hp_fragment.specs.Reading.{Handled, HasRead, IsAtEnd, IsReady};

use crate::NoMemory;
use crate::leaving::{leave, leave_lex, leave_lexer, leave_sink};
use crate::parsing::Parsing;
use crate::sink::Sink;
use hp_control::{Control, Nothing, Refusal, lex_start};
use hp_elements::Tokens;
use hp_lexer::{Cursor, Lexer};
use hp_pieces::of_page;
use hp_views::View;
use std::alloc::Global;
use std::mem;

impl<'p> Parsing<'p, Nothing> {
    /// The parser that has read the text behind that state.
    pub fn behind(
        alloc: Global,
        from: &Control,
        text: &'p str,
        sink: Sink<'p>,
    ) -> Result<Parsing<'p, Nothing>, NoMemory>
        requires valid { IsValid from.now }
        requires empty { Amounts (kind_of sink) sink nothing [] [] }
        ensures at_end { IfOk result (λ p. IsAtEnd (stage_of p)) }
        ensures ran { IfOk result (λ p. RanFrom from.now (chars text.now) (kind_of sink.entry) (stage_of p)) }
    {
        hp_older::answers_over();
        let mut parsing = Parsing::before(alloc, from, text, sink)?;
        match parsing.run(alloc) {
            Ok(()) => Ok(parsing),
            Err(_) => {
                leave(parsing);
                Err(NoMemory)
            }
        }
    }

    /// The parser in this state, with the text before it.
    pub fn before(
        alloc: Global,
        from: &Control,
        text: &'p str,
        sink: Sink<'p>,
    ) -> Result<Parsing<'p, Nothing>, NoMemory>
        requires valid { IsValid from.now }
        requires empty { Amounts (kind_of sink) sink nothing [] [] }
        ensures ready { IfOk result (λ p. IsReady (stage_of p)) }
        ensures nothing_asked { IfOk result (λ p. p.lexer.asked ≡ asked.Nothing) }
        ensures state { IfOk result (λ p. state_of (stage_of p) ≡ from.now) }
        ensures over { IfOk result (λ p. IsOver nothing (split_of p.view)) }
        ensures edits { IfOk result (λ p. p.view.edits ≡ []) }
        ensures sink { IfOk result (λ p. p.sink ≡ sink.entry) }
        ensures reads { IfOk result (λ p. HasRead (way_from from.now (chars text.now) (kind_of sink.entry)) (stage_of p)) }
    {
        hp_runs::comes_on();
        let lexer = match Lexer::from_state(alloc, &from.lex) {
            Ok(lexer) => lexer,
            Err(fault) => {
                leave_sink(sink);
                return Err(fault);
            }
        };
        match view_of(alloc, from) {
            Ok(view) => Ok(Parsing {
                lexer,
                input: Cursor::of_str(text),
                view,
                sink,
            }),
            Err(fault) => {
                leave_lexer(lexer);
                leave_sink(sink);
                Err(fault)
            }
        }
    }

    /// Handles the end of input behind a text that was read, or behind a state.
    pub fn end_input(&mut self, alloc: Global) -> Result<(), Refusal>
        requires nothing_asked { self.old.lexer.asked ≡ asked.Nothing }
        requires over { IsOver nothing (split_of self.old.view) }
        requires valid { IsValid (state_of (stage_of self.old)) }
        ensures { OnOk result (EndsInput (stage_of self.old) (stage_of self.new)) }
    {
        hp_model::at_once();
        hp_older::answers_over();
        hp_older::views_over();
        hp_pieces::ends_of_text();
        let tokens = Lexer::from_state(alloc, &self.lexer.lex)?.finish(alloc)?;
        self.handle_last(alloc, tokens)
    }

    /// Handles the tokens of the end of input. What they call for has no effect, since nothing is read behind them.
    fn handle_last(&mut self, alloc: Global, tokens: Tokens<'static>) -> Result<(), Refusal>
        ensures { OnOk result (Handled (stage_of self.old) (stage_of self.new) tokens.entry) }
    {
        for token in tokens {
            let own = of_page(alloc, token)?;
            self.handle_one(alloc, own)?;
        }
        Ok(())
    }
}

/// A view of a copy of the state, whose lexer's part is told by the lexer.
fn view_of<'p>(alloc: Global, from: &Control) -> Result<View<'p, Nothing>, NoMemory>
    ensures over { IfOk result (λ view. IsOver nothing (split_of view)) }
    ensures control { IfOk result (λ view. state_over (split_of view) nothing ≡ record from.now { lex = lex_start }) }
    ensures edits { IfOk result (λ view. view.edits ≡ []) }
{
    hp_older::view_begins();
    let mut control = from.copy(alloc)?;
    leave_lex(mem::replace(&mut control.lex, lex_start()));
    control.is_kept();
    Ok(View::whole(control))
}
