//! The sequential parser within a text, whatever is below it: a page, a part of one behind a known state, or a part behind a guess.
ghost use Rattle.std.specs.Prelude.{◌≡◌, ◌∷◌, [], ◌≤◌, false, true, IfErr, IfOk, OnOk};
ghost use Rattle.hp_tokens.specs.Advancing.{AreRuns, held};
ghost use Rattle.hp_lexer.specs.Standing.{stands};
ghost use Rattle.hp_acts.specs.Plain.{may_take_text, takes_text};
ghost use Rattle.hp_model.specs.Texts.{as_run};
ghost use Rattle.hp_views.specs.View.{split_of};
ghost use Rattle.hp_fragment.specs.Reading.{stage, Crosses, GoesFurther, GoesToEnd, Handled, HandledBelow, IfCrossed, IsAtEnd, IsAtText, IsReady, StepsOn, TookText, Touched, TouchedBelow, Tried, WentOn, WentStraight};

use crate::at_text::{begins_text, is_of_text};
use crate::blanks::next_blanks;
use crate::sink::Sink;
use hp_acts::{handle, handle_text, handle_text_below, may_take_text, takes_text};
use hp_control::{Below, Refusal};
use hp_elements::{CharClass, Kinds, Text, Token, Tokens};
use hp_lexer::{Asked, Cursor, Lexer, Step};
use hp_views::View;
use std::alloc::Global;

/// The sequential parser within a text: the lexer, what is still to be read, the control state over what is below, and where the
/// edits go. After a refusal it is spent.
#[derive(Drop)]
pub(crate) struct Parsing<'p, B: Drop> {
    pub lexer: Lexer,
    /// What is still to be read of the text.
    pub input: Cursor<'p>,
    pub view: View<'p, B>,
    pub sink: Sink<'p>,
}

impl<'p, B: Below + Drop> Parsing<'p, B> {
    /// Reads the text to its end.
    pub fn run(&mut self, alloc: Global) -> Result<(), Refusal>
        requires ready { IsReady (stage B.heard self.old) }
        ensures at_end { OnOk result (IsAtEnd (stage B.heard self.new)) }
        ensures reads { OnOk result (GoesToEnd (stage B.heard self.old) (stage B.heard self.new)) }
        ensures crossed { IfErr result (λ refused. IfCrossed refused (Crosses (stage B.heard self.old) (stage B.heard self.new))) }
    {
        'steps: loop {
            self.read_straight(alloc)?;
            if !self.step_by_table(alloc)? {
                return Ok(());
            }
        }
    }

    /// Takes texts and tags straight, as long as such come next.
    #[inline(never)]
    fn read_straight(&mut self, alloc: Global) -> Result<(), Refusal>
        requires ready { IsReady (stage B.heard self.old) }
        ensures went { OnOk result (WentStraight (stage B.heard self.old) (stage B.heard self.new)) }
        ensures reads { OnOk result (GoesFurther (stage B.heard self.old) (stage B.heard self.new)) }
        ensures crossed { IfErr result (λ refused. IfCrossed refused (Crosses (stage B.heard self.old) (stage B.heard self.new))) }
    {
        'steps: loop {
            if !self.step_straight(alloc)? {
                return Ok(());
            }
        }
    }

    /// Takes the tag, the text or the white space that comes next straight: a text whole where it goes into the current node as it
    /// comes, which is asked where that is an older one, else white space alone, where no line feed is to be skipped. Answers whether
    /// there was one.
    fn step_straight(&mut self, alloc: Global) -> Result<bool, Refusal>
        requires ready { IsReady (stage B.heard self.old) }
        ensures tried { IfOk result (Tried (stage B.heard self.old) (stage B.heard self.new)) }
        ensures reads { OnOk result (GoesFurther (stage B.heard self.old) (stage B.heard self.new)) }
        ensures crossed { IfErr result (λ refused. IfCrossed refused (Crosses (stage B.heard self.old) (stage B.heard self.new))) }
    {
        // `<` begins no text.
        if let Some(b'<') = self.input.front() {
            return self.take_tag(alloc);
        }
        if takes_text(&self.view) {
            return self.take_text(alloc);
        }
        if may_take_text(&self.view) && self.is_at_text() {
            return self.take_text_below(alloc);
        }
        if self.view.change.skip_lf {
            return Ok(false);
        }
        self.take_blanks(alloc)
    }

    /// Takes a text at the front whole, where it goes into the current node as it comes. Answers whether there was one.
    #[inline(always)]
    fn take_text(&mut self, alloc: Global) -> Result<bool, Refusal>
        requires ready { IsReady (stage B.heard self.old) }
        requires takes { takes_text (split_of self.old.view) ≡ true }
        ensures tried { IfOk result (Tried (stage B.heard self.old) (stage B.heard self.new)) }
        ensures reads { OnOk result (GoesFurther (stage B.heard self.old) (stage B.heard self.new)) }
        ensures crossed { IfErr result (λ refused. IfCrossed refused (Crosses (stage B.heard self.old) (stage B.heard self.new))) }
    {
        hp_asked::answers_lead();
        hp_asked::right_goes_on();
        hp_lexer::steps_fall();
        hp_older::texts_over();
        hp_older::views_over();
        hp_runs::comes_on();
        hp_runs::comes_to_touch();
        match self.next_text() {
            Some(text) => {
                self.put_text(alloc, text)?;
                Ok(true)
            }
            None => Ok(false),
        }
    }

    /// Whether a code point comes next that is emitted as it stands.
    #[inline(always)]
    fn is_at_text(&self) -> bool
        ensures { result ≡ true → IsAtText (stands self.now.lexer self.now.input) }
    {
        let lex = &self.lexer.lex;
        if lex.machine.after_cr || !lex.ahead.is_empty() {
            return false;
        }
        match self.lexer.asked {
            Asked::Nothing => is_of_text(lex.machine.state) && begins_text(self.input.front()),
            _ => false,
        }
    }

    /// Takes a text at the front whole, where nothing own is open and the older current node is HTML, which is asked first. Answers
    /// whether one was taken.
    #[inline(never)]
    fn take_text_below(&mut self, alloc: Global) -> Result<bool, Refusal>
        requires ready { IsReady (stage B.heard self.old) }
        requires may { may_take_text (split_of self.old.view) ≡ true }
        requires at_text { IsAtText (stands self.old.lexer self.old.input) }
        ensures tried { IfOk result (Tried (stage B.heard self.old) (stage B.heard self.new)) }
        ensures reads { OnOk result (GoesFurther (stage B.heard self.old) (stage B.heard self.new)) }
        ensures crossed { IfErr result (λ refused. IfCrossed refused (Crosses (stage B.heard self.old) (stage B.heard self.new))) }
    {
        hp_asked::answers_lead();
        hp_asked::right_goes_on();
        hp_lexer::steps_fall();
        hp_older::views_over();
        hp_runs::comes_on();
        hp_runs::comes_to_touch();
        if !self.view.current_is(alloc, Kinds::AnyHtml)? {
            return Ok(false);
        }
        match self.next_text() {
            Some(text) => {
                self.put_text_below(alloc, text)?;
                Ok(true)
            }
            None => Ok(false),
        }
    }

    /// Takes the white space at the front as one token. Answers whether there was any.
    #[inline(never)]
    fn take_blanks(&mut self, alloc: Global) -> Result<bool, Refusal>
        requires ready { IsReady (stage B.heard self.old) }
        requires none_skipped { self.old.view.change.skip_lf ≡ false }
        ensures tried { IfOk result (Tried (stage B.heard self.old) (stage B.heard self.new)) }
        ensures reads { OnOk result (GoesFurther (stage B.heard self.old) (stage B.heard self.new)) }
        ensures crossed { IfErr result (λ refused. IfCrossed refused (Crosses (stage B.heard self.old) (stage B.heard self.new))) }
    {
        hp_asked::answers_lead();
        hp_asked::right_goes_on();
        hp_lexer::steps_fall();
        hp_older::views_over();
        hp_runs::comes_on();
        hp_runs::comes_to_touch();
        match next_blanks(&mut self.lexer, &mut self.input) {
            Some(text) => {
                let class = CharClass::White;
                self.handle_one(alloc, Token::Characters { class, text })?;
                Ok(true)
            }
            None => Ok(false),
        }
    }

    /// The text at the front that is emitted as it stands, or what a usual reference there stands for.
    fn next_text(&mut self) -> Option<Text<'p>>
        requires held { held self.old.lexer.lex ≤ self.old.input.place }
        ensures { TookText (stage B.heard self.old) (stage B.heard self.new) result }
    {
        match self.lexer.next_plain(&mut self.input) {
            Some(text) => Some(text),
            None => self.lexer.next_reference(&mut self.input),
        }
    }

    /// Takes a usual tag at the front straight. Answers whether there was one; otherwise the lexer may have gone on a little.
    fn take_tag(&mut self, alloc: Global) -> Result<bool, Refusal>
        requires ready { IsReady (stage B.heard self.old) }
        ensures tried { IfOk result (Tried (stage B.heard self.old) (stage B.heard self.new)) }
        ensures reads { OnOk result (GoesFurther (stage B.heard self.old) (stage B.heard self.new)) }
        ensures crossed { IfErr result (λ refused. IfCrossed refused (Crosses (stage B.heard self.old) (stage B.heard self.new))) }
    {
        hp_asked::answers_lead();
        hp_asked::right_goes_on();
        hp_lexer::steps_fall();
        hp_older::views_over();
        hp_runs::comes_on();
        hp_runs::comes_to_touch();
        match self.lexer.next_tag(alloc, &mut self.input) {
            Ok(Some(tag)) => {
                self.handle_one(alloc, tag)?;
                Ok(true)
            }
            Ok(None) => Ok(false),
            Err(_) => Err(Refusal::NoMemory),
        }
    }

    /// One step by the lexer's table, and what it calls for. Answers whether the text goes on.
    #[inline(never)]
    fn step_by_table(&mut self, alloc: Global) -> Result<bool, Refusal>
        requires ready { IsReady (stage B.heard self.old) }
        ensures steps { IfOk result (StepsOn (stage B.heard self.old) (stage B.heard self.new)) }
        ensures reads { IfOk result (WentOn (stage B.heard self.old) (stage B.heard self.new)) }
        ensures crossed { IfErr result (λ refused. IfCrossed refused (Crosses (stage B.heard self.old) (stage B.heard self.new))) }
    {
        hp_asked::answers_lead();
        hp_asked::right_goes_on();
        hp_lexer::steps_fall();
        hp_older::answers_over();
        hp_older::views_over();
        hp_runs::comes_on();
        hp_runs::comes_to_touch();
        match self.lexer.next(alloc, &mut self.input)? {
            Step::Tokens { tokens, .. } => {
                self.handle_all(alloc, tokens)?;
                Ok(true)
            }
            Step::AskCdata => {
                let foreign = self.view.foreign_now(alloc)?;
                self.lexer.answer_cdata(foreign);
                Ok(true)
            }
            Step::AskLastTag => {
                let name = self.view.last_tag(alloc)?;
                self.lexer.answer_last_tag(alloc, &name)?;
                Ok(true)
            }
            Step::AtCut => Ok(false),
        }
    }

    /// Handles the tokens of a step, one behind the other.
    fn handle_all(&mut self, alloc: Global, tokens: Tokens<'p>) -> Result<(), Refusal>
        ensures handled { OnOk result (Handled (stage B.heard self.old) (stage B.heard self.new) tokens.entry) }
        ensures crossed { IfErr result (λ refused. IfCrossed refused (Touched (stage B.heard self.old) (stage B.heard self.new) tokens.entry)) }
    {
        for token in tokens {
            self.handle_one(alloc, token)?;
        }
        Ok(())
    }

    /// Handles a token, and switches the lexer where it calls for that.
    #[inline(always)]
    pub fn handle_one(&mut self, alloc: Global, token: Token<'p>) -> Result<(), Refusal>
        ensures handled { OnOk result (Handled (stage B.heard self.old) (stage B.heard self.new) (token.entry ∷ [])) }
        ensures crossed { IfErr result (λ refused. IfCrossed refused (Touched (stage B.heard self.old) (stage B.heard self.new) (token.entry ∷ []))) }
    {
        hp_lexer::steps_fall();
        hp_model::lexer_apart();
        hp_older::tokens_over();
        hp_older::views_over();
        let handled = handle(alloc, &mut self.view, token)?;
        self.sink.take(alloc, &mut self.view.edits)?;
        match handled.switch {
            None => Ok(()),
            Some(rest) => {
                self.lexer.switch(rest);
                Ok(())
            }
        }
    }

    /// Handles a text without U+0000 as one run, where it goes into the current node as it comes. It calls for no switch.
    #[inline(always)]
    fn put_text(&mut self, alloc: Global, text: Text<'p>) -> Result<(), Refusal>
        requires takes { takes_text (split_of self.old.view) ≡ true }
        ensures handled { OnOk result (Handled (stage B.heard self.old) (stage B.heard self.new) (as_run text.entry ∷ [])) }
        ensures crossed { IfErr result (λ refused. IfCrossed refused (Touched (stage B.heard self.old) (stage B.heard self.new) (as_run text.entry ∷ []))) }
    {
        hp_model::lexer_apart();
        hp_older::tokens_over();
        hp_older::views_over();
        let _ = handle_text(alloc, &mut self.view, text)?;
        self.sink.take(alloc, &mut self.view.edits)?;
        Ok(())
    }

    /// Handles a text without U+0000 as one run, where nothing own is open, and it was asked whether the older current node is HTML,
    /// which it is. It calls for no switch.
    #[inline(always)]
    fn put_text_below(&mut self, alloc: Global, text: Text<'p>) -> Result<(), Refusal>
        requires may { may_take_text (split_of self.old.view) ≡ true }
        ensures handled { OnOk result (HandledBelow (stage B.heard self.old) (stage B.heard self.new) text.entry) }
        ensures crossed { IfErr result (λ refused. IfCrossed refused (TouchedBelow (stage B.heard self.old) (stage B.heard self.new) text.entry)) }
    {
        hp_model::lexer_apart();
        hp_older::texts_over();
        hp_older::tokens_over();
        hp_older::views_over();
        let _ = handle_text_below(alloc, &mut self.view, text)?;
        self.sink.take(alloc, &mut self.view.edits)?;
        Ok(())
    }
}
