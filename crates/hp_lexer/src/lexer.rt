//! The lexer that a run over a page holds.
ghost use Rattle.std.specs.Prelude.{◌≡◌, ◌-◌, ◌≤◌, ◌^◌, ℕ, nat_lt, IfOk, OnOk, IfSome, IfNone, IsTrue, true, false, Bool, [], ◌∷◌, Some, length};
ghost use Rattle.hp_tokens.specs.Advancing.{held};
ghost use Rattle.hp_tokens.specs.declared.rows.Turn.TheVariants as turns;
ghost use Rattle.hp_lexer.specs.Standing.{behind_cdata};

use crate::turns::{make_all_end_moves, make_moves};
use hp_elements::{Name, Rest, Text, Token, Tokens};
use hp_names::Names;
pub use hp_tokens::NoMemory;
use hp_tokens::{Cursor, LexState, Machine, ORIGIN, OwnedText, Part, State, Turn};
use std::alloc::Global;

/// The question that the lexer asked last.
#[derive(Clone, Copy, Debug, PartialEq, Eq)]
pub enum Asked {
    /// None, or its answer was used.
    Nothing,
    /// After `<![CDATA[`: is there an adjusted current node outside the HTML namespace?
    Cdata,
    /// The answer to it.
    CdataAnswered { foreign: bool },
    /// The last start tag's name.
    LastTag,
}

/// What `Lexer::next` answers.
#[derive(Drop)]
pub enum Step<'p> {
    /// The next tokens; at least one. `began` is the last place of this text at or before the first of them, in bytes, where the
    /// lexer rested; 0 where that was before this text.
    Tokens { began: u64, tokens: Tokens<'p> },
    /// `<![CDATA[` was read (13.2.5.42): is there an adjusted current node outside the HTML namespace?
    AskCdata,
    /// The name of an end tag ends (13.2.5.11, 13.2.5.14, 13.2.5.17, 13.2.5.25), and the last start tag's name was not told.
    AskLastTag,
    /// The text is used up.
    AtCut,
}

/// The lexer. After `NoMemory` it is spent.
#[derive(Drop)]
pub struct Lexer {
    /// The state, with what was read ahead.
    pub lex: LexState,
    /// The table of reference names.
    pub names: Names,
    /// The question that was asked last.
    pub asked: Asked,
    /// The last place of the present text where the lexer rested, from `ORIGIN`, which is the text's start.
    pub rested: u64,
}

impl Lexer {
    ghost use Rattle.hp_names.specs.BuiltIn.{built_in};
    ghost use Rattle.hp_tokens.specs.Advancing.{unread, rest_state, end_of_text, lexing, Ends};
    ghost use Rattle.hp_tokens.specs.States.{enter, state_of_rest};
    ghost use Rattle.hp_lexer.specs.declared.lexer.Asked.TheVariants as asked;
    ghost use Rattle.hp_lexer.specs.declared.lexer.Step.TheVariants as steps;
    ghost use Rattle.hp_lexer.specs.Standing.{is_answered, opened, Stepped, SteppedWithin, IsBatch, Batched, PlainStepped, TagStepped};
    ghost use Rattle.hp_lexer.specs.Running.{Ran, Passed};
    ghost use Rattle.hp_lexer.specs.Table.{table};

    /// A lexer in a resting state, over the built-in names. `after_cr` says that the last code point before was CR. It isn't told
    /// the last start tag's name.
    pub fn at_rest(rest: Rest, after_cr: bool) -> Lexer
        ensures { result ≡ record { lex = rest_state rest after_cr; names = built_in; asked = asked.Nothing; rested = 2 ^ 32 } }
    {
        Lexer {
            lex: LexState::at_rest(rest, after_cr),
            names: Names::built_in(),
            asked: Asked::Nothing,
            rested: ORIGIN,
        }
    }

    /// A lexer in any state, over the built-in names. A state that holds more than 4 GiB read ahead finds no memory.
    pub fn from_state(alloc: Global, state: &LexState) -> Result<Lexer, NoMemory>
        ensures lexer { IfOk result (λ lexer. lexer ≡ record { lex = state.now; names = built_in; asked = asked.Nothing; rested = 2 ^ 32 }) }
        ensures held { IfOk result (λ lexer. held lexer.lex ≤ 2 ^ 32) }
    {
        if is_too_far_ahead(state) {
            return Err(NoMemory);
        }
        Ok(Lexer {
            lex: state.copy(alloc)?,
            names: Names::built_in(),
            asked: Asked::Nothing,
            rested: ORIGIN,
        })
    }

    /// The present state.
    pub fn state(&self, alloc: Global) -> Result<LexState, NoMemory>
        requires nothing_asked { self.now.asked ≡ asked.Nothing }
        ensures { IfOk result (λ state. state ≡ self.now.lex) }
    {
        self.lex.copy(alloc)
    }

    /// The tree builder's switch after a start tag.
    pub fn switch(&mut self, to: Rest)
        ensures { self.new ≡ record self.old { lex = record self.old.lex { machine = enter (state_of_rest to) self.old.lex.machine } } }
    {
        self.lex.machine.enter(State::of_rest(to));
    }

    /// Keeps the answer on `<![CDATA[`; the following `next` makes the move.
    pub fn answer_cdata(&mut self, foreign: bool)
        requires asked { self.old.asked ≡ asked.Cdata }
        ensures { self.new ≡ record self.old { asked = asked.CdataAnswered foreign } }
    {
        self.asked = Asked::CdataAnswered { foreign };
    }

    /// Tells the last start tag's name.
    pub fn answer_last_tag(&mut self, alloc: Global, name: &Name) -> Result<(), NoMemory>
        requires asked { self.old.asked ≡ asked.LastTag }
        ensures { OnOk result (self.new ≡ record self.old { lex = record self.old.lex { machine = record self.old.lex.machine { last_tag = Some name.now } }; asked = asked.Nothing }) }
    {
        let mut last = OwnedText::new();
        last.push_str(alloc, name.as_str())?;
        self.lex.machine.last_tag = Some(last);
        self.asked = Asked::Nothing;
        Ok(())
    }

    /// The text at the front that the table emits as it stands: in the data state and RCDATA up to the next `<`, `&`, CR or U+0000, in
    /// RAWTEXT and script data up to the next `<`, CR or U+0000, where a CR LF pair that comes first is LF. Where the lexer rests in
    /// another state, or no such text comes first: `None`, and nothing changes. It is what calls of `next` do there, with each code
    /// point in a token of its own.
    #[inline]
    pub fn next_plain<'p>(&mut self, input: &mut Cursor<'p>) -> Option<Text<'p>>
        requires held { held self.old.lex ≤ input.old.place }
        ensures text { IfSome result (λ text. PlainStepped self.old input.old self.new input.new text) }
        ensures none { IfNone result ((self.new ≡ self.old) × (input.new ≡ input.old)) }
        ensures held { held self.new.lex ≤ input.new.place }
        ensures names { self.new.names ≡ self.old.names }
        ensures ahead { self.new.lex.ahead ≡ self.old.lex.ahead }
    {
        match self.asked {
            Asked::Nothing => match self.lex.machine.state {
                State::Data => hp_lex_tags::next_plain(
                    &self.lex,
                    input,
                    &self.names,
                    &mut self.rested,
                ),
                _ => hp_lex_raw::next_plain(&self.lex, input, &mut self.rested),
            },
            _ => None,
        }
    }

    /// What a named or a decimal reference with its semicolon at the front stands for, in the data state, where that is one code
    /// point; otherwise `None`, and nothing changes. It is what calls of `next` do there.
    #[inline]
    pub fn next_reference<'p>(&mut self, input: &mut Cursor<'p>) -> Option<Text<'p>>
        requires held { held self.old.lex ≤ input.old.place }
        ensures text { IfSome result (λ text. PlainStepped self.old input.old self.new input.new text) }
        ensures none { IfNone result ((self.new ≡ self.old) × (input.new ≡ input.old)) }
        ensures held { held self.new.lex ≤ input.new.place }
        ensures names { self.new.names ≡ self.old.names }
        ensures ahead { self.new.lex.ahead ≡ self.old.lex.ahead }
    {
        match self.asked {
            Asked::Nothing => {
                let lex = &mut self.lex;
                hp_lex_tags::next_reference(lex, input, &self.names, &mut self.rested)
            }
            _ => None,
        }
    }

    /// A tag at the front, where the lexer rests in the data state and the tag is a usual one. It is what `next` does there. With
    /// `None` some moves were made, which emit nothing, or none.
    #[inline]
    pub fn next_tag<'p>(
        &mut self,
        alloc: Global,
        input: &mut Cursor<'p>,
    ) -> Result<Option<Token<'p>>, NoMemory>
        requires held { held self.old.lex ≤ input.old.place }
        ensures tag { IfOk result (λ token. TagStepped self.old input.old self.new input.new token) }
        ensures held { IfOk result (λ token. held self.new.lex ≤ input.new.place) }
        ensures asked { self.new.asked ≡ self.old.asked }
        ensures names { self.new.names ≡ self.old.names }
        ensures ahead { OnOk result (self.new.lex.ahead ≡ self.old.lex.ahead) }
    {
        match self.asked {
            Asked::Nothing => {
                let lex = &mut self.lex;
                hp_lex_tags::next_tag(alloc, &self.names, lex, input, &mut self.rested)
            }
            _ => Ok(None),
        }
    }

    /// The next tokens that the table emits at once, a question, or that the text is used up. Where more than 4 GiB would be held
    /// back at a cut, it answers want of memory.
    pub fn next<'p>(&mut self, alloc: Global, input: &mut Cursor<'p>) -> Result<Step<'p>, NoMemory>
        requires answered { IsTrue (is_answered self.old.asked) }
        requires held { held self.old.lex ≤ input.old.place }
        ensures step { IfOk result (λ step. Stepped self.old input.old self.new input.new step) }
        ensures batch { IfOk result (λ step. Batched self.old input.old self.new input.new step) }
        ensures held { IfOk result (λ step. held self.new.lex ≤ input.new.place) }
        ensures names { self.new.names ≡ self.old.names }
    {
        match self.next_within(alloc, input)? {
            Step::AtCut => {
                self.rested = ORIGIN;
                Ok(Step::AtCut)
            }
            step => Ok(step),
        }
    }

    /// As `next`, within a text that is read piece by piece by cursors that count from one start: at a cut the place where the lexer
    /// rested last is kept.
    #[inline]
    pub fn next_within<'p>(
        &mut self,
        alloc: Global,
        input: &mut Cursor<'p>,
    ) -> Result<Step<'p>, NoMemory>
        requires answered { IsTrue (is_answered self.old.asked) }
        requires held { held self.old.lex ≤ input.old.place }
        ensures step { IfOk result (λ step. SteppedWithin self.old input.old self.new input.new step) }
        ensures batch { IfOk result (λ step. Batched self.old input.old self.new input.new step) }
        ensures held { IfOk result (λ step. held self.new.lex ≤ input.new.place) }
        ensures names { self.new.names ≡ self.old.names }
    {
        self.open(alloc)?;
        if let Some(token) = self.take_text(input) {
            return Ok(Step::Tokens {
                began: self.began(),
                tokens: Tokens::of_one(token),
            });
        }
        let mut tokens = Tokens::new();
        match self.run(alloc, input, &mut tokens)? {
            Turn::Emitted => Ok(Step::Tokens {
                began: self.began(),
                tokens,
            }),
            Turn::NeedsMore => {
                self.check_cut(input)?;
                Ok(Step::AtCut)
            }
            Turn::AskCdata => {
                self.pass_cdata(input);
                Ok(Step::AskCdata)
            }
            Turn::AskLastTag => {
                self.asked = Asked::LastTag;
                Ok(Step::AskLastTag)
            }
            Turn::Moved => unreachable!(),
        }
    }

    /// The place where the lexer rested last, from the start of this text; 0 where that was before it.
    #[inline]
    fn began(&self) -> u64
        ensures { result ≡ self.now.rested - 2 ^ 32 }
    {
        self.rested.saturating_sub(ORIGIN)
    }

    /// Makes the move behind the answered question, if there is one.
    #[inline]
    fn open(&mut self, alloc: Global) -> Result<(), NoMemory>
        requires answered { IsTrue (is_answered self.old.asked) }
        ensures lexer { OnOk result (self.new ≡ record self.old { lex = record self.old.lex { machine = opened self.old.asked self.old.lex.machine }; asked = asked.Nothing }) }
        ensures names { self.new.names ≡ self.old.names }
    {
        if let Asked::CdataAnswered { foreign } = self.asked {
            go_behind_cdata(alloc, &mut self.lex.machine, foreign)?;
        }
        self.asked = Asked::Nothing;
        Ok(())
    }

    /// The run of text at the front as one token, where the lexer rests in a state of text.
    #[inline]
    fn take_text<'p>(&mut self, input: &mut Cursor<'p>) -> Option<Token<'p>>
        requires held { held self.old.lex ≤ input.old.place }
        ensures ran { IfSome result (λ token. Ran self.old.names self.old.lex input.old self.old.rested self.new.lex input.new (token ∷ []) self.new.rested turns.Emitted) }
        ensures batch { IfSome result (λ token. IsBatch self.old.names (lexing self.old.lex input.old self.old.rested) (lexing self.new.lex input.new self.new.rested) (token ∷ []) self.new.rested) }
        ensures none { IfNone result ((self.new ≡ self.old) × (input.new ≡ input.old)) }
        ensures held { held self.new.lex ≤ input.new.place }
        ensures names { self.new.names ≡ self.old.names }
        ensures asked { self.new.asked ≡ self.old.asked }
        ensures lex { self.new.lex ≡ self.old.lex }
    {
        match self.lex.machine.state {
            State::Data => hp_lex_tags::next_text(&self.lex, input, &self.names, &mut self.rested),
            _ => hp_lex_raw::next_text(&self.lex, input, &mut self.rested),
        }
    }

    /// Makes moves until something is emitted, more input is needed or a question is asked.
    #[inline]
    fn run<'p>(
        &mut self,
        alloc: Global,
        input: &mut Cursor<'p>,
        tokens: &mut Tokens<'p>,
    ) -> Result<Turn, NoMemory>
        requires none { tokens.old ≡ [] }
        requires held { held self.old.lex ≤ input.old.place }
        ensures turn { IfOk result (λ turn. Ran self.old.names self.old.lex input.old self.old.rested self.new.lex input.new tokens.new self.new.rested turn) }
        ensures batch { IfOk result (λ turn. turn ≡ turns.Emitted → IsBatch self.old.names (lexing self.old.lex input.old self.old.rested) (lexing self.new.lex input.new self.new.rested) tokens.new self.new.rested) }
        ensures held { IfOk result (λ turn. held self.new.lex ≤ input.new.place) }
        ensures names { self.new.names ≡ self.old.names }
        ensures asked { self.new.asked ≡ self.old.asked }
    {
        'moves: loop {
            match make_moves(
                alloc,
                &mut self.lex,
                input,
                &self.names,
                &mut self.rested,
                tokens,
            )? {
                Turn::Moved => {}
                turn => return Ok(turn),
            }
        }
    }

    /// The text is used up. Where more than 4 GiB are held back, there is want of memory. A text that isn't used up doesn't occur:
    /// more input is needed only where nothing is unread.
    fn check_cut(&self, input: &Cursor<'_>) -> Result<(), NoMemory>
        ensures cut { OnOk result (held self.now.lex ≤ 2 ^ 32) }
        ensures used { OnOk result (input.now.text ≡ []) }
    {
        if is_too_far_ahead(&self.lex) || input.peek().is_some() {
            return Err(NoMemory);
        }
        Ok(())
    }

    /// Takes `[CDATA[`, and asks.
    fn pass_cdata(&mut self, input: &mut Cursor<'_>)
        requires long { 7 ≤ length (unread self.old.lex input.old) }
        requires held { held self.old.lex ≤ input.old.place }
        ensures passed { Passed 7 self.old.lex input.old self.new.lex input.new }
        ensures asked { self.new.asked ≡ asked.Cdata }
        ensures names { self.new.names ≡ self.old.names }
        ensures rested { self.new.rested ≡ self.old.rested }
    {
        for _turn in 0..7usize {
            let _ = self.lex.take(input);
        }
        self.asked = Asked::Cdata;
    }

    /// The tokens of the end of input behind what was read ahead, `EndOfInput` last.
    pub fn finish(self, alloc: Global) -> Result<Tokens<'static>, NoMemory>
        requires nothing_asked { self.asked ≡ asked.Nothing }
        requires held { held self.lex ≤ 2 ^ 32 }
        ensures { IfOk result (λ tokens. (rested : ℕ) → Ends (table self.names) (lexing self.lex end_of_text rested) [] tokens) }
    {
        let mut state = self.lex;
        let names = self.names;
        make_all_end_moves(alloc, &mut state, &names)
    }
}

/// Whether more than 4 GiB were read ahead.
fn is_too_far_ahead(state: &LexState) -> bool
    ensures { result ≡ nat_lt (2 ^ 32) (held state.now) }
{
    state.ahead.len_bytes() > ORIGIN
}

/// The state behind `[CDATA[`: a CDATA section, or a comment.
fn go_behind_cdata(alloc: Global, machine: &mut Machine, foreign: bool) -> Result<(), NoMemory>
    ensures { OnOk result (machine.new ≡ behind_cdata foreign machine.old) }
{
    machine.after_cr = false;
    if foreign {
        machine.enter(State::CdataSection);
        return Ok(());
    }
    machine.begin_comment();
    machine.put_text(alloc, Part::Comment, "[CDATA[")?;
    machine.enter(State::BogusComment);
    Ok(())
}
