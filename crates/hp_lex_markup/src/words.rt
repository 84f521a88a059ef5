//! The words that are read behind `<!` and behind a doctype's name: what is read ahead for them is held back (13.2.5.42,
//! 13.2.5.56).
ghost use Rattle.std.specs.Prelude.{◌≡◌, ◌≤◌, ℕ, Bool, List, Option, Some, IfOk, OnOk, IsTrue, true, false, drop, length, []};
ghost use Rattle.hp_tokens.specs.Reading.{first};
ghost use Rattle.hp_tokens.specs.Moves.{Lexing, Move, move};
ghost use Rattle.hp_tokens.specs.Advancing.{held, unread, Steps, EndSteps, ReadsOne};
ghost use Rattle.hp_lex_markup.specs.Rows.{reads_word};
ghost use Rattle.hp_lex_markup.specs.Words.{progress as spec_progress, is_open as spec_is_open, word as spec_word, count as spec_count, asks as spec_asks, folded as spec_folded, front_of, begins_of};
ghost use Rattle.hp_lex_markup.specs.Markup.{markup_rules};
ghost use Rattle.hp_lex_markup.specs.Held.{Gathers, PastWord, MovesByRow};

use crate::markup::row;
use crate::rows::put_ascii;
use hp_elements::Tokens;
use hp_tokens::{Cursor, EndStep, LexState, NoMemory, OwnedText, Part, Reads, State, Step};
use std::alloc::Global;

/// A word that is read at once.
#[derive(Clone, Copy)]
pub enum Word {
    /// `--`.
    Hyphens,
    /// `DOCTYPE`, without ASCII case.
    Doctype,
    /// `[CDATA[`.
    Cdata,
    /// `PUBLIC`, without ASCII case.
    Public,
    /// `SYSTEM`, without ASCII case.
    System,
}

impl Word {
    /// How many code points it has.
    fn count(self) -> usize
        ensures { result ≡ spec_count self }
    {
        match self {
            Word::Hyphens => 2,
            Word::Doctype | Word::Cdata => 7,
            Word::Public | Word::System => 6,
        }
    }

    /// Whether a question is asked behind it.
    fn asks(self) -> bool
        ensures { result ≡ spec_asks self }
    {
        match self {
            Word::Cdata => true,
            _ => false,
        }
    }
}

/// How far a text has come with a word: the whole word, with or without more behind it; the front of the word alone; or
/// something else.
#[derive(Clone, Copy)]
pub enum Progress {
    Whole,
    Front,
    Other,
}

/// The code point, with ASCII upper case lowered where it is asked for.
fn folded(fold: bool, c: char) -> char
    ensures { result ≡ spec_folded fold c }
{
    if fold { c.to_ascii_lowercase() } else { c }
}

/// How far a text has come with a word. With `fold` the word is in lower case, and stands for itself in any ASCII case.
fn compared(fold: bool, text: &OwnedText, word: &[u8]) -> Progress
    ensures { result ≡ spec_progress fold text.now word.now }
{
    let mut at = 0;
    for c in text.as_str().chars() {
        if at == word.len() {
            return Progress::Whole;
        }
        if folded(fold, c) as u32 != word[at] as u32 {
            return Progress::Other;
        }
        at += 1;
    }
    if at == word.len() {
        Progress::Whole
    } else {
        Progress::Front
    }
}

/// Whether the text is the front of a longer word.
fn is_front(fold: bool, text: &OwnedText, word: &[u8]) -> bool
    ensures { result ≡ front_of fold text.now word.now }
{
    matches!(compared(fold, text, word), Progress::Front)
}

/// Whether the text begins with a word.
fn begins(fold: bool, text: &OwnedText, word: &[u8]) -> bool
    ensures { result ≡ begins_of fold text.now word.now }
{
    matches!(compared(fold, text, word), Progress::Whole)
}

/// Whether more text is needed to know which word it begins with, if any.
fn is_open(state: State, text: &OwnedText) -> bool
    ensures { result ≡ spec_is_open state text.now }
{
    match state {
        State::MarkupDeclarationOpen => {
            is_front(false, text, b"--")
                || is_front(true, text, b"doctype")
                || is_front(false, text, b"[CDATA[")
        }
        _ => is_front(true, text, b"public") || is_front(true, text, b"system"),
    }
}

/// The word that the text begins with.
fn first_word(state: State, text: &OwnedText) -> Option<Word>
    ensures { result ≡ spec_word state text.now }
{
    match state {
        State::MarkupDeclarationOpen => {
            if begins(false, text, b"--") {
                return Some(Word::Hyphens);
            }
            if begins(true, text, b"doctype") {
                return Some(Word::Doctype);
            }
            if begins(false, text, b"[CDATA[") {
                return Some(Word::Cdata);
            }
            None
        }
        _ => {
            if begins(true, text, b"public") {
                return Some(Word::Public);
            }
            if begins(true, text, b"system") {
                return Some(Word::System);
            }
            None
        }
    }
}

/// Reads ahead until the word is decided, and answers whether it is.
fn gather(alloc: Global, state: &mut LexState, input: &mut Cursor<'_>) -> Result<bool, NoMemory>
    requires { held state.old ≤ input.old.place }
    ensures { IfOk result (λ decided. Gathers state.old input.old state.new input.new decided) }
{
    'reading: while is_open(state.machine.state, &state.ahead) {
        if !state.read_ahead(alloc, input)? {
            return Ok(false);
        }
    }
    Ok(true)
}

/// Drops code points off the front of a text.
fn drop_front(text: &mut OwnedText, count: usize)
    requires { count ≤ length text.old }
    ensures { text.new ≡ drop count text.old }
{
    for _turn in 0..count {
        match text.take_first() {
            Some(_) => {}
            None => unreachable!(),
        }
    }
}

/// A word that was read ahead is dropped there, and the lexer goes behind it.
fn read_word(alloc: Global, state: &mut LexState, word: Word) -> Result<(), NoMemory>
    requires { spec_count word ≤ length state.old.ahead }
    ensures { OnOk result (PastWord word state.old state.new) }
{
    drop_front(&mut state.ahead, word.count());
    let machine = &mut state.machine;
    machine.after_cr = false;
    match word {
        Word::Hyphens => {
            machine.begin_comment();
            machine.enter(State::CommentStart);
        }
        Word::Doctype => machine.enter(State::Doctype),
        Word::Cdata => {
            machine.begin_comment();
            put_ascii(alloc, machine, Part::Comment, "[CDATA[")?;
            machine.enter(State::BogusComment);
        }
        Word::Public => machine.enter(State::AfterDoctypePublicKeyword),
        Word::System => machine.enter(State::AfterDoctypeSystemKeyword),
    }
    Ok(())
}

/// One code point, by the row of the state, where CR is read as LF. Answers whether something was appended.
fn read_row(
    alloc: Global,
    c: char,
    state: &mut LexState,
    input: &mut Cursor<'_>,
    tokens: &mut Tokens<'_>,
) -> Result<bool, NoMemory>
    requires here { IsTrue (reads_word state.old.machine.state) }
    requires held { held state.old ≤ input.old.place }
    requires next { first (unread state.old input.old) ≡ Some c }
    ensures step { IfOk result (λ emitted. (next : Lexing → Move) → MovesByRow next state.old input.old c → ReadsOne next state.old input.old tokens.old state.new input.new tokens.new emitted) }
    ensures held { IfOk result (λ emitted. held state.new ≤ input.new.place) }
    ensures ended { IfOk result (λ emitted. input.old.text ≡ [] → input.new.text ≡ []) }
{
    let symbol = if c == '\r' { '\n' } else { c };
    let before = tokens.len();
    match row(alloc, &mut state.machine, Some(symbol), tokens)? {
        Reads::Consume => {
            let _ = state.take(input);
            state.machine.after_cr = c == '\r';
        }
        Reads::Again => {}
        Reads::End => unreachable!(),
    }
    Ok(tokens.len() != before)
}

/// One step, by the word where one is read, and otherwise by the row.
pub fn step(
    alloc: Global,
    state: &mut LexState,
    input: &mut Cursor<'_>,
    tokens: &mut Tokens<'_>,
) -> Result<Step, NoMemory>
    requires here { IsTrue (reads_word state.old.machine.state) }
    requires held { held state.old ≤ input.old.place }
    ensures step { IfOk result (λ step. Steps (move markup_rules) state.old input.old tokens.old state.new input.new tokens.new step) }
    ensures held { IfOk result (λ step. held state.new ≤ input.new.place) }
{
    let Some(c) = state.peek(input) else {
        return Ok(Step::NeedsMore);
    };
    if state.is_pair_next(input) {
        state.drop_line_feed(input);
        return Ok(Step::Made { emitted: false });
    }
    let decided = gather(alloc, state, input)?;
    if !decided {
        return Ok(Step::NeedsMore);
    }
    let Some(word) = first_word(state.machine.state, &state.ahead) else {
        let emitted = read_row(alloc, c, state, input, tokens)?;
        return Ok(Step::Made { emitted });
    };
    if word.asks() {
        return Ok(Step::AskCdata);
    }
    read_word(alloc, state, word)?;
    Ok(Step::Made { emitted: false })
}

/// One step where the input ends behind what was read ahead.
pub fn end(
    alloc: Global,
    state: &mut LexState,
    input: &mut Cursor<'_>,
    tokens: &mut Tokens<'_>,
) -> Result<EndStep, NoMemory>
    requires here { IsTrue (reads_word state.old.machine.state) }
    requires held { held state.old ≤ input.old.place }
    requires ended { input.old.text ≡ [] }
    ensures step { IfOk result (λ step. EndSteps markup_rules state.old input.old tokens.old state.new input.new tokens.new step) }
    ensures held { IfOk result (λ step. held state.new ≤ input.new.place) }
    ensures ended { IfOk result (λ step. input.new.text ≡ []) }
{
    let Some(c) = state.peek(input) else {
        return match row(alloc, &mut state.machine, None, tokens)? {
            Reads::Consume => unreachable!(),
            Reads::Again => Ok(EndStep::Made),
            Reads::End => Ok(EndStep::Ended),
        };
    };
    if state.is_pair_next(input) {
        state.drop_line_feed(input);
        return Ok(EndStep::Made);
    }
    let Some(word) = first_word(state.machine.state, &state.ahead) else {
        let _ = read_row(alloc, c, state, input, tokens)?;
        return Ok(EndStep::Made);
    };
    read_word(alloc, state, word)?;
    Ok(EndStep::Made)
}
