//! The predictor that guesses the open elements from the tags before the chunk and in it.
ghost use Rattle.std.specs.Prelude.{◌≡◌, ◌+◌, ◌<◌, ◌^◌, true, Some, None, ◌∷◌, [], ◌++◌, length, take, drop, slice_range, IfOk, if◌then◌else◌};
ghost use Rattle.hp_text.specs.Page.{text_of as text_of_page};
ghost use Rattle.hp_elements.specs.Names.{text_of};
ghost use Rattle.hp_elements.specs.RawText.{raw_text_of};
ghost use Rattle.hp_elements.specs.KnownNames as knowns;
ghost use Rattle.hp_elements.specs.declared.token.Mode.TheVariants as modes;
ghost use Rattle.hp_control.specs.Truth.{answer_of};
ghost use Rattle.hp_control.specs.Walks.{reset_mode};
ghost use Rattle.hp_predict.specs.Guess.{with_ends, guessed, is_text as spec_is_text, lex_for as spec_lex_for, state_for as spec_state_for, ends_in_cr as spec_ends_in_cr};
ghost use Rattle.hp_predict.specs.Laws.{IsGuess};

use crate::name::{TagName, has_name};
use crate::open_names::read_tags;
use crate::pile::{Pile, put_all};
use hp_control::{Answer, Control, OpenElements, Predictor, Question, Stack, answer, reset_from};
use hp_elements::{Known, Mode, Name, NoMemory, Rest, Text};
use hp_text::Chunk;
use hp_tokens::{LexState, Machine, OwnedText};
use std::alloc::Global;
use std::marker::Model;

/// How many bytes before the chunk are read.
const BEFORE: usize = 4096;

/// Says what one guessed state is, which is what a contract sees.
#[derive(Drop)]
pub struct Prescan {
    state: Control,
}

impl Model for Prescan {
    ghost use Rattle.hp_control.specs.States.{ControlState};

    ghost Value = { ControlState };

    ghost view = { λ p. p.state };
}

fn ends_in_cr(text: &[u8]) -> bool
    ensures { result ≡ spec_ends_in_cr text.now }
{
    let len = text.len();
    len > 0 && text[len - 1] == b'\r'
}

/// The state in which the lexer reads the text of an HTML element of that name; `None` where it is read as data.
fn raw_text(name: &Name) -> Option<Rest>
    ensures { result ≡ raw_text_of name.now }
{
    match name.known() {
        Some(known) => known.raw_text(),
        None => None,
    }
}

/// The lexer in the state for the text of an element of that name.
fn lex_for(alloc: Global, after_cr: bool, name: &Name) -> Result<LexState, NoMemory>
    ensures { IfOk result (λ lex. lex ≡ spec_lex_for after_cr name.now) }
{
    let mut last_tag = OwnedText::new();
    last_tag.push_str(alloc, name.as_str())?;
    let rest = raw_text(name).unwrap_or(Rest::Data);
    let LexState { machine, ahead } = LexState::at_rest(rest, after_cr);
    Ok(LexState {
        machine: Machine {
            last_tag: Some(last_tag),
            ..machine
        },
        ahead,
    })
}

/// The mode, and the one that it goes back to, where the current node has that name.
fn modes_for(templates: &Stack<Mode>, stack: &OpenElements, name: &Name) -> (Mode, Option<Mode>)
    ensures mode { result.0 ≡ (if spec_is_text name.now then modes.Text else reset_mode true templates.now stack.now) }
    ensures original { result.1 ≡ (if spec_is_text name.now then Some (reset_mode true templates.now (drop 1 stack.now)) else None) }
{
    if raw_text(name).is_some() && !has_name(name, Known::PLAINTEXT) {
        let original = reset_from(true, templates, stack, 1);
        (Mode::Text, Some(original))
    } else {
        (reset_from(true, templates, stack, 0), None)
    }
}

/// The state in which the elements of these names are open.
fn state_for(
    alloc: Global,
    after_cr: bool,
    names: &Stack<TagName<'_>>,
    ends: &[TagName<'_>],
) -> Result<Control, NoMemory>
    requires { length names.now + length ends.now + 4 < 2 ^ 64 }
    ensures { IfOk result (λ control. control ≡ spec_state_for after_cr (with_ends names.now ends.now ++ text_of knowns.Body ∷ text_of knowns.Html ∷ [])) }
{
    let mut pile = Pile::new();
    put_all(alloc, &mut pile, names, ends)?;
    let count = pile.stack.len() as u64;
    let top = &pile.stack.at(0).name;
    let lex = lex_for(alloc, after_cr, top)?;
    let (mode, original) = modes_for(&pile.templates, &pile.stack, top);
    Ok(Control {
        lex,
        mode,
        original,
        templates: pile.templates,
        stack: pile.stack,
        formatting: pile.formatting,
        head: Some(count + 1),
        form: pile.form,
        frameset_ok: false,
        quirks: false,
        pending: Text::new(),
        skip_lf: false,
        next: count + 2,
    })
}

impl Prescan {
    /// The guess for a chunk, from the last 4,096 bytes before it and from its own text.
    pub fn new(alloc: Global, chunk: &Chunk<'_>) -> Result<Prescan, NoMemory>
        ensures state { IfOk result (λ prescan. prescan ≡ guessed (take chunk.now.from (text_of_page chunk.now.page)) (slice_range (text_of_page chunk.now.page) chunk.now.from chunk.now.to)) }
        ensures law { IfOk result (λ prescan. IsGuess chunk.now.from chunk.now.to prescan) }
    {
        let before = chunk.before();
        let open = read_tags(alloc, &before[before.len().saturating_sub(BEFORE)..])?;
        let closed = read_tags(alloc, chunk.text())?;
        let state = state_for(
            alloc,
            ends_in_cr(before),
            &open.names,
            closed.unmatched.as_slice(),
        )?;
        Ok(Prescan { state })
    }

    /// The guessed state.
    pub fn state(&self) -> &Control
        ensures { result.now ≡ self.now }
    {
        &self.state
    }
}

impl Predictor for Prescan {
    ghost says = { answer_of };

    fn say(&self, alloc: Global, question: &Question) -> Result<Answer, NoMemory> {
        answer(alloc, &self.state, question)
    }
}
