//! Named character references: the longest name decides, and what is read ahead for it is held back (13.2.5.73).
ghost use Rattle.std.specs.Prelude.{◌≡◌, ◌≤◌, Some, IfOk, OnOk, IfSome, [], take, drop, length};
ghost use Rattle.std.specs.Bool.{OnFalse};
ghost use Rattle.hp_names.specs.Longest.{longest as spec_longest, is_open as spec_is_open, StaysClosed};
ghost use Rattle.hp_tokens.specs.declared.state.State.TheVariants as states;
ghost use Rattle.hp_tokens.specs.Moves.{move};
ghost use Rattle.hp_tokens.specs.Advancing.{held, Steps, EndSteps};
ghost use Rattle.hp_lex_tags.specs.Named.{is_no_reference as spec_is_no_reference, read_buffer};
ghost use Rattle.hp_lex_tags.specs.Held.{Gathers, Decides};
ghost use Rattle.hp_lex_tags.specs.Tags.{tag_rules};

use hp_elements::Tokens;
use hp_names::{Found, Names};
use hp_tokens::{Cursor, EndStep, LexState, Machine, NoMemory, OwnedText, State, Step};
use std::alloc::Global;

/// Whether more text is needed to decide the name.
fn is_open(ahead: &OwnedText, names: &Names) -> bool
    ensures open { result ≡ spec_is_open names.now ahead.now }
    ensures closed { OnFalse result (StaysClosed names.now ahead.now) }
{
    names.rules();
    names.is_open(ahead.as_str().as_bytes())
}

/// The longest name.
fn longest(ahead: &OwnedText, names: &Names) -> Option<Found>
    ensures found { result ≡ spec_longest names.now ahead.now }
    ensures fits { IfSome result (λ f. f.length ≤ length ahead.now) }
{
    names.rules();
    names.longest(ahead.as_str().as_bytes())
}

/// Reads ahead until the name is decided, and answers whether it is.
fn gather(
    alloc: Global,
    state: &mut LexState,
    input: &mut Cursor<'_>,
    names: &Names,
) -> Result<bool, NoMemory>
    requires { held state.old ≤ input.old.place }
    ensures { IfOk result (λ decided. Gathers names.now state.old input.old state.new input.new decided) }
{
    'reading: while is_open(&state.ahead, names) {
        if !state.read_ahead(alloc, input)? {
            return Ok(false);
        }
    }
    Ok(true)
}

/// Whether it is a name without a semicolon, in a value, with an equals sign, a letter or a digit behind it.
fn is_no_reference(found: &Found, machine: &Machine, behind: Option<char>) -> bool
    ensures { result ≡ spec_is_no_reference found.now machine.now behind }
{
    machine.return_to.is_in_value()
        && !found.ends_with_semicolon
        && match behind {
            Some(c) => c == '=' || c.is_ascii_alphanumeric(),
            None => false,
        }
}

/// Takes code points off the front of a text.
fn take_front(alloc: Global, text: &mut OwnedText, count: u64) -> Result<OwnedText, NoMemory>
    requires { count ≤ length text.old }
    ensures front { IfOk result (λ front. front ≡ take count text.old) }
    ensures rest { OnOk result (text.new ≡ drop count text.old) }
{
    let mut front = OwnedText::new();
    for _turn in 0..count {
        match text.take_first() {
            Some(c) => front.push(alloc, c)?,
            None => unreachable!(),
        }
    }
    Ok(front)
}

/// The buffer becomes what the name stands for, or the ampersand and the name.
fn read_into(
    alloc: Global,
    buffer: &mut OwnedText,
    found: &Found,
    kept: bool,
    name: &OwnedText,
) -> Result<(), NoMemory>
    ensures { OnOk result (buffer.new ≡ read_buffer found.now kept name.now) }
{
    buffer.clear();
    if kept {
        buffer.push(alloc, '&')?;
        return buffer.push_str(alloc, name.as_str());
    }
    buffer.push(alloc, found.first)?;
    match found.second {
        Some(second) => buffer.push(alloc, second),
        None => Ok(()),
    }
}

/// What the name stands for goes where it goes, and the lexer goes back; the name is dropped from what was read ahead.
fn put_found(
    alloc: Global,
    found: &Found,
    state: &mut LexState,
    input: &Cursor<'_>,
    tokens: &mut Tokens<'_>,
) -> Result<(), NoMemory>
    requires { found.now.length ≤ length state.old.ahead }
    ensures { OnOk result (Decides (Some found.now) state.old input.now tokens.old state.new tokens.new) }
{
    let name = take_front(alloc, &mut state.ahead, found.length)?;
    let kept = is_no_reference(found, &state.machine, state.peek(input));
    read_into(alloc, &mut state.machine.buffer, found, kept, &name)?;
    let back = state.machine.return_to.state();
    state.machine.flush(alloc, tokens)?;
    state.machine.enter(back);
    Ok(())
}

/// What the longest name stands for goes where it goes; the name is dropped from what was read ahead. Where there is none, letters
/// and digits follow the ampersand.
fn decide(
    alloc: Global,
    state: &mut LexState,
    input: &Cursor<'_>,
    names: &Names,
    tokens: &mut Tokens<'_>,
) -> Result<(), NoMemory>
    ensures { OnOk result (Decides (spec_longest names.now state.old.ahead) state.old input.now tokens.old state.new tokens.new) }
{
    match longest(&state.ahead, names) {
        None => {
            state.machine.flush(alloc, tokens)?;
            state.machine.enter(State::AmbiguousAmpersand);
            Ok(())
        }
        Some(found) => put_found(alloc, &found, state, input, tokens),
    }
}

/// One step by the longest name.
pub fn step(
    alloc: Global,
    state: &mut LexState,
    input: &mut Cursor<'_>,
    names: &Names,
    tokens: &mut Tokens<'_>,
) -> Result<Step, NoMemory>
    requires here { state.old.machine.state ≡ states.NamedCharacterReference }
    requires held { held state.old ≤ input.old.place }
    ensures step { IfOk result (λ step. Steps (move (tag_rules names.now)) state.old input.old tokens.old state.new input.new tokens.new step) }
    ensures held { IfOk result (λ step. held state.new ≤ input.new.place) }
{
    let Some(_) = state.peek(input) else {
        return Ok(Step::NeedsMore);
    };
    if state.is_pair_next(input) {
        state.drop_line_feed(input);
        return Ok(Step::Made { emitted: false });
    }
    let decided = gather(alloc, state, input, names)?;
    if !decided {
        return Ok(Step::NeedsMore);
    }
    let before = tokens.len();
    decide(alloc, state, input, names, tokens)?;
    let emitted = tokens.len() != before;
    Ok(Step::Made { emitted })
}

/// One step by the longest name where the input ends behind what was read ahead.
pub fn end(
    alloc: Global,
    state: &mut LexState,
    input: &mut Cursor<'_>,
    names: &Names,
    tokens: &mut Tokens<'_>,
) -> Result<EndStep, NoMemory>
    requires here { state.old.machine.state ≡ states.NamedCharacterReference }
    requires held { held state.old ≤ input.old.place }
    requires ended { input.old.text ≡ [] }
    ensures step { IfOk result (λ step. EndSteps (tag_rules names.now) state.old input.old tokens.old state.new input.new tokens.new step) }
    ensures held { IfOk result (λ step. held state.new ≤ input.new.place) }
    ensures ended { IfOk result (λ step. input.new.text ≡ []) }
{
    if state.is_pair_next(input) {
        state.drop_line_feed(input);
        return Ok(EndStep::Made);
    }
    decide(alloc, state, input, names, tokens)?;
    Ok(EndStep::Made)
}
