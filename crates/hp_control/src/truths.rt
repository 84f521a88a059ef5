//! Whether an answer is the true one.
ghost use Rattle.std.specs.Prelude.{◌≡◌, ◌↔◌, ◌+◌, IsTrue, [], drop, slice_get};
ghost use Rattle.std.specs.Str.{chars};
ghost use Rattle.std.specs.Option.{unwrap_or};
ghost use Rattle.hp_control.specs.Truth.{answer_of, yes_or_no, depth_answer, IfSomeIs, pointer_answer, element_answer, entry_answer, rest_of, kind_of, top_has_entry, listed_answer};
ghost use Rattle.hp_control.specs.Walks.{second_is_body, is_quiet, last_named};

use crate::control::Control;
use crate::element::FormattingEntry;
use crate::kinds::is_named;
use crate::open_elements::OpenElements;
use crate::question::{Answer, EntryKind, FactKind, Question};
use crate::reset::reset_from;
use crate::sameness::same_original;
use crate::stack::Stack;
use crate::walks::{
    cleared_from, equals_from, has_entry_from, has_template, last_named_from, open_from,
    reach_from, run_from, scope_from,
};
use hp_elements::{Known, Mode, Name, Rest};
use hp_steps::Steps;
use hp_tokens::LexState;
use std::sync::ledger::Ledger;

/// Whether the answer says so.
fn is_yes_or_no(yes: bool, answer: &Answer) -> bool
    ensures { IsTrue result ↔ (yes_or_no yes ≡ answer.now) }
{
    match answer {
        Answer::Yes => yes,
        Answer::No => !yes,
        _ => false,
    }
}

/// Whether the answer is that number.
fn is_count(count: u64, answer: &Answer) -> bool
    ensures { IsTrue result ↔ (Answer.Count count ≡ answer.now) }
{
    match answer {
        Answer::Count(said) => *said == count,
        _ => false,
    }
}

/// Whether the answer is the depth of what was found so far below, or that nothing was.
fn is_depth(from: u64, found: Option<usize>, answer: &Answer) -> bool
    ensures { IsTrue result ↔ (depth_answer from found ≡ answer.now) }
{
    match answer {
        Answer::Depth(said) => is_below(from, found, *said),
        Answer::NoDepth => found.is_none(),
        _ => false,
    }
}

/// Whether something was found at that depth.
fn is_below(from: u64, found: Option<usize>, depth: u64) -> bool
    ensures { IsTrue result ↔ IfSomeIs from found depth }
{
    match found {
        Some(found) => depth >= from && depth - from == found as u64,
        None => false,
    }
}

/// Whether the answer is how the element of the form pointer stands.
fn is_pointer(stack: &OpenElements, from: u64, form: Option<u64>, answer: &Answer) -> bool
    ensures { IsTrue result ↔ (pointer_answer from form (drop from stack.now) ≡ answer.now) }
{
    let Some(id) = form else {
        return matches!(answer, Answer::Null);
    };
    let found = scope_from(stack, from as usize, id);
    match answer {
        Answer::Depth(said) => is_below(from, found, *said),
        Answer::Away => found.is_none(),
        _ => false,
    }
}

/// Whether the answer is the element at the depth.
fn is_element(stack: &OpenElements, depth: u64, answer: &Answer) -> bool
    ensures { IsTrue result ↔ (element_answer (slice_get stack.now depth) ≡ answer.now) }
{
    let depth = depth as usize;
    if depth >= stack.len() {
        return matches!(answer, Answer::NoElement);
    }
    let element = stack.at(depth);
    match answer {
        Answer::Element {
            namespace,
            name,
            point,
        } => {
            element.namespace == *namespace && element.point == *point && element.name.same(name)
        }
        _ => false,
    }
}

/// How the last entry of the name stands.
pub(crate) fn kind_of(
    stack: &OpenElements,
    depth: usize,
    list: &Stack<FormattingEntry>,
    from: usize,
    name: &Name,
) -> EntryKind
    ensures { result ≡ kind_of (last_named name.now (drop from list.now)) (drop depth stack.now) }
{
    let Some(id) = last_named_from(list, from, name) else {
        return EntryKind::Absent;
    };
    if open_from(stack, depth, id).is_none() {
        return EntryKind::Closed;
    }
    if scope_from(stack, depth, id).is_some() {
        EntryKind::InScope
    } else {
        EntryKind::Hidden
    }
}

/// Whether the element at the depth has an entry.
pub(crate) fn top_has_entry(
    stack: &OpenElements,
    depth: usize,
    list: &Stack<FormattingEntry>,
    from: usize,
) -> bool
    ensures { result ≡ top_has_entry (drop depth stack.now) (drop from list.now) }
{
    depth < stack.len() && has_entry_from(list, from, stack.at(depth).id)
}

/// Whether the answer says how the last entry of a name stands.
fn is_listed(
    stack: &OpenElements,
    depth: usize,
    list: &Stack<FormattingEntry>,
    from: usize,
    name: &Name,
    answer: &Answer,
) -> bool
    ensures { IsTrue result ↔ (listed_answer name.now (drop depth stack.now) (drop from list.now) ≡ answer.now) }
{
    match answer {
        Answer::Entry { kind, top } => {
            *kind == kind_of(stack, depth, list, from, name)
                && *top == top_has_entry(stack, depth, list, from)
        }
        _ => false,
    }
}

/// Whether nothing below is to be reconstructed.
pub(crate) fn is_quiet(
    stack: &OpenElements,
    depth: usize,
    list: &Stack<FormattingEntry>,
    from: usize,
) -> bool
    ensures { result ≡ is_quiet (drop depth stack.now) (drop from list.now) }
{
    if from >= list.len() {
        return true;
    }
    match list.at(from) {
        FormattingEntry::Marker => true,
        FormattingEntry::Element { id, .. } => open_from(stack, depth, *id).is_some(),
    }
}

/// Whether the second element is an HTML `body` that stands at the depth or below.
pub fn second_is_body(stack: &OpenElements, depth: usize) -> bool
    ensures { result ≡ second_is_body (drop depth stack.now) }
{
    let count = stack.len();
    if count < 2 {
        return false;
    }
    if depth > count - 2 {
        return false;
    }
    is_named(Known::BODY, stack.at(count - 2))
}

/// Whether the answer is what is told at the chunk's start.
fn is_entry(
    lex: &LexState,
    mode: Mode,
    original: Option<Mode>,
    skip_lf: bool,
    answer: &Answer,
) -> bool
    ensures { IsTrue result ↔ (entry_answer lex.now.machine.after_cr mode original skip_lf (rest_of lex.now.machine.state) ≡ answer.now) }
{
    let after_cr = lex.machine.after_cr;
    match lex.machine.state.rest() {
        None => matches!(answer, Answer::NotResting),
        Some(rest) => is_resting(rest, after_cr, mode, original, skip_lf, answer),
    }
}

fn same_modes(mode: Mode, other: Mode, original: Option<Mode>, other_original: Option<Mode>) -> bool
    ensures { IsTrue result ↔ ((mode ≡ other) × (original ≡ other_original)) }
{
    mode == other && same_original(original, other_original)
}

fn is_resting(
    rest: Rest,
    after_cr: bool,
    mode: Mode,
    original: Option<Mode>,
    skip_lf: bool,
    answer: &Answer,
) -> bool
    ensures { IsTrue result ↔ (Answer.Resting rest after_cr mode original skip_lf ≡ answer.now) }
{
    match answer {
        Answer::Resting {
            rest: said_rest,
            after_cr: said_cr,
            mode: said_mode,
            original: said_original,
            skip_lf: said_lf,
        } => {
            *said_rest == rest
                && same_modes(*said_mode, mode, *said_original, original)
                && *said_cr == after_cr
                && *said_lf == skip_lf
        }
        _ => false,
    }
}

/// The text of the last start tag's name; empty where there was none.
pub(crate) fn last_tag(lex: &LexState) -> &str
    ensures { chars result.now ≡ unwrap_or lex.now.machine.last_tag [] }
{
    match &lex.machine.last_tag {
        Some(name) => name.as_str(),
        None => "",
    }
}

/// Whether the answer is that name.
fn is_last_tag(lex: &LexState, answer: &Answer) -> bool
    ensures { IsTrue result ↔ (Answer.LastTag (unwrap_or lex.now.machine.last_tag []) ≡ answer.now) }
{
    match answer {
        Answer::LastTag(said) => last_tag(lex) == said.as_str(),
        _ => false,
    }
}

/// Whether the answer is the true one, read in the full state. It takes no memory, and one step.
pub fn truth<L: Ledger>(
    control: &Control,
    question: &Question,
    answer: &Answer,
    steps: &mut Steps<L>,
) -> bool
    ensures told { IsTrue result ↔ (answer_of control.now question.now ≡ answer.now) }
    ensures steps { steps.new ≡ steps.old + 1 }
{
    steps.tick();
    is_true(control, question, answer)
}

/// The same by no count.
fn is_true(control: &Control, question: &Question, answer: &Answer) -> bool
    ensures { IsTrue result ↔ (answer_of control.now question.now ≡ answer.now) }
{
    let stack = &control.stack;
    let list = &control.formatting;
    match question {
        Question::Entry => is_entry(
            &control.lex,
            control.mode,
            control.original,
            control.skip_lf,
            answer,
        ),
        Question::Elem { depth } => is_element(stack, *depth, answer),
        Question::Seen {
            depth,
            goals,
            stops,
        } => {
            let found = reach_from(stack, *depth as usize, goals, stops);
            is_yes_or_no(found.is_some(), answer)
        }
        Question::Reach {
            depth,
            goals,
            stops,
        } => {
            let found = reach_from(stack, *depth as usize, goals, stops);
            is_depth(*depth, found, answer)
        }
        Question::RunOf { depth, names } => {
            let count = run_from(stack, *depth as usize, names);
            is_count(count as u64, answer)
        }
        Question::HasTemplate { depth } => {
            is_yes_or_no(has_template(stack, *depth as usize), answer)
        }
        Question::ResetFrom { depth } => {
            let mode = reset_from(
                control.head.is_some(),
                &control.templates,
                stack,
                *depth as usize,
            );
            matches!(answer, Answer::NewMode(said) if *said == mode)
        }
        Question::Quiet { depth, cuts } => {
            let from = cleared_from(list, *cuts);
            is_yes_or_no(is_quiet(stack, *depth as usize, list, from), answer)
        }
        Question::Listed { depth, cuts, name } => {
            let from = cleared_from(list, *cuts);
            is_listed(stack, *depth as usize, list, from, name, answer)
        }
        Question::Same { cuts, tag } => {
            let from = cleared_from(list, *cuts);
            is_count(equals_from(list, from, tag), answer)
        }
        Question::Pointer { depth } => is_pointer(stack, *depth, control.form, answer),
        Question::Fact {
            which: FactKind::Quirks,
        } => is_yes_or_no(control.quirks, answer),
        Question::Fact {
            which: FactKind::LastTag,
        } => is_last_tag(&control.lex, answer),
        Question::Whole { depth } => {
            let here = second_is_body(stack, *depth as usize);
            let ok = control.frameset_ok;
            matches!(answer, Answer::Whole { body, frameset_ok } if *body == here && *frameset_ok == ok)
        }
    }
}
