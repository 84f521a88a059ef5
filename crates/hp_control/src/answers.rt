//! The true answer to each question, read in a full state.
ghost use Rattle.std.specs.Prelude.{◌≡◌, ◌+◌, ◌<◌, ◌^◌, IfOk, IfSome, drop, slice_get};
ghost use Rattle.hp_control.specs.Truth.{answer_of, yes_or_no, depth_answer, pointer_answer, element_answer, entry_answer, rest_of, fact_answer};

use crate::control::Control;
use crate::open_elements::OpenElements;
use crate::question::{Answer, FactKind, Question};
use crate::reset::reset_from;
use crate::truths::{is_quiet, kind_of, last_tag, second_is_body, top_has_entry};
use crate::walks::{cleared_from, equals_from, has_template, reach_from, run_from, scope_from};
use hp_elements::{Mode, Name, NoMemory};
use hp_tokens::LexState;
use std::alloc::Global;

fn yes_or_no(yes: bool) -> Answer
    ensures { result ≡ yes_or_no yes }
{
    if yes { Answer::Yes } else { Answer::No }
}

/// The depth of what was found so far below, or that nothing was.
fn depth_answer(from: u64, found: Option<usize>) -> Answer
    requires { IfSome found (λ found. from + found < 2 ^ 64) }
    ensures { result ≡ depth_answer from found }
{
    match found {
        Some(found) => Answer::Depth(from + found as u64),
        None => Answer::NoDepth,
    }
}

/// How the element of the form pointer stands.
fn pointer_answer(stack: &OpenElements, from: u64, form: Option<u64>) -> Answer
    ensures { result ≡ pointer_answer from form (drop from stack.now) }
{
    let Some(id) = form else {
        return Answer::Null;
    };
    match scope_from(stack, from as usize, id) {
        Some(found) => Answer::Depth(from + found as u64),
        None => Answer::Away,
    }
}

/// The element at the depth.
fn element_answer(alloc: Global, stack: &OpenElements, depth: u64) -> Result<Answer, NoMemory>
    ensures { IfOk result (λ answer. answer ≡ element_answer (slice_get stack.now depth)) }
{
    let depth = depth as usize;
    if depth >= stack.len() {
        return Ok(Answer::NoElement);
    }
    let element = stack.at(depth);
    Ok(Answer::Element {
        namespace: element.namespace,
        name: element.name.copy(alloc)?,
        point: element.point,
    })
}

/// What is told at a chunk's start.
fn entry_answer(lex: &LexState, mode: Mode, original: Option<Mode>, skip_lf: bool) -> Answer
    ensures { result ≡ entry_answer lex.now.machine.after_cr mode original skip_lf (rest_of lex.now.machine.state) }
{
    match lex.machine.state.rest() {
        None => Answer::NotResting,
        Some(rest) => Answer::Resting {
            rest,
            after_cr: lex.machine.after_cr,
            mode,
            original,
            skip_lf,
        },
    }
}

fn fact_answer(alloc: Global, control: &Control, which: FactKind) -> Result<Answer, NoMemory>
    ensures { IfOk result (λ answer. answer ≡ fact_answer control.now which) }
{
    match which {
        FactKind::Quirks => Ok(yes_or_no(control.quirks)),
        FactKind::LastTag => {
            let name = Name::from_text(alloc, last_tag(&control.lex))?;
            Ok(Answer::LastTag(name))
        }
    }
}

/// The true answer, read in the full state. It takes memory for a long name alone.
pub fn answer(alloc: Global, control: &Control, question: &Question) -> Result<Answer, NoMemory>
    ensures { IfOk result (λ answer. answer ≡ answer_of control.now question.now) }
{
    match question {
        Question::Elem { depth } => element_answer(alloc, &control.stack, *depth),
        Question::Fact { which } => fact_answer(alloc, control, *which),
        Question::Entry => Ok(entry_answer(
            &control.lex,
            control.mode,
            control.original,
            control.skip_lf,
        )),
        Question::Seen {
            depth,
            goals,
            stops,
        } => {
            let found = reach_from(&control.stack, *depth as usize, goals, stops);
            Ok(yes_or_no(found.is_some()))
        }
        Question::Reach {
            depth,
            goals,
            stops,
        } => {
            let found = reach_from(&control.stack, *depth as usize, goals, stops);
            Ok(depth_answer(*depth, found))
        }
        Question::RunOf { depth, names } => {
            let count = run_from(&control.stack, *depth as usize, names);
            Ok(Answer::Count(count as u64))
        }
        Question::HasTemplate { depth } => {
            Ok(yes_or_no(has_template(&control.stack, *depth as usize)))
        }
        Question::ResetFrom { depth } => {
            let mode = reset_from(
                control.head.is_some(),
                &control.templates,
                &control.stack,
                *depth as usize,
            );
            Ok(Answer::NewMode(mode))
        }
        Question::Quiet { depth, cuts } => {
            let from = cleared_from(&control.formatting, *cuts);
            let quiet = is_quiet(&control.stack, *depth as usize, &control.formatting, from);
            Ok(yes_or_no(quiet))
        }
        Question::Listed { depth, cuts, name } => {
            let from = cleared_from(&control.formatting, *cuts);
            let (stack, list) = (&control.stack, &control.formatting);
            let depth = *depth as usize;
            Ok(Answer::Entry {
                kind: kind_of(stack, depth, list, from, name),
                top: top_has_entry(stack, depth, list, from),
            })
        }
        Question::Same { cuts, tag } => {
            let from = cleared_from(&control.formatting, *cuts);
            Ok(Answer::Count(equals_from(&control.formatting, from, tag)))
        }
        Question::Pointer { depth } => { Ok(pointer_answer(&control.stack, *depth, control.form)) }
        Question::Whole { depth } => Ok(Answer::Whole {
            body: second_is_body(&control.stack, *depth as usize),
            frameset_ok: control.frameset_ok,
        }),
    }
}
