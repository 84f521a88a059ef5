//! The predictors that look at no text.
ghost use Rattle.std.specs.Prelude.{◌≡◌, IfOk};
ghost use Rattle.hp_predict.specs.Says.{quiet_says, contrary_says, has_all_html as spec_has_all_html, has_body as spec_has_body};

use crate::name::has_name;
use hp_control::{Answer, EntryKind, FactKind, Predictor, Question};
use hp_elements::{Kinds, Known, Mode, Name, Namespace, NoMemory, Point, Rest};
use std::alloc::Global;

/// A predictor.
#[derive(Clone, Copy, Debug, PartialEq, Eq)]
pub enum GuessKind {
    Quiet,
    Prescan,
    Contrary,
}

/// Says that the chunk begins in a body where nothing else is open.
#[derive(Clone, Copy)]
pub struct Quiet;

/// Says what no state of a page is.
#[derive(Clone, Copy)]
pub struct Contrary;

impl Predictor for Quiet {
    ghost says = { λ _. quiet_says };

    fn say(&self, alloc: Global, question: &Question) -> Result<Answer, NoMemory> {
        quiet_answer(alloc, question)
    }
}

impl Predictor for Contrary {
    ghost says = { λ _. contrary_says };

    fn say(&self, alloc: Global, question: &Question) -> Result<Answer, NoMemory> {
        match question {
            Question::Entry => Ok(Answer::Resting {
                rest: Rest::Plaintext,
                after_cr: false,
                mode: Mode::Initial,
                original: None,
                skip_lf: false,
            }),
            _ => quiet_answer(alloc, question),
        }
    }
}

/// Whether each HTML element is of these kinds.
fn has_all_html(goals: &Kinds) -> bool
    ensures { result ≡ spec_has_all_html goals.now }
{
    match goals {
        Kinds::AnyHtml | Kinds::HtmlOrPoint => true,
        _ => false,
    }
}

/// Whether the goals are all HTML elements, or body.
fn has_body(goals: &Kinds) -> bool
    ensures { result ≡ spec_has_body goals.now }
{
    match goals {
        Kinds::Html(name) => has_name(name, Known::BODY),
        _ => has_all_html(goals),
    }
}

fn quiet_answer(alloc: Global, question: &Question) -> Result<Answer, NoMemory>
    ensures { IfOk result (λ answer. answer ≡ quiet_says question.now) }
{
    match question {
        Question::Entry => Ok(Answer::Resting {
            rest: Rest::Data,
            after_cr: false,
            mode: Mode::InBody,
            original: None,
            skip_lf: false,
        }),
        Question::Elem { .. } => Ok(Answer::Element {
            namespace: Namespace::Html,
            name: Name::of_known(Known::DIV),
            point: Point::No,
        }),
        Question::Seen { goals, .. } if has_body(goals) => Ok(Answer::Yes),
        Question::Seen { .. } => Ok(Answer::No),
        Question::Reach { depth, goals, .. } if has_all_html(goals) => Ok(Answer::Depth(*depth)),
        Question::Reach { .. } => Ok(Answer::NoDepth),
        Question::RunOf { .. } => Ok(Answer::Count(0)),
        Question::HasTemplate { .. } => Ok(Answer::No),
        Question::ResetFrom { .. } => Ok(Answer::NewMode(Mode::InBody)),
        Question::Quiet { .. } => Ok(Answer::Yes),
        Question::Listed { .. } => Ok(Answer::Entry {
            kind: EntryKind::Absent,
            top: false,
        }),
        Question::Same { .. } => Ok(Answer::Count(0)),
        Question::Pointer { .. } => Ok(Answer::Null),
        Question::Fact { which } => match *which {
            FactKind::Quirks => Ok(Answer::No),
            FactKind::LastTag => Ok(Answer::LastTag(Name::from_text(alloc, "")?)),
        },
        Question::Whole { .. } => Ok(Answer::Whole {
            body: true,
            frameset_ok: false,
        }),
    }
}
