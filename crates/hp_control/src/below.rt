//! The state below a chunk, as far as it is known.
ghost use Rattle.std.specs.Prelude.{◌≡◌, IfOk, OnErr, None, Ok};
ghost use Rattle.hp_control.specs.Truth.{answer_of};
ghost use Rattle.hp_control.specs.Nothing.{nothing};
ghost use Rattle.hp_control.specs.Plan.{Heard, Runs, asks, gives};
ghost use Rattle.hp_control.specs.Remembering.{question_of};
ghost use Rattle.hp_control.specs.declared.question.Question.{Question};
ghost use Rattle.hp_control.specs.declared.question.Question.TheVariants.{Same};
ghost use Rattle.hp_control.specs.declared.question.Answer.{Answer};

use crate::question::{Answer, EntryKind, FactKind, Question};
use crate::recurring::Recurring;
use hp_elements::{Mode, Name, NoMemory, Rest, Tag};
use std::alloc::Global;

/// What is below a chunk: a state that is asked.
pub trait Below {
    /// What is answered to each question, and what was kept of the answers.
    ghost heard: { Self → Heard };

    /// Asks the state. The answer is what it says, and the pair is kept where answers are kept. At an `Err`, which comes only
    /// for want of memory, nothing is kept.
    fn ask(&mut self, alloc: Global, question: Question) -> Result<Answer, NoMemory>
        ensures asked { IfOk result (λ answer. Runs (heard self.old) (heard self.new) (asks question gives) (Ok answer)) }
        ensures unchanged { OnErr result (heard self.new ≡ heard self.old) };

    /// Asks a question that comes again and again. Where its usual answer is remembered, that takes no search.
    fn ask_recurring(&mut self, alloc: Global, question: Recurring) -> Result<Answer, NoMemory>
        ensures asked { IfOk result (λ answer. Runs (heard self.old) (heard self.new) (asks (question_of question) gives) (Ok answer)) }
        ensures unchanged { OnErr result (heard self.new ≡ heard self.old) };

    /// Asks how many entries are equal to the tag. It is copied only where the pair is kept, and wasn't kept before.
    fn ask_same(&mut self, alloc: Global, cuts: u64, tag: &Tag) -> Result<Answer, NoMemory>
        ensures asked { IfOk result (λ answer. Runs (heard self.old) (heard self.new) (asks (Same cuts tag.now) gives) (Ok answer)) }
        ensures unchanged { OnErr result (heard self.new ≡ heard self.old) };
}

/// No older state: it answers as a state with empty lists, and keeps nothing.
#[derive(Drop)]
pub struct Nothing;

impl Below for Nothing {
    ghost heard = { λ _. record { says = answer_of nothing; kept = None } };

    #[inline(always)]
    fn ask(&mut self, alloc: Global, question: Question) -> Result<Answer, NoMemory> {
        let answer = answer_nothing(alloc, &question);
        drop(question);
        answer
    }

    #[inline(always)]
    fn ask_recurring(&mut self, _alloc: Global, question: Recurring) -> Result<Answer, NoMemory> {
        Ok(recurring_of_nothing(question))
    }

    #[inline(always)]
    fn ask_same(&mut self, _alloc: Global, _cuts: u64, _tag: &Tag) -> Result<Answer, NoMemory> {
        Ok(Answer::Count(0))
    }
}

/// What a state with empty lists answers to a question that comes again and again.
#[inline(always)]
fn recurring_of_nothing(question: Recurring) -> Answer
    ensures { result ≡ answer_of nothing (question_of question) }
{
    match question {
        Recurring::Html { .. } => Answer::No,
        Recurring::Paragraph { .. } => Answer::No,
        Recurring::Quiet { .. } => Answer::Yes,
        Recurring::Listed { .. } => Answer::Entry {
            kind: EntryKind::Absent,
            top: false,
        },
    }
}

/// What a state with empty lists answers. Where the question is known, so is the answer.
#[inline(always)]
pub(crate) fn answer_nothing(alloc: Global, question: &Question) -> Result<Answer, NoMemory>
    ensures { IfOk result (λ answer. answer ≡ answer_of nothing question.now) }
{
    match question {
        Question::Elem { .. } => Ok(Answer::NoElement),
        Question::Seen { .. } => Ok(Answer::No),
        Question::Reach { .. } => Ok(Answer::NoDepth),
        Question::RunOf { .. } => Ok(Answer::Count(0)),
        Question::HasTemplate { .. } => Ok(Answer::No),
        Question::ResetFrom { .. } => Ok(Answer::NewMode(Mode::InBody)),
        Question::Quiet { .. } => Ok(Answer::Yes),
        Question::Listed { .. } => Ok(Answer::Entry {
            kind: EntryKind::Absent,
            top: false,
        }),
        Question::Same { .. } => Ok(Answer::Count(0)),
        Question::Pointer { .. } => Ok(Answer::Null),
        Question::Fact { which } => match which {
            FactKind::Quirks => Ok(Answer::No),
            FactKind::LastTag => Ok(Answer::LastTag(Name::from_text(alloc, "")?)),
        },
        Question::Whole { .. } => Ok(Answer::Whole {
            body: false,
            frameset_ok: true,
        }),
        Question::Entry => Ok(Answer::Resting {
            rest: Rest::Data,
            after_cr: false,
            mode: Mode::Initial,
            original: None,
            skip_lf: false,
        }),
    }
}

/// Says what an older state is.
pub trait Predictor {
    ghost says: { Self → Question → Answer };

    /// What is said to the question.
    fn say(&self, alloc: Global, question: &Question) -> Result<Answer, NoMemory>
        ensures { IfOk result (λ answer. answer ≡ says self.now question.now) };
}

/// A predictor says the same where it is lent.
impl<P: Predictor> Predictor for &P {
    ghost says = { λ p. P.says p.now };

    fn say(&self, alloc: Global, question: &Question) -> Result<Answer, NoMemory> {
        (**self).say(alloc, question)
    }
}
