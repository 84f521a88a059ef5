//! Kinds of questions.
ghost use Rattle.std.specs.Prelude.{◌≡◌};
ghost use Rattle.hp_board.specs.Kinds.{kind_of as spec_kind_of};

use hp_control::Question;

/// What a question asks for: a kind for each `Question`, of the same name.
#[derive(Clone, Copy, Debug, PartialEq, Eq)]
pub enum QuestionKind {
    Entry,
    Elem,
    Seen,
    Reach,
    RunOf,
    HasTemplate,
    ResetFrom,
    Quiet,
    Listed,
    Same,
    Pointer,
    Fact,
    Whole,
}

/// The kind of a question.
pub fn kind_of(question: &Question) -> QuestionKind
    ensures { result ≡ spec_kind_of question.now }
{
    match question {
        Question::Entry => QuestionKind::Entry,
        Question::Elem { .. } => QuestionKind::Elem,
        Question::Seen { .. } => QuestionKind::Seen,
        Question::Reach { .. } => QuestionKind::Reach,
        Question::RunOf { .. } => QuestionKind::RunOf,
        Question::HasTemplate { .. } => QuestionKind::HasTemplate,
        Question::ResetFrom { .. } => QuestionKind::ResetFrom,
        Question::Quiet { .. } => QuestionKind::Quiet,
        Question::Listed { .. } => QuestionKind::Listed,
        Question::Same { .. } => QuestionKind::Same,
        Question::Pointer { .. } => QuestionKind::Pointer,
        Question::Fact { .. } => QuestionKind::Fact,
        Question::Whole { .. } => QuestionKind::Whole,
    }
}
