//! Questions that texts and tags ask again and again, and what is remembered of their answers.
ghost use Rattle.std.specs.Prelude.{◌≡◌, ◌⊎◌, true, None};
ghost use Rattle.hp_control.specs.Remembering.{question_of, usual_answer, Remembers};
ghost use Rattle.hp_control.specs.declared.recurring.Recurring.{Recurring as AnyRecurring};

use crate::question::{Answer, EntryKind, Question};
use hp_elements::{Kinds, Known, Name, SetName};

/// A question that texts and tags ask again and again. Depths and clearings are counted as in `Question`.
#[derive(Clone, Copy)]
pub enum Recurring {
    /// Is the element at the depth an HTML one?
    Html { depth: u64 },
    /// Is a p element in button scope, seen from the depth?
    Paragraph { depth: u64 },
    /// Is nothing to be reconstructed?
    Quiet { depth: u64, cuts: u64 },
    /// How does the last entry of that name stand?
    Listed { depth: u64, cuts: u64, name: Known },
}

impl Recurring {
    /// The question.
    pub(crate) fn question(self) -> Question
        ensures { result ≡ question_of self }
    {
        match self {
            Recurring::Html { depth } => Question::Seen {
                depth,
                goals: Kinds::AnyHtml,
                stops: Kinds::All,
            },
            Recurring::Paragraph { depth } => Question::Seen {
                depth,
                goals: Kinds::Html(Name::of_known(Known::P)),
                stops: Kinds::Set(SetName::ButtonScopeEnds),
            },
            Recurring::Quiet { depth, cuts } => Question::Quiet { depth, cuts },
            Recurring::Listed { depth, cuts, name } => Question::Listed {
                depth,
                cuts,
                name: Name::of_known(name),
            },
        }
    }

    /// The answer at which nothing is to be done.
    #[inline(always)]
    pub(crate) fn usual(self) -> Answer
        ensures { result ≡ usual_answer self }
    {
        match self {
            Recurring::Html { .. } | Recurring::Quiet { .. } => Answer::Yes,
            Recurring::Paragraph { .. } => Answer::No,
            Recurring::Listed { .. } => Answer::Entry {
                kind: EntryKind::Absent,
                top: false,
            },
        }
    }

    /// Whether that is its usual answer.
    pub(crate) fn is_usual(self, answer: &Answer) -> bool
        ensures { result ≡ true → answer.now ≡ usual_answer self }
    {
        match self {
            Recurring::Html { .. } | Recurring::Quiet { .. } => matches!(answer, Answer::Yes),
            Recurring::Paragraph { .. } => matches!(answer, Answer::No),
            Recurring::Listed { .. } => {
                matches!(
                    answer,
                    Answer::Entry {
                        kind: EntryKind::Absent,
                        top: false
                    }
                )
            }
        }
    }
}

/// The last question of each sort that had its usual answer.
#[derive(Clone, Copy)]
pub(crate) struct Remembered {
    pub html: Option<u64>,
    pub paragraph: Option<u64>,
    pub quiet: Option<(u64, u64)>,
    pub listed: Option<(u64, u64, Known)>,
}

impl Remembered {
    /// None yet.
    pub(crate) fn new() -> Remembered
        ensures { result ≡ record { html = None; paragraph = None; quiet = None; listed = None } }
    {
        Remembered {
            html: None,
            paragraph: None,
            quiet: None,
            listed: None,
        }
    }

    /// Whether the question is remembered.
    #[inline(always)]
    pub(crate) fn has(&self, question: Recurring) -> bool
        ensures { result ≡ true → Remembers self.now question }
    {
        match question {
            Recurring::Html { depth } => matches!(self.html, Some(at) if at == depth),
            Recurring::Paragraph { depth } => matches!(self.paragraph, Some(at) if at == depth),
            Recurring::Quiet { depth, cuts } => {
                matches!(self.quiet, Some((at, cleared)) if at == depth && cleared == cuts)
            }
            Recurring::Listed { depth, cuts, name } => {
                matches!(self.listed, Some((at, cleared, own)) if at == depth && cleared == cuts && own.same(name))
            }
        }
    }

    /// Remembers one more, in place of the last one of its sort.
    pub(crate) fn put(&mut self, question: Recurring)
        ensures { (other : AnyRecurring) → Remembers self.new other → (other ≡ question) ⊎ Remembers self.old other }
    {
        match question {
            Recurring::Html { depth } => self.html = Some(depth),
            Recurring::Paragraph { depth } => self.paragraph = Some(depth),
            Recurring::Quiet { depth, cuts } => self.quiet = Some((depth, cuts)),
            Recurring::Listed { depth, cuts, name } => self.listed = Some((depth, cuts, name)),
        }
    }
}
