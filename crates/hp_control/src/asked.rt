//! Whether two questions are one.
ghost use Rattle.std.specs.Prelude.{◌≡◌, ◌↔◌, IsTrue};
ghost use Rattle.hp_control.specs.QuestionParts.{set_place, fact_place};

use crate::question::{FactKind, Question};
use hp_elements::{Kinds, SetName};

/// The place of a set among all sets.
#[inline]
pub(crate) fn set_place(set: SetName) -> u64
    ensures { result ≡ set_place set }
{
    set as u64
}

pub(crate) fn fact_place(which: FactKind) -> u64
    ensures { result ≡ fact_place which }
{
    match which {
        FactKind::Quirks => 0,
        FactKind::LastTag => 1,
    }
}

fn same_set(set: SetName, other: SetName) -> bool
    ensures { IsTrue result ↔ (set ≡ other) }
{
    set_place(set) == set_place(other)
}

fn same_fact(which: FactKind, other: FactKind) -> bool
    ensures { IsTrue result ↔ (which ≡ other) }
{
    fact_place(which) == fact_place(other)
}

/// Whether the two are the same kinds of elements.
fn same_kinds(kinds: &Kinds, other: &Kinds) -> bool
    ensures { IsTrue result ↔ (kinds.now ≡ other.now) }
{
    match kinds {
        Kinds::Nothing => matches!(other, Kinds::Nothing),
        Kinds::All => matches!(other, Kinds::All),
        Kinds::AnyHtml => matches!(other, Kinds::AnyHtml),
        Kinds::HtmlOrPoint => matches!(other, Kinds::HtmlOrPoint),
        Kinds::Html(name) => matches!(other, Kinds::Html(theirs) if name.same(theirs)),
        Kinds::Foreign(name) => matches!(other, Kinds::Foreign(theirs) if name.same(theirs)),
        Kinds::Set(set) => matches!(other, Kinds::Set(theirs) if same_set(*set, *theirs)),
    }
}

impl Question {
    /// Whether two questions are one.
    pub fn same(&self, other: &Question) -> bool
        ensures { IsTrue result ↔ (self.now ≡ other.now) }
    {
        match self {
            Question::Entry => matches!(other, Question::Entry),
            Question::Elem { depth } => {
                matches!(other, Question::Elem { depth: theirs } if *theirs == *depth)
            }
            Question::Seen {
                depth,
                goals,
                stops,
            } => {
                matches!(other, Question::Seen { depth: d, goals: g, stops: s } if *d == *depth && same_kinds(goals, g) && same_kinds(stops, s))
            }
            Question::Reach {
                depth,
                goals,
                stops,
            } => {
                matches!(other, Question::Reach { depth: d, goals: g, stops: s } if *d == *depth && same_kinds(goals, g) && same_kinds(stops, s))
            }
            Question::RunOf { depth, names } => {
                matches!(other, Question::RunOf { depth: d, names: n } if *d == *depth && same_kinds(names, n))
            }
            Question::HasTemplate { depth } => {
                matches!(other, Question::HasTemplate { depth: theirs } if *theirs == *depth)
            }
            Question::ResetFrom { depth } => {
                matches!(other, Question::ResetFrom { depth: theirs } if *theirs == *depth)
            }
            Question::Quiet { depth, cuts } => {
                matches!(other, Question::Quiet { depth: d, cuts: c } if *d == *depth && *c == *cuts)
            }
            Question::Listed { depth, cuts, name } => {
                matches!(other, Question::Listed { depth: d, cuts: c, name: n } if *d == *depth && *c == *cuts && name.same(n))
            }
            Question::Same { cuts, tag } => {
                matches!(other, Question::Same { cuts: c, tag: t } if *c == *cuts && tag.same(t))
            }
            Question::Pointer { depth } => {
                matches!(other, Question::Pointer { depth: theirs } if *theirs == *depth)
            }
            Question::Fact { which } => {
                matches!(other, Question::Fact { which: theirs } if same_fact(*which, *theirs))
            }
            Question::Whole { depth } => {
                matches!(other, Question::Whole { depth: theirs } if *theirs == *depth)
            }
        }
    }
}
