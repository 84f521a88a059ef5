//! A question that is looked for among pairs.
ghost use Rattle.std.specs.Prelude.{◌≡◌, ◌↔◌, IsTrue};
ghost use Rattle.hp_control.specs.Guessing.{sought};

use crate::question::Question;
use hp_elements::Tag;

/// A question that is looked for: one that was made, or `Same` of a tag that is lent.
#[derive(Clone, Copy)]
pub(crate) enum Sought<'q> {
    Made(&'q Question),
    Same { cuts: u64, tag: &'q Tag },
}

impl<'q> Sought<'q> {
    /// Whether it is that one.
    pub(crate) fn is(self, question: &Question) -> bool
        ensures { IsTrue result ↔ (question.now ≡ sought self.entry) }
    {
        match self {
            Sought::Made(own) => question.same(own),
            Sought::Same { cuts, tag } => {
                matches!(question, Question::Same { cuts: c, tag: t } if *c == cuts && t.same(tag))
            }
        }
    }
}
