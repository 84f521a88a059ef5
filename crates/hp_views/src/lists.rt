//! The list of active formatting elements (13.2.4.3).
ghost use Rattle.std.specs.Prelude.{◌≡◌};
ghost use Rattle.hp_views.specs.Steps.{append_step, clear_step, marker_step};
ghost use Rattle.hp_views.specs.View.{sight, Answers, Carries, Meets};
ghost use Rattle.hp_views.specs.ListPlans.{clear_on, listed_plan};
ghost use Rattle.hp_views.specs.declared.walks.Walk.TheVariants.{PastAll};

use crate::asking::older_listed;
use crate::view::View;
use crate::walks::{Walk, marker_walk, name_walk};
use hp_control::{Below, EntryKind, FormattingEntry, Refusal};
use hp_elements::{Name, Tag};
use std::alloc::Global;

impl<'p, B: Below> View<'p, B> {
    /// A marker at the list's end.
    pub fn add_marker(&mut self, alloc: Global) -> Result<(), Refusal>
        ensures { Meets result (sight B.heard self.old) (sight B.heard self.new) marker_step }
    {
        self.change.formatting.add(alloc, FormattingEntry::Marker)?;
        Ok(())
    }

    /// An entry for the current node, which was made for the tag.
    pub fn append_entry(&mut self, alloc: Global, tag: Tag) -> Result<(), Refusal>
        ensures { Meets result (sight B.heard self.old) (sight B.heard self.new) (append_step tag) }
    {
        let id = self.own_current();
        self.change
            .formatting
            .add(alloc, FormattingEntry::Element { id, tag })?;
        Ok(())
    }

    /// Takes entries off up to and with the last marker.
    #[inline(always)]
    pub fn clear_to_marker(&mut self, _alloc: Global) -> Result<(), Refusal>
        ensures { Meets result (sight B.heard self.old) (sight B.heard self.new) clear_step }
    {
        match marker_walk(&self.change.formatting) {
            Walk::Found(depth) => {
                self.change.formatting.drop_top(depth + 1);
                Ok(())
            }
            _ => self.clear_all(),
        }
    }

    /// Takes all own entries off, and the older ones up to and with the last marker there.
    #[inline(never)]
    fn clear_all(&mut self) -> Result<(), Refusal>
        ensures { Carries result (sight B.heard self.old) (sight B.heard self.new) (λ v. clear_on v PastAll) }
    {
        let Some(cuts) = self.change.cuts.checked_add(1) else {
            return Err(Refusal::NoMemory);
        };
        let count = self.change.formatting.len();
        self.change.formatting.drop_top(count);
        self.change.cuts = cuts;
        Ok(())
    }

    /// Whether an entry of that name stands after the last marker.
    pub fn is_listed(&mut self, alloc: Global, name: Name) -> Result<bool, Refusal>
        ensures { Answers result (sight B.heard self.old) (sight B.heard self.new) (listed_plan name) }
    {
        match name_walk(&self.change.formatting, &name) {
            Walk::Found(_) => Ok(true),
            Walk::Stopped => Ok(false),
            Walk::PastAll => {
                let depth = self.change.popped;
                let cuts = self.change.cuts;
                let standing = older_listed(&mut self.below, alloc, depth, cuts, name)?;
                Ok(!matches!(standing.kind, EntryKind::Absent))
            }
        }
    }
}
