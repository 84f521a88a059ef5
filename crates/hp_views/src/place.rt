//! The appropriate place for inserting a node (13.2.6.1).
ghost use Rattle.std.specs.Prelude.{◌≡◌, ◌≤◌, drop, length};
ghost use Rattle.hp_control.specs.Acts.{first_id as spec_first_id, second_id as spec_second_id};
ghost use Rattle.hp_views.specs.View.{sight, split_of, Answers};
ghost use Rattle.hp_views.specs.PlacePlans.{own_ref, top_ref, current_ref, first_ref, own_table, foster_plan, place_plan};

use crate::asking::older_reach;
use crate::view::View;
use crate::walks::{Walk, element_walk};
use hp_control::{Below, OpenElements, Place, Ref, Refusal};
use hp_elements::{Kinds, Known, Name, SetName};
use std::alloc::Global;

/// The id of the first element, or of the document.
pub fn first_id(stack: &OpenElements) -> u64
    ensures { result ≡ spec_first_id stack.now }
{
    let count = stack.len();
    if count == 0 {
        0
    } else {
        stack.at(count - 1).id
    }
}

/// The id of the second element, or of the document.
pub fn second_id(stack: &OpenElements) -> u64
    ensures { result ≡ spec_second_id stack.now }
{
    let count = stack.len();
    if count < 2 { 0 } else { stack.at(count - 2).id }
}

/// The HTML element `template`.
pub fn a_template() -> Kinds
    ensures { result ≡ spec_template }
{
    Kinds::Html(Name::of_known(Known::TEMPLATE))
}

/// The HTML element `table`.
pub fn a_table() -> Kinds
    ensures { result ≡ spec_table }
{
    Kinds::Html(Name::of_known(Known::TABLE))
}

ghost use Rattle.hp_views.specs.PlacePlans.{a_template as spec_template, a_table as spec_table};

impl<'p, B: Below> View<'p, B> {
    /// An own element.
    #[inline(always)]
    pub fn own_ref(&self, id: u64) -> Ref
        ensures { result ≡ own_ref (split_of self.now).page id }
    {
        match self.page {
            Some(_) => Ref::Fixed(id),
            None => Ref::Own(id),
        }
    }

    /// The element at a depth of the own stack, or the one next below the last.
    #[inline(always)]
    pub fn ref_at(&self, depth: usize) -> Ref
        requires { depth ≤ length self.now.change.stack }
        ensures { result ≡ top_ref (split_of self.now).page self.now.change.popped (drop depth self.now.change.stack) }
    {
        if depth < self.change.stack.len() {
            return self.own_ref(self.change.stack.at(depth).id);
        }
        match self.page {
            Some(_) => Ref::Fixed(0),
            None => Ref::Older(self.change.popped),
        }
    }

    /// The first element of all.
    pub fn first_ref(&self) -> Ref
        ensures { result ≡ first_ref (split_of self.now).page self.now.change.stack }
    {
        match self.page {
            Some(_) => Ref::Fixed(first_id(&self.change.stack)),
            None => Ref::Fixed(1),
        }
    }

    /// The place before the nearest own table, or in it where it is the first element of all; in the first element where there is no table.
    fn own_table(&self) -> Place
        ensures { result ≡ own_table (split_of self.now) (walk_of spec_table of_kind.Nothing self.now.change.stack) }
    {
        let walk = element_walk(&self.change.stack, &a_table(), &Kinds::Nothing);
        let Walk::Found(depth) = walk else {
            return Place::Into(self.first_ref());
        };
        let table = self.ref_at(depth);
        let is_last = depth == self.change.stack.len() - 1;
        if self.page.is_some() && is_last {
            return Place::Into(table);
        }
        Place::Foster {
            table,
            above: self.ref_at(depth + 1),
        }
    }

    /// Where content goes that may not stand in a table: into the nearest template, or before the nearest table.
    #[inline(never)]
    fn foster_place(&mut self, alloc: Global) -> Result<Place, Refusal>
        ensures { Answers result (sight B.heard self.old) (sight B.heard self.new) foster_plan }
    {
        let walk = element_walk(&self.change.stack, &a_template(), &a_table());
        match walk {
            Walk::Found(depth) => Ok(Place::Into(self.ref_at(depth))),
            Walk::Stopped => Ok(self.own_table()),
            Walk::PastAll => self.foster_below(alloc),
        }
    }

    /// The same among the older elements.
    fn foster_below(&mut self, alloc: Global) -> Result<Place, Refusal>
        ensures { Answers result (sight B.heard self.old) (sight B.heard self.new) (λ v. followed_by (ask_reach v.change.popped spec_template spec_table) (λ o. foster_older v o)) }
    {
        let depth = self.change.popped;
        let template = older_reach(&mut self.below, alloc, depth, a_template(), a_table())?;
        if let Some(count) = template {
            return Ok(Place::Into(Ref::Older(depth + count)));
        }
        let table = older_reach(&mut self.below, alloc, depth, a_table(), Kinds::Nothing)?;
        match table {
            Some(count) => Ok(Place::Foster {
                table: Ref::Older(depth + count),
                above: Ref::Older(depth + count + 1),
            }),
            None => Ok(Place::Into(self.first_ref())),
        }
    }

    /// The appropriate place for inserting a node; `fostering` says that it may not stand in a table.
    #[inline(always)]
    pub fn place(&mut self, alloc: Global, fostering: bool) -> Result<Place, Refusal>
        ensures { Answers result (sight B.heard self.old) (sight B.heard self.new) (place_plan fostering) }
    {
        if !fostering {
            return Ok(Place::Into(self.ref_at(0)));
        }
        let in_table = self.current_is(alloc, Kinds::Set(SetName::FosterParents))?;
        if in_table {
            self.foster_place(alloc)
        } else {
            Ok(Place::Into(self.ref_at(0)))
        }
    }
}

ghost use Rattle.hp_elements.specs.declared.kinds.Kinds.TheVariants as of_kind;
ghost use Rattle.hp_control.specs.Plan.{followed_by};
ghost use Rattle.hp_views.specs.Asking.{ask_reach};
ghost use Rattle.hp_views.specs.PlacePlans.{foster_older};
ghost use Rattle.hp_views.specs.Walks.{walk_of};
