//! The way from the furthest block up to the formatting element (13.2.6.4.7, the inner loop).
ghost use Rattle.std.specs.Prelude.{◌≡◌, [], ◌∷◌, ◌++◌, IfOk};
ghost use Rattle.hp_control.specs.Acts.{element_for as spec_element_for};
ghost use Rattle.hp_control.specs.Adoption.{pass_listed, pass_all, renewed, find_id};
ghost use Rattle.hp_adoption.specs.Entries.{ref_of, tag_of};
ghost use Rattle.hp_adoption.specs.Starting.{block_after};
ghost use Rattle.hp_adoption.specs.Turning.{renewing};

use crate::elements::element_for;
use crate::entries::{strike, supplant};
use hp_control::{Child, Edit, Edits, FormattingEntry, OpenElement, Place, Ref, Stack};
use hp_elements::{List, NoMemory, Tag};
use std::alloc::Global;
use std::marker::Model;

/// How many nodes of a turn are made anew.
const RENEWED: usize = 3;

/// An own element; without an older state its id is that of the page.
pub fn own_ref(is_page: bool, id: u64) -> Ref
    ensures { result ≡ ref_of is_page id }
{
    if is_page {
        Ref::Fixed(id)
    } else {
        Ref::Own(id)
    }
}

/// What was made on the way.
#[derive(Drop)]
pub struct Climb<'p> {
    pub formatting: Stack<FormattingEntry>,
    /// The id of the element that is made next.
    pub next: u64,
    /// What stands in the stack for the block and the nodes that were passed.
    pub kept: List<OpenElement>,
    /// The last node.
    pub last: u64,
    /// The element of the entry that the bookmark is after; `None` where it is at the formatting element's place.
    pub bookmark: Option<u64>,
    /// The edits made so far, those before the turn too.
    pub edits: Edits<'p>,
}

impl<'p> Model for Climb<'p> {
    ghost use Rattle.hp_control.specs.Adoption.{Climbed};

    ghost Value = { Climbed };

    ghost view = { λ k. record { formatting = k.formatting; next = k.next; kept = k.kept; last = k.last; bookmark = k.bookmark; edits = k.edits } };
}

impl<'p> Climb<'p> {
    /// At the block, before any node.
    pub fn at_block(
        block: OpenElement,
        formatting: Stack<FormattingEntry>,
        next: u64,
        edits: Edits<'p>,
    ) -> Climb<'p>
        ensures { result ≡ block_after edits.entry block formatting next }
    {
        Climb {
            formatting,
            next,
            last: block.id,
            kept: List::of_one(block),
            bookmark: None,
            edits,
        }
    }

    /// A new element of the tag takes the place of the node, and the last node goes into it.
    fn renew(
        &mut self,
        alloc: Global,
        is_page: bool,
        block: u64,
        node: u64,
        tag: Tag,
    ) -> Result<(), NoMemory>
        ensures { IfOk result (λ _. self.new ≡ renewed (ref_of is_page) block node tag self.old) }
    {
        let id = self.next;
        self.kept.push(alloc, element_for(alloc, id, &tag)?)?;
        let last = own_ref(is_page, self.last);
        let made = own_ref(is_page, id);
        note_renewed(alloc, &mut self.edits, last, made, &tag)?;
        supplant(
            &mut self.formatting,
            node,
            FormattingEntry::Element { id, tag },
        );
        if self.last == block {
            self.bookmark = Some(id);
        }
        self.last = id;
        let Some(next) = id.checked_add(1) else {
            return Err(NoMemory);
        };
        self.next = next;
        Ok(())
    }

    /// Goes past the node of this id, the turn's `count`th.
    #[tactic(auto, using(crate::proofs::Spots::passed_none, crate::proofs::Spots::passed_new, crate::proofs::Spots::passed_late))]
    fn pass(
        &mut self,
        alloc: Global,
        is_page: bool,
        block: u64,
        count: usize,
        node: u64,
    ) -> Result<(), NoMemory>
        ensures { IfOk result (λ _. self.new ≡ pass_listed (ref_of is_page) block count node (find_id node self.old.formatting) self.old) }
    {
        if count > RENEWED {
            strike(&mut self.formatting, node);
            return Ok(());
        }
        match find_tag(alloc, &self.formatting, node)? {
            None => Ok(()),
            Some(tag) => self.renew(alloc, is_page, block, node, tag),
        }
    }

    /// Goes past the nodes in order.
    pub fn pass_all(
        &mut self,
        alloc: Global,
        is_page: bool,
        block: u64,
        nodes: &[OpenElement],
    ) -> Result<(), NoMemory>
        ensures { IfOk result (λ _. self.new ≡ pass_all (ref_of is_page) block 0 nodes.now self.old) }
    {
        for index in 0..nodes.len() {
            self.pass(alloc, is_page, block, index + 1, nodes[index].id)?;
        }
        Ok(())
    }
}

/// The edits of a node that is made anew.
fn note_renewed(
    alloc: Global,
    edits: &mut Edits<'_>,
    last: Ref,
    made: Ref,
    tag: &Tag,
) -> Result<(), NoMemory>
    ensures { IfOk result (λ _. edits.new ≡ edits.old ++ renewing last made tag.now) }
{
    let tag = tag.copy(alloc)?;
    edits.push(alloc, Edit::NewElement { tag })?;
    edits.push(
        alloc,
        Edit::Put {
            child: Child::Element(last),
            place: Place::Into(made),
        },
    )
}

/// The tag of the entry of this id.
fn find_tag(alloc: Global, list: &Stack<FormattingEntry>, id: u64) -> Result<Option<Tag>, NoMemory>
    ensures { IfOk result (λ tag. tag ≡ tag_of id list.now) }
{
    for depth in 0..list.len() {
        if let FormattingEntry::Element { id: other, tag } = list.at(depth) {
            if *other == id {
                return Ok(Some(tag.copy(alloc)?));
            }
        }
    }
    Ok(None)
}
