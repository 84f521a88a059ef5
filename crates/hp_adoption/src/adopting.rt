//! A turn of the adoption agency algorithm that finds a furthest block (13.2.6.4.7).
ghost use Rattle.std.specs.Prelude.{◌≡◌, ◌+◌, ◌<◌, ◌++◌, ◌∷◌, IfOk, Some, length, take, drop, slice_get};
ghost use Rattle.hp_control.specs.Acts.{element_for as spec_element_for};
ghost use Rattle.hp_control.specs.Adoption.{pass_all, settled};
ghost use Rattle.hp_views.specs.View.{sight, Carries};
ghost use Rattle.hp_adoption.specs.Entries.{ref_of};
ghost use Rattle.hp_adoption.specs.AdoptPlans.{untangle_at};
ghost use Rattle.hp_adoption.specs.Turning.{adopted_parts, closed_parts, closing, with_parts};

use crate::climb::{Climb, own_ref};
use crate::elements::element_for;
use crate::entries::{follow, strike, supplant};
use hp_control::{
    Below, Change, Child, Edit, Edits, FormattingEntry, OpenElement, OpenElements, Place, Ref,
    Refusal, Stack,
};
use hp_elements::{List, NoMemory, Tag};
use hp_views::View;
use std::alloc::Global;
use std::mem;

/// Where the formatting element and the furthest block stand in the own stack.
#[derive(Clone, Copy)]
pub struct Tangle {
    /// The formatting element's id, and its depth.
    pub id: u64,
    pub depth: usize,
    /// The block's depth.
    pub block: usize,
}

/// The stack above the formatting element, the topmost first.
#[derive(Drop)]
struct Over {
    /// What stands above the block.
    above: List<OpenElement>,
    block: OpenElement,
    /// What stands between the block and the formatting element.
    between: List<OpenElement>,
}

/// Takes the stack off down to the formatting element, and with it.
#[tactic(auto, using(crate::proofs::Apart::none_below, crate::proofs::Apart::rest_below, crate::proofs::Apart::head_below, crate::proofs::Apart::between_of, crate::proofs::Apart::under_of, crate::proofs::Apart::above_of, crate::proofs::Apart::between_fits, crate::proofs::Apart::one_fits))]
fn take_apart(alloc: Global, stack: &mut OpenElements, tangle: Tangle) -> Result<Over, NoMemory>
    requires block { tangle.block < tangle.depth }
    requires inside { tangle.depth < length stack.old }
    ensures above { IfOk result (λ over. over.above ≡ take tangle.block (take tangle.depth stack.old)) }
    ensures block { IfOk result (λ over. slice_get stack.old tangle.block ≡ Some over.block) }
    ensures between { IfOk result (λ over. over.between ≡ drop (tangle.block + 1) (take tangle.depth stack.old)) }
    ensures rest { IfOk result (λ _. stack.new ≡ drop (tangle.depth + 1) stack.old) }
{
    let above = stack.lift(alloc, tangle.block)?;
    match stack.pop() {
        Some(block) => {
            let between = stack.lift(alloc, tangle.depth - tangle.block - 1)?;
            stack.drop_top(1);
            Ok(Over {
                above,
                block,
                between,
            })
        }
        None => unreachable!(),
    }
}

/// Puts the entry in the place of the one that goes, or after the bookmark's.
fn settle(
    alloc: Global,
    list: &mut Stack<FormattingEntry>,
    bookmark: Option<u64>,
    gone: u64,
    entry: FormattingEntry,
) -> Result<(), NoMemory>
    ensures { IfOk result (λ _. list.new ≡ settled bookmark gone entry list.old) }
{
    match bookmark {
        None => {
            supplant(list, gone, entry);
            Ok(())
        }
        Some(mark) => {
            strike(list, gone);
            follow(alloc, list, mark, entry)
        }
    }
}

/// The last edits of a turn: the last node goes into its place, the block's children into the new element, and that into the block.
fn close(
    alloc: Global,
    edits: &mut Edits<'_>,
    last: Ref,
    place: Place,
    block: Ref,
    made: Ref,
    tag: &Tag,
) -> Result<(), NoMemory>
    ensures { IfOk result (λ _. edits.new ≡ edits.old ++ closing last place block made tag.now) }
{
    let child = Child::Element(last);
    edits.push(alloc, Edit::Put { child, place })?;
    let tag = tag.copy(alloc)?;
    edits.push(alloc, Edit::NewElement { tag })?;
    edits.push(
        alloc,
        Edit::MoveChildren {
            from: block,
            to: made,
        },
    )?;
    edits.push(
        alloc,
        Edit::Put {
            child: Child::Element(made),
            place: Place::Into(block),
        },
    )
}

/// Puts the new element of the tag on what was kept of the block and the nodes, and what stood above the block on that.
fn restack(
    alloc: Global,
    stack: &mut OpenElements,
    kept: List<OpenElement>,
    id: u64,
    tag: &Tag,
    above: List<OpenElement>,
) -> Result<(), NoMemory>
    ensures { IfOk result (λ _. stack.new ≡ (above ++ spec_element_for id tag.now ∷ kept) ++ stack.old) }
{
    stack.pile(alloc, kept)?;
    stack.push(alloc, element_for(alloc, id, tag)?)?;
    stack.pile(alloc, above)
}

/// What a turn with a furthest block knows of the formatting element and of where it stood.
#[derive(Drop)]
struct Formatted {
    id: u64,
    tag: Tag,
    /// Where the last node goes.
    place: Place,
    is_page: bool,
}

/// The climb past `between`, which stands between the block and the formatting element, and then the last steps of a turn: the
/// stack without its part above the formatting element gets that part anew, of which `above` is what stood above the block. The last
/// edits follow the climb's own.
fn put_together(
    alloc: Global,
    change: &mut Change,
    climb: &mut Climb<'_>,
    element: Formatted,
    block: u64,
    between: &[OpenElement],
    above: List<OpenElement>,
) -> Result<(), NoMemory>
    ensures change { IfOk result (λ _. change.new ≡ with_parts (closed_parts (ref_of element.is_page) element.place element.id element.tag above block (pass_all (ref_of element.is_page) block 0 between.now climb.old)) change.old) }
    ensures edits { IfOk result (λ _. climb.new.edits ≡ (closed_parts (ref_of element.is_page) element.place element.id element.tag above block (pass_all (ref_of element.is_page) block 0 between.now climb.old)).edits) }
{
    climb.pass_all(alloc, element.is_page, block, between)?;
    let id = climb.next;
    let kept = mem::replace(&mut climb.kept, List::new());
    restack(alloc, &mut change.stack, kept, id, &element.tag, above)?;
    let last = own_ref(element.is_page, climb.last);
    let block = own_ref(element.is_page, block);
    let made = own_ref(element.is_page, id);
    close(
        alloc,
        &mut climb.edits,
        last,
        element.place,
        block,
        made,
        &element.tag,
    )?;
    let tag = element.tag;
    let entry = FormattingEntry::Element { id, tag };
    settle(
        alloc,
        &mut climb.formatting,
        climb.bookmark,
        element.id,
        entry,
    )?;
    mem::swap(&mut change.formatting, &mut climb.formatting);
    let Some(next) = id.checked_add(1) else {
        return Err(NoMemory);
    };
    change.made = next;
    Ok(())
}

/// The same from the parts of the stack.
fn rebuild<'p>(
    alloc: Global,
    change: &mut Change,
    edits: &mut Edits<'p>,
    element: Formatted,
    over: Over,
) -> Result<(), NoMemory>
    ensures change { IfOk result (λ _. change.new ≡ with_parts (adopted_parts (ref_of element.is_page) element.place element.id element.tag over.above over.block over.between change.old.formatting change.old.made) change.old) }
    ensures edits { IfOk result (λ _. edits.new ≡ edits.old ++ (adopted_parts (ref_of element.is_page) element.place element.id element.tag over.above over.block over.between change.old.formatting change.old.made).edits) }
{
    let Over {
        above,
        block,
        between,
    } = over;
    let id = block.id;
    let list = mem::replace(&mut change.formatting, Stack::new());
    let before = mem::replace(edits, Edits::new());
    let mut climb = Climb::at_block(block, list, change.made, before);
    let between = between.as_slice();
    let done = put_together(alloc, change, &mut climb, element, id, between, above);
    mem::swap(edits, &mut climb.edits);
    done
}

/// A turn with a furthest block.
pub fn untangle<'p, B: Below>(
    alloc: Global,
    view: &mut View<'p, B>,
    fostering: bool,
    tangle: Tangle,
    tag: Tag,
) -> Result<(), Refusal>
    requires block { tangle.block < tangle.depth }
    requires inside { tangle.depth < length view.old.change.stack }
    ensures { Carries result (sight B.heard view.old) (sight B.heard view.new) (untangle_at fostering tangle.id tag tangle.depth tangle.block) }
{
    let over = take_apart(alloc, &mut view.change.stack, tangle)?;
    let place = view.place(alloc, fostering)?;
    let element = Formatted {
        id: tangle.id,
        tag,
        place,
        is_page: view.page.is_some(),
    };
    rebuild(alloc, &mut view.change, &mut view.edits, element, over)?;
    Ok(())
}
