//! A whole page, chunk by chunk and in order.
ghost use Rattle.std.specs.Prelude.{◌≡◌, ◌+◌, ◌<◌, ◌≤◌, ◌^◌, IfOk, OnOk, length, slice_index, slice_range};
ghost use Rattle.std.specs.Str.{chars};
ghost use Rattle.hp_names.specs.BuiltIn.{built_in};
ghost use Rattle.hp_runs.specs.Pages.{IsTreeOf};
ghost use Rattle.hp_text.specs.Page.{text_of as page_text};
ghost use Rattle.hp_cut.specs.Places.{IsOf, ends};
ghost use Rattle.hp_pieces.specs.Texts.{text_of};
ghost use Rattle.hp_workers.specs.Joining.{StandsAt};

use crate::NoMemory;
use crate::joining::join_chunk;
use crate::leaving::leave_front;
use hp_arena::Tree;
use hp_control::Control;
use hp_cut::Cuts;
use hp_fragment::{ending, replay, speculate_by};
use hp_merge::Front;
use hp_pieces::{Fragment, pages_at};
use hp_predict::GuessKind;
use hp_text::{Chunk, Page};
use std::alloc::Global;

/// The tree of the page: the one that the standard's sequential parser builds (13.2, scripting disabled), with the 365 reference
/// names of hp_names. Each chunk but the first is guessed by a predictor of this kind, and joined to what stands before it.
/// `Err` is want of memory, which a tree of more than 2^29 nodes finds too.
pub fn parse_in_order<'p>(
    alloc: Global,
    page: Page<'p>,
    cuts: &Cuts,
    kind: GuessKind,
) -> Result<Tree<'p>, NoMemory>
    requires limit { length (page_text page) ≤ 2 ^ 24 }
    requires cuts_of_page { IsOf (page_text page) cuts.now }
    ensures tree { IfOk result (λ tree. IsTreeOf built_in (chars (page_text page.entry)) tree.branches) }
{
    pages_at();
    let mut front = Front::start(alloc)?;
    match join_all(alloc, &mut front, page, cuts, kind) {
        Ok(()) => end_page(alloc, front, page),
        Err(fault) => {
            leave_front(front);
            Err(fault)
        }
    }
}

/// Joins all chunks of a page to the front before it.
fn join_all<'p>(
    alloc: Global,
    front: &mut Front<'p>,
    page: Page<'p>,
    cuts: &Cuts,
    kind: GuessKind,
) -> Result<(), NoMemory>
    requires limit { length (page_text page) ≤ 2 ^ 24 }
    requires cuts_of_page { IsOf (page_text page) cuts.now }
    requires at { StandsAt (page_text page) 0 front.old }
    ensures { OnOk result (StandsAt (page_text page.entry) (length (page_text page.entry)) front.new) }
{
    for number in 0..cuts.chunks() {
        let chunk = cuts.chunk(page, number);
        join_next(alloc, front, chunk, kind)?;
    }
    Ok(())
}

/// Joins the next chunk.
fn join_next<'p>(
    alloc: Global,
    front: &mut Front<'p>,
    chunk: Chunk<'p>,
    kind: GuessKind,
) -> Result<(), NoMemory>
    requires limit { length (page_text chunk.page) ≤ 2 ^ 24 }
    requires at { StandsAt (page_text chunk.page) chunk.from front.old }
    ensures { OnOk result (StandsAt (page_text chunk.entry.page) chunk.entry.to front.new) }
{
    let fragment = first_try(alloc, chunk, kind)?;
    join_chunk(alloc, front, chunk, fragment)?;
    Ok(())
}

/// A fragment of a chunk: the first one begins where the page does, and the others are guessed.
pub(crate) fn first_try<'p>(
    alloc: Global,
    chunk: Chunk<'p>,
    kind: GuessKind,
) -> Result<Fragment<'p>, NoMemory>
    ensures { IfOk result (λ fragment. text_of fragment ≡ slice_range (page_text chunk.entry.page) chunk.entry.from chunk.entry.to) }
{
    if chunk.number == 0 {
        replay(alloc, chunk, Control::start())
    } else {
        speculate_by(alloc, chunk, kind)
    }
}

/// The tree of a page, of which the front stands behind the whole text.
pub(crate) fn end_page<'p>(
    alloc: Global,
    front: Front<'p>,
    page: Page<'p>,
) -> Result<Tree<'p>, NoMemory>
    requires { StandsAt (page_text page) (length (page_text page)) front }
    ensures { IfOk result (λ tree. IsTreeOf built_in (chars (page_text page.entry)) tree.branches) }
{
    pages_at();
    match ending(alloc, front.control()) {
        Ok(end) => {
            let _edits = end.edits();
            front.end(alloc, end)
        }
        Err(fault) => {
            leave_front(front);
            Err(fault)
        }
    }
}
