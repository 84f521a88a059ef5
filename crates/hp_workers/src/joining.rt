//! A chunk joined to what stands before it.
ghost use Rattle.std.specs.Prelude.{◌≡◌, ◌+◌, ◌≤◌, ◌^◌, ◌↔◌, IsTrue, IfOk, OnOk, OnErr, length, slice_range};
ghost use Rattle.std.specs.Str.{IsCharBoundary};
ghost use Rattle.hp_text.specs.Page.{text_of as page_text};
ghost use Rattle.hp_pieces.specs.Texts.{covered_of, text_of};
ghost use Rattle.hp_merge.specs.Checked.{MayJoin};

use crate::NoMemory;
use crate::leaving::{leave_fragment, leave_refusal, leave_spent};
use crate::uncounted::{check_by, join_by};
use hp_fragment::replay;
use hp_merge::{Checked, Front, fronts_go_on, is_sound};
use hp_pieces::{Fragment, pages_at};
use hp_text::Chunk;
use std::alloc::Global;
use std::marker::Brand;
use std::sync::ledger::Blank;

/// What became of a chunk's fragment.
#[derive(Clone, Copy, Debug, PartialEq, Eq)]
pub enum Joined {
    /// It covers the chunk.
    Kept,
    /// What comes behind what it covers was replayed, from this place on, in bytes from the chunk's start.
    Repaired { at: u64 },
    /// It isn't of the state before the chunk, and the whole chunk was replayed.
    RolledBack,
}

ghost use Rattle.hp_workers.specs.Joining.{BecomesOf, StandsAt, StandsWithin};

/// Joins a chunk to the front of its page. The fragment is joined where what it assumes is true of the front; what it doesn't cover,
/// or all where it may not be joined, is replayed. `Err` is want of memory, which may leave the front within the chunk.
pub fn join_chunk<'p>(
    alloc: Global,
    front: &mut Front<'p>,
    chunk: Chunk<'p>,
    fragment: Fragment<'p>,
) -> Result<Joined, NoMemory>
    requires limit { length (page_text chunk.page) ≤ 2 ^ 24 }
    requires at { StandsAt (page_text chunk.page) chunk.from front.old }
    requires text { text_of fragment ≡ slice_range (page_text chunk.page) chunk.from chunk.to }
    ensures at { OnOk result (StandsAt (page_text chunk.entry.page) chunk.entry.to front.new) }
    ensures joined { IfOk result (BecomesOf front.old.control fragment.entry) }
    ensures err { OnErr result (StandsWithin (page_text chunk.entry.page) chunk.entry.from chunk.entry.to front.new) }
{
    if may_join(front, &fragment) {
        return join_covered(alloc, front, chunk, fragment);
    }
    leave_fragment(fragment);
    replay_rest(alloc, front, chunk)?;
    Ok(Joined::RolledBack)
}

/// Whether the fragment may be joined to the front.
fn may_join(front: &Front<'_>, fragment: &Fragment<'_>) -> bool
    ensures { IsTrue result ↔ MayJoin front.now.control fragment.now }
{
    match check_by::<Brand>(front, fragment, Blank::new(1)) {
        Checked::Holds => true,
        Checked::Fails { .. } | Checked::OtherEntry => false,
    }
}

/// Joins a fragment that may be joined, and replays what it doesn't cover.
fn join_covered<'p>(
    alloc: Global,
    front: &mut Front<'p>,
    chunk: Chunk<'p>,
    fragment: Fragment<'p>,
) -> Result<Joined, NoMemory>
    requires limit { length (page_text chunk.page) ≤ 2 ^ 24 }
    requires at { StandsAt (page_text chunk.page) chunk.from front.old }
    requires text { text_of fragment ≡ slice_range (page_text chunk.page) chunk.from chunk.to }
    requires holds { MayJoin front.old.control fragment }
    ensures at { OnOk result (StandsAt (page_text chunk.entry.page) chunk.entry.to front.new) }
    ensures joined { IfOk result (BecomesOf front.old.control fragment.entry) }
    ensures err { OnErr result (StandsWithin (page_text chunk.entry.page) chunk.entry.from chunk.entry.to front.new) }
{
    let from = place_behind(&chunk, &fragment);
    commit(alloc, front, &chunk, fragment)?;
    if from == chunk.to {
        return Ok(Joined::Kept);
    }
    let at = from - chunk.from;
    let rest = Chunk {
        page: chunk.page,
        number: chunk.number,
        from,
        to: chunk.to,
    };
    replay_rest(alloc, front, rest)?;
    Ok(Joined::Repaired { at })
}

/// Where the fragment of a chunk ends, in bytes from the page's start.
fn place_behind(chunk: &Chunk<'_>, fragment: &Fragment<'_>) -> u64
    requires text { text_of fragment.now ≡ slice_range (page_text chunk.now.page) chunk.now.from chunk.now.to }
    ensures place { result ≡ chunk.now.from + covered_of fragment.now }
    ensures within { result ≤ chunk.now.to }
    ensures at_code_point { IsCharBoundary (page_text chunk.now.page) result }
{
    fronts_go_on();
    is_sound(fragment);
    let _text = chunk.text();
    let _page = chunk.page.text();
    chunk.from + fragment.covered()
}

/// Replays a chunk, or what is left of one, behind the front, and joins it.
pub(crate) fn replay_rest<'p>(
    alloc: Global,
    front: &mut Front<'p>,
    rest: Chunk<'p>,
) -> Result<(), NoMemory>
    requires limit { length (page_text rest.page) ≤ 2 ^ 24 }
    requires at { StandsAt (page_text rest.page) rest.from front.old }
    ensures at { OnOk result (StandsAt (page_text rest.entry.page) rest.entry.to front.new) }
    ensures err { OnErr result (front.new ≡ front.old) }
{
    let _text = rest.text();
    let state = front.control().copy(alloc)?;
    let exact = replay(alloc, rest, state)?;
    commit(alloc, front, &rest, exact)
}

/// Joins a fragment of the chunk that may be joined.
fn commit<'p>(
    alloc: Global,
    front: &mut Front<'p>,
    chunk: &Chunk<'p>,
    fragment: Fragment<'p>,
) -> Result<(), NoMemory>
    requires limit { length (page_text chunk.now.page) ≤ 2 ^ 24 }
    requires at { StandsAt (page_text chunk.now.page) chunk.now.from front.old }
    requires text { text_of fragment ≡ slice_range (page_text chunk.now.page) chunk.now.from chunk.now.to }
    requires holds { MayJoin front.old.control fragment }
    ensures at { OnOk result (StandsAt (page_text chunk.now.page) (chunk.now.from + covered_of fragment.entry) front.new) }
    ensures err { OnErr result (front.new ≡ front.old) }
{
    pages_at();
    fronts_go_on();
    is_sound(&fragment);
    let _page = chunk.page.text();
    match join_by::<Brand>(front, alloc, fragment, Blank::new(1)) {
        Ok(()) => {
            leave_spent(front.take_spent(alloc));
            Ok(())
        }
        Err(refusal) => {
            leave_refusal(refusal);
            Err(NoMemory)
        }
    }
}
