//! The parts of one store come behind those of another.

ghost use Rattle.std.specs.Prelude.{◌≡◌, ◌+◌, ◌<◌, ◌≤◌, ◌^◌, ◌++◌, [], ◌∷◌, ℕ, length, map, OnOk, OnErr, slice_index_or, vec_len, vec_capacity};
ghost use Rattle.hp_store.specs.Numbers.{no_counts, sum_of, Fits};
ghost use Rattle.hp_store.specs.Parts.{end_of, moved_part, AreLaid};
ghost use Rattle.hp_store.specs.Whole.{part_of, IsFilled, IsFinished, IsRetired};
ghost use Rattle.hp_store.specs.declared.part.Part.{Part};

use crate::node::{Counts, Kind};
use crate::part::Part;
use std::alloc::{AllocError, Global};

/// There are at most so many parts.
const MOST: usize = 0xFFFF_FFFF;

/// Makes room for so many more parts, and leaves nothing in the part that grows but its room.
pub fn finish<'p>(
    alloc: Global,
    parts: &mut Vec<Part<'p>>,
    last: &mut Part<'p>,
    more: usize,
) -> Result<(), AllocError>
    requires laid { AreLaid no_counts (parts.old.items ++ last.old ∷ []) }
    requires fits { Fits (end_of last.old) }
    requires filled { IsFilled last.old }
    requires some { 0 < more }
    requires more_few { more < 2 ^ 33 }
    ensures finished { OnOk result (IsFinished parts.old.items last.old parts.new.items last.new) }
    ensures capacity { OnOk result (vec_len parts.new + more ≤ vec_capacity parts.new + 1) }
    ensures numbers { OnOk result (vec_len parts.old + more < 2 ^ 32) }
    ensures parts { OnErr result (parts.new.items ≡ parts.old.items) }
    ensures last { OnErr result (last.new ≡ last.old) }
{
    if parts.len() + more > MOST {
        return Err(AllocError);
    }
    parts.reserve(more)?;
    if last.nodes.len() == 0 {
        return Ok(());
    }
    let done = last.take_items(alloc)?;
    parts.push_reserved(done);
    Ok(())
}

/// Makes the document's node an end of no list.
pub fn retire<'p>(parts: &mut [Part<'p>], last: &mut Part<'p>)
    requires laid { AreLaid no_counts (parts.old ++ last.old ∷ []) }
    requires some { 0 < length (part_of parts.old last.old 0).nodes.items }
    ensures { IsRetired parts.old last.old parts.new last.new }
{
    if parts.len() == 0 {
        last.nodes[0].kind = Kind::End(0);
    } else {
        parts[0].nodes[0].kind = Kind::End(0);
    }
}

/// Puts parts behind so much more.
pub fn move_all(parts: &mut [Part<'_>], more: Counts)
    requires { (k : ℕ) (e : Part) → k < length parts.old → Fits (sum_of more (slice_index_or parts.old k e).before) }
    ensures { parts.new ≡ map (moved_part more) parts.old }
{
    for part in parts.iter_mut() {
        part.move_behind(more);
    }
}

/// Appends several parts and one more.
pub fn hang<'p>(parts: &mut Vec<Part<'p>>, mut more: Vec<Part<'p>>, last: Part<'p>)
    requires { vec_len parts.old + vec_len more + 1 ≤ vec_capacity parts.old }
    ensures { parts.new.items ≡ (parts.old.items ++ more.entry.items) ++ last.entry ∷ [] }
{
    let _ = parts.append(&mut more);
    parts.push_reserved(last);
}
