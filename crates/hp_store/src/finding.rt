//! In which part something stands. The newest parts and those near a given one are looked at first, then all are halved.

ghost use Rattle.std.specs.Prelude.{◌≡◌, ◌+◌, ◌<◌, ◌≤◌, ◌^◌, ◌++◌, [], ◌∷◌, true, length};
ghost use Rattle.hp_store.specs.Numbers.{no_counts, Fits};
ghost use Rattle.hp_store.specs.Parts.{end_of, AreLaid, HasNode, HasElement, HasLeaf};
ghost use Rattle.hp_store.specs.Whole.{part_of};

use crate::part::Part;

/// The part of this number: the one that grows stands behind the finished ones.
#[inline(always)]
pub fn part_at<'a, 'p>(parts: &'a [Part<'p>], last: &'a Part<'p>, number: u32) -> &'a Part<'p>
    ensures { result.now ≡ part_of parts.now last.now number }
{
    let Some(part) = parts.get(number as usize) else {
        return last;
    };
    part
}

/// Whether the node at this place stands in the finished part of this number, if there is one.
#[inline(always)]
fn has_node(parts: &[Part<'_>], last: &Part<'_>, number: u32, at: u32) -> bool
    requires laid { AreLaid no_counts (parts.now ++ last.now ∷ []) }
    requires fits { Fits (end_of last.now) }
    ensures here { result ≡ true → HasNode (part_of parts.now last.now number) at }
    ensures finished { result ≡ true → number < length parts.now }
{
    let _ = last;
    let Some(part) = parts.get(number as usize) else {
        return false;
    };
    part.node(at).is_some()
}

/// The number of the part in which the node at this place stands. It is looked for in the part of the given number and those beside it first.
#[inline(never)]
pub fn node_part(parts: &[Part<'_>], last: &Part<'_>, at: u32, near: u32) -> u32
    requires laid { AreLaid no_counts (parts.now ++ last.now ∷ []) }
    requires fits { Fits (end_of last.now) }
    requires few { length parts.now < 2 ^ 32 }
    requires at_in { at < (end_of last.now).nodes }
    ensures here { HasNode (part_of parts.now last.now result) at }
    ensures finished { at < last.now.before.nodes → result < length parts.now }
{
    if last.before.nodes <= at {
        return parts.len() as u32;
    }
    let newest = (parts.len() as u32).wrapping_sub(1);
    if has_node(parts, last, newest, at) {
        return newest;
    }
    if has_node(parts, last, near, at) {
        return near;
    }
    let behind = near.wrapping_add(1);
    if has_node(parts, last, behind, at) {
        return behind;
    }
    let ahead = near.wrapping_sub(1);
    if has_node(parts, last, ahead, at) {
        return ahead;
    }
    parts.partition_point(|part| part.before.nodes <= at) as u32 - 1
}

/// Whether the element of this id stands in the finished part of this number, if there is one.
#[inline(always)]
fn has_element(parts: &[Part<'_>], last: &Part<'_>, number: u32, id: u32) -> bool
    requires laid { AreLaid no_counts (parts.now ++ last.now ∷ []) }
    requires fits { Fits (end_of last.now) }
    ensures here { result ≡ true → HasElement (part_of parts.now last.now number) id }
    ensures finished { result ≡ true → number < length parts.now }
{
    let _ = last;
    let Some(part) = parts.get(number as usize) else {
        return false;
    };
    part.node_of(id).is_some()
}

/// The number of the part in which the element of this id stands. It isn't the document. It is looked for in the part of the given number
/// first.
#[inline(never)]
pub fn element_part(parts: &[Part<'_>], last: &Part<'_>, id: u32, near: u32) -> u32
    requires laid { AreLaid no_counts (parts.now ++ last.now ∷ []) }
    requires fits { Fits (end_of last.now) }
    requires few { length parts.now < 2 ^ 32 }
    requires some { 0 < id }
    requires id_in { id ≤ (end_of last.now).elements }
    ensures here { HasElement (part_of parts.now last.now result) id }
    ensures finished { id ≤ last.now.before.elements → result < length parts.now }
{
    if last.before.elements < id {
        return parts.len() as u32;
    }
    let newest = (parts.len() as u32).wrapping_sub(1);
    if has_element(parts, last, newest, id) {
        return newest;
    }
    if has_element(parts, last, near, id) {
        return near;
    }
    parts.partition_point(|part| part.before.elements < id) as u32 - 1
}

/// The number of the part in which the leaf of this number stands.
#[inline(never)]
pub fn leaf_part(parts: &[Part<'_>], last: &Part<'_>, number: u32) -> u32
    requires laid { AreLaid no_counts (parts.now ++ last.now ∷ []) }
    requires few { length parts.now < 2 ^ 32 }
    requires number_in { number < (end_of last.now).leaves }
    ensures here { HasLeaf (part_of parts.now last.now result) number }
    ensures finished { number < last.now.before.leaves → result < length parts.now }
{
    if last.before.leaves <= number {
        return parts.len() as u32;
    }
    parts.partition_point(|part| part.before.leaves <= number) as u32 - 1
}
