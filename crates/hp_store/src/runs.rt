//! The runs of a text, and the cells that they are made of.

ghost use Rattle.std.specs.Prelude.{◌≡◌, ◌+◌, ◌<◌, ◌≤◌, length, ◌++◌, [], ◌∷◌, ◌^◌, true, OnOk, IfOk, All, IfNone, IfSome, slice_set, vec_len};
ghost use Rattle.std.specs.List.{concat};
ghost use Rattle.hp_store.specs.Lists.{leaf_at};
ghost use Rattle.hp_store.specs.Leaves.{run_count, is_text_of, IsCell, IsTextLonger};

use crate::part::Leaf;
use hp_elements::{Chain, Text};
use std::alloc::{AllocError, Global};
use std::mem;

/// A list of this one text, in a cell that was made before.
#[inline(always)]
fn take_cell<'p>(cells: &mut Vec<Chain<Text<'p>>>, text: Text<'p>) -> Chain<Text<'p>>
    requires some { 0 < vec_len cells.old }
    requires cell { All IsCell cells.old.items }
    ensures result { result ≡ text.entry ∷ [] }
    ensures len { vec_len cells.new + 1 ≡ vec_len cells.old }
    ensures cell { All IsCell cells.new.items }
{
    match cells.pop() {
        Some(mut pair) => {
            let mut cell = pair.take_first();
            cell.set_first(text);
            cell
        }
        None => unreachable!(),
    }
}

/// Two cells for runs.
fn make_pair<'p>(alloc: Global) -> Result<Chain<Text<'p>>, AllocError>
    ensures { IfOk result IsCell }
{
    let mut pair = Chain::new();
    pair.push(alloc, Text::new())?;
    pair.push(alloc, Text::new())?;
    Ok(pair)
}

/// Makes pairs of cells until there are so many.
pub fn add_cells<'p>(
    alloc: Global,
    cells: &mut Vec<Chain<Text<'p>>>,
    count: usize,
) -> Result<(), AllocError>
    requires { All IsCell cells.old.items }
    ensures cell { All IsCell cells.new.items }
    ensures more { vec_len cells.old ≤ vec_len cells.new }
    ensures enough { OnOk result (count ≤ vec_len cells.new) }
{
    let missing = count.saturating_sub(cells.len());
    for _ in 0..missing {
        let pair = make_pair(alloc)?;
        cells.push(pair)?;
    }
    Ok(())
}

/// Makes a text a part of the last run, where it stands right behind that in the page, and else gives it back.
fn join_last<'p>(runs: &mut Chain<Text<'p>>, text: Text<'p>) -> Option<Text<'p>>
    requires { 0 < length runs.old }
    ensures joined { IfNone result (concat runs.new ≡ concat runs.old ++ text.entry) }
    ensures kept { IfSome result (λ back. (back ≡ text.entry) × (runs.new ≡ runs.old)) }
    ensures count { length runs.new ≡ length runs.old }
{
    let mut last = runs.replace_last(Text::new());
    let left = last.join(text);
    let _ = runs.replace_last(last);
    left
}

/// Appends a text to runs. It becomes a part of the last one where it stands right behind that in the page.
#[inline(never)]
fn extend<'p>(runs: &mut Chain<Text<'p>>, cells: &mut Vec<Chain<Text<'p>>>, text: Text<'p>)
    requires some { 0 < vec_len cells.old }
    requires cell { All IsCell cells.old.items }
    requires room { length runs.old + 1 < 2 ^ 63 }
    ensures text { concat runs.new ≡ concat runs.old ++ text.entry }
    ensures runs { length runs.new ≤ length runs.old + 1 }
    ensures len { vec_len cells.old ≤ vec_len cells.new + 1 }
    ensures cell { All IsCell cells.new.items }
{
    if runs.is_empty() {
        runs.append(take_cell(cells, text));
    } else if let Some(text) = join_last(runs, text) {
        runs.append(take_cell(cells, text));
    }
}

/// Appends a text to a run. Where it doesn't become a part of it, the runs come that stand in its place, in cells that were made
/// before.
#[inline(never)]
fn extend_run<'p>(
    first: &mut Text<'p>,
    cells: &mut Vec<Chain<Text<'p>>>,
    text: Text<'p>,
) -> Option<Chain<Text<'p>>>
    requires some { 0 < vec_len cells.old }
    requires cell { All IsCell cells.old.items }
    ensures first { IfNone result (first.new ≡ first.old ++ text.entry) }
    ensures runs { IfSome result (λ runs. runs ≡ first.old ∷ text.entry ∷ []) }
    ensures len { vec_len cells.old ≤ vec_len cells.new + 1 }
    ensures cell { All IsCell cells.new.items }
{
    let Some(text) = first.join(text) else {
        return None;
    };
    match cells.pop() {
        Some(mut pair) => {
            pair.set_first(mem::replace(first, Text::new()));
            let _ = pair.replace_last(text);
            Some(pair)
        }
        None => unreachable!(),
    }
}

/// Appends a text to one of these leaves, which is a text.
pub fn append_text<'p>(
    leaves: &mut [Leaf<'p>],
    place: usize,
    cells: &mut Vec<Chain<Text<'p>>>,
    text: Text<'p>,
)
    requires place_in { place < length leaves.old }
    requires is_text { is_text_of (leaf_at leaves.old place) ≡ true }
    requires room { run_count (leaf_at leaves.old place) + 1 < 2 ^ 63 }
    requires some { 0 < vec_len cells.old }
    requires cell { All IsCell cells.old.items }
    ensures leaf { IsTextLonger (leaf_at leaves.old place) (leaf_at leaves.new place) text.entry }
    ensures others { leaves.new ≡ slice_set leaves.old place (leaf_at leaves.new place) }
    ensures len { vec_len cells.old ≤ vec_len cells.new + 1 }
    ensures cell { All IsCell cells.new.items }
{
    match &mut leaves[place] {
        Leaf::Run(first) => {
            if let Some(runs) = extend_run(first, cells, text) {
                leaves[place] = Leaf::Text(runs);
            }
        }
        Leaf::Text(runs) => extend(runs, cells, text),
        Leaf::Comment(_) | Leaf::Doctype(_) => {}
    }
}
