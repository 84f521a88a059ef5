//! The cutters: by size and at tags.

ghost use Rattle.std.specs.Prelude.{◌≡◌, ◌<◌, ◌≤◌, IfOk, OnOk, length};
ghost use Rattle.hp_text.specs.Page.{text_of};
ghost use Rattle.hp_cut.specs.Places.{IsOf};
ghost use Rattle.hp_cut.specs.Targets.{places_of, cuts_after, targets};
ghost use Rattle.hp_cut.specs.declared.choice.Cutter.TheVariants.{BySize, AtTags};

use crate::choice::{Cutter, cut_for};
use crate::cutting::Cuts;
use hp_text::{NoMemory, Page};
use std::alloc::Global;

/// Cuts a page into chunks of about one step each. The step is `size` bytes, or the text's length over 4,096 where that is more.
/// It fails only for want of memory.
pub fn cuts_by_size(alloc: Global, page: Page<'_>, size: u32) -> Result<Cuts, NoMemory>
    requires at_least { 64 ≤ size }
    requires at_most { size ≤ 16777216 }
    ensures places { IfOk result (λ cuts. cuts.places ≡ places_of BySize (text_of page.entry) size) }
    ensures of_page { IfOk result (λ cuts. IsOf (text_of page.entry) cuts) }
{
    cuts_by(alloc, page, size, Cutter::BySize)
}

/// Cuts a page into chunks of about one step each, at tags where there are some. The step is `size` bytes, or the text's length
/// over 4,096 where that is more. It fails only for want of memory.
pub fn cuts_at_tags(alloc: Global, page: Page<'_>, size: u32) -> Result<Cuts, NoMemory>
    requires at_least { 64 ≤ size }
    requires at_most { size ≤ 16777216 }
    ensures places { IfOk result (λ cuts. cuts.places ≡ places_of AtTags (text_of page.entry) size) }
    ensures of_page { IfOk result (λ cuts. IsOf (text_of page.entry) cuts) }
{
    cuts_by(alloc, page, size, Cutter::AtTags)
}

/// The cuts of a cutter.
fn cuts_by(alloc: Global, page: Page<'_>, size: u32, cutter: Cutter) -> Result<Cuts, NoMemory>
    requires at_least { 64 ≤ size }
    requires at_most { size ≤ 16777216 }
    ensures places { IfOk result (λ cuts. cuts.places ≡ places_of cutter (text_of page.entry) size) }
    ensures of_page { IfOk result (λ cuts. IsOf (text_of page.entry) cuts) }
{
    let text = page.text();
    let step = (size as usize).max(text.len().div_ceil(4096));
    let places = places_by(alloc, text, step, cutter)?;
    Ok(Cuts::from_lawful(places, text.len() as u64))
}

/// The places of a cutter at this step.
fn places_by(alloc: Global, text: &[u8], step: usize, cutter: Cutter) -> Result<Vec<u64>, NoMemory>
    requires { 0 < step }
    ensures { IfOk result (λ places. places.items ≡ cuts_after cutter text.now 0 (targets step (length text.now))) }
{
    let count = text.len().saturating_sub(1) / step;
    let mut places = Vec::with_capacity(alloc, count)?;
    let mut last = 0;
    for number in 0..count {
        if let Some(place) = cut_for(cutter, text, last, (number + 1) * step) {
            places.push(place as u64)?;
            last = place;
        }
    }
    Ok(places)
}
