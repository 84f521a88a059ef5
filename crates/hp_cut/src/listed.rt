//! Cuts at listed places.

ghost use Rattle.std.specs.Prelude.{◌≡◌, IfSome, IfNone, IfOk, MatchResult};
ghost use Rattle.hp_text.specs.Page.{text_of};
ghost use Rattle.hp_cut.specs.Places.{IsOf};
ghost use Rattle.hp_cut.specs.Refusals.{falls, first_index, passes_end, refusal, splits};

use crate::cutting::Cuts;
use crate::scans::starts_at;
use hp_text::Page;
use std::alloc::Global;

/// Why places can't cut a page.
#[derive(Clone, Copy, Debug, PartialEq, Eq)]
pub enum CutRefusal {
    /// The place at this index isn't above the one before, or above 0 for the first.
    NotRising { index: u64 },
    /// The place at this index isn't below the length.
    PastEnd { index: u64 },
    /// The place at this index isn't the start of a code point.
    NotABoundary { index: u64 },
    /// There are more than 4,095 places.
    TooMany,
    /// There was no memory for the cuts.
    NoMemory,
}

/// Cuts a page at these places, or says which rule they break. The rules are looked at in the order of `CutRefusal`, each over all
/// places.
pub fn cuts_listed(alloc: Global, page: Page<'_>, places: &[u64]) -> Result<Cuts, CutRefusal>
    ensures refused { IfSome (refusal (text_of page.entry) places.now) (λ cause. result ≡ Err cause) }
    ensures accepted { IfNone (refusal (text_of page.entry) places.now) (MatchResult result (λ cuts. cuts.places ≡ places.now) (λ cause. cause ≡ CutRefusal.NoMemory)) }
    ensures of_page { IfOk result (λ cuts. IsOf (text_of page.entry) cuts) }
{
    let text = page.text();
    if let Some(index) = first_not_rising(places) {
        let index = index as u64;
        return Err(CutRefusal::NotRising { index });
    }
    if let Some(index) = first_past_end(text, places) {
        let index = index as u64;
        return Err(CutRefusal::PastEnd { index });
    }
    if let Some(index) = first_not_a_start(text, places) {
        let index = index as u64;
        return Err(CutRefusal::NotABoundary { index });
    }
    if places.len() > 4095 {
        return Err(CutRefusal::TooMany);
    }
    match Vec::from_slice(alloc, places) {
        Ok(places) => Ok(Cuts::from_lawful(places, text.len() as u64)),
        Err(_) => Err(CutRefusal::NoMemory),
    }
}

/// The first place that isn't above the one before, or above 0.
#[tactic(auto, using(crate::proofs::Firsts::within_steps))]
fn first_not_rising(places: &[u64]) -> Option<usize>
    ensures { result ≡ first_index (falls places.now) places.now }
{
    let mut before = 0;
    for (index, place) in places.iter().enumerate() {
        if *place <= before {
            return Some(index);
        }
        before = *place;
    }
    None
}

/// The first place that isn't below the length.
#[tactic(auto, using(crate::proofs::Firsts::within_steps))]
fn first_past_end(text: &[u8], places: &[u64]) -> Option<usize>
    ensures { result ≡ first_index (passes_end text.now places.now) places.now }
{
    for (index, place) in places.iter().enumerate() {
        if text.len() as u64 <= *place {
            return Some(index);
        }
    }
    None
}

/// The first place at which no code point starts.
#[tactic(auto, using(crate::proofs::Firsts::within_steps))]
fn first_not_a_start(text: &[u8], places: &[u64]) -> Option<usize>
    ensures { result ≡ first_index (splits text.now places.now) places.now }
{
    for (index, place) in places.iter().enumerate() {
        if !starts_at(text, *place as usize) {
            return Some(index);
        }
    }
    None
}
