//! The name of an attribute, whose end is looked for in 16 bytes at once.
ghost use Rattle.std.specs.Prelude.{◌≡◌, ◌≤◌, ◌<◌, ◌+◌, ℕ, true, length, map, slice_index, nat_le, if◌then◌else◌, ◌==◌, refl};
ghost use Rattle.std.specs.Simd.Lanes.{mask_l};
ghost use Rattle.std.specs.Int.{w64, trailing_zeros};
ghost use Rattle.hp_tokens.specs.Reading.{PassesFrom};
ghost use Rattle.hp_tokens.specs.Plain.{none_of, attribute_name_stops};
ghost use Rattle.hp_tokens.specs.PlainLaws.{none-high};

use hp_tokens::{AnyAttributeNameText, LongRun, Run};
use std::simd::prelude::*;

/// How many bytes are looked at together.
const LANES: usize = 16;

/// The name of an attribute, in any case. Most of its bytes are letters, which stand above `>`.
#[derive(Drop)]
pub(crate) struct AttributeNameBytes;

impl Run for AttributeNameBytes {
    ghost passes = { none_of attribute_name_stops };

    #[inline]
    fn passes(byte: u8) -> bool
        ensures { result ≡ none_of attribute_name_stops byte }
    {
        byte > b'>' || (byte != b'=' && AnyAttributeNameText::passes(byte))
    }

    ghost high = { none-high attribute_name_stops refl };

    ghost no_cr = { refl };
}

impl LongRun for AttributeNameBytes {
    #[inline(always)]
    fn run_len(bytes: &[u8], at: usize) -> usize
        requires { at ≤ length bytes.now }
        ensures { PassesFrom (none_of attribute_name_stops) bytes.now at result }
    {
        let letters = letters_len(bytes, at);
        end_from(bytes, at, at + letters)
    }
}

/// Which of the bytes are `>` or stand below it, as all do that end a name.
#[inline(always)]
fn low(v: u8x16) -> u64
    ensures { result ≡ mask_l (map (λ x. nat_le x 62) v) }
{
    v.simd_le(u8x16::splat(b'>')).to_bitmask()
}

/// The place of the first bit that is set, or the number of all.
#[inline(always)]
fn first_set(mask: u64) -> usize
    ensures { result ≡ (if mask == 0 then 16 else trailing_zeros w64 mask) }
{
    if mask == 0 {
        LANES
    } else {
        mask.trailing_zeros() as usize
    }
}

/// How many bytes from a place on stand above `>`, among the next ones, where there are as many as are looked at together.
#[inline(always)]
fn letters_len(bytes: &[u8], at: usize) -> usize
    requires { at ≤ length bytes.now }
    ensures within { at + result ≤ length bytes.now }
    ensures pass { (k : ℕ) → at ≤ k → k < at + result → none_of attribute_name_stops (slice_index bytes.now k) ≡ true }
{
    if bytes.len() - at < LANES {
        return 0;
    }
    first_set(low(u8x16::from_slice(&bytes[at..])))
}

/// How many bytes of a name stand from `at` on, of which those before `from` are known.
#[inline(always)]
fn end_from(bytes: &[u8], at: usize, from: usize) -> usize
    requires order { at ≤ from }
    requires within { from ≤ length bytes.now }
    requires pass { (k : ℕ) → at ≤ k → k < from → none_of attribute_name_stops (slice_index bytes.now k) ≡ true }
    ensures { PassesFrom (none_of attribute_name_stops) bytes.now at result }
{
    let mut end = from;
    while end < bytes.len() {
        if !AttributeNameBytes::passes(bytes[end]) {
            return end - at;
        }
        end += 1;
    }
    end - at
}
