//! Searches by whole vectors for what ends a run: U+0000, CR, and two more bytes.
ghost use Rattle.std.specs.Prelude.{◌≡◌, ◌≤◌, ◌<◌, ℕ, true, ◌∷◌, [], length, map, slice_index};
ghost use Rattle.std.specs.Simd.Lanes.{mask_l};
ghost use Rattle.hp_tokens.specs.Plain.{none_of};
ghost use Rattle.hp_tokens.specs.Reading.{PassesFrom};
ghost use Rattle.hp_tokens.specs.Blocks.{is_stop, EndsRun};

use std::simd::prelude::*;

/// How many bytes are looked at together.
const LANES: usize = 16;

/// How many bytes from `at` on stand before the next U+0000, CR or one of two more.
#[inline(always)]
pub(crate) fn four_stops_len(bytes: &[u8], at: usize, a: u8, b: u8) -> usize
    requires { at ≤ length bytes.now }
    ensures { PassesFrom (none_of (0 ∷ 13 ∷ a ∷ b ∷ [])) bytes.now at result }
{
    let rest = &bytes[at..];
    let mut count = 0;
    while rest.len() - count >= LANES {
        let found = stops(u8x16::from_slice(&rest[count..]), a, b);
        if found != 0 {
            return count + found.trailing_zeros() as usize;
        }
        count += LANES;
    }
    last_stop(rest, count, a, b)
}

/// Which of the bytes are among these.
#[inline(always)]
fn stops(v: u8x16, a: u8, b: u8) -> u64
    ensures { result ≡ mask_l (map (is_stop a b) v) }
{
    (v.simd_eq(u8x16::splat(0))
        | v.simd_eq(u8x16::splat(13))
        | v.simd_eq(u8x16::splat(a))
        | v.simd_eq(u8x16::splat(b))).to_bitmask()
}

/// The place of the first of these from a place on before which there is none, byte by byte.
#[inline(never)]
fn last_stop(bytes: &[u8], from: usize, a: u8, b: u8) -> usize
    requires within { from ≤ length bytes.now }
    requires before { (k : ℕ) → k < from → none_of (0 ∷ 13 ∷ a ∷ b ∷ []) (slice_index bytes.now k) ≡ true }
    ensures { EndsRun (none_of (0 ∷ 13 ∷ a ∷ b ∷ [])) bytes.now result }
{
    let mut at = from;
    while at < bytes.len() {
        let byte = bytes[at];
        if byte == 0 || byte == 13 || byte == a || byte == b {
            return at;
        }
        at += 1;
    }
    at
}
