//! A judgement for which nobody counts.
ghost use Rattle.std.specs.Prelude.{◌≡◌};

use hp_board::{Advance, Board, Tally};
use hp_steps::Steps;
use std::alloc::Global;
use std::marker::Brand;
use std::process::Abort;
use std::sync::ledger::{Blank, Ledger};

/// Judges the front chunk.
pub fn advanced<R: Abort>(
    rt: &R,
    alloc: Global,
    board: &mut Board<'_>,
    tally: &mut Tally,
) -> Advance {
    advanced_by::<R, Brand>(rt, alloc, board, tally, Blank::new(1))
}

/// The same by a counter of that ledger.
fn advanced_by<R: Abort, L: Ledger>(
    rt: &R,
    alloc: Global,
    board: &mut Board<'_>,
    tally: &mut Tally,
    blank: Blank,
) -> Advance
    requires name { blank.name ≡ L.name }
    requires parts { blank.parts ≡ L.parts }
    requires one { blank.parts ≡ 1 }
{
    let mut steps = Steps::<L>::start(blank);
    board
        .advance(alloc, tally, &mut steps)
        .expect(rt, "there is memory")
}
