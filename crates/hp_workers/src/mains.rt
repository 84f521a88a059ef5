//! Main's turns: the board is finished by one thread.
ghost use Rattle.std.specs.Prelude.{◌≡◌, ◌<◌, ◌^◌, IfOk, OnOk, false, true, length};
ghost use Rattle.hp_board.specs.Calls.{IsDone};
ghost use Rattle.hp_board.specs.Desk.{statuses};
ghost use Rattle.hp_board.specs.Machine.{at, is_posted};
ghost use Rattle.hp_predict.specs.declared.quiet.GuessKind.{GuessKind as GuessKindOf};
ghost use Rattle.hp_workers.specs.Turns.{HasGoneOn, IsFree, weight};

use crate::NoMemory;
use crate::gate::OpenGate;
use crate::leaving::{leave_advance, leave_spent};
use crate::turns::{is_idle, make};
use crate::uncounted::advance_by;
use hp_board::{Board, Tally};
use hp_predict::GuessKind;
use std::alloc::Global;
use std::marker::Brand;
use std::sync::ledger::Blank;

/// Judges the front chunk. Whether there was nothing to judge.
fn judge(alloc: Global, board: &mut Board<'_>, tally: &mut Tally) -> Result<bool, NoMemory>
    requires free { IsFree board.old }
    requires main { tally.old.worker ≡ 64 }
    requires short { length board.old.journal < 2 ^ 63 }
    ensures on { IfOk result (λ idle. idle ≡ false → (kind : GuessKindOf) → HasGoneOn kind board.old tally.old board.new tally.new) }
    ensures less { IfOk result (λ idle. idle ≡ false → weight board.new < weight board.old) }
    ensures idle { IfOk result (λ idle. idle ≡ true → (board.new ≡ board.old) × (tally.new ≡ tally.old) × (is_posted (at (statuses board.old) board.old.done) ≡ false)) }
{
    let advance = advance_by::<Brand>(board, alloc, tally, Blank::new(1))?;
    let idle = is_idle(&advance);
    leave_advance(advance);
    Ok(idle)
}

/// Claims a chunk, makes its fragment and posts it. There is a chunk to claim.
fn take<'p>(
    alloc: Global,
    board: &mut Board<'p>,
    tally: &mut Tally,
    kind: GuessKind,
) -> Result<(), NoMemory>
    requires free { IsFree board.old }
    requires main { tally.old.worker ≡ 64 }
    requires short { length board.old.journal < 2 ^ 63 }
    requires undone { IsDone board.old → ⊥ }
    requires idle { is_posted (at (statuses board.old) board.old.done) ≡ false }
    ensures on { OnOk result (HasGoneOn kind board.old tally.old board.new tally.new) }
    ensures less { OnOk result (weight board.new < weight board.old) }
{
    board.kept();
    leave_spent(board.take_spent(alloc));
    let Some(claim) = board.claim(alloc, tally)? else {
        unreachable!()
    };
    let chunk = claim.chunk.number;
    let fragment = make(alloc, claim, tally.worker(), kind, &OpenGate)?;
    match board.post(tally, chunk, fragment) {
        Ok(()) => Ok(()),
        Err(_) => unreachable!(),
    }
}

/// One of main's turns: a judgement, or else a claim and its post.
fn main_turn<'p>(
    alloc: Global,
    board: &mut Board<'p>,
    tally: &mut Tally,
    kind: GuessKind,
) -> Result<(), NoMemory>
    requires free { IsFree board.old }
    requires main { tally.old.worker ≡ 64 }
    requires short { length board.old.journal < 2 ^ 63 }
    requires undone { IsDone board.old → ⊥ }
    ensures on { OnOk result (HasGoneOn kind board.old tally.old board.new tally.new) }
    ensures less { OnOk result (weight board.new < weight board.old) }
{
    if judge(alloc, board, tally)? {
        return take(alloc, board, tally, kind);
    }
    Ok(())
}

/// Makes main's turns until all chunks are done. Nobody else has a chunk. `Err` is want of memory.
pub(crate) fn finish_alone<'p>(
    alloc: Global,
    board: &mut Board<'p>,
    tally: &mut Tally,
    kind: GuessKind,
) -> Result<(), NoMemory>
    requires free { IsFree board.old }
    requires main { tally.old.worker ≡ 64 }
    ensures done { OnOk result (IsDone board.new) }
    ensures on { OnOk result (HasGoneOn kind board.old tally.old board.new tally.new) }
{
    while !board.is_done() {
        main_turn(alloc, board, tally, kind)?;
    }
    Ok(())
}
