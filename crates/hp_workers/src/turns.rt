//! The turns of a worker.
ghost use Rattle.std.specs.Prelude.{◌≡◌, IfOk};
ghost use Rattle.hp_board.specs.Desk.{SamePage};
ghost use Rattle.hp_board.specs.Tallies.{IsLater};
ghost use Rattle.hp_workers.specs.Making.{IsCountedIn, IsHandedIn, IsMade};
ghost use Rattle.hp_workers.specs.Turns.{is_idle};

use crate::NoMemory;
use crate::gate::Gate;
use crate::leaving::{leave_advance, leave_post_refusal, leave_spent};
use crate::pace::PacedDesk;
use crate::uncounted::advance_by;
use hp_board::{Advance, Board, Claim, Tally};
use hp_fragment::{replay, speculate_by};
use hp_pieces::Fragment;
use hp_predict::GuessKind;
use std::alloc::Global;
use std::marker::Brand;
use std::sync::ledger::Blank;
use std::sync::{Mutex, Wait};
use std::thread::Threads;

/// The fragment of a claimed chunk: the run from the state before it where that is known, or else a guess by a predictor of this kind.
/// Before a guess the worker of this number passes the gate.
pub(crate) fn make<'p, G: Gate>(
    alloc: Global,
    claim: Claim<'p>,
    worker: u32,
    kind: GuessKind,
    gate: &G,
) -> Result<Fragment<'p>, NoMemory>
    ensures { IfOk result (IsMade kind claim.entry) }
{
    let Claim { chunk, from } = claim;
    match from {
        Some(state) => replay(alloc, chunk, state),
        None => {
            gate.before_guess(worker, chunk.number);
            speculate_by(alloc, chunk, kind)
        }
    }
}

/// Posts what was made of a chunk. Where nothing was made, or it isn't taken, this worker's claim of the chunk is taken back. It takes no
/// memory, and answers whether it was posted.
pub(crate) fn hand_in<'p>(
    board: &mut Board<'p>,
    tally: &mut Tally,
    chunk: u32,
    made: Option<Fragment<'p>>,
) -> bool
    ensures page { SamePage board.old board.new }
    ensures later { IsLater tally.old tally.new }
    ensures handed_in { IsHandedIn board.old tally.old.worker chunk made.entry board.new result }
    ensures counted { IsCountedIn board.old tally.old chunk tally.new result }
{
    let Some(fragment) = made else {
        let _ = board.release(tally, chunk);
        return false;
    };
    match board.post(tally, chunk, fragment) {
        Ok(()) => true,
        Err(refusal) => {
            leave_post_refusal(refusal);
            let _ = board.release(tally, chunk);
            false
        }
    }
}

/// Whether there was nothing to judge.
pub(crate) fn is_idle(advance: &Advance) -> bool
    ensures { result ≡ is_idle advance.now }
{
    matches!(advance, Advance::Idle)
}

/// Judges front chunks until there is none to judge and the next chunk to claim isn't far, but looks at most so many times, each time
/// under a holding of its own.
fn advance_until_near<R: Wait>(
    rt: &R,
    alloc: Global,
    paced: &PacedDesk<'_, '_>,
    tally: &mut Tally,
    turns: u32,
)
    ensures { IsLater tally.old tally.new }
{
    for _turn in 0..turns {
        let advanced = advance_by::<Brand>(&mut paced.desk.lock(rt), alloc, tally, Blank::new(1));
        let Ok(advance) = advanced else {
            return;
        };
        let idle = is_idle(&advance);
        leave_advance(advance);
        if !idle {
            paced.tell();
            continue;
        }
        let spent = paced.desk.lock(rt).take_spent(alloc);
        leave_spent(spent);
        if !paced.wait(rt) {
            return;
        }
    }
}

/// One turn: whether there may be another. No lock is held while the fragment is made.
fn turn<'p, R: Wait, G: Gate>(
    rt: &R,
    alloc: Global,
    paced: &PacedDesk<'_, 'p>,
    tally: &mut Tally,
    kind: GuessKind,
    gate: &G,
    turns: u32,
) -> bool
    ensures { IsLater tally.old tally.new }
{
    advance_until_near(rt, alloc, paced, tally, turns);
    let claimed = paced.desk.lock(rt).claim(alloc, tally);
    let Ok(Some(claim)) = claimed else {
        return false;
    };
    let chunk = claim.chunk.number;
    let made = make(alloc, claim, tally.worker(), kind, gate).ok();
    let posted = hand_in(&mut paced.desk.lock(rt), tally, chunk, made);
    paced.tell();
    posted
}

/// Works on the board behind the lock for at most so many turns. In a turn the worker judges what there is to judge, claims a chunk,
/// makes its fragment by a predictor of this kind where the state before it isn't known, and posts it. The work ends where there is
/// nothing to claim, and for want of memory, which takes the claim back.
pub fn work<'p, R: Threads + Wait + Sync, G: Gate + Sync>(
    rt: &R,
    alloc: Global,
    desk: &Mutex<Board<'p>>,
    tally: &mut Tally,
    kind: GuessKind,
    gate: &G,
    turns: u32,
)
    ensures { IsLater tally.old tally.new }
{
    work_at(rt, alloc, &PacedDesk::free(desk), tally, kind, gate, turns);
}

/// The same at the desk's pace: a worker waits before its claim while the next chunk is far.
pub(crate) fn work_at<'p, R: Threads + Wait + Sync, G: Gate + Sync>(
    rt: &R,
    alloc: Global,
    paced: &PacedDesk<'_, 'p>,
    tally: &mut Tally,
    kind: GuessKind,
    gate: &G,
    turns: u32,
)
    ensures { IsLater tally.old tally.new }
{
    for _turn in 0..turns {
        if !turn(rt, alloc, paced, tally, kind, gate, turns) {
            return;
        }
    }
}
