//! Calls of the front and the board for which nobody counts: each makes its counter itself. The blank is a new one of one part, and its
//! ledger the one that `L` stands for: a caller passes `Brand`.
ghost use Rattle.std.specs.Prelude.{◌≡◌, IfErr, IfOk, OnErr, OnOk};
ghost use Rattle.hp_control.specs.States.{Fits};
ghost use Rattle.hp_merge.specs.Checked.{IsChecked, MayJoin};
ghost use Rattle.hp_merge.specs.Joined.{joined};
ghost use Rattle.hp_board.specs.Calls.{IsAdvance};
ghost use Rattle.hp_board.specs.Desk.{SamePage};
ghost use Rattle.hp_board.specs.Tallies.{IsLater, IsRaisedUnlessIdle};

use crate::NoMemory;
use hp_board::{Advance, Board, Tally};
use hp_merge::{Checked, Front, JoinRefusal};
use hp_pieces::Fragment;
use hp_steps::Steps;
use std::alloc::Global;
use std::sync::ledger::{Blank, Ledger};

/// What comes of looking at a fragment over the front.
pub(crate) fn check_by<'f, L: Ledger>(
    front: &Front<'_>,
    fragment: &'f Fragment<'_>,
    blank: Blank,
) -> Checked<'f>
    requires name { blank.name ≡ L.name }
    requires parts { blank.parts ≡ L.parts }
    requires one { blank.parts ≡ 1 }
    ensures { IsChecked front.now.control fragment.now result }
{
    let mut steps = Steps::<L>::start(blank);
    front.check(fragment, &mut steps)
}

/// Joins a fragment to the front. `Err` is want of memory, which hands the fragment back.
pub(crate) fn join_by<'p, L: Ledger>(
    front: &mut Front<'p>,
    alloc: Global,
    fragment: Fragment<'p>,
    blank: Blank,
) -> Result<(), JoinRefusal<'p>>
    requires name { blank.name ≡ L.name }
    requires parts { blank.parts ≡ L.parts }
    requires one { blank.parts ≡ 1 }
    requires fits { Fits front.old.control }
    requires holds { MayJoin front.old.control fragment }
    ensures ok { OnOk result (front.new ≡ joined front.old fragment.entry) }
    ensures err { OnErr result (front.new ≡ front.old) }
    ensures back { IfErr result (λ refusal. refusal.fragment ≡ fragment.entry) }
{
    let mut steps = Steps::<L>::start(blank);
    front.join(alloc, fragment, &mut steps)
}

/// Judges the front chunk. `Err` is want of memory.
pub(crate) fn advance_by<L: Ledger>(
    board: &mut Board<'_>,
    alloc: Global,
    tally: &mut Tally,
    blank: Blank,
) -> Result<Advance, NoMemory>
    requires name { blank.name ≡ L.name }
    requires parts { blank.parts ≡ L.parts }
    requires one { blank.parts ≡ 1 }
    ensures page { SamePage board.old board.new }
    ensures later { IsLater tally.old tally.new }
    ensures judged { IfOk result (IsAdvance board.old tally.old.worker board.new) }
    ensures raised { IfOk result (IsRaisedUnlessIdle tally.old tally.new) }
    ensures err { OnErr result ((board.new ≡ board.old) × (tally.new ≡ tally.old)) }
{
    let mut steps = Steps::<L>::start(blank);
    board.advance(alloc, tally, &mut steps)
}
