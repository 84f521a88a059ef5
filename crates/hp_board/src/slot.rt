//! A chunk on the board.
ghost use Rattle.std.specs.Prelude.{◌≡◌, ◌<◌, length, map, true, IfSome, IfNone};
ghost use Rattle.hp_board.specs.Calls.{claimed_slot, released_slot};
ghost use Rattle.hp_board.specs.Desk.{owed_of, status_of};
ghost use Rattle.hp_board.specs.Machine.{is_first, is_unclaimed, none};

use hp_pieces::Fragment;

/// How far a chunk is, with its fragment.
#[derive(Drop)]
pub(crate) enum Slot<'p> {
    Unclaimed,
    Claimed(u32),
    Posted(Fragment<'p>),
    Again,
    AgainClaimed(u32),
    Done,
}

impl<'p> Slot<'p> {
    /// For how many entries the journal keeps room because of the chunk.
    pub(crate) fn owes(&self) -> usize
        ensures { result ≡ owed_of self.now }
    {
        match self {
            Slot::Claimed(_) | Slot::AgainClaimed(_) => 2,
            Slot::Posted(_) => 1,
            Slot::Unclaimed | Slot::Again | Slot::Done => 0,
        }
    }

    /// The slot of a chunk that a worker claims.
    pub(crate) fn claimed(worker: u32, again: bool) -> Slot<'p>
        ensures { result ≡ claimed_slot worker again }
    {
        if again {
            Slot::AgainClaimed(worker)
        } else {
            Slot::Claimed(worker)
        }
    }

    /// The slot before the claim, if it is claimed.
    pub(crate) fn released(&self) -> Option<Slot<'p>>
        ensures { result ≡ released_slot self.now }
    {
        match self {
            Slot::Claimed(_) => Some(Slot::Unclaimed),
            Slot::AgainClaimed(_) => Some(Slot::Again),
            _ => None,
        }
    }

    fn is_unclaimed(&self) -> bool
        ensures { result ≡ is_unclaimed (status_of self.now) }
    {
        matches!(self, Slot::Unclaimed)
    }
}

/// The first chunk that is Unclaimed.
pub(crate) fn first_unclaimed(slots: &[Slot<'_>]) -> Option<usize>
    ensures within { IfSome result (λ chunk. chunk < length slots.now) }
    ensures first { IfSome result (λ chunk. is_first is_unclaimed (map status_of slots.now) chunk ≡ true) }
    ensures none { IfNone result (none is_unclaimed (map status_of slots.now) ≡ true) }
{
    for (chunk, slot) in slots.iter().enumerate() {
        if slot.is_unclaimed() {
            return Some(chunk);
        }
    }
    None
}
