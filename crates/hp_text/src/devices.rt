//! What a page is read from and what its tree is written to.
ghost use Rattle.std.specs.Prelude.{◌≡◌, ℕ, ◌+◌, ◌<◌, ◌≤◌, List, length, take, Option, IfOk, OnOk, OnErr};
ghost use Rattle.std.specs.Io.KnownBytes.{prepend_known, append_known, IsAtEnd};
ghost use Rattle.hp_text.specs.Device.{next_count};

use thiserror::Error;

/// A read or a write failed; the device's count of faults says so too.
#[derive(Clone, Copy, Debug, PartialEq, Eq, Error)]
#[error("the device failed")]
pub struct Failed;

/// Bytes that are read from the front to the end.
pub trait Source {
    /// The bytes that are still to come, where the source tells them.
    ghost left: { Self → Option (List ℕ) };

    /// How many calls failed so far. The count stands still at `u64::MAX`.
    ghost faults: { Self → ℕ };

    /// How often `read` was called, where the source counts that, and else a constant.
    ghost calls: { Self → ℕ };

    /// Puts the next bytes into the front of `room` and answers how many they are. Only at the end of the
    /// bytes are they none, where there is room for one.
    fn read(&mut self, room: &mut [u8]) -> Result<usize, Failed>
        ensures bound { IfOk result (λ n. n ≤ length room.new) }
        ensures given { IfOk result (λ n. left self.old ≡ prepend_known (take n room.new) (left self.new)) }
        ensures end { IfOk result (λ n. n ≡ 0 → 0 < length room.new → IsAtEnd (left self.new)) }

        // A failure moves nothing, and the count of faults shows it: it rises by one, and at no other call.
        ensures failed { OnErr result (faults self.new ≡ next_count (faults self.old)) }
        ensures steady { OnOk result (faults self.new ≡ faults self.old) }
        ensures unmoved { OnErr result (left self.new ≡ left self.old) }

        ensures never_falls { faults self.old ≤ faults self.new }
        ensures counted { calls self.new ≤ calls self.old + 1 };
}

/// A taker of bytes, one piece after the other.
pub trait Sink {
    /// All the bytes that were taken so far, where the sink tells them.
    ghost taken: { Self → Option (List ℕ) };

    /// How many calls failed so far. The count stands still at `u64::MAX`.
    ghost faults: { Self → ℕ };

    /// Takes the first bytes of `piece`, at least one where it has one, and answers how many they are.
    fn write(&mut self, piece: &[u8]) -> Result<usize, Failed>
        ensures bound { IfOk result (λ n. n ≤ length piece.now) }
        ensures took { IfOk result (λ n. taken self.new ≡ append_known (taken self.old) (take n piece.now)) }
        ensures some { IfOk result (λ n. 0 < length piece.now → 0 < n) }

        // A failure takes nothing, and the count of faults shows it: it rises by one, and at no other call.
        ensures failed { OnErr result (faults self.new ≡ next_count (faults self.old)) }
        ensures steady { OnOk result (faults self.new ≡ faults self.old) }
        ensures unmoved { OnErr result (taken self.new ≡ taken self.old) }

        ensures never_falls { faults self.old ≤ faults self.new };
}
