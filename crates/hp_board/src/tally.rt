//! Tallies.
ghost use Rattle.std.specs.Prelude.{◌≡◌, ◌≤◌, ◌+◌, ◌-◌, ◌^◌, min};

/// A worker's number, and how many entries of the journal are its own. Only the board makes or changes one. A count of 2^64 - 1 stays.
#[derive(Drop, Debug)]
pub struct Tally {
    worker: u32,
    entries: u64,
}

impl Tally {
    /// The tally of a worker that has no entry yet.
    pub(crate) fn new(worker: u32) -> Tally
        ensures worker { result.worker ≡ worker }
        ensures entries { result.entries ≡ 0 }
    {
        Tally { worker, entries: 0 }
    }

    /// The worker's number.
    pub fn worker(&self) -> u32
        ensures { result ≡ self.now.worker }
    {
        self.worker
    }

    /// How many entries are its own.
    pub fn entries(&self) -> u64
        ensures { result ≡ self.now.entries }
    {
        self.entries
    }

    /// One entry more.
    pub(crate) fn raise(&mut self)
        ensures worker { self.new.worker ≡ self.old.worker }
        ensures entries { self.new.entries ≡ min (self.old.entries + 1) (2 ^ 64 - 1) }
        ensures grows { self.old.entries ≤ self.new.entries }
    {
        self.entries = self.entries.saturating_add(1);
    }
}
