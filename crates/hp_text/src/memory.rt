//! Sources and sinks in memory.
ghost use Rattle.std.specs.Prelude.{◌≡◌, ℕ, ◌+◌, ◌<◌, ◌≤◌, List, [], Some, Ok, IfOk, OnOk, OnErr, take, drop, min, length, vec_len, vec_capacity};
ghost use Rattle.std.specs.Io.KnownBytes.{append_known, prepend_known, IsAtEnd};
ghost use Rattle.hp_text.specs.Device.{next_count};
ghost use Rattle.hp_text.specs.Memory.{SourceState, source_answer, after_read, SinkState, sink_answer, after_write};

use crate::NoMemory;
use crate::devices::{Failed, Sink, Source};
use std::alloc::Global;
use std::marker::Model;

/// A source that gives the bytes of a slice, as many as fit, and never fails. A contract sees the bytes
/// that are left.
#[derive(Drop, Debug)]
pub struct SteadySource<'b> {
    rest: &'b [u8],
}

impl<'b> Model for SteadySource<'b> {
    ghost Value = { List ℕ };

    ghost view = { λ s. s.rest.now };
}

impl<'b> SteadySource<'b> {
    /// A source of all these bytes.
    pub fn new(bytes: &'b [u8]) -> Self
        ensures { result ≡ bytes.now }
    {
        SteadySource { rest: bytes }
    }
}

impl<'b> Source for SteadySource<'b> {
    ghost left = { λ s. Some s };

    ghost faults = { λ _. 0 };

    ghost calls = { λ _. 0 };

    fn read(&mut self, room: &mut [u8]) -> Result<usize, Failed>
        ensures answer { result ≡ Ok (min (length room.new) (length self.old)) }
        ensures bound { IfOk result (λ n. n ≤ length room.new) }
        ensures given { IfOk result (λ n. Some self.old ≡ prepend_known (take n room.new) (Some self.new)) }
        ensures end { IfOk result (λ n. n ≡ 0 → 0 < length room.new → IsAtEnd (Some self.new)) }
        ensures failed { OnErr result (0 ≡ next_count 0) }
        ensures steady { OnOk result (◌≡◌ {A = ℕ} 0 0) }
        ensures unmoved { OnErr result (Some self.new ≡ Some self.old) }
        ensures never_falls { 0 ≤ 0 }
        ensures counted { 0 ≤ 0 + 1 }
    {
        let given = self.rest.len().min(room.len());
        let (front, rest) = self.rest.split_at(given);
        room[..given].copy_from_slice(front);
        self.rest = rest;
        Ok(given)
    }
}

/// A source of the bytes that it was made with, some of whose calls fail. A contract sees a `SourceState`.
#[derive(Drop, Debug)]
pub struct MemorySource {
    bytes: Vec<u8>,
    at: usize,
    step: usize,
    failing: Vec<u64>,
    calls: u64,
    faults: u64,
}

impl Model for MemorySource {
    ghost Value = { SourceState };

    ghost view = { λ s. record {
      left = drop s.at s.bytes.items;
      step = s.step;
      failing = s.failing.items;
      calls = s.calls;
      faults = s.faults;
    } };

    ghost invariant = { λ s. (s.at ≤ vec_len s.bytes) × (1 ≤ s.step) };
}

impl MemorySource {
    /// A source of these bytes, which gives at most `step` of them a call. The calls whose numbers, counted
    /// from 0, are in `failing` fail.
    pub fn new(alloc: Global, bytes: &[u8], step: usize, failing: &[u64]) -> Result<Self, NoMemory>
        requires { 1 ≤ step }
        ensures { IfOk result (λ source. source ≡ record {
          left = bytes.now;
          step = step;
          failing = failing.now;
          calls = 0;
          faults = 0;
        }) }
    {
        Ok(MemorySource {
            bytes: Vec::from_slice(alloc, bytes)?,
            at: 0,
            step,
            failing: Vec::from_slice(alloc, failing)?,
            calls: 0,
            faults: 0,
        })
    }

    /// How many calls failed so far.
    pub fn faults(&self) -> u64
        ensures { result ≡ self.now.faults }
    {
        self.faults
    }
}

impl Source for MemorySource {
    ghost left = { λ s. Some s.left };

    ghost faults = { λ s. s.faults };

    ghost calls = { λ s. s.calls };

    fn read(&mut self, room: &mut [u8]) -> Result<usize, Failed>
        ensures answer { result ≡ source_answer self.old (length room.new) }
        ensures after { self.new ≡ after_read self.old (length room.new) }
        ensures bound { IfOk result (λ n. n ≤ length room.new) }
        ensures given { IfOk result (λ n. Some self.old.left ≡ prepend_known (take n room.new) (Some self.new.left)) }
        ensures end { IfOk result (λ n. n ≡ 0 → 0 < length room.new → IsAtEnd (Some self.new.left)) }
        ensures failed { OnErr result (self.new.faults ≡ next_count self.old.faults) }
        ensures steady { OnOk result (self.new.faults ≡ self.old.faults) }
        ensures unmoved { OnErr result (Some self.new.left ≡ Some self.old.left) }
        ensures never_falls { self.old.faults ≤ self.new.faults }
        ensures counted { self.new.calls ≤ self.old.calls + 1 }
    {
        let fails = self.failing.contains(&self.calls);
        self.calls = self.calls.saturating_add(1);
        if fails {
            self.faults = self.faults.saturating_add(1);
            return Err(Failed);
        }
        let rest = &self.bytes[self.at..];
        let given = room.len().min(self.step).min(rest.len());
        room[..given].copy_from_slice(&rest[..given]);
        self.at += given;
        Ok(given)
    }
}

/// A sink with room for so many bytes, some of whose calls fail. A contract sees a `SinkState`.
#[derive(Drop, Debug)]
pub struct MemorySink {
    taken: Vec<u8>,
    room: usize,
    failing: Vec<u64>,
    calls: u64,
    faults: u64,
}

impl Model for MemorySink {
    ghost Value = { SinkState };

    ghost view = { λ s. record {
      taken = s.taken.items;
      room = s.room;
      failing = s.failing.items;
      calls = s.calls;
      faults = s.faults;
    } };

    ghost invariant = { λ s. vec_len s.taken + s.room ≤ vec_capacity s.taken };
}

impl MemorySink {
    /// A sink that has taken nothing yet. It takes its room, in bytes, at once. The calls whose numbers,
    /// counted from 0, are in `failing` fail, and so does each that finds no room.
    pub fn new(alloc: Global, room: usize, failing: &[u64]) -> Result<Self, NoMemory>
        ensures { IfOk result (λ sink. sink ≡ record {
          taken = [];
          room = room;
          failing = failing.now;
          calls = 0;
          faults = 0;
        }) }
    {
        Ok(MemorySink {
            taken: Vec::with_capacity(alloc, room)?,
            room,
            failing: Vec::from_slice(alloc, failing)?,
            calls: 0,
            faults: 0,
        })
    }

    /// The bytes that it took so far.
    pub fn taken(&self) -> &[u8]
        ensures { result.now ≡ self.now.taken }
    {
        self.taken.as_slice()
    }

    /// How many calls failed so far.
    pub fn faults(&self) -> u64
        ensures { result ≡ self.now.faults }
    {
        self.faults
    }
}

impl Sink for MemorySink {
    ghost taken = { λ s. Some s.taken };

    ghost faults = { λ s. s.faults };

    fn write(&mut self, piece: &[u8]) -> Result<usize, Failed>
        ensures answer { result ≡ sink_answer self.old (length piece.now) }
        ensures after { self.new ≡ after_write self.old piece.now }
        ensures bound { IfOk result (λ n. n ≤ length piece.now) }
        ensures took { IfOk result (λ n. Some self.new.taken ≡ append_known (Some self.old.taken) (take n piece.now)) }
        ensures some { IfOk result (λ n. 0 < length piece.now → 0 < n) }
        ensures failed { OnErr result (self.new.faults ≡ next_count self.old.faults) }
        ensures steady { OnOk result (self.new.faults ≡ self.old.faults) }
        ensures unmoved { OnErr result (Some self.new.taken ≡ Some self.old.taken) }
        ensures never_falls { self.old.faults ≤ self.new.faults }
    {
        let fails = self.failing.contains(&self.calls);
        self.calls = self.calls.saturating_add(1);
        if fails || (self.room == 0 && !piece.is_empty()) {
            self.faults = self.faults.saturating_add(1);
            return Err(Failed);
        }
        let taken = piece.len().min(self.room);
        self.room -= taken;
        self.taken.extend_from_slice(&piece[..taken]).unwrap();
        Ok(taken)
    }
}
