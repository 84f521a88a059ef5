//! Sources and sinks over std's readers and writers. They tell of the bytes what the reader or the writer tells: nothing,
//! where those are the standard input and output.
ghost use Rattle.std.specs.Prelude.{◌≡◌, ◌<◌, ◌≤◌, Bool, true, false, is_some, IsErr, IfOk, OnOk, OnErr, IfSome, OnSome, IfNone, length, take, refl};
ghost use Rattle.std.specs.Io.KnownBytes.{append_known, Keeps};
ghost use Rattle.hp_text.specs.Device.{next_count};
ghost use Rattle.hp_text.specs.Streams.{SourceStream, SinkStream, without_last};

use crate::devices::{Failed, Sink, Source};
use std::io::{Read, Stderr, Stdin, Stdout, Write};
use std::marker::Model;

/// Readers of one kind: each of them tells its bytes at any time, or none does at any.
pub trait TellingRead: Read {
    /// Whether they tell them.
    ghost tells: { Bool };

    ghost always: { (r : Self) → is_some (Self.remaining r) ≡ tells };
}

impl TellingRead for Stdin {
    ghost tells = { false };

    ghost always = { λ r. refl };
}

impl TellingRead for &[u8] {
    ghost tells = { true };

    ghost always = { λ r. refl };
}

/// Writers of one kind: each of them tells its bytes at any time, or none does at any.
pub trait TellingWrite: Write {
    /// Whether they tell them.
    ghost tells: { Bool };

    /// Whether a writer has flushed all that it holds. Always true of writers that don't tell this.
    ghost is_flushed: { Self → Bool };

    /// Flushes, and answers whether that went well: std's `flush` tells nothing of the bytes by its answer.
    fn flush_told(&mut self) -> bool
        ensures kept { Keeps (Self.contents self.old) (Self.contents self.new) }
        ensures flushed { result ≡ true → is_flushed self.new ≡ true };

    ghost always: { (w : Self) → is_some (Self.contents w) ≡ tells };
}

impl TellingWrite for Stdout {
    ghost tells = { false };

    ghost is_flushed = { λ _. true };

    fn flush_told(&mut self) -> bool {
        self.flush().is_ok()
    }

    ghost always = { λ w. refl };
}

impl TellingWrite for Stderr {
    ghost tells = { false };

    ghost is_flushed = { λ _. true };

    fn flush_told(&mut self) -> bool {
        self.flush().is_ok()
    }

    ghost always = { λ w. refl };
}

/// A source that reads from a reader. A contract sees the bytes that the reader has left, where it tells them, and the
/// count of faults.
#[derive(Drop)]
pub struct StreamSource<R: TellingRead> {
    reader: R,
    faults: u64,
}

impl<R: TellingRead> Model for StreamSource<R> {
    ghost Value = { SourceStream };

    ghost view = { λ s. record { bytes = R.remaining s.reader; faults = s.faults } };
}

impl<R: TellingRead> StreamSource<R> {
    /// A source of what the reader gives.
    pub fn new(reader: R) -> Self
        ensures { result ≡ record { bytes = R.remaining reader; faults = 0 } }
    {
        StreamSource { reader, faults: 0 }
    }

    /// How many reads failed so far.
    pub fn faults(&self) -> u64
        ensures { result ≡ self.now.faults }
    {
        self.faults
    }
}

impl<R: TellingRead> Source for StreamSource<R> {
    ghost left = { λ s. s.bytes };

    ghost faults = { λ s. s.faults };

    ghost calls = { λ _. 0 };

    fn read(&mut self, room: &mut [u8]) -> Result<usize, Failed> {
        match self.reader.read(room) {
            Ok(given) => Ok(given),
            Err(_) => {
                self.faults = self.faults.saturating_add(1);
                Err(Failed)
            }
        }
    }
}

/// A sink that writes to a writer and flushes it after each write, so that no byte waits in a buffer. A
/// write of no byte of a piece that has one, and a failed flush, count as failed writes. After a failed flush of some
/// bytes nothing more is written, and each write fails. A contract sees a `SinkStream`.
#[derive(Drop)]
pub struct StreamSink<W: TellingWrite> {
    writer: W,
    unflushed: usize,
    faults: u64,
}

impl<W: TellingWrite> Model for StreamSink<W> {
    ghost Value = { SinkStream };

    ghost view = { λ s. record {
      bytes = without_last s.unflushed (W.contents s.writer);
      unflushed = s.unflushed;
      is_flushed = W.is_flushed s.writer;
      faults = s.faults;
    } };
}

impl<W: TellingWrite> StreamSink<W> {
    /// A sink into the writer.
    pub fn new(writer: W) -> Self
        ensures { result ≡ record {
          bytes = W.contents writer;
          unflushed = 0;
          is_flushed = W.is_flushed writer;
          faults = 0;
        } }
    {
        StreamSink {
            writer,
            unflushed: 0,
            faults: 0,
        }
    }

    /// How many writes failed so far.
    pub fn faults(&self) -> u64
        ensures { result ≡ self.now.faults }
    {
        self.faults
    }

    // Writes the first bytes of the piece and flushes them, if all before them were flushed.
    fn pass_on(&mut self, piece: &[u8]) -> Option<usize>
        ensures bound { IfSome result (λ n. n ≤ length piece.now) }
        ensures took { IfSome result (λ n. self.new.bytes ≡ append_known self.old.bytes (take n piece.now)) }
        ensures some { IfSome result (λ n. 0 < length piece.now → 0 < n) }
        ensures flushed { OnSome result (self.new.is_flushed ≡ true) }
        ensures halted { 0 < self.old.unflushed → (result ≡ None) × (self.new ≡ self.old) }
        ensures unmoved { IfNone result (self.new.bytes ≡ self.old.bytes) }
        ensures faults { self.new.faults ≡ self.old.faults }
    {
        if self.unflushed > 0 {
            return None;
        }
        let taken = self.writer.write(piece).ok()?;
        if taken == 0 && !piece.is_empty() {
            return None;
        }
        if !self.writer.flush_told() {
            self.unflushed = taken;
            return None;
        }
        Some(taken)
    }
}

impl<W: TellingWrite> Sink for StreamSink<W> {
    ghost taken = { λ s. s.bytes };

    ghost faults = { λ s. s.faults };

    fn write(&mut self, piece: &[u8]) -> Result<usize, Failed>
        ensures bound { IfOk result (λ n. n ≤ length piece.now) }
        ensures took { IfOk result (λ n. self.new.bytes ≡ append_known self.old.bytes (take n piece.now)) }
        ensures some { IfOk result (λ n. 0 < length piece.now → 0 < n) }
        ensures failed { OnErr result (self.new.faults ≡ next_count self.old.faults) }
        ensures steady { OnOk result (self.new.faults ≡ self.old.faults) }
        ensures unmoved { OnErr result (self.new.bytes ≡ self.old.bytes) }
        ensures never_falls { self.old.faults ≤ self.new.faults }

        // What was written is flushed too. After a failed flush nothing more is written.
        ensures flushed { OnOk result (self.new.is_flushed ≡ true) }
        ensures halted { 0 < self.old.unflushed → IsErr result
            × (self.new ≡ record self.old { faults = next_count self.old.faults }) }
    {
        if let Some(taken) = self.pass_on(piece) {
            return Ok(taken);
        }
        self.faults = self.faults.saturating_add(1);
        Err(Failed)
    }
}
