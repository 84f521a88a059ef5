//! Streams that fail.
ghost use Rattle.std.specs.Prelude.{false, refl};

use hp_text::{
    ReadRefusal, StreamSink, StreamSource, TellingRead, TellingWrite, read_page, write_whole,
};
use std::alloc::Global;
use std::{io, mem};

/// Its first read gives one byte. Its second fails, where it says so, or else is the end.
#[derive(Drop)]
struct One {
    given: bool,
    fails: bool,
}

impl io::Read for One {
    fn read(&mut self, room: &mut [u8]) -> io::Result<usize> {
        if self.given || room.is_empty() {
            if self.fails {
                return Err(io::Error::from(io::ErrorKind::Other));
            }
            return Ok(0);
        }
        self.given = true;
        room[0] = b'a';
        Ok(1)
    }
}

impl TellingRead for One {
    ghost tells = { false };

    ghost always = { λ r. refl };
}

/// Whether the one byte is the page that is read, without a fault; where the second read fails, whether that is a fault.
fn reads_one(alloc: Global, fails: bool) -> bool {
    let one = One {
        given: false,
        fails,
    };
    let mut source = StreamSource::new(one);
    let read = read_page(alloc, &mut source);
    let well = match &read {
        Ok(page) => !fails && page.as_slice() == b"a".as_slice(),
        Err(refusal) => fails && *refusal == ReadRefusal::Fault,
    };
    let faults = source.faults();
    mem::forget(read);
    mem::forget(source);
    well && faults == u64::from(fails)
}

#[test]
fn a_reader_is_a_source(rt: HostRuntime) {
    assert!(rt; reads_one(rt.alloc(), false) && reads_one(rt.alloc(), true));
}

/// A writer whose flushes fail, where it says so. It keeps whether the last one went well and nothing was written since.
#[derive(Drop)]
struct Flushes<'b> {
    into: &'b mut [u8],
    fails: bool,
    flushed: bool,
}

impl io::Write for Flushes<'_> {
    fn write(&mut self, piece: &[u8]) -> io::Result<usize> {
        self.flushed = false;
        self.into.write(piece)
    }

    fn flush(&mut self) -> io::Result<()> {
        if self.fails {
            return Err(io::Error::from(io::ErrorKind::Other));
        }
        self.flushed = true;
        Ok(())
    }
}

impl TellingWrite for Flushes<'_> {
    ghost tells = { false };

    ghost is_flushed = { λ w. w.flushed };

    fn flush_told(&mut self) -> bool {
        io::Write::flush(self).is_ok() && self.flushed
    }

    ghost always = { λ w. refl };
}

/// Whether the write of `hello` into so much room, of at most five bytes, is a fault, with so many bytes taken, or else none, and leaves these
/// bytes there.
fn writes_hello(room: usize, fails: bool, fault: Option<u64>, wanted: &[u8]) -> bool {
    let mut bytes = [b'.'; 5];
    let into = &mut bytes[..room.min(5)];
    let writer = Flushes {
        into,
        fails,
        flushed: true,
    };
    let mut sink = StreamSink::new(writer);
    let found = match write_whole(&mut sink, b"hello") {
        Ok(()) => None,
        Err(fault) => Some(fault.taken),
    };
    let well = found == fault && sink.faults() == u64::from(fault.is_some());
    mem::forget(sink);
    well && bytes.as_slice() == wanted
}

#[test]
fn a_writer_is_a_sink(rt: HostRuntime) {
    let whole = writes_hello(5, false, None, b"hello");
    let short = writes_hello(4, false, Some(4), b"hell.");
    assert!(rt; whole && short && writes_hello(4, true, Some(0), b"hell."));
}
