//! Where the printed text goes: it is gathered in memory of one size, which goes to the sink whenever it is full.

ghost use Rattle.std.specs.Prelude.{true, ◌≡◌, ◌+◌, ◌^◌, ◌<◌, ◌≤◌, ◌++◌, [], ◌∷◌, IfOk, length, codes, encode_utf8_all};
ghost use Rattle.std.specs.Str.{chars};
ghost use Rattle.hp_print.specs.Out.{Finished, IsEmpty, Prints, Starts};
ghost use Rattle.hp_print.specs.Parts.{has_failed};
ghost use Rattle.hp_print.specs.Print.{indentation};

use crate::filled::Filled;
use hp_text::{Sink, WriteFault, write_whole};
use std::alloc::{AllocError as NoMemory, Global};

/// What was printed and isn't written yet. Counts of bytes stand still at `u64::MAX`.
#[derive(Drop)]
pub enum Out {
    /// What was gathered since the last write, and how many bytes were written.
    Gathered { gathered: Filled, written: u64 },
    /// A write failed after so many bytes were taken, and nothing more is written.
    Failed { taken: u64 },
}

const BLANKS: [u8; 64] = [b' '; 64];

/// What a line of depth 63 begins with: that of any lower depth is its front.
const LINE: &[u8; 128] =
    b"|                                                                                                                               ";

impl Out {
    /// Nothing is printed yet. All memory that printing takes is there from now on.
    pub fn new(alloc: Global) -> Result<Out, NoMemory>
        ensures { IfOk result Starts }
    {
        let gathered = Filled::new(alloc)?;
        Ok(Out::Gathered {
            gathered,
            written: 0,
        })
    }

    /// Prints these bytes.
    #[inline]
    pub fn put<K: Sink>(&mut self, sink: &mut K, piece: &[u8])
        ensures { Prints self.old self.new (K.taken sink.old, K.faults sink.old) (K.taken sink.new, K.faults sink.new) piece.now }
    {
        match self {
            Out::Gathered { gathered, .. } => {
                if !gathered.append(piece) {
                    self.put_beyond(sink, piece);
                }
            }
            Out::Failed { .. } => {}
        }
    }

    /// Prints these bytes where there is no room for them behind what was gathered.
    #[inline(never)]
    fn put_beyond<K: Sink>(&mut self, sink: &mut K, piece: &[u8])
        ensures { Prints self.old self.new (K.taken sink.old, K.faults sink.old) (K.taken sink.new, K.faults sink.new) piece.now }
    {
        self.flush(sink);
        match self {
            Out::Gathered { gathered, written } => {
                if !gathered.append(piece) {
                    match write_whole(sink, piece) {
                        Ok(()) => *written = written.saturating_add(piece.len() as u64),
                        Err(fault) => {
                            let taken = written.saturating_add(fault.taken);
                            *self = Out::Failed { taken };
                        }
                    }
                }
            }
            Out::Failed { .. } => {}
        }
    }

    /// Starts again, with nothing printed. Whether it can: after a write that failed it can't.
    pub fn restart(&mut self) -> bool
        ensures { result ≡ true → Starts self.new }
    {
        match self {
            Out::Gathered { gathered, written } => {
                gathered.clear();
                *written = 0;
                true
            }
            Out::Failed { .. } => false,
        }
    }

    /// Whether a write failed.
    pub fn has_failed(&self) -> bool
        ensures { result ≡ has_failed self.now }
    {
        match self {
            Out::Gathered { .. } => false,
            Out::Failed { .. } => true,
        }
    }

    /// Writes what was gathered.
    pub fn flush<K: Sink>(&mut self, sink: &mut K)
        ensures printed { Prints self.old self.new (K.taken sink.old, K.faults sink.old) (K.taken sink.new, K.faults sink.new) [] }
        ensures empty { IsEmpty self.new }
    {
        match self {
            Out::Gathered { gathered, written } => {
                let bytes = gathered.as_slice();
                let more = bytes.len() as u64;
                match write_whole(sink, bytes) {
                    Ok(()) => {
                        gathered.clear();
                        *written = written.saturating_add(more);
                    }
                    Err(fault) => {
                        let taken = written.saturating_add(fault.taken);
                        *self = Out::Failed { taken };
                    }
                }
            }
            Out::Failed { .. } => {}
        }
    }

    /// Writes the rest. An `Err` tells how many of all bytes that were printed the sink took.
    #[tactic(auto, using(crate::proofs::Pieces::finished_whole, crate::proofs::Pieces::finished_part))]
    pub fn finish<K: Sink>(&mut self, sink: &mut K) -> Result<(), WriteFault>
        ensures { Finished self.old result (K.taken sink.old, K.faults sink.old) (K.taken sink.new, K.faults sink.new) }
    {
        self.flush(sink);
        match self {
            Out::Gathered { .. } => Ok(()),
            Out::Failed { taken } => Err(WriteFault { taken: *taken }),
        }
    }

    /// Prints a text, in UTF-8.
    #[inline]
    pub fn put_text<K: Sink>(&mut self, sink: &mut K, text: &str)
        ensures { Prints self.old self.new (K.taken sink.old, K.faults sink.old) (K.taken sink.new, K.faults sink.new) (encode_utf8_all (chars text.now)) }
    {
        self.put(sink, text.as_bytes());
    }

    /// Prints a line of this depth: a text between two marks.
    #[inline(always)]
    pub fn put_line<K: Sink>(&mut self, sink: &mut K, depth: u64, left: u8, text: &str, right: u8)
        requires { depth < 2 ^ 63 }
        ensures { Prints self.old self.new (K.taken sink.old, K.faults sink.old) (K.taken sink.new, K.faults sink.new) (indentation depth ++ left ∷ (encode_utf8_all (chars text.now) ++ right ∷ 10 ∷ [])) }
    {
        match self {
            Out::Gathered { gathered, .. } => {
                if !gathered.append_line(depth, left, text, right) {
                    self.put_line_beyond(sink, depth, left, text, right);
                }
            }
            Out::Failed { .. } => {}
        }
    }

    /// The same piece by piece.
    #[inline(never)]
    fn put_line_beyond<K: Sink>(
        &mut self,
        sink: &mut K,
        depth: u64,
        left: u8,
        text: &str,
        right: u8,
    )
        requires { depth < 2 ^ 63 }
        ensures { Prints self.old self.new (K.taken sink.old, K.faults sink.old) (K.taken sink.new, K.faults sink.new) (indentation depth ++ left ∷ (encode_utf8_all (chars text.now) ++ right ∷ 10 ∷ [])) }
    {
        self.indent(sink, depth);
        self.put(sink, &[left]);
        self.put_text(sink, text);
        self.put(sink, &[right, b'\n']);
    }

    /// Prints a line of this depth: a name and a value.
    #[inline(always)]
    pub fn put_pair<K: Sink>(&mut self, sink: &mut K, depth: u64, name: &str, value: &str)
        requires { depth < 2 ^ 63 }
        ensures { Prints self.old self.new (K.taken sink.old, K.faults sink.old) (K.taken sink.new, K.faults sink.new) (indentation depth ++ encode_utf8_all (chars name.now) ++ codes "=\"" ++ encode_utf8_all (chars value.now) ++ codes "\"\n") }
    {
        match self {
            Out::Gathered { gathered, .. } => {
                if !gathered.append_pair(depth, name, value) {
                    self.put_pair_beyond(sink, depth, name, value);
                }
            }
            Out::Failed { .. } => {}
        }
    }

    /// The same piece by piece.
    #[inline(never)]
    fn put_pair_beyond<K: Sink>(&mut self, sink: &mut K, depth: u64, name: &str, value: &str)
        requires { depth < 2 ^ 63 }
        ensures { Prints self.old self.new (K.taken sink.old, K.faults sink.old) (K.taken sink.new, K.faults sink.new) (indentation depth ++ encode_utf8_all (chars name.now) ++ codes "=\"" ++ encode_utf8_all (chars value.now) ++ codes "\"\n") }
    {
        self.indent(sink, depth);
        self.put_text(sink, name);
        self.put(sink, b"=\"");
        self.put_text(sink, value);
        self.put(sink, b"\"\n");
    }

    /// Prints what a line of this depth begins with.
    #[inline]
    pub fn indent<K: Sink>(&mut self, sink: &mut K, depth: u64)
        requires { depth < 2 ^ 63 }
        ensures { Prints self.old self.new (K.taken sink.old, K.faults sink.old) (K.taken sink.new, K.faults sink.new) (indentation depth) }
    {
        if depth < 64 {
            self.put(sink, &LINE[..2 + 2 * depth as usize]);
        } else {
            self.indent_deep(sink, depth);
        }
    }

    /// The same at any depth.
    #[inline(never)]
    fn indent_deep<K: Sink>(&mut self, sink: &mut K, depth: u64)
        requires { depth < 2 ^ 63 }
        ensures { Prints self.old self.new (K.taken sink.old, K.faults sink.old) (K.taken sink.new, K.faults sink.new) (indentation depth) }
    {
        self.put(sink, b"| ");
        let mut left = depth + depth;
        while left > 64 {
            self.put(sink, &BLANKS);
            left -= 64;
        }
        self.put(sink, &BLANKS[..left as usize]);
    }
}
