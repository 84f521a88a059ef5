//! Writing bytes to a sink until all are taken.
ghost use Rattle.std.specs.Prelude.{◌≡◌, ◌<◌, ◌≤◌, length, take, OnOk, OnErr, IfErr};
ghost use Rattle.std.specs.Io.KnownBytes.{append_known};
ghost use Rattle.hp_text.specs.Device.{Rose};

use crate::devices::Sink;
use thiserror::Error;

/// A sink failed before it took all bytes.
#[derive(Clone, Copy, Debug, PartialEq, Eq, Error)]
#[error("the sink failed after {taken} bytes")]
pub struct WriteFault {
    /// How many of the bytes the sink took, from the first on. It took nothing else of them.
    pub taken: u64,
}

/// Hands the bytes to the sink until it took all of them or a write failed. Takes no memory and copies nothing.
pub fn write_whole<K: Sink>(sink: &mut K, bytes: &[u8]) -> Result<(), WriteFault>
    ensures whole { OnOk result (K.taken sink.new ≡ append_known (K.taken sink.old) bytes.now) }

    // At a fault the sink took a proper part, which the fault counts, and the sink's own count shows it.
    ensures part { IfErr result (λ fault. K.taken sink.new ≡ append_known (K.taken sink.old) (take fault.taken bytes.now)) }
    ensures proper { IfErr result (λ fault. fault.taken < length bytes.now) }
    ensures failed { OnErr result (Rose (K.faults sink.old) (K.faults sink.new)) }

    ensures no_fault { OnOk result (K.faults sink.new ≡ K.faults sink.old) }
    ensures never_falls { K.faults sink.old ≤ K.faults sink.new }
{
    let mut taken = 0;
    while taken < bytes.len() {
        match sink.write(&bytes[taken..]) {
            Ok(more) => taken += more,
            Err(_) => return Err(WriteFault {
                taken: taken as u64,
            }),
        }
    }
    Ok(())
}
