//! Reading a page to its end.
ghost use Rattle.std.specs.Prelude.{◌≡◌, ◌≢◌, ◌+◌, ◌-◌, ◌<◌, ◌≤◌, ◌++◌, Some, [], length, take, vec_len, OnOk, OnErr, IfOk, IfErr, IfSome};
ghost use Rattle.std.specs.Io.KnownBytes.{prepend_known, IsAtEnd};
ghost use Rattle.hp_text.specs.Device.{Rose, Gives};

use crate::NoMemory;
use crate::devices::Source;
use std::alloc::Global;
use thiserror::Error;

/// The greatest number of bytes that a page has, as read.
pub const PAGE_LIMIT: usize = 16_777_216;

/// How many bytes one read asks for, at most.
const ROOM: usize = 65_536;

/// A page could not be read.
#[derive(Clone, Copy, Debug, PartialEq, Eq, Error)]
pub enum ReadRefusal {
    /// The source failed, and its count of faults shows it.
    #[error("the source failed")]
    Fault,
    /// The source gave one byte more than a page may have.
    #[error("the page is larger than {limit} bytes", limit = PAGE_LIMIT)]
    TooLarge,
    /// Memory was wanting.
    #[error("out of memory")]
    NoMemory,
}

/// Reads all bytes of the source, up to its end. Each read but the last takes at least one byte, so there are
/// at most 16,777,217 of them.
pub fn read_page<S: Source>(alloc: Global, source: &mut S) -> Result<Vec<u8>, ReadRefusal>
    ensures whole { IfOk result (λ page. IfSome (S.left source.old) (λ bytes. page.items ≡ bytes)) }
    ensures at_end { OnOk result (IfSome (S.left source.old) (λ _. S.left source.new ≡ Some [])) }
    ensures within_limit { IfOk result (λ page. vec_len page ≤ PAGE_LIMIT) }
    ensures told_within_limit { OnOk result (IfSome (S.left source.old) (λ bytes. length bytes ≤ PAGE_LIMIT)) }

    // There is one byte too many: it was given, and nothing after it.
    ensures too_large { IfErr result (λ refusal. refusal ≡ ReadRefusal.TooLarge
        → IfSome (S.left source.old) (λ bytes. PAGE_LIMIT < length bytes)) }
    ensures too_large_gives { IfErr result (λ refusal. refusal ≡ ReadRefusal.TooLarge
        → Gives (λ n. n ≡ PAGE_LIMIT + 1) (S.left source.old) (S.left source.new)) }

    // Else the source was read in part, and gave no byte too many.
    ensures part { IfErr result (λ refusal. refusal ≢ ReadRefusal.TooLarge
        → Gives (λ n. n ≤ PAGE_LIMIT) (S.left source.old) (S.left source.new)) }
    ensures fault { IfErr result (λ refusal. refusal ≡ ReadRefusal.Fault
        → Rose (S.faults source.old) (S.faults source.new)) }

    ensures no_fault { OnOk result (S.faults source.new ≡ S.faults source.old) }
    ensures other { IfErr result (λ refusal. refusal ≢ ReadRefusal.Fault → S.faults source.new ≡ S.faults source.old) }

    ensures never_falls { S.faults source.old ≤ S.faults source.new }
    ensures few_reads { S.calls source.new ≤ S.calls source.old + (PAGE_LIMIT + 1) }
{
    let mut buffer = make_room(alloc)?;
    let room = buffer.as_mut_slice();
    let mut page = Vec::new(alloc);
    loop {
        if read_more(source, room, &mut page)? == 0 {
            return Ok(page);
        }
    }
}

// Bytes to read into.
fn make_room(alloc: Global) -> Result<Vec<u8>, ReadRefusal>
    ensures some { IfOk result (λ room. 0 < vec_len room) }
    ensures only_memory { IfErr result (λ refusal. refusal ≡ ReadRefusal.NoMemory) }
{
    match vec![in alloc; 0u8; ROOM] {
        Ok(room) => Ok(room),
        Err(_) => Err(ReadRefusal::NoMemory),
    }
}

// One read, whose bytes go to the end of the page. It asks for no more than one byte too many.
fn read_more<S: Source>(
    source: &mut S,
    room: &mut [u8],
    page: &mut Vec<u8>,
) -> Result<usize, ReadRefusal>
    requires room { 0 < length room.old }
    requires page { vec_len page.old ≤ PAGE_LIMIT }
    ensures items { IfOk result (λ n. page.new.items ≡ page.old.items ++ take n room.new) }
    ensures len { IfOk result (λ n. vec_len page.new ≡ vec_len page.old + n) }
    ensures within_limit { OnOk result (vec_len page.new ≤ PAGE_LIMIT) }
    ensures given { IfOk result (λ n. S.left source.old ≡ prepend_known (take n room.new) (S.left source.new)) }
    ensures end { IfOk result (λ n. n ≡ 0 → IsAtEnd (S.left source.new)) }

    ensures too_large { IfErr result (λ refusal. refusal ≡ ReadRefusal.TooLarge
        → Gives (λ n. vec_len page.old + n ≡ PAGE_LIMIT + 1) (S.left source.old) (S.left source.new)) }
    ensures part { IfErr result (λ refusal. refusal ≢ ReadRefusal.TooLarge
        → Gives (λ n. vec_len page.old + n ≤ PAGE_LIMIT) (S.left source.old) (S.left source.new)) }
    ensures fault { IfErr result (λ refusal. refusal ≡ ReadRefusal.Fault
        → Rose (S.faults source.old) (S.faults source.new)) }

    ensures no_fault { OnOk result (S.faults source.new ≡ S.faults source.old) }
    ensures other { IfErr result (λ refusal. refusal ≢ ReadRefusal.Fault → S.faults source.new ≡ S.faults source.old) }

    ensures never_falls { S.faults source.old ≤ S.faults source.new }
    ensures counted { S.calls source.new ≤ S.calls source.old + 1 }
{
    let space = PAGE_LIMIT - page.len();
    let most = room.len().min(space + 1);
    let Ok(given) = source.read(&mut room[..most]) else {
        return Err(ReadRefusal::Fault);
    };
    if given > space {
        return Err(ReadRefusal::TooLarge);
    }
    if page.extend_from_slice(&room[..given]).is_err() {
        return Err(ReadRefusal::NoMemory);
    }
    Ok(given)
}
