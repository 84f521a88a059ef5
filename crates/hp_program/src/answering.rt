//! What the program answers to its words.
ghost use Rattle.std.specs.Prelude.{◌≡◌, ◌≢◌, ◌⊎◌, IfErr, IfOk};
ghost use Rattle.hp_words.specs.Settings.{settings};
ghost use Rattle.hp_program.specs.Runs.{IsExactRun, IsRefusedRun, IsRun, IsWithoutPage};

use crate::notes::write_note;
use crate::outcome::Outcome;
use crate::status::Status;
use crate::top::hpar;
use hp_text::{Sink, Source};
use hp_words::Words;
use hp_workers::Gate;
use std::alloc::Global;
use std::sync::Wait;
use std::thread::Threads;

/// What the program answers to its words: the status for which they couldn't be read (as `program_words` tells it), or else what
/// [`hpar`] answers.
pub fn answer<R: Threads + Wait + Sync, S: Source, K: Sink, N: Sink, G: Gate + Sync>(
    rt: &R,
    alloc: Global,
    words: Result<Words, Status>,
    page: &mut S,
    out: &mut K,
    notes: &mut N,
    gate: &G,
) -> Status
    requires told { IfErr words (λ status. (status ≡ Status.Usage) ⊎ (status ≡ Status.NoMemory)) }

    // Where the words couldn't be read, that is the status, its line goes to the notes, and nothing is read or written.
    ensures no_words { IfErr words (λ status. (result ≡ status) × (page.new ≡ page.old) × (out.new ≡ out.old)) }
    ensures no_words_noted { IfErr words (λ status. IsRefusedRun (record { before = N.taken notes.old; after = N.taken notes.new; faults = N.faults notes.old; faults_after = N.faults notes.new }) status) }

    // Otherwise it is what the words ask for.
    ensures run { IfOk words (λ words. IsRun words
        (record { before = S.left page.old; after = S.left page.new; faults = S.faults page.old; faults_after = S.faults page.new })
        (record { before = K.taken out.old; after = K.taken out.new; faults = K.faults out.old; faults_after = K.faults out.new })
        (record { before = N.taken notes.old; after = N.taken notes.new; faults = N.faults notes.old; faults_after = N.faults notes.new }) result) }
    ensures exact { IfOk words (λ words. IsExactRun words
        (record { before = S.left page.old; after = S.left page.new; faults = S.faults page.old; faults_after = S.faults page.new })
        (record { before = K.taken out.old; after = K.taken out.new; faults = K.faults out.old; faults_after = K.faults out.new }) result) }
    ensures unread { IfOk words (λ words. IsWithoutPage (settings words) → page.new ≡ page.old) }
    ensures nothing { result ≢ Status.Done → result ≢ Status.WriteFault → out.new ≡ out.old }
{
    match words {
        Ok(words) => hpar(rt, alloc, &words, page, out, notes, gate),
        Err(status) => refuse_words(notes, status),
    }
}

/// Writes the line of the status for which the words couldn't be read.
fn refuse_words<N: Sink>(notes: &mut N, status: Status) -> Status
    requires { (status ≡ Status.Usage) ⊎ (status ≡ Status.NoMemory) }
    ensures same { result ≡ status }
    ensures noted { IsRefusedRun (record { before = N.taken notes.old; after = N.taken notes.new; faults = N.faults notes.old; faults_after = N.faults notes.new }) status }
{
    match status {
        Status::Usage => write_note(notes, &Outcome::Usage),
        _ => write_note(notes, &Outcome::NoMemory),
    }
    status
}
