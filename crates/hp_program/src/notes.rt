//! The line of a run in the notes.
ghost use Rattle.std.specs.Prelude.{◌++◌, decimal};
ghost use Rattle.hp_program.specs.Devices.{TakesUnlessFailed};
ghost use Rattle.hp_program.specs.Notes.{bad_cuts_line};
ghost use Rattle.hp_program.specs.Outcomes.{note_of};

use crate::outcome::Outcome;
use hp_cut::CutRefusal;
use hp_text::{Sink, write_whole};
use itoa::Buffer;

/// The words that the program takes to parse a page.
const USAGE: &[u8] =
    b"usage: hpar [--workers N] [--chunk N] [--cuts A,B,C] [--guess quiet|prescan|contrary] [--report] [--html] [--select TEXT]\n";

/// Writes a run's report, or the line of its refusal. Takes no memory. Where the notes fail they took a prefix of it.
pub(crate) fn write_note<N: Sink>(notes: &mut N, outcome: &Outcome)
    ensures { TakesUnlessFailed (note_of outcome.now) (record { before = N.taken notes.old; after = N.taken notes.new; faults = N.faults notes.old; faults_after = N.faults notes.new }) }
{
    match outcome {
        Outcome::Done { report } => write_text(notes, report.as_slice()),
        Outcome::Usage => write_text(notes, USAGE),
        Outcome::NotUtf8 { at } => write_number(notes, b"not UTF-8 at byte ", *at, b"\n"),
        Outcome::TooLarge => write_text(notes, b"page is larger than 16777216 bytes\n"),
        Outcome::ReadFault => write_text(notes, b"the page could not be read\n"),
        Outcome::WriteFault { taken } => write_number(
            notes,
            b"the tree could not be written after ",
            *taken,
            b" bytes\n",
        ),
        Outcome::NoMemory => write_text(notes, b"out of memory\n"),
        Outcome::BadCuts { refusal } => write_bad_cuts(notes, *refusal),
        Outcome::BadSelector => write_text(notes, b"selector is malformed\n"),
    }
}

/// Writes which of the listed places breaks a rule, and which rule.
fn write_bad_cuts<N: Sink>(notes: &mut N, refusal: CutRefusal)
    ensures { TakesUnlessFailed (bad_cuts_line refusal) (record { before = N.taken notes.old; after = N.taken notes.new; faults = N.faults notes.old; faults_after = N.faults notes.new }) }
{
    match refusal {
        CutRefusal::NotRising { index } => write_number(notes, b"cut ", index, b": not rising\n"),
        CutRefusal::PastEnd { index } => write_number(notes, b"cut ", index, b": past the end\n"),
        CutRefusal::NotABoundary { index } => {
            write_number(notes, b"cut ", index, b": inside a character\n")
        }
        CutRefusal::TooMany => write_text(notes, b"too many cuts\n"),
        CutRefusal::NoMemory => write_text(notes, b"out of memory\n"),
    }
}

/// Writes a number with what stands before and behind it. A failing write ends it.
fn write_number<N: Sink>(notes: &mut N, before: &[u8], number: u64, behind: &[u8])
    ensures { TakesUnlessFailed (before.now ++ (decimal number ++ behind.now)) (record { before = N.taken notes.old; after = N.taken notes.new; faults = N.faults notes.old; faults_after = N.faults notes.new }) }
{
    let mut buffer = Buffer::new();
    let digits = buffer.format(number).as_bytes();
    match write_whole(notes, before) {
        Ok(()) => write_pair(notes, digits, behind),
        Err(_) => {}
    }
}

/// Writes two texts, one behind the other. A failing write ends it.
fn write_pair<N: Sink>(notes: &mut N, first: &[u8], second: &[u8])
    ensures { TakesUnlessFailed (first.now ++ second.now) (record { before = N.taken notes.old; after = N.taken notes.new; faults = N.faults notes.old; faults_after = N.faults notes.new }) }
{
    match write_whole(notes, first) {
        Ok(()) => write_text(notes, second),
        Err(_) => {}
    }
}

/// Writes a text. A failing write ends it.
fn write_text<N: Sink>(notes: &mut N, text: &[u8])
    ensures { TakesUnlessFailed text.now (record { before = N.taken notes.old; after = N.taken notes.new; faults = N.faults notes.old; faults_after = N.faults notes.new }) }
{
    let _ = write_whole(notes, text);
}
