//! The modes, which read no page: the page of a seed, and the drill with it.
ghost use Rattle.std.specs.Prelude.{◌≡◌, ◌≢◌, ◌≤◌, ◌++◌, ◌^◌, codes, decimal, length, IfOk, OnOk, List, ℕ};
ghost use Rattle.hp_cut.specs.Places.{IsOf};
ghost use Rattle.hp_make.specs.Pages.{page_of};
ghost use Rattle.hp_text.specs.Page.{text_of};
ghost use Rattle.hp_words.specs.Within.{IsDrillWithin};
ghost use Rattle.std.specs.Str.{chars};
ghost use Rattle.hp_control.specs.Tree.{Tree as Branches};
ghost use Rattle.hp_print.specs.Print.{print};
ghost use Rattle.hp_program.specs.Answers.{IsPageTree};
ghost use Rattle.hp_program.specs.Modes.{AreDrillLines, AreSizes, IsDivided, IsDrill, IsDrillLine, IsDrillOf, IsModeAnswer, length_line};
ghost use Rattle.hp_program.specs.Outcomes.{note_of, status_of};

use crate::outcome::Outcome;
use crate::status::Status;
use hp_arena::Tree;
use hp_cut::{Cuts, cuts_at_tags, cuts_by_size};
use hp_fragment::parse_whole;
use hp_make::make_page;
use hp_predict::GuessKind;
use hp_print::print_tree;
use hp_report::append_counts;
use hp_text::{NoMemory, PAGE_LIMIT, Page, Sink, check_page, write_whole};
use hp_workers::{Gate, parse_page};
use itoa::Buffer;
use std::alloc::Global;
use std::sync::Wait;
use std::thread::Threads;

/// What the drill is asked for: the page of this seed with so many bytes, parsed by so many threads in chunks of so many bytes.
#[derive(Clone, Copy)]
pub(crate) struct Drilling {
    pub(crate) seed: u64,
    pub(crate) bytes: u32,
    pub(crate) workers: u32,
    pub(crate) chunk: u32,
}

/// Writes a text to `out`.
fn put_bytes<K: Sink>(alloc: Global, text: &[u8], out: &mut K) -> Outcome
    ensures answer { IsModeAnswer (λ output. output ≡ text.now) (record { before = K.taken out.old; after = K.taken out.new; faults = K.faults out.old; faults_after = K.faults out.new }) (note_of result) (status_of result) }
    ensures nothing { status_of result ≢ Status.Done → status_of result ≢ Status.WriteFault → out.new ≡ out.old }
{
    match write_whole(out, text) {
        Ok(()) => Outcome::Done {
            report: Vec::new(alloc),
        },
        Err(fault) => Outcome::WriteFault { taken: fault.taken },
    }
}

/// Writes the page of a seed, of so many bytes, to `out`.
pub(crate) fn make<K: Sink>(alloc: Global, seed: u64, bytes: u32, out: &mut K) -> Outcome
    ensures answer { IsModeAnswer (λ output. output ≡ page_of seed bytes) (record { before = K.taken out.old; after = K.taken out.new; faults = K.faults out.old; faults_after = K.faults out.new }) (note_of result) (status_of result) }
    ensures nothing { status_of result ≢ Status.Done → status_of result ≢ Status.WriteFault → out.new ≡ out.old }
{
    match make_page(alloc, seed, bytes) {
        Ok(page) => put_bytes(alloc, page.as_slice(), out),
        Err(_) => Outcome::NoMemory,
    }
}

/// Parses the page of a seed with both cutters and the three predictors, and writes its length, the length of its printed tree, and the
/// counts of each parse to `out`. It promises this where it returns.
pub(crate) fn drill<R: Threads + Wait + Sync, K: Sink, G: Gate + Sync>(
    rt: &R,
    alloc: Global,
    asked: Drilling,
    out: &mut K,
    gate: &G,
) -> Outcome
    requires within { IsDrillWithin asked.bytes asked.workers asked.chunk }
    ensures answer { IsModeAnswer (IsDrill asked.seed asked.bytes asked.workers asked.chunk) (record { before = K.taken out.old; after = K.taken out.new; faults = K.faults out.old; faults_after = K.faults out.new }) (note_of result) (status_of result) }
    ensures nothing { status_of result ≢ Status.Done → status_of result ≢ Status.WriteFault → out.new ≡ out.old }
{
    match drill_seed(rt, alloc, asked, gate) {
        Ok(text) => put_bytes(alloc, text.as_slice(), out),
        Err(_) => Outcome::NoMemory,
    }
}

/// What the drill with the page of a seed writes.
fn drill_seed<R: Threads + Wait + Sync, G: Gate + Sync>(
    rt: &R,
    alloc: Global,
    asked: Drilling,
    gate: &G,
) -> Result<Vec<u8>, NoMemory>
    requires within { IsDrillWithin asked.bytes asked.workers asked.chunk }
    ensures { IfOk result (λ text. IsDrill asked.seed asked.bytes asked.workers asked.chunk text.items) }
{
    let bytes = make_page(alloc, asked.seed, asked.bytes)?;
    match check_page(bytes.as_slice()) {
        Ok(page) => drill_page(rt, alloc, page, asked, gate),
        Err(_) => unreachable!(),
    }
}

/// What the drill with this page writes.
fn drill_page<R: Threads + Wait + Sync, G: Gate + Sync>(
    rt: &R,
    alloc: Global,
    page: Page<'_>,
    asked: Drilling,
    gate: &G,
) -> Result<Vec<u8>, NoMemory>
    requires limit { length (text_of page) ≤ PAGE_LIMIT }
    requires within { IsDrillWithin asked.bytes asked.workers asked.chunk }
    ensures { IfOk result (λ text. IsDrillOf (text_of page.entry) asked.workers asked.chunk text.items) }
{
    let by_size = cuts_by_size(alloc, page, asked.chunk)?;
    let at_tags = cuts_at_tags(alloc, page, asked.chunk)?;
    let mut text = Vec::new(alloc);
    append_sizes(alloc, &mut text, page)?;
    let division = Division {
        page,
        cuts: &by_size,
        workers: asked.workers,
    };
    let labels = Labels {
        quiet: "size quiet: ",
        prescan: "size prescan: ",
        contrary: "size contrary: ",
    };
    append_lines(rt, alloc, &mut text, division, labels, gate)?;
    let division = Division {
        page,
        cuts: &at_tags,
        workers: asked.workers,
    };
    let labels = Labels {
        quiet: "tags quiet: ",
        prescan: "tags prescan: ",
        contrary: "tags contrary: ",
    };
    append_lines(rt, alloc, &mut text, division, labels, gate)?;
    Ok(text)
}

/// Appends the length of the page, and that of its printed tree.
fn append_sizes(alloc: Global, text: &mut Vec<u8>, page: Page<'_>) -> Result<(), NoMemory>
    requires limit { length (text_of page) ≤ PAGE_LIMIT }
    ensures { OnOk result ((lines : List ℕ) × AreSizes (text_of page.entry) lines × (text.new.items ≡ text.old.items ++ lines)) }
{
    let printed = printed_length(alloc, page)?;
    append_length(text, "page: ", page.text().len())?;
    append_length(text, "tree: ", printed)
}

/// Appends a length in bytes behind these words.
fn append_length(text: &mut Vec<u8>, label: &str, bytes: usize) -> Result<(), NoMemory>
    ensures { OnOk result (text.new.items ≡ text.old.items ++ length_line label.now bytes) }
{
    let mut buffer = Buffer::new();
    text.extend_from_slice(label.as_bytes())?;
    text.extend_from_slice(buffer.format(bytes).as_bytes())?;
    text.extend_from_slice(b" bytes\n")
}

/// The length of the printed tree of a page, in bytes.
fn printed_length(alloc: Global, page: Page<'_>) -> Result<usize, NoMemory>
    requires limit { length (text_of page) ≤ PAGE_LIMIT }
    ensures { IfOk result (λ printed. (tree : Branches) × IsPageTree (chars (text_of page.entry)) tree × (printed ≡ length (print tree))) }
{
    let tree = parse_whole(alloc, page)?;
    let printed = print_tree(alloc, &tree);
    leave_tree(tree);
    match printed {
        Ok(text) => Ok(text.len()),
        Err(_) => Err(NoMemory),
    }
}

/// A page, where it is cut, and how many threads work at its chunks.
#[derive(Clone, Copy)]
struct Division<'p, 'c> {
    page: Page<'p>,
    cuts: &'c Cuts,
    workers: u32,
}

/// What the lines of a cutter begin with.
#[derive(Clone, Copy)]
struct Labels {
    quiet: &'static str,
    prescan: &'static str,
    contrary: &'static str,
}

/// Appends a line for each predictor: the counts of the page parsed with these cuts.
fn append_lines<R: Threads + Wait + Sync, G: Gate + Sync>(
    rt: &R,
    alloc: Global,
    text: &mut Vec<u8>,
    division: Division<'_, '_>,
    labels: Labels,
    gate: &G,
) -> Result<(), NoMemory>
    requires { IsDivided division }
    ensures { OnOk result ((lines : List ℕ) × AreDrillLines (text_of division.entry.page) division.entry.cuts.now division.entry.workers labels.quiet.now labels.prescan.now labels.contrary.now lines × (text.new.items ≡ text.old.items ++ lines)) }
{
    append_line(
        rt,
        alloc,
        text,
        division,
        GuessKind::Quiet,
        labels.quiet,
        gate,
    )?;
    append_line(
        rt,
        alloc,
        text,
        division,
        GuessKind::Prescan,
        labels.prescan,
        gate,
    )?;
    append_line(
        rt,
        alloc,
        text,
        division,
        GuessKind::Contrary,
        labels.contrary,
        gate,
    )
}

/// Appends the counts of the page parsed with these cuts by a predictor of this kind, behind these words.
fn append_line<R: Threads + Wait + Sync, G: Gate + Sync>(
    rt: &R,
    alloc: Global,
    text: &mut Vec<u8>,
    division: Division<'_, '_>,
    kind: GuessKind,
    label: &str,
    gate: &G,
) -> Result<(), NoMemory>
    requires { IsDivided division }
    ensures { OnOk result ((line : List ℕ) × IsDrillLine (text_of division.entry.page) division.entry.cuts.now division.entry.workers kind label.now line × (text.new.items ≡ text.old.items ++ line)) }
{
    let Division {
        page,
        cuts,
        workers,
    } = division;
    let (tree, journal) = parse_page(rt, alloc, page, cuts, kind, workers, gate)?;
    leave_tree(tree);
    append_counts(alloc, text, label, cuts, journal.as_slice())
}

/// Gives back a tree.
pub(crate) fn leave_tree(tree: Tree<'_>) {
    let _ = tree;
}
