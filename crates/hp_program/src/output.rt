//! Writing the tree of a page.
ghost use Rattle.std.specs.Prelude.{◌≡◌, ◌≢◌, Err, OnOk};
ghost use Rattle.std.specs.Io.KnownBytes.{append_known};
ghost use Rattle.hp_text.specs.Device.{Rose};
ghost use Rattle.hp_print.specs.Faults.{OnFault};
ghost use Rattle.hp_print.specs.Out.{TakesFirst};
ghost use Rattle.hp_program.specs.Forms.{tree_text};
ghost use Rattle.hp_program.specs.Outcomes.{IsTextOutcome, ended_as, status_of};

use crate::form::Form;
use crate::outcome::Outcome;
use crate::status::Status;
use hp_arena::Tree;
use hp_print::{Refusal, write_elements, write_tree_by};
use hp_select::{Selector, select};
use hp_serial::html_text;
use hp_text::{Sink, write_whole};
use std::alloc::Global;
use std::mem;
use std::thread::Threads;

/// Writes a tree to `out` in this form, printed by as many threads as there are workers. The report is for the notes.
pub(crate) fn put_tree<R: Threads + Sync, K: Sink>(
    rt: &R,
    alloc: Global,
    tree: Tree<'_>,
    report: Vec<u8>,
    workers: u32,
    form: &Form,
    out: &mut K,
) -> Outcome
    ensures written { IsTextOutcome (tree_text form.now tree.entry.branches) report.items (record { before = K.taken out.old; after = K.taken out.new; faults = K.faults out.old; faults_after = K.faults out.new }) result }
    ensures nothing { status_of result ≢ Status.Done → status_of result ≢ Status.WriteFault → out.new ≡ out.old }
{
    match form {
        Form::PrintedTree => put_printed(rt, alloc, tree, report, workers, out),
        Form::HtmlText => put_html(alloc, tree, report, out),
        Form::Elements(selector) => put_elements(alloc, tree, report, selector, out),
    }
}

/// Writes a tree to `out` in the printed form, by as many threads as there are workers.
fn put_printed<R: Threads + Sync, K: Sink>(
    rt: &R,
    alloc: Global,
    tree: Tree<'_>,
    report: Vec<u8>,
    workers: u32,
    out: &mut K,
) -> Outcome
    ensures written { IsTextOutcome (tree_text Form.PrintedTree tree.entry.branches) report.items (record { before = K.taken out.old; after = K.taken out.new; faults = K.faults out.old; faults_after = K.faults out.new }) result }
    ensures nothing { status_of result ≢ Status.Done → status_of result ≢ Status.WriteFault → out.new ≡ out.old }
{
    let written = write_tree_by(rt, alloc, &tree, out, workers);
    // The process ends once the text is written, and its memory goes back whole: nothing is given back piece by piece.
    mem::forget(tree);
    ended(written, report)
}

/// Writes the elements of a tree that a selector matches to `out`, each with its attributes.
fn put_elements<K: Sink>(
    alloc: Global,
    tree: Tree<'_>,
    report: Vec<u8>,
    selector: &Selector,
    out: &mut K,
) -> Outcome
    ensures written { IsTextOutcome (tree_text (Form.Elements selector.now) tree.entry.branches) report.items (record { before = K.taken out.old; after = K.taken out.new; faults = K.faults out.old; faults_after = K.faults out.new }) result }
    ensures nothing { status_of result ≢ Status.Done → status_of result ≢ Status.WriteFault → out.new ≡ out.old }
{
    let written = write_selected(alloc, &tree, selector, out);
    // As in `put_printed` nothing is given back piece by piece.
    mem::forget(tree);
    ended(written, report)
}

/// Writes the elements that a selector matches.
fn write_selected<K: Sink>(
    alloc: Global,
    tree: &Tree<'_>,
    selector: &Selector,
    out: &mut K,
) -> Result<(), Refusal>
    ensures whole { OnOk result (K.taken out.new ≡ append_known (K.taken out.old) (tree_text (Form.Elements selector.now) tree.now.branches)) }
    ensures part { OnFault result (λ taken. TakesFirst taken (tree_text (Form.Elements selector.now) tree.now.branches) (K.taken out.old) (K.taken out.new)) }
    ensures failed { OnFault result (λ _. Rose (K.faults out.old) (K.faults out.new)) }
    ensures nothing { result ≡ Err Refusal.NoMemory → out.new ≡ out.old }
{
    match select(alloc, tree, selector) {
        Ok(found) => write_elements(alloc, tree, found.as_slice(), out),
        Err(_) => Err(Refusal::NoMemory),
    }
}

/// How a run ends whose output was written so.
fn ended(written: Result<(), Refusal>, report: Vec<u8>) -> Outcome
    ensures { result ≡ ended_as written report }
{
    match written {
        Ok(()) => Outcome::Done { report },
        Err(Refusal::Fault { taken }) => Outcome::WriteFault { taken },
        Err(Refusal::NoMemory) => Outcome::NoMemory,
    }
}

/// Writes a tree to `out` as HTML.
fn put_html<K: Sink>(alloc: Global, tree: Tree<'_>, report: Vec<u8>, out: &mut K) -> Outcome
    ensures written { IsTextOutcome (tree_text Form.HtmlText tree.entry.branches) report.items (record { before = K.taken out.old; after = K.taken out.new; faults = K.faults out.old; faults_after = K.faults out.new }) result }
    ensures nothing { status_of result ≢ Status.Done → status_of result ≢ Status.WriteFault → out.new ≡ out.old }
{
    let html = html_text(alloc, &tree);
    // As in `put_printed` nothing is given back piece by piece.
    mem::forget(tree);
    match html {
        Ok(html) => put_text(html.as_slice(), report, out),
        Err(_) => Outcome::NoMemory,
    }
}

/// Writes a text to `out`.
fn put_text<K: Sink>(text: &[u8], report: Vec<u8>, out: &mut K) -> Outcome
    ensures written { IsTextOutcome text.now report.items (record { before = K.taken out.old; after = K.taken out.new; faults = K.faults out.old; faults_after = K.faults out.new }) result }
    ensures nothing { status_of result ≢ Status.Done → status_of result ≢ Status.WriteFault → out.new ≡ out.old }
{
    match write_whole(out, text) {
        Ok(()) => Outcome::Done { report },
        Err(fault) => Outcome::WriteFault { taken: fault.taken },
    }
}
