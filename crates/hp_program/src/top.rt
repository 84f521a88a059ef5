//! The top call.
ghost use Rattle.std.specs.Prelude.{◌≡◌, ◌≢◌, ◌≤◌, length, IfSome, None, Some};
ghost use Rattle.hp_cut.specs.Places.{IsOf};
ghost use Rattle.hp_text.specs.Page.{text_of};
ghost use Rattle.hp_words.specs.Settings.{settings};
ghost use Rattle.hp_words.specs.Within.{IsBetween, IsPageWithin, IsWithin};
ghost use Rattle.hp_program.specs.Answers.{IsAnswer, IsBytesAnswer, IsTextAnswer};
ghost use Rattle.hp_program.specs.Forms.{form_of};
ghost use Rattle.hp_program.specs.Outcomes.{note_of, status_of, unread_as};
ghost use Rattle.hp_program.specs.Reports.{cutting_of, refusal_of};
ghost use Rattle.hp_program.specs.Runs.{IsAnswerTo, IsExactRun, IsFormAnswer, IsRun, IsWithoutPage};

use crate::form::{Form, read_form};
use crate::modes::{Drilling, drill, make};
use crate::notes::write_note;
use crate::outcome::Outcome;
use crate::output::put_tree;
use crate::parsing::{cuts_for, parse};
use crate::status::Status;
use hp_cut::{CutRefusal, Cuts};
use hp_select::SelectRefusal;
use hp_text::{PAGE_LIMIT, Page, ReadRefusal, Sink, Source, check_page, read_page};
use hp_words::{PageSetting, Setting, Words, read_setting};
use hp_workers::Gate;
use std::alloc::Global;
use std::sync::Wait;
use std::thread::Threads;

/// How a run ends whose page was not read.
fn unread(refusal: ReadRefusal) -> Outcome
    ensures { result ≡ unread_as refusal }
{
    match refusal {
        ReadRefusal::Fault => Outcome::ReadFault,
        ReadRefusal::TooLarge => Outcome::TooLarge,
        ReadRefusal::NoMemory => Outcome::NoMemory,
    }
}

/// Writes the tree of a page that is cut so to `out`.
fn put_cut<R: Threads + Wait + Sync, K: Sink, G: Gate + Sync>(
    rt: &R,
    alloc: Global,
    page: Page<'_>,
    cuts: &Cuts,
    asked: &PageSetting,
    form: &Form,
    out: &mut K,
    gate: &G,
) -> Outcome
    requires limit { length (text_of page) ≤ PAGE_LIMIT }
    requires cuts_of_page { IsOf (text_of page) cuts.now }
    requires as_asked { cuts.now ≡ cutting_of asked.now.cutting (text_of page) }
    requires accepted { refusal_of asked.now.cutting (text_of page) ≡ None }
    requires workers { IsBetween 1 64 asked.now.workers }
    ensures answer { IsTextAnswer asked.now form.now (text_of page.entry) (record { before = K.taken out.old; after = K.taken out.new; faults = K.faults out.old; faults_after = K.faults out.new }) (note_of result) (status_of result) }
    ensures nothing { status_of result ≢ Status.Done → status_of result ≢ Status.WriteFault → out.new ≡ out.old }
{
    match parse(rt, alloc, page, cuts, asked, gate) {
        Ok((tree, report)) => put_tree(rt, alloc, tree, report, asked.workers, form, out),
        Err(_) => Outcome::NoMemory,
    }
}

/// Writes the tree of a page's text to `out`, where it can be cut as is asked.
fn put_text<R: Threads + Wait + Sync, K: Sink, G: Gate + Sync>(
    rt: &R,
    alloc: Global,
    page: Page<'_>,
    asked: &PageSetting,
    form: &Form,
    out: &mut K,
    gate: &G,
) -> Outcome
    requires limit { length (text_of page) ≤ PAGE_LIMIT }
    requires within { IsPageWithin asked.now }
    ensures answer { IsTextAnswer asked.now form.now (text_of page.entry) (record { before = K.taken out.old; after = K.taken out.new; faults = K.faults out.old; faults_after = K.faults out.new }) (note_of result) (status_of result) }
    ensures nothing { status_of result ≢ Status.Done → status_of result ≢ Status.WriteFault → out.new ≡ out.old }
{
    match cuts_for(alloc, page, &asked.cutting) {
        Ok(cuts) => put_cut(rt, alloc, page, &cuts, asked, form, out, gate),
        Err(CutRefusal::NoMemory) => Outcome::NoMemory,
        Err(refusal) => Outcome::BadCuts { refusal },
    }
}

/// Writes the tree of the page of these bytes to `out`.
fn put_bytes<R: Threads + Wait + Sync, K: Sink, G: Gate + Sync>(
    rt: &R,
    alloc: Global,
    bytes: &[u8],
    asked: &PageSetting,
    form: &Form,
    out: &mut K,
    gate: &G,
) -> Outcome
    requires limit { length bytes.now ≤ PAGE_LIMIT }
    requires within { IsPageWithin asked.now }
    ensures answer { IsBytesAnswer asked.now form.now bytes.now (record { before = K.taken out.old; after = K.taken out.new; faults = K.faults out.old; faults_after = K.faults out.new }) (note_of result) (status_of result) }
    ensures nothing { status_of result ≢ Status.Done → status_of result ≢ Status.WriteFault → out.new ≡ out.old }
{
    match check_page(bytes) {
        Ok(page) => put_text(rt, alloc, page, asked, form, out, gate),
        Err(fault) => Outcome::NotUtf8 { at: fault.at },
    }
}

/// Reads the page, and writes its tree to `out`. The first refusal decides, in the order reading, UTF-8, cuts, parsing, writing.
fn put_page<R: Threads + Wait + Sync, S: Source, K: Sink, G: Gate + Sync>(
    rt: &R,
    alloc: Global,
    asked: &PageSetting,
    form: &Form,
    page: &mut S,
    out: &mut K,
    gate: &G,
) -> Outcome
    requires within { IsPageWithin asked.now }
    ensures answer { IsAnswer asked.now form.now (record { before = S.left page.old; after = S.left page.new; faults = S.faults page.old; faults_after = S.faults page.new }) (record { before = K.taken out.old; after = K.taken out.new; faults = K.faults out.old; faults_after = K.faults out.new }) (note_of result) (status_of result) }
    ensures nothing { status_of result ≢ Status.Done → status_of result ≢ Status.WriteFault → out.new ≡ out.old }
{
    match read_page(alloc, page) {
        Ok(bytes) => put_bytes(rt, alloc, bytes.as_slice(), asked, form, out, gate),
        Err(refusal) => unread(refusal),
    }
}

/// Reads the selector, if one is asked for, and then the page, and writes its tree to `out`.
fn put_asked<R: Threads + Wait + Sync, S: Source, K: Sink, G: Gate + Sync>(
    rt: &R,
    alloc: Global,
    asked: &PageSetting,
    page: &mut S,
    out: &mut K,
    gate: &G,
) -> Outcome
    requires within { IsPageWithin asked.now }
    ensures answer { IsFormAnswer (form_of asked.now.form) asked.now (record { before = S.left page.old; after = S.left page.new; faults = S.faults page.old; faults_after = S.faults page.new }) (record { before = K.taken out.old; after = K.taken out.new; faults = K.faults out.old; faults_after = K.faults out.new }) (note_of result) (status_of result) }
    ensures unread { form_of asked.now.form ≡ None → page.new ≡ page.old }
    ensures nothing { status_of result ≢ Status.Done → status_of result ≢ Status.WriteFault → out.new ≡ out.old }
{
    match read_form(alloc, &asked.form) {
        Ok(form) => put_page(rt, alloc, asked, &form, page, out, gate),
        Err(SelectRefusal::Malformed) => Outcome::BadSelector,
        Err(SelectRefusal::NoMemory) => Outcome::NoMemory,
    }
}

/// Does what is asked for.
fn put<R: Threads + Wait + Sync, S: Source, K: Sink, G: Gate + Sync>(
    rt: &R,
    alloc: Global,
    asked: &Setting,
    page: &mut S,
    out: &mut K,
    gate: &G,
) -> Outcome
    requires within { IsWithin asked.now }
    ensures answer { IsAnswerTo (Some asked.now) (record { before = S.left page.old; after = S.left page.new; faults = S.faults page.old; faults_after = S.faults page.new }) (record { before = K.taken out.old; after = K.taken out.new; faults = K.faults out.old; faults_after = K.faults out.new }) (note_of result) (status_of result) }
    ensures unread { IsWithoutPage (Some asked.now) → page.new ≡ page.old }
    ensures nothing { status_of result ≢ Status.Done → status_of result ≢ Status.WriteFault → out.new ≡ out.old }
{
    match asked {
        Setting::Page(asked) => put_asked(rt, alloc, asked, page, out, gate),
        Setting::Make { seed, bytes } => make(alloc, *seed, *bytes, out),
        Setting::Drill {
            seed,
            bytes,
            workers,
            chunk,
        } => {
            let asked = Drilling {
                seed: *seed,
                bytes: *bytes,
                workers: *workers,
                chunk: *chunk,
            };
            drill(rt, alloc, asked, out, gate)
        }
    }
}

/// Does what is asked for, if anything is.
fn put_if<R: Threads + Wait + Sync, S: Source, K: Sink, G: Gate + Sync>(
    rt: &R,
    alloc: Global,
    asked: &Option<Setting>,
    page: &mut S,
    out: &mut K,
    gate: &G,
) -> Outcome
    requires within { IfSome asked.now IsWithin }
    ensures answer { IsAnswerTo asked.now (record { before = S.left page.old; after = S.left page.new; faults = S.faults page.old; faults_after = S.faults page.new }) (record { before = K.taken out.old; after = K.taken out.new; faults = K.faults out.old; faults_after = K.faults out.new }) (note_of result) (status_of result) }
    ensures unread { IsWithoutPage asked.now → page.new ≡ page.old }
    ensures nothing { status_of result ≢ Status.Done → status_of result ≢ Status.WriteFault → out.new ≡ out.old }
{
    match asked {
        Some(asked) => put(rt, alloc, asked, page, out, gate),
        None => Outcome::Usage,
    }
}

/// Does what the words ask for.
fn put_for<R: Threads + Wait + Sync, S: Source, K: Sink, G: Gate + Sync>(
    rt: &R,
    alloc: Global,
    words: &Words,
    page: &mut S,
    out: &mut K,
    gate: &G,
) -> Outcome
    ensures answer { IsAnswerTo (settings words.now) (record { before = S.left page.old; after = S.left page.new; faults = S.faults page.old; faults_after = S.faults page.new }) (record { before = K.taken out.old; after = K.taken out.new; faults = K.faults out.old; faults_after = K.faults out.new }) (note_of result) (status_of result) }
    ensures unread { IsWithoutPage (settings words.now) → page.new ≡ page.old }
    ensures nothing { status_of result ≢ Status.Done → status_of result ≢ Status.WriteFault → out.new ≡ out.old }
{
    match read_setting(alloc, words) {
        Ok(asked) => put_if(rt, alloc, &asked, page, out, gate),
        Err(_) => Outcome::NoMemory,
    }
}

/// Does what the words ask for: without a mode it reads the page and writes its tree to `out`, printed or as HTML, or of its elements those
/// that a selector matches. The first refusal decides, in the order words, selector, reading, UTF-8, cuts, parsing, writing; want of memory may come at any of them. The run's report, or the line of its
/// refusal, goes to `notes`; where they fail, nothing else changes. A worker passes the gate before it guesses a chunk.
///
/// It promises this where it returns: by its bound `Wait` it owes no return.
pub fn hpar<R: Threads + Wait + Sync, S: Source, K: Sink, N: Sink, G: Gate + Sync>(
    rt: &R,
    alloc: Global,
    words: &Words,
    page: &mut S,
    out: &mut K,
    notes: &mut N,
    gate: &G,
) -> Status
    // What the status tells: of the words, of the page where it is told, of what `out` took, and of what the notes say.
    ensures run { IsRun words.now
        (record { before = S.left page.old; after = S.left page.new; faults = S.faults page.old; faults_after = S.faults page.new })
        (record { before = K.taken out.old; after = K.taken out.new; faults = K.faults out.old; faults_after = K.faults out.new })
        (record { before = N.taken notes.old; after = N.taken notes.new; faults = N.faults notes.old; faults_after = N.faults notes.new }) result }

    // Each status comes exactly under its cause.
    ensures exact { IsExactRun words.now
        (record { before = S.left page.old; after = S.left page.new; faults = S.faults page.old; faults_after = S.faults page.new })
        (record { before = K.taken out.old; after = K.taken out.new; faults = K.faults out.old; faults_after = K.faults out.new }) result }

    // Where no page is called for, and where the selector is none, nothing is read, and a refusal writes nothing.
    ensures unread { IsWithoutPage (settings words.now) → page.new ≡ page.old }
    ensures nothing { result ≢ Status.Done → result ≢ Status.WriteFault → out.new ≡ out.old }
{
    let outcome = put_for(rt, alloc, words, page, out, gate);
    write_note(notes, &outcome);
    outcome.status()
}
