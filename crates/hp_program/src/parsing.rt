//! The tree of a page, and the report of its chunks.
ghost use Rattle.std.specs.Prelude.{◌≡◌, ◌≢◌, ◌≤◌, None, Some, length, IfErr, IfOk};
ghost use Rattle.std.specs.Str.{chars};
ghost use Rattle.hp_cut.specs.Places.{IsOf};
ghost use Rattle.hp_text.specs.Page.{text_of};
ghost use Rattle.hp_words.specs.Within.{IsBetween, IsCuttingWithin};
ghost use Rattle.hp_program.specs.Answers.{IsPageTree};
ghost use Rattle.hp_program.specs.Reports.{IsReport, IsReportTextIf, cutting_of, refusal_of};

use crate::modes::leave_tree;
use hp_arena::Tree;
use hp_board::Entry;
use hp_cut::{CutRefusal, Cuts, cuts_at_tags, cuts_listed};
use hp_fragment::parse_whole;
use hp_report::report;
use hp_text::{NoMemory, PAGE_LIMIT, Page};
use hp_words::{CutSetting, PageSetting};
use hp_workers::{Gate, parse_page};
use std::alloc::Global;
use std::sync::Wait;
use std::thread::Threads;

/// The cuts of a page as the words say, or why it can't be cut so.
pub(crate) fn cuts_for(
    alloc: Global,
    page: Page<'_>,
    cutting: &CutSetting,
) -> Result<Cuts, CutRefusal>
    requires within { IsCuttingWithin cutting.now }
    ensures cuts { IfOk result (λ cuts. cuts ≡ cutting_of cutting.now (text_of page.entry)) }
    ensures accepted { IfOk result (λ _. refusal_of cutting.now (text_of page.entry) ≡ None) }
    ensures refused { IfErr result (λ cause. cause ≢ CutRefusal.NoMemory → refusal_of cutting.now (text_of page.entry) ≡ Some cause) }
    ensures of_page { IfOk result (λ cuts. IsOf (text_of page.entry) cuts) }
{
    match cutting {
        CutSetting::AtTags { size } => match cuts_at_tags(alloc, page, *size) {
            Ok(cuts) => Ok(cuts),
            Err(_) => Err(CutRefusal::NoMemory),
        },
        CutSetting::Listed { places } => cuts_listed(alloc, page, places.as_slice()),
    }
}

/// The tree of the page: the one that the standard's sequential parser builds (13.2, scripting disabled), with the 365 reference
/// names of hp_names; and the report, where one is asked for. A page of one chunk of which no report is asked for is parsed in one
/// piece, on this thread; else so many threads as are asked for work at the chunks, or as many as there are chunks, and a worker
/// passes the gate before it guesses one. `Err` is want of memory.
pub(crate) fn parse<'p, R: Threads + Wait + Sync, G: Gate + Sync>(
    rt: &R,
    alloc: Global,
    page: Page<'p>,
    cuts: &Cuts,
    asked: &PageSetting,
    gate: &G,
) -> Result<(Tree<'p>, Vec<u8>), NoMemory>
    requires limit { length (text_of page) ≤ PAGE_LIMIT }
    requires cuts_of_page { IsOf (text_of page) cuts.now }
    requires as_asked { cuts.now ≡ cutting_of asked.now.cutting (text_of page) }
    requires workers { IsBetween 1 64 asked.now.workers }
    ensures tree { IfOk result (λ parsed. IsPageTree (chars (text_of page.entry)) parsed.0.branches) }
    ensures report { IfOk result (λ parsed. IsReport asked.now (text_of page.entry) parsed.1.items) }
{
    if cuts.chunks() == 1 && !asked.report {
        let tree = parse_whole(alloc, page)?;
        return Ok((tree, Vec::new(alloc)));
    }
    let (tree, journal) = parse_page(rt, alloc, page, cuts, asked.guess, asked.workers, gate)?;
    match report_if(alloc, asked.report, cuts, journal.as_slice()) {
        Ok(report) => Ok((tree, report)),
        Err(_) => {
            leave_tree(tree);
            Err(NoMemory)
        }
    }
}

/// The report of a journal where it is asked for, or else nothing.
fn report_if(
    alloc: Global,
    asked: bool,
    cuts: &Cuts,
    journal: &[Entry],
) -> Result<Vec<u8>, NoMemory>
    ensures { IfOk result (λ text. IsReportTextIf asked cuts.now journal.now text.items) }
{
    if asked {
        report(alloc, cuts, journal)
    } else {
        Ok(Vec::new(alloc))
    }
}
