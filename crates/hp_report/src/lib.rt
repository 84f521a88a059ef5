//! The report of a page: what became of each of its chunks, in lines of text, by the journal of its board.
#![tactic(auto)]

ghost use Rattle.std.specs.Prelude.{◌≡◌, ◌++◌, IfOk, OnOk};
ghost use Rattle.hp_report.specs.Examples.{ByExample};
ghost use Rattle.hp_report.specs.Report.{chunk_count, counts_line, report_of};

mod lines;
#[cfg(test)]
mod tests;
mod verdict;

use hp_board::Entry;
use hp_cut::Cuts;
pub use hp_text::NoMemory;
use lines::{append_counts_line, append_lines};
use std::alloc::Global;
use verdict::verdicts;

/// The report of a page that is cut so, by its journal: a line for each chunk with its length in bytes and what the first judgement
/// says of it, and last the line of counts. `Err` is want of memory.
pub fn report(alloc: Global, cuts: &Cuts, journal: &[Entry]) -> Result<Vec<u8>, NoMemory>
    ensures { IfOk result (λ text. text.items ≡ report_of cuts.now journal.now) }
{
    let verdicts = verdicts(alloc, cuts.chunks(), journal)?;
    let mut text = Vec::new(alloc);
    append_lines(alloc, &mut text, cuts, verdicts.as_slice())?;
    append_counts_line(alloc, &mut text, "total: ", verdicts.as_slice())?;
    Ok(text)
}

/// Appends the report's line of counts behind a label of its own. `Err` is want of memory, where the text may have a part of it.
pub fn append_counts(
    alloc: Global,
    text: &mut Vec<u8>,
    label: &str,
    cuts: &Cuts,
    journal: &[Entry],
) -> Result<(), NoMemory>
    ensures { OnOk result (text.new.items ≡ text.old.items ++ counts_line label.now (chunk_count cuts.now) journal.now) }
{
    let verdicts = verdicts(alloc, cuts.chunks(), journal)?;
    append_counts_line(alloc, text, label, verdicts.as_slice())
}

/// The reports of short journals are these.
pub fn reports_by_example()
    ensures { ByExample }
{}
