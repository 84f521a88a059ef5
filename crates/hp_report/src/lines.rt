//! The lines of a report.
ghost use Rattle.std.specs.Prelude.{◌≡◌, ◌+◌, ◌<◌, ◌++◌, length, slice_index, count_by, IfOk, OnOk, string_bytes};
ghost use Rattle.hp_cut.specs.Places.{AreLawful, ends};
ghost use Rattle.hp_report.specs.Report.{chunk_count, chunk_line, verdict_line, verdict_lines, counts_of, counts_text, is_kept, is_repaired, is_rolled_back, size_of};

use crate::NoMemory;
use crate::verdict::Verdict;
use hp_cut::Cuts;
use std::alloc::Global;

/// Appends the line of each chunk.
pub fn append_lines(
    alloc: Global,
    text: &mut Vec<u8>,
    cuts: &Cuts,
    verdicts: &[Verdict],
) -> Result<(), NoMemory>
    requires { length verdicts.now ≡ chunk_count cuts.now }
    ensures { OnOk result (text.new.items ≡ text.old.items ++ verdict_lines cuts.now verdicts.now) }
{
    for (chunk, verdict) in verdicts.iter().enumerate() {
        append_line(alloc, text, cuts, chunk, *verdict)?;
    }
    Ok(())
}

/// Appends the line of a chunk.
fn append_line(
    alloc: Global,
    text: &mut Vec<u8>,
    cuts: &Cuts,
    chunk: usize,
    verdict: Verdict,
) -> Result<(), NoMemory>
    requires { chunk < chunk_count cuts.now }
    ensures { OnOk result (text.new.items ≡ text.old.items ++ verdict_line cuts.now (chunk, verdict)) }
{
    let line = chunk_line(alloc, chunk, size_of(cuts, chunk), verdict)?;
    text.extend_from_slice(line.as_bytes())
}

/// The line of a chunk of so many bytes.
#[tactic(auto, unfolding(crate::specs::Report::chunk_line))]
fn chunk_line(alloc: Global, chunk: usize, size: u64, verdict: Verdict) -> Result<String, NoMemory>
    ensures { IfOk result (λ line. string_bytes line ≡ chunk_line chunk size verdict) }
{
    format!(in alloc; "chunk {chunk}: {size} bytes, {verdict}\n")
}

/// How many bytes a chunk has.
fn size_of(cuts: &Cuts, chunk: usize) -> u64
    requires { chunk < chunk_count cuts.now }
    ensures { result ≡ size_of cuts.now chunk }
{
    let from = place_at(cuts, chunk);
    let to = place_at(cuts, chunk + 1);
    to - from
}

/// Where the chunk of this number begins, or where the last one ends.
fn place_at(cuts: &Cuts, index: usize) -> u64
    requires { index < chunk_count cuts.now + 1 }
    ensures place { result ≡ slice_index (ends cuts.now) index }
    ensures lawful { AreLawful cuts.now.places cuts.now.text_length }
{
    let places = cuts.places();
    if index == 0 {
        0
    } else if index <= places.len() {
        places[index - 1]
    } else {
        cuts.text_length()
    }
}

/// What became of how many chunks.
#[derive(Clone, Copy)]
struct Counts {
    kept: usize,
    repaired: usize,
    rolled_back: usize,
}

/// Appends the line of counts, behind a label.
pub fn append_counts_line(
    alloc: Global,
    text: &mut Vec<u8>,
    label: &str,
    verdicts: &[Verdict],
) -> Result<(), NoMemory>
    ensures { OnOk result (text.new.items ≡ text.old.items ++ label.now ++ counts_of verdicts.now) }
{
    let line = counts_line(alloc, verdicts.len(), count_all(verdicts))?;
    text.extend_from_slice(label.as_bytes())?;
    text.extend_from_slice(line.as_bytes())
}

/// The line of counts without its label.
#[tactic(auto, unfolding(crate::specs::Report::counts_text))]
fn counts_line(alloc: Global, chunks: usize, counts: Counts) -> Result<String, NoMemory>
    ensures { IfOk result (λ line. string_bytes line ≡ counts_text chunks counts.kept counts.repaired counts.rolled_back) }
{
    let Counts {
        kept,
        repaired,
        rolled_back,
    } = counts;
    format!(in alloc;
        "{chunks} chunks, 1 exact, {kept} kept, {repaired} repaired, {rolled_back} rolled back\n"
    )
}

/// Counts the verdicts.
fn count_all(verdicts: &[Verdict]) -> Counts
    ensures kept { result.kept ≡ count_by is_kept verdicts.now }
    ensures repaired { result.repaired ≡ count_by is_repaired verdicts.now }
    ensures rolled_back { result.rolled_back ≡ count_by is_rolled_back verdicts.now }
{
    let mut counts = Counts {
        kept: 0,
        repaired: 0,
        rolled_back: 0,
    };
    for verdict in verdicts.iter() {
        match verdict {
            Verdict::Kept => counts.kept += 1,
            Verdict::Repaired { .. } => counts.repaired += 1,
            Verdict::RolledBack { .. } => counts.rolled_back += 1,
            Verdict::Exact | Verdict::NotJudged => {}
        }
    }
    counts
}
