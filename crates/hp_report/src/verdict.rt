//! What became of the chunks of a page.
ghost use Rattle.std.specs.Prelude.{◌≡◌, ◌<◌, Some, IfOk, length, replicate, slice_set};
ghost use Rattle.hp_report.specs.Noting.{first_said, noted};
ghost use Rattle.hp_report.specs.Report.{kind_name as spec_kind_name, verdict_text, verdicts_of};

use crate::NoMemory;
use hp_board::{BoardStep, Entry, QuestionKind};
use std::alloc::Global;
use std::fmt;

/// What became of a chunk.
#[derive(Clone, Copy)]
pub enum Verdict {
    /// It is the first, and the state before it is known.
    Exact,
    /// Its guess was kept whole.
    Kept,
    /// Its guess was kept up to this place, in bytes from the chunk's start.
    Repaired { at: u64 },
    /// Its guess was wrong in the answer to a question of this kind.
    RolledBack { kind: QuestionKind },
    /// None of its guesses was judged.
    NotJudged,
}

impl fmt::Display for Verdict {
    ghost output = { λ verdict. Some (verdict_text verdict) };

    fn fmt<W: fmt::Write>(&self, f: &mut fmt::Formatter<W>) -> fmt::Result {
        match self {
            Verdict::Exact => write!(f, "exact"),
            Verdict::Kept => write!(f, "kept"),
            Verdict::Repaired { at } => write!(f, "repaired at {at}"),
            Verdict::RolledBack { kind } => write!(f, "rolled back on {}", kind_name(*kind)),
            Verdict::NotJudged => write!(f, "not judged"),
        }
    }
}

/// The name of a kind of question.
fn kind_name(kind: QuestionKind) -> &'static str
    ensures { result.now ≡ spec_kind_name kind }
{
    match kind {
        QuestionKind::Entry => "Entry",
        QuestionKind::Elem => "Elem",
        QuestionKind::Seen => "Seen",
        QuestionKind::Reach => "Reach",
        QuestionKind::RunOf => "RunOf",
        QuestionKind::HasTemplate => "HasTemplate",
        QuestionKind::ResetFrom => "ResetFrom",
        QuestionKind::Quiet => "Quiet",
        QuestionKind::Listed => "Listed",
        QuestionKind::Same => "Same",
        QuestionKind::Pointer => "Pointer",
        QuestionKind::Fact => "Fact",
        QuestionKind::Whole => "Whole",
    }
}

/// What became of so many chunks, in order: the first is exact, and each other is what the first judgement of it says.
pub fn verdicts(alloc: Global, count: u32, journal: &[Entry]) -> Result<Vec<Verdict>, NoMemory>
    requires { 0 < count }
    ensures { IfOk result (λ verdicts. verdicts.items ≡ verdicts_of count journal.now) }
{
    let mut verdicts = Vec::from_elem(alloc, Verdict::NotJudged, count as usize)?;
    note_all(verdicts.as_mut_slice(), journal);
    Ok(verdicts)
}

/// Puts down what became of each chunk.
fn note_all(verdicts: &mut [Verdict], journal: &[Entry])
    requires some { 0 < length verdicts.old }
    requires blank { verdicts.old ≡ replicate (length verdicts.old) Verdict.NotJudged }
    ensures { verdicts.new ≡ verdicts_of (length verdicts.old) journal.now }
{
    note_judgements(verdicts, journal);
    verdicts[0] = Verdict::Exact;
}

/// Puts down what the first judgement of each chunk says. The entries are read from the last one on, so that it is put down last, and
/// stays.
fn note_judgements(verdicts: &mut [Verdict], journal: &[Entry])
    requires { verdicts.old ≡ replicate (length verdicts.old) Verdict.NotJudged }
    ensures { verdicts.new ≡ first_said (length verdicts.old) journal.now }
{
    for entry in journal.iter().rev() {
        note(verdicts, entry.step);
    }
}

/// Puts down what a step says of the chunk that it judges, if it judges one.
fn note(verdicts: &mut [Verdict], step: BoardStep)
    ensures { verdicts.new ≡ noted verdicts.old step }
{
    match step {
        BoardStep::Kept { chunk } => put(verdicts, chunk, Verdict::Kept),
        BoardStep::Repaired { chunk, at } => put(verdicts, chunk, Verdict::Repaired { at }),
        BoardStep::RolledBack { chunk, kind } => put(verdicts, chunk, Verdict::RolledBack { kind }),
        BoardStep::Claimed { .. } | BoardStep::Posted { .. } | BoardStep::Released { .. } => {}
    }
}

/// Puts down what became of a chunk, if it is one of these.
fn put(verdicts: &mut [Verdict], chunk: u32, verdict: Verdict)
    ensures { verdicts.new ≡ slice_set verdicts.old chunk verdict }
{
    let index = chunk as usize;
    if index < verdicts.len() {
        verdicts[index] = verdict;
    }
}
