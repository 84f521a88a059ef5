//! Reports of journals that are written by hand.
use super::*;
use crate::verdict::Verdict;
use hp_board::{BoardStep, Entry, QuestionKind};
use hp_cut::cuts_listed;
use hp_text::check_page;
use std::alloc::Global;
use std::mem;
use std::process::Abort;

const KEPT: Verdict = Verdict::Kept;

const SHORT: Verdict = Verdict::Repaired { at: 0 };

const ENTRY: Verdict = Verdict::RolledBack {
    kind: QuestionKind::Entry,
};

const LISTED: Verdict = Verdict::RolledBack {
    kind: QuestionKind::Listed,
};

const POINTER: Verdict = Verdict::RolledBack {
    kind: QuestionKind::Pointer,
};

/// Stands for a step that judges nothing.
const NOTHING: Verdict = Verdict::NotJudged;

/// Where a page is cut and its length, the steps of a journal, each with its chunk and what it says of that, and the report.
type Case = (
    &'static [u64],
    usize,
    &'static [(u32, Verdict)],
    &'static str,
);

const CASES: &[Case] = &[
    (
        &[6],
        10,
        &[(1, NOTHING), (0, KEPT), (1, KEPT)],
        "chunk 0: 6 bytes, exact
chunk 1: 4 bytes, kept
total: 2 chunks, 1 exact, 1 kept, 0 repaired, 0 rolled back
",
    ),
    (
        &[7],
        12,
        &[(0, KEPT), (1, SHORT), (1, NOTHING), (1, KEPT)],
        "chunk 0: 7 bytes, exact
chunk 1: 5 bytes, repaired at 0
total: 2 chunks, 1 exact, 0 kept, 1 repaired, 0 rolled back
",
    ),
    (
        &[7],
        12,
        &[(0, KEPT), (1, LISTED), (1, NOTHING), (1, KEPT)],
        "chunk 0: 7 bytes, exact
chunk 1: 5 bytes, rolled back on Listed
total: 2 chunks, 1 exact, 0 kept, 0 repaired, 1 rolled back
",
    ),
    (
        &[96, 141, 222, 272, 320],
        348,
        &[
            (0, KEPT),
            (1, ENTRY),
            (1, KEPT),
            (2, ENTRY),
            (2, KEPT),
            (3, KEPT),
            (4, POINTER),
            (4, KEPT),
            (5, ENTRY),
            (5, KEPT),
        ],
        "chunk 0: 96 bytes, exact
chunk 1: 45 bytes, rolled back on Entry
chunk 2: 81 bytes, rolled back on Entry
chunk 3: 50 bytes, kept
chunk 4: 48 bytes, rolled back on Pointer
chunk 5: 28 bytes, rolled back on Entry
total: 6 chunks, 1 exact, 1 kept, 0 repaired, 4 rolled back
",
    ),
    (
        &[96, 141, 222, 272, 320],
        348,
        &[
            (0, KEPT),
            (1, ENTRY),
            (1, KEPT),
            (2, ENTRY),
            (2, KEPT),
            (3, KEPT),
            (4, KEPT),
            (5, KEPT),
        ],
        "chunk 0: 96 bytes, exact
chunk 1: 45 bytes, rolled back on Entry
chunk 2: 81 bytes, rolled back on Entry
chunk 3: 50 bytes, kept
chunk 4: 48 bytes, kept
chunk 5: 28 bytes, kept
total: 6 chunks, 1 exact, 3 kept, 0 repaired, 2 rolled back
",
    ),
    (
        &[96, 141, 222, 272, 320],
        348,
        &[
            (0, KEPT),
            (1, ENTRY),
            (1, KEPT),
            (2, ENTRY),
            (2, KEPT),
            (3, ENTRY),
            (3, KEPT),
            (4, ENTRY),
            (4, KEPT),
            (5, ENTRY),
            (5, KEPT),
        ],
        "chunk 0: 96 bytes, exact
chunk 1: 45 bytes, rolled back on Entry
chunk 2: 81 bytes, rolled back on Entry
chunk 3: 50 bytes, rolled back on Entry
chunk 4: 48 bytes, rolled back on Entry
chunk 5: 28 bytes, rolled back on Entry
total: 6 chunks, 1 exact, 0 kept, 0 repaired, 5 rolled back
",
    ),
    (
        &[1],
        3,
        &[(1, NOTHING), (0, KEPT), (2, KEPT)],
        "chunk 0: 1 bytes, exact
chunk 1: 2 bytes, not judged
total: 2 chunks, 1 exact, 0 kept, 0 repaired, 0 rolled back
",
    ),
];

/// The entry that says this of a chunk.
fn entry_of(chunk: u32, verdict: Verdict) -> Entry {
    let step = match verdict {
        Verdict::Exact | Verdict::Kept => BoardStep::Kept { chunk },
        Verdict::Repaired { at } => BoardStep::Repaired { chunk, at },
        Verdict::RolledBack { kind } => BoardStep::RolledBack { chunk, kind },
        Verdict::NotJudged => BoardStep::Released { chunk },
    };
    Entry { worker: 0, step }
}

/// A journal with these steps.
fn journal_of(rt: &impl Abort, alloc: Global, steps: &[(u32, Verdict)]) -> Vec<Entry> {
    let mut journal = Vec::new(alloc);
    for (chunk, verdict) in steps {
        let entry = entry_of(*chunk, *verdict);
        journal.push(entry).expect(rt, "there is memory");
    }
    journal
}

/// The report of a case is what it says, and the line of counts is its last.
fn assert_case(rt: &impl Abort, alloc: Global, case: &Case) {
    let (places, length, steps, wanted) = case;
    let letters = Vec::from_elem(alloc, b'x', *length).expect(rt, "there is memory");
    let page = check_page(letters.as_slice()).expect(rt, "the page is UTF-8");
    let cuts = cuts_listed(alloc, page, places).expect(rt, "the places cut the page");
    let journal = journal_of(rt, alloc, steps);
    let text = report(alloc, &cuts, journal.as_slice()).expect(rt, "there is memory");
    let mut counts = Vec::new(alloc);
    append_counts(alloc, &mut counts, "total: ", &cuts, journal.as_slice()).expect(
        rt,
        "there is memory",
    );
    let last = text.as_slice().ends_with(counts.as_slice());
    let whole = counts.as_slice().starts_with(b"total: ");
    assert_eq!(rt; text.as_slice(), wanted.as_bytes());
    assert!(rt; last && whole);
    mem::forget((letters, cuts, journal));
    mem::forget((text, counts));
}

#[test]
fn reports_say_what_became_of_each_chunk(rt: HostRuntime) {
    for case in CASES {
        assert_case(&rt, rt.alloc(), case);
    }
}
