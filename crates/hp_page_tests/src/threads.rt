//! Pages on several threads: that two guess at the same time, the printed trees, and what their journals say became of the guesses.
ghost use Rattle.std.specs.Prelude.{◌≡◌, ◌≤◌, ◌^◌, length};
ghost use Rattle.hp_text.specs.Page.{text_of as page_text};
ghost use Rattle.hp_cut.specs.Places.{IsOf};

use crate::chunks::{PAGE, TREE, page_of};
use hp_board::{BoardStep, Entry, Journal, QuestionKind};
use hp_cut::{Cuts, cuts_at_tags, cuts_listed};
use hp_predict::GuessKind;
use hp_print::print_tree;
use hp_text::Page;
use hp_workers::{Gate, OpenGate, parse_page};
use std::alloc::Global;
use std::mem;
use std::process::Abort;
use std::sync::Wait;
use std::sync::atomic::{AtomicU64, Ordering};
use std::thread::Threads;

/// How often the first of two workers looks for the second.
const LOOKS: u64 = 1_000_000_000;

/// Holds the first guess until a second one began.
#[derive(Drop)]
struct Pair {
    begun: AtomicU64,
    given_up: AtomicU64,
}

impl Gate for Pair {
    fn before_guess(&self, _worker: u32, _chunk: u32) {
        self.begun.fetch_add(1, Ordering::SeqCst);
        for _look in 0..LOOKS {
            if self.begun.load(Ordering::SeqCst) >= 2 {
                return;
            }
        }
        self.given_up.store(1, Ordering::SeqCst);
    }
}

/// How a page is parsed.
struct By<'a, G> {
    kind: GuessKind,
    workers: u32,
    gate: &'a G,
}

/// The journal of a page so cut, of which the tree is printed so.
fn journal_of<R: Threads + Wait + Sync + Abort, G: Gate + Sync>(
    rt: &R,
    alloc: Global,
    page: Page<'_>,
    cuts: &Cuts,
    by: By<'_, G>,
    wanted: &str,
) -> Journal
    requires limit { length (page_text page) ≤ 2 ^ 24 }
    requires cuts_of_page { IsOf (page_text page) cuts.now }
    requires some { 1 ≤ by.workers }
    requires most { by.workers ≤ 64 }
{
    let By {
        kind,
        workers,
        gate,
    } = by;
    let parsed = parse_page(rt, alloc, page, cuts, kind, workers, gate);
    let (tree, journal) = parsed.expect(rt, "there is memory");
    let printed = print_tree(alloc, &tree).expect(rt, "there is memory");
    let same = printed.as_slice() == wanted.as_bytes();
    mem::forget(printed);
    mem::forget(tree);
    assert!(rt; same, "by {kind:?} and {workers} workers over {page:?}");
    journal
}

/// Who claimed the chunk first.
fn claimer(journal: &[Entry], chunk: u32) -> Option<u32> {
    for entry in journal {
        if let BoardStep::Claimed { chunk: claimed, .. } = entry.step {
            if claimed == chunk {
                return Some(entry.worker);
            }
        }
    }
    None
}

/// Who posted a fragment of the chunk first.
fn poster(journal: &[Entry], chunk: u32) -> Option<u32> {
    for entry in journal {
        if let BoardStep::Posted { chunk: posted, .. } = entry.step {
            if posted == chunk {
                return Some(entry.worker);
            }
        }
    }
    None
}

/// Worker 0 runs the first of three chunks, and then the two others are guessed, each held until both began.
fn assert_two_at_once<R: Threads + Wait + Sync + Abort>(rt: &R, alloc: Global) {
    let page = page_of(rt, "onetwothr");
    let cuts = match cuts_listed(alloc, page, &[3, 6]) {
        Ok(cuts) => cuts,
        Err(_) => panic!(rt; "the places cut the page"),
    };
    let gate = Pair {
        begun: AtomicU64::new(0),
        given_up: AtomicU64::new(0),
    };
    let wanted = "| <html>\n|   <head>\n|   <body>\n|     \"onetwothr\"\n";
    let by = By {
        kind: GuessKind::Quiet,
        workers: 2,
        gate: &gate,
    };
    let journal = journal_of(rt, alloc, page, &cuts, by, wanted);
    assert_eq!(rt; gate.given_up.load(Ordering::SeqCst), 0);
    let entries = journal.as_slice();
    let one = poster(entries, 1).expect(rt, "chunk 1 was posted");
    let two = poster(entries, 2).expect(rt, "chunk 2 was posted");
    assert!(rt; one < 64 && two < 64 && one != two);
    assert_eq!(rt; claimer(entries, 1), Some(one));
    assert_eq!(rt; claimer(entries, 2), Some(two));
    mem::forget(journal);
    mem::forget(cuts);
}

#[test]
fn two_guesses_at_once(rt: HostRuntime) {
    assert_two_at_once(&rt, rt.alloc());
}

/// The chunk that a step judges.
fn judged(step: BoardStep) -> Option<u32> {
    match step {
        BoardStep::Kept { chunk } => Some(chunk),
        BoardStep::Repaired { chunk, .. } => Some(chunk),
        BoardStep::RolledBack { chunk, .. } => Some(chunk),
        _ => None,
    }
}

/// What the journal says first of the chunk that this step judges.
fn judgement_like(journal: &[Entry], step: BoardStep) -> Option<BoardStep> {
    let chunk = judged(step);
    for entry in journal {
        if judged(entry.step) == chunk {
            return Some(entry.step);
        }
    }
    None
}

/// What becomes first of the guesses of the page's chunks behind the first, by each predictor.
const JUDGED: &[(GuessKind, BoardStep)] = &[
    (
        GuessKind::Quiet,
        BoardStep::RolledBack {
            chunk: 1,
            kind: QuestionKind::Entry,
        },
    ),
    (
        GuessKind::Quiet,
        BoardStep::RolledBack {
            chunk: 2,
            kind: QuestionKind::Entry,
        },
    ),
    (GuessKind::Quiet, BoardStep::Kept { chunk: 3 }),
    (
        GuessKind::Quiet,
        BoardStep::RolledBack {
            chunk: 4,
            kind: QuestionKind::Pointer,
        },
    ),
    (
        GuessKind::Quiet,
        BoardStep::RolledBack {
            chunk: 5,
            kind: QuestionKind::Entry,
        },
    ),
    (
        GuessKind::Prescan,
        BoardStep::RolledBack {
            chunk: 1,
            kind: QuestionKind::Entry,
        },
    ),
    (
        GuessKind::Prescan,
        BoardStep::RolledBack {
            chunk: 2,
            kind: QuestionKind::Entry,
        },
    ),
    (GuessKind::Prescan, BoardStep::Kept { chunk: 3 }),
    (GuessKind::Prescan, BoardStep::Kept { chunk: 4 }),
    (GuessKind::Prescan, BoardStep::Kept { chunk: 5 }),
    (
        GuessKind::Contrary,
        BoardStep::RolledBack {
            chunk: 1,
            kind: QuestionKind::Entry,
        },
    ),
    (
        GuessKind::Contrary,
        BoardStep::RolledBack {
            chunk: 2,
            kind: QuestionKind::Entry,
        },
    ),
    (
        GuessKind::Contrary,
        BoardStep::RolledBack {
            chunk: 3,
            kind: QuestionKind::Entry,
        },
    ),
    (
        GuessKind::Contrary,
        BoardStep::RolledBack {
            chunk: 4,
            kind: QuestionKind::Entry,
        },
    ),
    (
        GuessKind::Contrary,
        BoardStep::RolledBack {
            chunk: 5,
            kind: QuestionKind::Entry,
        },
    ),
];

const KINDS: [GuessKind; 3] = [GuessKind::Quiet, GuessKind::Prescan, GuessKind::Contrary];

/// The journal says of the page's guesses by this predictor what they become.
fn assert_judged(rt: &impl Abort, journal: &[Entry], kind: GuessKind, workers: u32) {
    for (by, wanted) in JUDGED {
        if *by == kind {
            let judgement = judgement_like(journal, *wanted);
            assert_eq!(rt;
                judgement,
                Some(*wanted),
                "by {kind:?} and {workers} workers"
            );
        }
    }
}

/// The page has its tree, and its guesses become what they are, with so many workers.
fn assert_page<R: Threads + Wait + Sync + Abort>(rt: &R, alloc: Global, workers: u32)
    requires some { 1 ≤ workers }
    requires most { workers ≤ 64 }
{
    let page = page_of(rt, PAGE);
    let cuts = cuts_at_tags(alloc, page, 64).expect(rt, "there is memory");
    for kind in KINDS {
        let by = By {
            kind,
            workers,
            gate: &OpenGate,
        };
        let journal = journal_of(rt, alloc, page, &cuts, by, TREE);
        assert_judged(rt, journal.as_slice(), kind, workers);
        mem::forget(journal);
    }
    mem::forget(cuts);
}

#[test]
fn a_page_has_one_tree_whoever_works(rt: HostRuntime) {
    for workers in [1, 2, 8] {
        assert_page(&rt, rt.alloc(), workers);
    }
}

/// A text of 32 chunks of four bytes each.
const TEXT: &str =
    "the quick brown fox jumps over the lazy dog, and then it sits down beside the dog and waits until it wakes up to jump once more:";

const TEXT_TREE: &str =
    "| <html>\n|   <head>\n|   <body>\n|     \"the quick brown fox jumps over the lazy dog, and then it sits down beside the dog and waits until it wakes up to jump once more:\"\n";

const PLACES: &[u64] = &[
    4, 8, 12, 16, 20, 24, 28, 32, 36, 40, 44, 48, 52, 56, 60, 64, 68, 72, 76, 80, 84, 88, 92, 96,
    100, 104, 108, 112, 116, 120, 124,
];

/// The most chunks by which a claimed chunk was ahead of the front chunk.
fn most_ahead(journal: &[Entry]) -> u32 {
    let mut front = 0u32;
    let mut most = 0;
    for entry in journal {
        match entry.step {
            BoardStep::Kept { .. } => front = front.saturating_add(1),
            BoardStep::Claimed { chunk, .. } => most = most.max(chunk.saturating_sub(front)),
            _ => {}
        }
    }
    most
}

/// So many workers claim no chunk that is far ahead of the front: two chunks for each, and what the others claim between a worker's look
/// and its claim.
fn assert_near<R: Threads + Wait + Sync + Abort>(rt: &R, alloc: Global, workers: u32)
    requires some { 1 ≤ workers }
    requires most { workers ≤ 64 }
{
    let page = page_of(rt, TEXT);
    let cuts = match cuts_listed(alloc, page, PLACES) {
        Ok(cuts) => cuts,
        Err(_) => panic!(rt; "the places cut the page"),
    };
    let by = By {
        kind: GuessKind::Contrary,
        workers,
        gate: &OpenGate,
    };
    let journal = journal_of(rt, alloc, page, &cuts, by, TEXT_TREE);
    let most = most_ahead(journal.as_slice());
    assert!(rt; most < 3 * workers, "{most} ahead by {workers} workers");
    mem::forget(journal);
    mem::forget(cuts);
}

#[test]
fn workers_stay_near_the_front(rt: HostRuntime) {
    for workers in [1, 2, 4] {
        assert_near(&rt, rt.alloc(), workers);
    }
}
