//! The board of a page of two chunks and two workers, step by step: what each call answers, and what the journal says of it all.

use crate::chunks::{in_two, page_of};
use crate::counting::advanced;
use hp_board::{Advance, Board, BoardStep, Claim, Entry, Origin, PostCause, PostRefusal, Tally};
use hp_control::Control;
use hp_fragment::{replay, speculate_by};
use hp_pieces::Fragment;
use hp_predict::GuessKind;
use hp_text::{Chunk, Page};
use std::alloc::Global;
use std::mem;
use std::process::Abort;

const PAGE: &str = "<p>one two";

/// What the journal says in the end.
const JOURNAL: &[Entry] = &[
    Entry {
        worker: 0,
        step: BoardStep::Claimed {
            chunk: 0,
            again: true,
        },
    },
    Entry {
        worker: 1,
        step: BoardStep::Claimed {
            chunk: 1,
            again: false,
        },
    },
    Entry {
        worker: 1,
        step: BoardStep::Posted {
            chunk: 1,
            covered: 4,
            by: Origin::GuessedBy(GuessKind::Quiet),
        },
    },
    Entry {
        worker: 0,
        step: BoardStep::Posted {
            chunk: 0,
            covered: 6,
            by: Origin::Replayed,
        },
    },
    Entry {
        worker: 0,
        step: BoardStep::Kept { chunk: 0 },
    },
    Entry {
        worker: 0,
        step: BoardStep::Kept { chunk: 1 },
    },
];

/// The part of a page between two places.
fn part_of<'p>(rt: &impl Abort, page: Page<'p>, from: usize, to: usize) -> Chunk<'p> {
    let text = page.as_str();
    assert!(rt; from <= to && to <= text.len());
    assert!(rt; text.is_char_boundary(from));
    assert!(rt; text.is_char_boundary(to));
    Chunk {
        page,
        number: 0,
        from: from as u64,
        to: to as u64,
    }
}

/// What is guessed of a chunk by the quiet predictor.
fn guess<'p>(rt: &impl Abort, alloc: Global, chunk: Chunk<'p>) -> Fragment<'p> {
    let guessed = speculate_by(alloc, chunk, GuessKind::Quiet);
    guessed.expect(rt, "there is memory")
}

/// Why the board doesn't take a fragment, which comes back then.
fn refusal<'p>(
    rt: &impl Abort,
    board: &mut Board<'p>,
    tally: &mut Tally,
    chunk: u32,
    fragment: Fragment<'p>,
) -> Option<PostCause> {
    let text = fragment.text();
    match board.post(tally, chunk, fragment) {
        Ok(()) => None,
        Err(PostRefusal { cause, fragment }) => {
            let is_back = fragment.text() == text;
            mem::forget(fragment);
            assert!(rt; is_back);
            Some(cause)
        }
    }
}

fn is_idle(rt: &impl Abort, alloc: Global, board: &mut Board<'_>, tally: &mut Tally) -> bool {
    let advance = advanced(rt, alloc, board, tally);
    let idle = matches!(advance, Advance::Idle);
    mem::forget(advance);
    idle
}

fn is_kept(rt: &impl Abort, alloc: Global, board: &mut Board<'_>, tally: &mut Tally) -> bool {
    let advance = advanced(rt, alloc, board, tally);
    let kept = matches!(advance, Advance::Kept);
    mem::forget(advance);
    kept
}

/// The chunk that a worker claims, and the state before it, if that is known.
fn claimed<'p>(
    rt: &impl Abort,
    alloc: Global,
    board: &mut Board<'p>,
    tally: &mut Tally,
) -> (Chunk<'p>, Option<Control>) {
    let claimed = board.claim(alloc, tally).expect(rt, "there is memory");
    let Some(Claim { chunk, from }) = claimed else {
        panic!(rt; "there is a chunk to claim");
    };
    (chunk, from)
}

/// Worker 0 claims the chunk 0 with the start state, which is handed out, worker 1 the chunk 1, and nothing is left.
fn claim_both<'p>(
    rt: &impl Abort,
    alloc: Global,
    board: &mut Board<'p>,
    tallies: &mut [Tally],
) -> (Chunk<'p>, Control, Chunk<'p>) {
    assert_eq!(rt; tallies.len(), 3);
    let (chunk, known) = claimed(rt, alloc, board, &mut tallies[0]);
    let state = known.expect(rt, "the state before the page is known");
    let start = Control::start();
    let is_start = state.same(&start);
    mem::forget(start);
    assert!(rt; chunk.number == 0 && chunk.text() == "<p>one".as_bytes() && is_start);
    let (behind, known) = claimed(rt, alloc, board, &mut tallies[1]);
    let is_unknown = known.is_none();
    mem::forget(known);
    assert!(rt; behind.number == 1 && behind.text() == " two".as_bytes() && is_unknown);
    let nothing = board
        .claim(alloc, &mut tallies[0])
        .expect(rt, "there is memory");
    let is_nothing = nothing.is_none();
    mem::forget(nothing);
    assert!(rt; is_nothing);
    (chunk, state, behind)
}

/// Of the three fragments each is refused for its cause.
fn refuse<'p>(
    rt: &impl Abort,
    alloc: Global,
    board: &mut Board<'p>,
    tally: &mut Tally,
    chunk: Chunk<'p>,
    behind: Chunk<'p>,
) {
    let of_another = guess(rt, alloc, behind);
    let cause = refusal(rt, board, tally, 1, of_another);
    assert_eq!(rt; cause, Some(PostCause::NotYours));
    let two = guess(rt, alloc, part_of(rt, chunk.page, 7, 10));
    let cause = refusal(rt, board, tally, 0, two);
    assert_eq!(rt; cause, Some(PostCause::OtherText));
    let guessed = guess(rt, alloc, chunk);
    let cause = refusal(rt, board, tally, 0, guessed);
    assert_eq!(rt; cause, Some(PostCause::OtherStart));
}

/// All steps of the script.
fn run_script<'p>(rt: &impl Abort, alloc: Global, board: &mut Board<'p>, tallies: &mut [Tally]) {
    let (chunk, start, behind) = claim_both(rt, alloc, board, tallies);
    assert_eq!(rt; tallies.len(), 3);
    assert!(rt; is_idle(rt, alloc, board, &mut tallies[0]));
    let quiet = guess(rt, alloc, behind);
    let taken = refusal(rt, board, &mut tallies[1], 1, quiet);
    assert_eq!(rt; taken, None);
    assert!(rt; is_idle(rt, alloc, board, &mut tallies[0]));
    refuse(rt, alloc, board, &mut tallies[0], chunk, behind);
    let exact = replay(alloc, chunk, start).expect(rt, "there is memory");
    let taken = refusal(rt, board, &mut tallies[0], 0, exact);
    assert_eq!(rt; taken, None);
    assert!(rt; is_kept(rt, alloc, board, &mut tallies[0]));
    assert!(rt; is_kept(rt, alloc, board, &mut tallies[0]));
    assert!(rt; is_idle(rt, alloc, board, &mut tallies[0]));
    assert!(rt; !board.release(&mut tallies[0], 0));
}

fn assert_script(rt: &impl Abort, alloc: Global, text: &str) {
    let page = page_of(rt, text);
    let cuts = in_two(rt, alloc, page, 6);
    let own = cuts.copy(alloc).expect(rt, "there is memory");
    let begun = Board::begin(alloc, page, own, 2);
    let (mut board, mut tallies) = begun.expect(rt, "there is memory");
    run_script(rt, alloc, &mut board, tallies.as_mut_slice());
    assert!(rt; board.is_of(page, &cuts, tallies.as_slice()));
    assert!(rt; board.is_done());
    mem::forget(cuts);
    let (front, journal) = board.finish(tallies);
    mem::forget(front);
    let is_told = journal.as_slice() == JOURNAL;
    mem::forget(journal);
    assert!(rt; is_told);
}

#[test]
fn two_workers_step_by_step(rt: HostRuntime) {
    assert_script(&rt, rt.alloc(), PAGE);
}
