//! Lists of up to six steps that two workers make on the board of a page of three chunks: behind each list the board is still that of the
//! page, and from wherever it leads main ends with the page's tree.
ghost use Rattle.std.specs.Prelude.{◌≤◌, ◌^◌, length};
ghost use Rattle.hp_text.specs.Page.{text_of as page_text};
ghost use Rattle.hp_cut.specs.Places.{IsOf};

use crate::chunks::page_of;
use crate::counting::advanced;
use hp_board::{Advance, Board, Claim, Tally};
use hp_cut::{Cuts, cuts_listed};
use hp_fragment::{ending, parse_whole, replay, speculate_by};
use hp_merge::Front;
use hp_pieces::Fragment;
use hp_predict::GuessKind;
use hp_print::print_tree;
use hp_text::Page;
use std::alloc::Global;
use std::mem;
use std::process::Abort;

/// A page. Of its second part one worker guesses what is rolled back, the other what is repaired.
const PAGE: &str = "<b><p>x</b>y<i>z";

/// Where it is cut.
const PLACES: &[u64] = &[7, 12];

/// How long a list is at most.
const LENGTH: u32 = 6;

/// How many lists there are of which each step changes the board.
const CHANGING: usize = 2_579;

/// How many states of the board they lead to.
const STATES: usize = 120;

/// How many turns main makes: more than it can need.
const TURNS: u32 = 24;

/// A page that is cut, and its printed tree.
#[derive(Clone, Copy)]
struct Case<'a> {
    page: Page<'a>,
    cuts: &'a Cuts,
    wanted: &'a [u8],
}

/// What a worker guesses by, and what it claimed and neither posted nor gave back.
#[derive(Drop)]
struct Hand<'p> {
    kind: GuessKind,
    claims: Vec<Claim<'p>>,
}

/// How far a chunk is, as the answers tell.
#[derive(Clone, Copy, PartialEq, Eq)]
enum Mark {
    Unclaimed,
    Claimed(u32),
    /// A guess by this worker was posted.
    Guessed(u32),
    Again,
    AgainClaimed(u32),
    /// A fragment from a known state was posted.
    Replayed,
    Done,
}

/// How far the three chunks are.
type Marks = [Mark; 3];

const OPENING: Marks = [Mark::Again, Mark::Unclaimed, Mark::Unclaimed];

#[derive(Clone, Copy)]
enum Act {
    Claim,
    Post,
    Advance,
    Release,
}

/// The steps: a worker, and what it does.
const STEPS: [(usize, Act); 8] = [
    (0, Act::Claim),
    (1, Act::Claim),
    (0, Act::Post),
    (1, Act::Post),
    (0, Act::Advance),
    (1, Act::Advance),
    (0, Act::Release),
    (1, Act::Release),
];

fn set_mark(rt: &impl Abort, marks: &mut Marks, chunk: u32, mark: Mark) {
    assert!(rt; chunk < 3);
    marks[chunk as usize] = mark;
}

/// The first chunk that isn't done; behind the last one where all are.
fn front_of(marks: &Marks) -> u32 {
    for chunk in 0..3u32 {
        if marks[chunk as usize] != Mark::Done {
            return chunk;
        }
    }
    3
}

fn hand_of<'p>(alloc: Global, kind: GuessKind) -> Hand<'p> {
    let claims = Vec::new(alloc);
    Hand { kind, claims }
}

/// Claims a chunk, if there is one.
fn claim<'p>(
    rt: &impl Abort,
    alloc: Global,
    board: &mut Board<'p>,
    tally: &mut Tally,
    hand: &mut Hand<'p>,
    marks: &mut Marks,
) {
    let claimed = board.claim(alloc, tally).expect(rt, "there is memory");
    let Some(claim) = claimed else {
        return;
    };
    let is_known = claim.from.is_some();
    let worker = tally.worker();
    let claimed = if is_known {
        Mark::AgainClaimed(worker)
    } else {
        Mark::Claimed(worker)
    };
    set_mark(rt, marks, claim.chunk.number, claimed);
    hand.claims.push(claim).expect(rt, "there is memory");
}

/// The fragment of a claimed chunk.
fn make<'p>(rt: &impl Abort, alloc: Global, claim: Claim<'p>, kind: GuessKind) -> Fragment<'p> {
    let Claim { chunk, from } = claim;
    let made = match from {
        Some(state) => replay(alloc, chunk, state),
        None => speculate_by(alloc, chunk, kind),
    };
    made.expect(rt, "there is memory")
}

/// Posts the fragment of the chunk that was claimed last, if one is.
fn post<'p>(
    rt: &impl Abort,
    alloc: Global,
    board: &mut Board<'p>,
    tally: &mut Tally,
    hand: &mut Hand<'p>,
    marks: &mut Marks,
) {
    let Some(claim) = hand.claims.pop() else {
        return;
    };
    let chunk = claim.chunk.number;
    let posted = if claim.from.is_some() {
        Mark::Replayed
    } else {
        Mark::Guessed(tally.worker())
    };
    set_mark(rt, marks, chunk, posted);
    let fragment = make(rt, alloc, claim, hand.kind);
    let posted = board.post(tally, chunk, fragment);
    let is_taken = posted.is_ok();
    mem::forget(posted);
    assert!(rt; is_taken);
}

/// Judges the front chunk. Whether there was nothing to judge.
fn advance(
    rt: &impl Abort,
    alloc: Global,
    board: &mut Board<'_>,
    tally: &mut Tally,
    marks: &mut Marks,
) -> bool {
    let advance = advanced(rt, alloc, board, tally);
    let is_idle = matches!(advance, Advance::Idle);
    let is_kept = matches!(advance, Advance::Kept);
    mem::forget(advance);
    if !is_idle {
        let judged = if is_kept { Mark::Done } else { Mark::Again };
        set_mark(rt, marks, front_of(marks), judged);
    }
    is_idle
}

/// Gives back the chunk that was claimed last. Where none is, none can be given back.
fn release<'p>(
    rt: &impl Abort,
    board: &mut Board<'p>,
    tally: &mut Tally,
    hand: &mut Hand<'p>,
    marks: &mut Marks,
) {
    let Some(claim) = hand.claims.pop() else {
        assert!(rt; !board.release(tally, 0));
        return;
    };
    let chunk = claim.chunk.number;
    let before = if claim.from.is_some() {
        Mark::Again
    } else {
        Mark::Unclaimed
    };
    mem::forget(claim);
    set_mark(rt, marks, chunk, before);
    assert!(rt; board.release(tally, chunk));
}

/// A step of a worker.
fn make_step<'p>(
    rt: &impl Abort,
    alloc: Global,
    board: &mut Board<'p>,
    tally: &mut Tally,
    hand: &mut Hand<'p>,
    marks: &mut Marks,
    act: Act,
) {
    match act {
        Act::Claim => claim(rt, alloc, board, tally, hand, marks),
        Act::Post => post(rt, alloc, board, tally, hand, marks),
        Act::Advance => {
            let _ = advance(rt, alloc, board, tally, marks);
        }
        Act::Release => release(rt, board, tally, hand, marks),
    }
}

/// Makes the steps of a list, the lowest digit first. How far the chunks are then, and whether the last step changed the board.
fn run_list<'p>(
    rt: &impl Abort,
    alloc: Global,
    board: &mut Board<'p>,
    tallies: &mut [Tally],
    list: u32,
) -> (Marks, bool) {
    let mut hands = [
        hand_of(alloc, GuessKind::Quiet),
        hand_of(alloc, GuessKind::Prescan),
    ];
    let mut marks = OPENING;
    let mut has_changed = false;
    let mut left = list;
    for _step in 0..LENGTH {
        if left > 0 {
            let (worker, act) = STEPS[((left - 1) % 8) as usize];
            left = (left - 1) / 8;
            assert!(rt; worker < 2 && tallies.len() == 3);
            let before = tallies[worker].entries();
            let tally = &mut tallies[worker];
            make_step(rt, alloc, board, tally, &mut hands[worker], &mut marks, act);
            has_changed = tallies[worker].entries() > before;
        }
    }
    mem::forget(hands);
    (marks, has_changed)
}

/// Takes back all claims and makes main's turns until all is done.
fn finish_alone<'p>(
    rt: &impl Abort,
    alloc: Global,
    board: &mut Board<'p>,
    tally: &mut Tally,
    marks: &mut Marks,
) {
    let mut hand = hand_of(alloc, GuessKind::Quiet);
    let _ = board.recall(tally);
    for _turn in 0..TURNS {
        if advance(rt, alloc, board, tally, marks) {
            claim(rt, alloc, board, tally, &mut hand, marks);
            post(rt, alloc, board, tally, &mut hand, marks);
        }
    }
    mem::forget(hand);
}

/// The tree of a page of which all is joined is printed so. What is owned is kept to the test's end.
fn assert_tree(rt: &impl Abort, alloc: Global, front: Front<'_>, wanted: &[u8]) {
    let end = ending(alloc, front.control()).expect(rt, "there is memory");
    let tree = front.end(alloc, end).expect(rt, "there is memory");
    let printed = print_tree(alloc, &tree).expect(rt, "there is memory");
    let same = printed.as_slice() == wanted;
    mem::forget(printed);
    mem::forget(tree);
    assert!(rt; same);
}

/// Main ends a board on which the chunks are so far, with the page's tree.
fn assert_ends<'p>(
    rt: &impl Abort,
    alloc: Global,
    mut board: Board<'p>,
    mut tallies: Vec<Tally>,
    mut marks: Marks,
    case: Case<'p>,
) {
    assert!(rt; tallies.len() == 3);
    finish_alone(rt, alloc, &mut board, &mut tallies[2], &mut marks);
    assert!(rt; board.is_of(case.page, case.cuts, tallies.as_slice()));
    assert!(rt; board.is_done());
    assert!(rt; marks == [Mark::Done; 3]);
    let (front, journal) = board.finish(tallies);
    mem::forget(journal);
    assert_tree(rt, alloc, front, case.wanted);
}

/// Whether the last step of a list changed the board. Where no list before led to its state, main ends it.
fn try_list(
    rt: &impl Abort,
    alloc: Global,
    case: Case<'_>,
    list: u32,
    states: &mut Vec<Marks>,
) -> bool
    requires limit { length (page_text case.page) ≤ 2 ^ 24 }
    requires cuts_of_page { IsOf (page_text case.page) case.cuts.now }
{
    let own = case.cuts.copy(alloc).expect(rt, "there is memory");
    let begun = Board::begin(alloc, case.page, own, 2);
    let (mut board, mut tallies) = begun.expect(rt, "there is memory");
    let (marks, has_changed) = run_list(rt, alloc, &mut board, tallies.as_mut_slice(), list);
    assert!(rt; board.is_of(case.page, case.cuts, tallies.as_slice()));
    if states.contains(&marks) {
        mem::forget(board);
        mem::forget(tallies);
    } else {
        states.push(marks).expect(rt, "there is memory");
        assert_ends(rt, alloc, board, tallies, marks, case);
    }
    has_changed
}

/// Tries the lists that are one step longer than these, and hands out those of which the last step changed the board. The step is a digit
/// of this weight.
fn try_longer(
    rt: &impl Abort,
    alloc: Global,
    case: Case<'_>,
    lists: &[u32],
    weight: u32,
    states: &mut Vec<Marks>,
) -> Vec<u32>
    requires limit { length (page_text case.page) ≤ 2 ^ 24 }
    requires cuts_of_page { IsOf (page_text case.page) case.cuts.now }
{
    let mut longer = Vec::new(alloc);
    for list in lists {
        for digit in 1..9u32 {
            let next = list.wrapping_add(digit.wrapping_mul(weight));
            if try_list(rt, alloc, case, next, states) {
                longer.push(next).expect(rt, "there is memory");
            }
        }
    }
    longer
}

/// Each list leads to the page's tree. Behind a step that changes nothing no other is made, since the lists that have it within them lead
/// where shorter ones do.
fn assert_lists(rt: &impl Abort, alloc: Global, case: Case<'_>)
    requires limit { length (page_text case.page) ≤ 2 ^ 24 }
    requires cuts_of_page { IsOf (page_text case.page) case.cuts.now }
{
    let mut states = Vec::new(alloc);
    let _ = try_list(rt, alloc, case, 0, &mut states);
    let mut lists = Vec::new(alloc);
    lists.push(0u32).expect(rt, "there is memory");
    let mut count = lists.len();
    let mut weight: u32 = 1;
    for _length in 0..LENGTH {
        let longer = try_longer(rt, alloc, case, lists.as_slice(), weight, &mut states);
        lists = longer;
        count = count.wrapping_add(lists.len());
        weight = weight.wrapping_mul(8);
    }
    assert_eq!(rt; count, CHANGING);
    assert_eq!(rt; states.len(), STATES);
}

fn assert_page(rt: &impl Abort, alloc: Global, text: &str) {
    let page = page_of(rt, text);
    let cuts = match cuts_listed(alloc, page, PLACES) {
        Ok(cuts) => cuts,
        Err(_) => panic!(rt; "the places cut the page"),
    };
    let tree = parse_whole(alloc, page).expect(rt, "there is memory");
    let wanted = print_tree(alloc, &tree).expect(rt, "there is memory");
    mem::forget(tree);
    let case = Case {
        page,
        cuts: &cuts,
        wanted: wanted.as_slice(),
    };
    assert_lists(rt, alloc, case);
    mem::forget(wanted);
    mem::forget(cuts);
}

#[test]
fn each_list_of_steps_leads_to_the_tree(rt: HostRuntime) {
    assert_page(&rt, rt.alloc(), PAGE);
}
