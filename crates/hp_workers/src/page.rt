//! A page on several threads.
ghost use Rattle.std.specs.Prelude.{◌≡◌, ◌≤◌, ◌^◌, [], IfOk, IsTrue, ◌↔◌, length, vec_len};
ghost use Rattle.hp_text.specs.Page.{text_of as page_text};
ghost use Rattle.hp_cut.specs.Places.{IsOf};
ghost use Rattle.hp_board.specs.Calls.{fresh_tallies};
ghost use Rattle.hp_board.specs.Fair.{IsFair};
ghost use Rattle.hp_workers.specs.Joining.{StandsAt};
ghost use Rattle.hp_workers.specs.Parsed.{AreBorneBy, EndsAllDone, EndsWithMain, IsBoardFor, IsParsed, IsReady};
ghost use Rattle.hp_workers.specs.Turns.{AreByKind, IsFree, PostsByKind};

use crate::NoMemory;
use crate::gate::Gate;
use crate::leaving::{leave_board, leave_front, leave_progress};
use crate::mains::finish_alone;
use crate::order::end_page;
use crate::pace::PacedDesk;
use crate::turns::work_at;
use hp_arena::Tree;
use hp_board::{Board, BoardStep, Entry, Journal, Origin, Tally};
use hp_cut::Cuts;
use hp_merge::Front;
use hp_predict::GuessKind;
use hp_text::Page;
use std::alloc::Global;
use std::sync::{Mutex, Wait};
use std::thread;
use std::thread::Threads;

/// A board, and the tallies of its journal, main's last.
#[derive(Drop)]
pub(crate) struct Progress<'p> {
    board: Board<'p>,
    tallies: Vec<Tally>,
}

/// The tree of the page: the one that the standard's sequential parser builds (13.2, scripting disabled), with the 365 reference
/// names of hp_names; and the journal of how its chunks came to that. So many threads, or as many as there are chunks where they are
/// fewer, make the fragments of the chunks and judge them, each but the first behind a guess by a predictor of this kind; before it
/// guesses a worker passes the gate. What they leave undone is done by the caller's thread. `Err` is want of memory, which a tree of
/// more than 2^29 nodes finds too.
pub fn parse_page<'p, R: Threads + Wait + Sync, G: Gate + Sync>(
    rt: &R,
    alloc: Global,
    page: Page<'p>,
    cuts: &Cuts,
    kind: GuessKind,
    workers: u32,
    gate: &G,
) -> Result<(Tree<'p>, Journal), NoMemory>
    requires limit { length (page_text page) ≤ 2 ^ 24 }
    requires cuts_of_page { IsOf (page_text page) cuts.now }
    requires some { 1 ≤ workers }
    requires most { workers ≤ 64 }
    ensures parsed { IfOk result (λ parsed. IsParsed (page_text page.entry) cuts.now kind workers parsed.0.branches parsed.1.items) }
{
    let workers = workers.min(cuts.chunks());
    let progress = work_all(rt, alloc, page, cuts, kind, workers, gate)?;
    let (front, journal) = finish_by(alloc, page, cuts, kind, workers, progress)?;
    let tree = end_page(alloc, front, page)?;
    Ok((tree, journal))
}

/// The board of a page on which nothing was done, for so many workers.
fn begin<'p>(
    alloc: Global,
    page: Page<'p>,
    cuts: &Cuts,
    workers: u32,
) -> Result<Progress<'p>, NoMemory>
    requires limit { length (page_text page) ≤ 2 ^ 24 }
    requires cuts_of_page { IsOf (page_text page) cuts.now }
    requires some { 1 ≤ workers }
    requires most { workers ≤ 64 }
    ensures ready { IfOk result (λ progress. IsReady progress.board progress.tallies.items) }
    ensures same { IfOk result (λ progress. IsBoardFor (page_text page.entry) cuts.now workers progress.board) }
    ensures fresh { IfOk result (λ progress. progress.board.journal ≡ []) }
    ensures main { IfOk result (λ progress. progress.tallies.items ≡ fresh_tallies workers) }
{
    let cuts = cuts.copy(alloc)?;
    let (board, tallies) = Board::begin(alloc, page, cuts, workers)?;
    Ok(Progress { board, tallies })
}

/// The board of a page after the turns of all workers; a fresh one where what they leave isn't of the page.
fn work_all<'p, R: Threads + Wait + Sync, G: Gate + Sync>(
    rt: &R,
    alloc: Global,
    page: Page<'p>,
    cuts: &Cuts,
    kind: GuessKind,
    workers: u32,
    gate: &G,
) -> Result<Progress<'p>, NoMemory>
    requires limit { length (page_text page) ≤ 2 ^ 24 }
    requires cuts_of_page { IsOf (page_text page) cuts.now }
    requires some { 1 ≤ workers }
    requires most { workers ≤ 64 }
    ensures ready { IfOk result (λ progress. IsReady progress.board progress.tallies.items) }
    ensures same { IfOk result (λ progress. IsBoardFor (page_text page.entry) cuts.now workers progress.board) }
{
    let turns = turns_for(cuts);
    let progress = begin(alloc, page, cuts, workers)?;
    let worked = run_workers(rt, alloc, progress, kind, gate, turns)?;
    if worked.board.is_of(page, cuts, worked.tallies.as_slice()) {
        return Ok(worked);
    }
    leave_progress(worked);
    let fresh = begin(alloc, page, cuts, workers)?;
    Ok(fresh)
}

/// How many turns a worker makes at most: as many as it takes to run each chunk twice, and to see that none is left.
fn turns_for(cuts: &Cuts) -> u32 {
    let _places = cuts.places();
    2 * cuts.chunks() + 1
}

/// Lets all workers make their turns, and takes back what they have claimed.
fn run_workers<'p, R: Threads + Wait + Sync, G: Gate + Sync>(
    rt: &R,
    alloc: Global,
    progress: Progress<'p>,
    kind: GuessKind,
    gate: &G,
    turns: u32,
) -> Result<Progress<'p>, NoMemory>
    requires main { EndsWithMain progress.tallies.items }
    ensures free { IfOk result (λ worked. IsFree worked.board) }
    ensures main { IfOk result (λ worked. EndsWithMain worked.tallies.items) }
    ensures count { IfOk result (λ worked. vec_len worked.tallies ≡ vec_len progress.entry.tallies) }
{
    let Progress { board, mut tallies } = progress;
    let Some(mut main) = tallies.pop() else {
        unreachable!()
    };
    let mut board = run_threads(rt, alloc, board, tallies.as_mut_slice(), kind, gate, turns);
    let _taken = board.recall(&mut main);
    if tallies.push(main).is_err() {
        leave_board(board);
        return Err(NoMemory);
    }
    Ok(Progress { board, tallies })
}

/// Lets each worker of a tally make its turns in a thread, with the board behind a lock.
fn run_threads<'p, R: Threads + Wait + Sync, G: Gate + Sync>(
    rt: &R,
    alloc: Global,
    board: Board<'p>,
    tallies: &mut [Tally],
    kind: GuessKind,
    gate: &G,
    turns: u32,
) -> Board<'p> {
    let threads = tallies.len().max(1);
    let desk = Mutex::new(board);
    let paced = PacedDesk::of(&desk, threads);
    let shared = &paced;
    thread::for_each_mut(
        rt,
        tallies,
        threads,
        &|_, tally| { work_at(rt, alloc, shared, tally, kind, gate, turns) },
    );
    drop(paced);
    desk.into_inner()
}

/// Finishes a page's board, and where a guess on it isn't by a predictor of this kind, a fresh one in its place.
fn finish_by<'p>(
    alloc: Global,
    page: Page<'p>,
    cuts: &Cuts,
    kind: GuessKind,
    workers: u32,
    progress: Progress<'p>,
) -> Result<(Front<'p>, Journal), NoMemory>
    requires limit { length (page_text page) ≤ 2 ^ 24 }
    requires cuts_of_page { IsOf (page_text page) cuts.now }
    requires some { 1 ≤ workers }
    requires most { workers ≤ 64 }
    requires ready { IsReady progress.board progress.tallies.items }
    requires same { IsBoardFor (page_text page) cuts.now workers progress.board }
    ensures at { IfOk result (λ parts. StandsAt (page_text page.entry) (length (page_text page.entry)) parts.0) }
    ensures done { IfOk result (λ parts. EndsAllDone cuts.now parts.1.items) }
    ensures fair { IfOk result (λ parts. IsFair (page_text page.entry) cuts.now parts.1.items) }
    ensures by { IfOk result (λ parts. AreByKind kind parts.1.items) }
    ensures borne { IfOk result (λ parts. AreBorneBy workers parts.1.items) }
{
    let (front, journal) = finish(alloc, progress, kind)?;
    if are_by_kind(kind, journal.as_slice()) {
        return Ok((front, journal));
    }
    leave_front(front);
    let fresh = begin(alloc, page, cuts, workers)?;
    let parts = finish(alloc, fresh, kind)?;
    Ok(parts)
}

/// Makes main's turns on a board until all is done, and ends it.
fn finish<'p>(
    alloc: Global,
    progress: Progress<'p>,
    kind: GuessKind,
) -> Result<(Front<'p>, Journal), NoMemory>
    requires ready { IsReady progress.board progress.tallies.items }
    ensures at { IfOk result (λ parts. StandsAt progress.entry.board.text (length progress.entry.board.text) parts.0) }
    ensures done { IfOk result (λ parts. EndsAllDone progress.entry.board.cuts parts.1.items) }
    ensures fair { IfOk result (λ parts. IsFair progress.entry.board.text progress.entry.board.cuts parts.1.items) }
    ensures by { AreByKind kind progress.entry.board.journal → IfOk result (λ parts. AreByKind kind parts.1.items) }
    ensures borne { IfOk result (λ parts. AreBorneBy progress.entry.board.workers parts.1.items) }
{
    let Progress {
        mut board,
        mut tallies,
    } = progress;
    let Some(mut main) = tallies.pop() else {
        unreachable!()
    };
    if finish_alone(alloc, &mut board, &mut main, kind).is_err() {
        leave_board(board);
        return Err(NoMemory);
    }
    if tallies.push(main).is_err() {
        leave_board(board);
        return Err(NoMemory);
    }
    board.kept();
    Ok(board.finish(tallies))
}

/// Whether each guess of a journal is by a predictor of this kind.
fn are_by_kind(kind: GuessKind, journal: &[Entry]) -> bool
    ensures { IsTrue result ↔ AreByKind kind journal.now }
{
    journal.iter().all(|entry| posts_by_kind(kind, entry.step))
}

/// Whether the step posts no guess, or one by a predictor of this kind.
fn posts_by_kind(kind: GuessKind, step: BoardStep) -> bool
    ensures { IsTrue result ↔ PostsByKind kind step }
{
    match step {
        BoardStep::Posted { by, .. } => match by {
            Origin::Replayed => true,
            Origin::Guessed => false,
            Origin::GuessedBy(by) => by == kind,
        },
        _ => true,
    }
}
