//! The board behind its lock, and how far ahead of the front its chunks are claimed.

use hp_board::Board;
use std::sync::{Condvar, Mutex, Wait};

/// How many chunks the workers may be ahead of the front, for each of them.
const CHUNKS_EACH: usize = 2;

/// The board behind its lock, and where a worker waits while the next chunk to claim stands far behind the front chunk: what is made
/// ahead of the front takes memory until the front comes to it.
#[derive(Drop)]
pub(crate) struct PacedDesk<'d, 'p> {
    pub desk: &'d Mutex<Board<'p>>,
    /// A chunk that stands so many behind the front chunk is far.
    far: usize,
    /// Wakes those who wait where the board has changed.
    changed: Condvar,
}

impl<'d, 'p> PacedDesk<'d, 'p> {
    /// No chunk is far.
    pub fn free(desk: &'d Mutex<Board<'p>>) -> PacedDesk<'d, 'p> {
        PacedDesk {
            desk,
            far: usize::MAX,
            changed: Condvar::new(),
        }
    }

    /// At the pace of so many workers.
    pub fn of(desk: &'d Mutex<Board<'p>>, workers: usize) -> PacedDesk<'d, 'p> {
        PacedDesk {
            desk,
            far: workers.saturating_mul(CHUNKS_EACH),
            changed: Condvar::new(),
        }
    }

    /// Wakes those who wait: the board has changed.
    pub fn tell(&self) {
        self.changed.notify_all();
    }

    /// Waits while the front chunk's fragment is being made and the next chunk to claim is far. Whether there is a chunk to judge then.
    pub fn wait<R: Wait>(&self, rt: &R) -> bool {
        let far = self.far;
        let board = self
            .changed
            .wait_while(rt, self.desk.lock(rt), |board| is_far(board, far));
        board.is_to_judge()
    }
}

/// Whether there is no chunk to judge, and the next one to claim stands so many chunks behind the front chunk.
fn is_far(board: &Board<'_>, far: usize) -> bool {
    match board.lead() {
        Some(lead) => lead as usize >= far && !board.is_to_judge(),
        None => false,
    }
}
