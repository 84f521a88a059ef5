//! What is left over is given back here, one function for each type, so that its drop stands in one place.

use crate::page::Progress;
use hp_board::{Advance, Board, PostRefusal};
use hp_merge::{Front, JoinRefusal, Spent};
use hp_pieces::Fragment;

/// Gives back a judgement.
pub(crate) fn leave_advance(advance: Advance) {
    let _ = advance;
}

/// Gives back a board.
pub(crate) fn leave_board(board: Board<'_>) {
    let _ = board;
}

/// Gives back a board with its tallies.
pub(crate) fn leave_progress(progress: Progress<'_>) {
    let _ = progress;
}

/// Gives back a fragment that wasn't taken.
pub(crate) fn leave_post_refusal(refusal: PostRefusal<'_>) {
    let _ = refusal;
}

/// Gives back a fragment.
pub(crate) fn leave_fragment(fragment: Fragment<'_>) {
    let _ = fragment;
}

/// Gives back a front.
pub(crate) fn leave_front(front: Front<'_>) {
    let _ = front;
}

/// Gives back a fragment that there was no memory to join.
pub(crate) fn leave_refusal(refusal: JoinRefusal<'_>) {
    let _ = refusal;
}

/// Gives back what is left of fragments that were joined or rolled back.
pub(crate) fn leave_spent(spent: Vec<Spent<'_>>) {
    let _ = spent;
}
