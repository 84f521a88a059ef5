//! The journal: what happened to the chunks, in order.

use crate::kinds::QuestionKind;
use hp_predict::GuessKind;

/// Main's number. Workers have the numbers below it.
pub const MAIN: u32 = 64;

/// How far a chunk is.
#[derive(Clone, Copy, Debug, PartialEq, Eq)]
pub enum Status {
    Unclaimed,
    /// A worker runs it over a guess.
    Claimed(u32),
    /// A fragment of it waits to be judged.
    Posted,
    /// The state before what is left of it is known.
    Again,
    /// A worker runs it from that state.
    AgainClaimed(u32),
    Done,
}

/// Where a posted fragment comes from.
#[derive(Clone, Copy, Debug, PartialEq, Eq)]
pub enum Origin {
    /// From a known state.
    Replayed,
    /// Over a guess by nobody known, or for a chunk that looks different.
    Guessed,
    /// Over a guess by a predictor of this kind.
    GuessedBy(GuessKind),
}

/// What happened to a chunk.
#[derive(Clone, Copy, Debug, PartialEq, Eq)]
pub enum BoardStep {
    /// It was claimed, and it was Again or it was Unclaimed.
    Claimed {
        chunk: u32,
        again: bool,
    },
    /// A fragment was posted that covers so many bytes.
    Posted {
        chunk: u32,
        covered: u64,
        by: Origin,
    },
    /// All of it was committed.
    Kept {
        chunk: u32,
    },
    /// It was committed up to this place, in bytes from its start.
    Repaired {
        chunk: u32,
        at: u64,
    },
    /// The answer to a question of this kind was wrong, and nothing was committed.
    RolledBack {
        chunk: u32,
        kind: QuestionKind,
    },
    /// Its claim was taken back.
    Released {
        chunk: u32,
    },
}

/// A step of a worker, or of main.
#[derive(Clone, Copy, Debug, PartialEq, Eq)]
pub struct Entry {
    pub worker: u32,
    pub step: BoardStep,
}

/// All steps in order.
pub type Journal = Vec<Entry>;
