//! What the calls of a board answer.

use hp_control::{Answer, Control, Question};
use hp_pieces::Fragment;
use hp_text::Chunk;

/// A chunk to run.
#[derive(Drop)]
pub struct Claim<'p> {
    /// What is left of the chunk.
    pub chunk: Chunk<'p>,
    /// The state before it, where that is known. Where it isn't, the chunk is run over a guess.
    pub from: Option<Control>,
}

/// Why a fragment isn't taken.
#[derive(Clone, Copy, Debug, PartialEq, Eq)]
pub enum PostCause {
    /// The chunk isn't claimed by this worker.
    NotYours,
    /// Its text isn't what is left of the chunk.
    OtherText,
    /// It is a guess where the state is known, or from another state, or from a known state where the state isn't known.
    OtherStart,
}

/// A fragment that isn't taken, and why.
#[derive(Drop)]
pub struct PostRefusal<'p> {
    pub cause: PostCause,
    pub fragment: Fragment<'p>,
}

/// What became of the front chunk, which is the first that isn't done.
#[derive(Drop)]
pub enum Advance {
    /// All of its fragment is committed, and it is done.
    Kept,
    /// What its fragment covers is committed, up to this place in bytes from its start.
    Repaired { at: u64 },
    /// Its fragment assumed this answer first that isn't the true one, and is given up.
    RolledBack { question: Question, answer: Answer },
    /// It isn't posted, or all chunks are done.
    Idle,
}
