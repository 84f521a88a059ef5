//! Who guessed a fragment.

use hp_predict::GuessKind;
use hp_text::Chunk;

/// Who guessed a fragment: a predictor of this kind before this chunk.
#[derive(Clone, Copy, Debug)]
pub struct By<'p> {
    /// The predictor's kind.
    pub kind: GuessKind,
    /// The chunk before which it guessed.
    pub chunk: Chunk<'p>,
}
