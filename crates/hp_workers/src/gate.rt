//! What a worker passes before it guesses.

/// A place where a worker may be held before it begins to guess.
pub trait Gate {
    /// Is called by the worker of this number before it guesses the chunk of this number. No lock is held then.
    fn before_guess(&self, worker: u32, chunk: u32);
}

/// Holds nobody.
#[derive(Clone, Copy, Debug)]
pub struct OpenGate;

impl Gate for OpenGate {
    fn before_guess(&self, _worker: u32, _chunk: u32) {}
}
