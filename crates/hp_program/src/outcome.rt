//! How a run ends, with what the notes tell of it.
ghost use Rattle.std.specs.Prelude.{◌≡◌};
ghost use Rattle.hp_program.specs.Outcomes.{status_of};

use crate::status::Status;
use hp_cut::CutRefusal;

/// How a run ended, with what its line in the notes tells.
#[derive(Drop)]
pub(crate) enum Outcome {
    /// All was written. The report is empty where none was asked for.
    Done { report: Vec<u8> },
    /// The words are none that the program knows.
    Usage,
    /// The page isn't UTF-8 from this byte on, counted as it was read.
    NotUtf8 { at: u64 },
    /// The page has more bytes than a page may have.
    TooLarge,
    /// The page could not be read to its end.
    ReadFault,
    /// The output failed after it had taken so many bytes.
    WriteFault { taken: u64 },
    /// Memory ran out.
    NoMemory,
    /// The page can't be cut at the places that the words list.
    BadCuts { refusal: CutRefusal },
    /// The text of the selector is none.
    BadSelector,
}

impl Outcome {
    /// The status of a run that ended so.
    pub(crate) fn status(&self) -> Status
        ensures { result ≡ status_of self.now }
    {
        match self {
            Outcome::Done { .. } => Status::Done,
            Outcome::Usage => Status::Usage,
            Outcome::NotUtf8 { .. } => Status::NotUtf8,
            Outcome::TooLarge => Status::TooLarge,
            Outcome::ReadFault => Status::ReadFault,
            Outcome::WriteFault { .. } => Status::WriteFault,
            Outcome::NoMemory => Status::NoMemory,
            Outcome::BadCuts { .. } => Status::BadCuts,
            Outcome::BadSelector => Status::BadSelector,
        }
    }
}
