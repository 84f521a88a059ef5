//! The words that the program is called with.
ghost use Rattle.std.specs.Prelude.{◌≡◌, ◌⊎◌, IfErr};

use crate::status::Status;
use hp_words::{Words, words_after_name};
use std::env;
use std::io::ErrorKind;
use std::rt::Env;

/// The words after the program's name. One that isn't UTF-8 is none that the program knows.
pub fn program_words<R: Env + AllocGlobal>(rt: &R) -> Result<Words, Status>
    ensures { IfErr result (λ status. (status ≡ Status.Usage) ⊎ (status ≡ Status.NoMemory)) }
{
    let args = match env::args(rt) {
        Ok(args) => args,
        Err(fault) if fault.kind() == ErrorKind::OutOfMemory => return Err(Status::NoMemory),
        Err(_) => return Err(Status::Usage),
    };
    words_after_name(rt.alloc(), args).map_err(|_| Status::NoMemory)
}
