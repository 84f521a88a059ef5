//! The program `hpar`: reads a page from the standard input, and writes its tree to the standard output.
#![tactic(auto)]

mod answering;
mod form;
mod modes;
mod notes;
mod outcome;
mod output;
mod parsing;
mod status;
#[cfg(test)]
mod tests;
mod top;
#[cfg(test)]
mod word_tests;
mod words;

pub use answering::answer;
use hp_text::{StreamSink, StreamSource};
pub use hp_words::Words;
pub use hp_workers::{Gate, OpenGate};
pub use status::Status;
use std::process::ExitCode;
pub use top::hpar;

fn main(rt: HostRuntime) -> ExitCode {
    let mut page = StreamSource::new(rt.stdin());
    let mut out = StreamSink::new(rt.stdout());
    let mut notes = StreamSink::new(rt.stderr());
    let status = answer(
        &rt,
        rt.alloc(),
        words::program_words(&rt),
        &mut page,
        &mut out,
        &mut notes,
        &OpenGate,
    );
    ExitCode::from(status.code())
}
