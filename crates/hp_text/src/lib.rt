//! Bytes in and out: sources and sinks, reading a page, checking that it is UTF-8, the page's text and its chunks.
#![tactic(auto)]

mod chunks;
mod devices;
mod memory;
mod pages;
mod reading;
mod streams;
mod writing;

pub use chunks::Chunk;
pub use devices::{Failed, Sink, Source};
pub use memory::{MemorySink, MemorySource, SteadySource};
pub use pages::{NotUtf8, Page, check_page};
pub use reading::{PAGE_LIMIT, ReadRefusal, read_page};
pub use std::alloc::AllocError as NoMemory;
pub use streams::{StreamSink, StreamSource, TellingRead, TellingWrite};
pub use writing::{WriteFault, write_whole};
