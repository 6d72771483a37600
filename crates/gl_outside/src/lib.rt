//! The world outside the programs: shelves that give the bytes of a name, and sinks that take bytes.
#![tactic(auto)]

mod files;
mod host;
mod memory;
mod shelf;
mod sink;
mod sound;
mod words;

pub use files::Files;
pub use host::{HostShelf, HostSink};
pub use memory::{MemoryShelf, MemorySink};
pub use shelf::{FetchError, Shelf};
pub use sink::{Sink, SinkFailed};
pub use sound::{SoundShelf, SoundSink};
pub use words::command_words;
