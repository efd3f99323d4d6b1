//! Where bytes come from and go to: sources and sinks that count their faults, in memory and over
//! std's streams.
//!
//! `read_all` reads a source to its end within a limit, `write_all` writes a whole text.
#![tactic(auto)]

mod failed;
mod memory_sink;
mod memory_source;
mod sink;
mod source;
mod standard;
mod sure;

pub use cred_ids::Bytes;
pub use failed::Failed;
pub use memory_sink::MemorySink;
pub use memory_source::MemorySource;
pub use sink::{Sink, SinkRefusal, write_all};
pub use source::{ReadRefusal, Source, read_all};
pub use standard::{StdSink, StdSource};
pub use sure::{SureSink, SureSource};
