//! The outside as traits: where bytes come from, where they go, and points at which a test may
//! hold a thread. Each trait says what it means and counts its faults.
#![tactic(auto)]

mod adapters;
mod gate;
mod memory_sink;
mod memory_source;
mod sink;
mod source;

pub use adapters::{ReaderSource, WriterSink};
pub use gate::{Gate, NoGate, Point};
pub use memory_sink::MemorySink;
pub use memory_source::MemorySource;
pub use sink::{Put, Sink};
pub use source::{Source, Taken};
