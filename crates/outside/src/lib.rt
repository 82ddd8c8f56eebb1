//! Where bytes come from and where they go to: a source, a sink and a gate, in memory and over std's readers and writers.
//!
//! Contracts see of a source the bytes that are left, where it tells them, and of a sink the bytes that were written,
//! where it tells them. Of both they see a count of faults, which rises by one at each fault and stands else: an error comes
//! only where it rose. A count that stands at the last value of a `u64` counts as risen.
//!
//! Meaning: `specs/Causes.antt`, `specs/Bytes.antt`, `specs/Memory.antt`. Start at `reading.rt` and `writing.rt`.
#![tactic(auto)]

mod faults;
mod gates;
mod memory_sink;
mod memory_source;
mod reading;
mod stream_sink;
mod stream_source;
mod writing;

pub use faults::Failed;
pub use gates::{Gate, OpenGate};
pub use memory_sink::MemSink;
pub use memory_source::MemSource;
pub use reading::Source;
pub use stream_sink::IoSink;
pub use stream_source::IoSource;
pub use writing::Sink;
