//! The flusher: it takes commands from the ring, makes them durable in one block, executes them, and publishes them.

#![tactic(auto)]

mod batch;
mod compaction;
mod faults;
mod flusher;
mod outlet;

pub use batch::Width;
pub use faults::FlushFault;
pub use flusher::Flusher;
pub use outlet::{ERRORS, Tally, code_of};
