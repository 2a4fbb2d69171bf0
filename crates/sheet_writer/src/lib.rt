//! Writes the sheets of a run to a sink, in the order of their numbers. No threads are involved.
#![tactic(auto)]

mod reorder_buffer;
mod sink;
mod writing;

pub use reorder_buffer::{ReorderBuffer, Spent};
pub use sink::{MemorySink, Sink, SinkFault, WriteSink};
pub use writing::{Halt, Progress, write_early, write_in_pieces, write_rest, write_text};
