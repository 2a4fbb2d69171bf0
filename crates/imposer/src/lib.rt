//! A run: it reads a document and a page specification, and writes the imposed sheets. Planned sheets are imposed by several threads, which share a
//! table, a shelf and a queue.
#![tactic(auto)]

mod baton;
mod bits;
mod channel;
mod collector;
mod gate;
mod gathering;
mod imposing;
mod join;
pub mod laws;
mod listener;
mod options;
mod outcome;
mod planned;
mod preparing;
mod rooms;
mod runs;
mod setup;
mod shared;
mod sheet_set;
mod spent;
mod start;
mod statuses;
mod thread_work;
mod threads;
mod tokens;
mod window;
mod work;
mod worker_counts;

pub use gate::{Gate, Look, Open, Step};
pub use gathering::{Gathered, gather};
pub use listener::{GatheredPlan, Listener, NoListener};
pub use options::Options;
pub use outcome::{Report, RunError};
pub use planned::run_plan;
pub use run_steps::{DeliverError, Delivered, ImposeError, Imposed, deliver, impose};
pub use runs::run;
pub use sheet_set::SheetSet;
pub use sheet_text::{Job, Lines, Numbers, SheetDress, sheet_text};
pub use sheet_writer::{MemorySink, Sink, SinkFault, WriteSink};
pub use statuses::run_status;
pub use std::alloc::AllocError as NoMemory;
pub use thread_work::{Collector, Imposing, Work};
pub use threads::{ThreadCounts, ThreadInputs, run_threads};
pub use worker_counts::Workers;
