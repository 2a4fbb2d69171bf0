//! The `pstops` command as a library: reads its words as a request, runs the request, and returns an exit status and a line for standard error.
#![tactic(auto)]

mod command;
pub mod laws;
mod messages;
mod program;
mod request_runs;
mod values;

pub use command::{CommandFault, Request, read_command};
pub use messages::{Fault, fault_line};
pub use program::{ExitReport, pstops};
pub use request_runs::run_request;
pub use std::alloc::AllocError as NoMemory;
pub use world::{MOST_BYTES, ReadFault, ReadSource, Rest, Source, SourceFault, read_input};
