//! The messages that `impose` prints at its end, and its exit status for each fault.
#![tactic(auto)]

mod context;
mod fault;
mod finished;
mod input_messages;
mod inputs;
mod layout_messages;
mod messages;
mod place_messages;
mod reports;
mod rooms;
mod run_lines;
mod said;
mod scales;
mod shown;
mod statuses;

pub use fault::{FileKind, ImposeFault};
pub use finished::{Claims, Dependence, Done, Findings, Finished, Lying, PaperOrigin, SheetFacts};
pub use inputs::refused_document;
pub use messages::{command_text, fault_text};
pub use said::{empty_report, text_of_fault, text_said};
pub use scales::Scales;
pub use shown::ShownName;
pub use statuses::fault_status;
pub use suggestions::words_text;
