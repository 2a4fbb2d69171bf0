//! The command `impose`: it reads a command line, imposes a document as the command line asks, and writes the result.
#![tactic(auto)]

mod attempt;
mod claims;
mod copies;
mod fonts;
mod fronts;
pub mod laws;
mod laying;
mod look;
mod loose;
mod lying;
mod poster_size;
mod precheck;
mod printed;
mod program;
mod reach;
mod row_task;
mod runs;
mod taken;

pub use guard::RoomyText;
pub use impose_messages::{
    Claims, Done, FileKind, Findings, Finished, ImposeFault, PaperOrigin, Scales, command_text,
    empty_report, fault_status, fault_text, text_of_fault, text_said, words_text,
};
pub use impose_words::{
    CellCommand, IdleOption, ImposeRequest, Layout, OptionId, PageChoice, PosterSize, Product,
    ProductOption, RequestFault, Spacing, cells_named, parse_number, poster_size_named,
    read_command, run_named, signing_named, size_named, turned_named,
};
pub use laying::check_layout;
pub use look::{Overview, look_text};
pub use precheck::check_request;
pub use printed::spec_text;
pub use program::{Ended, impose};
pub use world::Rest;
