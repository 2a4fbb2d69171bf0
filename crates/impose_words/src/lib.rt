//! Reads the command line of `impose` into a request.
#![tactic(auto)]

mod arguments;
mod arranging;
mod command;
mod edges;
mod fault;
mod idle;
mod options;
mod poster_size;
mod request;
mod sheet_paper;
mod signature;
mod sizes;
mod subcommands;

pub use arranging::{cells_named, run_named, turned_named};
pub use command::read_command;
pub use edges::{gaps_named, margins_named};
pub use fault::{CellCommand, OptionId, ProductOption, RequestFault};
pub use idle::IdleOption;
pub use options::{OptionTable, asks_for_options, options_text};
pub use poster_size::poster_size_named;
pub use request::{ImposeRequest, Layout, PageChoice, PosterSize, Product, Spacing, Turning};
pub use signature::{signing_named, whole_number};
pub use sizes::{lacks_unit, length_with_unit, parse_number, size_named};
