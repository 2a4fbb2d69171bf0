//! The surroundings of a program: its files and standard streams. Inputs can be read whole, and outputs can be buffered.
#![tactic(auto)]

mod buffered;
mod failures;
mod front;
mod host;
mod late;
mod output;
mod read;
mod report;
mod rest;
mod sink;
mod source;
mod white_space;
mod world;

pub use buffered::{Broken, Buffered, write_and_flush};
pub use failures::Failures;
pub use front::read_front;
pub use host::{Host, HostInput, HostOutput};
pub use late::{Asked, Before, Fate, Late};
pub use output::{Output, WriteOutput};
pub use read::{MOST_BYTES, ReadFault, read_input, read_input_after};
pub use report::report_line;
pub use rest::Rest;
pub use sink::created;
pub use source::{ReadSource, Source, SourceFault};
pub use white_space::padding;
pub use world::{Refused, World};
