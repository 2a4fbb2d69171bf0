//! Makes the text of a sheet: its `%%Page:` line, each page placed in its slot, the lines that are added at its start and its end, and one
//! `showpage`. No threads are involved.
#![tactic(auto)]

mod dress;
mod job;
mod lines;
mod numbers;
mod openings;
mod paper_report;
mod rope;
mod sheet;
mod sheet_papers;
mod texts;

pub use dress::SheetDress;
pub use job::Job;
pub use lines::Lines;
pub use numbers::Numbers;
pub use openings::Openings;
pub use rope::{Pieces, Rope};
pub use sheet::{append_placed, begin_sheet, end_sheet, sheet_rope, sheet_text};
pub use texts::Texts;
