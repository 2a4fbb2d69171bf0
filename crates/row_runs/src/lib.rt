//! Prepares a row of pages for writing: takes a request, lays the row on sheets, and lists or draws these sheets.
#![tactic(auto)]

mod declared_pages;
mod error;
mod evened;
mod guides;
pub mod laws;
mod limits;
mod look;
mod marked;
mod numbered;
mod reaching;
mod reading;
mod run;
mod sheet_request;
mod swapped_margins;
mod turning;

pub use declared_pages::declared_page_count;
pub use error::{SheetError, plan_error};
pub use look::{row_plan, row_preview};
pub use run::RowJob;
pub use sheet_request::{Laying, SheetRequest, make_sheets};
pub use turning::turned_paper;
