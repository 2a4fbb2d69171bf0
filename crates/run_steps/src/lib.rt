//! The two steps of a run: delivering a page and imposing a sheet. Any number of threads may take these steps at the same time.
#![tactic(auto)]

mod delivery;
mod imposition;
pub mod laws;

pub use delivery::{Answers, DeliverError, Delivered, Delivery, deliver};
pub use imposition::{ImposeError, Imposed, Imposition, impose, is_complete};
