//! Plans. A plan says which page is in which slot of which sheet. It is made for a page specification and a page count, or for sheets that a caller
//! made.
#![tactic(auto)]

mod blank_sheets;
mod error;
mod index;
pub mod laws;
mod made;
mod made_expansion;
mod placed;
mod plan;
mod row;
mod source;
mod spec_expansion;

pub use error::{MadeError, PlanError};
pub use made::{MadeSheets, MadeSlot, PlacedSlot};
pub use plan::Plan;
pub use row::{are_sides, page_in_signature};
