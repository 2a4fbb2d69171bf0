//! The guard: lines of PostScript that are inserted into a document before it is imposed. A page may print the sheet,
//! change the page device or set a matrix by itself. The guard then keeps the page in its place on the sheet. Against a
//! setup that moves the pages it can do nothing, but such setups are found.
#![tactic(auto)]

pub mod laws;
mod roomy_text;
mod setup;
mod text;

pub use roomy_text::RoomyText;
pub use setup::{ends_setup, next_token, places_pages};
pub use text::{guarded, put_guard, put_guard_before};
