//! Rows. A row says which pages are imposed, and in which order. It is a list of pages, counted from 0, and of blanks, which are None. A row is read
//! from a text of ranges, or has all pages of a document. It may be cut down to its odd or its even places, reversed, put into signatures, or begun
//! after used cells.
#![tactic(auto)]

mod choices;
mod cutting;
mod entries;
mod error;
mod filling;
mod found_ranges;
mod last_page;
pub mod laws;
mod named_rows;
mod parts;
mod places;
mod printed;
mod sewing;
mod signatures;
mod tallies;

pub use choices::{Choice, Part, chosen_row};
pub use entries::entry_at;
pub use error::RowError;
pub use named_rows::read_row;
pub use parts::{all_pages, even_part, odd_part};
pub use printed::{Begun, RowRequest};
pub use sewing::{Signing, auto_sides, imposed_row, signed_row};
pub use signatures::in_signatures;
