//! Sheets that are made from rows. Each entry is on a sheet of its own, in a cell, on a leaf, over the tiles of a poster, or where a specification
//! puts it.
#![tactic(auto)]

mod by_spec;
mod checked;
mod creep;
mod fill;
pub mod laws;
mod poster;
mod poster_rows;
mod same_scale;
mod selecting;

pub use by_spec::{SpecOnRow, spec_sheets};
pub use checked::{check_cells, check_posters};
pub use fill::{Scheme, fill_row};
pub use poster::{Poster, PosterError, check_poster, poster_sheets};
pub use poster_rows::poster_row_sheets;
pub use same_scale::at_one_scale;
pub use selecting::select;
