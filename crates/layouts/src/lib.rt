//! Layouts: pages in cells and on leaves, so that users needn't compute scales and offsets.
#![tactic(auto)]

pub mod arrangement;
mod arranging;
mod best;
mod cell;
mod error;
mod grid;
mod item;
pub mod laws;
mod room;
mod scale;
pub mod setting;

pub use arrangement::{Arrangement, Binding, Cells, FillOrder, Free, Order, Papers, Turned};
pub use arranging::{MOST_ON_SHEET, check_room, fits_offsets, is_of_size};
pub use cell::{Cell, from_far, gap_at, in_grains};
pub use error::ArrangementError;
pub use grid::Grid;
pub use item::{distance, grains, points_e5, read_sides, scale_e9, slack};
pub use room::{Along, Room, is_length, rounded_down, rounded_up};
pub use scale::{HUNDRED_THOUSANDTH, cell_size, extent, is_scale, largest_scale};
pub use setting::Setting;
