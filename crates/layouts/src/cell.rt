//! The places of cells on their sheet, and of the gaps between them.
ghost use Rattle.std.specs.Prelude.{◌≡◌, ◌*◌, ◌^◌, ◌<◌, ◌≤◌, ◌-ℤ◌, pos, nat_abs, IsTrue};
ghost use Rattle.rules.specs.Papers.{is_side};
ghost use Rattle.layouts.specs.Cells.{cells_across as across_of, cells_up as up_of, gap_at as gap_of, grains_in};
ghost use Rattle.layouts.specs.Laws.{cell_at};

use super::grid::Grid;
use super::item::grains;
use super::room::{Along, Room};
use super::scale::{HUNDRED_THOUSANDTH, cell_size, extent, kept_length, pitch, pitches};
use lengths::Grains;
use std::marker::Model;

/// A cell on its sheet: its distances from the left and the lower edge, and its width and height, all in 10^-5 of a point. Contracts see it as the
/// cell of the definitions.
#[derive(Clone, Copy, Debug, PartialEq, Eq)]
pub struct Cell {
    pub left: u64,
    pub bottom: u64,
    pub width: u64,
    pub height: u64,
}

impl Model for Cell {
    ghost use Rattle.std.specs.Prelude.{◌≤◌};
    ghost use Rattle.layouts.specs.Laws.{Cell as OnSheet};

    ghost Value = { OnSheet };

    ghost view = { λ c. record { left = c.left; bottom = c.bottom; width = c.width; height = c.height } };

    ghost invariant = { λ c.
        (c.left ≤ 2_000_000_000_000) × (c.bottom ≤ 2_000_000_000_000) × (c.width ≤ 2_000_000_000_000)
        × (c.height ≤ 2_000_000_000_000) };

    ghost inverse = { λ c. record { left = c.left; bottom = c.bottom; width = c.width; height = c.height } };
}

impl Room {
    /// The cell in this row and column. With the sheet held so that its pages are upright, rows are counted from 0 at the top, and columns from 0 at
    /// the left.
    pub fn cell(&self, grid: Grid, row: u32, column: u32) -> Cell
        requires in_rows { row < grid.rows }
        requires in_columns { column < grid.columns }
        ensures { result ≡ cell_at self.now grid row column }
    {
        let (across, down) = pitches(self, grid);
        let (width, height) = cell_size(self, grid);
        if grid.turned {
            Cell {
                left: kept_length(self.trim, self.left) + u64::from(row) * down,
                bottom: kept_length(self.trim, self.bottom) + u64::from(column) * across,
                width: height,
                height: width,
            }
        } else {
            Cell {
                left: kept_length(self.trim, self.left) + u64::from(column) * across,
                bottom: kept_length(self.trim, self.bottom)
                    + u64::from(grid.rows - (row + 1)) * down,
                width,
                height,
            }
        }
    }
}

impl Grid {
    /// The number of cells side by side, before the sheet is turned for reading.
    pub fn across(self) -> u32
        ensures value { result ≡ across_of self }
        ensures some { 0 < result }
    {
        if self.turned { self.rows } else { self.columns }
    }

    /// The number of cells one above another, before the sheet is turned for reading.
    pub fn up(self) -> u32
        ensures value { result ≡ up_of self }
        ensures some { 0 < result }
    {
        if self.turned { self.columns } else { self.rows }
    }
}

/// The middle of the gap before part `k` of a side, in grains from the start of the side, or 0 if this would lie before the start. Parts are counted
/// from 0. If `k` is `parts`, the gap is the one that a further part would have before it.
pub fn gap_at(along: &Along, length: Grains, parts: u32, k: u32) -> Grains
    requires side { IsTrue (is_side length) }
    requires some { 0 < parts }
    requires part { k ≤ parts }
    ensures { result ≡ pos (gap_of along.now (nat_abs length) parts k) }
{
    let before = kept_length(along.trim, along.before)
        + u64::from(k) * pitch(along, extent(length), parts);
    let gap = HUNDRED_THOUSANDTH / 2 * kept_length(along.trim, along.gap);
    grains(i128::from((HUNDRED_THOUSANDTH * before).saturating_sub(gap)))
}

/// The distance, in grains, from the far end of a side to a place on it. `place` is the distance from the near end.
pub fn from_far(length: Grains, place: Grains) -> Grains
    requires side { IsTrue (is_side length) }
    requires few { nat_abs place ≤ 12_700_000_000_000_000 }
    ensures { result ≡ length -ℤ place }
{
    grains(length.get() - place.get())
}

/// The length that is `length` times 10^-5 of a point, in grains.
pub fn in_grains(length: u64) -> Grains
    requires { length ≤ 2 * 10 ^ 16 }
    ensures { result ≡ pos (grains_in length) }
{
    grains(i128::from(HUNDRED_THOUSANDTH) * i128::from(length))
}
