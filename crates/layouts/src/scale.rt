//! The scale of pages in a grid.
ghost use Rattle.std.specs.Prelude.{◌≡◌, ◌-◌, ◌*◌, ◌^◌, ◌<◌, ◌≤◌, nat_abs, IsTrue};
ghost use Rattle.rules.specs.Papers.{is_side, longest_side};
ghost use Rattle.layouts.specs.Refusals.{is_scale_in_range as may_be_scale, is_shown};
ghost use Rattle.layouts.specs.Cells.{kept_length as kept_of, left_free as left_free_of, pitch as step_of};
ghost use Rattle.layouts.specs.Cells.{step_across, step_down, wide, high};
ghost use Rattle.layouts.specs.Cells.{trimmed_side as counted_of, fitting as fits, scale_in as scale_of};
ghost use Rattle.layouts.specs.Cells.{exact_along as along_exactly, exact_scale as exact_scale_of};

use super::grid::Grid;
use super::room::{Along, Room};
use lengths::{Grains, Paper};

/// The number of grains in 10^-5 of a point.
pub const HUNDRED_THOUSANDTH: u64 = 1_270_000;

/// The shortest length that offsets can't reach, in grains: 100,000 points.
pub(crate) const OUT_OF_REACH: u64 = 12_700_000_000_000_000;

/// A side of a paper, in grains.
pub fn extent(side: Grains) -> u64
    requires { IsTrue (is_side side) }
    ensures value { result ≡ nat_abs side }
    ensures some { 0 < result }
    ensures in_range { result ≤ longest_side }
{
    side.get() as u64
}

/// The length that is kept free for a margin or gap, in 10^-5 of a point. If pages are trimmed, it is 10^-5 of a point longer than `length`, because
/// the length by which pages are moved back for the trim is rounded.
pub(crate) fn kept_length(trim: u64, length: u64) -> u64
    requires { length ≤ 10_000_000_000 }
    ensures value { result ≡ kept_of trim length }
    ensures in_range { result ≤ 10_000_000_001 }
{
    if trim == 0 { length } else { length + 1 }
}

/// The length that the margins leave free of a side, or 0 if they leave nothing. Both lengths are in grains.
pub(crate) fn left_free(along: &Along, side: u64) -> u64
    requires { side ≤ longest_side }
    ensures value { result ≡ left_free_of along.now side }
    ensures in_range { result ≤ longest_side }
{
    side.saturating_sub(
        HUNDRED_THOUSANDTH
            * (kept_length(along.trim, along.before) + kept_length(along.trim, along.after)),
    )
}

/// The distance from the start of one cell to the start of the next, in 10^-5 of a point, rounded down, if a side is divided into this number of
/// cells. `side` is in grains.
pub(crate) fn pitch(along: &Along, side: u64, parts: u32) -> u64
    requires some { 0 < parts }
    requires in_range { side ≤ longest_side }
    ensures value { result ≡ step_of along.now side parts }
    ensures within { parts * result ≤ 10 ^ 12 }
{
    let free = left_free(along, side) + HUNDRED_THOUSANDTH * kept_length(along.trim, along.gap);
    free / (HUNDRED_THOUSANDTH * u64::from(parts))
}

/// The distances from the start of one cell to the start of the next, across and down, with the sheet held so that its pages are upright. Both are in
/// 10^-5 of a point and rounded down.
pub(crate) fn pitches(room: &Room, grid: Grid) -> (u64, u64)
    ensures across { result.0 ≡ step_across room.now grid }
    ensures down { result.1 ≡ step_down room.now grid }
    ensures some { (0 < grid.rows) × (0 < grid.columns) }
    ensures columns { grid.columns * result.0 ≤ 10 ^ 12 }
    ensures rows { grid.rows * result.1 ≤ 10 ^ 12 }
{
    let (width, height) = (extent(room.paper.width()), extent(room.paper.height()));
    let (across, down) = room.as_read(grid.turned);
    if grid.turned {
        (
            pitch(&across, height, grid.columns),
            pitch(&down, width, grid.rows),
        )
    } else {
        (
            pitch(&across, width, grid.columns),
            pitch(&down, height, grid.rows),
        )
    }
}

/// The width and the height of a cell, in 10^-5 of a point and rounded down, with the sheet held so that its pages are upright. Each is 0 if the gap
/// leaves nothing for it.
pub fn cell_size(room: &Room, grid: Grid) -> (u64, u64)
    ensures width { result.0 ≡ wide room.now grid }
    ensures height { result.1 ≡ high room.now grid }
    ensures in_range { (result.0 ≤ 10 ^ 12) × (result.1 ≤ 10 ^ 12) }
{
    let (across, down) = pitches(room, grid);
    let (beside, above) = room.as_read(grid.turned);
    (
        across.saturating_sub(kept_length(beside.trim, beside.gap)),
        down.saturating_sub(kept_length(above.trim, above.gap)),
    )
}

/// The length of a side of a page without the trim at both of its ends, or 0 if the trim leaves nothing. The result is in grains.
pub(crate) fn trimmed_side(room: &Room, length: Grains) -> u64
    requires { IsTrue (is_side length) }
    ensures value { result ≡ counted_of room.now length }
    ensures in_range { result ≤ longest_side }
{
    extent(length).saturating_sub(2_540_000 * room.trim)
}

/// The largest scale, in 10^-9 and rounded down, at which a side fits into a cell. `cell` is in 10^-5 of a point, and `side` in grains.
pub fn largest_scale(cell: u64, side: u64) -> u128
    requires { 0 < side }
    ensures { result ≡ fits cell side }
{
    1_270_000_000_000_000 * u128::from(cell) / u128::from(side)
}

/// The largest scale, in 10^-9 and rounded down, at which a page fits into a cell of the grid.
pub(crate) fn scale_in(page: &Paper, room: &Room, grid: Grid) -> u128
    requires { IsTrue (is_shown page.now room.now) }
    ensures { result ≡ scale_of page.now room.now grid }
{
    let (width, height) = cell_size(room, grid);
    largest_scale(width, trimmed_side(room, page.width())).min(largest_scale(
        height,
        trimmed_side(room, page.height()),
    ))
}

/// The largest scale, in 10^-9 and rounded down, of pages in this number of equal cells along a side. It is 0 if margins and gaps leave nothing.
/// `side` and `page`, the sides of the sheet and of a page, are in grains.
fn exact_along(along: &Along, side: u64, parts: u32, page: u64) -> u128
    requires some { 0 < parts }
    requires shown { 0 < page }
    requires in_range { side ≤ longest_side }
    ensures { result ≡ along_exactly along.now side parts page }
{
    let gap = u128::from(kept_length(along.trim, along.gap));
    let all = 1_000_000_000 * u128::from(left_free(along, side)) + 1_270_000_000_000_000 * gap;
    all.saturating_sub(1_270_000_000_000_000 * (gap * u128::from(parts)))
        / (u128::from(page) * u128::from(parts))
}

/// The largest scale, in 10^-9 and rounded down, at which pages fit into exact parts of the sheet. Unlike cells, these parts aren't rounded.
pub(crate) fn exact_scale(page: &Paper, room: &Room, grid: Grid) -> u128
    requires { IsTrue (is_shown page.now room.now) }
    ensures { result ≡ exact_scale_of page.now room.now grid }
{
    let (width, height) = (extent(room.paper.width()), extent(room.paper.height()));
    let (across, down) = if grid.turned {
        (height, width)
    } else {
        (width, height)
    };
    let (beside, above) = room.as_read(grid.turned);
    let wide = exact_along(
        &beside,
        across,
        grid.columns,
        trimmed_side(room, page.width()),
    );
    wide.min(exact_along(&above, down, grid.rows, trimmed_side(room, page.height())))
}

/// Whether a layout can have this scale, which is given in 10^-9. The scale has to be above 0, and at most 99,999.
pub fn is_scale(scale: u128) -> bool
    ensures { result ≡ may_be_scale scale }
{
    1 <= scale && scale <= 99_999_000_000_000
}
