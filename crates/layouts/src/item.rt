//! Pages in the cells of a grid.
ghost use Rattle.std.specs.Prelude.{◌≡◌, ◌+◌, ◌*◌, ◌^◌, pos, ◌<◌, ◌≤◌, ◌+ℤ◌, ◌-ℤ◌, if◌then◌else◌, nat_abs, IsTrue};
ghost use Rattle.lengths.specs.Ranges.{FitsGrains};
ghost use Rattle.rules.specs.Numbers.{greatest_number};
ghost use Rattle.rules.specs.Papers.{is_side};
ghost use Rattle.pagespec.specs.Items.{item_of, measure_of};
ghost use Rattle.layouts.specs.Grids.{page_alone as alone_of};
ghost use Rattle.layouts.specs.Cells.{size, in_points, slack as slack_of, slack_x, slack_y};
ghost use Rattle.layouts.specs.Cells.{trimmed as trimmed_of, whole_parts as whole_of};
ghost use Rattle.layouts.specs.Cells.{corner_x, corner_y, to_right as to_right_of, to_top as to_top_of};
ghost use Rattle.layouts.specs.Cells.{read_columns as read_columns_of, read_rows as read_rows_of, read_row, read_column};
ghost use Rattle.layouts.specs.Cells.{row_of, column_of, item_in_cell as item_of_grid, back_in as back_of_grid};
ghost use Rattle.layouts.specs.Refusals.{within_reach as are_near, greatest_scale};
ghost use Rattle.layouts.specs.Laws.{HasPlace};

use super::arrangement::{FillOrder, Order, Turned};
use super::grid::Grid;
use super::room::Room;
use super::scale::{HUNDRED_THOUSANDTH, cell_size, extent, trimmed_side};
use lengths::{Grains, Number, Paper, Unit};
use pagespec::{Item, Measure, Turn};

/// Pages in the cells of a grid. They all have one paper, and one scale, in 10^-9.
#[derive(Drop)]
pub(crate) struct GridLayout {
    pub page: Paper,
    pub room: Room,
    pub grid: Grid,
    pub order: Order,
    pub scale: u64,
}

/// The length that is `n` times 10^-5 of a point.
pub fn points_e5(n: i64) -> Measure
    requires { nat_abs n ≤ 9_999_999_999 }
    ensures { measure_of result ≡ in_points n }
{
    match Number::new(10_000 * n) {
        Some(number) => Measure {
            number,
            unit: Unit::Pt,
        },
        None => unreachable!(),
    }
}

/// The distance from one coordinate to another, both in 10^-5 of a point. It is negative if `to` is less than `from`.
pub fn distance(from: i64, to: i64) -> Measure
    requires { nat_abs (to -ℤ from) ≤ 9_999_999_999 }
    ensures { measure_of result ≡ in_points (to -ℤ from) }
{
    points_e5(to - from)
}

/// Half of the length that a scaled side of a page leaves free in its cell, rounded down, or 0 if the scaled side is longer than the cell. The result
/// and `cell` are in 10^-5 of a point, `side` is in grains, and `scale` is in 10^-9.
pub fn slack(cell: u64, side: u64, scale: u64) -> u128
    ensures value { result ≡ slack_of cell side scale }
    ensures most { result ≤ cell }
{
    (1_270_000_000_000_000 * u128::from(cell)).saturating_sub(u128::from(scale) * u128::from(side))
        / 2_540_000_000_000_000
}

/// The numbers of columns and rows of a grid, as one reads the sheet.
pub fn read_sides(turned: Turned, grid: Grid) -> (u32, u32)
    ensures columns { result.0 ≡ read_columns_of turned grid }
    ensures rows { result.1 ≡ read_rows_of turned grid }
    ensures size { result.1 * result.0 ≡ size grid }
    ensures some { (0 < result.0) × (0 < result.1) }
{
    match turned {
        Turned::Upright => (grid.columns, grid.rows),
        Turned::Left | Turned::Right => (grid.rows, grid.columns),
    }
}

/// The row and the column of page k, all counted from 0, as one reads the sheet.
fn place_as_read(order: &Order, grid: Grid, k: u32) -> (u32, u32)
    requires { k < size grid }
    ensures row { result.0 ≡ read_row order.now.run order.now.turned grid k }
    ensures column { result.1 ≡ read_column order.now.run order.now.right_to_left order.now.turned grid k }
    ensures in_rows { result.0 < read_rows_of order.now.turned grid }
    ensures in_columns { result.1 < read_columns_of order.now.turned grid }
{
    let (columns, rows) = read_sides(order.turned, grid);
    let (row, nth) = match order.run {
        FillOrder::Rows => (k / columns, k % columns),
        FillOrder::Columns => (k % rows, k / rows),
    };
    let column = if order.right_to_left {
        columns - (nth + 1)
    } else {
        nth
    };
    (row, column)
}

/// The row and the column of page k, all counted from 0, with the sheet held so that its pages are upright.
fn place_as_held(order: &Order, grid: Grid, k: u32) -> (u32, u32)
    requires { k < size grid }
    ensures row { result.0 ≡ row_of order.now grid k }
    ensures column { result.1 ≡ column_of order.now grid k }
    ensures in_rows { result.0 < grid.rows }
    ensures in_columns { result.1 < grid.columns }
{
    let (row, column) = place_as_read(order, grid, k);
    match order.turned {
        Turned::Upright => (row, column),
        Turned::Left => (column, grid.columns - (row + 1)),
        Turned::Right => (grid.rows - (column + 1), row),
    }
}

impl GridLayout {
    /// The place of the page's own lower left corner, without its trim, if the page is in this row and column. It is given by its distances from the
    /// left and the lower edge of the sheet, in 10^-5 of a point. If pages are turned, this corner of a page is at the lower right on the sheet.
    fn corner(&self, row: u32, column: u32) -> (u64, u64)
        requires place { HasPlace self.now.page self.now.room self.now.grid self.now.scale }
        requires in_rows { row < self.now.grid.rows }
        requires in_columns { column < self.now.grid.columns }
        ensures x { result.0 ≡ corner_x self.now.page self.now.room self.now.grid self.now.scale row column }
        ensures y { result.1 ≡ corner_y self.now.page self.now.room self.now.grid self.now.scale row column }
        ensures across { result.0 ≤ whole_of (nat_abs self.now.room.paper.width) }
        ensures up { result.1 ≤ whole_of (nat_abs self.now.room.paper.height) }
    {
        let cell = self.room.cell(self.grid, row, column);
        let (beside, above) = self.slacks();
        if self.grid.turned {
            (
                cell.left + cell.width.saturating_sub(above),
                cell.bottom + beside,
            )
        } else {
            (cell.left + beside, cell.bottom + above)
        }
    }

    /// Half of the width and half of the height that a page leaves free in its cell, with the sheet held so that the page is upright. Both are in
    /// 10^-5 of a point, and rounded down. Each is 0 if the page is longer than its cell in this direction.
    fn slacks(&self) -> (u64, u64)
        ensures across { result.0 ≡ slack_x self.now.page self.now.room self.now.grid self.now.scale }
        ensures down { result.1 ≡ slack_y self.now.page self.now.room self.now.grid self.now.scale }
        ensures in_range { (result.0 ≤ 10 ^ 12) × (result.1 ≤ 10 ^ 12) }
    {
        let (width, height) = cell_size(&self.room, self.grid);
        (
            slack(
                width,
                trimmed_side(&self.room, self.page.width()),
                self.scale,
            ) as u64,
            slack(
                height,
                trimmed_side(&self.room, self.page.height()),
                self.scale,
            ) as u64,
        )
    }

    /// The distances by which page k, counted from 0, is moved to the right and up, in 10^-5 of a point. Each may be negative.
    fn shift(&self, k: u32) -> (i64, i64)
        requires place { HasPlace self.now.page self.now.room self.now.grid self.now.scale }
        requires near { IsTrue (are_near self.now.room self.now.scale) }
        requires cell { k < size self.now.grid }
        ensures right { result.0 ≡ to_right_of self.now.page self.now.room self.now.grid self.now.scale
            (row_of self.now.order self.now.grid k) (column_of self.now.order self.now.grid k) }
        ensures top { result.1 ≡ to_top_of self.now.page self.now.room self.now.grid self.now.scale
            (row_of self.now.order self.now.grid k) (column_of self.now.order self.now.grid k) }
        ensures across { nat_abs result.0 ≤ 9_999_999_999 }
        ensures up { nat_abs result.1 ≤ 9_999_999_999 }
        ensures back_across { nat_abs (pos (whole_of (nat_abs self.now.room.paper.width)) -ℤ result.0) ≤ 9_999_999_999 }
        ensures back_up { nat_abs (pos (whole_of (nat_abs self.now.room.paper.height)) -ℤ result.1) ≤ 9_999_999_999 }
    {
        let (row, column) = place_as_held(&self.order, self.grid, k);
        let (x, y) = self.corner(row, column);
        let back = trimmed(&self.room, self.scale);
        moved_by(self.grid.turned, x, y, back)
    }

    /// The item that places page k, counted from 0, in its cell.
    pub(crate) fn item_in(&self, k: u32) -> Item
        requires place { HasPlace self.now.page self.now.room self.now.grid self.now.scale }
        requires near { IsTrue (are_near self.now.room self.now.scale) }
        requires scale { self.now.scale ≤ greatest_number }
        requires cell { k < size self.now.grid }
        ensures { item_of result
            ≡ item_of_grid self.now.page self.now.room self.now.grid self.now.order self.now.scale k }
    {
        let (x, y) = self.shift(k);
        Item {
            page: k,
            from_end: false,
            turn: if self.grid.turned {
                Turn::Left
            } else {
                Turn::None
            },
            scale: scale_e9(self.scale),
            offset: (points_e5(x), points_e5(y)),
        }
    }

    /// The item that places page n + k of a block where page k would be if the sheet were rotated by 180 degrees.
    pub(crate) fn back_in(&self, n: u32, k: u32) -> Item
        requires place { HasPlace self.now.page self.now.room self.now.grid self.now.scale }
        requires near { IsTrue (are_near self.now.room self.now.scale) }
        requires scale { self.now.scale ≤ greatest_number }
        requires cell { k < size self.now.grid }
        requires page { n + k < 4_294_967_296 }
        ensures { item_of result
            ≡ back_of_grid self.now.page self.now.room self.now.grid self.now.order self.now.scale n k }
    {
        let (x, y) = self.shift(k);
        let width = whole_parts(self.room.paper.width());
        let height = whole_parts(self.room.paper.height());
        Item {
            page: n + k,
            from_end: false,
            turn: if self.grid.turned {
                Turn::Right
            } else {
                Turn::Half
            },
            scale: scale_e9(self.scale),
            offset: (distance(x, width), distance(y, height)),
        }
    }
}

/// The distances by which a page is moved to the right and up, so that the corner of the page without its trim comes to the place (x, y). `back` is
/// the length of the trim on the sheet. Turned pages are moved to the right by that length, because their corner is at the right. All lengths are in
/// 10^-5 of a point.
fn moved_by(turned: bool, x: u64, y: u64, back: u64) -> (i64, i64)
    requires across { x + back < 10_000_000_000 }
    requires up { y + back < 10_000_000_000 }
    ensures right { result.0 ≡ (if turned then pos x +ℤ pos back else pos x -ℤ pos back) }
    ensures top { result.1 ≡ pos y -ℤ pos back }
{
    let (x, y, back) = (x as i64, y as i64, back as i64);
    (if turned { x + back } else { x - back }, y - back)
}

/// The length that the trim along a side of a page has on the sheet, in 10^-5 of a point, rounded down. `scale` is in 10^-9.
fn trimmed(room: &Room, scale: u64) -> u64
    requires { IsTrue (are_near room.now scale) }
    ensures value { result ≡ trimmed_of room.now scale }
    ensures across { whole_of (nat_abs room.now.paper.width) + result < 10_000_000_000 }
    ensures up { whole_of (nat_abs room.now.paper.height) + result < 10_000_000_000 }
{
    (u128::from(scale) * u128::from(room.trim) / 1_000_000_000) as u64
}

/// A side in whole 10^-5 of a point, rounded down.
fn whole_parts(length: Grains) -> i64
    requires { IsTrue (is_side length) }
    ensures { result ≡ pos (whole_of (nat_abs length)) }
{
    (extent(length) / HUNDRED_THOUSANDTH) as i64
}

/// Whether offsets below 100,000 points can place pages of this scale, in 10^-9, anywhere on the sheet. The trim of the pages makes offsets longer.
pub(crate) fn within_reach(room: &Room, scale: u128) -> bool
    requires { scale ≤ greatest_scale }
    ensures { result ≡ are_near room.now scale }
{
    let back = scale * u128::from(room.trim) / 1_000_000_000;
    let width = u128::from(extent(room.paper.width()) / HUNDRED_THOUSANDTH);
    let height = u128::from(extent(room.paper.height()) / HUNDRED_THOUSANDTH);
    width + back < 10_000_000_000 && height + back < 10_000_000_000
}

/// The number that is `billionths` times 10^-9.
pub fn scale_e9(billionths: u64) -> Number
    requires { billionths ≤ greatest_number }
    ensures { result ≡ pos billionths }
{
    match Number::new(billionths as i64) {
        Some(number) => number,
        None => unreachable!(),
    }
}

/// The length of `count` grains. The caller has to show that `count` is from -10^23 to 10^23.
pub fn grains(count: i128) -> Grains
    requires { FitsGrains count }
    ensures { result ≡ count }
{
    match Grains::new(count) {
        Some(length) => length,
        None => unreachable!(),
    }
}

/// The item that leaves page k as it is. Pages are counted from 0.
pub(crate) fn whole_page(k: u32) -> Item
    ensures { item_of result ≡ alone_of k }
{
    Item {
        page: k,
        from_end: false,
        turn: Turn::None,
        scale: Number::ONE,
        offset: (Measure::ZERO, Measure::ZERO),
    }
}
