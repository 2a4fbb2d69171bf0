//! Strokes that mark where sheets are folded and cut.
ghost use Rattle.std.specs.Prelude.{◌≡◌, ◌<◌, ◌≤◌, ◌++◌, pos, nat_abs, IfOk, OnOk};
ghost use Rattle.dressing.specs.Strokes.{far_end as far_of, near_end as near_of};
ghost use Rattle.dressing.specs.Strokes.{cut_marks as cut_of, fold_marks as fold_of, has_half_gap as has_room_of, has_room_round as round_has_room};
ghost use Rattle.dressing.specs.Strokes.{outer_cut_marks as outer_cut_of};
ghost use Rattle.dressing.specs.Strokes.{level_at, level_between, marks_between, marks_round};
ghost use Rattle.dressing.specs.Strokes.{level_strokes, overlaps_above, overlaps_beside, tile_marks as tile_marks_of, upright_strokes};
ghost use Rattle.dressing.specs.Strokes.{upright_at, upright_between};

use crate::numbers::Numbering;
use layouts::{Grid, HUNDRED_THOUSANDTH, Room, from_far, gap_at, grains, in_grains};
use lengths::Grains;
use std::alloc::{AllocError, Global};

/// The marks that are requested: marks for folding, marks for cutting, lines for notes, and page numbers.
#[derive(Clone, Copy, Debug, PartialEq, Eq)]
pub struct Marks {
    pub fold: bool,
    pub cut: bool,
    pub ruled: bool,
    pub numbers: Option<Numbering>,
}

/// A straight line on a sheet. A point is given by its distances, in grains, from the left and the lower edge of the sheet.
#[derive(Clone, Copy, Debug, PartialEq, Eq)]
pub struct Stroke {
    pub start: (Grains, Grains),
    pub end: (Grains, Grains),
}

/// The greatest length of a mark, in 10^-5 of a point: 18 points.
const LONGEST: u64 = 1_800_000;

/// The cells of a poster's sheet: one, which is its tile.
const ONE_CELL: Grid = Grid {
    rows: 1,
    columns: 1,
    turned: false,
};

/// Marks for cutting a sheet between its cells. If no margin is 0 and each has room for half a gap, there are marks around the outer cells, too.
pub fn cut_marks(alloc: Global, room: &Room, grid: Grid) -> Result<Vec<Stroke>, AllocError>
    ensures { IfOk result (λ strokes. strokes.items ≡ cut_of room.now grid) }
{
    let mut strokes = Vec::new(alloc);
    push_between(room, grid, &mut strokes)?;
    push_round_if_room(room, grid, &mut strokes)?;
    Ok(strokes)
}

/// Marks for cutting around the outer cells of a sheet that is folded between its cells. There are none if a margin is 0 or has no room for half a
/// gap.
pub fn outer_cut_marks(alloc: Global, room: &Room, grid: Grid) -> Result<Vec<Stroke>, AllocError>
    ensures { IfOk result (λ strokes. strokes.items ≡ outer_cut_of room.now grid) }
{
    let mut outer = Vec::new(alloc);
    push_round_if_room(room, grid, &mut outer)?;
    Ok(outer)
}

/// Marks for folding a sheet between its cells.
pub fn fold_marks(alloc: Global, room: &Room, grid: Grid) -> Result<Vec<Stroke>, AllocError>
    ensures { IfOk result (λ strokes. strokes.items ≡ fold_of room.now grid) }
{
    let mut folds = Vec::new(alloc);
    push_between(room, grid, &mut folds)?;
    Ok(folds)
}

/// Marks on each sheet of a poster. The room has the paper and the margins of the sheets and no gaps, so its only cell is the sheet's tile. The marks
/// are at the edges of the tile, where it is cut, and also an overlap inside these edges, where the tiles of its neighbours end. `tiles` has the
/// columns and rows of the poster. `overlap` is in 10^-5 of a point, and counts as a side of the tile if it is longer.
pub fn tile_marks(
    alloc: Global,
    room: &Room,
    tiles: Grid,
    overlap: u64,
) -> Result<Vec<Stroke>, AllocError>
    ensures { IfOk result (λ strokes. strokes.items ≡ tile_marks_of room.now tiles overlap) }
{
    let mut strokes = outer_cut_marks(alloc, room, ONE_CELL)?;
    push_overlaps_beside(room, tiles.columns, overlap, &mut strokes)?;
    push_overlaps_above(room, tiles.rows, overlap, &mut strokes)?;
    Ok(strokes)
}

/// Adds the marks where the tiles at the left and at the right end, if there are several columns of tiles and they overlap.
fn push_overlaps_beside(
    room: &Room,
    columns: u32,
    overlap: u64,
    strokes: &mut Vec<Stroke>,
) -> Result<(), AllocError>
    ensures { OnOk result (strokes.new.items ≡ strokes.old.items ++ overlaps_beside room.now columns overlap) }
{
    if columns > 1 && overlap > 0 {
        let tile = room.cell(ONE_CELL, 0, 0);
        let left_ends = in_grains(tile.left + overlap.min(tile.width));
        let right_ends = in_grains(tile.left + tile.width.saturating_sub(overlap));
        push_upright_at(room, left_ends, strokes)?;
        push_upright_at(room, right_ends, strokes)?;
    }
    Ok(())
}

/// Adds the marks where the tiles below and above end, if there are several rows of tiles and they overlap.
fn push_overlaps_above(
    room: &Room,
    rows: u32,
    overlap: u64,
    strokes: &mut Vec<Stroke>,
) -> Result<(), AllocError>
    ensures { OnOk result (strokes.new.items ≡ strokes.old.items ++ overlaps_above room.now rows overlap) }
{
    if rows > 1 && overlap > 0 {
        let tile = room.cell(ONE_CELL, 0, 0);
        let lower_ends = in_grains(tile.bottom + overlap.min(tile.height));
        let upper_ends = in_grains(tile.bottom + tile.height.saturating_sub(overlap));
        push_level_at(room, lower_ends, strokes)?;
        push_level_at(room, upper_ends, strokes)?;
    }
    Ok(())
}

/// Adds the marks between neighbouring cells.
fn push_between(room: &Room, grid: Grid, strokes: &mut Vec<Stroke>) -> Result<(), AllocError>
    ensures { OnOk result (strokes.new.items ≡ strokes.old.items ++ marks_between room.now grid) }
{
    push_upright_between(room, grid.across(), strokes)?;
    push_level_between(room, grid.up(), strokes)?;
    Ok(())
}

/// Adds the marks around the outer cells, unless a margin is 0 or has no room for half a gap.
fn push_round_if_room(room: &Room, grid: Grid, strokes: &mut Vec<Stroke>) -> Result<(), AllocError>
    ensures { OnOk result (strokes.new.items ≡ strokes.old.items ++ outer_cut_of room.now grid) }
{
    if has_room_round(room) {
        push_round(room, grid, strokes)?;
    }
    Ok(())
}

/// Adds the marks around the outer cells.
fn push_round(room: &Room, grid: Grid, strokes: &mut Vec<Stroke>) -> Result<(), AllocError>
    ensures { OnOk result (strokes.new.items ≡ strokes.old.items ++ marks_round room.now grid) }
{
    push_upright_round(room, grid.across(), strokes)?;
    push_level_round(room, grid.up(), strokes)?;
    Ok(())
}

fn push_upright_round(room: &Room, parts: u32, strokes: &mut Vec<Stroke>) -> Result<(), AllocError>
    requires { 0 < parts }
    ensures { OnOk result (strokes.new.items
        ≡ strokes.old.items ++ (upright_at room.now parts 0 ++ upright_at room.now parts parts)) }
{
    push_upright(room, parts, 0, strokes)?;
    push_upright(room, parts, parts, strokes)?;
    Ok(())
}

fn push_level_round(room: &Room, parts: u32, strokes: &mut Vec<Stroke>) -> Result<(), AllocError>
    requires { 0 < parts }
    ensures { OnOk result (strokes.new.items
        ≡ strokes.old.items ++ (level_at room.now parts 0 ++ level_at room.now parts parts)) }
{
    push_level(room, parts, 0, strokes)?;
    push_level(room, parts, parts, strokes)?;
    Ok(())
}

/// Whether no margin is 0 and each has room for half a gap.
fn has_room_round(room: &Room) -> bool
    ensures { result ≡ round_has_room room.now }
{
    let beside = has_half_gap(room.left, room.gutter_across)
        && has_half_gap(room.right, room.gutter_across);
    let above = has_half_gap(room.bottom, room.gutter_up) && has_half_gap(room.top, room.gutter_up);
    beside && above
}

/// Whether this margin isn't 0 and has room for half of this gap, both in 10^-5 of a point.
fn has_half_gap(edge: u64, gap: u64) -> bool
    requires { edge ≤ 10_000_000_000 }
    ensures { result ≡ has_room_of edge gap }
{
    edge != 0 && gap <= 2 * edge
}

/// Adds the marks between columns of cells.
fn push_upright_between(
    room: &Room,
    parts: u32,
    strokes: &mut Vec<Stroke>,
) -> Result<(), AllocError>
    requires { 0 < parts }
    ensures { OnOk result (strokes.new.items ≡ strokes.old.items ++ upright_between room.now parts) }
{
    for k in 1..parts {
        push_upright(room, parts, k, strokes)?;
    }
    Ok(())
}

/// Adds the marks between rows of cells.
fn push_level_between(room: &Room, parts: u32, strokes: &mut Vec<Stroke>) -> Result<(), AllocError>
    requires { 0 < parts }
    ensures { OnOk result (strokes.new.items ≡ strokes.old.items ++ level_between room.now parts) }
{
    for k in 1..parts {
        push_level(room, parts, k, strokes)?;
    }
    Ok(())
}

/// Adds the marks at both ends of the upright line to the left of column k, counted from 0. If k is the number of columns, the line is to the right
/// of the last column.
fn push_upright(
    room: &Room,
    parts: u32,
    k: u32,
    strokes: &mut Vec<Stroke>,
) -> Result<(), AllocError>
    requires some { 0 < parts }
    requires part { k ≤ parts }
    ensures { OnOk result (strokes.new.items ≡ strokes.old.items ++ upright_at room.now parts k) }
{
    let x = gap_at(&room.along_width(), room.paper.width(), parts, k);
    push_upright_at(room, x, strokes)?;
    Ok(())
}

/// Adds the marks at both ends of the upright line at this distance from the left edge, in grains.
fn push_upright_at(room: &Room, x: Grains, strokes: &mut Vec<Stroke>) -> Result<(), AllocError>
    ensures { OnOk result (strokes.new.items ≡ strokes.old.items ++ upright_strokes room.now x) }
{
    strokes.push(Stroke {
        start: (x, near_end(room.bottom)),
        end: (x, far_end(room.bottom)),
    })?;
    strokes.push(Stroke {
        start: (x, from_far(room.paper.height(), near_end(room.top))),
        end: (x, from_far(room.paper.height(), far_end(room.top))),
    })?;
    Ok(())
}

/// Adds the marks at both ends of the level line below row k, counted from 0 at the bottom. If k is the number of rows, the line is above the last
/// row.
fn push_level(room: &Room, parts: u32, k: u32, strokes: &mut Vec<Stroke>) -> Result<(), AllocError>
    requires some { 0 < parts }
    requires part { k ≤ parts }
    ensures { OnOk result (strokes.new.items ≡ strokes.old.items ++ level_at room.now parts k) }
{
    let y = gap_at(&room.along_height(), room.paper.height(), parts, k);
    push_level_at(room, y, strokes)?;
    Ok(())
}

/// Adds the marks at both ends of the level line at this distance from the lower edge, in grains.
fn push_level_at(room: &Room, y: Grains, strokes: &mut Vec<Stroke>) -> Result<(), AllocError>
    ensures { OnOk result (strokes.new.items ≡ strokes.old.items ++ level_strokes room.now y) }
{
    strokes.push(Stroke {
        start: (near_end(room.left), y),
        end: (far_end(room.left), y),
    })?;
    strokes.push(Stroke {
        start: (from_far(room.paper.width(), near_end(room.right)), y),
        end: (from_far(room.paper.width(), far_end(room.right)), y),
    })?;
    Ok(())
}

/// The distance, in grains, from an edge of the sheet to the inner ends of its marks. It is the width of the margin, which is `edge` times 10^-5 of a
/// point, or 18 points if there is no margin.
fn far_end(edge: u64) -> Grains
    requires { edge ≤ 10_000_000_000 }
    ensures value { result ≡ pos (far_of edge) }
    ensures few { nat_abs result ≤ 12_700_000_000_000_000 }
{
    if edge == 0 {
        in_grains(LONGEST)
    } else {
        in_grains(edge)
    }
}

/// The distance, in grains, from an edge of the sheet to the outer ends of its marks. It is 18 points less than `far_end`, or 0 if `far_end` is below
/// 18 points.
fn near_end(edge: u64) -> Grains
    requires { edge ≤ 10_000_000_000 }
    ensures value { result ≡ pos (near_of edge) }
    ensures few { nat_abs result ≤ 12_700_000_000_000_000 }
{
    let far = far_end(edge).get().unsigned_abs();
    grains(far.saturating_sub(u128::from(HUNDRED_THOUSANDTH * LONGEST)) as i128)
}
