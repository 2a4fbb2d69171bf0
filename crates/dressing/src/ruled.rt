//! Lines for notes, in cells beside those of the pages.
ghost use Rattle.std.specs.Prelude.{◌≡◌, ◌*◌, ◌^◌, ◌<◌, ◌≤◌, ◌++◌, IfOk, OnOk};
ghost use Rattle.dressing.specs.Ruled.{line_below as below_of, line_count as count_of, note_line as line_of};
ghost use Rattle.dressing.specs.Ruled.{note_lines as lines_of, row_lines};

use crate::strokes::Stroke;
use layouts::{Cell, Grid, Room, cell_size, in_grains};
use std::alloc::{AllocError, Global};

/// The distance between neighbouring lines, in 10^-5 of a point: 24 points.
const LINE_STEP: u64 = 2_400_000;

/// The lines for notes on a sheet. With the sheet held so that its pages are upright, they are in the last cell of each row of cells; pages are in
/// the cells before it. Lines cross the cell from side to side, 24 points apart; the first is 24 points below the cell's top, and none is on its
/// lower side.
pub fn note_lines(alloc: Global, room: &Room, grid: Grid) -> Result<Vec<Stroke>, AllocError>
    ensures { IfOk result (λ lines. lines.items ≡ lines_of room.now grid) }
{
    let mut lines = Vec::new(alloc);
    for row in 0..grid.rows {
        push_row(room, grid, row, &mut lines)?;
    }
    Ok(lines)
}

/// Adds the lines in the last cell of this row.
fn push_row(room: &Room, grid: Grid, row: u32, lines: &mut Vec<Stroke>) -> Result<(), AllocError>
    requires { row < grid.rows }
    ensures { OnOk result (lines.new.items ≡ lines.old.items ++ row_lines room.now grid row) }
{
    for before in 0..line_count(room, grid) {
        lines.push(note_line(room, grid, row, before + 1))?;
    }
    Ok(())
}

/// The number of lines in a cell. It is 0 if the cell is at most 24 points high.
fn line_count(room: &Room, grid: Grid) -> u32
    ensures value { result ≡ count_of room.now grid }
    ensures few { result ≤ 10_000_000 }
{
    let (_, height) = cell_size(room, grid);
    (height.saturating_sub(1) / LINE_STEP) as u32
}

/// The k-th line, counted from 1 at the top, in the last cell of this row.
fn note_line(room: &Room, grid: Grid, row: u32, k: u32) -> Stroke
    requires { row < grid.rows }
    ensures { result ≡ line_of room.now grid row k }
{
    let cell = room.cell(grid, row, grid.columns - 1);
    line_below(grid.turned, &cell, u64::from(k) * LINE_STEP)
}

/// A line across a cell, at this depth below the cell's top, in 10^-5 of a point. The top is that of the sheet as it is held so that its pages are
/// upright. `turned` says whether they are turned to the left on the sheet as it lies.
fn line_below(turned: bool, cell: &Cell, depth: u64) -> Stroke
    requires { depth ≤ 11 * 10 ^ 15 }
    ensures { result ≡ below_of turned cell.now depth }
{
    let right = cell.left + cell.width;
    let top = cell.bottom + cell.height;
    if turned {
        let x = in_grains(cell.left + depth);
        Stroke {
            start: (x, in_grains(cell.bottom)),
            end: (x, in_grains(top)),
        }
    } else {
        let y = in_grains(top.saturating_sub(depth));
        Stroke {
            start: (in_grains(cell.left), y),
            end: (in_grains(right), y),
        }
    }
}
