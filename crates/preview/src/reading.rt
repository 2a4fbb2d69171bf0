//! The places of pages on a sheet, and their order.
ghost use Rattle.std.specs.Prelude.{◌≡◌, ◌*◌, ◌<◌, ◌++◌, slice_get, length, OnOk};
ghost use Rattle.layouts.specs.Cells.{read_columns};
ghost use Rattle.sheet_plan.specs.OfSheets.{placed_of, slots_at};
ghost use Rattle.preview.specs.Listing.{bar as bar_of, cell_text_at, cell_text, row_cells_text, cells_text, place_text, places_text, row_slash as slash_of};
ghost use Rattle.preview.specs.Listing.{tile_name};
ghost use Rattle.preview.specs.Naming.{each};
ghost use Rattle.preview.specs.Reading.{column_read, place_number_at as place_in_cells, row_read};

use crate::naming::{Sides, append_number};
use layouts::{FillOrder, Grid, Order, Turned, read_sides};
use sheet_plan::{MadeSheets, PlacedSlot};
use std::alloc::AllocError;

/// The places of pages on sheets: the cells of a grid, in this order, or tiles. A tile is a sheet of a poster, and has one place. The tiles of a page
/// are in rows from the top down, each row from the left.
#[derive(Clone, Copy)]
pub enum Places {
    Cells { grid: Grid, order: Order },
    Tiles { grid: Grid },
}

/// The sides on which sheets are printed, and the places of pages on each sheet.
#[derive(Clone, Copy)]
pub struct Reading {
    pub sides: Sides,
    pub places: Places,
}

/// Appends the text of a sheet (counted from 0). For a sheet with cells, this is the page in each cell, with separators between the cells. For a
/// tile, it is the page, and the tile's column and row on the poster.
pub(crate) fn append_places(
    sheets: &MadeSheets,
    places: &Places,
    sheet: u32,
    out: &mut Vec<u8>,
) -> Result<(), AllocError>
    requires { sheet < length sheets.now }
    ensures { OnOk result (out.new.items ≡ out.old.items ++ places_text places.now sheets.now sheet) }
{
    match places {
        Places::Cells { grid, order } => {
            let cells = CellSheet {
                sheets,
                number: sheet,
                grid: *grid,
                order: *order,
            };
            cells.append_cells(out)
        }
        Places::Tiles { grid } => append_tile(sheets, sheet, *grid, out),
    }
}

/// A sheet whose places are in the cells of a grid, in this order.
#[derive(Clone, Copy)]
struct CellSheet<'s> {
    sheets: &'s MadeSheets,
    /// The index of the sheet, counted from 0.
    number: u32,
    grid: Grid,
    order: Order,
}

impl<'s> CellSheet<'s> {
    /// Appends the cells row by row, with the sheet held so that its pages are upright.
    fn append_cells(&self, out: &mut Vec<u8>) -> Result<(), AllocError>
        requires { self.now.number < length self.now.sheets.now }
        ensures { OnOk result (out.new.items ≡ out.old.items
            ++ cells_text (slots_at self.now.sheets.now self.now.number) self.now.order self.now.grid) }
    {
        for row in 0..self.grid.rows {
            self.append_row(row, out)?;
        }
        Ok(())
    }

    /// Appends the separator before a row, and the cells of the row.
    fn append_row(&self, row: u32, out: &mut Vec<u8>) -> Result<(), AllocError>
        requires number { self.now.number < length self.now.sheets.now }
        requires row { row < self.now.grid.rows }
        ensures { OnOk result (out.new.items ≡ out.old.items
            ++ row_cells_text (slots_at self.now.sheets.now self.now.number) self.now.order self.now.grid row) }
    {
        out.extend_from_slice(slash(row))?;
        self.append_columns(row, out)?;
        Ok(())
    }

    /// Appends the cells of a row.
    fn append_columns(&self, row: u32, out: &mut Vec<u8>) -> Result<(), AllocError>
        requires number { self.now.number < length self.now.sheets.now }
        requires row { row < self.now.grid.rows }
        ensures { OnOk result (out.new.items ≡ out.old.items
            ++ each (cell_text_at (slots_at self.now.sheets.now self.now.number) self.now.order self.now.grid row) 0
            self.now.grid.columns) }
    {
        for column in 0..self.grid.columns {
            self.append_cell(row, column, out)?;
        }
        Ok(())
    }

    /// Appends the separator before a cell, and the text of the cell.
    fn append_cell(&self, row: u32, column: u32, out: &mut Vec<u8>) -> Result<(), AllocError>
        requires number { self.now.number < length self.now.sheets.now }
        requires row { row < self.now.grid.rows }
        requires column { column < self.now.grid.columns }
        ensures { OnOk result (out.new.items ≡ out.old.items
            ++ cell_text_at (slots_at self.now.sheets.now self.now.number) self.now.order self.now.grid row column) }
    {
        let place = place_at(&self.order, self.grid, row, column);
        out.extend_from_slice(bar(column))?;
        append_numbered_place(self.sheets, self.number, place, out)?;
        Ok(())
    }
}

/// The separator before a row. The first row has none.
fn slash(row: u32) -> &'static [u8]
    ensures { result.now ≡ slash_of row }
{
    if row == 0 { b"" } else { b" / " }
}

/// The separator before a cell. The first cell of a row has none.
fn bar(column: u32) -> &'static [u8]
    ensures { result.now ≡ bar_of column }
{
    if column == 0 { b"" } else { b" | " }
}

/// The row and the column of a cell, with the sheet held for reading. The cell is given by its row and column on the sheet that is held so that its
/// pages are upright.
fn read_cell(turned: Turned, grid: Grid, row: u32, column: u32) -> (u32, u32)
    requires row { row < grid.rows }
    requires column { column < grid.columns }
    ensures row { result.0 ≡ row_read turned grid row column }
    ensures column { result.1 ≡ column_read turned grid row column }
    ensures in_columns { result.1 < read_columns turned grid }
{
    match turned {
        Turned::Upright => (row, column),
        Turned::Left => (grid.columns - (column + 1), row),
        Turned::Right => (column, grid.rows - (row + 1)),
    }
}

/// The index, counted from 0, of the place in this row and column. The row and the column are those of the sheet as it is held so that its pages are
/// upright.
fn place_at(order: &Order, grid: Grid, row: u32, column: u32) -> u64
    requires row { row < grid.rows }
    requires column { column < grid.columns }
    ensures { result ≡ place_in_cells order.now grid row column }
{
    let (columns, rows) = read_sides(order.turned, grid);
    let (read_row, read_column) = read_cell(order.turned, grid, row, column);
    let nth = if order.right_to_left {
        columns - (read_column + 1)
    } else {
        read_column
    };
    match order.run {
        FillOrder::Rows => u64::from(read_row) * u64::from(columns) + u64::from(nth),
        FillOrder::Columns => u64::from(nth) * u64::from(rows) + u64::from(read_row),
    }
}

/// Appends the text of the place with this number, counted from 0, or `-` if the sheet has no such place.
fn append_numbered_place(
    sheets: &MadeSheets,
    sheet: u32,
    number: u64,
    out: &mut Vec<u8>,
) -> Result<(), AllocError>
    requires { sheet < length sheets.now }
    ensures { OnOk result (out.new.items
        ≡ out.old.items ++ cell_text (slice_get (slots_at sheets.now sheet) number)) }
{
    if u64::from(sheets.slots(sheet)) <= number {
        out.extend_from_slice(b"-")?;
        return Ok(());
    }
    append_place(sheets.placed(sheet, number as u32), out)?;
    Ok(())
}

/// Appends the text of a place: the number of its page, counted from 1, or `blank`.
fn append_place(placed: Option<PlacedSlot<'_>>, out: &mut Vec<u8>) -> Result<(), AllocError>
    ensures { OnOk result (out.new.items ≡ out.old.items ++ place_text (placed_of placed.entry)) }
{
    match placed {
        None => out.extend_from_slice(b"blank")?,
        Some(placed) => append_number(u64::from(placed.page) + 1, out)?,
    }
    Ok(())
}

/// Appends the text of a tile, with its column and its row on the poster.
fn append_tile(
    sheets: &MadeSheets,
    sheet: u32,
    grid: Grid,
    out: &mut Vec<u8>,
) -> Result<(), AllocError>
    requires { sheet < length sheets.now }
    ensures { OnOk result (out.new.items
        ≡ out.old.items ++ (cell_text (slice_get (slots_at sheets.now sheet) 0) ++ tile_name grid sheet)) }
{
    append_numbered_place(sheets, sheet, 0, out)?;
    append_tile_name(grid, sheet, out)?;
    Ok(())
}

/// Appends the column and the row that a sheet has on its poster, counted from 1. The sheet is counted from 0.
fn append_tile_name(grid: Grid, sheet: u32, out: &mut Vec<u8>) -> Result<(), AllocError>
    ensures { OnOk result (out.new.items ≡ out.old.items ++ tile_name grid sheet) }
{
    out.extend_from_slice(b", column ")?;
    append_number(u64::from(sheet % grid.columns) + 1, out)?;
    out.extend_from_slice(b", row ")?;
    append_number(u64::from(sheet / grid.columns % grid.rows) + 1, out)?;
    Ok(())
}
