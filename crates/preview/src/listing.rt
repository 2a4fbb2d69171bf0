//! Lists the sheets of a plan.
ghost use Rattle.std.specs.Prelude.{◌≡◌, ◌+◌, ◌*◌, ◌/◌, ◌%◌, ◌<◌, ◌≤◌, ◌-◌, ◌++◌, length, OnOk, IfOk};
ghost use Rattle.sheet_plan.specs.OfSheets.{placed_of, slots_at};
ghost use Rattle.preview.specs.Listing.{back_text, blank_in, blanks_of, blanks_on, edge_line, edge_name as name_of_edge, flip_text};
ghost use Rattle.preview.specs.Listing.{leaf_line, leaves_text, left_out_line, plan_text as text_of_plan};
ghost use Rattle.preview.specs.Listing.{row_count as row_count_of, row_text, rows_text, sheet_line, shortened, totals};
ghost use Rattle.preview.specs.Listing.{places_text};

use crate::naming::{Edge, Sides, append_number, number_of_sheets};
use crate::reading::{Places, Reading, append_places};
use crate::ways::append_ways;
use sheet_plan::{MadeSheets, PlacedSlot};
use std::alloc::{AllocError, Global};

/// The list of these sheets. If sheets are printed on both sides, each leaf has a line, and otherwise each sheet. The line has the pages in the
/// places of the sheet, or of both sides of the leaf. They are listed row by row, with the sheet held so that the pages are upright. For a sheet of a
/// poster, the line has the page and the sheet's column and row. Pages are counted from 1.
///
/// The next line has the numbers of sheets and blank places. If sheets are printed on both sides, that line has the number of leaves as well, and a
/// further line names the edge on which leaves are flipped. Then each way in which pages lie on sheets has a line, with papers and scale.
///
/// If there are more sheets or leaves than `most`, only the first and the last ones have lines, `most` lines in all. A line between them has the
/// number of sheets or leaves left out. If there are more than 16 ways, a last line says that there are other ways. The only error is refused memory.
pub fn plan_text(
    alloc: Global,
    sheets: &MadeSheets,
    reading: &Reading,
    most: u32,
) -> Result<Vec<u8>, AllocError>
    ensures { IfOk result (λ text. text.items ≡ text_of_plan reading.now most sheets.now) }
{
    let count = number_of_sheets(sheets)?;
    let mut text = Vec::new(alloc);
    append_shortened(sheets, reading, count, most, &mut text)?;
    append_totals(sheets, reading.sides, count, &mut text)?;
    append_flip(reading.sides, &mut text)?;
    append_ways(alloc, sheets, count, &mut text)?;
    Ok(text)
}

/// The number of lines for this number of sheets: one for each sheet, or one for each leaf if sheets are printed on both sides.
fn row_count(sides: Sides, sheets: u32) -> u32
    ensures { result ≡ row_count_of sides sheets }
{
    match sides {
        Sides::One => sheets,
        Sides::Both { .. } => sheets / 2 + sheets % 2,
    }
}

/// Appends the lines of all `count` sheets. If these would be more than `most` lines, appends the first and the last ones, `most` in all. A line
/// between them has the number of lines left out.
fn append_shortened(
    sheets: &MadeSheets,
    reading: &Reading,
    count: u32,
    most: u32,
    out: &mut Vec<u8>,
) -> Result<(), AllocError>
    requires { count ≡ length sheets.now }
    ensures { OnOk result (out.new.items
        ≡ out.old.items ++ shortened reading.now most (row_count_of reading.now.sides count) sheets.now) }
{
    let rows = row_count(reading.sides, count);
    if rows <= most {
        append_rows(sheets, reading, count, 0, rows, out)?;
        return Ok(());
    }
    let last = most / 2;
    append_rows(sheets, reading, count, 0, most - last, out)?;
    append_left_out(rows - most, out)?;
    append_rows(sheets, reading, count, rows - last, rows, out)?;
    Ok(())
}

/// Appends the lines from line `first` up to, but not including, line `end`, both counted from 0.
fn append_rows(
    sheets: &MadeSheets,
    reading: &Reading,
    count: u32,
    first: u32,
    end: u32,
    out: &mut Vec<u8>,
) -> Result<(), AllocError>
    requires count { count ≡ length sheets.now }
    requires from { first ≤ end }
    requires to { end ≤ row_count_of reading.now.sides count }
    ensures { OnOk result (out.new.items ≡ out.old.items ++ rows_text reading.now sheets.now first (end - first)) }
{
    for row in first..end {
        append_row(sheets, reading, count, row, out)?;
    }
    Ok(())
}

/// Appends the line with the index `row`, counted from 0: that of a sheet, or of a leaf if sheets are printed on both sides.
fn append_row(
    sheets: &MadeSheets,
    reading: &Reading,
    count: u32,
    row: u32,
    out: &mut Vec<u8>,
) -> Result<(), AllocError>
    requires count { count ≡ length sheets.now }
    requires row { row < row_count_of reading.now.sides count }
    ensures { OnOk result (out.new.items ≡ out.old.items ++ row_text reading.now sheets.now row) }
{
    let places = &reading.places;
    match reading.sides {
        Sides::One => append_sheet(sheets, places, row, out),
        Sides::Both { .. } => append_leaf(sheets, places, count, row, out),
    }
}

/// Appends the line of a sheet.
fn append_sheet(
    sheets: &MadeSheets,
    places: &Places,
    sheet: u32,
    out: &mut Vec<u8>,
) -> Result<(), AllocError>
    requires { sheet < length sheets.now }
    ensures { OnOk result (out.new.items ≡ out.old.items ++ sheet_line places.now sheets.now sheet) }
{
    out.extend_from_slice(b"sheet ")?;
    append_number(u64::from(sheet) + 1, out)?;
    out.extend_from_slice(b"  ")?;
    append_places(sheets, places, sheet, out)?;
    out.extend_from_slice(b"\n")?;
    Ok(())
}

/// Appends the line of a leaf.
fn append_leaf(
    sheets: &MadeSheets,
    places: &Places,
    count: u32,
    leaf: u32,
    out: &mut Vec<u8>,
) -> Result<(), AllocError>
    requires count { count ≡ length sheets.now }
    requires leaf { leaf < count / 2 + count % 2 }
    ensures { OnOk result (out.new.items ≡ out.old.items ++ leaf_line places.now sheets.now leaf) }
{
    out.extend_from_slice(b"leaf ")?;
    append_number(u64::from(leaf) + 1, out)?;
    out.extend_from_slice(b"  front  ")?;
    append_places(sheets, places, 2 * leaf, out)?;
    append_back(sheets, places, count, 2 * leaf + 1, out)?;
    out.extend_from_slice(b"\n")?;
    Ok(())
}

/// Appends the text of the back of a leaf, if the leaf has one. `sheet` is the number of the back, counted from 0.
fn append_back(
    sheets: &MadeSheets,
    places: &Places,
    count: u32,
    sheet: u32,
    out: &mut Vec<u8>,
) -> Result<(), AllocError>
    requires { count ≡ length sheets.now }
    ensures { OnOk result (out.new.items ≡ out.old.items ++ back_text places.now sheets.now sheet) }
{
    if count <= sheet {
        return Ok(());
    }
    out.extend_from_slice(b"    back  ")?;
    append_places(sheets, places, sheet, out)?;
    Ok(())
}

/// Appends the line that stands for the `count` lines that are left out.
fn append_left_out(count: u32, out: &mut Vec<u8>) -> Result<(), AllocError>
    ensures { OnOk result (out.new.items ≡ out.old.items ++ left_out_line count) }
{
    out.extend_from_slice(b".. ")?;
    append_number(u64::from(count), out)?;
    out.extend_from_slice(b" more ..\n")?;
    Ok(())
}

/// Appends the line with the numbers of sheets and blank places, and of leaves if sheets are printed on both sides.
fn append_totals(
    sheets: &MadeSheets,
    sides: Sides,
    count: u32,
    out: &mut Vec<u8>,
) -> Result<(), AllocError>
    requires { count ≡ length sheets.now }
    ensures { OnOk result (out.new.items ≡ out.old.items ++ totals sides sheets.now) }
{
    out.extend_from_slice(b"sheets ")?;
    append_number(u64::from(count), out)?;
    append_leaves(sides, count, out)?;
    out.extend_from_slice(b", blanks ")?;
    append_number(count_blanks(sheets, count), out)?;
    out.extend_from_slice(b"\n")?;
    Ok(())
}

/// Appends the number of leaves of these sheets, if they are printed on both sides.
fn append_leaves(sides: Sides, sheets: u32, out: &mut Vec<u8>) -> Result<(), AllocError>
    ensures { OnOk result (out.new.items ≡ out.old.items ++ leaves_text sides sheets) }
{
    match sides {
        Sides::One => {}
        Sides::Both { .. } => {
            out.extend_from_slice(b", leaves ")?;
            append_number(u64::from(row_count(sides, sheets)), out)?;
        }
    }
    Ok(())
}

/// Appends the line with the edge on which leaves are flipped, if sheets are printed on both sides.
fn append_flip(sides: Sides, out: &mut Vec<u8>) -> Result<(), AllocError>
    ensures { OnOk result (out.new.items ≡ out.old.items ++ flip_text sides) }
{
    match sides {
        Sides::One => Ok(()),
        Sides::Both { flip } => append_flip_edge(flip, out),
    }
}

/// Appends the line with the edge on which leaves are flipped.
fn append_flip_edge(flip: Edge, out: &mut Vec<u8>) -> Result<(), AllocError>
    ensures { OnOk result (out.new.items ≡ out.old.items ++ edge_line flip) }
{
    out.extend_from_slice(b"print on both sides, flip on the ")?;
    out.extend_from_slice(edge_name(flip))?;
    out.extend_from_slice(b" edge")?;
    out.extend_from_slice(b"\n")?;
    Ok(())
}

fn edge_name(edge: Edge) -> &'static [u8]
    ensures { result.now ≡ name_of_edge edge }
{
    match edge {
        Edge::Short => b"short",
        Edge::Long => b"long",
    }
}

/// The number of blank places on all `count` sheets.
fn count_blanks(sheets: &MadeSheets, count: u32) -> u64
    requires { count ≡ length sheets.now }
    ensures { result ≡ blanks_of sheets.now }
{
    let mut blanks = 0;
    for sheet in 0..count {
        blanks += u64::from(count_blanks_on(sheets, sheet));
    }
    blanks
}

/// The number of blank places on a sheet.
fn count_blanks_on(sheets: &MadeSheets, sheet: u32) -> u32
    requires { sheet < length sheets.now }
    ensures { result ≡ blanks_on (slots_at sheets.now sheet) }
{
    let mut blanks = 0;
    for slot in 0..sheets.slots(sheet) {
        blanks += blank(sheets.placed(sheet, slot));
    }
    blanks
}

/// The number of blank places in a slot, which is 0 or 1.
fn blank(placed: Option<PlacedSlot<'_>>) -> u32
    ensures value { result ≡ blank_in (placed_of placed.entry) }
    ensures few { result ≤ 1 }
{
    match placed {
        None => 1,
        Some(_) => 0,
    }
}
