//! Draws sheets.
ghost use Rattle.std.specs.Prelude.{◌<◌, ◌≤◌, length};

use crate::guides::{Guide, append_guides};
use crate::naming::{Sides, append_number, append_size, number_of_sheets};
use lengths::{Paper, print_points, print_scale};
use placement::{Matrix, matrix_of};
use sheet_plan::{MadeSheets, PlacedSlot};
use std::alloc::{AllocError, Global};

/// A drawing of these sheets, in SVG. Each sheet is drawn with its name and the size of its paper. Each page is drawn where its matrix places it,
/// with an outline, its number, counted from 1, and an arrow at the top. The guides are drawn over the pages. Four sheets are side by side, each as
/// large as its square allows. If there are more sheets than `most`, only the first `most` are drawn, and a line of text has the number of the
/// remaining sheets. The only error is refused memory.
pub fn preview_text(
    alloc: Global,
    sheets: &MadeSheets,
    sides: Sides,
    guides: &[Guide],
    most: u32,
) -> Result<Vec<u8>, AllocError> {
    let count = number_of_sheets(sheets)?;
    let drawn = count.min(most);
    let mut text = Vec::new(alloc);
    append_start(drawn, &mut text)?;
    for sheet in 0..drawn {
        append_sheet(sheets, sides, guides, sheet, &mut text)?;
    }
    if drawn < count {
        append_left_out(drawn, count - drawn, &mut text)?;
    }
    text.extend_from_slice(b"</svg>\n")?;
    Ok(text)
}

/// The height, in units of the drawing, of the squares of `count` sheets, which are drawn four in a row.
fn height_of(count: u32) -> u64
    ensures { result ≤ 300_000_000_000 }
{
    (u64::from(count) + 3) / 4 * 260
}

const STYLE: &[u8] =
    b"<style>rect,line{vector-effect:non-scaling-stroke}.sheet{fill:white;stroke:black}.page{fill:lightblue;fill-opacity:.4;stroke:navy}.margin{stroke:gray;stroke-dasharray:2}.fold{stroke:red;stroke-dasharray:6}.cut{stroke:red}.note{stroke:gray}path{fill:navy}text{font:30px sans-serif;text-anchor:middle}.name{font-size:13px}</style>\n";

/// The background of a drawing.
const GROUND: &[u8] = b"<rect width='100%' height='100%' fill='white'/>\n";

/// Appends the start of a drawing of `count` sheets.
fn append_start(count: u32, out: &mut Vec<u8>) -> Result<(), AllocError> {
    out.extend_from_slice(b"<svg xmlns='http://www.w3.org/2000/svg' viewBox='0 0 900 ")?;
    append_number(40 + height_of(count), out)?;
    out.extend_from_slice(b"'>\n")?;
    out.extend_from_slice(STYLE)?;
    out.extend_from_slice(GROUND)
}

/// Appends the number of sheets that aren't drawn, `more`, as a text below the `count` sheets that are drawn.
fn append_left_out(count: u32, more: u32, out: &mut Vec<u8>) -> Result<(), AllocError> {
    out.extend_from_slice(b"<text class='name' x='450' y='")?;
    append_number(25 + height_of(count), out)?;
    out.extend_from_slice(b"'>and ")?;
    append_number(u64::from(more), out)?;
    out.extend_from_slice(b" more</text>\n")
}

/// Appends the drawing of a sheet (counted from 0) in the sheet's square, with its pages and the guides. Blank slots aren't drawn.
fn append_sheet(
    sheets: &MadeSheets,
    sides: Sides,
    guides: &[Guide],
    sheet: u32,
    out: &mut Vec<u8>,
) -> Result<(), AllocError>
    requires { sheet < length sheets.now }
{
    let paper = sheets.paper(sheet);
    append_square(sheet, out)?;
    append_view(paper, out)?;
    for slot in 0..sheets.slots(sheet) {
        if let Some(placed) = sheets.placed(sheet, slot) {
            append_page(&placed, out)?;
        }
    }
    append_guides(guides, out)?;
    append_caption(sides, sheet, paper, out)
}

/// Appends the start of the square in which a sheet (counted from 0) is drawn.
fn append_square(sheet: u32, out: &mut Vec<u8>) -> Result<(), AllocError> {
    out.extend_from_slice(b"<g transform='translate(")?;
    append_number(u64::from(20 + sheet % 4 * 220), out)?;
    out.extend_from_slice(b" ")?;
    append_number(20 + u64::from(sheet / 4) * 260, out)?;
    out.extend_from_slice(b")'>")
}

/// Appends the outline of a sheet of this paper, and the start of the drawing of its pages, which shows nothing outside the paper.
fn append_view(paper: &Paper, out: &mut Vec<u8>) -> Result<(), AllocError> {
    out.extend_from_slice(b"<svg width='200' height='200' viewBox='0 0 ")?;
    print_points(paper.width(), out)?;
    out.extend_from_slice(b" ")?;
    print_points(paper.height(), out)?;
    out.extend_from_slice(b"'>")?;
    append_of_size(b"<rect class='sheet'", paper, out)?;
    append_of_size(b"/><svg", paper, out)?;
    out.extend_from_slice(b">")?;
    append_flip(paper, out)?;
    out.extend_from_slice(b"\n")
}

/// Appends a page where its matrix places it, with its outline, its number, counted from 1, and an arrow at its top.
fn append_page(placed: &PlacedSlot<'_>, out: &mut Vec<u8>) -> Result<(), AllocError> {
    append_under(&matrix_of(placed.item, placed.paper), out)?;
    append_of_size(b"<rect class='page'", placed.paper, out)?;
    out.extend_from_slice(b"/>")?;
    append_flip(placed.paper, out)?;
    append_of_size(b"<svg", placed.paper, out)?;
    out.extend_from_slice(
        b" viewBox='0 0 100 100' preserveAspectRatio='xMidYMin'><path d='M50 3 57 15H43Z'/><text x='50' y='62'>",
    )?;
    append_number(u64::from(placed.page) + 1, out)?;
    out.extend_from_slice(b"</text></svg></g></g>\n")
}

/// Appends the start of a group whose points are mapped by a matrix, as PostScript would map them.
fn append_under(matrix: &Matrix, out: &mut Vec<u8>) -> Result<(), AllocError> {
    out.extend_from_slice(b"<g transform='matrix(")?;
    print_scale(matrix.a, out)?;
    out.extend_from_slice(b" ")?;
    print_scale(matrix.b, out)?;
    out.extend_from_slice(b" ")?;
    print_scale(matrix.c, out)?;
    out.extend_from_slice(b" ")?;
    print_scale(matrix.d, out)?;
    out.extend_from_slice(b" ")?;
    print_points(matrix.tx, out)?;
    out.extend_from_slice(b" ")?;
    print_points(matrix.ty, out)?;
    out.extend_from_slice(b")'>")
}

/// Appends the beginning of an element, followed by the width and the height of a paper, in points, as its attributes.
fn append_of_size(element: &[u8], paper: &Paper, out: &mut Vec<u8>) -> Result<(), AllocError> {
    out.extend_from_slice(element)?;
    out.extend_from_slice(b" width='")?;
    print_points(paper.width(), out)?;
    out.extend_from_slice(b"' height='")?;
    print_points(paper.height(), out)?;
    out.extend_from_slice(b"'")
}

/// Appends the start of a group in which heights are measured upwards from the lower edge of this paper.
fn append_flip(paper: &Paper, out: &mut Vec<u8>) -> Result<(), AllocError> {
    out.extend_from_slice(b"<g transform='matrix(1 0 0 -1 0 ")?;
    print_points(paper.height(), out)?;
    out.extend_from_slice(b")'>")
}

/// Appends the end of the drawing of a sheet's pages, the name of the sheet (counted from 0), the size of its paper, and the end of its square.
fn append_caption(
    sides: Sides,
    sheet: u32,
    paper: &Paper,
    out: &mut Vec<u8>,
) -> Result<(), AllocError> {
    out.extend_from_slice(b"</g></svg></svg><text class='name' x='100' y='216'>")?;
    append_sheet_name(sides, sheet, out)?;
    out.extend_from_slice(b"</text><text class='name' x='100' y='232'>")?;
    append_size(paper, out)?;
    out.extend_from_slice(b"</text></g>\n")
}

/// Appends the name of this sheet (counted from 0): the number of the sheet or, if sheets are printed on both sides, the number of its leaf and the
/// side. The name counts sheets and leaves from 1.
fn append_sheet_name(sides: Sides, sheet: u32, out: &mut Vec<u8>) -> Result<(), AllocError> {
    match sides {
        Sides::One => {
            out.extend_from_slice(b"sheet ")?;
            append_number(u64::from(sheet) + 1, out)
        }
        Sides::Both { .. } => {
            out.extend_from_slice(b"leaf ")?;
            append_number(u64::from(sheet / 2) + 1, out)?;
            out.extend_from_slice(if sheet % 2 == 0 { b" front" } else { b" back" })
        }
    }
}
