//! Reads the values of arguments that concern cells, the pages in cells, and marks.
ghost use Rattle.std.specs.Prelude.{◌≡◌, option_map};
ghost use Rattle.impose_words.specs.Arranging as meaning;
ghost use Rattle.layouts.specs.Refusals.{is_count as allows_count};
ghost use Rattle.layouts.specs.declared.arrangement.Cells.TheVariants.{AtLeast};

use crate::request::Turning;
use crate::sizes::length_with_unit;
use dressing::Marks;
use layouts::{Cells, FillOrder, MOST_ON_SHEET, Turned};
use lengths::{Grains, read_digits};
use pagespec::Turn;

/// The cells that the text names: a number, or columns and rows with an `x` between them. `None` for any other text, and for 0 or more than 1,024
/// cells.
pub fn cells_named(text: &str) -> Option<Cells>
    ensures { result ≡ meaning.cells_named text.now }
{
    let (number, rest) = read_digits(text.as_bytes())?;
    match rest {
        [] => is_count(u64::from(number)).then_some(Cells::AtLeast(number)),
        [b'x', rest @ ..] => with_rows(number, rest),
        _ => None,
    }
}

/// Whether a sheet may have `count` cells: from 1 to 1,024.
fn is_count(count: u64) -> bool
    ensures { result ≡ allows_count count }
{
    1 <= count && count <= MOST_ON_SHEET
}

/// A grid with this number of columns and the number of rows that the text names. `None` if the text isn't a number of rows, or if the grid has 0 or
/// more than 1,024 cells.
fn with_rows(columns: u32, text: &[u8]) -> Option<Cells>
    ensures { result ≡ meaning.with_rows columns (meaning.digits_at text.now) }
{
    let (rows, []) = read_digits(text)? else {
        return None;
    };
    is_count(u64::from(columns) * u64::from(rows)).then_some(Cells::Exactly { columns, rows })
}

/// The tiles that the text names for a poster: columns and rows with an `x` between them, or `auto`, which gives `Cells::AtLeast(1)`. `None` for any
/// other text, and for 0 or more than 1,024 tiles.
pub(crate) fn tiles_named(text: &str) -> Option<Cells>
    ensures { result ≡ meaning.tiles_named text.now }
{
    if text == "auto" {
        return Some(Cells::AtLeast(1));
    }
    cells_named(text).filter(|cells| matches!(cells, Cells::Exactly { .. }))
}

/// The number of pages that the text names, for sheets with a cell for notes beside each page. `None` unless the text is a number from 1 to 512.
pub(crate) fn note_count_named(text: &str) -> Option<u32>
    ensures { option_map (λ pages. AtLeast pages) result ≡ meaning.noted_alone (meaning.cells_named text.now) }
{
    match cells_named(text)? {
        Cells::AtLeast(pages) => is_count(2 * u64::from(pages)).then_some(pages),
        Cells::Exactly { .. } => None,
    }
}

/// The order that the text names: whether cells are filled by rows or by columns, and whether from right to left. `None` for another text.
pub fn run_named(text: &str) -> Option<(FillOrder, bool)>
    ensures { result ≡ meaning.run_named text.now }
{
    match text {
        "right-down" => Some((FillOrder::Rows, false)),
        "down-right" => Some((FillOrder::Columns, false)),
        "left-down" => Some((FillOrder::Rows, true)),
        "down-left" => Some((FillOrder::Columns, true)),
        _ => None,
    }
}

/// The turns of pages that the text names: `left`, `right` or `half` for all pages, or `wide` for pages that are wider than high. `None` for another
/// text.
pub(crate) fn turn_named(text: &str) -> Option<Turning>
    ensures { result ≡ meaning.turn_named text.now }
{
    match text {
        "left" => Some(Turning::All(Turn::Left)),
        "right" => Some(Turning::All(Turn::Right)),
        "half" => Some(Turning::All(Turn::Half)),
        "wide" => Some(Turning::Wide),
        _ => None,
    }
}

/// The side to which a sheet is turned to read pages that lie on their sides: `left` or `right`. `None` for another text.
pub fn turned_named(text: &str) -> Option<Turned>
    ensures { result ≡ meaning.turned_named text.now }
{
    match text {
        "left" => Some(Turned::Left),
        "right" => Some(Turned::Right),
        _ => None,
    }
}

/// No marks and no page numbers.
pub(crate) const NO_MARKS: Marks = Marks {
    fold: false,
    cut: false,
    ruled: false,
    numbers: None,
};

/// The marks that the text names for a booklet: at its fold, where its margins are cut off, or both. `None` for another text.
pub(crate) fn booklet_marks_named(text: &str) -> Option<Marks>
    ensures { result ≡ meaning.booklet_marks_named text.now }
{
    let (fold, cut) = match text {
        "fold" => (true, false),
        "cut" => (false, true),
        "fold,cut" | "cut,fold" => (true, true),
        _ => return None,
    };
    Some(Marks {
        fold,
        cut,
        ..NO_MARKS
    })
}

/// The marks that the text names for sheets that are cut but not folded. `None` for a text other than `cut`.
pub(crate) fn cut_marks_named(text: &str) -> Option<Marks>
    ensures { result ≡ meaning.cut_marks_named text.now }
{
    (text == "cut").then_some(Marks {
        cut: true,
        ..NO_MARKS
    })
}

/// The smallest size of page numbers, in grains: a tenth of a point.
const SMALLEST_NUMBERS: i128 = 12_700_000_000;

/// The largest size of page numbers, in grains: 72 points.
const LARGEST_NUMBERS: i128 = 9_144_000_000_000;

/// The size of page numbers that the text names. `None` unless the text is a length from a tenth of a point to 72 points.
pub(crate) fn number_size_named(text: &str) -> Option<Grains>
    ensures { result ≡ meaning.number_size_named text.now }
{
    let size = length_with_unit(text)?;
    let is_allowed = SMALLEST_NUMBERS <= size.get() && size.get() <= LARGEST_NUMBERS;
    is_allowed.then_some(size)
}
