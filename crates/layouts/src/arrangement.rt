//! The arrangement of pages on a sheet: cells, margins, gaps, order and scale.
ghost use Rattle.std.specs.Prelude.{◌≡◌};
ghost use Rattle.layouts.specs.Grids.{cells_per_sheet, nothing_free, plain as plain_of, plain_binding};

use super::arranging::leaf_order;
use lengths::{Grains, Number, Paper};

/// The paper of the pages, and the paper of the sheets.
#[derive(Clone, Copy, Debug, PartialEq, Eq)]
pub struct Papers {
    pub page: Paper,
    pub sheet: Paper,
}

/// The cells of a sheet.
#[derive(Clone, Copy, Debug, PartialEq, Eq)]
pub enum Cells {
    /// At least this number of cells, in the grid that takes the largest pages. Of grids with equally large pages, one with the fewest cells is
    /// taken; of these, one with upright pages; of these, the one with the fewest columns. A sheet has this number of pages. If the grid has more
    /// cells, the last ones stay empty.
    AtLeast(u32),
    /// These columns and rows, as one reads the sheet. Pages are upright unless turned ones are larger. For this comparison the sheet is divided
    /// exactly, without rounding, and scales are whole multiples of 10^-9.
    Exactly { columns: u32, rows: u32 },
}

impl Cells {
    /// The number of pages on a sheet.
    pub fn count(self) -> u64
        ensures { result ≡ cells_per_sheet self }
    {
        match self {
            Cells::AtLeast(n) => u64::from(n),
            Cells::Exactly { columns, rows } => u64::from(columns) * u64::from(rows),
        }
    }
}

/// The direction in which cells are filled before the next row or column begins.
#[derive(Clone, Copy, Debug, PartialEq, Eq)]
pub enum FillOrder {
    Rows,
    Columns,
}

/// The direction of the pages' text on the sheet: upright, or on its side. To read text on its side, one turns the sheet to the left (`Left`) or to
/// the right (`Right`).
#[derive(Clone, Copy, Debug, PartialEq, Eq)]
pub enum Turned {
    Upright,
    Left,
    Right,
}

/// The order in which pages fill the cells of a sheet that is held for reading. It runs from the top down, and from the left or from the right.
#[derive(Clone, Copy, Debug, PartialEq, Eq)]
pub struct Order {
    pub run: FillOrder,
    pub right_to_left: bool,
    pub turned: Turned,
}

/// The margins and gaps of a sheet before it is turned for reading, and the trim of its pages. Margins and gaps are rounded up to whole 10^-5 of a
/// point, and the trim is rounded down.
#[derive(Clone, Copy, Debug, PartialEq, Eq)]
pub struct Free {
    /// The margins along the four edges of the sheet.
    pub left: Grains,
    pub right: Grains,
    pub bottom: Grains,
    pub top: Grains,
    /// The gap between cells that are side by side.
    pub across: Grains,
    /// The gap between cells that are one above another. On a leaf this gap is at the fold, half of it on each side.
    pub up: Grains,
    /// The width of a strip along each edge of a page. The strip doesn't count when the page is fitted into a cell. Whatever is drawn in the strip
    /// may overlap the neighbouring pages.
    pub trim: Grains,
}

/// The arrangement of pages on a sheet: the cells, the lengths that are kept free, the order of the pages, and their scale.
#[derive(Clone, Copy, Debug, PartialEq, Eq)]
pub struct Arrangement {
    pub cells: Cells,
    pub free: Free,
    pub order: Order,
    /// The scale of the pages. If it is None, pages are as large as possible.
    pub scale: Option<Number>,
}

/// The binding of a booklet: the margins, gap and trim of its leaves, the edge at which it is bound, and the way in which its backs are printed.
/// Opposite margins have to be equal.
#[derive(Clone, Copy, Debug, PartialEq, Eq)]
pub struct Binding {
    pub free: Free,
    /// Whether the booklet is bound at the right.
    pub right_to_left: bool,
    /// Whether the backs are rotated by 180 degrees, for printers that flip a sheet on its long edge.
    pub long_edge: bool,
    /// The scale of the pages. If it is None, pages are as large as possible.
    pub scale: Option<Number>,
}

impl Free {
    /// No margins, no gaps and no trim.
    pub fn none() -> Free
        ensures { result ≡ nothing_free }
    {
        Free {
            left: Grains::ZERO,
            right: Grains::ZERO,
            bottom: Grains::ZERO,
            top: Grains::ZERO,
            across: Grains::ZERO,
            up: Grains::ZERO,
            trim: Grains::ZERO,
        }
    }
}

impl Arrangement {
    /// The arrangement with these cells, and with pages in rows from the left. It has no margins, gaps or trim. The pages are as large as possible.
    pub fn plain(cells: Cells) -> Arrangement
        ensures { result ≡ plain_of cells }
    {
        Arrangement {
            cells,
            free: Free::none(),
            order: leaf_order(false),
            scale: None,
        }
    }
}

impl Binding {
    /// The binding at the left, without margins, gaps or trim. `long_edge` says whether the printer flips sheets on their long edge.
    pub fn plain(long_edge: bool) -> Binding
        ensures { result ≡ plain_binding long_edge }
    {
        Binding {
            free: Free::none(),
            right_to_left: false,
            long_edge,
            scale: None,
        }
    }
}
