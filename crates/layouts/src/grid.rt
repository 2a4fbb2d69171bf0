//! Rows and columns of cells.
ghost use Rattle.std.specs.Prelude.{◌≡◌, ◌*◌, ◌<◌, ◌≤◌};
ghost use Rattle.layouts.specs.Cells.{size as size_of};
ghost use Rattle.layouts.specs.Refusals.{most_on_sheet};
ghost use Rattle.layouts.specs.Grids.{grid, formed as formed_of, beside as beside_of};

use super::arrangement::Turned;
use std::marker::Model;

/// The rows and columns of a sheet that is held so that its pages are upright. There is at least one of each. On the sheet as it lies, the pages are
/// upright or turned to the left. Contracts see it as the grid of the definitions.
#[derive(Clone, Copy, Debug, PartialEq, Eq)]
pub struct Grid {
    pub rows: u32,
    pub columns: u32,
    pub turned: bool,
}

impl Model for Grid {
    ghost use Rattle.std.specs.Prelude.{◌<◌};
    ghost use Rattle.layouts.specs.Cells.{Grid as Cells};

    ghost Value = { Cells };

    ghost view = { λ g. record { rows = g.rows; columns = g.columns; turned = g.turned } };

    ghost invariant = { λ g. (0 < g.rows) × (0 < g.columns) };

    ghost inverse = { λ g. record { rows = g.rows; columns = g.columns; turned = g.turned } };
}

impl Grid {
    /// The grid that has this number of columns, and as few rows as n cells need. `turned` says whether its pages are turned to the left.
    pub(crate) fn of(turned: bool, n: u32, columns: u32) -> Grid
        requires some { 0 < columns }
        requires cells { 0 < n }
        requires most { (columns ≤ most_on_sheet) × (n ≤ most_on_sheet) }
        ensures { result ≡ grid turned n columns }
    {
        Grid {
            rows: (n + (columns - 1)) / columns,
            columns,
            turned,
        }
    }

    /// The grid that has this number of columns and rows, as one reads the sheet. `turned` says whether its pages are turned to the left.
    pub(crate) fn formed(reading: Turned, turned: bool, columns: u32, rows: u32) -> Grid
        requires { (0 < columns) × (0 < rows) }
        ensures { result ≡ formed_of reading turned columns rows }
    {
        match reading {
            Turned::Upright => Grid {
                rows,
                columns,
                turned,
            },
            Turned::Left | Turned::Right => Grid {
                rows: columns,
                columns: rows,
                turned,
            },
        }
    }

    /// The grid of two cells side by side. `turned` says whether its pages are turned to the left.
    pub(crate) fn beside(turned: bool) -> Grid
        ensures { result ≡ beside_of turned }
    {
        Grid {
            rows: 1,
            columns: 2,
            turned,
        }
    }

    /// The number of cells in the grid.
    pub fn size(self) -> u64
        ensures value { result ≡ size_of self }
        ensures some { 0 < result }
    {
        u64::from(self.rows) * u64::from(self.columns)
    }
}
