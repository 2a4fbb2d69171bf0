//! The grid that takes the largest pages.
ghost use Rattle.std.specs.Prelude.{◌≡◌, ◌<◌, ◌≤◌, IsTrue};
ghost use Rattle.layouts.specs.Refusals.{is_shown, is_count, most_on_sheet};
ghost use Rattle.layouts.specs.Grids.{best_of as best_of_turn, better as better_of, best_grid as best_grid_of};
ghost use Rattle.layouts.specs.Grids.{grid_of as grid_for, cells_per_sheet};

use super::arrangement::{Cells, Turned};
use super::grid::Grid;
use super::room::Room;
use super::scale::exact_scale;
use lengths::Paper;

/// The requested columns and rows, with upright pages unless turned ones are larger. If only a number of cells is requested, the result is the best
/// grid for that number.
pub(crate) fn grid_of(page: &Paper, room: &Room, reading: Turned, cells: Cells) -> Grid
    requires shown { IsTrue (is_shown page.now room.now) }
    requires cells { IsTrue (is_count (cells_per_sheet cells)) }
    ensures { result ≡ grid_for page.now room.now reading cells }
{
    match cells {
        Cells::AtLeast(n) => best_grid(page, room, n),
        Cells::Exactly { columns, rows } => better(
            page,
            room,
            Grid::formed(reading, false, columns, rows),
            Grid::formed(reading, true, columns, rows),
        ),
    }
}

/// The grid of at least n cells, with upright or turned pages, that takes the largest pages. Of grids with equally large pages, one with the fewest
/// cells is taken; of these, one with upright pages; of these, the one with the fewest columns.
fn best_grid(page: &Paper, room: &Room, n: u32) -> Grid
    requires shown { IsTrue (is_shown page.now room.now) }
    requires cells { (0 < n) × (n ≤ most_on_sheet) }
    ensures { result ≡ best_grid_of page.now room.now n }
{
    better(
        page,
        room,
        best_of(page, room, false, n),
        best_of(page, room, true, n),
    )
}

/// The best grid of at least n cells whose pages are turned if `turned` is true, and otherwise upright. If several grids are equally good, it is the
/// one with the fewest columns.
fn best_of(page: &Paper, room: &Room, turned: bool, n: u32) -> Grid
    requires shown { IsTrue (is_shown page.now room.now) }
    requires cells { (0 < n) × (n ≤ most_on_sheet) }
    ensures { result ≡ best_of_turn page.now room.now turned n n }
{
    let mut best = Grid::of(turned, n, 1);
    for k in 0..n {
        best = better(page, room, best, Grid::of(turned, n, k + 1));
    }
    best
}

/// The better of two grids. This is `one`, unless `other` takes larger pages, or equally large pages in fewer cells. Pages are compared as if the
/// sheet were divided exactly, without rounding.
fn better(page: &Paper, room: &Room, one: Grid, other: Grid) -> Grid
    requires { IsTrue (is_shown page.now room.now) }
    ensures { result ≡ better_of page.now room.now one other }
{
    let (first, second) = (exact_scale(page, room, one), exact_scale(page, room, other));
    if first < second || first == second && other.size() < one.size() {
        other
    } else {
        one
    }
}
