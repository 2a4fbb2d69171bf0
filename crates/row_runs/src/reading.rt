//! The way in which the sheets of a laying are printed and read.
ghost use Rattle.std.specs.Prelude.{◌≡◌, ◌<◌, ◌^◌, if◌then◌else◌, length, sum_by};
ghost use Rattle.layouts.specs.Cells.{held_height, held_width};
ghost use Rattle.layouts.specs.Grids.{plain_order as order_of_one};
ghost use Rattle.pagespec.specs.Items.{groups_of};
ghost use Rattle.preview.specs.declared.naming.Edge.TheVariants.{Long, Short};
ghost use Rattle.preview.specs.declared.reading.Places.TheVariants.{Cells};
ghost use Rattle.row_runs.specs.Readings.{edge_at_side as edge_of, height_read, listed as listed_grid, most_items as most_items_in, places_read, reading_in, sides_by as sides_of_swapped_room, sides_in, single as single_grid};
ghost use Rattle.row_runs.specs.Readings.{edge_as_printed as edge_printed, tiles_in, width_read};

use crate::sheet_request::Laying;
use layouts::{FillOrder, Grid, Order, Room, Setting, Turned, extent};
use lengths::Paper;
use pagespec::{Item, Spec};
use preview::{Edge, Places, Reading, Sides};
use row_sheets::{Poster, Scheme};

/// The sides on which the sheets of a laying are printed, and the places of pages on each sheet. If `swap` is given, its left and right margins are
/// exchanged on backs.
pub(crate) fn reading_of(swap: &Option<Room>, laying: &Laying<'_>) -> Reading
    ensures { result ≡ reading_in swap.now laying.now }
{
    Reading {
        sides: sides_by(swap, laying),
        places: places_of(laying),
    }
}

/// The sides on which sheets are printed: both if margins are exchanged on backs, and otherwise those of the laying.
pub(crate) fn sides_by(swap: &Option<Room>, laying: &Laying<'_>) -> Sides
    ensures { result ≡ sides_of_swapped_room swap.now laying.now }
{
    match swap {
        None => printed_sides(laying),
        Some(room) => Sides::Both {
            flip: edge_as_printed(&room.paper),
        },
    }
}

/// The edge that runs along the height of a sheet as it is printed: the short one if the sheet is wider than high, and otherwise the long one.
fn edge_as_printed(paper: &Paper) -> Edge
    ensures { result ≡ edge_printed paper.now }
{
    if extent(paper.height()) < extent(paper.width()) {
        Edge::Short
    } else {
        Edge::Long
    }
}

/// The sides on which the sheets of a laying are printed: one side, or both sides with the edge on which leaves are flipped.
fn printed_sides(laying: &Laying<'_>) -> Sides
    ensures { result ≡ sides_in laying.now }
{
    match laying {
        Laying::InCells { setting, scheme } => match scheme {
            Scheme::Leaves => Sides::Both {
                flip: edge_at_side(setting),
            },
            Scheme::Booklet { turned_backs, .. } => Sides::Both {
                flip: edge_of_backs(*turned_backs),
            },
            _ => Sides::One,
        },
        _ => Sides::One,
    }
}

/// The edge on which a booklet's leaves are flipped: the long one if backs are rotated by 180 degrees, and otherwise the short one.
fn edge_of_backs(turned: bool) -> Edge
    ensures { result ≡ (if turned then Long else Short) }
{
    if turned { Edge::Long } else { Edge::Short }
}

/// The edge on which leaves are turned over like the pages of a book, with the sheet held for reading: the short one if the sheet is then wider than
/// high, and otherwise the long one.
fn edge_at_side(setting: &Setting) -> Edge
    ensures { result ≡ edge_of setting.now }
{
    let (width, height) = sides_read(setting);
    if height < width {
        Edge::Short
    } else {
        Edge::Long
    }
}

/// The width and the height of the sheet, held for reading, in grains.
fn sides_read(setting: &Setting) -> (u64, u64)
    ensures width { result.0 ≡ width_read setting.now }
    ensures height { result.1 ≡ height_read setting.now }
{
    let (width, height) = sides_held(setting.grid.turned, &setting.room.paper);
    match setting.order.turned {
        Turned::Upright => (width, height),
        Turned::Left | Turned::Right => (height, width),
    }
}

/// The width and the height of the sheet, held with its pages upright, in grains. `turned` says whether pages are turned on the sheet.
fn sides_held(turned: bool, paper: &Paper) -> (u64, u64)
    ensures width { result.0 ≡ held_width turned paper.now }
    ensures height { result.1 ≡ held_height turned paper.now }
{
    let (width, height) = (extent(paper.width()), extent(paper.height()));
    if turned {
        (height, width)
    } else {
        (width, height)
    }
}

/// The places of pages on a sheet: its cells, the tiles of a poster, the items of a specification's longest group, or one place if pages are left as
/// they are.
fn places_of(laying: &Laying<'_>) -> Places
    ensures { result ≡ places_read laying.now }
{
    match laying {
        Laying::AsTheyAre { .. } => Places::Cells {
            grid: single(),
            order: plain_order(),
        },
        Laying::InCells { setting, .. } => Places::Cells {
            grid: setting.grid,
            order: setting.order,
        },
        Laying::Poster { poster } => Places::Tiles {
            grid: tiles_of(poster),
        },
        Laying::BySpec { spec, .. } => Places::Cells {
            grid: listed(spec),
            order: plain_order(),
        },
    }
}

/// A single row of places, one for each item in the longest group of a specification.
fn listed(spec: &Spec) -> Grid
    ensures { result ≡ listed_grid spec.now }
{
    Grid {
        rows: 1,
        columns: most_items(spec.groups()),
        turned: false,
    }
}

/// The number of items in the longest group. 1 if there is no group.
fn most_items(groups: &[Vec<Item>]) -> u32
    requires { sum_by length (groups_of groups.now) < 2 ^ 32 }
    ensures value { result ≡ most_items_in 1 (groups_of groups.now) }
    ensures some { 0 < result }
{
    let mut most = 1;
    for group in groups {
        most = most.max(group.len() as u32);
    }
    most
}

/// A grid with one cell.
fn single() -> Grid
    ensures { result ≡ single_grid }
{
    Grid {
        rows: 1,
        columns: 1,
        turned: false,
    }
}

fn plain_order() -> Order
    ensures { result ≡ order_of_one }
{
    Order {
        run: FillOrder::Rows,
        right_to_left: false,
        turned: Turned::Upright,
    }
}

/// The tiles of a poster. At least one row and one column are given, even for a poster without tiles, which has no sheets.
pub(crate) fn tiles_of(poster: &Poster) -> Grid
    ensures { result ≡ tiles_in poster.now }
{
    Grid {
        rows: poster.rows.max(1),
        columns: poster.columns.max(1),
        turned: false,
    }
}
