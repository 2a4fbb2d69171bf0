//! Finds pages that a specification places beside their sheets, or beyond an edge.
ghost use Rattle.std.specs.Prelude.{◌≡◌, ◌<◌, ◌≤◌, ◌*◌, ◌^◌, ◌+ℤ◌, IsTrue, int_le, int_lt, length, nat_abs};
ghost use Rattle.lengths.specs.Ranges.{FitsGrains};
ghost use Rattle.rules.specs.Papers.{is_side};
ghost use Rattle.rules.specs.Placement.{turned as turned_point};
ghost use Rattle.pagespec.specs.Items.{item_of, turn_of};
ghost use Rattle.papers.specs.Reach.{is_beyond as is_beyond_paper, rounding};
ghost use Rattle.sheet_plan.specs.OfSheets.{placed_of, slots_at};
ghost use Rattle.row_runs.specs.Turning.{scaled_length as length_of_side};
ghost use Rattle.impose_cli.specs.Lying as meaning;

use impose_messages::Lying;
use lengths::{Grains, Number, Paper, to_grains};
use pagespec::{Item, Turn};
use papers::Edges;
use sheet_plan::{MadeSheets, PlacedSlot};

/// The number of grains in 10^-5 of a point.
const LEAST_GRAINS: i128 = 1_270_000;

/// The number of grains in a point. A page may reach one point beyond its sheet, because sizes are rounded.
const ROUNDING: i128 = 127_000_000_000;

/// The first page of which nothing is on its sheet, or without `wholly` the first that is partly on it, and partly beyond an edge by more than a point.
/// `count` is the number of sheets.
pub(crate) fn lying_among(sheets: &MadeSheets, count: u32, wholly: bool) -> Option<Lying>
    requires { count ≡ length sheets.now }
    ensures { result ≡ meaning.lying_among wholly sheets.now }
{
    for sheet in 0..count {
        let paper = sheets.paper(sheet);
        if let Some(found) = lying_on(sheets, sheet, paper, wholly) {
            return Some(found);
        }
    }
    None
}

/// The first page of a sheet of this paper that lies so.
fn lying_on(sheets: &MadeSheets, sheet: u32, paper: &Paper, wholly: bool) -> Option<Lying>
    requires { sheet < length sheets.now }
    ensures { result ≡ meaning.first_found (meaning.lying wholly paper.now) (slots_at sheets.now sheet) }
{
    for slot in 0..sheets.slots(sheet) {
        if let Some(found) = lying(sheets.placed(sheet, slot), paper, wholly) {
            return Some(found);
        }
    }
    None
}

/// The page in a slot of a sheet of this paper, if it lies so.
fn lying(placed: Option<PlacedSlot<'_>>, sheet: &Paper, wholly: bool) -> Option<Lying>
    ensures { result ≡ meaning.lying wholly sheet.now (placed_of placed.entry) }
{
    let placed = placed?;
    let edges = placed_edges(placed.item, placed.paper)?;
    if lies_so(sheet, &edges, wholly) {
        Some(Lying {
            page: placed.page,
            edges,
            sheet: *sheet,
        })
    } else {
        None
    }
}

/// The edges of a placed page. None if one is too far away to be a length.
fn placed_edges(item: &Item, paper: &Paper) -> Option<Edges>
    ensures { result ≡ meaning.placed_edges paper.now (item_of item.now) }
{
    let (x, y) = item.offset;
    let x = to_grains(x.number, x.unit, paper);
    let y = to_grains(y.number, y.unit, paper);
    let width = scaled_side(item.scale, paper.width());
    let height = scaled_side(item.scale, paper.height());
    let (across, up) = turned_by(item.turn, width, height);
    let far_x = moved_by(x, across);
    let far_y = moved_by(y, up);
    edges_to(x, y, far_x, far_y)
}

/// `distance` grains further than `start`.
fn moved_by(start: Grains, distance: i128) -> i128
    requires { nat_abs distance ≤ 10 ^ 24 }
    ensures value { result ≡ distance +ℤ start }
    ensures in_range { nat_abs result ≤ 10 ^ 25 }
{
    distance + start.get()
}

/// The box between two corners. None if the second is too far away to be a length.
fn edges_to(x: Grains, y: Grains, far_x: i128, far_y: i128) -> Option<Edges>
    ensures { result ≡ meaning.edges_to (record { x = x; y = y }) (record { x = far_x; y = far_y }) }
{
    if is_length(far_x) && is_length(far_y) {
        Some(box_between(x, y, length_of(far_x), length_of(far_y)))
    } else {
        None
    }
}

/// Whether so many grains are a length.
fn is_length(grains: i128) -> bool
    ensures { result ≡ meaning.is_length grains }
{
    grains.unsigned_abs() <= 100_000_000_000_000_000_000_000
}

fn length_of(grains: i128) -> Grains
    requires { FitsGrains grains }
    ensures { result ≡ grains }
{
    Grains::new(grains).unwrap_or(Grains::ZERO)
}

/// The box between two corners.
fn box_between(x: Grains, y: Grains, far_x: Grains, far_y: Grains) -> Edges
    ensures { result ≡ meaning.box_between (record { x = x; y = y }) (record { x = far_x; y = far_y }) }
{
    Edges {
        left: x.min(far_x),
        bottom: y.min(far_y),
        right: x.max(far_x),
        top: y.max(far_y),
    }
}

/// A side at this scale, in grains, rounded up to 10^-5 of a point.
fn scaled_side(scale: Number, side: Grains) -> i128
    requires { IsTrue (is_side side) }
    ensures value { result ≡ meaning.scaled_side scale side }
    ensures in_range { nat_abs result ≤ 10 ^ 24 }
{
    let length = u128::from(scale.billionths().unsigned_abs()) * side.get().unsigned_abs();
    let parts = (length + 1_269_999_999_999_999) / 1_270_000_000_000_000;
    (parts as i128) * LEAST_GRAINS
}

/// Turns a point about the point (0, 0).
fn turned_by(turn: Turn, x: i128, y: i128) -> (i128, i128)
    requires x { nat_abs x ≤ 10 ^ 24 }
    requires y { nat_abs y ≤ 10 ^ 24 }
    ensures x { result.0 ≡ (turned_point (turn_of turn) (record { x = x; y = y })).x }
    ensures y { result.1 ≡ (turned_point (turn_of turn) (record { x = x; y = y })).y }
    ensures x_in_range { nat_abs result.0 ≤ 10 ^ 24 }
    ensures y_in_range { nat_abs result.1 ≤ 10 ^ 24 }
{
    match turn {
        Turn::None => (x, y),
        Turn::Left => (-y, x),
        Turn::Half => (-x, -y),
        Turn::Right => (y, -x),
    }
}

/// Whether a page with these edges is beside its sheet or, without `wholly`, partly beyond an edge.
fn lies_so(sheet: &Paper, edges: &Edges, wholly: bool) -> bool
    ensures { result ≡ meaning.lies_so wholly sheet.now edges.now }
{
    if wholly {
        is_beside(sheet, edges)
    } else {
        is_beyond(sheet, edges) && !is_beside(sheet, edges)
    }
}

/// Whether nothing of a page is on its sheet.
fn is_beside(sheet: &Paper, edges: &Edges) -> bool
    ensures { result ≡ meaning.is_beside sheet.now edges.now }
{
    (is_within(edges.right, Grains::ZERO) || is_within(edges.top, Grains::ZERO))
        || (is_within(sheet.width(), edges.left) || is_within(sheet.height(), edges.bottom))
}

/// Whether `length` isn't past the coordinate `other`.
fn is_within(length: Grains, other: Grains) -> bool
    ensures { result ≡ int_le length other }
{
    length.get() <= other.get()
}

/// Whether an edge of a page lies outside its sheet by more than a point.
fn is_beyond(sheet: &Paper, edges: &Edges) -> bool
    ensures { result ≡ is_beyond_paper sheet.now edges.now }
{
    (is_past(edges.left, 0) || is_past(edges.bottom, 0))
        || (is_past(sheet.width(), edges.right.get()) || is_past(sheet.height(), edges.top.get()))
}

/// Whether the coordinate `grains` lies more than one point past `length`.
fn is_past(length: Grains, grains: i128) -> bool
    ensures { result ≡ int_lt (length +ℤ rounding) grains }
{
    length.get() + ROUNDING < grains
}
