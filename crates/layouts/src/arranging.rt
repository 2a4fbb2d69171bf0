//! Sheets, margins and scales, as a caller requests them.
ghost use Rattle.std.specs.Prelude.{◌≡◌, IfOk, IfErr, OnOk, Some, None, IsTrue};
ghost use Rattle.rules.specs.Papers.{is_paper};
ghost use Rattle.layouts.specs.Laws.{IsPaper};
ghost use Rattle.layouts.specs.Grids.{is_same, is_itself as is_page_itself};
ghost use Rattle.layouts.specs.Grids.{room_of};
ghost use Rattle.layouts.specs.Grids.{scale_for, leaf_order as leaf_order_of};
ghost use Rattle.layouts.specs.Refusals.{is_paper_reached, folds_short, why_no_room, why_no_sheet, why_no_scale, is_shown as are_shown};

use super::arrangement::{Arrangement, FillOrder, Free, Order, Papers, Turned};
use super::error::ArrangementError;
use super::grid::Grid;
use super::item::within_reach;
use super::room::{Room, are_lengths};
use super::scale::{OUT_OF_REACH, extent, is_scale, left_free, scale_in};
use lengths::{Number, Paper};

/// The most pages that a sheet may have.
pub const MOST_ON_SHEET: u64 = 1_024;

/// The order of the pages on a leaf: from the left, or from the right if the booklet is bound at the right.
pub(crate) fn leaf_order(right_to_left: bool) -> Order
    ensures { result ≡ leaf_order_of right_to_left }
{
    Order {
        run: FillOrder::Rows,
        right_to_left,
        turned: Turned::Upright,
    }
}

/// The sheet with its margins and gaps. Fails with `SideTooLong`, `LengthOutOfRange` or `NothingLeftOfPage`, in this order.
pub(crate) fn sheet_in(papers: &Papers, free: &Free) -> Result<Room, ArrangementError>
    ensures page { IsTrue (is_paper papers.now.page.width papers.now.page.height) }
    ensures sheet { IsTrue (is_paper papers.now.sheet.width papers.now.sheet.height) }
    ensures room { IfOk result (λ room. room ≡ room_of papers.now.sheet free.now) }
    ensures shown { IfOk result (λ room. IsTrue (are_shown papers.now.page room)) }
    ensures possible { OnOk result (why_no_sheet papers.now.page papers.now.sheet free.now None ≡ None) }
    ensures refused { IfErr result (λ error.
        why_no_sheet papers.now.page papers.now.sheet free.now None ≡ Some error) }
{
    let page = fits_offsets(&papers.page);
    let sheet = fits_offsets(&papers.sheet);
    if !(page && sheet) {
        return Err(ArrangementError::SideTooLong);
    }
    if !are_lengths(free) {
        return Err(ArrangementError::LengthOutOfRange);
    }
    let room = Room::of(papers.sheet, free);
    if !leaves_page_visible(&papers.page, &room) {
        return Err(ArrangementError::NothingLeftOfPage);
    }
    Ok(room)
}

/// Checks that the margins leave some of the sheet, whatever the size of the pages. Fails with `NoRoom` if they leave nothing. Lengths out of range
/// pass, because `Setting::of` and `of_binding` refuse them as `LengthOutOfRange`.
pub fn check_room(sheet: &Paper, free: &Free) -> Result<(), ArrangementError>
    ensures possible { OnOk result (why_no_room sheet.now free.now ≡ None) }
    ensures refused { IfErr result (λ error. why_no_room sheet.now free.now ≡ Some error) }
{
    if !are_lengths(free) {
        return Ok(());
    }
    let room = Room::of(*sheet, free);
    let width = left_free(&room.along_width(), extent(sheet.width()));
    let height = left_free(&room.along_height(), extent(sheet.height()));
    if 0 < width && 0 < height {
        Ok(())
    } else {
        Err(ArrangementError::NoRoom(room))
    }
}

/// The scale of pages, in 10^-9, in cells that allow at most the scale `largest`: the requested scale, or else `largest`. Fails with `NoRoom`,
/// `ScaleOutOfRange` or `ScaleTooLarge` if pages can't have this scale.
pub(crate) fn scale_found(
    room: &Room,
    asked: Option<Number>,
    largest: u128,
) -> Result<u64, ArrangementError>
    ensures value { IfOk result (λ scale. scale ≡ scale_for asked largest) }
    ensures possible { OnOk result (why_no_scale room.now (scale_for asked largest) largest ≡ None) }
    ensures refused { IfErr result (λ error. why_no_scale room.now (scale_for asked largest) largest ≡ Some error) }
{
    let scale = scale_asked(asked, largest);
    if largest < 1 {
        return Err(ArrangementError::NoRoom(*room));
    }
    if !is_scale(scale) {
        return Err(ArrangementError::ScaleOutOfRange);
    }
    if largest < scale {
        return Err(ArrangementError::ScaleTooLarge);
    }
    if !within_reach(room, scale) {
        return Err(ArrangementError::ScaleOutOfRange);
    }
    Ok(scale as u64)
}

/// The requested scale, in 10^-9; a negative scale counts as 0. The result is `largest` if no scale is requested.
fn scale_asked(asked: Option<Number>, largest: u128) -> u128
    ensures { result ≡ scale_for asked largest }
{
    asked.map_or(largest, |scale| scale.billionths().max(0) as u128)
}

/// Whether the trim leaves some of the page.
pub(crate) fn leaves_page_visible(page: &Paper, room: &Room) -> bool
    ensures { result ≡ are_shown page.now room.now }
{
    let trimmed = 2_540_000 * room.trim;
    trimmed < extent(page.width()) && trimmed < extent(page.height())
}

/// Whether the request is for one page on a sheet of its own paper, without margins, trim or a scale.
pub(crate) fn is_identity(papers: &Papers, room: &Room, arrangement: &Arrangement) -> bool
    requires { room.now ≡ room_of papers.now.sheet arrangement.now.free }
    ensures { result ≡ is_page_itself papers.now.page papers.now.sheet arrangement.now }
{
    arrangement.cells.count() == 1
        && is_of_size(&papers.page, &papers.sheet)
        && room.has_bare_edges()
        && arrangement.scale.is_none()
}

/// Whether offsets in points can reach across the paper. They can if both sides are below 100,000 points.
pub fn fits_offsets(paper: &Paper) -> bool
    ensures value { result ≡ is_paper_reached paper.now }
    ensures in_range { IsTrue (is_paper paper.now.width paper.now.height) }
{
    let (width, height) = (extent(paper.width()), extent(paper.height()));
    width < OUT_OF_REACH && height < OUT_OF_REACH
}

/// Whether the two papers have the same width and the same height.
pub fn is_of_size(page: &Paper, sheet: &Paper) -> bool
    ensures value { result ≡ is_same page.now sheet.now }
    ensures page { IsPaper page.now }
    ensures sheet { IsPaper sheet.now }
{
    let (width, height) = (extent(page.width()), extent(page.height()));
    let (sheet_width, sheet_height) = (extent(sheet.width()), extent(sheet.height()));
    width == sheet_width && height == sheet_height
}

/// Whether the fold between two pages is parallel to the shorter edge of the sheet: the sheet isn't wider than high, and two pages side by side on it
/// aren't larger upright than turned.
pub(crate) fn is_fold_short(page: &Paper, room: &Room) -> bool
    requires { IsTrue (are_shown page.now room.now) }
    ensures { result ≡ folds_short page.now room.now }
{
    let (width, height) = (extent(room.paper.width()), extent(room.paper.height()));
    let upright = scale_in(page, room, Grid::beside(false));
    let turned = scale_in(page, room, Grid::beside(true));
    width <= height && upright <= turned
}
