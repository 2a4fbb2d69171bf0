//! Messages about pages that can't be laid out, and about sheets that can't be planned.

use crate::context::{Context, OUT_OF_MEMORY};
use crate::rooms::no_room_text;
use layouts::ArrangementError;
use row_sheets::PosterError;
use sheet_plan::{MadeError, PlanError};
use std::alloc::AllocError;

/// The message about pages that can't be laid out. If their scale is out of range, the message depends on whether the request names a scale.
pub(crate) fn layout_text(
    context: &Context<'_>,
    error: &ArrangementError,
) -> Result<String, AllocError> {
    let message = match error {
        ArrangementError::CellsOutOfRange => "a sheet takes from 1 to 1,024 pages",
        ArrangementError::SideTooLong =>
            "a side of a paper is 100,000 points or more: name a smaller paper",
        ArrangementError::LengthOutOfRange =>
            "a margin, a gap, a trim, a creep or an overlap is below 0, or 100,000 points or more",
        ArrangementError::NothingLeftOfPage =>
            "nothing is left of a page that is trimmed so: trim less",
        ArrangementError::UnevenMargins =>
            "what is folded or printed on both sides needs equal margins at opposite edges, and a poster at all edges",
        ArrangementError::FoldOnLongEdge => return fold_text(context),
        ArrangementError::NoRoom(room) => return no_room_text(context.alloc, room),
        ArrangementError::ScaleOutOfRange if context.is_scaled =>
            "the scale is 0 or below, or too large: give one as --scale 0.7",
        ArrangementError::ScaleOutOfRange =>
            "the pages would be too small or too large on the sheet: name other papers by --paper and --sheet",
        ArrangementError::ScaleTooLarge =>
            "pages of this scale are larger than their cells: take a smaller scale (.7 is 70 %), or smaller margins (0.01 mm for an exact fit)",
        ArrangementError::CreepOverFold =>
            "there is no room at the fold for leaves to creep so far: take a smaller --creep or a larger --gap",
        ArrangementError::NoMemory => OUT_OF_MEMORY,
    };
    String::from_str(context.alloc, message)
}

/// The message about a booklet's sheet that would fold along its longer edge. A sheet can be wider than high only if `--sheet` names it.
fn fold_text(context: &Context<'_>) -> Result<String, AllocError> {
    let reason = match context.sheet {
        Some(sheet) if sheet.width() > sheet.height() => "the sheet is wider than high, and",
        _ => "upright pages side by side would be larger on this sheet, and it",
    };
    format!(in context.alloc;
        "{reason} would fold along its longer edge: name another sheet, as --sheet a4, or use nup 2"
    )
}

/// The message about a page that can't be made into the requested poster.
pub(crate) fn poster_message(error: &PosterError) -> &'static str {
    match error {
        PosterError::TilesOutOfRange =>
            "a poster has from 1 to 1,024 sheets: give other columns and rows, or a smaller size or scale",
        PosterError::SideTooLong =>
            "a side of a sheet or of the whole poster is 100,000 points or more: take fewer or smaller sheets",
        PosterError::NothingButOverlap =>
            "margins and overlap leave nothing of a sheet: take a smaller --margin or --overlap, or a larger --sheet",
        PosterError::ScaleOutOfRange =>
            "the page would be too small or too large on the poster: name another size or scale, or other papers by --paper and --sheet",
        PosterError::ScaleTooLarge =>
            "at that scale a page is larger than its sheets: take more columns and rows or a smaller --scale, or name the paper of that page by --paper",
        PosterError::NoMemory => OUT_OF_MEMORY,
    }
}

/// The message about sheets that can't be planned, for example because there are too many of them.
pub(crate) fn sheets_message(error: &MadeError) -> &'static str {
    match error {
        MadeError::TooManyPages => "the document has more than 1,000,000 pages: split it first",
        MadeError::TooManySheets =>
            "the output would have more than 1,000,000 sheets: impose in several runs",
        MadeError::SlotsOutOfRange(_) => "a sheet takes at most 4,096 pages",
        MadeError::TooManyPlaces =>
            "more than 4,000,000 pages would be placed: impose in several runs",
        MadeError::NoSuchPage(_) => "a sheet has a page that the document doesn't have",
        MadeError::NoMemory => OUT_OF_MEMORY,
    }
}

/// The message about pages that can't be planned.
pub(crate) fn plan_message(error: &PlanError) -> &'static str {
    match error {
        PlanError::TooManyPages =>
            "more than 1,000,000 pages with the blank ones of the last signature: take a smaller signature",
        PlanError::TooManySheets =>
            "the output would have more than 1,000,000 sheets: split the document first",
        PlanError::TooManyPlaces =>
            "more than 4,000,000 pages would be placed: split the document first",
        PlanError::NoMemory => OUT_OF_MEMORY,
    }
}
