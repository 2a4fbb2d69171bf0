//! Why pages can't be arranged.
use super::room::Room;
use thiserror::Error;

/// Why pages can't be arranged as requested.
#[derive(Clone, Copy, Debug, PartialEq, Eq, Error)]
pub enum ArrangementError {
    /// No cell was requested, or more than 1,024.
    #[error("a sheet has from 1 to 1,024 cells")]
    CellsOutOfRange,
    /// A side of the pages' paper or of the sheets' paper is 100,000 points long or longer.
    #[error("a paper's side is 100,000 points or more")]
    SideTooLong,
    /// A margin, a gap or the trim is negative, or is 100,000 points or more.
    #[error("a margin, a gap or a trim is below 0, or 100,000 points or more")]
    LengthOutOfRange,
    /// The trim leaves nothing of the page.
    #[error("nothing is left of a trimmed page")]
    NothingLeftOfPage,
    /// Opposite margins of a leaf differ.
    #[error("the margins of opposite edges of a leaf differ")]
    UnevenMargins,
    /// The fold would be parallel to the longer edge of a booklet's sheet. Either the sheet is wider than high, or upright pages side by side would
    /// be larger on it.
    #[error("a booklet would fold along the longer edge of the sheet")]
    FoldOnLongEdge,
    /// Margins and gaps leave nothing of this sheet for pages, or so little that the scale of pages would be below 10^-9.
    #[error("margins and gaps leave no room for pages")]
    NoRoom(Room),
    /// The scale of the pages would be 0 or negative, or above 99,999, or so large that no offset makes up for the trim.
    #[error("the pages would be too small or too large: their scale must be from 0.000000001 to 99999")]
    ScaleOutOfRange,
    /// At the requested scale, pages are larger than their cells.
    #[error("pages of this scale are larger than their cells")]
    ScaleTooLarge,
    /// On a leaf that creeps, pages would cross the fold.
    #[error("there is no room at the fold for leaves to creep so far")]
    CreepOverFold,
    /// There was not enough memory.
    #[error("out of memory")]
    NoMemory,
}
