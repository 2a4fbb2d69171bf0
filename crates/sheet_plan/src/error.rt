//! Why a plan is refused.
use thiserror::Error;

/// Why the sheets of a specification can't be planned. The limits are tested in the order of this enum, before any memory is requested.
#[derive(Clone, Copy, Debug, PartialEq, Eq, Error)]
pub enum PlanError {
    /// There are over 1,000,000 pages. With signatures, the blanks that fill up the last signature count as pages.
    #[error("plan: too many pages")]
    TooManyPages,
    /// There are over 1,000,000 sheets.
    #[error("plan: too many sheets")]
    TooManySheets,
    /// The sheets have over 4,000,000 slots in all, including blank ones.
    #[error("plan: too many places")]
    TooManyPlaces,
    /// There was not enough memory.
    #[error("out of memory")]
    NoMemory,
}

/// Why sheets that a caller made can't be planned. The faults are looked for in the order of this enum, before any memory is requested. Sheets are
/// counted from 0.
#[derive(Clone, Copy, Debug, PartialEq, Eq, Error)]
pub enum MadeError {
    /// There are over 1,000,000 pages.
    #[error("sheets: too many pages")]
    TooManyPages,
    /// There are over 1,000,000 sheets.
    #[error("sheets: too many sheets")]
    TooManySheets,
    /// This sheet has no slots, or over 4,096.
    #[error("sheets: no places or too many on sheet {0}")]
    SlotsOutOfRange(u32),
    /// The sheets have over 4,000,000 slots in all, including blank ones.
    #[error("sheets: too many places")]
    TooManyPlaces,
    /// This sheet has a page that isn't in the document.
    #[error("sheets: no such page on sheet {0}")]
    NoSuchPage(u32),
    /// There was not enough memory.
    #[error("out of memory")]
    NoMemory,
}
