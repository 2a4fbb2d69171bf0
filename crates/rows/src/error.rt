//! Why there is no row.
use thiserror::Error;

/// Why there is no row. The faults are looked for in the order of this enum, before any memory is requested. The whole text is read first, then all
/// pages are looked up, then the entries are counted. The value of a fault is the byte of the text at which its range begins, counted from 0.
#[derive(Clone, Copy, Debug, PartialEq, Eq, Error)]
pub enum RowError {
    /// The text from this index to the next comma, or to the end, isn't a range.
    #[error("pages: no range at byte {0}")]
    NotARange(usize),
    /// The document doesn't have the first or the last page of this range.
    #[error("pages: no such page at byte {0}")]
    NotInDocument(usize),
    /// Up to the end of this range, there are over 1,000,000 entries.
    #[error("pages: more than 1,000,000 entries at byte {0}")]
    TooManyEntries(usize),
    /// There are no entries to impose.
    #[error("pages: no page is left")]
    NoEntries,
    /// There was not enough memory.
    #[error("out of memory")]
    NoMemory,
}
