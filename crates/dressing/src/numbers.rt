//! The options of page numbers.
use lengths::Grains;

/// The way in which pages are numbered.
#[derive(Clone, Copy, Debug, PartialEq, Eq)]
pub struct Numbering {
    /// The size of the font, in grains.
    pub size: Grains,
    /// The number of a page in the first place of the row. Each later place counts one more, blanks included.
    pub first: u32,
}
