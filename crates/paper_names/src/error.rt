//! Why a text names no paper.

/// Why a text names no paper.
#[derive(Clone, Copy, Debug, PartialEq, Eq)]
pub enum PaperError {
    /// The text is neither a known name nor a width and a height with `x`, `X`, `*` or `×` between them. A side with an unknown unit, or with a
    /// number whose integer part is over 99,999, counts as neither width nor height.
    Unknown,
    /// No unit follows the height.
    NoUnit,
    /// A side is zero or negative.
    NoSuchSize,
}
