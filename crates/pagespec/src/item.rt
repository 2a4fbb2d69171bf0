//! The items of a specification. An item says which page of a block is taken, and how the page is placed.
use lengths::{Number, Unit};

/// A length as it is written: a number with its unit. The unit may be the width or the height of the paper.
#[derive(Clone, Copy, Debug, PartialEq, Eq)]
pub struct Measure {
    pub number: Number,
    pub unit: Unit,
}

impl Measure {
    /// The length 0 pt.
    pub const ZERO: Measure = Measure {
        number: Number::ZERO,
        unit: Unit::Pt,
    };
}

/// The angle by which a page is turned to the left: none, one, two or three quarters of a full turn.
#[derive(Clone, Copy, Debug, PartialEq, Eq)]
pub enum Turn {
    None,
    Left,
    Half,
    Right,
}

/// The meaning of an item in a specification (pstops manual, page specifications). The page is scaled, then turned, then moved to the right and up by
/// the offset.
#[derive(Clone, Copy, Debug, PartialEq, Eq)]
pub struct Item {
    /// The page's number in its block, counted from 0.
    pub page: u32,
    /// Whether blocks are counted from the end of the pages. This is written as a minus before the page number.
    pub from_end: bool,
    pub turn: Turn,
    /// The scale, which is greater than zero. It is 1 if none is written.
    pub scale: Number,
    /// The offset to the right and up. Both lengths are 0 pt if none is written.
    pub offset: (Measure, Measure),
}
