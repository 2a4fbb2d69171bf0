//! Why a text is refused as a specification.
use thiserror::Error;

/// Why a text is refused: the first check that it fails, in the order of this enum. Each check covers the whole text. Items and groups are counted
/// from 0 over the whole text. A variant with an index names the first item or group at fault.
#[derive(Clone, Copy, Debug, PartialEq, Eq, Error)]
pub enum SpecError {
    /// The text has over 65,536 bytes.
    #[error("specification: too long")]
    TooLong,
    /// The text doesn't follow the grammar. The value is the length in bytes of its longest prefix that some grammatical text also begins with.
    #[error("specification: syntax error at byte {0}")]
    Syntax(usize),
    /// The modulo, a page number or the integer part of a number is over 99,999.
    #[error("specification: number too large")]
    TooLarge,
    #[error("specification: modulo is zero")]
    ModuloZero,
    /// The page number of this item isn't below the modulo.
    #[error("specification: item {0}: page number not below modulo")]
    PageOutOfBlock(u32),
    /// A scale of this item is zero or negative.
    #[error("specification: item {0}: scale not above zero")]
    ScaleZero(u32),
    /// This item has a second scale or a second offset.
    #[error("specification: item {0}: modifier repeated")]
    Repeated(u32),
    /// This group has over 4,096 items.
    #[error("specification: group {0}: too many items")]
    TooManySlots(u32),
    /// There are over 10,000 groups.
    #[error("specification: too many groups")]
    TooManyGroups,
    /// There was not enough memory. This may be reported in place of any fault but `TooLong`.
    #[error("out of memory")]
    NoMemory,
}
