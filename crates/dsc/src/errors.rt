//! The errors of reading a document.
ghost use Rattle.std.specs.Prelude.{◌≡◌};
ghost use Rattle.dsc.specs.Faults.{widened};
ghost use Rattle.dsc.specs.declared.errors.CutError.TheVariants.{Faulty, NoMemory};

use crate::units::UnitError;
use std::alloc::AllocError;
use thiserror::Error;

/// Why a document or a page is refused. `BadCount` and `ShortData` contain the index of the byte at which the faulty
/// data block begins.
#[derive(Clone, Copy, Debug, PartialEq, Eq, Error)]
pub enum DscError {
    /// The input has over 1,073,741,824 bytes.
    #[error("input too long")]
    TooLong,
    /// The input doesn't begin with `%!`.
    #[error("input is not PostScript")]
    NotPostScript,
    /// The count of a data block is missing, or isn't a number.
    #[error("input: bad count at byte {0}")]
    BadCount(usize),
    /// A data block counts more bytes or lines than follow its first line.
    #[error("input: data cut short at byte {0}")]
    ShortData(usize),
    /// The document has over 1,000,000 pages.
    #[error("input: too many pages")]
    TooManyPages,
    /// The document has no `%%Page:` line outside embedded documents and data blocks.
    #[error("input: no pages")]
    NoPages,
    /// Memory was refused.
    #[error("out of memory")]
    NoMemory,
}

/// A faulty data block, and the index of the byte at which it begins.
#[derive(Clone, Copy, Debug)]
pub struct FaultyBlock {
    pub at: usize,
    pub fault: UnitError,
}

/// Why a text can't be cut: its first faulty data block, or a lack of memory.
#[derive(Debug, Drop)]
pub enum CutError {
    Faulty(FaultyBlock),
    NoMemory,
}

impl From<AllocError> for CutError {
    ghost from_gives = { λ _ error. error ≡ NoMemory };

    fn from(_error: AllocError) -> CutError {
        CutError::NoMemory
    }
}

impl From<FaultyBlock> for CutError {
    ghost from_gives = { λ block error. error ≡ Faulty block };

    fn from(block: FaultyBlock) -> CutError {
        CutError::Faulty(block)
    }
}

impl From<CutError> for DscError {
    ghost from_gives = { λ error widened_to. widened_to ≡ widened error };

    fn from(error: CutError) -> DscError {
        match error {
            CutError::Faulty(block) => match block.fault {
                UnitError::BadCount => DscError::BadCount(block.at),
                UnitError::ShortData => DscError::ShortData(block.at),
            },
            CutError::NoMemory => DscError::NoMemory,
        }
    }
}
