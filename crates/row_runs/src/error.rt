//! The reasons why a row can't be imposed.
ghost use Rattle.std.specs.Prelude.{◌≡◌};
ghost use Rattle.row_runs.specs.Errors.{of_made_plan};
ghost use Rattle.row_runs.specs.declared.error.SheetError.TheVariants.{NoMemory};

use layouts::ArrangementError;
use row_sheets::PosterError;
use rows::RowError;
use sheet_plan::MadeError;
use std::alloc::AllocError;
use thiserror::Error;

/// The reason why a row can't be imposed. The variants are in the order in which `RowJob::lay` checks a row; memory may be refused at any point.
#[derive(Clone, Copy, Debug, PartialEq, Eq, Error)]
pub enum SheetError {
    /// The row can't be made. Refused memory is reported as `SheetError::NoMemory`.
    #[error(transparent)]
    Row(RowError),
    /// A page of the row can't be placed in a cell. Refused memory is reported as `SheetError::NoMemory`.
    #[error(transparent)]
    Arrangement(ArrangementError),
    /// A page of the row can't be made into the requested poster. Refused memory is reported as `SheetError::NoMemory`.
    #[error(transparent)]
    Poster(PosterError),
    /// The sheets can't be planned. Refused memory is reported as `SheetError::NoMemory`.
    #[error(transparent)]
    Sheets(MadeError),
    /// A page would get an offset of 100,000 points or more, because it is shifted on a back or turned.
    #[error("a page would be placed 100,000 points or more away")]
    OutOfReach,
    /// Memory was refused, or the printed row would have more than 4,000,000 copies of its entries.
    #[error("out of memory")]
    NoMemory,
}

impl From<AllocError> for SheetError {
    ghost from_gives = { λ _ error. error ≡ NoMemory };

    fn from(_error: AllocError) -> SheetError {
        SheetError::NoMemory
    }
}

/// Converts an error of the plan to a `SheetError`. Refused memory becomes `SheetError::NoMemory`.
pub fn plan_error(error: MadeError) -> SheetError
    ensures { result ≡ of_made_plan error }
{
    match error {
        MadeError::NoMemory => SheetError::NoMemory,
        error => SheetError::Sheets(error),
    }
}
