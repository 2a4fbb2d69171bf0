//! Limits that are checked before sheets are made.
ghost use Rattle.std.specs.Prelude.{◌≡◌, ◌<◌, ◌^◌};
ghost use Rattle.row_runs.specs.Limits.{limit_in as limit_of_laying, limit_passed as first_passed};

use crate::sheet_request::Laying;
use row_sheets::Scheme;
use sheet_plan::MadeError;

/// The greatest number of sheets in a plan.
const MOST_SHEETS: u128 = 1_000_000;

/// The greatest number of slots on one sheet.
const MOST_SLOTS: u128 = 4_096;

/// The greatest number of slots on all sheets of a plan together.
const MOST_PLACES: u128 = 4_000_000;

/// The limit of a plan that a row with this number of entries would exceed, if any. Only cards and posters are checked, since they need many more
/// slots than there are entries. The sheets of a specification are checked while they are laid.
pub(crate) fn limit_in(laying: &Laying<'_>, entries: usize) -> Option<MadeError>
    ensures { result ≡ limit_of_laying laying.now entries }
{
    match laying {
        Laying::InCells { scheme, .. } => match scheme {
            Scheme::Cards { cells } => limit_passed(entries as u128, u128::from(*cells)),
            Scheme::Grid { .. } | Scheme::Stack { .. } | Scheme::Leaves => None,
            Scheme::Booklet { .. } | Scheme::Zine => None,
        },
        Laying::Poster { poster } => {
            let tiles = u128::from(poster.rows) * u128::from(poster.columns);
            limit_passed(entries as u128 * tiles, 1)
        }
        Laying::AsTheyAre { .. } | Laying::BySpec { .. } => None,
    }
}

/// The first limit that this number of sheets with this number of slots on each would exceed. None if there is no such limit.
fn limit_passed(sheets: u128, places: u128) -> Option<MadeError>
    requires { places < 2 ^ 32 }
    ensures { result ≡ first_passed sheets places }
{
    if sheets > MOST_SHEETS {
        return Some(MadeError::TooManySheets);
    }
    if sheets > 0 && places > MOST_SLOTS {
        return Some(MadeError::SlotsOutOfRange(0));
    }
    if sheets * places > MOST_PLACES {
        return Some(MadeError::TooManyPlaces);
    }
    None
}
