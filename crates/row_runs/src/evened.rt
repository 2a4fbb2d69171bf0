//! One scale for all pages of a row.
ghost use Rattle.std.specs.Prelude.{◌≡◌, IfErr, IfOk, None, OnOk, Some};
ghost use Rattle.row_runs.specs.Evened.{at_common_scale as evened_if_asked, why_not_even_if};
ghost use Rattle.row_runs.specs.Sheets.{MayBeLaid};

use crate::sheet_request::Laying;
use layouts::ArrangementError;
use lengths::Paper;
use row_sheets::at_one_scale;

/// Returns the laying, changed if `same_scale` is set and pages are in cells. All pages of the row then get the least of their scales, and the first
/// page that fits no cell is refused.
pub(crate) fn at_common_scale<'l>(
    same_scale: bool,
    laying: &'l Laying<'_>,
    papers: &[Paper],
    row: &[Option<u32>],
) -> Result<Laying<'l>, ArrangementError>
    requires { MayBeLaid laying.now }
    ensures made { IfOk result (λ made. made ≡ evened_if_asked same_scale laying.now papers.now row.now) }
    ensures may_be { IfOk result MayBeLaid }
    ensures accepted { OnOk result (why_not_even_if same_scale laying.now papers.now row.now ≡ None) }
    ensures refused { IfErr result (λ error. why_not_even_if same_scale laying.now papers.now row.now ≡ Some error) }
{
    if !same_scale {
        return Ok(laying.lent());
    }
    match laying {
        Laying::InCells { setting, scheme } => {
            let setting = at_one_scale(setting, papers, row)?;
            Ok(Laying::InCells {
                setting,
                scheme: *scheme,
            })
        }
        _ => Ok(laying.lent()),
    }
}
