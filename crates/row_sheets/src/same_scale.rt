//! The one scale of all pages in a row.
ghost use Rattle.std.specs.Prelude.{◌≡◌, IfErr, IfOk, None, OnOk, Some};
ghost use Rattle.row_sheets.specs.Shapes.{filling};
ghost use Rattle.row_sheets.specs.SameScale.{at_one_scale as setting_of, least_with};
ghost use Rattle.row_sheets.specs.SameScale.{first_unscaled, why_no_own_scale};

use crate::selecting::paper_or;
use layouts::{ArrangementError, Setting};
use lengths::{Number, Paper};

/// The setting with one scale for all pages of the row: the least of the scales that they would have on their own. If the row has no pages, the
/// setting has no scale. A page whose paper isn't in `papers` has the paper of the sheet. Fails with the error of the first page that has no scale of
/// its own.
pub fn at_one_scale(
    setting: &Setting,
    papers: &[Paper],
    row: &[Option<u32>],
) -> Result<Setting, ArrangementError>
    ensures made { IfOk result (λ t. t ≡ setting_of (filling setting.now papers.now) row.now) }
    ensures accepted { OnOk result (first_unscaled (filling setting.now papers.now) row.now ≡ None) }
    ensures refused { IfErr result (λ error. first_unscaled (filling setting.now papers.now) row.now ≡ Some error) }
{
    let mut least = None;
    for entry in row {
        least = with_entry(setting, papers, least, *entry)?;
    }
    Ok(Setting {
        scale: least,
        ..*setting
    })
}

/// The lesser of `least` and the scale of this entry. `least` is the least scale of the earlier entries, or None if they have no pages. A blank
/// changes nothing. Fails with the error of `Setting::scale` if the page has no scale.
fn with_entry(
    setting: &Setting,
    papers: &[Paper],
    least: Option<Number>,
    entry: Option<u32>,
) -> Result<Option<Number>, ArrangementError>
    ensures value { IfOk result (λ found. found ≡ least_with (filling setting.now papers.now) least entry) }
    ensures accepted { OnOk result (why_no_own_scale (filling setting.now papers.now) entry ≡ None) }
    ensures refused { IfErr result (λ error. why_no_own_scale (filling setting.now papers.now) entry ≡ Some error) }
{
    let page = match entry {
        Some(page) => page,
        None => return Ok(least),
    };
    let scale = setting.scale(&paper_or(papers, page, &setting.room.paper))?;
    match least {
        Some(least) => Ok(Some(least.min(scale))),
        None => Ok(Some(scale)),
    }
}
