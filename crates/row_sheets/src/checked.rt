//! Checks whether the pages of a row can be placed, without making a sheet.
ghost use Rattle.std.specs.Prelude.{◌≡◌, ◌<◌, IfErr, None, OnOk, Some, ℕ};
ghost use Rattle.rules.specs.Signatures.{entry_of};
ghost use Rattle.layouts.specs.Cells.{size};
ghost use Rattle.row_sheets.specs.Shapes.{filling, first_refused, why_no_place};
ghost use Rattle.row_sheets.specs.Standing.{EntryFits};
ghost use Rattle.row_sheets.specs.Creep.{AreHalves, first_over_fold, why_no_half};
ghost use Rattle.row_sheets.specs.Posters.{EntryMayBePoster, first_no_poster, why_no_tiles};

use crate::creep::{Creep, creep_on, creeping_item};
use crate::poster::{Poster, PosterError, check_poster};
use crate::selecting::paper_or;
use layouts::{ArrangementError, Setting};
use lengths::Paper;
use rows::entry_at;

/// Checks that each page of the row can be placed in a cell. A page whose paper isn't in `papers` has the paper of the sheet. Fails with the error of
/// the first page that can't be placed.
pub fn check_cells(
    setting: &Setting,
    papers: &[Paper],
    row: &[Option<u32>],
) -> Result<(), ArrangementError>
    requires { 0 < size setting.now.grid }
    ensures fits { OnOk result ((i : ℕ) → EntryFits (filling setting.now papers.now) (entry_of row.now i)) }
    ensures possible { OnOk result (first_refused (filling setting.now papers.now) row.now ≡ None) }
    ensures refused { IfErr result (λ error. first_refused (filling setting.now papers.now) row.now ≡ Some error) }
{
    for entry in row {
        check_cell(setting, papers, *entry)?;
    }
    Ok(())
}

fn check_cell(
    setting: &Setting,
    papers: &[Paper],
    entry: Option<u32>,
) -> Result<(), ArrangementError>
    requires { 0 < size setting.now.grid }
    ensures fits { OnOk result (EntryFits (filling setting.now papers.now) entry) }
    ensures refused { IfErr result (λ error. why_no_place (filling setting.now papers.now) entry ≡ Some error) }
{
    let Some(page) = entry else {
        return Ok(());
    };
    setting.item(&paper_or(papers, page, &setting.room.paper), 0)?;
    Ok(())
}

/// Checks that each page of the row can be placed in its half of a leaf that creeps, and doesn't cross the fold there. A page whose paper isn't in
/// `papers` has the paper of the sheet. Fails with the error of the first page that can't be placed or would cross the fold.
pub(crate) fn check_halves(
    setting: &Setting,
    papers: &[Paper],
    creep: Creep,
    row: &[Option<u32>],
) -> Result<(), ArrangementError>
    requires { AreHalves setting.now }
    ensures fits { OnOk result
        (first_over_fold (filling setting.now papers.now) creep.innermost creep.leaves row.now ≡ None) }
    ensures refused { IfErr result (λ error.
        first_over_fold (filling setting.now papers.now) creep.innermost creep.leaves row.now ≡ Some error) }
{
    for place in 0..row.len() {
        let entry = entry_at(row, place as u128);
        let by = creep_on(creep, place as u64 / 2);
        check_half(setting, papers, by, entry)?;
    }
    Ok(())
}

fn check_half(
    setting: &Setting,
    papers: &[Paper],
    by: u64,
    entry: Option<u32>,
) -> Result<(), ArrangementError>
    requires { AreHalves setting.now }
    ensures fits { OnOk result (why_no_half (filling setting.now papers.now) by entry ≡ None) }
    ensures refused { IfErr result (λ error. why_no_half (filling setting.now papers.now) by entry ≡ Some error) }
{
    let Some(page) = entry else {
        return Ok(());
    };
    creeping_item(
        setting,
        &paper_or(papers, page, &setting.room.paper),
        false,
        by,
        0,
    )?;
    Ok(())
}

/// Checks that each page of the row can be a poster of this kind. A page whose paper isn't in `papers` has the paper of the sheets. Fails with the
/// error of the first page that can't be a poster.
pub fn check_posters(
    poster: &Poster,
    papers: &[Paper],
    row: &[Option<u32>],
) -> Result<(), PosterError>
    ensures possible { OnOk result ((i : ℕ) → EntryMayBePoster poster.now papers.now (entry_of row.now i)) }
    ensures refused { IfErr result (λ error. first_no_poster poster.now papers.now row.now ≡ Some error) }
{
    for entry in row {
        check_entry(poster, papers, *entry)?;
    }
    Ok(())
}

fn check_entry(poster: &Poster, papers: &[Paper], entry: Option<u32>) -> Result<(), PosterError>
    ensures possible { OnOk result (EntryMayBePoster poster.now papers.now entry) }
    ensures refused { IfErr result (λ error. why_no_tiles poster.now papers.now entry ≡ Some error) }
{
    match entry {
        Some(page) => check_poster(poster, &paper_or(papers, page, &poster.sheet)),
        None => Ok(()),
    }
}
