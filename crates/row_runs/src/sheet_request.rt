//! Requests for sheets, and the sheets that they make.
ghost use Rattle.std.specs.Prelude.{◌≡◌, ◌<◌, ◌≤◌, IfErr, IfOk, IfSome, OnOk, Ok, None, Some, length, option_map, ℕ};
ghost use Rattle.rules.specs.Choice.{most_entries};
ghost use Rattle.rows.specs.Sewing.{MayBeSewn, signing_of};
ghost use Rattle.row_runs.specs.Errors.{of_arrangement, of_poster, of_row};
ghost use Rattle.row_runs.specs.Limits.{AreFewAsLaid, limit_in as limit_of_laying};
ghost use Rattle.row_runs.specs.Sheets.{AreAsked, FitAsLaid, MayBeAsked, MayBeLaid, RefusesAsked, RefusesLaying};
ghost use Rattle.row_runs.specs.Sheets.{leaves_in as leaves_of_signature, sheets_laid};
ghost use Rattle.row_runs.specs.Standing.{StandAsLaid};

use crate::error::{SheetError, plan_error};
use crate::evened::at_common_scale;
use crate::limits::limit_in;
use layouts::{ArrangementError, Setting};
use lengths::Paper;
use pagespec::Spec;
use row_sheets::{
    Poster, PosterError, Scheme, SpecOnRow, check_cells, check_posters, fill_row,
    poster_row_sheets, select, spec_sheets,
};
use rows::{RowError, RowRequest, Signing};
use sheet_plan::{MadeError, MadeSheets};
use std::alloc::Global;

/// The ways in which a row is laid on sheets.
#[derive(Clone, Copy)]
pub enum Laying<'l> {
    /// Each page is left as it is, on a sheet of its own paper. Each blank is an empty sheet of the paper `blank`.
    AsTheyAre {
        blank: Paper,
    },
    /// Each page is fitted into a cell of a sheet.
    InCells {
        setting: Setting,
        scheme: Scheme,
    },
    /// Each page is spread over several sheets, one page after the other. A blank makes as many blank sheets as a page makes sheets.
    Poster {
        poster: Poster,
    },
    /// A specification places the pages, and names each page by its place in the row. All sheets have the paper `sheet`, and all pages have the paper
    /// `page`.
    BySpec {
        spec: &'l Spec,
        sheet: Paper,
        page: Paper,
    },
}

impl<'l> Laying<'l> {
    /// A copy of this laying, which borrows its specification.
    pub fn lent(&self) -> Laying<'_>
        ensures { result ≡ self.now }
    {
        match self {
            Laying::AsTheyAre { blank } => Laying::AsTheyAre { blank: *blank },
            Laying::InCells { setting, scheme } => Laying::InCells {
                setting: *setting,
                scheme: *scheme,
            },
            Laying::Poster { poster } => Laying::Poster { poster: *poster },
            Laying::BySpec { spec, sheet, page } => Laying::BySpec {
                spec: *spec,
                sheet: *sheet,
                page: *page,
            },
        }
    }
}

/// A request for sheets of a document.
#[derive(Clone, Copy)]
pub struct SheetRequest<'t> {
    /// The row of pages that is laid on the sheets.
    pub row: RowRequest<'t>,
    pub laying: Laying<'t>,
    /// Whether all pages in cells get the same scale, which is the least of their scales.
    pub same_scale: bool,
}

/// The sheets that are requested of a document with this number of pages. `papers` has the paper of each page, in order. A page that has no entry
/// there has the paper of the sheets or, if pages are left as they are, of blanks. `Laying::BySpec` has a paper of its own for all pages.
///
/// The first fault is reported. A fault of the row comes first, and then the first page that fits no cell or can't be made into a poster. A limit of
/// a plan that cards, a poster or a specification would exceed comes last. After a refusal no sheets are made.
pub fn make_sheets(
    alloc: Global,
    pages: u32,
    papers: &[Paper],
    asked: &SheetRequest<'_>,
) -> Result<MadeSheets, SheetError>
    requires pages { pages ≤ most_entries }
    requires asked { MayBeAsked asked.now }
    ensures made { IfOk result (AreAsked pages papers.now asked.now) }
    ensures stands { IfOk result (StandAsLaid asked.now.laying) }
    ensures few { IfOk result (AreFewAsLaid asked.now.laying) }
    ensures refused { IfErr result (RefusesAsked pages papers.now asked.now) }
{
    let row = match asked.row.read(alloc, pages) {
        Ok(row) => row,
        Err(error) => return Err(row_error(error)),
    };
    let leaves = leaves_in(asked.row.signing, row.as_slice());
    let printed = asked.row.printed(alloc, row)?;
    let entries = printed.as_slice();
    let laying = match at_common_scale(asked.same_scale, &asked.laying, papers, entries) {
        Ok(laying) => laying,
        Err(error) => return Err(arrangement_error(error)),
    };
    lay_row(alloc, &laying, leaves, papers, entries)
}

/// The number of leaves in a signature of this row. 0 without signatures.
pub(crate) fn leaves_in(signing: Option<Signing>, row: &[Option<u32>]) -> u32
    requires sewn { IfSome signing MayBeSewn }
    requires some { 0 < length row.now }
    requires few { length row.now ≤ most_entries }
    ensures { result ≡ leaves_of_signature (option_map signing_of signing) row.now }
{
    match signing {
        Some(how) => how.sides(row.len()) / 4,
        None => 0,
    }
}

/// Converts an error of the row to a `SheetError`. Refused memory becomes `SheetError::NoMemory`.
pub(crate) fn row_error(error: RowError) -> SheetError
    ensures { result ≡ of_row error }
{
    match error {
        RowError::NoMemory => SheetError::NoMemory,
        error => SheetError::Row(error),
    }
}

/// Converts an error of the cells to a `SheetError`. Refused memory becomes `SheetError::NoMemory`.
fn arrangement_error(error: ArrangementError) -> SheetError
    ensures { result ≡ of_arrangement error }
{
    match error {
        ArrangementError::NoMemory => SheetError::NoMemory,
        error => SheetError::Arrangement(error),
    }
}

/// Converts an error of a poster to a `SheetError`. Refused memory becomes `SheetError::NoMemory`.
fn poster_error(error: PosterError) -> SheetError
    ensures { result ≡ of_poster error }
{
    match error {
        PosterError::NoMemory => SheetError::NoMemory,
        error => SheetError::Poster(error),
    }
}

/// Lays a row on sheets. If the row is in signatures, `leaves` is the number of leaves in each. A page that fits no cell, or can't be made into a
/// poster, is refused first. After that, the sheets of cards, a poster or a specification are refused if they would exceed a limit of a plan.
pub(crate) fn lay_row(
    alloc: Global,
    laying: &Laying<'_>,
    leaves: u32,
    papers: &[Paper],
    row: &[Option<u32>],
) -> Result<MadeSheets, SheetError>
    requires { MayBeLaid laying.now }
    ensures made { IfOk result (λ made. made ≡ sheets_laid laying.now leaves papers.now row.now) }
    ensures stands { IfOk result (StandAsLaid laying.now) }
    ensures fits { OnOk result (FitAsLaid laying.now leaves papers.now row.now) }
    ensures few { OnOk result (limit_of_laying laying.now (length row.now) ≡ None) }
    ensures refused { IfErr result (RefusesLaying laying.now leaves papers.now row.now) }
{
    if let Some(limit) = limit_in(laying, row.len()) {
        return Err(over_limit(laying, papers, row, limit));
    }
    match laying {
        Laying::AsTheyAre { blank } => Ok(select(alloc, row, papers, blank)?),
        Laying::InCells { setting, scheme } => {
            match fill_row(alloc, setting, papers, scheme, leaves, row) {
                Ok(sheets) => Ok(sheets),
                Err(error) => Err(arrangement_error(error)),
            }
        }
        Laying::Poster { poster } => match poster_row_sheets(alloc, poster, papers, row) {
            Ok(sheets) => Ok(sheets),
            Err(error) => Err(poster_error(error)),
        },
        Laying::BySpec { spec, sheet, page } => {
            let on = SpecOnRow {
                spec: *spec,
                row,
                sheet: *sheet,
                page: *page,
            };
            match spec_sheets(alloc, &on) {
                Ok(sheets) => Ok(sheets),
                Err(error) => Err(plan_error(error)),
            }
        }
    }
}

/// The fault of a row whose sheets would exceed this limit. A page that fits no cell, or can't be made into a poster, is reported before the limit.
fn over_limit(
    laying: &Laying<'_>,
    papers: &[Paper],
    row: &[Option<u32>],
    limit: MadeError,
) -> SheetError
    requires laid { MayBeLaid laying.now }
    requires passed { limit_of_laying laying.now (length row.now) ≡ Some limit }
    ensures { (leaves : ℕ) → RefusesLaying laying.now leaves papers.now row.now result }
{
    match laying {
        Laying::InCells { setting, scheme } => match scheme {
            Scheme::Cards { .. } => match check_cells(setting, papers, row) {
                Ok(()) => SheetError::Sheets(limit),
                Err(error) => arrangement_error(error),
            },
            _ => unreachable!(),
        },
        Laying::Poster { poster } => match check_posters(poster, papers, row) {
            Ok(()) => SheetError::Sheets(limit),
            Err(error) => poster_error(error),
        },
        Laying::AsTheyAre { .. } | Laying::BySpec { .. } => unreachable!(),
    }
}
