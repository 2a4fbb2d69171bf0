//! The page numbers that are drawn on sheets.
ghost use Rattle.std.specs.Prelude.{◌≡◌, ◌≤◌, ◌<◌, ◌⊎◌, ℕ, [], IfErr, IfOk, Option, Some, false, length, map, slice_get, true};
ghost use Rattle.rules.specs.Choice.{most_entries};
ghost use Rattle.rules.specs.Run.{most_sheets};
ghost use Rattle.row_runs.specs.Numbers.{are_numbers_reached, below_middle as below_of, place_named, numbers_asked, paper_in as paper_of_entry, places_by};
ghost use Rattle.row_runs.specs.Numbers.{named_places_from, sheet_paper as sheet_paper_of};
ghost use Rattle.row_runs.specs.Reaching.{is_changed};
ghost use Rattle.row_runs.specs.Sheets.{MayBeAsked, row_chosen};

use crate::error::SheetError;
use crate::evened::at_common_scale;
use crate::reaching::check_reach;
use crate::sheet_request::{Laying, SheetRequest, lay_row, leaves_in};
use crate::turning::swapped_sheets;
use dressing::Numbering;
use layouts::{Room, cell_size, grains};
use lengths::{Grains, Paper};
use sheet_plan::MadeSheets;
use sheet_text::Numbers;
use std::alloc::{AllocError, Global};

/// The page numbers for the sheets of this request, if numbers are requested (`how`). `pages` is the number of pages of the document. If `swap` is
/// given, its left and right margins are exchanged on backs, and numbers there are shifted like their pages. The error is `OutOfReach` if a page that
/// is shifted but not turned would get an offset of 100,000 points or more, and `NoMemory` for any other refusal.
pub(crate) fn numbers_on(
    alloc: Global,
    pages: u32,
    papers: &[Paper],
    asked: &SheetRequest<'_>,
    swap: &Option<Room>,
    how: Option<Numbering>,
) -> Result<Option<Numbers>, SheetError>
    requires pages { pages ≤ most_entries }
    requires asked { MayBeAsked asked.now }
    requires few { length (places_by papers.now asked.now (row_chosen pages asked.now)) ≤ most_sheets }
    ensures made { IfOk result (λ numbers. numbers ≡ numbers_asked pages papers.now asked.now swap.now how) }
    ensures refused { IfErr result (λ error. (error ≡ SheetError.NoMemory)
        ⊎ ((error ≡ SheetError.OutOfReach) × (is_changed [] swap.now ≡ true)
        × (are_numbers_reached pages papers.now asked.now swap.now how ≡ false))) }
{
    let Some(how) = how else {
        return Ok(None);
    };
    let places = places_of(alloc, pages, papers, asked)?;
    let Ok(()) = check_reach(&[], swap, &places) else {
        return Err(SheetError::OutOfReach);
    };
    let swapped = swapped_sheets(alloc, swap, places)?;
    Ok(Some(Numbers {
        size: how.size,
        first: how.first,
        places: swapped,
        below: below_middle(&asked.laying),
    }))
}

/// The sheets of this request, in which each slot names its page by the page's place in the row, counted from 0. Any refusal is returned as
/// `AllocError`.
fn places_of(
    alloc: Global,
    pages: u32,
    papers: &[Paper],
    asked: &SheetRequest<'_>,
) -> Result<MadeSheets, AllocError>
    requires pages { pages ≤ most_entries }
    requires asked { MayBeAsked asked.now }
    ensures { IfOk result (λ made. made ≡ places_by papers.now asked.now (row_chosen pages asked.now)) }
{
    let Ok(row) = asked.row.read(alloc, pages) else {
        return Err(AllocError);
    };
    let leaves = leaves_in(asked.row.signing, row.as_slice());
    let own = papers_on_row(alloc, papers, sheet_paper(&asked.laying), row.as_slice())?;
    let named = named_places(alloc, row.as_slice())?;
    let places = asked.row.printed(alloc, named)?;
    let printed = asked.row.printed(alloc, row)?;
    let Ok(laying) = at_common_scale(asked.same_scale, &asked.laying, papers, printed.as_slice())
    else {
        return Err(AllocError);
    };
    match lay_row(alloc, &laying, leaves, own.as_slice(), places.as_slice()) {
        Ok(sheets) => Ok(sheets),
        Err(_) => Err(AllocError),
    }
}

/// The row in which each page is named by its place, counted from 0. Blanks stay blank.
fn named_places(alloc: Global, row: &[Option<u32>]) -> Result<Vec<Option<u32>>, AllocError>
    requires { length row.now ≤ most_entries }
    ensures { IfOk result (λ places. places.items ≡ named_places_from 0 row.now) }
{
    let mut places = Vec::new(alloc);
    for place in 0..row.len() as u32 {
        places.push(named_at(row, place))?;
    }
    Ok(places)
}

/// The entry at this place of the row, with its page named by the place. A blank stays None.
fn named_at(row: &[Option<u32>], place: u32) -> Option<u32>
    requires { place < length row.now }
    ensures { (entry : Option ℕ) → slice_get row.now place ≡ Some entry → result ≡ place_named place entry }
{
    row[place as usize].map(|_| place)
}

/// The papers of the row's entries, in the order of the row. A blank, or a page whose paper isn't known, has the paper `other`.
fn papers_on_row(
    alloc: Global,
    papers: &[Paper],
    other: &Paper,
    row: &[Option<u32>],
) -> Result<Vec<Paper>, AllocError>
    ensures { IfOk result (λ own. own.items ≡ map (paper_of_entry papers.now other.now) row.now) }
{
    let mut own = Vec::new(alloc);
    for entry in row {
        own.push(entry_paper(papers, other, *entry))?;
    }
    Ok(own)
}

fn entry_paper(papers: &[Paper], other: &Paper, entry: Option<u32>) -> Paper
    ensures { result ≡ paper_of_entry papers.now other.now entry }
{
    match entry {
        Some(page) if (page as usize) < papers.len() => papers[page as usize],
        _ => *other,
    }
}

/// The paper of pages whose own paper isn't known: that of the laying's sheets, or that of blanks if pages are left as they are.
fn sheet_paper<'p>(laying: &'p Laying<'_>) -> &'p Paper
    ensures { result.now ≡ sheet_paper_of laying.now }
{
    match laying {
        Laying::AsTheyAre { blank } => blank,
        Laying::InCells { setting, .. } => &setting.room.paper,
        Laying::Poster { poster } => &poster.sheet,
        Laying::BySpec { sheet, .. } => sheet,
    }
}

/// The distance from the middle of a page down to the foot of its cell, in grains. None if the laying has no cells.
fn below_middle(laying: &Laying<'_>) -> Option<Grains>
    ensures { result ≡ below_of laying.now }
{
    let Laying::InCells { setting, .. } = laying else {
        return None;
    };
    let (_, height) = cell_size(&setting.room, setting.grid);
    Some(grains(635_000 * i128::from(height)))
}
