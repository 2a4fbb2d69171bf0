//! Posters of all pages of a row.
ghost use Rattle.std.specs.Prelude.{◌≡◌, ◌++◌, ◌*◌, ◌≤◌, IfErr, IfOk, OnOk};
ghost use Rattle.row_sheets.specs.Posters.{most_tiles, blank_tiles, entry_tiles, row_tiles};
ghost use Rattle.row_sheets.specs.Posters.{AllMayBePosters, EntryMayBePoster, IsNoPosterFor};

use crate::checked::check_posters;
use crate::poster::{Poster, PosterError, push_poster};
use crate::selecting::paper_or;
use lengths::Paper;
use sheet_plan::{MadeSheets, MadeSlot};
use std::alloc::Global;

/// The sheets of the posters for a row: one poster for each entry, in the order of the row. A blank entry gives as many blank sheets as a poster has.
/// A page whose paper isn't in `papers` has the paper of the sheets. Fails with the error of the first page that can't be a poster, or else with
/// `NoMemory`.
pub fn poster_row_sheets(
    alloc: Global,
    poster: &Poster,
    papers: &[Paper],
    row: &[Option<u32>],
) -> Result<MadeSheets, PosterError>
    requires { poster.now.rows * poster.now.columns ≤ most_tiles }
    ensures made { IfOk result (λ made. made ≡ row_tiles poster.now papers.now row.now) }
    ensures fits { OnOk result (AllMayBePosters poster.now papers.now row.now) }
    ensures refused { IfErr result (IsNoPosterFor poster.now papers.now row.now) }
{
    match tiles_of_row(alloc, poster, papers, row) {
        Ok(tiles) => Ok(tiles),
        Err(_) => Err(first_refusal(poster, papers, row)),
    }
}

/// The reason why the posters can't be made: the fault of the first page that can't be a poster, or a lack of memory if all pages can be one.
fn first_refusal(poster: &Poster, papers: &[Paper], row: &[Option<u32>]) -> PosterError
    ensures { IsNoPosterFor poster.now papers.now row.now result }
{
    match check_posters(poster, papers, row) {
        Ok(()) => PosterError::NoMemory,
        Err(error) => error,
    }
}

/// The sheets of all entries, one poster after the other. Fails if a page can't be a poster, or if memory is refused.
fn tiles_of_row(
    alloc: Global,
    poster: &Poster,
    papers: &[Paper],
    row: &[Option<u32>],
) -> Result<MadeSheets, PosterError>
    requires { poster.now.rows * poster.now.columns ≤ most_tiles }
    ensures made { IfOk result (λ made. made ≡ row_tiles poster.now papers.now row.now) }
    ensures fits { OnOk result (AllMayBePosters poster.now papers.now row.now) }
{
    let mut made = MadeSheets::new(alloc);
    for entry in row {
        push_entry(poster, papers, *entry, &mut made)?;
    }
    Ok(made)
}

/// Adds the sheets of an entry: those of a poster, or blank ones for a blank entry. Fails if the page can't be a poster, or if memory is refused.
fn push_entry(
    poster: &Poster,
    papers: &[Paper],
    entry: Option<u32>,
    made: &mut MadeSheets,
) -> Result<(), PosterError>
    requires { poster.now.rows * poster.now.columns ≤ most_tiles }
    ensures pushed { OnOk result (made.new ≡ made.old ++ entry_tiles poster.now papers.now entry) }
    ensures fits { OnOk result (EntryMayBePoster poster.now papers.now entry) }
{
    match entry {
        Some(page) => push_poster(poster, &paper_or(papers, page, &poster.sheet), page, made),
        None => push_blanks(poster, made),
    }
}

/// Adds as many blank sheets as a poster has. Fails only if memory is refused.
fn push_blanks(poster: &Poster, made: &mut MadeSheets) -> Result<(), PosterError>
    requires { poster.now.rows * poster.now.columns ≤ most_tiles }
    ensures pushed { OnOk result (made.new ≡ made.old ++ blank_tiles poster.now) }
{
    for n in 0..poster.rows * poster.columns {
        made.push(&poster.sheet, &[MadeSlot::Blank])
            .map_err(|_| PosterError::NoMemory)?;
    }
    Ok(())
}
