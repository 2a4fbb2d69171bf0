//! Rows as they are printed.
ghost use Rattle.std.specs.Prelude.{◌≡◌, ◌<◌, ◌≤◌, ◌++◌, IfErr, IfOk, IfSome, None, Ok, drop, flat_map, length, replicate};
ghost use Rattle.rules.specs.Choice.{most_entries};
ghost use Rattle.rows.specs.Printed.{asked_by, begun_row as row_begun, is_plain as asks_for_nothing, printed_row, row_read};
ghost use Rattle.rows.specs.Refusals.{RefusesRow};
ghost use Rattle.rows.specs.Sewing.{MayBeSewn};

use crate::choices::{Choice, Part, chosen_row};
use crate::error::RowError;
use crate::last_page::last_at_back;
use crate::sewing::{Signing, signed_row};
use std::alloc::{AllocError, Global};

/// The greatest number of slots on all sheets of a plan together.
const MOST_PLACES: u128 = 4_000_000;

/// The start of a row on the first sheet, whose first cells may be used already. Used cells stay empty.
#[derive(Clone, Copy)]
pub enum Begun {
    /// The row begins after this number of blanks.
    Pages { used: u32 },
    /// Each entry is in all `cells` cells of a sheet, except for the first `used` cells of the first sheet.
    Cards { cells: u64, used: u32 },
}

/// A request for a row: its pages, and how they are printed.
#[derive(Clone, Copy)]
pub struct RowRequest<'t> {
    /// The choice of the pages that are imposed.
    pub choice: Choice<'t>,
    /// The signatures into which the row is put. None if pages aren't put into signatures.
    pub signing: Option<Signing>,
    /// Whether the blanks that fill up the last signature come before the last page.
    pub last_at_back: bool,
    /// Where the row begins on the first sheet, unless it is in signatures.
    pub begun: Begun,
}

impl RowRequest<'_> {
    /// The row as it is read, from a document with this number of pages: the chosen pages and blanks, with the blanks that fill up the last signature
    /// before the last page if `last_at_back` is set. Fails if the choice gives no row, or if memory is refused.
    pub fn read(&self, alloc: Global, pages: u32) -> Result<Vec<Option<u32>>, RowError>
        requires pages { pages ≤ most_entries }
        requires sewn { IfSome self.now.signing MayBeSewn }
        ensures row { IfOk result (λ row. row_read pages (asked_by self.now) ≡ Ok row.items) }
        ensures some { IfOk result (λ row. 0 < length row.items) }
        ensures few { IfOk result (λ row. length row.items ≤ most_entries) }
        ensures refused { IfErr result (RefusesRow (row_read pages (asked_by self.now))) }
    {
        let row = chosen_row(alloc, pages, &self.choice)?;
        if !self.last_at_back {
            return Ok(row);
        }
        match last_at_back(row, self.signing) {
            Ok(row) => Ok(row),
            Err(_) => Err(RowError::NoMemory),
        }
    }

    /// The row as it is printed. `row` has the entries as they are read. They are put into signatures, or follow a blank for each cell that is used
    /// already. For cards on a used sheet, each entry is copied, and the blanks replace the first copies. Fails with `AllocError` if memory is
    /// refused, or if there would be more than 4,000,000 copies.
    pub fn printed(
        &self,
        alloc: Global,
        row: Vec<Option<u32>>,
    ) -> Result<Vec<Option<u32>>, AllocError>
        requires sewn { IfSome self.now.signing MayBeSewn }
        requires some { 0 < length row.items }
        requires few { length row.items ≤ most_entries }
        ensures { IfOk result (λ printed. printed.items ≡ printed_row (asked_by self.now) row.items) }
    {
        match self.signing {
            Some(how) => signed_row(alloc, row, Some(how)),
            None => begun_row(alloc, row, self.begun),
        }
    }

    /// Whether the row has all pages in their order, from the first cell on, and blanks that fill it up come last. It may be in signatures.
    pub fn is_plain(&self) -> bool
        ensures { result ≡ asks_for_nothing (asked_by self.now) }
    {
        self.choice.ranges.is_none()
            && matches!(self.choice.part, Part::All)
            && !self.choice.backwards
            && !self.last_at_back
            && matches!(self.begun, Begun::Pages { used: 0 })
    }
}

/// The row after a blank for each cell that is already used. For cards, each entry is copied, and the blanks replace the first copies. Fails with
/// `AllocError` if memory is refused, or if there would be more than 4,000,000 copies.
fn begun_row(
    alloc: Global,
    row: Vec<Option<u32>>,
    begun: Begun,
) -> Result<Vec<Option<u32>>, AllocError>
    ensures { IfOk result (λ found. found.items ≡ row_begun begun row.items) }
{
    match begun {
        Begun::Pages { used: 0 } => Ok(row),
        Begun::Pages { used } => after_blanks(alloc, used, row.as_slice()),
        Begun::Cards { cells, used } => {
            let copies = copies_of(alloc, cells, row.as_slice())?;
            after_blanks(alloc, used, without_first(used, copies.as_slice()))
        }
    }
}

/// These entries, after this number of blanks.
fn after_blanks(
    alloc: Global,
    blanks: u32,
    entries: &[Option<u32>],
) -> Result<Vec<Option<u32>>, AllocError>
    ensures { IfOk result (λ found. found.items ≡ replicate blanks None ++ entries.now) }
{
    let mut found = Vec::new(alloc);
    found.resize(blanks as usize, None)?;
    found.extend_from_slice(entries)?;
    Ok(found)
}

/// These entries without the first `used`. There are none left if `used` is greater than their number.
fn without_first(used: u32, entries: &[Option<u32>]) -> &[Option<u32>]
    ensures { result.now ≡ drop used entries.now }
{
    let used = used as usize;
    if used <= entries.len() {
        &entries[used..]
    } else {
        &[]
    }
}

/// Each entry of the row `cells` times. Fails with `AllocError` if memory is refused, or if `cells` or the number of copies is above 4,000,000.
fn copies_of(alloc: Global, cells: u64, row: &[Option<u32>]) -> Result<Vec<Option<u32>>, AllocError>
    ensures { IfOk result (λ copies. copies.items ≡ flat_map (replicate cells) row.now) }
{
    let most = MOST_PLACES;
    if u128::from(cells) > most || row.len() as u128 * u128::from(cells) > most {
        return Err(AllocError);
    }
    let mut copies = Vec::new(alloc);
    for entry in row {
        copies.resize(copies.len() + cells as usize, *entry)?;
    }
    Ok(copies)
}
