//! Rows that are named by texts.
ghost use Rattle.std.specs.Prelude.{◌≡◌, length, Ok, IfOk, IfErr, vec_len, vec_capacity};
ghost use Rattle.rules.specs.Choice.{row_of_text};
ghost use Rattle.rows.specs.Found.{row_found};
ghost use Rattle.rows.specs.Refusals.{RefusesRow};

use crate::error::RowError;
use crate::filling::append_ranges;
use crate::tallies::entry_count;
use std::alloc::{AllocError, Global};

/// The row that a text names, in a document with this number of pages.
///
/// The text has ranges, separated by commas: `3`, `4-7`, `9-5`, `5-` for page 5 up to the last page, `last` for the last page, `_2` for the last page
/// but one, and `blank` or `_` for a blank page. Fails with the first fault, in the order of `RowError`. A row takes memory for its entries only.
pub fn read_row(alloc: Global, pages: u32, text: &[u8]) -> Result<Vec<Option<u32>>, RowError>
    ensures row { IfOk result (λ row. row_of_text pages text.now ≡ Ok row.items) }
    ensures room { IfOk result (λ row. vec_capacity row ≡ vec_len row) }
    ensures refused { IfErr result (RefusesRow (row_of_text pages text.now)) }
{
    let entries = entry_count(pages, text)?;
    text_row(alloc, pages, text, entries).map_err(|_| RowError::NoMemory)
}

/// The entries of all ranges of a text, in memory that has no room for more. `entries` is the number of these entries.
pub(crate) fn text_row(
    alloc: Global,
    pages: u32,
    text: &[u8],
    entries: usize,
) -> Result<Vec<Option<u32>>, AllocError>
    requires { entries ≡ length (row_found pages text.now) }
    ensures row { IfOk result (λ row. row.items ≡ row_found pages text.now) }
    ensures room { IfOk result (λ row. vec_capacity row ≡ vec_len row) }
{
    let mut row = Vec::with_capacity(alloc, entries)?;
    append_ranges(&mut row, pages, text);
    Ok(row)
}
