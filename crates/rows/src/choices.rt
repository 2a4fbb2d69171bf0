//! The choice of pages from a document.
ghost use Rattle.std.specs.Prelude.{◌≡◌, ◌≤◌, ◌<◌, length, Ok, IfOk, IfErr};
ghost use Rattle.rules.specs.Rows.{Row};
ghost use Rattle.rules.specs.Choice.{chosen, named_row, part_of, reversed_if, most_entries};
ghost use Rattle.rows.specs.Choices.{choice_of, part_named, ranges_text, named_found};
ghost use Rattle.rows.specs.Refusals.{RefusesRow, IsRowFault};

use crate::error::RowError;
use crate::named_rows::text_row;
use crate::parts::{all_pages, even_part, odd_part};
use crate::tallies::entry_count;
use std::alloc::{AllocError, Global};

/// The part of a row that is kept: all entries, or those in odd or in even places. Places are counted from 1.
#[derive(Clone, Copy, Debug, PartialEq, Eq)]
pub enum Part {
    All,
    Odd,
    Even,
}

/// A choice of pages. It has the entries of the named ranges, or all pages if no ranges are named. Of these entries, only those that `part` names are
/// kept. The order of the kept entries is reversed if `backwards` is true.
#[derive(Clone, Copy)]
pub struct Choice<'t> {
    pub ranges: Option<&'t [u8]>,
    pub part: Part,
    pub backwards: bool,
}

/// The row that is chosen from a document with this number of pages. Fails with the first fault, in the order of `RowError`.
pub fn chosen_row(
    alloc: Global,
    pages: u32,
    choice: &Choice<'_>,
) -> Result<Vec<Option<u32>>, RowError>
    requires { pages ≤ most_entries }
    ensures row { IfOk result (λ row. chosen pages (choice_of choice.now) ≡ Ok row.items) }
    ensures some { IfOk result (λ row. 0 < length row.items) }
    ensures few { IfOk result (λ row. length row.items ≤ most_entries) }
    ensures refused { IfErr result (RefusesRow (chosen pages (choice_of choice.now))) }
{
    let entries = named_count(pages, choice.ranges)?;
    if part_count(choice.part, entries) == 0 {
        return Err(RowError::NoEntries);
    }
    match made_row(alloc, pages, choice, entries) {
        Ok(row) => Ok(row),
        Err(_) => Err(RowError::NoMemory),
    }
}

/// The number of entries in the row before a part is kept. Fails with the first fault of the ranges, in the order of `RowError`.
fn named_count(pages: u32, ranges: Option<&[u8]>) -> Result<usize, RowError>
    requires { pages ≤ most_entries }
    ensures row { IfOk result (λ n. named_row pages (ranges_text ranges.entry) ≡ Ok (named_found pages ranges.entry)) }
    ensures count { IfOk result (λ n. n ≡ length (named_found pages ranges.entry)) }
    ensures few { IfOk result (λ n. n ≤ most_entries) }
    ensures refused { IfErr result (IsRowFault (named_row pages (ranges_text ranges.entry))) }
{
    match ranges {
        Some(text) => entry_count(pages, text),
        None => Ok(pages as usize),
    }
}

/// The number of entries that this part keeps of a row with `entries` entries.
fn part_count(part: Part, entries: usize) -> usize
    ensures { (row : Row) → length row ≡ entries → length (part_of (part_named part) row) ≡ result }
{
    match part {
        Part::All => entries,
        Part::Odd => entries.div_ceil(2),
        Part::Even => entries / 2,
    }
}

/// The chosen row. `entries` is the number of entries before a part is kept.
fn made_row(
    alloc: Global,
    pages: u32,
    choice: &Choice<'_>,
    entries: usize,
) -> Result<Vec<Option<u32>>, AllocError>
    requires { entries ≡ length (named_found pages choice.now.ranges) }
    ensures { IfOk result (λ row. row.items
        ≡ reversed_if choice.now.backwards
        (part_of (part_named choice.now.part) (named_found pages choice.now.ranges))) }
{
    let all = found_row(alloc, pages, choice.ranges, entries)?;
    let mut row = part_row(alloc, choice.part, all)?;
    if choice.backwards {
        row.reverse();
    }
    Ok(row)
}

/// The row before a part is kept. `entries` is the number of entries in this row.
fn found_row(
    alloc: Global,
    pages: u32,
    ranges: Option<&[u8]>,
    entries: usize,
) -> Result<Vec<Option<u32>>, AllocError>
    requires { entries ≡ length (named_found pages ranges) }
    ensures { IfOk result (λ row. row.items ≡ named_found pages ranges.entry) }
{
    match ranges {
        Some(text) => text_row(alloc, pages, text, entries),
        None => all_pages(alloc, pages),
    }
}

/// The entries of a row that belong to this part.
fn part_row(
    alloc: Global,
    part: Part,
    row: Vec<Option<u32>>,
) -> Result<Vec<Option<u32>>, AllocError>
    ensures { IfOk result (λ rest. rest.items ≡ part_of (part_named part) row.items) }
{
    match part {
        Part::All => Ok(row),
        Part::Odd => odd_part(alloc, row.as_slice()),
        Part::Even => even_part(alloc, row.as_slice()),
    }
}
