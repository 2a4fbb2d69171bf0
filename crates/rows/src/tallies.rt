//! Counts the entries of the ranges of a text before a row is made.
ghost use Rattle.std.specs.Prelude.{◌≡◌, ◌≤◌, length, Ok, IfOk, IfErr};
ghost use Rattle.rules.specs.Ranges.{pieces_of};
ghost use Rattle.rules.specs.Choice.{most_entries, row_of_text};
ghost use Rattle.rows.specs.Found.{row_found};
ghost use Rattle.rows.specs.Tallies.{with_range, tally_from, no_tally};
ghost use Rattle.rows.specs.Refusals.{IsRowFault};

use crate::cutting::split_at_byte;
use crate::error::RowError;
use crate::found_ranges::{ResolvedRange, read_range};

const MOST_ENTRIES: u64 = 1_000_000;

/// The counts of the ranges read so far. `missing` is the byte at which the first range with a page that isn't in the document begins. `over` is the
/// byte at which the range that takes the count above 1,000,000 entries begins. If both are None, `entries` is the number of entries.
#[derive(Clone, Copy)]
pub(crate) struct Tally {
    pub missing: Option<usize>,
    pub over: Option<usize>,
    pub entries: u64,
}

/// The number of entries in the row that a text names, in a document with this number of pages. Fails with the first fault of the text, in the order
/// of `RowError`.
pub(crate) fn entry_count(pages: u32, text: &[u8]) -> Result<usize, RowError>
    ensures row { IfOk result (λ n. row_of_text pages text.now ≡ Ok (row_found pages text.now)) }
    ensures count { IfOk result (λ n. n ≡ length (row_found pages text.now)) }
    ensures few { IfOk result (λ n. n ≤ most_entries) }
    ensures refused { IfErr result (IsRowFault (row_of_text pages text.now)) }
{
    let tally = match tally_ranges(pages, text) {
        Ok(tally) => tally,
        Err(at) => return Err(RowError::NotARange(at)),
    };
    match tally.missing {
        Some(at) => return Err(RowError::NotInDocument(at)),
        None => (),
    }
    match tally.over {
        Some(at) => Err(RowError::TooManyEntries(at)),
        None => Ok(tally.entries as usize),
    }
}

/// The tally of all ranges of a text, or the byte at which the first piece that isn't a range begins.
fn tally_ranges(pages: u32, text: &[u8]) -> Result<Tally, usize>
    ensures value { result ≡ tally_from most_entries pages 0 (pieces_of text.now) no_tally }
    ensures few { IfOk result (λ t. t.entries ≤ most_entries) }
{
    let mut tally = Tally {
        missing: None,
        over: None,
        entries: 0,
    };
    let mut left = Some(text);
    while let Some(rest) = left {
        let at = text.len() - rest.len();
        let (piece, after) = split_at_byte(b',', rest);
        match read_range(pages, piece) {
            Some(range) => tally = with_range(tally, at, range),
            None => return Err(at),
        }
        left = after;
    }
    Ok(tally)
}

/// The tally with one more range, which begins at the byte with the index `at`.
fn with_range(tally: Tally, at: usize, range: ResolvedRange) -> Tally
    requires { tally.entries ≤ most_entries }
    ensures value { result ≡ with_range most_entries at range tally }
    ensures few { result.entries ≤ most_entries }
{
    if tally.missing.is_some() {
        return tally;
    }
    if range.is_missing() {
        return Tally {
            missing: Some(at),
            ..tally
        };
    }
    if tally.over.is_some() {
        return tally;
    }
    let entries = tally.entries + range.entries();
    if entries > MOST_ENTRIES {
        Tally {
            over: Some(at),
            ..tally
        }
    } else {
        Tally { entries, ..tally }
    }
}
