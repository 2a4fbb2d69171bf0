//! Filling of rows with the entries of ranges.
ghost use Rattle.std.specs.Prelude.{◌≡◌, ◌+◌, ◌<◌, ◌≤◌, ◌++◌, length, map, Some, vec_len, vec_capacity};
ghost use Rattle.std.specs.List.{range_with_len};
ghost use Rattle.rows.specs.Found.{row_found, entries_found, entries_if, pages_from_to};

use crate::cutting::split_at_byte;
use crate::found_ranges::{ResolvedRange, read_range};

/// Appends the entries of all ranges of a text. Parts of the text that aren't ranges, and ranges whose first or last page isn't in the document, are
/// passed over. The caller has to show that the row has room for the entries.
pub(crate) fn append_ranges(row: &mut Vec<Option<u32>>, pages: u32, text: &[u8])
    requires { vec_len row.old + length (row_found pages text.now) ≤ vec_capacity row.old }
    ensures appended { row.new.items ≡ row.old.items ++ row_found pages text.now }
    ensures room { vec_capacity row.new ≡ vec_capacity row.old }
{
    let mut left = Some(text);
    while let Some(rest) = left {
        let (piece, after) = split_at_byte(b',', rest);
        append_range_if(row, read_range(pages, piece));
        left = after;
    }
}

/// Appends the entries of a range, or nothing if there is no range.
fn append_range_if(row: &mut Vec<Option<u32>>, range: Option<ResolvedRange>)
    requires { vec_len row.old + length (entries_if range) ≤ vec_capacity row.old }
    ensures appended { row.new.items ≡ row.old.items ++ entries_if range }
    ensures room { vec_capacity row.new ≡ vec_capacity row.old }
{
    match range {
        Some(range) => append_range(row, range),
        None => (),
    }
}

/// Appends the entries of a range, or nothing if its first or its last page isn't in the document.
fn append_range(row: &mut Vec<Option<u32>>, range: ResolvedRange)
    requires { vec_len row.old + length (entries_found range) ≤ vec_capacity row.old }
    ensures appended { row.new.items ≡ row.old.items ++ entries_found range }
    ensures room { vec_capacity row.new ≡ vec_capacity row.old }
{
    match range {
        ResolvedRange::Blank => row.push_reserved(None),
        ResolvedRange::FromTo(first, last) => {
            if first == 0 || last == 0 {
                return;
            }
            append_pages(row, first, last)
        }
    }
}

/// Appends the pages from the number `first` to the number `last`, in ascending or descending order. Both numbers are counted from 1.
fn append_pages(row: &mut Vec<Option<u32>>, first: u32, last: u32)
    requires first { 0 < first }
    requires last { 0 < last }
    requires room { vec_len row.old + length (pages_from_to first last) ≤ vec_capacity row.old }
    ensures appended { row.new.items ≡ row.old.items ++ pages_from_to first last }
    ensures room { vec_capacity row.new ≡ vec_capacity row.old }
{
    if first <= last {
        append_up(row, first, last)
    } else {
        append_down(row, first, last)
    }
}

/// Appends the pages from the number `first` up to the number `last`, both counted from 1.
fn append_up(row: &mut Vec<Option<u32>>, first: u32, last: u32)
    requires first { 0 < first }
    requires last { first ≤ last }
    requires room { vec_len row.old + length (pages_from_to first last) ≤ vec_capacity row.old }
    ensures appended { row.new.items ≡ row.old.items ++ pages_from_to first last }
    ensures room { vec_capacity row.new ≡ vec_capacity row.old }
{
    for i in 0..last - first + 1 {
        row.push_reserved(Some(first - 1 + i));
    }
}

/// Appends the pages from the number `first` down to the number `last`, both counted from 1.
fn append_down(row: &mut Vec<Option<u32>>, first: u32, last: u32)
    requires first { 0 < last }
    requires last { last < first }
    requires room { vec_len row.old + length (pages_from_to first last) ≤ vec_capacity row.old }
    ensures appended { row.new.items ≡ row.old.items ++ pages_from_to first last }
    ensures room { vec_capacity row.new ≡ vec_capacity row.old }
{
    for i in 0..first - last + 1 {
        row.push_reserved(Some(first - 1 - i));
    }
}
