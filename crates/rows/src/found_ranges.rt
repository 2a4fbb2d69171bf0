//! Ranges of a document.
ghost use Rattle.std.specs.Prelude.{◌≡◌, ◌^◌, ◌≤◌, length, option_map, option_and_then};
ghost use Rattle.rules.specs.Ranges.{FromTo, place_at, last_place_at, range_at, is_blank_page};
ghost use Rattle.rows.specs.Found.{found_in, is_missing, entries_found, range_found, pages_from_to};

use crate::cutting::split_at_byte;
use crate::places::{read_last_place, read_place};

/// A range of a document. It is a blank, or has the numbers of its first and its last page, counted from 1. The number 0 means a page that isn't in
/// the document.
#[derive(Clone, Copy)]
pub(crate) enum ResolvedRange {
    Blank,
    FromTo(u32, u32),
}

impl ResolvedRange {
    /// Whether the first or the last page of the range isn't in the document.
    pub(crate) fn is_missing(self) -> bool
        ensures { result ≡ is_missing self }
    {
        match self {
            ResolvedRange::Blank => false,
            ResolvedRange::FromTo(first, last) => first == 0 || last == 0,
        }
    }

    /// The number of entries in the range. It is 0 if the first or the last page isn't in the document.
    pub(crate) fn entries(self) -> u64
        ensures value { result ≡ length (entries_found self) }
        ensures few { result ≤ 2 ^ 32 }
    {
        match self {
            ResolvedRange::Blank => 1,
            ResolvedRange::FromTo(first, last) => {
                if first == 0 || last == 0 {
                    0
                } else {
                    pages_between(first, last)
                }
            }
        }
    }
}

/// The number of pages from one number to another, both included, in ascending or descending order.
fn pages_between(first: u32, last: u32) -> u64
    ensures value { result ≡ length (pages_from_to first last) }
    ensures few { result ≤ 2 ^ 32 }
{
    if first <= last {
        u64::from(last - first) + 1
    } else {
        u64::from(first - last) + 1
    }
}

/// The range that a text means, in a document with this number of pages. None if the text means no range.
pub(crate) fn read_range(pages: u32, text: &[u8]) -> Option<ResolvedRange>
    ensures { result ≡ option_map (found_in pages) (range_at text.now) }
{
    if means_blank(text) {
        return Some(ResolvedRange::Blank);
    }
    let (first, rest) = split_at_byte(b'-', text);
    let Some(rest) = rest else {
        return one_page(read_place(pages, first));
    };
    let (second, more) = split_at_byte(b'-', rest);
    match more {
        Some(_) => None,
        None => from_to(read_place(pages, first), read_last_place(pages, second)),
    }
}

/// Whether a text means a blank page.
fn means_blank(text: &[u8]) -> bool
    ensures { result ≡ is_blank_page text.now }
{
    text == b"blank".as_slice() || text == b"_".as_slice()
}

/// The range that has only this page. None if there is no page.
fn one_page(page: Option<u32>) -> Option<ResolvedRange>
    ensures { result ≡ option_map (λ n. range_found n n) page }
{
    let page = page?;
    Some(ResolvedRange::FromTo(page, page))
}

/// The range from the page with the number `first` to the page with the number `last`. None if either number is None.
fn from_to(first: Option<u32>, last: Option<u32>) -> Option<ResolvedRange>
    ensures { result ≡ option_and_then (λ n. option_map (range_found n) last) first }
{
    Some(ResolvedRange::FromTo(first?, last?))
}
