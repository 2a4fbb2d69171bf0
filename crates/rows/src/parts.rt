//! The row of all pages, and the parts of a row.
ghost use Rattle.std.specs.Prelude.{◌≡◌, IfOk, drop};
ghost use Rattle.rules.specs.Rows.{all_pages as all, odd_part as odd, even_part as even};

use crate::entries::entry_at;
use std::alloc::{AllocError, Global};

/// All pages of a document, in order.
pub fn all_pages(alloc: Global, pages: u32) -> Result<Vec<Option<u32>>, AllocError>
    ensures { IfOk result (λ row. row.items ≡ all pages) }
{
    let mut row = Vec::with_capacity(alloc, pages as usize)?;
    for page in 0..pages {
        row.push(Some(page))?;
    }
    Ok(row)
}

/// The entries of a row in odd places. Places are counted from 1.
pub fn odd_part(alloc: Global, row: &[Option<u32>]) -> Result<Vec<Option<u32>>, AllocError>
    ensures { IfOk result (λ part. part.items ≡ odd row.now) }
{
    every_other(alloc, row, 0)
}

/// The entries of a row in even places. Places are counted from 1.
pub fn even_part(alloc: Global, row: &[Option<u32>]) -> Result<Vec<Option<u32>>, AllocError>
    ensures { IfOk result (λ part. part.items ≡ even row.now) }
{
    every_other(alloc, row, 1)
}

/// The entry with the index `first`, counted from 0, and every second entry after it.
fn every_other(
    alloc: Global,
    row: &[Option<u32>],
    first: usize,
) -> Result<Vec<Option<u32>>, AllocError>
    ensures { IfOk result (λ part. part.items ≡ odd (drop first row.now)) }
{
    let mut part = Vec::with_capacity(alloc, row.len().div_ceil(2))?;
    let mut at = first;
    while at < row.len() {
        part.push(entry_at(row, at as u128))?;
        at += 2;
    }
    Ok(part)
}
