//! Rows in signatures.
ghost use Rattle.std.specs.Prelude.{◌≡◌, ◌+◌, ◌<◌, ◌^◌, ◌++◌, IfOk, OnOk, length, map};
ghost use Rattle.std.specs.List.{range_with_len};
ghost use Rattle.rules.specs.Signatures.{AreSides, entry_of, page_in_signature as page_in};
ghost use Rattle.rules.specs.Rows.{in_signatures as signed};

use crate::entries::entry_at;
use sheet_plan::page_in_signature;
use std::alloc::{AllocError, Global};

/// The row in signatures of this number of sides, one after the other. The pages of a signature are in printing order, for leaves that are folded
/// once, put into one another and bound. The last signature is filled up with blanks.
pub fn in_signatures(
    alloc: Global,
    row: &[Option<u32>],
    sides: u32,
) -> Result<Vec<Option<u32>>, AllocError>
    requires { AreSides sides }
    ensures { IfOk result (λ printed. printed.items ≡ signed sides row.now) }
{
    let mut printed = Vec::new(alloc);
    for signature in 0..row.len().div_ceil(sides as usize) {
        append_signature(&mut printed, row, signature * sides as usize, sides)?;
    }
    Ok(printed)
}

/// Appends a signature. Its first page, as it is read, is the entry of the row with the index `first`. Entries after the end of the row are blank.
fn append_signature(
    printed: &mut Vec<Option<u32>>,
    row: &[Option<u32>],
    first: usize,
    sides: u32,
) -> Result<(), AllocError>
    requires sides { AreSides sides }
    requires few { first < 2 ^ 63 }
    ensures { OnOk result (printed.new.items ≡ printed.old.items
        ++ map (λ i. entry_of row.now (first + page_in sides i)) (range_with_len 0 sides)) }
{
    for position in 0..sides {
        let entry = first + page_in_signature(sides, position) as usize;
        printed.push(entry_at(row, entry as u128))?;
    }
    Ok(())
}
