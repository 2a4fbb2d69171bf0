//! The sides, numbers and sizes of sheets.
ghost use Rattle.std.specs.Prelude.{◌≡◌, ◌<◌, ◌++◌, OnErr, OnOk, IfOk, decimal, length, vec_len, vec_capacity, ◌+◌};
ghost use Rattle.preview.specs.Naming.{size_in_points};

use itoa::Buffer;
use lengths::{Paper, print_points};
use sheet_plan::MadeSheets;
use std::alloc::AllocError;

/// An edge of a sheet: the short edge or the long edge.
#[derive(Clone, Copy, Debug, PartialEq, Eq)]
pub enum Edge {
    Short,
    Long,
}

/// The sides of the paper on which sheets are printed. With `Both`, two successive sheets are the front and the back of a leaf, which the printer
/// flips on the edge `flip`.
#[derive(Clone, Copy, Debug, PartialEq, Eq)]
pub enum Sides {
    One,
    Both { flip: Edge },
}

/// The number of sheets. If a `u32` can't hold it, the call fails as if memory were refused.
pub(crate) fn number_of_sheets(sheets: &MadeSheets) -> Result<u32, AllocError>
    ensures value { IfOk result (λ count. count ≡ length sheets.now) }
    ensures many { OnErr result (u32.MAX < length sheets.now) }
{
    u32::try_from(sheets.len()).map_err(|_| AllocError)
}

pub(crate) fn append_number(number: u64, out: &mut Vec<u8>) -> Result<(), AllocError>
    ensures ok { OnOk result (out.new.items ≡ out.old.items ++ decimal number) }
    ensures full { OnErr result (vec_capacity out.old < vec_len out.old + length (decimal number)) }
{
    let mut buffer = Buffer::new();
    out.extend_from_slice(buffer.format(number).as_bytes())?;
    Ok(())
}

/// Appends the width and the height of a paper, in points.
pub(crate) fn append_size(paper: &Paper, out: &mut Vec<u8>) -> Result<(), AllocError>
    ensures ok { OnOk result (out.new.items ≡ out.old.items ++ size_in_points paper.now) }
    ensures full { OnErr result (vec_capacity out.old < vec_len out.old + length (size_in_points paper.now)) }
{
    print_points(paper.width(), out)?;
    out.extend_from_slice(b" x ")?;
    print_points(paper.height(), out)?;
    out.extend_from_slice(b" pt")?;
    Ok(())
}
