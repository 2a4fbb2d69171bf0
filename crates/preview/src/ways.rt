//! The ways in which pages lie on sheets.
ghost use Rattle.std.specs.Prelude.{◌≡◌, ◌<◌, ◌++◌, ◌||◌, nat_lt, length, OnOk, IfOk, Some, slice_get};
ghost use Rattle.std.specs.List.{fold, list_any};
ghost use Rattle.rules.specs.Made.{MadeSheet};
ghost use Rattle.sheet_plan.specs.OfSheets.{placed_of, slots_at};
ghost use Rattle.preview.specs.Naming.{numbered};
ghost use Rattle.preview.specs.Ways.{is_same_way, most_ways, way_line, way_text, way_told, ways_of, ways_text};
ghost use Rattle.preview.specs.Ways.{with_sheet, with_slot, with_way};

use crate::naming::append_size;
use lengths::{Number, Paper, print_scale};
use sheet_plan::{MadeSheets, PlacedSlot};
use std::alloc::{AllocError, Global};

/// The greatest number of ways that have a line of their own.
const MOST_LISTED: usize = 16;

/// A way in which a page lies on a sheet: the page's paper, the sheet's paper, and the page's scale.
#[derive(Clone, Copy, PartialEq, Eq)]
pub(crate) struct Way {
    pub(crate) page: Paper,
    pub(crate) sheet: Paper,
    pub(crate) scale: Number,
}

/// Appends a line for each way in which pages lie on the first `count` sheets. If there are more than 16 ways, the line after the first 16 says only
/// that there are other ways.
pub(crate) fn append_ways(
    alloc: Global,
    sheets: &MadeSheets,
    count: u32,
    out: &mut Vec<u8>,
) -> Result<(), AllocError>
    requires { count ≡ length sheets.now }
    ensures { OnOk result (out.new.items ≡ out.old.items ++ ways_text sheets.now) }
{
    let ways = different_ways(alloc, sheets, count)?;
    append_lines(ways.as_slice(), out)?;
    Ok(())
}

/// Appends the lines of these ways.
fn append_lines(ways: &[Way], out: &mut Vec<u8>) -> Result<(), AllocError>
    ensures { OnOk result (out.new.items ≡ out.old.items ++ numbered way_line 0 ways.now) }
{
    for number in 0..ways.len() {
        append_way_line(number, way_at(ways, number), out)?;
    }
    Ok(())
}

/// The way with this number, counted from 0. This is a function of its own because it gives proofs a name for the value.
fn way_at(ways: &[Way], number: usize) -> &Way
    requires { number < length ways.now }
    ensures { slice_get ways.now number ≡ Some result.now }
{
    &ways[number]
}

/// Appends the line of the way with this number, counted from 0. From number 16 on, the line says only that there are other ways.
fn append_way_line(number: usize, way: &Way, out: &mut Vec<u8>) -> Result<(), AllocError>
    ensures { OnOk result (out.new.items ≡ out.old.items ++ way_line number way.now) }
{
    append_way_text(number, way, out)?;
    out.extend_from_slice(b"\n")?;
    Ok(())
}

/// Appends the line of the way with this number, counted from 0, without the line end. From number 16 on, the line says only that there are other
/// ways.
fn append_way_text(number: usize, way: &Way, out: &mut Vec<u8>) -> Result<(), AllocError>
    ensures { OnOk result (out.new.items ≡ out.old.items ++ way_told number way.now) }
{
    if number < MOST_LISTED {
        return append_way(way, out);
    }
    out.extend_from_slice(b"and in other ways")?;
    Ok(())
}

fn append_way(way: &Way, out: &mut Vec<u8>) -> Result<(), AllocError>
    ensures { OnOk result (out.new.items ≡ out.old.items ++ way_text way.now) }
{
    out.extend_from_slice(b"pages of ")?;
    append_size(&way.page, out)?;
    out.extend_from_slice(b" on sheets of ")?;
    append_size(&way.sheet, out)?;
    out.extend_from_slice(b", scale ")?;
    print_scale(way.scale, out)?;
    Ok(())
}

/// The different ways in which pages lie on the first `count` sheets. At most 17 ways are kept, one more than are listed.
fn different_ways(alloc: Global, sheets: &MadeSheets, count: u32) -> Result<Vec<Way>, AllocError>
    requires { count ≡ length sheets.now }
    ensures { IfOk result (λ ways. ways.items ≡ ways_of sheets.now) }
{
    let mut ways = Vec::new(alloc);
    for sheet in 0..count {
        note_sheet(sheets, sheet, &mut ways)?;
    }
    Ok(ways)
}

/// Adds to `ways` the ways in which the pages of a sheet lie on it, as `add_way` does.
fn note_sheet(sheets: &MadeSheets, sheet: u32, ways: &mut Vec<Way>) -> Result<(), AllocError>
    requires { sheet < length sheets.now }
    ensures { OnOk result ((it : MadeSheet) → slice_get sheets.now sheet ≡ Some it →
        ways.new.items ≡ with_sheet ways.old.items it) }
{
    note_slots(sheets, sheet, sheets.paper(sheet), ways)?;
    Ok(())
}

/// Adds the ways in which the pages in the slots of a sheet lie on it, as `add_way` does. `paper` is the paper of the sheet.
fn note_slots(
    sheets: &MadeSheets,
    sheet: u32,
    paper: &Paper,
    ways: &mut Vec<Way>,
) -> Result<(), AllocError>
    requires { sheet < length sheets.now }
    ensures { OnOk result (ways.new.items ≡ fold (with_slot paper.now) ways.old.items (slots_at sheets.now sheet)) }
{
    for slot in 0..sheets.slots(sheet) {
        note_slot(sheets.placed(sheet, slot), paper, ways)?;
    }
    Ok(())
}

/// Adds the way in which the page in a slot lies on its sheet, as `add_way` does. A blank slot adds nothing. `sheet` is the paper of the sheet.
fn note_slot(
    placed: Option<PlacedSlot<'_>>,
    sheet: &Paper,
    ways: &mut Vec<Way>,
) -> Result<(), AllocError>
    ensures { OnOk result (ways.new.items ≡ with_slot sheet.now ways.old.items (placed_of placed.entry)) }
{
    match placed {
        None => Ok(()),
        Some(placed) => add_way(
            Way {
                page: *placed.paper,
                sheet: *sheet,
                scale: placed.item.scale,
            },
            ways,
        ),
    }
}

/// Adds a way, unless the list has it or has 17 ways already.
fn add_way(way: Way, ways: &mut Vec<Way>) -> Result<(), AllocError>
    ensures { OnOk result (ways.new.items ≡ with_way ways.old.items way) }
{
    if is_full_or_there(ways.as_slice(), &way) {
        return Ok(());
    }
    ways.push(way)?;
    Ok(())
}

/// Whether the list has this way, or has 17 ways.
fn is_full_or_there(ways: &[Way], way: &Way) -> bool
    ensures { result ≡ (nat_lt most_ways (length ways.now) || list_any (is_same_way way.now) ways.now) }
{
    MOST_LISTED < ways.len() || ways.contains(way)
}
