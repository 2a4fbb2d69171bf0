//! Sheets that a specification makes from a row.
ghost use Rattle.std.specs.Prelude.{◌≡◌, ◌++◌, ◌<◌, ◌≤◌, ◌^◌, IfErr, IfOk, OnOk, length, map, sum_by};
ghost use Rattle.rules.specs.Run.{most_sheets};
ghost use Rattle.rules.specs.Sheets.{blocks as blocks_of, place};
ghost use Rattle.pagespec.specs.Items.{groups_of, item_of};
ghost use Rattle.sheet_plan.specs.OfSheets.{slot_of};
ghost use Rattle.row_sheets.specs.BySpec.{by_spec, item_slot, sheet_by, WhyNoSheets, AreFew};

use lengths::Paper;
use pagespec::{Item, Spec};
use rows::entry_at;
use sheet_plan::{MadeError, MadeSheets, MadeSlot};
use std::alloc::{AllocError, Global};

const MOST_SHEETS: u128 = 1_000_000;

const MOST_PLACES: u128 = 4_000_000;

/// A specification and a row of pages and blanks, with the paper of the sheets and the one paper that all pages have.
#[derive(Clone, Copy)]
pub struct SpecOnRow<'s> {
    pub spec: &'s Spec,
    pub row: &'s [Option<u32>],
    pub sheet: Paper,
    pub page: Paper,
}

/// The sheets that a specification makes from a row. Items name entries of the row just as they name pages of a document. A row that would give more
/// sheets or slots than a plan may have is refused before any memory is requested. The errors are `TooManySheets`, `TooManyPlaces` and `NoMemory`.
pub fn spec_sheets(alloc: Global, on: &SpecOnRow<'_>) -> Result<MadeSheets, MadeError>
    ensures made { IfOk result (λ made. made ≡ by_spec on.now.spec.now on.now.sheet on.now.page on.now.row.now) }
    ensures few { IfOk result AreFew }
    ensures refused { IfErr result (WhyNoSheets
        (by_spec on.now.spec.now on.now.sheet on.now.page on.now.row.now)) }
{
    let blocks = blocks_in(on)?;
    let mut made = MadeSheets::new(alloc);
    for block in 0..blocks {
        match push_block(alloc, &mut made, on, block) {
            Ok(()) => (),
            Err(_) => return Err(MadeError::NoMemory),
        }
    }
    Ok(made)
}

/// The number of blocks in the row. The modulo is the number of entries in a block. The row is refused if there would be more sheets or slots than a
/// plan may have.
fn blocks_in(on: &SpecOnRow<'_>) -> Result<u32, MadeError>
    ensures value { IfOk result (λ n. n ≡ blocks_of on.now.spec.now.modulo (length on.now.row.now)) }
    ensures few { IfOk result (λ n. n ≤ most_sheets) }
    ensures kept { IfOk result (λ n. AreFew (by_spec on.now.spec.now on.now.sheet on.now.page on.now.row.now)) }
    ensures refused { IfErr result (WhyNoSheets
        (by_spec on.now.spec.now on.now.sheet on.now.page on.now.row.now)) }
{
    let groups = on.spec.groups();
    let blocks = on.row.len().div_ceil(on.spec.modulo() as usize);
    if blocks as u128 * groups.len() as u128 > MOST_SHEETS {
        return Err(MadeError::TooManySheets);
    }
    if blocks as u128 * slots_per_block(groups) > MOST_PLACES {
        return Err(MadeError::TooManyPlaces);
    }
    Ok(blocks as u32)
}

/// The number of slots on all sheets of a block.
fn slots_per_block(groups: &[Vec<Item>]) -> u128
    requires { sum_by length (groups_of groups.now) < 2 ^ 64 }
    ensures { result ≡ sum_by length (groups_of groups.now) }
{
    let mut slots = 0u128;
    for group in groups {
        slots += group.len() as u128;
    }
    slots
}

/// Adds the sheets of a block.
fn push_block(
    alloc: Global,
    made: &mut MadeSheets,
    on: &SpecOnRow<'_>,
    block: u32,
) -> Result<(), AllocError>
    requires few { blocks_of on.now.spec.now.modulo (length on.now.row.now) ≤ most_sheets }
    requires block { block < blocks_of on.now.spec.now.modulo (length on.now.row.now) }
    ensures { OnOk result (made.new ≡ made.old
        ++ map (sheet_by on.now.sheet on.now.page on.now.row.now on.now.spec.now.modulo block) on.now.spec.now.groups) }
{
    let mut slots = Vec::new(alloc);
    for group in on.spec.groups() {
        fill_sheet(&mut slots, on, block, group.as_slice())?;
        made.push(&on.sheet, slots.as_slice())?;
    }
    Ok(())
}

/// Replaces the content of `slots` with the slots of a group.
fn fill_sheet(
    slots: &mut Vec<MadeSlot>,
    on: &SpecOnRow<'_>,
    block: u32,
    group: &[Item],
) -> Result<(), AllocError>
    requires few { blocks_of on.now.spec.now.modulo (length on.now.row.now) ≤ most_sheets }
    requires block { block < blocks_of on.now.spec.now.modulo (length on.now.row.now) }
    ensures { OnOk result (map slot_of slots.new.items
        ≡ map (item_slot on.now.page on.now.row.now on.now.spec.now.modulo block) (map item_of group.now)) }
{
    slots.clear();
    for item in group {
        slots.push(slot_for(on, block, item))?;
    }
    Ok(())
}

/// The slot of an item in a block. It is blank if the item names a blank, or an entry after the end of the row.
fn slot_for(on: &SpecOnRow<'_>, block: u32, item: &Item) -> MadeSlot
    requires few { blocks_of on.now.spec.now.modulo (length on.now.row.now) ≤ most_sheets }
    requires block { block < blocks_of on.now.spec.now.modulo (length on.now.row.now) }
    ensures { slot_of result ≡ item_slot on.now.page on.now.row.now on.now.spec.now.modulo block (item_of item.now) }
{
    match entry_at(on.row, place_in_row(on, block, item) as u128) {
        Some(page) => MadeSlot::Placed {
            page,
            item: *item,
            paper: on.page,
        },
        None => MadeSlot::Blank,
    }
}

/// The index, counted from 0, of the row's entry that an item names in a block.
fn place_in_row(on: &SpecOnRow<'_>, block: u32, item: &Item) -> usize
    requires few { blocks_of on.now.spec.now.modulo (length on.now.row.now) ≤ most_sheets }
    requires block { block < blocks_of on.now.spec.now.modulo (length on.now.row.now) }
    ensures { result ≡ place on.now.spec.now.modulo (length on.now.row.now) block (item_of item.now) }
{
    let modulo = on.spec.modulo() as usize;
    let block = block as usize;
    if item.from_end {
        let blocks = on.row.len().div_ceil(modulo);
        modulo * blocks - (block + 1) * modulo + item.page as usize
    } else {
        block * modulo + item.page as usize
    }
}
