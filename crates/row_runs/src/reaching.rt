//! Checks that pages that are shifted or turned still have offsets that can be written.
ghost use Rattle.std.specs.Prelude.{◌≡◌, ◌⊎◌, ◌<◌, ◌≤◌, IfErr, OnOk, false, length, true};
ghost use Rattle.std.specs.List.{list_all};
ghost use Rattle.rules.specs.Run.{most_sheets};
ghost use Rattle.sheet_plan.specs.OfSheets.{placed_of, slots_at};
ghost use Rattle.row_runs.specs.Reaching as meaning;
ghost use Rattle.row_runs.specs.Turning.{turn_on};

use crate::error::SheetError;
use crate::swapped_margins::swapped_room_on;
use crate::turning::changed_item;
use layouts::Room;
use pagespec::Turn;
use sheet_plan::{MadeError, MadeSheets, PlacedSlot};

/// The greatest number of sheets in a plan.
const MOST_SHEETS: usize = 1_000_000;

/// Checks that these sheets can be shifted and turned. The error is `TooManySheets` if there are more than 1,000,000 sheets. It is `OutOfReach` if a
/// page that is shifted or turned would get an offset of 100,000 points or more. If `swap` is given, its left and right margins are exchanged on
/// backs.
pub(crate) fn check_reach(
    turns: &[Turn],
    swap: &Option<Room>,
    sheets: &MadeSheets,
) -> Result<(), SheetError>
    ensures few { OnOk result (length sheets.now ≤ most_sheets) }
    ensures reached { OnOk result (meaning.are_reached (turn_on turns.now) swap.now sheets.now ≡ true) }
    ensures refused { IfErr result (meaning.IsNotReached turns.now swap.now sheets.now) }
{
    if sheets.len() > MOST_SHEETS {
        return Err(SheetError::Sheets(MadeError::TooManySheets));
    }
    if are_reached(turns, swap, sheets) {
        Ok(())
    } else {
        Err(SheetError::OutOfReach)
    }
}

fn are_reached(turns: &[Turn], swap: &Option<Room>, sheets: &MadeSheets) -> bool
    requires { length sheets.now ≤ most_sheets }
    ensures reached { result ≡ meaning.are_reached (turn_on turns.now) swap.now sheets.now }
    ensures unchanged { meaning.is_changed turns.now swap.now ≡ false → result ≡ true }
{
    for sheet in 0..sheets.len() as u32 {
        if !is_sheet_reached(turns, &swapped_room_on(swap, sheet), sheets, sheet) {
            return false;
        }
    }
    true
}

fn is_sheet_reached(turns: &[Turn], swap: &Option<Room>, sheets: &MadeSheets, sheet: u32) -> bool
    requires { sheet < length sheets.now }
    ensures reached { result ≡ list_all (meaning.is_slot_reached (turn_on turns.now) swap.now) (slots_at sheets.now sheet) }
    ensures unchanged { meaning.is_changed turns.now swap.now ≡ false → result ≡ true }
{
    for slot in 0..sheets.slots(sheet) {
        if !is_slot_reached(turns, swap, sheets.placed(sheet, slot)) {
            return false;
        }
    }
    true
}

fn is_slot_reached(turns: &[Turn], swap: &Option<Room>, slot: Option<PlacedSlot<'_>>) -> bool
    ensures reached { result ≡ meaning.is_slot_reached (turn_on turns.now) swap.now (placed_of slot.entry) }
    ensures unchanged { meaning.is_changed turns.now swap.now ≡ false → result ≡ true }
{
    match slot {
        None => true,
        Some(placed) => changed_item(turns, swap, placed).is_some(),
    }
}
