//! Plans of sheets that a caller made.
ghost use Rattle.std.specs.Prelude.{◌≡◌, ◌≢◌, ◌<◌, ◌≤◌, length, not, position, Some, Ok, Err, OnOk, IfOk, IfErr, slice_get};
ghost use Rattle.std.specs.List.{list_any};
ghost use Rattle.rules.specs.Run.{most_sheets};
ghost use Rattle.rules.specs.Made.{MadeSlot};
ghost use Rattle.rules.specs.MadePlans.{made_plan_of, is_slot_count, slot_count, lacks_page};
ghost use Rattle.sheet_plan.specs.OfSheets.{made_plan, slots_at};
ghost use Rattle.sheet_plan.specs.MadeRefusals.{RefusesMade};
ghost use Rattle.sheet_plan.specs.Sources.{plan_from, IsPlannable};

use crate::error::MadeError;
use crate::made::MadeSheets;
use crate::source::PlanSource;

const MOST_PAGES: u32 = 1_000_000;

const MOST_SHEETS: usize = 1_000_000;

const MOST_SLOTS: u32 = 4_096;

const MOST_PLACES: u32 = 4_000_000;

impl<'s> PlanSource<'s> {
    /// The source of a plan for sheets that a caller made. Fails with the first fault of the sheets, in the order of `MadeError`.
    pub fn of_sheets(pages: u32, made: &'s MadeSheets) -> Result<PlanSource<'s>, MadeError>
        ensures value { IfOk result (λ s. plan_from s ≡ made_plan pages made.now) }
        ensures plannable { IfOk result IsPlannable }
        ensures accepted { OnOk result (made_plan_of pages made.now ≡ Ok made.now) }
        ensures refused { IfErr result (RefusesMade pages made.now) }
        ensures no_growth { result ≢ Err MadeError.NoMemory }
    {
        if pages > MOST_PAGES {
            return Err(MadeError::TooManyPages);
        }
        if made.len() > MOST_SHEETS {
            return Err(MadeError::TooManySheets);
        }
        if let Some(sheet) = first_uneven(made) {
            return Err(MadeError::SlotsOutOfRange(sheet));
        }
        if made.places() > MOST_PLACES {
            return Err(MadeError::TooManyPlaces);
        }
        if let Some(sheet) = first_missing(pages, made) {
            return Err(MadeError::NoSuchPage(sheet));
        }
        Ok(PlanSource::Made { pages, made })
    }
}

/// The first sheet that has no slots, or over 4,096.
fn first_uneven(made: &MadeSheets) -> Option<u32>
    requires { length made.now ≤ most_sheets }
    ensures { result ≡ position (λ sheet. not (is_slot_count (slot_count sheet))) made.now }
{
    for sheet in 0..made.len() as u32 {
        if is_uneven(made, sheet) {
            return Some(sheet);
        }
    }
    None
}

/// Whether a sheet has no slots, or over 4,096.
fn is_uneven(made: &MadeSheets, sheet: u32) -> bool
    requires { sheet < length made.now }
    ensures { result ≡ not (is_slot_count (length (slots_at made.now sheet))) }
{
    let slots = made.slots(sheet);
    !is_slot_count(slots)
}

/// Whether a sheet may have this number of slots: from 1 to 4,096.
fn is_slot_count(slots: u32) -> bool
    ensures { result ≡ is_slot_count slots }
{
    1 <= slots && slots <= MOST_SLOTS
}

/// The first sheet that has a page which isn't in the document.
fn first_missing(pages: u32, made: &MadeSheets) -> Option<u32>
    requires { length made.now ≤ most_sheets }
    ensures { result ≡ position (λ sheet. list_any (lacks_page pages) sheet.slots) made.now }
{
    for sheet in 0..made.len() as u32 {
        if is_page_missing(pages, made, sheet) {
            return Some(sheet);
        }
    }
    None
}

/// Whether this sheet has a page that isn't in the document.
fn is_page_missing(pages: u32, made: &MadeSheets, sheet: u32) -> bool
    requires { sheet < length made.now }
    ensures { result ≡ list_any (lacks_page pages) (slots_at made.now sheet) }
{
    for slot in 0..made.slots(sheet) {
        if is_missing_in(pages, made, sheet, slot) {
            return true;
        }
    }
    false
}

/// Whether this slot has a page that isn't in the document.
fn is_missing_in(pages: u32, made: &MadeSheets, sheet: u32, slot: u32) -> bool
    requires sheet { sheet < length made.now }
    requires slot { slot < length (slots_at made.now sheet) }
    ensures { (it : MadeSlot) → slice_get (slots_at made.now sheet) slot ≡ Some it → result ≡ lacks_page pages it }
{
    match made.placed(sheet, slot) {
        Some(placed) => pages <= placed.page,
        None => false,
    }
}
