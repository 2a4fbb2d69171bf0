//! The sheets without pages.
ghost use Rattle.std.specs.Prelude.{◌≡◌, ◌<◌, length, IfOk};
ghost use Rattle.rules.specs.Sheets.{layout};
ghost use Rattle.sheet_plan.specs.Places.{is_blank_sheet, born_complete};
ghost use Rattle.sheet_plan.specs.Sources.{plan_from, IsPlannable};

use crate::source::PlanSource;
use std::alloc::{AllocError, Global};

/// The sheets whose slots are all blank, in ascending order.
pub(crate) fn blank_sheets_in(alloc: Global, source: &PlanSource) -> Result<Vec<u32>, AllocError>
    requires { IsPlannable source.now }
    ensures { IfOk result (λ v. v.items ≡ born_complete (layout (plan_from source.now))) }
{
    let mut blank_sheets = Vec::new(alloc);
    for sheet in 0..source.sheets() {
        if is_blank_sheet(source, sheet) {
            blank_sheets.push(sheet)?;
        }
    }
    Ok(blank_sheets)
}

/// Whether no slot of a sheet has a page.
fn is_blank_sheet(source: &PlanSource, sheet: u32) -> bool
    requires plannable { IsPlannable source.now }
    requires sheet { sheet < length (plan_from source.now).sheets }
    ensures { result ≡ is_blank_sheet (layout (plan_from source.now)) sheet }
{
    for slot in 0..source.slots(sheet) {
        if source.page_of(sheet, slot).is_some() {
            return false;
        }
    }
    true
}
