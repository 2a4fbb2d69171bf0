//! The pages on the sheets, listed by sheet and then by slot.
ghost use Rattle.std.specs.Prelude.{◌≡◌, ◌<◌, ◌++◌, length, OnOk, IfOk};
ghost use Rattle.rules.specs.Sheets.{layout};
ghost use Rattle.sheet_plan.specs.Plans.{pages_on};
ghost use Rattle.sheet_plan.specs.Placed.{placed_in, placed_from};
ghost use Rattle.sheet_plan.specs.Sources.{plan_from, IsPlannable};

use crate::source::PlanSource;
use std::alloc::{AllocError, Global};

/// A page, with the sheet and the slot that it is in.
#[derive(Clone, Copy)]
pub struct PlacedPage {
    pub page: u32,
    pub sheet: u32,
    pub slot: u16,
}

/// All placed pages, by sheet and then by slot.
pub(crate) fn placed_pages(
    alloc: Global,
    source: &PlanSource,
) -> Result<Vec<PlacedPage>, AllocError>
    requires { IsPlannable source.now }
    ensures { IfOk result (λ v. v.items ≡ placed_from 0 (layout (plan_from source.now)).sheets) }
{
    let mut placed = Vec::new(alloc);
    for sheet in 0..source.sheets() {
        list_sheet(source, sheet, &mut placed)?;
    }
    Ok(placed)
}

/// Adds the pages that are placed on a sheet.
fn list_sheet(
    source: &PlanSource,
    sheet: u32,
    placed: &mut Vec<PlacedPage>,
) -> Result<(), AllocError>
    requires plannable { IsPlannable source.now }
    requires sheet { sheet < length (plan_from source.now).sheets }
    ensures { OnOk result (placed.new.items ≡ placed.old.items ++ placed_in sheet 0 (pages_on (plan_from source.now) sheet)) }
{
    for slot in 0..source.slots(sheet) {
        if let Some(page) = source.page_of(sheet, slot) {
            placed.push(PlacedPage { page, sheet, slot })?;
        }
    }
    Ok(())
}
