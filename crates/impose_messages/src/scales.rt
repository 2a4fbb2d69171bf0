//! The scales of pages on sheets.
ghost use Rattle.std.specs.Prelude.{ℤ, ◌≡◌, ◌<◌, ◌++◌, ◌∷◌, [], length, List, Some};
ghost use Rattle.sheet_plan.specs.OfSheets.{placed_of, slots_at};
ghost use Rattle.impose_messages.specs.Scales.{extremes, scale_in, scales_in, scales_of};

use lengths::Number;
use sheet_plan::{MadeSheets, PlacedSlot};

/// The least and the greatest scale of the pages on sheets.
#[derive(Clone, Copy)]
pub struct Scales {
    pub least: Number,
    pub greatest: Number,
}

impl Scales {
    /// The scales of the pages on the first `count` sheets, which are all sheets. `None` if no sheet has a page.
    pub fn of(sheets: &MadeSheets, count: u32) -> Option<Scales>
        requires { count ≡ length sheets.now }
        ensures { result ≡ scales_of sheets.now }
    {
        let mut scales = None;
        for sheet in 0..count {
            scales = with_sheet(scales, sheets, sheet);
        }
        scales
    }
}

/// The least and the greatest of the scales seen so far and of the pages on one more sheet.
fn with_sheet(so_far: Option<Scales>, sheets: &MadeSheets, sheet: u32) -> Option<Scales>
    requires { sheet < length sheets.now }
    ensures { (seen : List ℤ) → so_far ≡ extremes seen → result ≡ extremes (seen ++ scales_in (slots_at sheets.now sheet)) }
{
    let mut scales = so_far;
    for slot in 0..sheets.slots(sheet) {
        scales = with_slot(scales, sheets.placed(sheet, slot));
    }
    scales
}

/// The least and the greatest of the scales seen so far and of the page in one more slot. A blank slot adds none.
fn with_slot(so_far: Option<Scales>, placed: Option<PlacedSlot<'_>>) -> Option<Scales>
    ensures { (seen : List ℤ) → so_far ≡ extremes seen → result ≡ extremes (seen ++ scale_in (placed_of placed.entry)) }
{
    match placed {
        None => so_far,
        Some(placed) => Some(with_scale(so_far, placed.item.scale)),
    }
}

/// The least and the greatest of the scales seen so far and of one more.
fn with_scale(so_far: Option<Scales>, scale: Number) -> Scales
    ensures { (seen : List ℤ) → so_far ≡ extremes seen → Some result ≡ extremes (seen ++ scale ∷ []) }
{
    match so_far {
        None => Scales {
            least: scale,
            greatest: scale,
        },
        Some(scales) => Scales {
            least: scales.least.min(scale),
            greatest: scales.greatest.max(scale),
        },
    }
}
