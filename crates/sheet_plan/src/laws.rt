//! Laws of plans. Each function states one law in its `ensures`, and has an empty body.
ghost use Rattle.sheet_plan.specs.Laws.{PlacesAreExact, BornCompleteAreWithoutPages};

/// The listed places of a page are exactly the slots that have the page. They ascend by sheet, then by slot.
pub fn places_are_exact()
    ensures { PlacesAreExact }
{}

/// The sheets that are complete before any page has come are exactly those whose slots are all blank. They are listed in ascending order.
pub fn blank_sheets_have_no_page()
    ensures { BornCompleteAreWithoutPages }
{}
