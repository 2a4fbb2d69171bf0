//! A law of the list of a plan. The function states the law in its contract, and does nothing.
ghost use Rattle.preview.specs.Reading.{PlacesAreInOrder};

/// Each place of a sheet is listed in the row and column that the order of the cells gives it.
pub fn places_are_in_order()
    ensures { PlacesAreInOrder }
{}
