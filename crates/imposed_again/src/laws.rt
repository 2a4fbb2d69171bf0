//! Laws of joined texts, and of the output of a run that is read again. Each function states one law in its contract,
//! and does nothing.
ghost use Rattle.imposed_again.specs.Seams.{LinesPutIn, PagesStay, UnitStays, UnitsJoin};
ghost use Rattle.imposed_again.specs.Again.{ImposedAgain, MakesSheets, SheetsShut, TrailerShuts, WrittenIsDocument};
ghost use Rattle.imposed_again.specs.MadeAgain.{MadeIsDocument};

/// A unit depends only on its own bytes, so it stays the same whatever bytes follow it. There are two exceptions: a
/// unit that ends with CR, if LF follows it, and a unit without a line end.
pub fn unit_stays()
    ensures { UnitStays }
{}

/// Suppose that the first of two texts ends with a line end, or is empty, and that the second doesn't begin with LF.
/// Then the units of the joined text are the units of the first text, followed by the units of the second.
pub fn units_join()
    ensures { UnitsJoin }
{}

/// Suppose that lines are inserted between two units of a text, that the first of these lines isn't empty, and that
/// none begins a block of data. Then each line becomes a unit, and the units of the text stay the same.
pub fn lines_put_in()
    ensures { LinesPutIn }
{}

/// Suppose that lines are inserted before the first page, begin no page, and leave the depth in embedded documents
/// unchanged. Then the pages and the trailer stay the same.
pub fn pages_stay()
    ensures { PagesStay }
{}

/// If an accepted document is written on any sheets, the output is itself an accepted document, unless it is too long.
/// The output must have at least one sheet, and at most as many as a document may have pages. Its preamble and its
/// trailer are the texts that were written. Its pages are the sheets exactly if each sheet but the last leaves no
/// embedded document open.
pub fn written_is_document()
    ensures { WrittenIsDocument }
{}

/// If the last page of a document leaves no embedded document open, no sheet leaves one open.
pub fn sheets_shut()
    ensures { SheetsShut }
{}

/// If a document has a trailer, its last page leaves no embedded document open.
pub fn trailer_shuts()
    ensures { TrailerShuts }
{}

/// An admissible specification makes at least one sheet from any document.
pub fn makes_sheets()
    ensures { MakesSheets }
{}

/// The output for an accepted document, an admissible specification and an accepted plan is itself an accepted
/// document, unless it is too long. If the last page of the imposed document leaves no embedded document open, the
/// pages of the output are the sheets.
pub fn imposed_again()
    ensures { ImposedAgain }
{}

/// If an accepted document is written on made sheets, the output is itself an accepted document, unless it is too long.
/// The output must have at least one sheet, and at most as many as a document may have pages. The lines added to the
/// sheets (the dress) must begin no part of a document and no data. If the last page of the imposed document leaves no
/// embedded document open, the pages of the output are the sheets.
pub fn made_is_document()
    ensures { MadeIsDocument }
{}
