//! Laws of the definitions. Each function states one law in its `ensures`, and has an empty body.
ghost use Rattle.rules.specs.Admissible.{OneAnswer, OneReading};
ghost use Rattle.rules.specs.Numbers.{NumberIsPrinted, NumberWithoutZero, PrintedIsPrinted};
ghost use Rattle.rules.specs.Output.{BorderOnEdge};
ghost use Rattle.rules.specs.Parts.{PartsMakeText};
ghost use Rattle.rules.specs.Placement.{MatrixPuts};
ghost use Rattle.rules.specs.Sheets.{SheetCount};
ghost use Rattle.rules.specs.Signatures.{EachPageOnce, IsPermutation, WholeSignatures, WithoutSides};
ghost use Rattle.rules.specs.Units.{CutFaults, CutIsUnits, UnitsMakeText};
ghost use Rattle.rules.specs.MadeOutput.{MadeIsOutput};
ghost use Rattle.rules.specs.Dressed.{DressedIsMade};
ghost use Rattle.rules.specs.Rows.{PartsOfRow, PartsByNumber, SheetsOfAll, SignaturesOfAll, AutoSignatures};
ghost use Rattle.rules.specs.Ranges.{RangesAreRead, RangesOfAll};
ghost use Rattle.rules.specs.Leaves.{ReadInOrder, RowIsRead, SheetsAreFaces};

/// Of all texts that have the form of a printed number, only one has the value of a given number: its printed text. This holds for up to 63 decimals
/// and for absolute values below 10^64.
pub fn printed_is_printed()
    ensures { PrintedIsPrinted }
{}

/// Of all texts that have the canonical form of a number in a specification, only one has the value of a given number: its canonical text. This holds
/// for absolute values below 10^64.
pub fn number_is_printed()
    ensures { NumberIsPrinted }
{}

/// The canonical text of a number in a specification is the text that a matrix has for this number, but without an integer part of 0 before a dot.
/// This holds for absolute values below 10^64.
pub fn number_without_zero()
    ensures { NumberWithoutZero }
{}

/// A text can be read as at most one specification.
pub fn one_reading()
    ensures { OneReading }
{}

/// A text has at most one answer, which is a specification or a fault. So no text is both accepted and refused, or refused for two faults.
pub fn one_answer()
    ensures { OneAnswer }
{}

/// A specification makes one sheet for each of its groups in each block of pages.
pub fn sheet_count()
    ensures { SheetCount }
{}

/// Without signatures, the sheets of a specification are made from the pages in the order of their numbers.
pub fn without_sides()
    ensures { WithoutSides }
{}

/// Each signature is whole, because blanks fill up the last one.
pub fn whole_signatures()
    ensures { WholeSignatures }
{}

/// The printing order of a signature is a permutation: each position has one page of the signature, and each page has one position.
pub fn is_permutation()
    ensures { IsPermutation }
{}

/// If pages are put into signatures, each page is in exactly one entry of the resulting row.
pub fn each_page_once()
    ensures { EachPageOnce }
{}

/// The matrix of an item sends each point with whole coordinates (in points) to the place where the item puts this point.
pub fn matrix_puts()
    ensures { MatrixPuts }
{}

/// A border without an inset is drawn along the path that clips the page.
pub fn border_on_edge()
    ensures { BorderOnEdge }
{}

/// A text is cut into exactly the units (lines and blocks of data) that the rules define.
pub fn cut_is_units()
    ensures { CutIsUnits }
{}

/// Cutting a text fails exactly if the text has a faulty block of data. The error names the first faulty block.
pub fn cut_faults()
    ensures { CutFaults }
{}

/// The units of a text, joined in order, give the text.
pub fn units_make_text()
    ensures { UnitsMakeText }
{}

/// The preamble, the pages and the trailer of a document, joined in this order, give its text.
pub fn parts_make_text()
    ensures { PartsMakeText }
{}

/// Sheets that are made from a specification, with one paper and no added lines, have the same output as the specification.
pub fn made_is_output()
    ensures { MadeIsOutput }
{}

/// Sheets that already carry the lines of their dress (the lines besides their pages) have the same output as sheets to which the dress is added.
pub fn dressed_is_made()
    ensures { DressedIsMade }
{}

/// The entries in odd places of a row, interleaved with those in even places, give the row. A row that is reversed twice is the original row.
pub fn parts_of_row()
    ensures { PartsOfRow }
{}

/// In the row of all pages, odd places have the pages with odd numbers, and even places those with even numbers.
pub fn parts_by_number()
    ensures { PartsByNumber }
{}

/// The row of all pages, put into signatures, is the row that the rules define for signatures of these pages.
pub fn signatures_of_all()
    ensures { SignaturesOfAll }
{}

/// For n pages, a specification makes the same sheets as for the row of all n pages. This holds with and without signatures.
pub fn sheets_of_all()
    ensures { SheetsOfAll }
{}

/// Suppose that a row isn't empty, and that the size of its signatures is chosen automatically. Then no signature has more than eight leaves, and n
/// signatures have fewer than 4n blanks in all.
pub fn auto_signatures()
    ensures { AutoSignatures }
{}

/// Reading a text of ranges gives exactly the ranges that the text means.
pub fn ranges_are_read()
    ensures { RangesAreRead }
{}

/// In a document with at least one page, `1-` names all pages in order, and `last-1` names all pages backwards. `_k` names the k-th page from the
/// end, for each k from 1 to the number of pages.
pub fn ranges_of_all()
    ensures { RangesOfAll }
{}

/// If a specification puts the next two entries of a row, in order, on each sheet, its sheets are the printed faces of leaves.
pub fn sheets_are_faces()
    ensures { SheetsAreFaces }
{}

/// If a signature is folded, its pages are read in order.
pub fn read_in_order()
    ensures { ReadInOrder }
{}

/// If a row is put into signatures and printed on leaves, which are then folded, its entries are read in their order. The blanks that fill up the
/// last signature come after them.
pub fn row_is_read()
    ensures { RowIsRead }
{}
