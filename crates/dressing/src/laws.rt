//! Laws of the marks, the lines for notes and the page numbers. Each function states one law in its `ensures`, and has an empty body.
ghost use Rattle.dressing.specs.Between.{FoldMarksAreOnFold, MarksAreBetween};
ghost use Rattle.dressing.specs.Laws.{DrawnIsTame, LinesAreBeside, LinesAreInCell, MarksAreInMargin, MarksAreOutside, MarksMissPages, PiecesAreLike};
ghost use Rattle.dressing.specs.AtFoot.{NumbersAreAtFoot};
ghost use Rattle.dressing.specs.Numbered.{NoMarksAddNothing};
ghost use Rattle.dressing.specs.Quiet.{DrawnAreFound, DrawnIsQuiet};

/// If a sheet is cut along all lines that run in one direction, the pieces between neighbouring lines are equally wide. The margin before the first
/// cell must have room for half a gap.
pub fn pieces_are_like()
    ensures { PiecesAreLike }
{}

/// If cells have a width and a height, marks lie at both ends of lines that run midway between cells, or half a gap outside the outer cells.
pub fn marks_are_between()
    ensures { MarksAreBetween }
{}

/// The fold marks of a booklet lie on its fold. If pages are trimmed, the marks lie half of 10^-5 of a point below the fold.
pub fn fold_marks_are_on_fold()
    ensures { FoldMarksAreOnFold }
{}

/// If cells have a width and a height, no mark crosses a cell.
pub fn marks_are_outside()
    ensures { MarksAreOutside }
{}

/// No mark crosses a page that lies in a cell, if pages aren't trimmed.
pub fn marks_miss_pages()
    ensures { MarksMissPages }
{}

/// If a sheet has margins along all four edges, all marks lie in them, those of a poster's sheet too.
pub fn marks_are_in_margin()
    ensures { MarksAreInMargin }
{}

/// Lines for notes lie in the cells for notes.
pub fn lines_are_in_cell()
    ensures { LinesAreInCell }
{}

/// No line for notes crosses a cell that may have a page.
pub fn lines_are_beside()
    ensures { LinesAreBeside }
{}

/// Suppose that a page is centred in its cell, and that its number is drawn with `Numbers::below` equal to half the height of the cell. Then the
/// number is centred at the foot of the cell.
pub fn numbers_are_at_foot()
    ensures { NumbersAreAtFoot }
{}

/// The lines that draw marks and numbers begin no page, data or embedded document, so sheets with such lines can be imposed again.
pub fn drawn_is_tame()
    ensures { DrawnIsTame }
{}

/// Lines that draw marks and numbers don't affect how the papers of sheets are found in an output.
pub fn drawn_is_quiet()
    ensures { DrawnIsQuiet }
{}

/// In an output whose sheets report their papers, the paper of each sheet is found again, with its sides as they are printed, whatever is drawn on
/// the sheets. The sides of the papers must be from 1 point to 99,999.99999 points. The output must have at least one sheet and be within the limits
/// of an input, and the last page of the document must leave no embedded document open.
pub fn drawn_are_found()
    ensures { DrawnAreFound }
{}

/// If nothing is drawn, sheets have only the lines that report their papers.
pub fn no_marks_add_nothing()
    ensures { NoMarksAddNothing }
{}
