//! Laws of papers. Each function states one law in its `ensures`, and has an empty body.
ghost use Rattle.papers.specs.Reported.{ReportingIsTame};
ghost use Rattle.papers.specs.SetSizes.{SizeIsSet};
ghost use Rattle.papers.specs.Found.{PapersAreFound};
ghost use Rattle.papers.specs.AsOne.{KindsAreOfLargest, NearAreOne, NothingIsCut, OrderIsNothing};

/// The lines with which sheets report their papers begin no page, no trailer, no data and no embedded document.
pub fn reporting_is_tame()
    ensures { ReportingIsTame }
{}

/// Suppose that, when a sheet begins, the page size is that of some sheet's paper. If the sheet reports its own paper,
/// the last of the lines that do so sets the page size of this paper. If it doesn't, its own paper has the same printed
/// size as the paper that was set.
pub fn size_is_set()
    ensures { SizeIsSet }
{}

/// If the output is read again, the paper of each sheet is found, with sides as they are printed. This holds for 1 to
/// 1,000,000 sheets whose papers have sides from 1 point to 99,999.99999 points. The lines at the end of a sheet must
/// begin no part of a document, no data and no embedded document, and must not continue the comments at its head. The
/// document's last page must leave no embedded document open, and the output must not be too long.
pub fn papers_are_found()
    ensures { PapersAreFound }
{}

/// The paper that replaces a taken paper covers it, so no taken page is cut.
pub fn nothing_is_cut()
    ensures { NothingIsCut }
{}

/// All papers of one kind are replaced by the same paper.
pub fn near_are_one()
    ensures { NearAreOne }
{}

/// Each kind is formed around the largest of the papers that belong to no earlier kind.
pub fn kinds_are_of_largest()
    ensures { KindsAreOfLargest }
{}

/// The paper that replaces another depends neither on the order of the pages nor on how often they are taken.
pub fn order_is_nothing()
    ensures { OrderIsNothing }
{}
