//! Laws of the definitions. Each function states one law in its `ensures`, and has an empty body.
ghost use Rattle.layouts.specs.Refusals.{NothingIsLeftOfSheet};
ghost use Rattle.layouts.specs.Placed.{StandsWherePut};
ghost use Rattle.layouts.specs.Fitted.{FittedStands, FittedIsApart, FittedIsInOrder, ArrangedIsFitted, BoundIsFitted};
ghost use Rattle.layouts.specs.Laws.{GridIsInside, GridIsApart, GridIsInOrder, GridIsInCell, GridIsInMiddle};
ghost use Rattle.layouts.specs.Laws.{BestHasCells, BestIsBest, BestIsLarge};
ghost use Rattle.layouts.specs.Laws.{BackIsInside, BackIsHalfTurn, PrintedAsItIs, LeafKeepsFold, RightToLeftIsMirror};

/// A point of a page, if its coordinates are whole numbers of points, lies on the sheet where the page's item puts it.
pub fn stands_where_put()
    ensures { StandsWherePut }
{}

/// Each page that fits into its cell lies, without its trim, within the margins of the sheet.
pub fn pages_are_inside()
    ensures { GridIsInside }
{}

/// Pages that fit into their cells are in the requested order, along rows or columns, as one reads the sheet.
pub fn pages_are_in_order()
    ensures { GridIsInOrder }
{}

/// Two pages that fit into their cells are, without their trim, at least the gap apart, even if they have different papers and scales.
pub fn pages_are_apart()
    ensures { GridIsApart }
{}

/// A page whose scale is at most the largest for its cell lies in this cell. If pages are trimmed, the part of a page inside its trim may reach past
/// the cell by at most 10^-5 of a point.
pub fn pages_are_in_cells()
    ensures { GridIsInCell }
{}

/// Each page that fits into its cell is in the middle of the cell, to within 10^-5 of a point.
pub fn pages_are_in_middle()
    ensures { GridIsInMiddle }
{}

/// If the margins leave nothing of a sheet, pages of every paper are refused.
pub fn nothing_is_left()
    ensures { NothingIsLeftOfSheet }
{}

/// The grid that is chosen for n pages has n cells or more.
pub fn best_has_cells()
    ensures { BestHasCells }
{}

/// No grid of at least n cells is better than the chosen one. Grids are compared by their scale, then by their number of cells, then by the turn of
/// their pages, then by their number of columns. A larger scale, fewer cells, upright pages and fewer columns are better.
pub fn best_is_best()
    ensures { BestIsBest }
{}

/// Suppose that the sides of a page without its trim are 11 points or longer. Then no grid of at least n cells, upright or turned, allows a scale
/// that exceeds the scale of the chosen grid by 10^-6 or more.
pub fn best_is_large()
    ensures { BestIsLarge }
{}

/// If opposite margins are equal, each page that fits into its cell lies, without its trim, within the margins of a sheet that is rotated by 180
/// degrees.
pub fn back_is_inside()
    ensures { BackIsInside }
{}

/// The back of a leaf is its front, rotated by 180 degrees about the centre of the sheet. For the centre, the sheet's sides are taken in whole 10^-5
/// of a point.
pub fn back_is_half_turn()
    ensures { BackIsHalfTurn }
{}

/// On a leaf with equal opposite margins, pages that fit into its halves don't cross the fold, because without their trim they keep half of the gap
/// away from it.
pub fn leaf_keeps_fold()
    ensures { LeafKeepsFold }
{}

/// A booklet that is bound at the right differs from one bound at the left only in the places of its pages.
pub fn right_to_left_is_mirror()
    ensures { RightToLeftIsMirror }
{}

/// A page that isn't refused lies, without its trim, within the margins and in the middle of its cell, to within 10^-5 of a point. If no scale is
/// requested, a scale that is larger by 10^-6 would be too large, unless a side of the page without its trim is under 11 points.
pub fn fitted_stands()
    ensures { FittedStands }
{}

/// Two pages in different cells, each fitted by the sides of its own paper, are at least the gap apart if their trim isn't counted.
pub fn fitted_is_apart()
    ensures { FittedIsApart }
{}

/// Pages of several papers are in the requested order, as one reads the sheet.
pub fn fitted_is_in_order()
    ensures { FittedIsInOrder }
{}

/// Pages of the paper for which the grid is chosen aren't refused in its cells.
pub fn arranged_is_fitted()
    ensures { ArrangedIsFitted }
{}

/// Pages of the paper for which leaves are bound aren't refused in the halves of a sheet, and the fold is parallel to the sheet's shorter edge. If no
/// scale is requested, no two of them side by side, upright or turned, allow a scale that is larger by 10^-6, unless a side of the page without its
/// trim is under 11 points.
pub fn bound_is_fitted()
    ensures { BoundIsFitted }
{}

/// The matrix that is written for a page in a cell is exactly the matrix of the page's item, because the shift needs no rounding.
pub fn printed_as_it_is()
    ensures { PrintedAsItIs }
{}
