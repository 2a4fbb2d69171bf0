//! Laws of the sheets that are made from rows. Each function states one law in its contract, and does nothing.
ghost use Rattle.row_sheets.specs.AsDocument.{RowIsDocument};
ghost use Rattle.row_sheets.specs.BySpec.{BySpecOnAll};
ghost use Rattle.row_sheets.specs.Filled.{BehindIsMirror, CardsAreGrid, GridRunsOn};
ghost use Rattle.row_sheets.specs.Filled.{FilledIsInside, FilledIsApart, SidesAreInside, SidesAreApart, BookletIsGrid, BookletKeepsFold};
ghost use Rattle.row_sheets.specs.Creep.{CreepMoves, CreepGrows, CreepKeepsSides, NoCreepIsPlain};
ghost use Rattle.row_sheets.specs.Halves.{BookletKeepsGap, BookletLiesInHalves};
ghost use Rattle.row_sheets.specs.Bound.{BookletIsRead};
ghost use Rattle.row_sheets.specs.Stacked.{CardsAreRead, CellsLieBehind, GridIsRead, LeavesAreRead, StackIsRead};
ghost use Rattle.row_sheets.specs.Posters.{FewestHold, PosterCovers, PosterHasScale, PosterHasTiles, PosterIsInMiddle, PosterIsLarge, RowIsShown, TilesOverlap};
ghost use Rattle.row_sheets.specs.SameScale.{HaveOneScale, OneScaleStands};
ghost use Rattle.row_sheets.specs.Standing.{FilledStandsInCells};
ghost use Rattle.row_sheets.specs.Zine.{ZineIsRead, ZineLiesInCells};

/// From the row of all pages, in signatures or not, a specification makes the sheets that the rules define.
pub fn by_spec_on_all()
    ensures { BySpecOnAll }
{}

/// The entries in the cells of any number of sheets of a grid, cell by cell and sheet by sheet, are the entries of the row from the first on. Cells
/// after the end of the row are blank.
pub fn grid_runs_on()
    ensures { GridRunsOn }
{}

/// If the sheets of a grid are read cell by cell and sheet by sheet, they show the row, followed by blanks in the cells that are left over.
pub fn grid_is_read()
    ensures { GridIsRead }
{}

/// Each sheet of cards shows one entry of the row in all of its cells. The sheets show the entries in the order of the row.
pub fn cards_are_read()
    ensures { CardsAreRead }
{}

/// Sheets of cards are those of a grid whose row has a copy of each entry for each cell.
pub fn cards_are_grid()
    ensures { CardsAreGrid }
{}

/// If the sheets of a stack are cut and the piles are laid on one another, the entries are read in the order of the row.
pub fn stack_is_read()
    ensures { StackIsRead }
{}

/// If the leaves of a stack are cut, laid on one another and read on both sides, the entries are read in the order of the row.
pub fn leaves_are_read()
    ensures { LeavesAreRead }
{}

/// If the sheets of a zine are folded and cut, the entries on its leaves are read in the order of the row.
pub fn zine_is_read()
    ensures { ZineIsRead }
{}

/// If no page is refused, each page of a zine lies in its cell. The pages in the first row are upside down, and may pass their cells by 3·10^-5 pt.
pub fn zine_lies_in_cells()
    ensures { ZineLiesInCells }
{}

/// If opposite margins are equal and cells have a width and a height, the cells of a leaf lie back to back: each cell covers the cell behind it, to
/// 10^-5 of a point for each column.
pub fn cells_lie_behind()
    ensures { CellsLieBehind }
{}

/// The cell behind a cell is in the same row, and as many columns from the right as the cell itself is from the left.
pub fn behind_is_mirror()
    ensures { BehindIsMirror }
{}

/// If no page is refused, each placed page, without its trim, lies within the margins of its sheet, whatever the paper of the page.
pub fn filled_is_inside()
    ensures { FilledIsInside }
{}

/// If no page is refused, two placed pages of a sheet, without their trim, are at least the gap apart, whatever their papers.
pub fn filled_is_apart()
    ensures { FilledIsApart }
{}

/// If no page is refused, each page that is placed on a sheet of two cells or more, without its trim, lies within the sheet's margins. If the sheet
/// is rotated by 180 degrees, its opposite margins have to be equal.
pub fn sides_are_inside()
    ensures { SidesAreInside }
{}

/// If no page is refused, two pages that are placed on a sheet, without their trim, are at least the gap apart, even if the sheet is rotated by 180
/// degrees.
pub fn sides_are_apart()
    ensures { SidesAreApart }
{}

/// If no page is refused, the pages on the sides of a booklet's leaves, without their trim, don't cross the fold, which is the same line for pages of
/// every paper.
pub fn booklet_keeps_fold()
    ensures { BookletKeepsFold }
{}

/// The sides of a booklet without rotated backs are a grid with two cells.
pub fn booklet_is_grid()
    ensures { BookletIsGrid }
{}

/// A page on a leaf that creeps lies where it would lie without creep, but moved towards the fold.
pub fn creep_moves()
    ensures { CreepMoves }
{}

/// In a signature of two leaves or more, pages on the outermost leaf aren't moved, and pages on the innermost leaf are moved by the whole creep.
/// Pages on each leaf are moved at most as far as pages on the next leaf towards the middle.
pub fn creep_grows()
    ensures { CreepGrows }
{}

/// Suppose that opposite margins are equal, and that the pages of a leaf fit into its halves and have room for the creep. Then the pages, without
/// their trim, don't cross the leaf's fold.
pub fn creep_keeps_sides()
    ensures { CreepKeepsSides }
{}

/// A booklet whose leaves don't creep is the plain booklet, and is refused with the same error.
pub fn no_creep_is_plain()
    ensures { NoCreepIsPlain }
{}

/// If no page is refused, each page of a booklet, without its trim, lies in its half of a leaf. Apart from the creep, it lies in the middle of that
/// half.
pub fn booklet_lies_in_halves()
    ensures { BookletLiesInHalves }
{}

/// If no page is refused, the two pages on a side of a leaf are apart by at least the gap less twice the creep of the leaf. Their trim isn't counted.
pub fn booklet_keeps_gap()
    ensures { BookletKeepsGap }
{}

/// If the leaves of a booklet are folded, put into one another and bound at either side, the booklet is read in the order of its row.
pub fn booklet_is_read()
    ensures { BookletIsRead }
{}

/// If the tiles of a poster are longer and wider than their overlap, each point of the poster's page is shown on some tile.
pub fn poster_covers()
    ensures { PosterCovers }
{}

/// Where neighbouring tiles of a poster overlap, they show the same part of the page.
pub fn tiles_overlap()
    ensures { TilesOverlap }
{}

/// The page of a poster without a requested scale is as large as the tiles allow. A scale that is larger by 10^-6 for each column and each row of
/// tiles would be too large, unless a side of the page is under 11 points.
pub fn poster_is_large()
    ensures { PosterIsLarge }
{}

/// If a poster with a requested scale isn't refused, its page has this scale on each of its tiles.
pub fn poster_has_scale()
    ensures { PosterHasScale }
{}

/// Suppose that tiles are longer and wider than their overlap. Then the grid that is found for a scale holds the page at this scale, unless more than
/// 1,024 columns or rows are needed. A grid with fewer columns or fewer rows doesn't hold the page.
pub fn fewest_hold()
    ensures { FewestHold }
{}

/// The middle of a poster's page is the middle of all its tiles together, to 10^-5 of a point.
pub fn poster_is_in_middle()
    ensures { PosterIsInMiddle }
{}

/// A poster that isn't refused has tiles that are longer and wider than their overlap.
pub fn poster_has_tiles()
    ensures { PosterHasTiles }
{}

/// If no page of a row is refused as a poster, each point of each page is shown on one of the sheets of that page.
pub fn row_is_shown()
    ensures { RowIsShown }
{}

/// If no page is refused, each page is fitted into its cell, and the cells of a sheet are read in the order in which they are filled.
pub fn filled_stands_in_cells()
    ensures { FilledStandsInCells }
{}

/// If the pages of a row have one scale, it is the least of the scales that the pages would have on their own.
pub fn have_one_scale()
    ensures { HaveOneScale }
{}

/// If the pages of a row have one scale, each page lies in its cell.
pub fn one_scale_stands()
    ensures { OneScaleStands }
{}

/// With the same cells, a row of pages is laid out in the same way as all pages of a document that consists of these pages.
pub fn row_is_document()
    ensures { RowIsDocument }
{}
