//! Laws of the sheets that a row makes. Each function states one law in its contract, and does nothing.
ghost use Rattle.row_runs.specs.InPlaces.{AskedStandInPlaces};
ghost use Rattle.row_runs.specs.ReadAsBound.{AskedIsRead};
ghost use Rattle.row_runs.specs.SwappedMargins.{FittedAreInPoints, SwappedStands};
ghost use Rattle.row_runs.specs.Turning.{TurnedStands, TurnsAddUp};
ghost use Rattle.row_runs.specs.NumbersLie.{NumbersInCells, NumbersInHalves};
ghost use Rattle.row_runs.specs.Written.{NothingIsMoved, TurnedStaysInCell, UprightIsUnturned, WrittenAreRead, WrittenInCells, WrittenInPlaces, WrittenIsBound, WrittenKeepRoom, WrittenStand};

/// On sheets as they are laid, pages on grids, cards, stacks and leaves are fitted into their cells, in reading order. Stacks and leaves are in the order of the row once their sheets
/// are cut and piled, and zines once their sheets are folded and cut. The fold marks of a booklet whose halves have room for pages are on its fold.
/// Each point of a page that is made into a poster is on at least one of the page's sheets.
pub fn asked_stand_in_places()
    ensures { AskedStandInPlaces }
{}

/// A booklet is read in the order of the chosen row, once its leaves are folded, put into one another and bound.
pub fn asked_is_read()
    ensures { AskedIsRead }
{}

/// Two quarter turns of a page to the left are a half turn, three are a quarter turn to the right, and four leave the page as it was.
pub fn turns_add_up()
    ensures { TurnsAddUp }
{}

/// Suppose that the offset of a page is in points. Then each point of the page, once turned, lies where a page of the turned paper would have it, to
/// within 10^-5 pt.
pub fn turned_stands()
    ensures { TurnedStands }
{}

/// If pages lie between the margins of a sheet and apart from each other, they still do so after left and right margins are exchanged on backs
/// (`stands`). This law needs offsets in points, which pages on a grid have (`points`).
pub fn swapped_stands()
    ensures stands { SwappedStands }
    ensures points { FittedAreInPoints }
{}

/// If no margins are exchanged on backs and no page is turned, sheets are written as they are laid.
pub fn written_as_laid()
    ensures moved { NothingIsMoved }
    ensures turned { UprightIsUnturned }
{}

/// A page that lies in a cell still lies there when it is turned, if its offset is a whole multiple of 10^-5 of a point. If pages are trimmed, it may
/// reach 10^-5 of a point farther past the cell than before.
pub fn turned_stays_in_cell()
    ensures { TurnedStaysInCell }
{}

/// The places of pages on the sheets that are written. If no page is turned, pages lie between the margins of their side, and apart from each other
/// or off a booklet's fold (`stand`). If no margins are exchanged either, these sheets have the places that `asked_stand_in_places` states
/// (`places`). Whether turned or not, each page lies in its cell but for rounding (`cells`). If nothing is trimmed and no page of any paper would be a whole
/// sheet, pages lie between the margins and apart from each other, except on zines (`room`). Cells, stacks and zines (`read`) and booklets (`bound`) are
/// read in the order of the row.
pub fn written_keeps_place()
    ensures stand { WrittenStand }
    ensures places { WrittenInPlaces }
    ensures cells { WrittenInCells }
    ensures room { WrittenKeepRoom }
    ensures read { WrittenAreRead }
    ensures bound { WrittenIsBound }
{}

/// The number of a page is centred at the foot of the page's cell. In a booklet the cells are the halves of a sheet's side.
pub fn numbers_lie_in_cells()
    ensures cells { NumbersInCells }
    ensures halves { NumbersInHalves }
{}
