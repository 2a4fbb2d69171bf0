//! Posters, which show one page over several sheets.
ghost use Rattle.std.specs.Prelude.{◌≡◌, ◌++◌, ◌+◌, ◌-◌, ◌*◌, ◌<◌, ◌≤◌, IfOk, IfErr, OnOk, Some, None};
ghost use Rattle.pagespec.specs.Items.{item_of};
ghost use Rattle.rules.specs.Numbers.{greatest_number};
ghost use Rattle.layouts.specs.Grids.{above_zero, scale_for};
ghost use Rattle.layouts.specs.Laws.{IsPaper};
ghost use Rattle.row_sheets.specs.Posters.{tile as tile_of, poster_sheets as sheets_of};
ghost use Rattle.row_sheets.specs.Posters.{most_tiles, why_no_poster, IsNoPoster, MayBePoster, laid_of, laid_item, IsNear};
ghost use Rattle.row_sheets.specs.Posters.{fewest_tiles, on_fewest, scaled_length};

use layouts::{
    HUNDRED_THOUSANDTH, MOST_ON_SHEET, distance, extent, fits_offsets, is_scale, largest_scale,
    scale_e9, slack,
};
use lengths::{Number, Paper};
use pagespec::{Item, Turn};
use sheet_plan::{MadeSheets, MadeSlot};
use std::alloc::Global;
use thiserror::Error;

/// A kind of poster: the numbers of columns and rows of its sheets, and the paper that all its sheets have.
#[derive(Clone, Copy, Debug, PartialEq, Eq)]
pub struct Poster {
    pub sheet: Paper,
    pub columns: u32,
    pub rows: u32,
    /// The margin along each edge of a sheet, in 10^-5 of a point.
    pub edge: u64,
    /// The overlap of neighbouring sheets, in 10^-5 of a point.
    pub overlap: u64,
    /// The scale of the page. If it is None, the page is as large as the sheets allow.
    pub scale: Option<Number>,
}

impl Poster {
    /// This poster with the fewest columns and the fewest rows that hold a page of this paper at the poster's scale. If the poster has no scale, the
    /// result has the scale 1. More than 1,024 columns or rows count as 1,025. There is one column if a tile isn't wider than the overlap, and one
    /// row if it isn't higher.
    pub fn on_fewest_sheets(self, page_paper: &Paper) -> Poster
        ensures { result ≡ on_fewest page_paper.now self }
    {
        let scale = self.scale.unwrap_or(Number::ONE);
        let (width, height) = (extent(self.sheet.width()), extent(self.sheet.height()));
        Poster {
            columns: self.fewest_along(width, scaled_side(extent(page_paper.width()), scale)),
            rows: self.fewest_along(height, scaled_side(extent(page_paper.height()), scale)),
            scale: Some(scale),
            ..self
        }
    }

    /// The fewest tiles that are at least `needed` long together, along sides of sheets that are `side` grains long. `needed` is in 10^-5 of a point.
    /// More than 1,024 tiles count as 1,025. The result is 1 if a tile isn't longer than the overlap.
    fn fewest_along(&self, side: u64, needed: u128) -> u32
        ensures { result ≡ fewest_tiles side self.now.edge self.now.overlap needed }
    {
        let tile = tile(side, self.edge);
        let stride = tile.saturating_sub(self.overlap);
        let Some(last) = stride.checked_sub(1) else {
            return 1;
        };
        let further = (needed.saturating_sub(u128::from(tile)) + u128::from(last))
            / u128::from(stride);
        further.min(u128::from(MOST_ON_SHEET)) as u32 + 1
    }
}

/// The length of a side of a page at this scale, rounded up to 10^-5 of a point; 0 for a negative scale. `side` is in grains.
fn scaled_side(side: u64, scale: Number) -> u128
    ensures { result ≡ scaled_length side scale }
{
    (positive(scale) * u128::from(side) + 1_269_999_999_999_999) / 1_270_000_000_000_000
}

/// The number in 10^-9, or 0 if it is negative.
fn positive(number: Number) -> u128
    ensures { result ≡ above_zero number }
{
    let billionths = number.billionths();
    if billionths < 0 {
        0
    } else {
        billionths as u128
    }
}

/// The requested scale, in 10^-9; a negative scale counts as 0. The result is `largest` if no scale is requested.
fn scale_asked(asked: Option<Number>, largest: u128) -> u128
    ensures { result ≡ scale_for asked largest }
{
    match asked {
        None => largest,
        Some(scale) => positive(scale),
    }
}

/// The reason why a poster can't be made.
#[derive(Clone, Copy, Debug, PartialEq, Eq, Error)]
pub enum PosterError {
    /// No sheet was requested, or more than 1,024.
    #[error("a poster has from 1 to 1,024 sheets")]
    TilesOutOfRange,
    /// A side of the sheets' paper, or of the whole poster, is 100,000 points long or longer.
    #[error("a side of a poster or of its sheets is 100,000 points or more")]
    SideTooLong,
    /// The part of a sheet between its margins has a side that isn't longer than the overlap.
    #[error("the margins leave no more of a sheet than the overlap")]
    NothingButOverlap,
    /// The scale of the page would be 0 or negative, or above 99,999.
    #[error("the page would be too small or too large: its scale must be from 0.000000001 to 99999")]
    ScaleOutOfRange,
    /// The page doesn't fit the sheets at the requested scale.
    #[error("the page is larger than the sheets at this scale")]
    ScaleTooLarge,
    /// There was not enough memory.
    #[error("out of memory")]
    NoMemory,
}

/// The position of a page on the tiles. `scale` is in 10^-9. `left` and `bottom` are the distances of the page from the edges of the lower left
/// sheet. `across` and `down` are the distances from tile to tile. All distances are in 10^-5 of a point.
#[derive(Clone, Copy, Debug, PartialEq, Eq)]
struct PosterFit {
    scale: u64,
    left: u64,
    bottom: u64,
    across: u64,
    down: u64,
}

/// Checks that a page of this paper can be a poster of this kind. If not, the error says why.
pub fn check_poster(poster: &Poster, page_paper: &Paper) -> Result<(), PosterError>
    ensures tiles { OnOk result (poster.now.rows * poster.now.columns ≤ most_tiles) }
    ensures edge { OnOk result (poster.now.edge ≤ 10_000_000_000) }
    ensures possible { OnOk result (why_no_poster page_paper.now poster.now ≡ None) }
    ensures fits { OnOk result (MayBePoster poster.now page_paper.now) }
    ensures refused { IfErr result (λ error. why_no_poster page_paper.now poster.now ≡ Some error) }
{
    laid_on(poster, page_paper)?;
    Ok(())
}

/// The sheets of a poster of one page, row by row from the top, each row from the left. The page has the poster's scale, or is as large as the sheets
/// allow. It lies in the middle of all sheets together. Fails with the error of `check_poster`, or with `NoMemory`.
pub fn poster_sheets(
    alloc: Global,
    poster: &Poster,
    page_paper: &Paper,
    page: u32,
) -> Result<MadeSheets, PosterError>
    ensures made { IfOk result (λ made. made ≡ sheets_of page_paper.now poster.now page) }
    ensures possible { OnOk result (why_no_poster page_paper.now poster.now ≡ None) }
    ensures refused { IfErr result (IsNoPoster (why_no_poster page_paper.now poster.now)) }
{
    let mut made = MadeSheets::new(alloc);
    push_poster(poster, page_paper, page, &mut made)?;
    Ok(made)
}

/// Adds the sheets of the poster of a page. Fails with the error of `poster_sheets`. After `NoMemory`, some of the sheets may have been added.
pub(crate) fn push_poster(
    poster: &Poster,
    page_paper: &Paper,
    page: u32,
    made: &mut MadeSheets,
) -> Result<(), PosterError>
    ensures pushed { OnOk result (made.new ≡ made.old ++ sheets_of page_paper.now poster.now page) }
    ensures possible { OnOk result (why_no_poster page_paper.now poster.now ≡ None) }
    ensures fits { OnOk result (MayBePoster poster.now page_paper.now) }
    ensures refused { IfErr result (IsNoPoster (why_no_poster page_paper.now poster.now)) }
{
    let laid = laid_on(poster, page_paper)?;
    for n in 0..poster.rows * poster.columns {
        let (column, row) = (n % poster.columns, poster.rows - (n / poster.columns + 1));
        let slots = [MadeSlot::Placed {
            page,
            item: tile_item(&laid, column, row),
            paper: *page_paper,
        }];
        made.push(&poster.sheet, &slots)
            .map_err(|_| PosterError::NoMemory)?;
    }
    Ok(())
}

/// The position of a page of this paper on the tiles. If the page can't be such a poster, the error says why.
fn laid_on(poster: &Poster, page_paper: &Paper) -> Result<PosterFit, PosterError>
    ensures value { IfOk result (λ laid. laid ≡ laid_of page_paper.now poster.now) }
    ensures tiles { IfOk result (λ laid. poster.now.rows * poster.now.columns ≤ most_tiles) }
    ensures page { OnOk result (IsPaper page_paper.now) }
    ensures edge { IfOk result (λ laid. poster.now.edge ≤ 10_000_000_000) }
    ensures possible { OnOk result (why_no_poster page_paper.now poster.now ≡ None) }
    ensures refused { IfErr result (λ error. why_no_poster page_paper.now poster.now ≡ Some error) }
{
    let tiles = u64::from(poster.rows) * u64::from(poster.columns);
    if tiles < 1 || MOST_ON_SHEET < tiles {
        return Err(PosterError::TilesOutOfRange);
    }
    if !fits_offsets(&poster.sheet) {
        return Err(PosterError::SideTooLong);
    }
    let (width, height) = (extent(poster.sheet.width()), extent(poster.sheet.height()));
    let (wide, high) = (tile(width, poster.edge), tile(height, poster.edge));
    if !(poster.overlap < wide && poster.overlap < high) {
        return Err(PosterError::NothingButOverlap);
    }
    let (across, down) = (wide - poster.overlap, high - poster.overlap);
    let whole_width = length(wide, across, poster.columns);
    let whole_height = length(high, down, poster.rows);
    if !(whole_width < 10_000_000_000 && whole_height < 10_000_000_000) {
        return Err(PosterError::SideTooLong);
    }
    let (whole_width, whole_height) = (whole_width as u64, whole_height as u64);
    let (page_width, page_height) = (extent(page_paper.width()), extent(page_paper.height()));
    let scale_across = largest_scale(whole_width, page_width);
    let largest = scale_across.min(largest_scale(whole_height, page_height));
    let asked = scale_asked(poster.scale, largest);
    if !is_scale(asked) {
        return Err(PosterError::ScaleOutOfRange);
    }
    if largest < asked {
        return Err(PosterError::ScaleTooLarge);
    }
    let scale = asked as u64;
    Ok(PosterFit {
        scale,
        left: poster.edge + slack(whole_width, page_width, scale) as u64,
        bottom: poster.edge + slack(whole_height, page_height, scale) as u64,
        across,
        down,
    })
}

/// The length that two margins of `edge` leave of a side, or 0 if they leave nothing. `side` is in grains; the other lengths are in 10^-5 of a point,
/// to which the side is rounded down.
fn tile(side: u64, edge: u64) -> u64
    ensures { result ≡ tile_of side edge }
{
    (side / HUNDRED_THOUSANDTH)
        .saturating_sub(edge)
        .saturating_sub(edge)
}

/// The length of `tiles` overlapping tiles that begin `stride` apart. All lengths are in 10^-5 of a point.
fn length(tile: u64, stride: u64, tiles: u32) -> u128
    requires { 0 < tiles }
    ensures { result ≡ (tiles - 1) * stride + tile }
{
    u128::from(tiles - 1) * u128::from(stride) + u128::from(tile)
}

/// The item that places a page on a tile. Columns are counted from 0 at the left, and rows from 0 at the bottom. Pages of one paper have the same
/// items, so made sheets can keep each item once.
fn tile_item(laid: &PosterFit, column: u32, row: u32) -> Item
    requires near { IsNear laid.now column row }
    requires scale { laid.now.scale ≤ greatest_number }
    ensures { item_of result ≡ laid_item laid.now column row }
{
    Item {
        page: 0,
        from_end: false,
        turn: Turn::None,
        scale: scale_e9(laid.scale),
        offset: (
            distance((u64::from(column) * laid.across) as i64, laid.left as i64),
            distance((u64::from(row) * laid.down) as i64, laid.bottom as i64),
        ),
    }
}
