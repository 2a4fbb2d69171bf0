//! Pages of several papers in the cells of one grid.
ghost use Rattle.std.specs.Prelude.{◌≡◌, ◌<◌, ◌≤◌, pos, IfOk, IfErr, OnOk, Some, None, false};
ghost use Rattle.pagespec.specs.Items.{item_of};
ghost use Rattle.layouts.specs.Cells.{size, scale_in as scale_of, slack_x};
ghost use Rattle.layouts.specs.Grids.{cells_per_sheet};
ghost use Rattle.layouts.specs.Refusals.{most_on_sheet, why_not_arranged, why_not_bound};
ghost use Rattle.layouts.specs.Fitted.{is_whole as is_whole_on, scale_on, fitted, fitted_back, setting_of, binding_setting_of};
ghost use Rattle.layouts.specs.Fitted.{why_no_scale_on, why_not_fitted, IsFitted, HaveOneFold};
ghost use Rattle.layouts.specs.Placed.{IsEven, IsInside};
ghost use Rattle.layouts.specs.Laws.{IsPaper, IsChosen, IsExact, IsHalfTurnOf};

use super::arrangement::{Arrangement, Binding, Order, Papers};
use super::arranging::{
    MOST_ON_SHEET, fits_offsets, is_fold_short, is_identity, is_of_size, leaf_order,
    leaves_page_visible, scale_found, sheet_in,
};
use super::best::grid_of;
use super::error::ArrangementError;
use super::grid::Grid;
use super::item::{GridLayout, scale_e9, slack, whole_page};
use super::room::Room;
use super::scale::{cell_size, scale_in, trimmed_side};
use lengths::{Number, Paper};
use pagespec::Item;

/// A sheet with the cells into which pages are fitted. Each page is fitted by the sides of its own paper. The setting has the margins and gaps, the
/// rows and columns, the order of the cells, and the requested scale, if any.
#[derive(Clone, Copy)]
pub struct Setting {
    pub room: Room,
    pub grid: Grid,
    pub order: Order,
    pub scale: Option<Number>,
}

impl Setting {
    /// The setting for an arrangement. A sheet has the requested cells, or a grid with at least the requested number of them, in which pages of the
    /// paper `papers.page` are as large as possible. Fails with `CellsOutOfRange`, `SideTooLong`, `LengthOutOfRange`, `NothingLeftOfPage`, `NoRoom`,
    /// `ScaleOutOfRange` or `ScaleTooLarge` if such pages can't be arranged in this way.
    pub fn of(papers: &Papers, arrangement: &Arrangement) -> Result<Setting, ArrangementError>
        ensures page { IsPaper papers.now.page }
        ensures sheet { IsPaper papers.now.sheet }
        ensures made { IfOk result (λ t. t ≡ setting_of papers.now.page papers.now.sheet arrangement.now) }
        ensures cells { IfOk result (λ t. cells_per_sheet arrangement.now.cells ≤ size t.grid) }
        ensures few { OnOk result (cells_per_sheet arrangement.now.cells ≤ most_on_sheet) }
        ensures chosen { IfOk result (λ t. IsChosen papers.now.page t.room arrangement.now.order.turned
            arrangement.now.cells (scale_of papers.now.page t.room t.grid) t.grid) }
        ensures possible { OnOk result (why_not_arranged papers.now.page papers.now.sheet arrangement.now ≡ None) }
        ensures refused { IfErr result (λ error.
            why_not_arranged papers.now.page papers.now.sheet arrangement.now ≡ Some error) }
    {
        let found = sheet_in(papers, &arrangement.free);
        let count = arrangement.cells.count();
        if count < 1 || MOST_ON_SHEET < count {
            return Err(ArrangementError::CellsOutOfRange);
        }
        let room = found?;
        let grid = grid_of(
            &papers.page,
            &room,
            arrangement.order.turned,
            arrangement.cells,
        );
        let setting = Setting {
            room,
            grid,
            order: arrangement.order,
            scale: arrangement.scale,
        };
        if is_identity(papers, &room, arrangement) {
            return Ok(setting);
        }
        let largest = scale_in(&papers.page, &room, grid);
        scale_found(&room, arrangement.scale, largest)?;
        Ok(setting)
    }

    /// The setting for a booklet, with the two halves of a sheet as its cells. The fold is parallel to the sheet's shorter edge, and in the same place
    /// for pages of every paper. Half of the gap is kept free on each side of it. Fails with `SideTooLong`, `LengthOutOfRange`, `NothingLeftOfPage`,
    /// `UnevenMargins`, `FoldOnLongEdge`, `NoRoom`, `ScaleOutOfRange` or `ScaleTooLarge` if pages of the paper `papers.page` can't be bound.
    pub fn of_binding(papers: &Papers, binding: &Binding) -> Result<Setting, ArrangementError>
        ensures page { IsPaper papers.now.page }
        ensures sheet { IsPaper papers.now.sheet }
        ensures made { IfOk result (λ t. t ≡ binding_setting_of papers.now.sheet binding.now) }
        ensures cells { IfOk result (λ t. size t.grid ≡ 2) }
        ensures even { IfOk result (λ t. IsEven t.room) }
        ensures folded { IfOk result (λ t. HaveOneFold t binding.now.right_to_left) }
        ensures possible { OnOk result (why_not_bound papers.now.page papers.now.sheet binding.now ≡ None) }
        ensures refused { IfErr result (λ error.
            why_not_bound papers.now.page papers.now.sheet binding.now ≡ Some error) }
    {
        let room = sheet_in(papers, &binding.free)?;
        if !room.is_even() {
            return Err(ArrangementError::UnevenMargins);
        }
        if !is_fold_short(&papers.page, &room) {
            return Err(ArrangementError::FoldOnLongEdge);
        }
        let grid = Grid::beside(true);
        let largest = scale_in(&papers.page, &room, grid);
        scale_found(&room, binding.scale, largest)?;
        Ok(Setting {
            room,
            grid,
            order: leaf_order(binding.right_to_left),
            scale: binding.scale,
        })
    }

    /// The scale of pages that have this paper: the requested scale, or else the largest that fits. Fails with `SideTooLong`, `NothingLeftOfPage`,
    /// `NoRoom`, `ScaleOutOfRange` or `ScaleTooLarge` if the pages can't have this scale.
    pub fn scale(&self, page_paper: &Paper) -> Result<Number, ArrangementError>
        ensures value { IfOk result (λ scale. scale ≡ pos (scale_on self.now page_paper.now)) }
        ensures possible { OnOk result (why_no_scale_on self.now page_paper.now ≡ None) }
        ensures refused { IfErr result (λ error. why_no_scale_on self.now page_paper.now ≡ Some error) }
    {
        let found = self.scale_found(page_paper)?;
        Ok(scale_e9(found))
    }

    /// The length that a page of this paper leaves free at each end of its cell's width, in 10^-5 of a point and rounded down. Fails with the error
    /// of `scale`.
    pub fn slack(&self, page_paper: &Paper) -> Result<u128, ArrangementError>
        ensures value { IfOk result (λ n. n
            ≡ slack_x page_paper.now self.now.room self.now.grid (scale_on self.now page_paper.now)) }
        ensures possible { OnOk result (why_no_scale_on self.now page_paper.now ≡ None) }
        ensures refused { IfErr result (λ error. why_no_scale_on self.now page_paper.now ≡ Some error) }
    {
        let scale = self.scale_found(page_paper)?;
        let (width, _) = cell_size(&self.room, self.grid);
        let counted = trimmed_side(&self.room, page_paper.width());
        Ok(slack(width, counted, scale))
    }

    /// The item that places a page of this paper in a cell. Cells are counted from 0. A single page on a sheet of its own paper is left as it is if
    /// there are no margins and no trim, no scale is requested, and pages are upright. Any other page is refused with the error of `scale` if it
    /// can't have a scale.
    pub fn item(&self, page_paper: &Paper, cell: u32) -> Result<Item, ArrangementError>
        requires { cell < size self.now.grid }
        ensures page { IsPaper page_paper.now }
        ensures sheet { IsPaper self.now.room.paper }
        ensures made { IfOk result (λ item. item_of item ≡ fitted self.now page_paper.now cell) }
        ensures fitted { IfOk result (λ item. IsFitted self.now page_paper.now cell (item_of item)) }
        ensures possible { OnOk result (why_not_fitted self.now page_paper.now ≡ None) }
        ensures refused { IfErr result (λ error. why_not_fitted self.now page_paper.now ≡ Some error) }
    {
        if self.is_whole(page_paper) {
            return Ok(whole_page(cell));
        }
        let scale = self.scale_found(page_paper)?;
        let layout = GridLayout {
            page: *page_paper,
            room: self.room,
            grid: self.grid,
            order: self.order,
            scale,
        };
        Ok(layout.item_in(cell))
    }

    /// The item that places a page of this paper in a cell of a sheet that is rotated by 180 degrees. Cells are counted from 0. The page is fitted
    /// into its cell even if the sheet has the page's own paper. Fails with the error of `scale`.
    pub fn back_item(&self, page_paper: &Paper, cell: u32) -> Result<Item, ArrangementError>
        requires { cell < size self.now.grid }
        ensures page { IsPaper page_paper.now }
        ensures sheet { IsPaper self.now.room.paper }
        ensures made { IfOk result (λ item. item_of item ≡ fitted_back self.now page_paper.now cell) }
        ensures inside { IsEven self.now.room → IfOk result (λ item. IsInside self.now.room page_paper.now (item_of item)) }
        ensures turned { is_whole_on self.now page_paper.now ≡ false → IfOk result (λ item.
            IsHalfTurnOf page_paper.now self.now.room.paper (fitted self.now page_paper.now cell) (item_of item)) }
        ensures exact { IfOk result (λ item. IsExact page_paper.now (item_of item)) }
        ensures possible { OnOk result (why_no_scale_on self.now page_paper.now ≡ None) }
        ensures refused { IfErr result (λ error. why_no_scale_on self.now page_paper.now ≡ Some error) }
    {
        let scale = self.scale_found(page_paper)?;
        let layout = GridLayout {
            page: *page_paper,
            room: self.room,
            grid: self.grid,
            order: self.order,
            scale,
        };
        Ok(layout.back_in(0, cell))
    }

    /// Whether pages of this paper are left as they are.
    fn is_whole(&self, page_paper: &Paper) -> bool
        ensures value { result ≡ is_whole_on self.now page_paper.now }
        ensures page { IsPaper page_paper.now }
        ensures sheet { IsPaper self.now.room.paper }
    {
        let same = is_of_size(page_paper, &self.room.paper);
        self.grid.size() == 1
            && same
            && self.room.has_bare_edges()
            && self.scale.is_none()
            && !self.grid.turned
    }

    /// The scale of pages that have this paper, in 10^-9. Fails with the error of `scale`.
    fn scale_found(&self, page_paper: &Paper) -> Result<u64, ArrangementError>
        ensures page { IsPaper page_paper.now }
        ensures sheet { IsPaper self.now.room.paper }
        ensures value { IfOk result (λ scale. scale ≡ scale_on self.now page_paper.now) }
        ensures possible { OnOk result (why_no_scale_on self.now page_paper.now ≡ None) }
        ensures refused { IfErr result (λ error. why_no_scale_on self.now page_paper.now ≡ Some error) }
    {
        let page = fits_offsets(page_paper);
        let sheet = fits_offsets(&self.room.paper);
        if !(page && sheet) {
            return Err(ArrangementError::SideTooLong);
        }
        if !leaves_page_visible(page_paper, &self.room) {
            return Err(ArrangementError::NothingLeftOfPage);
        }
        let largest = scale_in(page_paper, &self.room, self.grid);
        scale_found(&self.room, self.scale, largest)
    }
}
