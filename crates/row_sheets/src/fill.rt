//! Sheets whose cells are filled with the entries of a row.
ghost use Rattle.std.specs.Prelude.{◌≡◌, ◌<◌, ◌≤◌, IfOk, IfErr, IfSome, None, OnOk, Some, length, map, slice_get, ℕ};
ghost use Rattle.std.specs.List.{range_with_len};
ghost use Rattle.rules.specs.Sheets.{blocks};
ghost use Rattle.rules.specs.Made.{Placed};
ghost use Rattle.layouts.specs.Refusals.{IsArrangementFault};
ghost use Rattle.pagespec.specs.Items.{item_of};
ghost use Rattle.sheet_plan.specs.OfSheets.{placed_of, slot_of, slots_at};
ghost use Rattle.row_sheets.specs.Filled.{behind_in, zine_place as place_in_zine};
ghost use Rattle.row_sheets.specs.Schemes.{CellFits, EntryFitsBy, FitBy, FitsBy, IsOfCell, LieAlike, MayBeFilled, StandBy, item_by, shaped, sheets_by_scheme, slot_by, why_not_in};
ghost use Rattle.row_sheets.specs.Shapes.{cell_count, cell_on, entry_in_cell, filling, shape_place as place_of, sheet_count};

use super::checked::{check_cells, check_halves};
use super::creep::{Creep, creep_on, creeping_item, half_item, is_half_turned, leaf_before};
use super::selecting::paper_or;
use layouts::{ArrangementError, FillOrder, Setting, read_sides};
use lengths::Paper;
use pagespec::Item;
use rows::entry_at;
use sheet_plan::{MadeSheets, MadeSlot, PlacedSlot};
use std::alloc::Global;

/// The ways in which the entries of a row are put into the cells of sheets.
#[derive(Clone, Copy)]
pub enum Scheme {
    /// Each sheet takes the next `cells` entries of the row.
    Grid { cells: u32 },
    /// Each sheet has one entry, in all its `cells` cells.
    Cards { cells: u32 },
    /// The row runs through one cell of all sheets before it runs through the next cell. Each sheet has `cells` cells.
    Stack { cells: u32 },
    /// As in a stack, the row runs through one cell of all leaves before it runs through the next cell. It takes both sides of each leaf, and all
    /// cells of the grid.
    Leaves,
    /// Each side of a leaf has two entries of a row in signatures. Backs are rotated by 180 degrees for printers that flip a sheet on its long edge
    /// (`turned_backs`). In each signature, pages are moved towards the fold: on the innermost leaf by `creep`, in 10^-5 of a point, and on the
    /// outermost leaf not at all. The only leaf of a signature counts as outermost. From leaf to leaf the distance grows in equal steps, rounded
    /// down.
    Booklet { turned_backs: bool, creep: u64 },
    /// A sheet is folded and cut into a booklet. It has eight entries on one side, in two rows of four cells. Pages of the upper row are rotated by
    /// 180 degrees.
    Zine,
}

/// The scheme of sheets, the number of leaves in a signature, the number of sheets, and the number of cells on each.
#[derive(Clone, Copy)]
struct Shape {
    scheme: Scheme,
    leaves: u32,
    sheets: u32,
    cells: u32,
}

/// A row whose entries fill the cells of sheets, with the setting of the sheets and the papers of the pages.
#[derive(Clone, Copy)]
struct RowFilling<'r> {
    setting: &'r Setting,
    papers: &'r [Paper],
    row: &'r [Option<u32>],
}

/// The sheets of a row in cells. If the row is in signatures, `leaves` is the number of leaves in each. A page whose paper isn't in `papers` has the
/// paper of the sheet. Fails with the error of the first page that can't be placed, or else with `NoMemory`.
pub fn fill_row(
    alloc: Global,
    setting: &Setting,
    papers: &[Paper],
    scheme: &Scheme,
    leaves: u32,
    row: &[Option<u32>],
) -> Result<MadeSheets, ArrangementError>
    requires { MayBeFilled scheme.now setting.now }
    ensures made { IfOk result (λ made. made ≡ sheets_by_scheme scheme.now (filling setting.now papers.now) leaves row.now) }
    ensures stands { IfOk result (StandBy scheme.now setting.now) }
    ensures fits { OnOk result (FitBy scheme.now (filling setting.now papers.now) leaves row.now) }
    ensures refused { IfErr result (IsArrangementFault (why_not_in scheme.now (filling setting.now papers.now) leaves row.now)) }
{
    let filling = RowFilling {
        setting,
        papers,
        row,
    };
    match filling.fill(alloc, *scheme, leaves) {
        Ok(made) => Ok(made),
        Err(_) => Err(filling.first_refusal(*scheme, leaves)),
    }
}

impl RowFilling<'_> {
    /// The sheets of the row. Fails if a page can't be placed, or if memory is refused.
    fn fill(
        &self,
        alloc: Global,
        scheme: Scheme,
        leaves: u32,
    ) -> Result<MadeSheets, ArrangementError>
        requires { MayBeFilled scheme self.now.setting.now }
        ensures made { IfOk result (λ made. made
            ≡ sheets_by_scheme scheme (filling self.now.setting.now self.now.papers.now) leaves self.now.row.now) }
        ensures stands { IfOk result (StandBy scheme self.now.setting.now) }
        ensures fits { OnOk result (FitBy scheme (filling self.now.setting.now self.now.papers.now) leaves self.now.row.now) }
    {
        let cells = cells_on(scheme, self.setting)?;
        let sheets = sheets_for(scheme, cells, self.row)?;
        let shape = Shape {
            scheme,
            leaves,
            sheets,
            cells,
        };
        let made = self.filled(alloc, shape)?;
        Ok(made)
    }

    /// The reason why the sheets can't be made: the fault of the first page in the row that can't be placed, or a lack of memory if all pages can be
    /// placed.
    fn first_refusal(&self, scheme: Scheme, leaves: u32) -> ArrangementError
        requires { MayBeFilled scheme self.now.setting.now }
        ensures { IsArrangementFault (why_not_in scheme (filling self.now.setting.now self.now.papers.now) leaves self.now.row.now) result }
    {
        match self.check(scheme, leaves) {
            Ok(()) => ArrangementError::NoMemory,
            Err(error) => error,
        }
    }

    /// Checks that each page of the row can be placed. Fails with the error of the first page that can't be placed.
    fn check(&self, scheme: Scheme, leaves: u32) -> Result<(), ArrangementError>
        requires { MayBeFilled scheme self.now.setting.now }
        ensures fits { OnOk result (why_not_in scheme (filling self.now.setting.now self.now.papers.now) leaves self.now.row.now ≡ None) }
        ensures refused { IfErr result (λ error.
            why_not_in scheme (filling self.now.setting.now self.now.papers.now) leaves self.now.row.now ≡ Some error) }
    {
        // For the prover: this call says that the grid has cells.
        let _ = self.setting.grid.size();
        match scheme {
            Scheme::Booklet { creep, .. } => {
                let creep = Creep {
                    innermost: creep,
                    leaves,
                };
                check_halves(self.setting, self.papers, creep, self.row)
            }
            Scheme::Grid { .. } | Scheme::Cards { .. } | Scheme::Stack { .. } => {
                check_cells(self.setting, self.papers, self.row)
            }
            Scheme::Leaves | Scheme::Zine => check_cells(self.setting, self.papers, self.row),
        }
    }

    /// The sheets of this shape, filled with the row. Fails if a page can't be placed, or if memory is refused.
    fn filled(&self, alloc: Global, shape: Shape) -> Result<MadeSheets, ArrangementError>
        requires may_be { MayBeFilled shape.scheme self.now.setting.now }
        requires cells { shape.cells ≡ cell_count shape.scheme self.now.setting.now }
        ensures made { IfOk result (λ made. made
            ≡ shaped shape (filling self.now.setting.now self.now.papers.now) self.now.row.now shape.sheets) }
        ensures stands { IfOk result (StandBy shape.scheme self.now.setting.now) }
        ensures fits { OnOk result ((s c : ℕ) → s < shape.sheets → c < shape.cells
            → CellFits shape (filling self.now.setting.now self.now.papers.now) self.now.row.now s c) }
    {
        let setting = self.setting;
        let mut made = MadeSheets::new(alloc);
        let mut slots = Vec::new(alloc);
        for _ in 0..shape.sheets {
            self.fill_slots(&mut slots, &made, shape)?;
            made.push(&setting.room.paper, slots.as_slice())
                .map_err(|_| ArrangementError::NoMemory)?;
        }
        Ok(made)
    }

    /// Replaces the content of `slots` with the slots of the next sheet. Fails if a page can't be placed, or if memory is refused.
    fn fill_slots(
        &self,
        slots: &mut Vec<MadeSlot>,
        made: &MadeSheets,
        shape: Shape,
    ) -> Result<(), ArrangementError>
        requires may_be { MayBeFilled shape.scheme self.now.setting.now }
        requires cells { shape.cells ≡ cell_count shape.scheme self.now.setting.now }
        requires more { length made.now < shape.sheets }
        requires made { made.now ≡ shaped shape (filling self.now.setting.now self.now.papers.now) self.now.row.now (length made.now) }
        requires fits { (s c : ℕ) → s < length made.now → c < shape.cells
            → CellFits shape (filling self.now.setting.now self.now.papers.now) self.now.row.now s c }
        ensures made { OnOk result (map slot_of slots.new.items
            ≡ map (λ c. slot_by shape.scheme (filling self.now.setting.now self.now.papers.now) shape.leaves (length made.now) c
            (entry_in_cell shape self.now.setting.now self.now.row.now (length made.now) c))
            (range_with_len 0 shape.cells)) }
        ensures fits { OnOk result ((c : ℕ) → c < shape.cells
            → CellFits shape (filling self.now.setting.now self.now.papers.now) self.now.row.now (length made.now) c) }
    {
        let s = made.len() as u32;
        slots.clear();
        for c in 0..shape.cells {
            let entry = entry_at(self.row, place(shape, self.setting, s, c));
            let before = placed_before(made, shape, s, c);
            let slot = self.slot(shape, before, entry, s, c)?;
            slots.push(slot).map_err(|_| ArrangementError::NoMemory)?;
        }
        Ok(())
    }

    /// The slot for an entry of the row, in a cell of sheet `s`. If `before`, a page that lies in the same way, has the same paper, its item is used
    /// again, which saves computing one. Fails if the page can't be placed.
    fn slot(
        &self,
        shape: Shape,
        before: Option<PlacedSlot<'_>>,
        entry: Option<u32>,
        s: u32,
        cell: u32,
    ) -> Result<MadeSlot, ArrangementError>
        requires may_be { MayBeFilled shape.scheme self.now.setting.now }
        requires cell { cell < cell_count shape.scheme self.now.setting.now }
        requires before { IsOfCell shape.scheme self.now.setting.now shape.leaves s cell (placed_of before) }
        ensures made { IfOk result (λ slot. slot_of slot
            ≡ slot_by shape.scheme (filling self.now.setting.now self.now.papers.now) shape.leaves s cell entry) }
        ensures fits { OnOk result
            (EntryFitsBy shape.scheme (filling self.now.setting.now self.now.papers.now) shape.leaves s entry) }
    {
        let Some(page) = entry else {
            return Ok(MadeSlot::Blank);
        };
        let setting = self.setting;
        let paper = paper_or(self.papers, page, &setting.room.paper);
        let item = match same_item(before, &paper) {
            Some(item) => item,
            None => item_for(shape, setting, &paper, s, cell)?,
        };
        Ok(MadeSlot::Placed { page, item, paper })
    }
}

/// The item that places a page of this paper in a cell of sheet `s`. In the first row of a zine it is rotated by 180 degrees. Fails if the page can't
/// be placed there.
fn item_for(
    shape: Shape,
    setting: &Setting,
    paper: &Paper,
    s: u32,
    cell: u32,
) -> Result<Item, ArrangementError>
    requires may_be { MayBeFilled shape.scheme setting.now }
    requires cell { cell < cell_count shape.scheme setting.now }
    ensures made { IfOk result (λ item. item_of item ≡ item_by shape.scheme setting.now shape.leaves s cell paper.now) }
    ensures fits { OnOk result (FitsBy shape.scheme setting.now shape.leaves s paper.now) }
{
    match shape.scheme {
        Scheme::Booklet {
            turned_backs,
            creep,
        } => {
            let creep = Creep {
                innermost: creep,
                leaves: shape.leaves,
            };
            let by_half = is_half_turned(turned_backs, s);
            creeping_item(setting, paper, by_half, creep_on(creep, u64::from(s)), cell)
        }
        Scheme::Zine if cell < 4 => half_item(setting, paper, true, 7 - cell),
        Scheme::Zine => half_item(setting, paper, false, cell),
        Scheme::Grid { .. } | Scheme::Cards { .. } | Scheme::Stack { .. } | Scheme::Leaves => {
            half_item(setting, paper, false, cell)
        }
    }
}

/// The number of cells on each sheet. The error is `NoMemory` if the number would be 2^32 or more.
fn cells_on(scheme: Scheme, setting: &Setting) -> Result<u32, ArrangementError>
    requires { MayBeFilled scheme setting.now }
    ensures value { IfOk result (λ cells. cells ≡ cell_count scheme setting.now) }
    ensures some { IfOk result (λ cells. 0 < cells) }
{
    match scheme {
        Scheme::Grid { cells } | Scheme::Cards { cells } | Scheme::Stack { cells } => Ok(cells),
        Scheme::Leaves => {
            u32::try_from(setting.grid.size()).map_err(|_| ArrangementError::NoMemory)
        }
        Scheme::Booklet { .. } => Ok(2),
        Scheme::Zine => Ok(8),
    }
}

/// The number of sheets that the row takes. The error is `NoMemory` if the number would be 2^32 or more.
fn sheets_for(scheme: Scheme, cells: u32, row: &[Option<u32>]) -> Result<u32, ArrangementError>
    requires { 0 < cells }
    ensures value { IfOk result (λ n. n ≡ sheet_count scheme cells (length row.now)) }
    ensures refused { IfErr result (λ error. error ≡ ArrangementError.NoMemory) }
    ensures many { IfErr result (λ error. u32.MAX < sheet_count scheme cells (length row.now)) }
{
    match scheme {
        Scheme::Grid { .. } | Scheme::Stack { .. } | Scheme::Booklet { .. } | Scheme::Zine => {
            blocks_of(row, u64::from(cells))
        }
        Scheme::Cards { .. } => blocks_of(row, 1),
        Scheme::Leaves => {
            let leaves = blocks_of(row, 2 * u64::from(cells))?;
            leaves.checked_mul(2).ok_or(ArrangementError::NoMemory)
        }
    }
}

/// The number of blocks of `entries` entries that a row takes. The error is `NoMemory` if the number would be 2^32 or more.
fn blocks_of(row: &[Option<u32>], entries: u64) -> Result<u32, ArrangementError>
    requires { 0 < entries }
    ensures value { IfOk result (λ n. n ≡ blocks entries (length row.now)) }
    ensures refused { IfErr result (λ error. error ≡ ArrangementError.NoMemory) }
    ensures many { IfErr result (λ error. u32.MAX < blocks entries (length row.now)) }
{
    let blocks = (row.len() as u128 + u128::from(entries - 1)) / u128::from(entries);
    u32::try_from(blocks).map_err(|_| ArrangementError::NoMemory)
}

/// The page in this cell of the last sheet before `s` whose pages lie in the same way. `None` if there is no such sheet, or if the cell is blank.
fn placed_before(made: &MadeSheets, shape: Shape, s: u32, cell: u32) -> Option<PlacedSlot<'_>>
    requires sheet { s ≤ length made.now }
    requires cell { (before : ℕ) → before < s → cell < length (slots_at made.now before) }
    ensures { IfSome result (λ placed. (before : ℕ) × (before < s) × LieAlike shape.scheme shape.leaves before s
        × (slice_get (slots_at made.now before) cell ≡ Some (placed_of result))) }
{
    let before = sheet_before(shape, s)?;
    made.placed(before, cell)
}

/// The sheet before `s` whose pages lie in the same way: the previous one or, in a booklet, the same side of the previous leaf if that creeps by the
/// same distance. `None` if there is no such sheet.
fn sheet_before(shape: Shape, s: u32) -> Option<u32>
    ensures { IfSome result (λ before. (before < s) × LieAlike shape.scheme shape.leaves before s) }
{
    match shape.scheme {
        Scheme::Booklet { creep, .. } => leaf_before(
            Creep {
                innermost: creep,
                leaves: shape.leaves,
            },
            s,
        ),
        Scheme::Grid { .. } | Scheme::Cards { .. } | Scheme::Stack { .. } => s.checked_sub(1),
        Scheme::Leaves | Scheme::Zine => s.checked_sub(1),
    }
}

/// The item of the page `before`, if that page has this paper. None otherwise.
fn same_item(before: Option<PlacedSlot<'_>>, paper: &Paper) -> Option<Item>
    ensures { IfSome result (λ item. (page : ℕ) × (placed_of before.entry ≡ Placed page (item_of item) paper.now)) }
{
    let placed = before?;
    if *placed.paper == *paper {
        Some(*placed.item)
    } else {
        None
    }
}

/// The index of the row's entry in cell `c` of sheet `s`. All three are counted from 0.
fn place(shape: Shape, setting: &Setting, s: u32, c: u32) -> u128
    ensures { result ≡ place_of shape setting.now s c }
{
    let (sheet, cell) = (u128::from(s), u128::from(c));
    match shape.scheme {
        Scheme::Grid { .. } => sheet * u128::from(shape.cells) + cell,
        Scheme::Cards { .. } => sheet,
        Scheme::Stack { .. } => cell * u128::from(shape.sheets) + sheet,
        Scheme::Leaves => u128::from(cell_on_side(setting, s, c)) * u128::from(shape.sheets)
            + sheet,
        Scheme::Booklet { .. } => sheet * 2 + cell,
        Scheme::Zine => sheet * u128::from(shape.cells) + zine_place(cell),
    }
}

/// The index of the zine's entry in this cell, among the eight entries of the sheet. Cells and entries are counted from 0.
fn zine_place(cell: u128) -> u128
    requires { cell < 4_294_967_296 }
    ensures { result ≡ place_in_zine cell }
{
    if cell < 4 { 4 - cell } else { (cell + 1) % 8 }
}

/// The cell `c` if sheet `s` is a front, or the cell behind `c` if the sheet is a back.
fn cell_on_side(setting: &Setting, s: u32, c: u32) -> u64
    ensures { result ≡ cell_on setting.now s c }
{
    if s % 2 == 0 {
        u64::from(c)
    } else {
        cell_on_back(setting, c) as u64
    }
}

/// The cell that lies behind cell `c` on the other side of the leaf.
fn cell_on_back(setting: &Setting, c: u32) -> u128
    ensures value { result ≡ behind_in setting.now c }
    ensures in_range { result < 18_446_744_073_709_551_616 }
{
    let (columns, rows) = read_sides(setting.order.turned, setting.grid);
    match setting.order.run {
        FillOrder::Rows => {
            u128::from(c / columns) * u128::from(columns) + u128::from(columns - (c % columns + 1))
        }
        FillOrder::Columns => {
            u128::from(u64::from(columns).saturating_sub(u64::from(c / rows) + 1))
                * u128::from(rows)
                + u128::from(c % rows)
        }
    }
}
