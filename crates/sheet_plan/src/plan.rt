//! The plan of the sheets on which pages are placed.
ghost use Rattle.std.specs.Prelude.{◌≡◌, ℕ, ◌+◌, ◌*◌, ◌<◌, ◌≤◌, ◌⊎◌, if◌then◌else◌, length, map, Ok, OnOk, IfOk, IfErr};
ghost use Rattle.std.specs.Prelude.{Some, slice_get};
ghost use Rattle.std.specs.Int.{bit_at};
ghost use Rattle.std.specs.List.{range_with_len};
ghost use Rattle.rules.specs.Admissible.{most_slots};
ghost use Rattle.rules.specs.Run.{plan_of, plan_in};
ghost use Rattle.rules.specs.Sheets.{layout, sheets};
ghost use Rattle.rules.specs.Signatures.{AreSides, AreSidesIfGiven, sheets_in};
ghost use Rattle.pagespec.specs.Items.{item_of};
ghost use Rattle.sheet_plan.specs.Plans.{planned, planned_in, pages_on, items_on, slot_groups, needs_page, IsSound};
ghost use Rattle.rules.specs.MadePlans.{made_plan_of, made_layout};
ghost use Rattle.sheet_plan.specs.Plans.{IsOfSpec};
ghost use Rattle.sheet_plan.specs.OfSheets.{made_plan, IsOfSheets};
ghost use Rattle.sheet_plan.specs.MadeRefusals.{RefusesMade};
ghost use Rattle.sheet_plan.specs.Places.{places_of, born_complete};
ghost use Rattle.sheet_plan.specs.Laws.{ArePlaces, AreWithoutPages};
ghost use Rattle.sheet_plan.specs.Refusals.{RefusesPlan, RefusesIn};
ghost use Rattle.sheet_plan.specs.Sources.{plan_from, IsPlannable};

use crate::blank_sheets::blank_sheets_in;
use crate::error::{MadeError, PlanError};
use crate::index::PageIndex;
use crate::made::MadeSheets;
use crate::placed::placed_pages;
use crate::row::Row;
use crate::source::PlanSource;
use pagespec::{Item, Spec};
use std::alloc::{AllocError, Global};
use std::fmt;
use std::marker::Model;

/// A plan says which page is in which slot of which sheet, and by which item the page is placed. It also lists the slots that each page is in. Pages,
/// sheets, slots and the entries of a row are counted from 0.
///
/// A specification with modulo m and G groups takes n pages as a row of `M = m * ceil(n / m)` entries, which are blank from entry n on. It makes
/// `G * M / m` sheets: sheet `b * G + g` is group g in block b. On this sheet, an item with page number p names entry `b * m + p`. If the item has a
/// minus, it names entry `M - (b + 1) * m + p`.
///
/// In signatures of s sides the pages are first put into psbook's order. The row then has `s * ceil(n / s)` entries, and those for page n and above
/// are blank. M is computed from this length in place of n, and any further entries are blank.
#[derive(Drop)]
pub struct Plan<'s> {
    source: PlanSource<'s>,
    index: PageIndex,
    blank_sheets: Vec<u32>,
}

impl<'s> Model for Plan<'s> {
    ghost use Rattle.rules.specs.Sheets.{Plan};

    ghost Value = { Plan };

    ghost use Rattle.std.specs.Prelude.{◌≡◌, map};
    ghost use Rattle.std.specs.List.{range_with_len};
    ghost use Rattle.rules.specs.Sheets.{layout};
    ghost use Rattle.sheet_plan.specs.Places.{places_of, born_complete};
    ghost use Rattle.sheet_plan.specs.Sources.{plan_from, IsPlannable};

    ghost view = { λ p. plan_from p.source };

    ghost invariant = { λ p.
        (p.index ≡ map (places_of (layout (plan_from p.source))) (range_with_len 0 (plan_from p.source).pages))
        × (p.blank_sheets.items ≡ born_complete (layout (plan_from p.source)))
        × IsPlannable p.source };
}

impl<'s> Plan<'s> {
    /// Plans the sheets of a specification. Fails with the first limit that the sheets exceed, in the order of `PlanError`, or with `NoMemory`. The
    /// limits are tested before any memory is requested.
    pub fn new(alloc: Global, spec: &'s Spec, pages: u32) -> Result<Plan<'s>, PlanError>
        ensures planned { IfOk result (λ plan. plan ≡ planned spec.now pages) }
        ensures accepted { OnOk result (plan_of spec.now pages ≡ Ok (sheets spec.now pages)) }
        ensures refused { IfErr result (RefusesPlan spec.now pages) }
    {
        Plan::over(alloc, spec, Row { pages, sides: None })
    }

    /// Plans the sheets of a specification for pages in signatures. Each signature has `sides` sides, a positive multiple of four up to 1,000,000.
    /// Fails as `new` does, but the limit of pages is tested on the length of the row, in which the last signature is filled up with blanks.
    pub fn with_signatures(
        alloc: Global,
        spec: &'s Spec,
        pages: u32,
        sides: u32,
    ) -> Result<Plan<'s>, PlanError>
        requires { AreSides sides }
        ensures planned { IfOk result (λ plan. plan ≡ planned_in (Some sides) spec.now pages) }
        ensures accepted { OnOk result (plan_in (Some sides) spec.now pages
            ≡ Ok (sheets_in (Some sides) spec.now pages)) }
        ensures refused { IfErr result (RefusesIn (Some sides) spec.now pages) }
    {
        Plan::over(
            alloc,
            spec,
            Row {
                pages,
                sides: Some(sides),
            },
        )
    }

    /// Plans sheets that a caller made, for this number of pages. Fails with the first fault of the sheets, in the order of `MadeError`, or with
    /// `NoMemory`. The faults are looked for before any memory is requested.
    pub fn of_sheets(
        alloc: Global,
        pages: u32,
        sheets: &'s MadeSheets,
    ) -> Result<Plan<'s>, MadeError>
        ensures planned { IfOk result (λ plan. plan ≡ made_plan pages sheets.now) }
        ensures layout { IfOk result (λ plan. layout plan ≡ made_layout pages sheets.now) }
        ensures accepted { OnOk result (made_plan_of pages sheets.now ≡ Ok sheets.now) }
        ensures refused { IfErr result (RefusesMade pages sheets.now) }
    {
        let source = PlanSource::of_sheets(pages, sheets)?;
        let (index, blank_sheets) = listed(alloc, &source).map_err(|_| MadeError::NoMemory)?;
        Ok(Plan {
            source,
            index,
            blank_sheets,
        })
    }

    /// Plans the sheets of a specification for a row of pages. Fails with the first limit that the sheets exceed, in the order of `PlanError`, or
    /// with `NoMemory`.
    fn over(alloc: Global, spec: &'s Spec, row: Row) -> Result<Plan<'s>, PlanError>
        requires { AreSidesIfGiven row.sides }
        ensures planned { IfOk result (λ plan. plan ≡ planned_in row.sides spec.now row.pages) }
        ensures accepted { OnOk result (plan_in row.sides spec.now row.pages
            ≡ Ok (sheets_in row.sides spec.now row.pages)) }
        ensures refused { IfErr result (RefusesIn row.sides spec.now row.pages) }
    {
        let source = PlanSource::of_spec(spec, row)?;
        let (index, blank_sheets) = listed(alloc, &source).map_err(|_| PlanError::NoMemory)?;
        Ok(Plan {
            source,
            index,
            blank_sheets,
        })
    }

    /// The number of pages, without the blanks that fill up the last signature.
    pub fn pages(&self) -> u32
        ensures value { result ≡ self.now.pages }
        ensures sound { IsSound self.now }
        ensures origin { IsOfSpec self.now ⊎ IsOfSheets self.now }
    {
        self.source.pages()
    }

    /// The number of sheets.
    pub fn sheets(&self) -> u32
        ensures value { result ≡ length self.now.sheets }
        ensures sound { IsSound self.now }
    {
        self.source.sheets()
    }

    /// The number of slots on a sheet, including blank ones. It is from 1 to 4,096.
    pub fn slots(&self, sheet: u32) -> u16
        requires { sheet < length self.now.sheets }
        ensures value { result ≡ length (pages_on self.now sheet) }
        ensures some { 0 < result }
        ensures few { result ≤ most_slots }
    {
        self.source.slots(sheet)
    }

    /// The page in a slot, or None if the slot is blank.
    pub fn page_of(&self, sheet: u32, slot: u16) -> Option<u32>
        requires sheet { sheet < length self.now.sheets }
        requires slot { slot < length (pages_on self.now sheet) }
        ensures value { slice_get (pages_on self.now sheet) slot ≡ Some result }
    {
        self.source.page_of(sheet, slot)
    }

    /// The item of a slot, by which the slot's page is placed. A blank slot has an item as well.
    pub fn item_of(&self, sheet: u32, slot: u16) -> &'s Item
        requires sheet { sheet < length self.now.sheets }
        requires slot { slot < length (pages_on self.now sheet) }
        ensures value { slice_get (items_on self.now sheet) slot ≡ Some (item_of result.now) }
    {
        self.source.item_of(sheet, slot)
    }

    /// The slots of a slot group that have a page: bit j is set if slot `64 * group + j` has a page. A slot group is 64 neighbouring slots of a
    /// sheet; the last group has the remaining slots. So a sheet of up to 64 slots has only group 0.
    pub fn missing_at_start(&self, sheet: u32, group: u8) -> u64
        requires sheet { sheet < length self.now.sheets }
        requires group { group < slot_groups self.now sheet }
        ensures bits { (j : ℕ) → j < 64
            → bit_at result j ≡ (if needs_page self.now sheet (64 * group + j) then 1 else 0) }
    {
        let first = 64 * u16::from(group);
        let end = self.slots(sheet).min(first + 64);
        let mut missing = 0u64;
        for slot in first..end {
            if self.page_of(sheet, slot).is_some() {
                missing |= 1 << (slot - first);
            }
        }
        missing
    }

    /// All places of a page, each with its sheet and its slot. They ascend by sheet, then by slot.
    pub fn slots_of_page(&self, page: u32) -> &[(u32, u16)]
        requires { page < self.now.pages }
        ensures value { result.now ≡ places_of (layout self.now) page }
        ensures exact { ArePlaces (layout self.now) page result.now }
    {
        self.index.of_page(page)
    }

    /// The sheets whose slots are all blank, in ascending order.
    pub fn born_complete(&self) -> &[u32]
        ensures value { result.now ≡ born_complete (layout self.now) }
        ensures exact { AreWithoutPages (layout self.now) result.now }
    {
        self.blank_sheets.as_slice()
    }
}

/// The places of each page, and the sheets that have no pages.
fn listed(alloc: Global, source: &PlanSource) -> Result<(PageIndex, Vec<u32>), AllocError>
    requires { IsPlannable source.now }
    ensures index { IfOk result (λ x.
        x.0 ≡ map (places_of (layout (plan_from source.now))) (range_with_len 0 (plan_from source.now).pages)) }
    ensures blank_sheets { IfOk result (λ x. x.1.items ≡ born_complete (layout (plan_from source.now))) }
{
    let placed = placed_pages(alloc, source)?;
    let index = PageIndex::new(alloc, source.pages(), &placed)?;
    let blank_sheets = blank_sheets_in(alloc, source)?;
    Ok((index, blank_sheets))
}

impl fmt::Debug for Plan<'_> {
    fn fmt<W: fmt::Write>(&self, f: &mut fmt::Formatter<W>) -> fmt::Result {
        f.debug_struct("Plan")
            .field("pages", &self.pages())
            .field("sheets", &self.sheets())
            .finish_non_exhaustive()
    }
}
