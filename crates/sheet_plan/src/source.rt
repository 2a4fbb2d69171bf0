//! The source of a plan's sheets. The sheets of a specification aren't stored: each slot is computed when it is needed.
ghost use Rattle.std.specs.Prelude.{◌≡◌, ◌<◌, ◌≤◌, ◌⊎◌, length, Some, slice_get};
ghost use Rattle.rules.specs.Admissible.{most_slots};
ghost use Rattle.pagespec.specs.Items.{item_of};
ghost use Rattle.sheet_plan.specs.OfSheets.{IsOfSheets};
ghost use Rattle.sheet_plan.specs.Plans.{pages_on, items_on, IsSound, IsOfSpec};
ghost use Rattle.sheet_plan.specs.Sources.{plan_from, IsPlannable};

use crate::made::MadeSheets;
use crate::row::Row;
use crate::spec_expansion::{item_at, item_place};
use pagespec::Item;

/// The source of a plan's sheets: a specification for a row of pages, or sheets that a caller made for `pages` pages.
#[derive(Drop)]
pub enum PlanSource<'s> {
    Spec {
        groups: &'s [Vec<Item>],
        modulo: u32,
        row: Row,
        blocks: u32,
    },
    Made {
        pages: u32,
        made: &'s MadeSheets,
    },
}

impl<'s> PlanSource<'s> {
    pub fn pages(&self) -> u32
        requires { IsPlannable self.now }
        ensures value { result ≡ (plan_from self.now).pages }
        ensures sound { IsSound (plan_from self.now) }
        ensures origin { IsOfSpec (plan_from self.now) ⊎ IsOfSheets (plan_from self.now) }
    {
        match self {
            PlanSource::Spec { row, .. } => row.pages,
            PlanSource::Made { pages, .. } => *pages,
        }
    }

    pub fn sheets(&self) -> u32
        requires { IsPlannable self.now }
        ensures value { result ≡ length (plan_from self.now).sheets }
        ensures sound { IsSound (plan_from self.now) }
    {
        match self {
            PlanSource::Spec { groups, blocks, .. } => *blocks * groups.len() as u32,
            PlanSource::Made { made, .. } => made.len() as u32,
        }
    }

    pub fn slots(&self, sheet: u32) -> u16
        requires plannable { IsPlannable self.now }
        requires sheet { sheet < length (plan_from self.now).sheets }
        ensures value { result ≡ length (pages_on (plan_from self.now) sheet) }
        ensures some { 0 < result }
        ensures few { result ≤ most_slots }
    {
        match self {
            PlanSource::Spec { groups, .. } => {
                groups[(sheet % groups.len() as u32) as usize].len() as u16
            }
            PlanSource::Made { made, .. } => made.slots(sheet) as u16,
        }
    }

    pub fn item_of(&self, sheet: u32, slot: u16) -> &'s Item
        requires plannable { IsPlannable self.now }
        requires sheet { sheet < length (plan_from self.now).sheets }
        requires slot { slot < length (pages_on (plan_from self.now) sheet) }
        ensures value { slice_get (items_on (plan_from self.now) sheet) slot ≡ Some (item_of result.now) }
    {
        match self {
            PlanSource::Spec { groups, .. } => item_at(groups, sheet, slot),
            PlanSource::Made { made, .. } => match made.placed(sheet, u32::from(slot)) {
                Some(placed) => placed.item,
                None => made.nothing(),
            },
        }
    }

    pub fn page_of(&self, sheet: u32, slot: u16) -> Option<u32>
        requires plannable { IsPlannable self.now }
        requires sheet { sheet < length (plan_from self.now).sheets }
        requires slot { slot < length (pages_on (plan_from self.now) sheet) }
        ensures value { slice_get (pages_on (plan_from self.now) sheet) slot ≡ Some result }
    {
        match self {
            PlanSource::Spec {
                groups,
                modulo,
                row,
                blocks,
            } => {
                let item = item_at(groups, sheet, slot);
                let block = sheet / groups.len() as u32;
                let place = item_place(*modulo, *blocks, block, item);
                row.page_at(place)
            }
            PlanSource::Made { made, .. } => match made.placed(sheet, u32::from(slot)) {
                Some(placed) => Some(placed.page),
                None => None,
            },
        }
    }
}
