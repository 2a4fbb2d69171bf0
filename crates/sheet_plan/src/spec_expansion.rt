//! The sheets that a specification makes from a row of pages. Blocks are counted from the start or, for items with a minus, from the end of the row.
//! The sheets aren't stored: each slot is computed when it is needed.
ghost use Rattle.std.specs.Prelude.{◌≡◌, ◌≢◌, ℕ, ◌+◌, ◌-◌, ◌*◌, ◌^◌, ◌<◌, ◌≤◌, length, Some, Ok, Err, OnOk, IfOk, IfErr};
ghost use Rattle.std.specs.Prelude.{slice_get, slice_index_or, sum_by, [], ◌%◌};
ghost use Rattle.rules.specs.Admissible.{most_groups};
ghost use Rattle.rules.specs.Run.{plan_in};
ghost use Rattle.rules.specs.Sheets.{blocks as blocks_of, place};
ghost use Rattle.rules.specs.Signatures.{AreSidesIfGiven, sheets_in};
ghost use Rattle.pagespec.specs.Items.{item_of, groups_of};
ghost use Rattle.sheet_plan.specs.Plans.{planned_in};
ghost use Rattle.sheet_plan.specs.Refusals.{RefusesIn};
ghost use Rattle.sheet_plan.specs.Sources.{plan_from, IsPlannable};

use crate::error::PlanError;
use crate::row::Row;
use crate::source::PlanSource;
use pagespec::{Item, Spec};

const MOST_PAGES: u64 = 1_000_000;

const MOST_SHEETS: u64 = 1_000_000;

const MOST_PLACES: u64 = 4_000_000;

/// The number of slots on all sheets of a block.
fn slots_in_block(groups: &[Vec<Item>]) -> u64
    requires { sum_by length (groups_of groups.now) < 2 ^ 64 }
    ensures { result ≡ sum_by length (groups_of groups.now) }
{
    let mut slots = 0u64;
    for group in groups {
        slots += group.len() as u64;
    }
    slots
}

/// The item of a slot. Each group has one sheet in each block.
pub(crate) fn item_at<'s>(groups: &'s [Vec<Item>], sheet: u32, slot: u16) -> &'s Item
    requires some { 0 < length groups.now }
    requires few { length groups.now ≤ most_groups }
    requires slot { slot < length (slice_index_or (groups_of groups.now) (sheet % length groups.now) []) }
    ensures { slice_get (slice_index_or (groups_of groups.now) (sheet % length groups.now) []) slot
        ≡ Some (item_of result.now) }
{
    let group = &groups[(sheet % groups.len() as u32) as usize];
    &group[slot as usize]
}

/// The index of the row's entry that an item names in a block. Entries and blocks are counted from 0.
pub(crate) fn item_place(modulo: u32, blocks: u32, block: u32, item: &Item) -> u32
    requires fits { modulo * blocks < 2 ^ 32 }
    requires block { block < blocks }
    requires page { item.now.page < modulo }
    ensures { (n : ℕ) → blocks ≡ blocks_of modulo n → result ≡ place modulo n block (item_of item.now) }
{
    if item.from_end {
        modulo * blocks - (block + 1) * modulo + item.page
    } else {
        block * modulo + item.page
    }
}

impl<'s> PlanSource<'s> {
    /// The source of a plan for the sheets of a specification. Fails with the first limit that the sheets exceed, in the order of `PlanError`.
    pub fn of_spec(spec: &'s Spec, row: Row) -> Result<PlanSource<'s>, PlanError>
        requires { AreSidesIfGiven row.sides }
        ensures value { IfOk result (λ s. plan_from s ≡ planned_in row.sides spec.now row.pages) }
        ensures plannable { IfOk result IsPlannable }
        ensures accepted { OnOk result (plan_in row.sides spec.now row.pages
            ≡ Ok (sheets_in row.sides spec.now row.pages)) }
        ensures refused { IfErr result (RefusesIn row.sides spec.now row.pages) }
        ensures no_growth { result ≢ Err PlanError.NoMemory }
    {
        let entries = row.len();
        if entries > MOST_PAGES {
            return Err(PlanError::TooManyPages);
        }
        let groups = spec.groups();
        let modulo = spec.modulo();
        let blocks = (entries as u32).div_ceil(modulo);
        if u64::from(blocks) * groups.len() as u64 > MOST_SHEETS {
            return Err(PlanError::TooManySheets);
        }
        if u64::from(blocks) * slots_in_block(groups) > MOST_PLACES {
            return Err(PlanError::TooManyPlaces);
        }
        Ok(PlanSource::Spec {
            groups,
            modulo,
            row,
            blocks,
        })
    }
}
