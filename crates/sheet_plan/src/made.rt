//! Sheets that a caller makes, and how they are kept.
ghost use Rattle.std.specs.Prelude.{◌≡◌, ◌≢◌, ◌+◌, ◌<◌, ◌≤◌, ◌++◌, ◌∷◌, [], length, map, sum_by, All, OnOk, OnErr, IfOk};
ghost use Rattle.std.specs.Prelude.{ℕ, ◌↔◌, IfSome, IsNone, IsTrue, Some, slice_get};
ghost use Rattle.rules.specs.MadePlans.{slot_count};
ghost use Rattle.pagespec.specs.Items.{item_of};
ghost use Rattle.sheet_plan.specs.Nothing.{nothing as no_item};
ghost use Rattle.sheet_plan.specs.OfSheets.{slot_of, slots_at, placed_of};
ghost use Rattle.sheet_plan.specs.Store.{Begins, IsGrown, slots_end, slots_start, added_to, is_named};

use lengths::{Number, Paper};
use pagespec::{Item, Measure, Turn};
use std::alloc::{AllocError, Global};
use std::marker::Model;

/// The number of placings at the start of the list with which `find_placing` compares a placing. It compares the one at index `near` before them.
const FEW: u32 = 64;

/// The item of a blank slot. It places nothing.
const NOTHING: Item = Item {
    page: 0,
    from_end: false,
    turn: Turn::None,
    scale: Number::ONE,
    offset: (Measure::ZERO, Measure::ZERO),
};

/// A slot of a sheet. It is blank, or has a page of the document with its item and its paper. The page number in the item has no meaning here. The
/// page is clipped to the edges of this paper. A border runs along these edges, or at its inset inside them.
#[derive(Clone, Copy)]
pub enum MadeSlot {
    Blank,
    Placed { page: u32, item: Item, paper: Paper },
}

/// A page in a slot of a sheet, with its item and its paper.
#[derive(Clone, Copy)]
pub struct PlacedSlot<'m> {
    pub page: u32,
    pub item: &'m Item,
    pub paper: &'m Paper,
}

/// The way in which a page is placed on a sheet: its item and its paper. Sheets often have the same placings, so a placing isn't stored in each slot
/// that uses it.
#[derive(Clone, Copy, PartialEq, Eq)]
pub struct Placing {
    pub item: Item,
    pub paper: Paper,
}

/// A slot as it is kept: its page, and the number of its placing, counted from 1. The number 0 means a blank slot.
#[derive(Clone, Copy)]
pub struct KeptSlot {
    pub page: u32,
    pub placing: u32,
}

/// A sheet as it is kept: the index at which its slots end, and the index of the placing that has its paper.
#[derive(Clone, Copy)]
pub struct KeptSheet {
    pub end: u32,
    pub paper: u32,
}

/// Sheets with their slots, each sheet with its own paper. They take 8 bytes for each slot, 8 bytes for each sheet, and memory for the placings.
#[derive(Drop)]
pub struct MadeSheets {
    sheets: Vec<KeptSheet>,
    slots: Vec<KeptSlot>,
    placings: Vec<Placing>,
    nothing: Item,
}

impl Model for MadeSheets {
    ghost use Rattle.std.specs.Prelude.{◌≡◌, List};
    ghost use Rattle.rules.specs.Made.{MadeSheet};
    ghost use Rattle.pagespec.specs.Items.{item_of};
    ghost use Rattle.sheet_plan.specs.Nothing.{nothing as no_item};
    ghost use Rattle.sheet_plan.specs.Store.{sheets_from, AreKept};

    ghost Value = { List MadeSheet };

    ghost view = { λ m. sheets_from m.placings.items m.slots.items 0 m.sheets.items };

    ghost invariant = { λ m. AreKept m.placings.items m.slots.items m.sheets.items
        × (item_of m.nothing ≡ no_item) };
}

impl MadeSheets {
    /// No sheets. This takes no memory.
    pub fn new(alloc: Global) -> MadeSheets
        ensures { result ≡ [] }
    {
        MadeSheets {
            sheets: Vec::new(alloc),
            slots: Vec::new(alloc),
            placings: Vec::new(alloc),
            nothing: NOTHING,
        }
    }

    /// No sheets, with memory reserved for these numbers of sheets and slots. Fails only if memory is refused.
    pub fn with_room(alloc: Global, sheets: usize, slots: usize) -> Result<MadeSheets, AllocError>
        ensures { IfOk result (λ made. made ≡ []) }
    {
        Ok(MadeSheets {
            sheets: Vec::with_capacity(alloc, sheets)?,
            slots: Vec::with_capacity(alloc, slots)?,
            placings: Vec::new(alloc),
            nothing: NOTHING,
        })
    }

    /// Adds a sheet at the end. Nothing is added if memory is refused, or if there would be more slots or placings than a `u32` can count.
    pub fn push(&mut self, paper: &Paper, slots: &[MadeSlot]) -> Result<(), AllocError>
        ensures pushed { OnOk result (self.new ≡ self.old
            ++ record { paper = paper.now; slots = map slot_of slots.now } ∷ []) }
        ensures unchanged { OnErr result (self.new ≡ self.old) }
    {
        let start = last_end(self.sheets.as_slice());
        self.slots.truncate(start as usize);
        let placing = Placing {
            item: self.nothing,
            paper: *paper,
        };
        let paper = keep_placing(&mut self.placings, 0, &placing)?;
        keep_slots(&mut self.placings, &mut self.slots, slots)?;
        let end = count_in_u32(self.slots.len())?;
        self.sheets.push(KeptSheet { end, paper })?;
        Ok(())
    }

    /// The number of sheets.
    pub fn len(&self) -> usize
        ensures { result ≡ length self.now }
    {
        let sheets = self.sheets.as_slice();
        sheets.len()
    }

    /// The number of slots on all sheets, including blank ones.
    pub fn places(&self) -> u32
        ensures { result ≡ sum_by slot_count self.now }
    {
        let sheets = self.sheets.as_slice();
        last_end(sheets)
    }

    /// The number of slots on a sheet, including blank ones.
    pub fn slots(&self, sheet: u32) -> u32
        requires { sheet < length self.now }
        ensures { result ≡ length (slots_at self.now sheet) }
    {
        let sheets = self.sheets.as_slice();
        let kept = sheet_at(sheets, sheet);
        let start = start_at(sheets, sheet);
        kept.end - start
    }

    /// The paper of a sheet.
    pub fn paper(&self, sheet: u32) -> &Paper
        requires { sheet < length self.now }
        ensures { slice_get (map (λ s. s.paper) self.now) sheet ≡ Some result.now }
    {
        let sheets = self.sheets.as_slice();
        let placings = self.placings.as_slice();
        let kept = sheet_at(sheets, sheet);
        let placing = placing_at(placings, kept.paper);
        &placing.paper
    }

    /// The page in a slot and how it is placed, or None if the slot is blank.
    pub fn placed(&self, sheet: u32, slot: u32) -> Option<PlacedSlot<'_>>
        requires sheet { sheet < length self.now }
        requires slot { slot < length (slots_at self.now sheet) }
        ensures { slice_get (slots_at self.now sheet) slot ≡ Some (placed_of result) }
    {
        let sheets = self.sheets.as_slice();
        let slots = self.slots.as_slice();
        let placings = self.placings.as_slice();
        let start = start_at(sheets, sheet);
        let at = start as usize + slot as usize;
        let kept = slot_at(slots, at);
        if kept.placing == 0 {
            return None;
        }
        let placing = placing_at(placings, kept.placing - 1);
        Some(PlacedSlot {
            page: kept.page,
            item: &placing.item,
            paper: &placing.paper,
        })
    }

    /// The item of a blank slot.
    pub(crate) fn nothing(&self) -> &Item
        ensures { item_of result.now ≡ no_item }
    {
        &self.nothing
    }
}

/// The index at which the slots of the last sheet end. It is 0 if there are no sheets.
fn last_end(sheets: &[KeptSheet]) -> u32
    ensures { result ≡ slots_end 0 sheets.now }
{
    match sheets.last() {
        Some(sheet) => sheet.end,
        None => 0,
    }
}

/// The index at which the slots of a sheet begin.
fn start_at(sheets: &[KeptSheet], sheet: u32) -> u32
    requires { sheet < length sheets.now }
    ensures { result ≡ slots_start 0 sheets.now sheet }
{
    if sheet == 0 {
        return 0;
    }
    let before = sheet_at(sheets, sheet - 1);
    before.end
}

/// The sheet with index `k`. This function and the next two give proofs a name for the value that they return.
fn sheet_at(sheets: &[KeptSheet], k: u32) -> KeptSheet
    requires { k < length sheets.now }
    ensures { slice_get sheets.now k ≡ Some result }
{
    sheets[k as usize]
}

fn slot_at(slots: &[KeptSlot], k: usize) -> KeptSlot
    requires { k < length slots.now }
    ensures { slice_get slots.now k ≡ Some result }
{
    slots[k]
}

fn placing_at(placings: &[Placing], k: u32) -> &Placing
    requires { k < length placings.now }
    ensures { slice_get placings.now k ≡ Some result.now }
{
    &placings[k as usize]
}

/// The count as a `u32`. Fails if the count is too large for that type.
fn count_in_u32(count: usize) -> Result<u32, AllocError>
    ensures value { IfOk result (λ n. n ≡ count) }
    ensures many { OnErr result (u32.MAX < count) }
{
    u32::try_from(count).map_err(|_| AllocError)
}

/// Adds slots, and those of their placings that `find_placing` doesn't find. If this fails, some of the slots and placings may have been added.
fn keep_slots(
    placings: &mut Vec<Placing>,
    slots: &mut Vec<KeptSlot>,
    made: &[MadeSlot],
) -> Result<(), AllocError>
    requires { All (is_named (length placings.old.items)) slots.old.items }
    ensures grown { IsGrown placings.old.items placings.new.items slots.old.items slots.new.items }
    ensures added { OnOk result (added_to placings.new.items slots.old.items slots.new.items ≡ map slot_of made.now) }
{
    for slot in made {
        keep_slot(placings, slots, slot)?;
    }
    Ok(())
}

/// Adds a slot and, unless `find_placing` finds it, the slot's placing. A blank slot has no placing.
#[tactic(auto, using(crate::proofs::Stored::grown_placings))]
fn keep_slot(
    placings: &mut Vec<Placing>,
    slots: &mut Vec<KeptSlot>,
    made: &MadeSlot,
) -> Result<(), AllocError>
    requires { All (is_named (length placings.old.items)) slots.old.items }
    ensures grown { IsGrown placings.old.items placings.new.items slots.old.items slots.new.items }
    ensures added { OnOk result (added_to placings.new.items slots.old.items slots.new.items ≡ slot_of made.now ∷ []) }
{
    let kept = match made {
        MadeSlot::Blank => KeptSlot {
            page: 0,
            placing: 0,
        },
        MadeSlot::Placed { page, item, paper } => {
            let near = number_after(slots.as_slice());
            let placing = Placing {
                item: *item,
                paper: *paper,
            };
            let place = keep_placing(placings, near, &placing)?;
            KeptSlot {
                page: *page,
                placing: count_in_u32(place as usize + 1)?,
            }
        }
    };
    slots.push(kept)?;
    Ok(())
}

/// The index after that of the last slot's placing, or 0 if this slot is blank or there is no slot. Sheets with the same layout use placings one
/// after the other, so the next slot often has the placing at this index.
fn number_after(slots: &[KeptSlot]) -> u32 {
    match slots.last() {
        Some(slot) => slot.placing,
        None => 0,
    }
}

/// Returns the index of a placing. Adds the placing if it is neither at index `near` nor among the first 64.
fn keep_placing(
    placings: &mut Vec<Placing>,
    near: u32,
    placing: &Placing,
) -> Result<u32, AllocError>
    ensures begins { Begins placings.old.items placings.new.items }
    ensures there { IfOk result (λ k. slice_get placings.new.items k ≡ Some placing.now) }
    ensures once { (k : ℕ) → k < 64 → slice_get placings.old.items k ≡ Some placing.now
        → placings.new.items ≡ placings.old.items }
{
    if let Some(place) = find_placing(placings.as_slice(), near, placing) {
        return Ok(place);
    }
    let place = count_in_u32(placings.len())?;
    placings.push(*placing)?;
    Ok(place)
}

/// The index of a placing that is at index `near` or among the first 64. None if it is in neither place.
fn find_placing(placings: &[Placing], near: u32, placing: &Placing) -> Option<u32>
    ensures found { IfSome result (λ k. slice_get placings.now k ≡ Some placing.now) }
    ensures not_near { IsNone result → slice_get placings.now near ≢ Some placing.now }
    ensures not_first { IsNone result → (k : ℕ) → k < 64 → slice_get placings.now k ≢ Some placing.now }
{
    if is_at(placings, near, placing) {
        return Some(near);
    }
    for place in 0..FEW {
        if is_at(placings, place, placing) {
            return Some(place);
        }
    }
    None
}

/// Whether the placing is at this index.
fn is_at(placings: &[Placing], place: u32, placing: &Placing) -> bool
    ensures { IsTrue result ↔ slice_get placings.now place ≡ Some placing.now }
{
    if place as usize >= placings.len() {
        return false;
    }
    is_same_measure(placing_at(placings, place), placing)
}

/// Whether both placings are equal in every field.
fn is_same_measure(one: &Placing, other: &Placing) -> bool
    ensures { IsTrue result ↔ one.now ≡ other.now }
{
    *one == *other
}
