//! Turns pages before they are placed.
ghost use Rattle.std.specs.Prelude.{◌≡◌, ◌^◌, ◌<◌, ◌≤◌, [], IfOk, IfSome, IsTrue, OnOk, false, is_some, length, map, nat_abs, pos, true};
ghost use Rattle.std.specs.List.{list_all};
ghost use Rattle.rules.specs.Papers.{is_side};
ghost use Rattle.rules.specs.Placement.{turned as turned_point};
ghost use Rattle.rules.specs.Run.{most_sheets};
ghost use Rattle.rules.specs.Specification.{Upright};
ghost use Rattle.pagespec.specs.Items.{item_of, turn_of};
ghost use Rattle.sheet_plan.specs.OfSheets.{placed_of, slot_of, slots_at};
ghost use Rattle.row_runs.specs.SwappedMargins.{swapped, moved_item as moved_of, moved_slot};
ghost use Rattle.row_runs.specs.Reaching as reaching;
ghost use Rattle.row_runs.specs.Turning as meaning;

use crate::swapped_margins::{moved_item, shifted, swapped_room_on};
use layouts::Room;
use lengths::{Grains, Number, Paper};
use pagespec::{Item, Turn};
use sheet_plan::{MadeSheets, MadeSlot, PlacedSlot};
use std::alloc::{AllocError, Global};

/// The paper of a page after this turn: a quarter turn exchanges width and height.
pub fn turned_paper(turn: Turn, paper: &Paper) -> Paper
    ensures { result ≡ meaning.turned_paper (turn_of turn) paper.now }
{
    match turn {
        Turn::None | Turn::Half => *paper,
        Turn::Left | Turn::Right => paper.turned(),
    }
}

/// The turn of this page. A page that has no entry in `turns` isn't turned.
fn turn_on(turns: &[Turn], page: u32) -> Turn
    ensures { turn_of result ≡ meaning.turn_on turns.now page }
{
    turns.get(page as usize).copied().unwrap_or(Turn::None)
}

/// These sheets, with each page turned. The sheets must have been laid for pages with the turned papers. If `swap` is given, its left and right
/// margins are exchanged on backs, and pages there are shifted before they are turned.
pub(crate) fn turned_sheets(
    alloc: Global,
    turns: &[Turn],
    swap: &Option<Room>,
    sheets: MadeSheets,
) -> Result<MadeSheets, AllocError>
    requires few { length sheets ≤ most_sheets }
    requires reached { reaching.are_reached (meaning.turn_on turns.now) swap.now sheets ≡ true }
    ensures { IfOk result (λ turned. turned ≡ map (meaning.turned_sheet (meaning.turn_on turns.now)) (swapped swap.now sheets)) }
{
    match swap {
        None if turns.is_empty() => Ok(sheets),
        _ => all_sheets(alloc, turns, swap, &sheets),
    }
}

/// These sheets, with left and right margins exchanged on backs if `swap` is given. Pages on backs are shifted by the difference of the margins.
pub(crate) fn swapped_sheets(
    alloc: Global,
    swap: &Option<Room>,
    sheets: MadeSheets,
) -> Result<MadeSheets, AllocError>
    requires few { length sheets ≤ most_sheets }
    requires reached { reaching.are_reached (meaning.turn_on []) swap.now sheets ≡ true }
    ensures { IfOk result (λ made. made ≡ swapped swap.now sheets) }
{
    turned_sheets(alloc, &[], swap, sheets)
}

fn all_sheets(
    alloc: Global,
    turns: &[Turn],
    swap: &Option<Room>,
    sheets: &MadeSheets,
) -> Result<MadeSheets, AllocError>
    requires few { length sheets.now ≤ most_sheets }
    requires reached { reaching.are_reached (meaning.turn_on turns.now) swap.now sheets.now ≡ true }
    ensures { IfOk result (λ turned. turned ≡ map (meaning.turned_sheet (meaning.turn_on turns.now)) (swapped swap.now sheets.now)) }
{
    let mut turned = MadeSheets::new(alloc);
    let mut slots = Vec::new(alloc);
    for sheet in 0..sheets.len() as u32 {
        let side = swapped_room_on(swap, sheet);
        turn_slots(&mut slots, turns, &side, sheets, sheet)?;
        turned.push(sheets.paper(sheet), slots.as_slice())?;
    }
    Ok(turned)
}

/// Replaces the content of `slots` by the slots of this sheet, with pages shifted and turned.
fn turn_slots(
    slots: &mut Vec<MadeSlot>,
    turns: &[Turn],
    swap: &Option<Room>,
    sheets: &MadeSheets,
    sheet: u32,
) -> Result<(), AllocError>
    requires sheet { sheet < length sheets.now }
    requires reached { list_all (reaching.is_slot_reached (meaning.turn_on turns.now) swap.now) (slots_at sheets.now sheet) ≡ true }
    ensures { OnOk result (map slot_of slots.new.items
        ≡ map (λ slot. meaning.turned_slot (meaning.turn_on turns.now) (moved_slot swap.now slot)) (slots_at sheets.now sheet)) }
{
    slots.clear();
    for slot in 0..sheets.slots(sheet) {
        slots.push(turned_slot(turns, swap, sheets.placed(sheet, slot)))?;
    }
    Ok(())
}

fn turned_slot(turns: &[Turn], swap: &Option<Room>, slot: Option<PlacedSlot<'_>>) -> MadeSlot
    requires { reaching.is_slot_reached (meaning.turn_on turns.now) swap.now (placed_of slot) ≡ true }
    ensures { slot_of result ≡ meaning.turned_slot (meaning.turn_on turns.now) (moved_slot swap.now (placed_of slot.entry)) }
{
    match slot {
        None => MadeSlot::Blank,
        Some(placed) => match changed_item(turns, swap, placed) {
            Some(item) => MadeSlot::Placed {
                page: placed.page,
                item,
                paper: turned_paper(turn_on(turns, placed.page), placed.paper),
            },
            None => unreachable!(),
        },
    }
}

/// The item for a page that is first shifted, as the exchange of margins requires (`swap`), and then turned. None if the size of an offset would be
/// 100,000 or more in its own unit.
pub(crate) fn changed_item(
    turns: &[Turn],
    swap: &Option<Room>,
    placed: PlacedSlot<'_>,
) -> Option<Item>
    ensures value { IfSome result (λ changed. item_of changed
        ≡ meaning.turned_item (meaning.turn_on turns.now placed.entry.page) placed.entry.paper.now (moved_of swap.now (item_of placed.entry.item.now))) }
    ensures reached { is_some result
        ≡ reaching.is_item_reached (meaning.turn_on turns.now placed.entry.page) swap.now placed.entry.paper.now (item_of placed.entry.item.now) }
    ensures unchanged { reaching.is_changed turns.now swap.now ≡ false → is_some result ≡ true }
{
    let moved = moved_item(swap, placed.item)?;
    turned_item(turn_on(turns, placed.page), placed.paper, &moved)
}

/// The item that places a page with this turn where `item` would place a page of the turned paper. None if the size of an offset would be 100,000 or
/// more in its own unit.
fn turned_item(turn: Turn, paper: &Paper, item: &Item) -> Option<Item>
    ensures value { IfSome result (λ turned. item_of turned ≡ meaning.turned_item (turn_of turn) paper.now (item_of item.now)) }
    ensures near { is_some result ≡ reaching.is_turned_near (turn_of turn) paper.now (item_of item.now) }
    ensures upright { turn_of turn ≡ Upright → is_some result ≡ true }
{
    let width = scaled_length(item.scale, paper.width());
    let height = scaled_length(item.scale, paper.height());
    let (x, y) = turned_corner(turn, width, height);
    let (right, up) = turned_by(item.turn, x, y);
    Some(Item {
        turn: turn_sum(turn, item.turn),
        offset: (shifted(right, item.offset.0)?, shifted(up, item.offset.1)?),
        ..*item
    })
}

/// The turn that results from `turn` followed by `other`.
fn turn_sum(turn: Turn, other: Turn) -> Turn
    ensures { turn_of result ≡ meaning.turn_sum (turn_of turn) (turn_of other) }
{
    match turn {
        Turn::None => other,
        Turn::Left => quarter_left(other),
        Turn::Half => quarter_left(quarter_left(other)),
        Turn::Right => quarter_left(quarter_left(quarter_left(other))),
    }
}

/// This turn followed by a quarter turn to the left.
fn quarter_left(turn: Turn) -> Turn
    ensures { turn_of result ≡ meaning.quarter_left (turn_of turn) }
{
    match turn {
        Turn::None => Turn::Left,
        Turn::Left => Turn::Half,
        Turn::Half => Turn::Right,
        Turn::Right => Turn::None,
    }
}

/// The point of a turned paper of this width and height at which the page's lower left corner lies, in the unit of these lengths.
fn turned_corner(turn: Turn, width: i64, height: i64) -> (i64, i64)
    requires width { nat_abs width ≤ 10 ^ 17 }
    requires height { nat_abs height ≤ 10 ^ 17 }
    ensures x { result.0 ≡ (meaning.turned_corner (turn_of turn) width height).x }
    ensures y { result.1 ≡ (meaning.turned_corner (turn_of turn) width height).y }
    ensures x_in_range { nat_abs result.0 ≤ 10 ^ 17 }
    ensures y_in_range { nat_abs result.1 ≤ 10 ^ 17 }
{
    match turn {
        Turn::None => (0, 0),
        Turn::Left => (width, 0),
        Turn::Half => (width, height),
        Turn::Right => (0, height),
    }
}

/// Turns a point about the point (0, 0).
fn turned_by(turn: Turn, x: i64, y: i64) -> (i64, i64)
    requires x { nat_abs x ≤ 10 ^ 17 }
    requires y { nat_abs y ≤ 10 ^ 17 }
    ensures x { result.0 ≡ (turned_point (turn_of turn) (record { x = x; y = y })).x }
    ensures y { result.1 ≡ (turned_point (turn_of turn) (record { x = x; y = y })).y }
    ensures x_in_range { nat_abs result.0 ≤ 10 ^ 17 }
    ensures y_in_range { nat_abs result.1 ≤ 10 ^ 17 }
{
    match turn {
        Turn::None => (x, y),
        Turn::Left => (-y, x),
        Turn::Half => (-x, -y),
        Turn::Right => (y, -x),
    }
}

/// The length of a side at this scale, in 10^-5 of a point, rounded up.
fn scaled_length(scale: Number, side: Grains) -> i64
    requires { IsTrue (is_side side) }
    ensures value { result ≡ pos (meaning.scaled_length scale side) }
    ensures in_range { nat_abs result ≤ 10 ^ 17 }
{
    let length = u128::from(scale.billionths().unsigned_abs()) * side.get().unsigned_abs();
    ((length + 1_269_999_999_999_999) / 1_270_000_000_000_000) as i64
}
