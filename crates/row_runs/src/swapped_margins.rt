//! Exchanges left and right margins on backs. Leaves are printed on both sides, so sheets are fronts and backs in turn.
ghost use Rattle.std.specs.Prelude.{◌≡◌, ◌^◌, ◌≤◌, IfSome, is_some, nat_abs, pos, true};
ghost use Rattle.pagespec.specs.Items.{item_of, measure_of};
ghost use Rattle.row_runs.specs.SwappedMargins as meaning;
ghost use Rattle.row_runs.specs.Reaching.{is_moved_near, is_writable_offset};
ghost use Rattle.row_runs.specs.Turning.{shifted as shifted_by};

use crate::sheet_request::Laying;
use layouts::Room;
use lengths::Number;
use pagespec::{Item, Measure};

/// The room of a laying in cells, if its left and right margins are exchanged on backs. None otherwise.
pub(crate) fn swapped_room_in(swapped: bool, laying: &Laying<'_>) -> Option<Room>
    ensures { result ≡ meaning.swapped_room_in swapped laying.now }
{
    match laying {
        Laying::InCells { setting, .. } if swapped => Some(setting.room),
        _ => None,
    }
}

/// The room whose left and right margins are exchanged on this sheet (counted from 0). None on sheets with even numbers, since only sheets with odd
/// numbers are backs.
pub(crate) fn swapped_room_on(swap: &Option<Room>, sheet: u32) -> Option<Room>
    ensures { result ≡ meaning.swapped_room_on swap.now sheet }
{
    if sheet % 2 == 1 { *swap } else { None }
}

/// The item that places a page after the left and right margins of this room are exchanged. Without a room the item doesn't change. None if the size
/// of the offset would be 100,000 or more in its own unit.
pub(crate) fn moved_item(swap: &Option<Room>, item: &Item) -> Option<Item>
    ensures value { IfSome result (λ moved. item_of moved ≡ meaning.moved_item swap.now (item_of item.now)) }
    ensures near { is_some result ≡ is_moved_near swap.now (item_of item.now) }
{
    match swap {
        None => Some(*item),
        Some(room) => {
            let right = shifted(swap_shift(room), item.offset.0)?;
            Some(Item {
                offset: (right, item.offset.1),
                ..*item
            })
        }
    }
}

/// The distance by which pages are shifted to the right if the left and right margins of this room are exchanged, in 10^-5 of a point. It is negative
/// if pages are shifted to the left.
fn swap_shift(room: &Room) -> i64
    ensures value { result ≡ meaning.swap_shift room.now }
    ensures in_range { nat_abs result ≤ 10 ^ 17 }
{
    room.right as i64 - room.left as i64
}

/// The measure increased by `by` times 10^-5 of its unit. None if the size of the result would be 100,000 units or more.
pub(crate) fn shifted(by: i64, measure: Measure) -> Option<Measure>
    requires { nat_abs by ≤ 10 ^ 17 }
    ensures value { IfSome result (λ moved. measure_of moved ≡ shifted_by by (measure_of measure)) }
    ensures near { is_some result ≡ is_writable_offset (shifted_by by (measure_of measure)) }
    ensures stays { by ≡ pos 0 → is_some result ≡ true }
{
    let number = i128::from(measure.number.billionths()) + 10_000 * i128::from(by);
    match i64::try_from(number) {
        Ok(number) => Some(Measure {
            number: Number::new(number)?,
            unit: measure.unit,
        }),
        Err(_) => None,
    }
}
