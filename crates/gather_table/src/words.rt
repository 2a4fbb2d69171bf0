//! The meaning of the words of a table. A page's word is its index plus one, or 0 if it has no index. In the word of a
//! group, bit k is for slot k of the group. In the closing word of a wide sheet, bit g is for group g.
ghost use Rattle.std.specs.Prelude.{◌≡◌, ◌+◌, ◌-◌, ◌*◌, ◌/◌, ◌<◌, ◌≤◌, ◌^◌, nat_lt, if◌then◌else◌, length};
ghost use Rattle.rules.specs.Admissible.{most_slots};
ghost use Rattle.rules.specs.Sheets.{layout};
ghost use Rattle.gather_table.specs.Table.{is_blank_slot, in_group, bits, slots, group_count, group_size, group_reply};
ghost use Rattle.gather_table.specs.Table.{closing_by, publish_reply};
ghost use Rattle.gather_table.specs.Words.{index_in, reply_in};

use crate::answers::{Closing, Published, Reply};
use sheet_plan::Plan;

/// The blank slots of a group: bit j is set if the group's slot j, counted from 0, is blank. A sheet of up to 64 slots
/// is one group.
pub(crate) fn blank_bits(plan: &Plan, sheet: u32, group: u8) -> u64
    requires sheet { sheet < length plan.now.sheets }
    requires group { group < group_count (layout plan.now) sheet }
    ensures { result ≡ bits (in_group (is_blank_slot (slots (layout plan.now) sheet)) group)
        (group_size (layout plan.now) sheet group) }
{
    full_bits(group_size(plan.slots(sheet), group)) - plan.missing_at_start(sheet, group)
}

/// The number of groups of a sheet with this number of slots.
pub(crate) fn group_count(slots: u16) -> u8
    requires { slots ≤ most_slots }
    ensures { result ≡ (slots + 63) / 64 }
{
    ((slots + 63) / 64) as u8
}

/// The number of slots in this group of a sheet with `slots` slots. Groups are counted from 0.
pub(crate) fn group_size(slots: u16, group: u8) -> u16
    requires { 64 * group ≤ slots }
    ensures { result ≡ (if nat_lt (64 * group + 64) slots then 64 else slots - 64 * group) }
{
    let first = 64 * u16::from(group);
    if first + 64 < slots {
        64
    } else {
        slots - first
    }
}

/// The word in which only the lowest `count` bits are set: one for each slot of a group, or one for each group of a
/// sheet.
pub(crate) fn full_bits(count: u16) -> u64
    requires { (0 < count) × (count ≤ 64) }
    ensures { result ≡ 2 ^ count - 1 }
{
    u64::MAX >> (64 - count)
}

/// The index of a page, from its word. The word is the index plus one, or 0 if the page has no index.
pub(crate) fn index_by(word: u64) -> Option<u32>
    requires { word ≤ 2 ^ 32 }
    ensures { result ≡ index_in word }
{
    if word == 0 {
        return None;
    }
    Some((word - 1) as u32)
}

/// The reply to a publish, from the word that the page had before.
pub(crate) fn published_by(found: u64) -> Published
    requires { found ≤ 2 ^ 32 }
    ensures { result ≡ publish_reply (index_in found) }
{
    match index_by(found) {
        Some(held) => Published::Held(held),
        None => Published::Stored,
    }
}

/// The reply to setting a bit. `found` has the bits that were set before, and `full` has all bits that can be set. The
/// reply is `Repeated` if the bit was already set, `Completing` if no other bit was missing, and otherwise `Fresh`.
pub(crate) fn reply_by(found: u64, bit: u64, full: u64) -> Reply
    ensures { result ≡ reply_in found bit full }
{
    if found & bit != 0 {
        Reply::Repeated
    } else if found | bit == full {
        Reply::Completing
    } else {
        Reply::Fresh
    }
}

/// The reply to a mark in a group of a wide sheet. `reply` is the reply that the mark would have if the group were a
/// whole sheet.
pub(crate) fn group_reply(group: u8, reply: Reply) -> Reply
    ensures { result ≡ group_reply group reply }
{
    match reply {
        Reply::Completing => Reply::Fills(group),
        other => other,
    }
}

/// The reply to closing a group. `reply` is the reply to setting the group's bit in the closing word.
pub(crate) fn closing_by(reply: Reply) -> Closing
    ensures { result ≡ closing_by reply }
{
    match reply {
        Reply::Fresh | Reply::Fills(_) => Closing::Closed,
        Reply::Repeated => Closing::Again,
        Reply::Completing => Closing::Completing,
    }
}
