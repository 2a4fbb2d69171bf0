//! The meaning of the items of a text that has no fault.
ghost use Rattle.std.specs.Prelude.{◌≡◌, map, IfOk, unwrap_or};
ghost use Rattle.rules.specs.Specification as rules;
ghost use Rattle.pagespec.specs.Items.{item_of, turn_of, groups_of, measure_of};
ghost use Rattle.pagespec.specs.Settled.{item_of_parsed, split_by, AreLengths, offset_of_parsed};

use crate::item::{Item, Measure, Turn};
use crate::parsed::ParsedItem;
use lengths::Number;
use std::alloc::{AllocError, Global};

/// The groups that the parsed items form. `lengths` has the number of items in each group.
pub(crate) fn settled_groups(
    alloc: Global,
    parsed: &[ParsedItem],
    lengths: &[usize],
) -> Result<Vec<Vec<Item>>, AllocError>
    requires { AreLengths lengths.now parsed.now }
    ensures { IfOk result (λ groups. groups_of groups.items ≡ split_by lengths.now (map item_of_parsed parsed.now)) }
{
    let mut groups = Vec::new(alloc);
    let mut rest = parsed;
    for length in lengths {
        let (front, after) = rest.split_at(*length);
        groups.push(settled_group(alloc, front)?)?;
        rest = after;
    }
    Ok(groups)
}

/// The group that these items form, in their order.
fn settled_group(alloc: Global, parsed: &[ParsedItem]) -> Result<Vec<Item>, AllocError>
    ensures { IfOk result (λ group. map item_of group.items ≡ map item_of_parsed parsed.now) }
{
    let mut group = Vec::new(alloc);
    for item in parsed {
        group.push(settled_item(*item))?;
    }
    Ok(group)
}

/// The meaning of an item. A scale that isn't written is 1. An offset that isn't written is 0 pt to the right and 0 pt up.
fn settled_item(parsed: ParsedItem) -> Item
    ensures { item_of result ≡ item_of_parsed parsed }
{
    Item {
        page: parsed.page,
        from_end: parsed.from_end,
        turn: turn_by(parsed.modifiers.quarters),
        scale: parsed.modifiers.scale.unwrap_or(Number::ONE),
        offset: offset_or_none(parsed.modifiers.offset),
    }
}

/// The turn to the left by this number of quarters, modulo 4.
fn turn_by(quarters: u8) -> Turn
    ensures { turn_of result ≡ rules.quarter_turn quarters }
{
    match quarters % 4 {
        0 => Turn::None,
        1 => Turn::Left,
        2 => Turn::Half,
        _ => Turn::Right,
    }
}

/// This offset, or 0 pt to the right and 0 pt up if there is no offset.
fn offset_or_none(offset: Option<(Measure, Measure)>) -> (Measure, Measure)
    ensures { offset_of_parsed offset ≡ (measure_of result.0, measure_of result.1) }
{
    offset.unwrap_or((Measure::ZERO, Measure::ZERO))
}
