//! Checks of the modulo, the items and the groups of a parsed text. Each check covers the whole text.
ghost use Rattle.std.specs.Prelude.{◌≡◌, ◌<◌, ◌^◌, ◌||◌, length, position, nat_lt, nat_le, option_map, if◌then◌else◌};
ghost use Rattle.std.specs.Prelude.{Some};
ghost use Rattle.std.specs.Option.{ForSome};
ghost use Rattle.std.specs.List.{list_any};
ghost use Rattle.rules.specs.Numbers.{greatest_whole};
ghost use Rattle.rules.specs.Admissible.{most_slots};
ghost use Rattle.pagespec.specs.Faults.{first_fault_of, has_too_large};

use crate::error::SpecError;
use crate::parsed::ParsedItem;

/// The most items that a group may have.
const MOST_SLOTS: usize = 4_096;
/// The most groups that a specification may have.
const MOST_GROUPS: usize = 10_000;
/// The greatest modulo, the greatest page number, and the greatest integer part of a number.
const MOST: u32 = 99_999;

/// The fault of the first check that fails, in the order of `SpecError`. If the fault has an index, it is that of the first item or group at fault.
/// None if no check fails. `lengths` has the number of items in each group.
pub(crate) fn first_fault(modulo: u32, items: &[ParsedItem], lengths: &[usize]) -> Option<SpecError>
    requires items { length items.now < 2 ^ 32 }
    requires groups { length lengths.now < 2 ^ 32 }
    ensures { result ≡ first_fault_of modulo items.now lengths.now }
{
    let pages = page_out_of_block(modulo, items);
    let scales = scale_zero(items);
    let again = repeated(items);
    let slots = too_many_slots(lengths);
    fault_if(too_large(modulo, items), SpecError::TooLarge)
        .or(fault_if(modulo == 0, SpecError::ModuloZero))
        .or(as_index(pages).map(SpecError::PageOutOfBlock))
        .or(as_index(scales).map(SpecError::ScaleZero))
        .or(as_index(again).map(SpecError::Repeated))
        .or(as_index(slots).map(SpecError::TooManySlots))
        .or(fault_if(MOST_GROUPS < lengths.len(), SpecError::TooManyGroups))
}

/// `fault` if `fails` is true, or else None.
fn fault_if(fails: bool, fault: SpecError) -> Option<SpecError>
    ensures { result ≡ (if fails then Some fault else None) }
{
    if fails { Some(fault) } else { None }
}

fn too_large(modulo: u32, items: &[ParsedItem]) -> bool
    ensures { result ≡ has_too_large modulo items.now }
{
    MOST < modulo || any_too_large(items)
}

fn any_too_large(items: &[ParsedItem]) -> bool
    ensures { result ≡ list_any (λ i. nat_lt greatest_whole i.page || i.modifiers.too_large) items.now }
{
    items.iter().any(|i| MOST < i.page || i.modifiers.too_large)
}

/// The index of the first item whose page number isn't below the modulo.
fn page_out_of_block(modulo: u32, items: &[ParsedItem]) -> Option<usize>
    ensures place { result ≡ position (λ i. nat_le modulo i.page) items.now }
    ensures below { ForSome result (λ i. i < length items.now) }
{
    items.iter().position(|i| modulo <= i.page)
}

/// The index of the first item with a scale that isn't above zero.
fn scale_zero(items: &[ParsedItem]) -> Option<usize>
    ensures place { result ≡ position (λ i. i.modifiers.scale_zero) items.now }
    ensures below { ForSome result (λ i. i < length items.now) }
{
    items.iter().position(|i| i.modifiers.scale_zero)
}

/// The index of the first item with a second scale or a second offset.
fn repeated(items: &[ParsedItem]) -> Option<usize>
    ensures place { result ≡ position (λ i. i.modifiers.repeated) items.now }
    ensures below { ForSome result (λ i. i < length items.now) }
{
    items.iter().position(|i| i.modifiers.repeated)
}

/// The index of the first group with over 4,096 items.
fn too_many_slots(lengths: &[usize]) -> Option<usize>
    ensures place { result ≡ position (λ n. nat_lt most_slots n) lengths.now }
    ensures below { ForSome result (λ i. i < length lengths.now) }
{
    lengths.iter().position(|n| MOST_SLOTS < *n)
}

/// The index of an item or a group, as the `u32` that a `SpecError` holds.
fn as_index(place: Option<usize>) -> Option<u32>
    requires { ForSome place (λ i. i < 2 ^ 32) }
    ensures { result ≡ place }
{
    Some(place? as u32)
}
