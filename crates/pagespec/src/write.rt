//! Writing of a specification in its canonical form.
ghost use Rattle.std.specs.Prelude.{◌≡◌, ◌&&◌, ◌∷◌, ◌++◌, [], ◌≤◌, decimal, map, flat_map, IfOk, OnOk, string_bytes};
ghost use Rattle.std.specs.Str.{IsAscii};
ghost use Rattle.rules.specs.Bytes.{comma, plus_sign};
ghost use Rattle.rules.specs.Admissible.{Takes, most_slots};
ghost use Rattle.rules.specs.Specification as rules;
ghost use Rattle.pagespec.specs.Items.{measure_of, turn_of, item_of, groups_of, group_text, groups_text};
ghost use Rattle.lengths.specs.Units.{length_unit};

use crate::item::{Item, Measure, Turn};
use crate::spec::Spec;
use itoa::Buffer;
use lengths::{Number, Unit, print_number};
use std::alloc::{AllocError, Global};

/// The canonical text of a specification, from which `read_spec` reads the same specification. The text leaves out a modulo of 1, a scale of 1, an
/// offset whose two lengths are 0 pt, and the unit of points. It also leaves out zeros at the start of a number and at the end of its decimals. A
/// turn is one letter, or left out if the page isn't turned. Fails only if memory is refused.
pub fn write_spec(alloc: Global, spec: &Spec) -> Result<String, AllocError>
    ensures canonical { IfOk result (λ text. string_bytes text ≡ rules.canonical spec.now) }
    ensures taken { IfOk result (λ text. Takes most_slots (string_bytes text) spec.now) }
{
    let mut out = Vec::new(alloc);
    append_modulo(spec.modulo(), &mut out)?;
    append_groups(spec.groups(), &mut out)?;
    Ok(ascii_text(out))
}

/// Appends the modulo and a colon, unless the modulo is 1.
fn append_modulo(modulo: u32, out: &mut Vec<u8>) -> Result<(), AllocError>
    ensures { OnOk result (out.new.items ≡ out.old.items ++ rules.modulo_text modulo) }
{
    if modulo == 1 {
        return Ok(());
    }
    append_count(modulo, out)?;
    append_bytes(out, b":")
}

/// Appends the groups, separated by commas.
fn append_groups(groups: &[Vec<Item>], out: &mut Vec<u8>) -> Result<(), AllocError>
    ensures { OnOk result (out.new.items ≡ out.old.items ++ groups_text (groups_of groups.now)) }
{
    match groups.split_first() {
        None => Ok(()),
        Some((first, rest)) => {
            append_group(first, out)?;
            append_more_groups(rest, out)
        }
    }
}

/// Appends groups, each after a comma.
fn append_more_groups(groups: &[Vec<Item>], out: &mut Vec<u8>) -> Result<(), AllocError>
    ensures { OnOk result (out.new.items ≡
        out.old.items ++ flat_map (λ g. comma ∷ group_text g) (groups_of groups.now)) }
{
    for group in groups {
        append_bytes(out, b",")?;
        append_group(group, out)?;
    }
    Ok(())
}

/// Appends the items of a group, separated by plus signs.
fn append_group(group: &[Item], out: &mut Vec<u8>) -> Result<(), AllocError>
    ensures { OnOk result (out.new.items ≡ out.old.items ++ group_text (map item_of group.now)) }
{
    match group.split_first() {
        None => Ok(()),
        Some((first, rest)) => {
            append_item(first, out)?;
            append_more_items(rest, out)
        }
    }
}

/// Appends items, each after a plus sign.
fn append_more_items(items: &[Item], out: &mut Vec<u8>) -> Result<(), AllocError>
    ensures { OnOk result (out.new.items ≡
        out.old.items ++ flat_map (λ i. plus_sign ∷ rules.item_text i) (map item_of items.now)) }
{
    for item in items {
        append_bytes(out, b"+")?;
        append_item(item, out)?;
    }
    Ok(())
}

fn append_item(item: &Item, out: &mut Vec<u8>) -> Result<(), AllocError>
    ensures { OnOk result (out.new.items ≡ out.old.items ++ rules.item_text (item_of item.now)) }
{
    append_bytes(out, minus(item.from_end))?;
    append_count(item.page, out)?;
    append_bytes(out, turn_letter(item.turn))?;
    append_scale_modifier(item.scale, out)?;
    append_offset(&item.offset.0, &item.offset.1, out)
}

/// A minus if the page's block is counted from the end, or else an empty text.
fn minus(from_end: bool) -> &'static [u8]
    ensures { result.now ≡ rules.minus_text from_end }
{
    if from_end { b"-" } else { b"" }
}

fn turn_letter(turn: Turn) -> &'static [u8]
    ensures { result.now ≡ rules.turn_text (turn_of turn) }
{
    match turn {
        Turn::None => b"",
        Turn::Left => b"L",
        Turn::Half => b"U",
        Turn::Right => b"R",
    }
}

/// Appends `@` and the scale, unless the scale is 1.
fn append_scale_modifier(scale: Number, out: &mut Vec<u8>) -> Result<(), AllocError>
    ensures { OnOk result (out.new.items ≡ out.old.items ++ rules.scale_part scale) }
{
    if scale.billionths() == 1_000_000_000 {
        return Ok(());
    }
    append_bytes(out, b"@")?;
    print_number(scale, out)
}

/// Appends the offset in parentheses, unless both its lengths are 0 pt.
fn append_offset(x: &Measure, y: &Measure, out: &mut Vec<u8>) -> Result<(), AllocError>
    ensures { OnOk result (out.new.items ≡ out.old.items ++ rules.offset_part (measure_of x.now) (measure_of y.now)) }
{
    if is_no_offset(x, y) {
        return Ok(());
    }
    append_bytes(out, b"(")?;
    append_measure(x, out)?;
    append_bytes(out, b",")?;
    append_measure(y, out)?;
    append_bytes(out, b")")
}

fn is_no_offset(x: &Measure, y: &Measure) -> bool
    ensures { result ≡ (rules.is_zero_points (measure_of x.now) && rules.is_zero_points (measure_of y.now)) }
{
    is_zero_points(x) && is_zero_points(y)
}

fn is_zero_points(measure: &Measure) -> bool
    ensures { result ≡ rules.is_zero_points (measure_of measure.now) }
{
    measure.number.billionths() == 0 && is_points(measure.unit)
}

fn is_points(unit: Unit) -> bool
    ensures { result ≡ rules.is_points (length_unit unit) }
{
    match unit {
        Unit::Pt => true,
        Unit::Cm | Unit::Mm | Unit::In | Unit::W | Unit::H => false,
    }
}

/// Appends a number and its unit. The unit is left out if it is points.
fn append_measure(measure: &Measure, out: &mut Vec<u8>) -> Result<(), AllocError>
    ensures { OnOk result (out.new.items ≡ out.old.items ++ rules.measure_text (measure_of measure.now)) }
{
    print_number(measure.number, out)?;
    append_bytes(out, unit_name(measure.unit))
}

fn unit_name(unit: Unit) -> &'static [u8]
    ensures { result.now ≡ rules.unit_text (length_unit unit) }
{
    match unit {
        Unit::Pt => b"",
        Unit::Cm => b"cm",
        Unit::Mm => b"mm",
        Unit::In => b"in",
        Unit::W => b"w",
        Unit::H => b"h",
    }
}

/// Appends a number in decimal digits.
fn append_count(count: u32, out: &mut Vec<u8>) -> Result<(), AllocError>
    ensures { OnOk result (out.new.items ≡ out.old.items ++ decimal count) }
{
    let mut buffer = Buffer::new();
    append_bytes(out, buffer.format(count).as_bytes())
}

fn append_bytes(out: &mut Vec<u8>, text: &[u8]) -> Result<(), AllocError>
    ensures { OnOk result (out.new.items ≡ out.old.items ++ text.now) }
{
    out.extend_from_slice(text)
}

/// These bytes as a string. The caller has to show that they are ASCII.
fn ascii_text(bytes: Vec<u8>) -> String
    requires { IsAscii bytes.items }
    ensures { string_bytes result ≡ bytes.items }
{
    match String::from_utf8(bytes) {
        Ok(text) => text,
        Err(_) => unreachable!(),
    }
}
