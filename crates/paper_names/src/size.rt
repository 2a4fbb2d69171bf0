//! Papers by name or size.
ghost use Rattle.std.specs.Prelude.{◌≡◌, ◌≤◌, length, option_and_then, option_map};
ghost use Rattle.std.specs.List.{prefix_len};
ghost use Rattle.rules.specs.Units.{is_blank};
ghost use Rattle.lengths.specs.Units.{length_unit};
ghost use Rattle.paper_names.specs.Names.{upright_named};
ghost use Rattle.paper_names.specs.Sizes as meaning;

use crate::error::PaperError;
use crate::names::{is_named, upright_paper, upright_part};
use lengths::{Grains, Number, Paper, Unit, a4, read_number, to_grains};

/// A side as it is written in a text: a number, and its unit if there is one.
#[derive(Clone, Copy, Debug, PartialEq, Eq)]
struct Side {
    number: Number,
    unit: Option<Unit>,
}

/// The paper that a text means. The text is a name that `paper_by_name` knows, or ends with a width and a height with an `x` between them. A final
/// `landscape` or `quer` exchanges width and height.
///
/// A side is a number with `pt`, `cm`, `mm`, `in`, `inch` or `"` after it. The integer part of the number is at most 99,999. If only the height has a
/// unit, the width has this unit too, as in `210x297mm`. Capitals in units make no difference, and blanks around numbers are allowed. `X`, `*` and
/// `×` may replace the `x`. A name and an underscore before the size are passed over, as in `iso_a4_210x297mm`. A text that means no paper is
/// refused, with `Unknown`, `NoUnit` or `NoSuchSize`.
pub fn read_paper(text: &[u8]) -> Result<Paper, PaperError>
    ensures { result ≡ meaning.paper_of text.now }
{
    match upright_part(text) {
        Some(front) => on_its_side(read_upright(front)),
        None => read_upright(text),
    }
}

/// The paper that a text without a final `landscape` or `quer` means, or the error with which `read_paper` refuses the text.
fn read_upright(text: &[u8]) -> Result<Paper, PaperError>
    ensures { result ≡ meaning.upright_paper text.now }
{
    match upright_paper(text) {
        Some(paper) => Ok(paper),
        None => size_of(last_part(text)),
    }
}

/// The paper with its width and height exchanged. An error is handed on unchanged.
fn on_its_side(paper: Result<Paper, PaperError>) -> Result<Paper, PaperError>
    ensures { result ≡ meaning.on_its_side paper }
{
    Ok(paper?.turned())
}

/// The part of a text after its last underscore, or the whole text if it has none. An underscore at the end of the text doesn't count.
fn last_part(text: &[u8]) -> &[u8]
    ensures { result.now ≡ meaning.last_part text.now text.now }
{
    let mut part = text;
    let mut rest = text;
    while let Some((first, others)) = rest.split_first() {
        if *first == b'_' && !others.is_empty() {
            part = others;
        }
        rest = others;
    }
    part
}

/// The paper of a text that has a width, then `x`, `X`, `*` or `×`, then a height. Fails as `size_of_both` does.
fn size_of(text: &[u8]) -> Result<Paper, PaperError>
    ensures { result ≡ meaning.size_of text.now }
{
    let (width, rest) = text.split_at(x_at(text));
    size_of_both(side_of(width), side_after(rest))
}

/// The index of the first `x`, `X`, `*` or byte 0xC3, with which a `×` begins in UTF-8. It is the length of the text if the text has none of these.
fn x_at(text: &[u8]) -> usize
    ensures value { result ≡ meaning.x_at text.now }
    ensures within { result ≤ length text.now }
{
    text.iter()
        .take_while(|b| !(**b == b'x' || (**b == b'X' || (**b == b'*' || **b == 0xC3))))
        .count()
}

/// The side after the `x`, `X`, `*` or `×` with which this text begins, unless it is empty. None if the text is empty, if it has only the first byte
/// of a `×`, or if no side follows.
fn side_after(text: &[u8]) -> Option<Side>
    ensures { option_map (λ s. (s.number, option_map length_unit s.unit)) result
        ≡ option_and_then meaning.side_of (meaning.after_cross text.now) }
{
    side_of(after_cross(text)?)
}

/// The text after the `x`, `X`, `*` or `×` at its start. Of a `×`, which has two bytes, only the second is tested, since the caller has found the
/// first. None if the text is empty, or if this second byte is missing.
fn after_cross(text: &[u8]) -> Option<&[u8]>
    ensures { option_map (λ rest. rest.now) result ≡ meaning.after_cross text.now }
{
    let (first, rest) = text.split_first()?;
    if *first == 0xC3 {
        after_second(rest)
    } else {
        Some(rest)
    }
}

/// The text after the second byte of a `×`, which has two bytes in UTF-8. None if the text doesn't begin with that byte.
fn after_second(text: &[u8]) -> Option<&[u8]>
    ensures { option_map (λ rest. rest.now) result ≡ meaning.after_second text.now }
{
    let (second, rest) = text.split_first()?;
    if *second == 0x97 { Some(rest) } else { None }
}

/// The side that a text gives: a number, which may have blanks before it and a unit after it. Blanks, minuses and underscores after the number have
/// no effect. None for any other text, or if the integer part of the number is over 99,999.
fn side_of(text: &[u8]) -> Option<Side>
    ensures { option_map (λ s. (s.number, option_map length_unit s.unit)) result ≡ meaning.side_of text.now }
{
    let (_, text) = text.split_at(blanks_at(text));
    let (number, len) = read_number(text).ok()?;
    let (_, name) = text.split_at(len);
    if is_named(name, b"") {
        return Some(Side { number, unit: None });
    }
    let unit = unit_of(name)?;
    Some(Side {
        number,
        unit: Some(unit),
    })
}

/// The number of blanks (spaces and tabs) at the start of a text.
fn blanks_at(text: &[u8]) -> usize
    ensures value { result ≡ prefix_len is_blank text.now }
    ensures within { result ≤ length text.now }
{
    text.iter()
        .take_while(|b| **b == b' ' || **b == b'\t')
        .count()
}

/// The unit with this name, compared as in `is_named`: `pt`, `cm`, `mm`, `in`, `inch` or `"`. None for any other name.
fn unit_of(name: &[u8]) -> Option<Unit>
    ensures { option_map length_unit result ≡ meaning.unit_of name.now }
{
    if is_named(name, b"pt") {
        Some(Unit::Pt)
    } else if is_named(name, b"cm") {
        Some(Unit::Cm)
    } else if is_named(name, b"mm") {
        Some(Unit::Mm)
    } else if is_inch(name) {
        Some(Unit::In)
    } else {
        None
    }
}

fn is_inch(name: &[u8]) -> bool
    ensures { result ≡ meaning.is_inch name.now }
{
    is_named(name, b"in") || (is_named(name, b"inch") || is_named(name, b"\""))
}

/// The paper of two sides. A width without a unit has the unit of the height. Fails with `Unknown` if a side is None, with `NoUnit` if the height has
/// no unit, and with `NoSuchSize` if a paper can't have these sides.
fn size_of_both(width: Option<Side>, height: Option<Side>) -> Result<Paper, PaperError>
    ensures { result ≡ meaning.size_of_both
        (option_map (λ s. (s.number, option_map length_unit s.unit)) width)
        (option_map (λ s. (s.number, option_map length_unit s.unit)) height) }
{
    match (width, height) {
        (Some(width), Some(height)) => size_of_sides(width, height),
        _ => Err(PaperError::Unknown),
    }
}

fn size_of_sides(width: Side, height: Side) -> Result<Paper, PaperError>
    ensures { result ≡ meaning.size_of_sides
        (width.number, option_map length_unit width.unit) (height.number, option_map length_unit height.unit) }
{
    match (width.unit, height.unit) {
        (Some(u), Some(v)) => in_units(width.number, u, height.number, v),
        (None, Some(v)) => in_units(width.number, v, height.number, v),
        (_, None) => Err(PaperError::NoUnit),
    }
}

/// The paper that is `width` units `u` wide and `height` units `v` high. Callers give only units that don't depend on a paper, so the a4 handed to
/// `to_grains` has no effect. Fails with `NoSuchSize` if a paper can't have these sides.
fn in_units(width: Number, u: Unit, height: Number, v: Unit) -> Result<Paper, PaperError>
    ensures { result ≡ meaning.in_units width (length_unit u) height (length_unit v) }
{
    paper_of_sides(to_grains(width, u, &a4()), to_grains(height, v, &a4()))
}

/// The paper with these sides, or `NoSuchSize` if a paper can't have them.
fn paper_of_sides(width: Grains, height: Grains) -> Result<Paper, PaperError>
    ensures { result ≡ meaning.paper_of_sides width height }
{
    match Paper::new(width, height) {
        Some(paper) => Ok(paper),
        None => Err(PaperError::NoSuchSize),
    }
}
