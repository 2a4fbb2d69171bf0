//! Reads lengths and names in the fields of comments.
ghost use Rattle.std.specs.Prelude.{◌≡◌, ◌≤◌, length, option_map, IfOk};
ghost use Rattle.std.specs.List.{prefix_len};
ghost use Rattle.rules.specs.Units.{is_blank};
ghost use Rattle.papers.specs.Media as meaning;

use dsc::{string_characters, string_len};
use lengths::{Grains, Unit, a4, read_number, to_grains};
use std::alloc::{AllocError, Global};

/// The name in a field. Parentheses around the whole field aren't part of the name.
pub(crate) fn name_in(field: &[u8]) -> &[u8]
    ensures { result.now ≡ meaning.name_in field.now }
{
    match field {
        [b'(', name @ .., b')'] => name,
        _ => field,
    }
}

/// The name at the start of a value, as it is written, and the text after the name. Blanks (spaces and tabs) before the
/// name are passed over. A name in parentheses is a PostScript string, which may contain blanks. None if the value has
/// only blanks.
pub(crate) fn name_and_rest(value: &[u8]) -> Option<(&[u8], &[u8])>
    ensures { option_map (λ p. (p.0.now, p.1.now)) result ≡ meaning.name_and_rest value.now }
{
    let (_, text) = value.split_at(leading_blanks(value));
    if text.is_empty() {
        return None;
    }
    Some(text.split_at(name_len(text)))
}

/// The name for which the bytes `written` stand. A name in parentheses is a PostScript string, which stands for its
/// characters. Fails only if memory is refused.
pub(crate) fn name_meant(alloc: Global, written: &[u8]) -> Result<Vec<u8>, AllocError>
    ensures { IfOk result (λ name. name.items ≡ meaning.name_meant written.now) }
{
    match written {
        [b'(', text @ .., b')'] => string_characters(alloc, text),
        _ => Vec::from_slice(alloc, written),
    }
}

/// The number of blanks (spaces and tabs) at the start of the text.
pub(crate) fn leading_blanks(text: &[u8]) -> usize
    ensures value { result ≡ prefix_len is_blank text.now }
    ensures within { result ≤ length text.now }
{
    text.iter()
        .take_while(|b| **b == b' ' || **b == b'\t')
        .count()
}

/// The length of the name at the start of the text. A name ends before the first blank. A name that begins with a
/// PostScript string ends before the first blank after the string.
fn name_len(text: &[u8]) -> usize
    ensures value { result ≡ meaning.name_len text.now }
    ensures within { result ≤ length text.now }
{
    match string_len(text) {
        Some(len) => {
            let (_, rest) = text.split_at(len);
            len + len_before_blank(rest)
        }
        None => len_before_blank(text),
    }
}

/// The length of the text before the first blank, or of the whole text if it has none.
fn len_before_blank(text: &[u8]) -> usize
    ensures value { result ≡ meaning.plain_len text.now }
    ensures within { result ≤ length text.now }
{
    text.iter()
        .take_while(|b| !(**b == b' ' || **b == b'\t'))
        .count()
}

/// The length, in grains, that a field gives in points. None if the field isn't a number, or if the integer part of the
/// number is over 99,999.
pub(crate) fn points_of(field: &[u8]) -> Option<Grains>
    ensures { result ≡ meaning.points_of field.now }
{
    let (number, len) = read_number(field).ok()?;
    if len < field.len() {
        return None;
    }
    // The unit `pt` doesn't depend on the paper, so any paper can be passed.
    Some(to_grains(number, Unit::Pt, &a4()))
}

/// Whether a length is given and is 0.
pub(crate) fn is_zero(length: Option<Grains>) -> bool
    ensures { result ≡ meaning.is_zero length }
{
    length.is_some_and(|length| length.get() == 0)
}
