//! Papers, numbers and lengths as people write them.
ghost use Rattle.std.specs.Prelude.{◌≡◌};
ghost use Rattle.impose_words.specs.Sizes as meaning;

use command_words::border_named;
use lengths::{Grains, Number, Paper, a4, length_named, read_number};
use papers::read_paper;

/// The paper that the text names, by its name or by its width and height. `None` if there is no such paper.
pub fn size_named(text: &str) -> Option<Paper>
    ensures { result ≡ meaning.size_named text.now }
{
    read_paper(text.as_bytes()).ok()
}

/// The number that the whole text gives. `None` if the text isn't a number, or if the number without its sign is above 99,999.999999999. Decimals
/// after the ninth have no effect.
pub fn parse_number(text: &str) -> Option<Number>
    ensures { result ≡ meaning.number_alone text.now }
{
    match read_number(text.as_bytes()) {
        Ok((number, len)) if len == text.len() => Some(number),
        _ => None,
    }
}

/// Whether the text is a number that only lacks a unit to be a length. 0 needs no unit, except in a list.
pub fn lacks_unit(text: &str, is_listed: bool) -> bool
    ensures { result ≡ meaning.lacks_unit is_listed text.now }
{
    parse_number(text).is_some_and(|number| is_listed || number.billionths() != 0)
}

/// The length that the text names. Each length in a list needs a unit; a length alone needs one unless it is 0. `None` if the text isn't a length, or
/// lacks a unit that it needs.
pub(crate) fn length_in(text: &str, is_listed: bool) -> Option<Grains>
    ensures { result ≡ meaning.length_in is_listed text.now }
{
    if lacks_unit(text, is_listed) {
        None
    } else {
        length_named(&a4(), text.as_bytes())
    }
}

/// The length that the text names: a number with its unit, or 0. `None` for another text.
pub fn length_with_unit(text: &str) -> Option<Grains>
    ensures { result ≡ meaning.length_with_unit text.now }
{
    length_in(text, false)
}

/// The width of a border that the text names. `Some(None)` if the width is 0, which means no border. `None` if the text isn't a length, lacks a unit
/// that it needs, or names a negative length.
pub(crate) fn border_with_unit(text: &str) -> Option<Option<Grains>>
    ensures { result ≡ meaning.border_with_unit text.now }
{
    if lacks_unit(text, false) {
        None
    } else {
        border_named(&a4(), Some(text))
    }
}
