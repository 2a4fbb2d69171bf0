//! Reading of units, measures and modifiers at the start of a text.
ghost use Rattle.std.specs.Prelude.{◌≡◌, ◌<◌, ◌∷◌, ℕ, length, Some, None, MatchResult, MatchOption};
ghost use Rattle.rules.specs.Bytes.{at_sign, opening_parenthesis};
ghost use Rattle.rules.specs.Numbers.{IsNumber};
ghost use Rattle.rules.specs.Specification.{IsMeasure, IsModifier, Moved};
ghost use Rattle.rules.specs.Specification.{Measure as WrittenMeasure, Modifier as WrittenModifier};
ghost use Rattle.lengths.specs.Reading.{number_at, unsigned};
ghost use Rattle.lengths.specs.Units.{length_unit};
ghost use Rattle.pagespec.specs.Places.{StuckIn, StuckAfter, IsUnit};
ghost use Rattle.pagespec.specs.Reading.{byte_at, unit_at, past_letter, measure_at, offset_at, scale_at, modifier_at, quarters_of};
ghost use Rattle.pagespec.specs.Views.{MeasureRead, ModifierRead, IsMeasureOf, StandsFor};

use crate::item::Measure;
use lengths::{Number, NumberError, Unit, read_number};

/// A place in a text where reading stops: no grammatical text begins with the bytes up to and including the next one, or the text ends there.
#[derive(Clone, Copy)]
pub(crate) struct ParseStop {
    /// The number of bytes from this place to the end of the text.
    pub left: usize,
}

/// The rest of a text whose first part has been read.
#[derive(Clone, Copy)]
pub(crate) struct Rest<'t> {
    pub text: &'t [u8],
    /// The place at which further reading failed. It is at a byte of `text` or at its end.
    pub stuck: ParseStop,
}

/// A modifier as it is written. `TooLarge` means a scale or an offset with a number whose integer part is over 99,999; none of its values is kept.
#[derive(Clone, Copy)]
pub(crate) enum Modifier {
    /// A turn to the left by this number of quarters.
    Turn(u8),
    Scale(Number),
    Offset(Measure, Measure),
    TooLarge,
}

/// The modifier at the start of a text, and the text after it. If there is no modifier, the error is the place where reading stops.
pub(crate) fn read_modifier(bytes: &[u8]) -> Result<(Modifier, &[u8]), ParseStop>
    ensures { MatchResult result (λ x. ModifierRead bytes.now x.0 x.1.now)
        (λ stuck. StuckIn IsModifier modifier_at bytes.now stuck.left) }
{
    match bytes.split_first() {
        None => Err(ParseStop { left: 0 }),
        Some((first, rest)) => {
            if *first == b'@' {
                read_scale(rest)
            } else if *first == b'(' {
                read_offset(rest)
            } else {
                let quarters = quarters_of(*first);
                if quarters == 0 {
                    Err(ParseStop { left: bytes.len() })
                } else {
                    Ok((Modifier::Turn(quarters), rest))
                }
            }
        }
    }
}

/// The number of quarter turns to the left that a letter means, in upper or lower case. It is 0 if the letter means no turn.
fn quarters_of(letter: u8) -> u8
    ensures value { result ≡ quarters_of letter }
    ensures few { result < 4 }
{
    match letter {
        b'L' | b'l' => 1,
        b'U' | b'u' => 2,
        b'R' | b'r' => 3,
        _ => 0,
    }
}

/// Reads a scale after its `@`. If there is no number, the error is the place where reading stops.
fn read_scale(bytes: &[u8]) -> Result<(Modifier, &[u8]), ParseStop>
    ensures { MatchResult result
        (λ x. (m : WrittenModifier) × (scale_at bytes.now ≡ Some (m, x.1.now)) × StandsFor x.0 m)
        (λ stuck. StuckIn (λ t m. IsModifier (at_sign ∷ t) m) scale_at bytes.now stuck.left) }
{
    match read_number(bytes) {
        Ok((number, len)) => Ok((Modifier::Scale(number), bytes.split_at(len).1)),
        Err(NumberError::TooLarge(len)) => Ok((Modifier::TooLarge, bytes.split_at(len).1)),
        Err(NumberError::NotANumber) => Err(stop_in_number(bytes)),
    }
}

/// Reads an offset after its opening parenthesis. If the offset isn't complete, the error is the place where reading stops.
fn read_offset(bytes: &[u8]) -> Result<(Modifier, &[u8]), ParseStop>
    ensures { MatchResult result
        (λ x. (m : WrittenModifier) × (offset_at bytes.now ≡ Some (m, x.1.now)) × StandsFor x.0 m)
        (λ stuck. StuckIn (λ t m. IsModifier (opening_parenthesis ∷ t) m) offset_at bytes.now stuck.left) }
{
    let (x, after_x) = match read_measure(bytes) {
        Ok(found) => found,
        Err(stuck) => return Err(stuck),
    };
    let second = match read_byte(b',', after_x.text) {
        Some(second) => second,
        None => return Err(after_x.stuck),
    };
    let (y, after_y) = match read_measure(second) {
        Ok(found) => found,
        Err(stuck) => return Err(stuck),
    };
    match read_byte(b')', after_y.text) {
        Some(rest) => Ok((offset_of(x, y), rest)),
        None => Err(after_y.stuck),
    }
}

/// The modifier for an offset by `x` and `y`. A measure is None if the integer part of its number is over 99,999.
fn offset_of(x: Option<Measure>, y: Option<Measure>) -> Modifier
    ensures { (a b : WrittenMeasure) → IsMeasureOf x a → IsMeasureOf y b → StandsFor result (Moved a b) }
{
    match (x, y) {
        (Some(x), Some(y)) => Modifier::Offset(x, y),
        _ => Modifier::TooLarge,
    }
}

/// Reads a number and its unit, which is points if none is written. The measure is None if the integer part of the number is over 99,999. If there is
/// no number, the error is the place where reading stops.
fn read_measure(bytes: &[u8]) -> Result<(Option<Measure>, Rest<'_>), ParseStop>
    ensures { MatchResult result (λ x. MeasureRead bytes.now x.0 x.1.text.now
        × StuckAfter IsMeasure measure_at bytes.now x.1.text.now x.1.stuck.left)
        (λ stuck. StuckIn IsMeasure measure_at bytes.now stuck.left) }
{
    match read_number(bytes) {
        Ok((number, len)) => {
            let (unit, rest) = read_unit(bytes.split_at(len).1);
            Ok((Some(Measure { number, unit }), rest))
        }
        Err(NumberError::TooLarge(len)) => {
            let (_, rest) = read_unit(bytes.split_at(len).1);
            Ok((None, rest))
        }
        Err(NumberError::NotANumber) => Err(stop_in_number(bytes)),
    }
}

/// The unit at the start of a text, or points if there is none. If the text begins with the first letter of a two-letter unit, but not with the whole
/// unit, the rest begins before this letter, and further reading fails after it.
fn read_unit(bytes: &[u8]) -> (Unit, Rest<'_>)
    ensures unit { (unit_at bytes.now).0 ≡ length_unit result.0 }
    ensures rest { (unit_at bytes.now).1 ≡ result.1.text.now }
    ensures stuck { StuckAfter IsUnit (λ t. Some (unit_at t)) bytes.now result.1.text.now result.1.stuck.left }
{
    let (unit, text) = split_unit(bytes);
    let left = text.len().min(past_letter(bytes).len());
    let stuck = ParseStop { left };
    (unit, Rest { text, stuck })
}

/// The unit at the start of a text, or points if there is none, and the text after it.
fn split_unit(bytes: &[u8]) -> (Unit, &[u8])
    ensures unit { (unit_at bytes.now).0 ≡ length_unit result.0 }
    ensures rest { (unit_at bytes.now).1 ≡ result.1.now }
{
    match bytes {
        [b'w', rest @ ..] => (Unit::W, rest),
        [b'h', rest @ ..] => (Unit::H, rest),
        [b'p', b't', rest @ ..] => (Unit::Pt, rest),
        [b'c', b'm', rest @ ..] => (Unit::Cm, rest),
        [b'm', b'm', rest @ ..] => (Unit::Mm, rest),
        [b'i', b'n', rest @ ..] => (Unit::In, rest),
        _ => (Unit::Pt, bytes),
    }
}

/// The text after the first letter of a two-letter unit. A text that doesn't begin with such a letter is returned whole.
fn past_letter(bytes: &[u8]) -> &[u8]
    ensures { result.now ≡ past_letter bytes.now }
{
    match bytes {
        [b'p' | b'c' | b'm' | b'i', rest @ ..] => rest,
        _ => bytes,
    }
}

/// A rest of which nothing can be read: reading failed at the start of its text.
pub(crate) fn rest_at(text: &[u8]) -> Rest<'_>
    ensures text { result.text.now ≡ text.now }
    ensures left { result.stuck.left ≡ length text.now }
{
    Rest {
        text,
        stuck: ParseStop { left: text.len() },
    }
}

/// The text after its first byte, if this byte is `byte`. Otherwise None.
pub(crate) fn read_byte(byte: u8, bytes: &[u8]) -> Option<&[u8]>
    ensures { MatchOption result (byte_at byte bytes.now ≡ None) (λ rest. byte_at byte bytes.now ≡ Some rest.now) }
{
    match bytes.split_first() {
        Some((first, rest)) if *first == byte => Some(rest),
        _ => None,
    }
}

/// The place at which reading a number fails in a text that doesn't begin with one. If the text begins with a sign, a dot, or a sign and a dot, the
/// place is after them.
fn stop_in_number(bytes: &[u8]) -> ParseStop
    requires { number_at bytes.now ≡ None }
    ensures { StuckIn IsNumber number_at bytes.now result.left }
{
    let body = past_sign(bytes);
    match read_byte(b'.', body) {
        Some(decimals) => ParseStop {
            left: decimals.len(),
        },
        None => ParseStop { left: body.len() },
    }
}

/// The text after its sign. A text that doesn't begin with a sign is returned whole.
fn past_sign(bytes: &[u8]) -> &[u8]
    ensures { result.now ≡ unsigned bytes.now }
{
    match bytes {
        [b'+' | b'-', rest @ ..] => rest,
        _ => bytes,
    }
}
