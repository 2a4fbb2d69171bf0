//! Reading of numbers at the start of a text.
ghost use Rattle.std.specs.Prelude.{◌≡◌, ◌≢◌, ◌+◌, ◌*◌, ◌^◌, ◌<◌, ◌≤◌, min, [], ◌++◌, length, take, drop, replicate};
ghost use Rattle.std.specs.Prelude.{slice_index, IfOk, IfErr, MatchOption};
ghost use Rattle.std.specs.Char.{is_ascii_digit};
ghost use Rattle.std.specs.List.{AllPass};
ghost use Rattle.rules.specs.Bytes.{digit_zero};
ghost use Rattle.rules.specs.Numbers.{IsNumberRead, number_of, decimals_value, signed};
ghost use Rattle.lengths.specs.Ranges.{FitsNumber};
ghost use Rattle.lengths.specs.Reading.{least_large, digits, past_digits, unsigned, is_minus, decimals_at};
ghost use Rattle.lengths.specs.Reading.{past_decimals, number_at};
ghost use Rattle.lengths.specs.Refusals.{outcome_of, IsRefused};

use super::number::Number;
use thiserror::Error;

/// The least integer part that is too large for a `Number`.
const LEAST_LARGE: u32 = 100_000;

/// Why no number was read.
#[derive(Clone, Copy, Debug, PartialEq, Eq, Error)]
pub enum NumberError {
    /// The text doesn't begin with a number.
    #[error("not a number")]
    NotANumber,
    /// The integer part is over 99,999. The value is the length in bytes of the number's text.
    #[error("number over 99,999")]
    TooLarge(usize),
}

/// The longest number at the start of a text, and its length in bytes.
///
/// As in the page specifications of pstops, a number is digits with an optional sign before them and an optional dot before, among or after them.
/// Decimals after the ninth are read, but have no effect. There is no exponent. A text is refused if it doesn't begin with a number, or if the
/// integer part of the number is over 99,999.
pub fn read_number(bytes: &[u8]) -> Result<(Number, usize), NumberError>
    ensures longest { IsNumberRead bytes.now (outcome_of result) }

    // The same result, stated with the definition that reads a number at the start of a text.
    ensures found { IfOk result (λ x.
        (x.1 ≤ length bytes.now) × (number_at bytes.now ≡ Some (x.0, drop x.1 bytes.now))) }
    ensures none { IfErr result (IsRefused bytes.now) }
{
    scan_number(bytes)
}

/// The value of the digits at the start of a text, but at most 100,000, and the text after these digits. None if the text doesn't begin with a digit.
pub fn read_digits(bytes: &[u8]) -> Option<(u32, &[u8])>
    ensures { let front = digits bytes.now in MatchOption result (front ≡ []) (λ x.
        (front ≢ []) × (x.0 ≡ min least_large (number_of front)) × (x.1.now ≡ past_digits bytes.now)) }
{
    let (front, rest) = split_digits(bytes);
    if front.is_empty() {
        return None;
    }
    Some((capped(front), rest))
}

/// The result of `read_number`, as the definition `number_at` gives it.
fn scan_number(bytes: &[u8]) -> Result<(Number, usize), NumberError>
    ensures found { IfOk result (λ x. number_at bytes.now ≡ Some (x.0, drop x.1 bytes.now)) }
    ensures within { IfOk result (λ x. x.1 ≤ length bytes.now) }
    ensures in_range { IfOk result (λ x. FitsNumber x.0) }
    ensures refused { IfErr result (IsRefused bytes.now) }
{
    let (negative, body) = split_sign(bytes);
    let (whole, point) = split_digits(body);
    let (decimals, rest) = split_decimals(point);
    if whole.len() + decimals.len() == 0 {
        return Err(NumberError::NotANumber);
    }
    let len = bytes.len() - rest.len();
    let points = capped(whole);
    if points == LEAST_LARGE {
        return Err(NumberError::TooLarge(len));
    }
    Ok((Number::of_parts(negative, points, nine(decimals)), len))
}

/// Whether a text begins with a minus, and the text after its sign, a minus or a plus. A text that begins with no sign is returned whole.
fn split_sign(bytes: &[u8]) -> (bool, &[u8])
    ensures sign { result.0 ≡ is_minus bytes.now }
    ensures rest { result.1.now ≡ unsigned bytes.now }
{
    match bytes {
        [b'-', rest @ ..] => (true, rest),
        [b'+', rest @ ..] => (false, rest),
        _ => (false, bytes),
    }
}

/// The digits after a dot at the start of a text, and the text after them. If the text doesn't begin with a dot, there are no digits, and the text is
/// returned whole.
fn split_decimals(bytes: &[u8]) -> (&[u8], &[u8])
    ensures front { result.0.now ≡ decimals_at bytes.now }
    ensures rest { result.1.now ≡ past_decimals bytes.now }
{
    match bytes {
        [b'.', rest @ ..] => split_digits(rest),
        _ => (&[], bytes),
    }
}

/// The digits at the start of a text, and the text after them.
fn split_digits(bytes: &[u8]) -> (&[u8], &[u8])
    ensures front { result.0.now ≡ digits bytes.now }
    ensures rest { result.1.now ≡ past_digits bytes.now }
{
    bytes.split_at(digits_len(bytes))
}

/// The number of digits at the start of a text.
fn digits_len(bytes: &[u8]) -> usize
    ensures within { result ≤ length bytes.now }
    ensures front { take result bytes.now ≡ digits bytes.now }
    ensures rest { drop result bytes.now ≡ past_digits bytes.now }
{
    for (i, b) in bytes.iter().enumerate() {
        if !b.is_ascii_digit() {
            return i;
        }
    }
    bytes.len()
}

/// The value of the digits, but at most 100,000.
fn capped(digits: &[u8]) -> u32
    requires { AllPass is_ascii_digit digits.now }
    ensures { result ≡ min least_large (number_of digits.now) }
{
    let mut n: u32 = 0;
    for d in digits {
        n = (n * 10 + u32::from(*d - b'0')).min(LEAST_LARGE);
    }
    n
}

/// The first nine decimals as a multiple of 10^-9. Missing decimals are 0.
fn nine(decimals: &[u8]) -> u32
    requires { AllPass is_ascii_digit decimals.now }
    ensures value { result ≡ decimals_value 9 decimals.now }
    ensures below { result < 1_000_000_000 }
{
    let mut n: u32 = 0;
    for i in 0..9usize {
        n = n * 10 + decimal_at(decimals, i);
    }
    n
}

/// The value of the decimal at index `i`, counted from 0. It is 0 if there are at most `i` decimals.
fn decimal_at(decimals: &[u8], i: usize) -> u32
    requires digits { AllPass is_ascii_digit decimals.now }
    requires place { i < 9 }
    ensures value { result + digit_zero ≡ slice_index (decimals.now ++ replicate 9 digit_zero) i }
    ensures below { result < 10 }
{
    if i < decimals.len() {
        u32::from(decimals[i] - b'0')
    } else {
        0
    }
}
