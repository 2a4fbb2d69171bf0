//! Printing of numbers and lengths in decimals.
ghost use Rattle.std.specs.Prelude.{◌≡◌, ◌+◌, ◌*◌, ◌/◌, ◌%◌, ◌^◌, ◌<◌, ◌≤◌, ◌++◌, ℕ, ℤ, FitsSigned, nat_abs, drop};
ghost use Rattle.std.specs.Prelude.{decimal, length, [], ◌∷◌, if◌then◌else◌, OnOk, OnErr, vec_len, vec_capacity};
ghost use Rattle.rules.specs.Bytes.{minus_sign};
ghost use Rattle.rules.specs.Numbers.{without_last_zeros, decimals_of, fraction_text, is_negative, sign_text};
ghost use Rattle.rules.specs.Numbers.{whole_text, printed, scale_text, number_text, points_text};

use super::convert::rounded;
use super::grains::Grains;
use super::number::Number;
use itoa::Buffer;
use std::alloc::AllocError;

/// Appends a length in points, rounded to five decimals, half away from zero, but without zeros at the end of the decimals. If memory is refused,
/// nothing is appended.
pub fn print_points(grains: Grains, out: &mut Vec<u8>) -> Result<(), AllocError>
    ensures appended { OnOk result (out.new.items ≡ out.old.items ++ points_text grains) }
    ensures unchanged { OnErr result (out.new.items ≡ out.old.items) }
    ensures full { OnErr result (vec_capacity out.old < vec_len out.old + length (points_text grains)) }
    ensures capacity { vec_capacity out.old ≤ vec_capacity out.new }
{
    print_grains(grains.get(), out)
}

/// Appends `grains` in points, as `print_points` does. `grains` may be a length, or the difference of two lengths. If memory is refused, nothing is
/// appended.
pub fn print_grains(grains: i128, out: &mut Vec<u8>) -> Result<(), AllocError>
    requires { nat_abs grains ≤ 2 * 10 ^ 23 }
    ensures appended { OnOk result (out.new.items ≡ out.old.items ++ points_text grains) }
    ensures unchanged { OnErr result (out.new.items ≡ out.old.items) }
    ensures full { OnErr result (vec_capacity out.old < vec_len out.old + length (points_text grains)) }
    ensures capacity { vec_capacity out.old ≤ vec_capacity out.new }
{
    append_decimal(rounded(grains, 1_270_000) as i64, 5, out)
}

/// Appends a number with all of its decimals, except zeros at their end. If memory is refused, nothing is appended.
pub fn print_scale(number: Number, out: &mut Vec<u8>) -> Result<(), AllocError>
    ensures appended { OnOk result (out.new.items ≡ out.old.items ++ scale_text number) }
    ensures unchanged { OnErr result (out.new.items ≡ out.old.items) }
    ensures full { OnErr result (vec_capacity out.old < vec_len out.old + length (scale_text number)) }
    ensures capacity { vec_capacity out.old ≤ vec_capacity out.new }
{
    append_decimal(number.billionths(), 9, out)
}

/// Appends a number in the canonical form of page specifications. The text is that of `print_scale`, but without an integer part of 0 before a dot.
/// If memory is refused, nothing is appended.
pub fn print_number(number: Number, out: &mut Vec<u8>) -> Result<(), AllocError>
    ensures appended { OnOk result (out.new.items ≡ out.old.items ++ number_text number) }
    ensures unchanged { OnErr result (out.new.items ≡ out.old.items) }
    ensures full { OnErr result (vec_capacity out.old < vec_len out.old + length (number_text number)) }
    ensures capacity { vec_capacity out.old ≤ vec_capacity out.new }
{
    let size = number.billionths().unsigned_abs();
    let whole = size / 1_000_000_000;
    let mut whole_digits = Buffer::new();
    let mut part_digits = Buffer::new();
    let decimals = decimals_after_one(
        part_digits
            .format(1_000_000_000 + size % 1_000_000_000)
            .as_bytes(),
    );
    append_decimals(
        number < Number::ZERO,
        unless_dot_follows(whole, whole_digits.format(whole).as_bytes(), decimals),
        decimals,
        out,
    )
}

/// Appends `value` times 10^-`places` as a decimal number, without zeros at the end of its decimals. If memory is refused, nothing is appended.
fn append_decimal(value: i64, places: u32, out: &mut Vec<u8>) -> Result<(), AllocError>
    requires { places ≤ 9 }
    ensures appended { OnOk result (out.new.items ≡ out.old.items ++ printed places value) }
    ensures unchanged { OnErr result (out.new.items ≡ out.old.items) }
    ensures full { OnErr result (vec_capacity out.old < vec_len out.old + length (printed places value)) }
    ensures capacity { vec_capacity out.old ≤ vec_capacity out.new }
{
    let one = 10u64.pow(places);
    let size = value.unsigned_abs();
    let mut whole_digits = Buffer::new();
    let mut part_digits = Buffer::new();
    append_decimals(
        value < 0,
        whole_digits.format(size / one).as_bytes(),
        decimals_of_part(&mut part_digits, places, size % one),
        out,
    )
}

/// The decimals of the fraction `part` times 10^-`places`, without zeros at the end. `digits` is the buffer that keeps them. A `part` of 0 is tested
/// for first, because most numbers are whole.
fn decimals_of_part(digits: &mut Buffer, places: u32, part: u64) -> &[u8]
    requires places { places ≤ 9 }
    requires part { part < 10 ^ places }
    ensures value { result.now ≡ decimals_of places part }
    ensures short { length result.now ≤ 40 }
{
    if part == 0 {
        return &[];
    }
    decimals_after_one(digits.format(10u64.pow(places) + part).as_bytes())
}

/// The digits of the integer part `whole`, or no digits if it is 0 and decimals follow.
fn unless_dot_follows<'a>(whole: u64, digits: &'a [u8], decimals: &[u8]) -> &'a [u8]
    requires { digits.now ≡ decimal whole }
    ensures value { result.now ≡ whole_text whole decimals.now }
    ensures no_longer { length result.now ≤ length digits.now }
{
    if whole == 0 && !decimals.is_empty() {
        &[]
    } else {
        digits
    }
}

/// The decimals of a fraction, without zeros at the end. `one_and_part` has a 1 before the fraction's digits, so that it also has the zeros at the
/// start of the fraction.
fn decimals_after_one(one_and_part: &[u8]) -> &[u8]
    ensures value { result.now ≡ without_last_zeros (drop 1 one_and_part.now) }
    ensures no_longer { length result.now ≤ length one_and_part.now }
{
    match one_and_part {
        [_, part @ ..] => strip_zeros(part),
        [] => one_and_part,
    }
}

/// The digits without trailing zeros.
fn strip_zeros(digits: &[u8]) -> &[u8]
    ensures value { result.now ≡ without_last_zeros digits.now }
    ensures no_longer { length result.now ≤ length digits.now }
{
    let mut rest = digits;
    while let Some(front) = rest.strip_suffix(b"0") {
        rest = front;
    }
    rest
}

/// Appends a minus if the number is negative, then its integer part, then a dot and the decimals if there are any. If memory is refused, nothing is
/// appended.
fn append_decimals(
    negative: bool,
    whole: &[u8],
    decimals: &[u8],
    out: &mut Vec<u8>,
) -> Result<(), AllocError>
    requires whole { length whole.now ≤ 40 }
    requires decimals { length decimals.now ≤ 40 }
    ensures appended { OnOk result (out.new.items ≡
        out.old.items ++ ((if negative then minus_sign ∷ [] else []) ++ whole.now ++ fraction_text decimals.now)) }
    ensures unchanged { OnErr result (out.new.items ≡ out.old.items) }
    ensures full { OnErr result (vec_capacity out.old < vec_len out.old +
        length ((if negative then minus_sign ∷ [] else []) ++ whole.now ++ fraction_text decimals.now)) }
    ensures capacity { vec_capacity out.old ≤ vec_capacity out.new }
{
    let sign: &[u8] = if negative { b"-" } else { b"" };
    let point: &[u8] = if decimals.is_empty() { b"" } else { b"." };
    out.reserve(sign.len() + whole.len() + point.len() + decimals.len())?;
    out.extend_from_slice(sign)?;
    out.extend_from_slice(whole)?;
    out.extend_from_slice(point)?;
    out.extend_from_slice(decimals)
}
