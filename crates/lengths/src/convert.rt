//! Conversion of lengths from units to grains.
ghost use Rattle.std.specs.Prelude.{◌≡◌, ◌+◌, ◌*◌, ◌^◌, ◌<◌, ◌*ℤ◌, nat_abs, IsTrue};
ghost use Rattle.rules.specs.Numbers.{rounded as nearest};
ghost use Rattle.rules.specs.Papers.{grains, is_side};
ghost use Rattle.lengths.specs.Units.{length_unit};

use super::grains::Grains;
use super::number::Number;
use super::paper::Paper;
use super::unit::Unit;

/// The length of `number` units on this paper, in grains. A multiple of the paper's width or height is rounded to the nearest grain, half away from
/// zero. Other units need no rounding, because 10^-9 of each is a whole number of grains.
pub fn to_grains(number: Number, unit: Unit, paper: &Paper) -> Grains
    ensures { result ≡ grains paper.now number (length_unit unit) }
{
    let billionths = i128::from(number.billionths());
    match unit {
        Unit::Pt => Grains::of(billionths * 127),
        Unit::Cm => Grains::of(billionths * 3_600),
        Unit::Mm => Grains::of(billionths * 360),
        Unit::In => Grains::of(billionths * 9_144),
        Unit::W => share_of_side(number, paper.width()),
        Unit::H => share_of_side(number, paper.height()),
    }
}

/// `number` times the length of this side, rounded to the nearest grain, half away from zero.
fn share_of_side(number: Number, side: Grains) -> Grains
    requires { IsTrue (is_side side) }
    ensures { result ≡ nearest (number *ℤ side) (10 ^ 9) }
{
    let product = i128::from(number.billionths()) * side.get();
    Grains::of(rounded(product, 1_000_000_000))
}

/// `value` divided by `divisor`, rounded to the nearest whole number, half away from zero.
pub(crate) fn rounded(value: i128, divisor: u128) -> i128
    requires divisor { 0 < divisor }
    requires fits { 2 * nat_abs value + divisor < 2 ^ 127 }
    ensures { result ≡ nearest value divisor }
{
    let size = (2 * value.unsigned_abs() + divisor) / (2 * divisor);
    if value < 0 {
        -(size as i128)
    } else {
        size as i128
    }
}
