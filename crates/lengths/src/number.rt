//! Exact numbers with nine decimals, as page specifications have them.
ghost use Rattle.std.specs.Prelude.{◌≡◌, ◌↔◌, ◌+◌, ◌*◌, ◌^◌, ◌<◌, ◌≤◌, ℤ, neg_ℤ, IsSome, IfSome};
ghost use Rattle.rules.specs.Numbers.{greatest_whole, signed};
ghost use Rattle.lengths.specs.Ranges.{FitsNumber};

use std::marker::Model;
use std::ops::Neg;

/// The greatest number, as a multiple of 10^-9.
const GREATEST: u64 = 99_999_999_999_999;

/// A number with nine decimals, from -99,999.999999999 to 99,999.999999999. Contracts see it as a multiple of 10^-9, so that 1 is 1,000,000,000.
#[derive(Clone, Copy, Debug, PartialEq, Eq, Hash, PartialOrd, Ord)]
pub struct Number {
    billionths: i64,
}

impl Model for Number {
    ghost Value = { ℤ };

    ghost view = { λ n. n.billionths };

    ghost invariant = { λ n. FitsNumber n.billionths };

    ghost inverse = { λ v. record { billionths = v } };
}

impl Number {
    /// The number 0.
    pub const ZERO: Number = Number { billionths: 0 };
    /// The number 1.
    pub const ONE: Number = Number {
        billionths: 1_000_000_000,
    };

    /// The number that is `billionths` times 10^-9. None if it would be below -99,999.999999999 or above 99,999.999999999.
    pub fn new(billionths: i64) -> Option<Number>
        ensures fits { IsSome result ↔ FitsNumber billionths }
        ensures value { IfSome result (λ n. n ≡ billionths) }
    {
        if billionths.unsigned_abs() <= GREATEST {
            Some(Number { billionths })
        } else {
            None
        }
    }

    /// The number as a multiple of 10^-9.
    pub fn billionths(self) -> i64
        ensures value { result ≡ self }
        ensures in_range { FitsNumber self }
    {
        self.billionths
    }

    /// The number with this sign, this integer part and these nine decimals. `decimals` has the decimals as a multiple of 10^-9.
    pub(crate) fn of_parts(negative: bool, whole: u32, decimals: u32) -> Number
        requires whole { whole ≤ greatest_whole }
        requires decimals { decimals < 10 ^ 9 }
        ensures value { result ≡ signed negative (whole * 10 ^ 9 + decimals) }
        ensures in_range { FitsNumber result }
    {
        let size = i64::from(whole) * 1_000_000_000 + i64::from(decimals);
        Number {
            billionths: if negative { -size } else { size },
        }
    }
}

impl Neg for Number {
    type Output = Number;

    ghost neg_gives = { λ n r. r ≡ neg_ℤ n };

    fn neg(self) -> Number {
        let Number { billionths } = self;
        Number {
            billionths: -billionths,
        }
    }
}
