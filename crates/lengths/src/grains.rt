//! Exact lengths, in grains.
ghost use Rattle.std.specs.Prelude.{◌≡◌, ◌↔◌, ℤ, IsSome, IfSome};
ghost use Rattle.lengths.specs.Ranges.{FitsGrains};

use std::marker::Model;

/// A length: a whole number of grains, from -10^23 to 10^23. A point has 127,000,000,000 grains. Contracts see a `Grains` as that whole number.
#[derive(Clone, Copy, Debug, PartialEq, Eq, Hash, PartialOrd, Ord)]
pub struct Grains {
    count: i128,
}

impl Model for Grains {
    ghost Value = { ℤ };

    ghost view = { λ g. g.count };

    ghost invariant = { λ g. FitsGrains g.count };

    ghost inverse = { λ v. record { count = v } };
}

impl Grains {
    /// The length 0.
    pub const ZERO: Grains = Grains { count: 0 };

    /// The length of `count` grains. None if `count` is below -10^23 or above 10^23.
    pub fn new(count: i128) -> Option<Grains>
        ensures fits { IsSome result ↔ FitsGrains count }
        ensures value { IfSome result (λ g. g ≡ count) }
    {
        if count.unsigned_abs() <= 100_000_000_000_000_000_000_000 {
            Some(Grains { count })
        } else {
            None
        }
    }

    /// The number of grains.
    pub fn get(self) -> i128
        ensures value { result ≡ self }
        ensures in_range { FitsGrains self }
    {
        self.count
    }

    /// The length of `count` grains. The caller has to show that `count` is from -10^23 to 10^23.
    pub(crate) fn of(count: i128) -> Grains
        requires { FitsGrains count }
        ensures { result ≡ count }
    {
        Grains { count }
    }
}
