//! Papers, given by their width and height.
ghost use Rattle.std.specs.Prelude.{◌≡◌, ◌↔◌, ◌<◌, IsSome, IfSome, IsTrue};
ghost use Rattle.rules.specs.Papers.{is_paper, is_side, points};

use super::grains::Grains;
use std::marker::Model;

/// The number of grains in a point.
const GRAINS_OF_POINT: i128 = 127_000_000_000;

/// The longest side that a paper may have, in grains: 99,999.999999999 inches.
const LONGEST_SIDE: i128 = 914_399_999_999_990_856;

/// A paper, given by its width and height. Each side is from 1 to 914,399,999,999,990,856 grains long.
#[derive(Clone, Copy, Debug, PartialEq, Eq, Hash)]
pub struct Paper {
    pub width: Grains,
    pub height: Grains,
}

impl Model for Paper {
    ghost use Rattle.std.specs.Prelude.{IsTrue};
    ghost use Rattle.rules.specs.Papers.{Paper as PaperSize, is_paper};

    ghost Value = { PaperSize };

    ghost view = { λ p. record { width = p.width; height = p.height } };

    ghost invariant = { λ p. IsTrue (is_paper p.width p.height) };

    ghost inverse = { λ p. record { width = p.width; height = p.height } };
}

impl Paper {
    /// The paper of this width and height. None if a side is shorter than 1 grain or longer than 914,399,999,999,990,856 grains.
    pub fn new(width: Grains, height: Grains) -> Option<Paper>
        ensures fits { IsSome result ↔ IsTrue (is_paper width height) }
        ensures sides { IfSome result (λ p. p ≡ record { width = width; height = height }) }
    {
        if may_be_side(width) && may_be_side(height) {
            Some(Paper { width, height })
        } else {
            None
        }
    }

    /// The paper that is `width` points wide and `height` points high.
    pub(crate) fn of_points(width: u32, height: u32) -> Paper
        requires width { (0 < width) × (width < 7_200_000) }
        requires height { (0 < height) × (height < 7_200_000) }
        ensures { result ≡ points width height }
    {
        Paper {
            width: Grains::of(i128::from(width) * GRAINS_OF_POINT),
            height: Grains::of(i128::from(height) * GRAINS_OF_POINT),
        }
    }

    /// The width, in grains.
    pub fn width(&self) -> Grains
        ensures value { result ≡ self.now.width }
        ensures in_range { IsTrue (is_side result) }
    {
        self.width
    }

    /// The paper with its width and height exchanged.
    pub fn turned(&self) -> Paper
        ensures { result ≡ record { width = self.now.height; height = self.now.width } }
    {
        Paper {
            width: self.height,
            height: self.width,
        }
    }

    /// The height, in grains.
    pub fn height(&self) -> Grains
        ensures value { result ≡ self.now.height }
        ensures in_range { IsTrue (is_side result) }
    {
        self.height
    }
}

/// Whether a paper may have a side of this length.
fn may_be_side(side: Grains) -> bool
    ensures { result ≡ is_side side }
{
    1 <= side.get() && side.get() <= LONGEST_SIDE
}
