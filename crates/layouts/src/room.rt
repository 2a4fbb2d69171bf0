//! A sheet with its margins and gaps.
ghost use Rattle.std.specs.Prelude.{◌≡◌, ◌≤◌, IsTrue};
ghost use Rattle.layouts.specs.Refusals.{are_lengths as may_be_lengths, is_even as are_even, is_length as may_be_length};
ghost use Rattle.layouts.specs.Cells.{along_height, along_width, held_across as across_of, held_down as down_of};
ghost use Rattle.layouts.specs.Grids.{has_bare_edges as have_nothing, room_of, rounded_up as rounded_up_of, rounded_down as rounded_down_of};

use super::arrangement::Free;
use super::scale::{HUNDRED_THOUSANDTH, OUT_OF_REACH};
use lengths::{Grains, Paper};
use std::marker::Model;

/// A sheet: its paper, its margins, its gaps between cells side by side and one above another, and the length that is trimmed along each side of its
/// pages. Margins, gaps and trim are in 10^-5 of a point. Contracts see it as the room of the definitions.
#[derive(Clone, Copy, Debug, PartialEq, Eq)]
pub struct Room {
    pub paper: Paper,
    pub left: u64,
    pub right: u64,
    pub bottom: u64,
    pub top: u64,
    pub gutter_across: u64,
    pub gutter_up: u64,
    pub trim: u64,
}

impl Model for Room {
    ghost use Rattle.std.specs.Prelude.{◌≤◌};
    ghost use Rattle.layouts.specs.Placed.{Room as Kept};

    ghost Value = { Kept };

    ghost view = { λ r. record {
      paper = r.paper;
      left = r.left;
      right = r.right;
      bottom = r.bottom;
      top = r.top;
      gutter_across = r.gutter_across;
      gutter_up = r.gutter_up;
      trim = r.trim;
    } };

    ghost invariant = { λ r.
        (r.left ≤ 10_000_000_000) × (r.right ≤ 10_000_000_000) × (r.bottom ≤ 10_000_000_000)
        × (r.top ≤ 10_000_000_000) × (r.gutter_across ≤ 10_000_000_000) × (r.gutter_up ≤ 10_000_000_000)
        × (r.trim ≤ 10_000_000_000) };

    ghost inverse = { λ r. record {
      paper = r.paper;
      left = r.left;
      right = r.right;
      bottom = r.bottom;
      top = r.top;
      gutter_across = r.gutter_across;
      gutter_up = r.gutter_up;
      trim = r.trim;
    } };
}

/// The margins and the gap along one side of a sheet, and the trim of its pages, in 10^-5 of a point. `before` is the margin before the cells, and
/// `after` is the margin after them. Contracts see the same four lengths.
#[derive(Clone, Copy, Debug, PartialEq, Eq)]
pub struct Along {
    pub before: u64,
    pub after: u64,
    pub gap: u64,
    pub trim: u64,
}

impl Model for Along {
    ghost use Rattle.std.specs.Prelude.{◌≤◌};
    ghost use Rattle.layouts.specs.Cells.{Along as Kept};

    ghost Value = { Kept };

    ghost view = { λ a. record { before = a.before; after = a.after; gap = a.gap; trim = a.trim } };

    ghost invariant = { λ a.
        (a.before ≤ 10_000_000_000) × (a.after ≤ 10_000_000_000) × (a.gap ≤ 10_000_000_000) × (a.trim ≤ 10_000_000_000) };

    ghost inverse = { λ a. record { before = a.before; after = a.after; gap = a.gap; trim = a.trim } };
}

impl Room {
    /// The sheet that has this paper, with these margins, gaps and trim, rounded as `Free` says.
    pub(crate) fn of(sheet: Paper, free: &Free) -> Room
        requires { IsTrue (may_be_lengths free.now) }
        ensures { result ≡ room_of sheet free.now }
    {
        Room {
            paper: sheet,
            left: rounded_up(free.left),
            right: rounded_up(free.right),
            bottom: rounded_up(free.bottom),
            top: rounded_up(free.top),
            gutter_across: rounded_up(free.across),
            gutter_up: rounded_up(free.up),
            trim: rounded_down(free.trim),
        }
    }

    /// The margins, the gap and the trim along the width of the sheet.
    pub fn along_width(&self) -> Along
        ensures { result ≡ along_width self.now }
    {
        Along {
            before: self.left,
            after: self.right,
            gap: self.gutter_across,
            trim: self.trim,
        }
    }

    /// The margins, the gap and the trim along the height of the sheet.
    pub fn along_height(&self) -> Along
        ensures { result ≡ along_height self.now }
    {
        Along {
            before: self.bottom,
            after: self.top,
            gap: self.gutter_up,
            trim: self.trim,
        }
    }

    /// The margins, the gap and the trim in both directions, with the sheet held so that its pages are upright. Those across come first, then those
    /// down. `turned` says whether the pages are turned to the left on the sheet as it lies.
    pub(crate) fn as_read(&self, turned: bool) -> (Along, Along)
        ensures across { result.0 ≡ across_of turned self.now }
        ensures down { result.1 ≡ down_of turned self.now }
    {
        if turned {
            (self.along_height(), self.along_width())
        } else {
            (self.along_width(), self.along_height())
        }
    }

    /// Whether there are no margins and no trim.
    pub(crate) fn has_bare_edges(&self) -> bool
        ensures { result ≡ have_nothing self.now }
    {
        self.left + self.right + (self.bottom + self.top) == 0 && self.trim == 0
    }

    /// Whether opposite margins are equal.
    pub(crate) fn is_even(&self) -> bool
        ensures { result ≡ are_even self.now }
    {
        self.left == self.right && self.bottom == self.top
    }
}

/// Whether each of these lengths is at least 0 and below 100,000 points.
pub(crate) fn are_lengths(free: &Free) -> bool
    ensures { result ≡ may_be_lengths free.now }
{
    let beside = is_length(free.left) && is_length(free.right);
    let above = is_length(free.bottom) && is_length(free.top);
    let inner = is_length(free.across) && is_length(free.up) && is_length(free.trim);
    beside && above && inner
}

/// Whether a length is at least 0 and below 100,000 points.
pub fn is_length(length: Grains) -> bool
    ensures { result ≡ may_be_length length }
{
    let grains = length.get();
    0 <= grains && grains < i128::from(OUT_OF_REACH)
}

/// A length in whole 10^-5 of a point, rounded up.
pub fn rounded_up(length: Grains) -> u64
    requires { IsTrue (may_be_length length) }
    ensures value { result ≡ rounded_up_of length }
    ensures in_range { result ≤ 10_000_000_000 }
{
    (length.get() as u64 + (HUNDRED_THOUSANDTH - 1)) / HUNDRED_THOUSANDTH
}

/// A length in whole 10^-5 of a point, rounded down.
pub fn rounded_down(length: Grains) -> u64
    requires { IsTrue (may_be_length length) }
    ensures value { result ≡ rounded_down_of length }
    ensures in_range { result ≤ 10_000_000_000 }
{
    length.get() as u64 / HUNDRED_THOUSANDTH
}
