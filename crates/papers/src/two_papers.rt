//! Compares two papers, and covers both with one.
ghost use Rattle.std.specs.Prelude.{◌≡◌, IsTrue};
ghost use Rattle.rules.specs.Papers.{is_side};
ghost use Rattle.papers.specs.Media.{are_near as are_sides_near};
ghost use Rattle.papers.specs.Own.{counts_as_one as is_near_to, smallest_cover as covering_paper, larger as larger_side};

use lengths::{Grains, Paper};

/// The greatest difference, in grains, between two sides that count as equal: 15 points. Programs round the sizes of
/// one paper differently.
const NEARNESS: u128 = 15 * 127_000_000_000;

/// The smallest paper that covers both: it has the larger of their widths and the larger of their heights.
pub fn smallest_cover(a: &Paper, b: &Paper) -> Paper
    ensures { result ≡ covering_paper a.now b.now }
{
    let width = larger(a.width(), b.width());
    let height = larger(a.height(), b.height());
    match Paper::new(width, height) {
        Some(paper) => paper,
        None => unreachable!(),
    }
}

/// The larger of two sides.
fn larger(a: Grains, b: Grains) -> Grains
    requires a { IsTrue (is_side a) }
    requires b { IsTrue (is_side b) }
    ensures value { result ≡ larger_side a b }
    ensures side { IsTrue (is_side result) }
{
    if a.get() <= b.get() { b } else { a }
}

/// Whether two papers count as equal: their widths differ by at most 15 points, and so do their heights.
pub(crate) fn is_near(paper: &Paper, other: &Paper) -> bool
    ensures { result ≡ is_near_to paper.now other.now }
{
    are_near(paper.width(), other.width()) && are_near(paper.height(), other.height())
}

/// Whether two sides count as equal: they differ by at most 15 points.
fn are_near(one: Grains, other: Grains) -> bool
    requires one { IsTrue (is_side one) }
    requires other { IsTrue (is_side other) }
    ensures { result ≡ are_sides_near one other }
{
    (one.get() - other.get()).unsigned_abs() <= NEARNESS
}
