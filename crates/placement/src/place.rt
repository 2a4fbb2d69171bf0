//! The matrix of an item.
ghost use Rattle.std.specs.Prelude.{◌≡◌};
ghost use Rattle.rules.specs.Placement.{Point, put, applied, matrix_of as matrix_for};
ghost use Rattle.pagespec.specs.Items.{item_of};
ghost use Rattle.placement.specs.Matrices.{matrix_value};

use super::matrix::Matrix;
use lengths::{Number, Paper, to_grains};
use pagespec::{Item, Turn};

/// The matrix that places the page of an item. In the item's offset, `w` and `h` are the width and the height of `paper`. The page is scaled about
/// its lower left corner, then turned about this corner, then moved (pstops manual, page specifications).
pub fn matrix_of(item: &Item, paper: &Paper) -> Matrix
    ensures numbers { matrix_value result ≡ matrix_for paper.now (item_of item.now) }
    ensures put { (p : Point) → applied (matrix_value result) p ≡ put paper.now (item_of item.now) p }
{
    let scale = item.scale;
    let zero = Number::ZERO;
    let (a, b, c, d) = match item.turn {
        Turn::None => (scale, zero, zero, scale),
        Turn::Left => (zero, scale, -scale, zero),
        Turn::Half => (-scale, zero, zero, -scale),
        Turn::Right => (zero, -scale, scale, zero),
    };
    let (x, y) = item.offset;
    Matrix {
        a,
        b,
        c,
        d,
        tx: to_grains(x.number, x.unit, paper),
        ty: to_grains(y.number, y.unit, paper),
    }
}
