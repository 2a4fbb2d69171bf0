//! The matrix by which a page is placed.
ghost use Rattle.std.specs.Prelude.{◌≡◌, ◌≤◌, ◌*◌, ◌^◌, ◌+ℤ◌, ◌*ℤ◌, pos, nat_abs};
ghost use Rattle.rules.specs.Papers.{Paper as Size};
ghost use Rattle.rules.specs.Specification.{Item as Taken};
ghost use Rattle.rules.specs.Placement.{put, applied, matrix_of};

use lengths::{Grains, Number};

/// The matrix `[a b c d tx ty]` of PostScript (Language Reference, coordinate systems and transformations). It sends the point (x, y) to (a x + c y +
/// tx, b x + d y + ty). The shift (tx, ty) is kept in grains.
#[derive(Clone, Copy, Debug, PartialEq, Eq)]
pub struct Matrix {
    pub a: Number,
    pub b: Number,
    pub c: Number,
    pub d: Number,
    pub tx: Grains,
    pub ty: Grains,
}

impl Matrix {
    ghost use Rattle.placement.specs.Matrices.{matrix_value, point};

    /// The place, in grains, to which the matrix sends a point. `x` and `y` are whole numbers of points.
    pub fn apply(&self, x: i32, y: i32) -> (i128, i128)
        ensures sent { point result.0 result.1 ≡ applied (matrix_value self.now) (point x y) }

        // The matrix of an item scales, then turns, then moves.
        ensures put { (paper : Size) (item : Taken) → matrix_value self.now ≡ matrix_of paper item →
            point result.0 result.1 ≡ put paper item (point x y) }
    {
        (
            sent(self.a, x, self.c, y, self.tx),
            sent(self.b, x, self.d, y, self.ty),
        )
    }
}

/// One coordinate, in grains, of the place to which a matrix sends the point (x, y).
fn sent(first: Number, x: i32, second: Number, y: i32, shift: Grains) -> i128
    ensures { result ≡ shift +ℤ pos 127 *ℤ (first *ℤ x +ℤ second *ℤ y) }
{
    shift.get() + 127 * (times(first, x) + times(second, y))
}

/// A number times a whole number, as a multiple of 10^-9.
fn times(number: Number, factor: i32) -> i128
    ensures value { result ≡ number *ℤ factor }
    ensures in_range { nat_abs result ≤ 10 ^ 24 }
{
    i128::from(number.billionths()) * i128::from(factor)
}
