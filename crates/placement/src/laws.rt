//! Laws of printed matrices. The function states them in its `ensures`, and has an empty body.
ghost use Rattle.placement.specs.Printed.{PrintedIsRow, OneRow, PrintedIsNear};

/// The printed text of a matrix has its first four numbers exactly, and its shift rounded to the nearest 10^-5 of a point. No other numbers can be
/// read from the text. So the printed matrix sends each point with whole coordinates (in points) close to where the matrix itself sends it. Across
/// and up, the two places differ by at most 635,000 grains, which is half of 10^-5 of a point.
pub fn printed_matrix_is_near()
    ensures row { PrintedIsRow }
    ensures one { OneRow }
    ensures near { PrintedIsNear }
{}
