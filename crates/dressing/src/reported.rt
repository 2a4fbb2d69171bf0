//! The papers that sheets report.
ghost use Rattle.std.specs.Prelude.{◌≡◌, ◌≤◌, ◌^◌, nat_abs, IfOk, IsTrue, OnOk};
ghost use Rattle.rules.specs.Papers.{is_side};
ghost use Rattle.papers.specs.Reported.{in_print as printed, papers_reported, printed_parts as parts_of};
ghost use Rattle.dressing.specs.Sizes.{AreSizesOf, papers_of, size_of, with_paper};

use lengths::{Grains, Paper};
use sheet_plan::MadeSheets;
use std::alloc::{AllocError, Global};
use std::collections::BTreeSet;

/// The sides of a paper as they are printed, in whole 10^-5 of a point.
#[derive(Clone, Copy, Debug, PartialEq, Eq, PartialOrd, Ord)]
struct Size {
    width: i128,
    height: i128,
}

/// The papers that these sheets report, one for each printed size, in the order of the first sheets that have them. Fails if memory is refused, or if
/// there are 2^32 sheets or more.
pub fn reported_papers(alloc: Global, sheets: &MadeSheets) -> Result<Vec<Paper>, AllocError>
    ensures { IfOk result (λ reported. reported.items ≡ papers_reported (papers_of sheets.now)) }
{
    let Ok(count) = u32::try_from(sheets.len()) else {
        return Err(AllocError);
    };
    let mut reported = Vec::new(alloc);
    let mut sizes = BTreeSet::new(alloc);
    for sheet in 0..count {
        add_paper(&mut reported, &mut sizes, sheets.paper(sheet))?;
    }
    Ok(reported)
}

/// Adds a paper if no paper in `reported` has the same printed size. `sizes` has the printed sizes of all papers in `reported`.
fn add_paper(
    reported: &mut Vec<Paper>,
    sizes: &mut BTreeSet<Size>,
    paper: &Paper,
) -> Result<(), AllocError>
    requires { AreSizesOf reported.old.items sizes.old }
    ensures reported { OnOk result (reported.new.items ≡ with_paper reported.old.items paper.now) }
    ensures sizes { OnOk result (AreSizesOf reported.new.items sizes.new) }
{
    let size = size_in_print(paper);
    if sizes.contains(&size) {
        return Ok(());
    }
    reported.push(*paper)?;
    sizes.insert(size)?;
    Ok(())
}

/// The sides of a paper as they are printed, in whole 10^-5 of a point.
fn size_in_print(paper: &Paper) -> Size
    ensures { result ≡ size_of paper.now }
{
    Size {
        width: in_print(paper.width()),
        height: in_print(paper.height()),
    }
}

/// The side as it is printed, in whole 10^-5 of a point.
pub(crate) fn printed_parts(side: Grains) -> u128
    requires { IsTrue (is_side side) }
    ensures value { result ≡ parts_of side }
    ensures few { result ≤ 10 ^ 12 }
{
    in_print(side).unsigned_abs()
}

/// The side in whole 10^-5 of a point, rounded to the nearest whole number, half away from zero.
fn in_print(side: Grains) -> i128
    requires { IsTrue (is_side side) }
    ensures value { result ≡ printed side }
    ensures few { nat_abs result ≤ 10 ^ 12 }
{
    let size = (2 * side.get().unsigned_abs() + 1_270_000) / (2 * 1_270_000);
    size as i128
}
