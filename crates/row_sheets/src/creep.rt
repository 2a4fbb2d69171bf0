//! Booklets whose leaves creep. In a folded signature the inner leaves stick out, so their pages are moved towards the fold.
ghost use Rattle.std.specs.Prelude.{◌≡◌, ◌+◌, ◌*◌, ◌%◌, ◌<◌, ◌≤◌, ◌+ℤ◌, ◌*ℤ◌, pos, nat_abs, IfOk, IfErr, IfSome, OnOk, Some};
ghost use Rattle.std.specs.Prelude.{nat_le, true};
ghost use Rattle.rules.specs.Numbers.{greatest_number};
ghost use Rattle.pagespec.specs.Items.{item_of};
ghost use Rattle.layouts.specs.Cells.{size};
ghost use Rattle.layouts.specs.Fitted.{scale_on, why_not_fitted};
ghost use Rattle.row_sheets.specs.Filled.{in_half, is_turned as is_turned_on};
ghost use Rattle.row_sheets.specs.Creep.{creep_on as creep_on_side, up_to_fold, moved_up as moved_up_by};
ghost use Rattle.row_sheets.specs.Creep.{creeping, AreHalves, may_creep, why_not_creeping};
ghost use Rattle.row_sheets.specs.Standing.{FitsIn, FitsOnLeaf};

use layouts::{ArrangementError, Setting};
use lengths::{Number, Paper, Unit};
use pagespec::{Item, Measure};

/// The creep of the leaves in each signature.
#[derive(Clone, Copy, Debug, PartialEq, Eq)]
pub(crate) struct Creep {
    /// The distance by which pages on the innermost leaf are moved towards the fold, in 10^-5 of a point. Pages on the outermost leaf aren't moved,
    /// nor are pages in a signature of one leaf.
    pub(crate) innermost: u64,
    /// The number of leaves in a signature.
    pub(crate) leaves: u32,
}

/// Whether side `s` is rotated by 180 degrees: it is a back, and `turned_backs` is true. Sides are counted from 0, with each front followed by its
/// back.
pub(crate) fn is_half_turned(turned_backs: bool, s: u32) -> bool
    ensures { result ≡ is_turned_on turned_backs s }
{
    turned_backs && s % 2 == 1
}

/// The distance by which the pages on side `s`, counted from 0, are moved, in 10^-5 of a point, rounded down.
pub(crate) fn creep_on(creep: Creep, s: u64) -> u64
    ensures { result ≡ creep_on_side creep.innermost creep.leaves s }
{
    if creep.leaves <= 1 || creep.innermost == 0 {
        return 0;
    }
    let leaf = s / 2 % u64::from(creep.leaves);
    (u128::from(leaf) * u128::from(creep.innermost) / u128::from(creep.leaves - 1)) as u64
}

/// The same side of the previous leaf as side `s`. `None` if there is no previous leaf, or if it creeps by another distance.
pub(crate) fn leaf_before(creep: Creep, s: u32) -> Option<u32>
    ensures { IfSome result (λ before. (before < s) × (before % 2 ≡ s % 2)
        × (creep_on_side creep.innermost creep.leaves before ≡ creep_on_side creep.innermost creep.leaves s)) }
{
    if s < 2 || creep_on(creep, u64::from(s - 2)) != creep_on(creep, u64::from(s)) {
        return None;
    }
    Some(s - 2)
}

/// The item that places a page of this paper in a half of a side, moved towards the fold by `creep`, in 10^-5 of a point. `by_half` says whether the
/// side is rotated by 180 degrees. Fails if the page can't be placed in its half, and with `CreepOverFold` if it would cross the fold.
pub(crate) fn creeping_item(
    setting: &Setting,
    paper: &Paper,
    by_half: bool,
    creep: u64,
    cell: u32,
) -> Result<Item, ArrangementError>
    requires halves { AreHalves setting.now }
    requires cell { cell < 2 }
    ensures made { IfOk result (λ item. item_of item ≡ creeping setting.now by_half paper.now cell creep) }
    ensures fits { OnOk result (FitsOnLeaf setting.now paper.now creep) }
    ensures refused { IfErr result (λ error. why_not_creeping setting.now paper.now creep ≡ Some error) }
{
    let item = half_item(setting, paper, by_half, cell)?;
    check_fold(setting, paper, creep)?;
    let by = towards_fold(setting.order.right_to_left, by_half, cell, creep);
    Ok(moved_up(item, by))
}

/// The item that places a page of this paper in a half of a side whose leaf doesn't creep. `by_half` says whether the side is rotated by 180 degrees.
/// Fails if the page can't be placed there.
pub(crate) fn half_item(
    setting: &Setting,
    paper: &Paper,
    by_half: bool,
    cell: u32,
) -> Result<Item, ArrangementError>
    requires cell { cell < size setting.now.grid }
    requires halves { by_half ≡ true → 2 ≤ size setting.now.grid }
    ensures made { IfOk result (λ item. item_of item ≡ in_half setting.now by_half paper.now cell) }
    ensures fits { OnOk result (FitsIn setting.now paper.now) }
    ensures refused { IfErr result (λ error. why_not_fitted setting.now paper.now ≡ Some error) }
{
    if by_half {
        let item = setting.back_item(paper, cell)?;
        Ok(item)
    } else {
        let item = setting.item(paper, cell)?;
        Ok(item)
    }
}

/// Checks that a page of this paper doesn't cross the fold if its leaf creeps by this distance, in 10^-5 of a point. A distance of 0 always passes.
/// Fails with `CreepOverFold` if the page crosses the fold, and with the error of `Setting::scale` if it has no scale.
fn check_fold(setting: &Setting, paper: &Paper, creep: u64) -> Result<(), ArrangementError>
    requires halves { AreHalves setting.now }
    ensures possible { OnOk result
        (may_creep paper.now setting.now.room (scale_on setting.now paper.now) creep ≡ true) }
    ensures refused { IfErr result (λ error. why_not_creeping setting.now paper.now creep ≡ Some error) }
{
    if creep == 0 {
        return Ok(());
    }
    let slack = setting.slack(paper)?;
    if has_creep_room(slack, setting.room.gutter_up, creep) {
        Ok(())
    } else {
        Err(ArrangementError::CreepOverFold)
    }
}

/// Whether there is room at the fold for a leaf that creeps by this distance. `slack` is the length that the page leaves free on each side in its
/// half, and `gap` is the gap between the halves. All lengths are in 10^-5 of a point.
fn has_creep_room(slack: u128, gap: u64, creep: u64) -> bool
    ensures { result ≡ nat_le (2 * creep) (2 * slack + gap) }
{
    2 * u128::from(creep).saturating_sub(slack) <= u128::from(gap)
}

/// The distance by which the page in this cell is moved up to come nearer to the fold, in 10^-5 of a point. It is negative if the fold is below the
/// page. `by_half` says whether the side is rotated by 180 degrees.
fn towards_fold(right_to_left: bool, by_half: bool, cell: u32, creep: u64) -> i64
    requires { creep < 10_000_000_000 }
    ensures value { result ≡ up_to_fold right_to_left by_half cell creep }
    ensures in_range { nat_abs result < 10_000_000_000 }
{
    let creep = creep as i64;
    let is_before = if right_to_left { cell == 1 } else { cell == 0 };
    let up = if is_before { creep } else { -creep };
    if by_half { -up } else { up }
}

/// The item, moved up by a length in 10^-5 of a point. The offset of the item is in points.
fn moved_up(item: Item, by: i64) -> Item
    requires by { nat_abs by < 10_000_000_000 }
    requires reach { nat_abs ((item_of item).y.number +ℤ (pos 10_000 *ℤ by)) ≤ greatest_number }
    ensures { item_of result ≡ moved_up_by by (item_of item) }
{
    let (x, y) = item.offset;
    match Number::new(billionths_sum(y.number.billionths(), in_billionths(by))) {
        Some(number) => Item {
            offset: (
                x,
                Measure {
                    number,
                    unit: Unit::Pt,
                },
            ),
            ..item
        },
        None => unreachable!(),
    }
}

/// Converts a length in 10^-5 of a point to 10^-9 of a point.
fn in_billionths(by: i64) -> i64
    requires { nat_abs by < 10_000_000_000 }
    ensures { result ≡ pos 10_000 *ℤ by }
{
    10_000 * by
}

/// The sum of `one` and `other`. The caller has to show that the sum is in the range of numbers.
fn billionths_sum(one: i64, other: i64) -> i64
    requires { nat_abs (one +ℤ other) ≤ greatest_number }
    ensures { result ≡ one +ℤ other }
{
    one + other
}
