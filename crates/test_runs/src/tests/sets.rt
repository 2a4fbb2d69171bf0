//! Tests of sets of a few sheet numbers.
use super::checks::{assert_that, done};
use imposer::SheetSet;

/// For one pair after the other, takes the smallest number from the set if it is below the pair's end. Returns whether each answer is the one in its
/// pair; `None` means that no number is taken.
fn are_taken(set: &mut SheetSet, wanted: &[(u32, Option<u32>)]) -> bool {
    wanted
        .iter()
        .all(|(end, number)| set.take_first_before(*end) == *number)
}

// Numbers that are inserted after larger ones were taken also come out in order.
#[test]
fn numbers_come_out_in_order_before_an_end(rt: HostRuntime) {
    let mut set = SheetSet::new(rt.alloc());
    assert_that(&rt, set.is_empty());
    for number in [700u32, 64, 63, 64] {
        done(&rt, set.insert(number));
    }
    assert_that(&rt, !set.is_empty());
    let wanted = [
        (63, None),
        (64, Some(63)),
        (64, None),
        (65, Some(64)),
        (700, None),
        (701, Some(700)),
        (5_000, None),
    ];
    assert_that(&rt, are_taken(&mut set, &wanted));
    assert_that(&rt, set.is_empty());
    done(&rt, set.insert(3));
    done(&rt, set.insert(0));
    let wanted = [(5_000, Some(0)), (u32::MAX, Some(3))];
    assert_that(&rt, are_taken(&mut set, &wanted));
    assert_that(&rt, set.is_empty());
}
