//! Tests of seats of the shared table: a seat is split into two, which meet and are joined.
use crate::tests::WHOLE;
use crate::tests::checks::{assert_that, done};
use gather_table::GatherTable;
use pagespec::read_spec;
use sheet_plan::Plan;
use std::alloc::Global;
use std::process::Abort;

/// Publishes a page through one of two seats, if the plan has a page, and returns the index that the other seat finds after the two have met. `None`
/// if the plan has no page. Asserts that the two seats together have the shares of the whole seat.
fn found_by_the_other<R: Abort>(rt: &R, alloc: Global, plan: &Plan) -> Option<u32> {
    let (table, mut one) = done(rt, GatherTable::new(alloc, plan));
    let two = table.split(&mut one, 1);
    assert_that(rt, (one.share(), two.share()) == (4_294_967_295, 1));
    if plan.pages() == 0 {
        assert_that(rt, table.join(one, two).share() == WHOLE);
        return None;
    }
    table.publish(&mut one, 0, 5);
    let (one, mut two) = table.meet(one, two);
    let found = table.page_at(&mut two, 0);
    assert_that(rt, table.join(one, two).share() == WHOLE);
    found
}

#[test]
fn a_seat_finds_what_another_published_when_they_meet(rt: HostRuntime) {
    let spec = done(&rt, read_spec(rt.alloc(), "2:0+1"));
    for (pages, index) in [(0, None), (2, Some(5))] {
        let plan = done(&rt, Plan::new(rt.alloc(), &spec, pages));
        assert_that(&rt, found_by_the_other(&rt, rt.alloc(), &plan) == index);
    }
}
