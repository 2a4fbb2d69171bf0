//! Tests that make tables, queues and shelves, some of them as large as the limits allow. With enough memory all of them can be made.
use crate::tests::checks::{assert_that, done};
use gather_table::{GatherTable, PlainTable};
use handover::{Ready, Shelf};
use pagespec::read_spec;
use sheet_plan::Plan;
use sheet_writer::ReorderBuffer;
use std::alloc::Global;
use std::process::Abort;
use test_tools::{BOOKLET, Refused, has_refused, refuse, refuse_each, same_items};

/// Returns whether a growth was refused while this object was made. Asserts that making it failed exactly in that case.
fn is_refused<R: Abort, T: Drop, E: Drop>(rt: &R, alloc: Global, made: Result<T, E>) -> bool {
    let is_refused = has_refused(alloc);
    assert_that(rt, made.is_err() == is_refused);
    is_refused
}

/// Makes both tables of a plan, a queue for its sheets, a shelf, and a buffer for early sheets. While each of them is made, the growth with this
/// number is refused. Returns whether a growth of one of them was refused.
fn make_all<R: Abort>(rt: &R, alloc: Global, number: u32, plan: &Plan<'_>) -> bool {
    refuse(alloc, number);
    let is_plain_refused = is_refused(rt, alloc, PlainTable::new(alloc, plan));
    refuse(alloc, number);
    let is_shared_refused = is_refused(rt, alloc, GatherTable::new(alloc, plan));
    refuse(alloc, number);
    let is_queue_refused = is_refused(rt, alloc, Ready::new(alloc, plan.sheets().max(1)));
    refuse(alloc, number);
    let is_shelf_refused = is_refused(rt, alloc, Shelf::new(alloc));
    refuse(alloc, number);
    let are_places_refused = is_refused(rt, alloc, ReorderBuffer::new(alloc, 10));
    is_plain_refused
        || is_shared_refused
        || is_queue_refused
        || is_shelf_refused
        || are_places_refused
}

/// A specification and a number of pages for which the objects are made, and the number of sheets that the pages fill.
#[derive(Clone, Copy)]
struct Made<'t> {
    items: &'t str,
    pages: u32,
    sheets: u32,
}

impl<'t, R: Abort> Refused<R> for Made<'t> {
    fn refuse(&self, rt: &R, alloc: Global, number: u32) -> bool {
        let spec = done(rt, read_spec(alloc, self.items));
        let plan = done(rt, Plan::new(alloc, &spec, self.pages));
        assert_that(rt, plan.sheets() == self.sheets);
        make_all(rt, alloc, number, &plan)
    }
}

// The last plan has the most pages, sheets and places.
#[test]
fn tables_queues_and_shelves(rt: HostRuntime) {
    let page_65_times = done(&rt, same_items(rt.alloc(), "0", 65));
    for (items, pages, sheets) in [
        (BOOKLET, 5, 4),
        (page_65_times.as_str(), 5, 5),
        ("0+0+0+0", 1_000_000, 1_000_000),
    ] {
        let made = Made {
            items,
            pages,
            sheets,
        };
        assert_that(&rt, refuse_each(&rt, rt.alloc(), &made));
    }
}
