//! Tests of threads that publish pages and mark their slots at the same time. The replies to marks on a sheet depend only on the threads that bring
//! pages of that sheet.
ghost use Rattle.std.specs.Prelude.{◌≡◌};
ghost use Rattle.rules.specs.Sheets.{layout};
ghost use Rattle.gather_table.specs.Shared.{IsSeatOf};

use super::callers::tables::{mark_checked, page_in};
use super::wait_for;
use crate::tests::checks::{assert_that, done};
use gather_table::{GatherTable, Reply, Seat};
use pagespec::read_spec;
use sheet_plan::Plan;
use std::alloc::Global;
use std::process::Abort;
use std::sync::atomic::AtomicUsize;
use std::sync::atomic::Ordering::SeqCst;
use std::thread::{Threads, for_each_mut};

/// The number of times that the threads are started.
const ROUNDS: u32 = 1_000;

/// Two slots, each named by its sheet and its number on that sheet, both counted from 0.
type Slots = [(u32, u16); 2];

/// The replies to marks of two slots. `None` for a slot that isn't marked.
type Replies = [Option<Reply>; 2];

const FRESH: Replies = [Some(Reply::Fresh), Some(Reply::Repeated)];

const COMPLETING: Replies = [Some(Reply::Completing), Some(Reply::Repeated)];

const FRESH_AND_COMPLETING: Replies = [Some(Reply::Fresh), Some(Reply::Completing)];

const REPEATED: Replies = [Some(Reply::Repeated), Some(Reply::Repeated)];

/// A thread that brings pages to two slots.
#[derive(Drop)]
struct Bringer<'s, 't, 'p> {
    table: &'s GatherTable<'t>,
    plan: &'s Plan<'p>,
    seat: Seat,
    slots: Slots,
    replies: Replies,
    ghost same_plan: { table.now.layout ≡ layout plan.now },
    ghost seated: { IsSeatOf table.now seat },
}

impl<'s, 't, 'p> Bringer<'s, 't, 'p> {
    /// Publishes the page of a slot, if the slot has a page. The page's index is its number.
    fn publish(&mut self, (sheet, slot): (u32, u16)) {
        if let Some(page) = page_in(self.plan, sheet, slot) {
            self.table.publish(&mut self.seat, page, page);
        }
    }

    fn mark(&mut self, (sheet, slot): (u32, u16)) -> Option<Reply> {
        mark_checked(self.table, self.plan, &mut self.seat, sheet, slot)
    }

    /// Waits until both threads have begun. Then publishes the pages of this thread's slots, and marks the slots.
    fn bring(&mut self, begun: &AtomicUsize, run_out: &AtomicUsize) {
        begun.fetch_add(1, SeqCst);
        wait_for(begun, 2, run_out);
        let [one, other] = self.slots;
        self.publish(one);
        self.publish(other);
        self.replies = [self.mark(one), self.mark(other)];
    }
}

/// Lets two threads bring pages at the same time, each to its two slots, and returns the replies that each thread gets.
fn bring_beside<R: Threads + Sync + Abort>(
    rt: &R,
    alloc: Global,
    plan: &Plan<'_>,
    [here, there]: [Slots; 2],
) -> [Replies; 2] {
    let (table, mut seat) = done(rt, GatherTable::new(alloc, plan));
    let mut bringers = [
        Bringer {
            table: &table,
            plan,
            seat: table.split(&mut seat, 1),
            slots: here,
            replies: [None; 2],
        },
        Bringer {
            table: &table,
            plan,
            seat: table.split(&mut seat, 1),
            slots: there,
            replies: [None; 2],
        },
    ];
    let (begun, run_out) = (AtomicUsize::new(0), AtomicUsize::new(0));
    for_each_mut(
        rt,
        bringers.as_mut_slice(),
        2,
        &|_, bringer: &mut Bringer<'_, '_, '_>| bringer.bring(&begun, &run_out),
    );
    assert_that(rt, run_out.load(SeqCst) == 0);
    [bringers[0].replies, bringers[1].replies]
}

/// Lets two threads bring pages at the same time, each to its two slots, `ROUNDS` times. Asserts that the threads get these replies each time, in
/// either order.
fn assert_answered<R: Threads + Sync + Abort>(
    rt: &R,
    alloc: Global,
    items: &str,
    pages: u32,
    slots: [Slots; 2],
    [one, other]: [Replies; 2],
) {
    let spec = done(rt, read_spec(alloc, items));
    let plan = done(rt, Plan::new(alloc, &spec, pages));
    for _ in 0..ROUNDS {
        let found = bring_beside(rt, alloc, &plan, slots);
        assert_that(rt, found == [one, other] || found == [other, one]);
    }
}

#[test]
fn each_brings_one_of_the_pages_of_a_sheet(rt: HostRuntime) {
    let slots = [[(0, 0); 2], [(0, 1); 2]];
    assert_answered(&rt, rt.alloc(), "2:0+1", 2, slots, [FRESH, COMPLETING]);
}

#[test]
fn both_bring_the_same_page(rt: HostRuntime) {
    let slots = [[(0, 0); 2]; 2];
    assert_answered(&rt, rt.alloc(), "0", 1, slots, [COMPLETING, REPEATED]);
}

// The sheets lie side by side in one word.
#[test]
fn each_brings_the_pages_of_a_sheet_of_its_own(rt: HostRuntime) {
    let slots = [[(0, 0), (0, 1)], [(1, 0), (1, 1)]];
    assert_answered(
        &rt,
        rt.alloc(),
        "2:0+1",
        4,
        slots,
        [FRESH_AND_COMPLETING; 2],
    );
}
