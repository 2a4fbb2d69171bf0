//! A test of a pass with room for half of the puts. The queue hands the first sheet back to a preparer, so that sheet's turn never comes. The other
//! sheets must be imposed without waiting for the first one.
use super::gatherings::{Gathering, Way, gather_pairs};
use super::wait_for;
use super::windows::six_pages;
use crate::tests::checks::{assert_bytes, assert_that};
use imposer::{Gate, Step, Workers};
use std::alloc::Global;
use std::process::Abort;
use std::sync::Wait;
use std::sync::atomic::AtomicUsize;
use std::sync::atomic::Ordering::SeqCst;
use std::thread::Threads;
use test_tools::MOST_GROWTHS;

/// The number of sheets, of two pages each.
const SHEETS: u32 = 3;

/// A gate for two preparers. One has the even pages, counted from 0, and the other has the odd ones. The first sheet is completed by its odd page,
/// each other sheet by its even page.
#[derive(Drop)]
struct FirstSheetByTheSecond {
    /// The number of even pages that were delivered.
    even: AtomicUsize,
    /// The number of odd pages that were delivered.
    odd: AtomicUsize,
    /// The number of waits that ran out.
    run_out: AtomicUsize,
}

impl Gate for FirstSheetByTheSecond {
    fn before(&self, step: Step) {
        if let Step::Deliver(page) = step {
            if page == 1 {
                wait_for(&self.even, 1, &self.run_out);
            } else if page > 0 && page % 2 == 0 {
                wait_for(&self.odd, (page / 2 + 1) as usize, &self.run_out);
            }
        }
    }

    fn after(&self, step: Step) {
        if let Step::Deliver(page) = step {
            let word = if page % 2 == 0 { &self.even } else { &self.odd };
            word.fetch_add(1, SeqCst);
        }
    }
}

/// Gathers the pages of a document with two workers of each kind, with the gate `FirstSheetByTheSecond` and room for `puts` puts. Asserts that no
/// wait runs out.
fn gather_with_room<R: Threads + Wait + Abort + Sync>(
    rt: &R,
    alloc: Global,
    text: &str,
    puts: u32,
) -> Gathering {
    let gate = FirstSheetByTheSecond {
        even: AtomicUsize::new(0),
        odd: AtomicUsize::new(0),
        run_out: AtomicUsize::new(0),
    };
    let way = Way {
        workers: Workers {
            preparers: 2,
            imposers: 2,
        },
        room: 4_000_000,
        puts: Some(puts),
        refused: MOST_GROWTHS,
    };
    let gathering = gather_pairs(rt, alloc, text, way, &gate);
    assert_that(rt, gate.run_out.load(SeqCst) == 0);
    gathering
}

/// The number of sheets made at the end, if all sheets were written.
fn swept_in(gathering: &Gathering) -> Option<u32> {
    match &gathering.outcome {
        Ok(report) if report.sheets == SHEETS => Some(report.swept),
        _ => None,
    }
}

// The first preparer gets room for a put of each of its pages. If there is room for as many puts as there are sheets, the second preparer gets none;
// with room for twice as many, both have enough.
#[test]
fn a_sheet_that_is_handed_back_is_not_waited_for(rt: HostRuntime) {
    let alloc = rt.alloc();
    let text = six_pages(&rt, alloc);
    let whole = gather_with_room(&rt, alloc, &text, 2 * SHEETS);
    let half = gather_with_room(&rt, alloc, &text, SHEETS);
    assert_that(&rt, swept_in(&whole) == Some(0));
    assert_that(&rt, swept_in(&half).unwrap_or(0) > 0);
    assert_bytes(&rt, half.sink.bytes(), whole.sink.bytes());
}
