//! Tests with pages so large that only a few sheets lie in the window of sheets that may be imposed. Other sheets wait until their turn is near, but
//! no sheet waits after a failed write.
ghost use Rattle.std.specs.Prelude.{◌≡◌, None};

use super::{Trial, large_pages, run_into, wait_for};
use crate::tests::checks::{assert_that, done};
use imposer::{Gate, Open, RunError, Sink, SinkFault, Step};
use std::alloc::Global;
use std::process::Abort;
use std::sync::Wait;
use std::sync::atomic::AtomicUsize;
use std::sync::atomic::Ordering::SeqCst;
use std::thread::Threads;

/// The number of pages of the documents here.
const PAGES: usize = 6;

/// The least length, in bytes, of the text of a sheet with pages. Two such texts exceed the 786,432 bytes for which a window is made, so the window
/// has only its least number of sheets.
const PAGE_LEN: usize = 400_000;

/// The pages in their order, each on a sheet of its own.
const FORWARD: &str = "0";

/// The pages from the last to the first, each on a sheet of its own.
const BACKWARD: &str = "-0";

/// The pages in their order, each on a sheet of its own, and a sheet without a page after them.
const BLANK_LAST: &str = "7:0,1,2,3,4,5,6";

/// The pages in their order, each four times on its sheet.
const FOUR_TIMES: &str = "0+0+0+0";

/// A document of six pages, each of more than `PAGE_LEN` bytes, that have only comments.
pub(super) fn six_pages<R: Abort>(rt: &R, alloc: Global) -> String {
    large_pages(rt, alloc, PAGES as u32, PAGE_LEN / 9 + 1)
}

/// Counters that the threads of a run share.
#[derive(Drop)]
pub(super) struct Words {
    /// The number of bytes that the sink took.
    pub(super) accepted: AtomicUsize,
    /// The number of calls that the sink refused.
    refused: AtomicUsize,
    /// The number of pages that were delivered.
    delivered: AtomicUsize,
    /// The number of sheets that are or were being imposed.
    imposed: AtomicUsize,
    /// The number of waits that ran out.
    pub(super) run_out: AtomicUsize,
    /// The number of sheets that were imposed while they were past the window.
    too_early: AtomicUsize,
}

impl Words {
    pub(super) fn new() -> Self {
        Words {
            accepted: AtomicUsize::new(0),
            refused: AtomicUsize::new(0),
            delivered: AtomicUsize::new(0),
            imposed: AtomicUsize::new(0),
            run_out: AtomicUsize::new(0),
            too_early: AtomicUsize::new(0),
        }
    }

    /// Waits until `word` has reached `height`, or until some wait has run out.
    pub(super) fn wait_for(&self, word: &AtomicUsize, height: usize) {
        wait_for(word, height, &self.run_out);
    }
}

/// A sink that takes `room` bytes and then fails. Other threads can read the number of bytes that it has taken.
#[derive(Drop)]
pub(super) struct LimitedSink<'w> {
    words: &'w Words,
    room: usize,
    failures: u64,
}

impl<'w> LimitedSink<'w> {
    pub(super) fn new(words: &'w Words, room: usize) -> Self
        ensures { result.failures ≡ 0 }
    {
        LimitedSink {
            words,
            room,
            failures: 0,
        }
    }
}

impl<'w> Sink for LimitedSink<'w> {
    ghost seen = { λ s. record { bytes = None; failures = s.failures } };

    fn accept(&mut self, bytes: &[u8]) -> Result<usize, SinkFault> {
        let taken = bytes.len().min(self.room);
        if taken == 0 {
            self.failures += 1;
            self.words.refused.fetch_add(1, SeqCst);
            return Err(SinkFault);
        }
        self.room -= taken;
        self.words.accepted.fetch_add(taken, SeqCst);
        Ok(taken)
    }
}

/// A gate that delivers the page of the first sheet last: after all other pages, and after the imposing of each other sheet in the window has begun.
/// It counts the sheets that are imposed too early, a window or more ahead of the written sheets.
#[derive(Drop)]
struct FirstSheetLast<'w> {
    words: &'w Words,
    first_page: u32,
    window: usize,
}

impl<'w> Gate for FirstSheetLast<'w> {
    fn before(&self, step: Step) {
        match step {
            Step::Deliver(page) => {
                if page == self.first_page {
                    self.words.wait_for(&self.words.delivered, PAGES - 1);
                    self.words
                        .wait_for(&self.words.imposed, self.window.saturating_sub(1));
                }
            }
            Step::Impose(sheet) => {
                let written = self.words.accepted.load(SeqCst) / PAGE_LEN;
                if sheet as usize >= written.saturating_add(self.window) {
                    self.words.too_early.fetch_add(1, SeqCst);
                }
                self.words.imposed.fetch_add(1, SeqCst);
            }
        }
    }

    fn after(&self, step: Step) {
        if matches!(step, Step::Deliver(_)) {
            self.words.delivered.fetch_add(1, SeqCst);
        }
    }
}

/// Runs a trial in which `first_page`, the page of the first sheet, is delivered last. Asserts that workers impose all of the `sheets` sheets, and
/// none while it is past the window.
fn assert_in_turn<R: Threads + Wait + Sync + Abort>(
    rt: &R,
    alloc: Global,
    trial: &Trial<'_>,
    first_page: u32,
    sheets: u32,
) {
    let words = Words::new();
    let gate = FirstSheetLast {
        words: &words,
        first_page,
        window: (trial.counts.1 as usize).max(2),
    };
    let mut sink = LimitedSink::new(&words, usize::MAX);
    let report = done(rt, run_into(rt, alloc, trial, &gate, &mut sink));
    let told = [
        words.run_out.load(SeqCst),
        words.too_early.load(SeqCst),
        words.imposed.load(SeqCst),
    ];
    assert_that(rt, told == [0, 0, sheets as usize]);
    assert_that(rt, (report.sheets, report.swept) == (sheets, 0));
}

// The page of the first sheet has a preparer of its own, or it is the last one of the only preparer. A sheet without a page, which is in the queue
// before all other sheets, waits for its turn too. Six pages that are each four times on a sheet would fit a window, but the texts of their sheets
// don't.
#[test]
fn no_sheet_is_imposed_far_before_its_turn(rt: HostRuntime) {
    let six = six_pages(&rt, rt.alloc());
    let small = large_pages(&rt, rt.alloc(), PAGES as u32, PAGE_LEN / 36 + 1);
    for (document, items, preparers, first_page, sheets) in [
        (six.as_str(), FORWARD, 6, 0, 6),
        (six.as_str(), BACKWARD, 6, 5, 6),
        (six.as_str(), BACKWARD, 1, 5, 6),
        (six.as_str(), BLANK_LAST, 6, 0, 7),
        (small.as_str(), FOUR_TIMES, 6, 0, 6),
    ] {
        for imposers in [1, 2, 4] {
            let trial = Trial::new(document, items, (preparers, imposers));
            assert_in_turn(&rt, rt.alloc(), &trial, first_page, sheets);
        }
    }
}

/// Whether a run into a sink that takes `room` bytes ends with a failed write after `room` bytes. The sink must refuse one call, and no wait may run
/// out.
fn is_stopped<R: Threads + Wait + Sync, G: Gate + Sync>(
    rt: &R,
    alloc: Global,
    trial: &Trial<'_>,
    gate: &G,
    words: &Words,
    room: usize,
) -> bool {
    let mut sink = LimitedSink::new(words, room);
    let answer = run_into(rt, alloc, trial, gate, &mut sink);
    let told = (words.refused.load(SeqCst), words.run_out.load(SeqCst));
    let written = room as u64;
    answer == Err(RunError::Write { written })
        && words.accepted.load(SeqCst) == room
        && told == (1, 0)
}

/// Asserts that a failed write stops the run, for sinks that take 0, 500,000 and 1,500,000 bytes.
fn assert_stopped<R: Threads + Wait + Sync + Abort>(rt: &R, alloc: Global, trial: &Trial<'_>) {
    for room in [0usize, 500_000, 1_500_000] {
        let words = Words::new();
        assert_that(rt, is_stopped(rt, alloc, trial, &Open, &words, room));
    }
}

#[test]
fn no_turn_is_waited_for_after_a_failed_write(rt: HostRuntime) {
    let document = six_pages(&rt, rt.alloc());
    for counts in [(1, 1), (2, 2), (6, 4)] {
        for items in [FORWARD, BACKWARD] {
            let trial = Trial::new(&document, items, counts);
            assert_stopped(&rt, rt.alloc(), &trial);
        }
    }
}

/// The time at which an imposer waits until the sink has failed: before or after it imposes a sheet.
#[derive(Clone, Copy)]
enum Waits {
    BeforeSheet,
    AfterSheet,
}

/// A gate that lets only the first sheet reach the collector before the sink has failed. Until then, imposers of other sheets wait at this gate.
#[derive(Drop)]
struct FailureFirst<'w> {
    words: &'w Words,
    waits: Waits,
}

impl<'w> FailureFirst<'w> {
    fn wait(&self, step: Step) {
        if let Step::Impose(sheet) = step {
            if sheet > 0 {
                self.words.wait_for(&self.words.refused, 1);
            }
        }
    }
}

impl<'w> Gate for FailureFirst<'w> {
    fn before(&self, step: Step) {
        if matches!(self.waits, Waits::BeforeSheet) {
            self.wait(step);
        }
    }

    fn after(&self, step: Step) {
        if matches!(self.waits, Waits::AfterSheet) {
            self.wait(step);
        }
    }
}

// The only preparer delivers the first sheet's page first, so an imposer takes that sheet first.
fn is_stopped_under_way<R: Threads + Wait + Sync>(
    rt: &R,
    alloc: Global,
    document: &str,
    imposers: u32,
    waits: Waits,
) -> bool {
    let words = Words::new();
    let trial = Trial::new(document, FORWARD, (1, imposers));
    let gate = FailureFirst {
        words: &words,
        waits,
    };
    is_stopped(rt, alloc, &trial, &gate, &words, 100_000)
}

#[test]
fn sheets_are_under_way_as_the_sink_fails(rt: HostRuntime) {
    let document = six_pages(&rt, rt.alloc());
    for waits in [Waits::BeforeSheet, Waits::AfterSheet] {
        for imposers in [1, 2, 4] {
            let is_stopped = is_stopped_under_way(&rt, rt.alloc(), &document, imposers, waits);
            assert_that(&rt, is_stopped);
        }
    }
}
