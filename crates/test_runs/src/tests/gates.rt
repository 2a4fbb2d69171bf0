//! Gates at which threads wait for each other. Threads pass such a gate only if the run starts all threads that it was asked for. A run that makes
//! the sheets on its caller's thread never reaches the gate.
ghost use Rattle.std.specs.Prelude.{None};

use super::{Trial, report_of, run_into, wait_for};
use crate::tests::checks::{assert_that, done};
use imposer::{Gate, Look, Open, Sink, SinkFault, Step};
use std::alloc::Global;
use std::process::Abort;
use std::sync::Wait;
use std::sync::atomic::AtomicUsize;
use std::sync::atomic::Ordering::SeqCst;
use std::thread;
use std::thread::Threads;
use test_tools::{ONE_PAGE, document_of};

/// The largest number of pages, and of sheets, that a document here has.
const MOST_PAGES: u32 = 16;

/// The steps at which threads wait for each other.
#[derive(Clone, Copy)]
enum Steps {
    Pages,
    Sheets,
    SecondPageAndFirstSheet,
}

impl Steps {
    fn has(self, step: Step) -> bool {
        match self {
            Steps::Pages => matches!(step, Step::Deliver(_)),
            Steps::Sheets => matches!(step, Step::Impose(_)),
            Steps::SecondPageAndFirstSheet => step == Step::Deliver(1) || step == Step::Impose(0),
        }
    }
}

/// A gate at which each of the chosen steps waits until `height` of them have entered. A bit that is set in `bits` shows that the step of its page or
/// sheet has entered.
#[derive(Drop)]
struct Barrier {
    steps: Steps,
    height: usize,
    entered: AtomicUsize,
    bits: AtomicUsize,
    run_out: AtomicUsize,
}

/// The bit of the page or sheet of a step. Numbers from `MOST_PAGES` on share one bit.
fn bit_of(step: Step) -> usize {
    match step {
        Step::Deliver(number) | Step::Impose(number) if number < MOST_PAGES => 1 << number,
        _ => 1 << MOST_PAGES,
    }
}

impl Gate for Barrier {
    fn before(&self, step: Step) {
        if self.steps.has(step) {
            self.bits.fetch_or(bit_of(step), SeqCst);
            self.entered.fetch_add(1, SeqCst);
            wait_for(&self.entered, self.height, &self.run_out);
        }
    }

    fn after(&self, _step: Step) {}
}

/// Runs `pages` pages, each on a sheet, with these numbers of preparers and imposers. The gate opens once `height` of the chosen steps have entered.
/// Asserts that a step of each page or sheet enters once, that no wait runs out, and that no sheet is made at the end.
fn assert_met<R: Threads + Wait + Sync + Abort>(
    rt: &R,
    alloc: Global,
    steps: Steps,
    height: u32,
    counts: (u32, u32),
    pages: u32,
) {
    let gate = Barrier {
        steps,
        height: height as usize,
        entered: AtomicUsize::new(0),
        bits: AtomicUsize::new(0),
        run_out: AtomicUsize::new(0),
    };
    let text = done(rt, document_of(alloc, pages));
    let trial = Trial::new(&text, "0", counts);
    let report = report_of(rt, alloc, &trial, &gate);
    let all = (1usize << pages.min(MOST_PAGES)).saturating_sub(1);
    let met = [
        gate.entered.load(SeqCst),
        gate.bits.load(SeqCst),
        gate.run_out.load(SeqCst),
    ];
    assert_that(rt, met == [pages as usize, all, 0]);
    assert_that(rt, (report.sheets, report.swept) == (pages, 0));
}

// In the last case, a page is delivered while a sheet is imposed.
#[test]
fn as_many_threads_run_as_were_asked_for(rt: HostRuntime) {
    for (steps, height, counts, pages) in [
        (Steps::Pages, 4, (4, 4), 16),
        (Steps::Pages, 16, (16, 16), 16),
        (Steps::Pages, 2, (2, 1), 2),
        (Steps::Sheets, 4, (4, 4), 16),
        (Steps::Sheets, 16, (16, 16), 16),
        (Steps::Sheets, 2, (1, 2), 2),
        (Steps::SecondPageAndFirstSheet, 2, (1, 1), 2),
    ] {
        assert_met(&rt, rt.alloc(), steps, height, counts, pages);
    }
}

/// The number of sheets made at the end of a run on one page, with `count` workers of each kind.
fn swept_of_one<R: Threads + Wait + Sync + Abort>(rt: &R, alloc: Global, count: u32) -> u32 {
    let trial = Trial::new(ONE_PAGE, "0", (count, count));
    report_of(rt, alloc, &trial, &Open).swept
}

#[test]
fn short_runs_leave_no_sheet_to_the_end(rt: HostRuntime) {
    for round in 0..200u32 {
        assert_that(&rt, swept_of_one(&rt, rt.alloc(), 1 + round % 2) == 0);
    }
}

/// The time at which the first look waits for the sheet: before it searches, or afterwards.
#[derive(Clone, Copy, PartialEq, Eq)]
enum Side {
    Before,
    After,
}

/// A gate for a run with one sheet. The step that brings the sheet to the queue or the channel waits until the first look there waits. The look waits
/// until the sheet has come. A look that waits before it searches finds the sheet; one that waits afterwards has found nothing.
#[derive(Drop)]
struct Late {
    look: Look,
    side: Side,
    /// The number of looks that have begun. `ended` is the number of those that have ended.
    begun: AtomicUsize,
    ended: AtomicUsize,
    /// The number of looks that have begun to wait.
    waited: AtomicUsize,
    /// The number of steps that brought a sheet and have ended. `came` is above 0 once the sheet has come.
    worked: AtomicUsize,
    came: AtomicUsize,
    /// The number of looks that had begun when the sheet was found.
    found_by: AtomicUsize,
    run_out: AtomicUsize,
}

impl Late {
    fn new(look: Look, side: Side) -> Self {
        Late {
            look,
            side,
            begun: AtomicUsize::new(0),
            ended: AtomicUsize::new(0),
            waited: AtomicUsize::new(0),
            worked: AtomicUsize::new(0),
            came: AtomicUsize::new(0),
            found_by: AtomicUsize::new(0),
            run_out: AtomicUsize::new(0),
        }
    }

    /// Whether the step brings the sheet to the place where the look searches.
    fn is_brought_by(&self, step: Step) -> bool {
        match self.look {
            Look::Queue => matches!(step, Step::Deliver(_)),
            Look::Channel => matches!(step, Step::Impose(_)),
        }
    }

    /// If the first look is to wait on this side, waits until the sheet has come. Then yields the processor 100,000 times, so that the other threads
    /// go on.
    fn wait_at(&self, side: Side) {
        if side != self.side {
            return;
        }
        self.waited.fetch_add(1, SeqCst);
        wait_for(&self.came, 1, &self.run_out);
        for _ in 0..100_000u32 {
            thread::yield_now();
        }
    }

    fn is_found(&self) {
        self.found_by.store(self.begun.load(SeqCst), SeqCst);
    }
}

impl Gate for Late {
    fn before(&self, step: Step) {
        if self.is_brought_by(step) {
            wait_for(&self.waited, 1, &self.run_out);
        } else if self.look == Look::Queue {
            self.is_found();
        }
    }

    fn after(&self, step: Step) {
        if self.is_brought_by(step) {
            self.worked.fetch_add(1, SeqCst);
            // An imposer sends its sheet after this step, and before it looks again.
            if self.look == Look::Queue {
                self.came.fetch_add(1, SeqCst);
            }
        }
    }

    fn before_look(&self, look: Look) {
        if look == self.look {
            if self.begun.fetch_add(1, SeqCst) == 0 {
                self.wait_at(Side::Before);
            }
        } else if look == Look::Queue && self.worked.load(SeqCst) > 0 {
            self.came.fetch_add(1, SeqCst);
        }
    }

    fn after_look(&self, look: Look) {
        if look == self.look && self.ended.fetch_add(1, SeqCst) == 0 {
            self.wait_at(Side::After);
        }
    }
}

/// A sink that takes all bytes. The second call writes the only sheet.
#[derive(Drop)]
struct OneSheet<'w> {
    late: &'w Late,
    calls: u32,
}

impl<'w> Sink for OneSheet<'w> {
    ghost seen = { λ _. record { bytes = None; failures = 0 } };

    fn accept(&mut self, bytes: &[u8]) -> Result<usize, SinkFault> {
        self.calls = self.calls.saturating_add(1);
        if self.calls == 2 && self.late.look == Look::Channel {
            self.late.is_found();
        }
        Ok(bytes.len())
    }
}

/// Runs one page on one sheet. Returns the number of sheets made at the end, the number of looks begun before the page's sheet was found, and the
/// number of waits that ran out.
fn run_late<R: Threads + Wait + Sync + Abort>(
    rt: &R,
    alloc: Global,
    look: Look,
    side: Side,
) -> (u32, usize, usize) {
    let gate = Late::new(look, side);
    let trial = Trial::new(ONE_PAGE, "0", (1, 1));
    let mut sink = OneSheet {
        late: &gate,
        calls: 0,
    };
    let report = done(rt, run_into(rt, alloc, &trial, &gate, &mut sink));
    let found_by = gate.found_by.load(SeqCst);
    (report.swept, found_by, gate.run_out.load(SeqCst))
}

#[test]
fn what_comes_while_somebody_looks_is_found(rt: HostRuntime) {
    for (look, side, found_by) in [
        (Look::Queue, Side::Before, 1),
        (Look::Queue, Side::After, 2),
        (Look::Channel, Side::Before, 1),
        (Look::Channel, Side::After, 2),
    ] {
        assert_that(
            &rt,
            run_late(&rt, rt.alloc(), look, side) == (0, found_by, 0),
        );
    }
}
