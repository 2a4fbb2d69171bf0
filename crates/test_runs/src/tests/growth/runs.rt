//! Tests of whole runs and gatherings, into a sink whose memory is reserved before each run.
use crate::tests::checks::{assert_that, done};
use crate::tests::gatherings::{Way, gather_pairs};
use crate::tests::growth::unrefused_after;
use crate::tests::{Trial, large_pages, run_into};
use imposer::{Gate, MemorySink, Open, Report, RunError, Step, Workers};
use std::alloc::Global;
use std::process::Abort;
use std::sync::Wait;
use std::thread;
use std::thread::Threads;
use test_tools::{BOOKLET, MOST_GROWTHS, TWO_UP, document_of, has_refused, refuse, two_up_output};

/// The number of bytes for which a sink has memory. No run here writes more.
const ROOM: usize = 2_000_000;

/// A gate that delays the delivery of the first page by this number of yields. With a delay, sheets of other pages come earlier and wait for their
/// turn.
#[derive(Clone, Copy)]
struct Late {
    yields: u32,
}

impl Gate for Late {
    fn before(&self, step: Step) {
        if step == Step::Deliver(0) {
            for _ in 0..self.yields {
                thread::yield_now();
            }
        }
    }

    fn after(&self, _step: Step) {}
}

const ON_TIME: Late = Late { yields: 0 };

const LATE: Late = Late { yields: 1_000 };

/// The end of a run: the number of bytes that it reports as written, or `None` if it finished, and whether a growth was refused.
#[derive(Clone, Copy)]
struct Ended {
    written: Option<u64>,
    is_refused: bool,
}

/// The number of bytes that this answer reports as written. `None` for a run that finished. The test fails for an error other than `NoMemory`.
fn written_by<R: Abort>(rt: &R, answer: &Result<Report, RunError>) -> Option<u64> {
    match answer {
        Ok(_) => None,
        Err(RunError::NoMemory { written }) => Some(*written),
        Err(_) => panic!(rt; "the run failed"),
    }
}

/// Runs a trial while the growth with this number is refused. Returns the sink and the end of the run.
fn run_refused<R: Threads + Wait + Abort + Sync>(
    rt: &R,
    alloc: Global,
    number: u32,
    trial: &Trial<'_>,
    gate: Late,
) -> (MemorySink, Ended) {
    let mut sink = done(rt, MemorySink::new(alloc, ROOM, ROOM, 1_000));
    refuse(alloc, number);
    let answer = run_into(rt, alloc, trial, &gate, &mut sink);
    let is_refused = has_refused(alloc);
    let ended = Ended {
        written: written_by(rt, &answer),
        is_refused,
    };
    (sink, ended)
}

/// Whether a sink has the whole output if the run finished, and otherwise exactly as many of the output's first bytes as the run reported.
fn is_written(output: &[u8], sink: &MemorySink, written: Option<u64>) -> bool {
    let wanted = written.unwrap_or(output.len() as u64);
    sink.bytes().len() as u64 == wanted && output.starts_with(sink.bytes())
}

/// Whether a run may end in this way. It may fail only if a growth was refused. If a growth was refused, the run may finish only if it `holds` sheets
/// until their turn: the growth may have been for the number of a held sheet.
fn is_right(holds: bool, ended: Ended) -> bool {
    match ended.written {
        Some(_) => ended.is_refused,
        None => holds || !ended.is_refused,
    }
}

/// Runs a trial while the growth with this number is refused, and asserts that it ends as it may. Returns whether a growth was refused.
fn refuse_one<R: Threads + Wait + Abort + Sync>(
    rt: &R,
    alloc: Global,
    number: u32,
    trial: &Trial<'_>,
    gate: Late,
    (output, holds): (&[u8], bool),
) -> bool {
    let (sink, ended) = run_refused(rt, alloc, number, trial, gate);
    assert_that(rt, is_written(output, &sink, ended.written));
    assert_that(rt, is_right(holds, ended));
    ended.is_refused
}

/// Refuses each growth of the run in turn. `holds` says whether imposers may hold sheets until their turn. The order in which threads grow memory
/// varies. The test therefore ends only after four successive numbers for which no growth was refused.
fn refuse_each<R: Threads + Wait + Abort + Sync>(
    rt: &R,
    alloc: Global,
    trial: &Trial<'_>,
    gate: Late,
    holds: bool,
) {
    let (output, ended) = run_refused(rt, alloc, MOST_GROWTHS, trial, gate);
    assert_that(rt, !ended.is_refused);
    let wanted = (output.bytes(), holds);
    let mut unrefused = 0u32;
    for number in 1..MOST_GROWTHS {
        if unrefused < 4 {
            let is_refused = refuse_one(rt, alloc, number, trial, gate, wanted);
            unrefused = unrefused_after(unrefused, is_refused);
        }
    }
    assert_that(rt, unrefused == 4);
}

#[test]
fn runs_by_few_and_by_many(rt: HostRuntime) {
    for (pages, items, counts) in [
        (2, TWO_UP, (1, 1)),
        (5, BOOKLET, (1, 1)),
        (8, TWO_UP, (2, 3)),
        (8, TWO_UP, (16, 16)),
    ] {
        let document = done(&rt, document_of(rt.alloc(), pages));
        let trial = Trial::new(&document, items, counts);
        refuse_each(&rt, rt.alloc(), &trial, ON_TIME, false);
    }
}

// With pages of 90,000 bytes, eight of the twelve sheets lie in the window.
#[test]
fn runs_whose_sheets_wait_for_their_turn(rt: HostRuntime) {
    let document = large_pages(&rt, rt.alloc(), 12, 10_000);
    for counts in [(1, 1), (2, 3)] {
        let trial = Trial::new(&document, "0", counts);
        refuse_each(&rt, rt.alloc(), &trial, ON_TIME, true);
    }
}

// The page of the first sheet is the last one of the only preparer, or is delivered late. Two of six sheets lie in the window, or seventeen of 24; of
// those, an imposer sends two together.
#[test]
fn runs_whose_first_sheet_comes_last(rt: HostRuntime) {
    let huge = large_pages(&rt, rt.alloc(), 6, 33_333);
    let many = large_pages(&rt, rt.alloc(), 24, 5_000);
    for (document, items, counts, gate) in [
        (huge.as_str(), "-0", (1, 1), ON_TIME),
        (huge.as_str(), "0", (2, 1), LATE),
        (huge.as_str(), "0", (3, 2), LATE),
        (many.as_str(), "-0", (1, 1), ON_TIME),
        (many.as_str(), "0", (2, 1), LATE),
    ] {
        let trial = Trial::new(document, items, counts);
        refuse_each(&rt, rt.alloc(), &trial, gate, true);
    }
}

/// Gathers the pages of a document while the growth with this number is refused. Asserts that the sink has the first bytes of this output, as many as
/// the run reports. Asserts that the run finishes, and that the tokens come back, if and only if no growth was refused. Returns whether one was
/// refused.
fn gather_refused<R: Threads + Wait + Abort + Sync>(
    rt: &R,
    alloc: Global,
    number: u32,
    text: &str,
    output: &[u8],
) -> bool {
    let way = Way {
        workers: Workers {
            preparers: 2,
            imposers: 3,
        },
        room: ROOM,
        puts: None,
        refused: number,
    };
    let gathering = gather_pairs(rt, alloc, text, way, &Open);
    let is_refused = has_refused(alloc);
    let written = written_by(rt, &gathering.outcome);
    assert_that(rt, is_written(output, &gathering.sink, written));
    assert_that(rt, written.is_some() == is_refused);
    assert_that(rt, gathering.shares.is_some() == !is_refused);
    is_refused
}

#[test]
fn gatherings(rt: HostRuntime) {
    let text = done(&rt, document_of(rt.alloc(), 8));
    let output = done(&rt, two_up_output(rt.alloc(), 4));
    let mut unrefused = 0u32;
    for number in 1..MOST_GROWTHS {
        if unrefused < 4 {
            let is_refused = gather_refused(&rt, rt.alloc(), number, &text, output.as_bytes());
            unrefused = unrefused_after(unrefused, is_refused);
        }
    }
    assert_that(&rt, unrefused == 4);
}
