//! A gate that a run on one thread would never pass, and a gate that counts its calls.
use crate::tests::checks::{assert_that, done};
use crate::tests::windows::{LimitedSink, Words};
use crate::tests::{Trial, report_of, run_into};
use imposer::{Gate, Look, Step};
use std::alloc::Global;
use std::process::Abort;
use std::sync::Wait;
use std::sync::atomic::AtomicUsize;
use std::sync::atomic::Ordering::SeqCst;
use std::thread::Threads;
use test_tools::TWO_PAGES;

/// A gate at which the delivery of the second page waits until the preamble and the first sheet are written.
#[derive(Drop)]
struct Written<'w> {
    words: &'w Words,
}

/// The length of the preamble and of the first of two sheets together, in bytes.
const FIRST_SHEET_END: usize = 257;

impl<'w> Gate for Written<'w> {
    fn before(&self, step: Step) {
        if step == Step::Deliver(1) {
            self.words.wait_for(&self.words.accepted, FIRST_SHEET_END);
        }
    }

    fn after(&self, _step: Step) {}
}

/// Runs two pages on two sheets. The second page is delivered after the first sheet is written. Returns the number of waits that ran out, and the
/// number of sheets made at the end.
fn run_written<R: Threads + Wait + Sync + Abort>(rt: &R, alloc: Global) -> (usize, u32) {
    let words = Words::new();
    let gate = Written { words: &words };
    let trial = Trial::new(TWO_PAGES, "0", (1, 1));
    let mut sink = LimitedSink::new(&words, usize::MAX);
    let report = done(rt, run_into(rt, alloc, &trial, &gate, &mut sink));
    (words.run_out.load(SeqCst), report.swept)
}

#[test]
fn a_sheet_is_written_before_the_next_page_is_delivered(rt: HostRuntime) {
    assert_that(&rt, run_written(&rt, rt.alloc()) == (0, 0));
}

/// A gate that counts its calls. The first counter of each pair is for calls before steps or looks, the second for calls after them.
#[derive(Drop)]
struct Counted {
    steps: [AtomicUsize; 2],
    looks_at_queue: [AtomicUsize; 2],
    looks_at_channel: [AtomicUsize; 2],
}

/// The number that a step adds to a counter. Each step of a run with two pages on two sheets has eight bits of the counter for itself. All other
/// steps share the remaining bits.
fn one_more(step: Step) -> usize {
    match step {
        Step::Deliver(0) => 1,
        Step::Deliver(1) => 0x100,
        Step::Impose(0) => 0x1_0000,
        Step::Impose(1) => 0x100_0000,
        Step::Deliver(_) | Step::Impose(_) => 0x1_0000_0000,
    }
}

impl Counted {
    fn looks_at(&self, look: Look) -> &[AtomicUsize; 2] {
        match look {
            Look::Queue => &self.looks_at_queue,
            Look::Channel => &self.looks_at_channel,
        }
    }
}

impl Gate for Counted {
    fn before(&self, step: Step) {
        self.steps[0].fetch_add(one_more(step), SeqCst);
    }

    fn after(&self, step: Step) {
        self.steps[1].fetch_add(one_more(step), SeqCst);
    }

    fn before_look(&self, look: Look) {
        self.looks_at(look)[0].fetch_add(1, SeqCst);
    }

    fn after_look(&self, look: Look) {
        self.looks_at(look)[1].fetch_add(1, SeqCst);
    }
}

/// The two counters of a pair: that of calls before steps or looks, and that of calls after them.
fn counts_of(words: &[AtomicUsize; 2]) -> (usize, usize) {
    (words[0].load(SeqCst), words[1].load(SeqCst))
}

/// Imposes two pages on two sheets, with this gate.
fn run_counted<R: Threads + Wait + Sync + Abort>(rt: &R, alloc: Global, gate: &Counted) {
    let trial = Trial::new(TWO_PAGES, "0", (2, 2));
    report_of(rt, alloc, &trial, gate);
}

// The number of looks depends on the threads. At the queue there are at least four: each of two sheets is found by a look, and each of two imposers
// ends when one of its looks finds nothing.
#[test]
fn a_gate_is_called_before_each_step_and_look_and_after_it(rt: HostRuntime) {
    let gate = Counted {
        steps: [AtomicUsize::new(0), AtomicUsize::new(0)],
        looks_at_queue: [AtomicUsize::new(0), AtomicUsize::new(0)],
        looks_at_channel: [AtomicUsize::new(0), AtomicUsize::new(0)],
    };
    run_counted(&rt, rt.alloc(), &gate);
    assert_that(&rt, counts_of(&gate.steps) == (0x101_0101, 0x101_0101));
    let (before, after) = counts_of(&gate.looks_at_queue);
    assert_that(&rt, before == after && before >= 4);
    let (before, after) = counts_of(&gate.looks_at_channel);
    assert_that(&rt, before == after && before >= 1);
}
