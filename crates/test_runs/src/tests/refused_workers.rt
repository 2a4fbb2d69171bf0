//! Tests in which some workers find no memory. The workers that wait for the collector must be told to stop, all threads must end, and no shares may
//! come back.
ghost use Rattle.std.specs.Prelude.{◌≡◌, ⊤};

use super::checks::assert_that;
use super::wait_for;
use imposer::{Collector, Imposing, ThreadCounts, ThreadInputs, Work, run_threads};
use std::alloc::{AllocError, Global};
use std::process::Abort;
use std::sync::Wait;
use std::sync::atomic::AtomicUsize;
use std::sync::atomic::Ordering::SeqCst;
use std::thread::Threads;

/// The number of workers of each kind.
const WORKERS: u32 = 3;

/// The tokens of a worker. In these tests they are only its shares.
#[derive(Drop)]
struct Held {
    shares: u64,
}

/// The ticket with which an imposer sends sheets. It is empty, because no imposer here sends a sheet.
#[derive(Drop)]
struct Ticket {}

/// The number of times that the collector collected.
#[derive(Drop)]
struct Collected {
    times: u32,
}

/// The objects that the threads share. If bit k of `preparers` is set, preparer k finds no memory. If bit k of `imposers` is set, the imposer that
/// begins as number k, counted from 0, finds none. Every other imposer waits until it is told to stop.
#[derive(Drop)]
struct Fates<'a, R> {
    rt: &'a R,
    preparers: usize,
    imposers: usize,
    /// The number of preparers that have begun. `begun_imposers` is the number of imposers that have begun.
    begun_preparers: AtomicUsize,
    begun_imposers: AtomicUsize,
    /// The number of times that the imposers were told to stop.
    stopped: AtomicUsize,
    /// The number of waits that ran out.
    run_out: AtomicUsize,
    /// The number of collections that began after the imposers had been told to stop.
    late: AtomicUsize,
}

impl<'a, R> Fates<'a, R> {
    fn new(rt: &'a R, preparers: usize, imposers: usize) -> Fates<'a, R> {
        Fates {
            rt,
            preparers,
            imposers,
            begun_preparers: AtomicUsize::new(0),
            begun_imposers: AtomicUsize::new(0),
            stopped: AtomicUsize::new(0),
            run_out: AtomicUsize::new(0),
            late: AtomicUsize::new(0),
        }
    }
}

/// Whether the bit with this number is set. False for numbers above 31.
fn has_bit(bits: usize, number: usize) -> bool {
    number < 32 && bits >> number & 1 == 1
}

impl<'a, R: Abort> Work<Held> for Fates<'a, R> {
    ghost is_held = { λ _ _. ⊤ };

    ghost share = { λ _ held. held.shares };

    ghost is_new = { λ _ held. held.shares ≡ 1 };

    ghost is_new_preparer = { λ _ _ _ held. held.shares ≡ 1 };

    ghost is_enough = { λ _ _ _ _. ⊤ };

    ghost is_back = { λ _ held. held.shares ≡ 1 };

    ghost has_prepared = { λ _ _ _ _. ⊤ };

    ghost has_imposed = { λ _ _. ⊤ };

    ghost has_gathered = { λ _ _ _ _ _. ⊤ };

    fn prepare<W: Wait>(
        &self,
        _rt: &W,
        held: Held,
        number: u32,
        _count: u32,
    ) -> Result<Held, AllocError> {
        self.begun_preparers.fetch_add(1, SeqCst);
        if has_bit(self.preparers, number as usize) {
            return Err(AllocError);
        }
        Ok(held)
    }

    fn split_preparer(&self, held: &mut Held, _number: u32, _count: u32) -> Held {
        held.shares -= 1;
        Held { shares: 1 }
    }

    fn split(&self, held: &mut Held) -> Held {
        held.shares -= 1;
        Held { shares: 1 }
    }

    fn join(&self, all: Held, theirs: Held) -> Held {
        let _ = theirs;
        match all.shares.checked_add(1) {
            Some(shares) => Held { shares },
            None => panic!(self.rt; "more shares than there are"),
        }
    }
}

impl<'a, R: Abort> Imposing<Held, Ticket> for Fates<'a, R> {
    ghost sends = { λ _ _. ⊤ };

    fn impose<W: Wait>(&self, _rt: &W, held: Held, _ticket: Ticket) -> Result<Held, AllocError> {
        let number = self.begun_imposers.fetch_add(1, SeqCst);
        if has_bit(self.imposers, number) {
            return Err(AllocError);
        }
        wait_for(&self.stopped, 1, &self.run_out);
        Ok(held)
    }

    fn stop(&self) {
        self.stopped.fetch_add(1, SeqCst);
    }

    fn another(&self, _ticket: &mut Ticket) -> Ticket {
        Ticket {}
    }
}

impl<'a, R> Collector<Collected> for Fates<'a, R> {
    ghost is_ready_to_collect = { λ _ _. ⊤ };

    ghost collected = { λ _ _ _. ⊤ };

    ghost reference = { λ _ _. 0 };

    /// Waits until all workers have begun, as a collector waits for sheets.
    fn collect<W: Wait>(&self, _rt: &W, state: &mut Collected) {
        if self.stopped.load(SeqCst) > 0 {
            self.late.fetch_add(1, SeqCst);
        }
        wait_for(&self.begun_preparers, WORKERS as usize, &self.run_out);
        wait_for(&self.begun_imposers, WORKERS as usize, &self.run_out);
        state.times = state.times.saturating_add(1);
    }
}

/// Runs three workers of each kind with these fates. Asserts that all workers begin, and that no wait runs out. Asserts that the collector collects
/// once, before the imposers are told to stop, and that the imposers are told to stop once. Returns the shares that come back, if any do.
fn gather<R: Threads + Wait + Abort + Sync>(
    rt: &R,
    alloc: Global,
    preparers: usize,
    imposers: usize,
) -> Option<u64> {
    let fates = Fates::new(rt, preparers, imposers);
    let inputs = ThreadInputs {
        counts: ThreadCounts {
            alloc,
            preparers: WORKERS,
            imposers: WORKERS,
        },
        held: Held { shares: 100 },
        ticket: Ticket {},
    };
    let mut ended = None;
    let state = Collected { times: 0 };
    let state = run_threads(rt, &fates, &fates, inputs, state, &mut ended);
    let begun = [
        fates.begun_preparers.load(SeqCst),
        fates.begun_imposers.load(SeqCst),
    ];
    assert_that(rt, begun == [WORKERS as usize; 2]);
    let counts = [
        fates.run_out.load(SeqCst),
        fates.late.load(SeqCst),
        fates.stopped.load(SeqCst),
    ];
    assert_that(rt, counts == [0, 0, 1] && state.times == 1);
    ended.map(|held| held.shares)
}

// If every worker finds memory, all shares come back; otherwise none do.
#[test]
fn a_worker_without_memory_lets_nobody_wait(rt: HostRuntime) {
    for preparers in 0..8usize {
        for imposers in 0..8usize {
            let is_whole = preparers == 0 && imposers == 0;
            let shares = if is_whole { Some(100) } else { None };
            assert_that(&rt, gather(&rt, rt.alloc(), preparers, imposers) == shares);
        }
    }
}
