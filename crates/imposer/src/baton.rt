//! Lets the workers of one kind take turns.
use crossbeam_utils::CachePadded;
use std::sync::Wait;
use std::sync::atomic::AtomicU64;
use std::sync::atomic::Ordering::SeqCst;
use std::time::Duration;

/// Approximately the greatest number of bytes in a preparer's shift: those of its pages, and `BYTES_BESIDE` for each page. An imposer's shift has as
/// many batches of sheets as a preparer's has pages.
const BYTES_OF_A_STINT: usize = 524_288;

/// The cost of a page apart from the cost of its bytes. It is an estimate, expressed as a number of bytes.
const BYTES_BESIDE: usize = 512;

/// The greatest number of pages, or batches of sheets, that follow the first one of a shift.
const LONGEST_STINT: usize = 512;

/// The least `len` of a `Baton` for which workers take turns. If `len` is less, the pages are so large that workers don't get in each other's way.
const FEWEST_IN_TURN: u32 = 32;

/// The greatest number of naps that a worker takes while it waits for the turn. After them it goes on without the turn.
const MOST_NAPS: u32 = 20;

/// The length of a nap, in microseconds.
const MICROSECONDS_OF_A_NAP: u64 = 500;

/// The turns that the workers of one kind take. If pages are small, workers that run at the same time mostly compete for the same words of the table
/// and of the queue. So one worker does a shift while the others sleep. A turn is advice and not a lock: a worker that has slept for about 10
/// milliseconds goes on without a turn. So no worker waits forever, even if the worker that has the turn waits for something else.
#[derive(Drop)]
pub(crate) struct Baton {
    /// 1 if a worker has the turn, 0 if none has.
    taken: CachePadded<AtomicU64>,
    /// The number of pages, or batches of sheets, that follow the first one of a shift.
    len: u32,
}

/// The progress of a worker in its shift.
#[derive(Drop)]
pub(crate) struct Shift {
    /// Whether the worker has the turn.
    has_turn: bool,
    /// The number of pages, or batches, that are left in the shift.
    left: u32,
}

impl Shift {
    /// The state of a worker that has not begun a shift.
    pub(crate) fn new() -> Self {
        Shift {
            has_turn: false,
            left: 0,
        }
    }
}

impl Baton {
    /// Turns for workers that handle pages of `page_len` bytes on average. No worker has the turn yet.
    pub(crate) fn new(page_len: usize) -> Self {
        let len = (BYTES_OF_A_STINT / page_len.saturating_add(BYTES_BESIDE)).min(
            LONGEST_STINT,
        ) as u32;
        Baton {
            taken: CachePadded::new(AtomicU64::new(0)),
            len,
        }
    }

    /// Counts one more page, or batch of sheets, of this worker. If the worker has no shift yet, or its shift is over, it gives up its turn and
    /// begins a shift. If `len` is at least `FEWEST_IN_TURN`, it waits for its next turn before it begins.
    pub(crate) fn pass_if_due<R: Wait>(&self, rt: &R, shift: &mut Shift) {
        if shift.left > 0 {
            shift.left -= 1;
            return;
        }
        self.end(shift);
        shift.has_turn = self.len >= FEWEST_IN_TURN && self.wait(rt);
        shift.left = self.len;
    }

    /// Ends this worker's shift early, and gives up the turn if the worker has it.
    pub(crate) fn end(&self, shift: &mut Shift) {
        shift.left = 0;
        if shift.has_turn {
            shift.has_turn = false;
            self.give();
        }
    }

    /// Makes the turn free, and wakes one worker that waits for it.
    pub(crate) fn give(&self) {
        self.taken.store(0, SeqCst);
        self.taken.wake_one();
    }

    /// Waits for the turn, for at most `MOST_NAPS` naps. Returns whether this worker has the turn.
    fn wait<R: Wait>(&self, rt: &R) -> bool {
        for _ in 0..MOST_NAPS {
            if self.taken.compare_exchange(0, 1, SeqCst, SeqCst).is_ok() {
                return true;
            }
            self.taken
                .park_timeout(rt, 1, Duration::from_micros(MICROSECONDS_OF_A_NAP));
        }
        false
    }
}
