//! Counts how often threads add each number. Any number of threads may share the counters.
use crate::tests::checks::done;
use std::alloc::Global;
use std::process::Abort;
use std::sync::atomic::AtomicUsize;
use std::sync::atomic::Ordering::SeqCst;

/// The number of additions of each number below an end, and the number of all additions.
#[derive(Drop)]
pub(super) struct Tally {
    counts: Vec<AtomicUsize>,
    all: AtomicUsize,
}

impl Tally {
    /// The counters for the numbers below `end`, before any number is added.
    pub(super) fn new<R: Abort>(rt: &R, alloc: Global, end: usize) -> Tally {
        let mut counts = Vec::new(alloc);
        for _ in 0..end {
            done(rt, counts.push(AtomicUsize::new(0)));
        }
        Tally {
            counts,
            all: AtomicUsize::new(0),
        }
    }

    /// Counts one addition of this number. A number that isn't below the end counts only among all additions.
    pub(super) fn add(&self, number: usize) {
        if let Some(count) = self.counts.as_slice().get(number) {
            count.fetch_add(1, SeqCst);
        }
        self.all.fetch_add(1, SeqCst);
    }

    /// The number of all additions.
    pub(super) fn all(&self) -> usize {
        self.all.load(SeqCst)
    }

    /// Whether each of `count` numbers, from `first` on, was added once.
    pub(super) fn are_once(&self, first: usize, count: usize) -> bool {
        (first..first.saturating_add(count)).all(|number| {
            let times = self.counts.as_slice().get(number);
            times.is_some_and(|times| times.load(SeqCst) == 1)
        })
    }
}
