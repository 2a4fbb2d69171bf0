//! Tests of the queue: passes that have only some of the shares, and threads that use the queue at the same time.
ghost use Rattle.handover.specs.Passes.{IsPassOf};

use super::WHOLE;
use super::tally::Tally;
use crate::tests::checks::{assert_that, done};
use handover::{Full, Pass, Ready};
use std::ops::Range;
use std::process::Abort;
use std::sync::Wait;
use std::thread;
use std::thread::{Threads, for_each_mut};

/// Asserts the answer to a put of this sheet.
fn assert_put<R: Wait + Abort>(
    rt: &R,
    ready: &Ready,
    pass: &mut Pass,
    sheet: u32,
    answer: Result<(), Full>,
)
    requires { IsPassOf ready.now pass.old }
    ensures { IsPassOf ready.now pass.new }
{
    assert_that(rt, ready.put(rt, pass, sheet) == answer);
}

/// Asserts that a take gives `sheet`, which is `None` for an empty queue.
fn assert_taken<R: Wait + Abort>(rt: &R, ready: &Ready, pass: &mut Pass, sheet: Option<u32>)
    requires { IsPassOf ready.now pass.old }
    ensures { IsPassOf ready.now pass.new }
{
    assert_that(rt, ready.take(rt, pass) == sheet);
}

#[test]
fn passes_with_a_part_of_the_shares_put_and_take(rt: HostRuntime) {
    let (ready, mut one) = done(&rt, Ready::new(rt.alloc(), 1));
    let mut other = ready.split(&mut one, 7);
    assert_that(&rt, (one.share(), other.share()) == (4_294_967_289, 7));
    assert_taken(&rt, &ready, &mut other, None);
    assert_put(&rt, &ready, &mut other, 7, Ok(()));
    assert_put(&rt, &ready, &mut one, 8, Err(Full(8)));
    assert_taken(&rt, &ready, &mut one, Some(7));
    assert_that(&rt, ready.join(one, other).share() == WHOLE);
}

#[test]
fn puts_by_right_are_not_refused(rt: HostRuntime) {
    let (ready, mut pass) = done(&rt, Ready::by_right(rt.alloc(), 2));
    let mut other = ready.split_with_room(&mut pass, 1, 1);
    assert_that(&rt, (pass.room(), other.room()) == (1, 1));
    assert_put(&rt, &ready, &mut pass, 7, Ok(()));
    // The room that is left belongs to the other pass, and a take gives no room back to a pass.
    assert_put(&rt, &ready, &mut pass, 8, Err(Full(8)));
    assert_taken(&rt, &ready, &mut pass, Some(7));
    assert_put(&rt, &ready, &mut pass, 8, Err(Full(8)));
    assert_put(&rt, &ready, &mut other, 9, Ok(()));
    let mut whole = ready.join(pass, other);
    assert_that(&rt, whole.room() == 0);
    // A pass with all shares knows that nobody else has room.
    assert_put(&rt, &ready, &mut whole, 8, Ok(()));
    assert_put(&rt, &ready, &mut whole, 7, Err(Full(7)));
    assert_taken(&rt, &ready, &mut whole, Some(9));
}

// The worker of one thread: the queue, and a pass of its own.
#[derive(Drop)]
struct Worker<'q> {
    ready: &'q Ready,
    pass: Pass,
    ghost seated: { IsPassOf ready.now pass },
}

impl<'q> Worker<'q> {
    fn put<R: Wait>(&mut self, rt: &R, sheet: u32) -> Result<(), Full> {
        self.ready.put(rt, &mut self.pass, sheet)
    }

    fn take<R: Wait>(&mut self, rt: &R) -> Option<u32> {
        self.ready.take(rt, &mut self.pass)
    }

    // Puts these sheets into the queue. A put that finds the queue full is tried again.
    fn put_all<R: Wait>(&mut self, rt: &R, sheets: Range<u32>) {
        for sheet in sheets {
            for _ in rt.forever() {
                if self.put(rt, sheet).is_ok() {
                    break;
                }
                thread::yield_now();
            }
        }
    }

    // Takes sheets until all threads together have taken `count`.
    fn take_until<R: Wait>(&mut self, rt: &R, taken: &Tally, count: usize) {
        for _ in rt.forever() {
            if taken.all() >= count {
                break;
            }
            match self.take(rt) {
                Some(sheet) => taken.add(sheet as usize),
                None => thread::yield_now(),
            }
        }
    }

    // The first two workers put a hundred sheets each, and the rest of the workers take them.
    fn work<R: Wait>(&mut self, rt: &R, number: usize, taken: &Tally) {
        match number {
            0 => self.put_all(rt, 0..100),
            1 => self.put_all(rt, 100..200),
            _ => self.take_until(rt, taken, 200),
        }
    }
}

// Lets each worker work in a thread of its own.
fn work_apart<R: Threads + Wait + Sync>(rt: &R, workers: &mut [Worker<'_>; 4], taken: &Tally) {
    for_each_mut(
        rt,
        workers.as_mut_slice(),
        4,
        &|number, worker: &mut Worker<'_>| worker.work(rt, number, taken),
    );
}

#[test]
fn no_sheet_is_lost_or_doubled(rt: HostRuntime) {
    let taken = Tally::new(&rt, rt.alloc(), 200);
    let (queue, mut pass) = done(&rt, Ready::new(rt.alloc(), 4));
    let ready = &queue;
    let mut workers = [
        Worker {
            ready,
            pass: ready.split(&mut pass, 1),
        },
        Worker {
            ready,
            pass: ready.split(&mut pass, 1),
        },
        Worker {
            ready,
            pass: ready.split(&mut pass, 1),
        },
        Worker {
            ready,
            pass: ready.split(&mut pass, 1),
        },
    ];
    work_apart(&rt, &mut workers, &taken);
    assert_that(&rt, taken.are_once(0, 200) && taken.all() == 200);
    assert_taken(&rt, ready, &mut pass, None);
}
