//! Tests of sinks and writers that fail at each call in turn.
ghost use Rattle.std.specs.Prelude.{◌≡◌};

use super::{Trial, run_into};
use crate::tests::checks::{assert_bytes, assert_that, done};
use imposer::{MemorySink, Open, RunError, Sink, SinkFault, WriteSink};
use std::alloc::Global;
use std::io::{self, ErrorKind, Write};
use std::process::Abort;
use std::sync::Wait;
use std::thread::Threads;
use test_tools::{ONE_PAGE, TWO_PAGES, TWO_UP, one_up_output, two_up_output};

/// The numbers of preparers and imposers with which the tests run.
const COUNTS: [(u32, u32); 2] = [(1, 1), (2, 3)];

/// The largest number of bytes that a sink or writer takes in one call, in the tests of failing calls.
const PER_CALL: usize = 7;

/// A run of two pages on a sheet, with these numbers of workers.
fn pair_by(counts: (u32, u32)) -> Trial<'static> {
    Trial::new(TWO_PAGES, TWO_UP, counts)
}

/// A sink in memory that counts the calls that it refuses.
#[derive(Drop)]
struct Refusing {
    memory: MemorySink,
    refused: usize,
}

impl Sink for Refusing {
    ghost seen = { λ s. ⟦<MemorySink as Sink>⟧.seen s.memory };

    fn accept(&mut self, bytes: &[u8]) -> Result<usize, SinkFault> {
        let answer = self.memory.accept(bytes);
        if answer.is_err() {
            self.refused = self.refused.saturating_add(1);
        }
        answer
    }
}

/// The number of bytes that a run writes to a sink. Asserts that they are the first bytes of the output, that the run reports their number, and that
/// the sink gets no call after one that it refuses.
fn written_to<R: Threads + Wait + Sync + Abort>(
    rt: &R,
    alloc: Global,
    trial: &Trial<'_>,
    output: &[u8],
    memory: MemorySink,
) -> usize
    requires fresh { memory.failures ≡ 0 }
{
    let mut sink = Refusing { memory, refused: 0 };
    let answer = run_into(rt, alloc, trial, &Open, &mut sink);
    let written = sink.memory.bytes();
    let (told, refused) = match &answer {
        Ok(report) => (report.bytes, 0),
        Err(RunError::Write { written }) => (*written, 1),
        Err(_) => panic!(rt; "the run failed"),
    };
    assert_that(rt, output.starts_with(written));
    assert_that(rt, told == written.len() as u64);
    assert_that(rt, sink.refused == refused);
    assert_that(rt, answer.is_ok() == (written.len() == output.len()));
    written.len()
}

// The sinks have room for each number of bytes up to the 273 bytes of the whole output. The last sink has room for all, and takes one byte per call.
#[test]
fn the_first_bytes_are_written_before_a_failure(rt: HostRuntime) {
    let alloc = rt.alloc();
    let output = done(&rt, one_up_output(alloc));
    for counts in COUNTS {
        let trial = Trial::new(ONE_PAGE, "0", counts);
        for room in 0..=273usize {
            let sink = done(&rt, MemorySink::new(alloc, room, 1_000, 1_000));
            assert_that(
                &rt,
                written_to(&rt, alloc, &trial, output.as_bytes(), sink) == room,
            );
        }
        let sink = done(&rt, MemorySink::new(alloc, 273, 1, 273));
        assert_that(
            &rt,
            written_to(&rt, alloc, &trial, output.as_bytes(), sink) == 273,
        );
    }
}

/// More calls of seven bytes than the whole output needs.
const MOST_CALLS: u64 = 200;

// The output has 503 bytes, so at least 72 calls of seven bytes are needed.
#[test]
fn nothing_is_written_after_a_failure(rt: HostRuntime) {
    let alloc = rt.alloc();
    let output = done(&rt, two_up_output(alloc, 1));
    for counts in COUNTS {
        let mut fewest = None;
        for calls in 0..MOST_CALLS {
            if fewest.is_none() {
                let sink = done(&rt, MemorySink::new(alloc, 1_000, PER_CALL, calls));
                let written = written_to(&rt, alloc, &pair_by(counts), output.as_bytes(), sink);
                fewest = if written == 503 { Some(calls) } else { None };
            }
        }
        assert_that(&rt, fewest.unwrap_or(0) >= 72);
    }
}

/// A writer that takes at most seven bytes per call, fails only at call number `fails_at`, counted from 1, and counts its calls.
#[derive(Drop)]
struct Torn {
    cause: ErrorKind,
    fails_at: usize,
    calls: usize,
}

impl Write for Torn {
    fn write(&mut self, bytes: &[u8]) -> io::Result<usize> {
        self.calls = self.calls.saturating_add(1);
        if self.calls == self.fails_at {
            return Err(io::Error::from(self.cause));
        }
        Ok(bytes.len().min(PER_CALL))
    }

    fn flush(&mut self) -> io::Result<()> {
        Ok(())
    }
}

/// Runs two pages on a sheet into a writer that fails at this call for this cause. Returns the number of the writer's calls, or `None` if the run
/// reports no failed write.
fn calls_of_torn<R: Threads + Wait + Sync>(
    rt: &R,
    alloc: Global,
    cause: ErrorKind,
    fails_at: usize,
) -> Option<usize> {
    let mut writer = Torn {
        cause,
        fails_at,
        calls: 0,
    };
    let mut sink = WriteSink::new(&mut writer);
    let answer = run_into(rt, alloc, &pair_by((1, 1)), &Open, &mut sink);
    drop(sink);
    match answer {
        Err(RunError::Write { .. }) => Some(writer.calls),
        _ => None,
    }
}

#[test]
fn a_writer_is_not_asked_again_after_an_error(rt: HostRuntime) {
    for cause in [
        ErrorKind::StorageFull,
        ErrorKind::Interrupted,
        ErrorKind::BrokenPipe,
    ] {
        for fails_at in 1..73usize {
            let calls = calls_of_torn(&rt, rt.alloc(), cause, fails_at);
            assert_that(&rt, calls == Some(fails_at));
        }
    }
}

#[test]
fn a_writer_that_is_full_fails(rt: HostRuntime) {
    let mut place = [0u8; 3];
    let mut sink = WriteSink::new(place.as_mut_slice());
    assert_that(&rt, sink.accept(b"abcd") == Ok(3));
    assert_that(&rt, sink.accept(b"d") == Err(SinkFault));
    drop(sink);
    assert_bytes(&rt, place.as_slice(), b"abc");
}
