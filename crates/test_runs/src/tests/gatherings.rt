//! Tests of gatherings, some of them into sinks that fail. They check the output, the report, and that the seat and the pass come back whole.
ghost use Rattle.std.specs.Prelude.{◌≤◌, length};
ghost use Rattle.imposer.specs.Gathering.{IsFreshPass};

use super::{WHOLE, table_and_shelf};
use crate::tests::checks::{assert_bytes, assert_that, done};
use dsc::Document;
use handover::{Pass, Ready};
use imposer::{Gate, Gathered, Job, MemorySink, Open, Report, RunError, Workers, gather};
use lengths::a4;
use pagespec::read_spec;
use sheet_plan::Plan;
use std::alloc::Global;
use std::process::Abort;
use std::sync::Wait;
use std::thread::Threads;
use test_tools::{MOST_GROWTHS, TWO_UP, document_of, refuse, two_up_output};

/// How a job is gathered: the numbers of workers, and the number of bytes for which the sink has room. `puts` is the least number of puts that the
/// queue guarantees, if it guarantees any. `refused` says which growth is refused, counted from 1.
#[derive(Clone, Copy)]
pub(super) struct Way {
    pub(super) workers: Workers,
    pub(super) room: usize,
    pub(super) puts: Option<u32>,
    pub(super) refused: u32,
}

/// The end of a gathering: its outcome, whether a page was left without a receipt, the shares of the seat and of the pass if they came back, and the
/// sink with the output.
#[derive(Drop)]
pub(super) struct Gathering {
    pub(super) outcome: Result<Report, RunError>,
    pub(super) is_unshelved: bool,
    pub(super) shares: Option<(u64, u64)>,
    pub(super) sink: MemorySink,
}

/// A queue for the sheets of a job, and its pass. If `puts` is given, the queue guarantees at least that number of puts.
fn queue_for<R: Abort>(rt: &R, alloc: Global, job: &Job<'_, '_>, puts: Option<u32>) -> (Ready, Pass)
    ensures pass { IsFreshPass result.0 result.1 }
    ensures room { length job.now.plan.sheets ≤ result.0.capacity }
{
    let made = match puts {
        Some(puts) => Ready::by_right(alloc, puts.max(job.sheets()).max(1)),
        None => Ready::new(alloc, job.sheets().max(1)),
    };
    done(rt, made)
}

/// Gathers a job in this way, with this gate.
fn gather_at<R: Threads + Wait + Sync + Abort, G: Gate + Sync>(
    rt: &R,
    alloc: Global,
    job: &Job<'_, '_>,
    way: Way,
    gate: &G,
) -> Gathering {
    if !way.workers.are_valid() {
        panic!(rt; "no such workers");
    }
    let mut sink = done(rt, MemorySink::new(alloc, way.room, 1_000_000, 1_000));
    let (ready, pass) = queue_for(rt, alloc, job, way.puts);
    let (table, seat, shelf) = table_and_shelf(rt, alloc, job);
    refuse(alloc, way.refused);
    let Gathered {
        outcome,
        unshelved,
        tokens,
    } = gather(
        rt,
        alloc,
        job,
        &table,
        seat,
        &shelf,
        &ready,
        pass,
        way.workers,
        gate,
        &mut sink,
    );
    Gathering {
        outcome,
        is_unshelved: unshelved.is_some(),
        shares: tokens.map(|(seat, pass)| (seat.share(), pass.share())),
        sink,
    }
}

/// Gathers the pages of a document, two on a sheet, in this way and with this gate.
pub(super) fn gather_pairs<R: Threads + Wait + Sync + Abort, G: Gate + Sync>(
    rt: &R,
    alloc: Global,
    text: &str,
    way: Way,
    gate: &G,
) -> Gathering {
    let spec = done(rt, read_spec(alloc, TWO_UP));
    let document = done(rt, Document::read(alloc, text.as_bytes()));
    let plan = done(rt, Plan::new(alloc, &spec, document.pages()));
    let job = Job::new(&plan, &document, a4(), None);
    gather_at(rt, alloc, &job, way, gate)
}

/// The expected outcome for `pages` pages, two on a sheet, if the bytes `written` of the output are written and the bytes `rest` aren't. It is a
/// report if `rest` is empty, otherwise a failed write.
fn outcome_of(pages: u32, written: &[u8], rest: &[u8]) -> Result<Report, RunError> {
    let bytes = written.len() as u64;
    if !rest.is_empty() {
        return Err(RunError::Write { written: bytes });
    }
    Ok(Report {
        pages,
        sheets: pages / 2,
        born: 0,
        swept: 0,
        bytes,
    })
}

/// Gathers `pages` pages, two on a sheet, with these numbers of workers, into a sink with room for `room` bytes. Asserts that the outcome and the
/// written bytes are right, and that the seat and the pass come back with all shares.
fn assert_gathered<R: Threads + Wait + Abort + Sync>(
    rt: &R,
    alloc: Global,
    pages: u32,
    (preparers, imposers): (u32, u32),
    room: usize,
) {
    let document = done(rt, document_of(alloc, pages));
    let output = done(rt, two_up_output(alloc, pages / 2));
    let way = Way {
        workers: Workers {
            preparers,
            imposers,
        },
        room,
        puts: None,
        refused: MOST_GROWTHS,
    };
    let gathering = gather_pairs(rt, alloc, &document, way, &Open);
    let (written, rest) = output.as_bytes().split_at(room.min(output.len()));
    assert_that(rt, gathering.outcome == outcome_of(pages, written, rest));
    assert_bytes(rt, gathering.sink.bytes(), written);
    assert_that(rt, !gathering.is_unshelved);
    assert_that(rt, gathering.shares == Some((WHOLE, WHOLE)));
}

#[test]
fn a_gathering_hands_back_its_tokens(rt: HostRuntime) {
    for (pages, counts, room) in [
        (200, (1, 1), 100_000),
        (200, (2, 3), 100_000),
        (200, (16, 16), 100_000),
        (8, (2, 3), 0),
        (8, (2, 3), 100),
        (8, (2, 3), 1_000),
    ] {
        assert_gathered(&rt, rt.alloc(), pages, counts, room);
    }
}
