//! Tools that the tests share: options, large documents, a run with its report, and a table.
ghost use Rattle.std.specs.Prelude.{◌≡◌};
ghost use Rattle.rules.specs.Sheets.{layout};
ghost use Rattle.gather_table.specs.Shared.{opening_seat};
ghost use Rattle.sheet_writer.specs.Sinks.{IsCountable};

mod callers;
mod checks;
mod doubled;
mod examples;
mod gates;
mod gatherings;
mod groups;
mod growth;
mod jobs;
mod own_pages;
mod queues;
mod refused_puts;
mod refused_workers;
mod sets;
mod sheets_of_sheets;
mod sinks;
mod tally;
mod texts;
mod tools;
mod windows;

use checks::done;
use gather_table::{GatherTable, Seat};
use handover::Shelf;
use imposer::{Gate, Job, MemorySink, Options, Report, RunError, Sink, Workers, run};
use lengths::a4;
use std::alloc::Global;
use std::process::Abort;
use std::sync::Wait;
use std::sync::atomic::AtomicUsize;
use std::sync::atomic::Ordering::SeqCst;
use std::thread;
use std::thread::Threads;

/// The number of shares of a whole seat, and of a whole pass.
const WHOLE: u64 = 4_294_967_296;

/// The number of times that a wait yields before it runs out.
const YIELDS: u32 = 20_000_000;

/// Waits until `word` has reached `height`, or until some wait has run out. A wait that runs out is counted in `run_out`.
fn wait_for(word: &AtomicUsize, height: usize, run_out: &AtomicUsize) {
    for _ in 0..YIELDS {
        if word.load(SeqCst) >= height || run_out.load(SeqCst) > 0 {
            return;
        }
        thread::yield_now();
    }
    run_out.fetch_add(1, SeqCst);
}

/// Options for A4, without a border and without signatures, with these numbers of workers.
fn workers(preparers: u32, imposers: u32) -> Options {
    Options {
        paper: a4(),
        border: None,
        sides: None,
        workers: Workers {
            preparers,
            imposers,
        },
    }
}

/// A run to try: its document, its specification, and the numbers of preparers and imposers.
#[derive(Drop)]
struct Trial<'a> {
    document: &'a str,
    items: &'a str,
    counts: (u32, u32),
}

impl<'a> Trial<'a> {
    fn new(document: &'a str, items: &'a str, counts: (u32, u32)) -> Trial<'a> {
        Trial {
            document,
            items,
            counts,
        }
    }
}

/// Runs a trial with this gate into this sink. Returns the report or the error of the run.
fn run_into<R: Threads + Wait + Sync, G: Gate + Sync, S: Sink>(
    rt: &R,
    alloc: Global,
    trial: &Trial<'_>,
    gate: &G,
    sink: &mut S,
) -> Result<Report, RunError>
    requires countable { IsCountable (S.seen sink.old) }
{
    let options = workers(trial.counts.0, trial.counts.1);
    let input = trial.document.as_bytes();
    run(rt, alloc, input, trial.items, &options, gate, sink)
}

/// Runs a trial with this gate into memory with room for 100,000 bytes, and returns its report. The test fails if the run does.
fn report_of<R: Threads + Wait + Sync + Abort, G: Gate + Sync>(
    rt: &R,
    alloc: Global,
    trial: &Trial<'_>,
    gate: &G,
) -> Report {
    let mut sink = done(rt, MemorySink::new(alloc, 100_000, 100_000, 1_000));
    done(rt, run_into(rt, alloc, trial, gate, &mut sink))
}

/// A document of `pages` pages. Each page has `lines` lines of nine bytes after its `%%Page:` comment.
fn large_pages<R: Abort>(rt: &R, alloc: Global, pages: u32, lines: usize) -> String {
    let lines = done(rt, "% a line\n".repeat(alloc, lines));
    let mut text = done(rt, String::from_str(alloc, "%!PS-Adobe-3.0\n"));
    for page in 1..=pages {
        done(rt, writeln!(text, "%%Page: {page} {page}"));
        done(rt, text.push_str(&lines));
    }
    text
}

/// A table of the job with its whole seat, and an empty shelf.
fn table_and_shelf<'j, 'd, R: Abort>(
    rt: &R,
    alloc: Global,
    job: &Job<'j, 'd>,
) -> (GatherTable<'j>, Seat, Shelf<'d>)
    ensures plan { result.0.layout ≡ layout job.now.plan }
    ensures seat { result.1 ≡ opening_seat result.0 }
{
    let (table, seat) = done(rt, GatherTable::new(alloc, job.plan()));
    (table, seat, done(rt, Shelf::new(alloc)))
}
