//! Runs on sheets that are already planned.
ghost use Rattle.std.specs.Prelude.{◌≡◌, ◌+◌, ◌<◌, ◌≤◌, IfOk, IfErr, OnOk, Ok};
ghost use Rattle.std.specs.Io.KnownBytes.{Appends};
ghost use Rattle.rules.specs.Output.{output};
ghost use Rattle.rules.specs.Sheets.{layout};
ghost use Rattle.sheet_writer.specs.Sinks.{IsCountable};
ghost use Rattle.sheet_text.specs.Jobs.{output_of};
ghost use Rattle.imposer.specs.Gathering.{Answers, IsFreshPass, IsFreshSeat, ReportsOf, WrotePartOf};
ghost use Rattle.imposer.specs.Listening.{HearsOfRun, IsOfJob};
ghost use Rattle.imposer.specs.Outcomes.{FailedIn, IsNoRefusal};
ghost use Rattle.imposer.specs.Rooms.{HasRoomForAll};
ghost use Rattle.imposer.specs.Workers.{AreWorkers};

use crate::gate::Gate;
use crate::gathering::gather_objects;
use crate::listener::{GatheredPlan, Listener};
use crate::outcome::{Report, RunError};
use crate::rooms::ready_for;
use crate::shared::RunObjects;
use crate::tokens::Tokens;
use crate::worker_counts::Workers;
use gather_table::GatherTable;
use handover::{Ready, Shelf};
use sheet_plan::Plan;
use sheet_text::Job;
use sheet_writer::Sink;
use std::alloc::{AllocError, Global};
use std::sync::Wait;
use std::thread::Threads;

/// Imposes and writes the sheets of a job, whose document has been read and whose sheets have been planned. The sheets are those of a specification,
/// or those made from a row, with the lines that were added to them.
///
/// The only errors are `NoMemory` and `Write`. After an error the sink has taken the first `written` bytes of the output. The sink isn't flushed. At
/// the end the listener gets the table, the queue and the result. Unless memory or a thread was refused, the result has the tokens that show all
/// calls on the table and the queue. The listener isn't called if memory is refused before there is a table.
///
/// Preparers and imposers run in threads of their own. The caller's thread writes the sheets in order, each as soon as all sheets before it are
/// written.
pub fn run_plan<R: Threads + Wait + Sync, G: Gate + Sync, S: Sink, L: Listener>(
    rt: &R,
    alloc: Global,
    job: &Job<'_, '_>,
    workers: Workers,
    gate: &G,
    sink: &mut S,
    listener: &mut L,
) -> Result<Report, RunError>
    requires workers { AreWorkers workers }
    requires countable { IsCountable (S.seen sink.old) }
    // At Ok the sink has taken exactly the output, and the report has the numbers of this output.
    ensures finished { IfOk result (λ report.
        Appends (S.seen sink.old).bytes (S.seen sink.new).bytes (output_of job.now) × ReportsOf job.now report) }
    ensures refused { IfErr result IsNoRefusal }
    // After an error the sink has taken the first bytes of the output, as many as the error says.
    ensures written { IfErr result (WrotePartOf job.now (S.seen sink.old) (S.seen sink.new)) }
    // At Ok the sink hasn't failed in this call. After `Write` it has failed once, and after `NoMemory` at most once.
    ensures steady { OnOk result ((S.seen sink.new).failures ≡ (S.seen sink.old).failures) }
    ensures failed { IfErr result (λ e. FailedIn e (S.seen sink.old) (S.seen sink.new)) }
    // The listener was called with one gathering, on a table with the layout of this job. Its tokens, if there are any, show the calls. If memory was
    // refused before there was a table, it wasn't called.
    ensures heard { HearsOfRun job.now (L.heard listener.old) (L.heard listener.new) result }
{
    match gather_plan(rt, alloc, job, workers, gate, sink) {
        Ok(ended) => {
            let outcome = ended.gathered.outcome;
            listener.ended(ended);
            outcome
        }
        Err(AllocError) => Err(RunError::NoMemory { written: 0 }),
    }
}

/// Imposes and writes like `run_plan`, and returns the object that the listener gets. If memory is refused before there is a table, the call fails
/// and nothing is written.
fn gather_plan<'j, 'd, R: Threads + Wait + Sync, G: Gate + Sync, S: Sink>(
    rt: &R,
    alloc: Global,
    job: &Job<'j, 'd>,
    workers: Workers,
    gate: &G,
    sink: &mut S,
) -> Result<GatheredPlan<'j, 'd>, AllocError>
    requires workers { AreWorkers workers }
    requires countable { IsCountable (S.seen sink.old) }
    ensures answers { IfOk result (λ ended.
        Answers job.now (S.seen sink.old) (S.seen sink.new) ended.gathered.outcome) }
    ensures unwritten { IfErr result (λ e. S.seen sink.new ≡ S.seen sink.old) }
    ensures of_job { IfOk result (IsOfJob job.now) }
{
    let shelf = Shelf::of_document(alloc, job.document())?;
    let (table, queue, tokens) = table_and_queue(alloc, job.plan(), workers.preparers)?;
    let objects = RunObjects {
        alloc,
        gate: &*gate,
        job: &*job,
        table: &table,
        shelf: &shelf,
        is_of_document: true,
        ready: &queue,
    };
    keep_blocks(alloc);
    let gathered = gather_objects(rt, objects, tokens, workers, sink);
    // The shelf is dropped by a call, so that the effect of dropping it is proved once, in the callee.
    drop(shelf);
    Ok(GatheredPlan {
        table,
        queue,
        gathered,
    })
}

/// A table of this plan, with an unused seat, and a queue, with an unused pass. The queue and its pass have room for all puts of a run with this
/// number of preparers. The only error is refused memory.
fn table_and_queue<'j>(
    alloc: Global,
    plan: &Plan<'j>,
    preparers: u32,
) -> Result<(GatherTable<'j>, Ready, Tokens), AllocError>
    requires preparers { (0 < preparers) × (preparers ≤ 16) }
    ensures table { IfOk result (λ made. made.0.layout ≡ layout plan.now) }
    ensures seat { IfOk result (λ made. IsFreshSeat made.0 made.2.seat) }
    ensures pass { IfOk result (λ made. IsFreshPass made.1 made.2.pass) }
    ensures room { IfOk result (λ made. HasRoomForAll (layout plan.now) preparers made.2.pass) }
{
    let (queue, pass) = ready_for(alloc, plan, preparers)?;
    let (table, seat) = GatherTable::new(alloc, plan)?;
    Ok((table, queue, Tokens { seat, pass }))
}

/// The size of the block that `keep_blocks` makes, in bytes.
const KEPT_BLOCK: usize = 4_194_304;

/// Makes a block of memory and frees it. From then on the C library keeps freed blocks of up to this size. It neither returns them to the system nor
/// asks the system for new ones, which would have to be cleared. Blocks that were made before this call still go back to the system. Without this
/// call a run is slower, but has the same result.
fn keep_blocks(alloc: Global) {
    drop(Vec::<u8>::with_capacity(alloc, KEPT_BLOCK));
}
