//! Runs of requests. An output is created only when nothing is left that could be refused.
ghost use Rattle.std.specs.Prelude.{◌≡◌, ◌<◌, ◌⊎◌, [], IsTrue, MatchResult, None, Some, Ok, Err, length, option_map, string_bytes, true};
ghost use Rattle.std.specs.IoError.{error_kind};
ghost use Rattle.std.specs.declared.io.ErrorKind.TheVariants.{OutOfMemory};
ghost use Rattle.impose_messages.specs.Faults.{without_memory};
ghost use Rattle.sheet_text.specs.Jobs.{is_border};
ghost use Rattle.imposer.specs.Outcomes.{AfterError, IsNoRefusal};
ghost use Rattle.row_runs.specs.Sheets.{MayBeAsked};
ghost use Rattle.dsc.specs.Serving.{Serve};
ghost use Rattle.impose_cli.specs.RowRuns.{Imposes, lying_by};
ghost use Rattle.impose_cli.specs.RowTasks.{HasOptions, ImposesTask, MayBeLaidSo};
ghost use Rattle.impose_cli.specs.Endings.{Comes, RefusesRowJob, RefusesRowTaskRun, RunsRequest, edge_of_world, reported_by, shown};
ghost use Rattle.impose_cli.specs.Endings.{BreaksOff, Holds, IsNotCreated, IsSaidOf, WritesJob};
ghost use Rattle.impose_messages.specs.declared.fault.ImposeFault.TheVariants as faults;
ghost use Rattle.world.specs.declared.rest.Rest.TheVariants as rests;

use crate::attempt::{Attempt, refused_before};
use crate::laying::row_asked;
use crate::lying::lying_among;
use crate::row_task::{RowTask, asked_fault_of, row_task};
use command_words::name_of;
use dsc::{Document, Parts};
use guard::RoomyText;
use impose_messages::{Done, Findings, Finished, ImposeFault, Lying, Scales, SheetFacts};
use impose_words::ImposeRequest;
use imposer::{Job, NoListener, Open, Report, RunError, Sink, Workers, run_plan};
use preview::Sides;
use row_runs::{Laying, RowJob, SheetRequest, plan_error};
use sheet_plan::{MadeSheets, Plan};
use std::alloc::Global;
use std::io::ErrorKind;
use std::marker::Brand;
use std::sync::Wait;
use std::thread::Threads;
use world::{Asked, Before, Buffered, Fate, Late, Output, Refused, Rest, World};

/// One preparer and one imposer. More threads save no time (bench/README.md).
const WORKERS: Workers = Workers {
    preparers: 1,
    imposers: 1,
};

/// The facts about sheets that aren't made.
const NO_FACTS: SheetFacts = SheetFacts {
    scales: None,
    sides: Sides::One,
    beside: None,
    over: None,
};

/// Imposes a document as a request asks. Faults are found in this order: a fault of the document, a fault of the layout, a fault of the run. The
/// output is created after all checks, so a refused request creates none.
pub(crate) fn run_on_document<R: Threads + Wait + Sync, W: World>(
    rt: &R,
    alloc: Global,
    request: &ImposeRequest,
    input: RoomyText,
    world: W,
) -> Attempt<W, Done>
    requires countable { (W.seen world).failures < u64.MAX }
    ensures { RunsRequest request.now input.items (edge_of_world (W.reports_outputs world) W.seen W.Output.seen) result.outcome
        world result.rest (shown W.Output.seen result.rest) }
{
    let (task, parts) = match row_task(alloc, request, input) {
        Ok(found) => found,
        Err(fault) => return refused_before(fault, world),
    };
    let (attempt, sheets) = impose_task(rt, alloc, request, &task, parts, world);
    Attempt {
        outcome: reported(attempt.outcome, sheets, task.findings),
        rest: attempt.rest,
    }
}

/// Imposes the task of a row. `parts` says where the pages and the trailer of the task's text begin. Returns facts about the sheets too.
fn impose_task<R: Threads + Wait + Sync, W: World>(
    rt: &R,
    alloc: Global,
    request: &ImposeRequest,
    task: &RowTask,
    parts: Parts,
    world: W,
) -> (Attempt<W, Report>, SheetFacts)
    requires countable { (W.seen world).failures < u64.MAX }
    requires laid { MayBeLaidSo task.now.laying }
    requires options { HasOptions request.now }
    requires parts { Serve parts task.now.text.items }
    ensures { Comes (RefusesRowTaskRun request.now task.now) (ImposesTask request.now task.now result.1)
        (option_map string_bytes request.now.outfile) (edge_of_world (W.reports_outputs world) W.seen W.Output.seen) result.0.outcome
        world result.0.rest (shown W.Output.seen result.0.rest) }
{
    let document = match Document::from_parts(task.text.as_slice(), parts) {
        Ok(document) => document,
        Err(error) => {
            let fault = ImposeFault::Run(RunError::from(error));
            return (refused_before(fault, world), NO_FACTS);
        }
    };
    // Written out as in look.rt: with a function that makes the job for both, the prover isn't told which modules hold the types of its fields.
    let job = RowJob {
        document: &document,
        turns: task.turns.as_slice(),
        papers: task.papers.as_slice(),
        asked: SheetRequest {
            row: row_asked(request),
            laying: task.laying.lent(),
            same_scale: request.spacing.same_scale,
        },
        swapped: request.swaps_margins(),
        border: request.border,
        inset: request.spacing.free.trim,
        marks: request.marks,
    };
    impose_job(rt, alloc, &job, name_of(&request.outfile), world)
}

/// Imposes the row of a job, and writes the sheets to the file of this name, or to standard output if there is no name. Returns facts about the
/// sheets too.
fn impose_job<R: Threads + Wait + Sync, W: World>(
    rt: &R,
    alloc: Global,
    job: &RowJob<'_, '_>,
    name: Option<&str>,
    world: W,
) -> (Attempt<W, Report>, SheetFacts)
    requires countable { (W.seen world).failures < u64.MAX }
    requires asked { MayBeAsked job.now.asked }
    requires border { IsTrue (is_border job.now.border) }
    ensures { Comes (RefusesRowJob job.now) (Imposes job.now result.1) (option_map (λ n. n.now) name.entry) (edge_of_world (W.reports_outputs world) W.seen W.Output.seen)
        result.0.outcome world result.0.rest (shown W.Output.seen result.0.rest) }
{
    let pages = job.document.pages();
    let (sheets, dress) = match job.lay(alloc) {
        Ok(laid) => laid,
        Err(error) => return (
            refused_before(asked_fault_of(error, pages), world),
            NO_FACTS,
        ),
    };
    let plan = match Plan::of_sheets(alloc, pages, &sheets) {
        Ok(plan) => plan,
        Err(error) => {
            let fault = asked_fault_of(plan_error(error), pages);
            return (refused_before(fault, world), NO_FACTS);
        }
    };
    let count = plan.sheets();
    let scales = Scales::of(&sheets, count);
    let facts = SheetFacts {
        scales,
        sides: job.sides(),
        beside: lying_if(job, &sheets, count, true),
        over: lying_if(job, &sheets, count, false),
    };
    let made = Job::made(&plan, job.document, &sheets, job.border, job.inset, &dress);
    let attempt = write_job(rt, alloc, &made, name, world);
    (attempt, facts)
}

/// The first page that lies beside its sheet or, without `wholly`, partly beyond an edge. `None` unless a specification places the pages.
fn lying_if(job: &RowJob<'_, '_>, sheets: &MadeSheets, count: u32, wholly: bool) -> Option<Lying>
    requires { count ≡ length sheets.now }
    ensures { result ≡ lying_by job.now.asked.laying wholly sheets.now }
{
    match &job.asked.laying {
        Laying::BySpec { .. } => lying_among(sheets, count, wholly),
        _ => None,
    }
}

/// The outcome of a run. If the run finished, the report gets the facts about its sheets, and those that were found before. A fault stays as it is.
fn reported(
    outcome: Result<Report, ImposeFault>,
    sheets: SheetFacts,
    findings: Findings,
) -> Result<Done, ImposeFault>
    ensures { result ≡ reported_by findings sheets outcome }
{
    outcome.map(|report| Done::Imposed(Finished {
        report,
        sheets,
        findings,
    }))
}

// ---- writing the sheets

/// The size of the output's buffer, in bytes. Smaller sheets are gathered in the buffer and written together.
const WRITTEN_AT_ONCE: usize = 16_384;

/// Writes the sheets of a job to the file of this name, or to standard output if there is no name. The output is created when the first byte is to be
/// written, or at the end if there are no bytes. The job has been checked, so it isn't refused here: only memory, the output's creation or a write
/// can fail.
fn write_job<R: Threads + Wait + Sync, W: World>(
    rt: &R,
    alloc: Global,
    job: &Job<'_, '_>,
    name: Option<&str>,
    world: W,
) -> Attempt<W, Report>
    requires countable { (W.seen world).failures < u64.MAX }
    ensures { Comes (λ fault. ⊥) (WritesJob job.now) (option_map (λ n. n.now) name.entry) (edge_of_world (W.reports_outputs world) W.seen W.Output.seen) result.outcome
        world result.rest (shown W.Output.seen result.rest) }
{
    write_asked::<Brand, R, W>(rt, alloc, job, Asked { name, world })
}

/// Does the work of `write_job`. The parameter `B` lets contracts refer to the output's name, and to the state of the world before the output is
/// created.
fn write_asked<B: Before, R: Threads + Wait + Sync, W: World>(
    rt: &R,
    alloc: Global,
    job: &Job<'_, '_>,
    asked: Asked<'_, W>,
) -> Attempt<W, Report>
    requires named { option_map (λ n. n.now) asked.name ≡ B.name }
    requires seen { W.seen asked.world ≡ B.seen }
    requires countable { B.seen.failures < u64.MAX }
    ensures { Comes (λ fault. ⊥) (WritesJob job.now) B.name (edge_of_world (W.reports_outputs asked.entry.world) W.seen W.Output.seen)
        result.outcome asked.entry.world result.rest (shown W.Output.seen result.rest) }
{
    let name = asked.name;
    let buffer = match Vec::with_capacity(alloc, WRITTEN_AT_ONCE) {
        Ok(buffer) => buffer,
        Err(_) => return refused_before(ImposeFault::no_memory(), asked.world),
    };
    let mut sink: Buffered<Late<'_, W, B>> = Buffered::new(buffer, Late::new(asked));
    match run_plan(rt, alloc, job, WORKERS, &Open, &mut sink, &mut NoListener) {
        Ok(report) => match sink.write_out() {
            Ok(()) => written_out(report, name, sink),
            Err(_) => broken_off(report.bytes, sink),
        },
        Err(error) => broken_off(taken_before(&error), sink),
    }
}

/// The end of a run after all bytes were taken. An output for which there were no bytes is created only now. If the output couldn't be created, the
/// end is that of `uncreated`.
fn written_out<'n, B: Before, W: World>(
    report: Report,
    name: Option<&str>,
    sink: Buffered<Late<'n, W, B>>,
) -> Attempt<W, Report>
    requires named { option_map (λ n. n.now) name ≡ B.name }
    requires countable { B.seen.failures < u64.MAX }
    requires empty { sink.buffer.items ≡ [] }
    ensures { MatchResult result.outcome
        (λ r. (r ≡ report) × Holds (edge_of_world true W.seen W.Output.seen) (⟦<Buffered<Late<'n, W, B>> as Sink>⟧.seen sink.entry) result.rest)
        (λ f. IsNotCreated (edge_of_world true W.seen W.Output.seen) B.name B.seen f result.rest) }
{
    match sink.into_output().fate() {
        Fate::Created(output) => Attempt {
            outcome: Ok(report),
            rest: Rest::Output(output),
        },
        Fate::Unasked(world) => match world.create(name) {
            Ok(output) => Attempt {
                outcome: Ok(report),
                rest: Rest::Output(output),
            },
            Err(refused) => uncreated(refused),
        },
        Fate::Refused(refused) => uncreated(refused),
    }
}

/// The end of a run in which memory ran out, the output couldn't be created, or a write failed. `taken` is the number of bytes that the sink had
/// taken, including those that wait in its buffer.
fn broken_off<'n, B: Before, W: World>(
    taken: u64,
    sink: Buffered<Late<'n, W, B>>,
) -> Attempt<W, Report>
    ensures { MatchResult result.outcome (λ r. ⊥) (λ f. BreaksOff (edge_of_world true W.seen W.Output.seen) B.name B.seen taken
        (⟦<Buffered<Late<'n, W, B>> as Sink>⟧.seen sink.entry).bytes f result.rest) }
{
    let written = taken.saturating_sub(sink.waiting() as u64);
    match sink.into_output().fate() {
        // No output was asked for, so no write failed: memory ran out.
        Fate::Unasked(world) => refused_before(ImposeFault::no_memory(), world),
        Fate::Refused(refused) => uncreated(refused),
        Fate::Created(output) => failed(written, output),
    }
}

/// The number of bytes that the sink had taken before an error.
fn taken_before(error: &RunError) -> u64
    requires { IsNoRefusal error.now }
    ensures { AfterError error.now ⊥ (λ n. result ≡ n) (λ n. result ≡ n) }
{
    match error {
        RunError::NoMemory { written } | RunError::Write { written } => *written,
        _ => 0,
    }
}

/// The end of a run whose output couldn't be created. The fault is a lack of memory if memory was refused, otherwise a write that failed after 0
/// bytes.
fn uncreated<W: World>(refused: Refused<W>) -> Attempt<W, Report>
    ensures fault { ((error_kind refused.cause ≡ OutOfMemory) × (result.outcome ≡ Err without_memory))
        ⊎ (¬ (error_kind refused.cause ≡ OutOfMemory) × (result.outcome ≡ Err (faults.Write 0 (Some refused.cause)))) }
    ensures rest { result.rest ≡ rests.World refused.world }
{
    if refused.cause.kind() == ErrorKind::OutOfMemory {
        return refused_before(ImposeFault::no_memory(), refused.world);
    }
    let fault = ImposeFault::Write {
        written: 0,
        cause: Some(refused.cause),
    };
    refused_before(fault, refused.world)
}

/// The end of a run that leaves an output with `written` bytes. If the output failed, the fault is a failed write with the output's cause. Otherwise
/// it is a lack of memory.
fn failed<W: World>(written: u64, output: W::Output) -> Attempt<W, Report>
    requires begun { (W.Output.seen output).failures ≡ 0 → (W.Output.seen output).has_taken ≡ true }
    ensures fault { MatchResult result.outcome (λ report. ⊥) (IsSaidOf (W.Output.seen output) written) }
    ensures rest { result.rest ≡ rests.Output output }
{
    let fault = if output.failures() == 0 {
        ImposeFault::Run(RunError::NoMemory { written })
    } else {
        ImposeFault::Write {
            written,
            cause: output.cause(),
        }
    };
    Attempt {
        outcome: Err(fault),
        rest: Rest::Output(output),
    }
}
