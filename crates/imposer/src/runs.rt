//! Runs from the bytes of a document to the bytes of the output.
ghost use Rattle.std.specs.Prelude.{◌≡◌, ◌+◌, ◌<◌, IfOk, IfErr, OnOk, Ok};
ghost use Rattle.std.specs.Io.KnownBytes.{Appends};
ghost use Rattle.rules.specs.Output.{output};
ghost use Rattle.rules.specs.Run.{plan_in};
ghost use Rattle.rules.specs.Signatures.{AreSidesIfGiven, sheets_in};
ghost use Rattle.sheet_plan.specs.Plans.{planned_in};
ghost use Rattle.sheet_plan.specs.Refusals.{RefusesIn};
ghost use Rattle.sheet_writer.specs.Sinks.{IsCountable};
ghost use Rattle.imposer.specs.Options.{AreOptions};
ghost use Rattle.imposer.specs.Runs.{Request, request, frame_of, Accepted, AgreesWithChecks, HasWritten, Reports};
ghost use Rattle.imposer.specs.Outcomes.{FailedIn};
ghost use Rattle.imposer.specs.Runs.{IsUnwritten, IsGiven, AnswersRequest};

use crate::gate::Gate;
use crate::listener::NoListener;
use crate::options::{Options, options_are_valid};
use crate::outcome::{Report, RunError};
use crate::planned::run_plan;
use dsc::Document;
use pagespec::{Spec, read_spec};
use sheet_plan::{Plan, PlanError};
use sheet_text::Job;
use sheet_writer::Sink;
use std::alloc::Global;
use std::sync::Wait;
use std::thread::Threads;

/// Reads the page specification and the document, imposes the sheets, and writes them to the sink.
///
/// If the request is refused, the error is that of the first check that fails. The options are checked first, then the specification, the document
/// and the plan. A refusal comes before anything is written. After `NoMemory` and `Write` the sink has taken the first `written` bytes of the output.
/// The sink isn't flushed.
///
/// Preparers and imposers run in threads of their own. The caller's thread writes the sheets in order, each as soon as all sheets before it are
/// written. The output depends neither on the numbers of threads nor on how threads are scheduled.
pub fn run<R: Threads + Wait + Sync, G: Gate + Sync, S: Sink>(
    rt: &R,
    alloc: Global,
    input: &[u8],
    spec: &str,
    options: &Options,
    gate: &G,
    sink: &mut S,
) -> Result<Report, RunError>
    requires countable { IsCountable (S.seen sink.old) }
    // At Ok the sink has taken exactly the output, and the report has the numbers of this output.
    ensures finished { IfOk result (λ report. Accepted (request options.now spec.now input.now) (λ spec us.
        Appends (S.seen sink.old).bytes (S.seen sink.new).bytes (output (frame_of options.now) options.now.sides spec us)
        × Reports (frame_of options.now) options.now.sides spec us report)) }
    // A refusal is that of the first check that fails.
    ensures refused { IfErr result (λ e. AgreesWithChecks (request options.now spec.now input.now) e) }
    // After an error the sink has taken the first bytes of the output, as many as the error says; none after a refusal.
    ensures written { IfErr result (λ e.
        HasWritten (request options.now spec.now input.now) (S.seen sink.old) (S.seen sink.new) e) }
    // At Ok the sink hasn't failed in this call. After `Write` it has failed once, and after `NoMemory` at most once.
    ensures steady { OnOk result ((S.seen sink.new).failures ≡ (S.seen sink.old).failures) }
    ensures failed { IfErr result (λ e. FailedIn e (S.seen sink.old) (S.seen sink.new)) }
{
    let read = read_request(alloc, input, spec, options)?;
    run_read(rt, alloc, &read, options, gate, sink)
}

/// The specification and the document of a run, after they have been read.
#[derive(Drop)]
struct Given<'d> {
    spec: Spec,
    document: Document<'d>,
}

/// Checks the options, then reads the specification and the document. The error is that of the first of the three that is refused.
fn read_request<'d>(
    alloc: Global,
    input: &'d [u8],
    spec: &str,
    options: &Options,
) -> Result<Given<'d>, RunError>
    ensures read { IfOk result (λ given. IsGiven (request options.now spec.now input.now) options.now given) }
    ensures refused { IfErr result (AgreesWithChecks (request options.now spec.now input.now)) }
    ensures unwritten { IfErr result IsUnwritten }
{
    if !options_are_valid(options) {
        return Err(RunError::Options);
    }
    let spec = read_spec(alloc, spec)?;
    let document = Document::read(alloc, input)?;
    Ok(Given { spec, document })
}

/// Plans the sheets of a request that has been read, imposes them and writes them. The errors are a refused plan, `NoMemory` and `Write`.
fn run_read<R: Threads + Wait + Sync, G: Gate + Sync, S: Sink>(
    rt: &R,
    alloc: Global,
    given: &Given<'_>,
    options: &Options,
    gate: &G,
    sink: &mut S,
) -> Result<Report, RunError>
    requires options { AreOptions options.now }
    requires countable { IsCountable (S.seen sink.old) }
    ensures { (r : Request) → IsGiven r options.now given.now
        → AnswersRequest r (S.seen sink.old) (S.seen sink.new) result }
{
    let plan = match plan_pages(alloc, &given.spec, given.document.pages(), options.sides) {
        Ok(plan) => plan,
        Err(error) => return Err(RunError::from(error)),
    };
    let job = Job::new(&plan, &given.document, options.paper, options.border);
    run_plan(
        rt,
        alloc,
        &job,
        options.workers,
        gate,
        sink,
        &mut NoListener,
    )
}

/// Plans the sheets for pages in their order, or for pages in signatures if `sides`, the number of sides of a signature, is given. The error says why
/// the sheets can't be planned.
fn plan_pages<'s>(
    alloc: Global,
    spec: &'s Spec,
    pages: u32,
    sides: Option<u32>,
) -> Result<Plan<'s>, PlanError>
    requires { AreSidesIfGiven sides }
    ensures planned { IfOk result (λ plan. plan ≡ planned_in sides spec.entry.now pages) }
    ensures accepted { OnOk result (plan_in sides spec.entry.now pages ≡ Ok (sheets_in sides spec.entry.now pages)) }
    ensures refused { IfErr result (RefusesIn sides spec.entry.now pages) }
{
    match sides {
        Some(sides) => Plan::with_signatures(alloc, spec, pages, sides),
        None => Plan::new(alloc, spec, pages),
    }
}
