//! Runs a request. Makes the exit status and the line that report how the run ended.
ghost use Rattle.std.specs.Prelude.{◌≡◌, ◌<◌, ◌^◌, [], false, Option, Result, IfOk, OnErr, string_bytes};
ghost use Rattle.std.specs.Io.KnownBytes.{Appends};
ghost use Rattle.rules.specs.Output.{output};
ghost use Rattle.sheet_writer.specs.Sinks.{IsCountable};
ghost use Rattle.imposer.specs.Runs.{Accepted, frame_of};
ghost use Rattle.imposer.specs.declared.outcome.Report.{Report as ReportValue};
ghost use Rattle.imposer.specs.declared.outcome.RunError.{RunError as RunErrorValue};
ghost use Rattle.pstops_cli.specs.RequestRuns.{EndsRun, IsLineOf, asked_by, is_silent, outcome_line, outcome_status};

use crate::command::Request;
use crate::messages::{Fault, fault_line, report_line};
use imposer::{Open, Report, RunError, Sink, run};
use std::alloc::{AllocError, Global};
use std::sync::Wait;
use std::thread::Threads;

/// Runs a request on the bytes of its input. Returns the exit status and the line for standard error, which may be empty.
///
/// If the run finished, the status is 0. The line is then the report, or empty if the request is quiet. Otherwise the status and the line are those
/// of the run's error. If memory for the line is refused, the line is empty and the status is 3.
pub fn run_request<R: Threads + Wait + Sync, S: Sink>(
    rt: &R,
    alloc: Global,
    request: &Request,
    input: &[u8],
    sink: &mut S,
) -> (u8, Vec<u8>)
    requires countable { IsCountable (S.seen sink.old) }
    // The run ended in one of the ways that `run` promises, and the status and the line are those of that end.
    ensures ended { (ended : Result ReportValue RunErrorValue)
        × EndsRun (asked_by request.now input.now) (S.seen sink.old) (S.seen sink.new) ended
        × IsLineOf request.now.quiet ended result.0 result.1.items }
    // Status 0 is returned only if exactly the output was written.
    ensures finished { result.0 ≡ 0 → Accepted (asked_by request.now input.now) (λ spec us.
        Appends (S.seen sink.old).bytes (S.seen sink.new).bytes
        (output (frame_of request.now.options) request.now.options.sides spec us)) }
{
    let ended = run(
        rt,
        alloc,
        input,
        request.spec.as_str(),
        &request.options,
        &Open,
        sink,
    );
    match ending_of(alloc, request.quiet, ended) {
        Ok(answer) => answer,
        Err(_) => (3, Vec::new(alloc)),
    }
}

/// The exit status and the line for this end of a run. The only error is refused memory for the line.
fn ending_of(
    alloc: Global,
    quiet: bool,
    ended: Result<Report, RunError>,
) -> Result<(u8, Vec<u8>), AllocError>
    ensures status { IfOk result (λ answer. answer.0 ≡ outcome_status ended) }
    ensures line { IfOk result (λ answer. answer.1.items ≡ outcome_line quiet ended) }
    // If there is nothing to say, no memory is needed.
    ensures spoken { OnErr result (is_silent quiet ended ≡ false) }
{
    match ended {
        Ok(_) if quiet => Ok((0, Vec::new(alloc))),
        Ok(report) => Ok((0, report_line(alloc, &report)?)),
        Err(error) => fault_line(alloc, &Fault::Run(error)),
    }
}
