//! Lists and drawings of the sheets that a request makes.
ghost use Rattle.std.specs.Prelude.{IfErr, IfOk};
ghost use Rattle.dsc.specs.Serving.{Serve};
ghost use Rattle.row_runs.specs.Runs.{RefusesRun};
ghost use Rattle.row_runs.specs.Sheets.{MayBeAsked};
ghost use Rattle.impose_cli.specs.Endings.{RefusesRowRun, RefusesRowTaskRun};
ghost use Rattle.impose_cli.specs.Looks.{IsOverviewText, IsRowText, IsTaskText};
ghost use Rattle.impose_cli.specs.RowTasks.{HasOptions, MayBeLaidSo};

use crate::laying::row_asked;
use crate::row_task::{RowTask, asked_fault_of, row_task};
use dsc::{Document, Parts};
use guard::RoomyText;
use impose_messages::ImposeFault;
use impose_words::ImposeRequest;
use imposer::RunError;
use row_runs::{RowJob, SheetError, SheetRequest, row_plan, row_preview};
use std::alloc::Global;

/// The largest number of sheets or leaves in a list, and of sheets in a drawing.
const MOST_LISTED: u32 = 40;

/// A way to show the sheets in place of writing them.
#[derive(Clone, Copy, Debug, PartialEq, Eq)]
pub enum Overview {
    /// A list of the pages on each sheet.
    Plan,
    /// A drawing of the sheets, as an SVG.
    Picture,
}

/// The list or drawing of the sheets that a request makes of a document. The errors are the faults for which a run of the request would be refused.
pub fn look_text(
    alloc: Global,
    request: &ImposeRequest,
    input: RoomyText,
    look: Overview,
) -> Result<Vec<u8>, ImposeFault>
    ensures text { IfOk result (λ text. IsRowText request.now input.items look text.items) }
    ensures refused { IfErr result (RefusesRowRun request.now input.items) }
{
    let (task, parts) = row_task(alloc, request, input)?;
    let text = task_text(alloc, request, &task, parts, look)?;
    Ok(text)
}

/// The list or drawing of the sheets of a task. `parts` says where the pages and the trailer of the task's text begin.
fn task_text(
    alloc: Global,
    request: &ImposeRequest,
    task: &RowTask,
    parts: Parts,
    look: Overview,
) -> Result<Vec<u8>, ImposeFault>
    requires laid { MayBeLaidSo task.now.laying }
    requires options { HasOptions request.now }
    requires parts { Serve parts task.now.text.items }
    ensures text { IfOk result (λ text. IsTaskText request.now task.now look text.items) }
    ensures refused { IfErr result (RefusesRowTaskRun request.now task.now) }
{
    let document = match Document::from_parts(task.text.as_slice(), parts) {
        Ok(document) => document,
        Err(error) => return Err(ImposeFault::Run(RunError::from(error))),
    };
    let pages = document.pages();
    let job = RowJob {
        document: &document,
        turns: task.turns.as_slice(),
        papers: task.papers.as_slice(),
        asked: SheetRequest {
            row: row_asked(request),
            laying: task.laying.lent(),
            same_scale: request.spacing.same_scale,
        },
        swapped: request.swaps_margins(),
        border: request.border,
        inset: request.spacing.free.trim,
        marks: request.marks,
    };
    match job_text(alloc, &job, look) {
        Ok(text) => Ok(text),
        Err(error) => Err(asked_fault_of(error, pages)),
    }
}

/// The list or drawing of the sheets of a job.
fn job_text(alloc: Global, job: &RowJob<'_, '_>, look: Overview) -> Result<Vec<u8>, SheetError>
    requires asked { MayBeAsked job.now.asked }
    ensures text { IfOk result (λ text. IsOverviewText look job.now text.items) }
    ensures refused { IfErr result (RefusesRun job.now) }
{
    match look {
        Overview::Plan => row_plan(alloc, job, MOST_LISTED),
        Overview::Picture => row_preview(alloc, job, MOST_LISTED),
    }
}
