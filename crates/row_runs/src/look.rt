//! Lists and drawings of the sheets that a run would impose.
ghost use Rattle.std.specs.Prelude.{◌≡◌, IfErr, IfOk, OnOk, Ok};
ghost use Rattle.rules.specs.MadePlans.{made_plan_of};
ghost use Rattle.sheet_plan.specs.MadeRefusals.{RefusesMade};
ghost use Rattle.row_runs.specs.Sheets.{MayBeAsked};
ghost use Rattle.row_runs.specs.Runs.{ArePlanned, RefusesRun};
ghost use Rattle.row_runs.specs.Looks.{HavePlan, IsPlanText};

use crate::error::{SheetError, plan_error};
use crate::guides::guides_of;
use crate::reaching::check_reach;
use crate::reading::{reading_of, sides_by};
use crate::run::RowJob;
use crate::sheet_request::make_sheets;
use crate::swapped_margins::swapped_room_in;
use crate::turning::turned_sheets;
use preview::{Guide, plan_text, preview_text};
use sheet_plan::{MadeError, MadeSheets, Plan};
use std::alloc::{AllocError, Global};

/// A list of the sheets that a run would impose, as text. If there are more than `most` sheets or leaves, only the first and the last ones are
/// listed, `most` in all. The errors are those of the run.
pub fn row_plan(alloc: Global, job: &RowJob<'_, '_>, most: u32) -> Result<Vec<u8>, SheetError>
    requires asked { MayBeAsked job.now.asked }
    ensures text { IfOk result (λ text. IsPlanText job.now most text.items) }
    ensures refused { IfErr result (RefusesRun job.now) }
{
    let sheets = planned_sheets(alloc, job)?;
    let swap = swapped_room_in(job.swapped, &job.asked.laying);
    let reading = reading_of(&swap, &job.asked.laying);
    let text = plan_text(alloc, &sheets, &reading, most)?;
    Ok(text)
}

/// A drawing of the sheets that a run would impose, as SVG. Margins, cuts, folds and lines for notes are also drawn, unless margins are exchanged on
/// backs. If there are more than `most` sheets, only the first `most` are drawn. The errors are those of the run.
pub fn row_preview(alloc: Global, job: &RowJob<'_, '_>, most: u32) -> Result<Vec<u8>, SheetError>
    requires asked { MayBeAsked job.now.asked }
    ensures planned { IfOk result (λ text. HavePlan job.now) }
    ensures refused { IfErr result (RefusesRun job.now) }
{
    let sheets = planned_sheets(alloc, job)?;
    let guides = guides_for(alloc, job)?;
    let swap = swapped_room_in(job.swapped, &job.asked.laying);
    let sides = sides_by(&swap, &job.asked.laying);
    let text = preview_text(alloc, &sheets, sides, guides.as_slice(), most)?;
    Ok(text)
}

/// The guides to draw on each sheet of a job. There are none if margins are exchanged on backs, since the guides of fronts and backs would differ.
fn guides_for(alloc: Global, job: &RowJob<'_, '_>) -> Result<Vec<Guide>, AllocError>
    requires { MayBeAsked job.now.asked }
{
    if job.swapped {
        Ok(Vec::new(alloc))
    } else {
        guides_of(alloc, job.marks, &job.asked.laying)
    }
}

/// The sheets that a run would impose, with pages shifted on backs and turned as the job requests. The errors are those of the run.
fn planned_sheets(alloc: Global, job: &RowJob<'_, '_>) -> Result<MadeSheets, SheetError>
    requires asked { MayBeAsked job.now.asked }
    ensures made { IfOk result (ArePlanned job.now) }
    ensures refused { IfErr result (RefusesRun job.now) }
{
    let count = job.document.pages();
    let sheets = make_sheets(alloc, count, job.papers, &job.asked)?;
    let swap = swapped_room_in(job.swapped, &job.asked.laying);
    check_reach(job.turns, &swap, &sheets)?;
    let turned = turned_sheets(alloc, job.turns, &swap, sheets)?;
    match check_plan(alloc, count, &turned) {
        Ok(()) => Ok(turned),
        Err(error) => Err(plan_error(error)),
    }
}

/// Checks that these sheets can be planned for a document with this number of pages. The error says why they can't.
fn check_plan(alloc: Global, pages: u32, sheets: &MadeSheets) -> Result<(), MadeError>
    ensures planned { OnOk result (made_plan_of pages sheets.now ≡ Ok sheets.now) }
    ensures refused { IfErr result (RefusesMade pages sheets.now) }
{
    Plan::of_sheets(alloc, pages, sheets)?;
    Ok(())
}
