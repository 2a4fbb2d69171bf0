//! Exit statuses for the errors of a run.
ghost use Rattle.std.specs.Prelude.{◌≡◌};
ghost use Rattle.imposer.specs.Statuses.{run_status};

use crate::outcome::RunError;
use dsc::DscError;
use pagespec::SpecError;
use sheet_plan::PlanError;

/// The exit status of a program whose run ended with this error. It is 1 if the specification, the document or the plan is refused, and 2 if the
/// options are. It is 3 if memory or a thread was refused, or if a write failed.
pub fn run_status(error: &RunError) -> u8
    ensures { result ≡ run_status error.now }
{
    match error {
        RunError::Options => 2,
        RunError::Spec(SpecError::NoMemory) => 3,
        RunError::Document(DscError::NoMemory) => 3,
        RunError::Plan(PlanError::NoMemory) => 3,
        RunError::Spec(_) | RunError::Document(_) | RunError::Plan(_) => 1,
        RunError::NoMemory { .. } | RunError::Write { .. } => 3,
    }
}
