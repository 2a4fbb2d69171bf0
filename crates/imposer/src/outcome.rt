//! The ends of a run: a report or an error.
use dsc::DscError;
use pagespec::SpecError;
use sheet_plan::PlanError;
use std::alloc::AllocError;
use thiserror::Error;

/// The numbers of pages, sheets and bytes of a run that has finished.
#[derive(Clone, Copy, Debug, PartialEq, Eq)]
pub struct Report {
    /// The number of pages of the document.
    pub pages: u32,
    /// The number of sheets in the output.
    pub sheets: u32,
    /// The number of sheets that have no page.
    pub born: u32,
    /// The number of sheets that were made at the end of the run, because no text of an imposer was kept for them.
    pub swept: u32,
    /// The number of bytes in the output.
    pub bytes: u64,
}

/// The reason why a run didn't finish. The options, the specification, the document and the plan are checked in this order.
#[derive(Clone, Copy, Debug, PartialEq, Eq, Error)]
pub enum RunError {
    /// An option is out of range. Numbers of threads are from 1 to 16, a border is wider than 0, and a signature has a multiple of 4 sides, from 4 to
    /// 1,000,000.
    #[error("bad options")]
    Options,
    #[error(transparent)]
    Spec(SpecError),
    #[error(transparent)]
    Document(DscError),
    #[error(transparent)]
    Plan(PlanError),
    /// Memory or a thread was refused. The sink has taken the first `written` bytes of the output.
    #[error("out of memory")]
    NoMemory { written: u64 },
    /// The sink refused a call. It has taken the first `written` bytes of the output.
    #[error("cannot write output")]
    Write { written: u64 },
}

// Memory refused while the specification, the document or the plan is read becomes the run's own error `NoMemory`, with 0 bytes written.

impl From<SpecError> for RunError {
    ghost use Rattle.std.specs.Prelude.{◌≡◌};
    ghost use Rattle.imposer.specs.Outcomes.{of_spec};

    ghost from_gives = { λ error result. result ≡ of_spec error };

    fn from(error: SpecError) -> RunError {
        match error {
            SpecError::NoMemory => RunError::NoMemory { written: 0 },
            error => RunError::Spec(error),
        }
    }
}

impl From<DscError> for RunError {
    ghost use Rattle.std.specs.Prelude.{◌≡◌};
    ghost use Rattle.imposer.specs.Outcomes.{of_document};

    ghost from_gives = { λ error result. result ≡ of_document error };

    fn from(error: DscError) -> RunError {
        match error {
            DscError::NoMemory => RunError::NoMemory { written: 0 },
            error => RunError::Document(error),
        }
    }
}

impl From<PlanError> for RunError {
    ghost use Rattle.std.specs.Prelude.{◌≡◌};
    ghost use Rattle.imposer.specs.Outcomes.{of_plan};

    ghost from_gives = { λ error result. result ≡ of_plan error };

    fn from(error: PlanError) -> RunError {
        match error {
            PlanError::NoMemory => RunError::NoMemory { written: 0 },
            error => RunError::Plan(error),
        }
    }
}

impl From<AllocError> for RunError {
    ghost use Rattle.std.specs.Prelude.{◌≡◌};
    ghost use Rattle.imposer.specs.Outcomes.{no_memory};

    ghost from_gives = { λ _ result. result ≡ no_memory };

    fn from(_error: AllocError) -> RunError {
        RunError::NoMemory { written: 0 }
    }
}
