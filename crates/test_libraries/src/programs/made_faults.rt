//! Faults by their names, for tests of faults that no short command line causes.
use dsc::DscError;
use impose_cli::{ImposeFault, RequestFault};
use imposer::RunError;
use layouts::ArrangementError;
use pagespec::SpecError;
use row_sheets::PosterError;
use sheet_plan::{MadeError, PlanError};
use std::io;
use std::io::ErrorKind;

/// The fault with this name, or `None` if no fault has the name. The number in a fault may follow its name, as in `Spec.Syntax(12)`; otherwise it is
/// 0.
pub fn fault_named(name: &str) -> Option<ImposeFault> {
    let (name, number) = match name.split_once('(') {
        None => (name, 0),
        Some((name, rest)) => (name, rest.strip_suffix(')')?.parse::<u32>().ok()?),
    };
    if let Some(name) = name.strip_prefix("Spec.") {
        let error = spec_error_named(name, number)?;
        return Some(ImposeFault::Run(RunError::Spec(error)));
    }
    if let Some(name) = name.strip_prefix("Write") {
        return write_fault_named(name, number as u64);
    }
    other_fault_named(name, number as u64)
}

fn spec_error_named(name: &str, number: u32) -> Option<SpecError> {
    match name {
        "TooLong" => Some(SpecError::TooLong),
        "Syntax" => Some(SpecError::Syntax(number as usize)),
        "TooLarge" => Some(SpecError::TooLarge),
        "ModuloZero" => Some(SpecError::ModuloZero),
        "PageOutOfBlock" => Some(SpecError::PageOutOfBlock(number)),
        "Repeated" => Some(SpecError::Repeated(number)),
        "ScaleZero" => Some(SpecError::ScaleZero(number)),
        "TooManySlots" => Some(SpecError::TooManySlots(number)),
        "TooManyGroups" => Some(SpecError::TooManyGroups),
        "NoMemory" => Some(SpecError::NoMemory),
        _ => None,
    }
}

fn write_fault_named(name: &str, written: u64) -> Option<ImposeFault> {
    let kind = match name {
        "" => {
            let cause = None;
            return Some(ImposeFault::Write { written, cause });
        }
        ".BrokenPipe" => ErrorKind::BrokenPipe,
        ".StorageFull" => ErrorKind::StorageFull,
        _ => return None,
    };
    Some(ImposeFault::Write {
        written,
        cause: Some(io::Error::from(kind)),
    })
}

fn other_fault_named(name: &str, written: u64) -> Option<ImposeFault> {
    match name {
        "NoText" => Some(ImposeFault::Command(RequestFault::NoText)),
        "NoMemory" => Some(ImposeFault::Command(RequestFault::NoMemory)),
        "Read" => Some(ImposeFault::Read(None)),
        "TooLong" => Some(ImposeFault::TooLong),
        "Run.NoMemory" => Some(ImposeFault::Run(RunError::NoMemory { written })),
        "Document.TooLong" => Some(ImposeFault::Run(RunError::Document(DscError::TooLong))),
        "Document.TooManyPages" => Some(ImposeFault::Run(RunError::Document(
            DscError::TooManyPages,
        ))),
        "Document.NoMemory" => Some(ImposeFault::Run(RunError::Document(DscError::NoMemory))),
        "Plan.NoMemory" => Some(ImposeFault::Run(RunError::Plan(PlanError::NoMemory))),
        "Plan.TooManySheets" => Some(ImposeFault::Run(RunError::Plan(PlanError::TooManySheets))),
        "Plan.TooManyPages" => Some(ImposeFault::Run(RunError::Plan(PlanError::TooManyPages))),
        "Plan.TooManyPlaces" => Some(ImposeFault::Run(RunError::Plan(PlanError::TooManyPlaces))),
        "Sheets.TooManySheets" => Some(ImposeFault::Sheets(MadeError::TooManySheets)),
        "Sheets.SlotsOutOfRange" => Some(ImposeFault::Sheets(MadeError::SlotsOutOfRange(0))),
        "Layout.CellsOutOfRange" => Some(ImposeFault::Layout(ArrangementError::CellsOutOfRange)),
        "Layout.ScaleOutOfRange" => Some(ImposeFault::Layout(ArrangementError::ScaleOutOfRange)),
        "Poster.TilesOutOfRange" => Some(ImposeFault::Poster(PosterError::TilesOutOfRange)),
        _ => None,
    }
}
