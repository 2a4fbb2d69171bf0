//! The exit status of each fault.
ghost use Rattle.std.specs.Prelude.{◌≡◌};
ghost use Rattle.impose_messages.specs.Statuses.{command_status as status_of_command, fault_status as status_of_fault, words_status as status_of_words};

use crate::fault::ImposeFault;
use clap::error::ErrorKind;
use impose_words::RequestFault;
use imposer::run_status;
use layouts::ArrangementError;
use row_sheets::PosterError;
use rows::RowError;
use sheet_plan::MadeError;

/// The exit status of a fault. It is 1 if the page ranges, specification, layout, document or plan is refused, or if no specification can be printed
/// for the request. It is 2 if the command line or an option is refused, if the input or another program's document would be overwritten, or if
/// sheets would be printed on a terminal. It is 3 if memory or a thread was refused, or if reading or writing failed. It is 0 for help and version.
pub fn fault_status(fault: &ImposeFault) -> u8
    ensures { result ≡ status_of_fault fault.now }
{
    match fault {
        ImposeFault::Command(fault) => command_status(fault),
        ImposeFault::Layout(ArrangementError::NoMemory)
        | ImposeFault::Poster(PosterError::NoMemory) => 3,
        ImposeFault::Row(RowError::NoMemory) | ImposeFault::Sheets(MadeError::NoMemory) => 3,
        ImposeFault::Read(_) | ImposeFault::Write { .. } => 3,
        ImposeFault::Run(error) => run_status(error),
        ImposeFault::Idle(_) | ImposeFault::OverInput | ImposeFault::OverDocument => 2,
        ImposeFault::OnTerminal => 2,
        ImposeFault::Layout(_) | ImposeFault::Poster(_) | ImposeFault::Row(_) => 1,
        ImposeFault::NoSuchPage { .. } | ImposeFault::OutOfReach | ImposeFault::Sheets(_) => 1,
        ImposeFault::NoSpecification | ImposeFault::NoInput => 1,
        ImposeFault::Pdf | ImposeFault::OtherFile(_) | ImposeFault::DosEps => 1,
        ImposeFault::Eps => 1,
        ImposeFault::Utf16 | ImposeFault::JobLanguage | ImposeFault::TooLong => 1,
    }
}

fn command_status(fault: &RequestFault) -> u8
    ensures { result ≡ status_of_command fault.now }
{
    match fault {
        RequestFault::Words(error) => words_status(error.kind()),
        RequestFault::NoMemory => 3,
        RequestFault::NoText | RequestFault::Lacking | RequestFault::BadValue(_, _) => 2,
        RequestFault::OddAndEven | RequestFault::TwoProducts(_, _) => 2,
    }
}

fn words_status(kind: ErrorKind) -> u8
    ensures { result ≡ status_of_words kind }
{
    match kind {
        ErrorKind::DisplayHelp | ErrorKind::DisplayVersion => 0,
        _ => 2,
    }
}
