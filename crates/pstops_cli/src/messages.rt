//! The lines for standard error, and the exit statuses.
ghost use Rattle.std.specs.Prelude.{◌≡◌, IfOk, string_bytes};
ghost use Rattle.pstops_cli.specs.Messages.{command_message as text_of_command, document_message as text_of_document};
ghost use Rattle.pstops_cli.specs.Messages.{fault_exit_status as status_of_fault, fault_message as text_of_fault};
ghost use Rattle.pstops_cli.specs.Messages.{plan_message as text_of_plan, read_message as text_of_read};
ghost use Rattle.pstops_cli.specs.Messages.{report_message as text_of_report};
ghost use Rattle.pstops_cli.specs.Messages.{run_message as text_of_run, program_line, spec_message as text_of_spec};

use crate::command::CommandFault;
use dsc::DscError;
use imposer::{Report, RunError, run_status};
use pagespec::SpecError;
use sheet_plan::PlanError;
use std::alloc::{AllocError, Global};
use world::ReadFault;

/// The reason why the program ends before all of its output is written.
#[derive(Debug, Drop)]
pub enum Fault {
    /// The command line was refused.
    Command(CommandFault),
    /// The input couldn't be opened or read.
    Read(ReadFault),
    /// The output couldn't be created.
    Create,
    /// The run was refused, or failed.
    Run(RunError),
}

/// The exit status for a fault, and the line for standard error. The line begins with the program's name and ends with a line feed.
///
/// The status is 1 if the specification, the document or the plan is refused, and 2 for a wrong command line or wrong options. It is 3 if memory or a
/// thread was refused, or if reading the input or writing the output failed. The only error of this call is refused memory.
pub fn fault_line(alloc: Global, fault: &Fault) -> Result<(u8, Vec<u8>), AllocError>
    ensures status { IfOk result (λ answer. answer.0 ≡ status_of_fault fault.now) }
    ensures line { IfOk result (λ answer. answer.1.items ≡ program_line (text_of_fault fault.now)) }
{
    let text = fault_message(alloc, fault)?;
    Ok((fault_exit_status(fault), line_of(alloc, text.as_str())?))
}

/// The line that reports a finished run: its numbers of pages, sheets and bytes.
pub(crate) fn report_line(alloc: Global, report: &Report) -> Result<Vec<u8>, AllocError>
    ensures { IfOk result (λ line. line.items ≡ program_line (text_of_report report.now)) }
{
    let pages = report.pages;
    let sheets = report.sheets;
    let bytes = report.bytes;
    let text = format!(in alloc; "pages {pages}, sheets {sheets}, bytes {bytes}")?;
    line_of(alloc, text.as_str())
}

fn line_of(alloc: Global, text: &str) -> Result<Vec<u8>, AllocError>
    ensures { IfOk result (λ line. line.items ≡ program_line text.now) }
{
    let line = format!(in alloc; "pstops: {text}\n")?;
    Ok(line.into_bytes())
}

fn fault_exit_status(fault: &Fault) -> u8
    ensures { result ≡ status_of_fault fault.now }
{
    match fault {
        Fault::Command(CommandFault::NoMemory) => 3,
        Fault::Command(_) => 2,
        Fault::Read(_) | Fault::Create => 3,
        Fault::Run(error) => run_status(error),
    }
}

fn fault_message(alloc: Global, fault: &Fault) -> Result<String, AllocError>
    ensures { IfOk result (λ text. string_bytes text ≡ text_of_fault fault.now) }
{
    match fault {
        Fault::Command(fault) => command_message(alloc, *fault),
        Fault::Read(fault) => read_message(alloc, *fault),
        Fault::Create => String::from_str(alloc, "cannot write output"),
        Fault::Run(error) => run_message(alloc, error),
    }
}

fn command_message(alloc: Global, fault: CommandFault) -> Result<String, AllocError>
    ensures { IfOk result (λ text. string_bytes text ≡ text_of_command fault) }
{
    match fault {
        CommandFault::BadWords => String::from_str(alloc, "bad command line"),
        CommandFault::UnknownPaper => String::from_str(alloc, "unknown paper"),
        CommandFault::BadLength(letter) => format!(in alloc; "bad length after -{letter}"),
        CommandFault::NoMemory => String::from_str(alloc, "out of memory"),
    }
}

fn read_message(alloc: Global, fault: ReadFault) -> Result<String, AllocError>
    ensures { IfOk result (λ text. string_bytes text ≡ text_of_read fault) }
{
    match fault {
        ReadFault::Device => String::from_str(alloc, "cannot read input"),
        ReadFault::NoMemory => String::from_str(alloc, "out of memory"),
    }
}

fn run_message(alloc: Global, error: &RunError) -> Result<String, AllocError>
    ensures { IfOk result (λ text. string_bytes text ≡ text_of_run error.now) }
{
    match error {
        RunError::Options => String::from_str(alloc, "bad options"),
        RunError::Spec(error) => spec_message(alloc, error),
        RunError::Document(error) => document_message(alloc, error),
        RunError::Plan(error) => plan_message(alloc, error),
        RunError::NoMemory { .. } => String::from_str(alloc, "out of memory"),
        RunError::Write { .. } => String::from_str(alloc, "cannot write output"),
    }
}

fn spec_message(alloc: Global, error: &SpecError) -> Result<String, AllocError>
    ensures { IfOk result (λ text. string_bytes text ≡ text_of_spec error.now) }
{
    match error {
        SpecError::TooLong => String::from_str(alloc, "specification: too long"),
        SpecError::Syntax(at) => { format!(in alloc; "specification: syntax error at byte {at}") }
        SpecError::TooLarge => String::from_str(alloc, "specification: number too large"),
        SpecError::ModuloZero => String::from_str(alloc, "specification: modulo is zero"),
        SpecError::PageOutOfBlock(item) => {
            format!(in alloc; "specification: item {item}: page number not below modulo")
        }
        SpecError::ScaleZero(item) => {
            format!(in alloc; "specification: item {item}: scale not above zero")
        }
        SpecError::Repeated(item) => {
            format!(in alloc; "specification: item {item}: modifier repeated")
        }
        SpecError::TooManySlots(group) => {
            format!(in alloc; "specification: group {group}: too many items")
        }
        SpecError::TooManyGroups => String::from_str(alloc, "specification: too many groups"),
        SpecError::NoMemory => String::from_str(alloc, "out of memory"),
    }
}

fn document_message(alloc: Global, error: &DscError) -> Result<String, AllocError>
    ensures { IfOk result (λ text. string_bytes text ≡ text_of_document error.now) }
{
    match error {
        DscError::TooLong => String::from_str(alloc, "input too long"),
        DscError::NotPostScript => String::from_str(alloc, "input is not PostScript"),
        DscError::BadCount(at) => format!(in alloc; "input: bad count at byte {at}"),
        DscError::ShortData(at) => format!(in alloc; "input: data cut short at byte {at}"),
        DscError::TooManyPages => String::from_str(alloc, "input: too many pages"),
        DscError::NoPages => String::from_str(alloc, "input: no pages"),
        DscError::NoMemory => String::from_str(alloc, "out of memory"),
    }
}

fn plan_message(alloc: Global, error: &PlanError) -> Result<String, AllocError>
    ensures { IfOk result (λ text. string_bytes text ≡ text_of_plan error.now) }
{
    match error {
        PlanError::TooManyPages => String::from_str(alloc, "plan: too many pages"),
        PlanError::TooManySheets => String::from_str(alloc, "plan: too many sheets"),
        PlanError::TooManyPlaces => String::from_str(alloc, "plan: too many places"),
        PlanError::NoMemory => String::from_str(alloc, "out of memory"),
    }
}
