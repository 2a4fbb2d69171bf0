//! The text for standard error at the end of the program.
ghost use Rattle.std.specs.Prelude.{◌≡◌, IfOk, [], option_map};
ghost use Rattle.impose_messages.specs.Said.{AddsOne, AddsText, IsMadeLine, SaysEnding, SaysFault, SaysRun, SaysWords, is_broken_pipe};

use crate::fault::ImposeFault;
use crate::finished::{Done, Finished};
use crate::messages::fault_text;
use crate::run_lines::{note_text, push_lines};
use clap::Error as WordsError;
use command_words::name_of;
use impose_words::{ImposeRequest, RequestFault};
use std::alloc::{AllocError, Global};
use std::io::ErrorKind;
use suggestions::words_text;

/// The number of bytes that are reserved for a report. No report is longer.
const MOST_SAID: usize = 8_192;

/// An empty text, with memory for a whole report. If it is reserved before the run, no line of the report is lost for lack of memory, except the one
/// about the name of the output file.
pub fn empty_report(alloc: Global) -> Result<Vec<u8>, AllocError>
    ensures { IfOk result (λ text. text.items ≡ []) }
{
    Vec::with_capacity(alloc, MOST_SAID)
}

/// The text for standard error at the end of the program. If sheets were written, it is the report with all its lines, unless the request is quiet.
/// If there is a fault, it is the message about the fault, unless the reader of the output has closed the output. Otherwise the text is empty; help
/// and version go to standard output.
///
/// `report` is an `empty_report`, and `paper_size` the value of `PAPERSIZE`. A message for which memory is refused is left out.
pub fn text_said(
    alloc: Global,
    report: Vec<u8>,
    outcome: &Result<Done, ImposeFault>,
    request: Option<&ImposeRequest>,
    paper_size: &[u8],
    words: &[String],
) -> Vec<u8>
    requires empty { report.items ≡ [] }
    ensures { SaysEnding outcome.now (option_map (λ r. r.now) request.entry) paper_size.now result.items }
{
    match outcome {
        Ok(Done::Imposed(done)) => match request {
            Some(request) => text_of_run(alloc, report, done, request, paper_size),
            None => report,
        },
        Ok(Done::Printed) | Ok(Done::Shown) => report,
        Err(fault) => text_of_fault(alloc, fault, request, words),
    }
}

/// The report on a finished run, with all its lines. It is empty if the request is quiet, or if memory is refused.
fn text_of_run(
    alloc: Global,
    report: Vec<u8>,
    done: &Finished,
    request: &ImposeRequest,
    paper_size: &[u8],
) -> Vec<u8>
    requires empty { report.items ≡ [] }
    ensures { SaysRun done.now request.now paper_size.now result.items }
{
    let mut said = report;
    if request.is_quiet {
        return said;
    }
    if push_lines(&mut said, done, request, paper_size).is_err() {
        return Vec::new(alloc);
    }
    add_note(alloc, &mut said, name_of(&request.outfile).unwrap_or(""));
    said
}

/// Appends the line about the name of the output file, if there is one.
fn add_note(alloc: Global, said: &mut Vec<u8>, outfile: &str)
    ensures { AddsOne said.old.items said.new.items }
{
    match note_text(alloc, outfile) {
        Ok(Some(note)) => add_line(alloc, said, Ok(note)),
        Ok(None) | Err(_) => {}
    }
}

/// The message about a fault. It is empty for help and version, if the reader of the output has closed the output, and if memory for the message is
/// refused.
pub fn text_of_fault(
    alloc: Global,
    fault: &ImposeFault,
    request: Option<&ImposeRequest>,
    words: &[String],
) -> Vec<u8>
    ensures { SaysFault fault.now result.items }
{
    if let ImposeFault::Command(RequestFault::Words(error)) = fault {
        return text_of_words(alloc, error, words);
    }
    let mut said = Vec::new(alloc);
    if !is_broken_pipe(fault) {
        add_line(alloc, &mut said, fault_text(alloc, fault, request));
    }
    said
}

/// The message about words that the command doesn't take. It is empty for help and version, and if memory for the message is refused.
fn text_of_words(alloc: Global, error: &WordsError, words: &[String]) -> Vec<u8>
    ensures { SaysWords error.now result.items }
{
    if !error.use_stderr() {
        return Vec::new(alloc);
    }
    match words_text(alloc, error, words) {
        Ok(text) => text.into_bytes(),
        Err(_) => Vec::new(alloc),
    }
}

/// Whether the fault is that the reader of the output has closed the output (a broken pipe).
fn is_broken_pipe(fault: &ImposeFault) -> bool
    ensures { result ≡ is_broken_pipe fault.now }
{
    match fault {
        ImposeFault::Write {
            cause: Some(cause),
            ..
        } => matches!(cause.kind(), ErrorKind::BrokenPipe),
        _ => false,
    }
}

/// Appends the message as a line. Appends nothing if memory was refused for the message, or is refused for the line.
fn add_line(alloc: Global, said: &mut Vec<u8>, message: Result<String, AllocError>)
    ensures { AddsText (IsMadeLine message) said.old.items said.new.items }
{
    if let Ok(message) = message {
        if let Ok(line) = format!(in alloc; "impose: {message}\n") {
            let _ = said.extend_from_slice(line.as_str().as_bytes());
        }
    }
}
