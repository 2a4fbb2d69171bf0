//! The `impose` program: reads a document and puts its pages on sheets, as the command line asks.
#![tactic(auto)]

ghost use Rattle.std.specs.Prelude.{◌≡◌, ◌<◌, [], OnOk};
ghost use Rattle.std.specs.Io.KnownBytes.{Appends};
ghost use Rattle.impose_words.specs.Options.{options_json};

use impose_cli::{
    Ended, ImposeFault, RequestFault, empty_report, fault_status, impose, text_of_fault, text_said,
};
use impose_words::{OptionTable, asks_for_options, options_text};
use std::alloc::Global;
use std::env;
use std::env::Env;
use std::io::ErrorKind;
use std::process::ExitCode;
use world::{Host, Output, World, WriteOutput, report_line, write_and_flush};

fn main(rt: HostRuntime) -> ExitCode {
    // Memory for the report is reserved before the run.
    let report = match empty_report(rt.alloc()) {
        Ok(report) => report,
        Err(_) => return end_with(&rt, ImposeFault::no_memory()),
    };
    let words = match own_words(&rt) {
        Ok(words) => words,
        Err(fault) => return end_with(&rt, ImposeFault::Command(fault)),
    };
    if asks_for_options(words.as_slice()) {
        let mut output = WriteOutput::new(rt.stdout());
        return match print_options(rt.alloc(), &OptionTable::new(), &mut output) {
            Ok(()) => ExitCode::SUCCESS,
            Err(fault) => end_with(&rt, fault),
        };
    }
    let world = Host::new(&rt, rt.stdin(), rt.stdout(), rt.stderr());
    let paper_size = paper_size(&rt);
    let paper_size = paper_size.as_str().as_bytes();
    let ended = impose(&rt, rt.alloc(), words.as_slice(), paper_size, world);
    let printed = match &ended.outcome {
        // Help and the version go to standard output.
        Err(ImposeFault::Command(RequestFault::Words(asked))) if !asked.use_stderr() => asked.print(
            &rt,
        ),
        _ => Ok(()),
    };
    if let Err(cause) = printed {
        let fault = ImposeFault::Write {
            written: 0,
            cause: Some(cause),
        };
        return end_with(&rt, fault);
    }
    let (text, status) = said(rt.alloc(), report, ended, paper_size, words.as_slice());
    ExitCode::from(report_line(&mut rt.stderr(), text.as_slice(), status))
}

/// Prints the table of options.
fn print_options<T: Output>(
    alloc: Global,
    table: &OptionTable,
    output: &mut T,
) -> Result<(), ImposeFault>
    requires countable { (T.seen output.old).failures < u64.MAX }
    ensures { OnOk result (Appends (T.seen output.old).bytes (T.seen output.new).bytes (options_json table.now)) }
{
    let text = match options_text(alloc, table) {
        Ok(text) => text,
        Err(_) => return Err(ImposeFault::no_memory()),
    };
    match write_and_flush(output, text.as_slice()) {
        Ok(()) => Ok(()),
        Err(broken) => Err(ImposeFault::Write {
            written: broken.written as u64,
            cause: output.cause(),
        }),
    }
}

/// The text that reports how the program ended, and its exit status. `ended` is taken by value, so that the output is closed before the text is
/// printed. If standard error was closed at the start, its file descriptor may have been given to the output.
fn said<W: World>(
    alloc: Global,
    report: Vec<u8>,
    ended: Ended<W>,
    paper_size: &[u8],
    words: &[String],
) -> (Vec<u8>, u8)
    requires { report.items ≡ [] }
{
    let request = ended.request.as_ref();
    let text = text_said(alloc, report, &ended.outcome, request, paper_size, words);
    (text, ended.status())
}

/// The words of the command line; the first is the program's name. The error is `NoMemory` if memory is refused, otherwise `NoText`.
fn own_words(rt: &(impl Env + AllocGlobal)) -> Result<Vec<String>, RequestFault> {
    match env::args(rt) {
        Ok(args) => Ok(args.collect(rt.alloc())?),
        Err(error) if error.kind() == ErrorKind::OutOfMemory => Err(RequestFault::NoMemory),
        Err(_) => Err(RequestFault::NoText),
    }
}

/// The value of `PAPERSIZE`. It is empty if the variable isn't set or isn't UTF-8.
fn paper_size(rt: &(impl Env + AllocGlobal)) -> String {
    match env::var(rt, "PAPERSIZE") {
        Ok(value) => value,
        Err(_) => String::new(rt.alloc()),
    }
}

/// Ends the program with a fault that comes before the command line is read, or while the help or the version is printed. Prints the fault to
/// standard error.
fn end_with(rt: &HostRuntime, fault: ImposeFault) -> ExitCode {
    let status = fault_status(&fault);
    let text = text_of_fault(rt.alloc(), &fault, None, &[]);
    ExitCode::from(report_line(&mut rt.stderr(), text.as_slice(), status))
}
