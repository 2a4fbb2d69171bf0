//! Tests of the reports of runs, and of runs that are refused before anything is written.
use super::stories::{first_word, number, parts_of};
use crate::tests::checks::{assert_bytes, assert_that, assert_told, done};
use crate::tests::workers;
use dsc::DscError;
use imposer::{ImposeError, MemorySink, NoMemory, Open, Options, Report, RunError, run};
use lengths::Grains;
use pagespec::SpecError;
use sheet_plan::PlanError;
use std::alloc::Global;
use std::fmt::Display;
use std::process::Abort;
use std::sync::Wait;
use std::thread::Threads;
use test_tools::{TWO_UP, document_of, one_up_output, two_up_output};

/// The input that a word gives. A number gives a document with this number of pages, and a dash gives the empty text. Any other word is used as the
/// input, which isn't a document.
fn input_of(alloc: Global, word: &str) -> Result<String, NoMemory> {
    match word.parse::<u32>() {
        Ok(pages) => document_of(alloc, pages),
        Err(_) if word == "-" => Ok(String::new(alloc)),
        Err(_) => String::from_str(alloc, word),
    }
}

/// Asserts that the output is the expected one, if the run leaves one page unmoved or puts two pages on each sheet. Other outputs aren't compared
/// here.
fn assert_wanted<R: Abort>(rt: &R, alloc: Global, items: &str, report: &Report, written: &[u8]) {
    if items == TWO_UP {
        let wanted = done(rt, two_up_output(alloc, report.sheets));
        assert_bytes(rt, written, wanted.as_bytes());
    } else if items == "0" && report.bytes == 273 {
        let wanted = done(rt, one_up_output(alloc));
        assert_bytes(rt, written, wanted.as_bytes());
    }
}

/// The report of a run, as text.
fn shown(alloc: Global, report: &Report) -> Result<String, NoMemory> {
    let Report {
        pages,
        sheets,
        born,
        swept,
        bytes,
    } = *report;
    format!(in alloc; "{pages} {sheets} {born} {swept} {bytes}")
}

/// The options that a line gives: the numbers of preparers and imposers, the number of sides of a signature, and the width of a border in grains. A
/// dash means no signatures, or no border.
fn options_of(settings: &str) -> Options {
    let mut words = settings.split(' ');
    let preparers = number(words.next());
    let mut options = workers(preparers, number(words.next()));
    options.sides = words.next().unwrap_or("").parse::<u32>().ok();
    if let Ok(width) = words.next().unwrap_or("").parse::<i128>() {
        options.border = Grains::new(width);
    }
    options
}

/// Runs over this input with this specification. Returns the report or the error as text, and the number of bytes written.
fn run_input<R: Threads + Wait + Sync + Abort>(
    rt: &R,
    alloc: Global,
    input: &[u8],
    items: &str,
    options: &Options,
) -> (String, u64) {
    let mut sink = done(rt, MemorySink::new(alloc, 100_000, 100_000, 1_000));
    let answer = run(rt, alloc, input, items, options, &Open, &mut sink);
    let told = match answer {
        Ok(report) => {
            assert_wanted(rt, alloc, items, &report, sink.bytes());
            shown(alloc, &report)
        }
        Err(error) => format!(in alloc; "{error:?}"),
    };
    (done(rt, told), sink.bytes().len() as u64)
}

/// Runs the input of a line with the options and the specification of the line. Asserts that the outcome is the one in the line: the report or the
/// error, and the number of bytes written.
fn assert_run<R: Threads + Wait + Sync + Abort>(rt: &R, alloc: Global, line: &str) {
    let (words, answer) = parts_of(line);
    let (wanted, count) = answer.split_once(", ").unwrap_or((answer, ""));
    let (word, rest) = first_word(words);
    let (settings, items) = rest.rsplit_once(' ').unwrap_or((rest, ""));
    let input = done(rt, input_of(alloc, word));
    let options = options_of(settings);
    let (told, written) = run_input(rt, alloc, input.as_bytes(), items, &options);
    assert_told(
        rt,
        line,
        told.as_str() == wanted && count.parse::<u64>() == Ok(written),
    );
}

/// Runs with their reports: the numbers of pages, of sheets, of sheets without pages, of sheets made at the end, and of bytes.
const REPORTS: &str = "\
    1 1 1 - - 0 = 1 1 0 0 273, 273\n\
    2 1 1 - - 2:0L@.7(21cm,0)+1L@.7(21cm,14.85cm) = 2 1 0 0 503, 503\n\
    4 1 1 - - 2:0L@.7(21cm,0)+1L@.7(21cm,14.85cm) = 4 2 0 0 950, 950\n\
    200 1 1 - - 2:0L@.7(21cm,0)+1L@.7(21cm,14.85cm) = 200 100 0 0 45232, 45232\n\
    200 2 3 - - 2:0L@.7(21cm,0)+1L@.7(21cm,14.85cm) = 200 100 0 0 45232, 45232\n\
    200 16 16 - - 2:0L@.7(21cm,0)+1L@.7(21cm,14.85cm) = 200 100 0 0 45232, 45232\n\
    1 1 1 - - 2:1 = 1 1 1 0 77, 77\n\
    1 16 16 - - 2:1 = 1 1 1 0 77, 77\n\
    5 1 1 - - 4:0,1,2,3 = 5 8 3 0 1204, 1204\n\
    5 2 3 - - 4:0,1,2,3 = 5 8 3 0 1204, 1204\n\
    5 1 1 - - 2:-0 = 5 3 0 0 707, 707\n\
    5 2 3 4 - 0 = 5 8 3 0 1204, 1204\n\
    1 1 1 - 127000000000 0 = 1 1 0 0 380, 380\n\
    1 1 1 - - 0+0+0+0+0+0+0+0+0+0+0+0+0+0+0+0+0+0+0+0+0+0+0+0+0+0+0+0+0+0+0+0+0+0+0+0+0+0+0+0+0+0+0+0+0+0+0+0+0+0+\
    0+0+0+0+0+0+0+0+0+0+0+0+0+0+0 = 1 1 0 0 12817, 12817\n\
";

/// Runs that are refused. Options are checked before the specification, and the specification is read before the input.
const REFUSALS: &str = "\
    1 1 1 - 0 0 = Options, 0\n\
    1 1 1 - -1 0 = Options, 0\n\
    1 0 1 - - 0 = Options, 0\n\
    1 1 0 - - 0 = Options, 0\n\
    1 1 17 - - 0 = Options, 0\n\
    1 17 1 - - 0 = Options, 0\n\
    - 0 1 - - x = Options, 0\n\
    - 1 0 - - x = Options, 0\n\
    - 1 17 - - x = Options, 0\n\
    - 17 1 - - x = Options, 0\n\
    1 2 3 0 - 0 = Options, 0\n\
    1 2 3 6 - 0 = Options, 0\n\
    1 2 3 1000004 - 0 = Options, 0\n\
    1 2 3 6 - x = Options, 0\n\
    no 2 3 6 - 0 = Options, 0\n\
    - 1 1 - - x = Spec(Syntax(0)), 0\n\
    no 1 1 - - 0 = Document(NotPostScript), 0\n\
    1 1 1 - - 0,2 = Spec(PageOutOfBlock(1)), 0\n\
";

#[test]
fn reports(rt: HostRuntime) {
    for story in [REPORTS, REFUSALS] {
        for line in story.lines() {
            assert_run(&rt, rt.alloc(), line);
        }
    }
}

/// Asserts that the error has this message.
fn assert_message<R: Abort, E: Display + Drop>(rt: &R, alloc: Global, error: E, message: &str) {
    let told = done(rt, format!(in alloc; "{error}"));
    assert_that(rt, told.as_str() == message);
}

#[test]
fn messages(rt: HostRuntime) {
    for (error, message) in [
        (RunError::Options, "bad options"),
        (
            RunError::Spec(SpecError::TooManyGroups),
            "specification: too many groups",
        ),
        (RunError::Document(DscError::NoPages), "input: no pages"),
        (
            RunError::Plan(PlanError::TooManySheets),
            "plan: too many sheets",
        ),
        (RunError::NoMemory { written: 7 }, "out of memory"),
        (RunError::Write { written: 7 }, "cannot write output"),
    ] {
        assert_message(&rt, rt.alloc(), error, message);
    }
    for (error, message) in [
        (ImposeError::NoMemory, "out of memory"),
        (ImposeError::NotShown, "a page is not on the shelf"),
    ] {
        assert_message(&rt, rt.alloc(), error, message);
    }
}
