//! A run with made sheets: pages and sheets with papers of their own, and added lines in the header and on each sheet.
use crate::tests::checks::{assert_bytes, assert_that, done};
use dsc::Document;
use imposer::{Job, Lines, MemorySink, NoListener, Open, SheetDress, Workers, run_plan};
use lengths::{Grains, Number, Paper, a4, paper_by_name};
use pagespec::{Item, Measure, Turn};
use sheet_plan::{MadeSheets, MadeSlot, Plan};
use std::alloc::Global;
use std::process::Abort;
use std::sync::Wait;
use std::thread::Threads;
use test_tools::TWO_PAGES;

/// The expected output. The first sheet has the second page on A4 and the first page on A5; the other sheet has the first page. There is an added
/// line in the header, and one at the end of each sheet.
const OUTPUT: &str = "\
    %!PS-Adobe-3.0\n\
    %%Pages: 2\n\
    %%DocumentMedia: x\n\
    %%EndComments\n\
    %%Page: 1 1\n\
    %%PageMedia: 595x842\n\
    /PStoPSenablepage where {pop PStoPSenablepage}\n\
    {userdict /showpage 2 copy known {get dup type /operatortype eq {pop true} {length 0 ne} ifelse} {pop pop true} ifelse} ifelse\n\
    systemdict /setpagedevice known and {1 dict dup /PageSize [595 842] put systemdict /setpagedevice get exec} if\n\
    userdict /ImposeSave save put\n\
    userdict /showpage {} put\n\
    [1 0 0 1 0 0] concat\n\
    newpath 0 0 moveto 595 0 lineto 595 842 lineto 0 842 lineto closepath clip newpath\n\
    (1) pop\n\
    showpage\n\
    ImposeSave restore\n\
    userdict /ImposeSave save put\n\
    userdict /showpage {} put\n\
    [1 0 0 1 0 0] concat\n\
    newpath 0 0 moveto 420 0 lineto 420 595 lineto 0 595 lineto closepath clip newpath\n\
    (0) pop\n\
    showpage\n\
    ImposeSave restore\n\
    % end\n\
    showpage\n\
    %%Page: 2 2\n\
    %%PageMedia: 420x595\n\
    /PStoPSenablepage where {pop PStoPSenablepage}\n\
    {userdict /showpage 2 copy known {get dup type /operatortype eq {pop true} {length 0 ne} ifelse} {pop pop true} ifelse} ifelse\n\
    systemdict /setpagedevice known and {1 dict dup /PageSize [420 595] put systemdict /setpagedevice get exec} if\n\
    userdict /ImposeSave save put\n\
    userdict /showpage {} put\n\
    [1 0 0 1 0 0] concat\n\
    newpath 0 0 moveto 420 0 lineto 420 595 lineto 0 595 lineto closepath clip newpath\n\
    (0) pop\n\
    showpage\n\
    ImposeSave restore\n\
    % end\n\
    showpage\n\
    %%Trailer\n\
    %%EOF\n\
";

/// A slot with an unmoved page, on this paper.
fn placed_page(page: u32, paper: Paper) -> MadeSlot {
    MadeSlot::Placed {
        page,
        item: Item {
            page: 0,
            from_end: false,
            turn: Turn::None,
            scale: Number::ONE,
            offset: (Measure::ZERO, Measure::ZERO),
        },
        paper,
    }
}

/// A sheet of two pages with a blank between them, and a sheet with one of the pages.
fn two_sheets<R: Abort>(rt: &R, alloc: Global) -> MadeSheets {
    let first = a4();
    let second = paper_by_name("a5").expect(rt, "a paper");
    let mut sheets = MadeSheets::new(alloc);
    let slots = [
        placed_page(1, first),
        MadeSlot::Blank,
        placed_page(0, second),
    ];
    done(rt, sheets.push(&first, &slots));
    done(rt, sheets.push(&second, &[placed_page(0, second)]));
    sheets
}

/// The additions to an output whose sheets report their papers: a line in the header, and another line at the end of each sheet.
fn lines<R: Abort>(rt: &R, alloc: Global) -> SheetDress {
    let mut header = Lines::new(alloc);
    done(rt, header.push(b"%%DocumentMedia: x"));
    let mut finish = Lines::new(alloc);
    done(rt, finish.push(b"% end"));
    SheetDress {
        header,
        reports_papers: true,
        finish,
        numbers: None,
    }
}

/// Runs a job with two pages on two sheets, and asserts the output.
fn run_job<R: Threads + Wait + Sync + Abort>(rt: &R, alloc: Global, job: &Job<'_, '_>) {
    let workers = Workers {
        preparers: 1,
        imposers: 1,
    };
    let mut sink = done(rt, MemorySink::new(alloc, 3_000, 1_000, 100));
    let answer = run_plan(rt, alloc, job, workers, &Open, &mut sink, &mut NoListener);
    let report = done(rt, answer);
    assert_bytes(rt, sink.bytes(), OUTPUT.as_bytes());
    assert_that(rt, (report.pages, report.sheets, report.born) == (2, 2, 0));
}

/// Runs the job that puts the two pages on these sheets with the additions `dress`, and asserts the output.
fn run_dressed<R: Threads + Wait + Sync + Abort>(
    rt: &R,
    alloc: Global,
    sheets: &MadeSheets,
    dress: &SheetDress,
) {
    let document = done(rt, Document::read(alloc, TWO_PAGES.as_bytes()));
    let plan = done(rt, Plan::of_sheets(alloc, document.pages(), sheets));
    let job = Job::made(&plan, &document, sheets, None, Grains::ZERO, dress);
    run_job(rt, alloc, &job);
}

#[test]
fn sheets_that_were_made(rt: HostRuntime) {
    let sheets = two_sheets(&rt, rt.alloc());
    let dress = lines(&rt, rt.alloc());
    run_dressed(&rt, rt.alloc(), &sheets, &dress);
}
