//! Tests in which the output of a run is imposed again, and that output once more.
use crate::tests::checks::{assert_that, done};
use crate::tests::workers;
use dsc::Document;
use imposer::{MemorySink, Open, laws, run};
use std::alloc::Global;
use std::process::Abort;
use std::sync::Wait;
use std::thread::Threads;
use test_tools::TWO_UP;

/// A document of eight pages. Lines end in each of the three ways, and the last line has no end.
const EIGHT_PAGES: &str = "%!PS-Adobe-3.0\r\n%%Pages: 8\r\n%%EndComments\r\n\
    %%Page: 1 1\n(a)\n\
    %%Page: 2 2\r(b)\r%%PageFonts: x\n\n\
    %%Page: 3 3\n%%BeginDocument: x\n%%Page: 1 1\n%%EndDocument\n\
    %%Page: 4 4\n%%BeginBinary: 12\n%%Page: 1 1\n\
    %%Page: 5 5\n(e)\n%%Page: 6 6\n(f)\n%%Page: 7 7\n(g)\n%%Page: 8 8\n(h)";

/// A document whose only page leaves an embedded document open.
const OPEN_PAGE: &str = "%!\n%%Page: 1 1\n%%BeginDocument: a\n";

/// The output of a run. Asserts that `counts` are the numbers of pages and of sheets that the run reports, and the number of pages of its output.
fn imposed<R: Threads + Wait + Sync + Abort>(
    rt: &R,
    alloc: Global,
    input: &[u8],
    items: &str,
    counts: [u32; 3],
) -> MemorySink {
    let mut sink = done(rt, MemorySink::new(alloc, 20_000, 20_000, 1_000));
    let answer = run(rt, alloc, input, items, &workers(1, 1), &Open, &mut sink);
    let report = done(rt, answer);
    let pages = done(rt, Document::read(alloc, sink.bytes())).pages();
    assert_that(rt, [report.pages, report.sheets, pages] == counts);
    sink
}

// In the last run, a page leaves an embedded document open, so the sheet after it isn't read as a page.
#[test]
fn each_run_has_the_sheets_of_the_last_one_as_its_pages(rt: HostRuntime) {
    let alloc = rt.alloc();
    let first = imposed(&rt, alloc, EIGHT_PAGES.as_bytes(), TWO_UP, [8, 4, 4]);
    let second = imposed(&rt, alloc, first.bytes(), TWO_UP, [4, 2, 2]);
    imposed(&rt, alloc, second.bytes(), "1:-0,0", [2, 4, 4]);
    imposed(&rt, alloc, OPEN_PAGE.as_bytes(), "0,0", [1, 2, 1]);
}

#[test]
fn laws_are_called(_: HostRuntime) {
    laws::run_is_document();
    laws::runs_go_on();
}
