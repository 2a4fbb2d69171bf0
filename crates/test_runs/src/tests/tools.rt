//! Tests of the texts that `test_tools` makes. Each is compared with a text that is written out.
use crate::tests::checks::{assert_bytes, assert_that, done};
use std::alloc::AllocError;
use std::process::Abort;
use test_tools::{ONE_PAGE, TWO_PAGES, document_of, same_items, two_up_sheets};

/// A sheet with two pages side by side.
const PAIR: &str = "%%Page: 1 1\n\
    userdict /ImposeSave save put\n\
    userdict /showpage {} put\n\
    [0 0.7 -0.7 0 595.27559 0] concat\n\
    newpath 0 0 moveto 595 0 lineto 595 842 lineto 0 842 lineto closepath clip newpath\n\
    (0) pop\n\
    showpage\n\
    ImposeSave restore\n\
    userdict /ImposeSave save put\n\
    userdict /showpage {} put\n\
    [0 0.7 -0.7 0 595.27559 420.94488] concat\n\
    newpath 0 0 moveto 595 0 lineto 595 842 lineto 0 842 lineto closepath clip newpath\n\
    (1) pop\n\
    showpage\n\
    ImposeSave restore\n\
    showpage\n";

/// Asserts that the text that was made is this one.
fn assert_text<R: Abort>(rt: &R, made: Result<String, AllocError>, wanted: &str) {
    let text = done(rt, made);
    assert_bytes(rt, text.as_bytes(), wanted.as_bytes());
}

#[test]
fn texts_written_out(rt: HostRuntime) {
    let alloc = rt.alloc();
    assert_text(&rt, document_of(alloc, 1), ONE_PAGE);
    assert_text(&rt, document_of(alloc, 2), TWO_PAGES);
    assert_text(&rt, same_items(alloc, "0", 3), "0+0+0");
    assert_text(&rt, same_items(alloc, "0", 0), "");
    let pairs = done(&rt, two_up_sheets(alloc, 2));
    assert_that(
        &rt,
        pairs.starts_with(PAIR) && pairs.len() == 2 * PAIR.len(),
    );
}
