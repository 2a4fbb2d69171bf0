//! Tests of the memory that the text of a sheet asks for.
use super::jobs::{Task, with_job};
use crate::tests::checks::{assert_that, done};
use sheet_text::{Job, Rope, begin_sheet, sheet_rope};
use std::alloc::Global;
use std::process::Abort;
use test_tools::ONE_PAGE;

/// The number of bytes that the sheet's text is likely to need: 64, plus the length of the document with its page, plus 256 for the text around the
/// page.
const LIKELY_ROOM: usize = 64 + ONE_PAGE.len() + 256;

/// A test of a job with one sheet. The sheet's text may ask for at most `LIKELY_ROOM` bytes. A text that is begun in memory of at least `before`
/// bytes must not give up any of it. If this memory grows, it may have at most twice `LIKELY_ROOM` bytes.
#[derive(Drop)]
struct KeepsRoom {
    before: usize,
}

impl<R: Abort> Task<R, ()> for KeepsRoom {
    fn go(&self, rt: &R, alloc: Global, job: &Job<'_, '_>) {
        if job.sheets() != 1 {
            return assert_that(rt, false);
        }
        let asked = done(rt, sheet_rope(alloc, job, 0)).capacity();
        let mut text = Rope::new(alloc);
        done(rt, text.reserve(self.before));
        let had = text.capacity();
        done(rt, begin_sheet(&mut text, job, 0));
        let has = text.capacity();
        // Memory that is too small may be doubled.
        let keeps_room = had <= has && has <= had.max(2 * LIKELY_ROOM);
        assert_that(rt, asked <= LIKELY_ROOM && keeps_room);
    }
}

#[test]
fn a_text_that_is_used_again_keeps_its_room(rt: HostRuntime) {
    for before in [0usize, 1, 100, 250, 350, 400, 450, 700, 10_000] {
        with_job(&rt, rt.alloc(), ONE_PAGE, "0", &KeepsRoom { before });
    }
}
