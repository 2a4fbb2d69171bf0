//! Tests of groups of sheets that come together: how they are written, and when their memory is given back.
ghost use Rattle.std.specs.Prelude.{◌≡◌, ◌<◌, length};
ghost use Rattle.sheet_text.specs.Jobs.{text_of};
ghost use Rattle.sheet_writer.specs.Writing.{AreEarly, HaveTexts};

use super::jobs::{Task, with_job};
use crate::tests::checks::{assert_that, done};
use sheet_text::{Job, Openings, Rope, Texts, append_placed, begin_sheet, end_sheet, sheet_text};
use sheet_writer::{
    MemorySink, Progress, ReorderBuffer, Sink, Spent, WriteSink, write_early, write_rest,
};
use std::alloc::{AllocError, Global};
use std::io::{self, Write};
use std::process::Abort;

/// The bodies of the four pages. The body `long` of the third page isn't copied to its sheet, because it is long.
const fn bodies(long: &str) -> [&str; 4] {
    [
        "(0) pop\nshowpage\n",
        "(1) pop\nshowpage\n",
        long,
        "(3) pop\nshowpage\n",
    ]
}

/// A document of the four pages of `bodies`.
fn document_of_pages(alloc: Global, long: &str) -> Result<String, AllocError> {
    format!(in alloc;
        "%!PS-Adobe-3.0\n%%Pages: 4\n%%EndComments\n\
        %%Page: 1 1\n(0) pop\nshowpage\n%%Page: 2 2\n(1) pop\nshowpage\n\
        %%Page: 3 3\n{long}%%Page: 4 4\n(3) pop\nshowpage\n%%Trailer\n%%EOF\n"
    )
}

/// The text of a sheet, put together from its parts. The sheet has one slot, with the page whose body is `body`. A long body is borrowed, not copied.
fn put_together<'r, R: Abort>(
    rt: &R,
    alloc: Global,
    job: &Job<'r, '_>,
    sheet: u32,
    body: &'r [u8],
) -> Rope<'r>
    requires { sheet < length job.now.plan.sheets }
{
    if job.plan().slots(sheet) == 0 {
        panic!(rt; "a sheet without a slot");
    }
    let mut text = Rope::new(alloc);
    done(rt, begin_sheet(&mut text, job, sheet));
    let Some(placed) = job.placed(sheet, 0) else {
        panic!(rt; "a blank slot");
    };
    let appended = append_placed(&mut text, &mut Openings::new(alloc), job, &placed, body);
    done(rt, appended);
    done(rt, end_sheet(&mut text, job, sheet));
    text
}

/// The text that `put_together` makes for a sheet. The test fails if `sheet_text` makes another text for this sheet.
fn text_with<'r, R: Abort>(
    rt: &R,
    alloc: Global,
    job: &Job<'r, '_>,
    sheet: u32,
    body: &'r [u8],
) -> Rope<'r>
    requires { sheet < length job.now.plan.sheets }
    ensures { result ≡ text_of job.now sheet }
{
    let wanted = done(rt, sheet_text(alloc, job, sheet));
    let text = put_together(rt, alloc, job, sheet, body);
    let found = done(rt, text.to_vec(alloc));
    if found.as_slice() != wanted.as_slice() {
        panic!(rt; "another text");
    }
    text
}

/// Adds the text of a sheet to the finished sheets.
fn finish<'r, R: Abort>(
    rt: &R,
    alloc: Global,
    job: &Job<'r, '_>,
    finished: &mut Texts<'r>,
    sheet: u32,
    body: &'r [u8],
)
    requires sheet { sheet < length job.now.plan.sheets }
    requires texts { HaveTexts (text_of job.now) finished.old }
    ensures { HaveTexts (text_of job.now) finished.new }
{
    let mut text = text_with(rt, alloc, job, sheet, body);
    done(rt, finished.push(sheet, &mut text));
}

/// Puts these sheets into the buffer as one group.
fn put_sheets<'r, R: Abort>(
    rt: &R,
    alloc: Global,
    job: &Job<'r, '_>,
    bodies: &[&'r str; 4],
    early: &mut ReorderBuffer<'r>,
    sheets: &[u32],
)
    requires { AreEarly job.now early.old.groups.items }
    ensures { AreEarly job.now early.new.groups.items }
{
    let mut finished = Texts::new(alloc);
    for sheet in sheets {
        if *sheet >= job.sheets() || *sheet >= 4 {
            panic!(rt; "no such sheet");
        }
        let body = bodies[*sheet as usize];
        finish(rt, alloc, job, &mut finished, *sheet, body.as_bytes());
    }
    early.put(finished);
}

/// A buffer that has received these of the four sheets as one group.
fn early_with<'r, R: Abort>(
    rt: &R,
    alloc: Global,
    job: &Job<'r, '_>,
    bodies: &[&'r str; 4],
    sheets: &[u32],
) -> ReorderBuffer<'r>
    ensures { AreEarly job.now result.groups.items }
{
    let mut early = done(rt, ReorderBuffer::new(alloc, 4));
    put_sheets(rt, alloc, job, bodies, &mut early, sheets);
    early
}

/// The progress of writing before the first byte.
const START: Progress = Progress {
    next: 0,
    written: 0,
    swept: 0,
    halted: None,
};

/// A writer that takes all bytes, and notes the number of bytes in each call.
#[derive(Drop)]
struct Calls {
    lengths: Vec<usize>,
}

impl Write for Calls {
    fn write(&mut self, bytes: &[u8]) -> io::Result<usize> {
        self.lengths.push(bytes.len())?;
        Ok(bytes.len())
    }

    fn flush(&mut self) -> io::Result<()> {
        Ok(())
    }
}

/// The numbers of the sheets that were given back, with `END` after each group, and the number of bytes in their texts.
#[derive(Drop)]
struct GivenBack {
    sheets: Vec<u32>,
    bytes: usize,
}

const END: u32 = u32::MAX;

impl<'r> Spent<'r> for GivenBack {
    fn give_back(&mut self, sheets: Texts<'r>) {
        for nth in 0..sheets.len() {
            let sheet = sheets.sheet(nth);
            let _ = self.sheets.push(sheet);
            if let Some((_, text)) = sheets.joined(sheet, nth, 1) {
                self.bytes = self.bytes.saturating_add(text.len().unwrap_or(0));
            }
        }
        let _ = self.sheets.push(END);
    }
}

/// Puts the four sheets into a buffer as one group, and writes them. Returns the number of bytes in each call of the writer.
fn calls_of_all<R: Abort>(
    rt: &R,
    alloc: Global,
    job: &Job<'_, '_>,
    bodies: &[&str; 4],
) -> Vec<usize> {
    let mut early = early_with(rt, alloc, job, bodies, &[0, 1, 2, 3]);
    let mut calls = Calls {
        lengths: Vec::new(alloc),
    };
    let mut given_back = GivenBack {
        sheets: Vec::new(alloc),
        bytes: 0,
    };
    let mut sink = WriteSink::new(&mut calls);
    let progress = write_early(job, &mut sink, START, &mut early, &mut given_back);
    drop(sink);
    assert_that(rt, progress.next == 4);
    calls.lengths
}

/// Writes four sheets that come as two groups, 0 and 2, then 1 and 3. Returns, after each group, the next sheet to write and the length of
/// `given_back.sheets`. A group is given back only once its last sheet has been written.
fn write_two_groups<R: Abort>(
    rt: &R,
    alloc: Global,
    job: &Job<'_, '_>,
    bodies: &[&str; 4],
    given_back: &mut GivenBack,
    sink: &mut MemorySink,
) -> [(u32, usize); 2]
    requires countable { sink.old.failures < 10 }
{
    let mut early = early_with(rt, alloc, job, bodies, &[0, 2]);
    let progress = write_early(job, sink, START, &mut early, given_back);
    // The calls below require this, and no contract above states it.
    if progress.halted.is_some() {
        panic!(rt; "a sheet wasn't written");
    }
    let first = (progress.next, given_back.sheets.len());
    put_sheets(rt, alloc, job, bodies, &mut early, &[1, 3]);
    let progress = write_early(job, sink, progress, &mut early, given_back);
    [first, (progress.next, given_back.sheets.len())]
}

/// Calls `write_two_groups`. Asserts that the two groups are given back one after the other, with all bytes that were written. Returns the sink,
/// which has these bytes.
fn two_groups<R: Abort>(
    rt: &R,
    alloc: Global,
    job: &Job<'_, '_>,
    bodies: &[&str; 4],
) -> MemorySink {
    let mut sink = done(rt, MemorySink::new(alloc, 10_000, 10_000, 100));
    let mut given_back = GivenBack {
        sheets: Vec::new(alloc),
        bytes: 0,
    };
    let counts = write_two_groups(rt, alloc, job, bodies, &mut given_back, &mut sink);
    assert_that(rt, counts == [(1, 0), (4, 6)]);
    assert_that(
        rt,
        given_back.sheets.as_slice() == [0, 2, END, 1, 3, END].as_slice(),
    );
    assert_that(rt, given_back.bytes == sink.bytes().len());
    sink
}

/// Puts the sheets `came` into the buffer as one group, and writes all four sheets. Asserts that the missing sheets are made and counted, and that
/// the output is `sheets`, the texts of all four, followed by the trailer.
fn assert_rest<R: Abort>(
    rt: &R,
    alloc: Global,
    job: &Job<'_, '_>,
    bodies: &[&str; 4],
    came: &[u32],
    sheets: &[u8],
) {
    let trailer = done(rt, job.document().trailer_text());
    let early = early_with(rt, alloc, job, bodies, came);
    let mut sink = done(rt, MemorySink::new(alloc, 10_000, 10_000, 100));
    let rest = write_rest(alloc, job, &mut sink, START, &early, trailer.as_slice());
    assert_that(rt, rest.halted.is_none());
    assert_that(rt, (rest.swept as usize).saturating_add(came.len()) == 4);
    assert_that(
        rt,
        sink.bytes().strip_suffix(b"%%Trailer\n%%EOF\n") == Some(sheets),
    );
}

/// The lengths of the calls that write the four sheets, in bytes: the first two sheets together, the third sheet's text before its page, the page,
/// the text after it, and the last sheet.
const LENGTHS: [usize; 5] = [434, 172, 4_809, 28, 217];

/// The tests of a job with four pages, each on a sheet.
#[derive(Drop)]
struct Pages<'b> {
    bodies: [&'b str; 4],
}

impl<'b, R: Abort> Task<R, ()> for Pages<'b> {
    fn go(&self, rt: &R, alloc: Global, job: &Job<'_, '_>) {
        let calls = calls_of_all(rt, alloc, job, &self.bodies);
        assert_that(rt, calls.as_slice() == LENGTHS.as_slice());
        let sink = two_groups(rt, alloc, job, &self.bodies);
        let some: [&[u32]; 3] = [&[], &[1, 2], &[0, 1, 2, 3]];
        for came in some {
            assert_rest(rt, alloc, job, &self.bodies, came, sink.bytes());
        }
    }
}

// Neighbouring sheets are written by one call, a group is given back with its last sheet, and sheets that never came are made.
#[test]
fn sheets_that_come_together(rt: HostRuntime) {
    let mut long = done(&rt, "(2) pop\n".repeat(rt.alloc(), 600));
    done(&rt, long.push_str("showpage\n"));
    let text = done(&rt, document_of_pages(rt.alloc(), &long));
    let bodies = bodies(&long);
    with_job(&rt, rt.alloc(), &text, "0", &Pages { bodies });
}
