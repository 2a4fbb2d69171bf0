//! Jobs for tests.
use crate::tests::checks::done;
use dsc::Document;
use lengths::a4;
use pagespec::read_spec;
use sheet_plan::Plan;
use sheet_text::Job;
use std::alloc::Global;
use std::process::Abort;

/// A task that a test does with a job. `A` is the type of its result.
pub(super) trait Task<R, A> {
    fn go(&self, rt: &R, alloc: Global, job: &Job<'_, '_>) -> A;
}

/// Runs the task on the job that places the pages of this document by this specification. The paper is A4.
pub(super) fn with_job<A, R: Abort, T: Task<R, A>>(
    rt: &R,
    alloc: Global,
    text: &str,
    items: &str,
    task: &T,
) -> A {
    let spec = done(rt, read_spec(alloc, items));
    let document = done(rt, Document::read(alloc, text.as_bytes()));
    let plan = done(rt, Plan::new(alloc, &spec, document.pages()));
    task.go(rt, alloc, &Job::new(&plan, &document, a4(), None))
}
