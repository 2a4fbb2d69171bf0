//! Objects that the threads of a run share.
ghost use Rattle.std.specs.Prelude.{◌≡◌, IsTrue};
ghost use Rattle.rules.specs.Sheets.{layout};
ghost use Rattle.handover.specs.Shelves.{IsShelfOf};

use crate::baton::Baton;
use crate::channel::{Channel, RuledJob, SheetTexts};
use crate::window::Window;
use gather_table::GatherTable;
use handover::{Ready, Shelf};
use sheet_text::Job;
use std::alloc::Global;
use std::sync::atomic::AtomicU32;

/// The objects of a run: its job, the table of the job's plan, the shelf for prepared pages, and the queue of completed sheets.
#[derive(Drop)]
pub(crate) struct RunObjects<'s, 'r, 't, 'd, G> {
    pub(crate) alloc: Global,
    pub(crate) gate: &'s G,
    pub(crate) job: &'s Job<'r, 'd>,
    pub(crate) table: &'s GatherTable<'t>,
    pub(crate) shelf: &'r Shelf<'d>,
    /// Whether the shelf belongs to the job's document. If it does, pages are put there as this document's own, and imposers don't compare the bytes
    /// of these pages with the document's.
    pub(crate) is_of_document: bool,
    pub(crate) ready: &'s Ready,
    ghost of_document: { IsTrue is_of_document → IsShelfOf shelf.now job.now.units },
    ghost same_plan: { table.now.layout ≡ layout job.now.plan },
}

/// The objects that all workers of a run share.
#[derive(Drop)]
pub(crate) struct Shared<'s, 'r, 't, 'd, G> {
    pub(crate) objects: RunObjects<'s, 'r, 't, 'd, G>,
    /// Whether the pass of the run has room for all puts, so that the queue refuses none of them.
    pub(crate) by_right: bool,
    /// The number of preparers that haven't ended.
    pub(crate) preparers_left: AtomicU32,
    /// The number of imposers that haven't ended.
    pub(crate) imposers_left: AtomicU32,
    /// The sheets that may be imposed now.
    pub(crate) window: Window,
    /// The turns of the preparers.
    pub(crate) preparing: Baton,
    /// The turns of the imposers.
    pub(crate) imposing: Baton,
}

/// The objects that all threads of a run need, including the caller's: the objects that the workers share, and the channel of finished sheets.
#[derive(Drop)]
pub(crate) struct RunInput<'s, 'r, 't, 'd, T: SheetTexts, G> {
    pub(crate) shared: &'s Shared<'s, 'r, 't, 'd, G>,
    pub(crate) channel: &'s Channel<'r, T>,
    /// The job of `shared`, with the text that the channel's rule gives for each sheet.
    pub(crate) ruled: &'s RuledJob<'s, 'r, 'd, T>,
    ghost same_job: { ruled.now.job.now ≡ shared.now.objects.job.now },
}
