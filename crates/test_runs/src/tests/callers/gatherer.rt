//! A gatherer of a job's pages: a caller of a table, a shelf and a queue, with a seat and a pass of its own.
ghost use Rattle.std.specs.Prelude.{◌≡◌};
ghost use Rattle.rules.specs.Sheets.{layout};
ghost use Rattle.gather_table.specs.Shared.{IsSeatOf};
ghost use Rattle.handover.specs.Passes.{IsPassOf};

use super::tables::mark_checked;
use gather_table::{GatherTable, Published, Reply, Seat};
use handover::{Full, Pass, Prepared, Ready, Shelf};
use imposer::{DeliverError, Delivered, ImposeError, Imposed, Job, deliver, impose, sheet_text};
use run_steps::{Answers, Delivery, is_complete};
use std::alloc::{AllocError, Global};
use std::sync::Wait;

/// A caller that gathers the pages of a job: it makes its calls on a table of the job's plan, a shelf and a queue.
#[derive(Drop)]
pub(crate) struct Gatherer<'s, 'j, 't, 'd> {
    pub(crate) job: &'s Job<'j, 'd>,
    table: &'s GatherTable<'t>,
    pub(crate) shelf: &'s Shelf<'d>,
    ready: &'s Ready,
    seat: Seat,
    pass: Pass,
    ghost same_plan: { table.now.layout ≡ layout job.now.plan },
    ghost seated: { IsSeatOf table.now seat },
    ghost passed: { IsPassOf ready.now pass },
}

/// A gatherer with this seat and this pass.
pub(crate) fn gatherer_of<'s, 'j, 't, 'd>(
    job: &'s Job<'j, 'd>,
    table: &'s GatherTable<'t>,
    shelf: &'s Shelf<'d>,
    ready: &'s Ready,
    seat: Seat,
    pass: Pass,
) -> Gatherer<'s, 'j, 't, 'd>
    requires plan { table.now.layout ≡ layout job.now.plan }
    requires seat { IsSeatOf table.now seat }
    requires pass { IsPassOf ready.now pass }
{
    Gatherer {
        job,
        table,
        shelf,
        ready,
        seat,
        pass,
    }
}

impl<'s, 'j, 't, 'd> Gatherer<'s, 'j, 't, 'd> {
    /// Delivers a page. If `answers` is given, the memory of those answers, from an earlier delivery, is used again. A page that the job doesn't have
    /// is refused with `NoMemory`.
    pub(crate) fn deliver<R: Wait>(
        &mut self,
        rt: &R,
        alloc: Global,
        prepared: Prepared<'d>,
        answers: Option<Answers>,
    ) -> Result<Delivered<'d>, DeliverError<'d>> {
        let plan = self.job.plan();
        if prepared.page() >= plan.pages() {
            return Err(DeliverError::NoMemory(prepared));
        }
        let Some(answers) = answers else {
            return deliver(
                rt,
                alloc,
                &mut self.seat,
                &mut self.pass,
                self.table,
                self.shelf,
                self.ready,
                plan,
                prepared,
            );
        };
        let delivery = Delivery {
            plan,
            table: self.table,
            shelf: self.shelf,
            ready: self.ready,
            as_own: false,
        };
        delivery.deliver(rt, &mut self.seat, &mut self.pass, prepared, answers)
    }

    /// Prepares a page of the document. `None` if the page can't be prepared, or doesn't exist.
    pub(crate) fn prepare(&self, alloc: Global, page: u32) -> Option<Prepared<'d>> {
        let document = self.job.document();
        if page >= document.pages() {
            return None;
        }
        Prepared::new(alloc, page, document.page(page)).ok()
    }

    /// Prepares a page of the document and delivers it. `None` if the page can't be prepared or delivered, or doesn't exist.
    pub(crate) fn deliver_page<R: Wait>(
        &mut self,
        rt: &R,
        alloc: Global,
        page: u32,
    ) -> Option<Delivered<'d>> {
        let prepared = self.prepare(alloc, page)?;
        self.deliver(rt, alloc, prepared, None).ok()
    }

    /// The bits of the missing slots of a sheet, as the table's `look` gives them. `None` if the job has no such sheet.
    pub(crate) fn look(&mut self, sheet: u32) -> Option<u64> {
        if sheet >= self.job.sheets() {
            return None;
        }
        Some(self.table.look(&mut self.seat, sheet))
    }

    /// The index at which a page was published. `None` if the page hasn't been published, or if the job has no such page.
    pub(crate) fn page_at(&mut self, page: u32) -> Option<u32> {
        if page >= self.job.plan().pages() {
            return None;
        }
        self.table.page_at(&mut self.seat, page)
    }

    /// Publishes a page at this index. `None` if the job has no such page.
    pub(crate) fn publish(&mut self, page: u32, index: u32) -> Option<Published> {
        if page >= self.job.plan().pages() {
            return None;
        }
        Some(self.table.publish(&mut self.seat, page, index))
    }

    /// Marks a slot. `None` if the slot is blank or doesn't exist, or if its page has no index.
    pub(crate) fn mark(&mut self, sheet: u32, slot: u16) -> Option<Reply> {
        mark_checked(self.table, self.job.plan(), &mut self.seat, sheet, slot)
    }

    /// Puts a sheet in the queue. Fails if the queue has no room for the sheet.
    pub(crate) fn hand_on<R: Wait>(&mut self, rt: &R, sheet: u32) -> Result<(), Full> {
        self.ready.put(rt, &mut self.pass, sheet)
    }

    /// Takes the oldest sheet of the queue. `None` if the queue is empty.
    pub(crate) fn take<R: Wait>(&mut self, rt: &R) -> Option<u32> {
        self.ready.take(rt, &mut self.pass)
    }

    /// A second gatherer of the same job, with one share of the seat and one of the pass. `None` if this gatherer has only one share of either.
    pub(crate) fn another(&mut self) -> Option<Gatherer<'s, 'j, 't, 'd>> {
        if self.seat.share() < 2 || self.pass.share() < 2 {
            return None;
        }
        let seat = self.table.split(&mut self.seat, 1);
        let pass = self.ready.split(&mut self.pass, 1);
        Some(Gatherer {
            job: self.job,
            table: self.table,
            shelf: self.shelf,
            ready: self.ready,
            seat,
            pass,
        })
    }

    /// Imposes a sheet. `None` if the sheet isn't complete, or if the job has no such sheet.
    pub(crate) fn impose(self, alloc: Global, sheet: u32) -> Option<Result<Imposed, ImposeError>> {
        let Gatherer {
            job,
            table,
            shelf,
            ready: _,
            mut seat,
            pass: _,
        } = self;
        if sheet >= job.sheets() || !is_complete(&mut seat, table, sheet) {
            return None;
        }
        Some(impose(alloc, &mut seat, job, table, shelf, sheet))
    }
}

/// The outcome of imposing a sheet.
#[derive(Clone, Copy, Debug, PartialEq, Eq)]
pub(crate) enum Outcome {
    /// The sheet has the right text.
    Imposed,
    OtherText,
    NotShown,
    NoMemory,
    /// The sheet isn't complete, or the job has no such sheet.
    NotComplete,
}

/// The outcome for a sheet that was imposed: `Imposed` if its number is `sheet` and its text is the one that `sheet_text` makes, else `OtherText`.
/// The only error is refused memory.
fn outcome_of_text(
    alloc: Global,
    job: &Job<'_, '_>,
    sheet: u32,
    imposed: &Imposed,
) -> Result<Outcome, AllocError> {
    if sheet >= job.sheets() || imposed.sheet != sheet {
        return Ok(Outcome::OtherText);
    }
    let text = sheet_text(alloc, job, sheet)?;
    if imposed.text.as_slice() == text.as_slice() {
        Ok(Outcome::Imposed)
    } else {
        Ok(Outcome::OtherText)
    }
}

/// Imposes a sheet, and returns the outcome. The error is refused memory, or a gatherer that has only one share of its seat or of its pass.
pub(crate) fn outcome_of(
    alloc: Global,
    gatherer: &mut Gatherer<'_, '_, '_, '_>,
    sheet: u32,
) -> Result<Outcome, AllocError> {
    let job = gatherer.job;
    let Some(another) = gatherer.another() else {
        return Err(AllocError);
    };
    match another.impose(alloc, sheet) {
        Some(Ok(imposed)) => outcome_of_text(alloc, job, sheet, &imposed),
        Some(Err(ImposeError::NotShown)) => Ok(Outcome::NotShown),
        Some(Err(ImposeError::NoMemory)) => Ok(Outcome::NoMemory),
        None => Ok(Outcome::NotComplete),
    }
}
