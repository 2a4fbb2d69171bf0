//! The part of a run that uses threads: from the start of the workers to their end.
ghost use Rattle.std.specs.Prelude.{◌≡◌, ℕ, ◌+◌, ◌-◌, ◌<◌, ◌≤◌, List, None, length, IfOk, IfErr, IfSome, IsNone};
ghost use Rattle.std.specs.Prelude.{IsSome, IsTrue, OnOk};
ghost use Rattle.std.specs.Io.KnownBytes.{Appends};
ghost use Rattle.rules.specs.Sheets.{layout};
ghost use Rattle.rules.specs.Seats.{whole_share};
ghost use Rattle.handover.specs.Passes.{IsPassOf};
ghost use Rattle.handover.specs.Shelves.{IsOn};
ghost use Rattle.sheet_text.specs.Jobs.{text_of, output_of};
ghost use Rattle.imposer.specs.Workers.{AreWorkers};
ghost use Rattle.imposer.specs.Outcomes.{FailedIn};
ghost use Rattle.run_steps.specs.Delivery.{HandedOn};
ghost use Rattle.sheet_writer.specs.Places.{not_come};
ghost use Rattle.sheet_writer.specs.Sinks.{IsCountable};
ghost use Rattle.imposer.specs.Tokens.{AreTokens, AreUnused};
ghost use Rattle.run_steps.specs.Gathered.{HasPages, IsGathered, IsHandedOn, AreAllPut};
ghost use Rattle.imposer.specs.CollectorStart.{ArePartsOf};
ghost use Rattle.imposer.specs.Promises.{HavePutBlankSheets, IsEnough, IsHeld};
ghost use Rattle.imposer.specs.Rooms.{HasRoomForAll};
ghost use Rattle.imposer.specs.Gathering.{IsFreshSeat, IsFreshPass, ReportsOf, WrotePartOf, AreWhole, TokensComeBack};
ghost use Rattle.imposer.specs.Gathering.{Concludes, EndsOn, HandsBackAll, GivesUp};

use crate::baton::Baton;
use crate::channel::{RuledJob, SheetTexts, Ticket};
use crate::collector::{CollectorState, NOTHING_WRITTEN};
use crate::gate::Gate;
use crate::outcome::{Report, RunError};
use crate::rooms::most_puts_in_all;
use crate::setup::Setup;
use crate::shared::{RunInput, RunObjects, Shared};
use crate::threads::{ThreadCounts, ThreadInputs, run_threads};
use crate::tokens::{Tokens, WorkerTokens};
use crate::window::{Window, bytes_of_pages};
use crate::worker_counts::Workers;
use gather_table::{GatherTable, Seat};
use handover::{Overflow, Pass, Ready, Shelf};
use sheet_text::Job;
use sheet_writer::{Halt, Progress, Sink, write_rest};
use std::alloc::Global;
use std::marker::{Brand, PhantomData};
use std::sync::Wait;
use std::sync::atomic::AtomicU32;
use std::thread::Threads;

/// The result of a run whose workers have all ended.
#[derive(Debug, Drop)]
pub struct Gathered<'d> {
    /// The end of the run. The only errors are `NoMemory`, for refused memory or a refused thread, and `Write`.
    pub outcome: Result<Report, RunError>,
    /// The token of a page for which the shelf gave no receipt. None if there was no such page, or if a thread or memory was refused before all
    /// workers had ended.
    pub unshelved: Option<Overflow<'d>>,
    /// The seat and the pass in which those of all workers are joined. None if memory or a thread was refused.
    pub tokens: Option<(Seat, Pass)>,
}

/// Makes and writes the sheets of a job. Preparers deliver the pages of the document, and imposers impose the sheets, each in a thread of its own.
/// The caller's thread writes the sheets in order, each as soon as all sheets before it are written. Sheets that no imposer has sent are made at the
/// end.
///
/// The table must be one of the job's plan, the seat and the pass must be unused, and the queue must have room for every sheet. Each worker gets a
/// seat and a pass of its own, and these are joined when the worker ends. If the pass has room for every put, including those of sheets without
/// pages, each preparer gets the room that it needs, and the queue refuses none. With less room, the queue may refuse a put even though it isn't
/// full. The sheet of such a put is made at the end.
pub fn gather<'j, 'd, R: Threads + Wait + Sync, G: Gate + Sync, S: Sink>(
    rt: &R,
    alloc: Global,
    job: &Job<'j, 'd>,
    table: &GatherTable<'j>,
    seat: Seat,
    shelf: &Shelf<'d>,
    ready: &Ready,
    pass: Pass,
    workers: Workers,
    gate: &G,
    sink: &mut S,
) -> Gathered<'d>
    requires table { table.now.layout ≡ layout job.now.plan }
    requires seat { IsFreshSeat table.now seat }
    requires pass { IsFreshPass ready.now pass }
    requires room { length job.now.plan.sheets ≤ ready.now.capacity }
    requires workers { AreWorkers workers }
    requires countable { IsCountable (S.seen sink.old) }

    // At Ok the sink has taken exactly the output, and the report has the numbers of this output.
    ensures finished { IfOk result.outcome (λ report. Appends (S.seen sink.old).bytes (S.seen sink.new).bytes (output_of job.now)
        × ReportsOf job.now report) }

    // After an error the sink has taken the first bytes of the output, as many as the error says.
    ensures written { IfErr result.outcome (WrotePartOf job.now (S.seen sink.old) (S.seen sink.new)) }
    ensures steady { OnOk result.outcome ((S.seen sink.new).failures ≡ (S.seen sink.old).failures) }
    ensures failed { IfErr result.outcome (λ e. FailedIn e (S.seen sink.old) (S.seen sink.new)) }

    // Seat and pass come back whole, unless memory was refused.
    ensures handed_back { TokensComeBack result }
    ensures whole { IfSome result.tokens (λ t. AreWhole table.now ready.now t.0 t.1) }

    // The table has seen one publish for each page, one mark for each slot with a page, and no others. It has seen one closing for each group of a
    // wide sheet that has such a slot. Each sheet with pages was completed by exactly one of these calls.
    ensures gathered { OnOk result.outcome (IsNone result.unshelved
        → IfSome result.tokens (λ t. IsGathered table.now.layout t.0.front)) }

    // If a token comes back, its entry is on this shelf.
    ensures unshelved { IfSome result.unshelved (IsOn shelf.now) }

    // No sheet was put on the queue twice. The sheets taken off the queue, and those left on it, are the sheets that were put. If the pass has room
    // for all puts, every complete sheet was put exactly once.
    ensures handed_on { IfSome result.tokens (λ t. IsHandedOn t.1.front
        × (HasRoomForAll table.now.layout workers.preparers pass → AreAllPut table.now.layout t.0.front t.1.front)) }
{
    let objects = RunObjects {
        alloc,
        gate: &*gate,
        job: &*job,
        table: &*table,
        shelf,
        is_of_document: false,
        ready: &*ready,
    };
    gather_objects(rt, objects, Tokens { seat, pass }, workers, sink)
}

/// Gathers on these objects as `gather` does. If the shelf belongs to the job's document, pages are put there as this document's own, and imposers
/// don't compare the bytes of these pages with the document's.
pub(crate) fn gather_objects<'d, R: Threads + Wait + Sync, G: Gate + Sync, S: Sink>(
    rt: &R,
    objects: RunObjects<'_, '_, '_, 'd, G>,
    tokens: Tokens,
    workers: Workers,
    sink: &mut S,
) -> Gathered<'d>
    requires seat { IsFreshSeat objects.table.now tokens.seat }
    requires pass { IsFreshPass objects.ready.now tokens.pass }
    requires workers { AreWorkers workers }
    requires countable { IsCountable (S.seen sink.old) }
    ensures { EndsOn objects.entry (HasRoomForAll objects.entry.table.now.layout workers.preparers tokens.pass)
        (S.seen sink.old) (S.seen sink.new) result }
{
    // These calls prove about the seat and the pass what holds for every seat and every pass.
    tokens.seat.share();
    tokens.pass.share();
    let job = objects.job;
    let room = tokens.pass.room();
    let by_right = most_puts_in_all(job.plan(), workers.preparers) <= u64::from(room);
    let (of_pages, of_slots) = bytes_of_pages(job);
    let page_len = of_pages / (job.plan().pages() as usize).max(1);
    let shared = Shared {
        objects,
        by_right,
        preparers_left: AtomicU32::new(workers.preparers),
        imposers_left: AtomicU32::new(workers.imposers),
        window: Window::new(job, workers, of_slots),
        preparing: Baton::new(page_len),
        imposing: Baton::new(page_len),
    };
    shared.gather::<Brand, R, S>(rt, tokens, workers, sink)
}

impl<'s, 'r, 't, 'd, G: Gate + Sync> Shared<'s, 'r, 't, 'd, G> {
    /// Gathers as `gather` does: starts the workers, collects, and writes the remaining output. `T` gives the text of each sheet, for the rule of the
    /// channel.
    fn gather<T: SheetTexts + Send + Sync, R: Threads + Wait + Sync, S: Sink>(
        &self,
        rt: &R,
        tokens: Tokens,
        workers: Workers,
        sink: &mut S,
    ) -> Gathered<'d>
        requires texts { (s : ℕ) → T.text s ≡ text_of self.now.objects.job.now s }
        requires tokens { AreTokens self.now.objects.table.now self.now.objects.ready.now whole_share tokens × AreUnused tokens }
        requires workers { AreWorkers workers }
        requires room { IsTrue self.now.by_right
            → HasRoomForAll self.now.objects.table.now.layout workers.preparers tokens.pass }
        requires countable { IsCountable (S.seen sink.old) }
        ensures { EndsOn self.now.objects (IsTrue self.now.by_right) (S.seen sink.old) (S.seen sink.new) result }
    {
        let alloc = self.objects.alloc;
        let job = self.objects.job;
        let Ok(setup) = Setup::<'r, T>::new(alloc, job, &self.window) else {
            return out_of_memory(0);
        };
        let Setup {
            mut parts,
            channel,
            sending,
        } = setup;
        let inputs = self.begin(rt, tokens, workers, sending);
        let ruled = RuledJob {
            job: &*job,
            of: PhantomData,
        };
        let input = RunInput {
            shared: &*self,
            channel: &channel,
            ruled: &ruled,
        };
        let state = CollectorState {
            sink,
            parts: &mut parts,
            progress: NOTHING_WRITTEN,
        };
        let mut ended = None;
        let mut state = run_threads(rt, &input, &input, inputs, state, &mut ended);
        let gathered = conclude(alloc, job, &mut state, ended);
        // The state is taken apart, so that the proof sees how the sink has changed.
        let CollectorState {
            sink: _,
            parts: _,
            progress: _,
        } = state;
        // These are dropped by calls, so that the effect of dropping them is proved once, in the callee.
        drop(parts);
        drop(channel);
        gathered
    }

    /// Begins the run: puts the sheets without pages on the queue, and returns the inputs of the threads.
    fn begin<R: Wait>(
        &self,
        rt: &R,
        tokens: Tokens,
        workers: Workers,
        sending: Ticket<'r>,
    ) -> ThreadInputs<WorkerTokens<'d>, Ticket<'r>>
        requires tokens { AreTokens self.now.objects.table.now self.now.objects.ready.now whole_share tokens × AreUnused tokens }
        requires workers { AreWorkers workers }
        requires room { IsTrue self.now.by_right
            → HasRoomForAll self.now.objects.table.now.layout workers.preparers tokens.pass }
        ensures pages { HasPages self.now.objects.table.now.layout }
        ensures counts { (0 < result.counts.preparers) × (result.counts.preparers + result.counts.imposers < whole_share) }
        ensures held { IsHeld self.now whole_share result.held }
        ensures blank_sheets { HavePutBlankSheets self.now result.held.tokens }
        ensures enough { IsEnough self.now result.counts.preparers 0 result.held }
        ensures ticket { result.ticket ≡ sending.entry }
    {
        let mut tokens = tokens;
        let sheets = self.objects.job.plan().born_complete();
        self.put_blank_sheets(rt, sheets, &mut tokens.pass);
        ThreadInputs {
            counts: ThreadCounts {
                alloc: self.objects.alloc,
                preparers: workers.preparers,
                imposers: workers.imposers,
            },
            held: WorkerTokens {
                tokens,
                unshelved: None,
            },
            ticket: sending,
        }
    }

    /// Puts the sheets without pages on the queue, since no preparer completes them. If the queue refuses one, the window loses its end.
    fn put_blank_sheets<R: Wait>(&self, rt: &R, sheets: &[u32], pass: &mut Pass)
        requires pass { IsPassOf self.now.objects.ready.now pass.old }
        ensures pass { IsPassOf self.now.objects.ready.now pass.new }
        ensures put { (back : List ℕ) × HandedOn self.now.objects.ready.now sheets.now back pass.old pass.new }
    {
        for sheet in sheets {
            // If the queue refuses a sheet, the collector makes the sheet at the end. So imposers must not wait until it is written.
            if self.objects.ready.put(rt, pass, *sheet).is_err() {
                self.window.lift();
            }
        }
    }
}

/// The result after memory or a thread was refused. `written` bytes of the output have been written.
fn out_of_memory<'d>(written: u64) -> Gathered<'d>
    ensures { GivesUp written result }
{
    Gathered {
        outcome: Err(RunError::NoMemory { written }),
        unshelved: None,
        tokens: None,
    }
}

/// Writes the remaining sheets and the trailer, unless writing has been halted, and returns the result of the run. All workers have ended. If their
/// results were lost (`ended` is None), nothing is written, and the error is `NoMemory`.
fn conclude<'d, S: Sink>(
    alloc: Global,
    job: &Job<'_, 'd>,
    state: &mut CollectorState<'_, '_, S>,
    ended: Option<WorkerTokens<'d>>,
) -> Gathered<'d>
    requires countable { IsSome ended → state.old.progress.halted ≡ None → IsCountable (S.seen state.old.sink.now) }
    requires next { IsSome ended → state.old.progress.halted ≡ None
        → state.old.progress.next ≤ length job.now.plan.sheets }
    requires parts { IsSome ended → ArePartsOf job.now state.old.parts.now }
    ensures same_sink { state.new.sink.ghost_name ≡ state.old.sink.ghost_name }
    ensures ended { IsSome ended.entry → Concludes job.now (S.seen state.old.sink.now) (S.seen state.new.sink.now)
        state.old.progress result.outcome }
    ensures tokens { IfSome ended.entry (λ e. HandsBackAll e result) }
    ensures missing { IsNone ended.entry → GivesUp state.old.progress.written result
        × (S.seen state.new.sink.now ≡ S.seen state.old.sink.now) }

    // The report counts as `swept` the sheets that hadn't come.
    ensures swept { IfOk result.outcome (λ report. report.swept ≡ not_come state.old.parts.now.early
        state.old.progress.next (length job.now.plan.sheets - state.old.progress.next)) }
{
    let Some(WorkerTokens { tokens, unshelved }) = ended else {
        return out_of_memory(state.progress.written);
    };
    let progress = state.progress;
    let parts = &*state.parts;
    let trailer = parts.trailer.as_slice();
    let rest = write_rest(alloc, job, state.sink, progress, &parts.early, trailer);
    let Tokens { seat, pass } = tokens;
    let written = rest.written;
    match rest.halted {
        None => Gathered {
            outcome: Ok(report_on(job, rest)),
            unshelved,
            tokens: Some((seat, pass)),
        },
        Some(Halt::Failed) => Gathered {
            outcome: Err(RunError::Write { written }),
            unshelved,
            tokens: Some((seat, pass)),
        },
        Some(Halt::NoMemory) => Gathered {
            outcome: Err(RunError::NoMemory { written }),
            unshelved,
            tokens: None,
        },
    }
}

/// The report of a job whose whole output was written.
fn report_on(job: &Job<'_, '_>, rest: Progress) -> Report
    requires swept { rest.swept ≤ length job.now.plan.sheets }
    ensures numbers { rest.written ≡ length (output_of job.now) → ReportsOf job.now result }
    ensures swept { result.swept ≡ rest.swept }
{
    let plan = job.plan();
    Report {
        pages: plan.pages(),
        sheets: plan.sheets(),
        born: plan.born_complete().len() as u32,
        swept: rest.swept,
        bytes: rest.written,
    }
}
