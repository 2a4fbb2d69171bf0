//! Writes the output of a job: each sheet as soon as all sheets before it are written, and at the end the remaining sheets and the trailer.
ghost use Rattle.std.specs.Prelude.{◌≡◌, ℕ, ◌+◌, ◌-◌, ◌<◌, ◌≤◌, ◌⊎◌, None, Some, IfErr, OnOk, length};
ghost use Rattle.std.specs.Prelude.{if◌then◌else◌, false};
ghost use Rattle.rules.specs.Filters.{trailer_text};
ghost use Rattle.sheet_writer.specs.declared.writing.Halt.TheVariants.{Failed};
ghost use Rattle.sheet_writer.specs.Sinks.{IsCountable};
ghost use Rattle.sheet_writer.specs.Writing.{Handed, GoesOn, AreEarly, EndsAfter, texts_from};
ghost use Rattle.sheet_writer.specs.Places.{has_come, not_come};

use crate::reorder_buffer::{ReorderBuffer, Spent};
use crate::sink::{Sink, Stopped, write_all, write_pieces};
use sheet_text::{Job, Pieces, sheet_rope};
use std::alloc::Global;

/// The reason why writing has stopped.
#[derive(Clone, Copy, Debug)]
pub enum Halt {
    /// The sink refused a call.
    Failed,
    /// Memory was refused, or the output has 2^64 bytes or more, which a report can't count.
    NoMemory,
}

/// The progress of writing an output.
#[derive(Clone, Copy, Debug)]
pub struct Progress {
    /// The number of the next sheet to write, counted from 0.
    pub next: u32,
    /// The number of bytes that the sink has taken.
    pub written: u64,
    /// The number of sheets that never came. They were made only when they were to be written.
    pub swept: u32,
    /// The reason why writing has stopped. None if it hasn't stopped.
    pub halted: Option<Halt>,
}

/// Writes a text to the sink, and increases `written` by the number of bytes that the sink took. If the sum for the whole text would exceed 2^64 - 1,
/// nothing is written, and writing is halted with `NoMemory`. If the sink refuses a call, writing is halted with `Failed`.
pub fn write_text<S: Sink>(sink: &mut S, progress: Progress, text: &[u8]) -> Progress
    requires countable { IsCountable (S.seen sink.old) }
    ensures handed { Handed text.now (S.seen sink.old) (S.seen sink.new) progress result }
    ensures next { result.next ≡ progress.next }
    ensures swept { result.swept ≡ progress.swept }
{
    let Some(total) = progress.written.checked_add(text.len() as u64) else {
        return halted(progress, progress.written, Halt::NoMemory);
    };
    advanced(progress, total, write_all(sink, text))
}

/// Writes a text, given as pieces, to the sink, and increases `written` by the number of bytes that the sink took. If the length of the text exceeds
/// `usize::MAX`, or the sum for the whole text would exceed 2^64 - 1, nothing is written, and writing is halted with `NoMemory`. If the sink refuses
/// a call, writing is halted with `Failed`.
pub fn write_in_pieces<S: Sink>(sink: &mut S, progress: Progress, text: Pieces<'_, '_>) -> Progress
    requires countable { IsCountable (S.seen sink.old) }
    ensures handed { Handed text.entry (S.seen sink.old) (S.seen sink.new) progress result }
    ensures next { result.next ≡ progress.next }
    ensures swept { result.swept ≡ progress.swept }
{
    let total = text
        .len()
        .and_then(|len| progress.written.checked_add(len as u64));
    match total {
        Some(total) => advanced(progress, total, write_pieces(sink, text)),
        None => halted(progress, progress.written, Halt::NoMemory),
    }
}

/// The progress after a text was passed to the sink. `total` is the number of bytes written if the sink took the whole text.
fn advanced(progress: Progress, total: u64, handed: Result<(), Stopped>) -> Progress
    requires { IfErr handed (λ e. progress.written + e.written ≤ total) }
    ensures written { OnOk handed (result ≡ record progress { written = total; halted = None }) }
    ensures stopped { IfErr handed (λ e. result
        ≡ record progress { written = progress.written + e.written; halted = Some Failed }) }
{
    match handed {
        Ok(()) => Progress {
            written: total,
            halted: None,
            ..progress
        },
        Err(stopped) => halted(
            progress,
            progress.written + stopped.written as u64,
            Halt::Failed,
        ),
    }
}

fn halted(progress: Progress, written: u64, why: Halt) -> Progress
    ensures { result ≡ record progress { written = written; halted = Some why } }
{
    Progress {
        written,
        halted: Some(why),
        ..progress
    }
}

/// Writes the text of the next `count` sheets, and moves `next` past them, even if writing is halted within the text.
fn write_sheets<S: Sink>(
    job: &Job<'_, '_>,
    sink: &mut S,
    progress: Progress,
    text: Pieces<'_, '_>,
    count: u32,
) -> Progress
    requires countable { IsCountable (S.seen sink.old) }
    requires going { progress.halted ≡ None }
    requires within { progress.next + count ≤ length job.now.plan.sheets }
    requires few { progress.next + count ≤ u32.MAX }
    requires text { text ≡ texts_from job.now progress.next count }
    ensures goes_on { GoesOn job.now (S.seen sink.old) (S.seen sink.new) progress result }
    ensures next { result.next ≡ progress.next + count }
    ensures swept { result.swept ≡ progress.swept }
    ensures steady { result.halted ≡ None → (S.seen sink.new).failures ≡ (S.seen sink.old).failures }
{
    let progress = write_in_pieces(sink, progress, text);
    Progress {
        next: progress.next + count,
        ..progress
    }
}

/// Writes the next sheets from the buffer, until the next sheet hasn't come, all sheets are written, or writing is halted. A group is passed to
/// `spent` once none of its sheets is still to be written.
pub fn write_early<'r, S: Sink, B: Spent<'r>>(
    job: &Job<'_, '_>,
    sink: &mut S,
    progress: Progress,
    early: &mut ReorderBuffer<'r>,
    spent: &mut B,
) -> Progress
    requires countable { IsCountable (S.seen sink.old) }
    requires going { progress.halted ≡ None }
    requires early { AreEarly job.now early.old.groups.items }
    ensures goes_on { GoesOn job.now (S.seen sink.old) (S.seen sink.new) progress result }
    // It ends only when all sheets are written, or when the next sheet hasn't come.
    ensures far { result.halted ≡ None
        → (length job.now.plan.sheets ≤ result.next) ⊎ (has_come early.new result.next ≡ false) }
    ensures early { AreEarly job.now early.new.groups.items }
    // No sheet that is still to be written leaves the buffer.
    ensures stays { (sheet : ℕ) → result.next ≤ sheet → has_come early.new sheet ≡ has_come early.old sheet }
    ensures steady { result.halted ≡ None → (S.seen sink.new).failures ≡ (S.seen sink.old).failures }
{
    let mut progress = progress;
    while progress.next < job.sheets() {
        let Some((count, text)) = early.joined(progress.next, job.sheets() - progress.next) else {
            break;
        };
        progress = write_sheets(job, sink, progress, text, count);
        if let Some(written) = early.take_written(progress.next - 1) {
            spent.give_back(written);
        }
        if progress.halted.is_some() {
            break;
        }
    }
    progress
}

/// Writes the end of the output after all workers have ended: the remaining sheets in order, then the trailer. A sheet that never came is made by
/// this call, and counted in `swept`, which starts at 0. Nothing is written after a halt.
pub fn write_rest<S: Sink>(
    alloc: Global,
    job: &Job<'_, '_>,
    sink: &mut S,
    progress: Progress,
    early: &ReorderBuffer<'_>,
    trailer: &[u8],
) -> Progress
    requires countable { progress.halted ≡ None → IsCountable (S.seen sink.old) }
    requires next { progress.halted ≡ None → progress.next ≤ length job.now.plan.sheets }
    requires early { AreEarly job.now early.now.groups.items }
    requires trailer { trailer.now ≡ trailer_text job.now.units }
    ensures ended { EndsAfter job.now (S.seen sink.old) (S.seen sink.new) progress result }
    ensures swept { result.swept ≤ length job.now.plan.sheets }

    // At the end `swept` is the number of remaining sheets that hadn't come.
    ensures counted { result.halted ≡ None → result.swept
        ≡ not_come early.now progress.next (length job.now.plan.sheets - progress.next) }
{
    let mut progress = Progress {
        swept: 0,
        ..progress
    };
    if progress.halted.is_some() {
        return progress;
    }
    for _ in progress.next..job.sheets() {
        progress = write_next(alloc, job, sink, progress, early);
        if progress.halted.is_some() {
            return progress;
        }
    }
    write_text(sink, progress, trailer)
}

/// Writes the next sheet. If the sheet never came, this call makes it, and increases `swept` by 1.
fn write_next<S: Sink>(
    alloc: Global,
    job: &Job<'_, '_>,
    sink: &mut S,
    progress: Progress,
    early: &ReorderBuffer<'_>,
) -> Progress
    requires countable { IsCountable (S.seen sink.old) }
    requires going { progress.halted ≡ None }
    requires within { progress.next < length job.now.plan.sheets }
    requires few { (progress.next < u32.MAX) × (progress.swept < u32.MAX) }
    requires early { AreEarly job.now early.now.groups.items }
    ensures goes_on { GoesOn job.now (S.seen sink.old) (S.seen sink.new) progress result }
    ensures next { result.halted ≡ None → result.next ≡ progress.next + 1 }
    ensures steady { result.halted ≡ None → (S.seen sink.new).failures ≡ (S.seen sink.old).failures }
    ensures swept { result.swept ≡ progress.swept + (if has_come early.now progress.next then 0 else 1) }
{
    if let Some((count, text)) = early.joined(progress.next, 1) {
        return write_sheets(job, sink, progress, text, count);
    }
    let progress = Progress {
        swept: progress.swept + 1,
        ..progress
    };
    match sheet_rope(alloc, job, progress.next) {
        Ok(text) => write_sheets(job, sink, progress, text.pieces(), 1),
        Err(_) => halted(progress, progress.written, Halt::NoMemory),
    }
}
