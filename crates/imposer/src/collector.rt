//! The collector, which takes finished sheets from the channel and writes them in order.
ghost use Rattle.std.specs.Prelude.{◌≡◌, None, IsTrue};
ghost use Rattle.sheet_writer.specs.Sinks.{IsCountable};
ghost use Rattle.crossbeam_channel.specs.Claims.{IsSeatAt};
ghost use Rattle.crossbeam_channel.specs.Ends.{receives_on};
ghost use Rattle.sheet_writer.specs.Writing.{IsProgress, GoesOn};
ghost use Rattle.imposer.specs.CollectorStart.{ArePartsOf};

use crate::channel::{SheetRule, SheetTexts};
use crate::gate::{Gate, Look};
use crate::setup::CollectorParts;
use crate::shared::RunInput;
use crate::spent::Written;
use crate::thread_work::Collector;
use crate::window::Idling;
use sheet_writer::{Progress, Sink, write_early, write_text};
use std::sync::Wait;
use std::sync::atomic::Ordering::SeqCst;

/// The state of the collector: its sink, its parts and its progress. It only borrows the sink and the parts, so that the owner of these can prove how
/// they have changed.
#[derive(Drop)]
pub(crate) struct CollectorState<'a, 'r, S> {
    pub(crate) sink: &'a mut S,
    pub(crate) parts: &'a mut CollectorParts<'r>,
    pub(crate) progress: Progress,
}

/// The progress of a collector that has written nothing.
pub(crate) const NOTHING_WRITTEN: Progress = Progress {
    next: 0,
    written: 0,
    swept: 0,
    halted: None,
};

impl<'s, 'r, 't, 'd, 'a, T: SheetTexts, G: Gate, S: Sink> Collector<CollectorState<'a, 'r, S>>
    for RunInput<'s, 'r, 't, 'd, T, G> {
    ghost reference = { λ input state. state.sink.ghost_name };

    ghost is_ready_to_collect = { λ input state. IsSeatAt (receives_on input.channel.now.receiver) state.parts.now.receiving
        × ArePartsOf input.shared.now.objects.job.now state.parts.now
        × (state.progress ≡ record { next = 0; written = 0; swept = 0; halted = None })
        × IsCountable (S.seen state.sink.now) };

    ghost collected = { λ input old new.
        IsProgress input.shared.now.objects.job.now (S.seen old.sink.now) (S.seen new.sink.now) new.progress
        × ArePartsOf input.shared.now.objects.job.now new.parts.now };

    /// Writes the header. Then takes finished sheets from the channel and writes them, until all are written, all imposers have ended, or nothing more
    /// may be written.
    fn collect<R: Wait>(&self, rt: &R, state: &mut CollectorState<'a, 'r, S>) {
        state.progress = write_text(state.sink, state.progress, state.parts.header.as_slice());
        if state.progress.halted.is_some() {
            return;
        }
        let mut idling = self.shared.window.idling();
        for _ in rt.forever() {
            if !take_turn(rt, self, &mut idling, state) {
                break;
            }
        }
    }
}

/// Takes one message from the channel and writes the sheets that are next in order. If there is no message, but one may still come, waits for a short
/// time. Returns false if all sheets are written, if no further message will come, or if nothing more may be written.
fn take_turn<'r, R: Wait, T: SheetTexts, G: Gate, S: Sink>(
    rt: &R,
    input: &RunInput<'_, 'r, '_, '_, T, G>,
    idling: &mut Idling,
    state: &mut CollectorState<'_, 'r, S>,
) -> bool
    requires countable { IsCountable (S.seen state.old.sink.now) }
    requires ticket { IsSeatAt (receives_on input.now.channel.now.receiver) state.old.parts.now.receiving }
    requires going { state.old.progress.halted ≡ None }
    requires parts { ArePartsOf input.now.shared.now.objects.job.now state.old.parts.now }
    ensures ticket { IsSeatAt (receives_on input.now.channel.now.receiver) state.new.parts.now.receiving }
    ensures going { IsTrue result → state.new.progress.halted ≡ None }
    ensures parts { ArePartsOf input.now.shared.now.objects.job.now state.new.parts.now }
    ensures same { state.new.sink.ghost_name ≡ state.old.sink.ghost_name }
    ensures goes_on { GoesOn input.now.shared.now.objects.job.now (S.seen state.old.sink.now) (S.seen state.new.sink.now)
        state.old.progress state.new.progress }
    ensures steady { IsTrue result → (S.seen state.new.sink.now).failures ≡ (S.seen state.old.sink.now).failures }
{
    let shared = input.shared;
    let channel = input.channel;
    // The count is read before the channel. If it is 0, the last message of the last imposer is already in the channel.
    let none_left = shared.imposers_left.load(SeqCst) == 0;
    shared.objects.gate.before_look(Look::Channel);
    let received = channel
        .receiver
        .try_recv_as::<SheetRule<T>, R>(rt, &mut state.parts.receiving);
    shared.objects.gate.after_look(Look::Channel);
    let Ok(batch) = received else {
        if none_left {
            return false;
        }
        shared.window.move_to(state.progress.next);
        shared.window.rest(rt, idling);
        return true;
    };
    state.parts.early.put(batch);
    let mut written = Written {
        rt,
        queue: &channel.spent,
    };
    state.progress = write_early(
        shared.objects.job,
        state.sink,
        state.progress,
        &mut state.parts.early,
        &mut written,
    );
    shared.window.come_to(state.progress.next);
    idling.end();
    // After the last sheet the caller waits for the threads themselves, which wake it when they end.
    state.progress.halted.is_none() && state.progress.next < shared.objects.job.sheets()
}
