//! Objects that are made before the workers of a run start.
ghost use Rattle.std.specs.Prelude.{◌≡◌, IfOk, ◌<◌, length, max, min};
ghost use Rattle.crossbeam_channel.specs.Claims.{IsSeatAt};
ghost use Rattle.crossbeam_channel.specs.Ends.{sends_on, receives_on};
ghost use Rattle.imposer.specs.CollectorStart.{ArePartsOf};

use crate::channel::{Channel, SheetRule, SheetTexts, Ticket};
use crate::window::Window;
use crossbeam_channel::bounded_with;
use crossbeam_queue::ArrayQueue;
use sheet_text::Job;
use sheet_writer::ReorderBuffer;
use std::alloc::{AllocError, Global};

/// What the collector begins with: the header and the trailer of the output, a reorder buffer, and a ticket for receiving.
#[derive(Drop)]
pub(crate) struct CollectorParts<'r> {
    pub(crate) header: Vec<u8>,
    pub(crate) trailer: Vec<u8>,
    pub(crate) early: ReorderBuffer<'r>,
    pub(crate) receiving: Ticket<'r>,
}

/// What the collector begins with, the channel of finished sheets, and a ticket for sending on it.
#[derive(Drop)]
pub(crate) struct Setup<'r, T: SheetTexts> {
    pub(crate) parts: CollectorParts<'r>,
    pub(crate) channel: Channel<'r, T>,
    pub(crate) sending: Ticket<'r>,
}

impl<'r, T: SheetTexts> Setup<'r, T> {
    /// Makes what the collector begins with, and the channel of a job. The reorder buffer, the channel and the queue of written texts each have room
    /// for the sheets of a window, or for all sheets of a shorter job. So imposers needn't wait for room. The only error is refused memory.
    pub(crate) fn new(alloc: Global, job: &Job<'_, '_>, window: &Window) -> Result<Self, AllocError>
        ensures room { IfOk result (λ s. length s.parts.early.places.items ≡ max 1 (min (length job.now.plan.sheets) window.now.len)) }
        ensures parts { IfOk result (λ s. ArePartsOf job.now s.parts) }
        ensures receiving { IfOk result (λ s. IsSeatAt (receives_on s.channel.receiver) s.parts.receiving) }
        ensures sending { IfOk result (λ s. IsSeatAt (sends_on s.channel.sender) s.sending) }
    {
        let header = job.document().dressed_preamble(job.sheets(), job.header())?;
        let trailer = job.document().trailer_text()?;
        let room = job.sheets().min(window.len).max(1);
        let early = ReorderBuffer::new(alloc, room)?;
        let (channel, sending, receiving) = channel_of(alloc, room as usize)?;
        let parts = CollectorParts {
            header,
            trailer,
            early,
            receiving,
        };
        Ok(Setup {
            parts,
            channel,
            sending,
        })
    }
}

/// A channel with room for this number of messages, a ticket for sending, and a ticket for receiving. The only error is refused memory.
fn channel_of<'r, T: SheetTexts>(
    alloc: Global,
    room: usize,
) -> Result<(Channel<'r, T>, Ticket<'r>, Ticket<'r>), AllocError>
    requires room { 0 < room }
    ensures sending { IfOk result (λ made. IsSeatAt (sends_on made.0.sender) made.1) }
    ensures receiving { IfOk result (λ made. IsSeatAt (receives_on made.0.receiver) made.2) }
{
    let spent = ArrayQueue::new(alloc, room)?;
    let (sender, receiver, mut receiving) = bounded_with::<_, _, SheetRule<T>, Global>(
        alloc, room,
    )?;
    let sending = sender.another::<SheetRule<T>>(&mut receiving);
    let channel = Channel {
        sender,
        receiver,
        spent,
    };
    Ok((channel, sending, receiving))
}
