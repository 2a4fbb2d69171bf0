//! Returns the memory of written sheets to the imposers.
use crossbeam_queue::ArrayQueue;
use sheet_text::Texts;
use sheet_writer::Spent;
use std::sync::Wait;

/// The queue of texts that have been written. A text for which the queue has no room is dropped.
#[derive(Drop)]
pub(crate) struct Written<'w, 'r, R> {
    pub(crate) rt: &'w R,
    pub(crate) queue: &'w ArrayQueue<Texts<'r>>,
}

impl<'w, 'r, R: Wait> Spent<'r> for Written<'w, 'r, R> {
    fn give_back(&mut self, sheets: Texts<'r>) {
        drop(self.queue.push(self.rt, sheets));
    }
}
