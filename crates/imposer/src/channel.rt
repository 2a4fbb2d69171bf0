//! The channel that carries finished sheets from the imposers to the collector. A message has one or more sheets of one imposer.
ghost use Rattle.std.specs.Prelude.{◌≡◌, ℕ, List, [], All, ⊤};
ghost use Rattle.sheet_text.specs.Jobs.{text_of};

use crossbeam_channel::protocol::{Lesson, Outcome, Protocol, Split};
use crossbeam_channel::{Pass, RuledReceiver, RuledSender};
use crossbeam_queue::ArrayQueue;
use sheet_text::{Job, Texts};
use std::marker::{Brand, PhantomData};

/// The text that each sheet of the run's job must have. This is a ghost parameter that the proof of each call chooses; the trait has no code.
pub(crate) trait SheetTexts {
    ghost text: { ℕ → List ℕ };
}

impl SheetTexts for Brand {
    ghost text = { λ s. [] };
}

/// The rule of the channel: each sheet in a message has the text that `T` gives for it.
pub(crate) struct SheetRule<T: SheetTexts> {
    of: PhantomData<T>,
}

impl<'r, T: SheetTexts> Protocol<Texts<'r>, ()> for SheetRule<T> {
    ghost use Rattle.sheet_writer.specs.Writing.{HaveTexts};

    ghost holds = { λ items views. All (λ m. HaveTexts T.text m) items };

    ghost first = { tt };
}

impl<'r, T: SheetTexts> Outcome<Texts<'r>, ()> for SheetRule<T> {
    ghost use Rattle.sheet_writer.specs.Writing.{HaveTexts};

    ghost then = { λ v m w. HaveTexts T.text m };
}

impl<'r, T: SheetTexts> Lesson<Texts<'r>, ()> for SheetRule<T> {
    ghost fact = { λ v items. ⊤ };
}

impl<T: SheetTexts> Split<()> for SheetRule<T> {
    ghost left = { λ v. v };

    ghost right = { λ v. v };
}

/// The job of a run, in which the text of each sheet is the one that `T` gives for it.
#[derive(Drop)]
pub(crate) struct RuledJob<'s, 'r, 'd, T: SheetTexts> {
    pub(crate) job: &'s Job<'r, 'd>,
    pub(crate) of: PhantomData<T>,
    ghost texts: { (s : ℕ) → T.text s ≡ text_of job.now s },
}

/// A token with which messages are sent or received.
pub(crate) type Ticket<'r> = Pass<Texts<'r>, ()>;

/// The sending end of the channel, which imposers use.
pub(crate) type SheetSender<'r, T> = RuledSender<Texts<'r>, (), SheetRule<T>>;

/// The receiving end of the channel, which the collector uses.
pub(crate) type SheetReceiver<'r, T> = RuledReceiver<Texts<'r>, (), SheetRule<T>>;

/// Both ends of the channel, and the queue in which the memory of written sheets goes back to the imposers.
#[derive(Drop)]
pub(crate) struct Channel<'r, T: SheetTexts> {
    pub(crate) sender: SheetSender<'r, T>,
    pub(crate) receiver: SheetReceiver<'r, T>,
    /// Texts of sheets that have been written. Imposers reuse their memory.
    pub(crate) spent: ArrayQueue<Texts<'r>>,
}
