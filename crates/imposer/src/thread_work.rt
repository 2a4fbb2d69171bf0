//! The work of the threads of a run, as traits, and the promise of each thread.
ghost use Rattle.std.specs.Prelude.{◌≡◌, ℕ, ◌+◌, ◌-◌, ◌<◌, IfOk};
ghost use Rattle.imposer.specs.Growth.{StaysGathered, GainsPreparer, GainsImposer};

use std::alloc::AllocError;
use std::sync::Wait;
use std::thread::Promise;

/// The work of preparers. `Self` is the object that all threads share. An `H` holds the tokens with which a worker makes its calls, and has shares of
/// them. The caller splits off an `H` with one share for each worker, and joins it again when the worker ends. Unless memory or a thread was refused,
/// the caller then has all shares back.
// The prover can't show that a thread keeps a promise about a type with a lifetime. So the code that starts and joins threads is generic in `H` and
// `Self`.
pub trait Work<H> {
    // The `H` belongs to this shared object.
    ghost is_held: { Self → H → Type 0 };

    // The number of shares that the `H` has.
    ghost share: { Self → H → ℕ };

    // The `H` has one share, and hasn't been used.
    ghost is_new: { Self → H → Type 0 };

    // The `H` has one share, hasn't been used, and has all that preparer `number` of `count` needs.
    ghost is_new_preparer: { Self → (count number : ℕ) → H → Type 0 };

    // The `H` has all that the preparers from `number` on need, of `count` preparers.
    ghost is_enough: { Self → (count number : ℕ) → H → Type 0 };

    // The `H` has one share, and was returned by a worker that has ended.
    ghost is_back: { Self → H → Type 0 };

    // Preparer `number` of `count` has done its work with the `H`.
    ghost has_prepared: { Self → (count number : ℕ) → H → Type 0 };

    // An imposer has done its work with the `H`.
    ghost has_imposed: { Self → H → Type 0 };

    // The `H` is the rest of `first`, joined with the results of the first `joined` of `count` preparers and of any number of imposers.
    ghost has_gathered: { Self → (first : H) → (count joined : ℕ) → H → Type 0 };

    /// Does the work of preparer `number` of `count`, and returns its `H`. The only error is refused memory.
    fn prepare<R: Wait>(&self, rt: &R, held: H, number: u32, count: u32) -> Result<H, AllocError>
        requires number { number < count }
        requires held { is_new_preparer self.now count number held }
        ensures back { IfOk result (is_back self.now) }
        ensures prepared { IfOk result (has_prepared self.now count number) };

    /// Splits off an `H` for preparer `number` of `count`: one of the caller's shares, and the room that the preparer needs for its puts on the
    /// queue.
    fn split_preparer(&self, held: &mut H, number: u32, count: u32) -> H
        requires held { is_held self.now held.old }
        requires share { 1 < share self.now held.old }
        requires number { number < count }
        requires enough { is_enough self.now count number held.old }
        ensures held { is_held self.now held.new }
        ensures share { share self.now held.new ≡ share self.now held.old - 1 }
        ensures gathered { StaysGathered (has_gathered self.now) held.old held.new }
        ensures enough { is_enough self.now count (number + 1) held.new }
        ensures given { is_new_preparer self.now count number result };

    /// Splits off one of the caller's shares, for a further worker.
    fn split(&self, held: &mut H) -> H
        requires held { is_held self.now held.old }
        requires share { 1 < share self.now held.old }
        ensures held { is_held self.now held.new }
        ensures share { share self.now held.new ≡ share self.now held.old - 1 }
        ensures gathered { StaysGathered (has_gathered self.now) held.old held.new }
        ensures given { is_new self.now result };

    /// Joins the result of a worker to the results joined before.
    fn join(&self, all: H, theirs: H) -> H
        requires all { is_held self.now all }
        requires theirs { is_back self.now theirs }
        ensures held { is_held self.now result }
        ensures share { share self.now result ≡ share self.now all + 1 }
        ensures prepared { GainsPreparer (has_gathered self.now) (has_prepared self.now) all theirs result }
        ensures imposed { GainsImposer (has_gathered self.now) (has_imposed self.now) all theirs result };
}

/// The work of imposers. A `T` is a ticket, with which an imposer sends finished sheets.
pub trait Imposing<H, T>: Work<H> {
    // The ticket is for sending on the channel of this shared object.
    ghost sends: { Self → T → Type 0 };

    /// Does the work of an imposer, and returns its `H`. The only error is refused memory.
    fn impose<R: Wait>(&self, rt: &R, held: H, ticket: T) -> Result<H, AllocError>
        requires held { Self.is_new self.now held }
        requires ticket { sends self.now ticket }
        ensures back { IfOk result (Self.is_back self.now) }
        ensures imposed { IfOk result (Self.has_imposed self.now) };

    /// Tells the imposers that nothing more is collected, so that they stop waiting for the collector.
    fn stop(&self);

    /// Makes a further ticket from this one.
    fn another(&self, ticket: &mut T) -> T
        requires { sends self.now ticket.old }
        ensures kept { sends self.now ticket.new }
        ensures given { sends self.now result };
}

/// The work of the caller's thread while the workers run. `S` is the state that this work changes.
pub trait Collector<S> {
    // The state is one with which collecting may start.
    ghost is_ready_to_collect: { Self → S → Type 0 };

    // The relation between the state before collecting and the state after it.
    ghost collected: { Self → S → S → Type 0 };

    // The ghost name of the reference in the state, or 0 if there is none. The lender of that reference can prove facts about the final value only if
    // the reference is known to be the same at the end.
    ghost reference: { Self → S → ℕ };

    /// Takes the sheets that the workers finish, until no further sheet will come or may be taken.
    fn collect<R: Wait>(&self, rt: &R, state: &mut S)
        requires { is_ready_to_collect self.now state.old }
        ensures same_reference { reference self.now state.new ≡ reference self.now state.old }
        ensures collected { collected self.now state.old state.new };
}

/// The promise of a preparer's thread: if the thread returns an `H`, the preparer's work was done with it.
#[derive(Drop)]
pub(crate) struct Prepares<'a, W> {
    pub(crate) shared: &'a W,
    pub(crate) number: u32,
    pub(crate) count: u32,
}

impl<'a, H, W: Work<H>> Promise<Result<H, AllocError>> for Prepares<'a, W> {
    ghost kept_by = { λ p r. IfOk r (λ h. W.is_back p.shared.now h × W.has_prepared p.shared.now p.count p.number h) };
}

/// The promise of an imposer's thread: if the thread returns an `H`, the imposer's work was done with it.
#[derive(Drop)]
pub(crate) struct Imposes<'a, W> {
    pub(crate) shared: &'a W,
}

impl<'a, H, W: Work<H>> Promise<Result<H, AllocError>> for Imposes<'a, W> {
    ghost kept_by = { λ p r. IfOk r (λ h. W.is_back p.shared.now h × W.has_imposed p.shared.now h) };
}
