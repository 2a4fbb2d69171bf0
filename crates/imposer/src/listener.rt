//! Listeners, which get the objects of a run that has ended.
ghost use Rattle.std.specs.Prelude.{List, Option, None};
ghost use Rattle.imposer.specs.Listening.{Hears};
ghost use Rattle.imposer.specs.declared.listener.GatheredPlan.{GatheredPlan};

use crate::gathering::Gathered;
use gather_table::GatherTable;
use handover::Ready;

/// A run whose workers have ended, with its table and its queue. The tokens in `gathered`, if there are any, show all calls that were made on the
/// table and the queue.
#[derive(Drop)]
pub struct GatheredPlan<'j, 'd> {
    pub table: GatherTable<'j>,
    pub queue: Ready,
    pub gathered: Gathered<'d>,
}

/// A listener is called once, at the end of a run. It isn't called if memory is refused before the run has a table.
pub trait Listener {
    // The runs with which it has been called, if it records them.
    ghost heard: { Self → Option (List GatheredPlan) };

    /// Is called with a run that has ended.
    fn ended(&mut self, ended: GatheredPlan<'_, '_>)
        ensures { Hears (heard self.old) (heard self.new) ended.entry };
}

/// A listener that does nothing.
#[derive(Clone, Copy, Debug)]
pub struct NoListener;

impl Listener for NoListener {
    ghost heard = { λ _. None };

    fn ended(&mut self, ended: GatheredPlan<'_, '_>) {
        drop(ended);
    }
}
