//! A caller's token for the queue of ready sheets.
ghost use Rattle.std.specs.Prelude.{◌≡◌};
ghost use Rattle.handover.specs.Passes.{IsPass, puts_in};

use crate::rule::PassKnowledge;
use std::fmt;
use std::marker::Model;

/// The number of shares of a queue, which is 2^32.
pub(crate) const WHOLE_SHARE: u64 = 4_294_967_296;

/// A caller's token for one queue. Contracts see its front, which is a history of the queue that the caller has seen,
/// and the caller's own puts and takes in this history. Neither is stored: a pass consists of its share and its room.
#[derive(Drop)]
pub struct Pass {
    pub(crate) token: crossbeam_queue::Pass<u32, PassKnowledge>,
    pub(crate) share: u64,
    /// The number of puts that the queue will certainly accept from this pass. `None` in a queue that guarantees no
    /// puts.
    pub(crate) room: Option<u32>,
}

impl Model for Pass {
    ghost use Rattle.std.specs.Prelude.{◌≡◌, []};
    ghost use Rattle.handover.specs.Passes.{PassView};
    ghost use Rattle.handover.specs.Rule.{PassStands, pass_view};

    ghost Value = { PassView };

    ghost view = { λ p. pass_view p.token.table_id p.token.me.0.client };

    ghost invariant = { λ p. (p.token.me.1 ≡ []) × PassStands p.token.me.0.client p.share p.room };
}

impl Pass {
    /// The number of shares that the pass has, of the 2^32 shares of its queue. A pass with all shares is the only
    /// pass of the queue.
    pub fn share(&self) -> u64
        ensures value { result ≡ self.now.share }
        ensures pass { IsPass self.now }
    {
        self.share
    }

    /// The number of puts that the queue will certainly accept from this pass. It is 0 in a queue that guarantees no
    /// puts.
    pub fn room(&self) -> u32
        ensures { result ≡ puts_in self.now.room }
    {
        self.room.unwrap_or(0)
    }
}

impl fmt::Debug for Pass {
    fn fmt<W: fmt::Write>(&self, f: &mut fmt::Formatter<W>) -> fmt::Result {
        f.debug_struct("Pass")
            .field("share", &self.share)
            .finish_non_exhaustive()
    }
}
