//! A caller's token for the table.
ghost use Rattle.std.specs.Prelude.{◌≡◌};
ghost use Rattle.gather_table.specs.Shared.{IsSeat};

use crate::rule::SeatKnowledge;
use std::fmt;
use std::marker::Model;

/// A caller's token for one table. Contracts see its front, which is a legal history that the caller has seen, and the
/// caller's own calls in this history. Neither is stored: a seat has eight bytes, for its share.
#[derive(Drop)]
pub struct Seat {
    pub(crate) token: atomic_table::Seat<(), SeatKnowledge>,
    pub(crate) share: u64,
}

impl Model for Seat {
    ghost use Rattle.std.specs.Prelude.{◌≡◌, []};
    ghost use Rattle.rules.specs.SeatCalls.{seat_view};
    ghost use Rattle.gather_table.specs.Rule.{SeatStands};
    ghost use Rattle.gather_table.specs.Shared.{SeatView};

    ghost Value = { SeatView };

    ghost view = { λ s. seat_view s.token.table_id s.token.me.0 };

    ghost invariant = { λ s. (s.token.me.1 ≡ []) × SeatStands s.token.me.0 s.share };
}

impl Seat {
    /// The number of shares that the seat has, of the 2^32 shares of its table. A seat with all shares is the only
    /// seat of the table.
    pub fn share(&self) -> u64
        ensures value { result ≡ self.now.share }
        ensures seat { IsSeat self.now }
    {
        self.share
    }
}

impl fmt::Debug for Seat {
    fn fmt<W: fmt::Write>(&self, f: &mut fmt::Formatter<W>) -> fmt::Result {
        f.debug_struct("Seat")
            .field("share", &self.share)
            .finish_non_exhaustive()
    }
}
