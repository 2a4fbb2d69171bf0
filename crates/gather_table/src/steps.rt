//! Says what a seat learns from each step of the table, and how seats are split and joined.
use crate::rule::SeatKnowledge;
use atomic_table::{Join, Play, Split};
use std::marker::{Brand, PhantomData};

/// The step of a publish, which stores an index for a page.
pub(crate) struct Publishes;

impl Play<(), SeatKnowledge> for Publishes {
    ghost use Rattle.gather_table.specs.Steps.{publishes};

    ghost then = { publishes };
}

/// The step that looks up the index of a page.
pub(crate) struct Finds;

impl Play<(), SeatKnowledge> for Finds {
    ghost use Rattle.gather_table.specs.Steps.{finds};

    ghost then = { finds };
}

/// A ghost parameter that the proof of each call chooses: the call that a step makes, depending on the word that the
/// step finds. The trait has no code.
pub trait StepIs {
    ghost use Rattle.std.specs.Prelude.{ℕ};
    ghost use Rattle.gather_table.specs.History.{Entry};

    ghost entry: { ℕ → Entry };
}

impl StepIs for Brand {
    ghost use Rattle.gather_table.specs.History.{Look};

    ghost entry = { λ found. Look 0 0 };
}

/// The step of a call on slots or groups. Its word may hold the slots of several sheets.
pub(crate) struct Calls<E: StepIs> {
    of: PhantomData<E>,
}

impl<E: StepIs> Play<(), SeatKnowledge> for Calls<E> {
    ghost use Rattle.gather_table.specs.Steps.{calls};

    ghost then = { calls E.entry };
}

/// The join of two seats.
pub(crate) struct JoinSeats;

impl Join<SeatKnowledge> for JoinSeats {
    ghost use Rattle.rules.specs.Seats.{absorbed};
    ghost use Rattle.gather_table.specs.Rule.{spent_seat};

    ghost both = { absorbed };

    ghost spent = { spent_seat };
}

/// The step after a join. In it, the joined seat learns the facts about seats that the rule states.
pub(crate) struct Learns;

impl Play<(), SeatKnowledge> for Learns {
    ghost use Rattle.gather_table.specs.Steps.{learns};

    ghost then = { learns };
}

/// A ghost parameter that the proof of each call chooses, for a seat that is split in two. It says which own calls each
/// part gets, by their positions in the history, and which share the second part gets. The trait has no code.
pub trait Parts {
    ghost use Rattle.std.specs.Prelude.{ℕ, List};

    ghost first: { List ℕ };

    ghost second: { List ℕ };

    ghost share: { ℕ };
}

impl Parts for Brand {
    ghost use Rattle.std.specs.Prelude.{[]};

    ghost first = { [] };

    ghost second = { [] };

    ghost share = { 1 };
}

/// The split of a seat into two. `P` says which own calls each part gets, and which share the second part gets.
pub(crate) struct Parted<P: Parts> {
    of: PhantomData<P>,
}

impl<P: Parts> Split<SeatKnowledge> for Parted<P> {
    ghost use Rattle.rules.specs.Seats.{keeps_back, given};

    ghost left = { keeps_back P.first P.share };

    ghost right = { given P.second P.share };
}
