//! Says what a pass learns from each step of the queue, and how passes are split and joined.
use crate::rule::PassKnowledge;
use crossbeam_queue::protocol::{Join, Lesson, Outcome, Split};
use std::marker::{Brand, PhantomData};

/// The step of a put: a sheet was put, or the queue was full.
pub(crate) struct Puts;

impl Outcome<u32, PassKnowledge> for Puts {
    ghost use Rattle.handover.specs.Queue.{Put};
    ghost use Rattle.handover.specs.Steps.{AddsMove};

    ghost then = { λ v x w. AddsMove v (Put x) w };
}

impl Lesson<u32, PassKnowledge> for Puts {
    ghost use Rattle.handover.specs.Steps.{Sees};

    ghost fact = { Sees };
}

/// The step of a take: a sheet was taken, or the queue was empty.
pub(crate) struct Takes;

impl Outcome<u32, PassKnowledge> for Takes {
    ghost use Rattle.handover.specs.Queue.{Take};
    ghost use Rattle.handover.specs.Steps.{AddsMove};

    ghost then = { λ v x w. AddsMove v (Take x) w };
}

impl Lesson<u32, PassKnowledge> for Takes {
    ghost use Rattle.handover.specs.Steps.{Sees};

    ghost fact = { Sees };
}

/// A ghost parameter that the proof of each call chooses: a number, which is a share to give away or a capacity, and a
/// room. The trait has no code.
pub trait Picks {
    ghost use Rattle.std.specs.Prelude.{ℕ, Option};

    ghost number: { ℕ };

    ghost room: { Option ℕ };
}

impl Picks for Brand {
    ghost use Rattle.std.specs.Prelude.{None};

    ghost number = { 1 };

    ghost room = { None };
}

/// The split of a pass. `N` has the share and the room that are given away.
pub(crate) struct HistoryCut<N: Picks> {
    of: PhantomData<N>,
}

impl<N: Picks> Split<PassKnowledge> for HistoryCut<N> {
    ghost use Rattle.handover.specs.Passes.{puts_in};
    ghost use Rattle.handover.specs.Steps.{keeps_of, gets_of};

    ghost left = { keeps_of N.number (puts_in N.room) };

    ghost right = { gets_of N.number (puts_in N.room) };
}

/// The join of two passes, and the step after the join. In this step, the joined pass learns the facts about passes
/// that the rule states.
pub(crate) struct JoinPasses;

impl Join<PassKnowledge> for JoinPasses {
    ghost use Rattle.handover.specs.Rule.{spent_pass};
    ghost use Rattle.handover.specs.Steps.{both_of};

    ghost both = { both_of };

    ghost spent = { spent_pass };
}

impl Lesson<u32, PassKnowledge> for JoinPasses {
    ghost use Rattle.handover.specs.Steps.{Learns};

    ghost fact = { Learns };
}

/// The step before the first move. In it the first pass learns the capacity of the queue, `N.number`, and gets its
/// room.
pub(crate) struct Opens<N: Picks> {
    of: PhantomData<N>,
}

impl<N: Picks> Split<PassKnowledge> for Opens<N> {
    ghost use Rattle.handover.specs.Steps.{first_pass, spent_of};

    ghost left = { λ v. first_pass N.number N.room };

    ghost right = { λ v. spent_of N.number };
}
