//! The knowledge of a pass, and the rule that every step of the queue keeps.
use crossbeam_queue::protocol::Protocol;
use std::marker::Model;

/// The knowledge of a pass: a history that its caller has seen, the caller's own moves in this history, and the room of
/// the pass. Only contracts use this type; no value of it is ever made.
pub struct PassKnowledge {
    nothing: (),
}

impl Model for PassKnowledge {
    ghost use Rattle.handover.specs.Rule.{PassSight, spent_pass};

    ghost Value = { PassSight };

    ghost view = { λ v. spent_pass };
}

/// The rule of the queue. Between any two steps there is one history. The queue holds the sheets that were put but not
/// yet taken in this history, and each pass has seen a beginning of the history. The capacity is enough for the sheets
/// in the queue and for all puts that are still guaranteed.
pub struct HandoverHistory;

impl Protocol<u32, PassKnowledge> for HandoverHistory {
    ghost use Rattle.handover.specs.Rule.{HasPassHistory, first_sight};

    ghost holds = { HasPassHistory };

    ghost first = { first_sight };
}
