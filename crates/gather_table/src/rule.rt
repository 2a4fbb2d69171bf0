//! The knowledge of a seat, and the rule that every step of the table keeps.
use atomic_table::TableRule;
use sheet_plan::Plan;
use std::marker::Model;

/// The knowledge of a seat: a history that its caller has seen, and the caller's own calls in this history. Only
/// contracts use this type; no value of it is ever made.
pub struct SeatKnowledge {
    nothing: (),
}

impl Model for SeatKnowledge {
    ghost use Rattle.gather_table.specs.Rule.{SeatSight, spent_seat};

    ghost Value = { SeatSight };

    ghost view = { λ v. spent_seat };
}

/// The rule of the table. Between any two steps there is one legal history, in which each call has the reply of a
/// table for one thread. The words hold the state after this history, and each seat has seen a beginning of the
/// history.
pub struct TableHistory;

impl<'s> TableRule<(), SeatKnowledge, Plan<'s>> for TableHistory {
    ghost use Rattle.rules.specs.Sheets.{layout};
    ghost use Rattle.rules.specs.Seats.{opening_sight};
    ghost use Rattle.gather_table.specs.Rule.{HasTableHistory};

    ghost holds = { λ plan. HasTableHistory (layout plan) };

    ghost first = { λ plan. opening_sight (layout plan) };
}
