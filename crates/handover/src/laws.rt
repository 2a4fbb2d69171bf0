//! Laws of all histories of the queue, and of all passes. A move is an accepted put, or a take that returned a sheet.
//! Each function states one law in its contract, and does nothing.
ghost use Rattle.handover.specs.Laws.{FirstPutIsFirstTaken, NeverOverfull, WholePassMadeAll, WholePassLosesNone};
ghost use Rattle.handover.specs.Laws.{OwnMovesAreKept, MovesStandInOneHistory, SplitMovesStandInOneHistory};
ghost use Rattle.handover.specs.Laws.{RoomIsUsedUp};
ghost use Rattle.handover.specs.Rule.{PassesStandTogether};

use crate::rule::{HandoverHistory, PassKnowledge};
use crossbeam_queue::protocol::Protocol;

/// Sheets are taken in the order in which they were put. No sheet is lost, or taken more often than it was put.
pub fn first_put_is_first_taken()
    ensures { FirstPutIsFirstTaken }
{}

/// The queue never holds more sheets than its capacity.
pub fn never_overfull()
    ensures { NeverOverfull }
{}

/// If a pass has all shares, it made every move in the history that its caller has seen.
pub fn whole_pass_made_all()
    ensures { WholePassMadeAll }
{}

/// If a pass has all shares, it took each sheet that it put, unless the sheet is still in the queue. A sheet that it
/// put several times counts once for each put.
pub fn whole_pass_loses_none()
    ensures { WholePassLosesNone }
{}

/// Each move of a pass becomes one of its own moves. A joined pass has both passes' own moves, and a split takes none
/// away.
pub fn own_moves_are_kept()
    ensures { OwnMovesAreKept }
{}

/// The moves of a pass are in one history of the queue. The history has each of these moves once, in the order in which
/// they were made, after all that the caller had seen.
pub fn moves_stand_in_one_history()
    ensures { MovesStandInOneHistory }
{}

/// A caller may split its pass, make moves with both parts at the same time, and join the parts again. One history of
/// the queue has each of these moves once. The moves of each part are in order, after all moves made before the split
/// and before all moves made after the join.
pub fn split_moves_stand_in_one_history()
    ensures { SplitMovesStandInOneHistory }
{}

/// While a pass has room, each of its puts lowers the room by one; a take doesn't change the room. A joined pass has
/// the room of both passes.
pub fn room_is_used_up()
    ensures { RoomIsUsedUp }
{}

/// At every moment, the moves of all passes of a queue are in one history, even if the passes never met. The queue
/// holds the sheets that were put and not yet taken in this history. No move belongs to two passes. The sheets in the
/// queue, and the puts that are still guaranteed, are together at most the capacity. Each pass with a share knows this
/// capacity.
pub fn passes_stand_together()
    ensures { PassesStandTogether ⟦<HandoverHistory as Protocol<u32, PassKnowledge>>⟧.holds }
{}
