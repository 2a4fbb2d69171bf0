//! The room of a pass: the number of puts that the queue will certainly accept from it. It is `None` in a queue that
//! guarantees no puts.
ghost use Rattle.std.specs.Prelude.{◌≡◌, ◌≢◌, ℕ, ◌+◌, ◌≤◌, Some, IsTrue, false};
ghost use Rattle.rules.specs.Seats.{whole_share};
ghost use Rattle.handover.specs.Queue.{Put};
ghost use Rattle.handover.specs.Passes.{puts_in, room_after, room_kept, room_given, both_rooms};

use crate::pass::WHOLE_SHARE;

/// Whether a pass with this room and this share may try to put a sheet. In a queue that guarantees puts, a pass without
/// room may not try unless it has all shares: free places in the queue may be guaranteed to other passes.
pub(crate) fn may_put(room: Option<u32>, share: u64) -> bool
    ensures may { IsTrue result → room ≡ Some 0 → share ≡ whole_share }
    ensures none_left { result ≡ false → (room ≡ Some 0) × (share ≢ whole_share) }
{
    room.is_none_or(|puts| puts > 0 || share == WHOLE_SHARE)
}

/// The room of a pass after a put: one less than before, but not below 0. `None` stays `None`.
pub(crate) fn room_after_put(room: Option<u32>) -> Option<u32>
    ensures { (sheet : ℕ) → result ≡ room_after (Put sheet) room }
{
    Some(room?.saturating_sub(1))
}

/// The room that a pass keeps if it gives away room for `give` puts. `None` stays `None`.
pub(crate) fn room_kept(give: u32, room: Option<u32>) -> Option<u32>
    requires { give ≤ puts_in room }
    ensures { result ≡ room_kept give room }
{
    Some(room? - give)
}

/// The room of a pass that gets room for `give` puts from a pass with the room `room`. It is `None` if `room` is
/// `None`.
pub(crate) fn room_given(give: u32, room: Option<u32>) -> Option<u32>
    ensures { result ≡ room_given give room }
{
    room.and(Some(give))
}

/// The room of the pass into which two passes are joined: the sum of their rooms. `None` counts as 0, but the sum of
/// two `None` is `None`.
pub(crate) fn both_rooms(one: Option<u32>, two: Option<u32>) -> Option<u32>
    requires { puts_in one + puts_in two ≤ u32.MAX }
    ensures { result ≡ both_rooms one two }
{
    match (one, two) {
        (Some(puts), Some(more)) => Some(puts + more),
        (Some(puts), None) => Some(puts),
        (None, room) => room,
    }
}
