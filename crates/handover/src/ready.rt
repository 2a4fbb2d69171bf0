//! The queue of sheets that are ready to be imposed.
ghost use Rattle.std.specs.Prelude.{◌≡◌, ◌<◌, ◌≤◌, ◌-◌, [], length, OnOk, OnErr, IfOk, IfErr, IfSome, IfNone};
ghost use Rattle.crossbeam_queue.specs.Passes.{view};
ghost use Rattle.rules.specs.Seats.{whole_share};
ghost use Rattle.handover.specs.Queue.{Put, Take, content};
ghost use Rattle.handover.specs.Passes.{IsPass, IsPassOf, MadeMove, PassesJoined, opening_pass, opening_pass_by_right};
ghost use Rattle.handover.specs.Passes.{puts_in, room_kept, room_given};
ghost use Rattle.handover.specs.Rule.{first_sight};
ghost use Rattle.handover.specs.Steps.{first_pass};

use crate::pass::{Pass, WHOLE_SHARE};
use crate::room::{both_rooms, may_put, room_after_put, room_given, room_kept};
use crate::rule::{HandoverHistory, PassKnowledge};
use crate::steps::{HistoryCut, JoinPasses, Opens, Picks, Puts, Takes};
use crossbeam_queue::RuledArrayQueue;
use std::alloc::{AllocError, Global};
use std::marker::{Brand, Model};
use std::sync::Wait;
use thiserror::Error;

/// The error of a put for which the queue or the pass had no room. It contains the sheet.
#[derive(Clone, Copy, Debug, PartialEq, Eq, Error)]
#[error("the queue has no room for sheet {0}")]
pub struct Full(pub u32);

type Line = RuledArrayQueue<u32, PassKnowledge, HandoverHistory>;

/// A bounded queue of the sheets that are ready to be imposed, oldest first. Many threads share it without a lock.
///
/// Each call takes a `Pass` of the queue. However the threads are scheduled, an accepted put is a single step, and so
/// is a take that returns a sheet. All these steps are in one history of the queue. In it, each step of a pass comes
/// after all that the pass had seen.
#[derive(Drop)]
pub struct Ready {
    line: Line,
}

impl Model for Ready {
    ghost use Rattle.crossbeam_queue.specs.Passes.{ruled_capacity};
    ghost use Rattle.handover.specs.Passes.{QueueView};

    ghost Value = { QueueView };

    ghost view = { λ r. record { queue = r.line.table.shared.table_id; capacity = ruled_capacity r.line } };
}

impl Ready {
    /// Makes a queue with room for `capacity` sheets, and the pass that has all its shares. `capacity` must be at least
    /// 1. Fails only if memory is refused.
    pub fn new(alloc: Global, capacity: u32) -> Result<(Ready, Pass), AllocError>
        requires { 0 < capacity }
        ensures capacity { IfOk result (λ made. made.0.capacity ≡ capacity) }
        ensures pass { IfOk result (λ made. made.1 ≡ opening_pass made.0) }
    {
        let (line, mut token) = Line::ruled(alloc, capacity as usize)?;
        open::<Brand>(&line, &mut token);
        let ready = Ready { line };
        let pass = Pass {
            token,
            share: WHOLE_SHARE,
            room: None,
        };
        Ok((ready, pass))
    }

    /// Makes a queue that guarantees `capacity` puts (puts by right), and the pass that has all its shares. `capacity`
    /// must be at least 1. The pass has room for `capacity` puts, and this room can be split among several passes.
    /// While a pass has room, its puts are never refused, and each put lowers its room by one. A put by a pass without
    /// room is refused unless the pass has all shares and the queue isn't full. The reason is that free places in the
    /// queue may be guaranteed to other passes. Fails only if memory is refused.
    ///
    /// A take gives no room back: the queue never guarantees more than `capacity` puts in all.
    pub fn by_right(alloc: Global, capacity: u32) -> Result<(Ready, Pass), AllocError>
        requires { 0 < capacity }
        ensures capacity { IfOk result (λ made. made.0.capacity ≡ capacity) }
        ensures pass { IfOk result (λ made. made.1 ≡ opening_pass_by_right made.0) }
    {
        let (line, mut token) = Line::ruled(alloc, capacity as usize)?;
        open::<Brand>(&line, &mut token);
        let ready = Ready { line };
        let pass = Pass {
            token,
            share: WHOLE_SHARE,
            room: Some(capacity),
        };
        Ok((ready, pass))
    }

    /// Puts a sheet at the end of the queue. The call may wait until another thread has finished its step. A refused
    /// put returns the sheet in `Full`. In a queue made by `new`, a put is refused only if the queue was full at some
    /// moment of the call. In a queue made by `by_right`, a put is refused only if the pass has no room.
    pub fn put<R: Wait>(&self, rt: &R, pass: &mut Pass, sheet: u32) -> Result<(), Full>
        requires { IsPassOf self.now pass.old }
        ensures pass { IsPassOf self.now pass.new }
        ensures put { OnOk result (MadeMove pass.old (Put sheet) pass.new) }
        ensures full { IfErr result (λ full. (full.0 ≡ sheet) × (pass.new ≡ pass.old)) }

        // A pass that has all shares has seen the whole history.
        ensures full_only_at_capacity { OnErr result (pass.old.share ≡ whole_share
            → length (content pass.old.front) ≡ self.now.capacity) }

        // A pass that has room isn't refused.
        ensures by_right { OnErr result (puts_in pass.old.room ≡ 0) }
    {
        if !may_put(pass.room, pass.share) {
            return Err(Full(sheet));
        }
        match self.line.push_as::<Puts, R>(rt, &mut pass.token, sheet) {
            Ok(()) => {
                pass.room = room_after_put(pass.room);
                Ok(())
            }
            Err(sheet) => Err(Full(sheet)),
        }
    }

    /// Takes the oldest sheet. The call may wait until another thread has finished its step. The result is `None` only
    /// if the queue was empty at some moment of the call.
    pub fn take<R: Wait>(&self, rt: &R, pass: &mut Pass) -> Option<u32>
        requires { IsPassOf self.now pass.old }
        ensures pass { IsPassOf self.now pass.new }
        ensures taken { IfSome result (λ sheet. MadeMove pass.old (Take sheet) pass.new) }
        ensures none { IfNone result (pass.new ≡ pass.old) }

        // A pass that has all shares has seen the whole history.
        ensures none_only_at_empty { IfNone result (pass.old.share ≡ whole_share → content pass.old.front ≡ []) }
    {
        self.line.pop_as::<Takes, R>(rt, &mut pass.token)
    }

    /// Splits off a new pass with the share `give`. The new pass has seen the same history as `pass`, and has no moves
    /// of its own and no room.
    pub fn split(&self, pass: &mut Pass, give: u64) -> Pass
        requires pass { IsPassOf self.now pass.old }
        requires share { (0 < give) × (give < pass.old.share) }
        ensures kept { pass.new ≡ record pass.old { share = pass.old.share - give } }
        ensures given { result ≡ record pass.old { own = []; share = give; room = room_given 0 pass.old.room } }
        ensures passes { IsPass pass.new × IsPass result }
    {
        self.split_with_room(pass, give, 0)
    }

    /// Splits off a new pass with the share `give`, and with room for `room` puts, taken from the room of `pass`. The
    /// new pass has seen the same history as `pass`, and has no moves of its own.
    pub fn split_with_room(&self, pass: &mut Pass, give: u64, room: u32) -> Pass
        requires pass { IsPassOf self.now pass.old }
        requires share { (0 < give) × (give < pass.old.share) }
        requires room { room ≤ puts_in pass.old.room }
        ensures kept { pass.new ≡ record pass.old {
          share = pass.old.share - give;
          room = room_kept room pass.old.room;
        } }
        ensures given { result ≡ record pass.old { own = []; share = give; room = room_given room pass.old.room } }
        ensures passes { IsPass pass.new × IsPass result }
    {
        self.cut::<Brand>(pass, give, room)
    }

    fn cut<N: Picks>(&self, pass: &mut Pass, give: u64, room: u32) -> Pass
        requires pass { IsPassOf self.now pass.old }
        requires share { (0 < give) × (give < pass.old.share) }
        requires room { room ≤ puts_in pass.old.room }
        requires number { (N.number ≡ give) × (puts_in N.room ≡ room) }
        ensures kept { pass.new ≡ record pass.old {
          share = pass.old.share - give;
          room = room_kept room pass.old.room;
        } }
        ensures given { result ≡ record pass.old { own = []; share = give; room = room_given room pass.old.room } }
        ensures passes { IsPass pass.new × IsPass result }
    {
        let token = self.line.another::<HistoryCut<N>>(&mut pass.token);
        let given = room_given(room, pass.room);
        pass.room = room_kept(room, pass.room);
        pass.share -= give;
        Pass {
            token,
            share: give,
            room: given,
        }
    }

    /// Joins two passes into one. The joined pass has seen all that either pass had seen, and has both passes' own
    /// moves, shares and room.
    pub fn join(&self, one: Pass, two: Pass) -> Pass
        requires one { IsPassOf self.now one }
        requires two { IsPassOf self.now two }
        ensures { PassesJoined one two result }
    {
        let Pass {
            mut token,
            share,
            room,
        } = one;
        let Pass {
            token: other,
            share: more,
            room: more_room,
        } = two;
        self.line.absorb::<JoinPasses>(&mut token, other);
        self.line.learn_as::<JoinPasses>(&mut token);
        Pass {
            token,
            share: share + more,
            room: both_rooms(room, more_room),
        }
    }
}

/// Tells the first pass of a new queue the queue's capacity, and gives the pass its room. This changes only what
/// contracts see.
fn open<N: Picks>(line: &Line, token: &mut crossbeam_queue::Pass<u32, PassKnowledge>)
    requires token { Rattle.crossbeam_queue.specs.Passes.IsPassOf line.now token.old × (view token.old ≡ first_sight) }
    requires number { (N.number ≤ u32.MAX) × (puts_in N.room ≤ N.number) }
    ensures { Rattle.crossbeam_queue.specs.Passes.IsPassOf line.now token.new
        × (view token.new ≡ first_pass N.number N.room) }
{
    drop(line.another::<Opens<N>>(token));
}
