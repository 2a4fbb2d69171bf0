//! The greatest numbers of puts that workers make on the queue, and a queue with room for all these puts.
ghost use Rattle.std.specs.Prelude.{◌≡◌, ◌+◌, ◌<◌, ◌≤◌, length, min, IfOk};
ghost use Rattle.rules.specs.Sheets.{layout};
ghost use Rattle.sheet_plan.specs.Places.{places_of};
ghost use Rattle.handover.specs.Passes.{puts_in};
ghost use Rattle.run_steps.specs.Duty.{most_puts, most_puts_in_all};
ghost use Rattle.imposer.specs.Rooms.{HasRoomForAll};
ghost use Rattle.imposer.specs.Gathering.{IsFreshPass};

use crate::gate::Gate;
use crate::shared::Shared;
use handover::{Pass, Ready};
use sheet_plan::Plan;
use std::alloc::{AllocError, Global};

impl<'s, 'r, 't, 'd, G: Gate> Shared<'s, 'r, 't, 'd, G> {
    /// The part of this pass's room that preparer `number` of `count` gets: the room that the preparer needs, or the whole room of the pass if that
    /// is less.
    pub(crate) fn room_for(&self, pass: &Pass, number: u32, count: u32) -> u32
        requires number { number < count }
        ensures { result ≡ min (most_puts self.now.objects.table.now.layout count number) (puts_in pass.now.room) }
    {
        let job = self.objects.job;
        most_puts(job.plan(), number, count).min(pass.room())
    }
}

/// The greatest number of puts that preparer `number` of `count` makes: one for each slot with one of this preparer's pages, but at most one for each
/// sheet of the plan.
pub(crate) fn most_puts(plan: &Plan<'_>, number: u32, count: u32) -> u32
    requires number { number < count }
    ensures { result ≡ most_puts (layout plan.now) count number }
{
    let mut puts = 0;
    // The preparer's pages are `count` apart.
    for page in (number..plan.pages()).step_by(count as usize) {
        puts = with_puts_of(plan, page, puts);
    }
    puts
}

/// The greatest number of puts that a preparer makes for its pages up to this page. `puts` is this number for the pages before this page. Each slot
/// with this page adds one, but the result is at most the number of sheets.
fn with_puts_of(plan: &Plan<'_>, page: u32, puts: u32) -> u32
    requires page { page < plan.now.pages }
    ensures { result ≡ min (puts + length (places_of (layout plan.now) page)) (length plan.now.sheets) }
{
    let places = plan.slots_of_page(page).len();
    (puts as usize)
        .saturating_add(places)
        .min(plan.sheets() as usize) as u32
}

/// The greatest number of puts in a run with `count` preparers, including the puts of sheets without pages.
pub(crate) fn most_puts_in_all(plan: &Plan<'_>, count: u32) -> u64
    requires count { (0 < count) × (count ≤ 16) }
    ensures { result ≡ most_puts_in_all (layout plan.now) count }
{
    let mut puts = 0;
    for number in 0..count {
        puts += u64::from(most_puts(plan, number, count));
    }
    puts + plan.born_complete().len() as u64
}

/// A queue for the sheets of this plan, and its pass. Both have room for all puts of a run with this number of preparers. The only error is refused
/// memory.
pub(crate) fn ready_for(
    alloc: Global,
    plan: &Plan<'_>,
    preparers: u32,
) -> Result<(Ready, Pass), AllocError>
    requires preparers { (0 < preparers) × (preparers ≤ 16) }
    ensures room { IfOk result (λ made. HasRoomForAll (layout plan.now) preparers made.1) }
    ensures sheets { IfOk result (λ made. length plan.now.sheets ≤ made.0.capacity) }
    ensures pass { IfOk result (λ made. IsFreshPass made.0 made.1) }
{
    let sheets = plan.sheets();
    let puts = most_puts_in_all(plan, preparers) as u32;
    Ready::by_right(alloc, puts.max(sheets).max(1))
}
