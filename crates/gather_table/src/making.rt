//! Makes the table that threads share.
ghost use Rattle.std.specs.Prelude.{◌≡◌, ◌+◌, ◌/◌, ◌<◌, ◌≤◌, nat_lt, if◌then◌else◌, length, IfOk};
ghost use Rattle.rules.specs.Admissible.{most_slots};
ghost use Rattle.rules.specs.Run.{most_pages, most_sheets};
ghost use Rattle.rules.specs.Sheets.{layout};
ghost use Rattle.gather_table.specs.Homes.{AreHomes};
ghost use Rattle.gather_table.specs.Lanes.{lane_for, free, wide_at};
ghost use Rattle.gather_table.specs.Shared.{opening_seat};

use crate::lane::{Home, Lane};
use crate::seat::Seat;
use crate::starting::first_words;
use crate::table::GatherTable;
use crate::words::group_count;
use atomic_table::Table;
use sheet_plan::Plan;
use std::alloc::{AllocError, Global};

impl<'s> GatherTable<'s> {
    /// Makes a table for a plan, and the seat that has all its shares. Blank slots are marked from the start, and
    /// groups that have only blank slots are closed. Fails only if memory is refused.
    ///
    /// The table has one word for the index of each page. A sheet of up to 64 slots has a lane: adjacent bits of one
    /// word. A lane takes the next free bits of the current word if there are enough, and otherwise the first bits of
    /// the next word. A wide sheet has words of its own after the lanes: a closing word, and then one word for each
    /// group.
    pub fn new(alloc: Global, plan: &Plan<'s>) -> Result<(GatherTable<'s>, Seat), AllocError>
        ensures layout { IfOk result (λ made. made.0.layout ≡ layout plan.now) }
        ensures seat { IfOk result (λ made. made.1 ≡ opening_seat made.0) }
    {
        let (homes, count) = homes_of(alloc, plan)?;
        let words = first_words(alloc, plan, homes.as_slice(), count)?;
        let (table, token) = Table::of_words(alloc, words.as_slice(), plan)?;
        let pages = plan.pages() as usize;
        Ok((
            GatherTable {
                table,
                pages,
                homes,
            },
            Seat {
                token,
                share: 1 << 32,
            },
        ))
    }
}

/// The place of each sheet's bits, and the number of words of the whole table. Fails only if memory is refused.
fn homes_of(alloc: Global, plan: &Plan) -> Result<(Vec<Home>, u32), AllocError>
    ensures homes { IfOk result (λ made. AreHomes (layout plan.now) made.0.items) }
    ensures words { IfOk result (λ made. made.1 ≡ wide_at (layout plan.now) (length (layout plan.now).sheets)) }
{
    let pages = plan.pages();
    let mut homes = Vec::with_capacity(alloc, plan.sheets() as usize)?;
    let mut next = Lane { word: 0, first: 0 };
    let mut wide = pages + lane_words(plan);
    for sheet in 0..plan.sheets() {
        let slots = plan.slots(sheet);
        let width = lane_width(slots);
        next = fit(next, width);
        homes.push(home_at(slots, pages, next, wide))?;
        next.first += width;
        wide += own_words(slots);
    }
    Ok((homes, wide))
}

/// The number of words with lanes. It is 1 even if no sheet has a lane.
fn lane_words(plan: &Plan) -> u32
    ensures { result ≡ (free (layout plan.now) (length (layout plan.now).sheets)).word + 1 }
{
    let mut next = Lane { word: 0, first: 0 };
    for sheet in 0..plan.sheets() {
        let width = lane_width(plan.slots(sheet));
        next = fit(next, width);
        next.first += width;
    }
    next.word + 1
}

/// The lane of the next sheet, which needs `count` bits. It begins at `next` if the word of `next` has enough bits
/// left, and otherwise at the first bit of the following word.
fn fit(next: Lane, count: u8) -> Lane
    requires { (next.first ≤ 64) × (count ≤ 64) × (next.word < most_sheets) }
    ensures { result ≡ lane_for next count }
{
    if next.first + count > 64 {
        return Lane {
            word: next.word + 1,
            first: 0,
        };
    }
    next
}

/// The number of bits that a sheet with this number of slots has in the lanes. A wide sheet (over 64 slots) has none.
fn lane_width(slots: u16) -> u8
    ensures { result ≡ (if nat_lt 64 slots then 0 else slots) }
{
    if slots > 64 {
        return 0;
    }
    slots as u8
}

/// The number of words that a sheet with this number of slots has for itself. A wide sheet (over 64 slots) has a
/// closing word and one word for each group. A sheet that isn't wide has none.
fn own_words(slots: u16) -> u32
    requires { slots ≤ most_slots }
    ensures { result ≡ (if nat_lt 64 slots then 1 + (slots + 63) / 64 else 0) }
{
    if slots > 64 {
        return 1 + u32::from(group_count(slots));
    }
    0
}

/// The place of a sheet with `slots` slots, in a table for `pages` pages. `lane` is the sheet's lane; it is ignored if
/// the sheet is wide. `wide` is the first word after the words of the earlier wide sheets.
fn home_at(slots: u16, pages: u32, lane: Lane, wide: u32) -> Home
    requires { (pages ≤ most_pages) × (lane.word ≤ most_sheets) }
    ensures { result ≡ (if nat_lt 64 slots then record { slots = slots; word = wide; first = 0 }
        else record { slots = slots; word = pages + lane.word; first = lane.first }) }
{
    if slots > 64 {
        return Home {
            slots,
            word: wide,
            first: 0,
        };
    }
    Home {
        slots,
        word: pages + lane.word,
        first: lane.first,
    }
}
