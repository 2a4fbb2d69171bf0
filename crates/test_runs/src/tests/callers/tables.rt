//! Tests of both tables, the plain one and the shared one: the pages that have come, and the missing slots.
ghost use Rattle.std.specs.Prelude.{◌≡◌, ◌<◌, IfSome, Some, length, slice_get, true};
ghost use Rattle.rules.specs.Sheets.{layout};
ghost use Rattle.gather_table.specs.Shared.{IsSeatOf};
ghost use Rattle.gather_table.specs.Table.{HasGroup, slots};

use super::stories::{Called, call_of, show, tell};
use crate::tests::checks::{assert_that, done};
use gather_table::{Closing, GatherTable, PlainTable, Published, Reply, Seat};
use pagespec::read_spec;
use sheet_plan::Plan;
use std::alloc::{AllocError, Global};
use std::fmt::Debug;
use std::process::Abort;
use test_tools::{MOST_GROWTHS, same_items};

// Whether the sheet is wide and has this group.
fn has_group(plan: &Plan, sheet: u32, group: u8) -> bool
    ensures { result ≡ true → HasGroup (layout plan.now) sheet group }
{
    if sheet >= plan.sheets() {
        return false;
    }
    let slots = plan.slots(sheet);
    slots > 64 && 64 * u16::from(group) < slots
}

// The page of a slot, if the slot exists and isn't blank.
pub(crate) fn page_in(plan: &Plan, sheet: u32, slot: u16) -> Option<u32>
    ensures sheet { IfSome result (λ _. sheet < length (layout plan.now).sheets) }
    ensures slot { IfSome result (λ page. slice_get (slots (layout plan.now) sheet) slot ≡ Some (Some page)) }
    ensures page { IfSome result (λ page. page < (layout plan.now).pages) }
{
    if sheet >= plan.sheets() || slot >= plan.slots(sheet) {
        return None;
    }
    let page = plan.page_of(sheet, slot)?;
    if page < plan.pages() {
        Some(page)
    } else {
        None
    }
}

// Marks a slot through a seat, if it isn't blank and the page has an index.
pub(crate) fn mark_checked(
    table: &GatherTable,
    plan: &Plan,
    seat: &mut Seat,
    sheet: u32,
    slot: u16,
) -> Option<Reply>
    requires plan { table.now.layout ≡ layout plan.now }
    requires seat { IsSeatOf table.now seat.old }
    ensures { IsSeatOf table.now seat.new }
{
    let page = page_in(plan, sheet, slot)?;
    table.page_at(seat, page)?;
    Some(table.mark(seat, sheet, slot))
}

// Closes a group through a seat, if none of its slots is missing.
fn close_checked(
    table: &GatherTable,
    plan: &Plan,
    seat: &mut Seat,
    sheet: u32,
    group: u8,
) -> Option<Closing>
    requires plan { table.now.layout ≡ layout plan.now }
    requires seat { IsSeatOf table.now seat.old }
    ensures { IsSeatOf table.now seat.new }
{
    if !has_group(plan, sheet, group) || table.look_group(seat, sheet, group) != 0 {
        return None;
    }
    Some(table.close_group(seat, sheet, group))
}

// Both tables of a plan. Each call is made on both tables. An answer is `None` if a number is out of bounds, the slot is blank, its page has no
// index, the sheet isn't wide, or a slot of the group to be closed is missing.
#[derive(Drop)]
struct Tables<'t, 'p> {
    plain: PlainTable<'p>,
    shared: GatherTable<'t>,
    plan: &'p Plan<'p>,
    seat: Seat,
    ghost same: { plain.layout ≡ layout plan.now },
    ghost shared_same: { shared.layout ≡ layout plan.now },
    ghost seated: { IsSeatOf shared seat },
}

// The answers of both tables.
type Both<T> = (Option<T>, Option<T>);

impl<'t, 'p> Tables<'t, 'p> {
    fn publish(&mut self, page: u32, index: u32) -> Both<Published> {
        if page >= self.plan.pages() {
            return (None, None);
        }
        let plain = self.plain.publish(page, index);
        let shared = self.shared.publish(&mut self.seat, page, index);
        (Some(plain), Some(shared))
    }

    fn mark_plainly(&mut self, sheet: u32, slot: u16) -> Option<Reply> {
        let page = page_in(self.plan, sheet, slot)?;
        self.plain.page_at(page)?;
        Some(self.plain.mark(sheet, slot))
    }

    fn mark(&mut self, sheet: u32, slot: u32) -> Both<Reply> {
        let slot = slot.min(65_535) as u16;
        let plain = self.mark_plainly(sheet, slot);
        let shared = mark_checked(&self.shared, self.plan, &mut self.seat, sheet, slot);
        (plain, shared)
    }

    fn look(&mut self, sheet: u32) -> Both<u64> {
        if sheet >= self.plan.sheets() {
            return (None, None);
        }
        let plain = self.plain.look(sheet);
        let shared = self.shared.look(&mut self.seat, sheet);
        (Some(plain), Some(shared))
    }

    fn page_at(&mut self, page: u32) -> Both<Option<u32>> {
        if page >= self.plan.pages() {
            return (None, None);
        }
        let plain = self.plain.page_at(page);
        let shared = self.shared.page_at(&mut self.seat, page);
        (Some(plain), Some(shared))
    }

    fn close_plainly(&mut self, sheet: u32, group: u8) -> Option<Closing> {
        if !has_group(self.plan, sheet, group) || self.plain.look_group(sheet, group) != 0 {
            return None;
        }
        Some(self.plain.close_group(sheet, group))
    }

    fn close_group(&mut self, sheet: u32, group: u8) -> Both<Closing> {
        let plain = self.close_plainly(sheet, group);
        let shared = close_checked(&self.shared, self.plan, &mut self.seat, sheet, group);
        (plain, shared)
    }

    fn look_group(&mut self, sheet: u32, group: u8) -> Both<u64> {
        if !has_group(self.plan, sheet, group) {
            return (None, None);
        }
        let plain = self.plain.look_group(sheet, group);
        let shared = self.shared.look_group(&mut self.seat, sheet, group);
        (Some(plain), Some(shared))
    }

    // The word and the first bit of the lane of a sheet, which has the bits of its slots. Only the shared table has lanes.
    fn lane_of(&self, sheet: u32) -> Option<(u32, u8)> {
        if sheet >= self.plan.sheets() || self.plan.slots(sheet) > 64 {
            return None;
        }
        Some(self.shared.lane_of(sheet))
    }

    // Marks the slots of the first sheet from `from` on and before `to`. Returns the first slot for which a reply isn't `Fresh`.
    fn not_fresh(&mut self, from: u32, to: u32) -> Option<u32> {
        for slot in from..to {
            if self.mark(0, slot) != (Some(Reply::Fresh), Some(Reply::Fresh)) {
                return Some(slot);
            }
        }
        None
    }
}

// Appends the answer of both tables, or that the two differ.
fn show_both<T: Debug + PartialEq + Drop>(
    answers: Both<T>,
    answer: &mut Vec<u8>,
) -> Result<(), AllocError> {
    let (plain, shared) = answers;
    if plain == shared {
        show(shared, answer)
    } else {
        show("the tables differ", answer)
    }
}

// Makes a call on both tables. The sheet is the first one, except in calls about lanes.
impl<'t, 'p, R> Called<R> for Tables<'t, 'p> {
    fn call(
        &mut self,
        _rt: &R,
        _alloc: Global,
        words: &str,
        answer: &mut Vec<u8>,
    ) -> Result<(), AllocError> {
        let (name, first, second) = call_of(words);
        let group = first.min(255) as u8;
        match name {
            "publish" => show_both(self.publish(first, second), answer),
            "mark" => show_both(self.mark(0, first), answer),
            "not_fresh" => show(self.not_fresh(first, second), answer),
            "look" => show_both(self.look(0), answer),
            "group" => show_both(self.look_group(0, group), answer),
            "page" => show_both(self.page_at(first), answer),
            "close" => show_both(self.close_group(0, group), answer),
            "lane" => show(self.lane_of(first), answer),
            _ => show("no call", answer),
        }
    }
}

// Makes the calls of a story on both tables, which are made for a specification and a number of pages. Returns the words of the shared table at the
// story's end.
fn told<R: Abort>(rt: &R, alloc: Global, text: &str, pages: u32, story: &str) -> Vec<u64> {
    let spec = done(rt, read_spec(alloc, text));
    let plan = done(rt, Plan::new(alloc, &spec, pages));
    let (shared, seat) = done(rt, GatherTable::new(alloc, &plan));
    let mut tables = Tables {
        plain: done(rt, PlainTable::new(alloc, &plan)),
        shared,
        plan: &plan,
        seat,
    };
    tell(rt, alloc, &mut tables, MOST_GROWTHS, story);
    let Tables {
        plain: _,
        shared,
        plan: _,
        seat,
    } = tables;
    done(rt, shared.end(alloc, seat))
}

// Makes the calls of a story on both tables, which are made for one sheet with the same page in each of `slots` slots.
fn tell_of_slots<R: Abort>(rt: &R, alloc: Global, slots: u32, story: &str) {
    let text = done(rt, same_items(alloc, "0", slots));
    told(rt, alloc, &text, 1, story);
}

const TWO_PAGES: &str = "\
    publish 0 5 = Some(Stored)\n\
    mark 0 = Some(Fresh)\n\
    mark 0 = Some(Repeated)\n\
    publish 0 9 = Some(Held(5))\n\
    look = Some(2)\n\
    page 1 = Some(None)\n\
    publish 1 4294967295 = Some(Stored)\n\
    mark 1 = Some(Completing)\n\
    look = Some(0)\n\
    page 0 = Some(Some(5))\n\
    page 1 = Some(Some(4294967295))\n\
    mark 1 = Some(Repeated)\n\
";

const PAGE_BESIDE_A_BLANK: &str = "\
    look = Some(2)\n\
    publish 0 0 = Some(Stored)\n\
    mark 1 = Some(Completing)\n\
    mark 1 = Some(Repeated)\n\
    look = Some(0)\n\
";

// A sheet of 64 slots has no groups: its last mark completes it.
const PAGE_TO_64_SLOTS: &str = "\
    group 0 = None\n\
    look = Some(18446744073709551615)\n\
    publish 0 0 = Some(Stored)\n\
    not_fresh 0 63 = None\n\
    look = Some(9223372036854775808)\n\
    mark 63 = Some(Completing)\n\
    look = Some(0)\n\
    close 0 = None\n\
    mark 64 = None\n\
";

// One sheet with the same page in each of its 65 slots. It has two groups, and the second has one slot.
const PAGE_TO_65_SLOTS: &str = "\
    look = Some(3)\n\
    publish 0 0 = Some(Stored)\n\
    not_fresh 0 63 = None\n\
    mark 63 = Some(Fills(0))\n\
    group 0 = Some(0)\n\
    look = Some(3)\n\
    close 0 = Some(Closed)\n\
    close 0 = Some(Again)\n\
    look = Some(2)\n\
    mark 64 = Some(Fills(1))\n\
    close 1 = Some(Completing)\n\
    look = Some(0)\n\
    mark 64 = Some(Repeated)\n\
";

// 128 slots are two whole groups. The second group is filled and closed before the first.
const PAGE_TO_128_SLOTS: &str = "\
    group 2 = None\n\
    look = Some(3)\n\
    publish 0 0 = Some(Stored)\n\
    group 1 = Some(18446744073709551615)\n\
    not_fresh 64 127 = None\n\
    group 1 = Some(9223372036854775808)\n\
    close 1 = None\n\
    mark 127 = Some(Fills(1))\n\
    group 1 = Some(0)\n\
    mark 127 = Some(Repeated)\n\
    close 1 = Some(Closed)\n\
    look = Some(1)\n\
    close 1 = Some(Again)\n\
    group 0 = Some(18446744073709551615)\n\
    not_fresh 0 63 = None\n\
    group 0 = Some(9223372036854775808)\n\
    close 0 = None\n\
    mark 63 = Some(Fills(0))\n\
    group 0 = Some(0)\n\
    mark 63 = Some(Repeated)\n\
    look = Some(1)\n\
    close 0 = Some(Completing)\n\
    look = Some(0)\n\
    close 0 = Some(Again)\n\
    mark 128 = None\n\
";

// 129 slots are two whole groups and a group of one slot. All groups are filled before the first is closed.
const PAGE_TO_129_SLOTS: &str = "\
    group 3 = None\n\
    look = Some(7)\n\
    publish 0 0 = Some(Stored)\n\
    group 0 = Some(18446744073709551615)\n\
    not_fresh 0 63 = None\n\
    group 0 = Some(9223372036854775808)\n\
    close 0 = None\n\
    mark 63 = Some(Fills(0))\n\
    group 0 = Some(0)\n\
    mark 63 = Some(Repeated)\n\
    group 2 = Some(1)\n\
    not_fresh 128 128 = None\n\
    group 2 = Some(1)\n\
    close 2 = None\n\
    mark 128 = Some(Fills(2))\n\
    group 2 = Some(0)\n\
    mark 128 = Some(Repeated)\n\
    group 1 = Some(18446744073709551615)\n\
    not_fresh 64 127 = None\n\
    group 1 = Some(9223372036854775808)\n\
    close 1 = None\n\
    mark 127 = Some(Fills(1))\n\
    group 1 = Some(0)\n\
    mark 127 = Some(Repeated)\n\
    look = Some(7)\n\
    close 1 = Some(Closed)\n\
    look = Some(5)\n\
    close 1 = Some(Again)\n\
    close 2 = Some(Closed)\n\
    look = Some(1)\n\
    close 2 = Some(Again)\n\
    close 0 = Some(Completing)\n\
    look = Some(0)\n\
    close 0 = Some(Again)\n\
    mark 128 = Some(Repeated)\n\
    mark 129 = None\n\
";

// One sheet with the same page in each of its 4,096 slots.
const SIXTY_FOUR_GROUPS: &str = "\
    look = Some(18446744073709551615)\n\
    group 63 = Some(18446744073709551615)\n\
    group 64 = None\n\
";

const PAGE_COMES: &str = "\
    look = Some(18446744073709551615)\n\
    publish 0 0 = Some(Stored)\n\
";

// Adds the calls that fill a group of 64 slots and close it. `left` is the answer to a look at the sheet after that.
fn push_group(story: &mut String, group: u32, left: u64) -> Result<(), AllocError> {
    let first = group.saturating_mul(64);
    let last = first.saturating_add(63);
    write!(
        story,
        "group {group} = Some(18446744073709551615)\n\
        not_fresh {first} {last} = None\n\
        group {group} = Some(9223372036854775808)\n\
        close {group} = None\n\
        mark {last} = Some(Fills({group}))\n\
        mark {last} = Some(Repeated)\n\
        close {group} = Some(Closed)\n\
        look = Some({left})\n\
        close {group} = Some(Again)\n"
    )
}

const LAST_GROUP_OF_63_SLOTS: &str = "\
    look = Some(9223372036854775808)\n\
    group 63 = Some(9223372036854775807)\n\
    not_fresh 4032 4094 = None\n\
    group 63 = Some(4611686018427387904)\n\
    close 63 = None\n\
    mark 4094 = Some(Fills(63))\n\
    group 63 = Some(0)\n\
    mark 4094 = Some(Repeated)\n\
    close 63 = Some(Completing)\n\
    look = Some(0)\n\
    close 63 = Some(Again)\n\
    mark 4095 = None\n\
";

// The story of 4,095 slots, which are 63 whole groups and a group of 63 slots.
fn page_to_4095_slots<R: Abort>(rt: &R, alloc: Global) -> String {
    let mut story = done(rt, String::from_str(alloc, PAGE_COMES));
    let mut left = u64::MAX;
    for group in 0..63u32 {
        left &= !(1u64 << group);
        done(rt, push_group(&mut story, group, left));
    }
    done(rt, story.push_str(LAST_GROUP_OF_63_SLOTS));
    story
}

// One sheet with the same page in each of its slots. If there are at most 64 slots, the last mark completes the sheet. If there are more, marks fill
// the groups of up to 64 slots, and closing the last group completes the sheet.
#[test]
fn a_page_in_every_slot(rt: HostRuntime) {
    let many = page_to_4095_slots(&rt, rt.alloc());
    for (slots, story) in [
        (64, PAGE_TO_64_SLOTS),
        (65, PAGE_TO_65_SLOTS),
        (128, PAGE_TO_128_SLOTS),
        (129, PAGE_TO_129_SLOTS),
        (4_095, many.as_str()),
        (4_096, SIXTY_FOUR_GROUPS),
    ] {
        tell_of_slots(&rt, rt.alloc(), slots, story);
    }
}

// One sheet with 64 blank slots and then a page.
const PAGE_AFTER_A_BLANK_GROUP: &str = "\
    look = Some(2)\n\
    publish 0 0 = Some(Stored)\n\
    mark 64 = Some(Fills(1))\n\
    close 1 = Some(Completing)\n\
";

// Stories at whose end one page has come and its slot is marked, but the sheet isn't complete: on a sheet of two pages, and on a sheet with 64 blank
// slots before its page, whose group isn't closed.
const SECOND_SLOT: &str = "\
    publish 0 5 = Some(Stored)\n\
    mark 1 = Some(Fresh)\n\
";

const LAST_SLOT: &str = "\
    publish 0 5 = Some(Stored)\n\
    mark 64 = Some(Fills(1))\n\
";

// Sheets of two slots. A word has the lanes of 32 of them.
const PAIRS: &str = "\
    lane 0 = Some((0, 0))\n\
    lane 31 = Some((0, 62))\n\
    lane 32 = Some((1, 0))\n\
";

// Sheets of two slots and of one slot alternate.
const MIXED: &str = "\
    lane 40 = Some((0, 60))\n\
    lane 41 = Some((0, 62))\n\
    lane 42 = Some((1, 0))\n\
    lane 43 = Some((1, 2))\n\
";

// Sheets of 64 slots, each with a word of its own.
const WHOLE_WORDS: &str = "\
    lane 0 = Some((0, 0))\n\
    lane 1 = Some((1, 0))\n\
";

// A sheet of 2 slots, one of 65 slots and one of 2 slots, repeated. The two narrow sheets have 4 bits together, so 16 repetitions fill a word.
const AMONG_WIDE_SHEETS: &str = "\
    lane 0 = Some((0, 0))\n\
    lane 1 = None\n\
    lane 2 = Some((0, 2))\n\
    lane 3 = Some((0, 4))\n\
    lane 47 = Some((0, 62))\n\
    lane 48 = Some((1, 0))\n\
    lane 50 = Some((1, 2))\n\
";

// A specification of a sheet with 64 blank slots and then a page, for a document of one page.
const BEHIND_BLANKS: &str = "\
    2:1+1+1+1+1+1+1+1+1+1+1+1+1+1+1+1+1+1+1+1+1+1+1+1+1+1+1+1+1+1+1+1+1+1+1+1+1+1+1+1+1+1+1+1+1+1+1+1+1+\
    1+1+1+1+1+1+1+1+1+1+1+1+1+1+1+0\
";

// A specification of three sheets: two pages, then one of them in each of 65 slots, then the two again.
const OF_65_AMONG_PAIRS: &str = "\
    2:0+1,0+0+0+0+0+0+0+0+0+0+0+0+0+0+0+0+0+0+0+0+0+0+0+0+0+0+0+0+0+0+0+0+0+0+0+0+0+0+0+0+0+0+0+0+0+0+0+\
    0+0+0+0+0+0+0+0+0+0+0+0+0+0+0+0+0+0,0+1\
";

// Each row has the words of the table at the end of its story. The word of a page is its index plus one, or 0 if the page hasn't come. In a lane, the
// bits of marked and of blank slots are set. A wide sheet has a closing word before the words of its groups; in it, groups of blank slots are closed.
#[test]
fn two_pages_and_blank_slots(rt: HostRuntime) {
    let rows: [(&str, u32, &str, &[u64]); 5] = [
        ("2:0+1", 2, TWO_PAGES, &[6, 4_294_967_296, 3]),
        ("2:1+0", 1, PAGE_BESIDE_A_BLANK, &[1, 3]),
        (
            BEHIND_BLANKS,
            1,
            PAGE_AFTER_A_BLANK_GROUP,
            &[1, 0, 3, u64::MAX, 1],
        ),
        ("2:1+0", 2, SECOND_SLOT, &[6, 0, 2]),
        (BEHIND_BLANKS, 1, LAST_SLOT, &[6, 0, 1, u64::MAX, 1]),
    ];
    for (text, pages, story, words) in rows {
        let left = told(&rt, rt.alloc(), text, pages, story);
        assert_that(&rt, left.as_slice() == words);
    }
}

#[test]
fn lanes_follow_one_another(rt: HostRuntime) {
    let page_64_times = done(&rt, same_items(rt.alloc(), "0", 64));
    for (text, pages, story) in [
        ("2:0+1", 100, PAIRS),
        ("3:0+1,2", 100, MIXED),
        (page_64_times.as_str(), 2, WHOLE_WORDS),
        (OF_65_AMONG_PAIRS, 100, AMONG_WIDE_SHEETS),
    ] {
        told(&rt, rt.alloc(), text, pages, story);
    }
}
