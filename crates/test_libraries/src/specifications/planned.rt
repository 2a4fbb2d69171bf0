//! Plans: the page in each slot of each sheet.
ghost use Rattle.std.specs.Prelude.{◌<◌, length};

use crate::answer::Answer;
use crate::words::{count, specification, word};
use pagespec::{Item, Spec};
use sheet_plan::{Plan, PlanError, are_sides};

/// The number of entries that are shown at the start of a long list. The last entry is shown as well.
const SHOWN: u32 = 12;

pub fn run(out: &mut Answer, words: &[String]) -> Option<()> {
    match word(words, 0)? {
        "plan" => {
            let pages = count(words, 2)?;
            if let Some(spec) = specification(out, words, 1) {
                planned(out, &spec, pages, count(words, 3))?;
            }
        }
        "are_sides" => out.verdict(are_sides(count(words, 1)?)),
        _ => return None,
    }
    Some(())
}

/// Prints the plan of a specification for this number of pages, in signatures of `sides` sides if that number is given. `None` if a signature can't
/// have this number of sides.
fn planned(out: &mut Answer, spec: &Spec, pages: u32, sides: Option<u32>) -> Option<()> {
    let plan = match sides {
        None => Plan::new(out.alloc, spec, pages),
        Some(sides) if are_sides(sides) => { Plan::with_signatures(out.alloc, spec, pages, sides) }
        Some(_) => return None,
    };
    match plan {
        Ok(plan) => all_lines(out, &plan),
        Err(error) => out.refusal::<PlanError>(error),
    }
    Some(())
}

fn all_lines(out: &mut Answer, plan: &Plan<'_>) {
    let (pages, sheets) = (plan.pages(), plan.sheets());
    let blank = plan.born_complete().len();
    out.line(format_args!("{pages} pages on {sheets} sheets, {blank} of them blank"));
    out.text("slots ");
    sheet_lists(out, plan, What::Slots);
    out.text("pages ");
    page_lists(out, plan);
    out.text("items ");
    sheet_lists(out, plan, What::Items);
    out.text("missing ");
    sheet_lists(out, plan, What::Missing);
    out.text("places ");
    place_lists(out, plan);
    out.text("blank ");
    blank_sheets(out, plan);
}

/// Prints the pages of each sheet. Long lists are shortened as `begin` says.
pub fn page_lists(out: &mut Answer, plan: &Plan<'_>) {
    sheet_lists(out, plan, What::Pages);
}

/// The part of each sheet that a list shows.
#[derive(Clone, Copy)]
enum What {
    Slots,
    Pages,
    Items,
    Missing,
}

/// Begins the entry at place `at`, counted from 0, of a list with `count` entries. Returns whether the entry is shown: the first `SHOWN` entries and
/// the last one are. One `..` stands for the others.
fn begin(out: &mut Answer, at: u32, count: u32, between: &str) -> bool {
    let is_last = count.saturating_sub(1) <= at;
    if SHOWN < at && !is_last {
        return false;
    }
    if 0 < at {
        out.text(between);
    }
    if at == SHOWN && !is_last {
        out.text("..");
        return false;
    }
    true
}

/// Ends a list of `count` entries. If there are none, prints `none`.
fn end(out: &mut Answer, count: u32) {
    out.text(if count == 0 { "none\n" } else { "\n" });
}

fn sheet_lists(out: &mut Answer, plan: &Plan<'_>, what: What) {
    let sheets = plan.sheets();
    for sheet in 0..sheets {
        if begin(out, sheet, sheets, "; ") {
            match what {
                What::Slots => out.show(plan.slots(sheet)),
                What::Pages => slot_pages(out, plan, sheet),
                What::Items => slot_items(out, plan, sheet),
                What::Missing => missing(out, plan, sheet),
            }
        }
    }
    end(out, sheets);
}

fn slot_pages(out: &mut Answer, plan: &Plan<'_>, sheet: u32)
    requires { sheet < length plan.now.sheets }
{
    let slots = plan.slots(sheet);
    for slot in 0..slots {
        if begin(out, u32::from(slot), u32::from(slots), " ") {
            match plan.page_of(sheet, slot) {
                Some(page) => out.show(page),
                None => out.text("-"),
            }
        }
    }
}

fn slot_items(out: &mut Answer, plan: &Plan<'_>, sheet: u32)
    requires { sheet < length plan.now.sheets }
{
    let slots = plan.slots(sheet);
    for slot in 0..slots {
        if begin(out, u32::from(slot), u32::from(slots), " ") {
            named_page(out, plan.item_of(sheet, slot));
        }
    }
}

/// Prints the page that an item names, with a minus sign if the page is counted from the end.
fn named_page(out: &mut Answer, item: &Item) {
    out.text(if item.from_end { "-" } else { "" });
    out.show(item.page);
}

/// Prints the slots that aren't blank, as a hexadecimal number for each group of 64 slots: bit j stands for slot j of the group.
fn missing(out: &mut Answer, plan: &Plan<'_>, sheet: u32)
    requires { sheet < length plan.now.sheets }
{
    let groups = (plan.slots(sheet) + 63) / 64;
    for group in 0..groups as u8 {
        if 0 < group {
            out.text(" ");
        }
        out.show(format_args!("{:x}", plan.missing_at_start(sheet, group)));
    }
}

fn place_lists(out: &mut Answer, plan: &Plan<'_>) {
    let pages = plan.pages();
    for page in 0..pages {
        if begin(out, page, pages, "; ") {
            places(out, plan.slots_of_page(page));
        }
    }
    end(out, pages);
}

fn places(out: &mut Answer, places: &[(u32, u16)]) {
    if places.is_empty() {
        out.text("-");
    }
    let count = small(places.len());
    for (at, place) in places.iter().enumerate() {
        if begin(out, small(at), count, " ") {
            out.show(format_args!("{}.{}", place.0, place.1));
        }
    }
}

fn blank_sheets(out: &mut Answer, plan: &Plan<'_>) {
    let sheets = plan.born_complete();
    let count = small(sheets.len());
    for (at, sheet) in sheets.iter().enumerate() {
        if begin(out, small(at), count, "; ") {
            out.show(*sheet);
        }
    }
    end(out, count);
}

fn small(count: usize) -> u32 {
    u32::try_from(count).unwrap_or(u32::MAX)
}
