//! Makes the text of a sheet.
ghost use Rattle.std.specs.Prelude.{◌≡◌, ℕ, ◌+◌, ◌<◌, ◌≤◌, ◌++◌, List, IfOk, OnOk, codes, decimal, length, Some, slice_get};
ghost use Rattle.rules.specs.Bytes.{line};
ghost use Rattle.rules.specs.Parts.{pages};
ghost use Rattle.rules.specs.Made.{MadeSlot};
ghost use Rattle.rules.specs.Dress.{lines_text};
ghost use Rattle.rules.specs.MadeOutput.{made_slot_text};
ghost use Rattle.rules.specs.Filters.{prepared};
ghost use Rattle.rules.specs.Output.{opening_text as opening, closing_text as closing};
ghost use Rattle.pagespec.specs.Items.{item_of};
ghost use Rattle.sheet_plan.specs.Plans.{pages_on};
ghost use Rattle.sheet_text.specs.Jobs.{page_line, sheet_of, slots_of, slots_text, text_of};
ghost use Rattle.sheet_text.specs.Rooms.{most_room, slot_room};

use crate::job::Job;
use crate::openings::Openings;
use crate::rope::{LEAST_BORROWED, Rope};
use itoa::Buffer;
use sheet_plan::PlacedSlot;
use std::alloc::{AllocError, Global};

/// The text of this sheet (counted from 0). It consists of the `%%Page:` line, the job's lines for the start, the placed page of each slot in order,
/// the job's lines for the end, and one `showpage`. The bodies of the pages are taken from the document and prepared anew. The only error is refused
/// memory.
pub fn sheet_text(alloc: Global, job: &Job<'_, '_>, sheet: u32) -> Result<Vec<u8>, AllocError>
    requires { sheet < length job.now.plan.sheets }
    ensures { IfOk result (λ text. text.items ≡ text_of job.now sheet) }
{
    let text = sheet_rope(alloc, job, sheet)?;
    text.to_vec(alloc)
}

/// The text that `sheet_text` returns, as a rope. The only error is refused memory.
pub fn sheet_rope<'r>(alloc: Global, job: &Job<'r, '_>, sheet: u32) -> Result<Rope<'r>, AllocError>
    requires { sheet < length job.now.plan.sheets }
    ensures { IfOk result (λ text. text ≡ text_of job.now sheet) }
{
    let mut text = Rope::new(alloc);
    begin_sheet(&mut text, job, sheet)?;
    append_slots(alloc, &mut text, job, sheet)?;
    end_sheet(&mut text, job, sheet)?;
    Ok(text)
}

/// Begins the text of this sheet (counted from 0): replaces the content of this rope by the sheet's `%%Page:` line and the job's lines for its start.
/// A rope without memory first reserves memory for about as many bytes as it will own. The only error is refused memory.
pub fn begin_sheet(text: &mut Rope<'_>, job: &Job<'_, '_>, sheet: u32) -> Result<(), AllocError>
    requires { sheet < length job.now.plan.sheets }
    ensures { OnOk result (text.new ≡ page_line sheet ++ lines_text (sheet_of job.now sheet).start) }
{
    text.clear();
    // A rope that was used for an earlier sheet usually has enough memory.
    if text.capacity() == 0 {
        text.reserve(likely_len(job, sheet))?;
    }
    append_page_line(text, sheet)?;
    job.append_start(sheet, text)?;
    Ok(())
}

/// Ends the text of this sheet (counted from 0): appends the job's lines for its end, and `showpage`. Lines that are the same on all sheets are
/// borrowed, not copied, if they have 4,096 bytes or more in all. The only error is refused memory.
pub fn end_sheet<'r>(text: &mut Rope<'r>, job: &Job<'r, '_>, sheet: u32) -> Result<(), AllocError>
    requires { sheet < length job.now.plan.sheets }
    ensures { OnOk result (text.new ≡
        text.old ++ (lines_text (sheet_of job.now sheet).finish ++ line (codes "showpage"))) }
{
    job.append_finish(sheet, text)?;
    text.append(b"showpage\n")?;
    Ok(())
}

/// An estimate of the number of bytes that the rope of a sheet will own, not counting the lines that the sheet has besides its pages. It is seldom
/// too small, so the rope seldom has to be moved to a larger block of memory.
fn likely_len(job: &Job<'_, '_>, sheet: u32) -> usize
    requires { sheet < length job.now.plan.sheets }
    ensures { result ≤ most_room job.now sheet }
{
    let mut len = 64usize;
    for slot in 0..job.plan().slots(sheet) {
        len = len.saturating_add(likely_slot_len(job, sheet, slot));
    }
    len
}

/// An estimate of the number of bytes that the rope of a sheet will own for this slot. It is 0 if the slot is blank. Otherwise it is 256, for the
/// texts before and after the page, plus the length of the page if the page is too short to be borrowed.
fn likely_slot_len(job: &Job<'_, '_>, sheet: u32, slot: u16) -> usize
    requires sheet { sheet < length job.now.plan.sheets }
    requires slot { slot < length (pages_on job.now.plan sheet) }
    ensures { (it : MadeSlot) → slice_get (slots_of job.now sheet) slot ≡ Some it
        → result ≤ slot_room (pages job.now.units) it }
{
    let Some(placed) = job.placed(sheet, slot) else {
        return 0;
    };
    let body = job.document().page(placed.page);
    copied_len(body).saturating_add(256)
}

/// The number of these bytes that a rope copies: all of them, or none if they are long enough to be borrowed.
fn copied_len(bytes: &[u8]) -> usize
    ensures { result ≤ length bytes.now }
{
    if bytes.len() < LEAST_BORROWED {
        bytes.len()
    } else {
        0
    }
}

/// Appends the `%%Page:` line of a sheet. The argument counts sheets from 0, and the line counts them from 1.
fn append_page_line(text: &mut Rope<'_>, sheet: u32) -> Result<(), AllocError>
    ensures { OnOk result (text.new ≡ text.old ++ page_line sheet) }
{
    let mut buffer = Buffer::new();
    let number = buffer.format(u64::from(sheet) + 1).as_bytes();
    text.append(b"%%Page: ")?;
    text.append(number)?;
    text.append(b" ")?;
    text.append(number)?;
    text.append(b"\n")?;
    Ok(())
}

/// Appends the text of each slot of a sheet, in order.
fn append_slots(
    alloc: Global,
    text: &mut Rope<'_>,
    job: &Job<'_, '_>,
    sheet: u32,
) -> Result<(), AllocError>
    requires { sheet < length job.now.plan.sheets }
    ensures { OnOk result (text.new ≡ text.old ++ slots_text job.now (slots_of job.now sheet)) }
{
    let mut openings = Openings::new(alloc);
    for slot in 0..job.plan().slots(sheet) {
        append_slot(alloc, text, &mut openings, job, sheet, slot)?;
    }
    Ok(())
}

/// Appends the text of a slot: the placed page. A blank slot has no text.
fn append_slot(
    alloc: Global,
    text: &mut Rope<'_>,
    openings: &mut Openings,
    job: &Job<'_, '_>,
    sheet: u32,
    slot: u16,
) -> Result<(), AllocError>
    requires sheet { sheet < length job.now.plan.sheets }
    requires slot { slot < length (pages_on job.now.plan sheet) }
    ensures { OnOk result ((it : MadeSlot) → slice_get (slots_of job.now sheet) slot ≡ Some it →
        text.new ≡ text.old ++ made_slot_text job.now.border (pages job.now.units) it) }
{
    let Some(placed) = job.placed(sheet, slot) else {
        return Ok(());
    };
    let body = job.document().body(alloc, placed.page)?;
    openings.append(job, placed.item, placed.paper, text)?;
    text.append(body.as_slice())?;
    text.append_closing()?;
    Ok(())
}

/// Appends a placed page: the text before it, this prepared body, and the text after it. The body is borrowed, not copied, if it has 4,096 bytes or
/// more. The only error is refused memory.
pub fn append_placed<'r>(
    text: &mut Rope<'r>,
    openings: &mut Openings,
    job: &Job<'_, '_>,
    placed: &PlacedSlot<'_>,
    body: &'r [u8],
) -> Result<(), AllocError>
    ensures { OnOk result (text.new ≡ text.old ++
        (opening (record { paper = placed.now.paper.now; border = job.now.border }) (item_of placed.now.item.now)
        ++ body.now ++ closing)) }
{
    openings.append(job, placed.item, placed.paper, text)?;
    text.append_borrowed(body)?;
    text.append_closing()?;
    Ok(())
}
