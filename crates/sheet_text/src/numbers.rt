//! Draws the numbers of pages on sheets.
ghost use Rattle.std.specs.Prelude.{◌≡◌, ◌≤◌, ◌+◌, ◌*◌, ◌^◌, ◌++◌, ◌∷◌, [], nat_abs, pos, IsTrue, OnOk};
ghost use Rattle.rules.specs.Papers.{is_side};
ghost use Rattle.rules.specs.Dress.{lines_text};
ghost use Rattle.pagespec.specs.Items.{item_of, turn_of};
ghost use Rattle.sheet_plan.specs.OfSheets.{placed_of, slots_at};
ghost use Rattle.sheet_text.specs.PageNumbers.{corner_text, degrees as degrees_of, font_text, foot_text, middle as middle_of};
ghost use Rattle.sheet_text.specs.PageNumbers.{number_line, number_lines, rise as rise_of, shown_text, slot_lines};

use crate::rope::Rope;
use itoa::Buffer;
use lengths::{Grains, Number, to_grains};
use pagespec::Turn;
use sheet_plan::{MadeSheets, PlacedSlot};
use std::alloc::AllocError;

/// The height of a number above the foot of its page's cell, in grains: 18 points.
const ABOVE_FOOT: i128 = 2_286_000_000_000;

/// The page numbers to draw on the sheets of a job.
#[derive(Drop)]
pub struct Numbers {
    /// The size of the font, in grains.
    pub size: Grains,
    /// The number of a page in the first place of the row. Each later place counts one more, blanks included.
    pub first: u32,
    /// The sheets to number. A slot names its page by the page's place in the row, counted from 0, and not by the page's number in the document.
    pub places: MadeSheets,
    /// The distance in grains from the middle of a page down to the foot of its cell. None if each page is its own cell.
    pub below: Option<Grains>,
}

/// Appends the lines that draw the page numbers of this sheet (counted from 0). Appends nothing if `numbers` has no such sheet. The only error is
/// refused memory.
pub(crate) fn append_numbers(
    numbers: &Numbers,
    sheet: u32,
    text: &mut Rope<'_>,
) -> Result<(), AllocError>
    ensures { OnOk result (text.new ≡ text.old ++ lines_text (number_lines numbers.now sheet)) }
{
    if sheet as usize >= numbers.places.len() {
        return Ok(());
    }
    for slot in 0..numbers.places.slots(sheet) {
        append_slot_number(numbers, numbers.places.placed(sheet, slot), text)?;
    }
    Ok(())
}

/// Appends the line that draws the number of the page in this slot. Appends nothing if the slot is blank.
fn append_slot_number(
    numbers: &Numbers,
    slot: Option<PlacedSlot<'_>>,
    text: &mut Rope<'_>,
) -> Result<(), AllocError>
    ensures { OnOk result (text.new ≡ text.old ++ lines_text (slot_lines numbers.now (placed_of slot.entry))) }
{
    match slot {
        Some(placed) => append_number_line(numbers, &placed, text),
        None => Ok(()),
    }
}

/// Appends the line that draws the number of this page.
fn append_number_line(
    numbers: &Numbers,
    placed: &PlacedSlot<'_>,
    text: &mut Rope<'_>,
) -> Result<(), AllocError>
    ensures { OnOk result (text.new
        ≡ text.old ++ lines_text (number_line numbers.now placed.now.page (item_of placed.now.item.now) placed.now.paper.now ∷ [])) }
{
    append_font(numbers.size, text)?;
    append_page_corner(placed, text)?;
    append_foot(numbers.below, placed, text)?;
    append_shown(u64::from(numbers.first) + u64::from(placed.page), text)?;
    text.append(b"\n")?;
    Ok(())
}

/// Appends the operators that save the graphics state, and set the colour (black) and the font (Times-Roman, in this size, which is in grains).
fn append_font(size: Grains, text: &mut Rope<'_>) -> Result<(), AllocError>
    ensures { OnOk result (text.new ≡ text.old ++ font_text size) }
{
    text.append(b"gsave 0 setgray /Times-Roman findfont ")?;
    text.append_points(size)?;
    text.append(b" scalefont setfont ")?;
    Ok(())
}

/// Appends the operators that move the origin to the lower left corner of the placed page and rotate the axes with the page.
fn append_page_corner(placed: &PlacedSlot<'_>, text: &mut Rope<'_>) -> Result<(), AllocError>
    ensures { OnOk result (text.new ≡ text.old ++ corner_text placed.now.paper.now (item_of placed.now.item.now)) }
{
    let (x, y) = placed.item.offset;
    text.append_points(to_grains(x.number, x.unit, placed.paper))?;
    text.append(b" ")?;
    text.append_points(to_grains(y.number, y.unit, placed.paper))?;
    text.append(b" translate ")?;
    text.append(degrees(placed.item.turn))?;
    text.append(b" rotate ")?;
    Ok(())
}

/// The angle by which this turn rotates a page to the left, as a decimal number of degrees.
fn degrees(turn: Turn) -> &'static [u8]
    ensures { result.now ≡ degrees_of (turn_of turn) }
{
    match turn {
        Turn::None => b"0",
        Turn::Left => b"90",
        Turn::Half => b"180",
        Turn::Right => b"270",
    }
}

/// Appends the point at which the page's number is drawn, the operator `moveto`, and the parenthesis before the number. The point is in points from
/// the lower left corner of the placed page. `below` is that of `Numbers`.
fn append_foot(
    below: Option<Grains>,
    placed: &PlacedSlot<'_>,
    text: &mut Rope<'_>,
) -> Result<(), AllocError>
    ensures { OnOk result (text.new ≡ text.old ++ foot_text below placed.now.paper.now (item_of placed.now.item.now)) }
{
    text.append_grains(middle(placed.item.scale, placed.paper.width()))?;
    text.append(b" ")?;
    text.append_grains(rise(below, placed))?;
    text.append(b" moveto (")?;
    Ok(())
}

/// The height of a number above the lower edge of its page, in grains. It is negative if the number is below that edge. `below` is that of `Numbers`.
fn rise(below: Option<Grains>, placed: &PlacedSlot<'_>) -> i128
    ensures value { result ≡ rise_of below placed.now.paper.now (item_of placed.now.item.now) }
    ensures in_range { nat_abs result ≤ 2 * 10 ^ 23 }
{
    match below {
        None => ABOVE_FOOT,
        Some(below) => {
            middle(placed.item.scale, placed.paper.height()) - below.get() + ABOVE_FOOT
        }
    }
}

/// Half the length that a side of a page has on the sheet, in grains, rounded down. `scale` is the scale of the page, and `side` the length of the
/// side on the page's paper.
fn middle(scale: Number, side: Grains) -> i128
    requires { IsTrue (is_side side) }
    ensures value { result ≡ pos (middle_of scale side) }
    ensures in_range { nat_abs result ≤ 5 * 10 ^ 22 }
{
    (scaled(scale, side) / 2_000_000_000) as i128
}

/// The length that a side of a page has on the sheet, in 10^-9 of a grain. `side` is the length of the side on the page's paper.
fn scaled(scale: Number, side: Grains) -> u128
    requires { IsTrue (is_side side) }
    ensures value { result ≡ nat_abs scale * nat_abs side }
    ensures in_range { result ≤ 10 ^ 32 }
{
    u128::from(scale.billionths().unsigned_abs()) * side.get().unsigned_abs()
}

/// Appends the number, the operators that draw it with its middle above the current point, and `grestore`.
fn append_shown(number: u64, text: &mut Rope<'_>) -> Result<(), AllocError>
    ensures { OnOk result (text.new ≡ text.old ++ shown_text number) }
{
    let mut digits = Buffer::new();
    text.append(digits.format(number).as_bytes())?;
    text.append(b") dup stringwidth pop -2 div 0 rmoveto show grestore")?;
    Ok(())
}
