//! Messages about sheets without room for pages.
ghost use Rattle.std.specs.Prelude.{◌≡◌, ◌≤◌, IfOk, IsTrue, IsUtf8, OnErr, pos, string_bytes};
ghost use Rattle.rules.specs.Numbers.{points_text as text_of_points};
ghost use Rattle.rules.specs.Papers.{is_side};
ghost use Rattle.impose_messages.specs.Said.{gaps_text as text_of_gaps, leaves_some as leaves_some_of, left_of as left_of_side, lengths_text as text_of_lengths};
ghost use Rattle.impose_messages.specs.Said.{no_room_text as text_of_no_room, sides_text as text_of_sides, paper_size_text as text_of_size};

use layouts::{HUNDRED_THOUSANDTH, Room, extent, grains, in_grains};
use lengths::{Grains, Paper, print_points};
use std::alloc::{AllocError, Global};

/// The message about margins and gaps that leave no room for pages. It gives the sums of opposite margins, the size that they leave, and the size of
/// the sheet. It also gives the lengths of the gaps if the margins leave some room. All lengths are in points. The only error is running out of
/// memory.
pub(crate) fn no_room_text(alloc: Global, room: &Room) -> Result<String, AllocError>
    ensures { IfOk result (λ text. string_bytes text ≡ text_of_no_room room.now) }
{
    let (across, up) = (room.left + room.right, room.bottom + room.top);
    let margins = lengths_text(alloc, across, up)?;
    let width = left_of(room.paper.width(), across);
    let height = left_of(room.paper.height(), up);
    let left = sides_text(alloc, width, height)?;
    let size = size_text(alloc, &room.paper)?;
    let gaps = gaps_text(alloc, room)?;
    format!(in alloc;
        "margins of {margins} pt leave {left} of a sheet of {size} pt{gaps}: take smaller ones, or a larger sheet"
    )
}

/// The part of the message that says that gaps take all the room that the margins leave. It is empty if the margins leave no room.
fn gaps_text(alloc: Global, room: &Room) -> Result<String, AllocError>
    ensures { IfOk result (λ text. string_bytes text ≡ text_of_gaps room.now) }
{
    if !leaves_some(room) {
        return Ok(String::new(alloc));
    }
    let gaps = lengths_text(alloc, room.gutter_across, room.gutter_up)?;
    format!(in alloc; ", and gaps of {gaps} pt none of that")
}

/// Whether margins leave some of the sheet's width and some of its height.
fn leaves_some(room: &Room) -> bool
    ensures { result ≡ leaves_some_of room.now }
{
    let width = left_of(room.paper.width(), room.left + room.right);
    let height = left_of(room.paper.height(), room.bottom + room.top);
    0 < width.get() && 0 < height.get()
}

/// The text of two lengths, in points. The arguments are in units of 10^-5 of a point.
fn lengths_text(alloc: Global, across: u64, up: u64) -> Result<String, AllocError>
    requires across { across ≤ 20_000_000_000 }
    requires up { up ≤ 20_000_000_000 }
    ensures { IfOk result (λ text. string_bytes text ≡ text_of_lengths across up) }
{
    sides_text(alloc, in_grains(across), in_grains(up))
}

/// The length of a side less the length `taken`, or 0 if `taken` is longer. `taken` is in units of 10^-5 of a point.
fn left_of(length: Grains, taken: u64) -> Grains
    requires side { IsTrue (is_side length) }
    requires taken { taken ≤ 20_000_000_000 }
    ensures { result ≡ pos (left_of_side length taken) }
{
    let left = extent(length).saturating_sub(HUNDRED_THOUSANDTH * taken);
    grains(i128::from(left))
}

/// The text of a paper's width and height, in points.
fn size_text(alloc: Global, paper: &Paper) -> Result<String, AllocError>
    ensures { IfOk result (λ text. string_bytes text ≡ text_of_size paper.now) }
{
    sides_text(alloc, paper.width(), paper.height())
}

fn sides_text(alloc: Global, width: Grains, height: Grains) -> Result<String, AllocError>
    ensures { IfOk result (λ text. string_bytes text ≡ text_of_sides width height) }
{
    let width = points_text(alloc, width)?;
    let height = points_text(alloc, height)?;
    format!(in alloc; "{width} x {height}")
}

fn points_text(alloc: Global, length: Grains) -> Result<String, AllocError>
    ensures { IfOk result (λ text. string_bytes text ≡ text_of_points length) }
{
    let mut text = Vec::new(alloc);
    print_points(length, &mut text)?;
    text_of_ascii(text)
}

/// The bytes as a text. Callers pass only ASCII. Bytes that aren't UTF-8 would be refused with the error that also reports a lack of memory.
fn text_of_ascii(bytes: Vec<u8>) -> Result<String, AllocError>
    ensures value { IfOk result (λ text. string_bytes text ≡ bytes.items) }
    ensures other { OnErr result (¬ (IsUtf8 bytes.items)) }
{
    match String::from_utf8(bytes) {
        Ok(text) => Ok(text),
        Err(_) => Err(AllocError),
    }
}
