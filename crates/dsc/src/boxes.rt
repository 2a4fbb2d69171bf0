//! The bounding box in the trailer of a document.
ghost use Rattle.std.specs.Prelude.{◌≡◌, option_map};
ghost use Rattle.dsc.specs.Fields.{fields_in};
ghost use Rattle.dsc.specs.Units.{units_of};
ghost use Rattle.dsc.specs.Views.{unit_of, at_depth};
ghost use Rattle.dsc.specs.TrailerBoxes.{box_in as told_box, found_after, part_after, trailer_box as box_of_trailer};

use crate::comments::comment_value;
use crate::keys::Meaning;
use crate::units::LineOrBlock;
use crate::walk::Walk;

/// The part of a document that a unit is in.
#[derive(Clone, Copy)]
pub(crate) enum Section {
    Preamble,
    Pages,
    Trailer,
}

/// The value of the first `%%BoundingBox:` comment in the trailer: the text after its colon. Comments in embedded
/// documents and in data blocks don't count. None if there is no such comment, or if the text has a faulty data block.
pub fn trailer_box(text: &[u8]) -> Option<&[u8]>
    ensures { option_map (λ value. fields_in value.now) result ≡ box_of_trailer (units_of text.now) }
{
    let mut part = Section::Preamble;
    let mut found = None;
    let mut walk = Walk::new(text);
    while !walk.is_done() {
        let step = match walk.step() {
            Ok(step) => step,
            Err(_) => return None,
        };
        part = next_part(part, step.meaning);
        found = found_by(part, found, &step.unit, step.depth);
    }
    found
}

/// The part of the document that a unit is in. `part` is the part that the unit before it is in.
fn next_part(part: Section, meaning: Meaning) -> Section
    ensures { result ≡ part_after part meaning.is_page meaning.is_trailer }
{
    match part {
        Section::Preamble => {
            if meaning.is_page {
                Section::Pages
            } else {
                Section::Preamble
            }
        }
        Section::Pages => {
            if meaning.is_trailer {
                Section::Trailer
            } else {
                Section::Pages
            }
        }
        Section::Trailer => Section::Trailer,
    }
}

/// The value of the trailer's bounding box once this unit is read, if it has been found. A value that was found before
/// the unit is kept. Otherwise the unit's own value counts, if the unit is a `%%BoundingBox:` comment in the trailer.
fn found_by<'d>(
    part: Section,
    found: Option<&'d [u8]>,
    unit: &LineOrBlock<'d>,
    depth: usize,
) -> Option<&'d [u8]>
    ensures { option_map (λ value. fields_in value.now) result
        ≡ found_after part (option_map (λ value. fields_in value.now) found.entry) (at_depth depth (unit_of unit.now)) }
{
    if let Some(value) = found {
        return Some(value);
    }
    match part {
        Section::Trailer => box_in(unit, depth),
        _ => None,
    }
}

/// The text after the colon, if the unit is a `%%BoundingBox:` comment outside embedded documents. None for any other
/// unit.
fn box_in<'d>(unit: &LineOrBlock<'d>, depth: usize) -> Option<&'d [u8]>
    ensures { option_map (λ value. fields_in value.now) result ≡ told_box (at_depth depth (unit_of unit.now)) }
{
    if unit.is_block || depth != 0 {
        return None;
    }
    comment_value(unit.content, b"%%BoundingBox", b"%%BoundingBox:")
}
