//! Texts of several sheets, stored in the same memory.
ghost use Rattle.std.specs.Prelude.{◌≡◌, ◌≢◌, ◌<◌, ◌≤◌, ◌++◌, ◌∷◌, [], length, take, drop, IfSome, IsNone, OnOk, OnErr, Some, slice_get};
ghost use Rattle.std.specs.List.{range_with_len};
ghost use Rattle.sheet_text.specs.Texts.{sheets_of, joined_texts, texts_in, AreIn};

use crate::rope::{Borrowed, Pieces, Rope};
use std::alloc::{AllocError, Global};
use std::marker::Model;
use std::mem;

/// Sheets, counted from 0, each with its text. The bytes that the texts own are stored in one vector. A contract sees the list of the sheets, each
/// paired with its text.
#[derive(Drop)]
pub struct Texts<'r> {
    alloc: Global,
    own: Vec<u8>,
    parts: Vec<TextPart<'r>>,
}

/// The text of one sheet: the bytes of the common vector from `start` up to, but not including, `end`, with the borrowed slices between them. The
/// indexes at which the slices lie are counted from `start`.
#[derive(Drop)]
struct TextPart<'r> {
    sheet: u32,
    start: usize,
    end: usize,
    slices: Vec<Borrowed<'r>>,
}

impl<'r> Model for Texts<'r> {
    ghost use Rattle.sheet_text.specs.Texts.{TextsView, texts_in, AreIn};

    ghost Value = { TextsView };

    ghost view = { λ t. texts_in t.own.items t.parts.items };

    ghost invariant = { λ t. AreIn t.own.items t.parts.items };
}

impl<'r> Texts<'r> {
    /// Makes an empty list of sheets, without allocating memory.
    pub fn new(alloc: Global) -> Texts<'r>
        ensures { result ≡ [] }
    {
        Texts {
            alloc,
            own: Vec::new(alloc),
            parts: Vec::new(alloc),
        }
    }

    /// Removes all sheets. The memory of the list and of the owned bytes is kept for further sheets.
    pub fn clear(&mut self)
        ensures { self.new ≡ [] }
    {
        self.own.clear();
        self.parts.clear();
    }

    /// Adds a sheet with its text at the end of the list. The rope is left empty, and keeps the memory of its own bytes for the next sheet. If memory
    /// is refused, neither the list nor the rope changes.
    pub fn push(&mut self, sheet: u32, text: &mut Rope<'r>) -> Result<(), AllocError>
        ensures pushed { OnOk result (self.new ≡ self.old ++ (sheet, text.old) ∷ []) }
        ensures emptied { OnOk result (text.new ≡ []) }
        ensures unchanged { OnErr result ((self.new ≡ self.old) × (text.new ≡ text.old)) }
    {
        let start = self.own.len();
        self.parts.reserve(1)?;
        self.own.extend_from_slice(text.own.as_slice())?;
        let slices = mem::replace(&mut text.slices, Vec::new(self.alloc));
        text.own.clear();
        self.parts.push_reserved(TextPart {
            sheet,
            start,
            end: self.own.len(),
            slices,
        });
        Ok(())
    }

    /// The number of sheets in the list.
    pub fn len(&self) -> usize
        ensures { result ≡ length self.now }
    {
        self.parts.len()
    }

    /// The sheet at the index `nth` of the list. Sheets and indexes are counted from 0.
    pub fn sheet(&self, nth: usize) -> u32
        requires nth { nth < length self.now }
        ensures { slice_get (sheets_of self.now) nth ≡ Some result }
    {
        self.parts[nth].sheet
    }

    /// The text for a single write: the text of this sheet, and then the texts of the sheets that follow it in number and in memory. A text with
    /// borrowed slices is returned alone. Returns the number of these sheets, which is at most `most`, and the bytes of their texts. None if this
    /// sheet isn't at the index `nth` of the list.
    pub fn joined(&self, sheet: u32, nth: usize, most: u32) -> Option<(u32, Pieces<'_, 'r>)>
        requires most { 0 < most }
        ensures count { IfSome result (λ j. (0 < j.0) × (j.0 ≤ most)) }
        ensures row { IfSome result (λ j. sheets_of (take j.0 (drop nth self.now)) ≡ range_with_len sheet j.0) }
        ensures text { IfSome result (λ j. j.1 ≡ joined_texts (take j.0 (drop nth self.now))) }
        ensures found { IfSome result (λ j. slice_get (sheets_of self.now) nth ≡ Some sheet) }
        ensures none { IsNone result → slice_get (sheets_of self.now) nth ≢ Some sheet }
    {
        if nth >= self.parts.len() {
            return None;
        }
        if self.parts[nth].sheet != sheet {
            return None;
        }
        Some(neighbours(self.own.as_slice(), self.parts.as_slice(), sheet, nth, most))
    }
}

/// The text of this sheet, which is at the index `nth`, and then the texts of the sheets that follow it in number and in memory. Returns the number
/// of these sheets, which is at most `most`, and the bytes of their texts. A text with borrowed slices is returned alone.
fn neighbours<'p, 'r>(
    own: &'p [u8],
    parts: &'p [TextPart<'r>],
    sheet: u32,
    nth: usize,
    most: u32,
) -> (u32, Pieces<'p, 'r>)
    requires nth { nth < length parts.now }
    requires most { 0 < most }
    requires parts { AreIn own.now parts.now }
    requires sheet { slice_get (sheets_of (texts_in own.now parts.now)) nth ≡ Some sheet }
    ensures count { (0 < result.0) × (result.0 ≤ most) }
    ensures row { sheets_of (take result.0 (drop nth (texts_in own.now parts.now))) ≡ range_with_len sheet result.0 }
    ensures text { result.1 ≡ joined_texts (take result.0 (drop nth (texts_in own.now parts.now))) }
{
    let part = &parts[nth];
    let first = u64::from(sheet);
    let start = part.start;
    let slices = part.slices.as_slice();
    let mut end = part.end;
    let mut count = 1;
    for next in nth + 1..parts.len() {
        let part = &parts[next];
        if count == most
            || u64::from(part.sheet) != first + u64::from(count)
            || part.start != end
            || !slices.is_empty()
            || !part.slices.is_empty()
        {
            break;
        }
        end = part.end;
        count += 1;
    }
    let text = Pieces {
        from: 0,
        own: &own[start..end],
        slices,
        next: 0,
    };
    (count, text)
}
