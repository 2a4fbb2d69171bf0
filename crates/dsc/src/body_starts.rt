//! Finds where the prepared bodies of pages begin, in the same pass that cuts the text.
ghost use Rattle.std.specs.Prelude.{◌≡◌, ◌+◌, ◌≤◌, length, OnOk, IfOk};
ghost use Rattle.rules.specs.Run.{most_input_bytes};
ghost use Rattle.dsc.specs.Views.{unit_of, at_depth};
ghost use Rattle.dsc.specs.Filters.{is_dropped};
ghost use Rattle.dsc.specs.BodyStarts.{none_sought, noted, with_page, body_start_after, starts_in, ends_line, closed};
ghost use Rattle.dsc.specs.declared.filters.Drops.TheVariants.{PageSetup};

use crate::filters::{Drops, drops_unit};
use crate::lines::is_line_end;
use crate::walk::WalkStep;
use std::alloc::{AllocError, Global};
use std::marker::Model;

/// For each page, the byte of the text at which its prepared body begins. A body has a start if lines are dropped only
/// at the start of its page, and the page ends with a line end. Everything in the page from that byte on is then kept.
/// 0 means that the body has no start, because no body begins at byte 0. A text has at most 2^30 bytes, so a `u32` can
/// hold each start.
#[derive(Drop)]
pub(crate) struct BodyStarts {
    // The starts of the bodies of all pages before the current one.
    found: Vec<u32>,
    // The start of the current page's body, or 0 if it has none.
    current: u32,
    // Whether the filter dropped the unit that was noted last.
    was_dropped: bool,
    // Whether a page has begun.
    in_pages: bool,
    // Whether the trailer has begun.
    ended: bool,
    // Whether the current page ends with a line end, as far as it has been read.
    line_ended: bool,
}

impl Model for BodyStarts {
    ghost use Rattle.dsc.specs.BodyStarts.{Sought};

    ghost Value = { Sought };

    ghost view = { λ b. record {
      found = b.found.items;
      current = b.current;
      was = b.was_dropped;
      in_pages = b.in_pages;
      ended = b.ended;
      line = b.line_ended;
    } };
}

impl BodyStarts {
    /// The state before the first unit of a text.
    pub fn new(alloc: Global) -> BodyStarts
        ensures { result ≡ none_sought }
    {
        BodyStarts {
            found: Vec::new(alloc),
            current: 0,
            was_dropped: false,
            in_pages: false,
            ended: false,
            line_ended: false,
        }
    }

    /// Notes the next unit of the text. Fails only if memory is refused.
    pub fn note(&mut self, step: &WalkStep<'_>) -> Result<(), AllocError>
        requires { step.now.at + length step.now.unit.bytes.now ≤ most_input_bytes }
        ensures { OnOk result (self.new ≡ noted self.old step.now.at (step.now.at + length step.now.unit.bytes.now)
            step.now.meaning.is_page step.now.meaning.is_trailer
            (is_dropped PageSetup self.old.was (at_depth step.now.depth (unit_of step.now.unit))) step.now.unit.bytes.now) }
    {
        let at = step.at as u32;
        let after = (step.at + step.unit.bytes.len()) as u32;
        let dropped = drops_unit(Drops::PageSetup, self.was_dropped, &step.unit, step.depth);
        self.was_dropped = dropped;
        if self.ended || (self.in_pages && step.meaning.is_trailer) {
            self.ended = true;
            return Ok(());
        }
        if step.meaning.is_page {
            return self.begin_page(after, step.unit.bytes);
        }
        self.line_ended = ends_line(self.line_ended, step.unit.bytes);
        self.current = moved(dropped, self.current, at, after);
        Ok(())
    }

    /// Notes a `%%Page:` line that ends just before the byte `after`. The line begins a page, and ends the page
    /// before it if there is one.
    fn begin_page(&mut self, after: u32, line: &[u8]) -> Result<(), AllocError>
        ensures { OnOk result (self.new ≡ with_page self.old after line.now) }
    {
        if self.in_pages {
            self.found.push(closed(self.line_ended, self.current))?;
        }
        self.in_pages = true;
        self.current = after;
        self.line_ended = ends_line(false, line);
        Ok(())
    }

    /// The start of each page's body, in the order of the pages. A start is 0 if the body has none.
    pub fn into_starts(self) -> Result<Vec<u32>, AllocError>
        ensures { IfOk result (λ v. v.items ≡ starts_in self) }
    {
        let BodyStarts {
            mut found,
            current,
            was_dropped: _,
            in_pages,
            ended: _,
            line_ended,
        } = self;
        if in_pages {
            found.push(closed(line_ended, current))?;
        }
        Ok(found)
    }
}

/// The start of the current page's body after a unit, which begins at the byte `at` and ends just before the byte
/// `after`. A kept unit leaves the start as it is. A dropped unit moves the start to `after` if nothing was kept
/// before it; otherwise the body has no start.
fn moved(dropped: bool, current: u32, at: u32, after: u32) -> u32
    ensures { result ≡ body_start_after dropped current at after }
{
    if !dropped {
        current
    } else if current == at {
        after
    } else {
        0
    }
}

/// The start of a body if its page ends with a line end, and 0 otherwise.
fn closed(line_ended: bool, start: u32) -> u32
    ensures { result ≡ closed line_ended start }
{
    if line_ended { start } else { 0 }
}

/// Whether a text ends with a line end once these bytes are added to it. `was` is the answer for the text before these
/// bytes, and stays the answer if there are none.
fn ends_line(was: bool, bytes: &[u8]) -> bool
    ensures { result ≡ ends_line was bytes.now }
{
    match bytes.last() {
        None => was,
        Some(byte) => is_line_end(*byte),
    }
}
