//! Finds where the pages and the trailer of a text begin, in one pass over the text.
ghost use Rattle.std.specs.Prelude.{◌≡◌, ◌+◌, ◌<◌, ◌≤◌, [], length, OnOk, IfOk, None};
ghost use Rattle.rules.specs.Run.{most_input_bytes};
ghost use Rattle.dsc.specs.Views.{GivesUnlessShort, unit_of, at_depth};
ghost use Rattle.dsc.specs.Faults.{reported_block_fault};
ghost use Rattle.dsc.specs.Filters.{is_dropped};
ghost use Rattle.dsc.specs.BodyStarts.{AreBodyStarts, noted};
ghost use Rattle.dsc.specs.declared.filters.Drops.TheVariants.{PageSetup};
ghost use Rattle.dsc.specs.Units.{units_of};
ghost use Rattle.dsc.specs.Marks.{marks_on, scan_on, noted_starts, noted_end, stop_at};

use crate::body_starts::BodyStarts;
use crate::errors::CutError;
use crate::keys::Meaning;
use crate::walk::{Walk, WalkStep};
use std::alloc::{AllocError, Global};

/// The most page starts that are stored: one more than the number of pages that a document may have. If there are more
/// pages, the pass still goes on to the end, because a faulty data block is reported rather than too many pages.
const MOST_STARTS: usize = 1_000_001;

/// The bytes at which the pages begin, and the byte at which the trailer begins once it has been found. Only the first
/// `MOST_STARTS` pages are stored.
#[derive(Drop)]
pub(crate) struct PageStarts {
    pub starts: Vec<u32>,
    stop: Option<usize>,
}

impl PageStarts {
    /// Notes a unit that begins at the byte `at`. Fails only if memory is refused.
    fn note(&mut self, meaning: Meaning, at: usize) -> Result<(), AllocError>
        requires { at ≤ most_input_bytes }
        ensures starts { OnOk result (self.new.starts.items
            ≡ noted_starts MOST_STARTS self.old.starts.items self.old.stop meaning.is_page meaning.is_trailer at) }
        ensures stop { OnOk result (self.new.stop
            ≡ noted_end self.old.starts.items self.old.stop meaning.is_trailer at) }
    {
        if self.stop.is_none() {
            if !self.starts.is_empty() && meaning.is_trailer {
                self.stop = Some(at);
            } else if meaning.is_page && self.starts.len() < MOST_STARTS {
                self.starts.push(at as u32)?;
            }
        }
        Ok(())
    }

    /// The byte at which the pages end: the start of the trailer, or `len`, the length of the text, if it has no
    /// trailer.
    pub fn stop_or(&self, len: usize) -> usize
        ensures { result ≡ stop_at self.now.stop len }
    {
        match self.stop {
            Some(at) => at,
            None => len,
        }
    }
}

/// Finds in one pass where the pages, the trailer and the bodies of the pages begin. Once over 1,000,000 pages are
/// found, bodies are no longer looked for. Refuses the text's first faulty data block.
pub(crate) fn scan(alloc: Global, text: &[u8]) -> Result<(PageStarts, Vec<u32>), CutError>
    requires { length text.now ≤ most_input_bytes }
    ensures marks { GivesUnlessShort (λ s. marks_on MOST_STARTS s.0.starts.items s.0.stop (length text.now) []) reported_block_fault
        result (scan_on MOST_STARTS [] None 0 0 text.now) }
    ensures bodies { IfOk result (λ s. length s.0.starts.items < MOST_STARTS
        → AreBodyStarts (units_of text.now) s.1.items) }
{
    let mut seen = PageStarts {
        starts: Vec::new(alloc),
        stop: None,
    };
    let mut bodies = BodyStarts::new(alloc);
    let mut walk = Walk::new(text);
    while !walk.is_done() {
        let step = walk.step()?;
        note_unit(&mut seen, &mut bodies, &step)?;
    }
    let bodies = bodies.into_starts()?;
    Ok((seen, bodies))
}

/// Notes the next unit. Once there are too many pages, no bodies are looked for.
fn note_unit(
    seen: &mut PageStarts,
    bodies: &mut BodyStarts,
    step: &WalkStep<'_>,
) -> Result<(), AllocError>
    requires { step.now.at + length step.now.unit.bytes.now ≤ most_input_bytes }
    ensures starts { OnOk result (seen.new.starts.items ≡ noted_starts MOST_STARTS seen.old.starts.items seen.old.stop
        step.now.meaning.is_page step.now.meaning.is_trailer step.now.at) }
    ensures stop { OnOk result (seen.new.stop
        ≡ noted_end seen.old.starts.items seen.old.stop step.now.meaning.is_trailer step.now.at) }
    ensures bodies { OnOk result (length seen.new.starts.items < MOST_STARTS → bodies.new
        ≡ noted bodies.old step.now.at (step.now.at + length step.now.unit.bytes.now)
        step.now.meaning.is_page step.now.meaning.is_trailer
        (is_dropped PageSetup bodies.old.was (at_depth step.now.depth (unit_of step.now.unit))) step.now.unit.bytes.now) }
{
    seen.note(step.meaning, step.at)?;
    if seen.starts.len() < MOST_STARTS {
        bodies.note(step)?;
    }
    Ok(())
}
