//! The lines that report papers and draw marks and page numbers.
ghost use Rattle.std.specs.Prelude.{◌≡◌, IfOk};
ghost use Rattle.papers.specs.Reported.{reporting};
ghost use Rattle.sheet_text.specs.Dressings.{dress_in};
ghost use Rattle.dressing.specs.Numbered.{drawn_on};

use crate::paper_lines::header_lines;
use crate::reported::reported_papers;
use crate::{Stroke, mark_lines};
use sheet_plan::MadeSheets;
use sheet_text::{Numbers, SheetDress};
use std::alloc::{AllocError, Global};

/// The dress of an output with these sheets: the lines that the output has besides its pages. They report the papers of the sheets, and draw the
/// strokes and then the page numbers at the end of each sheet. Fails if memory is refused, or if there are 2^32 sheets or more.
pub fn dress_of(
    alloc: Global,
    sheets: &MadeSheets,
    strokes: &[Stroke],
    numbers: Option<Numbers>,
) -> Result<SheetDress, AllocError>
    ensures { IfOk result (λ dress. dress_in dress
        ≡ drawn_on (record { strokes = strokes.now; numbers = numbers }) (reporting sheets.now)) }
{
    let reported = reported_papers(alloc, sheets)?;
    let papers = reported.as_slice();
    Ok(SheetDress {
        header: header_lines(alloc, papers)?,
        reports_papers: papers.len() > 1,
        finish: mark_lines(alloc, strokes)?,
        numbers,
    })
}
