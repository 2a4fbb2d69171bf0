//! The lines that an output has besides its pages, such as strokes and page numbers.
ghost use Rattle.std.specs.Prelude.{◌≡◌, ◌++◌, OnOk};
ghost use Rattle.rules.specs.Dress.{lines_text};
ghost use Rattle.sheet_text.specs.Dressings.{report_lines_if, with_numbers};

use crate::lines::Lines;
use crate::numbers::{Numbers, append_numbers};
use crate::paper_report::append_paper_report;
use crate::rope::Rope;
use lengths::Paper;
use std::alloc::AllocError;

/// The lines that an output has besides its pages: header lines, which come after the `%%Pages:` line, and lines at the start and the end of each
/// sheet. Only lines that are the same on all sheets are stored. The lines that differ from sheet to sheet are made when a sheet is written.
#[derive(Drop)]
pub struct SheetDress {
    /// The lines to add to the header.
    pub header: Lines,
    /// Whether each sheet has, after its `%%Page:` line, lines that report its paper and set the device's page size.
    pub reports_papers: bool,
    /// The lines that every sheet has at its end, before its page numbers and its `showpage`.
    pub finish: Lines,
    /// The page numbers, which are drawn after the lines of `finish`. None if pages aren't numbered.
    pub numbers: Option<Numbers>,
}

impl SheetDress {
    /// Appends the lines that report this paper at the start of a sheet. Appends nothing unless `reports_papers` is set. The only error is refused
    /// memory.
    pub(crate) fn append_start(&self, paper: &Paper, text: &mut Rope<'_>) -> Result<(), AllocError>
        ensures { OnOk result (text.new ≡ text.old ++ lines_text (report_lines_if self.now.reports_papers paper.now)) }
    {
        if self.reports_papers {
            append_paper_report(paper, text)?;
        }
        Ok(())
    }

    /// Appends the lines at the end of this sheet (counted from 0): the lines of `finish`, then the lines that draw the sheet's page numbers. The
    /// lines of `finish` are borrowed, not copied, if they have 4,096 bytes or more in all. The only error is refused memory.
    pub(crate) fn append_finish<'n>(
        &'n self,
        sheet: u32,
        text: &mut Rope<'n>,
    ) -> Result<(), AllocError>
        ensures { OnOk result (text.new ≡ text.old ++ lines_text (with_numbers self.now.numbers self.now.finish sheet)) }
    {
        text.append_borrowed(self.finish.text())?;
        match &self.numbers {
            Some(numbers) => append_numbers(numbers, sheet, text),
            None => Ok(()),
        }
    }
}
