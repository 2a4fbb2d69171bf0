//! The papers of the pages of a job.
use crate::dress::SheetDress;
use lengths::Paper;
use sheet_plan::MadeSheets;

/// The papers of the pages of a job. Either all pages have the same paper, or the sheets are made sheets, in which each page has a paper of its own.
/// Only made sheets have lines besides their pages.
#[derive(Drop)]
pub(crate) enum SheetPapers<'j> {
    One(Paper),
    Made(&'j MadeSheets, &'j SheetDress),
}
