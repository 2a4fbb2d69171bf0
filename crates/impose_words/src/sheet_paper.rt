//! The paper of a request's sheets.
ghost use Rattle.std.specs.Prelude.{◌≡◌};
ghost use Rattle.impose_words.specs.SheetPapers as meaning;

use crate::request::{ImposeRequest, Layout};
use lengths::Paper;

impl ImposeRequest {
    /// The paper of the sheets for pages of `page_paper`. It is the paper that the command line names for sheets, if it names one. Otherwise it is
    /// `page_paper`, held upright for a booklet.
    pub fn sheet_paper_for(&self, page_paper: &Paper) -> Paper
        ensures { result ≡ meaning.sheet_paper_for self.now.layout self.now.sheet_paper page_paper.now }
    {
        self.sheet_paper
            .unwrap_or(paper_for_pages(&self.layout, page_paper))
    }
}

fn paper_for_pages(layout: &Layout, page_paper: &Paper) -> Paper
    ensures { result ≡ meaning.paper_for_pages layout.now page_paper.now }
{
    match layout {
        Layout::Booklet { .. } => held_upright(page_paper),
        _ => *page_paper,
    }
}

/// This paper, turned if it is wider than it is high.
fn held_upright(paper: &Paper) -> Paper
    ensures { result ≡ meaning.held_upright paper.now }
{
    if paper.height().get() < paper.width().get() {
        paper.turned()
    } else {
        *paper
    }
}
