//! Finds the pages that a paper cuts, because their own papers are larger.
ghost use Rattle.std.specs.Prelude.{◌≡◌, ◌<◌, IfSome};
ghost use Rattle.papers.specs.Own.{covers as covers_it};
ghost use Rattle.papers.specs.Cuts.{cut_of, is_cut as is_cut_by, with_cut_page as with_one};

use crate::two_papers::{is_near, smallest_cover};
use lengths::Paper;

/// The pages of a document that a paper cuts.
#[derive(Clone, Copy)]
pub struct Cut {
    /// The first of these pages, counted from 0.
    pub first: usize,
    /// The last of these pages, counted from 0.
    pub last: usize,
    /// The number of these pages.
    pub pages: usize,
    /// The smallest paper that covers these pages' own papers.
    pub paper: Paper,
}

/// The pages that `paper` cuts. `own` has each page's own paper. A page is cut if `paper` doesn't cover the page's own
/// paper, and the two papers don't count as equal. Papers count as equal if their sides differ by at most 15 points.
/// None if no page is cut.
pub fn cut_by(paper: &Paper, own: &[Paper]) -> Option<Cut>
    ensures { result ≡ cut_of paper.now own.now }
{
    let mut cut = None;
    for (page, other) in own.iter().enumerate() {
        if is_cut(paper, other) {
            cut = Some(with_cut_page(cut, page, other));
        }
    }
    cut
}

/// `cut`, the cut pages found so far, with page `page` added. `paper` is this page's own paper.
fn with_cut_page(cut: Option<Cut>, page: usize, paper: &Paper) -> Cut
    requires few { IfSome cut (λ c. c.pages < usize.MAX) }
    ensures { result ≡ with_one cut page paper.now }
{
    match cut {
        None => Cut {
            first: page,
            last: page,
            pages: 1,
            paper: *paper,
        },
        Some(cut) => Cut {
            first: cut.first,
            last: page,
            pages: cut.pages + 1,
            paper: smallest_cover(&cut.paper, paper),
        },
    }
}

/// Whether `paper` cuts a page whose own paper is `own`.
pub(crate) fn is_cut(paper: &Paper, own: &Paper) -> bool
    ensures { result ≡ is_cut_by paper.now own.now }
{
    !covers(paper, own) && !is_near(paper, own)
}

/// Whether `paper` covers `other`: neither its width nor its height is smaller.
fn covers(paper: &Paper, other: &Paper) -> bool
    ensures { result ≡ covers_it paper.now other.now }
{
    other.width().get() <= paper.width().get() && other.height().get() <= paper.height().get()
}
