//! Finds out whether a named paper is larger than the papers of all pages.
ghost use Rattle.std.specs.Prelude.{◌≡◌};
ghost use Rattle.std.specs.List.{reduce};
ghost use Rattle.papers.specs.Cuts.{is_cut};
ghost use Rattle.papers.specs.Own.{smallest_cover as covering_paper};
ghost use Rattle.impose_cli.specs.Loose as meaning;

use lengths::Paper;
use papers::{cut_by, smallest_cover};

/// The smallest paper that covers all of these, which are a row's own papers, if the paper `named` is larger.
pub(crate) fn loose_on(named: &Paper, papers: &[Paper]) -> Option<Paper>
    ensures { result ≡ meaning.loose_on named.now papers.now }
{
    let cover = cover_of(papers)?;
    if is_loose(named, &cover) {
        Some(cover)
    } else {
        None
    }
}

/// The smallest paper that covers all of these. None if there are none.
fn cover_of(papers: &[Paper]) -> Option<Paper>
    ensures { result ≡ reduce covering_paper papers.now }
{
    let (first, rest) = papers.split_first()?;
    let mut cover = *first;
    for paper in rest {
        cover = smallest_cover(&cover, paper);
    }
    Some(cover)
}

/// Whether the paper `named` is larger than this cover of pages: it would be cut by the cover, and cuts nothing of it.
fn is_loose(named: &Paper, cover: &Paper) -> bool
    ensures { result ≡ meaning.is_loose named.now cover.now }
{
    cuts(cover, named) && !cuts(named, cover)
}

/// Whether a page of the paper `other` is cut by `paper`.
fn cuts(paper: &Paper, other: &Paper) -> bool
    ensures { result ≡ is_cut paper.now other.now }
{
    cut_by(paper, &[*other]).is_some()
}
