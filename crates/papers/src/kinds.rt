//! Makes nearly equal papers equal. Programs round the sizes of one paper differently.
ghost use Rattle.std.specs.Prelude.{◌≡◌, ℕ, suc, ◌++◌, IfOk, OnOk};
ghost use Rattle.papers.specs.AsOne.{merge_near_sizes as counted_as_one, first_instead_of as first_instead, is_used as is_paper_used};
ghost use Rattle.papers.specs.AsOne.{apart_from, is_larger as is_larger_than, kind_of as kind_made, kinds as kinds_with, largest_of};
ghost use Rattle.papers.specs.AsOne.{kind_paper as paper_in};

use crate::two_papers::{is_near, smallest_cover};
use lengths::Paper;
use std::alloc::{AllocError, Global};

/// The most kinds that papers form. Each page is compared with all kinds, so a higher limit would cost time.
const MOST_KINDS: usize = 64;

/// A kind of paper: papers that count as equal to the largest of them.
#[derive(Clone, Copy)]
struct PaperKind {
    /// The largest paper of the kind. Each paper of the kind has sides that differ from those of this paper by at most
    /// 15 points.
    first: Paper,
    /// The smallest paper that covers all papers of the kind.
    paper: Paper,
}

/// Makes papers equal if their sizes differ only by rounding (docs/RULES.md, 12.4). `own` has the paper of each page,
/// and `taken` has the papers of the pages that are imposed.
///
/// The largest of the taken papers is the widest, and the highest of equally wide ones. It forms a kind with all taken
/// papers whose sides differ from its own by at most 15 points. Then the largest of the remaining papers forms the next
/// kind, up to 64 kinds. The result has, for each page, the smallest paper that covers the kind of the page's paper. A
/// paper that belongs to no kind stays as it is. Fails only if memory is refused.
pub fn merge_near_sizes(
    alloc: Global,
    taken: &[Paper],
    own: &[Paper],
) -> Result<Vec<Paper>, AllocError>
    ensures { IfOk result (λ papers. papers.items ≡ counted_as_one taken.now own.now) }
{
    let kinds = kinds_of(alloc, MOST_KINDS, taken)?;
    let mut papers = Vec::new(alloc);
    for paper in own {
        papers.push(paper_among(kinds.as_slice(), paper))?;
    }
    Ok(papers)
}

/// The paper of the first page, if there are pages and none of them has `paper` or a paper that counts as equal to it.
/// Otherwise `None`.
pub fn first_instead_of(paper: &Paper, own: &[Paper]) -> Option<Paper>
    ensures { result ≡ first_instead paper.now own.now }
{
    match own.first() {
        Some(first) if !is_used(paper, own) => Some(*first),
        _ => None,
    }
}

/// Whether a page has this paper, or a paper that counts as equal to it.
fn is_used(paper: &Paper, own: &[Paper]) -> bool
    ensures { result ≡ is_paper_used paper.now own.now }
{
    own.iter().any(|page| is_near(paper, page))
}

/// The kinds that these papers form, at most `room` of them. Fails only if memory is refused.
fn kinds_of(alloc: Global, room: usize, papers: &[Paper]) -> Result<Vec<PaperKind>, AllocError>
    ensures { IfOk result (λ kinds. kinds.items ≡ kinds_with room papers.now) }
{
    let mut kinds = Vec::new(alloc);
    let mut rest = Vec::new(alloc);
    rest.extend_from_slice(papers)?;
    for _ in 0..room {
        take_kind(&mut kinds, &mut rest)?;
    }
    Ok(kinds)
}

/// Moves the next kind from `rest`, which has the papers without a kind, to `kinds`. Does nothing if `rest` is empty.
fn take_kind(kinds: &mut Vec<PaperKind>, rest: &mut Vec<Paper>) -> Result<(), AllocError>
    ensures { OnOk result ((room : ℕ) → kinds.new.items ++ kinds_with room rest.new.items
        ≡ kinds.old.items ++ kinds_with (suc room) rest.old.items) }
{
    let Some(first) = largest(rest.as_slice()) else {
        return Ok(());
    };
    kinds.push(kind_of(&first, rest.as_slice()))?;
    keep_apart(rest, &first);
    Ok(())
}

/// Keeps only the papers that don't count as equal to `first`.
fn keep_apart(papers: &mut Vec<Paper>, first: &Paper)
    ensures { papers.new.items ≡ apart_from first.now papers.old.items }
{
    papers.retain(|paper| !is_near(paper, first));
}

/// The widest of these papers, and the highest of equally wide ones. None if there are no papers.
fn largest(papers: &[Paper]) -> Option<Paper>
    ensures { result ≡ largest_of papers.now }
{
    let (first, rest) = papers.split_first()?;
    let mut largest = *first;
    for paper in rest {
        if is_larger(paper, &largest) {
            largest = *paper;
        }
    }
    Some(largest)
}

/// Whether `paper` is wider than `other`, or as wide and higher.
fn is_larger(paper: &Paper, other: &Paper) -> bool
    ensures { result ≡ is_larger_than paper.now other.now }
{
    other.width().get() < paper.width().get()
        || (paper.width().get() == other.width().get()
            && other.height().get() < paper.height().get())
}

/// The kind that `first` forms with those of `papers` that count as equal to it.
fn kind_of(first: &Paper, papers: &[Paper]) -> PaperKind
    ensures { result ≡ kind_made first.now papers.now }
{
    let mut paper = *first;
    for other in papers {
        if is_near(other, first) {
            paper = smallest_cover(&paper, other);
        }
    }
    PaperKind {
        first: *first,
        paper,
    }
}

/// The paper that replaces `paper`: the paper of the first kind to which it belongs, or `paper` if it belongs to no
/// kind.
fn paper_among(kinds: &[PaperKind], paper: &Paper) -> Paper
    ensures { result ≡ paper_in kinds.now paper.now }
{
    for kind in kinds {
        if is_near(paper, &kind.first) {
            return kind.paper;
        }
    }
    *paper
}
