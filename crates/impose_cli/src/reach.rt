//! Pages that reach beyond the papers by which they are placed.
ghost use Rattle.std.specs.Prelude.{◌≡◌, IfOk};
ghost use Rattle.rules.specs.Parts.{bytes_of};
ghost use Rattle.papers.specs.Reach.{page_boxes};
ghost use Rattle.impose_cli.specs.Reaches as meaning;

use crate::taken::pages_taken;
use dsc::Document;
use lengths::Paper;
use papers::{PlacedPages, Reach, reach_beyond};
use std::alloc::{AllocError, Global};

/// The pages of a row that reach more than one point beyond `papers`, the papers by which they are placed. `own` has the papers that the pages have
/// without `--paper`. With `cut_apart`, pages that are cut by their paper in `papers` are left out, because they are reported separately. `None` if
/// no page is left.
pub(crate) fn reach_of_row(
    alloc: Global,
    document: &Document<'_>,
    row: &[Option<u32>],
    papers: &[Paper],
    own: &[Paper],
    cut_apart: bool,
) -> Result<Option<Reach>, AllocError>
    ensures { IfOk result (λ reach. reach
        ≡ meaning.reach_on cut_apart row.now papers.now own.now (page_boxes (bytes_of document.now) document.now)) }
{
    let taken = pages_taken(alloc, row, papers.len())?;
    Ok(reach_beyond(&PlacedPages {
        document,
        taken: taken.as_slice(),
        papers,
        own,
        cut_apart,
    }))
}
