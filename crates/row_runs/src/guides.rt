//! Guides for a drawing of sheets: lines that show margins, cuts, folds and lines for notes.
ghost use Rattle.row_runs.specs.Sheets.{MayBeLaid};

use crate::marked::{ruled_if, tile_room};
use crate::sheet_request::Laying;
use dressing::Marks;
use layouts::{Room, Setting, from_far, gap_at, in_grains};
use lengths::{Grains, Paper};
use preview::{Guide, GuideKind};
use row_sheets::Scheme;
use std::alloc::{AllocError, Global};

/// The guides of a laying: its margins, the cuts of cards, stacks and leaves, the folds of booklets and zines, and the requested lines for notes of a
/// grid. Specifications and pages that are left as they are have no guides.
pub(crate) fn guides_of(
    alloc: Global,
    marks: Marks,
    laying: &Laying<'_>,
) -> Result<Vec<Guide>, AllocError>
    requires { MayBeLaid laying.now }
{
    let mut guides = Vec::new(alloc);
    match laying {
        Laying::AsTheyAre { .. } | Laying::BySpec { .. } => {}
        Laying::Poster { poster } => push_margin(&tile_room(poster), &mut guides)?,
        Laying::InCells { setting, scheme } => {
            push_margin(&setting.room, &mut guides)?;
            match scheme {
                Scheme::Grid { .. } => push_notes(alloc, marks, setting, &mut guides)?,
                Scheme::Booklet { .. } | Scheme::Zine => {
                    push_between(GuideKind::Fold, setting, &mut guides)?
                }
                Scheme::Cards { .. } | Scheme::Stack { .. } | Scheme::Leaves => {
                    push_between(GuideKind::Cut, setting, &mut guides)?
                }
            }
        }
    }
    Ok(guides)
}

/// Adds the guides of the four margins.
fn push_margin(room: &Room, guides: &mut Vec<Guide>) -> Result<(), AllocError> {
    let (kind, paper) = (GuideKind::Margin, &room.paper);
    let right = from_far(paper.width(), in_grains(room.right));
    let top = from_far(paper.height(), in_grains(room.top));
    guides.push(upright(kind, paper, in_grains(room.left)))?;
    guides.push(upright(kind, paper, right))?;
    guides.push(level(kind, paper, in_grains(room.bottom)))?;
    guides.push(level(kind, paper, top))?;
    Ok(())
}

/// Adds lines of this kind between the cells of a setting.
fn push_between(
    kind: GuideKind,
    setting: &Setting,
    guides: &mut Vec<Guide>,
) -> Result<(), AllocError> {
    let (room, grid) = (&setting.room, setting.grid);
    let paper = &room.paper;
    for k in 1..grid.across() {
        let x = gap_at(&room.along_width(), paper.width(), grid.across(), k);
        guides.push(upright(kind, paper, x))?;
    }
    for k in 1..grid.up() {
        let y = gap_at(&room.along_height(), paper.height(), grid.up(), k);
        guides.push(level(kind, paper, y))?;
    }
    Ok(())
}

/// Adds the lines for notes, if they are requested.
fn push_notes(
    alloc: Global,
    marks: Marks,
    setting: &Setting,
    guides: &mut Vec<Guide>,
) -> Result<(), AllocError> {
    for line in ruled_if(alloc, marks.ruled, setting)? {
        guides.push(Guide {
            kind: GuideKind::Note,
            start: line.start,
            end: line.end,
        })?;
    }
    Ok(())
}

/// A vertical line across the whole sheet, at this distance from the left edge, in grains.
fn upright(kind: GuideKind, paper: &Paper, x: Grains) -> Guide {
    Guide {
        kind,
        start: (x, Grains::ZERO),
        end: (x, paper.height()),
    }
}

/// A horizontal line across the whole sheet, at this distance from the lower edge, in grains.
fn level(kind: GuideKind, paper: &Paper, y: Grains) -> Guide {
    Guide {
        kind,
        start: (Grains::ZERO, y),
        end: (paper.width(), y),
    }
}
