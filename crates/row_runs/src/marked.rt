//! The marks that are drawn on sheets.
ghost use Rattle.std.specs.Prelude.{◌≡◌, ◌≤◌, ◌++◌, IfOk};
ghost use Rattle.dressing.specs.Ruled.{note_lines as note_lines_of};
ghost use Rattle.dressing.specs.Strokes.{cut_marks as cut_marks_of, fold_marks as fold_marks_of, outer_cut_marks as outer_cut_marks_of};
ghost use Rattle.row_runs.specs.Marked.{if_asked, strokes_in};
ghost use Rattle.row_runs.specs.Marked.{tile_room as tile_room_of};
ghost use Rattle.row_runs.specs.Sheets.{MayBeLaid};

use crate::reading::tiles_of;
use crate::sheet_request::Laying;
use dressing::{Marks, Stroke, cut_marks, fold_marks, note_lines, outer_cut_marks, tile_marks};
use layouts::{Room, Setting};
use row_sheets::{Poster, Scheme};
use std::alloc::{AllocError, Global};

/// The strokes that are drawn on each sheet of a laying, for the requested marks. Grids, cards, stacks, leaves and posters have cut marks, and
/// booklets have fold marks and cut marks. Only grids have lines for notes. Zines, specifications and pages that are left as they are have no strokes.
pub(crate) fn strokes_of(
    alloc: Global,
    marks: Marks,
    laying: &Laying<'_>,
) -> Result<Vec<Stroke>, AllocError>
    requires { MayBeLaid laying.now }
    ensures { IfOk result (λ strokes. strokes.items ≡ strokes_in marks laying.now) }
{
    match laying {
        Laying::InCells { setting, scheme } => match scheme {
            Scheme::Grid { .. } => cut_and_ruled(alloc, marks, setting),
            Scheme::Booklet { .. } => booklet_strokes(alloc, marks, setting),
            Scheme::Zine => Ok(Vec::new(alloc)),
            Scheme::Cards { .. } | Scheme::Stack { .. } | Scheme::Leaves => {
                cut_if(alloc, marks.cut, setting)
            }
        },
        Laying::Poster { poster } if marks.cut => {
            tile_marks(alloc, &tile_room(poster), tiles_of(poster), poster.overlap)
        }
        Laying::AsTheyAre { .. } | Laying::BySpec { .. } | Laying::Poster { .. } => Ok(Vec::new(
            alloc,
        )),
    }
}

/// The room of one sheet of a poster: its paper and the poster's margins, without gutters.
pub(crate) fn tile_room(poster: &Poster) -> Room
    requires { poster.now.edge ≤ 10_000_000_000 }
    ensures { result ≡ tile_room_of poster.now }
{
    Room {
        paper: poster.sheet,
        left: poster.edge,
        right: poster.edge,
        bottom: poster.edge,
        top: poster.edge,
        gutter_across: 0,
        gutter_up: 0,
        trim: 0,
    }
}

/// The strokes on each side of a booklet's leaves: fold marks and cut marks around both halves, each if requested.
fn booklet_strokes(
    alloc: Global,
    marks: Marks,
    setting: &Setting,
) -> Result<Vec<Stroke>, AllocError>
    ensures { IfOk result (λ strokes. strokes.items
        ≡ if_asked marks.fold fold_marks_of setting.now ++ if_asked marks.cut outer_cut_marks_of setting.now) }
{
    let mut strokes = fold_if(alloc, marks.fold, setting)?;
    let outer = outer_cut_if(alloc, marks.cut, setting)?;
    strokes.extend_from_slice(outer.as_slice())?;
    Ok(strokes)
}

/// The requested cut marks, followed by the requested lines for notes.
fn cut_and_ruled(alloc: Global, marks: Marks, setting: &Setting) -> Result<Vec<Stroke>, AllocError>
    ensures { IfOk result (λ strokes. strokes.items ≡ if_asked marks.cut cut_marks_of setting.now ++ if_asked marks.ruled note_lines_of setting.now) }
{
    let mut strokes = cut_if(alloc, marks.cut, setting)?;
    let lines = ruled_if(alloc, marks.ruled, setting)?;
    strokes.extend_from_slice(lines.as_slice())?;
    Ok(strokes)
}

fn cut_if(alloc: Global, asked: bool, setting: &Setting) -> Result<Vec<Stroke>, AllocError>
    ensures { IfOk result (λ strokes. strokes.items ≡ if_asked asked cut_marks_of setting.now) }
{
    if asked {
        cut_marks(alloc, &setting.room, setting.grid)
    } else {
        Ok(Vec::new(alloc))
    }
}

fn fold_if(alloc: Global, asked: bool, setting: &Setting) -> Result<Vec<Stroke>, AllocError>
    ensures { IfOk result (λ strokes. strokes.items ≡ if_asked asked fold_marks_of setting.now) }
{
    if asked {
        fold_marks(alloc, &setting.room, setting.grid)
    } else {
        Ok(Vec::new(alloc))
    }
}

fn outer_cut_if(alloc: Global, asked: bool, setting: &Setting) -> Result<Vec<Stroke>, AllocError>
    ensures { IfOk result (λ strokes. strokes.items ≡ if_asked asked outer_cut_marks_of setting.now) }
{
    if asked {
        outer_cut_marks(alloc, &setting.room, setting.grid)
    } else {
        Ok(Vec::new(alloc))
    }
}

pub(crate) fn ruled_if(
    alloc: Global,
    asked: bool,
    setting: &Setting,
) -> Result<Vec<Stroke>, AllocError>
    ensures { IfOk result (λ strokes. strokes.items ≡ if_asked asked note_lines_of setting.now) }
{
    if asked {
        note_lines(alloc, &setting.room, setting.grid)
    } else {
        Ok(Vec::new(alloc))
    }
}
