//! PostScript lines that draw strokes.
ghost use Rattle.std.specs.Prelude.{◌≡◌, ◌++◌, ◌∷◌, [], IfOk, OnOk, map};
ghost use Rattle.sheet_text.specs.PageNumbers.{number_point_text};
ghost use Rattle.dressing.specs.Drawn.{mark_lines as lines_of, stroke_line};

use crate::strokes::Stroke;
use lengths::{Grains, print_points};
use sheet_text::Lines;
use std::alloc::{AllocError, Global};

/// The PostScript lines that draw these strokes: one line for each, after a line that sets their style and before one that restores the old style.
/// Without strokes there are no lines.
pub fn mark_lines(alloc: Global, strokes: &[Stroke]) -> Result<Lines, AllocError>
    ensures { IfOk result (λ lines. lines ≡ lines_of strokes.now) }
{
    let mut lines = Lines::new(alloc);
    if strokes.is_empty() {
        return Ok(lines);
    }
    lines.push(b"gsave 0 setgray .25 setlinewidth [] 0 setdash")?;
    push_strokes(alloc, &mut lines, strokes)?;
    lines.push(b"grestore")?;
    Ok(lines)
}

fn push_strokes(alloc: Global, lines: &mut Lines, strokes: &[Stroke]) -> Result<(), AllocError>
    ensures { OnOk result (lines.new ≡ lines.old ++ map stroke_line strokes.now) }
{
    for stroke in strokes {
        push_stroke(alloc, lines, stroke)?;
    }
    Ok(())
}

/// Adds the line that draws this stroke.
fn push_stroke(alloc: Global, lines: &mut Lines, stroke: &Stroke) -> Result<(), AllocError>
    ensures { OnOk result (lines.new ≡ lines.old ++ stroke_line stroke.now ∷ []) }
{
    let mut line = Vec::new(alloc);
    line.extend_from_slice(b"newpath ")?;
    append_point(stroke.start.0, stroke.start.1, &mut line)?;
    line.extend_from_slice(b" moveto ")?;
    append_point(stroke.end.0, stroke.end.1, &mut line)?;
    line.extend_from_slice(b" lineto stroke")?;
    lines.push(line.as_slice())?;
    Ok(())
}

/// Appends a point's coordinates, in points.
fn append_point(x: Grains, y: Grains, line: &mut Vec<u8>) -> Result<(), AllocError>
    ensures { OnOk result (line.new.items ≡ line.old.items ++ number_point_text x y) }
{
    print_points(x, line)?;
    line.extend_from_slice(b" ")?;
    print_points(y, line)?;
    Ok(())
}
