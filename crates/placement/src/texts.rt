//! The texts around a placed page. A public function appends its text as a whole or not at all.
ghost use Rattle.std.specs.Prelude.{◌≡◌, ◌+◌, ◌<◌, ◌≤◌, ◌++◌, ◌-ℤ◌, length, OnOk, OnErr, vec_len};
ghost use Rattle.std.specs.Prelude.{vec_capacity, take};
ghost use Rattle.rules.specs.Numbers.{scale_text, points_text};
ghost use Rattle.rules.specs.Placement.{matrix_text as text_of};
ghost use Rattle.rules.specs.Output.{Frame, framed, border_within, point_text, path_text, edge_text, border_text};
ghost use Rattle.rules.specs.Output.{opening_text as opening, closing_text as closing};
ghost use Rattle.pagespec.specs.Items.{item_of};
ghost use Rattle.placement.specs.Kept.{Keeps};
ghost use Rattle.placement.specs.Matrices.{matrix_value};
ghost use Rattle.placement.specs.Fronts.{scales_text, placing_text};

use super::matrix::Matrix;
use super::place::matrix_of;
use lengths::{Grains, Number, Paper, print_grains, print_points, print_scale};
use pagespec::Item;
use std::alloc::AllocError;
use std::marker::Model;

/// A coordinate of a path, in grains. It is a length or the difference of two lengths.
#[derive(Clone, Copy)]
struct Coordinate {
    grains: i128,
}

impl Model for Coordinate {
    ghost use Rattle.std.specs.Prelude.{ℤ, ◌*◌, ◌^◌, ◌≤◌, nat_abs};

    ghost Value = { ℤ };

    ghost view = { λ c. c.grains };

    ghost invariant = { λ c. nat_abs c.grains ≤ 2 * 10 ^ 23 };

    ghost inverse = { λ v. record { grains = v } };
}

impl Coordinate {
    fn of(length: Grains) -> Coordinate
        ensures { result ≡ length }
    {
        Coordinate {
            grains: length.get(),
        }
    }

    /// The length `to` minus the length `from`.
    fn between(from: Grains, to: Grains) -> Coordinate
        ensures { result ≡ to -ℤ from }
    {
        Coordinate {
            grains: to.get() - from.get(),
        }
    }
}

/// Appends the six numbers of a matrix in brackets. The first four numbers aren't rounded. The shift is in points, rounded to five decimals. If
/// memory is refused, nothing is appended.
pub fn matrix_text(matrix: &Matrix, out: &mut Vec<u8>) -> Result<(), AllocError>
    ensures appended { OnOk result (out.new.items ≡ out.old.items ++ text_of (matrix_value matrix.now)) }
    ensures unchanged { OnErr result (out.new.items ≡ out.old.items) }
    ensures full { OnErr result (vec_capacity out.old < vec_len out.old + length (text_of (matrix_value matrix.now))) }
    ensures capacity { vec_capacity out.old ≤ vec_capacity out.new }
{
    let len = out.len();
    let appended = append_matrix(matrix, out);
    undo_if_refused(appended, len, out)
}

/// Appends the text before a page that is placed by this item. It has a `save`, a `showpage` that does nothing, the matrix, and a clip to the page's
/// paper, which is placed with the page. If `border` has a line width, a line follows that draws a border along the edges of this paper. If memory is
/// refused, nothing is appended.
pub fn opening_text(
    item: &Item,
    paper: &Paper,
    border: Option<Grains>,
    out: &mut Vec<u8>,
) -> Result<(), AllocError>
    ensures appended { OnOk result (out.new.items ≡ out.old.items ++ opening (framed paper.now border) (item_of item.now)) }
    ensures unchanged { OnErr result (out.new.items ≡ out.old.items) }
    ensures full { OnErr result (vec_capacity out.old < vec_len out.old
        + length (opening (framed paper.now border) (item_of item.now))) }
    ensures capacity { vec_capacity out.old ≤ vec_capacity out.new }
{
    opening_within(item, paper, border, Grains::ZERO, out)
}

/// Appends the text that `opening_text` appends, but with the border `inset` away from each edge, inside the paper. The clip is to the whole paper.
/// If memory is refused, nothing is appended.
pub fn opening_within(
    item: &Item,
    paper: &Paper,
    border: Option<Grains>,
    inset: Grains,
    out: &mut Vec<u8>,
) -> Result<(), AllocError>
    ensures appended { let frame : Frame = record { paper = paper.now; border = border_within inset border } in
        OnOk result (out.new.items ≡ out.old.items ++ opening frame (item_of item.now)) }
    ensures unchanged { OnErr result (out.new.items ≡ out.old.items) }
    ensures full { let frame : Frame = record { paper = paper.now; border = border_within inset border } in
        OnErr result (vec_capacity out.old < vec_len out.old + length (opening frame (item_of item.now))) }
    ensures capacity { vec_capacity out.old ≤ vec_capacity out.new }
{
    let len = out.len();
    let appended = append_opening(item, paper, border, inset, out);
    undo_if_refused(appended, len, out)
}

/// Appends the text after a placed page. It restores the state that the `save` before the page kept. If memory is refused, nothing is appended.
pub fn closing_text(out: &mut Vec<u8>) -> Result<(), AllocError>
    ensures appended { OnOk result (out.new.items ≡ out.old.items ++ closing) }
    ensures unchanged { OnErr result (out.new.items ≡ out.old.items) }
    ensures full { OnErr result (vec_capacity out.old < vec_len out.old + length closing) }
    ensures capacity { vec_capacity out.old ≤ vec_capacity out.new }
{
    out.extend_from_slice(b"ImposeSave restore\n")
}

/// Shortens `out` to the length `len` if an append was refused. Returns the result of the append.
fn undo_if_refused(
    appended: Result<(), AllocError>,
    len: usize,
    out: &mut Vec<u8>,
) -> Result<(), AllocError>
    ensures same { result ≡ appended }
    ensures stays { OnOk result (out.new.items ≡ out.old.items) }
    ensures undone { OnErr result (out.new.items ≡ take len out.old.items) }
    ensures capacity { vec_capacity out.new ≡ vec_capacity out.old }
{
    if appended.is_err() {
        out.truncate(len);
    }
    appended
}

#[tactic(auto, using(crate::proofs::Keeping::keeps_more))]
fn append_opening(
    item: &Item,
    paper: &Paper,
    border: Option<Grains>,
    inset: Grains,
    out: &mut Vec<u8>,
) -> Result<(), AllocError>
    ensures appended { let frame : Frame = record { paper = paper.now; border = border_within inset border } in
        OnOk result (out.new.items ≡ out.old.items ++ opening frame (item_of item.now)) }
    ensures full { let frame : Frame = record { paper = paper.now; border = border_within inset border } in
        OnErr result (vec_capacity out.old < vec_len out.old + length (opening frame (item_of item.now))) }
    ensures kept { Keeps out.old out.new }
{
    append_placing(item, paper, out)?;
    append_edge(paper, out)?;
    append_plain_text(b" clip newpath\n", out)?;
    append_border(paper, border, inset, out)
}

/// Appends the `save`, the `showpage` that does nothing, and the matrix with its `concat`.
#[tactic(auto, using(crate::proofs::Keeping::keeps_more))]
fn append_placing(item: &Item, paper: &Paper, out: &mut Vec<u8>) -> Result<(), AllocError>
    ensures appended { OnOk result (out.new.items ≡ out.old.items ++ placing_text paper.now (item_of item.now)) }
    ensures full { OnErr result (vec_capacity out.old < vec_len out.old
        + length (placing_text paper.now (item_of item.now))) }
    ensures kept { Keeps out.old out.new }
{
    append_plain_text(
        b"userdict /ImposeSave save put\nuserdict /showpage {} put\n",
        out,
    )?;
    append_matrix(&matrix_of(item, paper), out)?;
    append_plain_text(b" concat\n", out)
}

#[tactic(auto, using(crate::proofs::Keeping::keeps_more))]
fn append_matrix(matrix: &Matrix, out: &mut Vec<u8>) -> Result<(), AllocError>
    ensures appended { OnOk result (out.new.items ≡ out.old.items ++ text_of (matrix_value matrix.now)) }
    ensures full { OnErr result (vec_capacity out.old < vec_len out.old + length (text_of (matrix_value matrix.now))) }
    ensures kept { Keeps out.old out.new }
{
    append_scales(matrix, out)?;
    append_length(b" ", matrix.tx, out)?;
    append_length(b" ", matrix.ty, out)?;
    append_plain_text(b"]", out)
}

/// Appends the opening bracket and the first four numbers of a matrix.
#[tactic(auto, using(crate::proofs::Keeping::keeps_more))]
fn append_scales(matrix: &Matrix, out: &mut Vec<u8>) -> Result<(), AllocError>
    ensures appended { OnOk result (out.new.items ≡ out.old.items ++ scales_text (matrix_value matrix.now)) }
    ensures full { OnErr result (vec_capacity out.old < vec_len out.old
        + length (scales_text (matrix_value matrix.now))) }
    ensures kept { Keeps out.old out.new }
{
    append_scale(b"[", matrix.a, out)?;
    append_scale(b" ", matrix.b, out)?;
    append_scale(b" ", matrix.c, out)?;
    append_scale(b" ", matrix.d, out)
}

/// Appends the line that draws a border at the distance `inset` inside the paper's edges, if `border` has a line width.
#[tactic(auto, using(crate::proofs::Keeping::keeps_more))]
fn append_border(
    paper: &Paper,
    border: Option<Grains>,
    inset: Grains,
    out: &mut Vec<u8>,
) -> Result<(), AllocError>
    ensures appended { OnOk result (out.new.items ≡ out.old.items ++ border_text paper.now (border_within inset border)) }
    ensures full { OnErr result (vec_capacity out.old < vec_len out.old
        + length (border_text paper.now (border_within inset border))) }
    ensures kept { Keeps out.old out.new }
{
    let Some(width) = border else {
        return Ok(());
    };
    append_length(b"gsave ", width, out)?;
    append_plain_text(b" setlinewidth ", out)?;
    append_inner(paper, inset, out)?;
    append_plain_text(b" stroke grestore\n", out)
}

/// Appends the path at the distance `inset` inside the paper's edges.
#[tactic(auto, using(crate::proofs::Keeping::keeps_more))]
fn append_inner(paper: &Paper, inset: Grains, out: &mut Vec<u8>) -> Result<(), AllocError>
    ensures appended { OnOk result (out.new.items ≡ out.old.items
        ++ path_text inset (paper.now.width -ℤ inset) (paper.now.height -ℤ inset)) }
    ensures full { OnErr result (vec_capacity out.old < vec_len out.old
        + length (path_text inset (paper.now.width -ℤ inset) (paper.now.height -ℤ inset))) }
    ensures kept { Keeps out.old out.new }
{
    let low = Coordinate::of(inset);
    let right = Coordinate::between(inset, paper.width());
    let top = Coordinate::between(inset, paper.height());
    append_path(low, right, top, out)
}

/// Appends the path along the paper's edges.
#[tactic(auto, using(crate::proofs::Keeping::keeps_more))]
fn append_edge(paper: &Paper, out: &mut Vec<u8>) -> Result<(), AllocError>
    ensures appended { OnOk result (out.new.items ≡ out.old.items ++ edge_text paper.now) }
    ensures full { OnErr result (vec_capacity out.old < vec_len out.old + length (edge_text paper.now)) }
    ensures kept { Keeps out.old out.new }
{
    let low = Coordinate::of(Grains::ZERO);
    let right = Coordinate::of(paper.width());
    let top = Coordinate::of(paper.height());
    append_path(low, right, top, out)
}

/// Appends the path around a rectangle. `low` is both the x coordinate of its left edge and the y coordinate of its lower edge.
#[tactic(auto, using(crate::proofs::Keeping::keeps_more))]
fn append_path(
    low: Coordinate,
    right: Coordinate,
    top: Coordinate,
    out: &mut Vec<u8>,
) -> Result<(), AllocError>
    ensures appended { OnOk result (out.new.items ≡ out.old.items ++ path_text low right top) }
    ensures full { OnErr result (vec_capacity out.old < vec_len out.old + length (path_text low right top)) }
    ensures kept { Keeps out.old out.new }
{
    append_corner(b"newpath ", low, low, out)?;
    append_corner(b" moveto ", right, low, out)?;
    append_corner(b" lineto ", right, top, out)?;
    append_corner(b" lineto ", low, top, out)?;
    append_plain_text(b" lineto closepath", out)
}

/// Appends a text and, after it, a corner of a path.
#[tactic(auto, using(crate::proofs::Keeping::keeps_more))]
fn append_corner(
    text: &[u8],
    x: Coordinate,
    y: Coordinate,
    out: &mut Vec<u8>,
) -> Result<(), AllocError>
    ensures appended { OnOk result (out.new.items ≡ out.old.items ++ (text.now ++ point_text x y)) }
    ensures full { OnErr result (vec_capacity out.old < vec_len out.old + length (text.now ++ point_text x y)) }
    ensures kept { Keeps out.old out.new }
{
    append_coordinate(text, x, out)?;
    append_coordinate(b" ", y, out)
}

/// Appends a text and, after it, a number as `print_scale` prints it.
#[tactic(auto, using(crate::proofs::Keeping::keeps_more))]
fn append_scale(text: &[u8], scale: Number, out: &mut Vec<u8>) -> Result<(), AllocError>
    ensures appended { OnOk result (out.new.items ≡ out.old.items ++ (text.now ++ scale_text scale)) }
    ensures full { OnErr result (vec_capacity out.old < vec_len out.old + length (text.now ++ scale_text scale)) }
    ensures kept { Keeps out.old out.new }
{
    append_plain_text(text, out)?;
    print_scale(scale, out)
}

/// Appends a text and, after it, a length in points.
#[tactic(auto, using(crate::proofs::Keeping::keeps_more))]
fn append_length(text: &[u8], grains: Grains, out: &mut Vec<u8>) -> Result<(), AllocError>
    ensures appended { OnOk result (out.new.items ≡ out.old.items ++ (text.now ++ points_text grains)) }
    ensures full { OnErr result (vec_capacity out.old < vec_len out.old + length (text.now ++ points_text grains)) }
    ensures kept { Keeps out.old out.new }
{
    append_plain_text(text, out)?;
    print_points(grains, out)
}

/// Appends a text and, after it, a coordinate in points.
#[tactic(auto, using(crate::proofs::Keeping::keeps_more))]
fn append_coordinate(text: &[u8], x: Coordinate, out: &mut Vec<u8>) -> Result<(), AllocError>
    ensures appended { OnOk result (out.new.items ≡ out.old.items ++ (text.now ++ points_text x)) }
    ensures full { OnErr result (vec_capacity out.old < vec_len out.old + length (text.now ++ points_text x)) }
    ensures kept { Keeps out.old out.new }
{
    append_plain_text(text, out)?;
    print_grains(x.grains, out)
}

/// Appends a text.
fn append_plain_text(text: &[u8], out: &mut Vec<u8>) -> Result<(), AllocError>
    ensures appended { OnOk result (out.new.items ≡ out.old.items ++ text.now) }
    ensures full { OnErr result (vec_capacity out.old < vec_len out.old + length text.now) }
    ensures kept { Keeps out.old out.new }
{
    out.extend_from_slice(text)
}
