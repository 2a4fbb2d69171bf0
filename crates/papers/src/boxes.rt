//! Reads bounding boxes, and derives papers from them.
ghost use Rattle.std.specs.Prelude.{◌≡◌, ◌+ℤ◌};
ghost use Rattle.dsc.specs.Fields.{fields_in};
ghost use Rattle.papers.specs.Media as meaning;

use crate::fields::{is_zero, points_of};
use dsc::next_field;
use lengths::{Grains, Paper};

/// The greatest difference, in grains, between two sides that count as equal: 15 points. Programs round the sizes of
/// one paper differently.
const NEARNESS: i128 = 15 * 127_000_000_000;

/// The number of grains in a point. A paper that a comment or a setup gives has no side shorter than a point.
const ONE_POINT: i128 = 127_000_000_000;

/// The number of grains in 100,000 points. A paper that has a box in its middle has shorter sides.
const TOO_LONG: i128 = 100_000 * ONE_POINT;

/// The edges of a bounding box, in grains from the point 0 0 of the page.
#[derive(Clone, Copy)]
pub struct Edges {
    pub left: Grains,
    pub bottom: Grains,
    pub right: Grains,
    pub top: Grains,
}

/// The paper that a bounding box gives (docs/RULES.md, 12.2). If the box begins at 0 0, its right edge is the paper's
/// width, and its top edge the height. Any other box must begin neither left of 0 nor below 0, and must reach more than
/// 15 points past the right or the top side of `paper`, which is the paper that counts without a box. Such a box is in
/// the middle of the paper that it gives. None if the box gives no paper.
pub fn paper_of_box(paper: &Paper, value: &[u8]) -> Option<Paper>
    ensures { result ≡ meaning.paper_of_box paper.now (fields_in value.now) }
{
    match box_paper(value) {
        Some(own) => Some(own),
        None => paper_beyond(paper, &edges_of(value)?),
    }
}

/// The paper of a box that begins at 0 0: its width is the right edge, and its height the top edge. The value has the
/// fields left, bottom, right and top; further fields aren't read. None if the box begins elsewhere, or if its sides
/// can't be those of a paper.
pub(crate) fn box_paper(value: &[u8]) -> Option<Paper>
    ensures { result ≡ meaning.box_paper (fields_in value.now) }
{
    let (left, rest) = next_field(value)?;
    let (bottom, rest) = next_field(rest)?;
    let (right, rest) = next_field(rest)?;
    let (top, _) = next_field(rest)?;
    if is_zero(points_of(left)) && is_zero(points_of(bottom)) {
        paper_with_sides(points_of(right), points_of(top))
    } else {
        None
    }
}

/// The paper that has a box with these edges in its middle. None if the box doesn't reach past `paper` by more than 15
/// points, if it begins left of 0 or below 0, or if there is no such paper.
fn paper_beyond(paper: &Paper, edges: &Edges) -> Option<Paper>
    ensures { result ≡ meaning.paper_beyond paper.now edges.now }
{
    if edges.left.get() < 0 || edges.bottom.get() < 0 {
        return None;
    }
    if reaches_over(paper, edges) {
        paper_round(edges)
    } else {
        None
    }
}

/// Whether a box reaches past a paper by more than 15 points, on the right or at the top.
fn reaches_over(paper: &Paper, edges: &Edges) -> bool
    ensures { result ≡ meaning.reaches_over paper.now edges.now }
{
    is_past(paper.width(), edges.right) || is_past(paper.height(), edges.top)
}

/// Whether an edge lies more than 15 points past the end of a side.
fn is_past(side: Grains, edge: Grains) -> bool
    ensures { result ≡ meaning.is_past side edge }
{
    side.get() + NEARNESS < edge.get()
}

/// The paper that has a box in its middle: the strips to the left and to the right of the box are equally wide, and the
/// strips above and below it are equally high. None if a side of this paper is shorter than a point, or has 100,000
/// points or more.
fn paper_round(edges: &Edges) -> Option<Paper>
    ensures { result ≡ meaning.paper_round edges.now }
{
    shorter_paper(
        length_sum(edges.left, edges.right),
        length_sum(edges.bottom, edges.top),
    )
}

/// The sum of two lengths, in grains.
fn length_sum(one: Grains, other: Grains) -> i128
    ensures { result ≡ one +ℤ other }
{
    one.get() + other.get()
}

/// The edges of a box, from the fields left, bottom, right and top; further fields aren't read. None if one of the
/// four is missing or isn't a number of points.
pub(crate) fn edges_of(value: &[u8]) -> Option<Edges>
    ensures { result ≡ meaning.edges_of (fields_in value.now) }
{
    let (left, rest) = next_field(value)?;
    let (bottom, rest) = next_field(rest)?;
    let (right, rest) = next_field(rest)?;
    let (top, _) = next_field(rest)?;
    Some(Edges {
        left: points_of(left)?,
        bottom: points_of(bottom)?,
        right: points_of(right)?,
        top: points_of(top)?,
    })
}

/// The paper with these sides. None if a side is missing, is shorter than a point, or is too long for a paper.
pub(crate) fn paper_with_sides(width: Option<Grains>, height: Option<Grains>) -> Option<Paper>
    ensures { result ≡ meaning.paper_meant width height }
{
    paper_of_sides(width?.get(), height?.get())
}

/// The paper with these sides in grains. None if a side is shorter than a point, or too long for a paper.
fn paper_of_sides(width: i128, height: i128) -> Option<Paper>
    ensures { result ≡ meaning.paper_or_error width height }
{
    if width < ONE_POINT || height < ONE_POINT {
        return None;
    }
    Paper::new(Grains::new(width)?, Grains::new(height)?)
}

/// The paper with these sides in grains. None if a side is shorter than a point, or has 100,000 points or more.
fn shorter_paper(width: i128, height: i128) -> Option<Paper>
    ensures { result ≡ meaning.shorter_paper width height }
{
    if width < TOO_LONG && height < TOO_LONG {
        paper_of_sides(width, height)
    } else {
        None
    }
}
