//! Margins and gaps as people write them.
ghost use Rattle.std.specs.Prelude.{◌≡◌, ◌<◌, ◌≤◌, IfSome, Some, option_map, take};
ghost use Rattle.impose_words.specs.Edges as meaning;

use crate::sizes::length_in;
use layouts::Free;
use lengths::Grains;

/// The margins of a sheet, in grains.
#[derive(Clone, Copy)]
pub struct Margins {
    /// The margins along the four edges of the sheet.
    pub free: Free,
    /// The margin along the edge at which leaves are bound. `None` if this edge isn't named.
    pub inner: Option<Grains>,
}

/// The margins of the edges that a text names. An edge that isn't named has `None`.
#[derive(Clone, Copy)]
pub(crate) struct Edges {
    pub left: Option<Grains>,
    pub right: Option<Grains>,
    pub top: Option<Grains>,
    pub bottom: Option<Grains>,
    pub inner: Option<Grains>,
}

impl Edges {
    /// The margins of a text that names no edge.
    fn none() -> Edges
        ensures { result ≡ meaning.no_edges }
    {
        Edges {
            left: None,
            right: None,
            top: None,
            bottom: None,
            inner: None,
        }
    }

    /// The margins of these edges, with 0 along each of the four edges that isn't named. Without a named inner edge there is no inner margin.
    fn margins(&self) -> Margins
        ensures { result ≡ meaning.along_edges self.now }
    {
        let free = Free {
            left: self.left.unwrap_or(Grains::ZERO),
            right: self.right.unwrap_or(Grains::ZERO),
            bottom: self.bottom.unwrap_or(Grains::ZERO),
            top: self.top.unwrap_or(Grains::ZERO),
            ..Free::none()
        };
        Margins {
            free,
            inner: self.inner,
        }
    }
}

impl Margins {
    /// These margins along the four edges, without an inner margin.
    pub fn of(free: Free) -> Margins
        ensures { result ≡ meaning.margins_in free }
    {
        Margins { free, inner: None }
    }
}

/// The gaps that the text names: one length for both directions, or a list of two lengths. The first length is the gap between cells side by side,
/// the second is the gap between cells one above another. `None` for another text.
pub fn gaps_named(text: &str) -> Option<Free>
    ensures { result ≡ meaning.gaps_named text.now }
{
    let (lengths, count) = lengths_named(text)?;
    gaps_by(&lengths[..count])
}

fn gaps_by(lengths: &[Grains]) -> Option<Free>
    ensures { result ≡ meaning.gaps_by lengths.now }
{
    let (across, up) = match lengths {
        [all] => (*all, *all),
        [across, up] => (*across, *up),
        _ => return None,
    };
    Some(Free {
        across,
        up,
        ..Free::none()
    })
}

/// The margins that the text names. The text is one length for all edges; two lengths, the first for left and right, the second for top and bottom;
/// four lengths, clockwise from the top; or edges by name, such as `left=2cm,top=1cm`. `None` for another text.
pub fn margins_named(text: &str) -> Option<Margins>
    ensures { result ≡ meaning.margins_named text.now }
{
    if cut_at(text, '=').is_some() {
        return edges_named(text).map(|edges| edges.margins());
    }
    let (lengths, count) = lengths_named(text)?;
    margins_by(&lengths[..count]).map(|free| Margins::of(free))
}

/// The lengths that a list of up to four names, and their number. `None` for another text.
fn lengths_named(text: &str) -> Option<([Grains; 4], usize)>
    ensures count { IfSome result (λ l. l.1 ≤ 4) }
    ensures lengths { option_map (λ l. take l.1 l.0) result ≡ meaning.lengths_named text.now }
{
    let is_list = cut_at(text, ',').is_some();
    let mut lengths = [Grains::ZERO; 4];
    let mut count = 0usize;
    for part in text.split(',') {
        if count == 4 {
            return None;
        }
        lengths[count] = length_in(part, is_list)?;
        count += 1;
    }
    Some((lengths, count))
}

fn margins_by(lengths: &[Grains]) -> Option<Free>
    ensures { result ≡ meaning.margins_by lengths.now }
{
    let (top, right, bottom, left) = match lengths {
        [all] => (*all, *all, *all, *all),
        [sides, ends] => (*ends, *sides, *ends, *sides),
        [top, right, bottom, left] => (*top, *right, *bottom, *left),
        _ => return None,
    };
    Some(Free {
        top,
        right,
        bottom,
        left,
        ..Free::none()
    })
}

/// The edges that a list names, each with its margin. `None` if a part of the list isn't an edge with a margin, or names an edge again.
fn edges_named(text: &str) -> Option<Edges>
    ensures { result ≡ meaning.edges_named text.now }
{
    let is_list = cut_at(text, ',').is_some();
    let mut edges = Edges::none();
    for part in text.split(',') {
        edges = edge_in(edges, part, is_list)?;
    }
    Some(edges)
}

/// These edges, and one more edge that the text names with its margin, such as `left=2cm`. The margin needs a unit, unless it is 0 and the text isn't
/// part of a list (`is_listed`). `None` for another text, and for an edge that already has a margin.
fn edge_in(edges: Edges, text: &str, is_listed: bool) -> Option<Edges>
    ensures { result ≡ meaning.edge_in is_listed (Some edges) text.now }
{
    let (name, text) = cut_at(text, '=')?;
    let margin = length_in(text, is_listed)?;
    with_edge(edges, name, margin)
}

/// These edges, with this margin for the edge of this name. `None` if no edge has the name, or if the edge already has a margin.
fn with_edge(edges: Edges, name: &str, margin: Grains) -> Option<Edges>
    ensures { result ≡ meaning.with_edge edges name.now margin }
{
    let mut edges = edges;
    match name {
        "inner" => edges.inner = once(edges.inner, margin)?,
        "left" => edges.left = once(edges.left, margin)?,
        "right" => edges.right = once(edges.right, margin)?,
        "top" => edges.top = once(edges.top, margin)?,
        "bottom" => edges.bottom = once(edges.bottom, margin)?,
        _ => return None,
    }
    Some(edges)
}

/// This margin, for an edge whose margin was `before`. `None` if the edge already had a margin.
fn once(before: Option<Grains>, margin: Grains) -> Option<Option<Grains>>
    ensures { result ≡ meaning.once before margin }
{
    before.is_none().then_some(Some(margin))
}

/// The text before the first character `at`, and the text after that character. `None` if the text lacks the character.
fn cut_at(text: &str, at: char) -> Option<(&str, &str)>
    requires { at < 128 }
    ensures { option_map (λ x. (x.0.now, x.1.now)) result ≡ meaning.cut_at at text.now }
{
    text.split_once(at)
}
