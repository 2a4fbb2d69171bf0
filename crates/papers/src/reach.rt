//! Finds pages that reach beyond the papers for which they are placed.
ghost use Rattle.std.specs.Prelude.{◌≡◌, ◌<◌, ◌+ℤ◌, false, codes, get_or, int_lt, length, map, option_and_then, option_map, IfOk, IfSome, None, Some};
ghost use Rattle.rules.specs.Parts.{bytes_of, pages};
ghost use Rattle.dsc.specs.Fields.{fields_in};
ghost use Rattle.papers.specs.Media.{comment_fields, edges_of as edges_told};
ghost use Rattle.papers.specs.Comments.{head_of};
ghost use Rattle.papers.specs.Reach as meaning;

use crate::boxes::{Edges, edges_of};
use crate::cuts::is_cut;
use crate::media::box_of;
use crate::page_heads::{after_first_line, value_in_head};
use dsc::{Document, header_len};
use lengths::{Grains, Paper};

/// The edges of a page's own `%%PageBoundingBox:`, or else of the document's box `other`. The document's box isn't used
/// if the page names a medium. None if there is no such box, or if one of its edges is missing or isn't a number.
fn page_box(page: &[u8], other: Option<&[u8]>) -> Option<Edges>
    ensures { result ≡ meaning.page_box (option_map (λ v. fields_in v.now) other.entry) page.now }
{
    let head = after_first_line(page);
    match value_in_head(head, b"%%PageBoundingBox", b"%%PageBoundingBox:") {
        Some(own) => edges_of(own),
        None => unless_medium(head, other).and_then(edges_of),
    }
}

/// The document's box `other`, unless the comments of the page name a medium. If a document has several media, its box
/// covers all of them. None if a medium is named, or if there is no such box.
fn unless_medium<'t>(head: &[u8], other: Option<&'t [u8]>) -> Option<&'t [u8]>
    ensures { option_map (λ v. fields_in v.now) result ≡ meaning.unless_named
        (comment_fields (codes "%%PageMedia") (head_of (length head.now) head.now)) (option_map (λ v. fields_in v.now) other.entry) }
{
    match value_in_head(head, b"%%PageMedia", b"%%PageMedia:") {
        Some(_) => None,
        None => other,
    }
}

/// The pages of a document, each with the paper for which it is placed.
#[derive(Clone, Copy)]
pub struct PlacedPages<'p, 'd> {
    /// The document, which gives the box of each page: the page's own, or else the document's. The document's box
    /// isn't used for a page that names a medium.
    pub document: &'p Document<'d>,
    /// For each page, whether it is taken for a sheet.
    pub taken: &'p [bool],
    /// For each page, the paper for which it is placed.
    pub papers: &'p [Paper],
    /// For each page, its own paper.
    pub own: &'p [Paper],
    /// Whether `reach_beyond` leaves out each page that is cut by the paper for which it is placed. `cut_by` reports
    /// such pages.
    pub cut_apart: bool,
}

/// The pages that reach beyond the papers for which they are placed.
#[derive(Clone, Copy)]
pub struct Reach {
    /// The first of these pages, counted from 0.
    pub first: usize,
    /// The paper for which the first of these pages is placed.
    pub paper: Paper,
    /// The edges to which the first of these pages reaches.
    pub edges: Edges,
    /// The number of these pages.
    pub pages: usize,
}

/// The taken pages that reach more than one point beyond the paper for which they are placed. A page reaches as far as
/// its box or, if the paper cuts the page, as far as its own paper. Cut pages are left out if `cut_apart` is true. None
/// if there are no such pages.
pub fn reach_beyond(pages: &PlacedPages<'_, '_>) -> Option<Reach>
    ensures { result ≡ meaning.reach_of (meaning.placing pages.now.taken.now pages.now.own.now
        (meaning.page_boxes (bytes_of pages.now.document.now) pages.now.document.now) pages.now.cut_apart) pages.now.papers.now }
{
    let text = pages.document.text();
    let (header, _) = text.split_at(header_len(text));
    reach_with(pages, box_of(header, text))
}

/// The pages that `reach_beyond` returns, if `other` is the document's box.
fn reach_with(pages: &PlacedPages<'_, '_>, other: Option<&[u8]>) -> Option<Reach>
    ensures { result ≡ meaning.reach_of (meaning.placing pages.now.taken.now pages.now.own.now
        (meaning.boxes_or (option_map (λ v. fields_in v.now) other.entry) pages.now.document.now) pages.now.cut_apart)
        pages.now.papers.now }
{
    let papers = pages.papers;
    let mut reach = None;
    for (page, paper) in papers.iter().enumerate() {
        reach = with_if_beyond(reach, page, paper, extent_at(pages, other, page, paper));
    }
    reach
}

/// `reach`, the pages found so far, with page `page` added if one of `edges` lies more than one point outside `paper`.
fn with_if_beyond(
    reach: Option<Reach>,
    page: usize,
    paper: &Paper,
    edges: Option<Edges>,
) -> Option<Reach>
    requires few { IfSome reach (λ r. r.pages < usize.MAX) }
    ensures { result ≡ meaning.with_all reach (meaning.if_beyond page paper.now edges) }
{
    match edges {
        Some(edges) if is_beyond(paper, &edges) => Some(with_reaching_page(
            reach, page, paper, edges,
        )),
        _ => reach,
    }
}

/// `reach`, the pages found so far, with page `page` added. `paper` and `edges` are kept if no page was found before.
fn with_reaching_page(reach: Option<Reach>, page: usize, paper: &Paper, edges: Edges) -> Reach
    requires few { IfSome reach (λ r. r.pages < usize.MAX) }
    ensures { result ≡ meaning.with_reaching_page reach (page, paper.now, edges) }
{
    match reach {
        None => Reach {
            first: page,
            paper: *paper,
            edges,
            pages: 1,
        },
        Some(reach) => Reach {
            pages: reach.pages + 1,
            ..reach
        },
    }
}

/// The edges to which a page reaches: those of its box or, if the page is cut, those of its own paper. `other` is the
/// document's box. None if the page isn't taken, if it is cut and left out, or if it isn't cut and has no box.
fn extent_at(
    pages: &PlacedPages<'_, '_>,
    other: Option<&[u8]>,
    page: usize,
    paper: &Paper,
) -> Option<Edges>
    ensures { result ≡ meaning.extent (meaning.placing pages.now.taken.now pages.now.own.now
        (meaning.boxes_or (option_map (λ v. fields_in v.now) other.entry) pages.now.document.now) pages.now.cut_apart) page paper.now }
{
    if !is_taken(pages.taken, page) {
        return None;
    }
    let own = own_at(pages.own, page, paper);
    if !is_cut(paper, &own) {
        box_at(pages.document, other, page)
    } else if pages.cut_apart {
        None
    } else {
        paper_edges(&own)
    }
}

/// Whether this page is taken. Pages are counted from 0, and a page after the end of `taken` isn't taken.
fn is_taken(taken: &[bool], page: usize) -> bool
    ensures { result ≡ get_or taken.now page false }
{
    matches!(taken.get(page), Some(true))
}

/// This page's own paper, or `other` if there is no such page. Pages are counted from 0.
fn own_at(own: &[Paper], page: usize, other: &Paper) -> Paper
    ensures { result ≡ get_or own.now page other.now }
{
    *own.get(page).unwrap_or(other)
}

/// The edges of the box of this page, as `page_box` finds them if `other` is the document's box. Pages are counted from
/// 0. None if the page has no box, or if there is no such page.
fn box_at(document: &Document<'_>, other: Option<&[u8]>, page: usize) -> Option<Edges>
    ensures { result
        ≡ get_or (meaning.boxes_or (option_map (λ v. fields_in v.now) other.entry) document.now) page None }
{
    if page < document.pages() as usize {
        page_box(document.page(page as u32), other)
    } else {
        None
    }
}

/// The edges of a paper whose lower left corner is at 0 0. The result is never None.
fn paper_edges(paper: &Paper) -> Option<Edges>
    ensures { result ≡ Some (meaning.paper_edges paper.now) }
{
    Some(Edges {
        left: Grains::new(0)?,
        bottom: Grains::new(0)?,
        right: paper.width(),
        top: paper.height(),
    })
}

/// The number of grains in one point. A page may reach one point beyond its paper, because sizes are rounded.
const ROUNDING: i128 = 127_000_000_000;

/// Whether one of these edges lies outside a paper by more than one point.
fn is_beyond(paper: &Paper, edges: &Edges) -> bool
    ensures { result ≡ meaning.is_beyond paper.now edges.now }
{
    (is_past(edges.left, 0) || is_past(edges.bottom, 0))
        || (is_past(paper.width(), edges.right.get()) || is_past(paper.height(), edges.top.get()))
}

/// Whether the coordinate `grains` lies more than one point past `length`.
fn is_past(length: Grains, grains: i128) -> bool
    ensures { result ≡ int_lt (length +ℤ meaning.rounding) grains }
{
    length.get() + ROUNDING < grains
}
