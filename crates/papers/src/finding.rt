//! Finds the paper of each page of a document.
ghost use Rattle.std.specs.Prelude.{◌≡◌, IfOk, None, map, length, replicate, codes, option_and_then};
ghost use Rattle.rules.specs.Parts.{bytes_of, pages};
ghost use Rattle.dsc.specs.Units.{units_of};
ghost use Rattle.paper_names.specs.Names.{paper_named};
ghost use Rattle.papers.specs.Media.{comment_fields, comment_value, contents, header, paper_of_box as paper_of_box_at, trailer_lines};
ghost use Rattle.papers.specs.Comments.{head_of, named_medium, page_head, given_by_document, given_by_page as given};
ghost use Rattle.papers.specs.Own.{medium_by, or_this, papers_of_each_page as papers_of_pages, page_or};
ghost use Rattle.papers.specs.Named.{known_paper};

use crate::known_media::KnownMedia;
use crate::media::given_by_comments;
use crate::page_heads::{after_first_line, medium_name, value_in_head};
use crate::paper_of_box;
use crate::setup::usual_in;
use dsc::{Document, header_len};
use lengths::Paper;
use std::alloc::{AllocError, Global};

/// The paper of each page of a document, in the order of the pages (docs/RULES.md, 12.3). If `asked` is a paper, all
/// pages have it. Otherwise a page has the paper that its own comments give, or else the one that the document's
/// comments give. A page without either has the paper that the document's setup (the lines before the first page) asks
/// for, or else `home`. Fails only if memory is refused.
pub fn page_papers(
    alloc: Global,
    document: &Document<'_>,
    asked: Option<Paper>,
    home: &Paper,
) -> Result<Vec<Paper>, AllocError>
    ensures { IfOk result (λ papers.
        papers.items ≡ papers_of_pages asked paper_named home.now (bytes_of document.now) document.now) }
{
    match asked {
        Some(paper) => pages_of_one_paper(alloc, document.pages(), paper),
        None => declared_papers(alloc, document, home),
    }
}

/// The paper `paper` for each of `pages` pages.
fn pages_of_one_paper(alloc: Global, pages: u32, paper: Paper) -> Result<Vec<Paper>, AllocError>
    ensures { IfOk result (λ papers. papers.items ≡ replicate pages paper) }
{
    let mut papers = Vec::new(alloc);
    papers.resize(pages as usize, paper)?;
    Ok(papers)
}

/// The papers that `page_papers` returns if no paper is asked for.
fn declared_papers(
    alloc: Global,
    document: &Document<'_>,
    home: &Paper,
) -> Result<Vec<Paper>, AllocError>
    ensures { IfOk result (λ papers.
        papers.items ≡ papers_of_pages None paper_named home.now (bytes_of document.now) document.now) }
{
    let text = document.text();
    let (header, _) = text.split_at(header_len(text));
    let known = KnownMedia::read(alloc, document, header)?;
    let other = document_or(text, &usual_in(text, home));
    each_with(alloc, document, &known, &other)
}

/// The paper that the document's comments give, or `other` if they give none. A box that doesn't begin at 0 0 must
/// reach beyond `other`.
fn document_or(text: &[u8], other: &Paper) -> Paper
    ensures { result
        ≡ or_this (given_by_document paper_named other.now (header text.now) (trailer_lines (units_of text.now))) other.now }
{
    match given_by_comments(text, other) {
        Some(given) => given.0,
        None => *other,
    }
}

/// The paper of each page: the one that the page's own comments give, or `other` if they give none. `known` has the
/// media that pages can name.
fn each_with(
    alloc: Global,
    document: &Document<'_>,
    known: &KnownMedia,
    other: &Paper,
) -> Result<Vec<Paper>, AllocError>
    ensures { IfOk result (λ papers. papers.items
        ≡ map (λ page. page_or (known_paper known.now) (page_head page) other.now) (pages document.now)) }
{
    let mut papers = Vec::new(alloc);
    for page in 0..document.pages() {
        let given = given_by_page(alloc, known, document.page(page), other)?;
        papers.push(given.unwrap_or(*other))?;
    }
    Ok(papers)
}

/// The paper that the comments after a page's first line give: that of the known medium in `%%PageMedia:`, or else
/// that of the box in `%%PageBoundingBox:`. `other` is the document's paper, beyond which a box that doesn't begin at
/// 0 0 must reach.
fn given_by_page(
    alloc: Global,
    known: &KnownMedia,
    page: &[u8],
    other: &Paper,
) -> Result<Option<Paper>, AllocError>
    ensures { IfOk result (λ paper. paper ≡ given (known_paper known.now) other.now (page_head page.now)) }
{
    let head = after_first_line(page);
    let named = named_paper(alloc, known, head)?;
    match named {
        Some(paper) => Ok(Some(paper)),
        None => Ok(boxed_paper(head, other)),
    }
}

/// The paper of the medium that a page names in `%%PageMedia:`. `head` is the page's text after its first line. None if
/// the page names no medium, or if `known` has no paper for it.
#[tactic(auto, using(crate::proofs::PageTells::names_none, crate::proofs::PageTells::names_one))]
fn named_paper(alloc: Global, known: &KnownMedia, head: &[u8]) -> Result<Option<Paper>, AllocError>
    ensures { IfOk result (λ paper. paper ≡ option_and_then (named_medium (known_paper known.now))
        (comment_value (codes "%%PageMedia") (head_of (length head.now) head.now))) }
{
    match medium_name(head) {
        Some(name) => known.paper_of(alloc, name),
        None => Ok(None),
    }
}

/// The paper that a page's `%%PageBoundingBox:` gives. `head` is the page's text after its first line. `other` is the
/// document's paper, beyond which a box that doesn't begin at 0 0 must reach. None if there is no such comment, or if
/// its box gives no paper.
fn boxed_paper(head: &[u8], other: &Paper) -> Option<Paper>
    ensures { result ≡ option_and_then (paper_of_box_at other.now)
        (comment_fields (codes "%%PageBoundingBox") (head_of (length head.now) head.now)) }
{
    let value = value_in_head(head, b"%%PageBoundingBox", b"%%PageBoundingBox:")?;
    paper_of_box(other, value)
}
