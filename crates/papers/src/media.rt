//! Finds the paper that a document is made for, from its comments or its setup.
ghost use Rattle.std.specs.Prelude.{◌≡◌, ◌++◌, ◌∷◌, [], option_and_then, option_map, codes, None};
ghost use Rattle.rules.specs.Bytes.{colon};
ghost use Rattle.dsc.specs.Fields.{fields_in};
ghost use Rattle.dsc.specs.Units.{units_of};
ghost use Rattle.papers.specs.Media as meaning;

use crate::boxes::{box_paper, paper_of_box, paper_with_sides};
use crate::comments::{continuation, first_comment};
use crate::fields::{name_and_rest, name_in, points_of};
use crate::setup::set_size;
use crate::two_papers::is_near;
use dsc::{header_len, next_field, trailer_box};
use lengths::Paper;
use paper_names::paper_by_name;

/// The comment, or the setup, that gives a document's paper.
#[derive(Clone, Copy, Debug, PartialEq, Eq)]
pub enum Comment {
    /// The first `%%DocumentMedia:`.
    DocumentMedia,
    /// The first `%%DocumentPaperSizes:`, whose fields are names of papers, with or without parentheses.
    DocumentPaperSizes,
    /// The first `%%BoundingBox:`.
    BoundingBox,
    /// No comment of the header, but the setup: among the lines before the first page, the first that asks for a paper
    /// with `/PageSize [width height]`, or names one in `%%BeginPaperSize:` or `%%BeginFeature:`.
    Setup,
}

/// The paper that a document is made for, and the comment that gives it (docs/RULES.md, 12.2; DSC 3.0, 5.2). The first
/// of these that gives a paper counts:
///
/// 1. the width and height in the first `%%DocumentMedia:`;
///
/// 2. the first known name in `%%DocumentPaperSizes:`. The paper is turned on its side if a `%%BoundingBox:` that
/// begins at 0 0 has the sides of this paper exchanged, to within 15 points;
///
/// 3. `%%BoundingBox:`, as `paper_of_box` reads it. If its value is `(atend)`, the first `%%BoundingBox:` of the
/// trailer counts. A text with a faulty data block has no trailer;
///
/// 4. the paper of the first line of the setup (the lines before the first page) that has one: two numbers after
/// `/PageSize`, a known name in `%%BeginPaperSize:`, or one in a `%%BeginFeature:` with the keyword `*PageSize`,
/// `*PaperSize` or `*PageRegion`.
///
/// A box that doesn't begin at 0 0 must reach beyond the paper of the setup, or beyond `usual` if the setup asks for
/// no paper. None if none of the four gives a paper.
pub fn document_paper(text: &[u8], usual: &Paper) -> Option<(Paper, Comment)>
    ensures { result ≡ meaning.document_paper usual.now text.now }
{
    let set = set_size(text);
    match given_by_comments(text, &set.unwrap_or(*usual)) {
        Some(found) => Some(found),
        None => Some((set?, Comment::Setup)),
    }
}

/// The paper that the comments alone give, and the comment that gives it. A box that doesn't begin at 0 0 must reach
/// beyond the paper `usual`. None if the comments give no paper.
pub(crate) fn given_by_comments(text: &[u8], usual: &Paper) -> Option<(Paper, Comment)>
    ensures { result ≡ meaning.given_by_comments usual.now text.now }
{
    let (header, _) = text.split_at(header_len(text));
    match media_in(header) {
        Some(paper) => Some((paper, Comment::DocumentMedia)),
        None => named_or_boxed(header, text, usual),
    }
}

/// The paper of the first known name in `%%DocumentPaperSizes:`. It is turned on its side if the document's box begins
/// at 0 0 and has the sides of this paper exchanged. If no name is known, the paper that the box gives, if any.
fn named_or_boxed(header: &[u8], text: &[u8], usual: &Paper) -> Option<(Paper, Comment)>
    ensures { result ≡ meaning.or_named usual.now (meaning.contents header.now) (meaning.trailer_lines (units_of text.now)) None }
{
    let value = box_of(header, text);
    match named_in(header) {
        Some(paper) => Some((
            lying_as(value.and_then(box_paper), paper),
            Comment::DocumentPaperSizes,
        )),
        None => Some((paper_of_box(usual, value?)?, Comment::BoundingBox)),
    }
}

/// `paper`, turned on its side if `found`, the paper of a box, has the sides of `paper` exchanged, to within 15 points.
fn lying_as(found: Option<Paper>, paper: Paper) -> Paper
    ensures { result ≡ meaning.lying_as found paper }
{
    match found {
        Some(found) if is_near(&found, &paper.turned()) => paper.turned(),
        _ => paper,
    }
}

/// The paper of the first known name in the first `%%DocumentPaperSizes:` and the `%%+` lines that continue it. None if
/// they have no known name.
fn named_in(header: &[u8]) -> Option<Paper>
    ensures { result ≡ meaning.paper_of_first_name_in
        (meaning.comment_values (codes "%%DocumentPaperSizes") (meaning.contents header.now)) }
{
    let (value, others) = first_comment(header, b"%%DocumentPaperSizes", b"%%DocumentPaperSizes:")?;
    first_named(value).or_else(|| named_in_rest(others))
}

/// The paper of the first known name in the `%%+` lines at the start of the text. None if they have no known name.
fn named_in_rest(text: &[u8]) -> Option<Paper>
    ensures { result ≡ meaning.paper_of_first_name_in (meaning.continued (meaning.contents text.now)) }
{
    let mut rest = text;
    while let Some((value, others)) = continuation(rest) {
        if let Some(paper) = first_named(value) {
            return Some(paper);
        }
        rest = others;
    }
    None
}

/// The paper of the first field that is the name of a known paper. None if there is no such field.
pub(crate) fn first_named(value: &[u8]) -> Option<Paper>
    ensures { result ≡ meaning.paper_of_first_name (fields_in value.now) }
{
    let mut rest = value;
    while let Some((field, others)) = next_field(rest) {
        if let Some(paper) = paper_by_name(name_in(field)) {
            return Some(paper);
        }
        rest = others;
    }
    None
}

/// The paper that the first `%%DocumentMedia:` gives. None if there is no such comment, or if its sides can't be those
/// of a paper.
fn media_in(header: &[u8]) -> Option<Paper>
    ensures { result ≡ option_and_then meaning.media_paper
        (meaning.comment_value (codes "%%DocumentMedia") (meaning.contents header.now)) }
{
    media_paper(first_value(header, b"%%DocumentMedia", b"%%DocumentMedia:")?)
}

/// The value of the header's first `%%BoundingBox:`, or that of the trailer's first one if the value in the header is
/// `(atend)`. None if there is no such comment.
#[tactic(auto, using(crate::proofs::Contents::trailer_box_is))]
pub(crate) fn box_of<'t>(header: &'t [u8], text: &'t [u8]) -> Option<&'t [u8]>
    ensures { option_map (λ value. fields_in value.now) result
        ≡ meaning.box_of (meaning.contents header.now) (meaning.trailer_lines (units_of text.now)) }
{
    let value = first_value(header, b"%%BoundingBox", b"%%BoundingBox:")?;
    if is_at_end(value) {
        trailer_box(text)
    } else {
        Some(value)
    }
}

/// Whether a header comment with this value is `(atend)`, which means that its real value is in the trailer.
pub fn is_at_end(value: &[u8]) -> bool
    ensures { result ≡ meaning.is_at_end (fields_in value.now) }
{
    matches!(next_field(value), Some((b"(atend)", _)))
}

/// The value of the header's first comment with this key: the text after its colon. None if there is no such comment.
#[tactic(auto, using(crate::proofs::Contents::none_said, crate::proofs::Contents::first_said, crate::proofs::Contents::none_told, crate::proofs::Contents::first_told))]
fn first_value<'t>(header: &'t [u8], key: &[u8], with_colon: &[u8]) -> Option<&'t [u8]>
    requires { with_colon.now ≡ key.now ++ colon ∷ [] }
    ensures value { option_map (λ value. value.now) result ≡ meaning.comment_value key.now (meaning.contents header.now) }
    ensures fields { option_map (λ value. fields_in value.now) result
        ≡ meaning.comment_fields key.now (meaning.contents header.now) }
{
    let (value, _) = first_comment(header, key, with_colon)?;
    Some(value)
}

/// The paper of a medium. The value has the medium's name, its width and its height in points; further fields aren't
/// read. None if a side is missing, or if the sides can't be those of a paper.
pub fn media_paper(value: &[u8]) -> Option<Paper>
    ensures { result ≡ meaning.media_paper value.now }
{
    let (_, rest) = name_and_rest(value)?;
    sides_paper(rest)
}

/// The paper of a medium, from the text after its name: its width and its height in points; further fields aren't read.
/// None if a side is missing, or if the sides can't be those of a paper.
pub(crate) fn sides_paper(rest: &[u8]) -> Option<Paper>
    ensures { result ≡ meaning.sides_paper (fields_in rest.now) }
{
    let (width, rest) = next_field(rest)?;
    let (height, _) = next_field(rest)?;
    paper_with_sides(points_of(width), points_of(height))
}
