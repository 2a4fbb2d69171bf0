//! Finds the paper that a document's setup asks for, with `/PageSize`, or names, with `%%BeginPaperSize:` or
//! `%%BeginFeature:`. All lines before the first page count as setup.
ghost use Rattle.std.specs.Prelude.{◌≡◌, ◌≤◌, codes, length, option_map};
ghost use Rattle.rules.specs.Units.{is_comment};
ghost use Rattle.dsc.specs.Fields.{fields_in};
ghost use Rattle.papers.specs.Media as meaning;

use crate::boxes::paper_with_sides;
use crate::comments::value_after;
use crate::fields::{leading_blanks, points_of};
use crate::media::first_named;
use dsc::{comment_value, first_content, line_end_after, next_field};
use lengths::Paper;

/// The paper of a document whose comments name none: the one that `set_size` finds, or `home` if it finds none.
pub(crate) fn usual_in(text: &[u8], home: &Paper) -> Paper
    ensures { result ≡ meaning.usual_in home.now text.now }
{
    set_size(text).unwrap_or(*home)
}

/// The paper in the first line that asks for a paper or names one, among the lines before the first page. None if no
/// line does.
pub(crate) fn set_size(text: &[u8]) -> Option<Paper>
    ensures { result ≡ meaning.set_size (meaning.contents text.now) }
{
    let mut rest = text;
    while !rest.is_empty() {
        let content = first_content(rest);
        if begins_page(content) {
            return None;
        }
        if let Some(paper) = size_of_line(content) {
            return Some(paper);
        }
        let (_, others) = rest.split_at(line_end_after(rest, content.len()));
        rest = others;
    }
    None
}

/// Whether a line with this content is a `%%Page:` line.
fn begins_page(content: &[u8]) -> bool
    ensures { result ≡ is_comment (codes "%%Page") content.now }
{
    comment_value(content, b"%%Page", b"%%Page:").is_some()
}

/// The paper that a line asks for with `/PageSize`, or names in a comment. None if the line does neither.
fn size_of_line(content: &[u8]) -> Option<Paper>
    ensures { result ≡ meaning.size_of_line content.now }
{
    size_asked(content).or_else(|| size_named(content))
}

/// The paper that a comment names before the setup sets it: the first known name in `%%BeginPaperSize:`, or after the
/// keyword of a feature that is a paper. None for any other line.
fn size_named(content: &[u8]) -> Option<Paper>
    ensures { result ≡ meaning.size_named content.now }
{
    match value_after(content, b"%%BeginPaperSize", b"%%BeginPaperSize:") {
        Some(names) => first_named(names),
        None => feature_paper(value_after(content, b"%%BeginFeature", b"%%BeginFeature:")?),
    }
}

/// The paper of a feature, from the value of `%%BeginFeature:`: the first known name after `*PageSize`, `*PaperSize` or
/// `*PageRegion`. None for any other feature, or if no name is known.
fn feature_paper(feature: &[u8]) -> Option<Paper>
    ensures { result ≡ meaning.feature_paper (fields_in feature.now) }
{
    let (keyword, options) = next_field(feature)?;
    if is_size_keyword(keyword) {
        first_named(options)
    } else {
        None
    }
}

/// Whether the features with this keyword are papers.
fn is_size_keyword(keyword: &[u8]) -> bool
    ensures { result ≡ meaning.is_size_keyword keyword.now }
{
    keyword == b"*PageSize".as_slice()
        || keyword == b"*PaperSize".as_slice()
        || keyword == b"*PageRegion".as_slice()
}

/// The paper that a line asks for: its width and its height in points, in brackets after the line's first `/PageSize`.
/// None if the line asks for no paper.
fn size_asked(content: &[u8]) -> Option<Paper>
    ensures { result ≡ meaning.size_asked content.now }
{
    size_after(after_key(content)?)
}

/// The paper in brackets at the start of this text, which follows `/PageSize`. Blanks may come before the opening
/// bracket. None if there is no such bracket, or if `two_sides` finds no paper in the brackets.
fn size_after(text: &[u8]) -> Option<Paper>
    ensures { result ≡ meaning.size_after text.now }
{
    let (_, text) = text.split_at(leading_blanks(text));
    two_sides(in_brackets(text)?)
}

/// The text after the first `/PageSize` of a line. None if the line has no `/PageSize`.
fn after_key(content: &[u8]) -> Option<&[u8]>
    ensures { option_map (λ text. text.now) result ≡ meaning.after_key content.now }
{
    let mut rest = content;
    while let Some((_, others)) = rest.split_first() {
        if rest.starts_with(b"/PageSize") {
            let (_, text) = rest.split_at(9);
            return Some(text);
        }
        rest = others;
    }
    None
}

/// The text after the opening bracket at the start of this text, up to the first closing bracket or the end. None if
/// this text doesn't begin with an opening bracket.
fn in_brackets(text: &[u8]) -> Option<&[u8]>
    ensures { option_map (λ inside. inside.now) result ≡ meaning.in_brackets text.now }
{
    let (first, rest) = text.split_first()?;
    if *first != b'[' {
        return None;
    }
    let (inside, _) = rest.split_at(open_len(rest));
    Some(inside)
}

/// The length of the text before the first closing bracket, or of the whole text if it has none.
fn open_len(text: &[u8]) -> usize
    ensures value { result ≡ meaning.open_len text.now }
    ensures within { result ≤ length text.now }
{
    text.iter().take_while(|b| **b != b']').count()
}

/// The paper whose width and height are the two fields of this text. None if it has more or fewer fields, or if they
/// can't be the sides of a paper.
fn two_sides(inside: &[u8]) -> Option<Paper>
    ensures { result ≡ meaning.two_sides (fields_in inside.now) }
{
    let (width, rest) = next_field(inside)?;
    let (height, rest) = next_field(rest)?;
    match next_field(rest) {
        Some(_) => None,
        None => paper_with_sides(points_of(width), points_of(height)),
    }
}
