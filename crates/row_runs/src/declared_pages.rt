//! Reads the number of pages that a document declares.
ghost use Rattle.std.specs.Prelude.{◌≡◌, ◌<◌, ◌≤◌, ◌+◌, drop, length, option_map};
ghost use Rattle.dsc.specs.Fields.{fields_in};
ghost use Rattle.rules.specs.Units.{line_len};
ghost use Rattle.papers.specs.Media.{contents};
ghost use Rattle.row_runs.specs.DeclaredPages as meaning;

use dsc::{
    comment_value, content_end, first_content, header_len, key_of, line_end_after, next_field,
};
use memchr::memmem::FinderRev;
use papers::first_comment;

/// The number of pages that a document declares in its comments (DSC 3.0, 5.1), or `usize::MAX` if the number is greater. It is given by the first
/// `%%Pages:` of the header. If the value there is `(atend)`, the number is given by the first `%%Pages:` that follows the last `%%Trailer` line and
/// isn't in an embedded document. None if there is no such comment, or if its value isn't a number.
pub fn declared_page_count(text: &[u8]) -> Option<usize>
    ensures { result ≡ meaning.declared_page_count text.now }
{
    let (header, _) = text.split_at(header_len(text));
    count_by(pages_field(header)?, text)
}

/// The number of pages that `field`, the first field of the header's `%%Pages:`, declares. If the field is `(atend)`, the number is read from the
/// first `%%Pages:` that follows the last `%%Trailer` line and isn't in an embedded document. None if there is no number.
fn count_by(field: &[u8], text: &[u8]) -> Option<usize>
    ensures { result ≡ meaning.count_by field.now (meaning.last_lines text.now) }
{
    if field == b"(atend)".as_slice() {
        value_of_digits(last_field(last_lines(text))?)
    } else {
        value_of_digits(field)
    }
}

/// The first field after the first `%%Pages:` in these lines. None if there is no such comment or field.
fn pages_field(lines: &[u8]) -> Option<&[u8]>
    ensures { option_map (λ field. field.now) result ≡ meaning.pages_field (contents lines.now) }
{
    match first_comment(lines, b"%%Pages", b"%%Pages:") {
        Some((value, _)) => first_field(value),
        None => None,
    }
}

/// The first field after the first `%%Pages:` that is in these lines but not in an embedded document. None if there is no such comment or field.
fn last_field(lines: &[u8]) -> Option<&[u8]>
    ensures { option_map (λ field. field.now) result ≡ meaning.first_field (meaning.pages_outside 0 (contents lines.now)) }
{
    first_field(value_outside(lines)?)
}

/// The rest of the line after the first `%%Pages:` that is in these lines but not in an embedded document. None if there is no such comment.
fn value_outside(lines: &[u8]) -> Option<&[u8]>
    ensures { option_map (λ value. fields_in value.now) result ≡ meaning.pages_outside 0 (contents lines.now) }
{
    let mut rest = lines;
    let mut depth = 0usize;
    while !rest.is_empty() {
        let content = first_content(rest);
        if let Some(value) = value_at(depth, content) {
            return Some(value);
        }
        depth = depth_after_line(depth, content);
        let (_, others) = rest.split_at(line_end_after(rest, content.len()));
        rest = others;
    }
    None
}

/// The text after the colon, if this line is a `%%Pages:` comment and `depth`, the number of embedded documents that are open, is 0. None otherwise.
/// `content` is the line without its line end.
fn value_at(depth: usize, content: &[u8]) -> Option<&[u8]>
    ensures { option_map (λ value. fields_in value.now) result ≡ meaning.pages_at depth content.now }
{
    let value = comment_value(content, b"%%Pages", b"%%Pages:")?;
    if depth == 0 { Some(value) } else { None }
}

/// The number of embedded documents that are open after a line with this content, if `depth` were open before it.
fn depth_after_line(depth: usize, content: &[u8]) -> usize
    requires { depth < usize.MAX }
    ensures value { result ≡ meaning.depth_after_line depth content.now }
    ensures most { result ≤ depth + 1 }
{
    let key = key_of(content);
    if key == b"%%BeginDocument".as_slice() {
        depth + 1
    } else if key == b"%%EndDocument".as_slice() {
        depth.saturating_sub(1)
    } else {
        depth
    }
}

fn first_field(value: &[u8]) -> Option<&[u8]>
    ensures { option_map (λ field. field.now) result ≡ meaning.first_field (Some (fields_in value.now)) }
{
    let (field, _) = next_field(value)?;
    Some(field)
}

/// The text after the last `%%Trailer` line, or the whole text if there is no such line. The search begins at the end of the text, where the trailer
/// of most documents is.
fn last_lines(text: &[u8]) -> &[u8]
    ensures { contents result.now ≡ meaning.last_lines text.now }
{
    let trailer = FinderRev::new(b"%%Trailer".as_slice());
    let mut front = text;
    while let Some(at) = trailer.rfind(front) {
        if trailer_at(text, at) {
            return after_line(text, at);
        }
        // Any `%%Trailer` that begins earlier ends before the last byte of this one.
        let (before, _) = front.split_at(at + 8);
        front = before;
    }
    text
}

/// Whether a `%%Trailer` line begins at this byte.
fn trailer_at(text: &[u8], at: usize) -> bool
    requires { at ≤ length text.now }
    ensures { result ≡ meaning.trailer_at at text.now }
{
    let (_, line) = text.split_at(at);
    begins_line(text, at) && key_of(first_content(line)) == b"%%Trailer".as_slice()
}

/// Whether a line begins at this byte. The byte must not be a line feed.
fn begins_line(text: &[u8], at: usize) -> bool
    requires { at ≤ length text.now }
    ensures { result ≡ meaning.begins_line at text.now }
{
    if at == 0 {
        return true;
    }
    let before = text[at - 1];
    before == b'\r' || before == b'\n'
}

/// The text after the line that begins at this byte.
fn after_line(text: &[u8], at: usize) -> &[u8]
    requires { at ≤ length text.now }
    ensures { result.now ≡ drop (line_len (drop at text.now)) (drop at text.now) }
{
    let (_, line) = text.split_at(at);
    let (_, others) = line.split_at(line_end_after(line, content_end(line)));
    others
}

/// The value of a field of digits, or `usize::MAX` if the value is greater. It is 0 for an empty field. None if the field has other characters.
fn value_of_digits(field: &[u8]) -> Option<usize>
    ensures { result ≡ meaning.value_of_digits field.now }
{
    let mut n = 0usize;
    for b in field {
        if !b.is_ascii_digit() {
            return None;
        }
        n = n.saturating_mul(10).saturating_add(usize::from(*b - b'0'));
    }
    Some(n)
}
