//! Where the header comments of a document end.
ghost use Rattle.std.specs.Prelude.{◌≡◌, ◌<◌, ◌≤◌, length};
ghost use Rattle.rules.specs.Units.{content_of, line_len};
ghost use Rattle.dsc.specs.Header.{is_header, ends_header, stays, is_last, header_run, header_len};

use crate::keys::key_of;
use crate::lines::{content_end, line_end_after};

/// The number of bytes of the header comments, which are the first line and the comments directly after it. They end
/// with `%%EndComments`, or before a line that begins a later part (`%%Begin`.., `%%Page:`, `%%Trailer`, `%%EOF`) or
/// isn't a header comment (`is_header`). Their form and their end at `%%EndComments` are defined in DSC 3.0, General
/// Header Comments.
pub fn header_len(text: &[u8]) -> usize
    ensures value { result ≡ header_len text.now }
    ensures within { result ≤ length text.now }
{
    let first = first_len(text);
    let (_, rest) = text.split_at(first);
    first + header_run(rest)
}

/// The number of bytes of the header comments at the start of this text, which follows the first line of a document.
fn header_run(text: &[u8]) -> usize
    ensures value { result ≡ header_run text.now }
    ensures within { result ≤ length text.now }
{
    let mut rest = text;
    let mut end = 0usize;
    while !rest.is_empty() {
        let content = first_content(rest);
        if !stays(content) {
            return end;
        }
        let len = first_len(rest);
        if is_last(content) {
            return end + len;
        }
        let (_, others) = rest.split_at(len);
        rest = others;
        end += len;
    }
    end
}

/// Whether a line with this content continues the header comments.
fn stays(content: &[u8]) -> bool
    ensures { result ≡ stays content.now }
{
    is_header(content) && !ends_header(content)
}

/// Whether a line with this content has the form of a header comment: it begins with a percent sign and a printable
/// character that isn't a space.
pub fn is_header(content: &[u8]) -> bool
    ensures { result ≡ is_header content.now }
{
    match content.split_first() {
        None => false,
        Some((first, rest)) => match rest.split_first() {
            None => false,
            Some((second, _)) => *first == b'%' && (33 <= *second && *second <= 126),
        },
    }
}

/// Whether the header comments end before a line with this content.
fn ends_header(content: &[u8]) -> bool
    ensures { result ≡ ends_header content.now }
{
    let key = key_of(content);
    key.starts_with(b"%%Begin")
        || ((key == b"%%Page".as_slice() && content.starts_with(b"%%Page:"))
            || (key == b"%%Trailer".as_slice() || key == b"%%EOF".as_slice()))
}

/// Whether the header comments end with a line with this content.
fn is_last(content: &[u8]) -> bool
    ensures { result ≡ is_last content.now }
{
    key_of(content) == b"%%EndComments".as_slice()
}

/// The content of the first line: its bytes without the line end.
pub fn first_content(text: &[u8]) -> &[u8]
    ensures { result.now ≡ content_of text.now }
{
    let (content, _) = text.split_at(content_end(text));
    content
}

/// The number of bytes of the first line with its line end.
fn first_len(text: &[u8]) -> usize
    ensures value { result ≡ line_len text.now }
    ensures within { result ≤ length text.now }
    ensures moves { 0 < length text.now → 0 < result }
{
    line_end_after(text, content_end(text))
}
