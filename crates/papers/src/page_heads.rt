//! Reads the comments directly after a page's first line.
ghost use Rattle.std.specs.Prelude.{◌≡◌, ◌++◌, ◌∷◌, [], option_map, drop, length};
ghost use Rattle.rules.specs.Units.{content_of, line_len};
ghost use Rattle.rules.specs.Bytes.{colon};
ghost use Rattle.dsc.specs.Fields.{fields_in};
ghost use Rattle.papers.specs.Media.{comment_fields, comment_value, name_meant};
ghost use Rattle.papers.specs.Comments.{first_name as name_given, head_of, is_in_head, medium_of_page};

use crate::comments::value_after;
use crate::fields::{name_and_rest, name_in};
use dsc::{first_content, is_header, key_of, line_end_after};

/// The text after its first line.
pub(crate) fn after_first_line(text: &[u8]) -> &[u8]
    ensures { result.now ≡ drop (line_len text.now) text.now }
{
    let (_, after) = text.split_at(line_end_after(text, first_line_len(text)));
    after
}

/// The length of the first line without its line end. The first line of a page is short, so the bytes are tested one
/// by one.
fn first_line_len(text: &[u8]) -> usize
    ensures { result ≡ length (content_of text.now) }
{
    text.iter()
        .take_while(|b| !matches!(**b, b'\r' | b'\n'))
        .count()
}

/// The value of the first comment with this key, among the comments at the start of the text. None if there is no such
/// comment.
pub(crate) fn value_in_head<'t>(text: &'t [u8], key: &[u8], with_colon: &[u8]) -> Option<&'t [u8]>
    requires { with_colon.now ≡ key.now ++ colon ∷ [] }
    ensures value { option_map (λ value. value.now) result ≡ comment_value key.now (head_of (length text.now) text.now) }
    ensures fields { option_map (λ value. fields_in value.now) result
        ≡ comment_fields key.now (head_of (length text.now) text.now) }
{
    let mut rest = text;
    while rest.starts_with(b"%") {
        let content = first_content(rest);
        if !is_in_head(content) {
            return None;
        }
        if let Some(value) = value_after(content, key, with_colon) {
            return Some(value);
        }
        let (_, others) = rest.split_at(line_end_after(rest, content.len()));
        rest = others;
    }
    None
}

/// The name of the medium in `%%PageMedia:`, among the comments at the start of the text, as it is written. None if
/// there is no such comment, or if it names no medium.
pub(crate) fn medium_name(text: &[u8]) -> Option<&[u8]>
    ensures { option_map (λ name. name_meant name.now) result ≡ medium_of_page (head_of (length text.now) text.now) }
{
    let (name, _) = name_and_rest(value_in_head(text, b"%%PageMedia", b"%%PageMedia:")?)?;
    Some(name)
}

/// The name at the start of a comment's value, after any blanks. A name in parentheses is returned without them, but
/// otherwise as it is written. None if the value has only blanks.
pub fn first_name(value: &[u8]) -> Option<&[u8]>
    ensures { option_map (λ name. name.now) result ≡ name_given value.now }
{
    let (name, _) = name_and_rest(value)?;
    Some(name_in(name))
}

/// Whether a line with this content belongs to the comments after a page's first line. The line must have the form of
/// a comment. If its key begins with `%%Begin`, the key must be `%%BeginPageSetup`.
fn is_in_head(content: &[u8]) -> bool
    ensures { result ≡ is_in_head content.now }
{
    let key = key_of(content);
    is_header(content) && (!key.starts_with(b"%%Begin") || key == b"%%BeginPageSetup".as_slice())
}
