//! Finds comments among header comments, and the `%%+` lines that continue them.
ghost use Rattle.std.specs.Prelude.{◌≡◌, ◌<◌, ◌++◌, ◌∷◌, [], false, true, length, IfSome, MatchOption};
ghost use Rattle.rules.specs.Bytes.{colon};
ghost use Rattle.rules.specs.Units.{is_comment};
ghost use Rattle.papers.specs.Media.{comment_values, contents, continued, value_of};

use dsc::{comment_value, first_content, line_end_after};

/// Finds the first comment with the key `key`. Returns its value, which is the text after its colon, and the text
/// after its line. None if there is no such comment. `with_colon` is the key followed by a colon.
pub fn first_comment<'t>(
    header: &'t [u8],
    key: &[u8],
    with_colon: &[u8],
) -> Option<(&'t [u8], &'t [u8])>
    requires { with_colon.now ≡ key.now ++ colon ∷ [] }
    ensures { MatchOption result (comment_values key.now (contents header.now) ≡ []) (λ p.
        comment_values key.now (contents header.now) ≡ p.0.now ∷ continued (contents p.1.now)) }
{
    let mut rest = header;
    while !rest.is_empty() {
        let content = first_content(rest);
        let (_, others) = rest.split_at(line_end_after(rest, content.len()));
        if let Some(value) = value_after(content, key, with_colon) {
            return Some((value, others));
        }
        rest = others;
    }
    None
}

/// The value of a comment: the text after its colon. None if the line with this content isn't a comment with the key
/// `key`. `with_colon` is the key followed by a colon.
pub(crate) fn value_after<'t>(content: &'t [u8], key: &[u8], with_colon: &[u8]) -> Option<&'t [u8]>
    requires { with_colon.now ≡ key.now ++ colon ∷ [] }
    ensures { MatchOption result (is_comment key.now content.now ≡ false) (λ value.
        (is_comment key.now content.now ≡ true) × (value.now ≡ value_of content.now)) }
{
    if comment_value(content, key, with_colon).is_none() {
        return None;
    }
    let (_, value) = content.split_at(with_colon.len());
    Some(value)
}

/// If the first line begins with `%%+`, returns the text after `%%+`, which continues the comment before it, and the
/// text after the line. Otherwise returns `None`.
pub fn continuation(text: &[u8]) -> Option<(&[u8], &[u8])>
    ensures value { MatchOption result (continued (contents text.now) ≡ []) (λ p.
        continued (contents text.now) ≡ p.0.now ∷ continued (contents p.1.now)) }
    ensures shorter { IfSome result (λ p. length p.1.now < length text.now) }
{
    let content = first_content(text);
    if !content.starts_with(b"%%+") {
        return None;
    }
    let (_, value) = content.split_at(3);
    let (_, others) = text.split_at(line_end_after(text, content.len()));
    Some((value, others))
}
