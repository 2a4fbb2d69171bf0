//! Finds pages that show text in a font that an earlier page has set.
ghost use Rattle.std.specs.Prelude.{◌≡◌, ◌+◌, ◌<◌, ◌≤◌, ◌∷◌, ◌++◌, [], IfSome, slice_index_or};
ghost use Rattle.std.specs.List.{list_any};
ghost use Rattle.rules.specs.Parts.{pages};
ghost use Rattle.rules.specs.Bytes.{colon};
ghost use Rattle.rules.specs.Units.{begins_block, is_comment};
ghost use Rattle.guard.specs.Setups.{is_delimiter as is_delimiting};
ghost use Rattle.impose_cli.specs.Fonts as meaning;

use crate::copies::is_white;
use dsc::{Document, comment_value};
use guard::next_token;

/// Whether a page shows text before it sets a font, but the first page doesn't. So the font is that of an earlier page. A page is read only up to its
/// first call of anything but some operators, since such a call may set a font.
pub(crate) fn borrows_font(document: &Document<'_>) -> bool
    ensures { result ≡ meaning.borrows_font document.now }
{
    !shows_at_once(page_or_nothing(document, 0)) && is_any_showing(document)
}

/// The page with this number, counted from 0. Empty if there is no such page.
pub(crate) fn page_or_nothing<'d>(document: &Document<'d>, page: u32) -> &'d [u8]
    ensures { result.now ≡ slice_index_or (pages document.now) page [] }
{
    if page < document.pages() {
        document.page(page)
    } else {
        &[]
    }
}

/// Whether any page shows text before it sets a font.
fn is_any_showing(document: &Document<'_>) -> bool
    ensures { result ≡ list_any meaning.shows_at_once (pages document.now) }
{
    for page in 0..document.pages() {
        if shows_at_once(document.page(page)) {
            return true;
        }
    }
    false
}

/// Whether a page shows text before it sets a font.
fn shows_at_once(page: &[u8]) -> bool
    ensures { result ≡ meaning.shows_at_once page.now }
{
    let mut depth = 0;
    let mut rest = page;
    while let Some((token, others)) = next_token(rest) {
        match open_after(depth, token) {
            Some(next) => depth = next,
            None => return is_show(token),
        }
        rest = others;
    }
    false
}

/// The number of procedures that are open after this token, if `depth` are before it. None if no more is to be read: after a call, outside procedures,
/// that isn't passed over, and after a comment that begins data.
fn open_after(depth: usize, token: &[u8]) -> Option<usize>
    requires { depth < usize.MAX }
    ensures value { result ≡ meaning.open_after depth token.now }
    ensures most { IfSome result (λ n. n ≤ depth + 1) }
{
    if begins_data(token) {
        None
    } else if token == b"{".as_slice() {
        Some(depth + 1)
    } else if token == b"}".as_slice() {
        Some(depth.saturating_sub(1))
    } else if depth > 0 || is_passed(token) {
        Some(depth)
    } else {
        None
    }
}

/// Whether this token is a comment that begins data.
fn begins_data(token: &[u8]) -> bool
    ensures { result ≡ begins_block token.now }
{
    is_comment_of(token, b"%%BeginData", b"%%BeginData:")
        || is_comment_of(token, b"%%BeginBinary", b"%%BeginBinary:")
}

/// Whether this token is the comment with this key. `with_colon` is the key followed by a colon.
fn is_comment_of(token: &[u8], key: &[u8], with_colon: &[u8]) -> bool
    requires { with_colon.now ≡ key.now ++ colon ∷ [] }
    ensures { result ≡ is_comment key.now token.now }
{
    match comment_value(token, key, with_colon) {
        Some(_) => true,
        None => false,
    }
}

/// Whether this token neither shows text nor sets a font.
fn is_passed(token: &[u8]) -> bool
    ensures { result ≡ meaning.is_passed token.now }
{
    is_no_call(token) || (is_path(token) || is_style(token))
}

/// Whether this token is white space, a comment, a string, a literal name, a bracket or a number.
fn is_no_call(token: &[u8]) -> bool
    ensures { result ≡ meaning.is_no_call token.now }
{
    match token.first() {
        Some(byte) => is_white(*byte) || (is_delimiter(*byte) || begins_number(*byte)),
        None => true,
    }
}

fn is_delimiter(byte: u8) -> bool
    ensures { result ≡ is_delimiting byte }
{
    matches!(
        byte,
        b'(' | b')' | b'<' | b'>' | b'[' | b']' | b'{' | b'}' | b'/' | b'%'
    )
}

/// Whether a number can begin with this byte.
fn begins_number(byte: u8) -> bool
    ensures { result ≡ meaning.begins_number byte }
{
    (48 <= byte && byte <= 57) || (byte == b'+' || (byte == b'-' || byte == b'.'))
}

/// Whether this token is an operator on paths.
fn is_path(token: &[u8]) -> bool
    ensures { result ≡ meaning.is_path token.now }
{
    token == b"moveto".as_slice()
        || (token == b"rmoveto".as_slice()
            || (token == b"lineto".as_slice()
                || (token == b"rlineto".as_slice()
                    || (token == b"newpath".as_slice()
                        || (token == b"closepath".as_slice()
                            || (token == b"stroke".as_slice() || token == b"fill".as_slice()))))))
}

/// Whether this token is an operator on colours, lines or graphics states.
fn is_style(token: &[u8]) -> bool
    ensures { result ≡ meaning.is_style token.now }
{
    token == b"setgray".as_slice()
        || (token == b"setrgbcolor".as_slice()
            || (token == b"setcmykcolor".as_slice()
                || (token == b"setlinewidth".as_slice()
                    || (token == b"gsave".as_slice() || token == b"grestore".as_slice()))))
}

/// Whether this token is an operator that shows text.
fn is_show(token: &[u8]) -> bool
    ensures { result ≡ meaning.is_show token.now }
{
    token == b"show".as_slice()
        || (token == b"ashow".as_slice()
            || (token == b"widthshow".as_slice() || token == b"awidthshow".as_slice()))
}
