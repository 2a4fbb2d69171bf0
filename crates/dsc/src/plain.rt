//! Lines that don't begin with two percent signs. They begin no part of a document, and no filter drops them. A run of
//! such lines is therefore passed at once.
ghost use Rattle.std.specs.Prelude.{◌≡◌, ◌<◌, ◌≤◌, length, codes};
ghost use Rattle.dsc.specs.Plain.{BeginsPlain, next_line};

use crate::lines::{content_end, is_line_end, line_end_after};
use memchr::memmem::Finder;

/// The number of bytes of the lines before the one that contains the text's first `%%`, which `percent_signs` finds.
/// That line is counted as well, unless it begins with this `%%`. A text without `%%` is counted whole. So no counted
/// line begins with `%%`.
pub(crate) fn plain_len(percent_signs: &Finder<'_>, text: &[u8]) -> usize
    requires { percent_signs.now ≡ codes "%%" }
    ensures plain { BeginsPlain result text.now }
    ensures within { result ≤ length text.now }
{
    if let [b'%', b'%', ..] = text {
        return 0;
    }
    match percent_signs.find(text) {
        None => text.len(),
        Some(at) => next_line(text, at),
    }
}

/// The byte at which the next line begins. It is `at` if a line begins there, and otherwise the byte after the line
/// that contains `at`. The byte at `at` must not be in a line end.
fn next_line(text: &[u8], at: usize) -> usize
    requires { at < length text.now }
    ensures value { result ≡ next_line at text.now }
    ensures within { result ≤ length text.now }
{
    if at == 0 || is_line_end(text[at - 1]) {
        return at;
    }
    let (_, rest) = text.split_at(at);
    at + line_end_after(rest, content_end(rest))
}
