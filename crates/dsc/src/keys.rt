//! Reads the keys of lines, and finds the lines that begin pages, trailers and embedded documents.
ghost use Rattle.std.specs.Prelude.{◌≡◌, ◌<◌, length, nat_eq, codes, false};
ghost use Rattle.std.specs.List.{starts_with};
ghost use Rattle.rules.specs.Units.{key};
ghost use Rattle.rules.specs.Parts.{begins_page, begins_trailer, depth_after};
ghost use Rattle.dsc.specs.Letters.{letter_of};
ghost use Rattle.dsc.specs.Views.{unit_of, at_depth, comment_line};

use crate::units::LineOrBlock;

/// The length of the key of a line with this content.
fn key_len(content: &[u8]) -> usize
    ensures { result ≡ length (key content.now) }
{
    content
        .iter()
        .take_while(|b| !((**b == b' ' || **b == b'\t') || **b == b':'))
        .count()
}

/// The key of a line with this content: the bytes before its first space, tab or colon.
pub fn key_of(content: &[u8]) -> &[u8]
    ensures { result.now ≡ key content.now }
{
    let (key, _) = content.split_at(key_len(content));
    key
}

/// The byte after the two percent signs at the start of a line. None if the line doesn't begin with two percent signs
/// and a byte. This byte distinguishes most comments before their keys are compared.
pub(crate) fn comment_letter(content: &[u8]) -> Option<u8>
    ensures { result ≡ letter_of content.now }
{
    match content {
        [b'%', b'%', letter, ..] => Some(*letter),
        _ => None,
    }
}

/// Whether a line with this content begins with `%%Page`.
pub(crate) fn names_page(content: &[u8]) -> bool
    ensures { result ≡ starts_with nat_eq content.now (codes "%%Page") }
{
    // Each page has such a line, and `starts_with` takes several times as long as a pattern.
    matches!(content, [b'%', b'%', b'P', b'a', b'g', b'e', ..])
}

/// Whether a line with this content begins with `%%Page:`.
fn is_page_line(content: &[u8]) -> bool
    ensures { result ≡ starts_with nat_eq content.now (codes "%%Page:") }
{
    matches!(content, [b'%', b'%', b'P', b'a', b'g', b'e', b':', ..])
}

/// The meaning of a unit for the parts of a document: whether it begins a page or the trailer, and the depth in
/// embedded documents after it.
#[derive(Clone, Copy)]
pub(crate) struct Meaning {
    pub is_page: bool,
    pub is_trailer: bool,
    pub depth: usize,
}

/// The meaning of a line with this content at this depth. The letter after the percent signs decides for most lines,
/// so few keys are compared.
fn meaning_of_line(content: &[u8], depth: usize) -> Meaning
    requires { depth < usize.MAX }
    ensures page { result.is_page ≡ begins_page (at_depth depth (comment_line content.now)) }
    ensures trailer { result.is_trailer ≡ begins_trailer (at_depth depth (comment_line content.now)) }
    ensures depth { result.depth ≡ depth_after depth (comment_line content.now) }
{
    match comment_letter(content) {
        Some(b'P') => Meaning {
            is_page: depth == 0 && is_page_line(content),
            is_trailer: false,
            depth,
        },
        Some(b'B' | b'E' | b'T') => meaning_of_key(content, depth),
        _ => Meaning {
            is_page: false,
            is_trailer: false,
            depth,
        },
    }
}

/// The meaning of a line with this content at this depth. The line must not be a `%%Page:` line.
fn meaning_of_key(content: &[u8], depth: usize) -> Meaning
    requires countable { depth < usize.MAX }
    requires no_page { starts_with nat_eq content.now (codes "%%Page:") ≡ false }
    ensures page { result.is_page ≡ begins_page (at_depth depth (comment_line content.now)) }
    ensures trailer { result.is_trailer ≡ begins_trailer (at_depth depth (comment_line content.now)) }
    ensures depth { result.depth ≡ depth_after depth (comment_line content.now) }
{
    let key = key_of(content);
    if key == b"%%BeginDocument".as_slice() {
        Meaning {
            is_page: false,
            is_trailer: false,
            depth: depth + 1,
        }
    } else if key == b"%%EndDocument".as_slice() {
        Meaning {
            is_page: false,
            is_trailer: false,
            depth: depth.saturating_sub(1),
        }
    } else {
        Meaning {
            is_page: false,
            is_trailer: depth == 0
                && (key == b"%%Trailer".as_slice() || key == b"%%EOF".as_slice()),
            depth,
        }
    }
}

/// The meaning of a unit. `depth` is the depth in embedded documents before it.
pub(crate) fn meaning_of(unit: &LineOrBlock<'_>, depth: usize) -> Meaning
    requires { depth < usize.MAX }
    ensures page { result.is_page ≡ begins_page (at_depth depth (unit_of unit.now)) }
    ensures trailer { result.is_trailer ≡ begins_trailer (at_depth depth (unit_of unit.now)) }
    ensures depth { result.depth ≡ depth_after depth (unit_of unit.now) }
{
    if unit.is_block {
        return Meaning {
            is_page: false,
            is_trailer: false,
            depth,
        };
    }
    meaning_of_line(unit.content, depth)
}
