//! The system's default paper.
ghost use Rattle.std.specs.Prelude.{◌≡◌, ◌≤◌, false, length};
ghost use Rattle.paper_names.specs.Home as meaning;

use crate::names::paper_by_name;
use lengths::{Paper, a4};

/// The system's default paper. It is the one that the variable `PAPERSIZE` names, or else the one that the first word outside comments in
/// `/etc/papersize` names, or else a4. A text that names no paper is passed over. If the variable or the file is missing, the caller passes an empty
/// text.
pub fn default_paper(variable: &[u8], file: &[u8]) -> Paper
    ensures { result ≡ meaning.default_paper variable.now file.now }
{
    paper_by_name(variable)
        .or_else(|| paper_by_name(first_word(file)))
        .unwrap_or(a4())
}

/// The first word outside comments in a text. A comment extends from `#` to the end of the line. Empty if there is no such word.
fn first_word(text: &[u8]) -> &[u8]
    ensures { result.now ≡ meaning.first_word text.now }
{
    word_at(from_word(text))
}

/// The part of a text that begins with its first word outside comments. Empty if there is no such word.
fn from_word(text: &[u8]) -> &[u8]
    ensures { result.now ≡ meaning.from_word false text.now }
{
    let mut rest = text;
    let mut comment = false;
    while let Some((first, others)) = rest.split_first() {
        if !comment && is_of_word(*first) {
            return rest;
        }
        comment = is_comment_after(comment, *first);
        rest = others;
    }
    rest
}

/// Whether the byte after `byte` is in a comment. `comment` says whether `byte` is in a comment.
fn is_comment_after(comment: bool, byte: u8) -> bool
    ensures { result ≡ meaning.is_comment_after comment byte }
{
    if comment { byte != b'\n' } else { byte == b'#' }
}

/// Whether a byte belongs to a word: it is neither white space nor `#`.
fn is_of_word(byte: u8) -> bool
    ensures { result ≡ meaning.is_of_word byte }
{
    !(byte.is_ascii_whitespace() || byte == b'#')
}

/// The word at the start of a text. Empty if the text doesn't begin with a word.
fn word_at(text: &[u8]) -> &[u8]
    ensures { result.now ≡ meaning.word_at text.now }
{
    let (word, _) = text.split_at(word_len(text));
    word
}

/// The length in bytes of the word at the start of a text, or 0 if the text doesn't begin with a word.
fn word_len(text: &[u8]) -> usize
    ensures value { result ≡ meaning.word_len text.now }
    ensures within { result ≤ length text.now }
{
    text.iter()
        .take_while(|b| !(b.is_ascii_whitespace() || **b == b'#'))
        .count()
}
