//! Finds whether a document's setup scales, turns or moves its pages.
ghost use Rattle.std.specs.Prelude.{◌≡◌, ◌+◌, ◌≤◌, ◌<◌, [], ◌∷◌, IfSome, MatchOption, length, not};
ghost use Rattle.std.specs.List.{prefix_len};
ghost use Rattle.guard.specs.Setups as meaning;

use dsc::{comment_value, string_len};

/// What is open at a place in the text before the first page.
#[derive(Clone, Copy)]
pub(crate) struct Level {
    /// The number of procedures that are open.
    pub(crate) procedures: usize,
    /// The number of graphics states that are saved outside procedures.
    pub(crate) saves: usize,
    /// The number of states that were saved when the page's axes were first scaled, turned or moved. `None` if they are
    /// as they were at the start.
    pub(crate) moved: Option<usize>,
}

/// Whether the text before a document's first page scales, turns or moves the page's axes outside procedures, and
/// doesn't restore them. Nothing is looked at after a comment that begins data. No memory is allocated.
pub fn places_pages(text: &[u8]) -> bool
    ensures { result ≡ meaning.places_pages text.now }
{
    let mut level = Level {
        procedures: 0,
        saves: 0,
        moved: None,
    };
    let mut rest = text;
    while let Some((token, others)) = next_token(rest) {
        if ends_setup(token) {
            return level.moved.is_some();
        }
        level = level.after(token);
        rest = others;
    }
    level.moved.is_some()
}

impl Level {
    /// What is open after this token.
    fn after(self, token: &[u8]) -> Level
        requires procedures { self.procedures < usize.MAX }
        requires saves { self.saves < usize.MAX }
        ensures value { result ≡ meaning.after self token.now }
        ensures procedures { result.procedures ≤ self.procedures + 1 }
        ensures saves { result.saves ≤ self.saves + 1 }
    {
        if token == b"{".as_slice() {
            Level {
                procedures: self.procedures + 1,
                ..self
            }
        } else if token == b"}".as_slice() {
            Level {
                procedures: self.procedures.saturating_sub(1),
                ..self
            }
        } else if self.procedures > 0 {
            self
        } else {
            self.called(token)
        }
    }

    /// What is open after this token outside procedures.
    fn called(self, token: &[u8]) -> Level
        requires { self.saves < usize.MAX }
        ensures value { result ≡ meaning.called self token.now }
        ensures procedures { result.procedures ≡ self.procedures }
        ensures saves { result.saves ≤ self.saves + 1 }
    {
        if is_save(token) {
            Level {
                saves: self.saves + 1,
                ..self
            }
        } else if is_restore(token) {
            self.restored()
        } else if is_move(token) {
            Level {
                moved: Some(self.moved.unwrap_or(self.saves)),
                ..self
            }
        } else {
            self
        }
    }

    /// What is open after the last saved state has come back.
    fn restored(self) -> Level
        ensures value { result ≡ meaning.restored self }
    {
        let saves = self.saves.saturating_sub(1);
        Level {
            saves,
            moved: self.moved.filter(|at| *at <= saves),
            ..self
        }
    }
}

fn is_save(token: &[u8]) -> bool
    ensures { result ≡ meaning.is_save token.now }
{
    token == b"gsave".as_slice() || token == b"save".as_slice()
}

fn is_restore(token: &[u8]) -> bool
    ensures { result ≡ meaning.is_restore token.now }
{
    token == b"grestore".as_slice() || token == b"restore".as_slice()
}

/// Whether this token scales, turns or moves the page's axes.
fn is_move(token: &[u8]) -> bool
    ensures { result ≡ meaning.is_move token.now }
{
    token == b"scale".as_slice()
        || (token == b"translate".as_slice()
            || (token == b"rotate".as_slice()
                || (token == b"concat".as_slice() || token == b"setmatrix".as_slice())))
}

/// Whether this token is the comment of a page, or one that begins data.
pub fn ends_setup(token: &[u8]) -> bool
    ensures { result ≡ meaning.ends_setup token.now }
{
    comment_value(token, b"%%Page", b"%%Page:").is_some()
        || (comment_value(token, b"%%BeginData", b"%%BeginData:").is_some()
            || comment_value(token, b"%%BeginBinary", b"%%BeginBinary:").is_some())
}

/// The first token or comment of a text, and the text after it. A byte of white space counts as a token. None if the
/// text is empty.
pub fn next_token(text: &[u8]) -> Option<(&[u8], &[u8])>
    ensures next { MatchOption result (meaning.tokens text.now ≡ [])
        (λ p. meaning.tokens text.now ≡ p.0.now ∷ meaning.tokens p.1.now) }
    ensures shorter { IfSome result (λ p. length p.1.now + 1 ≤ length text.now) }
{
    if text.is_empty() {
        return None;
    }
    Some(text.split_at(1 + more_bytes(text)))
}

/// The number of bytes after the first one that belong to the token or comment at the start of a text. It is 0 for an
/// empty text.
fn more_bytes(text: &[u8]) -> usize
    ensures value { result ≡ meaning.more_bytes text.now }
    ensures within { 0 < length text.now → result < length text.now }
{
    let Some((first, rest)) = text.split_first() else {
        return 0;
    };
    match *first {
        b'%' => comment_bytes(rest),
        b'(' => string_len(text).unwrap_or(text.len()) - 1,
        b'<' => base_85_bytes(rest),
        b'/' => regular_bytes(rest),
        byte if is_regular(byte) => regular_bytes(rest),
        _ => 0,
    }
}

/// The number of bytes before the end of a comment.
fn comment_bytes(text: &[u8]) -> usize
    ensures value { result ≡ prefix_len (λ b. not (meaning.ends_comment b)) text.now }
    ensures within { result ≤ length text.now }
{
    text.iter()
        .take_while(|b| !matches!(**b, b'\n' | b'\r' | b'\x0c'))
        .count()
}

/// The number of bytes that belong to a string in base 85, up to the tilde that ends it. `text` is the text after the
/// string's first byte. It is 0 if no such string begins there.
fn base_85_bytes(text: &[u8]) -> usize
    ensures value { result ≡ meaning.in_base_85 text.now }
    ensures within { result ≤ length text.now }
{
    let Some((first, digits)) = text.split_first() else {
        return 0;
    };
    if *first == b'~' {
        1 + before_tilde(digits)
    } else {
        0
    }
}

/// The number of bytes before the first tilde.
fn before_tilde(text: &[u8]) -> usize
    ensures value { result ≡ meaning.before_tilde text.now }
    ensures within { result ≤ length text.now }
{
    text.iter().take_while(|b| **b != b'~').count()
}

/// The number of bytes before the first white space or delimiter.
fn regular_bytes(text: &[u8]) -> usize
    ensures value { result ≡ prefix_len meaning.is_regular text.now }
    ensures within { result ≤ length text.now }
{
    text.iter().take_while(|b| is_regular(**b)).count()
}

/// Whether a byte belongs to a name or a number.
fn is_regular(byte: u8) -> bool
    ensures { result ≡ meaning.is_regular byte }
{
    !matches!(byte, b' ' | b'\t' | b'\n' | b'\r' | b'\x0c' | 0)
        && !matches!(
            byte,
            b'(' | b')' | b'<' | b'>' | b'[' | b']' | b'{' | b'}' | b'/' | b'%'
        )
}
