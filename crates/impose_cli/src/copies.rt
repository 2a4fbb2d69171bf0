//! Finds copies for which a document's setup asks, and which sheets lose.
ghost use Rattle.std.specs.Prelude.{◌≡◌, ◌+◌, ◌<◌, ◌≤◌, ◌==◌, ◌&&◌, ◌||◌, codes, nat_le};
ghost use Rattle.std.specs.List.{list_all};
ghost use Rattle.std.specs.Str.{bytes_eq};
ghost use Rattle.guard.specs.Setups.{is_white as is_white_space};
ghost use Rattle.impose_cli.specs.Copies as meaning;

use guard::{ends_setup, next_token};

/// What a setup has asked for up to some token.
#[derive(Clone, Copy)]
pub(crate) struct Asked {
    /// The number of procedures that are open.
    pub(crate) procedures: usize,
    /// The number of dictionaries that are open.
    pub(crate) dictionaries: usize,
    /// Whether the last token is a whole number above 1.
    pub(crate) after_many: bool,
    /// Whether the last token is `/#copies`.
    pub(crate) after_name: bool,
    /// Whether copies are lost.
    pub(crate) is_lost: bool,
}

/// Whether the text before a document's first page asks for copies, outside procedures, that sheets lose: with `@copies`, or by `/#copies` in a
/// dictionary that is open. Nothing is looked at after a comment that begins data. No memory is allocated.
pub(crate) fn loses_copies(text: &[u8]) -> bool
    ensures { result ≡ meaning.loses_copies text.now }
{
    let mut asked = Asked {
        procedures: 0,
        dictionaries: 0,
        after_many: false,
        after_name: false,
        is_lost: false,
    };
    let mut rest = text;
    while let Some((token, others)) = next_token(rest) {
        if ends_setup(token) {
            return asked.is_lost;
        }
        asked = asked.after(token);
        rest = others;
    }
    asked.is_lost
}

impl Asked {
    /// What the setup has asked for up to this token.
    fn after(self, token: &[u8]) -> Asked
        requires procedures { self.procedures < usize.MAX }
        requires dictionaries { self.dictionaries < usize.MAX }
        ensures value { result ≡ meaning.after self token.now }
        ensures procedures { result.procedures ≤ self.procedures + 1 }
        ensures dictionaries { result.dictionaries ≤ self.dictionaries + 1 }
    {
        if is_between(token) {
            self
        } else if token == b"{".as_slice() {
            self.with_procedures(self.procedures + 1)
        } else if token == b"}".as_slice() {
            self.with_procedures(self.procedures.saturating_sub(1))
        } else if self.procedures > 0 {
            self
        } else {
            self.called(token)
        }
    }

    /// The same with this number of open procedures, after the brace that opens or closes one.
    fn with_procedures(self, procedures: usize) -> Asked
        ensures { result ≡ meaning.braced self procedures }
    {
        Asked {
            procedures,
            after_many: false,
            after_name: false,
            ..self
        }
    }

    /// What the setup has asked for up to this token outside procedures.
    fn called(self, token: &[u8]) -> Asked
        requires { self.dictionaries < usize.MAX }
        ensures value { result ≡ meaning.called self token.now }
        ensures procedures { result.procedures ≡ self.procedures }
        ensures dictionaries { result.dictionaries ≤ self.dictionaries + 1 }
    {
        Asked {
            procedures: self.procedures,
            dictionaries: dictionaries_after(self.dictionaries, token),
            after_many: is_many(token),
            after_name: token == b"/#copies".as_slice(),
            is_lost: self.is_lost || self.loses(token),
        }
    }

    /// Whether this token asks for copies that are lost.
    fn loses(&self, token: &[u8]) -> bool
        ensures { result ≡ meaning.loses self.now token.now }
    {
        (self.after_many && token == b"@copies".as_slice())
            || (self.after_name && (self.dictionaries > 0 && is_many(token)))
    }
}

/// The number of dictionaries that are open after this token, if `depth` are before it.
fn dictionaries_after(depth: usize, token: &[u8]) -> usize
    requires { depth < usize.MAX }
    ensures value { result ≡ meaning.dictionaries_after depth token.now }
    ensures most { result ≤ depth + 1 }
{
    if token == b"begin".as_slice() {
        depth + 1
    } else if token == b"end".as_slice() {
        depth.saturating_sub(1)
    } else {
        depth
    }
}

/// Whether this token is white space or a comment.
fn is_between(token: &[u8]) -> bool
    ensures { result ≡ meaning.is_between token.now }
{
    match token.first() {
        Some(byte) => is_white(*byte) || *byte == b'%',
        None => true,
    }
}

/// Whether a byte is white space between tokens.
pub(crate) fn is_white(byte: u8) -> bool
    ensures { result ≡ is_white_space byte }
{
    matches!(byte, b' ' | b'\t' | b'\n' | b'\r' | b'\x0c' | 0)
}

/// Whether this token is a whole number other than 0 and 1.
fn is_many(token: &[u8]) -> bool
    ensures { result ≡ meaning.is_many token.now }
{
    is_number(token) && !is_below_two(token)
}

fn is_number(token: &[u8]) -> bool
    ensures { result ≡ list_all (λ b. nat_le 48 b && nat_le b 57) token.now }
{
    token.iter().all(|b| 48 <= *b && *b <= 57)
}

fn is_below_two(token: &[u8]) -> bool
    ensures { result ≡ (bytes_eq token.now (codes "0") || bytes_eq token.now (codes "1")) }
{
    token == b"0".as_slice() || token == b"1".as_slice()
}
