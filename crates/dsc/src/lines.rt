//! The lines of a text. A line ends with CR LF, CR or LF; the last one may have no end.
ghost use Rattle.std.specs.Prelude.{◌≡◌, ◌+◌, ◌-◌, ◌<◌, ◌≤◌, ◌==◌, length, drop, option_map, IfSome};
ghost use Rattle.std.specs.List.{count_by};
ghost use Rattle.rules.specs.Units.{is_end, line_len, lines_len, end_len, content_of};

use memchr::memchr2_iter;

/// The number of bytes in a block. Lines are counted block by block up to the first block that has a CR. The number of
/// lines that end in a block fits in a `u8`, so the compiler can count many bytes at once.
const BLOCK: usize = 240;

/// Whether the byte is CR or LF.
pub(crate) fn is_line_end(byte: u8) -> bool
    ensures { result ≡ is_end byte }
{
    byte == b'\r' || byte == b'\n'
}

/// The length of the line end with which these bytes begin: 2 for CR LF, and 1 for CR or LF alone. It is 0 if there are
/// no bytes. Callers pass no bytes that begin in another way.
fn end_at(text: &[u8]) -> usize
    ensures { result ≡ end_len text.now }
{
    match text.split_first() {
        None => 0,
        Some((byte, rest)) => {
            if *byte == b'\r' && rest.starts_with(b"\n") {
                2
            } else {
                1
            }
        }
    }
}

/// The length of the first line without its line end.
pub fn content_end(text: &[u8]) -> usize
    ensures { result ≡ length (content_of text.now) }
{
    // This iterator looks at the next few bytes first, which is faster because most lines are short.
    match memchr2_iter(b'\r', b'\n', text).next() {
        Some(at) => at,
        None => text.len(),
    }
}

/// The length of the first line with its line end. `content` is the length of this line without its line end.
pub fn line_end_after(text: &[u8], content: usize) -> usize
    requires { content ≡ length (content_of text.now) }
    ensures value { result ≡ line_len text.now }
    ensures within { result ≤ length text.now }
    ensures longer { content ≤ result }
    ensures moves { 0 < length text.now → 0 < result }
{
    content + end_at(&text[content..])
}

/// The number of bytes of the first `count` lines. None if the text has fewer lines.
pub(crate) fn lines_end(count: usize, text: &[u8]) -> Option<usize>
    ensures value { result ≡ lines_len count text.now }
    ensures within { IfSome result (λ n. n ≤ length text.now) }
{
    let (lines, passed) = first_blocks(count, text);
    let mut rest = &text[passed..];
    let mut end = passed;
    for i in lines..count {
        if rest.is_empty() {
            return None;
        }
        let line = line_end_after(rest, content_end(rest));
        let (_, others) = rest.split_at(line);
        end += line;
        rest = others;
    }
    Some(end)
}

/// Passes blocks without a CR at the start of the text, as long as fewer than `count` lines end in them and more text
/// follows them. Returns the number of lines that end in the passed blocks, and the number of bytes of these blocks.
fn first_blocks(count: usize, text: &[u8]) -> (usize, usize)
    ensures fewer { result.0 ≤ count }
    ensures within { result.1 ≤ length text.now }
    ensures passed { lines_len count text.now
        ≡ option_map (λ n. result.1 + n) (lines_len (count - result.0) (drop result.1 text.now)) }
{
    let mut rest = text;
    let mut lines = 0usize;
    let mut passed = 0usize;
    while rest.len() > BLOCK {
        let (block, others) = rest.split_at(BLOCK);
        let (feeds, returns) = ends_in(block);
        let feeds = usize::from(feeds);
        if returns != 0 || feeds >= count - lines {
            return (lines, passed);
        }
        lines += feeds;
        passed += BLOCK;
        rest = others;
    }
    (lines, passed)
}

/// The number of LF bytes and the number of CR bytes in a block.
fn ends_in(block: &[u8]) -> (u8, u8)
    requires { length block.now ≤ BLOCK }
    ensures feeds { result.0 ≡ count_by (λ b. b == 10) block.now }
    ensures returns { result.1 ≡ count_by (λ b. b == 13) block.now }
{
    let mut feeds = 0u8;
    let mut returns = 0u8;
    for byte in block {
        feeds += u8::from(*byte == b'\n');
        returns += u8::from(*byte == b'\r');
    }
    (feeds, returns)
}
