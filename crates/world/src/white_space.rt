//! White space and control characters before a document.
ghost use Rattle.std.specs.Prelude.{◌≡◌, ◌≤◌, drop, length};
ghost use Rattle.std.specs.List.{prefix_len};
ghost use Rattle.world.specs.Input.{document_in, is_padding};

use crate::read::MOST_BYTES;

/// The number of bytes of white space and Ctrl-D before the document in an input. It is 0 if these bytes aren't followed by `%!`, or if the input is
/// too long.
pub fn padding(input: &[u8]) -> usize
    ensures within { result ≤ length input.now }
    ensures document { drop result input.now ≡ document_in input.now }
{
    if input.len() >= MOST_BYTES {
        return 0;
    }
    let count = padding_len(input);
    let (_, after) = input.split_at(count);
    if after.starts_with(b"%!") { count } else { 0 }
}

/// The number of bytes of white space and Ctrl-D at the front of the text.
fn padding_len(text: &[u8]) -> usize
    ensures value { result ≡ prefix_len is_padding text.now }
    ensures within { result ≤ length text.now }
{
    text.iter()
        .take_while(|b| matches!(**b, 0 | 4 | b'\t' | b'\n' | 12 | b'\r' | b' '))
        .count()
}
