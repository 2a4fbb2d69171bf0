//! Reads PostScript strings (PostScript Language Reference, 3.2.2). A name in a comment may be such a string.
ghost use Rattle.std.specs.Prelude.{◌≡◌, ◌≤◌, ◌<◌, ◌+◌, false, length, fold, IfOk, IfSome};
ghost use Rattle.std.specs.List.{prefix_len};
ghost use Rattle.dsc.specs.Strings as meaning;

use std::alloc::{AllocError, Global};

/// The length of the PostScript string at the start of the text, with its parentheses. Parentheses within it are in
/// pairs, or have a backslash before them. None if the text doesn't begin with an opening parenthesis, or if this
/// parenthesis isn't closed.
pub fn string_len(text: &[u8]) -> Option<usize>
    ensures value { result ≡ meaning.string_len text.now }
    ensures within { IfSome result (λ n. n ≤ length text.now) }
{
    if text.first() == Some(&b'(') {
        closed_len(text)
    } else {
        None
    }
}

/// The length of the text up to and including the first byte after which no parenthesis is open. None if there is no
/// such byte.
fn closed_len(text: &[u8]) -> Option<usize>
    ensures value { result ≡ meaning.rest_len 0 false text.now }
    ensures within { IfSome result (λ n. n ≤ length text.now) }
{
    let mut opened = 0usize;
    let mut is_escaped = false;
    let mut len = 0usize;
    let mut rest = text;
    while let Some((byte, others)) = rest.split_first() {
        opened = open_after(opened, is_escaped, *byte);
        is_escaped = !is_escaped && *byte == b'\\';
        len += 1;
        rest = others;
        if opened == 0 {
            return Some(len);
        }
    }
    None
}

/// The number of parentheses that are open after this byte; `opened` is the number before it. `is_escaped` says whether
/// a backslash escapes the byte, which then opens and closes none.
fn open_after(opened: usize, is_escaped: bool, byte: u8) -> usize
    requires few { opened < usize.MAX }
    ensures value { result ≡ meaning.open_after opened is_escaped byte }
    ensures few { result ≤ opened + 1 }
{
    match byte {
        b'(' if !is_escaped => opened + 1,
        b')' if !is_escaped => opened.saturating_sub(1),
        _ => opened,
    }
}

/// The characters for which a string stands. `text` is the text between its parentheses. Fails only if memory is
/// refused.
pub fn string_characters(alloc: Global, text: &[u8]) -> Result<Vec<u8>, AllocError>
    ensures { IfOk result (λ found. found.items ≡ meaning.characters text.now) }
{
    let mut characters = Vec::new(alloc);
    let mut rest = text;
    while let Some((first, others)) = rest.split_first() {
        let (character, len) = character_at(*first, others);
        characters.push(character)?;
        let (_, after) = others.split_at(len);
        rest = after;
    }
    Ok(characters)
}

/// The character at the start of a text with this first byte and this rest, and the number of bytes of the rest that
/// belong to the character.
fn character_at(first: u8, rest: &[u8]) -> (u8, usize)
    ensures character { result.0 ≡ meaning.character first rest.now }
    ensures len { result.1 ≡ meaning.character_len first rest.now }
    ensures within { result.1 ≤ length rest.now }
{
    if first == b'\\' {
        escaped(rest)
    } else {
        (first, 0)
    }
}

/// The character that the text after a backslash gives, and the number of bytes that give it. A backslash at the end of
/// the text stands for itself.
fn escaped(text: &[u8]) -> (u8, usize)
    ensures character { result.0 ≡ meaning.escaped text.now }
    ensures len { result.1 ≡ meaning.escaped_len text.now }
    ensures within { result.1 ≤ length text.now }
{
    match text.first() {
        None => (b'\\', 0),
        Some(b'0'..=b'7') => {
            let len = code_len(text);
            let (code, _) = text.split_at(len);
            (code_of(code), len)
        }
        Some(letter) => (lettered(*letter), 1),
    }
}

/// The number of octal digits at the start of the text, at most three.
fn code_len(text: &[u8]) -> usize
    ensures value { result ≡ meaning.code_len text.now }
    ensures within { result ≤ length text.now }
{
    octal_digits(text).min(3)
}

/// The number of octal digits at the start of the text.
fn octal_digits(text: &[u8]) -> usize
    ensures value { result ≡ prefix_len meaning.is_octal_digit text.now }
    ensures within { result ≤ length text.now }
{
    text.iter()
        .take_while(|b| b'0' <= **b && **b <= b'7')
        .count()
}

/// The character with this code in octal digits. Only the low eight bits of a code above 255 count.
fn code_of(digits: &[u8]) -> u8
    ensures { result ≡ fold meaning.code_with 0 digits.now }
{
    let mut code = 0u8;
    for digit in digits {
        code = code.wrapping_mul(8).wrapping_add(*digit % 8);
    }
    code
}

/// The character that this letter stands for after a backslash. Bytes without a meaning there stand for themselves.
fn lettered(letter: u8) -> u8
    ensures { result ≡ meaning.lettered letter }
{
    match letter {
        b'n' => b'\n',
        b'r' => b'\r',
        b't' => b'\t',
        b'b' => 8,
        b'f' => 12,
        _ => letter,
    }
}
