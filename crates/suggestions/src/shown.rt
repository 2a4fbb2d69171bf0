//! Words and names, as messages show them.
use command_words::is_hidden;
use std::alloc::{AllocError, Global};

/// The largest number of characters of a word, or of bytes of a name from a document, that messages show.
pub const MOST_SHOWN: usize = 100;

/// A word or a name as messages show it. Hidden characters are written as escapes such as `\u{1b}`. After the first hundred characters, the rest is
/// replaced with two dots.
pub fn shown_word(alloc: Global, word: &str) -> Result<String, AllocError> {
    let mut shown = String::new(alloc);
    for letter in word.chars().take(MOST_SHOWN) {
        push_letter(&mut shown, letter)?;
    }
    if word.chars().count() > MOST_SHOWN {
        shown.push_str("..")?;
    }
    Ok(shown)
}

/// Appends a character as messages show it. A hidden character is written as an escape such as `\u{1b}`.
fn push_letter(out: &mut String, letter: char) -> Result<(), AllocError> {
    if !is_hidden(letter) {
        return out.push(letter);
    }
    for part in letter.escape_unicode() {
        out.push(part)?;
    }
    Ok(())
}

/// Appends a line and a line end. Hidden characters are written as escapes.
pub(crate) fn push_line(out: &mut String, line: &str) -> Result<(), AllocError> {
    for letter in line.chars() {
        push_letter(out, letter)?;
    }
    out.push('\n')
}

/// Whether a word has at most a hundred bytes and no hidden characters, so that messages show it unchanged.
pub(crate) fn is_shown_whole(word: &str) -> bool {
    word.len() <= MOST_SHOWN && !word.chars().any(|letter| is_hidden(letter))
}
