//! Shows a text with a caret below the place of a fault. A place is counted in bytes, from 0.
use crate::shell::is_hidden;
use std::alloc::{AllocError, Global};

/// The greatest number of bytes of a text that are shown before the place of a fault.
const SHOWN_BEFORE: usize = 50;

/// The greatest number of bytes of a text that are shown from the place of a fault onwards.
const SHOWN_BEHIND: usize = 20;

/// Two lines, each after a line end: the text around this place, and a caret below the place. An end at which the text is cut off is shown as two
/// dots. A hidden character is shown as a question mark. The result is empty if the place is past the end of the text.
pub fn caret_below(alloc: Global, text: &str, place: usize) -> Result<String, AllocError> {
    if place > text.len() {
        return Ok(String::new(alloc));
    }
    let start = place.saturating_sub(SHOWN_BEFORE);
    let end = place.saturating_add(SHOWN_BEHIND);
    let mut above = String::from_str(alloc, "\n  ")?;
    let mut below = String::from_str(alloc, "\n  ")?;
    if start > 0 {
        above.push_str("..")?;
        below.push_str("  ")?;
    }
    for (at, letter) in text.char_indices() {
        if start <= at && at < end {
            above.push(if is_hidden(letter) { '?' } else { letter })?;
            if at < place {
                below.push(' ')?;
            }
        }
    }
    if end < text.len() {
        above.push_str("..")?;
    }
    below.push('^')?;
    format!(in alloc; "{above}{below}")
}

/// The place of a fault in the range that begins at byte `start` of this text. The place is the end of the range's longest prefix that could still
/// become a valid range, or `start` if the text can't be split there.
pub fn range_place(text: &str, start: usize) -> usize {
    let Some((_, range)) = text.split_at_checked(start) else {
        return start;
    };
    let first = after_place(range);
    let left = match first.strip_prefix("-") {
        Some(second) if is_place(range, first) => after_place(second),
        _ => first,
    };
    text.len().saturating_sub(left.len())
}

/// The text after the page at its start: a number, `_` with or without a number, `last` or `blank`. A text that begins with none of these is returned
/// whole.
fn after_place(text: &str) -> &str {
    if let Some(after) = text.strip_prefix("last") {
        return after;
    }
    if let Some(after) = text.strip_prefix("blank") {
        return after;
    }
    let digits = text.strip_prefix("_").unwrap_or(text);
    digits.trim_start_matches(|letter: char| letter.is_ascii_digit())
}

/// Whether `text` begins with a page at which a range can begin. `left` is the text after this page, from the minus sign on. `blank` and a `_`
/// without a number aren't such pages.
fn is_place(text: &str, left: &str) -> bool {
    left.len() < text.len() && !text.starts_with("blank") && !text.starts_with("_-")
}

/// The place at which an item of a specification begins. Items are counted from 0 through all groups.
pub fn item_place(text: &str, item: u32) -> usize {
    place_after(text.as_bytes(), item, true)
}

/// The place at which a group of a specification begins. Groups are counted from 0.
pub fn group_place(text: &str, group: u32) -> usize {
    place_after(text.as_bytes(), group, false)
}

/// The place after the modulo and the first `count` items. If `of_items` is false, it is the place after the modulo and the first `count` groups.
fn place_after(text: &[u8], count: u32, of_items: bool) -> usize {
    let mut start = 0usize;
    let mut left = count;
    let mut is_inside = false;
    for (at, byte) in text.iter().enumerate() {
        match *byte {
            b'(' => is_inside = true,
            b')' => is_inside = false,
            b':' => start = at + 1,
            b',' | b'+' if !is_inside && (of_items || *byte == b',') => {
                if left == 0 {
                    return start;
                }
                left -= 1;
                start = at + 1;
            }
            _ => {}
        }
    }
    start
}

/// The place, in a specification, of the first number with an integer part above 99,999. The specification must have one. Without leading zeros, such
/// a part has six digits or more.
pub fn large_place(text: &str) -> usize {
    let mut start = 0usize;
    let mut digits = 0u32;
    let mut is_decimal = false;
    for (at, byte) in text.as_bytes().iter().enumerate() {
        if !byte.is_ascii_digit() {
            start = at + 1;
            digits = 0;
            is_decimal = *byte == b'.';
        } else if !is_decimal && (digits > 0 || *byte != b'0') {
            digits = digits.saturating_add(1);
            if digits > 5 {
                return start;
            }
        }
    }
    start
}
