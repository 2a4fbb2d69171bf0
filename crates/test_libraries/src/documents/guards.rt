//! Documents with the guard inserted.
ghost use Rattle.std.specs.Prelude.{◌≤◌, IfOk, vec_len};

use crate::answer::Answer;
use crate::words::paper;
use guard::{RoomyText, guarded, put_guard, put_guard_before};
use lengths::Paper;
use std::alloc::{AllocError, Global};

/// Prints the text with the guard inserted, for a paper if the words name one. Prints a line for each further way of inserting the guard that gives a
/// different text.
pub fn guard(out: &mut Answer, text: &[u8], words: &[String]) {
    let sheet = paper(words, 2);
    match guarded(out.alloc, text, sheet.as_ref()) {
        Ok(copy) => {
            out.lossy(copy.as_slice());
            compare(out, copy.as_slice(), text, sheet.as_ref());
        }
        Err(_) => out.note(false),
    }
}

fn compare(out: &mut Answer, copy: &[u8], text: &[u8], paper: Option<&Paper>) {
    if !gives(out, copy, put_in_place(out.alloc, text, paper)) {
        out.text("but not in its place\n");
    }
    for room in [5_000, 2_560, 2_048, 100, 7, 1, 0] {
        let with_room = gives(out, copy, put_after(out.alloc, room, text, paper))
            && gives(out, copy, put_into_roomy(out.alloc, room, text, paper));
        if !with_room {
            out.line(format_args!("but not with room for {room} bytes"));
        }
    }
}

/// Whether a text equals `copy`. A text for which memory ran out counts as equal.
fn gives(out: &mut Answer, copy: &[u8], text: Result<Vec<u8>, AllocError>) -> bool {
    match text {
        Ok(text) => text.as_slice() == copy,
        Err(_) => {
            out.note(false);
            true
        }
    }
}

fn put_in_place(alloc: Global, text: &[u8], paper: Option<&Paper>) -> Result<Vec<u8>, AllocError> {
    let mut bytes = Vec::from_slice(alloc, text)?;
    put_guard(&mut bytes, paper)?;
    Ok(bytes)
}

/// The text, after `room` further bytes that can be overwritten.
fn after_room(alloc: Global, room: usize, text: &[u8]) -> Result<Vec<u8>, AllocError>
    ensures { IfOk result (λ bytes. room ≤ vec_len bytes) }
{
    let mut bytes = vec![in alloc; b'%'; room]?;
    bytes.extend_from_slice(text)?;
    Ok(bytes)
}

/// Inserts the guard into a text with `room` free bytes before it, and returns the result.
fn put_after(
    alloc: Global,
    room: usize,
    text: &[u8],
    paper: Option<&Paper>,
) -> Result<Vec<u8>, AllocError> {
    let mut bytes = after_room(alloc, room, text)?;
    let begin = put_guard_before(&mut bytes, room, paper)?;
    Vec::from_slice(alloc, &bytes[begin..])
}

fn put_into_roomy(
    alloc: Global,
    room: usize,
    text: &[u8],
    paper: Option<&Paper>,
) -> Result<Vec<u8>, AllocError> {
    let mut roomy = RoomyText::with_headroom(room, after_room(alloc, room, text)?);
    roomy.put_guard(paper)?;
    Vec::from_slice(alloc, roomy.as_slice())
}
