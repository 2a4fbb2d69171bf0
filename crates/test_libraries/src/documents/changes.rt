//! Counts the pages of a document that is cut off before each of its bytes, or that is changed in each of its bytes.
use crate::answer::Answer;
use crate::documents::cuts::counted;
use std::alloc::{AllocError, Global};

/// Prints the number of pages in each prefix of a text, or the reason why the prefix is refused.
pub fn every_prefix(out: &mut Answer, text: &[u8]) {
    let mut ranges = Ranges::new(out.alloc);
    for len in 0..text.len() + 1 {
        let (prefix, _) = text.split_at(len);
        ranges.count(out, prefix);
    }
    ranges.end(out);
}

/// Replaces each byte of a text with `byte` in turn. Prints the number of pages of each resulting text, or the reason why it is refused.
pub fn every_change(out: &mut Answer, text: &[u8], byte: &str) {
    let mut ranges = Ranges::new(out.alloc);
    for place in 0..text.len() {
        let (front, after) = text.split_at(place);
        match changed(out.alloc, front, byte, after) {
            Ok(changed) => ranges.count(out, changed.as_slice()),
            Err(_) => out.note(false),
        }
    }
    ranges.end(out);
}

/// The text `front`, then `byte`, then `after` without its first byte.
fn changed(alloc: Global, front: &[u8], byte: &str, after: &[u8]) -> Result<Vec<u8>, AllocError> {
    let mut changed = Vec::from_slice(alloc, front)?;
    changed.extend_from_slice(byte.as_bytes())?;
    changed.extend_from_slice(after.get(1..).unwrap_or(b""))?;
    Ok(changed)
}

/// The answer for each length of a prefix, or for each changed byte, counted from 0. Neighbouring numbers with the same answer are printed on one
/// line.
#[derive(Drop)]
struct Ranges {
    /// The first number that the current line covers.
    first: usize,
    /// The next number, which has no answer yet.
    next: usize,
    answer: Vec<u8>,
}

impl Ranges {
    fn new(alloc: Global) -> Ranges {
        Ranges {
            first: 0,
            next: 0,
            answer: Vec::new(alloc),
        }
    }

    /// Records the number of pages of the text, or the reason why it is refused, as the answer for the next number.
    fn count(&mut self, out: &mut Answer, text: &[u8]) {
        let mut answer = Answer::new(out.alloc);
        counted(&mut answer, text);
        match answer.whole() {
            Some(answer) => self.take(out, answer),
            None => out.note(false),
        }
    }

    fn take(&mut self, out: &mut Answer, answer: Vec<u8>) {
        if answer != self.answer {
            self.end(out);
            self.first = self.next;
            self.answer = answer;
        }
        self.next = self.next.saturating_add(1);
    }

    /// Prints the current line: its first and its last number, and their answer.
    fn end(&self, out: &mut Answer) {
        if let Some(last) = self.next.checked_sub(1) {
            out.show(format_args!("{}..{last} ", self.first));
            out.add_bytes(self.answer.as_slice());
        }
    }
}
