//! The answer of a command. With the library of `checks/refuse.c`, each growth of memory is refused in turn. The answer must then stay the same,
//! report a lack of memory, or be missing.
use crate::answer::Answer;
use crate::words::{Document, without_form};
use crate::{documents, programs, specifications};
use std::alloc::Global;
use std::sync::Wait;
use std::thread::Threads;
use test_tools::{has_refused, refuse};

/// The number of the first growth that isn't refused, even if a command has more growths. Growths are counted from 1.
const MOST_REFUSED: u32 = 1_000;

/// The answer of a command, if there is one, from a run in which no growth is refused. A run in which a growth is refused must have no answer, report
/// a lack of memory, or have the usual answer. Otherwise the answer says that a refused growth isn't reported.
pub fn answer_of<R: Threads + Wait + Sync>(
    rt: &R,
    alloc: Global,
    words: &[String],
    documents: &[Document],
) -> Option<Vec<u8>> {
    let usual = answer_once(rt, alloc, words, documents)?;
    for number in 1..MOST_REFUSED {
        refuse(alloc, number);
        let answer = answer_once(rt, alloc, words, documents);
        if !has_refused(alloc) {
            return answer;
        }
        if let Some(text) = answer {
            if !is_fair(text.as_slice(), usual.as_slice()) {
                return Vec::from_slice(alloc, b"a refused growth isn't reported\n").ok();
            }
        }
    }
    Some(usual)
}

/// The answer of a command, if there is one.
fn answer_once<R: Threads + Wait + Sync>(
    rt: &R,
    alloc: Global,
    words: &[String],
    documents: &[Document],
) -> Option<Vec<u8>> {
    let mut out = Answer::new(alloc);
    let words = without_form(&mut out, words);
    let is_command = documents::run(&mut out, words, documents).is_some()
        || specifications::run(&mut out, words).is_some()
        || programs::run(rt, &mut out, words, documents).is_some();
    if is_command { out.whole() } else { None }
}

/// Whether a run in which a growth is refused may have this answer. It may be the usual answer, or report a lack of memory, with status 3 if it has a
/// status.
fn is_fair(text: &[u8], usual: &[u8]) -> bool {
    let is_failure = text.starts_with(b"status 3\n") || !text.starts_with(b"status");
    text == usual || is_failure && reports_no_memory(text)
}

/// Whether an answer contains the name or the message of an error that reports a lack of memory.
fn reports_no_memory(text: &[u8]) -> bool {
    for start in 0..text.len() {
        let (_, rest) = text.split_at(start);
        if rest.starts_with(b"NoMemory")
            || rest.starts_with(b"out of memory")
            || rest.starts_with(b"memory allocation failed")
        {
            return true;
        }
    }
    false
}
