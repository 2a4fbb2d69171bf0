//! Stories, which are tests written as texts: each line has a call and its expected answer.
use crate::tests::checks::{assert_told, done};
use std::alloc::{AllocError, Global};
use std::fmt::{Debug, Display};
use std::io::Write;
use std::process::Abort;
use test_tools::{has_refused, refuse};

/// An object on which the lines of a story make their calls.
pub(crate) trait Called<R> {
    /// Makes the call that these words name, and appends its answer. Fails if memory is refused.
    fn call(
        &mut self,
        rt: &R,
        alloc: Global,
        words: &str,
        answer: &mut Vec<u8>,
    ) -> Result<(), AllocError>;
}

/// The number of bytes that are reserved for an answer. No answer here is longer. The bytes are reserved before a call, so that only growths in the
/// call are refused.
const ROOM: usize = 4_000;

/// Makes the calls of a story, one for each line, and refuses the growth with this number in each call. Asserts that each answer is that of its line.
/// Returns whether a growth was refused.
pub(crate) fn tell<R: Abort, C: Called<R>>(
    rt: &R,
    alloc: Global,
    called: &mut C,
    number: u32,
    story: &str,
) -> bool {
    let mut answer = done(rt, Vec::with_capacity(alloc, ROOM));
    let mut is_refused = false;
    for line in story.lines() {
        let (words, wanted) = parts_of(line);
        answer.clear();
        let is_line_refused = call_again(rt, alloc, called, number, words, &mut answer);
        is_refused = is_refused || is_line_refused;
        assert_told(rt, line, answer.as_slice() == wanted.as_bytes());
    }
    is_refused
}

/// Makes a call while the growth with this number is refused, and returns whether a growth was refused. If so, asserts that the call reports a lack
/// of memory, and makes the call again with memory. The refused call must have left everything unchanged.
fn call_again<R: Abort, C: Called<R>>(
    rt: &R,
    alloc: Global,
    called: &mut C,
    number: u32,
    words: &str,
    answer: &mut Vec<u8>,
) -> bool {
    refuse(alloc, number);
    let call = called.call(rt, alloc, words, answer);
    if !has_refused(alloc) {
        done(rt, call);
        return false;
    }
    assert_told(
        rt,
        words,
        call.is_err() || answer.as_slice().starts_with(b"NoMemory"),
    );
    answer.clear();
    done(rt, called.call(rt, alloc, words, answer));
    true
}

/// The words of the call in a line, and the expected answer, which is empty if the line has none.
pub(crate) fn parts_of(line: &str) -> (&str, &str) {
    line.split_once(" = ").unwrap_or((line, ""))
}

/// The first word, and the text after it, which is empty if there is only one word.
pub(crate) fn first_word(words: &str) -> (&str, &str) {
    words.split_once(' ').unwrap_or((words, ""))
}

/// The name of a call, and the first two numbers after it. A missing number is 0.
pub(crate) fn call_of(words: &str) -> (&str, u32, u32) {
    let mut words = words.split(' ');
    let name = words.next().unwrap_or("");
    let first = number(words.next());
    (name, first, number(words.next()))
}

/// The number in a word, or 0 if the word isn't a number.
pub(crate) fn number(word: Option<&str>) -> u32 {
    word.unwrap_or("").parse::<u32>().unwrap_or(0)
}

/// Appends a value in its debug form.
pub(crate) fn show<T: Debug + Drop>(value: T, answer: &mut Vec<u8>) -> Result<(), AllocError> {
    say(format_args!("{value:?}"), answer)
}

/// Appends a text.
pub(crate) fn say<D: Display + Drop>(text: D, answer: &mut Vec<u8>) -> Result<(), AllocError> {
    write!(answer, "{text}").map_err(|_| AllocError)
}
