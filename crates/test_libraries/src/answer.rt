//! The answers of commands, as text.
use lengths::{Grains, print_points};
use std::alloc::Global;
use std::fmt::{Debug, Display};
use std::io::Write;

/// The form of an answer. `Whole` and `Line` give the whole answer: `Whole` gives a refusal by its name in the program, and `Line` by its message.
/// `Taken` gives `yes` in place of an answer that isn't a refusal, and a refusal as `Whole` does.
#[derive(Clone, Copy, PartialEq, Eq)]
pub enum Form {
    Whole,
    Line,
    Taken,
}

/// The text of an answer, while it is put together.
#[derive(Drop)]
pub struct Answer {
    pub alloc: Global,
    pub form: Form,
    pub bytes: Vec<u8>,
    is_refused: bool,
    is_whole: bool,
}

impl Answer {
    pub fn new(alloc: Global) -> Answer {
        Answer {
            alloc,
            form: Form::Whole,
            bytes: Vec::new(alloc),
            is_refused: false,
            is_whole: true,
        }
    }

    /// The bytes of the answer in its form. `None` if memory ran out while the answer was put together.
    pub fn whole(mut self) -> Option<Vec<u8>> {
        if self.form == Form::Taken && !self.is_refused {
            self.bytes.clear();
            self.verdict(true);
        }
        self.is_whole.then_some(self.bytes)
    }

    /// Appends another answer. If that answer isn't whole, this one isn't either.
    pub fn add(&mut self, other: Answer) {
        self.note(other.is_whole);
        self.add_bytes(other.bytes.as_slice());
    }

    pub fn add_bytes(&mut self, bytes: &[u8]) {
        let added = self.bytes.extend_from_slice(bytes);
        self.note(added.is_ok());
    }

    /// Appends bytes in quotes, with escapes. Bytes that aren't UTF-8 are replaced.
    pub fn quoted(&mut self, bytes: &[u8]) {
        match String::from_utf8_lossy(self.alloc, bytes) {
            Ok(text) => self.show(format_args!("{text:?}")),
            Err(_) => self.note(false),
        }
    }

    /// Appends bytes as `quoted` does, and a line end.
    pub fn quoted_line(&mut self, bytes: &[u8]) {
        self.quoted(bytes);
        self.text("\n");
    }

    /// Appends bytes as text. Bytes that aren't UTF-8 are replaced.
    pub fn lossy(&mut self, bytes: &[u8]) {
        match String::from_utf8_lossy(self.alloc, bytes) {
            Ok(text) => self.text(text.as_str()),
            Err(_) => self.note(false),
        }
    }

    /// Appends a length in points.
    pub fn points(&mut self, length: Grains) {
        let before = self.bytes.len();
        let added = print_points(length, &mut self.bytes);
        self.note_appended(before, added.is_ok());
    }

    /// Notes whether an addition to the answer succeeded. After a failed addition the answer isn't whole.
    pub fn note(&mut self, is_added: bool) {
        self.is_whole = self.is_whole && is_added;
    }

    /// Notes whether a call of a library could append to the answer. `before` is the number of bytes that the answer had before the call. A call that
    /// fails must append nothing. If it appends bytes all the same, the answer still counts as whole, so that it shows these bytes.
    pub fn note_appended(&mut self, before: usize, is_appended: bool) {
        let len = self.bytes.len();
        self.note(is_appended || len != before);
    }

    pub fn text(&mut self, text: &str) {
        self.add_bytes(text.as_bytes());
    }

    pub fn show<D: Display + Drop>(&mut self, value: D) {
        let added = write!(self.bytes, "{value}");
        self.note(added.is_ok());
    }

    /// Appends a value and a line end.
    pub fn line<D: Display + Drop>(&mut self, value: D) {
        self.show(value);
        self.text("\n");
    }

    /// Appends a label, a space, a value and a line end.
    pub fn labelled<D: Display + Drop>(&mut self, label: &str, value: D) {
        self.text(label);
        self.text(" ");
        self.line(value);
    }

    /// Appends two values, with a space between them, and a line end.
    pub fn pair<A: Display + Drop, B: Display + Drop>(&mut self, one: A, other: B) {
        self.show(one);
        self.text(" ");
        self.line(other);
    }

    pub fn verdict(&mut self, is_so: bool) {
        self.text(if is_so { "yes\n" } else { "no\n" });
    }

    /// Appends an error and a line end. The error is shown by its message in the form `Line`, otherwise by its name in the program.
    pub fn refusal<E: Debug + Display + Drop>(&mut self, error: E) {
        self.is_refused = true;
        if self.form == Form::Line {
            self.line(format_args!("{error}"));
        } else {
            self.line(format_args!("{error:?}"));
        }
    }
}
