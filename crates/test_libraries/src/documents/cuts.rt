//! Documents that are cut into their parts: preamble, pages and trailer.
use crate::answer::Answer;
use dsc::{Body, Document, DscError, prepare};
use std::alloc::{AllocError, Global};

/// Prints the filtered preamble for `sheets` sheets, each page with its body, and the filtered trailer. Adds a line if the document doesn't have the
/// text that it was read from. If the text is refused, prints only the reason.
pub fn cut(out: &mut Answer, sheets: u32, text: &[u8]) {
    match Document::read(out.alloc, text) {
        Ok(document) => parts(out, sheets, &document, text),
        Err(refusal) => out.line(refusal),
    }
}

fn parts(out: &mut Answer, sheets: u32, document: &Document<'_>, text: &[u8]) {
    filtered(out, "preamble ", document.preamble_text(sheets));
    for number in 0..document.pages() {
        page_lines(out, document.page(number), document.body(out.alloc, number));
    }
    filtered(out, "trailer ", document.trailer_text());
    if document.text() != text {
        out.text("but the document has another text\n");
    }
}

fn filtered(out: &mut Answer, part: &str, text: Result<Vec<u8>, AllocError>) {
    out.text(part);
    match text {
        Ok(text) => out.quoted_line(text.as_slice()),
        Err(_) => out.note(false),
    }
}

/// Prints a page with its body. If the page has another body when it is prepared outside the document, prints that body too.
fn page_lines(out: &mut Answer, page: &[u8], body: Result<Body<'_>, AllocError>) {
    let body = body_line(out.alloc, body);
    let mut alone = Answer::new(out.alloc);
    bodies(&mut alone, page);
    let is_same = body.bytes == alone.bytes;
    out.text("page ");
    out.quoted(page);
    out.text(" body ");
    out.add(body);
    if !is_same {
        out.text("but prepared ");
        out.add(alone);
    }
}

fn body_line(alloc: Global, body: Result<Body<'_>, AllocError>) -> Answer {
    let mut line = Answer::new(alloc);
    match body {
        Ok(body) => line.quoted_line(body.as_slice()),
        Err(_) => line.note(false),
    }
    line
}

/// Prints the body of a page, or the reason why the page has none. If the two functions that prepare a page (`prepare` and `Body::prepare`) differ,
/// prints both results.
pub fn bodies(out: &mut Answer, page: &[u8]) {
    let copied = copied_line(out.alloc, page);
    let held = held_line(out.alloc, page);
    if copied.bytes == held.bytes {
        out.add(copied);
    } else {
        out.text("copied ");
        out.add(copied);
        out.text("held ");
        out.add(held);
    }
}

fn copied_line(alloc: Global, page: &[u8]) -> Answer {
    let mut line = Answer::new(alloc);
    match prepare(alloc, page) {
        Ok(body) => line.quoted_line(body.as_slice()),
        Err(refusal) => line.line(refusal),
    }
    line
}

fn held_line(alloc: Global, page: &[u8]) -> Answer {
    let mut line = Answer::new(alloc);
    match Body::prepare(alloc, page) {
        Ok(body) => line.quoted_line(body.as_slice()),
        Err(refusal) => line.line(refusal),
    }
    line
}

/// Prints the number of a document's pages, and the number of pages after its trailer if there are any. If the text is refused, prints the reason.
pub fn counted(out: &mut Answer, text: &[u8]) {
    match Document::read(out.alloc, text) {
        Ok(document) => numbers(out, &document),
        Err(refusal) => out.line(refusal),
    }
}

fn numbers(out: &mut Answer, document: &Document<'_>) {
    let pages = document.pages();
    match document.pages_after_trailer() {
        0 => out.labelled("pages", pages),
        after => out.line(format_args!("pages {pages}, after the trailer {after}")),
    }
}

/// Prints the message of each reason for which a document is refused.
pub fn refusals(out: &mut Answer) {
    for refusal in [
        DscError::TooLong,
        DscError::NotPostScript,
        DscError::BadCount(17),
        DscError::ShortData(0),
        DscError::TooManyPages,
        DscError::NoPages,
        DscError::NoMemory,
    ] {
        out.line(refusal);
    }
}
