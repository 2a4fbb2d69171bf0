//! The papers of documents and of their pages.
use crate::answer::Answer;
use crate::words::{paper, papers_of, word};
use dsc::{Document, DscError, comment_value, trailer_box};
use lengths::{Paper, a4, paper_by_name};
use papers::{Cut, cut_by, document_paper, first_instead_of, merge_near_sizes, page_papers};
use std::alloc::Global;

/// Appends a paper: its name if that is a3, a4, a5 or letter, otherwise its width and height in points.
pub fn show_paper(out: &mut Answer, paper: &Paper) {
    for name in ["a3", "a4", "a5", "letter"] {
        if paper_by_name(name) == Some(*paper) {
            return out.text(name);
        }
    }
    out.points(paper.width());
    out.text(" ");
    out.points(paper.height());
}

/// Prints the paper that a document's comments or setup give, with a4 as the default paper, and the comment or setup that gives it. Prints `none` if
/// none of these gives a paper.
pub fn show_document_paper(out: &mut Answer, text: &[u8]) {
    match document_paper(text, &a4()) {
        Some((paper, comment)) => {
            show_paper(out, &paper);
            out.line(format_args!(" by {comment:?}"));
        }
        None => out.text("none\n"),
    }
}

/// Prints the paper of each page, with letter as the default paper and `asked` as the paper of the command line. If the document is refused, prints
/// the reason.
pub fn home_papers(out: &mut Answer, text: &[u8], asked: Option<Paper>) -> Option<()> {
    let home = paper_by_name("letter")?;
    match papers_at(out.alloc, text, asked, &home) {
        Ok(papers) => paper_lines(out, papers.as_slice()),
        Err(error) => out.line(error),
    }
    Some(())
}

/// Prints the papers of the pages, with letter as the default paper. Papers of nearly the same size are replaced by the smallest paper that covers
/// them. If the document is refused, prints the reason.
pub fn counted(out: &mut Answer, text: &[u8]) -> Option<()> {
    let home = paper_by_name("letter")?;
    match papers_at(out.alloc, text, None, &home) {
        Ok(own) => counted_lines(out, own.as_slice()),
        Err(error) => out.line(error),
    }
    Some(())
}

fn counted_lines(out: &mut Answer, own: &[Paper]) {
    match merge_near_sizes(out.alloc, own, own) {
        Ok(papers) => paper_lines(out, papers.as_slice()),
        Err(_) => out.note(false),
    }
}

fn papers_at(
    alloc: Global,
    text: &[u8],
    asked: Option<Paper>,
    home: &Paper,
) -> Result<Vec<Paper>, DscError> {
    let document = Document::read(alloc, text)?;
    page_papers(alloc, &document, asked, home).map_err(|_| DscError::NoMemory)
}

/// Prints a line for each page, with its number, counted from 1, and its paper.
fn paper_lines(out: &mut Answer, papers: &[Paper]) {
    for (page, paper) in papers.iter().enumerate() {
        out.text("page ");
        out.show(page.saturating_add(1));
        out.text(" ");
        paper_line(out, paper);
    }
}

fn paper_line(out: &mut Answer, paper: &Paper) {
    show_paper(out, paper);
    out.text("\n");
}

/// Prints the first and the last page that a paper cuts, counted from 1, the number of such pages, and the smallest paper that covers them. Prints
/// `none` if the paper cuts no page. The words give the paper, and then the papers of the pages. `None` if one of them names no paper.
pub fn cutting(out: &mut Answer, words: &[String]) -> Option<()> {
    let sheet = paper(words, 1)?;
    let own = papers_of(out.alloc, words.get(2..)?)?;
    cut_line(out, cut_by(&sheet, own.as_slice()));
    Some(())
}

fn cut_line(out: &mut Answer, cut: Option<Cut>) {
    match cut {
        Some(cut) => {
            let (first, last) = (cut.first.saturating_add(1), cut.last.saturating_add(1));
            out.show(format_args!("first {first}, last {last}, pages {}, paper ", cut.pages));
            paper_line(out, &cut.paper);
        }
        None => out.text("none\n"),
    }
}

/// Prints the paper of the first page if no page has the given paper or one of nearly its size, otherwise `none`. The words give that paper, and then
/// the papers of the pages.
pub fn instead_of(out: &mut Answer, words: &[String]) -> Option<()> {
    let sheet = paper(words, 1)?;
    let own = papers_of(out.alloc, words.get(2..)?)?;
    match first_instead_of(&sheet, own.as_slice()) {
        Some(first) => paper_line(out, &first),
        None => out.text("none\n"),
    }
    Some(())
}

/// Prints the value of the bounding box in the trailer, or `none` if the trailer has no bounding box.
pub fn trailing_box(out: &mut Answer, text: &[u8]) {
    value(out, trailer_box(text));
}

/// Prints the value of a line that is a `%%Title:` comment, or `none` for another line. `None` if no line is given.
pub fn value_of_title(out: &mut Answer, words: &[String]) -> Option<()> {
    let line = word(words, 1)?.as_bytes();
    value(out, comment_value(line, b"%%Title", b"%%Title:"));
    Some(())
}

fn value(out: &mut Answer, value: Option<&[u8]>) {
    match value {
        Some(value) => out.quoted_line(value),
        None => out.text("none\n"),
    }
}
