//! Commands that find papers.
use crate::answer::Answer;
use crate::documents::paper_texts::{
    counted, cutting, home_papers, instead_of, show_document_paper, trailing_box, value_of_title,
};
use crate::words::{Document, paper, text_of, word};

pub fn run(out: &mut Answer, words: &[String], documents: &[Document]) -> Option<()> {
    match word(words, 0)? {
        "cut_by" => cutting(out, words),
        "first_instead_of" => instead_of(out, words),
        "title" => value_of_title(out, words),
        _ => run_on(out, words, text_of(documents, words, 1)?),
    }
}

/// Runs a command on a document. `None` if no command has this name, or its words aren't understood.
fn run_on(out: &mut Answer, words: &[String], text: &[u8]) -> Option<()> {
    match word(words, 0)? {
        "paper" => show_document_paper(out, text),
        "page_papers" => return home_papers(out, text, paper(words, 2)),
        "papers_as_one" => return counted(out, text),
        "trailer_box" => trailing_box(out, text),
        _ => return None,
    }
    Some(())
}
