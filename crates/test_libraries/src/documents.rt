//! Commands that cut documents, find their papers, and make rows of their pages.
mod changes;
mod cuts;
mod document_commands;
mod guards;
mod known_laws;
mod named_rows;
mod paper_commands;
mod paper_texts;
mod row_commands;
mod sheets;

use crate::answer::Answer;
pub use crate::documents::known_laws::call_laws;
use crate::words::Document;

/// Runs a command. `None` if no command has this name, or its words aren't understood.
pub fn run(out: &mut Answer, words: &[String], documents: &[Document]) -> Option<()> {
    let is_command = document_commands::run(out, words, documents).is_some()
        || paper_commands::run(out, words, documents).is_some()
        || row_commands::run(out, words).is_some();
    if is_command { Some(()) } else { None }
}
