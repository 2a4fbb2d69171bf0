//! Commands that cut documents, and insert the guard into them.
use crate::answer::Answer;
use crate::documents::changes::{every_change, every_prefix};
use crate::documents::cuts::{bodies, counted, cut, refusals};
use crate::documents::guards::guard;
use crate::words::{Document, count, text_of, word};

pub fn run(out: &mut Answer, words: &[String], documents: &[Document]) -> Option<()> {
    match word(words, 0)? {
        "refusals" => refusals(out),
        "cut" => cut(out, count(words, 1)?, text_of(documents, words, 2)?),
        _ => return run_on(out, words, text_of(documents, words, 1)?),
    }
    Some(())
}

/// Runs a command on a document. `None` if no command has this name, or its words aren't understood.
fn run_on(out: &mut Answer, words: &[String], text: &[u8]) -> Option<()> {
    match word(words, 0)? {
        "pages" => counted(out, text),
        "prepare" => bodies(out, text),
        "pages_of_prefixes" => every_prefix(out, text),
        "pages_with_byte" => every_change(out, text, word(words, 2)?),
        "guard" => guard(out, text, words),
        _ => return None,
    }
    Some(())
}
