//! Reads the words of a command.
use crate::answer::{Answer, Form};
use lengths::{Grains, NoMemory, Number, Paper, paper_by_name};
use pagespec::{Item, Spec, read_spec};
use std::alloc::Global;
use std::fs::File;
use std::io;
use std::io::Read;

/// A document: the name of its file, and its bytes.
#[derive(Drop)]
pub struct Document {
    pub name: String,
    pub bytes: Vec<u8>,
}

/// Reads the documents that words name. Words that name no readable file are skipped.
pub fn documents_of(
    rt: &HostRuntime,
    alloc: Global,
    words: &[String],
) -> io::Result<Vec<Document>> {
    let mut documents = Vec::new(alloc);
    for word in words {
        if let Ok(mut file) = File::open(rt, word.as_str()) {
            let mut bytes = Vec::new(alloc);
            if file.read_to_end(&mut bytes).is_ok() {
                let name = String::from_str(alloc, word.as_str())?;
                documents.push(Document { name, bytes })?;
            }
        }
    }
    Ok(documents)
}

/// Sets the form of the answer if the first word is `line` or `taken`, and returns the words after that word. Otherwise returns all words.
pub fn without_form<'w>(out: &mut Answer, words: &'w [String]) -> &'w [String] {
    let form = match word(words, 0) {
        Some("line") => Form::Line,
        Some("taken") => Form::Taken,
        _ => return words,
    };
    out.form = form;
    words.get(1..).unwrap_or(words)
}

pub fn word(words: &[String], at: usize) -> Option<&str> {
    Some(words.get(at)?.as_str())
}

/// The whole number in word `at`, counted from 0. `None` if there is no such word, or if it isn't a whole number.
pub fn number(words: &[String], at: usize) -> Option<i128> {
    number_in(word(words, at)?)
}

pub fn number_in(text: &str) -> Option<i128> {
    text.parse::<i128>().ok()
}

/// The number that a text gives in units of 10^-9. `None` if the text isn't a whole number, or if the number is out of range.
pub fn billionths(text: &str) -> Option<Number> {
    Number::new(i64::try_from(number_in(text)?).ok()?)
}

/// The whole number in word `at`, counted from 0, such as a number of pages. `None` unless it is from 0 to 2^32 - 1.
pub fn count(words: &[String], at: usize) -> Option<u32> {
    count_in(word(words, at)?)
}

pub fn count_in(text: &str) -> Option<u32> {
    u32::try_from(number_in(text)?).ok()
}

/// The paper that word `at`, counted from 0, gives by its name or by its sides in the form `WxH`. Sides are in 10^-5 of a point, or in grains if a
/// `g` follows them. `None` if the word gives no paper.
pub fn paper(words: &[String], at: usize) -> Option<Paper> {
    let text = word(words, at)?;
    if let Some(paper) = paper_by_name(text) {
        return Some(paper);
    }
    let (sides, unit) = text
        .strip_suffix('g')
        .map_or((text, 1_270_000), |sides| (sides, 1));
    let (width, height) = sides.split_once('x')?;
    Paper::new(length(width, unit)?, length(height, unit)?)
}

/// The papers with these names. `None` if one of them isn't the name of a paper.
pub fn papers_of(alloc: Global, names: &[String]) -> Option<Vec<Paper>> {
    let mut papers = Vec::new(alloc);
    for name in names {
        papers.push(paper_by_name(name.as_str())?).ok()?;
    }
    Some(papers)
}

/// The bytes of the document that word `at`, counted from 0, names. `None` if no document has this name.
pub fn text_of<'d>(documents: &'d [Document], words: &[String], at: usize) -> Option<&'d [u8]> {
    let name = word(words, at)?;
    let document = documents
        .iter()
        .find(|document| document.name.as_str() == name)?;
    Some(document.bytes.as_slice())
}

/// The length that a text gives as a number of units. `unit` is the number of grains in a unit. `None` if the text gives no length.
pub fn length(text: &str, unit: i128) -> Option<Grains> {
    Grains::new(number_in(text)?.checked_mul(unit)?)
}

/// The text that a word gives. The word `repeat N TEXT BETWEEN FRONT BACK` gives `N` copies of `TEXT`, with `BETWEEN` between them, `FRONT` before
/// the first and `BACK` after the last. `BETWEEN`, `FRONT` and `BACK` may be left out. `None` if `N` isn't a number, or if memory is refused.
pub fn long_text(alloc: Global, text: &str) -> Option<String> {
    if part(text, 0) != "repeat" {
        return String::from_str(alloc, text).ok();
    }
    let times = count_in(part(text, 1))?;
    let (one, between) = (part(text, 2), part(text, 3));
    let (front, back) = (part(text, 4), part(text, 5));
    repeated(alloc, [front, one, between, back], times as usize).ok()
}

/// Part `at`, counted from 0, of a text that is split at its spaces. It is empty if the text has no such part.
fn part(text: &str, at: usize) -> &str {
    text.split(' ').nth(at).unwrap_or("")
}

/// The first of the parts, then `times` copies of the second with the third between them, and then the fourth.
fn repeated(alloc: Global, parts: [&str; 4], times: usize) -> Result<String, NoMemory> {
    let [front, one, between, back] = parts;
    let ones = vec![in alloc; one; times]?;
    let text = ones.as_slice().join(alloc, between)?;
    [front, text.as_str(), back].concat(alloc)
}

/// The specification that word `at`, counted from 0, gives. `None` if there is no such word, or if the specification is refused. A refusal is added
/// to the answer.
pub fn specification(out: &mut Answer, words: &[String], at: usize) -> Option<Spec> {
    let word = word(words, at)?;
    let Some(text) = long_text(out.alloc, word) else {
        out.note(false);
        return None;
    };
    match read_spec(out.alloc, text.as_str()) {
        Ok(spec) => Some(spec),
        Err(error) => {
            out.refusal(error);
            None
        }
    }
}

/// The first item of the specification that a text gives. `None` if the text is refused.
pub fn item(alloc: Global, text: &str) -> Option<Item> {
    let spec = read_spec(alloc, text).ok()?;
    spec.groups().first()?.first().copied()
}

/// The row that words give: page numbers, counted from 0, and `-` for a blank. `None` if a word is neither.
pub fn row(alloc: Global, words: &[String]) -> Option<Vec<Option<u32>>> {
    let mut row = Vec::new(alloc);
    for word in words {
        let entry = match word.as_str() {
            "-" => None,
            text => Some(text.parse::<u32>().ok()?),
        };
        row.push(entry).ok()?;
    }
    Some(row)
}
