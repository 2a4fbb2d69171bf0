//! Prints rows of pages that page ranges name or that choices give.
ghost use Rattle.std.specs.Prelude.{◌≤◌};

use crate::answer::Answer;
use crate::words::{count, word};
use rows::{Choice, Part, Signing, auto_sides, chosen_row, imposed_row, in_signatures, read_row};
use sheet_plan::are_sides;
use std::alloc::Global;
use std::fmt::Display;

/// The smallest number of entries that is too large for a row.
const TOO_MANY: u32 = 1_000_001;

/// The largest number of entries of a row that is printed whole.
const FEW: usize = 20;

/// Prints the row that page ranges name, or the reason why they name none. `None` if the words aren't understood.
pub fn named(out: &mut Answer, words: &[String]) -> Option<()> {
    let (pages, text) = (count(words, 1)?, word(words, 2)?);
    show(out, read_row(out.alloc, pages, text.as_bytes()));
    Some(())
}

/// Prints the row of pages that a choice gives, or the reason why the choice gives none. `None` if the words aren't understood.
pub fn chosen(out: &mut Answer, words: &[String]) -> Option<()> {
    let pages = count(words, 1)?;
    let choice = choice_of(words.get(2..)?);
    if pages < TOO_MANY {
        show(out, chosen_row(out.alloc, pages, &choice));
    } else {
        out.text("too many pages\n");
    }
    Some(())
}

/// Prints the row of pages that a choice gives, or the reason why it gives none. The row is put into signatures unless the word for signatures is
/// `unsigned`. `None` if the words aren't understood.
pub fn imposed(out: &mut Answer, words: &[String]) -> Option<()> {
    let (pages, signing) = (count(words, 1)?, word(words, 2)?);
    let choice = choice_of(words.get(3..)?);
    if pages < TOO_MANY {
        signed(out, pages, &choice, signing);
    } else {
        out.text("too many pages\n");
    }
    Some(())
}

fn signed(out: &mut Answer, pages: u32, choice: &Choice<'_>, signing: &str)
    requires { pages ≤ 1_000_000 }
{
    let alloc = out.alloc;
    let sides = signing.parse::<u32>().unwrap_or(0);
    match signing {
        "unsigned" => show(out, imposed_row(alloc, pages, choice, None)),
        "in_one" => show(out, imposed_row(alloc, pages, choice, Some(Signing::InOne))),
        "auto" => show(out, imposed_row(alloc, pages, choice, Some(Signing::Auto))),
        _ if are_sides(sides) => {
            show(
                out,
                imposed_row(alloc, pages, choice, Some(Signing::OfSides(sides))),
            )
        }
        _ => out.text("no sides of leaves\n"),
    }
}

/// The choice that words give: `odd`, `even`, `backwards`, and ranges of pages.
fn choice_of(words: &[String]) -> Choice<'_> {
    let mut choice = Choice {
        ranges: None,
        part: Part::All,
        backwards: false,
    };
    for word in words {
        match word.as_str() {
            "odd" => choice.part = Part::Odd,
            "even" => choice.part = Part::Even,
            "backwards" => choice.backwards = true,
            ranges => choice.ranges = Some(ranges.as_bytes()),
        }
    }
    choice
}

/// Prints the number of sides that `Signing::Auto` gives the signatures of a row, or that no row has this number of entries. The word after the
/// command's name is the number of the row's entries. `None` if this word isn't a number.
pub fn sides_for(out: &mut Answer, words: &[String]) -> Option<()> {
    let entries = count(words, 1)?;
    if 0 < entries && entries < TOO_MANY {
        out.line(auto_sides(entries as usize));
    } else {
        out.text("no row has so many entries\n");
    }
    Some(())
}

/// Prints a row in signatures of a given number of sides, or the reason why there is none. `None` if the words aren't understood.
pub fn sewn(out: &mut Answer, words: &[String]) -> Option<()> {
    let sides = count(words, 1)?;
    let row = entries(out.alloc, word(words, 2)?)?;
    if are_sides(sides) {
        show(out, in_signatures(out.alloc, row.as_slice(), sides));
    } else {
        out.text("no sides of leaves\n");
    }
    Some(())
}

/// The entries of a row: pages by their numbers from 1, `-` for a blank, and `1*9` for page 1 nine times. `None` for another text.
pub fn entries(alloc: Global, text: &str) -> Option<Vec<Option<u32>>> {
    let mut row = Vec::new(alloc);
    for word in text.split_whitespace() {
        let (entry, times) = entry_of(word)?;
        for _ in 0..times {
            row.push(entry).ok()?;
        }
    }
    Some(row)
}

/// The entry that a word gives, and the number of times that it is repeated. `None` if the word gives no entry.
fn entry_of(word: &str) -> Option<(Option<u32>, u32)> {
    if word == "-" {
        return Some((None, 1));
    }
    let (page, times) = word.split_once('*').unwrap_or((word, "1"));
    let page = page.parse::<u32>().ok()?.checked_sub(1)?;
    Some((Some(page), times.parse::<u32>().ok()?))
}

/// Prints a row, or the reason why there is none.
fn show<E: Display + Drop>(out: &mut Answer, answer: Result<Vec<Option<u32>>, E>) {
    match answer {
        Ok(row) => row_line(out, row.as_slice()),
        Err(error) => out.line(error),
    }
}

/// Prints the entries of a row. Of a row with more than `FEW` entries, prints the first three and the last three entries, and the number of entries.
fn row_line(out: &mut Answer, row: &[Option<u32>]) {
    if row.len() <= FEW {
        show_entries(out, row);
        return out.text("\n");
    }
    let (first, _) = row.split_at(3);
    let (_, last) = row.split_at(row.len() - 3);
    show_entries(out, first);
    out.text(" .. ");
    show_entries(out, last);
    out.labelled(", entries", row.len());
}

fn show_entries(out: &mut Answer, row: &[Option<u32>]) {
    for (at, entry) in row.iter().enumerate() {
        if at > 0 {
            out.text(" ");
        }
        match entry {
            Some(page) => out.show(page.saturating_add(1)),
            None => out.text("-"),
        }
    }
}
