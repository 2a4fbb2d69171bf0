//! Sheets that are made from rows.
ghost use Rattle.std.specs.Prelude.{◌<◌, length};

use crate::answer::Answer;
use crate::documents::named_rows::entries;
use crate::documents::paper_texts::show_paper;
use crate::words::{paper, specification, word};
use lengths::{Paper, a4, paper_by_name};
use pagespec::Turn;
use row_sheets::{SpecOnRow, select, spec_sheets};
use rows::all_pages;
use sheet_plan::{MadeSheets, PlacedSlot};
use std::alloc::Global;
use std::fmt::Display;

/// The largest number of sheets that are printed without omissions.
const FEW: u32 = 20;

/// Prints the sheets of a row, with each entry on a sheet of its own. `None` if the words aren't understood.
pub fn on_their_own(out: &mut Answer, words: &[String]) -> Option<()> {
    let (blank, row) = (paper(words, 1)?, word(words, 3)?);
    let (pages, names) = pages_and_names(word(words, 2)?)?;
    let papers = papers_in_turn(out.alloc, pages, names)?;
    let row = row_of(out.alloc, pages, row)?;
    show(
        out,
        select(out.alloc, row.as_slice(), papers.as_slice(), &blank),
    );
    Some(())
}

/// The number of pages, and the names of their papers. Both are in one text, such as `5 a4 a3`. `None` for another text.
fn pages_and_names(text: &str) -> Option<(u32, &str)> {
    let (pages, names) = text.split_once(' ')?;
    Some((pages.parse::<u32>().ok()?, names))
}

/// Prints the sheets that a specification makes from a row, with sheets of A3 and pages of A4, or the reason why there are none. `None` if the row
/// isn't understood.
pub fn by_specification(out: &mut Answer, words: &[String]) -> Option<()> {
    let Some(spec) = specification(out, words, 1) else {
        return Some(());
    };
    let row = entries(out.alloc, word(words, 2)?)?;
    let on = SpecOnRow {
        spec: &spec,
        row: row.as_slice(),
        sheet: paper_by_name("a3")?,
        page: a4(),
    };
    show(out, spec_sheets(out.alloc, &on));
    Some(())
}

/// The papers of `pages` pages: the named papers in their order, repeated as often as needed. `None` if a name that is used isn't that of a paper, or
/// if memory is refused.
fn papers_in_turn(alloc: Global, pages: u32, names: &str) -> Option<Vec<Paper>> {
    let turns = names.split_whitespace().count().max(1);
    let mut papers = Vec::new(alloc);
    for page in 0..pages as usize {
        papers.push(paper_at(names, page % turns)?).ok()?;
    }
    Some(papers)
}

fn paper_at(names: &str, at: usize) -> Option<Paper> {
    paper_by_name(names.split_whitespace().nth(at)?)
}

/// The row that a text gives: all pages for `all`, otherwise the entries that the text names. `None` if it isn't a row.
fn row_of(alloc: Global, pages: u32, row: &str) -> Option<Vec<Option<u32>>> {
    match row {
        "all" => all_pages(alloc, pages).ok(),
        text => entries(alloc, text),
    }
}

/// Prints sheets, or the reason why there are none.
fn show<E: Display + Drop>(out: &mut Answer, made: Result<MadeSheets, E>) {
    match made {
        Ok(made) => sheet_lines(out, &made),
        Err(refusal) => out.line(refusal),
    }
}

/// Prints a line for each sheet. Of more than `FEW` sheets, prints the first two and the last two, and the number of sheets.
fn sheet_lines(out: &mut Answer, made: &MadeSheets) {
    let Ok(sheets) = u32::try_from(made.len()) else {
        return out.text("too many\n");
    };
    for sheet in 0..sheets {
        if sheets <= FEW || sheet < 2 || sheets - sheet <= 2 {
            sheet_line(out, made, sheet);
        } else if sheet == 2 {
            out.text("..\n");
        }
    }
    if sheets > FEW {
        out.labelled("sheets", sheets);
    }
}

/// Prints a sheet, such as `a3: 1 a4 left, -`.
fn sheet_line(out: &mut Answer, made: &MadeSheets, sheet: u32)
    requires { sheet < length made.now }
{
    show_paper(out, made.paper(sheet));
    out.text(":");
    for slot in 0..made.slots(sheet) {
        out.text(if slot == 0 { " " } else { ", " });
        show_slot(out, made.placed(sheet, slot));
    }
    out.text("\n");
}

/// Appends the content of a slot, such as `1 a4 left`: the page's number from 1, its paper, and its turn. A blank slot is `-`.
fn show_slot(out: &mut Answer, slot: Option<PlacedSlot<'_>>) {
    match slot {
        Some(placed) => {
            out.show(format_args!("{} ", placed.page.saturating_add(1)));
            show_paper(out, placed.paper);
            out.text(turn_text(placed.item.turn));
        }
        None => out.text("-"),
    }
}

/// The name of a turn, after a space.
fn turn_text(turn: Turn) -> &'static str {
    match turn {
        Turn::None => " upright",
        Turn::Left => " left",
        Turn::Half => " half",
        Turn::Right => " right",
    }
}
