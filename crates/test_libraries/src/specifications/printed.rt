//! Lists and drawings of sheets, made without imposing them.
use crate::answer::Answer;
use crate::specifications::filled::two_columns;
use crate::words::{count, length, paper, row, word};
use layouts::{ArrangementError, Setting};
use lengths::{Grains, Number, Paper, a4};
use pagespec::{Item, Measure, Turn};
use preview::{Edge, Guide, GuideKind, Places, Reading, Sides, plan_text, preview_text};
use row_sheets::{Scheme, fill_row};
use sheet_plan::{MadeSheets, MadeSlot};
use std::alloc::{AllocError, Global};

pub fn run(out: &mut Answer, words: &[String]) -> Option<()> {
    match word(words, 0)? {
        "booklet_plan" => booklet_plan(out, words),
        "grid_plan" => grid_plan(out, words),
        "preview" => folded_sheet(out, &paper(words, 1)?),
        _ => None,
    }
}

/// Prints the list of sheets that are filled from a row, with two pages on each. Every two sheets are the front and the back of a leaf. The words
/// after the command's name give the greatest number of lines, and the row. `None` if they aren't understood.
fn booklet_plan(out: &mut Answer, words: &[String]) -> Option<()> {
    let (setting, most) = (two_columns()?, count(words, 1)?);
    let row = row(out.alloc, words.get(2..)?)?;
    let made = fill_row(
        out.alloc,
        &setting,
        &[],
        &Scheme::Grid { cells: 2 },
        0,
        row.as_slice(),
    );
    let sides = Sides::Both { flip: Edge::Short };
    show(out, made, &reading(sides, &setting), most);
    Some(())
}

/// Prints the list of sheets that are filled from a row, with two pages on each, and printed on one side. The words after the command's name give the
/// greatest number of lines, the paper of the second page, and the row. `None` if they aren't understood.
fn grid_plan(out: &mut Answer, words: &[String]) -> Option<()> {
    let (setting, most) = (two_columns()?, count(words, 1)?);
    let papers = [a4(), paper(words, 2)?, a4()];
    let row = row(out.alloc, words.get(3..)?)?;
    let made = fill_row(
        out.alloc,
        &setting,
        &papers,
        &Scheme::Grid { cells: 2 },
        0,
        row.as_slice(),
    );
    show(out, made, &reading(Sides::One, &setting), most);
    Some(())
}

fn reading(sides: Sides, setting: &Setting) -> Reading {
    let places = Places::Cells {
        grid: setting.grid,
        order: setting.order,
    };
    Reading { sides, places }
}

/// Prints the list of sheets, with at most `most` lines for sheets or leaves, or the reason why there are none.
fn show(
    out: &mut Answer,
    made: Result<MadeSheets, ArrangementError>,
    reading: &Reading,
    most: u32,
) {
    match made {
        Ok(sheets) => add(out, plan_text(out.alloc, &sheets, reading, most)),
        Err(error) => out.refusal(error),
    }
}

fn add(out: &mut Answer, text: Result<Vec<u8>, AllocError>) {
    match text {
        Ok(text) => out.add_bytes(text.as_slice()),
        Err(_) => out.note(false),
    }
}

/// Prints the drawing of one sheet of this paper. The sheet has a page, a blank and the line of `fold`.
fn folded_sheet(out: &mut Answer, paper: &Paper) -> Option<()> {
    let (alloc, fold) = (out.alloc, fold()?);
    match one_sheet(alloc, 2, paper) {
        Ok(sheets) => {
            let sides = Sides::Both { flip: Edge::Short };
            add(out, preview_text(alloc, &sheets, sides, &[fold], 40));
        }
        Err(_) => out.note(false),
    }
    Some(())
}

/// A horizontal fold across the middle of a sheet that is 100 points wide and 200 points high.
fn fold() -> Option<Guide> {
    let (left, side) = (points("0")?, points("100")?);
    Some(Guide {
        kind: GuideKind::Fold,
        start: (left, side),
        end: (side, side),
    })
}

fn points(text: &str) -> Option<Grains> {
    length(text, 127_000_000_000)
}

/// The item that places a page without turning, scaling or moving it.
const WHOLE: Item = Item {
    page: 0,
    from_end: false,
    turn: Turn::None,
    scale: Number::ONE,
    offset: (Measure::ZERO, Measure::ZERO),
};

/// A sheet of this paper with two slots: this page, unmoved, and a blank.
fn one_sheet(alloc: Global, page: u32, paper: &Paper) -> Result<MadeSheets, AllocError> {
    let mut sheets = MadeSheets::new(alloc);
    let placed = MadeSlot::Placed {
        page,
        item: WHOLE,
        paper: *paper,
    };
    sheets.push(paper, &[placed, MadeSlot::Blank])?;
    Ok(sheets)
}
