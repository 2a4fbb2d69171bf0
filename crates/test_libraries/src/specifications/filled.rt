//! Sheets whose cells are filled from a row, and posters.
ghost use Rattle.std.specs.Prelude.{◌*◌, ◌≤◌, IfSome};
ghost use Rattle.layouts.specs.Cells.{size};

use crate::answer::Answer;
use crate::specifications::planned::page_lists;
use crate::words::{count, number, paper, row, word};
use layouts::{Arrangement, ArrangementError, Cells, Papers, Setting};
use lengths::{Paper, a4};
use row_sheets::{Poster, Scheme, check_poster, fill_row, poster_row_sheets, poster_sheets};
use sheet_plan::{MadeSheets, Plan};

pub fn run(out: &mut Answer, words: &[String]) -> Option<()> {
    match word(words, 0)? {
        "filled" => filled(out, words, &[]),
        "filled_with" => filled(out, words.get(1..)?, &[a4(), paper(words, 1)?]),
        "fitted" => fitted(out, words),
        "scale" => scale(out, words),
        "poster" | "check_poster" => poster(out, words),
        "posters" => posters(out, words),
        _ => None,
    }
}

/// Two columns and one row of cells on A4, for pages of A4. `None` if these cells are refused.
pub fn two_columns() -> Option<Setting>
    ensures { IfSome result (λ t. 2 ≤ size t.grid) }
{
    let papers = Papers {
        page: a4(),
        sheet: a4(),
    };
    let cells = Cells::Exactly {
        columns: 2,
        rows: 1,
    };
    match Setting::of(&papers, &Arrangement::plain(cells)) {
        Ok(setting) if setting.grid.size() >= 2 => Some(setting),
        _ => None,
    }
}

/// Prints the pages of the sheets that are filled from a row. The first word after the command's name says how: as a `grid`, as `cards`, as a `stack`
/// or as `leaves`. `papers` are the papers of the pages. `None` if the words aren't understood.
fn filled(out: &mut Answer, words: &[String], papers: &[Paper]) -> Option<()> {
    let setting = two_columns()?;
    let (alloc, way) = (out.alloc, word(words, 1)?);
    let row = row(alloc, words.get(2..)?)?;
    let row = row.as_slice();
    let scheme = match way {
        "grid" => Scheme::Grid { cells: 2 },
        "cards" => Scheme::Cards { cells: 2 },
        "stack" => Scheme::Stack { cells: 2 },
        "leaves" => Scheme::Leaves,
        _ => return None,
    };
    let made = fill_row(alloc, &setting, papers, &scheme, 0, row);
    show(out, made);
    Some(())
}

/// Prints the pages of each sheet, or the reason why there are no sheets.
fn show(out: &mut Answer, made: Result<MadeSheets, ArrangementError>) {
    match made {
        Ok(made) => show_sheets(out, &made),
        Err(error) => out.refusal(error),
    }
}

fn show_sheets(out: &mut Answer, made: &MadeSheets) {
    match Plan::of_sheets(out.alloc, 8, made) {
        Ok(plan) => page_lists(out, &plan),
        Err(error) => out.refusal(error),
    }
}

/// Prints the scale of a page of the named paper in the second cell, in 10^-9, and its offset, in 10^-9 of a point. `None` if no paper is named.
fn fitted(out: &mut Answer, words: &[String]) -> Option<()> {
    match two_columns()?.item(&paper(words, 1)?, 1) {
        Ok(item) => {
            let (x, y) = (item.offset.0.number, item.offset.1.number);
            let scale = item.scale.billionths();
            out.line(format_args!("{scale} {} {}", x.billionths(), y.billionths()));
        }
        Err(error) => out.refusal(error),
    }
    Some(())
}

fn scale(out: &mut Answer, words: &[String]) -> Option<()> {
    match two_columns()?.scale(&paper(words, 1)?) {
        Ok(scale) => out.line(scale.billionths()),
        Err(error) => out.refusal(error),
    }
    Some(())
}

/// A poster of two columns and one row of A4 sheets, with margins of 10 points and an overlap of 20 points.
fn two_tiles() -> Poster
    ensures { result.rows * result.columns ≤ 1_024 }
{
    Poster {
        sheet: a4(),
        columns: 2,
        rows: 1,
        edge: 1_000_000,
        overlap: 2_000_000,
        scale: None,
    }
}

/// The poster of `two_tiles`. If three numbers come after the page's paper, they replace its number of columns, its margin and its overlap. Margin
/// and overlap are in 10^-5 of a point. `None` if one of the three isn't a number in range.
fn poster_of(words: &[String]) -> Option<Poster> {
    let mut poster = two_tiles();
    if word(words, 2).is_some() {
        poster.columns = count(words, 2)?;
        poster.edge = u64::try_from(number(words, 3)?).ok()?;
        poster.overlap = u64::try_from(number(words, 4)?).ok()?;
    }
    Some(poster)
}

fn poster(out: &mut Answer, words: &[String]) -> Option<()> {
    let poster = poster_of(words)?;
    let page = paper(words, 1)?;
    if word(words, 0)? == "check_poster" {
        match check_poster(&poster, &page) {
            Ok(()) => out.verdict(true),
            Err(error) => out.refusal(error),
        }
    } else {
        match poster_sheets(out.alloc, &poster, &page, 0) {
            Ok(made) => offsets(out, &made),
            Err(error) => out.refusal(error),
        }
    }
    Some(())
}

/// Prints the offsets for the pages of a row, each on the two sheets of `two_tiles`. The second page has a paper of its own. `None` if the words
/// aren't understood.
fn posters(out: &mut Answer, words: &[String]) -> Option<()> {
    let papers = [a4(), paper(words, 1)?];
    let row = row(out.alloc, words.get(2..)?)?;
    match poster_row_sheets(out.alloc, &two_tiles(), &papers, row.as_slice()) {
        Ok(made) => offsets(out, &made),
        Err(error) => out.refusal(error),
    }
    Some(())
}

/// Prints, for each sheet, the offset of the page in its first slot, in 10^-9 of a point. Prints `-` if that slot is blank, and `no slots` if there
/// is none.
fn offsets(out: &mut Answer, made: &MadeSheets) {
    let Ok(sheets) = u32::try_from(made.len()) else {
        return out.text("too many\n");
    };
    for sheet in 0..sheets {
        if made.slots(sheet) == 0 {
            out.text("no slots\n");
        } else {
            match made.placed(sheet, 0) {
                Some(placed) => {
                    let (x, y) = placed.item.offset;
                    let (x, y) = (x.number.billionths(), y.number.billionths());
                    out.pair(x, y);
                }
                None => out.text("-\n"),
            }
        }
    }
}
