//! Matrices, and the texts before and after a page.
use crate::answer::Answer;
use crate::words::{item, number, paper, word};
use lengths::{Grains, Paper};
use pagespec::Item;
use placement::{Matrix, closing_text, matrix_of, matrix_text, opening_text};

pub fn run(out: &mut Answer, words: &[String]) -> Option<()> {
    match word(words, 0)? {
        "matrix" | "matrix_parts" | "apply" | "page_texts" => {
            let item = item(out.alloc, word(words, 1)?)?;
            run_on(out, words, &item, &paper(words, 2)?)
        }
        _ => None,
    }
}

/// Runs a command on an item and a page's paper. `None` if its words aren't understood.
fn run_on(out: &mut Answer, words: &[String], item: &Item, paper: &Paper) -> Option<()> {
    match word(words, 0)? {
        "matrix" => matrix(out, item, paper),
        "matrix_parts" => parts(out, item, paper),
        "page_texts" => page_texts(out, item, paper, border(words, 3)),
        _ => applied(
            out,
            item,
            paper,
            (coordinate(words, 3)?, coordinate(words, 4)?),
        ),
    }
    Some(())
}

fn coordinate(words: &[String], at: usize) -> Option<i32> {
    i32::try_from(number(words, at)?).ok()
}

/// The width of a border, in grains, that word `at` gives. `None` if there is no such word, or if it isn't a whole number in range.
fn border(words: &[String], at: usize) -> Option<Grains> {
    Grains::new(number(words, at)?)
}

fn matrix(out: &mut Answer, item: &Item, paper: &Paper) {
    let before = out.bytes.len();
    let added = matrix_text(&matrix_of(item, paper), &mut out.bytes);
    out.note_appended(before, added.is_ok());
    out.text("\n");
}

/// Prints the matrix by which the item places a page of this paper: four numbers, in units of 10^-9, and two lengths, in grains.
fn parts(out: &mut Answer, item: &Item, paper: &Paper) {
    let Matrix { a, b, c, d, tx, ty } = matrix_of(item, paper);
    for number in [a, b, c, d] {
        out.show(number.billionths());
        out.text(" ");
    }
    out.pair(tx.get(), ty.get());
}

fn applied(out: &mut Answer, item: &Item, paper: &Paper, point: (i32, i32)) {
    let (x, y) = matrix_of(item, paper).apply(point.0, point.1);
    out.pair(x, y);
}

/// Prints a heading line. Then has the library append the text before a page and the text after the page.
fn page_texts(out: &mut Answer, item: &Item, paper: &Paper, border: Option<Grains>) {
    out.text("% page\n");
    let before = out.bytes.len();
    let added = opening_text(item, paper, border, &mut out.bytes);
    out.note_appended(before, added.is_ok());
    let before = out.bytes.len();
    let added = closing_text(&mut out.bytes);
    out.note_appended(before, added.is_ok());
}
