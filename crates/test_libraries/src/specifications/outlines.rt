//! Layouts: the items that place pages of one paper in cells and on leaves.
use crate::answer::Answer;
use crate::words::{billionths, count, count_in, length, paper, word};
use layouts::{
    Arrangement, ArrangementError, Binding, Cells, FillOrder, Free, Order, Papers, Setting, Turned,
};
use lengths::{Number, a4, print_number};
use pagespec::{Item, Measure, Turn};
use std::alloc::Global;

pub fn run(out: &mut Answer, words: &[String]) -> Option<()> {
    match word(words, 0)? {
        "nup" => pages_on_sheets(out, words),
        "booklet" => leaves(out, words),
        "arrange" => cells_of_a4(out, words),
        "bind" => leaves_of_a4(out, words),
        "no_memory_for_a_layout" => {
            out.line(ArrangementError::NoMemory);
            Some(())
        }
        _ => None,
    }
}

fn pages_on_sheets(out: &mut Answer, words: &[String]) -> Option<()> {
    let cells = Cells::AtLeast(count(words, 1)?);
    let made = arranged(out.alloc, &papers(words)?, &Arrangement::plain(cells));
    show_cells(out, made)
}

fn leaves(out: &mut Answer, words: &[String]) -> Option<()> {
    let binding = Binding::plain(word(words, 1)? == "long");
    let made = bound(out.alloc, &papers(words)?, &binding);
    show_leaves(out, made)
}

fn cells_of_a4(out: &mut Answer, words: &[String]) -> Option<()> {
    match arrangement(words) {
        Some(asked) => show_cells(out, arranged(out.alloc, &on_a4(), &asked)),
        None => None,
    }
}

fn leaves_of_a4(out: &mut Answer, words: &[String]) -> Option<()> {
    match binding(words) {
        Some(asked) => show_leaves(out, bound(out.alloc, &on_a4(), &asked)),
        None => None,
    }
}

/// The items of a page in each cell that is requested. Without enough memory the error is `None`.
pub fn arranged(
    alloc: Global,
    papers: &Papers,
    arrangement: &Arrangement,
) -> Result<Vec<Item>, Option<ArrangementError>> {
    let setting = Setting::of(papers, arrangement).map_err(|error| Some(error))?;
    let mut items = Vec::new(alloc);
    for k in 0..arrangement.cells.count() as u32 {
        if u64::from(k) < setting.grid.size() {
            let item = setting.item(&papers.page, k).map_err(|error| Some(error))?;
            // Written out, or the prover isn't told which module holds the numbers of a setting.
            items.push(Item { page: k, ..item }).map_err(|_| None)?;
        }
    }
    Ok(items)
}

/// The items of the two pages on the front of a leaf, and of those on its back if backs are rotated. Without enough memory the error is `None`.
pub fn bound(
    alloc: Global,
    papers: &Papers,
    binding: &Binding,
) -> Result<(Vec<Item>, Vec<Item>), Option<ArrangementError>> {
    let setting = Setting::of_binding(papers, binding).map_err(|error| Some(error))?;
    let mut front = Vec::new(alloc);
    let mut back = Vec::new(alloc);
    for k in 0..2u32 {
        if u64::from(k) < setting.grid.size() {
            let item = setting.item(&papers.page, k).map_err(|error| Some(error))?;
            front.push(item).map_err(|_| None)?;
            if binding.long_edge {
                let item = setting
                    .back_item(&papers.page, k)
                    .map_err(|error| Some(error))?;
                let item = Item {
                    page: k.saturating_add(2),
                    ..item
                };
                back.push(item).map_err(|_| None)?;
            }
        }
    }
    Ok((front, back))
}

/// The paper of pages and the paper of sheets that the words name. `None` if one of the two isn't a paper.
fn papers(words: &[String]) -> Option<Papers> {
    Some(Papers {
        page: paper(words, 2)?,
        sheet: paper(words, 3)?,
    })
}

/// Prints the specification that has these items, or the reason why there are none. Returns `Some` in both cases.
fn show_cells(out: &mut Answer, made: Result<Vec<Item>, Option<ArrangementError>>) -> Option<()> {
    match made {
        Ok(items) => {
            modulo(out, items.len());
            group(out, items.as_slice());
            out.text("\n");
        }
        Err(error) => refused(out, error),
    }
    Some(())
}

fn show_leaves(
    out: &mut Answer,
    made: Result<(Vec<Item>, Vec<Item>), Option<ArrangementError>>,
) -> Option<()> {
    match made {
        Ok((front, back)) => {
            modulo(out, front.len().saturating_add(back.len()));
            group(out, front.as_slice());
            if !back.is_empty() {
                out.text(",");
                group(out, back.as_slice());
            }
            out.text("\n");
        }
        Err(error) => refused(out, error),
    }
    Some(())
}

fn refused(out: &mut Answer, error: Option<ArrangementError>) {
    match error {
        Some(error) => out.refusal(error),
        None => out.note(false),
    }
}

fn modulo(out: &mut Answer, pages: usize) {
    if pages != 1 {
        out.show(format_args!("{pages}:"));
    }
}

fn group(out: &mut Answer, items: &[Item]) {
    for (place, item) in items.iter().enumerate() {
        out.text(if place == 0 { "" } else { "+" });
        out.show(item.page);
        out.text(match item.turn {
            Turn::None => "",
            Turn::Left => "L",
            Turn::Half => "U",
            Turn::Right => "R",
        });
        if item.scale != Number::ONE {
            number(out, "@", item.scale);
        }
        let (x, y) = item.offset;
        if x != Measure::ZERO || y != Measure::ZERO {
            number(out, "(", x.number);
            number(out, ",", y.number);
            out.text(")");
        }
    }
}

fn number(out: &mut Answer, before: &str, number: Number) {
    out.text(before);
    let length = out.bytes.len();
    let added = print_number(number, &mut out.bytes);
    out.note_appended(length, added.is_ok());
}

fn on_a4() -> Papers {
    Papers {
        page: a4(),
        sheet: a4(),
    }
}

/// The arrangement that the words give: its cells, and the options that follow them. `None` if a word isn't understood.
fn arrangement(words: &[String]) -> Option<Arrangement> {
    let mut arrangement = Arrangement::plain(cells(word(words, 1)?)?);
    for word in words.get(2..)? {
        ask(&mut arrangement, word.as_str())?;
    }
    Some(arrangement)
}

/// The cells that a text gives: the least number of cells, or columns and rows, such as `2x3`. `None` for another text.
fn cells(text: &str) -> Option<Cells> {
    match text.split_once('x') {
        None => Some(Cells::AtLeast(count_in(text)?)),
        Some((columns, rows)) => Some(Cells::Exactly {
            columns: count_in(columns)?,
            rows: count_in(rows)?,
        }),
    }
}

fn ask(arrangement: &mut Arrangement, text: &str) -> Option<()> {
    match text.split_once('=') {
        None => put_in_order(&mut arrangement.order, text),
        Some(("scale", value)) => {
            arrangement.scale = Some(billionths(value)?);
            Some(())
        }
        Some((name, value)) => keep(&mut arrangement.free, name, value),
    }
}

fn put_in_order(order: &mut Order, text: &str) -> Option<()> {
    match text {
        "columns" => order.run = FillOrder::Columns,
        "right_to_left" => order.right_to_left = true,
        "left" => order.turned = Turned::Left,
        "right" => order.turned = Turned::Right,
        _ => return None,
    }
    Some(())
}

/// Sets the lengths that `name` stands for to this value, in 10^-5 of a point: one margin or all four, one gap or both, or the trim. `None` for
/// another name, or if the value isn't a length.
fn keep(free: &mut Free, name: &str, value: &str) -> Option<()> {
    let length = length(value, 1_270_000)?;
    match name {
        "margin" => {
            free.left = length;
            free.right = length;
            free.bottom = length;
            free.top = length;
        }
        "left_edge" => free.left = length,
        "right_edge" => free.right = length,
        "bottom_edge" => free.bottom = length,
        "top_edge" => free.top = length,
        "gap" => {
            free.across = length;
            free.up = length;
        }
        "across" => free.across = length,
        "up" => free.up = length,
        "trim" => free.trim = length,
        _ => return None,
    }
    Some(())
}

fn binding(words: &[String]) -> Option<Binding> {
    let mut binding = Binding::plain(false);
    for word in words.get(1..)? {
        ask_of_leaves(&mut binding, word.as_str())?;
    }
    Some(binding)
}

fn ask_of_leaves(binding: &mut Binding, text: &str) -> Option<()> {
    match text.split_once('=') {
        None if text == "right_to_left" => {
            binding.right_to_left = true;
            Some(())
        }
        None => None,
        Some((name, value)) => keep(&mut binding.free, name, value),
    }
}
