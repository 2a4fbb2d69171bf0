//! The areas of pages on a sheet, computed from their printed matrices.
use lengths::Paper;
use pagespec::Item;
use placement::{NoMemory, matrix_of, matrix_text};
use std::alloc::Global;

/// A rectangle. Its edges are in 10^-9 of a point.
#[derive(Clone, Copy)]
struct Area {
    left: i64,
    right: i64,
    bottom: i64,
    top: i64,
}

impl Area {
    /// Whether a horizontal or vertical strip as wide as the gap separates the two areas.
    fn is_apart_from(self, other: Area, gap: i64) -> bool {
        self.right.saturating_add(gap) <= other.left
            || other.right.saturating_add(gap) <= self.left
            || self.top.saturating_add(gap) <= other.bottom
            || other.top.saturating_add(gap) <= self.bottom
    }
}

/// A page as its printed matrix places it: its area on the sheet, its area when the sheet is held for reading, its scale in 10^-9, and its turn in
/// quarter turns to the left.
#[derive(Clone, Copy)]
pub struct Placed {
    on_sheet: Area,
    held: Area,
    pub scale: i64,
    pub quarters: u32,
}

/// The numbers in the text of a matrix, in units of 10^-9.
fn numbers(alloc: Global, text: &[u8]) -> Result<Vec<i64>, NoMemory> {
    let mut row = Vec::new(alloc);
    let mut value: i64 = 0;
    let mut weight: i64 = 0;
    let mut is_negative = false;
    for b in text {
        match *b {
            b'[' => (),
            b'-' => is_negative = true,
            b'.' => weight = 1_000_000_000,
            b' ' | b']' => {
                row.push(if is_negative {
                    0i64.saturating_sub(value)
                } else {
                    value
                })?;
                value = 0;
                weight = 0;
                is_negative = false;
            }
            digit => {
                let digit = i64::from(digit).saturating_sub(48);
                if weight == 0 {
                    value = value
                        .saturating_mul(10)
                        .saturating_add(digit.saturating_mul(1_000_000_000));
                } else {
                    weight = weight / 10;
                    value = value.saturating_add(digit.saturating_mul(weight));
                }
            }
        }
    }
    Ok(row)
}

/// The area between two opposite corners.
fn between(one: (i64, i64), other: (i64, i64)) -> Area {
    Area {
        left: one.0.min(other.0),
        right: one.0.max(other.0),
        bottom: one.1.min(other.1),
        top: one.1.max(other.1),
    }
}

/// The point of the sheet to which a matrix with these numbers sends a point of the page. The page's coordinates are in points, those of the result
/// in 10^-9 of a point. `None` unless there are six numbers.
fn sent(numbers: &[i64], x: i64, y: i64) -> Option<(i64, i64)> {
    match numbers {
        [a, b, c, d, tx, ty] => Some((
            tx.saturating_add(a.saturating_mul(x))
                .saturating_add(c.saturating_mul(y)),
            ty.saturating_add(b.saturating_mul(x))
                .saturating_add(d.saturating_mul(y)),
        )),
        _ => None,
    }
}

/// The coordinates of a point of the sheet when the sheet is held for reading. `quarters` is the number of quarter turns to the left by which the
/// sheet's pages are turned.
fn as_held(quarters: u32, point: (i64, i64)) -> (i64, i64) {
    let (x, y) = point;
    match quarters {
        0 => (x, y),
        1 => (y, 0i64.saturating_sub(x)),
        2 => (0i64.saturating_sub(x), 0i64.saturating_sub(y)),
        _ => (0i64.saturating_sub(y), x),
    }
}

/// The turn of a matrix, in quarter turns to the left, and its scale in 10^-9. `None` if the matrix does more than turn, scale and move a page, or
/// doesn't have six numbers.
fn turn_of(numbers: &[i64]) -> Option<(u32, i64)> {
    let [a, b, c, d, _, _] = *numbers else {
        return None;
    };
    let (less_a, less_b) = (0i64.saturating_sub(a), 0i64.saturating_sub(b));
    if b == 0 && c == 0 && a == d {
        Some(if a > 0 { (0, a) } else { (2, less_a) })
    } else if a == 0 && d == 0 && less_b == c {
        Some(if b > 0 { (1, b) } else { (3, c) })
    } else {
        None
    }
}

/// The pages of a sheet, as their printed matrices place them. `sides` are the sides of a page, in points. The list lacks each page whose matrix does
/// more than turn, scale and move it.
pub fn pages_of(
    alloc: Global,
    items: &[Item],
    page: &Paper,
    sides: (i64, i64),
) -> Result<Vec<Placed>, NoMemory> {
    let mut pages = Vec::new(alloc);
    for item in items {
        let mut text = Vec::new(alloc);
        matrix_text(&matrix_of(item, page), &mut text)?;
        let row = numbers(alloc, text.as_slice())?;
        if let Some(placed) = placed_by(row.as_slice(), sides) {
            pages.push(placed)?;
        }
    }
    Ok(pages)
}

/// The page that a matrix with these numbers places. `sides` are the sides of the page, in points. `None` if the matrix does more than turn, scale
/// and move the page, or doesn't have six numbers.
fn placed_by(numbers: &[i64], sides: (i64, i64)) -> Option<Placed> {
    let one = sent(numbers, 0, 0)?;
    let other = sent(numbers, sides.0, sides.1)?;
    let (quarters, scale) = turn_of(numbers)?;
    Some(Placed {
        on_sheet: between(one, other),
        held: between(as_held(quarters, one), as_held(quarters, other)),
        scale,
        quarters,
    })
}

/// Whether all pages are on a sheet with these sides, and at least `margin` away from its edges. The sides are in points, the margin is in 10^-9 of a
/// point.
pub fn are_inside(pages: &[Placed], sides: (i64, i64), margin: i64) -> bool {
    let (width, height) = (
        sides.0.saturating_mul(1_000_000_000),
        sides.1.saturating_mul(1_000_000_000),
    );
    pages.iter().map(|page| page.on_sheet).all(|area| {
        margin <= area.left
            && margin <= area.bottom
            && area.right.saturating_add(margin) <= width
            && area.top.saturating_add(margin) <= height
    })
}

/// Whether all pages are at least `gap` apart from each other, in 10^-9 of a point.
pub fn are_apart(pages: &[Placed], gap: i64) -> bool {
    for (k, page) in pages.iter().enumerate() {
        for (l, other) in pages.iter().enumerate() {
            if k < l && !page.on_sheet.is_apart_from(other.on_sheet, gap) {
                return false;
            }
        }
    }
    true
}

/// The number of pages in the first row: those whose upper edges are as high as that of the first page, with the sheet held for reading.
pub fn columns_of(pages: &[Placed]) -> usize {
    let Some(first) = pages.first() else {
        return 0;
    };
    pages
        .iter()
        .filter(|page| page.held.top == first.held.top)
        .count()
}

/// Whether the pages fill rows of `columns` pages, from the top row down and each row from the left, with the sheet held for reading.
pub fn are_in_order(pages: &[Placed], columns: usize) -> bool {
    if columns == 0 {
        return false;
    }
    for (k, page) in pages.iter().enumerate() {
        for (l, other) in pages.iter().enumerate() {
            if k % columns < l % columns && other.held.left < page.held.right {
                return false;
            }
            if k / columns < l / columns && page.held.bottom < other.held.top {
                return false;
            }
        }
    }
    true
}

/// Whether all pages have this turn and this scale.
pub fn are_like(pages: &[Placed], quarters: u32, scale: i64) -> bool {
    pages
        .iter()
        .all(|page| page.quarters == quarters && page.scale == scale)
}

/// The margin along the edges of a sheet and the gap between cells, in 10^-5 of a point.
#[derive(Clone, Copy)]
pub struct Kept {
    pub margin: i64,
    pub gap: i64,
}

/// The largest scale, in 10^-9, at which pages fit the cells of a grid with at least `n` cells, on the upright or the turned sheet. Cells aren't
/// rounded here. Sides are in points.
pub fn largest(n: i64, page: (i64, i64), sheet: (i64, i64), kept: Kept) -> i64 {
    let mut best = 0i64;
    for rows in 1..n.saturating_add(1) {
        // The smallest number of columns that gives enough cells.
        let columns = n
            .saturating_add(rows)
            .saturating_sub(1)
            .checked_div(rows)
            .unwrap_or(0);
        for (width, height) in [sheet, (sheet.1, sheet.0)] {
            best = best.max(room(width, columns, page.0, kept).min(room(
                height, rows, page.1, kept,
            )));
        }
    }
    best
}

/// The largest scale, in 10^-9, at which `parts` pages fit along one side of a sheet with this margin and gap. `whole` is that side of the sheet, and
/// `side` is the side of a page, both in points.
fn room(whole: i64, parts: i64, side: i64, kept: Kept) -> i64 {
    let margins = kept.margin.saturating_mul(2);
    let gaps = kept.gap.saturating_mul(parts.saturating_sub(1));
    whole
        .saturating_mul(100_000)
        .saturating_sub(margins)
        .saturating_sub(gaps)
        .saturating_mul(10_000)
        .checked_div(parts.saturating_mul(side))
        .unwrap_or(0)
}
