//! The laws of layouts, tried on many papers by separate arithmetic on printed matrices. With pages and sheets of one paper, all numbers of pages up
//! to 64 are tried, and some larger ones.
use crate::answer::Answer;
use crate::specifications::outlines::{arranged, bound};
use crate::specifications::placed::{
    Kept, Placed, are_apart, are_in_order, are_inside, are_like, columns_of, largest, pages_of,
};
use crate::words::word;
use layouts::{Arrangement, Binding, Cells, Free, Papers};
use lengths::{Grains, paper_by_name};
use pagespec::Item;
use std::alloc::Global;

/// The papers that are tried, with their sides in points.
const PAPERS: [(&str, i64, i64); 8] = [
    ("a3", 842, 1191),
    ("a4", 595, 842),
    ("a5", 420, 595),
    ("letter", 612, 792),
    ("legal", 612, 1008),
    ("tabloid", 792, 1224),
    ("statement", 396, 612),
    ("10x14", 720, 1008),
];

/// The numbers of pages above 64 that are tried: a few from 65 to 1,024.
const MANY: [u32; 5] = [65, 97, 256, 720, 1_024];

/// The numbers of pages that are tried for each pair of a page's paper and a sheet's paper.
const SOME: [u32; 10] = [1, 2, 3, 4, 6, 8, 13, 16, 24, 64];

const NOTHING: Kept = Kept { margin: 0, gap: 0 };

/// Margins of 10 mm along the edges, and gaps of 5 mm between cells, in 10^-5 of a point.
const MILLIMETRES: Kept = Kept {
    margin: 2_834_646,
    gap: 1_417_323,
};

pub fn run(out: &mut Answer, words: &[String]) -> Option<()> {
    match word(words, 0)? {
        "1_to_64_pages" => return up_to_64_tried(out, NOTHING),
        "many_pages" => tried(out, &Trial::Pages(&MANY, NOTHING), true),
        "other_papers" => tried(out, &Trial::Pages(&SOME, NOTHING), false),
        "booklets" => tried(out, &Trial::Booklets, false),
        "margins_and_gaps" => return up_to_64_tried(out, MILLIMETRES),
        "laws" => laws_called(out),
        _ => return None,
    }
    Some(())
}

fn up_to_64_tried(out: &mut Answer, kept: Kept) -> Option<()> {
    let numbers: Vec<u32> = (1..65u32).collect(out.alloc).ok()?;
    tried(out, &Trial::Pages(numbers.as_slice(), kept), true);
    Some(())
}

/// A paper by its name, and its sides in points.
type Named = (&'static str, i64, i64);

/// Layouts to try: either booklets, or sheets with each of these numbers of pages and with this margin and gap.
#[derive(Clone, Copy)]
enum Trial<'n> {
    Pages(&'n [u32], Kept),
    Booklets,
}

/// Tries layouts for each pair of a page's paper and a sheet's paper, or only for pairs of equal papers if `on_own_paper` is set. Prints the number
/// of layouts, or the first layout with a fault.
fn tried(out: &mut Answer, trial: &Trial<'_>, on_own_paper: bool) {
    let mut count = 0u32;
    for page in &PAPERS {
        for sheet in &PAPERS {
            if !on_own_paper || page.0 == sheet.0 {
                match tried_on(out, trial, page, sheet) {
                    Some(tried) => count = count.saturating_add(tried),
                    None => return,
                }
            }
        }
    }
    out.line(format_args!("{count} layouts, no fault"));
}

/// Tries the layouts for this page and this sheet, and returns their number. `None` if one of them has a fault, which is printed.
fn tried_on(out: &mut Answer, trial: &Trial<'_>, page: &Named, sheet: &Named) -> Option<u32> {
    match trial {
        Trial::Pages(numbers, kept) => pages_tried(out, numbers, *kept, page, sheet),
        Trial::Booklets => booklets_tried(out, page, sheet),
    }
}

fn pages_tried(
    out: &mut Answer,
    numbers: &[u32],
    kept: Kept,
    page: &Named,
    sheet: &Named,
) -> Option<u32> {
    let mut count = 0u32;
    for n in numbers {
        let fault = fault_of(out.alloc, *n, page, sheet, kept);
        if fault != "" {
            out.show(format_args!("{n} of "));
            fault_line(out, page, sheet, fault);
            return None;
        }
        count = count.saturating_add(1);
    }
    Some(count)
}

fn booklets_tried(out: &mut Answer, page: &Named, sheet: &Named) -> Option<u32> {
    for long_edge in [false, true] {
        let fault = booklet_fault(out.alloc, page, sheet, long_edge);
        if fault != "" {
            fault_line(out, page, sheet, fault);
            return None;
        }
    }
    Some(2)
}

/// The items of `n` pages on a sheet, with margins and gaps of `MILLIMETRES` unless `kept` has no margin. `None` if the layout or memory is
/// refused.
fn laid_out(alloc: Global, n: u32, papers: &Papers, kept: Kept) -> Option<Vec<Item>> {
    let mut arrangement = Arrangement::plain(Cells::AtLeast(n));
    if kept.margin != 0 {
        let margin = Grains::new(3_600_000_000_000)?;
        let gap = Grains::new(1_800_000_000_000)?;
        arrangement.free = Free {
            left: margin,
            right: margin,
            bottom: margin,
            top: margin,
            across: gap,
            up: gap,
            ..Free::none()
        };
    }
    arranged(alloc, papers, &arrangement).ok()
}

fn papers_named(page: &str, sheet: &str) -> Option<Papers> {
    Some(Papers {
        page: paper_by_name(page)?,
        sheet: paper_by_name(sheet)?,
    })
}

/// The fault of a layout of `n` pages on a sheet. Empty if the layout has none.
fn fault_of(alloc: Global, n: u32, page: &Named, sheet: &Named, kept: Kept) -> &'static str {
    let Some(papers) = papers_named(page.0, sheet.0) else {
        return "no paper";
    };
    let Some(items) = laid_out(alloc, n, &papers, kept) else {
        return "refused, or out of memory";
    };
    let sides = (page.1, page.2);
    match pages_of(alloc, items.as_slice(), &papers.page, sides) {
        Ok(pages) => fault_among(pages.as_slice(), n, sides, (sheet.1, sheet.2), kept),
        Err(_) => "out of memory",
    }
}

/// The fault of `n` placed pages. `page` and `sheet` are the sides of a page and of the sheet, in points. Empty if there is none.
fn fault_among(
    pages: &[Placed],
    n: u32,
    page: (i64, i64),
    sheet: (i64, i64),
    kept: Kept,
) -> &'static str {
    let Some(first) = pages.first() else {
        return "no page";
    };
    if pages.len() != n as usize {
        return "not so many pages";
    }
    if !are_like(pages, first.quarters, first.scale) || 1 < first.quarters {
        return "not alike";
    }
    if !are_inside(pages, sheet, kept.margin.saturating_mul(10_000)) {
        return "not inside";
    }
    if !are_apart(pages, kept.gap.saturating_mul(10_000)) {
        return "not apart";
    }
    if !are_in_order(pages, columns_of(pages)) {
        return "not in order";
    }
    let best = largest(i64::from(n), page, sheet, kept);
    if best < first.scale || first.scale.saturating_add(1_000) <= best {
        return "not large";
    }
    ""
}

fn fault_line(out: &mut Answer, page: &Named, sheet: &Named, fault: &str) {
    out.line(format_args!("{} on {}: {fault}", page.0, sheet.0));
}

/// The fault of the layout of a booklet. Empty if the layout has none.
fn booklet_fault(alloc: Global, page: &Named, sheet: &Named, long_edge: bool) -> &'static str {
    let Some(papers) = papers_named(page.0, sheet.0) else {
        return "no paper";
    };
    let Ok((front, back)) = bound(alloc, &papers, &Binding::plain(long_edge)) else {
        return "refused, or out of memory";
    };
    let sides = (page.1, page.2);
    let Ok(front) = pages_of(alloc, front.as_slice(), &papers.page, sides) else {
        return "out of memory";
    };
    let Ok(back) = pages_of(alloc, back.as_slice(), &papers.page, sides) else {
        return "out of memory";
    };
    if back.len() != if long_edge { 2 } else { 0 } {
        return "not two pages";
    }
    fault_of_leaf(front.as_slice(), back.as_slice(), (sheet.1, sheet.2))
}

/// The fault of the pages on the front and the back of a leaf. Empty if there is none.
fn fault_of_leaf(front: &[Placed], back: &[Placed], sheet: (i64, i64)) -> &'static str {
    let Some(first) = front.first() else {
        return "no page";
    };
    if front.len() != 2 {
        return "not two pages";
    }
    for (pages, quarters) in [(front, 1), (back, 3)] {
        if !are_like(pages, quarters, first.scale) {
            return "not alike";
        }
        if !are_inside(pages, sheet, 0) || !are_apart(pages, 0) {
            return "not inside, or not apart";
        }
        if !are_in_order(pages, 2) {
            return "not in order";
        }
    }
    ""
}

/// Calls the proved laws of the crates `lengths`, `placement` and `layouts`, and then prints `called`.
fn laws_called(out: &mut Answer) {
    lengths::laws::printed_scale_is_read();
    lengths::laws::printed_number_is_read();
    placement::laws::printed_matrix_is_near();
    layouts::laws::stands_where_put();
    layouts::laws::pages_are_inside();
    layouts::laws::pages_are_apart();
    layouts::laws::pages_are_in_order();
    layouts::laws::pages_are_in_middle();
    layouts::laws::best_has_cells();
    layouts::laws::best_is_best();
    layouts::laws::best_is_large();
    layouts::laws::back_is_inside();
    layouts::laws::back_is_half_turn();
    layouts::laws::leaf_keeps_fold();
    layouts::laws::right_to_left_is_mirror();
    layouts::laws::printed_as_it_is();
    out.text("called\n");
}
