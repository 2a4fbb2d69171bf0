//! The report on a finished run, and its parts.
ghost use Rattle.std.specs.Prelude.{OnOk, ◌≡◌, ◌+◌, ◌++◌, decimal};
ghost use Rattle.preview.specs.Listing.{edge_name as name_of_edge};
ghost use Rattle.impose_messages.specs.Said.{pages_after_message, blank_count as blanks_in, blanks_text, copies_message, count_text, counts_text, flip_text, home_message, leaves_text, loose_message, lying_message};
ghost use Rattle.impose_messages.specs.Said.{corners_text, cut_message, cut_pages_text, cut_size_text, dependence_effect as effect_of, dependence_message, edges_text};
ghost use Rattle.impose_messages.specs.Said.{origin_text as text_of_origin, others_text, places_per_sheet as places_in, reach_message, report_text};
ghost use Rattle.impose_messages.specs.Said.{range_text, scales_line};
ghost use Rattle.impose_messages.specs.Said.{sheet_text, sheets_text, sides_text, page_count_text, paper_size_text, some_pages_text, claim_advice as advice_of_claim, claim_message, unknown_message};

use crate::finished::{Dependence, Finished, Lying, PaperOrigin};
use crate::scales::Scales;
use crate::shown::ShownName;
use impose_words::{ImposeRequest, Layout};
use imposer::Report;
use itoa::Buffer;
use layouts::is_of_size;
use lengths::{Grains, Number, Paper, print_points, print_scale};
use papers::{Comment, Cut, Edges, Reach};
use preview::{Edge, Sides};
use std::alloc::AllocError;

/// Appends the report: the leaves of paper, the counts, the size of the pages' paper, where that paper is taken from, the size of the sheets if it
/// differs from that of the pages' paper, and the scale of the pages unless they keep their size. Both sizes are those before any turn.
pub(crate) fn push_report(
    said: &mut Vec<u8>,
    done: &Finished,
    request: &ImposeRequest,
) -> Result<(), AllocError>
    ensures { OnOk result (said.new.items ≡ said.old.items ++ report_text done.now request.now) }
{
    let found = &done.findings;
    push_leaves(said, done.sheets.sides, done.report.sheets)?;
    push_counts(said, found.taken, &done.report, request)?;
    said.extend_from_slice(b"; pages of ")?;
    push_size(said, &found.page_paper)?;
    said.extend_from_slice(b" pt, ")?;
    said.extend_from_slice(origin_text(found.origin))?;
    let sheet_paper = request.sheet_paper_for(&found.page_paper);
    push_sheets(said, &sheet_paper, &found.page_paper)?;
    push_scales(said, &request.layout, &done.sheets.scales)
}

/// Appends the scale of the pages, unless all pages keep their size. For pages of several scales, appends the least and the greatest one. A
/// specification has its scales in its text, so `spec` gives none.
fn push_scales(
    said: &mut Vec<u8>,
    layout: &Layout,
    scales: &Option<Scales>,
) -> Result<(), AllocError>
    ensures { OnOk result (said.new.items ≡ said.old.items ++ scales_line layout.now scales.now) }
{
    if matches!(layout, Layout::Spec { .. }) {
        return Ok(());
    }
    match scales {
        Some(scales) => push_range(said, scales.least, scales.greatest),
        None => Ok(()),
    }
}

/// Appends a scale, unless it is 1, or two scales of which the second is greater.
fn push_range(said: &mut Vec<u8>, least: Number, greatest: Number) -> Result<(), AllocError>
    ensures { OnOk result (said.new.items ≡ said.old.items ++ range_text least greatest) }
{
    if least != greatest {
        said.extend_from_slice(b"; scales from ")?;
        print_scale(least, said)?;
        said.extend_from_slice(b" to ")?;
        print_scale(greatest, said)
    } else if least != Number::ONE {
        said.extend_from_slice(b"; scale ")?;
        print_scale(least, said)
    } else {
        Ok(())
    }
}

/// Appends the size of the sheets, if it differs from that of the pages' paper.
fn push_sheets(said: &mut Vec<u8>, sheet: &Paper, page_paper: &Paper) -> Result<(), AllocError>
    ensures { OnOk result (said.new.items ≡ said.old.items ++ sheets_text sheet.now page_paper.now) }
{
    if is_of_size(sheet, page_paper) {
        return Ok(());
    }
    push_sheet(said, sheet)
}

/// Appends the size of the sheets.
fn push_sheet(said: &mut Vec<u8>, sheet: &Paper) -> Result<(), AllocError>
    ensures { OnOk result (said.new.items ≡ said.old.items ++ sheet_text sheet.now) }
{
    said.extend_from_slice(b"; sheets of ")?;
    push_size(said, sheet)?;
    said.extend_from_slice(b" pt")
}

/// Appends the numbers of pages, blanks, sheets and bytes. The number of blanks is left out if it is 0.
fn push_counts(
    said: &mut Vec<u8>,
    taken: u32,
    report: &Report,
    request: &ImposeRequest,
) -> Result<(), AllocError>
    ensures { OnOk result (said.new.items ≡ said.old.items ++ counts_text taken report.now request.now) }
{
    said.extend_from_slice(b"pages ")?;
    push_page_count(said, taken, report.pages)?;
    push_blanks(said, blanks_of(request, report))?;
    said.extend_from_slice(b", sheets ")?;
    push_number(said, u128::from(report.sheets))?;
    said.extend_from_slice(b", bytes ")?;
    push_number(said, u128::from(report.bytes))
}

/// Appends the number of the document's pages. If only some pages are imposed, their number comes first, as in `3 of 8`.
fn push_page_count(said: &mut Vec<u8>, taken: u32, pages: u32) -> Result<(), AllocError>
    ensures { OnOk result (said.new.items ≡ said.old.items ++ page_count_text taken pages) }
{
    if taken != pages {
        push_number(said, u128::from(taken))?;
        said.extend_from_slice(b" of ")?;
    }
    push_number(said, u128::from(pages))
}

/// The number of empty cells that the report gives as blanks. It is 0 if the request chooses pages or their order, and for layouts whose empty cells
/// aren't reported.
fn blanks_of(request: &ImposeRequest, report: &Report) -> u128
    ensures { result ≡ blanks_in request.now report.now }
{
    if !request.choice.is_whole() {
        return 0;
    }
    let places = u128::from(places_on(&request.layout)) * u128::from(report.sheets);
    places.saturating_sub(u128::from(report.pages))
}

/// The number of pages that fill a sheet, for layouts whose empty cells are reported. It is 0 for cards, stacks, posters, selections and
/// specifications, whose empty cells aren't reported.
fn places_on(layout: &Layout) -> u64
    ensures { result ≡ places_in layout.now }
{
    match layout {
        Layout::NUp(cells) => cells.count(),
        Layout::Notes { pages } => u64::from(*pages),
        Layout::Booklet { .. } => 2,
        Layout::Zine => 8,
        Layout::Cards(_) | Layout::Stack { .. } | Layout::Poster(_) | Layout::Selection => 0,
        Layout::Spec { .. } => 0,
    }
}

fn push_blanks(said: &mut Vec<u8>, blanks: u128) -> Result<(), AllocError>
    ensures { OnOk result (said.new.items ≡ said.old.items ++ blanks_text blanks) }
{
    if blanks == 0 {
        return Ok(());
    }
    said.extend_from_slice(b", blanks ")?;
    push_number(said, blanks)
}

/// Appends the number of leaves of paper, and the edge on which the printer flips them, if every two sheets are the front and the back of a leaf. A
/// last sheet without a back counts as a leaf.
fn push_leaves(said: &mut Vec<u8>, sides: Sides, sheets: u32) -> Result<(), AllocError>
    ensures { OnOk result (said.new.items ≡ said.old.items ++ leaves_text sides sheets) }
{
    match sides {
        Sides::One => Ok(()),
        Sides::Both { flip } => {
            let leaves = (u64::from(sheets) + 1) / 2;
            push_counted(
                said,
                u128::from(leaves),
                b"1 leaf of paper",
                b"",
                b" leaves of paper",
            )?;
            push_flip(said, flip)
        }
    }
}

/// Appends the edge on which the printer flips leaves.
fn push_flip(said: &mut Vec<u8>, flip: Edge) -> Result<(), AllocError>
    ensures { OnOk result (said.new.items ≡ said.old.items ++ flip_text flip) }
{
    said.extend_from_slice(b", flip on the ")?;
    said.extend_from_slice(edge_name(flip))?;
    said.extend_from_slice(b" edge; ")
}

fn edge_name(edge: Edge) -> &'static [u8]
    ensures { result.now ≡ name_of_edge edge }
{
    match edge {
        Edge::Short => b"short",
        Edge::Long => b"long",
    }
}

/// Appends a count: the text `one` if the count is 1, otherwise the number between the texts `before` and `after`.
fn push_counted(
    said: &mut Vec<u8>,
    count: u128,
    one: &[u8],
    before: &[u8],
    after: &[u8],
) -> Result<(), AllocError>
    ensures { OnOk result (said.new.items ≡ said.old.items ++ count_text count one.now before.now after.now) }
{
    match count {
        1 => said.extend_from_slice(one),
        _ => {
            said.extend_from_slice(before)?;
            push_number(said, count)?;
            said.extend_from_slice(after)
        }
    }
}

/// Appends the width and the height of a paper, in points.
fn push_size(said: &mut Vec<u8>, paper: &Paper) -> Result<(), AllocError>
    ensures { OnOk result (said.new.items ≡ said.old.items ++ paper_size_text paper.now) }
{
    push_sides(said, paper.width(), paper.height())
}

fn push_sides(said: &mut Vec<u8>, width: Grains, height: Grains) -> Result<(), AllocError>
    ensures { OnOk result (said.new.items ≡ said.old.items ++ sides_text width height) }
{
    print_points(width, said)?;
    said.extend_from_slice(b" x ")?;
    print_points(height, said)
}

/// Appends the message that the document names an unknown paper.
pub(crate) fn push_unknown(said: &mut Vec<u8>, name: &ShownName) -> Result<(), AllocError>
    ensures { OnOk result (said.new.items ≡ said.old.items ++ unknown_message name.now) }
{
    said.extend_from_slice(b"the document names an unknown paper, ")?;
    said.extend_from_slice(name.as_slice())
}

/// Appends the message that `PAPERSIZE` names an unknown paper.
pub(crate) fn push_home(said: &mut Vec<u8>, name: &ShownName) -> Result<(), AllocError>
    ensures { OnOk result (said.new.items ≡ said.old.items ++ home_message name.now) }
{
    said.extend_from_slice(b"PAPERSIZE names an unknown paper, ")?;
    said.extend_from_slice(name.as_slice())
}

/// Appends the message about the pages that `--paper` cuts: their numbers, their size, and the size of the named paper.
pub(crate) fn push_cut(said: &mut Vec<u8>, cut: &Cut, named: &Paper) -> Result<(), AllocError>
    ensures { OnOk result (said.new.items ≡ said.old.items ++ cut_message cut.now named.now) }
{
    said.extend_from_slice(b"--paper cuts ")?;
    push_cut_pages(said, cut)?;
    said.extend_from_slice(b": ")?;
    push_cut_size(said, cut)?;
    said.extend_from_slice(b" on ")?;
    push_size(said, named)
}

/// Appends the message that `--paper` is larger than all pages: `cover` is the smallest paper that covers them.
pub(crate) fn push_loose(said: &mut Vec<u8>, cover: &Paper, named: &Paper) -> Result<(), AllocError>
    ensures { OnOk result (said.new.items ≡ said.old.items ++ loose_message cover.now named.now) }
{
    said.extend_from_slice(b"--paper is larger than all pages: up to ")?;
    push_size(said, cover)?;
    said.extend_from_slice(b" on ")?;
    push_size(said, named)
}

/// Appends the pages that are cut, by their numbers counted from 1: one page, a range of pages, or else their count with the first and the last page.
fn push_cut_pages(said: &mut Vec<u8>, cut: &Cut) -> Result<(), AllocError>
    ensures { OnOk result (said.new.items ≡ said.old.items ++ cut_pages_text cut.now) }
{
    let first = page_number(cut.first);
    let last = page_number(cut.last);
    if cut.pages == 1 {
        said.extend_from_slice(b"page ")?;
        push_number(said, first)
    } else if cut.first as u128 + cut.pages as u128 == last {
        said.extend_from_slice(b"pages ")?;
        push_number(said, first)?;
        said.extend_from_slice(b"-")?;
        push_number(said, last)
    } else {
        push_some_pages(said, cut.pages, first, last)
    }
}

/// Appends the number of pages, and the first and the last page by their numbers.
fn push_some_pages(
    said: &mut Vec<u8>,
    pages: usize,
    first: u128,
    last: u128,
) -> Result<(), AllocError>
    ensures { OnOk result (said.new.items ≡ said.old.items ++ some_pages_text pages first last) }
{
    push_number(said, pages as u128)?;
    said.extend_from_slice(b" pages from ")?;
    push_number(said, first)?;
    said.extend_from_slice(b" to ")?;
    push_number(said, last)
}

/// The number of a page counted from 1; the argument is counted from 0.
fn page_number(page: usize) -> u128
    ensures { result ≡ page + 1 }
{
    page as u128 + 1
}

/// Appends the size of the page that is cut. If several pages are cut, it is the size of the smallest paper that covers them all.
fn push_cut_size(said: &mut Vec<u8>, cut: &Cut) -> Result<(), AllocError>
    ensures { OnOk result (said.new.items ≡ said.old.items ++ cut_size_text cut.now) }
{
    if cut.pages != 1 {
        said.extend_from_slice(b"up to ")?;
    }
    push_size(said, &cut.paper)
}

/// Appends the message about pages that reach beyond the papers by which they are placed. The message says how far the first of these pages reaches,
/// and how many further pages reach beyond their papers.
pub(crate) fn push_reach(said: &mut Vec<u8>, reach: &Reach) -> Result<(), AllocError>
    ensures { OnOk result (said.new.items ≡ said.old.items ++ reach_message reach.now) }
{
    said.extend_from_slice(b"page ")?;
    push_number(said, page_number(reach.first))?;
    said.extend_from_slice(b" reaches ")?;
    push_edges(said, &reach.edges)?;
    said.extend_from_slice(b" on ")?;
    push_size(said, &reach.paper)?;
    push_others(said, reach.pages.saturating_sub(1))
}

/// Appends how far a page reaches, in points: to its upper right corner, and also from its lower left corner if that has a negative coordinate.
fn push_edges(said: &mut Vec<u8>, edges: &Edges) -> Result<(), AllocError>
    ensures { OnOk result (said.new.items ≡ said.old.items ++ edges_text edges.now) }
{
    if edges.left.get() >= 0 && edges.bottom.get() >= 0 {
        said.extend_from_slice(b"to ")?;
        push_sides(said, edges.right, edges.top)
    } else {
        push_corners(said, edges)
    }
}

/// Appends how far a page reaches, in points: from its lower left to its upper right corner.
fn push_corners(said: &mut Vec<u8>, edges: &Edges) -> Result<(), AllocError>
    ensures { OnOk result (said.new.items ≡ said.old.items ++ corners_text edges.now) }
{
    said.extend_from_slice(b"from ")?;
    push_sides(said, edges.left, edges.bottom)?;
    said.extend_from_slice(b" to ")?;
    push_sides(said, edges.right, edges.top)
}

/// Appends the number of further pages that reach beyond their papers, if there are any.
fn push_others(said: &mut Vec<u8>, pages: usize) -> Result<(), AllocError>
    ensures { OnOk result (said.new.items ≡ said.old.items ++ others_text pages) }
{
    if pages == 0 {
        return Ok(());
    }
    push_counted(
        said,
        pages as u128,
        b", and 1 other page beyond its own",
        b", and ",
        b" other pages beyond theirs",
    )
}

/// Appends the message about a page that isn't wholly on its sheet: `how` it lies, its edges, and the size of the sheet.
pub(crate) fn push_lying(said: &mut Vec<u8>, how: &[u8], lying: &Lying) -> Result<(), AllocError>
    ensures { OnOk result (said.new.items ≡ said.old.items ++ lying_message how.now lying.now) }
{
    said.extend_from_slice(b"page ")?;
    push_number(said, u128::from(lying.page) + 1)?;
    said.extend_from_slice(how)?;
    push_corners(said, &lying.edges)?;
    said.extend_from_slice(b" on ")?;
    push_size(said, &lying.sheet)
}

/// Appends the message about the pages after the document's trailer, which aren't imposed.
pub(crate) fn push_pages_after(said: &mut Vec<u8>, pages: usize) -> Result<(), AllocError>
    ensures { OnOk result (said.new.items ≡ said.old.items ++ pages_after_message pages) }
{
    push_counted(
        said,
        pages as u128,
        b"1 page follows %%Trailer or %%EOF and is not imposed",
        b"",
        b" pages follow %%Trailer or %%EOF and are not imposed",
    )
}

/// Appends the message that the document declares one number of pages and has another. `is_ended` says whether it goes on after its last page.
pub(crate) fn push_claim(
    said: &mut Vec<u8>,
    is_ended: bool,
    claimed: usize,
    found: usize,
) -> Result<(), AllocError>
    ensures { OnOk result (said.new.items ≡ said.old.items ++ claim_message is_ended claimed found) }
{
    said.extend_from_slice(b"the document says ")?;
    push_counted(said, claimed as u128, b"1 page", b"", b" pages")?;
    said.extend_from_slice(b", ")?;
    push_counted(said, found as u128, b"1 was found", b"", b" were found")?;
    said.extend_from_slice(claim_advice(is_ended, claimed, found))
}

/// The end of the message about the declared number of pages. If fewer pages were found, and the document ends with them, it asks whether the document
/// is complete. If more were found, it says that all pages are counted.
fn claim_advice(is_ended: bool, claimed: usize, found: usize) -> &'static [u8]
    ensures { result.now ≡ advice_of_claim is_ended claimed found }
{
    if claimed <= found {
        b": all are counted"
    } else if is_ended {
        b""
    } else {
        b": is it complete?"
    }
}

/// Appends the message that pages depend on the text before them, and the cure.
pub(crate) fn push_dependence(said: &mut Vec<u8>, dependence: Dependence) -> Result<(), AllocError>
    ensures { OnOk result (said.new.items ≡ said.old.items ++ dependence_message dependence) }
{
    said.extend_from_slice(dependence_effect(dependence))?;
    said.extend_from_slice(b": let Ghostscript draw the document first, by ps2pdf and pdftops")
}

/// Why pages depend on the text before them, and the effect on the sheets.
fn dependence_effect(dependence: Dependence) -> &'static [u8]
    ensures { result.now ≡ effect_of dependence }
{
    match dependence {
        Dependence::Hp2xx => b"pages by hp2xx undo the setup, so that sheets print nothing",
        Dependence::Xcircuit => {
            b"pages by Xcircuit use what earlier pages define, so that sheets may be missing"
        }
        Dependence::Plplot => { b"pages by PLplot undo the setup's scale, so that sheets are cut" }
        Dependence::Antiword => {
            b"pages by antiword go on with the font of the page before, so that text may be missing"
        }
        Dependence::Setup => b"the setup scales, turns or moves pages, so that sheets may be wrong",
        Dependence::Font => b"a page shows text before it sets a font, so that text may be missing",
    }
}

/// Appends the message that copies for which the setup asks aren't printed.
pub(crate) fn push_copies(said: &mut Vec<u8>) -> Result<(), AllocError>
    ensures { OnOk result (said.new.items ≡ said.old.items ++ copies_message) }
{
    said.extend_from_slice(
        b"the setup asks for copies, which sheets don't have: print them with lp -n",
    )
}

/// Where the pages' paper is taken from, in words.
fn origin_text(origin: PaperOrigin) -> &'static [u8]
    ensures { result.now ≡ text_of_origin origin }
{
    match origin {
        PaperOrigin::Named => b"as named",
        PaperOrigin::ByComment(Comment::DocumentMedia) => b"by its %%DocumentMedia",
        PaperOrigin::ByComment(Comment::DocumentPaperSizes) => b"by its %%DocumentPaperSizes",
        PaperOrigin::ByComment(Comment::BoundingBox) => b"by its %%BoundingBox",
        PaperOrigin::ByComment(Comment::Setup) => b"by its setup",
        PaperOrigin::ByDefault => b"the usual one here, as the document names none",
        PaperOrigin::FirstPage => b"that of the first page taken, as none has the document's",
        PaperOrigin::Covering => b"which covers pages of nearly one size",
    }
}

fn push_number(said: &mut Vec<u8>, number: u128) -> Result<(), AllocError>
    ensures { OnOk result (said.new.items ≡ said.old.items ++ decimal number) }
{
    let mut buffer = Buffer::new();
    said.extend_from_slice(buffer.format(number).as_bytes())
}
