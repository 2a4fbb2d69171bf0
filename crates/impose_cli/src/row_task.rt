//! The task of laying a row of pages on sheets.
ghost use Rattle.std.specs.Prelude.{◌≡◌, ◌⊎◌, ℕ, length, IfErr, IfOk, None, Ok};
ghost use Rattle.std.specs.Prelude.{if◌then◌else◌, map};
ghost use Rattle.rules.specs.Parts.{bytes_of};
ghost use Rattle.impose_messages.specs.Faults.{without_memory};
ghost use Rattle.impose_cli.specs.Faults.{of_asked as asked_fault};
ghost use Rattle.rules.specs.Choice.{imposed_row as row_of};
ghost use Rattle.impose_words.specs.Arranging.{turn_for as turn_by};
ghost use Rattle.impose_words.specs.Choices.{choice_in};
ghost use Rattle.impose_cli.specs.RowTasks.{guarded_in, first_paper as first_paper_of};
ghost use Rattle.impose_cli.specs.Claims.{AreClaimsOf};
ghost use Rattle.impose_cli.specs.RowTasks.{ArePapersOf, FindsForRow, HasTurns, IsRowTask, counted_in};
ghost use Rattle.impose_cli.specs.RowTasks.{has_cuts_apart as cuts_apart};
ghost use Rattle.impose_cli.specs.RowTasks.{counted_among, counted_origin as origin_counted, cut_by_named, cut_in, cut_on, loose_by_named, loose_for, loose_in, paper_for, paper_turned, papers_in as papers_found, papers_to_place, row_paper, turns_in, turns_of};
ghost use Rattle.impose_cli.specs.Reaches.{reach_in, reach_on, reported_own};
ghost use Rattle.paper_names.specs.Names.{paper_named};
ghost use Rattle.papers.specs.Own.{papers_of_each_page};
ghost use Rattle.papers.specs.Reach.{page_boxes};
ghost use Rattle.impose_cli.specs.Taken.{row_or_none, taken_in};
ghost use Rattle.impose_cli.specs.Refusals.{RefusesDocument, RefusesRowTask};
ghost use Rattle.impose_cli.specs.Tasks.{HasPageCount, page_paper_found, taken_text};
ghost use Rattle.dsc.specs.PagesAfter.{pages_after};
ghost use Rattle.dsc.specs.Serving.{ArePartsOf, Serve};
ghost use Rattle.dsc.specs.declared.parts.Parts.{Parts};

use crate::claims::claims_of;
use crate::laying::{RowLaying, check_options, laying_for, papers_for};
use crate::loose::loose_on;
use crate::reach::reach_of_row;
use crate::taken::{papers_on_row, papers_taken, row_of_choice, taken_count};
use dsc::{Document, Parts};
use guard::RoomyText;
use impose_messages::{Findings, ImposeFault, PaperOrigin, refused_document};
use impose_words::{ImposeRequest, Layout, Turning};
use layouts::is_of_size;
use lengths::Paper;
use pagespec::Turn;
use papers::{Cut, Reach, cut_by, document_paper, first_instead_of, merge_near_sizes, page_papers};
use row_runs::{SheetError, turned_paper};
use rows::RowError;
use std::alloc::{AllocError, Global};

/// The task of imposing a row of pages.
#[derive(Drop)]
pub(crate) struct RowTask {
    /// The document, with the guard unless the request leaves it out.
    pub(crate) text: RoomyText,
    /// The facts for the report. Sheets and cells are made for the paper that it names.
    pub(crate) findings: Findings,
    /// The turn of each page. Empty without `--turn`.
    pub(crate) turns: Vec<Turn>,
    /// The papers by which the document's pages are placed, each turned with its page.
    pub(crate) papers: Vec<Paper>,
    pub(crate) laying: RowLaying,
}

/// Facts about a document's pages, by which they are laid on sheets.
#[derive(Drop)]
struct FoundPages {
    /// The row of pages, or an empty one if the choice gives none.
    row: Vec<Option<u32>>,
    /// The turn of each page. Empty without `--turn`.
    turns: Vec<Turn>,
    /// The papers by which the pages are placed, each turned with its page.
    papers: Vec<Paper>,
    /// The facts for the report. Sheets and cells are made for the paper that it names.
    findings: Findings,
}

/// The task of a request for a document, and the parts of the task's text. The error is the first fault that is found before the pages are imposed.
pub(crate) fn row_task(
    alloc: Global,
    request: &ImposeRequest,
    input: RoomyText,
) -> Result<(RowTask, Parts), ImposeFault>
    ensures is_task { IfOk result (λ found. IsRowTask request.now input.items found.0) }
    ensures parts { IfOk result (λ found. Serve found.1 found.0.text.items) }
    ensures refused { IfErr result (RefusesRowTask request.now input.items) }
{
    // The document is read before the guard is inserted, so that a fault names its place in the input.
    let (found, parts) = pages_of(alloc, request, input.as_slice())?;
    let papers = papers_for(request, &found.findings.page_paper);
    let laying = laying_for(alloc, &request.layout, &request.spacing, &papers)?;
    check_options(request)?;
    let sheet = guarded_paper(request, &found, &papers.sheet);
    let text = text_to_impose(request.is_guarded, &sheet, input)?;
    let task = RowTask {
        text,
        findings: found.findings,
        turns: found.turns,
        papers: found.papers,
        laying,
    };
    Ok((task, parts))
}

/// Facts about a document's pages, and the document's parts. Fails only if the document or memory is refused.
fn pages_of(
    alloc: Global,
    request: &ImposeRequest,
    input: &[u8],
) -> Result<(FoundPages, Parts), ImposeFault>
    ensures papers { IfOk result (λ found. ArePapersOf request.now input.now found.0.papers.items) }
    ensures turns { IfOk result (λ found. HasTurns request.now input.now found.0.turns.items) }
    ensures findings { IfOk result (λ found. FindsForRow request.now input.now found.0.findings) }
    ensures row { IfOk result (λ found.
        found.0.row.items ≡ row_or_none (row_of (length found.0.papers.items) (choice_in request.now.choice) None)) }
    ensures parts { IfOk result (λ found. ArePartsOf input.now found.1) }
    ensures refused { IfErr result (λ f.
        RefusesDocument input.now f ⊎ ((n : ℕ) × HasPageCount input.now n × (f ≡ without_memory))) }
{
    let document = match Document::read(alloc, input) {
        Ok(document) => document,
        Err(error) => return Err(refused_document(error, input)),
    };
    let found = pages_in(alloc, request, &document)?;
    Ok((found, document.into_parts()))
}

fn pages_in(
    alloc: Global,
    request: &ImposeRequest,
    document: &Document<'_>,
) -> Result<FoundPages, AllocError>
    ensures turns { IfOk result (λ found.
        found.turns.items ≡ turns_in request.now (bytes_of document.now) document.now) }
    ensures papers { IfOk result (λ found.
        found.papers.items ≡ papers_found request.now (bytes_of document.now) document.now) }
    ensures paper { IfOk result (λ found.
        (found.findings.page_paper, found.findings.origin) ≡ row_paper request.now (bytes_of document.now) document.now) }
    ensures cut { IfOk result (λ found.
        found.findings.cut ≡ cut_in request.now (bytes_of document.now) document.now) }
    ensures loose { IfOk result (λ found.
        found.findings.loose ≡ loose_in request.now (bytes_of document.now) document.now) }
    ensures reach { IfOk result (λ found.
        found.findings.reach ≡ reach_in (cuts_apart request.now.layout) request.now (counted_in request.now (bytes_of document.now) document.now)
        (bytes_of document.now) document.now) }
    ensures after_trailer { IfOk result (λ found. found.findings.after_trailer ≡ pages_after document.now) }
    ensures taken { IfOk result (λ found. found.findings.taken ≡ taken_in request.now document.now) }
    ensures claims { IfOk result (λ found. AreClaimsOf request.now (bytes_of document.now) document.now found.findings.claims) }
    ensures row { IfOk result (λ found.
        found.row.items ≡ row_or_none (row_of (length found.papers.items) (choice_in request.now.choice) None)) }
{
    let own = page_papers(alloc, document, request.page_paper, &request.default_paper)?;
    let row = row_of_choice(alloc, document.pages(), &request.choice)?;
    let taken = papers_on_row(alloc, row.as_slice(), own.as_slice())?;
    let (found, origin) = paper_of_row(request, document.text(), taken.as_slice());
    let page_paper = counted_paper(alloc, &request.layout, taken.as_slice(), &found)?;
    let counted = papers_placed(
        alloc,
        &request.layout,
        &page_paper,
        taken.as_slice(),
        own.as_slice(),
    )?;
    let (cut, loose, reach) = cut_and_reach(
        alloc,
        request,
        document,
        row.as_slice(),
        counted.as_slice(),
        own.as_slice(),
    )?;
    let (turns, papers) = turned_pages(alloc, request.turn, counted)?;
    let count = taken_count(alloc, row.as_slice(), document.pages())?;
    Ok(FoundPages {
        row,
        turns,
        papers,
        findings: Findings {
            page_paper,
            origin: counted_origin(origin, &found, &page_paper),
            cut,
            loose,
            reach,
            after_trailer: document.pages_after_trailer(),
            taken: count,
            claims: claims_of(request, document),
        },
    })
}

/// The turn of each page of these papers, and the papers after these turns. For `Turning::All(Turn::None)` no turns are listed.
#[tactic(auto, using(crate::proofs::Rows::unturned_papers))]
fn turned_pages(
    alloc: Global,
    turning: Turning,
    papers: Vec<Paper>,
) -> Result<(Vec<Turn>, Vec<Paper>), AllocError>
    ensures turns { IfOk result (λ turned. turned.0.items ≡ turns_of turning papers.items) }
    ensures papers { IfOk result (λ turned. turned.1.items ≡ map (paper_turned turning) papers.items) }
{
    match turning {
        Turning::All(Turn::None) => Ok((Vec::new(alloc), papers)),
        _ => each_turned(alloc, turning, papers.as_slice()),
    }
}

fn each_turned(
    alloc: Global,
    turning: Turning,
    papers: &[Paper],
) -> Result<(Vec<Turn>, Vec<Paper>), AllocError>
    ensures turns { IfOk result (λ turned. turned.0.items ≡ map (turn_by turning) papers.now) }
    ensures papers { IfOk result (λ turned. turned.1.items ≡ map (paper_turned turning) papers.now) }
{
    let mut turns = Vec::new(alloc);
    let mut turned = Vec::new(alloc);
    for paper in papers {
        let turn = turning.of(paper);
        turns.push(turn)?;
        turned.push(turned_paper(turn, paper))?;
    }
    Ok((turns, turned))
}

/// The paper for which sheets and cells are made, before any turn, and where it is taken from. It is the paper that `paper_of_pages` finds, if a page
/// of the row has nearly this size, or if the row has no page. Otherwise it is the paper of the row's first page. A specification always takes the
/// paper that `paper_of_pages` finds.
fn paper_of_row(request: &ImposeRequest, input: &[u8], taken: &[Paper]) -> (Paper, PaperOrigin)
    ensures { result ≡ paper_for request.now.layout (page_paper_found request.now.page_paper request.now.default_paper input.now) taken.now }
{
    let (page_paper, origin) = paper_of_pages(request, input);
    if matches!(&request.layout, Layout::Spec { .. }) {
        return (page_paper, origin);
    }
    match first_instead_of(&page_paper, taken) {
        Some(first) => (first, PaperOrigin::FirstPage),
        None => (page_paper, origin),
    }
}

/// The paper that takes the place of `paper`. In a selection, `paper` counts as one with the papers of nearly its size in `taken`, the papers of the
/// row's pages. A blank sheet thus gets the same paper as pages of nearly its size. In other layouts the result is `paper`.
fn counted_paper(
    alloc: Global,
    layout: &Layout,
    taken: &[Paper],
    paper: &Paper,
) -> Result<Paper, AllocError>
    ensures { IfOk result (λ counted. counted ≡ counted_among layout.now taken.now paper.now) }
{
    match layout {
        Layout::Selection => {
            let counted = merge_near_sizes(alloc, taken, &[*paper])?;
            Ok(*counted.first().unwrap_or(paper))
        }
        _ => Ok(*paper),
    }
}

/// Where a paper is taken from that counts as `counted`, if it is found at `origin`.
fn counted_origin(origin: PaperOrigin, found: &Paper, counted: &Paper) -> PaperOrigin
    ensures { result ≡ origin_counted found.now counted.now origin }
{
    if is_of_size(found, counted) {
        origin
    } else {
        PaperOrigin::Covering
    }
}

/// The papers by which pages are placed. In most layouts each page is placed by its own paper. In a selection, papers of nearly the same size count
/// as one. A specification places all pages by the paper `one`.
fn papers_placed(
    alloc: Global,
    layout: &Layout,
    one: &Paper,
    taken: &[Paper],
    own: &[Paper],
) -> Result<Vec<Paper>, AllocError>
    ensures { IfOk result (λ papers. papers.items ≡ papers_to_place layout.now one.now taken.now own.now) }
{
    match layout {
        Layout::Selection => merge_near_sizes(alloc, taken, own),
        Layout::Spec { .. } => {
            let mut papers = Vec::new(alloc);
            papers.resize(own.len(), *one)?;
            Ok(papers)
        }
        _ => {
            let mut papers = Vec::new(alloc);
            papers.extend_from_slice(own)?;
            Ok(papers)
        }
    }
}

/// The pages of the row that the paper of `--paper` cuts, the smallest paper that covers the row's pages if `--paper` is larger, and the pages that
/// reach beyond `placed`, the papers by which pages are placed. `own` has the papers that the request finds for the document's pages. If a specification
/// places the pages, only the last are reported.
fn cut_and_reach(
    alloc: Global,
    request: &ImposeRequest,
    document: &Document<'_>,
    row: &[Option<u32>],
    placed: &[Paper],
    own: &[Paper],
) -> Result<(Option<Cut>, Option<Paper>, Option<Reach>), AllocError>
    requires { own.now ≡ papers_of_each_page request.now.page_paper paper_named request.now.default_paper (bytes_of document.now) document.now }
    ensures cut { IfOk result (λ found. found.0 ≡ cut_by_named (if cuts_apart request.now.layout then request.now.page_paper else None)
        row.now (bytes_of document.now) document.now) }
    ensures loose { IfOk result (λ found. found.1 ≡ loose_by_named (if cuts_apart request.now.layout then request.now.page_paper else None)
        row.now (bytes_of document.now) document.now) }
    ensures reach { IfOk result (λ found. found.2 ≡ reach_on (cuts_apart request.now.layout) row.now placed.now
        (reported_own request.now (bytes_of document.now) document.now) (page_boxes (bytes_of document.now) document.now)) }
{
    let cut_apart = has_cuts_apart(&request.layout);
    match request.page_paper {
        None => Ok((
            None,
            None,
            reach_of_row(alloc, document, row, placed, own, cut_apart)?,
        )),
        Some(named) => {
            // A page that names no paper counts as having the paper of `--paper`, which doesn't cut it.
            let reported = page_papers(alloc, document, None, &named)?;
            let cut = cut_if(alloc, cut_apart, row, reported.as_slice(), &named)?;
            let loose = loose_if(alloc, document, cut_apart, row, reported.as_slice(), &named)?;
            let reach = reach_of_row(alloc, document, row, placed, reported.as_slice(), cut_apart)?;
            Ok((cut, loose, reach))
        }
    }
}

/// The pages of the row that the paper `named` cuts. `None` if they aren't asked for. `own` has the papers of the document's pages.
fn cut_if(
    alloc: Global,
    is_asked: bool,
    row: &[Option<u32>],
    own: &[Paper],
    named: &Paper,
) -> Result<Option<Cut>, AllocError>
    ensures { IfOk result (λ cut. cut ≡ (if is_asked then cut_on row.now named.now own.now else None)) }
{
    if !is_asked {
        return Ok(None);
    }
    let taken = papers_taken(alloc, row, own, named)?;
    Ok(cut_by(named, taken.as_slice()))
}

/// The smallest paper that covers the pages of the row, if the paper `named` is larger. `None` if it isn't asked for, or if a page reaches beyond its
/// own paper by its box. `own` has the papers of the document's pages.
fn loose_if(
    alloc: Global,
    document: &Document<'_>,
    is_asked: bool,
    row: &[Option<u32>],
    own: &[Paper],
    named: &Paper,
) -> Result<Option<Paper>, AllocError>
    ensures { IfOk result (λ loose. loose ≡ (if is_asked
        then loose_for row.now named.now own.now (page_boxes (bytes_of document.now) document.now) else None)) }
{
    if !is_asked {
        return Ok(None);
    }
    let beyond = reach_of_row(alloc, document, row, own, own, true)?;
    if beyond.is_some() {
        return Ok(None);
    }
    let taken = papers_on_row(alloc, row, own)?;
    Ok(loose_on(named, taken.as_slice()))
}

/// Whether pages that the paper of `--paper` cuts are reported separately from those that reach beyond their papers.
fn has_cuts_apart(layout: &Layout) -> bool
    ensures { result ≡ cuts_apart layout.now }
{
    !matches!(layout, Layout::Spec { .. })
}

/// The paper whose size the guard sets: `sheet`, the paper of the sheets, or the paper of a selection's first sheet. A selection whose first sheet is
/// blank, or whose choice gives no row, has `sheet` too.
fn guarded_paper(request: &ImposeRequest, found: &FoundPages, sheet: &Paper) -> Paper
    ensures { result ≡ guarded_in request.now.layout (first_paper_of (Ok found.now.row.items) found.now.papers.items sheet.now) sheet.now }
{
    match &request.layout {
        Layout::Selection => paper_of_first(found.row.as_slice(), found.papers.as_slice(), sheet),
        _ => *sheet,
    }
}

/// The paper of the sheet for a row's first entry. It is `blank` if the row is empty, if the entry is blank, or if `papers` doesn't have the entry's
/// page.
fn paper_of_first(row: &[Option<u32>], papers: &[Paper], blank: &Paper) -> Paper
    ensures { result ≡ first_paper_of (Ok row.now) papers.now blank.now }
{
    match row.first() {
        Some(Some(page)) => *papers.get(*page as usize).unwrap_or(blank),
        _ => *blank,
    }
}

/// The document, with the guard if `is_guarded`. `Document::from_parts` can read this text with the parts of `input`. The only error is refused
/// memory.
fn text_to_impose(
    is_guarded: bool,
    sheet_paper: &Paper,
    input: RoomyText,
) -> Result<RoomyText, AllocError>
    ensures taken { IfOk result (λ text. text.items ≡ taken_text is_guarded sheet_paper.now input.items) }
    ensures parts { IfOk result (λ text. (parts : Parts) → ArePartsOf input.items parts → Serve parts text.items) }
{
    if !is_guarded {
        return Ok(input);
    }
    let mut text = input;
    text.put_guard(Some(sheet_paper))?;
    Ok(text)
}

/// The paper of the pages, and where it is taken from: the command line, or else the document, or else the user's default paper.
fn paper_of_pages(request: &ImposeRequest, input: &[u8]) -> (Paper, PaperOrigin)
    ensures { result ≡ page_paper_found request.now.page_paper request.now.default_paper input.now }
{
    match request.page_paper {
        Some(page_paper) => (page_paper, PaperOrigin::Named),
        None => match document_paper(input, &request.default_paper) {
            Some((page_paper, comment)) => (page_paper, PaperOrigin::ByComment(comment)),
            None => (request.default_paper, PaperOrigin::ByDefault),
        },
    }
}

/// The fault that reports why a row of a document of `pages` pages can't be imposed.
pub(crate) fn asked_fault_of(error: SheetError, pages: u32) -> ImposeFault
    ensures { result ≡ asked_fault pages error }
{
    match error {
        SheetError::Row(RowError::NotInDocument(place)) => ImposeFault::NoSuchPage { place, pages },
        SheetError::Row(error) => ImposeFault::Row(error),
        SheetError::Arrangement(error) => ImposeFault::Layout(error),
        SheetError::Poster(error) => ImposeFault::Poster(error),
        SheetError::Sheets(error) => ImposeFault::Sheets(error),
        SheetError::OutOfReach => ImposeFault::OutOfReach,
        SheetError::NoMemory => ImposeFault::no_memory(),
    }
}
