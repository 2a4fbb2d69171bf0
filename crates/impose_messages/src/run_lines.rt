//! The lines that are printed about a finished run.
ghost use Rattle.std.specs.Prelude.{OnOk, ◌≡◌, ◌++◌, Some};
ghost use Rattle.impose_messages.specs.Said.{pages_after_text, copies_text, cut_text, home_text, line_of, loose_text, lying_text};
ghost use Rattle.impose_messages.specs.Said.{depends as depends_on, dependence_text, reach_text, report_text, run_lines, claim_lines, claim_text, lying_lines, names_unknown, paper_lines, unknown_text};

use crate::finished::{Claims, Dependence, Findings, Finished, Lying, SheetFacts};
use crate::reports::{
    push_claim, push_copies, push_cut, push_dependence, push_home, push_loose, push_lying,
    push_pages_after, push_reach, push_report, push_unknown,
};
use crate::shown::ShownName;
use impose_words::ImposeRequest;
use lengths::Paper;
use papers::{Cut, Reach, paper_by_name};
use std::alloc::{AllocError, Global};
use suggestions::shown_word;

/// Appends all lines about a finished run, except the one about the name of the output file (`note_text`). `paper_size` is the value of `PAPERSIZE`.
pub(crate) fn push_lines(
    said: &mut Vec<u8>,
    done: &Finished,
    request: &ImposeRequest,
    paper_size: &[u8],
) -> Result<(), AllocError>
    ensures { OnOk result (said.new.items ≡ said.old.items ++ run_lines done.now request.now paper_size.now) }
{
    let found = &done.findings;
    push_report_line(said, done, request)?;
    push_paper_lines(said, found)?;
    push_lying_lines(said, &done.sheets)?;
    push_pages_after_line(said, found.after_trailer)?;
    push_claim_lines(said, &found.claims, done.report.pages)?;
    push_home_line(said, paper_size)
}

fn push_report_line(
    said: &mut Vec<u8>,
    done: &Finished,
    request: &ImposeRequest,
) -> Result<(), AllocError>
    ensures { OnOk result (said.new.items ≡ said.old.items ++ line_of (Some (report_text done.now request.now))) }
{
    said.extend_from_slice(b"impose: ")?;
    push_report(said, done, request)?;
    said.extend_from_slice(b"\n")
}

/// Appends the lines about the papers of pages.
fn push_paper_lines(said: &mut Vec<u8>, found: &Findings) -> Result<(), AllocError>
    ensures { OnOk result (said.new.items ≡ said.old.items ++ paper_lines found.now) }
{
    push_unknown_line(said, &found.claims.unknown)?;
    push_cut_line(said, &found.cut, &found.page_paper)?;
    push_loose_line(said, &found.loose, &found.page_paper)?;
    push_reach_line(said, &found.reach)
}

fn push_unknown_line(said: &mut Vec<u8>, name: &Option<ShownName>) -> Result<(), AllocError>
    ensures { OnOk result (said.new.items ≡ said.old.items ++ line_of (unknown_text name.now)) }
{
    let Some(name) = name else {
        return Ok(());
    };
    said.extend_from_slice(b"impose: ")?;
    push_unknown(said, name)?;
    said.extend_from_slice(b"\n")
}

fn push_cut_line(said: &mut Vec<u8>, cut: &Option<Cut>, named: &Paper) -> Result<(), AllocError>
    ensures { OnOk result (said.new.items ≡ said.old.items ++ line_of (cut_text cut.now named.now)) }
{
    let Some(cut) = cut else {
        return Ok(());
    };
    said.extend_from_slice(b"impose: ")?;
    push_cut(said, cut, named)?;
    said.extend_from_slice(b"\n")
}

fn push_loose_line(
    said: &mut Vec<u8>,
    cover: &Option<Paper>,
    named: &Paper,
) -> Result<(), AllocError>
    ensures { OnOk result (said.new.items ≡ said.old.items ++ line_of (loose_text cover.now named.now)) }
{
    let Some(cover) = cover else {
        return Ok(());
    };
    said.extend_from_slice(b"impose: ")?;
    push_loose(said, cover, named)?;
    said.extend_from_slice(b"\n")
}

/// Appends the lines about pages that aren't wholly on their sheets.
fn push_lying_lines(said: &mut Vec<u8>, sheets: &SheetFacts) -> Result<(), AllocError>
    ensures { OnOk result (said.new.items ≡ said.old.items ++ lying_lines sheets.now) }
{
    push_lying_line(said, b" lies beside its sheet: ", &sheets.beside)?;
    push_lying_line(said, b" is cut by its sheet: ", &sheets.over)
}

fn push_lying_line(said: &mut Vec<u8>, how: &[u8], lying: &Option<Lying>) -> Result<(), AllocError>
    ensures { OnOk result (said.new.items ≡ said.old.items ++ line_of (lying_text how.now lying.now)) }
{
    let Some(lying) = lying else {
        return Ok(());
    };
    said.extend_from_slice(b"impose: ")?;
    push_lying(said, how, lying)?;
    said.extend_from_slice(b"\n")
}

fn push_reach_line(said: &mut Vec<u8>, reach: &Option<Reach>) -> Result<(), AllocError>
    ensures { OnOk result (said.new.items ≡ said.old.items ++ line_of (reach_text reach.now)) }
{
    let Some(reach) = reach else {
        return Ok(());
    };
    said.extend_from_slice(b"impose: ")?;
    push_reach(said, reach)?;
    said.extend_from_slice(b"\n")
}

fn push_pages_after_line(said: &mut Vec<u8>, pages: usize) -> Result<(), AllocError>
    ensures { OnOk result (said.new.items ≡ said.old.items ++ line_of (pages_after_text pages)) }
{
    if pages == 0 {
        return Ok(());
    }
    said.extend_from_slice(b"impose: ")?;
    push_pages_after(said, pages)?;
    said.extend_from_slice(b"\n")
}

/// Appends the lines about what the document says of itself, if it has this number of pages.
fn push_claim_lines(said: &mut Vec<u8>, claims: &Claims, pages: u32) -> Result<(), AllocError>
    ensures { OnOk result (said.new.items ≡ said.old.items ++ claim_lines claims.now pages) }
{
    push_claim_line(said, claims, pages)?;
    push_dependence_line(said, claims.dependence, pages)?;
    push_copies_line(said, claims.loses_copies)
}

fn push_claim_line(said: &mut Vec<u8>, claims: &Claims, found: u32) -> Result<(), AllocError>
    ensures { OnOk result (said.new.items ≡ said.old.items ++ line_of (claim_text claims.now.is_ended claims.now.pages found)) }
{
    let Some(claimed) = claims.pages else {
        return Ok(());
    };
    let found = found as usize;
    if claimed == found {
        return Ok(());
    }
    said.extend_from_slice(b"impose: ")?;
    push_claim(said, claims.is_ended, claimed, found)?;
    said.extend_from_slice(b"\n")
}

fn push_dependence_line(
    said: &mut Vec<u8>,
    dependence: Option<Dependence>,
    pages: u32,
) -> Result<(), AllocError>
    ensures { OnOk result (said.new.items ≡ said.old.items ++ line_of (dependence_text dependence pages)) }
{
    let Some(dependence) = dependence else {
        return Ok(());
    };
    if !has_dependent_pages(dependence, pages) {
        return Ok(());
    }
    said.extend_from_slice(b"impose: ")?;
    push_dependence(said, dependence)?;
    said.extend_from_slice(b"\n")
}

/// Whether pages of a document with this number of pages depend in this way on the text before them. A single page by Xcircuit or antiword has no
/// earlier page to depend on.
fn has_dependent_pages(dependence: Dependence, pages: u32) -> bool
    ensures { result ≡ depends_on dependence pages }
{
    match dependence {
        Dependence::Hp2xx | Dependence::Plplot | Dependence::Setup | Dependence::Font => true,
        Dependence::Xcircuit | Dependence::Antiword => pages != 1,
    }
}

fn push_copies_line(said: &mut Vec<u8>, loses_copies: bool) -> Result<(), AllocError>
    ensures { OnOk result (said.new.items ≡ said.old.items ++ line_of (copies_text loses_copies)) }
{
    if !loses_copies {
        return Ok(());
    }
    said.extend_from_slice(b"impose: ")?;
    push_copies(said)?;
    said.extend_from_slice(b"\n")
}

/// Appends the line that `PAPERSIZE`, which has this value, names an unknown paper, if it does.
fn push_home_line(said: &mut Vec<u8>, paper_size: &[u8]) -> Result<(), AllocError>
    ensures { OnOk result (said.new.items ≡ said.old.items ++ line_of (home_text paper_size.now)) }
{
    if !names_unknown(paper_size) {
        return Ok(());
    }
    said.extend_from_slice(b"impose: ")?;
    push_home(said, &ShownName::of(paper_size))?;
    said.extend_from_slice(b"\n")
}

/// Whether this value of `PAPERSIZE` names an unknown paper. An empty value names none.
fn names_unknown(paper_size: &[u8]) -> bool
    ensures { result ≡ names_unknown paper_size.now }
{
    !paper_size.is_empty() && !paper_by_name(paper_size).is_some()
}

/// The message that the output is PostScript, if the name of the output file has the ending of another kind of file, such as `.pdf`. It says how to make
/// a file of that kind. `None` for any other name.
pub(crate) fn note_text(alloc: Global, outfile: &str) -> Result<Option<String>, AllocError> {
    let advice = if outfile.ends_with(".pdf") || outfile.ends_with(".PDF") {
        "holds PostScript, not a PDF; for a PDF use: impose .. | ps2pdf -dAutoRotatePages=/None - "
    } else if outfile.ends_with(".gz") {
        "holds PostScript that isn't compressed; for that use: impose .. | gzip >"
    } else if outfile.ends_with(".svg") {
        "holds PostScript, not an SVG; for a picture of the sheets use: impose .. --preview "
    } else if outfile.ends_with(".eps") {
        "holds whole sheets, not an EPS; for an EPS use: impose .. | eps2eps - "
    } else {
        return Ok(None);
    };
    let name = shown_word(alloc, outfile)?;
    Ok(Some(format!(in alloc; "{name} {advice}{name}")?))
}
