//! The expected output of runs: placed pages and sheets.
use super::documents::document_with;
use std::alloc::{AllocError, Global};

/// The text of a page of `document_of` on a sheet. `page` is counted from 0, and `matrix` places the page, whose paper is A4.
fn placed(alloc: Global, matrix: &str, page: u32) -> Result<String, AllocError> {
    format!(in alloc;
        "userdict /ImposeSave save put\nuserdict /showpage {{}} put\n[{matrix}] concat\n\
        newpath 0 0 moveto 595 0 lineto 595 842 lineto 0 842 lineto closepath clip newpath\n\
        ({page}) pop\nshowpage\nImposeSave restore\n"
    )
}

/// The text of sheet `number`, counted from 1, with these placed pages.
fn sheet(alloc: Global, number: u32, pages: &str) -> Result<String, AllocError> {
    format!(in alloc; "%%Page: {number} {number}\n{pages}showpage\n")
}

/// The whole output of a run that puts the page of `ONE_PAGE` unmoved on a sheet.
pub fn one_up_output(alloc: Global) -> Result<String, AllocError> {
    let page = placed(alloc, "1 0 0 1 0 0", 0)?;
    document_with(alloc, 1, &sheet(alloc, 1, &page)?)
}

/// The texts of `sheets` sheets, each with two pages of `document_of`, placed by the specification `TWO_UP`.
pub fn two_up_sheets(alloc: Global, sheets: u32) -> Result<String, AllocError> {
    let mut text = String::new(alloc);
    for place in 0..sheets {
        let pair = two_up(alloc, place.saturating_mul(2))?;
        text.push_str(&sheet(alloc, place.saturating_add(1), &pair)?)?;
    }
    Ok(text)
}

/// The whole output of a run whose sheets are those of `two_up_sheets`.
pub fn two_up_output(alloc: Global, sheets: u32) -> Result<String, AllocError> {
    document_with(alloc, sheets, &two_up_sheets(alloc, sheets)?)
}

/// The texts of page `page`, counted from 0, and of the page after it, placed by the specification `TWO_UP`.
fn two_up(alloc: Global, page: u32) -> Result<String, AllocError> {
    let next = page.saturating_add(1);
    let mut pair = placed(alloc, "0 0.7 -0.7 0 595.27559 0", page)?;
    pair.push_str(&placed(alloc, "0 0.7 -0.7 0 595.27559 420.94488", next)?)?;
    Ok(pair)
}
