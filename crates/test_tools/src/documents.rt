//! Documents for tests, in which each page pushes its number and pops it.
use std::alloc::{AllocError, Global};

/// The document that `document_of` makes for one page.
pub const ONE_PAGE: &str =
    "%!PS-Adobe-3.0\n%%Pages: 1\n%%EndComments\n%%Page: 1 1\n(0) pop\nshowpage\n%%Trailer\n%%EOF\n";

/// The document that `document_of` makes for two pages.
pub const TWO_PAGES: &str = "%!PS-Adobe-3.0\n\
    %%Pages: 2\n\
    %%EndComments\n\
    %%Page: 1 1\n\
    (0) pop\n\
    showpage\n\
    %%Page: 2 2\n\
    (1) pop\n\
    showpage\n\
    %%Trailer\n\
    %%EOF\n";

/// A document of `pages` pages. Each page pushes its number, counted from 0, and pops it. The only error is running out of memory.
pub fn document_of(alloc: Global, pages: u32) -> Result<String, AllocError> {
    let mut text = String::new(alloc);
    for page in 0..pages {
        text.push_str(&numbered_page(alloc, page)?)?;
    }
    document_with(alloc, pages, &text)
}

fn numbered_page(alloc: Global, page: u32) -> Result<String, AllocError> {
    let number = page.saturating_add(1);
    format!(in alloc; "%%Page: {number} {number}\n({page}) pop\nshowpage\n")
}

/// A document that declares `pages` pages. `text` lies between its preamble and its trailer: its pages, or the sheets of an output.
pub(crate) fn document_with(alloc: Global, pages: u32, text: &str) -> Result<String, AllocError> {
    format!(in alloc; "%!PS-Adobe-3.0\n%%Pages: {pages}\n%%EndComments\n{text}%%Trailer\n%%EOF\n")
}
