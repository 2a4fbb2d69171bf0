//! Messages about page ranges and specifications, with a caret at the place of the fault.

use crate::context::{Context, OUT_OF_MEMORY};
use command_words::{caret_below, group_place, item_place, large_place, range_place};
use pagespec::SpecError;
use rows::RowError;
use std::alloc::{AllocError, Global};
use suggestions::looks_like_file;

/// The largest number of sheets that a specification may have.
const MOST_GROUPS: u32 = 10_000;

/// The message, followed by the part of the text around byte `place`, counted from 0, and by a caret below this byte. If the place is past the end of
/// the text, the result is only the message.
fn with_caret(
    alloc: Global,
    message: &str,
    text: &str,
    place: usize,
) -> Result<String, AllocError> {
    let caret = caret_below(alloc, text, place)?;
    format!(in alloc; "{message}{caret}")
}

/// The message about a page range with pages that the document doesn't have.
pub(crate) fn no_page_text(
    context: &Context<'_>,
    place: usize,
    pages: u32,
) -> Result<String, AllocError> {
    let message = format!(in context.alloc;
        "page ranges: the document has pages 1 to {pages} only"
    )?;
    with_caret(context.alloc, message.as_str(), context.ranges, place)
}

/// The message about a choice of pages that gives no row, because of its page ranges or because `--odd` or `--even` leaves no page.
pub(crate) fn row_text(context: &Context<'_>, error: &RowError) -> Result<String, AllocError> {
    let (message, place) = match error {
        RowError::NotARange(at) => return no_range_text(context, range_place(context.ranges, *at)),
        RowError::NotInDocument(at) => ("page ranges: the document doesn't have these pages", *at),
        RowError::TooManyEntries(at) => (
            "page ranges: more than 1,000,000 pages; impose them in several runs",
            *at,
        ),
        RowError::NoEntries => return String::from_str(
            context.alloc,
            "page ranges: no page is left by --odd or --even; pages are counted from 1",
        ),
        RowError::NoMemory => return String::from_str(context.alloc, OUT_OF_MEMORY),
    };
    with_caret(context.alloc, message, context.ranges, place)
}

/// The message about page ranges with a syntax error at byte `place`, counted from 0. If the text after `select` looks like a file, the message says
/// that page ranges come before the file.
fn no_range_text(context: &Context<'_>, place: usize) -> Result<String, AllocError> {
    let ranges = context.ranges;
    if context.is_selection && looks_like_file(ranges) {
        let message =
            "page ranges: they come before the file, and 1- are all pages: impose select 1- in.ps out.ps";
        return with_caret(context.alloc, message, ranges, place);
    }
    let advice = match ranges {
        "all" => "all pages are 1-",
        "odd" | "even" => "every second page of 1- is taken by --odd or --even",
        _ if ranges.contains("!") => "pages are left out by naming the others, as 1-2,4-",
        _ if ranges.contains("end") => "5- goes to the last page",
        _ => "write them as 7, 3-9, 5-, _1 (the last) or blank, with commas between them",
    };
    let message = format!(in context.alloc; "page ranges: no range at byte {place}; {advice}")?;
    with_caret(context.alloc, message.as_str(), ranges, place)
}

/// The message about a specification that is refused.
pub(crate) fn spec_text(context: &Context<'_>, error: &SpecError) -> Result<String, AllocError> {
    let (alloc, spec) = (context.alloc, context.spec);
    let message = match error {
        SpecError::Syntax(at) if *at < spec.len() && !looks_like_file(spec) => format!(in alloc;
            "specification: syntax error at byte {at}; what is at the caret can't follow"
        )?,
        error => {
            let message = spec_message(error, spec);
            format!(in alloc; "specification: {message}")?
        }
    };
    match spec_place(error, spec) {
        Some(place) => with_caret(alloc, message.as_str(), spec, place),
        None => Ok(message),
    }
}

fn spec_message(error: &SpecError, spec: &str) -> &'static str {
    match error {
        SpecError::TooLong => "longer than 65,536 bytes; impose in several runs",
        SpecError::Syntax(_) if looks_like_file(spec) =>
            "it comes before the file: impose spec 0,0 in.ps out.ps",
        SpecError::Syntax(_) => "incomplete; more has to follow at the caret",
        SpecError::TooLarge => "a number is over 99,999; take a smaller one",
        SpecError::ModuloZero => "the modulo is zero; for single pages leave it and its colon out",
        SpecError::PageOutOfBlock(_) =>
            "the page number is not below the modulo; pages are counted from 0 in each block",
        SpecError::ScaleZero(_) =>
            "the scale is not above zero; for pages of their own size leave it out",
        SpecError::Repeated(_) => "a second scale or offset; leave one out",
        SpecError::TooManySlots(_) => "a sheet takes at most 4,096 pages",
        SpecError::TooManyGroups => "more than 10,000 sheets; impose in several runs",
        SpecError::NoMemory => OUT_OF_MEMORY,
    }
}

/// The byte of the specification at which its fault is, counted from 0. `None` if the fault is at no single place.
fn spec_place(error: &SpecError, spec: &str) -> Option<usize> {
    match error {
        SpecError::Syntax(at) => Some(*at),
        SpecError::TooLarge => Some(large_place(spec)),
        SpecError::ModuloZero => Some(0),
        SpecError::PageOutOfBlock(item) => Some(item_place(spec, *item)),
        SpecError::ScaleZero(item) | SpecError::Repeated(item) => Some(item_place(spec, *item)),
        SpecError::TooManySlots(group) => Some(group_place(spec, *group)),
        SpecError::TooManyGroups => Some(group_place(spec, MOST_GROUPS)),
        SpecError::TooLong | SpecError::NoMemory => None,
    }
}
