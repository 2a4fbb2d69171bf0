//! A document that is cut into preamble, pages and trailer.
ghost use Rattle.std.specs.Prelude.{◌≡◌, ℕ, ◌+◌, ◌-◌, ◌<◌, ◌≤◌, List, [], length, take, drop, slice_index_or};
ghost use Rattle.std.specs.Prelude.{IfOk, IfErr, IfSome, Ok};
ghost use Rattle.rules.specs.Parts.{bytes_of, pages};
ghost use Rattle.rules.specs.Filters.{preamble_text, trailer_text, prepared};
ghost use Rattle.rules.specs.Run.{document_of, most_pages};
ghost use Rattle.rules.specs.Dress.{lines_text};
ghost use Rattle.rules.specs.MadeOutput.{dressed_preamble};
ghost use Rattle.dsc.specs.Units.{units_of};
ghost use Rattle.dsc.specs.Views.{GivesUnlessShort};
ghost use Rattle.dsc.specs.Faults.{reported_fault, PassedFirstChecks};
ghost use Rattle.dsc.specs.Laws.{HasBody};
ghost use Rattle.dsc.specs.PagesAfter.{pages_after};
ghost use Rattle.dsc.specs.Serving.{ArePartsOf, Serve};
ghost use Rattle.dsc.specs.declared.errors.DscError.TheVariants.{TooLong};

use crate::bodies::Body;
use crate::errors::DscError;
use crate::filters::{Drops, drops_with, end_line, filter_header, with_count};
use crate::lines::{content_end, line_end_after};
use crate::page_lines::page_lines;
use crate::parts::{Parts, move_bodies, move_starts};
use crate::scan::scan;
use std::alloc::{AllocError, Global};
use std::fmt;
use std::marker::Model;

/// The most bytes that a document may have, which is 2^30.
const MOST_BYTES: usize = 1_073_741_824;

/// The most pages that a document may have.
const MOST_PAGES: usize = 1_000_000;

/// A PostScript document that follows the Document Structuring Conventions. It borrows its text. Contracts see the
/// units that the text is cut into, each with its depth in embedded documents.
#[derive(Drop)]
pub struct Document<'d> {
    text: &'d [u8],
    /// For each page, the byte at which it begins.
    starts: Vec<u32>,
    /// For each page, the byte at which its prepared body begins, or 0 if this isn't known.
    bodies: Vec<u32>,
    /// The byte at which the trailer begins, or the length of the text if there is no trailer.
    stop: usize,
}

impl<'d> Model for Document<'d> {
    ghost use Rattle.std.specs.Prelude.{List};
    ghost use Rattle.rules.specs.Parts.{NestedUnit};
    ghost use Rattle.dsc.specs.Units.{units_of};
    ghost use Rattle.dsc.specs.Documents.{HasItsParts};

    ghost Value = { List NestedUnit };

    ghost view = { λ d. units_of d.text.now };

    ghost invariant = { λ d. HasItsParts d.text.now d.starts.items d.bodies.items d.stop };
}

impl<'d> Document<'d> {
    /// Cuts a text into the units of a document (DSC 3.0). A page begins at each `%%Page:` line before the trailer.
    /// The trailer begins at the first `%%Trailer` or `%%EOF` line after the first `%%Page:` line. Lines in embedded
    /// documents and in data blocks don't count.
    ///
    /// Refuses a text with the first of these errors that applies: `TooLong`, `NotPostScript`, `BadCount` or
    /// `ShortData` (for the first faulty data block), `TooManyPages`, `NoPages`. If memory is refused, `NoMemory` may
    /// be returned instead of any error but the first two.
    pub fn read(alloc: Global, text: &'d [u8]) -> Result<Document<'d>, DscError>
        ensures answer { GivesUnlessShort (λ d. d) reported_fault result (document_of text.now) }
        ensures first_checks { IfErr result (λ e. PassedFirstChecks e text.now) }
    {
        if text.len() > MOST_BYTES {
            return Err(DscError::TooLong);
        }
        if !text.starts_with(b"%!") {
            return Err(DscError::NotPostScript);
        }
        let (seen, bodies) = scan(alloc, text)?;
        if seen.starts.len() > MOST_PAGES {
            return Err(DscError::TooManyPages);
        }
        if seen.starts.is_empty() {
            return Err(DscError::NoPages);
        }
        let stop = seen.stop_or(text.len());
        Ok(Document {
            text,
            starts: seen.starts,
            bodies,
            stop,
        })
    }

    /// Makes a document of a text from the parts of another document, without cutting the text. The text must be at
    /// least as long as the other document. Unless the text is too long, it must be a document with the same units from
    /// the first page on. Refuses only a text that is too long, with `TooLong`.
    pub fn from_parts(text: &'d [u8], parts: Parts) -> Result<Document<'d>, DscError>
        requires serve { Serve parts text.now }
        ensures answer { GivesUnlessShort (λ d. d) reported_fault result (document_of text.now) }
        ensures too_long { IfErr result (λ e. e ≡ TooLong) }
    {
        let len = text.len();
        if len > MOST_BYTES {
            return Err(DscError::TooLong);
        }
        let by = len - parts.len;
        let Parts {
            len: _,
            mut starts,
            mut bodies,
            stop,
        } = parts;
        move_starts(&mut starts, by as u32);
        move_bodies(&mut bodies, by as u32);
        Ok(Document {
            text,
            starts,
            bodies,
            stop: stop + by,
        })
    }

    /// Returns the bytes at which the parts of the document begin, and drops the reference to its text.
    pub fn into_parts(self) -> Parts
        ensures parts { ArePartsOf (bytes_of self.entry) result }
    {
        let Document {
            text,
            starts,
            bodies,
            stop,
        } = self;
        Parts {
            len: text.len(),
            starts,
            bodies,
            stop,
        }
    }

    /// The text that the document was read from.
    pub fn text(&self) -> &'d [u8]
        ensures text { result.now ≡ bytes_of self.now }
        ensures units { self.now ≡ units_of result.now }
    {
        self.text
    }

    /// The number of pages, from 1 to 1,000,000.
    pub fn pages(&self) -> u32
        ensures count { result ≡ length (pages self.now) }
        ensures few { result ≤ most_pages }
    {
        self.starts.len() as u32
    }

    /// The bytes of page `p`, from its `%%Page:` line to the next page, the trailer or the end of the text. Pages are
    /// counted from 0.
    pub fn page(&self, p: u32) -> &'d [u8]
        requires { p < length (pages self.now) }
        ensures page { result.now ≡ slice_index_or (pages self.now) p [] }
        ensures has_a_body { HasBody result.now }
    {
        let p = p as usize;
        let starts = self.starts.as_slice();
        text_part(self.text, entry(starts, p), next_or(starts, p, self.stop))
    }

    /// The prepared body of page `p`. Pages are counted from 0. The body has the same bytes as the one that
    /// `Body::prepare` makes from the page. If `body_start` gives its start, the page isn't read again. Fails only if
    /// memory is refused.
    pub fn body(&self, alloc: Global, p: u32) -> Result<Body<'d>, AllocError>
        requires { p < length (pages self.now) }
        ensures body { IfOk result (λ b. prepared (slice_index_or (pages self.now) p []) ≡ Ok b) }
    {
        let page = self.page(p);
        if let Some(start) = self.body_start(p) {
            return Ok(Body::of_run(&page[start as usize..]));
        }
        match Body::prepare(alloc, page) {
            Ok(body) => Ok(body),
            Err(DscError::NoMemory) => Err(AllocError),
            Err(_) => unreachable!(),
        }
    }

    /// The byte of a page at which its prepared body begins; the body reaches to the end of the page. Both the pages
    /// and the bytes of a page are counted from 0. The start is known if lines are dropped only at the start of the
    /// page, and the page ends with a line end. None if the start isn't known.
    pub fn body_start(&self, p: u32) -> Option<u32>
        requires { p < length (pages self.now) }
        ensures within { IfSome result (λ start. start ≤ length (slice_index_or (pages self.now) p [])) }
        ensures body { IfSome result (λ start. prepared (slice_index_or (pages self.now) p [])
            ≡ Ok (drop start (slice_index_or (pages self.now) p []))) }
    {
        let bodies = self.bodies.as_slice();
        let starts = self.starts.as_slice();
        let start = bodies[p as usize];
        if start == 0 {
            return None;
        }
        Some(start - starts[p as usize])
    }

    /// The preamble of the output, which ends with a line end. After the first line it has a line with `%%Pages: ` and
    /// the number of sheets. Outermost lines with the keys `%%Pages`, `%%PageOrder`, `%%BoundingBox`,
    /// `%%HiResBoundingBox`, `%%DocumentMedia` and `%%Orientation` are dropped, and so are the `%%+` lines that
    /// continue them. Fails only if memory is refused.
    pub fn preamble_text(&self, sheets: u32) -> Result<Vec<u8>, AllocError>
        ensures text { IfOk result (λ v. v.items ≡ preamble_text sheets self.now) }
    {
        let text = self.dressed_preamble(sheets, &[])?;
        Ok(text)
    }

    /// The preamble as `preamble_text` makes it, with `lines` inserted after the line that has the number of sheets.
    /// Each inserted line must have its line end. If there are such lines, outermost lines with the key
    /// `%%DocumentPaperSizes` are dropped too, because the inserted lines report the papers. Fails only if memory is
    /// refused.
    pub fn dressed_preamble(&self, sheets: u32, lines: &[u8]) -> Result<Vec<u8>, AllocError>
        ensures text { IfOk result (λ v. (rows : List (List ℕ)) → lines.now ≡ lines_text rows →
            v.items ≡ dressed_preamble sheets rows self.now) }
    {
        let line_len = line_end_after(self.text, content_end(self.text));
        let (line, after) = self.text.split_at(line_len);
        let (rest, _) = after.split_at(entry(self.starts.as_slice(), 0) - line_len);
        let alloc = *self.starts.allocator();
        let header = with_count(alloc, line, sheets, lines, rest.len())?;
        let mut text = filter_header(header, drops_with(lines), rest)?;
        end_line(&mut text)?;
        Ok(text)
    }

    /// The trailer of the output: the trailer of the document without the lines that `preamble_text` drops from a
    /// preamble. It is empty if the document has no trailer. Fails only if memory is refused.
    pub fn trailer_text(&self) -> Result<Vec<u8>, AllocError>
        ensures text { IfOk result (λ v. v.items ≡ trailer_text self.now) }
    {
        let (_, rest) = self.text.split_at(self.stop);
        filter_header(
            Vec::new(*self.starts.allocator()),
            Drops::DocumentSetup,
            rest,
        )
    }

    /// The number of `%%Page:` lines after the first line of the trailer, outside embedded documents and data blocks.
    /// They begin pages that don't belong to the document, for example because another document was appended to it.
    pub fn pages_after_trailer(&self) -> usize
        ensures { result ≡ pages_after self.now }
    {
        let (_, trailer) = self.text.split_at(self.stop);
        page_lines(trailer)
    }
}

/// The byte at which page `p` begins. This function and the next two give proofs a name for the value that they
/// return.
fn entry(starts: &[u32], p: usize) -> usize
    requires { p < length starts.now }
    ensures { result ≡ slice_index_or starts.now p 0 }
{
    starts[p] as usize
}

/// The bytes of the text from `start` up to `end`.
fn text_part(text: &[u8], start: usize, end: usize) -> &[u8]
    requires order { start ≤ end }
    requires within { end ≤ length text.now }
    ensures { result.now ≡ take (end - start) (drop start text.now) }
{
    &text[start..end]
}

/// The byte at which the page after page `p` begins, or `stop` if page `p` is the last.
fn next_or(starts: &[u32], p: usize, stop: usize) -> usize
    requires { p < length starts.now }
    ensures { result ≡ slice_index_or starts.now (p + 1) stop }
{
    match starts.get(p + 1) {
        Some(next) => *next as usize,
        None => stop,
    }
}

impl fmt::Debug for Document<'_> {
    fn fmt<W: fmt::Write>(&self, f: &mut fmt::Formatter<W>) -> fmt::Result {
        f.debug_struct("Document")
            .field("pages", &self.pages())
            .finish_non_exhaustive()
    }
}
