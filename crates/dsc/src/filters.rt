//! Filters pages, preambles and trailers: drops some of their lines and keeps everything else.
ghost use Rattle.std.specs.Prelude.{◌≡◌, ℕ, ◌+◌, ◌<◌, ◌≤◌, List, [], ◌++◌, length, take, drop, IfOk, IfErr, OnOk};
ghost use Rattle.std.specs.Prelude.{if◌then◌else◌, false, Ok, codes, decimal};
ghost use Rattle.rules.specs.Bytes.{line};
ghost use Rattle.rules.specs.Units.{cut};
ghost use Rattle.rules.specs.Parts.{bytes_of};
ghost use Rattle.rules.specs.Filters.{kept, drops_in_header, drops_in_page, ended, prepared};
ghost use Rattle.rules.specs.Dress.{lines_text};
ghost use Rattle.rules.specs.MadeOutput.{drops_with};
ghost use Rattle.dsc.specs.Units.{or_none, units_of};
ghost use Rattle.dsc.specs.Views.{unit_of, at_depth, GivesUnlessShort};
ghost use Rattle.dsc.specs.Faults.{reported_block_fault, reported_page_fault, IsPageError};
ghost use Rattle.dsc.specs.Laws.{HasBody};
ghost use Rattle.dsc.specs.declared.errors.DscError.TheVariants.{NoMemory};
ghost use Rattle.dsc.specs.Filters.{drops_of, is_dropped, filter_on};

use crate::errors::{CutError, DscError};
use crate::keys::{comment_letter, key_of, names_page};
use crate::lines::is_line_end;
use crate::units::LineOrBlock;
use crate::walk::Walk;
use itoa::Buffer;
use std::alloc::{AllocError, Global};

/// The lines that a filter drops. `PageSetup` drops the comments about a page (`%%Page`..) and those around its setup,
/// but not the setup. `DocumentSetup` drops the comments about pages, boxes, media and orientation, which no longer
/// hold in the output. `SetupAndPapers` also drops the comment that names the document's papers
/// (`%%DocumentPaperSizes`).
#[derive(Clone, Copy)]
pub(crate) enum Drops {
    PageSetup,
    DocumentSetup,
    SetupAndPapers,
}

/// Whether the filter drops an outermost line with this content. A line is outermost if it is in no embedded document
/// and in no data block.
fn drops_line(drops: Drops, content: &[u8]) -> bool
    ensures { result ≡ drops_of drops content.now }
{
    match drops {
        Drops::PageSetup => drops_in_page(content),
        Drops::DocumentSetup => drops_in_header(content),
        Drops::SetupAndPapers => {
            drops_in_header(content) || key_of(content) == b"%%DocumentPaperSizes".as_slice()
        }
    }
}

/// Whether an outermost line with this content is dropped from a page. The letter after the percent signs decides for
/// most lines, so few keys are compared.
fn drops_in_page(content: &[u8]) -> bool
    ensures { result ≡ drops_in_page content.now }
{
    match comment_letter(content) {
        Some(b'P') => names_page(content),
        Some(b'B' | b'E') => {
            let key = key_of(content);
            key == b"%%BeginPageSetup".as_slice() || key == b"%%EndPageSetup".as_slice()
        }
        _ => false,
    }
}

/// Whether an outermost line with this content is dropped from a preamble or a trailer.
fn drops_in_header(content: &[u8]) -> bool
    ensures { result ≡ drops_in_header content.now }
{
    let key = key_of(content);
    key == b"%%Pages".as_slice()
        || (key == b"%%PageOrder".as_slice()
            || (key == b"%%BoundingBox".as_slice()
                || (key == b"%%HiResBoundingBox".as_slice()
                    || (key == b"%%DocumentMedia".as_slice()
                        || key == b"%%Orientation".as_slice()))))
}

/// Whether the filter drops a unit at this depth in embedded documents. A data block is never dropped. `was` says
/// whether the filter dropped the unit before this one. If so, a `%%+` line is dropped too, because it continues that
/// unit.
pub(crate) fn drops_unit(drops: Drops, was: bool, unit: &LineOrBlock<'_>, depth: usize) -> bool
    ensures { result ≡ is_dropped drops was (at_depth depth (unit_of unit.now)) }
{
    if unit.is_block {
        return false;
    }
    (depth == 0 && drops_line(drops, unit.content)) || (was && unit.content.starts_with(b"%%+"))
}

/// The bytes with which a filter began, and those that it has kept of a text. They are the copied bytes, then the run
/// `held`, and then the first `run_len` bytes of `run`. The two runs are borrowed from the text. The unread text
/// follows in `run`, so the second run can grow.
#[derive(Drop)]
pub(crate) struct Kept<'d> {
    pub copied: Vec<u8>,
    pub held: &'d [u8],
    pub run: &'d [u8],
    run_len: usize,
}

impl<'d> Kept<'d> {
    /// Returns the copied bytes, `held` and `run` in one list. These are all kept bytes once the filter has passed the
    /// whole text. Fails only if memory is refused.
    pub fn into_copy(self) -> Result<Vec<u8>, AllocError>
        ensures { IfOk result (λ v. v.items ≡ (self.entry.copied.items ++ self.entry.held.now) ++ self.entry.run.now) }
    {
        let Kept {
            mut copied,
            held,
            run,
            run_len: _,
        } = self;
        copied.reserve(held.len() + run.len() + 1)?;
        copied.extend_from_slice(held)?;
        copied.extend_from_slice(run)?;
        Ok(copied)
    }

    /// Passes a unit of `len` bytes. A kept unit extends the kept part of `run`. A dropped unit ends this part, and
    /// `run` then begins after the unit. If the ended part isn't empty, it replaces `held`, whose bytes are copied
    /// first. So a text that is kept in one run is never copied.
    fn go_on(&mut self, len: usize, dropped: bool) -> Result<(), AllocError>
        requires { self.old.run_len + len ≤ length self.old.run.now }
        ensures kept { OnOk result (
            (self.new.copied.items ++ self.new.held.now) ++ take self.new.run_len self.new.run.now
            ≡ ((self.old.copied.items ++ self.old.held.now) ++ take self.old.run_len self.old.run.now)
            ++ (if dropped then [] else take len (drop self.old.run_len self.old.run.now))) }
        ensures rest { OnOk result (drop self.new.run_len self.new.run.now
            ≡ drop len (drop self.old.run_len self.old.run.now)) }
        ensures within { OnOk result (self.new.run_len ≤ length self.new.run.now) }
    {
        if !dropped {
            self.run_len += len;
            return Ok(());
        }
        let (ended, _) = self.run.split_at(self.run_len);
        let (_, after) = self.run.split_at(self.run_len + len);
        if !ended.is_empty() {
            copy(
                &mut self.copied,
                self.held,
                self.held.len() + self.run.len() + 1,
            )?;
            self.held = ended;
        }
        self.run = after;
        self.run_len = 0;
        Ok(())
    }
}

/// Appends `part` to the copied bytes. Unless the part is empty, `room` bytes are reserved first: enough for the part
/// and for all that may be copied later.
fn copy(copied: &mut Vec<u8>, part: &[u8], room: usize) -> Result<(), AllocError>
    ensures { OnOk result (copied.new.items ≡ copied.old.items ++ part.now) }
{
    if part.is_empty() {
        return Ok(());
    }
    copied.reserve(room)?;
    copied.extend_from_slice(part)
}

/// Filters a text. Returns the bytes in `copied`, followed by the kept bytes of the text. Fails with the text's first
/// faulty data block, or if memory is refused.
pub(crate) fn filter<'d>(
    copied: Vec<u8>,
    drops: Drops,
    text: &'d [u8],
) -> Result<Kept<'d>, CutError>
    ensures { GivesUnlessShort (λ k. (k.copied.items ++ k.held.now) ++ k.run.now) reported_block_fault result
        (filter_on drops copied.items false 0 0 text.now) }
{
    let mut kept = Kept {
        copied,
        held: &[],
        run: text,
        run_len: 0,
    };
    let mut walk = Walk::new(text);
    let mut was = false;
    while !walk.is_done() {
        let step = walk.step()?;
        was = drops_unit(drops, was, &step.unit, step.depth);
        kept.go_on(step.unit.bytes.len(), was)?;
    }
    Ok(kept)
}

/// The filter for a preamble into which `lines` are inserted. If there are such lines, the filter also drops the lines
/// that name papers, because the inserted lines report the papers.
pub(crate) fn drops_with(lines: &[u8]) -> Drops
    ensures { (rows : List (List ℕ)) → lines.now ≡ lines_text rows → drops_of result ≡ drops_with rows }
{
    if lines.is_empty() {
        return Drops::DocumentSetup;
    }
    Drops::SetupAndPapers
}

/// Filters a text of a preamble or a trailer, and appends the kept bytes to `front`. The text has no faulty data block.
/// Fails only if memory is refused.
pub(crate) fn filter_header(
    front: Vec<u8>,
    drops: Drops,
    text: &[u8],
) -> Result<Vec<u8>, AllocError>
    requires { cut text.now ≡ Ok (or_none (cut text.now)) }
    ensures { IfOk result (λ v. v.items ≡ front.items ++ bytes_of (kept (drops_of drops) (units_of text.now))) }
{
    match filter(front, drops, text) {
        Ok(kept) => kept.into_copy(),
        Err(CutError::NoMemory) => Err(AllocError),
        Err(CutError::Faulty(_)) => unreachable!(),
    }
}

/// The first lines of the output's preamble: the document's first line, a `%%Pages: ` line with the number of sheets,
/// and then `lines`. Reserves memory for `room` more bytes.
pub(crate) fn with_count(
    alloc: Global,
    first: &[u8],
    sheets: u32,
    lines: &[u8],
    room: usize,
) -> Result<Vec<u8>, AllocError>
    ensures { IfOk result (λ v.
        v.items ≡ (first.now ++ line (codes "%%Pages: " ++ decimal sheets)) ++ lines.now) }
{
    let mut digits = Buffer::new();
    let len = room.saturating_add(first.len()).saturating_add(lines.len());
    let mut text = Vec::with_capacity(alloc, len.saturating_add(32))?;
    text.extend_from_slice(first)?;
    text.extend_from_slice(b"%%Pages: ")?;
    text.extend_from_slice(digits.format(sheets).as_bytes())?;
    text.push(b'\n')?;
    text.extend_from_slice(lines)?;
    Ok(text)
}

/// Whether a line end has to be added to these bytes: there are bytes, and the last one is neither CR nor LF.
pub(crate) fn wants_end(bytes: &[u8]) -> bool
    ensures { ended bytes.now ≡ (if result then line bytes.now else bytes.now) }
{
    match bytes.last() {
        None => false,
        Some(byte) => !is_line_end(*byte),
    }
}

/// Adds LF, unless the last byte is CR or LF or there are no bytes. Fails only if memory is refused.
pub fn end_line(kept: &mut Vec<u8>) -> Result<(), AllocError>
    ensures { OnOk result (kept.new.items ≡ ended kept.old.items) }
{
    if wants_end(kept.as_slice()) {
        kept.push(b'\n')?;
    }
    Ok(())
}

/// The prepared body of a page: its bytes without the comments about the page. It ends with a line end, unless it is
/// empty. The dropped comments are the outermost lines whose key begins with `%%Page` or is `%%BeginPageSetup` or
/// `%%EndPageSetup`, and the `%%+` lines that continue them. The page is cut as a text by itself, and needn't begin
/// with a `%%Page:` line.
///
/// Refuses the first faulty data block of the page, with `BadCount` or `ShortData`. A page of a document has no faulty
/// block. Without enough memory the error is `NoMemory`.
pub fn prepare(alloc: Global, page: &[u8]) -> Result<Vec<u8>, DscError>
    ensures answer { GivesUnlessShort (λ v. v.items) reported_page_fault result (prepared page.now) }
    ensures refusals { IfErr result IsPageError }
    ensures memory_alone { HasBody page.now → IfErr result (λ e. e ≡ NoMemory) }
{
    let body = prepared_body(alloc, page)?;
    Ok(body)
}

/// Prepares the body of a page, as `prepare` does. If the page has a faulty data block, the error contains the first
/// one.
fn prepared_body(alloc: Global, page: &[u8]) -> Result<Vec<u8>, CutError>
    ensures { GivesUnlessShort (λ v. v.items) reported_block_fault result (prepared page.now) }
{
    let room = Vec::with_capacity(alloc, page.len() + 1)?;
    let kept = filter(room, Drops::PageSetup, page)?;
    let mut copy = kept.into_copy()?;
    end_line(&mut copy)?;
    Ok(copy)
}
