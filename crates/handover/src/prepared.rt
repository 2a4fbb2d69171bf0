//! A page that has been prepared for placement on sheets.
ghost use Rattle.std.specs.Prelude.{◌≡◌, ◌<◌, [], length, slice_index_or, IfOk, IfErr, Ok};
ghost use Rattle.rules.specs.Parts.{pages};
ghost use Rattle.rules.specs.Filters.{prepared};
ghost use Rattle.dsc.specs.Views.{GivesUnlessShort};
ghost use Rattle.dsc.specs.Faults.{reported_page_fault, IsPageError};
ghost use Rattle.dsc.specs.Laws.{HasBody};
ghost use Rattle.dsc.specs.declared.errors.DscError.TheVariants.{NoMemory};

use dsc::{Body, Document, DscError};
use std::alloc::{AllocError, Global};
use std::fmt;
use std::marker::Model;

/// A page of a document with its prepared body, which is the part of the page that is placed on a sheet. The page
/// comments of DSC 3.0, and the comments around the page setup, are dropped from the body. A prepared page takes 32
/// bytes. It takes more memory only if `new` made it, or if its body isn't a suffix of the page.
#[derive(Drop)]
pub struct Prepared<'d> {
    kept: KeptBody<'d>,
}

/// The stored form of a page's body. A shelf keeps all pages until the run ends, so each should take little memory.
/// Most bodies are a suffix of their page, and only the byte at which they begin is stored.
#[derive(Drop)]
enum KeptBody<'d> {
    Rest {
        raw: &'d [u8],
        page: u32,
        /// The number of bytes of the page that come before its body.
        start: u32,
    },
    Boxed(Box<Whole<'d>>),
}

/// A page whose body is stored separately.
#[derive(Drop)]
struct Whole<'d> {
    raw: &'d [u8],
    page: u32,
    body: Body<'d>,
}

impl<'d> Model for Prepared<'d> {
    ghost use Rattle.std.specs.Prelude.{◌≡◌, Ok};
    ghost use Rattle.handover.specs.Pages.{PreparedPage, IsPrepared};
    ghost use Rattle.handover.specs.Kept.{prepared_page_of, BeginsWithin};

    ghost Value = { PreparedPage };

    ghost view = { λ p. prepared_page_of p.kept };

    ghost invariant = { λ p. IsPrepared (prepared_page_of p.kept) × BeginsWithin p.kept };
}

impl<'d> Prepared<'d> {
    /// Prepares a page from its bytes `raw`. `page` is its number in the document, counted from 0.
    ///
    /// Refuses the first faulty data block of `raw`, with `BadCount` or `ShortData`. A page of an accepted document has
    /// no faulty block. If memory is refused, the error is `NoMemory`.
    pub fn new(alloc: Global, page: u32, raw: &'d [u8]) -> Result<Prepared<'d>, DscError>
        ensures answer { GivesUnlessShort (λ p. p.body) reported_page_fault result (prepared raw.now) }
        ensures page { IfOk result (λ p. (p.page ≡ page) × (p.raw ≡ raw.now)) }
        ensures refusals { IfErr result IsPageError }
        ensures memory_alone { HasBody raw.now → IfErr result (λ e. e ≡ NoMemory) }
    {
        let body = Body::prepare(alloc, raw)?;
        Prepared::whole(alloc, page, raw, body).map_err(|_| DscError::NoMemory)
    }

    /// Prepares page `page` of a document. Pages are counted from 0. Fails only if memory is refused.
    pub fn of_page(
        alloc: Global,
        document: &Document<'d>,
        page: u32,
    ) -> Result<Prepared<'d>, AllocError>
        requires { page < length (pages document.now) }
        ensures page { IfOk result (λ p. p.page ≡ page) }
        ensures raw { IfOk result (λ p. p.raw ≡ slice_index_or (pages document.now) page []) }
        ensures body { IfOk result (λ p. prepared p.raw ≡ Ok p.body) }
    {
        let raw = document.page(page);
        if let Some(start) = document.body_start(page) {
            return Ok(Prepared {
                kept: KeptBody::Rest { raw, page, start },
            });
        }
        let body = document.body(alloc, page)?;
        Prepared::whole(alloc, page, raw, body)
    }

    /// A page whose body is stored separately. Fails only if memory is refused.
    fn whole(
        alloc: Global,
        page: u32,
        raw: &'d [u8],
        body: Body<'d>,
    ) -> Result<Prepared<'d>, AllocError>
        requires { prepared raw.now ≡ Ok body }
        ensures { IfOk result (λ p. (p.page ≡ page) × (p.raw ≡ raw.now) × (p.body ≡ body.entry)) }
    {
        let whole = Box::new(alloc, Whole { raw, page, body })?;
        Ok(Prepared {
            kept: KeptBody::Boxed(whole),
        })
    }

    /// The number of the page in its document, counted from 0.
    pub fn page(&self) -> u32
        ensures { result ≡ self.now.page }
    {
        match &self.kept {
            KeptBody::Rest { page, .. } => *page,
            KeptBody::Boxed(whole) => whole.page,
        }
    }

    /// The bytes of the whole page, as they are in the document.
    pub fn raw(&self) -> &'d [u8]
        ensures { result.now ≡ self.now.raw }
    {
        match &self.kept {
            KeptBody::Rest { raw, .. } => raw,
            KeptBody::Boxed(whole) => whole.raw,
        }
    }

    /// The prepared body: the bytes of the page that are placed on a sheet.
    pub fn body(&self) -> &[u8]
        ensures body { result.now ≡ self.now.body }
        ensures prepared { prepared self.now.raw ≡ Ok result.now }
    {
        match &self.kept {
            KeptBody::Rest { raw, start, .. } => &raw[*start as usize..],
            KeptBody::Boxed(whole) => whole.body.as_slice(),
        }
    }
}

impl fmt::Debug for Prepared<'_> {
    fn fmt<W: fmt::Write>(&self, f: &mut fmt::Formatter<W>) -> fmt::Result {
        f.debug_struct("Prepared")
            .field("page", &self.page())
            .finish_non_exhaustive()
    }
}
