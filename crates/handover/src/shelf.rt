//! The shelf on which prepared pages are put.
ghost use Rattle.std.specs.Prelude.{◌≡◌, IfOk, IfErr, IfSome, IsTrue, false};
ghost use Rattle.handover.specs.Pages.{IsPrepared};
ghost use Rattle.handover.specs.Shelves.{IsOn, GivesNoReceipt, IsShelfOf, IsOwn};

use crate::entry::{Entry, ItsPages, OwnFlagIsTrue};
use crate::prepared::Prepared;
use crate::receipts::{Overflow, PutError, Receipt};
use boxcar::tag::Tag;
use dsc::Document;
use std::alloc::{AllocError, Global};
use std::marker::Model;
use std::sync::Wait;

/// Prepared pages, which many threads share without a lock. A shelf only grows, and a page keeps its index. A shelf may
/// belong to a document. It then records, for each page, whether the page was put as a page of this document.
#[derive(Drop)]
pub struct Shelf<'d> {
    list: boxcar::Vec<Entry<'d>, Global, OwnFlagIsTrue>,
}

impl<'d> Model for Shelf<'d> {
    ghost use Rattle.boxcar.specs.Table.{Shelves};

    ghost Value = { Shelves };

    ghost view = { λ s. s.list };
}

/// The content of a shelf at an index: a page, its receipt, and whether the page was put as a page of the shelf's
/// document.
#[derive(Drop)]
pub struct Shelved<'a, 'd> {
    pub page: &'a Prepared<'d>,
    pub receipt: Receipt<'d>,
    pub is_own: bool,
}

impl<'d> Shelf<'d> {
    /// Makes an empty shelf that belongs to no document. Fails only if memory is refused.
    pub fn new(alloc: Global) -> Result<Shelf<'d>, AllocError> {
        let list = boxcar::Vec::with_rule(alloc, Tag::empty())?;
        Ok(Shelf { list })
    }

    /// Makes an empty shelf that belongs to this document. Fails only if memory is refused.
    pub fn of_document(alloc: Global, document: &Document<'_>) -> Result<Shelf<'d>, AllocError>
        ensures of { IfOk result (λ shelf. IsShelfOf shelf document.now) }
    {
        let tag = Tag::of::<Document<'_>, ItsPages>(document);
        let list = boxcar::Vec::with_rule(alloc, tag)?;
        Ok(Shelf { list })
    }

    /// Puts a page on the shelf, but not as a page of the shelf's document. The call may spin while another thread
    /// makes room. If memory is refused, the error is `NoMemory` and contains the page. If the index of the page has
    /// more than 32 bits, the error is `ShelfFull`, and the page stays on the shelf.
    pub fn put<R: Wait>(&self, rt: &R, prepared: Prepared<'d>) -> Result<Receipt<'d>, PutError<'d>>
        ensures put { IfOk result (λ receipt. IsOn self.now receipt × (receipt.value ≡ prepared.entry)) }
        ensures mark { IfOk result (λ receipt. receipt.is_own ≡ false) }
        ensures refused { IfErr result (GivesNoReceipt self.now prepared.entry) }
    {
        self.put_as(rt, prepared, false)
    }

    /// Puts a page on the shelf, as `put` does. If `is_own` is true, the page must be a page of the shelf's document,
    /// and is put as one.
    pub fn put_as<R: Wait>(
        &self,
        rt: &R,
        prepared: Prepared<'d>,
        is_own: bool,
    ) -> Result<Receipt<'d>, PutError<'d>>
        requires own { IsTrue is_own → IsOwn self.now prepared }
        ensures put { IfOk result (λ receipt. IsOn self.now receipt × (receipt.value ≡ prepared.entry)) }
        ensures mark { IfOk result (λ receipt. receipt.is_own ≡ is_own) }
        ensures refused { IfErr result (GivesNoReceipt self.now prepared.entry) }
    {
        let entry = Entry {
            page: prepared,
            is_own,
        };
        match self.list.push_shown(rt, entry) {
            Ok(token) => {
                if token.index() > 4_294_967_295 {
                    Err(PutError::ShelfFull(Overflow { token }))
                } else {
                    Ok(Receipt { token })
                }
            }
            Err(entry) => Err(PutError::NoMemory(entry.page)),
        }
    }

    /// The page for which this shelf returned this receipt.
    pub fn read<'a>(&'a self, receipt: &Receipt<'d>) -> &'a Prepared<'d>
        requires { IsOn self.now receipt.now }
        ensures { result.now ≡ receipt.now.value }
    {
        &self.list.value(&receipt.token).page
    }

    /// The page at an index, or `None` if the shelf has no page there. `find` also returns a receipt, with which
    /// contracts can say which page is at the index.
    pub fn at(&self, index: u32) -> Option<&Prepared<'d>>
        ensures prepared { IfSome result (λ page. IsPrepared page.now) }
    {
        let found = self.find(index)?;
        Some(found.page)
    }

    /// The page at an index, its receipt, and whether the page was put as a page of the shelf's document. `None` if the
    /// shelf has no page at this index.
    pub fn find(&self, index: u32) -> Option<Shelved<'_, 'd>>
        ensures shown { IfSome result (λ found. IsOn self.now found.receipt × (found.receipt.index ≡ index)
            × (found.receipt.value ≡ found.page.now)) }
        ensures prepared { IfSome result (λ found. IsPrepared found.page.now) }
        ensures mark { IfSome result (λ found. found.is_own ≡ found.receipt.is_own) }
        ensures own { IfSome result (λ found. IsTrue found.is_own → IsOwn self.now found.page.now) }
    {
        let token = self.list.witness(index as usize)?;
        let entry = self.list.get_seen(index as usize, &token)?;
        let page = &entry.page;
        // The contract of `body` shows here that the page's body is the prepared form of its bytes.
        page.body();
        Some(Shelved {
            page,
            receipt: Receipt { token },
            is_own: entry.is_own,
        })
    }

    /// Shows that two receipts of this shelf with the same index are for the same page, put with the same `is_own`. Any
    /// threads may hold them. The function does nothing: only its contract is of use.
    pub fn agree(&self, one: &Receipt<'d>, two: &Receipt<'d>)
        requires one { IsOn self.now one.now }
        requires two { IsOn self.now two.now }
        requires same { one.now.index ≡ two.now.index }
        ensures page { one.now.value ≡ two.now.value }
        ensures mark { one.now.is_own ≡ two.now.is_own }
    {
        self.list.agrees(&one.token, &two.token);
    }
}
