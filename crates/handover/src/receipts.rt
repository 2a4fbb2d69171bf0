//! The answers of a shelf to a put: receipts and errors.
ghost use Rattle.std.specs.Prelude.{◌≡◌, ◌<◌};

use crate::entry::{Entry, OwnFlagIsTrue};
use crate::prepared::Prepared;
use boxcar::Pushed;
use std::alloc::Global;
use std::fmt;
use std::marker::Model;

/// The token of an entry of a shelf. Contracts see the entry's page and index, and whether the page was put as a page
/// of the shelf's document.
#[derive(Drop)]
pub struct Receipt<'d> {
    pub(crate) token: Pushed<Entry<'d>, Global, OwnFlagIsTrue>,
}

impl<'d> Model for Receipt<'d> {
    ghost use Rattle.std.specs.Prelude.{◌<◌};
    ghost use Rattle.handover.specs.Entries.{EntryToken, entry_token};

    ghost Value = { EntryToken };

    ghost view = { λ r. entry_token r.token };

    ghost invariant = { λ r. r.token.index < 4_294_967_296 };
}

impl<'d> Receipt<'d> {
    /// The index of the entry, with which any thread finds it (`Shelf::at`, `Shelf::find`).
    pub fn index(&self) -> u32
        ensures { result ≡ self.now.index }
    {
        self.token.index() as u32
    }
}

/// The token of an entry whose index has more than 32 bits. Such an entry has no receipt, but it stays on the shelf.
#[derive(Drop)]
pub struct Overflow<'d> {
    pub(crate) token: Pushed<Entry<'d>, Global, OwnFlagIsTrue>,
}

impl<'d> Model for Overflow<'d> {
    ghost use Rattle.std.specs.Prelude.{◌<◌};
    ghost use Rattle.handover.specs.Entries.{EntryToken, entry_token};

    ghost Value = { EntryToken };

    ghost view = { λ o. entry_token o.token };

    ghost invariant = { λ o. 4_294_967_295 < o.token.index };
}

impl<'d> Overflow<'d> {
    /// The index of the entry, which is at least 2^32.
    pub fn index(&self) -> u64
        ensures index { result ≡ self.now.index }
        ensures too_large { 4_294_967_295 < result }
    {
        self.token.index() as u64
    }
}

/// The reason why a put returns no receipt.
#[derive(Debug, Drop)]
pub enum PutError<'d> {
    /// Memory was refused. The shelf is unchanged, and the page is returned.
    NoMemory(Prepared<'d>),
    /// The page is on the shelf, but its index has more than 32 bits, and no receipt can have such an index.
    ShelfFull(Overflow<'d>),
}

impl fmt::Debug for Receipt<'_> {
    fn fmt<W: fmt::Write>(&self, f: &mut fmt::Formatter<W>) -> fmt::Result {
        f.debug_struct("Receipt")
            .field("index", &self.index())
            .finish_non_exhaustive()
    }
}

impl fmt::Debug for Overflow<'_> {
    fn fmt<W: fmt::Write>(&self, f: &mut fmt::Formatter<W>) -> fmt::Result {
        f.debug_struct("Overflow")
            .field("index", &self.index())
            .finish_non_exhaustive()
    }
}
