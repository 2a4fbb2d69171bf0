//! The entries of a shelf.
ghost use Rattle.std.specs.Prelude.{◌≡◌};

use crate::prepared::Prepared;
use boxcar::Keeps;
use boxcar::tag::Names;
use dsc::Document;

/// An entry of a shelf: a page, and whether it was put there as a page of the document to which the shelf belongs.
#[derive(Drop)]
pub struct Entry<'d> {
    pub(crate) page: Prepared<'d>,
    pub(crate) is_own: bool,
}

/// The rule for the entries of a shelf: each page that was put as a page of the shelf's document is a page of that
/// document.
pub struct OwnFlagIsTrue;

impl<'d> Keeps<Entry<'d>> for OwnFlagIsTrue {
    ghost use Rattle.handover.specs.Entries.{IsRightlyOwn};

    ghost holds = { λ tag _ entry. IsRightlyOwn tag entry };
}

/// The way in which the tag of a shelf names the shelf's document: by the bytes of the document's pages.
pub(crate) struct ItsPages;

impl<'d> Names<Document<'d>> for ItsPages {
    ghost use Rattle.rules.specs.Parts.{pages};
    ghost use Rattle.handover.specs.Naming.{joined_pages};

    ghost numbers = { λ us. joined_pages (pages us) };
}
