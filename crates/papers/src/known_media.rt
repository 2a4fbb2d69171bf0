//! Finds in the header comments the papers of the media that pages name.
ghost use Rattle.std.specs.Prelude.{◌≡◌, ◌<◌, ℕ, List, [], ◌∷◌, Some, None, IfOk, OnOk, flat_map, length, option_map, slice_index_or};
ghost use Rattle.std.specs.Map.{update};
ghost use Rattle.std.specs.Str.{bytes_eq};
ghost use Rattle.rules.specs.Parts.{pages};
ghost use Rattle.papers.specs.Media.{contents, continued, name_meant as meant_by};
ghost use Rattle.papers.specs.Comments.{media, medium_in};
ghost use Rattle.papers.specs.Named.{IsNameKept, KnowsAll, found_at, is_name_missing as is_not_found, known_paper, with_media, with_medium};

use crate::fields::{name_and_rest, name_meant};
use crate::media::sides_paper;
use crate::page_heads::{after_first_line, medium_name};
use crate::{continuation, first_comment};
use dsc::Document;
use lengths::Paper;
use std::alloc::{AllocError, Global};
use std::collections::BTreeMap;

/// The media that the pages of a document name. Each name has the paper of the header's first medium with that name,
/// once that medium is found. A medium has no paper if its sides can't be those of a paper. Media that no page names
/// take no memory.
#[derive(Drop)]
pub(crate) struct KnownMedia {
    papers: BTreeMap<Vec<u8>, Option<Option<Paper>>>,
}

impl KnownMedia {
    /// Finds the media that the pages of a document name. They are looked for in the first `%%DocumentMedia:` of the
    /// header comments and in the `%%+` lines that continue this comment. Fails only if memory is refused.
    pub(crate) fn read(
        alloc: Global,
        document: &Document<'_>,
        header: &[u8],
    ) -> Result<KnownMedia, AllocError>
        ensures { IfOk result (λ known. KnowsAll known (media (contents header.now)) (pages document.now)) }
    {
        match first_comment(header, b"%%DocumentMedia", b"%%DocumentMedia:") {
            Some((first, others)) => {
                let mut known = KnownMedia::named(alloc, document)?;
                known.find(alloc, first, others)?;
                Ok(known)
            }
            None => Ok(KnownMedia {
                papers: BTreeMap::new(alloc),
            }),
        }
    }

    /// Collects the names of the media that the pages name. No paper is found for them yet.
    fn named(alloc: Global, document: &Document<'_>) -> Result<KnownMedia, AllocError>
        ensures { IfOk result (λ known. (k : ℕ) → k < length (pages document.now)
            → IsNameKept known (slice_index_or (pages document.now) k [])) }
    {
        let mut known = KnownMedia {
            papers: BTreeMap::new(alloc),
        };
        for page in 0..document.pages() {
            known.keep(alloc, document.page(page))?;
        }
        Ok(known)
    }

    /// Collects the name of the medium that this page names, if it names one.
    fn keep(&mut self, alloc: Global, page: &[u8]) -> Result<(), AllocError>
        ensures kept { OnOk result (IsNameKept self.new page.now) }
        ensures still { OnOk result ((at : List ℕ) → found_at self.old at ≡ Some None → found_at self.new at ≡ Some None) }
    {
        match medium_name(after_first_line(page)) {
            Some(name) => {
                let kept = name_meant(alloc, name)?;
                self.put(kept, None)
            }
            None => Ok(()),
        }
    }

    /// Stores `found` for this name, in place of the value that was stored for it before.
    fn put(&mut self, name: Vec<u8>, found: Option<Option<Paper>>) -> Result<(), AllocError>
        ensures { OnOk result ((at : List ℕ) → found_at self.new at ≡ update bytes_eq (found_at self.old) name.items (Some found) at) }
    {
        self.papers.insert(name, found)?;
        Ok(())
    }

    /// Finds, in the header, the papers of the media that pages name. `first` is the value of `%%DocumentMedia:`.
    /// `others` is the text after the line of this comment, and may begin with lines that continue the comment.
    fn find(&mut self, alloc: Global, first: &[u8], others: &[u8]) -> Result<(), AllocError>
        ensures { OnOk result ((at : List ℕ) → found_at self.new at
            ≡ option_map (λ found. with_media at found (flat_map medium_in (first.now ∷ continued (contents others.now))))
            (found_at self.old at)) }
    {
        self.take(alloc, first)?;
        self.take_continued(alloc, others)
    }

    /// Passes the value of each `%%+` line at the start of the text to `take`.
    fn take_continued(&mut self, alloc: Global, text: &[u8]) -> Result<(), AllocError>
        ensures { OnOk result ((at : List ℕ) → found_at self.new at
            ≡ option_map (λ found. with_media at found (flat_map medium_in (continued (contents text.now)))) (found_at self.old at)) }
    {
        let mut rest = text;
        while let Some((value, others)) = continuation(rest) {
            self.take(alloc, value)?;
            rest = others;
        }
        Ok(())
    }

    /// Stores the paper of the medium in this value, if a page names the medium and no earlier medium has the same
    /// name.
    fn take(&mut self, alloc: Global, value: &[u8]) -> Result<(), AllocError>
        ensures { OnOk result ((at : List ℕ) → found_at self.new at
            ≡ option_map (λ found. with_media at found (medium_in value.now)) (found_at self.old at)) }
    {
        match name_and_rest(value) {
            Some((name, rest)) => self.take_named(name_meant(alloc, name)?, sides_paper(rest)),
            None => Ok(()),
        }
    }

    /// Stores the paper of a medium with this name, if a page names the medium and no earlier medium has the same
    /// name.
    fn take_named(&mut self, name: Vec<u8>, paper: Option<Paper>) -> Result<(), AllocError>
        ensures { OnOk result ((at : List ℕ) → found_at self.new at
            ≡ option_map (λ found. with_medium at found (record { name = name.items; paper = paper })) (found_at self.old at)) }
    {
        if self.is_missing(name.as_slice()) {
            self.put(name, Some(paper))
        } else {
            Ok(())
        }
    }

    /// Whether a page names this medium, and the medium hasn't been found yet.
    fn is_missing(&self, name: &[u8]) -> bool
        ensures { result ≡ is_not_found (found_at self.now name.now) }
    {
        matches!(self.papers.get(name), Some(None))
    }

    /// The paper of the header's first medium with the name for which `written` stands. None if no page names this
    /// medium, if the header lacks it, or if its sides can't be those of a paper. Fails only if memory is refused.
    pub(crate) fn paper_of(
        &self,
        alloc: Global,
        written: &[u8],
    ) -> Result<Option<Paper>, AllocError>
        ensures { IfOk result (λ paper. paper ≡ known_paper self.now (meant_by written.now)) }
    {
        let name = name_meant(alloc, written)?;
        Ok(self.paper_named(name.as_slice()))
    }

    /// The paper that `paper_of` finds for a medium with this name.
    fn paper_named(&self, name: &[u8]) -> Option<Paper>
        ensures { result ≡ known_paper self.now name.now }
    {
        match self.papers.get(name) {
            Some(Some(paper)) => *paper,
            _ => None,
        }
    }
}
