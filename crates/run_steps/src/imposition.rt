//! The second step of a run: a completed sheet is imposed from the pages on the shelf.
ghost use Rattle.std.specs.Prelude.{◌≡◌, ◌↔◌, ℕ, ◌+◌, ◌-◌, ◌<◌, ◌≤◌, ◌++◌, ◌∷◌, [], IfOk, OnOk, OnErr, MatchResult, length};
ghost use Rattle.std.specs.Prelude.{IsTrue, Some, slice_get, slice_index_or, true};
ghost use Rattle.rules.specs.Parts.{pages};
ghost use Rattle.rules.specs.Sheets.{layout};
ghost use Rattle.rules.specs.Made.{MadeSlot};
ghost use Rattle.rules.specs.MadeOutput.{made_slot_text};
ghost use Rattle.sheet_plan.specs.Plans.{pages_on};
ghost use Rattle.gather_table.specs.History.{Look, PageAt, IsComplete};
ghost use Rattle.gather_table.specs.Shared.{IsSeatOf, MadeCall};
ghost use Rattle.handover.specs.Pages.{IsPrepared};
ghost use Rattle.handover.specs.Shelves.{IsShelfOf, IsOwn};
ghost use Rattle.sheet_text.specs.Jobs.{slots_of, slots_text, text_of};
ghost use Rattle.run_steps.specs.Reading.{OnlyReads};
ghost use Rattle.run_steps.specs.LookUps.{pages_of, LooksUp, LooksUpUntil, LooksAt, HasIndex};

use gather_table::{GatherTable, Seat};
use handover::{Prepared, Shelf, Shelved};
use sheet_text::{Job, Openings, Rope, append_placed, begin_sheet, end_sheet};
use std::alloc::Global;
use thiserror::Error;

/// An imposed sheet (counted from 0) and its text.
#[derive(Debug, PartialEq, Eq, Drop)]
pub struct Imposed {
    pub sheet: u32,
    pub text: Vec<u8>,
}

/// The reason why a sheet wasn't imposed.
#[derive(Clone, Copy, Debug, PartialEq, Eq, Error)]
pub enum ImposeError {
    #[error("out of memory")]
    NoMemory,
    /// The shelf has no entry at the index that the table gives for a page, or the entry isn't that page of the document.
    #[error("a page is not on the shelf")]
    NotShown,
}

/// Makes the text of a complete sheet (counted from 0) from the prepared pages on the shelf. The text is the one that `sheet_text` makes. The table
/// must be one of the job's plan, and the seat must have seen that the sheet is complete (`is_complete`). The pages are looked up in the order of
/// their slots. An error may end the look-ups before the last page; after `NotShown`, at least one page has been looked up.
pub fn impose<'d>(
    alloc: Global,
    seat: &mut Seat,
    job: &Job<'_, 'd>,
    table: &GatherTable<'_>,
    shelf: &Shelf<'d>,
    sheet: u32,
) -> Result<Imposed, ImposeError>
    requires seat { IsSeatOf table.now seat.old }
    requires table { table.now.layout ≡ layout job.now.plan }
    requires sheet { sheet < length job.now.plan.sheets }
    requires complete { IsComplete table.now.layout seat.old.front sheet }
    ensures text { IfOk result (λ m. (m.sheet ≡ sheet) × (m.text.items ≡ text_of job.now sheet)) }
    ensures looked_up { MatchResult result
        (λ m. LooksUp (pages_of table.now.layout sheet) (length (pages_of table.now.layout sheet)) seat.old seat.new)
        (λ e. LooksUpUntil (pages_of table.now.layout sheet) e seat.old seat.new) }
{
    let imposition = Imposition {
        job: &*job,
        table: &*table,
        shelf,
        is_of_document: false,
    };
    let mut text = Rope::new(alloc);
    imposition.impose(&mut text, &mut Openings::new(alloc), seat, sheet)?;
    let Ok(text) = text.to_vec(alloc) else {
        return Err(ImposeError::NoMemory);
    };
    Ok(Imposed { sheet, text })
}

/// The sources of imposed sheets: a job, the table of its plan, and the shelf with the prepared pages. The texts of the sheets borrow long bodies
/// from the shelf.
#[derive(Drop)]
pub struct Imposition<'s, 'r, 't, 'd> {
    pub job: &'s Job<'r, 'd>,
    pub table: &'s GatherTable<'t>,
    pub shelf: &'r Shelf<'d>,
    /// Whether the shelf is known to belong to the job's document. If it is, a page that was put there as a page of this document needn't be compared
    /// with the document.
    pub is_of_document: bool,
    ghost of_document: { IsTrue is_of_document → IsShelfOf shelf.now job.now.units },
    ghost same_plan: { table.now.layout ≡ layout job.now.plan },
}

impl<'s, 'r, 't, 'd> Imposition<'s, 'r, 't, 'd> {
    /// Imposes a sheet like the function `impose`. The call replaces the content of `text`, reuses its memory, and reuses the openings kept from
    /// earlier sheets.
    pub fn impose(
        &self,
        text: &mut Rope<'r>,
        openings: &mut Openings,
        seat: &mut Seat,
        sheet: u32,
    ) -> Result<(), ImposeError>
        requires seat { IsSeatOf self.now.table.now seat.old }
        requires sheet { sheet < length self.now.job.now.plan.sheets }
        requires complete { IsComplete self.now.table.now.layout seat.old.front sheet }
        ensures text { OnOk result (text.new ≡ text_of self.now.job.now sheet) }
        ensures looked_up { MatchResult result
            (λ m. LooksUp (pages_of self.now.table.now.layout sheet) (length (pages_of self.now.table.now.layout sheet))
            seat.old seat.new)
            (λ e. LooksUpUntil (pages_of self.now.table.now.layout sheet) e seat.old seat.new) }
    {
        let job = self.job;
        let Ok(()) = begin_sheet(text, job, sheet) else {
            return Err(ImposeError::NoMemory);
        };
        self.append_shelved_slots(text, openings, seat, sheet)?;
        let Ok(()) = end_sheet(text, job, sheet) else {
            return Err(ImposeError::NoMemory);
        };
        Ok(())
    }

    /// Looks up the page of each slot of a sheet, in order, and appends the text of each slot. Fails with the error of the first slot for which
    /// `append_shelved` fails.
    fn append_shelved_slots(
        &self,
        text: &mut Rope<'r>,
        openings: &mut Openings,
        seat: &mut Seat,
        sheet: u32,
    ) -> Result<(), ImposeError>
        requires seat { IsSeatOf self.now.table.now seat.old }
        requires sheet { sheet < length self.now.job.now.plan.sheets }
        requires complete { IsComplete self.now.table.now.layout seat.old.front sheet }
        ensures text { OnOk result (text.new ≡ text.old
            ++ slots_text self.now.job.now (slots_of self.now.job.now sheet)) }
        ensures looked_up { MatchResult result
            (λ m. LooksUp (pages_of self.now.table.now.layout sheet) (length (pages_of self.now.table.now.layout sheet))
            seat.old seat.new)
            (λ e. (n : ℕ) × (0 < n) × LooksUp (pages_of self.now.table.now.layout sheet) n seat.old seat.new) }
    {
        let job = self.job;
        let plan = job.plan();
        for slot in 0..plan.slots(sheet) {
            self.append_shelved(text, openings, seat, sheet, slot)?;
        }
        Ok(())
    }

    /// Looks up the page in this slot, and appends the text of the slot. A blank slot has no text. Fails with the error of `find_shelved`, or with
    /// `NoMemory`.
    fn append_shelved(
        &self,
        text: &mut Rope<'r>,
        openings: &mut Openings,
        seat: &mut Seat,
        sheet: u32,
        slot: u16,
    ) -> Result<(), ImposeError>
        requires seat { IsSeatOf self.now.table.now seat.old }
        requires sheet { sheet < length self.now.job.now.plan.sheets }
        requires slot { slot < length (pages_on self.now.job.now.plan sheet) }
        requires complete { IsComplete self.now.table.now.layout seat.old.front sheet }
        ensures text { OnOk result ((it : MadeSlot) → slice_get (slots_of self.now.job.now sheet) slot ≡ Some it →
            text.new ≡ text.old ++ made_slot_text self.now.job.now.border (pages self.now.job.now.units) it) }
        ensures looked_up { LooksAt (slice_get (pages_on self.now.job.now.plan sheet) slot) seat.old seat.new }
        ensures has_page { OnErr result ((page : ℕ)
            × (slice_get (pages_on self.now.job.now.plan sheet) slot ≡ Some (Some page))) }
    {
        let job = self.job;
        let Some(placed) = job.placed(sheet, slot) else {
            return Ok(());
        };

        // Reading the share shows that the seat's front is a legal history of the table. In such a history each page of a complete sheet has an
        // index.
        seat.share();
        let shown = self.find_shelved(seat, placed.page)?;
        match append_placed(text, openings, job, &placed, shown.body()) {
            Ok(()) => Ok(()),
            Err(_) => Err(ImposeError::NoMemory),
        }
    }

    /// Looks up the index of a page in the table, and finds the page on the shelf. The page must have an index. Fails with `NotShown` if the shelf
    /// has no entry at this index, or an entry that isn't this page of the document.
    fn find_shelved(&self, seat: &mut Seat, page: u32) -> Result<&'r Prepared<'d>, ImposeError>
        requires seat { IsSeatOf self.now.table.now seat.old }
        requires in_table { page < self.now.table.now.layout.pages }
        requires in_document { page < length (pages self.now.job.now.units) }
        requires index { HasIndex self.now.table.now.layout seat.old.front page }
        ensures looked_up { LooksAt (Some (Some page)) seat.old seat.new }
        ensures page { IfOk result (λ shown. shown.now.page ≡ page) }
        ensures raw { IfOk result (λ shown. shown.now.raw ≡ slice_index_or (pages self.now.job.now.units) page []) }
        ensures prepared { IfOk result (λ shown. IsPrepared shown.now) }
    {
        let Some(index) = self.table.page_at(seat, page) else {
            unreachable!();
        };
        let Some(found) = self.shelf.find(index) else {
            return Err(ImposeError::NotShown);
        };
        if !self.is_page(&found, page) {
            return Err(ImposeError::NotShown);
        }
        Ok(found.page)
    }

    /// Whether the entry is page `page` of the document. If the shelf is known to belong to the document, and the entry was put there as one of its
    /// pages, the bytes aren't compared.
    fn is_page(&self, found: &Shelved<'_, 'd>, page: u32) -> bool
        requires in_document { page < length (pages self.now.job.now.units) }
        requires own { IsTrue found.now.is_own → IsOwn self.now.shelf.now found.now.page.now }
        ensures page { IsTrue result → found.now.page.now.page ≡ page }
        ensures raw { IsTrue result → found.now.page.now.raw ≡ slice_index_or (pages self.now.job.now.units) page [] }
    {
        if found.page.page() != page {
            return false;
        }
        if self.is_of_document && found.is_own {
            return true;
        }
        let job = self.job;
        found.page.raw() == job.document().page(page)
    }
}

/// Looks once at a sheet in the table, and returns whether the sheet is complete. A wide sheet is complete if all its groups are closed, and any
/// other sheet if all its slots are marked.
pub fn is_complete(seat: &mut Seat, table: &GatherTable<'_>, sheet: u32) -> bool
    requires seat { IsSeatOf table.now seat.old }
    requires sheet { sheet < length table.now.layout.sheets }
    ensures seat { IsSeatOf table.now seat.new }
    ensures looked { (missing : ℕ) × MadeCall seat.old (Look sheet missing) seat.new × (IsTrue result ↔ missing ≡ 0) }
    ensures reads { OnlyReads seat.old seat.new }
    ensures complete { result ≡ true → IsComplete table.now.layout seat.new.front sheet }
{
    table.look(seat, sheet) == 0
}
