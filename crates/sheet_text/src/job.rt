//! A job: a document, the plan of its sheets, and the lines that the sheets have besides their pages.
ghost use Rattle.std.specs.Prelude.{◌≡◌, ℕ, ◌<◌, ◌++◌, [], length, IsTrue, IfSome, OnOk, Option, Some, slice_get, slice_index_or};
ghost use Rattle.rules.specs.Parts.{pages};
ghost use Rattle.rules.specs.Specification.{Spec};
ghost use Rattle.rules.specs.Output.{border_within, framed, output, sheet_text};
ghost use Rattle.rules.specs.Dress.{lines_text};
ghost use Rattle.rules.specs.Dressed.{dressed_sheets};
ghost use Rattle.rules.specs.MadeOutput.{made_output};
ghost use Rattle.rules.specs.MadePlans.{page_of};
ghost use Rattle.sheet_plan.specs.OfSheets.{made_plan, placed_of};
ghost use Rattle.sheet_plan.specs.Plans.{pages_on, planned_in, IsSound};
ghost use Rattle.sheet_text.specs.Dressings.{dress_in};
ghost use Rattle.sheet_text.specs.Jobs.{JobView, AreOfPlan, of_frame, is_border, output_of, text_of, sheet_of, slots_of};

use crate::dress::SheetDress;
use crate::rope::Rope;
use crate::sheet_papers::SheetPapers;
use dsc::Document;
use lengths::{Grains, Paper};
use sheet_plan::{MadeSheets, PlacedSlot, Plan};
use std::alloc::AllocError;
use std::marker::Model;

/// The work of a run: the pages of a document, placed on sheets by a plan. Each page has a paper, and a border if one is requested. The output may
/// have further lines besides its pages.
#[derive(Drop)]
pub struct Job<'j, 'd> {
    plan: &'j Plan<'j>,
    document: &'j Document<'d>,
    /// The width of the border, in grains. None if pages have no border.
    pub(crate) border: Option<Grains>,
    /// The distance of the border from the edges of its page, in grains.
    pub(crate) inset: Grains,
    papers: SheetPapers<'j>,
    sheets: u32,
}

impl<'j, 'd> Model for Job<'j, 'd> {
    ghost use Rattle.std.specs.Prelude.{◌≡◌, length};
    ghost use Rattle.rules.specs.Output.{border_within};
    ghost use Rattle.rules.specs.Parts.{pages};
    ghost use Rattle.sheet_plan.specs.Plans.{IsSound};
    ghost use Rattle.sheet_text.specs.Jobs.{JobView, AreOfPlan};
    ghost use Rattle.sheet_text.specs.PapersOf.{sheets_on, header_on};

    ghost Value = { JobView };

    ghost view = { λ j. record {
      plan = j.plan.now;
      units = j.document.now;
      border = border_within j.inset j.border;
      header = header_on j.papers;
      sheets = sheets_on j.papers j.plan.now;
    } };

    ghost invariant = { λ j. (j.plan.now.pages ≡ length (pages j.document.now))
        × (j.sheets ≡ length j.plan.now.sheets) × IsSound j.plan.now
        × AreOfPlan j.plan.now (sheets_on j.papers j.plan.now) };
}

impl<'j, 'd> Job<'j, 'd> {
    /// The job of a plan, with the same paper for all pages. It adds no lines to the output. A border has this width in grains, and lies along the
    /// edges of its page. The plan must be for as many pages as the document has.
    pub fn new(
        plan: &'j Plan<'j>,
        document: &'j Document<'d>,
        paper: Paper,
        border: Option<Grains>,
    ) -> Self
        requires same_pages { plan.now.pages ≡ length (pages document.now) }
        requires border { IsTrue (is_border border) }
        ensures value { result ≡ of_frame plan.now document.now (framed paper border) }

        // If the plan is that of a specification, in signatures or not, the job's output is the one that the specification prescribes.
        ensures output { (sides : Option ℕ) (spec : Spec) → plan.now ≡ planned_in sides spec (length (pages document.now))
            → output_of result ≡ output (framed paper border) sides spec document.now }

        // The text of a sheet is the one that the plan's sheet of this number has.
        ensures texts { (s : ℕ) → text_of result s ≡ sheet_text (framed paper border)
            (pages document.now) s (slice_index_or plan.now.sheets s []) }
    {
        Job {
            plan,
            document,
            border,
            inset: Grains::ZERO,
            papers: SheetPapers::One(paper),
            sheets: plan.sheets(),
        }
    }

    /// The job of these made sheets, with the lines of `dress` besides their pages. The plan must be the one that these sheets give, for as many
    /// pages as the document has. A border has this width in grains, and lies `inset` grains inside each edge of its page.
    pub fn made(
        plan: &'j Plan<'j>,
        document: &'j Document<'d>,
        sheets: &'j MadeSheets,
        border: Option<Grains>,
        inset: Grains,
        dress: &'j SheetDress,
    ) -> Self
        requires same_pages { plan.now.pages ≡ length (pages document.now) }
        requires same_sheets { plan.now ≡ made_plan plan.now.pages sheets.now }
        requires border { IsTrue (is_border border) }
        ensures value { result ≡ record {
          plan = plan.now;
          units = document.now;
          border = border_within inset border;
          header = dress.now.header;
          sheets = dressed_sheets (dress_in dress.now) sheets.now;
        } }
        ensures output { output_of result
            ≡ made_output (border_within inset border) (dress_in dress.now) sheets.now document.now }
    {
        Job {
            plan,
            document,
            border,
            inset,
            papers: SheetPapers::Made(sheets, dress),
            sheets: plan.sheets(),
        }
    }

    /// The plan of this job. It is for as many pages as the document has.
    pub fn plan(&self) -> &'j Plan<'j>
        ensures value { result.now ≡ self.now.plan }
        ensures same_pages { self.now.plan.pages ≡ length (pages self.now.units) }
        ensures sound { IsSound self.now.plan }
        ensures sheets { AreOfPlan self.now.plan self.now.sheets }
    {
        self.plan
    }

    /// The document whose pages are imposed.
    pub fn document(&self) -> &'j Document<'d>
        ensures { result.now ≡ self.now.units }
    {
        self.document
    }

    /// The number of sheets of this job.
    pub fn sheets(&self) -> u32
        ensures { result ≡ length self.now.plan.sheets }
    {
        self.sheets
    }

    /// The text of the lines that the job adds to the header, with their line ends. Empty if the job adds none.
    pub fn header(&self) -> &'j [u8]
        ensures { result.now ≡ lines_text self.now.header }
    {
        match &self.papers {
            SheetPapers::One(_) => &[],
            SheetPapers::Made(_, dress) => dress.header.text(),
        }
    }

    /// Appends the lines at the start of this sheet (counted from 0), after its `%%Page:` line. The only error is refused memory.
    pub(crate) fn append_start(&self, sheet: u32, text: &mut Rope<'_>) -> Result<(), AllocError>
        requires { sheet < length self.now.plan.sheets }
        ensures { OnOk result (text.new ≡ text.old ++ lines_text (sheet_of self.now sheet).start) }
    {
        match &self.papers {
            SheetPapers::One(_) => Ok(()),
            SheetPapers::Made(sheets, dress) => dress.append_start(sheets.paper(sheet), text),
        }
    }

    /// Appends the lines at the end of this sheet (counted from 0), before its `showpage`. The only error is refused memory.
    pub(crate) fn append_finish(&self, sheet: u32, text: &mut Rope<'j>) -> Result<(), AllocError>
        requires { sheet < length self.now.plan.sheets }
        ensures { OnOk result (text.new ≡ text.old ++ lines_text (sheet_of self.now sheet).finish) }
    {
        match &self.papers {
            SheetPapers::One(_) => Ok(()),
            SheetPapers::Made(_, dress) => dress.append_finish(sheet, text),
        }
    }

    /// The page in this slot of a sheet, with its item and its paper. None if the slot is blank.
    pub fn placed(&self, sheet: u32, slot: u16) -> Option<PlacedSlot<'_>>
        requires sheet { sheet < length self.now.plan.sheets }
        requires slot { slot < length (pages_on self.now.plan sheet) }
        ensures value { slice_get (slots_of self.now sheet) slot ≡ Some (placed_of result) }
        ensures planned { slice_get (pages_on self.now.plan sheet) slot ≡ Some (page_of (placed_of result)) }
        ensures page { IfSome result (λ placed. placed.page < length (pages self.now.units)) }
        ensures same_pages { self.now.plan.pages ≡ length (pages self.now.units) }
    {
        match &self.papers {
            SheetPapers::One(paper) => match self.plan.page_of(sheet, slot) {
                Some(page) => Some(PlacedSlot {
                    page,
                    item: self.plan.item_of(sheet, slot),
                    paper,
                }),
                None => None,
            },
            SheetPapers::Made(sheets, _) => sheets.placed(sheet, u32::from(slot)),
        }
    }
}
