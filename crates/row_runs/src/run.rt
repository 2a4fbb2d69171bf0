//! A row of a document's pages that is laid on sheets.
ghost use Rattle.std.specs.Prelude.{◌≡◌, IfErr, IfOk};
ghost use Rattle.row_runs.specs.Sheets.{MayBeAsked};
ghost use Rattle.row_runs.specs.SheetsRuns.{IsDressOf};
ghost use Rattle.row_runs.specs.Readings.{sides_by as sides_of_swapped_room};
ghost use Rattle.row_runs.specs.Runs.{AreTurned, RefusesRun, drawn_of, swapped_room_for};

use crate::error::SheetError;
use crate::marked::strokes_of;
use crate::numbered::numbers_on;
use crate::reaching::check_reach;
use crate::reading::sides_by;
use crate::sheet_request::{SheetRequest, make_sheets};
use crate::swapped_margins::swapped_room_in;
use crate::turning::turned_sheets;
use dressing::{Marks, dress_of};
use dsc::Document;
use lengths::{Grains, Paper};
use pagespec::Turn;
use preview::Sides;
use sheet_plan::MadeSheets;
use sheet_text::SheetDress;
use std::alloc::Global;

/// A job: a document, a request for its sheets, and options that apply to all of these sheets.
#[derive(Clone, Copy)]
pub struct RowJob<'j, 'd> {
    /// The document, which has been read.
    pub document: &'j Document<'d>,
    /// The turn of each page before it is placed, in the order of the pages. A page that has no entry isn't turned.
    pub turns: &'j [Turn],
    /// The paper of each page after it is turned, in the order of the pages. A page that has no entry has the paper of the sheets or, if pages are
    /// left as they are, of blanks. `Laying::BySpec` has a paper of its own for all pages.
    pub papers: &'j [Paper],
    /// The pages that are chosen, their signatures, and how they are laid on sheets.
    pub asked: SheetRequest<'j>,
    /// Whether left and right margins are exchanged on every second sheet, since it is the back of a leaf. Only sheets with cells are changed.
    pub swapped: bool,
    /// The width of a border around each page, in grains and above 0. None if pages have no border.
    pub border: Option<Grains>,
    /// The distance, in grains, at which the border lies inside the edges of its page.
    pub inset: Grains,
    /// The marks, the lines for notes and the page numbers that are requested. Those that the laying takes are drawn on each sheet, after its pages.
    pub marks: Marks,
}

impl<'j, 'd> RowJob<'j, 'd> {
    /// The sheets of the request, with pages shifted on backs and turned as the job requests, and the lines that report papers and draw marks and
    /// numbers. The first fault is reported, in the order of the variants of `SheetError`. A plan has limits that this call doesn't check, so call
    /// `Plan::of_sheets` before an output is created.
    pub fn lay(&self, alloc: Global) -> Result<(MadeSheets, SheetDress), SheetError>
        requires { MayBeAsked self.now.asked }
        ensures turned { IfOk result (λ laid. AreTurned self.now laid.0) }
        ensures dressed { IfOk result (λ laid. IsDressOf (drawn_of self.now) laid.0 laid.1) }
        // The error is the first fault.
        ensures refused { IfErr result (RefusesRun self.now) }
    {
        let count = self.document.pages();
        let sheets = make_sheets(alloc, count, self.papers, &self.asked)?;
        let swap = swapped_room_in(self.swapped, &self.asked.laying);
        check_reach(self.turns, &swap, &sheets)?;
        let strokes = strokes_of(alloc, self.marks, &self.asked.laying)?;
        let numbering = self.marks.numbers;
        let numbers = numbers_on(alloc, count, self.papers, &self.asked, &swap, numbering)?;
        let turned = turned_sheets(alloc, self.turns, &swap, sheets)?;
        let dress = dress_of(alloc, &turned, strokes.as_slice(), numbers)?;
        Ok((turned, dress))
    }

    /// The sides on which the sheets are printed.
    pub fn sides(&self) -> Sides
        ensures { result ≡ sides_of_swapped_room (swapped_room_for self.now) self.now.asked.laying }
    {
        sides_by(
            &swapped_room_in(self.swapped, &self.asked.laying),
            &self.asked.laying,
        )
    }
}
