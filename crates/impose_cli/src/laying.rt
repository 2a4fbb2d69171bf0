//! The laying of a row of pages on sheets, for each layout.
ghost use Rattle.std.specs.Prelude.{◌≡◌, ◌↔◌, ◌≤◌, IfErr, IfOk, IsTrue, OnOk, None, Some, option_map, true};
ghost use Rattle.layouts.specs.Grids.{cells_per_sheet};
ghost use Rattle.layouts.specs.Refusals.{most_on_sheet, why_not_arranged};
ghost use Rattle.rows.specs.Printed.{asked_by};
ghost use Rattle.rows.specs.Sewing.{MayBeSewn};
ghost use Rattle.sheet_text.specs.Jobs.{is_border};
ghost use Rattle.row_runs.specs.Sheets.{MayBeLaid};
ghost use Rattle.rules.specs.Admissible.{Takes, most_slots};
ghost use Rattle.impose_cli.specs.Refusals.{HasGoodName, RefusesNamed, RefusesRowLayout, RefusesSpecification};
ghost use Rattle.impose_cli.specs.RowTasks.{IsLaidSo, IsLayingOf, MayBeLaidSo};
ghost use Rattle.impose_cli.specs.Refusals.{RefusesOptions};
ghost use Rattle.impose_cli.specs.RowTasks.{has_even_margins as are_even, is_even_enough as are_even_enough};
ghost use Rattle.impose_cli.specs.RowsAsked.{begun_in, row_asked as row_asked_by, scheme_in, signing_in};
ghost use Rattle.impose_cli.specs.RowTasks.{HasOptions, cells_of_layout, filled_in, laying_in, why_no_layout, why_not_placed};
ghost use Rattle.impose_cli.specs.RowTasks.{cells_paper, sheet_paper_in};
ghost use Rattle.impose_cli.specs.Precheck.{IsPossible, RefusesUnread, kept_free as kept_free_in, named_cells_paper, why_no_sheets};
ghost use Rattle.impose_words.specs.declared.request.Layout.TheVariants as layout;
ghost use Rattle.impose_messages.specs.declared.fault.ImposeFault.TheVariants as faults;

use crate::poster_size::poster_of;
use impose_messages::ImposeFault;
use impose_words::{ImposeRequest, Layout, PosterSize, Spacing};
use imposer::RunError;
use layouts::{
    Arrangement, ArrangementError, Cells, Free, Papers, Setting, check_room, is_length,
    rounded_down, rounded_up,
};
use lengths::{Grains, Paper};
use pagespec::{Spec, read_spec};
use row_runs::{Laying, turned_paper};
use row_sheets::{Poster, Scheme, check_poster};
use rows::{Begun, RowRequest, Signing};
use sheet_plan::are_sides;
use std::alloc::Global;

/// The paper of the pages after they are turned, and the paper of the sheets. In a selection, sheets have the paper of their pages.
pub(crate) fn papers_for(request: &ImposeRequest, page_paper: &Paper) -> Papers
    ensures page { result.page ≡ cells_paper request.now page_paper.now }
    ensures sheet { result.sheet ≡ sheet_paper_in request.now.layout request.now.sheet_paper
        (cells_paper request.now page_paper.now) }
{
    let page = turned_paper(request.turn.of(page_paper), page_paper);
    let sheet = match &request.layout {
        Layout::Selection => page,
        _ => request.sheet_paper_for(&page),
    };
    Papers { page, sheet }
}

/// The way in which a task lays its row of pages on sheets.
#[derive(Drop)]
pub(crate) enum RowLaying {
    /// The laying of a layout that isn't a specification.
    Plain(Laying<'static>),
    /// The laying of the specification that the request names. `sheet` is the paper of the sheets, and `page` is the paper by which all pages are
    /// placed.
    Named {
        spec: Spec,
        sheet: Paper,
        page: Paper,
    },
}

impl RowLaying {
    /// This laying, in the type of the crate `row_runs`. The result borrows the specification, if there is one.
    pub(crate) fn lent(&self) -> Laying<'_>
        requires { MayBeLaidSo self.now }
        ensures is { IsLayingOf self.now result }
        ensures may_be { MayBeLaid result }
    {
        match self {
            RowLaying::Plain(laying) => laying.lent(),
            RowLaying::Named { spec, sheet, page } => Laying::BySpec {
                spec,
                sheet: *sheet,
                page: *page,
            },
        }
    }
}

/// The specification that this text gives. The error says why the text can't be read.
fn spec_named(alloc: Global, specs: &str) -> Result<Spec, ImposeFault>
    ensures taken { IfOk result (λ spec. Takes most_slots specs.now spec) }
    ensures refused { IfErr result (RefusesSpecification specs.now) }
{
    read_spec(alloc, specs).map_err(|error| ImposeFault::Run(RunError::from(error)))
}

/// The way in which the layout lays a row of pages on sheets. The error says why the row can't be laid in this way.
pub(crate) fn laying_for(
    alloc: Global,
    layout: &Layout,
    spacing: &Spacing,
    papers: &Papers,
) -> Result<RowLaying, ImposeFault>
    ensures laying { IfOk result (IsLaidSo layout.now spacing.now papers.now.page papers.now.sheet) }
    ensures may_be { IfOk result MayBeLaidSo }
    ensures possible { OnOk result (why_no_layout layout.now spacing.now papers.now.page papers.now.sheet ≡ None) }
    ensures named { OnOk result (HasGoodName layout.now) }
    ensures refused { IfErr result (RefusesRowLayout layout.now spacing.now papers.now.page papers.now.sheet) }
{
    if !is_even_enough(layout, &spacing.free) {
        return Err(ImposeFault::Layout(ArrangementError::UnevenMargins));
    }
    match layout {
        Layout::Spec { specs, .. } => {
            let spec = spec_named(alloc, specs.as_str())?;
            Ok(RowLaying::Named {
                spec,
                sheet: papers.sheet,
                page: papers.page,
            })
        }
        Layout::Booklet { signing, long_edge } => {
            let laying = booklet_laying(*signing, *long_edge, spacing, papers)?;
            Ok(RowLaying::Plain(laying))
        }
        Layout::Poster(size) => {
            let laying = poster_laying(size, spacing, papers)?;
            Ok(RowLaying::Plain(laying))
        }
        Layout::Selection => Ok(RowLaying::Plain(Laying::AsTheyAre {
            blank: papers.sheet,
        })),
        _ => {
            let laying = cell_laying(layout, spacing, papers)?;
            Ok(RowLaying::Plain(laying))
        }
    }
}

/// Checks the layout as far as possible without the document, so that a mistake is found before the input is read. A specification must have no
/// fault. Any other layout is tried with the paper of the pages, if the command line names it. If the command line names only the paper of the
/// sheets, and the layout has cells, the margins must leave some of that paper.
pub fn check_layout(alloc: Global, request: &ImposeRequest) -> Result<(), ImposeFault>
    ensures possible { OnOk result
        (IsPossible request.now.layout request.now.spacing (named_cells_paper request.now) request.now.sheet_paper) }
    ensures refused { IfErr result
        (RefusesUnread request.now.layout request.now.spacing (named_cells_paper request.now) request.now.sheet_paper) }
{
    match &request.page_paper {
        Some(page_paper) => {
            let papers = papers_for(request, page_paper);
            laying_for(alloc, &request.layout, &request.spacing, &papers)?;
            Ok(())
        }
        None => {
            check_spec(alloc, &request.layout)?;
            check_sheets(&request.layout, &request.spacing, &request.sheet_paper)
        }
    }
}

/// Checks the text of a specification. Other layouts pass.
fn check_spec(alloc: Global, layout: &Layout) -> Result<(), ImposeFault>
    ensures possible { OnOk result (HasGoodName layout.now) }
    ensures refused { IfErr result (RefusesNamed layout.now) }
{
    match layout {
        Layout::Spec { specs, .. } => {
            spec_named(alloc, specs.as_str())?;
            Ok(())
        }
        _ => Ok(()),
    }
}

/// Checks that the margins leave some of a sheet of `sheet_paper`, whatever the size of the pages. The error is `NoRoom` if they leave nothing.
/// Lengths out of range pass. If `sheet_paper` is `None`, or the layout has no cells, there is nothing to check.
fn check_sheets(
    layout: &Layout,
    spacing: &Spacing,
    sheet_paper: &Option<Paper>,
) -> Result<(), ImposeFault>
    ensures possible { OnOk result (why_no_sheets layout.now spacing.now sheet_paper.now ≡ None) }
    ensures refused { IfErr result (λ fault. why_no_sheets layout.now spacing.now sheet_paper.now ≡ Some fault) }
{
    let Some(sheet) = sheet_paper else {
        return Ok(());
    };
    let Some(free) = kept_free(layout, spacing) else {
        return Ok(());
    };
    check_room(sheet, &free).map_err(ImposeFault::Layout)
}

/// The margins, gaps and trim of a layout that has cells. `None` for a layout without cells.
fn kept_free(layout: &Layout, spacing: &Spacing) -> Option<Free>
    ensures { result ≡ kept_free_in layout.now spacing.now }
{
    match layout {
        Layout::NUp(_) | Layout::Cards(_) | Layout::Stack { .. } | Layout::Notes { .. } => Some(
            cells_for(layout, spacing).free,
        ),
        Layout::Zine => Some(cells_for(layout, spacing).free),
        Layout::Booklet { long_edge, .. } => Some(spacing.binding(*long_edge).free),
        Layout::Poster(_) | Layout::Selection | Layout::Spec { .. } => None,
    }
}

/// Whether the margins are equal where the layout needs equal ones: opposite margins in a zine and in a stack that is printed on both sides, and all
/// four margins in a poster. The margins of a booklet are checked only when its leaves are laid out.
fn is_even_enough(layout: &Layout, free: &Free) -> bool
    ensures { result ≡ are_even_enough layout.now free.now }
{
    match layout {
        Layout::Stack { duplex, .. } => !*duplex || has_even_margins(free),
        Layout::Poster(_) => has_even_margins(free) && free.left.get() == free.bottom.get(),
        Layout::Zine => has_even_margins(free),
        _ => true,
    }
}

/// The laying of pages in the cells that the layout asks for. The error says why the pages can't be put into these cells.
fn cell_laying(
    layout: &Layout,
    spacing: &Spacing,
    papers: &Papers,
) -> Result<Laying<'static>, ImposeFault>
    requires { are_even_enough layout.now spacing.now.free ≡ true }
    ensures laying { IfOk result (λ laying.
        laying ≡ filled_in layout.now spacing.now (cells_of_layout layout.now spacing.now) papers.now.page papers.now.sheet) }
    ensures may_be { IfOk result MayBeLaid }
    ensures possible { OnOk result (option_map faults.Layout
        (why_not_arranged papers.now.page papers.now.sheet (cells_of_layout layout.now spacing.now)) ≡ None) }
    ensures refused { IfErr result (λ fault. option_map faults.Layout
        (why_not_arranged papers.now.page papers.now.sheet (cells_of_layout layout.now spacing.now)) ≡ Some fault) }
{
    let arrangement = cells_for(layout, spacing);
    match Setting::of(papers, &arrangement) {
        Ok(setting) => Ok(Laying::InCells {
            setting,
            scheme: scheme_for(layout, spacing, arrangement.cells),
        }),
        Err(error) => Err(ImposeFault::Layout(error)),
    }
}

/// The arrangement of cells that the layout asks for. Callers pass only layouts with cells, so the last case is the zine.
fn cells_for(layout: &Layout, spacing: &Spacing) -> Arrangement
    ensures { result ≡ cells_of_layout layout.now spacing.now }
{
    match layout {
        Layout::NUp(cells) | Layout::Cards(cells) => spacing.arrangement(*cells),
        Layout::Stack { cells, .. } => spacing.arrangement(*cells),
        Layout::Notes { pages } => spacing.notes(*pages),
        _ => spacing.zine(),
    }
}

/// The scheme by which the layout puts a row of pages into these cells.
fn scheme_for(layout: &Layout, spacing: &Spacing, cells: Cells) -> Scheme
    requires { cells_per_sheet cells ≤ most_on_sheet }
    ensures { result ≡ scheme_in layout.now spacing.now (cells_per_sheet cells) }
{
    let cells = cells.count() as u32;
    match layout {
        Layout::Cards(_) => if spacing.skipped == 0 {
            Scheme::Cards { cells }
        } else {
            Scheme::Grid { cells }
        },
        Layout::Stack { duplex, .. } => if *duplex {
            Scheme::Leaves
        } else {
            Scheme::Stack { cells }
        },
        Layout::Notes { pages } => Scheme::Grid { cells: *pages },
        Layout::Zine => Scheme::Zine,
        _ => Scheme::Grid { cells },
    }
}

/// The row that a request asks for.
pub(crate) fn row_asked(request: &ImposeRequest) -> RowRequest<'_>
    ensures asked { asked_by result ≡ row_asked_by request.now }
    ensures signing { result.signing ≡ signing_in request.now.layout }
{
    RowRequest {
        choice: request.choice.as_choice(),
        signing: named_signing(&request.layout),
        last_at_back: request.last_at_back,
        begun: begun_for(&request.layout, &request.spacing),
    }
}

/// The start of the layout's row on the first sheet, of which some cells may be used already.
fn begun_for(layout: &Layout, spacing: &Spacing) -> Begun
    ensures { result ≡ begun_in layout.now spacing.now }
{
    let used = spacing.skipped;
    match layout {
        Layout::Cards(cells) => if used == 0 {
            Begun::Pages { used: 0 }
        } else {
            Begun::Cards {
                cells: cells.count(),
                used,
            }
        },
        _ => Begun::Pages { used },
    }
}

fn booklet_laying(
    signing: Signing,
    long_edge: bool,
    spacing: &Spacing,
    papers: &Papers,
) -> Result<Laying<'static>, ImposeFault>
    ensures laying { IfOk result (λ laying.
        Some laying ≡ laying_in (layout.Booklet signing long_edge) spacing.now papers.now.page papers.now.sheet) }
    ensures may_be { IfOk result MayBeLaid }
    ensures possible { OnOk result
        (why_not_placed (layout.Booklet signing long_edge) spacing.now papers.now.page papers.now.sheet ≡ None) }
    ensures refused { IfErr result (λ fault.
        why_not_placed (layout.Booklet signing long_edge) spacing.now papers.now.page papers.now.sheet ≡ Some fault) }
{
    if !is_length(spacing.creep) {
        return Err(ImposeFault::Layout(ArrangementError::LengthOutOfRange));
    }
    let creep = rounded_down(spacing.creep);
    match Setting::of_binding(papers, &spacing.binding(long_edge)) {
        Ok(setting) => Ok(Laying::InCells {
            setting,
            scheme: Scheme::Booklet {
                turned_backs: long_edge,
                creep,
            },
        }),
        Err(error) => Err(ImposeFault::Layout(error)),
    }
}

fn poster_laying(
    size: &PosterSize,
    spacing: &Spacing,
    papers: &Papers,
) -> Result<Laying<'static>, ImposeFault>
    ensures laying { IfOk result (λ laying.
        Some laying ≡ laying_in (layout.Poster size.now) spacing.now papers.now.page papers.now.sheet) }
    ensures may_be { IfOk result MayBeLaid }
    ensures possible { OnOk result
        (why_not_placed (layout.Poster size.now) spacing.now papers.now.page papers.now.sheet ≡ None) }
    ensures refused { IfErr result (λ fault.
        why_not_placed (layout.Poster size.now) spacing.now papers.now.page papers.now.sheet ≡ Some fault) }
{
    let margin = spacing.free.left;
    if !(is_length(margin) && is_length(spacing.overlap)) {
        return Err(ImposeFault::Layout(ArrangementError::LengthOutOfRange));
    }
    let one = Poster {
        sheet: papers.sheet,
        columns: 1,
        rows: 1,
        edge: rounded_up(margin),
        overlap: rounded_up(spacing.overlap),
        scale: spacing.scale,
    };
    let poster = poster_of(size, &papers.page, one);
    match check_poster(&poster, &papers.page) {
        Ok(()) => Ok(Laying::Poster { poster }),
        Err(error) => Err(ImposeFault::Poster(error)),
    }
}

/// Whether opposite margins are equal.
fn has_even_margins(free: &Free) -> bool
    ensures { result ≡ are_even free.now }
{
    free.left.get() == free.right.get() && free.bottom.get() == free.top.get()
}

/// Checks the signatures and the border of a request, if it has them. The error is `Options` if a signature can't have the named number of sides, or if
/// the width of the border isn't above 0.
#[tactic(auto, using(crate::proofs::RowOptions::has_options, crate::proofs::RowOptions::no_border, crate::proofs::RowOptions::not_sewn))]
pub(crate) fn check_options(request: &ImposeRequest) -> Result<(), ImposeFault>
    ensures accepted { OnOk result (HasOptions request.now) }
    ensures refused { IfErr result (RefusesOptions request.now) }
{
    let signing = named_signing(&request.layout);
    if !is_drawn(request.border) {
        return Err(ImposeFault::Run(RunError::Options));
    }
    match signing {
        Some(how) if !may_be_sewn(how) => Err(ImposeFault::Run(RunError::Options)),
        _ => Ok(()),
    }
}

pub(crate) fn named_signing(layout: &Layout) -> Option<Signing>
    ensures { result ≡ signing_in layout.now }
{
    match layout {
        Layout::Booklet { signing, .. } => Some(*signing),
        Layout::Spec { signing, .. } => *signing,
        _ => None,
    }
}

/// Whether the border, if there is one, has a width above 0.
fn is_drawn(border: Option<Grains>) -> bool
    ensures { result ≡ is_border border }
{
    border.is_none_or(|width| width.get() > 0)
}

/// Whether a signature may have the number of sides that `signing` names. True if `signing` names no number.
fn may_be_sewn(signing: Signing) -> bool
    ensures { IsTrue result ↔ MayBeSewn signing }
{
    match signing {
        Signing::OfSides(sides) => are_sides(sides),
        Signing::InOne | Signing::Auto => true,
    }
}
