//! Options that have no effect.
ghost use Rattle.std.specs.Prelude.{◌≡◌};
ghost use Rattle.impose_words.specs.IdleOptions as meaning;

use crate::request::{ImposeRequest, Layout, Product, Spacing};
use layouts::Free;
use lengths::Grains;

/// An option that has no effect, or not the effect that its name promises.
#[derive(Clone, Copy)]
pub enum IdleOption {
    /// An output file for the sheets, although `--plan` or `--preview` only shows them.
    Outfile,
    /// `--sheet`, although the layout leaves each page on a sheet of the page's own size.
    Sheet,
    /// Cut marks that would all be in the margins, although the margins have no room for them.
    CutMarks,
    /// A margin at the inner edge, although sheets of this layout have no inner edge.
    Inner,
    /// A left margin of `nup` other than 0, together with a margin at the inner edge. The inner edge of fronts is their left edge, so the left margin
    /// would have no effect.
    Left,
    /// `--scale`, although a poster of this size has a scale of its own.
    Scale,
    /// Cut marks together with a margin at the inner edge. Cut marks are the same on fronts and backs, but a margin at the inner edge isn't.
    InnerMarks,
}

impl ImposeRequest {
    /// The first option of the request that has no effect, or not the effect that its name promises. The variants of `IdleOption` are tried in this
    /// order: `Outfile`, `Sheet`, `Scale`, `Inner`, `Left`, `InnerMarks`, `CutMarks`. `None` if none of them applies.
    pub fn idle_option(&self) -> Option<IdleOption>
        ensures { result ≡ meaning.idle_option self.now }
    {
        if shows_sheets(&self.product) && self.outfile.is_some() {
            Some(IdleOption::Outfile)
        } else if keeps_papers(&self.layout) && self.sheet_paper.is_some() {
            Some(IdleOption::Sheet)
        } else if self.spacing.scale.is_some() && has_own_scale(&self.layout) {
            Some(IdleOption::Scale)
        } else if self.spacing.inner.is_some() && !is_bound(&self.layout) {
            Some(IdleOption::Inner)
        } else if has_two_left(&self.layout, &self.spacing) {
            Some(IdleOption::Left)
        } else if self.marks.cut && self.spacing.inner.is_some() {
            Some(IdleOption::InnerMarks)
        } else if self.marks.cut
            && (is_cut_outside(&self.layout) && !has_margins(&self.spacing.free))
        {
            Some(IdleOption::CutMarks)
        } else {
            None
        }
    }
}

/// Whether the product shows the sheets, so that they aren't written.
fn shows_sheets(product: &Product) -> bool
    ensures { result ≡ meaning.shows_sheets product.now }
{
    matches!(product, Product::Plan | Product::Picture(_))
}

/// Whether the layout puts each page on a sheet of the page's own paper.
fn keeps_papers(layout: &Layout) -> bool
    ensures { result ≡ meaning.keeps_papers layout.now }
{
    matches!(layout, Layout::Selection)
}

/// Whether the layout itself gives the scale of its pages.
fn has_own_scale(layout: &Layout) -> bool
    ensures { result ≡ meaning.has_own_scale layout.now }
{
    match layout {
        Layout::Poster(size) => size.gives_scale(),
        _ => false,
    }
}

/// Whether sheets of this layout are bound, and so have an inner edge.
fn is_bound(layout: &Layout) -> bool
    ensures { result ≡ meaning.is_bound layout.now }
{
    matches!(layout, Layout::NUp(_) | Layout::Booklet { .. })
}

/// Whether `nup` has an inner margin and also a left margin other than 0. The left margin then has no effect, because the inner margin takes its
/// place on fronts.
fn has_two_left(layout: &Layout, spacing: &Spacing) -> bool
    ensures { result ≡ meaning.has_two_left layout.now spacing.now }
{
    matches!(layout, Layout::NUp(_)) && spacing.inner.is_some() && spacing.free.left.get() != 0
}

/// Whether sheets of this layout can have cut marks, but only outside their cells, because they have one cell, are tiles, or are folded
/// between the cells.
fn is_cut_outside(layout: &Layout) -> bool
    ensures { result ≡ meaning.is_cut_outside layout.now }
{
    match layout {
        Layout::NUp(cells) | Layout::Cards(cells) | Layout::Stack { cells, .. } => {
            cells.count() == 1
        }
        Layout::Booklet { .. } | Layout::Poster(_) => true,
        Layout::Notes { .. } | Layout::Zine | Layout::Selection => false,
        Layout::Spec { .. } => false,
    }
}

/// Whether each margin is above 0 and at least half the gap between cells in its direction.
fn has_margins(free: &Free) -> bool
    ensures { result ≡ meaning.has_margins free.now }
{
    let beside = fits_half_gap(free.left, free.across) && fits_half_gap(free.right, free.across);
    let above = fits_half_gap(free.bottom, free.up) && fits_half_gap(free.top, free.up);
    beside && above
}

fn fits_half_gap(margin: Grains, gap: Grains) -> bool
    ensures { result ≡ meaning.fits_half_gap margin gap }
{
    let margin = margin.get();
    0 < margin && gap.get() <= margin + margin
}
