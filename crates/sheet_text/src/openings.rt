//! Keeps texts that come before placed pages, so that they needn't be made again.
ghost use Rattle.std.specs.Prelude.{◌≡◌, ◌++◌, OnOk, IfOk, IfSome, true, false};
ghost use Rattle.rules.specs.Output.{Frame, border_within, opening_text as opening};
ghost use Rattle.pagespec.specs.Items.{item_of};

use crate::job::Job;
use crate::rope::Rope;
use lengths::{Grains, Paper};
use pagespec::{Item, Measure};
use placement::opening_within;
use std::alloc::{AllocError, Global};
use std::marker::Model;

/// The largest number of texts that `Openings` keeps.
const MOST_KEPT: usize = 64;

/// The texts that come before placed pages, kept for reuse. Most jobs place all their pages by a few items, so at most 64 texts are kept. A contract
/// sees the number of kept texts.
#[derive(Drop)]
pub struct Openings {
    alloc: Global,
    kept: Vec<Opening>,
}

impl Model for Openings {
    ghost use Rattle.std.specs.Prelude.{ℕ, ◌≤◌, vec_len};

    ghost Value = { ℕ };

    ghost view = { λ o. vec_len o.kept };

    ghost invariant = { λ o. vec_len o.kept ≤ 64 };
}

/// The text that comes before a page with this paper, placed by this item. A border, if there is one, has this width in grains, and lies `inset`
/// grains inside the page's edges.
#[derive(Drop)]
struct Opening {
    item: Item,
    paper: Paper,
    border: Option<Grains>,
    inset: Grains,
    text: Vec<u8>,
    ghost opens: { let frame : Frame = record { paper = paper; border = border_within inset border }
        in text.items ≡ opening frame (item_of item) },
}

impl Openings {
    /// Makes an empty store of texts, without allocating memory.
    pub fn new(alloc: Global) -> Openings
        ensures { result ≡ 0 }
    {
        Openings {
            alloc,
            kept: Vec::new(alloc),
        }
    }

    /// Appends the text that comes before a page with this paper, placed by this item. A text that isn't kept is made, and then kept unless 64 texts
    /// are kept already. The only error is refused memory.
    pub(crate) fn append(
        &mut self,
        job: &Job<'_, '_>,
        item: &Item,
        paper: &Paper,
        out: &mut Rope<'_>,
    ) -> Result<(), AllocError>
        ensures { OnOk result (out.new ≡ out.old ++ opening (record { paper = paper.now; border = job.now.border }) (item_of item.now)) }
    {
        if self.append_kept(job, item, paper, out)? {
            return Ok(());
        }
        let mut text = Vec::new(self.alloc);
        opening_within(item, paper, job.border, job.inset, &mut text)?;
        out.append(text.as_slice())?;
        self.keep(job, item, paper, text)?;
        Ok(())
    }

    /// Appends the text for this item and paper if it is kept, and returns whether it is kept.
    fn append_kept(
        &self,
        job: &Job<'_, '_>,
        item: &Item,
        paper: &Paper,
        out: &mut Rope<'_>,
    ) -> Result<bool, AllocError>
        ensures kept { IfOk result (λ is_kept. is_kept ≡ true →
            out.new ≡ out.old ++ opening (record { paper = paper.now; border = job.now.border }) (item_of item.now)) }
        ensures missing { IfOk result (λ is_kept. is_kept ≡ false → out.new ≡ out.old) }
    {
        for opening in self.kept.as_slice() {
            if let Some(text) = opening.text_for(job, item, paper) {
                out.append(text)?;
                return Ok(true);
            }
        }
        Ok(false)
    }

    /// Keeps this text for the item and paper, unless 64 texts are kept already.
    fn keep(
        &mut self,
        job: &Job<'_, '_>,
        item: &Item,
        paper: &Paper,
        text: Vec<u8>,
    ) -> Result<(), AllocError>
        requires { text.items ≡ opening (record { paper = paper.now; border = job.now.border }) (item_of item.now) }
    {
        if self.kept.len() >= MOST_KEPT {
            return Ok(());
        }
        let opening = Opening {
            item: *item,
            paper: *paper,
            border: job.border,
            inset: job.inset,
            text,
        };
        self.kept.push(opening)?;
        Ok(())
    }
}

impl Opening {
    /// The kept text, if it was made for this item (apart from its page), this paper, and the width and inset of the job's border. None otherwise.
    fn text_for(&self, job: &Job<'_, '_>, item: &Item, paper: &Paper) -> Option<&[u8]>
        ensures { IfSome result (λ text. text.now ≡ opening (record { paper = paper.now; border = job.now.border }) (item_of item.now)) }
    {
        if self.item.turn == item.turn
            && self.item.scale == item.scale
            && are_equal_measures(self.item.offset.0, item.offset.0)
            && are_equal_measures(self.item.offset.1, item.offset.1)
            && self.paper == *paper
            && self.border == job.border
            && self.inset == job.inset
        {
            Some(self.text.as_slice())
        } else {
            None
        }
    }
}

/// Whether both measures are the same number of the same unit.
fn are_equal_measures(one: Measure, other: Measure) -> bool
    ensures { result ≡ true → one ≡ other }
{
    one == other
}
