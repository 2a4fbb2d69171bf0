//! The options of a run.
ghost use Rattle.std.specs.Prelude.{◌≡◌, ◌↔◌, IsTrue};
ghost use Rattle.rules.specs.Signatures.{AreSidesIfGiven};
ghost use Rattle.sheet_text.specs.Jobs.{is_border};
ghost use Rattle.imposer.specs.Options.{AreOptions};

use crate::worker_counts::Workers;
use lengths::{Grains, Paper};
use sheet_plan::are_sides;

/// The options of a run, besides its page specification.
#[derive(Clone, Copy, Debug, PartialEq, Eq)]
pub struct Options {
    /// The paper of the pages.
    pub paper: Paper,
    /// The width, in grains, of a border around each placed page. The width must be above 0. None if pages have no border.
    pub border: Option<Grains>,
    /// The number of sides of a signature, which must be a multiple of 4 from 4 to 1,000,000. None if pages aren't put into signatures.
    pub sides: Option<u32>,
    /// The numbers of threads.
    pub workers: Workers,
}

/// Whether the width of a border is above 0, or there is no border.
fn is_border_valid(border: Option<Grains>) -> bool
    ensures { result ≡ is_border border }
{
    border.is_none_or(|width| width.get() > 0)
}

/// Whether the number of sides of a signature is a multiple of 4 from 4 to 1,000,000, or there are no signatures.
fn are_sides_valid(sides: Option<u32>) -> bool
    ensures { IsTrue result ↔ AreSidesIfGiven sides }
{
    sides.is_none_or(|sides| are_sides(sides))
}

/// Whether the numbers of threads, the border and the sides of a signature are in range.
pub(crate) fn options_are_valid(options: &Options) -> bool
    ensures { IsTrue result ↔ AreOptions options.now }
{
    options.workers.are_valid() && is_border_valid(options.border) && are_sides_valid(options.sides)
}
