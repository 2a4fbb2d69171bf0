//! The sewing of booklets: their rows in signatures.
ghost use Rattle.std.specs.Prelude.{◌≡◌, ◌*◌, ◌≤◌, ◌<◌, length, IfOk, IfErr, IfSome, Ok, option_map};
ghost use Rattle.rules.specs.Sheets.{blocks};
ghost use Rattle.rules.specs.Signatures.{AreSides};
ghost use Rattle.rules.specs.Rows.{auto_sides, leaves_for};
ghost use Rattle.rules.specs.Choice.{imposed_row, signed_if, sides_for, most_entries};
ghost use Rattle.rows.specs.Choices.{choice_of};
ghost use Rattle.rows.specs.Sewing.{signing_of, MayBeSewn};
ghost use Rattle.rows.specs.Refusals.{RefusesRow};

use crate::choices::{Choice, chosen_row};
use crate::error::RowError;
use crate::signatures::in_signatures;
use std::alloc::{AllocError, Global};

const MOST_LEAVES: usize = 8;

/// The way in which a booklet is sewn: in one signature that has all pages, in signatures of this number of sides, or in as few signatures as
/// possible with at most eight leaves each.
#[derive(Clone, Copy, Debug, PartialEq, Eq)]
pub enum Signing {
    InOne,
    OfSides(u32),
    Auto,
}

impl Signing {
    /// The number of sides of each signature, for a row with this number of entries.
    pub fn sides(self, entries: usize) -> u32
        requires sides { MayBeSewn self }
        requires some { 0 < entries }
        requires few { entries ≤ most_entries }
        ensures value { result ≡ sides_for (signing_of self) entries }
        ensures are_sides { AreSides result }
    {
        match self {
            Signing::InOne => leaves_for(entries) * 4,
            Signing::OfSides(sides) => sides,
            Signing::Auto => auto_sides(entries),
        }
    }
}

/// The number of sides of each signature, chosen for this number of entries. All signatures have the same size. There are as few signatures as
/// possible with at most eight leaves each.
pub fn auto_sides(entries: usize) -> u32
    requires some { 0 < entries }
    requires few { entries ≤ most_entries }
    ensures value { result ≡ auto_sides entries }
    ensures are_sides { AreSides result }
{
    let leaves = leaves_for(entries) as usize;
    let signatures = leaves.div_ceil(MOST_LEAVES);
    leaves.div_ceil(signatures) as u32 * 4
}

/// The number of leaves for this number of entries. A leaf has four entries, and the last leaf is filled up with blanks.
fn leaves_for(entries: usize) -> u32
    requires some { 0 < entries }
    requires few { entries ≤ most_entries }
    ensures value { result ≡ leaves_for entries }
    ensures are_sides { AreSides (result * 4) }
{
    entries.div_ceil(4) as u32
}

/// The row in signatures. The row is returned unchanged if no signatures are requested.
pub fn signed_row(
    alloc: Global,
    row: Vec<Option<u32>>,
    signing: Option<Signing>,
) -> Result<Vec<Option<u32>>, AllocError>
    requires sides { IfSome signing MayBeSewn }
    requires some { 0 < length row.items }
    requires few { length row.items ≤ most_entries }
    ensures { IfOk result (λ printed. printed.items ≡ signed_if (option_map signing_of signing) row.items) }
{
    match signing {
        Some(how) => sewn_row(alloc, row.as_slice(), how),
        None => Ok(row),
    }
}

/// The row in signatures, sewn as `how` says.
fn sewn_row(
    alloc: Global,
    row: &[Option<u32>],
    how: Signing,
) -> Result<Vec<Option<u32>>, AllocError>
    requires sides { MayBeSewn how }
    requires some { 0 < length row.now }
    requires few { length row.now ≤ most_entries }
    ensures { IfOk result (λ printed. printed.items ≡ signed_if (Some (signing_of how)) row.now) }
{
    in_signatures(alloc, row, how.sides(row.len()))
}

/// The row that is imposed from a document with this number of pages: the chosen pages, in signatures if these are requested. Fails with the first
/// fault, in the order of `RowError`.
pub fn imposed_row(
    alloc: Global,
    pages: u32,
    choice: &Choice<'_>,
    signing: Option<Signing>,
) -> Result<Vec<Option<u32>>, RowError>
    requires pages { pages ≤ most_entries }
    requires sides { IfSome signing MayBeSewn }
    ensures row { IfOk result (λ row. imposed_row pages (choice_of choice.now) (option_map signing_of signing) ≡ Ok row.items) }
    ensures refused { IfErr result (RefusesRow (imposed_row pages (choice_of choice.now) (option_map signing_of signing))) }
{
    let row = chosen_row(alloc, pages, choice)?;
    signed_row(alloc, row, signing).map_err(|_| RowError::NoMemory)
}
