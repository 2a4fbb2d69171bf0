//! The last page at the back of a booklet.
ghost use Rattle.std.specs.Prelude.{◌≡◌, ◌≤◌, ◌<◌, ◌-◌, IfOk, IfSome, length, option_map};
ghost use Rattle.rules.specs.Choice.{most_entries};
ghost use Rattle.rows.specs.LastPage.{before_last, filled_length as filled, last_at_back};
ghost use Rattle.rows.specs.Sewing.{MayBeSewn, signing_of};

use crate::sewing::Signing;
use std::alloc::AllocError;

const MOST_ENTRIES: usize = 1_000_000;

/// The row, with the blanks that fill up its last signature inserted before the row's last entry, which is then at the back of the booklet. Blanks
/// that would make more than 1,000,000 entries are left out. The row is unchanged if it has no signatures or fills them. The only error is refused
/// memory.
pub(crate) fn last_at_back(
    row: Vec<Option<u32>>,
    signing: Option<Signing>,
) -> Result<Vec<Option<u32>>, AllocError>
    requires sides { IfSome signing MayBeSewn }
    requires some { 0 < length row.items }
    requires few { length row.items ≤ most_entries }
    ensures row { IfOk result (λ filled. filled.items ≡ last_at_back (option_map signing_of signing) row.items) }
    ensures some { IfOk result (λ filled. 0 < length filled.items) }
    ensures few { IfOk result (λ filled. length filled.items ≤ most_entries) }
{
    match signing {
        Some(how) => {
            let filled = filled_length(how, row.len());
            with_blanks(row, filled)
        }
        None => Ok(row),
    }
}

/// The number of entries that a row of `entries` entries has when its last signature is filled up, but at most the number that a row may have.
fn filled_length(how: Signing, entries: usize) -> usize
    requires sides { MayBeSewn how }
    requires some { 0 < entries }
    requires few { entries ≤ most_entries }
    ensures value { result ≡ filled (signing_of how) entries }
    ensures more { entries ≤ result }
    ensures few { result ≤ most_entries }
{
    let sides = how.sides(entries) as usize;
    (entries.div_ceil(sides) * sides).min(MOST_ENTRIES)
}

/// The row, with blanks inserted before its last entry so that it has `filled` entries.
fn with_blanks(row: Vec<Option<u32>>, filled: usize) -> Result<Vec<Option<u32>>, AllocError>
    requires some { 0 < length row.items }
    requires more { length row.items ≤ filled }
    ensures row { IfOk result (λ found. found.items ≡ before_last (filled - length row.items) row.items) }
    ensures count { IfOk result (λ found. length found.items ≡ filled) }
{
    let mut row = row;
    match row.pop() {
        Some(last) => {
            row.resize(filled - 1, None)?;
            row.push(last)?;
            Ok(row)
        }
        None => Ok(row),
    }
}
