//! Makes sheets that have one entry of a row each.
ghost use Rattle.std.specs.Prelude.{◌≡◌, ◌++◌, ◌∷◌, [], IfOk, OnOk};
ghost use Rattle.pagespec.specs.Items.{item_of};
ghost use Rattle.row_sheets.specs.RowSheets.{as_it_is as item_as_it_is, paper_of, selected, selected_sheet};

use lengths::{Number, Paper};
use pagespec::{Item, Measure, Turn};
use sheet_plan::{MadeSheets, MadeSlot};
use std::alloc::{AllocError, Global};

/// The sheets on which each page of a row is left as it is, on its own paper. Blanks, and pages whose papers aren't in `papers`, have sheets of the
/// paper `blank`. Fails only if memory is refused.
pub fn select(
    alloc: Global,
    row: &[Option<u32>],
    papers: &[Paper],
    blank: &Paper,
) -> Result<MadeSheets, AllocError>
    ensures { IfOk result (λ made. made ≡ selected papers.now blank.now row.now) }
{
    let mut made = MadeSheets::with_room(alloc, row.len(), row.len())?;
    for entry in row {
        push_entry(&mut made, *entry, papers, blank)?;
    }
    Ok(made)
}

/// Adds a sheet that has this entry.
fn push_entry(
    made: &mut MadeSheets,
    entry: Option<u32>,
    papers: &[Paper],
    blank: &Paper,
) -> Result<(), AllocError>
    ensures { OnOk result (made.new ≡ made.old ++ selected_sheet papers.now blank.now entry ∷ []) }
{
    match entry {
        Some(page) => {
            let paper = paper_or(papers, page, blank);
            let slot = MadeSlot::Placed {
                page,
                item: as_it_is(),
                paper,
            };
            made.push(&paper, [slot].as_slice())?;
            Ok(())
        }
        None => {
            made.push(blank, [MadeSlot::Blank].as_slice())?;
            Ok(())
        }
    }
}

/// The paper of a page, or `other` if `papers` has no entry for the page.
pub(crate) fn paper_or(papers: &[Paper], page: u32, other: &Paper) -> Paper
    ensures { result ≡ paper_of papers.now other.now page }
{
    *papers.get(page as usize).unwrap_or(other)
}

/// The item that leaves a page as it is.
fn as_it_is() -> Item
    ensures { item_of result ≡ item_as_it_is }
{
    Item {
        page: 0,
        from_end: false,
        turn: Turn::None,
        scale: Number::ONE,
        offset: (Measure::ZERO, Measure::ZERO),
    }
}
