//! The pages of a document that a request imposes.
ghost use Rattle.std.specs.Prelude.{◌≡◌, ℕ, ◌+◌, ◌<◌, ◌≤◌, ◌==◌, ◌||◌, if◌then◌else◌, IfOk, OnOk, None, length, get_or, false};
ghost use Rattle.std.specs.Prelude.{[], ◌++◌, option_and_then, slice_get};
ghost use Rattle.rules.specs.Choice.{imposed_row as row_of, most_entries};
ghost use Rattle.impose_words.specs.Choices.{choice_in};
ghost use Rattle.impose_cli.specs.RowTasks.{or_without, row_papers, taken_from};
ghost use Rattle.impose_cli.specs.Taken.{is_entry_of, row_or_none, taken_below, takes};

use impose_words::PageChoice;
use lengths::Paper;
use rows::{RowError, imposed_row};
use std::alloc::{AllocError, Global};

/// The row of pages that a choice gives, before it is put into signatures. The row is empty if the choice gives none; the run reports the reason.
pub(crate) fn row_of_choice(
    alloc: Global,
    pages: u32,
    choice: &PageChoice,
) -> Result<Vec<Option<u32>>, AllocError>
    requires { pages ≤ most_entries }
    ensures { IfOk result (λ row. row.items ≡ row_or_none (row_of pages (choice_in choice.now) None)) }
{
    match imposed_row(alloc, pages, &choice.as_choice(), None) {
        Ok(row) => Ok(row),
        Err(RowError::NoMemory) => Err(AllocError),
        Err(_) => Ok(Vec::new(alloc)),
    }
}

/// The number of different pages in a row, for a document of `pages` pages.
pub(crate) fn taken_count(alloc: Global, row: &[Option<u32>], pages: u32) -> Result<u32, AllocError>
    ensures { IfOk result (λ count. count ≡ taken_below row.now pages) }
{
    let taken = pages_taken(alloc, row, pages as usize)?;
    let mut count = 0;
    for page in 0..pages {
        if taken[page as usize] {
            count += 1;
        }
    }
    Ok(count)
}

/// The papers of the pages in a row, in the order of the row. Blanks, and pages that `own` doesn't have, are left out. `own` has the papers of all
/// pages of the document.
pub(crate) fn papers_on_row(
    alloc: Global,
    row: &[Option<u32>],
    own: &[Paper],
) -> Result<Vec<Paper>, AllocError>
    ensures { IfOk result (λ papers. papers.items ≡ row_papers row.now own.now) }
{
    let mut papers = Vec::new(alloc);
    for entry in row {
        push_paper(&mut papers, own, entry)?;
    }
    Ok(papers)
}

/// Appends the paper of an entry's page, unless the entry is blank or `own` doesn't have the page.
fn push_paper(papers: &mut Vec<Paper>, own: &[Paper], entry: &Option<u32>) -> Result<(), AllocError>
    ensures { OnOk result (papers.new.items
        ≡ papers.old.items ++ or_without (option_and_then (slice_get own.now) entry.now) []) }
{
    if let Some(paper) = paper_of_entry(own, *entry) {
        papers.push(paper)?;
    }
    Ok(())
}

fn paper_of_entry(own: &[Paper], entry: Option<u32>) -> Option<Paper>
    ensures { result ≡ option_and_then (slice_get own.now) entry }
{
    own.get(entry? as usize).copied()
}

/// The papers `own` of a document's pages, where `other` replaces the paper of each page that isn't in the row.
pub(crate) fn papers_taken(
    alloc: Global,
    row: &[Option<u32>],
    own: &[Paper],
    other: &Paper,
) -> Result<Vec<Paper>, AllocError>
    ensures { IfOk result (λ papers. papers.items ≡ taken_from row.now other.now 0 own.now) }
{
    let taken = pages_taken(alloc, row, own.len())?;
    let mut papers = Vec::new(alloc);
    for (page, paper) in own.iter().enumerate() {
        let shown = if taken[page] { paper } else { other };
        papers.push(*shown)?;
    }
    Ok(papers)
}

/// For each page of a document of `pages` pages, whether the page is in the row.
pub(crate) fn pages_taken(
    alloc: Global,
    row: &[Option<u32>],
    pages: usize,
) -> Result<Vec<bool>, AllocError>
    ensures len { IfOk result (λ taken. length taken.items ≡ pages) }
    ensures each { IfOk result (λ taken. (k : ℕ) → k < pages → get_or taken.items k false ≡ takes row.now k) }
{
    let mut taken = Vec::new(alloc);
    taken.resize(pages, false)?;
    for entry in row {
        mark_entry(&mut taken, entry);
    }
    Ok(taken)
}

fn mark_entry(taken: &mut Vec<bool>, entry: &Option<u32>)
    ensures len { length taken.new.items ≡ length taken.old.items }
    ensures each { (k : ℕ) → k < length taken.old.items
        → get_or taken.new.items k false ≡ (is_entry_of entry.now k || get_or taken.old.items k false) }
{
    if let Some(page) = entry {
        let page = *page as usize;
        if page < taken.len() {
            taken[page] = true;
        }
    }
}
