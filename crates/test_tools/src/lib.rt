//! Tools for the tests of several crates: documents of small pages, their sheets, specifications, a world of files in memory, and calls by which a
//! test has each growth of memory refused in turn.
#![tactic(auto)]

mod documents;
mod files;
mod folder;
mod growth;
mod in_memory;
mod sheets;
mod specifications;
mod trace;

pub use documents::{ONE_PAGE, TWO_PAGES, document_of};
pub use files::GivenFile;
pub use folder::Folder;
pub use growth::{MOST_GROWTHS, Refused, has_refused, refuse, refuse_each};
pub use in_memory::{Takes, Written};
pub use sheets::{one_up_output, two_up_output, two_up_sheets};
pub use specifications::{BOOKLET, TWO_UP, same_items};
pub use trace::{Asked, Trace};
