//! Finds the papers that a document and its pages name, makes nearly equal papers equal, and finds the pages that reach
//! beyond their papers.
#![tactic(auto)]

mod boxes;
mod comments;
mod cuts;
mod fields;
mod finding;
mod kinds;
mod known_media;
pub mod laws;
mod media;
mod page_heads;
mod reach;
mod setup;
mod two_papers;

pub use boxes::{Edges, paper_of_box};
pub use comments::{continuation, first_comment};
pub use cuts::{Cut, cut_by};
pub use finding::page_papers;
pub use kinds::{first_instead_of, merge_near_sizes};
pub use media::{Comment, document_paper, is_at_end, media_paper};
pub use page_heads::first_name;
pub use paper_names::{PaperError, default_paper, name_list, paper_by_name, read_paper};
pub use reach::{PlacedPages, Reach, reach_beyond};
pub use two_papers::smallest_cover;
