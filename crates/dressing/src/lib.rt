//! The lines that sheets have besides their pages. They report papers, draw marks for folding and cutting, draw lines for notes, and draw page
//! numbers.
#![tactic(auto)]

mod dress;
pub mod laws;
mod lines;
mod numbers;
mod paper_lines;
mod reported;
mod ruled;
mod strokes;

pub use dress::dress_of;
pub use lines::mark_lines;
pub use numbers::Numbering;
pub use reported::reported_papers;
pub use ruled::note_lines;
pub use strokes::{Marks, Stroke, cut_marks, fold_marks, outer_cut_marks, tile_marks};
