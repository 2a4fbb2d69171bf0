//! The placement of a page on its sheet: the matrix that puts the page there, and the texts before and after the page.
#![tactic(auto)]

pub mod laws;
mod matrix;
mod place;
mod texts;

pub use matrix::Matrix;
pub use place::matrix_of;
pub use std::alloc::AllocError as NoMemory;
pub use texts::{closing_text, matrix_text, opening_text, opening_within};
