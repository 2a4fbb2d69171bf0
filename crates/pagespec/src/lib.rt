//! Page specifications of pstops. A specification says which pages are on a sheet, in which order, and how they are turned, scaled and moved. If a
//! text isn't admissible, it is refused with a named error. A specification can be written in its canonical form.
#![tactic(auto)]

mod check;
mod error;
mod groups;
mod item;
pub mod laws;
mod parsed;
mod read;
mod scan;
mod settle;
mod spec;
mod write;

pub use error::SpecError;
pub use item::{Item, Measure, Turn};
pub use read::read_spec;
pub use spec::Spec;
pub use std::alloc::AllocError as NoMemory;
pub use write::write_spec;
