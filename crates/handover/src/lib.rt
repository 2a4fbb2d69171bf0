//! Lets preparers hand their work to imposers: prepared pages on a shelf, and ready sheets in a queue.
#![tactic(auto)]

mod entry;
pub mod laws;
mod pass;
mod prepared;
mod ready;
mod receipts;
mod room;
mod rule;
mod shelf;
mod steps;

pub use crate::pass::Pass;
pub use crate::prepared::Prepared;
pub use crate::ready::{Full, Ready};
pub use crate::receipts::{Overflow, PutError, Receipt};
pub use crate::shelf::{Shelf, Shelved};
pub use std::alloc::AllocError as NoMemory;
