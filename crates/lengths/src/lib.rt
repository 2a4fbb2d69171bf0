//! Exact numbers, lengths and papers. Numbers and lengths are read and printed in decimals.
#![tactic(auto)]

mod convert;
mod grains;
pub mod laws;
mod length;
mod named;
mod number;
mod paper;
mod print;
mod read;
mod unit;

pub use convert::to_grains;
pub use grains::Grains;
pub use length::length_named;
pub use named::{a4, paper_by_name};
pub use number::Number;
pub use paper::Paper;
pub use print::{print_grains, print_number, print_points, print_scale};
pub use read::{NumberError, read_digits, read_number};
pub use std::alloc::AllocError as NoMemory;
pub use unit::{Unit, unit_by_name};
