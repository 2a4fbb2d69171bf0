//! Laws of the pictures that a PostScript machine with further operators paints on the sheets that impose writes. Two
//! laws are about the sheets of real documents. This crate has only definitions and laws.
#![tactic(auto)]

pub mod laws;
