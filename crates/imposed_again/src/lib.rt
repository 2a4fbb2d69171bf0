//! Proves that the output of a run is itself a document, so that the output of one run can be the input of another. The
//! proof needs laws about the units of joined texts. This crate has only definitions, laws and lemmas.
#![tactic(auto)]

pub mod laws;
