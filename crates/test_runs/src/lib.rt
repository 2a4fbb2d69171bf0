//! Tests of whole runs and gatherings: threads that wait for each other, sinks that fail, sheets that wait for their turn, and growths of memory that
//! are refused. This crate has only tests.
#![tactic(auto)]

#[cfg(test)]
mod tests;
