//! The tokens of a worker.
use gather_table::Seat;
use handover::{Overflow, Pass};

/// The tokens with which a worker makes its calls: a seat for the table, and a pass for the queue.
#[derive(Drop)]
pub(crate) struct Tokens {
    pub(crate) seat: Seat,
    pub(crate) pass: Pass,
}

/// A worker's tokens, and the token of a page for which the shelf gave no receipt, if there was one.
#[derive(Drop)]
pub(crate) struct WorkerTokens<'d> {
    pub(crate) tokens: Tokens,
    pub(crate) unshelved: Option<Overflow<'d>>,
}
