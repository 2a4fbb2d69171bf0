//! Tests of calls, runs and gatherings in which each growth of memory is refused in turn. A call that needs this memory must report that memory ran
//! out, and must leave all objects unchanged. The output must be the first bytes of the whole output. `callers::gatherers` makes the same tests of a
//! gatherer.
//!
//! If these tests run on their own, no growth is refused, and each answer is compared once. `checks/refused-calls` runs them with a library that
//! refuses growths.
mod joined_texts;
mod runs;
mod tables;

/// The number of trials in a row, up to and including the latest, in which no growth was refused. `unrefused` is this number before the latest trial.
pub(super) fn unrefused_after(unrefused: u32, is_refused: bool) -> u32 {
    if is_refused {
        0
    } else {
        unrefused.saturating_add(1)
    }
}
