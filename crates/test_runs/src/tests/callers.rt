//! Tests of the public functions of tables, shelves, queues and runs. Each function is imported from the crate that offers it, as any other crate
//! imports it. The cases of `test_libraries` test lower crates in the same way, and the cases of `pstops` test the command.
pub(crate) mod gatherer;
mod gatherers;
mod runs;
mod seats;
pub(crate) mod stories;
pub(crate) mod tables;
