//! Worked examples of runs: made sheets, and threads that meet.
mod made_plans;
mod two_threads;
