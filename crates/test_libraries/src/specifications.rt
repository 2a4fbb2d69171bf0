//! Commands about specifications, from numbers and lengths to the sheets that they make.
mod filled;
mod law_trials;
mod matrices;
mod measures;
mod outlines;
mod placed;
mod planned;
mod printed;
mod specifications;

use crate::answer::Answer;

/// Runs a command. `None` if no command has this name, or its words aren't understood.
pub fn run(out: &mut Answer, words: &[String]) -> Option<()> {
    let is_command = measures::run(out, words).is_some()
        || specifications::run(out, words).is_some()
        || planned::run(out, words).is_some()
        || matrices::run(out, words).is_some()
        || outlines::run(out, words).is_some()
        || filled::run(out, words).is_some()
        || printed::run(out, words).is_some()
        || law_trials::run(out, words).is_some();
    if is_command { Some(()) } else { None }
}
