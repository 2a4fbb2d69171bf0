//! Commands that call the libraries of the programs.
mod faults;
mod in_folder;
mod in_memory;
mod made_faults;
mod pstops_calls;
mod requests;

use crate::answer::Answer;
use crate::words::{Document, count, text_of, word};
use std::sync::Wait;
use std::thread::Threads;

/// Runs a command. `None` if no command has this name, or its words aren't understood.
pub fn run<R: Threads + Wait + Sync>(
    rt: &R,
    out: &mut Answer,
    words: &[String],
    documents: &[Document],
) -> Option<()> {
    let (command, more) = words.split_first()?;
    match command.as_str() {
        "fault" => return faults::reported(out, more),
        "pstops_fault" => return pstops_calls::reported(out, more),
        "pstops" => return pstops_calls::ran(rt, out, more),
        "run_request" => return pstops_calls::request_ran(rt, out, more),
        "long_input" => pstops_calls::long_input(out, count(more, 0)?),
        "failing_input" => {
            pstops_calls::failing_input(out, count(more, 0)?, word(more, 1).is_some());
        }
        "read_command" => requests::requested(out, more),
        "at_home" => {
            let (paper_size, home) = (word(more, 0)?, text_of(documents, more, 1)?);
            in_memory::at_home(rt, out, paper_size, home, word(more, 2).is_none());
        }
        "unflushed" => in_memory::unflushed(rt, out),
        "planned" => in_memory::planned(rt, out, pstops_calls::behaviour(word(more, 0)?)?),
        "uncreated" => in_memory::uncreated(rt, out),
        "unread" => in_memory::unread(rt, out),
        "on_terminal" => in_memory::on_terminal(rt, out),
        _ => return None,
    }
    Some(())
}
