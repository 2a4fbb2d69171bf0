//! The messages of impose about faults.
use crate::answer::Answer;
use crate::programs::made_faults::fault_named;
use crate::words::word;
use impose_cli::{fault_status, read_command, text_of_fault};

/// Prints the exit status and the message for the fault that the first word names, as if all the words were the command line. `None` if that word
/// names no fault, or if the words make no request.
pub fn reported(out: &mut Answer, words: &[String]) -> Option<()> {
    let name = word(words, 0)?;
    let fault = fault_named(name)?;
    let request = read_command(out.alloc, words).ok()?;
    out.labelled("status", fault_status(&fault));
    let said = text_of_fault(out.alloc, &fault, Some(&request), words);
    // A closed pipe has no message. Any other message is missing only if memory runs out for it.
    out.note(!said.is_empty() || name.starts_with("Write.BrokenPipe"));
    out.add_bytes(said.as_slice());
    Some(())
}
