//! Calls of the library of the command pstops: faults, inputs that fail, and runs over files in memory.
use crate::answer::Answer;
use crate::programs::in_folder::{asked_for, pstops_in_folder};
use crate::programs::made_faults::fault_named;
use crate::words::{count, count_in, word};
use impose_cli::ImposeFault;
use imposer::{MemorySink, RunError};
use pstops_cli::{
    CommandFault, Fault, ReadFault, ReadSource, Rest, fault_line, read_command, read_input,
    run_request,
};
use std::io;
use std::io::{ErrorKind, Read};
use std::sync::Wait;
use std::thread::Threads;
use test_tools::{GivenFile, ONE_PAGE, Takes, document_of};

/// Prints the exit status and the message for the fault that the first word names. `None` if it names none.
pub fn reported(out: &mut Answer, words: &[String]) -> Option<()> {
    let fault = pstops_fault_named(word(words, 0)?)?;
    match fault_line(out.alloc, &fault) {
        Ok((status, line)) => {
            out.labelled("status", status);
            out.lossy(line.as_slice());
        }
        Err(_) => out.note(false),
    }
    Some(())
}

/// The fault of pstops with this name, or `None` if none of its faults has the name.
fn pstops_fault_named(name: &str) -> Option<Fault> {
    match name {
        "Command.NoMemory" => Some(Fault::Command(CommandFault::NoMemory)),
        "Read.NoMemory" => Some(Fault::Read(ReadFault::NoMemory)),
        "Options" => Some(Fault::Run(RunError::Options)),
        name => match fault_named(name)? {
            ImposeFault::Run(error) => Some(Fault::Run(error)),
            _ => None,
        },
    }
}

/// Prints the number of bytes that are read from an input with this length, and whether they are the bytes of the input. If the input can't be read,
/// prints the fault.
pub fn long_input(out: &mut Answer, len: u32) {
    let Ok(long) = vec![in out.alloc; b'%'; len as usize] else {
        return out.note(false);
    };
    let mut source = ReadSource::new(long.as_slice());
    match read_input(out.alloc, &mut source) {
        Ok(input) => {
            out.labelled("bytes", input.len());
            out.verdict(input.as_slice() == long.as_slice());
        }
        Err(fault) => out.line(format_args!("{fault:?}")),
    }
}

/// A reader of a document with one page. It gives at most seven bytes per call, fails at call number `fails_at`, counted from 1, and counts its
/// calls.
#[derive(Drop)]
struct Failing {
    rest: &'static [u8],
    fails_at: u32,
    cause: ErrorKind,
    calls: u32,
}

impl Read for Failing {
    fn read(&mut self, buffer: &mut [u8]) -> io::Result<usize> {
        self.calls = self.calls.saturating_add(1);
        if self.calls == self.fails_at {
            return Err(io::Error::from(self.cause));
        }
        let (mut piece, _) = self.rest.split_at(self.rest.len().min(7));
        let count = piece.read(buffer)?;
        let (_, rest) = self.rest.split_at(count.min(self.rest.len()));
        self.rest = rest;
        Ok(count)
    }
}

/// Prints the bytes that are read from a `Failing` reader, or the fault, and the number of the reader's calls. With `is_interrupted`, the failing
/// call reports an interruption.
pub fn failing_input(out: &mut Answer, fails_at: u32, is_interrupted: bool) {
    let cause = if is_interrupted {
        ErrorKind::Interrupted
    } else {
        ErrorKind::Other
    };
    let mut reader = Failing {
        rest: ONE_PAGE.as_bytes(),
        fails_at,
        cause,
        calls: 0,
    };
    let mut source = ReadSource::new(&mut reader);
    let answer = read_input(out.alloc, &mut source);
    drop(source);
    match answer {
        Ok(input) => out.lossy(input.as_slice()),
        Err(fault) => out.line(format_args!("{fault:?}")),
    }
    out.labelled("calls", reader.calls);
}

/// The behaviour of an output that this word names.
pub fn behaviour(word: &str) -> Option<Takes> {
    Some(match word {
        "all" => Takes::Bytes(100_000),
        "held" => Takes::Held,
        "unflushed" => Takes::NoFlush,
        "nothing" => Takes::Nothing,
        most => Takes::Pieces(count_in(most)? as usize),
    })
}

/// Prints the outcome of running pstops with these words over a document with one page in the file `in.ps`: exit status, message, and output. If no
/// output was created, prints the requests that the folder received. The first word says how the output behaves: `all`, `held`, `unflushed`,
/// `nothing`, or the number of bytes that the output takes per call. `None` if this word isn't understood. The further words are those of pstops.
pub fn ran<R: Threads + Wait + Sync>(rt: &R, out: &mut Answer, words: &[String]) -> Option<()> {
    let (takes, words) = words.split_first()?;
    let takes = behaviour(takes)?;
    let files = [GivenFile {
        name: "in.ps",
        bytes: ONE_PAGE.as_bytes(),
        is_regular: true,
    }];
    let ended = pstops_in_folder(rt, out.alloc, words, &files, takes);
    out.labelled("status", ended.status);
    // The message is missing only if memory runs out for it.
    out.note(ended.status == 0 || !ended.line.is_empty());
    out.lossy(ended.line.as_slice());
    match &ended.rest {
        Rest::World(folder) => asked_for(out, folder),
        Rest::Output(output) => out.lossy(output.writer.arrived()),
    }
    Some(())
}

/// Prints the outcome of running a request of pstops over a document, with the output in memory: exit status, message, and the bytes written. The
/// first two words are the number of pages, and the number of bytes for which the output has room. `None` if they aren't numbers. The further words
/// are those of pstops.
pub fn request_ran<R: Threads + Wait + Sync>(
    rt: &R,
    out: &mut Answer,
    words: &[String],
) -> Option<()> {
    let (pages, room) = (count(words, 0)?, count(words, 1)?);
    let [_, _, words @ ..] = words else {
        return None;
    };
    let alloc = out.alloc;
    let (Ok(text), Ok(request)) = (document_of(alloc, pages), read_command(alloc, words)) else {
        out.note(false);
        return Some(());
    };
    let Ok(mut sink) = MemorySink::new(alloc, room as usize, 1_000, 1_000) else {
        out.note(false);
        return Some(());
    };
    let (status, line) = run_request(rt, alloc, &request, text.as_bytes(), &mut sink);
    out.labelled("status", status);
    // The message is missing only if memory runs out for it.
    out.note(status != 3 || !line.is_empty());
    out.lossy(line.as_slice());
    out.lossy(sink.bytes());
    Some(())
}
