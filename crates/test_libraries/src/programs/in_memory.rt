//! Runs of impose over files in memory.
ghost use Rattle.std.specs.Prelude.{◌≡◌};

use crate::answer::Answer;
use crate::programs::in_folder::asked_for;
use impose_cli::{Done, Rest, empty_report, impose, text_said};
use std::alloc::{AllocError, Global};
use std::sync::Wait;
use std::thread::Threads;
use test_tools::{Folder, GivenFile, Takes, Written};
use world::{World, WriteOutput};

/// A document that has one page and names no paper.
const PAGE: GivenFile<'static> = GivenFile {
    name: "in.ps",
    bytes: b"%!PS-Adobe-3.0\n%%EndComments\n%%Page: 1 1\n(0) pop\nshowpage\n%%EOF\n",
    is_regular: true,
};

/// A command line for a page on a sheet of its own, in a file.
const TO_FILE: &[&str] = &["impose", "nup", "1", "in.ps", "out.ps"];

/// Prints the report of impose for this value of `PAPERSIZE` and this text of `/etc/papersize`. `is_regular` says whether this file is a regular one.
pub fn at_home<R: Threads + Wait + Sync>(
    rt: &R,
    out: &mut Answer,
    paper_size: &str,
    home: &[u8],
    is_regular: bool,
) {
    let home = GivenFile {
        name: "/etc/papersize",
        bytes: home,
        is_regular,
    };
    let files = [PAGE, home];
    let world = Folder::new(out.alloc, &files, Takes::Bytes(10_000));
    report(rt, out, paper_size, TO_FILE, world);
}

/// Prints the message of impose about an output that takes all bytes, but can't be flushed.
pub fn unflushed<R: Threads + Wait + Sync>(rt: &R, out: &mut Answer) {
    let world = Folder::new(out.alloc, &[PAGE], Takes::NoFlush);
    report(rt, out, "", TO_FILE, world);
}

/// Prints the list of sheets that reaches an output with this behaviour, and the message of impose if the list can't be written.
pub fn planned<R: Threads + Wait + Sync>(rt: &R, out: &mut Answer, takes: Takes) {
    let world = Folder::new(out.alloc, &[PAGE], takes);
    let words = &["impose", "nup", "1", "--plan", "in.ps"];
    if let Some(Rest::Output(output)) = said_of(rt, out, "", words, world) {
        out.lossy(output.writer.arrived());
    }
}

/// Prints the message of impose about an output that can't be created, and the requests that the folder has received.
pub fn uncreated<R: Threads + Wait + Sync>(rt: &R, out: &mut Answer) {
    let world = Folder::new(out.alloc, &[PAGE], Takes::Nothing);
    report(rt, out, "", TO_FILE, world);
}

/// Prints the message of impose about an input that doesn't exist, and the requests that the folder has received.
pub fn unread<R: Threads + Wait + Sync>(rt: &R, out: &mut Answer) {
    let world = Folder::new(out.alloc, &[], Takes::Bytes(10_000));
    report(rt, out, "", TO_FILE, world);
}

/// Prints the message of impose about sheets for a terminal, and the requests that the folder has received.
pub fn on_terminal<R: Threads + Wait + Sync>(rt: &R, out: &mut Answer) {
    let world = Folder::new(out.alloc, &[PAGE], Takes::Bytes(10_000)).at_terminal();
    report(rt, out, "", &["impose", "nup", "1", "in.ps"], world);
}

/// Prints the report of impose with these words, or its message about a fault. If no output was created, also prints the requests that the folder has
/// received.
fn report<'w, R: Threads + Wait + Sync>(
    rt: &R,
    out: &mut Answer,
    paper_size: &str,
    words: &[&str],
    world: Folder<'w>,
)
    requires fresh { (⟦<Folder<'w> as World>⟧.seen world).failures ≡ 0 }
{
    if let Some(Rest::World(folder)) = said_of(rt, out, paper_size, words, world) {
        asked_for(out, &folder);
    }
}

/// Prints the report of impose with these words, or its message about a fault. Returns the output, or the folder if no output was created. None if
/// memory runs out before impose runs.
fn said_of<'w, R: Threads + Wait + Sync>(
    rt: &R,
    out: &mut Answer,
    paper_size: &str,
    words: &[&str],
    world: Folder<'w>,
) -> Option<Rest<Folder<'w>, WriteOutput<Written>>>
    requires fresh { (⟦<Folder<'w> as World>⟧.seen world).failures ≡ 0 }
{
    let alloc = out.alloc;
    let (Ok(words), Ok(report)) = (owned(alloc, words), empty_report(alloc)) else {
        out.note(false);
        return None;
    };
    let ended = impose(rt, alloc, words.as_slice(), paper_size.as_bytes(), world);
    let said = text_said(
        alloc,
        report,
        &ended.outcome,
        ended.request.as_ref(),
        paper_size.as_bytes(),
        words.as_slice(),
    );
    // A list of sheets has no report. The message about a fault is missing only if memory runs out for it.
    out.note(matches!(ended.outcome, Ok(Done::Shown)) || !said.is_empty());
    out.add_bytes(said.as_slice());
    Some(ended.rest)
}

fn owned(alloc: Global, words: &[&str]) -> Result<Vec<String>, AllocError> {
    let mut own = Vec::new(alloc);
    for word in words.iter() {
        own.push(String::from_str(alloc, word)?)?;
    }
    Ok(own)
}
