//! Runs of pstops over files in memory. Contracts can state the bytes of these files.
ghost use Rattle.std.specs.Prelude.{◌≡◌, ◌<◌, map, string_bytes};
ghost use Rattle.test_libraries.specs.InMemory.{HasWritten};

use crate::answer::Answer;
use pstops_cli::{ExitReport, pstops};
use std::alloc::Global;
use std::sync::Wait;
use std::thread::Threads;
use test_tools::{Folder, GivenFile, Takes};

/// Runs pstops over these files. The status is 0 only if one output was written: under the name that the words give, and with exactly the bytes that
/// the contract defines for the words and the input.
pub fn pstops_in_folder<'a, R: Threads + Wait + Sync>(
    rt: &R,
    alloc: Global,
    words: &[String],
    files: &'a [GivenFile<'a>],
    takes: Takes,
) -> ExitReport<Folder<'a>>
    ensures { result.status ≡ 0 → HasWritten (map string_bytes words.now) files.now result.rest }
{
    pstops(rt, alloc, words, Folder::new(alloc, files, takes))
}

/// Prints the requests that a folder has received, in order, and the number of its failures.
pub fn asked_for(out: &mut Answer, folder: &Folder<'_>) {
    let Some(all) = &folder.trace().all else {
        return out.note(false);
    };
    for asked in all.iter() {
        let label = if asked.creates { "creates" } else { "opens" };
        match &asked.name {
            Some(name) => out.labelled(label, name),
            None => out.labelled(label, "-"),
        }
    }
    out.labelled("failures", folder.failures());
}
