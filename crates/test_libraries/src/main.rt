//! Calls the library function that the words of the command line name, such as `paper_by_name a4`, and prints the answer. A word that names a file
//! stands for the document in that file. Without words, the program prints nothing.
#![tactic(auto)]

mod answer;
mod documents;
mod programs;
mod refusals;
mod specifications;
mod words;

use crate::refusals::answer_of;
use crate::words::documents_of;
use std::env;
use std::io::Write;

fn main(rt: HostRuntime) -> anyhow::Result<()> {
    documents::call_laws();
    let words: Vec<String> = env::args(&rt)?.collect(rt.alloc())?;
    let [_, words @ ..] = words.as_slice() else {
        return Ok(());
    };
    if words.is_empty() {
        return Ok(());
    }
    let documents = documents_of(&rt, rt.alloc(), words)?;
    match answer_of(&rt, rt.alloc(), words, documents.as_slice()) {
        Some(answer) => rt.stdout().write_all(answer.as_slice())?,
        None => println!(rt; "no such command, or no memory")?,
    }
    Ok(())
}
