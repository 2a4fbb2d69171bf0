//! The `pstops` program: reads a PostScript document and writes its imposed sheets. The command line may name the input file and the output file.
//! Without these names, the program reads standard input and writes standard output.
#![tactic(auto)]

use pstops_cli::{CommandFault, Fault, fault_line, pstops};
use std::env;
use std::env::Env;
use std::io::ErrorKind;
use std::process::ExitCode;
use world::{Host, report_line};

fn main(rt: HostRuntime) -> ExitCode {
    let alloc = rt.alloc();
    let (status, line) = match words(&rt) {
        Ok(words) => {
            let world = Host::new(&rt, rt.stdin(), rt.stdout(), rt.stderr());
            let ended = pstops(&rt, alloc, after_name(words.as_slice()), world);
            (ended.status, ended.line)
        }
        Err(fault) => match fault_line(alloc, &Fault::Command(fault)) {
            Ok(ending) => ending,
            // There was no memory even for the line.
            Err(_) => (3, Vec::new(alloc)),
        },
    };
    ExitCode::from(report_line(&mut rt.stderr(), line.as_slice(), status))
}

// The words of the command line, of which the first is the program's name. Words that aren't UTF-8 text are refused as a wrong command line.
fn words(rt: &(impl Env + AllocGlobal)) -> Result<Vec<String>, CommandFault> {
    match env::args(rt) {
        Ok(args) => Ok(args.collect(rt.alloc())?),
        Err(error) if error.kind() == ErrorKind::OutOfMemory => Err(CommandFault::NoMemory),
        Err(_) => Err(CommandFault::BadWords),
    }
}

fn after_name(words: &[String]) -> &[String] {
    match words {
        [_, rest @ ..] => rest,
        [] => words,
    }
}
