//! Requests of pstops, as lines of text.
use crate::answer::Answer;
use pstops_cli::{Request, read_command};

/// Prints the request that the words make, or the reason why they make none.
pub fn requested(out: &mut Answer, words: &[String]) {
    match read_command(out.alloc, words) {
        Ok(request) => show(out, &request),
        Err(fault) => out.line(format_args!("{fault:?}")),
    }
}

/// Prints the specification, the workers and the paper, and a line for each other option and each file that is given.
fn show(out: &mut Answer, request: &Request) {
    let options = &request.options;
    out.line(format_args!("spec '{}'", request.spec));
    let workers = options.workers;
    out.line(format_args!(
        "preparers {}, imposers {}",
        workers.preparers, workers.imposers
    ));
    let (width, height) = (options.paper.width().get(), options.paper.height().get());
    out.line(format_args!("paper {width} x {height}"));
    if let Some(width) = options.border {
        out.labelled("border", width.get());
    }
    if let Some(sides) = options.sides {
        out.labelled("sides", sides);
    }
    if request.quiet {
        out.text("quiet\n");
    }
    show_name(out, "infile", &request.infile);
    show_name(out, "outfile", &request.outfile);
}

fn show_name(out: &mut Answer, what: &str, name: &Option<String>) {
    if let Some(name) = name {
        out.line(format_args!("{what} '{name}'"));
    }
}
