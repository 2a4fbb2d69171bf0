//! Messages about first arguments that aren't numbers of pages or grids.
use crate::wordings::Wording;
use crate::words::looks_like_file;
use impose_words::CellCommand;
use std::alloc::{AllocError, Global};

/// The wording about a refused text in the place of a command's number of pages or grid. If the text looks like a file, the message says that the
/// number or grid is missing before it.
pub(crate) fn cells_wording(
    alloc: Global,
    command: CellCommand,
    text: &str,
) -> Result<Wording, AllocError> {
    let (name, example) = command_with_example(command);
    if looks_like_file(text) {
        let (before, what) = missing_cells(command);
        let after = format!(in alloc;
            "': {what} after {name}, as in: impose {name} {example} in.ps out.ps"
        )?;
        return Wording::new(alloc, before, after);
    }
    if text == "help" {
        let after = format!(in alloc;
            "' is no number of pages: the help is printed by: impose {name} --help"
        )?;
        return Wording::new(alloc, "'", after);
    }
    let (what, advice) = bad_cells(command, text.contains("x"));
    Ok(Wording {
        before: format!(in alloc; "{what} '")?,
        after: format!(in alloc; "' after {name}: give {advice}")?,
    })
}

/// The name of a command, and an example of its first argument.
fn command_with_example(command: CellCommand) -> (&'static str, &'static str) {
    match command {
        CellCommand::NUp => ("nup", "2"),
        CellCommand::Cards => ("cards", "8"),
        CellCommand::Stack => ("stack", "2"),
        CellCommand::Notes => ("notes", "3"),
        CellCommand::Poster => ("poster", "2x2"),
    }
}

/// The beginning of the message about a missing first argument, and the words that it belongs after the command.
fn missing_cells(command: CellCommand) -> (&'static str, &'static str) {
    match command {
        CellCommand::Poster => (
            "columns and rows of sheets, or a size, are missing before '",
            "they come",
        ),
        CellCommand::NUp | CellCommand::Cards | CellCommand::Stack | CellCommand::Notes => (
            "the number of pages is missing before '",
            "it comes",
        ),
    }
}

/// The words by which the message calls a refused argument of this command, and the message's advice on what to give. `is_grid` says whether the
/// argument looks like columns and rows.
fn bad_cells(command: CellCommand, is_grid: bool) -> (&'static str, &'static str) {
    match command {
        CellCommand::Notes => ("bad number of pages", "one from 1 to 512, as 3"),
        CellCommand::Poster => (
            "bad size",
            "columns and rows of sheets as 2x3, at most 1024 in all, auto, or a size as a2, 60x90cm or 200%",
        ),
        CellCommand::NUp | CellCommand::Cards | CellCommand::Stack if is_grid => (
            "bad grid",
            "columns and rows as 2x4, at most 1024 cells in all",
        ),
        CellCommand::NUp | CellCommand::Cards | CellCommand::Stack => (
            "bad number of pages",
            "one from 1 to 1024, or columns and rows as 2x4",
        ),
    }
}
