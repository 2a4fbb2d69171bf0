//! Reads the values of the options.
ghost use Rattle.std.specs.Prelude.{◌≡◌, option_map};
ghost use Rattle.pstops_cli.specs.Values as meaning;

use crate::command::CommandFault;
use command_words::border_named;
use imposer::{Options, Workers};
use lengths::{Paper, length_named, paper_by_name};

/// The options of a run with these values of `-p`, `-w`, `-h` and `-d`, this number of sides of a signature, and these numbers of threads. Without
/// `-p` the paper is a4. The error reports the first wrong value of `-p`, `-w`, `-h` and `-d`, in this order.
pub(crate) fn options_named(
    paper: Option<&str>,
    width: Option<&str>,
    height: Option<&str>,
    border: Option<&str>,
    signature: Option<u32>,
    workers: Workers,
) -> Result<Options, CommandFault>
    ensures { result ≡ meaning.options_named (option_map (λ s. s.now) paper.entry) (option_map (λ s. s.now) width.entry)
        (option_map (λ s. s.now) height.entry) (option_map (λ s. s.now) border.entry) signature workers }
{
    let named = paper_or_a4(paper).ok_or(CommandFault::UnknownPaper)?;
    let wide = with_width(named, width).ok_or(CommandFault::BadLength('w'))?;
    let paper = with_height(wide, height).ok_or(CommandFault::BadLength('h'))?;
    let border = border_named(&paper, border).ok_or(CommandFault::BadLength('d'))?;
    Ok(Options {
        paper,
        border,
        sides: signature,
        workers,
    })
}

fn paper_or_a4(name: Option<&str>) -> Option<Paper>
    ensures { result ≡ meaning.paper_or_a4 (option_map (λ s. s.now) name.entry) }
{
    paper_by_name(name.unwrap_or("a4"))
}

fn with_width(paper: Paper, width: Option<&str>) -> Option<Paper>
    ensures { result ≡ meaning.with_width paper (option_map (λ s. s.now) width.entry) }
{
    match width {
        None => Some(paper),
        Some(width) => Paper::new(length_named(&paper, width.as_bytes())?, paper.height()),
    }
}

fn with_height(paper: Paper, height: Option<&str>) -> Option<Paper>
    ensures { result ≡ meaning.with_height paper (option_map (λ s. s.now) height.entry) }
{
    match height {
        None => Some(paper),
        Some(height) => Paper::new(paper.width(), length_named(&paper, height.as_bytes())?),
    }
}
