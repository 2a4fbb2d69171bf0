//! Prints the specification of a request, and a command line of pstops that places pages by this specification.
ghost use Rattle.std.specs.Prelude.{◌≡◌, ◌++◌, ◌<◌, ◌≤◌, ◌⊎◌, IfErr, IfOk, IfSome, OnOk, false, length, option_map};
ghost use Rattle.rules.specs.Choice.{sides_for};
ghost use Rattle.rules.specs.Run.{most_pages};
ghost use Rattle.rows.specs.Sewing.{MayBeSewn, signing_of};
ghost use Rattle.impose_messages.specs.Faults.{without_memory};
ghost use Rattle.impose_cli.specs.RowTasks.{HasOptions, IsLaidBy};
ghost use Rattle.impose_cli.specs.Printed.{IsPrintedFor, IsSpecText, RefusesPrinting, call_text, comment_text, printed_command, printed_text, quoted_spec, said_by, says_all};
ghost use Rattle.impose_messages.specs.declared.fault.ImposeFault.TheVariants as faults;

use crate::laying::{RowLaying, named_signing, row_asked};
use crate::row_task::{RowTask, row_task};
use command_words::{
    append_border_option, append_files, append_if, append_length, append_sides, begins_with_minus,
    name_of,
};
use guard::RoomyText;
use impose_messages::ImposeFault;
use impose_words::{ImposeRequest, Turning};
use lengths::Paper;
use pagespec::{Spec, Turn, write_spec};
use rows::Signing;
use std::alloc::{AllocError, Global};

/// The canonical text of the request's specification on one line, and a pstops command with it on the next line. The first fault of a run of the
/// request is reported, and then `NoSpecification` for a layout other than `spec`, chosen or turned pages, or another order.
pub fn spec_text(
    alloc: Global,
    request: &ImposeRequest,
    input: RoomyText,
) -> Result<Vec<u8>, ImposeFault>
    ensures text { IfOk result (λ text. IsSpecText request.now input.items text.items) }
    ensures refused { IfErr result (RefusesPrinting request.now input.items) }
{
    let (task, _) = row_task(alloc, request, input)?;
    let text = printed_task(alloc, request, &task)?;
    Ok(text)
}

/// The specification on one line, then a pstops command with it on the next line. A comment follows if the request asks for a guard, because pstops
/// inserts none.
fn printed_task(
    alloc: Global,
    request: &ImposeRequest,
    task: &RowTask,
) -> Result<Vec<u8>, ImposeFault>
    requires some { 0 < length task.now.papers.items }
    requires few { length task.now.papers.items ≤ most_pages }
    requires options { HasOptions request.now }
    requires laying { IsLaidBy request.now task.now.findings.page_paper task.now.laying }
    ensures printed { IfOk result (λ lines.
        IsPrintedFor request.now task.now.findings.page_paper (length task.now.papers.items) lines.items) }
    ensures refused { IfErr result (λ f.
        (f ≡ without_memory) ⊎ ((f ≡ faults.NoSpecification) × (says_all request.now ≡ false))) }
{
    match spec_said(request, &task.laying) {
        Some(spec) => {
            let specs = write_spec(alloc, spec)?;
            let sides = signature_sides(named_signing(&request.layout), task.papers.len());
            let paper = &task.findings.page_paper;
            let lines = printed_lines(alloc, request, specs.as_str(), paper, sides)?;
            Ok(lines)
        }
        None => Err(ImposeFault::NoSpecification),
    }
}

fn printed_lines(
    alloc: Global,
    request: &ImposeRequest,
    specs: &str,
    paper: &Paper,
    sides: Option<u32>,
) -> Result<Vec<u8>, AllocError>
    ensures { IfOk result (λ lines. lines.items ≡ printed_text request.now specs.now paper.now sides) }
{
    let mut out = Vec::new(alloc);
    append_spec(specs, &mut out)?;
    out.extend_from_slice(b"\n")?;
    append_command(request, specs, paper, sides, &mut out)?;
    out.extend_from_slice(b"\n")?;
    append_comment(request, &mut out)?;
    Ok(out)
}

/// The number of sides of each signature, for a row with this number of entries. `None` without signatures.
fn signature_sides(signing: Option<Signing>, entries: usize) -> Option<u32>
    requires sewn { IfSome signing MayBeSewn }
    requires some { 0 < entries }
    requires few { entries ≤ most_pages }
    ensures { result ≡ option_map (λ how. sides_for (signing_of how) entries) signing }
{
    match signing {
        Some(how) => Some(how.sides(entries)),
        None => None,
    }
}

/// The specification of a task, if it says all that the request asks for: all pages, in their order and unturned.
fn spec_said<'t>(request: &ImposeRequest, laying: &'t RowLaying) -> Option<&'t Spec>
    ensures { option_map (λ s. s.now) result ≡ said_by request.now laying.now }
{
    let is_said = row_asked(request).is_plain() && matches!(request.turn, Turning::All(Turn::None));
    match laying {
        RowLaying::Named { spec, .. } if is_said => Some(spec),
        _ => None,
    }
}

fn append_command(
    request: &ImposeRequest,
    specs: &str,
    paper: &Paper,
    sides: Option<u32>,
    out: &mut Vec<u8>,
) -> Result<(), AllocError>
    ensures { OnOk result (out.new.items ≡ out.old.items ++ printed_command request.now specs.now paper.now sides) }
{
    append_call(request, paper, sides, out)?;
    out.extend_from_slice(b" '")?;
    append_spec(specs, out)?;
    out.extend_from_slice(b"'")?;
    append_files(name_of(&request.infile), name_of(&request.outfile), out)
}

/// Appends the start of the pstops command line: `pstops` and its options.
fn append_call(
    request: &ImposeRequest,
    paper: &Paper,
    sides: Option<u32>,
    out: &mut Vec<u8>,
) -> Result<(), AllocError>
    ensures { OnOk result (out.new.items ≡ out.old.items ++ call_text request.now paper.now sides) }
{
    out.extend_from_slice(b"pstops")?;
    append_if(request.is_quiet, b" -q", out)?;
    append_sides(sides, out)?;
    out.extend_from_slice(b" -w ")?;
    append_length(paper.width(), out)?;
    out.extend_from_slice(b" -h ")?;
    append_length(paper.height(), out)?;
    append_border_option(request.border, out)
}

fn append_comment(request: &ImposeRequest, out: &mut Vec<u8>) -> Result<(), AllocError>
    ensures { OnOk result (out.new.items ≡ out.old.items ++ comment_text request.now) }
{
    append_if(request.is_guarded, GUARD_COMMENT, out)
}

const GUARD_COMMENT: &[u8] =
    b"# impose also puts its guard into the document, which pstops doesn't\n";

/// Appends a specification. It may be put inside a shell's single quotes, because none of its bytes has a meaning there. A specification that begins
/// with a minus sign gets the modulo 1, because pstops would otherwise take it for an option.
fn append_spec(spec: &str, out: &mut Vec<u8>) -> Result<(), AllocError>
    ensures { OnOk result (out.new.items ≡ out.old.items ++ quoted_spec spec.now) }
{
    append_if(begins_with_minus(spec), b"1:", out)?;
    out.extend_from_slice(spec.as_bytes())
}
