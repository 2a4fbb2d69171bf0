//! The lines by which a sheet reports its paper.
ghost use Rattle.std.specs.Prelude.{◌≡◌, ◌++◌, OnOk, codes};
ghost use Rattle.rules.specs.Bytes.{line};
ghost use Rattle.rules.specs.Dress.{lines_text};
ghost use Rattle.papers.specs.Reported.{setting_line, sheet_lines, size_name, size_text};

use crate::rope::Rope;
use lengths::Paper;
use std::alloc::AllocError;

/// Appends the lines by which a sheet reports this paper: its `%%PageMedia:` line, then the PostScript code that sets the device's page size. The
/// code does nothing if `showpage` is disabled, or if the interpreter has no `setpagedevice`.
pub(crate) fn append_paper_report(paper: &Paper, text: &mut Rope<'_>) -> Result<(), AllocError>
    ensures { OnOk result (text.new ≡ text.old ++ lines_text (sheet_lines paper.now)) }
{
    append_medium(paper, text)?;
    text.append(b"/PStoPSenablepage where {pop PStoPSenablepage}\n")?;
    text.append(
        b"{userdict /showpage 2 copy known {get dup type /operatortype eq {pop true} {length 0 ne} ifelse} {pop pop true} ifelse} ifelse\n",
    )?;
    append_size_if_shown(paper, text)?;
    Ok(())
}

/// Appends the `%%PageMedia:` line, which names the paper by its two sides in points, such as `595x842`.
fn append_medium(paper: &Paper, text: &mut Rope<'_>) -> Result<(), AllocError>
    ensures { OnOk result (text.new ≡ text.old ++ line (codes "%%PageMedia: " ++ size_name paper.now)) }
{
    text.append(b"%%PageMedia: ")?;
    text.append_points(paper.width())?;
    text.append(b"x")?;
    text.append_points(paper.height())?;
    text.append(b"\n")?;
    Ok(())
}

/// Appends the line that sets the device's page size. The line takes from the stack the Boolean that the lines before it leave there. It sets the
/// size only if the Boolean is true and the interpreter has `setpagedevice`.
fn append_size_if_shown(paper: &Paper, text: &mut Rope<'_>) -> Result<(), AllocError>
    ensures { OnOk result (text.new ≡ text.old ++ line (setting_line paper.now)) }
{
    text.append(b"systemdict /setpagedevice known and {1 dict dup /PageSize [")?;
    append_page_size(paper, text)?;
    text.append(b"] put systemdict /setpagedevice get exec} if\n")?;
    Ok(())
}

/// Appends the width and the height of the paper, in points.
fn append_page_size(paper: &Paper, text: &mut Rope<'_>) -> Result<(), AllocError>
    ensures { OnOk result (text.new ≡ text.old ++ size_text paper.now) }
{
    text.append_points(paper.width())?;
    text.append(b" ")?;
    text.append_points(paper.height())?;
    Ok(())
}
