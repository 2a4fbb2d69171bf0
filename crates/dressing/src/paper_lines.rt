//! Header lines that report papers.
ghost use Rattle.std.specs.Prelude.{◌≡◌, ◌++◌, ◌∷◌, [], codes, fold, map, nat_abs, IfOk, IsTrue, OnOk, ◌≤◌, ◌*◌, ◌^◌};
ghost use Rattle.papers.specs.Own.{smallest_cover as covering_paper};
ghost use Rattle.rules.specs.Numbers.{points_text};
ghost use Rattle.rules.specs.Papers.{is_side};
ghost use Rattle.papers.specs.Reported.{box_line, box_lines, exact_box_line, is_in_whole_points as whole, whole_paper, whole_up as up_to_whole};
ghost use Rattle.papers.specs.Reported.{medium_line, medium_text, one_header};
ghost use Rattle.papers.specs.Reported.{several_header, size_name, size_text, reporting_of};

use crate::reported::printed_parts;
use lengths::{Grains, Paper, print_grains, print_points};
use papers::smallest_cover;
use sheet_text::Lines;
use std::alloc::{AllocError, Global};

/// The header lines that report these papers: a bounding box that covers them all, and a medium for each paper. Without papers there are no lines.
pub(crate) fn header_lines(alloc: Global, reported: &[Paper]) -> Result<Lines, AllocError>
    ensures { IfOk result (λ lines. lines ≡ (reporting_of reported.now).header) }
{
    match reported {
        [] => Ok(Lines::new(alloc)),
        [paper] => lines_of_one_paper(alloc, paper),
        [first, others @ ..] => several_papers(alloc, first, others),
    }
}

fn lines_of_one_paper(alloc: Global, paper: &Paper) -> Result<Lines, AllocError>
    ensures { IfOk result (λ lines. lines ≡ one_header paper.now) }
{
    let mut lines = Lines::new(alloc);
    push_boxes(alloc, &mut lines, paper)?;
    push_medium(alloc, &mut lines, paper)?;
    Ok(lines)
}

fn several_papers(alloc: Global, first: &Paper, others: &[Paper]) -> Result<Lines, AllocError>
    ensures { IfOk result (λ lines. lines ≡ several_header first.now others.now) }
{
    let mut lines = Lines::new(alloc);
    let large = covering_all(first, others);
    push_boxes(alloc, &mut lines, &large)?;
    push_named_medium(alloc, &mut lines, first)?;
    push_others(alloc, &mut lines, others)?;
    Ok(lines)
}

/// Adds a line for each paper after the first.
fn push_others(alloc: Global, lines: &mut Lines, others: &[Paper]) -> Result<(), AllocError>
    ensures { OnOk result (lines.new
        ≡ lines.old ++ map (λ r. medium_line (codes "%%+ ") (size_name r) r) others.now) }
{
    for paper in others {
        push_continued(alloc, lines, paper)?;
    }
    Ok(())
}

/// The smallest paper that covers all of these papers.
fn covering_all(first: &Paper, others: &[Paper]) -> Paper
    ensures { result ≡ fold covering_paper first.now others.now }
{
    let mut large = *first;
    for paper in others {
        large = smallest_cover(&large, paper);
    }
    large
}

/// Adds the `%%BoundingBox:` line of a paper, in whole points. If a printed side isn't a whole number of points, the `%%HiResBoundingBox:` line with
/// the printed sides follows.
fn push_boxes(alloc: Global, lines: &mut Lines, paper: &Paper) -> Result<(), AllocError>
    ensures { OnOk result (lines.new ≡ lines.old ++ box_lines paper.now) }
{
    push_box(alloc, lines, paper)?;
    if is_in_whole_points(paper) {
        return Ok(());
    }
    push_exact_box(alloc, lines, paper)
}

/// Adds the `%%BoundingBox:` line of a paper, with its sides rounded up to whole points.
fn push_box(alloc: Global, lines: &mut Lines, paper: &Paper) -> Result<(), AllocError>
    ensures { OnOk result (lines.new ≡ lines.old ++ box_line (whole_paper paper.now) ∷ []) }
{
    let mut line = Vec::new(alloc);
    line.extend_from_slice(b"%%BoundingBox: 0 0 ")?;
    append_whole_size(&mut line, paper)?;
    lines.push(line.as_slice())?;
    Ok(())
}

/// Adds the `%%HiResBoundingBox:` line of a paper, with its sides in points, printed with up to five decimals.
fn push_exact_box(alloc: Global, lines: &mut Lines, paper: &Paper) -> Result<(), AllocError>
    ensures { OnOk result (lines.new ≡ lines.old ++ exact_box_line paper.now ∷ []) }
{
    let mut line = Vec::new(alloc);
    line.extend_from_slice(b"%%HiResBoundingBox: 0 0 ")?;
    append_both_sides(&mut line, paper)?;
    lines.push(line.as_slice())?;
    Ok(())
}

/// Whether both sides, as they are printed, are whole numbers of points.
fn is_in_whole_points(paper: &Paper) -> bool
    ensures { result ≡ whole paper.now }
{
    printed_parts(paper.width()) % 100_000 == 0 && printed_parts(paper.height()) % 100_000 == 0
}

/// The printed side, rounded up to whole points. The result is in grains.
fn whole_up(side: Grains) -> i128
    requires { IsTrue (is_side side) }
    ensures value { result ≡ up_to_whole side }
    ensures few { nat_abs result ≤ 2 * 10 ^ 23 }
{
    let points = (printed_parts(side) + 99_999) / 100_000;
    (points * 127_000_000_000) as i128
}

/// Adds the `%%DocumentMedia:` line of an output in which all sheets have this paper. The medium is named `Plain`.
fn push_medium(alloc: Global, lines: &mut Lines, paper: &Paper) -> Result<(), AllocError>
    ensures { OnOk result (lines.new
        ≡ lines.old ++ medium_line (codes "%%DocumentMedia: ") (codes "Plain") paper.now ∷ []) }
{
    let mut line = Vec::new(alloc);
    line.extend_from_slice(b"%%DocumentMedia: Plain")?;
    append_medium_sides(&mut line, paper)?;
    lines.push(line.as_slice())?;
    Ok(())
}

/// Adds the `%%DocumentMedia:` line of the first of several papers. The medium is named by its sides, such as `595x842`.
fn push_named_medium(alloc: Global, lines: &mut Lines, paper: &Paper) -> Result<(), AllocError>
    ensures { OnOk result (lines.new
        ≡ lines.old ++ medium_line (codes "%%DocumentMedia: ") (size_name paper.now) paper.now ∷ []) }
{
    let mut line = Vec::new(alloc);
    line.extend_from_slice(b"%%DocumentMedia: ")?;
    append_medium_name(&mut line, paper)?;
    append_medium_sides(&mut line, paper)?;
    lines.push(line.as_slice())?;
    Ok(())
}

/// Adds the `%%+` line of a further paper. The medium is named by its sides.
fn push_continued(alloc: Global, lines: &mut Lines, paper: &Paper) -> Result<(), AllocError>
    ensures { OnOk result (lines.new
        ≡ lines.old ++ medium_line (codes "%%+ ") (size_name paper.now) paper.now ∷ []) }
{
    let mut line = Vec::new(alloc);
    line.extend_from_slice(b"%%+ ")?;
    append_medium_name(&mut line, paper)?;
    append_medium_sides(&mut line, paper)?;
    lines.push(line.as_slice())?;
    Ok(())
}

/// Appends the end of a medium's line, after the medium's name: the sides in points, the weight 0, an empty colour and an empty type. An empty colour
/// or type is an unknown one.
fn append_medium_sides(line: &mut Vec<u8>, paper: &Paper) -> Result<(), AllocError>
    ensures { OnOk result (line.new.items ≡ line.old.items ++ medium_text [] paper.now) }
{
    line.extend_from_slice(b" ")?;
    append_both_sides(line, paper)?;
    line.extend_from_slice(b" 0 () ()")?;
    Ok(())
}

/// Appends the width and the height, in points.
fn append_both_sides(line: &mut Vec<u8>, paper: &Paper) -> Result<(), AllocError>
    ensures { OnOk result (line.new.items ≡ line.old.items ++ size_text paper.now) }
{
    print_points(paper.width(), line)?;
    line.extend_from_slice(b" ")?;
    print_points(paper.height(), line)?;
    Ok(())
}

/// Appends the width and the height, rounded up to whole points.
fn append_whole_size(line: &mut Vec<u8>, paper: &Paper) -> Result<(), AllocError>
    ensures { OnOk result (line.new.items ≡ line.old.items ++ size_text (whole_paper paper.now)) }
{
    append_whole(line, paper.width())?;
    line.extend_from_slice(b" ")?;
    append_whole(line, paper.height())?;
    Ok(())
}

fn append_whole(line: &mut Vec<u8>, side: Grains) -> Result<(), AllocError>
    requires { IsTrue (is_side side) }
    ensures { OnOk result (line.new.items ≡ line.old.items ++ points_text (up_to_whole side)) }
{
    print_grains(whole_up(side), line)
}

/// Appends the name of a medium, made from its sides in points.
fn append_medium_name(line: &mut Vec<u8>, paper: &Paper) -> Result<(), AllocError>
    ensures { OnOk result (line.new.items ≡ line.old.items ++ size_name paper.now) }
{
    print_points(paper.width(), line)?;
    line.extend_from_slice(b"x")?;
    print_points(paper.height(), line)?;
    Ok(())
}
