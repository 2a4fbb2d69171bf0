//! The text of the guard, and the calls that insert it.
ghost use Rattle.std.specs.Prelude.{◌≡◌, ◌+◌, ◌≤◌, ◌++◌, flat_map, length, option_map, take, drop, vec_len, IfOk, OnErr, OnOk};
ghost use Rattle.rules.specs.Bytes.{line};
ghost use Rattle.rules.specs.Filters.{ended};
ghost use Rattle.guard.specs.Guard.{page_size_line, guard_size_lines, guard_lines, guarded};

use dsc::{end_line, header_len};
use lengths::{Paper, print_points};
use std::alloc::{AllocError, Global};

/// The first lines of the guard. The line that sets the page size, if there is one, comes after them.
const FIRST_LINES: &[u8] = b"\
    %%BeginResource: procset ImposeGuard 1.0 0\n\
    userdict /ImposeGuard known not {userdict begin\n";

/// The lines of the guard after `FIRST_LINES` and after the line that sets the page size, if there is one.
/// docs/GUARD.md says what each line does.
const OTHER_LINES: &[u8] = b"\
    /ImposeShow /showpage load def\n\
    /PStoPSenablepage true def\n\
    /showpage {PStoPSenablepage {ImposeShow} if} def\n\
    /copypage {} def\n\
    /erasepage {} def\n\
    /setpagedevice where {pop /ImposeDevice /setpagedevice load def\n\
    /setpagedevice {PStoPSenablepage {[/Duplex /Tumble /NumCopies /Collate /MediaType /MediaColor\n\
    /MediaWeight /MediaPosition /ManualFeed] {1 index 1 index known\n\
    {1 dict dup 2 index 4 index 4 index get put ImposeDevice} if pop} forall} if pop} def} if\n\
    [/letter /lettersmall /legal /ledger /tabloid /11x17 /note /a3 /a4 /a4small /a5 /b4 /b5\n\
    /executivepage /folio /quarto /halfletter /com10envelope /monarchenvelope /c5envelope /dlenvelope]\n\
    {dup where {pop {} def} {pop} ifelse} forall\n\
    /PStoPSmatrix matrix currentmatrix def\n\
    /PStoPSclip {clippath} def\n\
    /ImposeOuter 0 def\n\
    /ImposeClip {ImposeOuter 0 ne {ImposeOuter begin ImposeClip end} if\n\
    PStoPSmatrix setmatrix newpath PStoPSclip clip newpath} def\n\
    /ImposePath {[{/moveto cvx} {/lineto cvx} {/curveto cvx} {/closepath cvx} pathforall] cvx} def\n\
    /defaultmatrix {PStoPSmatrix exch copy} def\n\
    /initmatrix {PStoPSmatrix setmatrix} def\n\
    /initclip {ImposePath matrix currentmatrix systemdict /initclip get exec\n\
    ImposeClip setmatrix exec} def\n\
    /initgraphics {systemdict /initgraphics get exec ImposeClip} def\n\
    /ImposeGuard 1 dict def\n\
    ImposeGuard /clip {end clip PStoPSenablepage not {userdict /ImposeOuter 3 dict dup begin\n\
    [/PStoPSmatrix /PStoPSclip /ImposeOuter] {dup load def} forall end put} if userdict begin\n\
    /PStoPSmatrix matrix currentmatrix def /PStoPSclip ImposePath def /PStoPSenablepage false def\n\
    end newpath systemdict /save get exec pop} put\n\
    /save {count 0 ne {dup /ImposeSave eq {\n\
    /showpage where {dup userdict ne 1 index wcheck and\n\
    {/showpage {userdict /showpage get exec} put}\n\
    {pop PStoPSenablepage {/showpage load dup /ImposeShow load ne {length 0 eq\n\
    {userdict /showpage {PStoPSenablepage {ImposeShow} if} put} if} {pop} ifelse} if} ifelse} if\n\
    ImposeGuard begin} if} if systemdict /save get exec} def\n\
    end} bind if\n\
    %%EndResource\n";

/// The number of bytes that are reserved for the guard. With any paper of the sheet, the guard has fewer bytes.
const ROOM: usize = 2_560;

/// A copy of the text with the guard inserted after its header comments (see `header_len`). If these lack a line end,
/// LF is added to them. If `sheet_paper` is a paper, the guard first sets the device's page size to it, provided that
/// the interpreter has `setpagedevice`. A guard that runs after another one does nothing. The text needn't be a
/// document. Fails only if memory is refused.
pub fn guarded(
    alloc: Global,
    text: &[u8],
    sheet_paper: Option<&Paper>,
) -> Result<Vec<u8>, AllocError>
    ensures put_in { IfOk result (λ v. v.items ≡ guarded (option_map (λ p. p.now) sheet_paper.entry) text.now) }
{
    let (header, rest) = text.split_at(header_len(text));
    let mut out = Vec::with_capacity(alloc, text.len() + ROOM)?;
    out.extend_from_slice(header)?;
    end_line(&mut out)?;
    append_guard(sheet_paper, &mut out)?;
    out.extend_from_slice(rest)?;
    Ok(out)
}

/// Inserts the guard into `text`, as `guarded` inserts it into a copy. If memory is refused, the call fails, and the
/// text is unchanged.
pub fn put_guard(text: &mut Vec<u8>, sheet_paper: Option<&Paper>) -> Result<(), AllocError>
    ensures put_in { OnOk result (text.new.items ≡ guarded (option_map (λ p. p.now) sheet_paper.entry) text.old.items) }
    ensures unchanged { OnErr result (text.new.items ≡ text.old.items) }
{
    let end = header_len(text.as_slice());
    // The splice puts back the last byte of the header comments, adds a line end if that byte isn't one, and inserts
    // the guard.
    let start = end.saturating_sub(1);
    let mut lines = Vec::with_capacity(*text.allocator(), ROOM)?;
    lines.extend_from_slice(&text[start..end])?;
    end_line(&mut lines)?;
    append_guard(sheet_paper, &mut lines)?;
    text.splice(start..end, lines)?;
    Ok(())
}

/// Inserts the guard into the text that begins at the byte `start` of `bytes`. Returns the index of the byte at which
/// the guarded text begins. If the bytes before `start` are enough for the guard, and for a line end that the header
/// comments may lack, these comments are moved towards the front. Otherwise the text after the header comments is
/// moved. If memory is refused, the call fails, and the bytes are unchanged.
pub fn put_guard_before(
    bytes: &mut Vec<u8>,
    start: usize,
    sheet_paper: Option<&Paper>,
) -> Result<usize, AllocError>
    requires { start ≤ vec_len bytes.old }
    ensures begin { IfOk result (λ begin. begin ≤ start) }
    ensures within { IfOk result (λ begin. begin ≤ vec_len bytes.new) }
    ensures put_in { IfOk result (λ begin. drop begin bytes.new.items
        ≡ guarded (option_map (λ p. p.now) sheet_paper.entry) (drop start bytes.old.items)) }
    ensures unchanged { OnErr result (bytes.new.items ≡ bytes.old.items) }
{
    let (_, text) = bytes.as_slice().split_at(start);
    let len = header_len(text);
    let (header, _) = text.split_at(len);
    let front = guarded_header(*bytes.allocator(), header, sheet_paper)?;
    let end = start + len;
    if front.len() <= end {
        let begin = end - front.len();
        overwrite(bytes, begin, front.as_slice());
        return Ok(begin);
    }
    bytes.splice(start..end, front)?;
    Ok(start)
}

/// The header comments, with a line end added if they lack one, followed by the guard.
fn guarded_header(
    alloc: Global,
    header: &[u8],
    sheet_paper: Option<&Paper>,
) -> Result<Vec<u8>, AllocError>
    ensures { IfOk result (λ v. v.items
        ≡ ended header.now ++ flat_map line (guard_lines (option_map (λ p. p.now) sheet_paper.entry))) }
{
    let mut front = Vec::with_capacity(alloc, header.len().saturating_add(ROOM))?;
    front.extend_from_slice(header)?;
    end_line(&mut front)?;
    append_guard(sheet_paper, &mut front)?;
    Ok(front)
}

/// Copies `front` over the bytes that begin at the index `begin`. All other bytes stay.
fn overwrite(bytes: &mut Vec<u8>, begin: usize, front: &[u8])
    requires { begin + length front.now ≤ vec_len bytes.old }
    ensures put { bytes.new.items ≡ take begin bytes.old.items
        ++ (front.now ++ drop (begin + length front.now) bytes.old.items) }
    ensures len { vec_len bytes.new ≡ vec_len bytes.old }
{
    bytes[begin..begin + front.len()].copy_from_slice(front);
}

/// Appends all lines of the guard.
fn append_guard(sheet_paper: Option<&Paper>, out: &mut Vec<u8>) -> Result<(), AllocError>
    ensures { OnOk result (out.new.items ≡
        out.old.items ++ flat_map line (guard_lines (option_map (λ p. p.now) sheet_paper.entry))) }
{
    out.extend_from_slice(FIRST_LINES)?;
    append_page_size(sheet_paper, out)?;
    out.extend_from_slice(OTHER_LINES)?;
    Ok(())
}

/// Appends the line that sets the page size to `sheet_paper`. Without such a paper, appends nothing.
fn append_page_size(sheet_paper: Option<&Paper>, out: &mut Vec<u8>) -> Result<(), AllocError>
    ensures { OnOk result (out.new.items ≡
        out.old.items ++ flat_map line (guard_size_lines (option_map (λ p. p.now) sheet_paper.entry))) }
{
    match sheet_paper {
        None => Ok(()),
        Some(paper) => append_size_of(paper, out),
    }
}

/// Appends the line that sets the device's page size to this paper, in points.
fn append_size_of(paper: &Paper, out: &mut Vec<u8>) -> Result<(), AllocError>
    ensures { OnOk result (out.new.items ≡ out.old.items ++ line (page_size_line paper.now)) }
{
    out.extend_from_slice(b"/setpagedevice where {pop 1 dict dup /PageSize [")?;
    print_points(paper.width(), out)?;
    out.extend_from_slice(b" ")?;
    print_points(paper.height(), out)?;
    out.extend_from_slice(b"] put setpagedevice} if\n")?;
    Ok(())
}
