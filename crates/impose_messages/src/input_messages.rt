//! Messages about inputs and outputs that aren't what they should be.

use crate::context::{Context, OUT_OF_MEMORY};
use crate::fault::FileKind;
use dsc::DscError;
use std::alloc::AllocError;
use std::io;

// Texts for use after the name of the input.
pub(crate) const NO_INPUT: &str =
    " is empty; name a file with a PostScript document, or pipe one in";

pub(crate) const PDF: &str =
    " is a PDF, not PostScript; use: impose-pdf .. in.pdf out.pdf, or pdftops in.pdf - | impose .. -";

pub(crate) const DOS_EPS: &str =
    " is an EPS with a preview before it, as DOS had them; use: ps2ps in.eps - | impose .. -";

pub(crate) const EPS: &str =
    " is an EPS without %%Page: comments; use: gs -q -dEPSCrop -sDEVICE=ps2write -o - in.eps | impose .. -";

pub(crate) const UTF_16: &str =
    " is a text of two bytes a letter (UTF-16), not PostScript; use: iconv -f UTF-16 -t ISO-8859-1 in.ps | impose .. -";

pub(crate) const JOB_LANGUAGE: &str =
    " begins with a printer's job language, not with %!; cut that off: sed -n '/^%!/,$p' in.ps | impose .. -";

pub(crate) const TOO_LONG: &str = " is longer than 1,073,741,824 bytes; split it first";

/// The end of the message about a file, if INFILE is most likely a second page range.
const RANGES_ARE_ONE_WORD: &str =
    "; ranges are one word, as in: impose select 1,3,5-8 in.ps out.ps";

/// The message about a file of another kind.
pub(crate) fn other_file_text(context: &Context<'_>, kind: FileKind) -> Result<String, AllocError> {
    let advice = match kind {
        FileKind::Gzip => "is compressed, not PostScript; use: zcat in.ps.gz | impose .. -",
        FileKind::Bzip2 => "is compressed, not PostScript; use: bzcat in.ps.bz2 | impose .. -",
        FileKind::Xz => "is compressed, not PostScript; use: xzcat in.ps.xz | impose .. -",
        FileKind::Zip if context.is_office_file() =>
            "is a document of an office program: save it as a PDF, and use: impose-pdf .. in.pdf out.pdf",
        FileKind::Zip =>
            "is compressed, not PostScript; use: unzip -p in.zip | impose .. -; or save an office document as a PDF for impose-pdf",
        FileKind::Png | FileKind::Jpeg =>
            "is a picture, not PostScript; use: impose-pdf .. in.png out.pdf",
        FileKind::Tiff =>
            "is a picture, not PostScript; use: tiff2pdf -o in.pdf in.tif, and impose-pdf .. in.pdf out.pdf",
        FileKind::Dvi =>
            "is a DVI by TeX, not PostScript; use: dvips -o in.ps in.dvi, and impose .. in.ps out.ps",
        FileKind::Markup =>
            "is HTML, an SVG or the like, not PostScript: print it into a PDF by a browser, and use: impose-pdf .. in.pdf out.pdf",
    };
    let name = context.input_name()?;
    format!(in context.alloc; "{name} {advice}")
}

/// The message about an input that couldn't be opened or read. If INFILE is most likely a second page range, the message says that ranges are one
/// word.
pub(crate) fn read_text(
    context: &Context<'_>,
    cause: &Option<io::Error>,
) -> Result<String, AllocError> {
    let name = context.input_name()?;
    let text = format!(in context.alloc; "cannot read {name}")?;
    let mut said = context.with_cause(text.as_str(), cause)?;
    if context.has_second_range() {
        said.push_str(RANGES_ARE_ONE_WORD)?;
    }
    Ok(said)
}

/// The message about a drawing of the sheets that would overwrite the input.
pub(crate) fn over_input_text(context: &Context<'_>) -> Result<String, AllocError> {
    let name = context.input_name()?;
    format!(in context.alloc;
        "--preview would write over {name}, which is read: name another file, as sheets.svg, or - for standard output"
    )
}

/// The message about an output file that holds another program's document. If INFILE is most likely a second page range, the message says that ranges
/// are one word. Otherwise it says how to write the sheets.
pub(crate) fn over_document_text(context: &Context<'_>) -> Result<String, AllocError> {
    let name = context.output_name()?;
    let advice = if context.has_second_range() {
        RANGES_ARE_ONE_WORD
    } else {
        ": name another OUTFILE, or replace it with --replace"
    };
    format!(in context.alloc; "{name} holds a document without a mark of impose{advice}")
}

/// The message about a document that is refused. An input that is too long without a guard has a fault of its own, `ImposeFault::TooLong`. So
/// `DscError::TooLong` is about a document that only its guard makes too long.
pub(crate) fn document_text(context: &Context<'_>, error: &DscError) -> Result<String, AllocError> {
    let name = context.input_name()?;
    let text = match error {
        DscError::TooLong =>
            " is longer than 1,073,741,824 bytes with its guard; split it first, or leave the guard out by --unguarded",
        DscError::NotPostScript =>
            " is not PostScript: it doesn't begin with %!; cut off what is before that, or if it is plain text use: enscript -p - in.txt | impose .. -",
        DscError::BadCount(at) => {
            return format!(in context.alloc;
                "{name}: the %%BeginData: or %%BeginBinary: at byte {at} has no count, or a bad one; write the document anew"
            );
        }
        DscError::ShortData(at) => {
            return format!(in context.alloc;
                "{name}: the data after the %%BeginData: or %%BeginBinary: at byte {at} is cut short; is the document complete?"
            );
        }
        DscError::TooManyPages => " has more than 1,000,000 pages; split it first",
        DscError::NoPages =>
            " has no %%Page: comments; for plain PostScript run it through ps2ps first",
        DscError::NoMemory => return String::from_str(context.alloc, OUT_OF_MEMORY),
    };
    format!(in context.alloc; "{name}{text}")
}
