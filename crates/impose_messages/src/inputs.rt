//! Faults for inputs that aren't documents.
ghost use Rattle.std.specs.Prelude.{◌≡◌};
ghost use Rattle.impose_messages.specs.Inputs.{drawn_kind as drawn_by, is_eps as eps, refused_document as document_fault, of_other_input, of_unpacked, packed_kind as packed_by};

use crate::fault::{FileKind, ImposeFault};
use dsc::DscError;
use imposer::RunError;

/// The fault for an input that can't be read as a document. An empty input, a PDF, a file of another kind, a printer's job and a UTF-16 text have
/// faults of their own. So have an EPS file in DOS format, an EPS file without pages, and an input that is longer than a document may be. Any other `error`
/// is reported as an error of the run.
pub fn refused_document(error: DscError, input: &[u8]) -> ImposeFault
    ensures { result ≡ document_fault error input.now }
{
    match error {
        DscError::NotPostScript => not_postscript(input),
        DscError::TooLong => ImposeFault::TooLong,
        DscError::NoPages if is_eps(input) => ImposeFault::Eps,
        error => ImposeFault::Run(RunError::from(error)),
    }
}

/// The fault for an input that doesn't begin as PostScript does.
fn not_postscript(input: &[u8]) -> ImposeFault
    ensures { result ≡ of_other_input input.now }
{
    if input.is_empty() {
        ImposeFault::NoInput
    } else if input.starts_with(b"%PDF-") {
        ImposeFault::Pdf
    } else {
        match packed_kind(input) {
            Some(kind) => ImposeFault::OtherFile(kind),
            None => unpacked_fault(input),
        }
    }
}

/// The fault for an input that doesn't begin as PostScript does, and is neither empty nor a PDF nor compressed.
fn unpacked_fault(input: &[u8]) -> ImposeFault
    ensures { result ≡ of_unpacked input.now }
{
    if input.starts_with(b"\x1b%-12345X") {
        ImposeFault::JobLanguage
    } else if input.starts_with(b"\xc5\xd0\xd3\xc6") {
        ImposeFault::DosEps
    } else if input.starts_with(b"\xff\xfe") || input.starts_with(b"\xfe\xff") {
        ImposeFault::Utf16
    } else {
        match drawn_kind(input) {
            Some(kind) => ImposeFault::OtherFile(kind),
            None => ImposeFault::Run(RunError::Document(DscError::NotPostScript)),
        }
    }
}

/// Whether an input begins as an EPS file does (Adobe Technical Note 5002). An EPS file is a picture to be put on a page of a document.
fn is_eps(input: &[u8]) -> bool
    ensures { result ≡ eps input.now }
{
    input.starts_with(b"%!PS-Adobe-2.0 EPSF-")
        || input.starts_with(b"%!PS-Adobe-2.1 EPSF-")
        || input.starts_with(b"%!PS-Adobe-3.0 EPSF-")
        || input.starts_with(b"%!PS-Adobe-3.1 EPSF-")
}

/// The kind of a compressed input. `None` if its first bytes are those of no compression.
fn packed_kind(input: &[u8]) -> Option<FileKind>
    ensures { result ≡ packed_by input.now }
{
    if input.starts_with(b"\x1f\x8b") {
        Some(FileKind::Gzip)
    } else if input.starts_with(b"BZh") {
        Some(FileKind::Bzip2)
    } else if input.starts_with(b"\xfd7zXZ\0") {
        Some(FileKind::Xz)
    } else if input.starts_with(b"PK\x03\x04") {
        Some(FileKind::Zip)
    } else {
        None
    }
}

/// The kind of an input that is a picture, or a text that another program draws. `None` if its first bytes are those of no such file.
fn drawn_kind(input: &[u8]) -> Option<FileKind>
    ensures { result ≡ drawn_by input.now }
{
    if input.starts_with(b"\x89PNG") {
        Some(FileKind::Png)
    } else if input.starts_with(b"\xff\xd8\xff") {
        Some(FileKind::Jpeg)
    } else if input.starts_with(b"II*\0") || input.starts_with(b"MM\0*") {
        Some(FileKind::Tiff)
    } else if input.starts_with(b"\xf7\x02") {
        Some(FileKind::Dvi)
    } else if input.starts_with(b"<") {
        Some(FileKind::Markup)
    } else {
        None
    }
}
