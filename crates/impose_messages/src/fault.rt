//! Faults: the reasons why `impose` writes no output, or only part of it.
use impose_words::{IdleOption, RequestFault};
use imposer::RunError;
use layouts::ArrangementError;
use row_sheets::PosterError;
use rows::RowError;
use sheet_plan::MadeError;
use std::alloc::AllocError;
use std::io;
use std::io::ErrorKind;

/// A kind of files that aren't documents, recognised by a file's first bytes.
#[derive(Clone, Copy)]
pub enum FileKind {
    Gzip,
    Bzip2,
    Xz,
    /// A zip archive. Documents of office programs are such archives.
    Zip,
    Png,
    Jpeg,
    Tiff,
    Dvi,
    /// A text in angle brackets, such as HTML or an SVG.
    Markup,
}

/// The reason why `impose` writes no output, or only part of it.
#[derive(Drop)]
pub enum ImposeFault {
    /// The command line is refused, or it asks for help or for the version.
    Command(RequestFault),
    /// The pages can't be laid out as requested.
    Layout(ArrangementError),
    /// A page can't be made into the requested poster.
    Poster(PosterError),
    /// The choice of pages gives no row.
    Row(RowError),
    /// The document has only `pages` pages, and so lacks pages of the range that begins at byte `place`, counted from 0, of the page ranges.
    NoSuchPage {
        place: usize,
        pages: u32,
    },
    /// A page would get an offset of 100,000 points or more, because it is shifted on a back or turned.
    OutOfReach,
    /// The sheets made from the row can't be planned.
    Sheets(MadeError),
    /// A specification is to be printed, but the layout is another than `spec`, or not all pages are laid in their order.
    NoSpecification,
    /// An option or file name has no effect, or not the effect that its name promises.
    Idle(IdleOption),
    /// The drawing of the sheets would overwrite the input.
    OverInput,
    /// The sheets would replace a document that shows no mark of impose.
    OverDocument,
    /// The sheets would be printed on a terminal.
    OnTerminal,
    /// The input couldn't be opened or read. The cause is the system's error, if the system gave one.
    Read(Option<io::Error>),
    /// The run was refused, or it failed. A failed write is reported as `Write`.
    Run(RunError),
    /// The input is empty.
    NoInput,
    /// The input is a PDF.
    Pdf,
    /// The input is a file of this kind, which isn't a document.
    OtherFile(FileKind),
    /// The input is an EPS file in DOS format, in which binary data comes before the PostScript.
    DosEps,
    /// The input is an EPS file without `%%Page:` comments.
    Eps,
    /// The input begins with a byte order mark of UTF-16.
    Utf16,
    /// The input begins with the escape sequence that starts a printer job language (PJL).
    JobLanguage,
    /// The input is longer than 2^30 bytes, the most that a document may have.
    TooLong,
    /// The output couldn't be created, or a write failed after `written` bytes. The cause is the system's error, if the system gave one.
    Write {
        written: u64,
        cause: Option<io::Error>,
    },
}

impl ImposeFault {
    ghost use Rattle.std.specs.Prelude.{◌≡◌};
    ghost use Rattle.impose_messages.specs.Faults.{IsUnreadFor, without_memory};

    /// The fault of running out of memory before anything was written.
    pub fn no_memory() -> ImposeFault
        ensures { result ≡ without_memory }
    {
        ImposeFault::Run(RunError::NoMemory { written: 0 })
    }

    /// The fault of an input that couldn't be opened or read for this cause: a lack of memory if the cause is one, otherwise `Read`.
    pub fn unread(cause: Option<io::Error>) -> ImposeFault
        ensures { IsUnreadFor cause result }
    {
        match cause {
            Some(error) if error.kind() == ErrorKind::OutOfMemory => ImposeFault::no_memory(),
            cause => ImposeFault::Read(cause),
        }
    }
}

impl From<AllocError> for ImposeFault {
    ghost use Rattle.std.specs.Prelude.{◌≡◌};
    ghost use Rattle.impose_messages.specs.Faults.{without_memory};

    ghost from_gives = { λ _ fault. fault ≡ without_memory };

    fn from(_error: AllocError) -> ImposeFault {
        ImposeFault::no_memory()
    }
}

impl From<ArrangementError> for ImposeFault {
    ghost use Rattle.std.specs.Prelude.{◌≡◌};
    ghost use Rattle.impose_messages.specs.Faults.{of_layout};

    ghost from_gives = { λ error fault. fault ≡ of_layout error };

    fn from(error: ArrangementError) -> ImposeFault {
        match error {
            ArrangementError::NoMemory => ImposeFault::no_memory(),
            error => ImposeFault::Layout(error),
        }
    }
}
