//! The parts of a request that messages mention.
use command_words::name_of;
use impose_words::{ImposeRequest, Layout, Product};
use lengths::Paper;
use std::alloc::{AllocError, Global};
use std::io;
use suggestions::{is_range, shown_word};

/// The message that memory was refused.
pub(crate) const OUT_OF_MEMORY: &str = "out of memory";

/// The parts of a request that messages mention, and the allocator for the messages.
#[derive(Clone, Copy)]
pub(crate) struct Context<'r> {
    pub(crate) alloc: Global,
    infile: Option<&'r str>,
    /// The name of the file for the sheets or the drawing. `None` for standard output, and for a request that prints a specification or a list.
    written: Option<&'r str>,
    pub(crate) ranges: &'r str,
    pub(crate) spec: &'r str,
    pub(crate) is_selection: bool,
    /// Whether a scale is requested.
    pub(crate) is_scaled: bool,
    /// The paper of the sheets, if the command line names it.
    pub(crate) sheet: Option<Paper>,
}

impl<'r> Context<'r> {
    /// The context for a command line that is refused, and so makes no request.
    pub(crate) fn none(alloc: Global) -> Context<'static> {
        Context {
            alloc,
            infile: None,
            written: None,
            ranges: "",
            spec: "",
            is_selection: false,
            is_scaled: false,
            sheet: None,
        }
    }

    pub(crate) fn of(alloc: Global, request: &'r ImposeRequest) -> Context<'r> {
        Context {
            alloc,
            infile: name_of(&request.infile),
            written: match &request.product {
                Product::Sheets => name_of(&request.outfile),
                Product::Specification | Product::Plan => None,
                Product::Picture(file) => name_of(file),
            },
            ranges: name_of(&request.choice.ranges).unwrap_or(""),
            spec: match &request.layout {
                Layout::Spec { specs, .. } => specs.as_str(),
                Layout::NUp(_) | Layout::Booklet { .. } | Layout::Zine | Layout::Cards(_) => "",
                Layout::Stack { .. } | Layout::Notes { .. } | Layout::Poster(_) => "",
                Layout::Selection => "",
            },
            is_selection: matches!(&request.layout, Layout::Selection),
            is_scaled: request.spacing.scale.is_some(),
            sheet: request.sheet_paper,
        }
    }
}

impl Context<'_> {
    /// The name of the input, as messages show it.
    pub(crate) fn input_name(&self) -> Result<String, AllocError> {
        file_name(self.alloc, self.infile, "standard input")
    }

    /// The name of the output, as messages show it.
    pub(crate) fn output_name(&self) -> Result<String, AllocError> {
        file_name(self.alloc, self.written, "standard output")
    }

    /// A text about the input, for use after the input's name.
    pub(crate) fn on_input(&self, text: &str) -> Result<String, AllocError> {
        let name = self.input_name()?;
        format!(in self.alloc; "{name}{text}")
    }

    /// Whether the name of INFILE is that of a document of an office program, such as `in.docx`.
    pub(crate) fn is_office_file(&self) -> bool {
        let name = self.infile.unwrap_or("");
        [
            ".docx", ".xlsx", ".pptx", ".odt", ".ods", ".odp", ".odg", ".epub",
        ]
        .iter()
        .any(|ending| name.ends_with(*ending))
    }

    /// Whether INFILE is most likely the second of two page ranges after `select`.
    pub(crate) fn has_second_range(&self) -> bool {
        self.is_selection && is_range(self.infile.unwrap_or(""))
    }

    /// The text with the cause of a failure, if one is known.
    pub(crate) fn with_cause(
        &self,
        text: &str,
        cause: &Option<io::Error>,
    ) -> Result<String, AllocError> {
        match cause {
            Some(cause) => format!(in self.alloc; "{text}: {cause}"),
            None => String::from_str(self.alloc, text),
        }
    }
}

/// The name of a file, as messages show it. `None` is the standard stream that `stream` names. An empty name is shown with an explanation.
fn file_name(alloc: Global, name: Option<&str>, stream: &str) -> Result<String, AllocError> {
    match name {
        None => String::from_str(alloc, stream),
        Some(name) if name.is_empty() => String::from_str(
            alloc,
            "'' (a file without a name; - is standard input or output)",
        ),
        Some(name) => shown_word(alloc, name),
    }
}
