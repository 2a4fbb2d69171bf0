//! The message about a fault.

use crate::context::{Context, OUT_OF_MEMORY};
use crate::fault::ImposeFault;
use crate::input_messages::{
    DOS_EPS, EPS, JOB_LANGUAGE, NO_INPUT, PDF, TOO_LONG, UTF_16, document_text, other_file_text,
    over_document_text, over_input_text, read_text,
};
use crate::layout_messages::{layout_text, plan_message, poster_message, sheets_message};
use crate::place_messages::{no_page_text, row_text, spec_text};
use impose_words::{IdleOption, ImposeRequest, ProductOption, RequestFault};
use imposer::RunError;
use pagespec::SpecError;
use std::alloc::{AllocError, Global};
use std::io;
use suggestions::value_text;

const OUT_OF_REACH: &str =
    "a turned page would be placed 100,000 points or more away: take smaller papers or fewer sheets, or leave --turn out";

const NO_SPECIFICATION: &str =
    "--print-spec: only spec has a specification, and none says --pages, --odd, --even or --reverse: leave it out, or show the \
    sheets by --plan or --preview";

const ON_TERMINAL: &str =
    "a terminal shows no sheets: name an OUTFILE, or print them by: impose .. | lp";

/// The message about a fault, without a line end. It is empty for `RequestFault::Words`, because `words_text` makes the message about it. `request`
/// is `None` if the command line was refused. The only error is running out of memory.
pub fn fault_text(
    alloc: Global,
    fault: &ImposeFault,
    request: Option<&ImposeRequest>,
) -> Result<String, AllocError> {
    let context = &request.map_or(Context::none(alloc), |request| Context::of(alloc, request));
    match fault {
        ImposeFault::Command(fault) => command_text(alloc, fault),
        ImposeFault::Layout(error) => layout_text(context, error),
        ImposeFault::Poster(error) => String::from_str(alloc, poster_message(error)),
        ImposeFault::Row(error) => row_text(context, error),
        ImposeFault::NoSuchPage { place, pages } => no_page_text(context, *place, *pages),
        ImposeFault::OutOfReach => String::from_str(alloc, OUT_OF_REACH),
        ImposeFault::Sheets(error) => String::from_str(alloc, sheets_message(error)),
        ImposeFault::NoSpecification => String::from_str(alloc, NO_SPECIFICATION),
        ImposeFault::Idle(option) => String::from_str(alloc, idle_message(*option)),
        ImposeFault::OverInput => over_input_text(context),
        ImposeFault::OverDocument => over_document_text(context),
        ImposeFault::OnTerminal => String::from_str(alloc, ON_TERMINAL),
        ImposeFault::Read(cause) => read_text(context, cause),
        ImposeFault::Run(error) => run_text(context, error),
        ImposeFault::NoInput => context.on_input(NO_INPUT),
        ImposeFault::Pdf => context.on_input(PDF),
        ImposeFault::OtherFile(kind) => other_file_text(context, *kind),
        ImposeFault::DosEps => context.on_input(DOS_EPS),
        ImposeFault::Eps => context.on_input(EPS),
        ImposeFault::Utf16 => context.on_input(UTF_16),
        ImposeFault::JobLanguage => context.on_input(JOB_LANGUAGE),
        ImposeFault::TooLong => context.on_input(TOO_LONG),
        ImposeFault::Write { written, cause } => write_text(context, *written, cause),
    }
}

/// The message about a command line that is refused, without a line end. It is empty for `RequestFault::Words`, because `words_text` makes the
/// message about it.
pub fn command_text(alloc: Global, fault: &RequestFault) -> Result<String, AllocError> {
    let message = match fault {
        RequestFault::Words(_) => "",
        RequestFault::NoText => "the command line is no UTF-8 text: rename the file",
        RequestFault::Lacking => "bad command line: see impose --help",
        RequestFault::BadValue(option, text) => return value_text(alloc, *option, text.as_str()),
        RequestFault::OddAndEven => "--odd and --even leave no page together: give one of them",
        RequestFault::TwoProducts(one, other) => {
            let (one, other) = (product_option(*one), product_option(*other));
            return format!(in alloc; "{one} and {other} ask for two things: give one of them");
        }
        RequestFault::NoMemory => OUT_OF_MEMORY,
    };
    String::from_str(alloc, message)
}

fn product_option(option: ProductOption) -> &'static str {
    match option {
        ProductOption::PrintSpec => "--print-spec",
        ProductOption::Plan => "--plan",
        ProductOption::Preview => "--preview",
    }
}

/// The message about an option or file name that has no effect, or not the effect that its name promises.
fn idle_message(option: IdleOption) -> &'static str {
    match option {
        IdleOption::Outfile => {
            "--plan and --preview only show the sheets, so nothing would be written to OUTFILE: leave it out, and impose in a \
            run without them"
        }
        IdleOption::Sheet => {
            "select leaves each page on a sheet of its own size, so --sheet does nothing: for another paper use \
            impose nup 1 --sheet a4 --pages 1-3 in.ps out.ps"
        }
        IdleOption::Scale =>
            "a poster's size gives its scale, so --scale does nothing: leave it out, or give auto in place of the size",
        IdleOption::CutMarks =>
            "--marks cut draws nothing without room outside the pages: give a --margin of half the --gap at least, as --margin 5mm",
        IdleOption::Inner =>
            "only nup and booklet have an inner edge: name left, right, top or bottom in its place, as --margin left=2cm",
        IdleOption::Left =>
            "inner is the left edge of fronts, so left does nothing beside it: name right for the other edge, as --margin inner=2cm,right=1cm",
        IdleOption::InnerMarks =>
            "--marks cut is drawn where margins are the same on fronts and backs: leave it out, or name left or right in place of inner",
    }
}

/// The message about an output that couldn't be created, or of which only `written` bytes could be written. It ends with the cause, if one is known.
fn write_text(
    context: &Context<'_>,
    written: u64,
    cause: &Option<io::Error>,
) -> Result<String, AllocError> {
    let name = context.output_name()?;
    let text = if written == 0 {
        format!(in context.alloc; "cannot write {name}")?
    } else {
        format!(in context.alloc; "cannot write {name} after {written} bytes")?
    };
    context.with_cause(text.as_str(), cause)
}

/// The message about a run that was refused, or that failed.
fn run_text(context: &Context<'_>, error: &RunError) -> Result<String, AllocError> {
    let message = match error {
        RunError::Options => "bad options",
        RunError::Document(error) => return document_text(context, error),
        RunError::Plan(error) => plan_message(error),
        RunError::Spec(SpecError::NoMemory) | RunError::NoMemory { written: 0 } => OUT_OF_MEMORY,
        RunError::Spec(error) => return spec_text(context, error),
        RunError::NoMemory { written } => {
            return format!(in context.alloc; "out of memory after {written} bytes");
        }
        RunError::Write { written } => return write_text(context, *written, &None),
    };
    String::from_str(context.alloc, message)
}
