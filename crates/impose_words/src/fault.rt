//! The reasons for which command lines are refused.
use clap::Error as WordsError;
use std::alloc::AllocError;

/// A subcommand whose first argument names the cells of a sheet or, for `poster`, the sheets of a poster. The argument of `notes` counts only the
/// cells of pages, each of which has a cell for notes beside it.
#[derive(Clone, Copy, Debug, PartialEq, Eq)]
pub enum CellCommand {
    NUp,
    Cards,
    Stack,
    Notes,
    Poster,
}

/// An argument or option whose value is checked by this crate.
#[derive(Clone, Copy, Debug, PartialEq, Eq)]
pub enum OptionId {
    Paper,
    Sheet,
    Border,
    Turn,
    /// The first argument of this command.
    Count(CellCommand),
    /// `--skip` for a sheet with this number of cells.
    Skip(u64),
    Signature,
    Margin,
    Gap,
    Trim,
    Creep,
    Overlap,
    Order,
    Turned,
    Scale,
    /// `--marks` for a booklet.
    BookletMarks,
    /// `--marks` for sheets that are cut but not folded.
    CutMarks,
    Numbers,
    NumbersFrom,
    Outfile,
    Preview,
}

impl OptionId {
    ghost use Rattle.std.specs.Prelude.{◌≡◌};
    ghost use Rattle.impose_words.specs.Words.{opt_id};

    /// The name by which clap knows the argument; for an option, it is the text after `--`.
    pub fn id(self) -> &'static str
        ensures { result.now ≡ opt_id self }
    {
        match self {
            OptionId::Paper => "paper",
            OptionId::Sheet => "sheet",
            OptionId::Border => "border",
            OptionId::Turn => "turn",
            OptionId::Count(_) => "count",
            OptionId::Skip(_) => "skip",
            OptionId::Signature => "signature",
            OptionId::Margin => "margin",
            OptionId::Gap => "gap",
            OptionId::Trim => "trim",
            OptionId::Creep => "creep",
            OptionId::Overlap => "overlap",
            OptionId::Order => "order",
            OptionId::Turned => "turned",
            OptionId::Scale => "scale",
            OptionId::BookletMarks | OptionId::CutMarks => "marks",
            OptionId::Numbers => "numbers",
            OptionId::NumbersFrom => "numbers-from",
            OptionId::Outfile => "outfile",
            OptionId::Preview => "preview",
        }
    }
}

/// An option that asks for a specification, list or drawing in place of the sheets.
#[derive(Clone, Copy, Debug, PartialEq, Eq)]
pub enum ProductOption {
    PrintSpec,
    Plan,
    Preview,
}

/// The reason why a command line is refused.
#[derive(Debug, Drop)]
pub enum RequestFault {
    /// clap refuses the command line, or the command line asks for help or for the version. The error is clap's.
    Words(WordsError),
    /// A word of the command line isn't UTF-8.
    NoText,
    /// Clap accepts the command line, but it lacks a subcommand or one of the subcommand's arguments.
    Lacking,
    /// The argument or option doesn't take this text as its value, or the option is `--numbers-from` without `--numbers`.
    BadValue(OptionId, String),
    /// Both `--odd` and `--even` are given.
    OddAndEven,
    /// Two options are given, and each asks for a specification, list or drawing in place of the sheets.
    TwoProducts(ProductOption, ProductOption),
    /// Memory for the request is refused.
    NoMemory,
}

impl From<AllocError> for RequestFault {
    ghost use Rattle.std.specs.Prelude.{◌≡◌};
    ghost use Rattle.impose_words.specs.declared.fault.RequestFault.TheVariants.{NoMemory};

    ghost from_gives = { λ _ fault. fault ≡ NoMemory };

    fn from(_error: AllocError) -> RequestFault {
        RequestFault::NoMemory
    }
}
