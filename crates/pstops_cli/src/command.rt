//! Reads the command line of `pstops`.
ghost use Rattle.std.specs.Prelude.{◌≡◌, IfOk, IfErr, codes, is_some, map, true, string_bytes};
ghost use Rattle.clap.specs.Words.{first_value, found_of, matches_of, one_of, rows_of, rule_of};
ghost use Rattle.imposer.specs.Workers.{AreWorkers};
ghost use Rattle.pstops_cli.specs.Command.{Finds, IsChain, RefusesParse, Reads, RefusesValues, RefusesWords, TakesWords};
ghost use Rattle.pstops_cli.specs.Command.{counted_rule, options_found, rules, valued_rule, word_rule, pstops};
ghost use Rattle.pstops_cli.specs.Values.{AreInRange};
ghost use Rattle.pstops_cli.specs.Values as meaning;
ghost use Rattle.pstops_cli.specs.declared.command.CommandFault.TheVariants.{NoMemory};

use crate::values::options_named;
use clap::error::ErrorKind;
use clap::{Arg, ArgAction, ArgMatches, Command, value_parser};
use command_words::{is_set, number_of, owned, text_of};
use imposer::{Options, Workers};
use std::alloc::{AllocError, Global};

/// A request, made from a command line.
#[derive(Debug, Drop)]
pub struct Request {
    /// The page specification, as the command line gives it.
    pub spec: String,
    /// The name of the input file. `None` for standard input.
    pub infile: Option<String>,
    /// The name of the output file. `None` for standard output.
    pub outfile: Option<String>,
    /// The paper, the border, the signatures and the numbers of threads.
    pub options: Options,
    /// Whether the line that reports a finished run is left out.
    pub quiet: bool,
}

/// The reason why a command line is refused.
#[derive(Clone, Copy, Debug, PartialEq, Eq)]
pub enum CommandFault {
    /// The words don't form a command line: for example, the specification is missing, an option is unknown, or the value of `-s`, `-j` or `-k` isn't
    /// a whole number in its range.
    BadWords,
    /// There is no paper with the given name.
    UnknownPaper,
    /// The value of the option with this letter isn't a length, or isn't in its range.
    BadLength(char),
    /// Memory for the request was refused.
    NoMemory,
}

impl From<AllocError> for CommandFault {
    ghost from_gives = { λ _ fault. fault ≡ NoMemory };

    fn from(_error: AllocError) -> CommandFault {
        CommandFault::NoMemory
    }
}

/// Reads the words after the program's name as a request: `[-q] [-s sides] [-p paper] [-w W] [-h H] [-d width] [-j preparers] [-k imposers] SPECS
/// [INFILE [OUTFILE]]`. `-s` is the option of psbook(1), `-j` and `-k` are this program's own, and the others are options of pstops(1).
///
/// `-q` leaves out the report line. SPECS is a page specification; it isn't checked here. `-s` puts pages into signatures of this number of sides, a
/// whole number from 4 to 1,000,000. Only a run checks that the number is a multiple of four. `-p` names the paper, which is a4 by default. `-w`
/// replaces the width of that paper, and `-h` its height. `-d` sets the width of a border round each page; 0 is no border. A length is a number
/// followed by `pt`, `cm`, `mm` or `in`, or by nothing for points. `-j` and `-k` set the numbers of threads that prepare pages and that impose
/// sheets: whole numbers from 1 to 16, and 2 by default.
///
/// The error is `BadWords` if the words don't form such a command line, or if a value of `-s`, `-j` or `-k` isn't in its range. Otherwise an unknown
/// paper is reported first, as `UnknownPaper`. Then `BadLength` reports the first wrong value: that of `-w`, else that of `-h`, else that of `-d`,
/// wherever these options are on the command line. Values of `-w` and `-h` must be above 0, and that of `-d` must not be below 0. Refused memory is
/// `NoMemory`.
#[tactic(auto, using(crate::proofs::SimpleCommand::pstops_is_simple))]
pub fn read_command(alloc: Global, words: &[String]) -> Result<Request, CommandFault>
    ensures taken { IfOk result (λ _. TakesWords (map string_bytes words.now)) }
    ensures read { IfOk result (Reads (matches_of pstops (map string_bytes words.now))) }
    ensures workers { IfOk result (λ request. AreWorkers request.options.workers) }
    ensures sides { IfOk result (λ request. AreInRange request.options.sides) }
    // The error is BadWords only if the words don't form a command line. It is UnknownPaper or BadLength only if a value isn't a paper or a length.
    ensures refused { IfErr result (RefusesWords (map string_bytes words.now)) }
{
    let matches = parse(alloc, words)?;
    request_of(alloc, &matches)
}

/// The values that clap finds among the words. The error is `NoMemory` if memory is refused, otherwise `BadWords`.
fn parse<'a>(alloc: Global, words: &'a [String]) -> Result<ArgMatches<'a>, CommandFault>
    ensures taken { IfOk result (λ _. TakesWords (map string_bytes words.entry.now)) }
    ensures found { IfOk result (Finds (map string_bytes words.entry.now)) }
    ensures refused { IfErr result (RefusesParse (map string_bytes words.entry.now)) }
{
    let command = pstops_command(alloc)?;
    match command.try_get_matches_from(words) {
        Ok(matches) => Ok(matches),
        Err(error) => {
            if error.kind() == ErrorKind::OutOfMemory {
                Err(CommandFault::NoMemory)
            } else {
                Err(CommandFault::BadWords)
            }
        }
    }
}

/// The request that these values give. The error is that of the first wrong value, or `NoMemory`.
fn request_of(alloc: Global, matches: &ArgMatches<'_>) -> Result<Request, CommandFault>
    requires { is_some (first_value (found_of matches.now) (codes "specs")) ≡ true }
    ensures read { IfOk result (Reads (rows_of (found_of matches.now))) }
    ensures refused { IfErr result (RefusesValues (rows_of (found_of matches.now))) }
{
    let options = options_of(matches)?;
    let quiet = is_set(matches, "quiet");
    let spec = String::from_str(alloc, text_of(matches, "specs").unwrap())?;
    let infile = owned(alloc, text_of(matches, "infile"))?;
    let outfile = owned(alloc, text_of(matches, "outfile"))?;
    Ok(Request {
        spec,
        infile,
        outfile,
        options,
        quiet,
    })
}

/// The options of a run that these values give. The error is that of the first wrong value of `-p`, `-w`, `-h` and `-d`, in this order.
fn options_of(matches: &ArgMatches<'_>) -> Result<Options, CommandFault>
    ensures { result ≡ options_found (rows_of (found_of matches.now)) }
{
    let workers = Workers {
        preparers: worker_count(matches, "preparers"),
        imposers: worker_count(matches, "imposers"),
    };
    options_named(
        text_of(matches, "paper"),
        text_of(matches, "width"),
        text_of(matches, "height"),
        text_of(matches, "border"),
        number_of(matches, "sides"),
        workers,
    )
}

/// The number of threads that the option `id` gives, or 2 without the option.
fn worker_count(matches: &ArgMatches<'_>, id: &str) -> u32
    ensures { result ≡ meaning.count_named (one_of id.now (rows_of (found_of matches.now))) }
{
    number_of(matches, id).unwrap_or(2)
}

/// The rules of the command line, for clap. Clap's own options for help and version are switched off, so that their letters are free.
fn pstops_command<'a>(alloc: Global) -> Result<Command<'a>, AllocError>
    ensures { IfOk result IsChain }
{
    let args = args(alloc)?;
    let bare = Command::new(alloc, "pstops")
        .no_binary_name(true)
        .disable_help_flag(true)
        .disable_version_flag(true);
    bare.args(args)
}

/// The arguments that the command line may have.
fn args<'a>(alloc: Global) -> Result<Vec<Arg<'a>>, AllocError>
    ensures { IfOk result (λ v. map rule_of v.items ≡ rules) }
{
    let args = vec![in alloc;
        positional_argument(alloc, "specs").required(true),
        positional_argument(alloc, "infile"),
        positional_argument(alloc, "outfile"),
        Arg::new(alloc, "quiet")
            .short('q')
            .action(ArgAction::SetTrue),
        valued(alloc, "paper", 'p'),
        valued(alloc, "width", 'w'),
        valued(alloc, "height", 'h'),
        valued(alloc, "border", 'd'),
        worker_option(alloc, "preparers", 'j'),
        worker_option(alloc, "imposers", 'k'),
        valued(alloc, "sides", 's').value_parser(value_parser!(u32).range(4..=1_000_000)),
    ]?;
    Ok(args)
}

fn positional_argument<'a>(alloc: Global, id: &'a str) -> Arg<'a>
    ensures { rule_of result ≡ word_rule id.entry.now }
{
    Arg::new(alloc, id).action(ArgAction::Set)
}

/// An option that has this letter and takes a value.
fn valued<'a>(alloc: Global, id: &'a str, short: char) -> Arg<'a>
    ensures { rule_of result ≡ valued_rule id.entry.now short }
{
    Arg::new(alloc, id).short(short).action(ArgAction::Set)
}

/// An option whose value is a whole number from 1 to 16.
fn worker_option<'a>(alloc: Global, id: &'a str, short: char) -> Arg<'a>
    ensures { rule_of result ≡ counted_rule id.entry.now short }
{
    valued(alloc, id, short).value_parser(value_parser!(u32).range(1..=16))
}
