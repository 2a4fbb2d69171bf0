//! The command, its subcommands and their arguments.
ghost use Rattle.std.specs.Prelude.{◌≡◌, IfOk};
ghost use Rattle.std.specs.List.{fold};
ghost use Rattle.clap.specs.Words.{app_of, rule_of};
ghost use Rattle.impose_words.specs.Command.{app_in, flag_rule, id_of, impose, positional_rule, rule_in, with_app, with_row};

use crate::subcommands::{Group, SUBCOMMANDS, arguments_in};
use clap::{Arg, ArgAction, Command};
use std::alloc::{AllocError, Global};

/// The text at the end of the help.
const PAPERS_AND_EXAMPLES: &str = "Papers:
  a0, a1, a2, a3, a4, a5, a6, a7, b0, b1, b2, b3, b4, b5, b6, c4, c5, c6, dl, jisb4, jisb5, ra3, ra4, sra3,
  sra4, letter, legal, tabloid, ledger, statement, executive, folio, quarto, 10x14; or a size, such as
  210x297mm or 8.5x11in; -landscape after any of them exchanges width and height

Examples:
  impose nup 2 in.ps out.ps           two pages on each sheet
  impose booklet in.ps out.ps         print on both sides, fold, staple
  impose zine in.ps out.ps            eight pages on one sheet: fold, cut, fold
  impose cards 8 in.ps out.ps         each page eight times on a sheet
  impose stack 2 in.ps out.ps         cut the pile in two, and the pages run on
  impose notes 3 in.ps out.ps         three pages on a sheet, and lines for notes beside them
  impose poster 2x2 in.ps out.ps      each page over four sheets, to be glued together
  impose select 9-3,12- in.ps out.ps  pages 9 down to 3, then 12 to the last
  impose booklet --pages 3-14 in.ps out.ps
  impose-pdf booklet in.pdf out.pdf   a booklet of a PDF

The options of a command: impose booklet --help. Page ranges, lengths, reports: man impose
All options as JSON, for other programs: impose --options";

/// An argument of a subcommand. Its texts are its name, the name of its value in the help, and its help. An option without a value lacks the second
/// text. The name of an option is the text after `--`. The letter of a short form comes before these texts, and the values of an option that takes
/// only some come after them, with blanks between them.
#[derive(Clone, Copy)]
pub(crate) enum Argument {
    /// A required word.
    Required(&'static str, &'static str, &'static str),
    /// An optional word.
    Positional(&'static str, &'static str, &'static str),
    /// An option with a value.
    Valued(&'static str, &'static str, &'static str),
    /// An option that takes one of a few values.
    Chosen(&'static str, &'static str, &'static str, &'static str),
    /// An option with a value, and with a short form of one letter.
    LetteredValued(u8, &'static str, &'static str, &'static str),
    /// An option without a value.
    Flag(&'static str, &'static str),
    /// An option without a value, and with a short form of one letter.
    LetteredFlag(u8, &'static str, &'static str),
}

impl Argument {
    /// The name by which clap knows the argument.
    pub(crate) fn id(self) -> &'static str
        ensures { result.now ≡ id_of self }
    {
        match self {
            Argument::Required(id, ..) | Argument::Positional(id, ..) => id,
            Argument::Valued(id, ..) | Argument::Chosen(id, ..) => id,
            Argument::LetteredValued(_, id, ..) => id,
            Argument::Flag(id, ..) | Argument::LetteredFlag(_, id, ..) => id,
        }
    }
}

/// A subcommand: its name, its help, the groups of its arguments, and the names of options that the help leaves out because the subcommand refuses
/// them.
pub(crate) struct Subcommand {
    pub(crate) name: &'static str,
    pub(crate) about: &'static str,
    pub(crate) groups: &'static [Group],
    pub(crate) hidden: &'static [&'static str],
}

/// The command with its subcommands. The only error is refused memory.
pub(crate) fn command<'a>(alloc: Global) -> Result<Command<'a>, AllocError>
    ensures { IfOk result (λ c. app_of c ≡ impose) }
{
    let bare = Command::new(alloc, "impose")
        .version("1.0")
        .about("Puts the pages of a PostScript document on sheets to print")
        .after_help(PAPERS_AND_EXAMPLES)
        .subcommand_required(true)
        .arg_required_else_help(true);
    with_subcommands(alloc, bare, &SUBCOMMANDS)
}

fn with_subcommands<'a>(
    alloc: Global,
    command: Command<'a>,
    rows: &[Subcommand],
) -> Result<Command<'a>, AllocError>
    ensures { IfOk result (λ c. app_of c ≡ fold with_app (app_of command.entry) rows.now) }
{
    let mut command = command;
    for row in rows {
        let added = command_of(alloc, row)?;
        command = command.subcommand(added)?;
    }
    Ok(command)
}

fn command_of<'a>(alloc: Global, row: &Subcommand) -> Result<Command<'a>, AllocError>
    ensures { IfOk result (λ c. app_of c ≡ app_in row.now) }
{
    let mut command = Command::new(alloc, row.name).about(row.about);
    for group in row.groups {
        command = with_arguments(alloc, command, arguments_in(*group), row.hidden)?;
    }
    Ok(command)
}

/// The command with these arguments. The help leaves out those whose names are in `hidden`.
fn with_arguments<'a>(
    alloc: Global,
    command: Command<'a>,
    arguments: &[Argument],
    hidden: &[&str],
) -> Result<Command<'a>, AllocError>
    ensures { IfOk result (λ c. app_of c ≡ fold with_row (app_of command.entry) arguments.now) }
{
    let mut command = command;
    for argument in arguments {
        let is_hidden = hidden.contains(&argument.id());
        command = command.arg(arg_of(alloc, *argument).hide(is_hidden))?;
    }
    Ok(command)
}

fn arg_of<'a>(alloc: Global, argument: Argument) -> Arg<'a>
    ensures { rule_of result ≡ rule_in argument }
{
    match argument {
        Argument::Required(id, name, help) => positional(alloc, id, name, help).required(true),
        Argument::Positional(id, name, help) => positional(alloc, id, name, help),
        Argument::Valued(id, name, help) | Argument::Chosen(id, name, help, _) => {
            positional(alloc, id, name, help).long(id)
        }
        Argument::LetteredValued(letter, id, name, help) => {
            positional(alloc, id, name, help)
                .long(id)
                .short(char::from(letter))
        }
        Argument::Flag(id, help) => flag(alloc, id, help),
        Argument::LetteredFlag(letter, id, help) => flag(alloc, id, help).short(char::from(letter)),
    }
}

fn positional<'a>(alloc: Global, id: &'a str, name: &'a str, help: &'a str) -> Arg<'a>
    ensures { rule_of result ≡ positional_rule id.entry.now }
{
    Arg::new(alloc, id)
        .value_name(name)
        .action(ArgAction::Set)
        .help(help)
}

fn flag<'a>(alloc: Global, id: &'a str, help: &'a str) -> Arg<'a>
    ensures { rule_of result ≡ flag_rule id.entry.now }
{
    Arg::new(alloc, id)
        .long(id)
        .action(ArgAction::SetTrue)
        .help(help)
}
