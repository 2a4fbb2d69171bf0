//! The options of all commands as a text, for other programs.
ghost use Rattle.std.specs.Prelude.{IfOk, OnOk, ◌≡◌, codes, map, string_bytes};
ghost use Rattle.std.specs.List.{fold};
ghost use Rattle.clap.specs.Words.{new_app};
ghost use Rattle.clap.specs.Simple.{on_top};
ghost use Rattle.paper_names.specs.Names.{papers};
ghost use Rattle.impose_words.specs.Command.{impose, rule_in, rules_in, with_app, with_top};
ghost use Rattle.impose_words.specs.Options as meaning;
ghost use Rattle.impose_words.specs.Options.{arguments_of, front_json, options_json, papers_json, with_argument, with_command, with_flag, with_group, with_head, with_help};
ghost use Rattle.impose_words.specs.Options.{with_letter, with_shown, with_string, with_value, with_valued};
ghost use Rattle.impose_words.specs.declared.subcommands.Group.{Group};

use crate::arguments::{Argument, Subcommand};
use crate::subcommands::{Group, SUBCOMMANDS, arguments_in};
use std::alloc::{AllocError, Global};

/// The table by which command lines are read: the subcommands, and the arguments of each group.
#[derive(Drop)]
pub struct OptionTable {
    commands: &'static [Subcommand],
    count: &'static [Argument],
    copies: &'static [Argument],
    bound_cells: &'static [Argument],
    cells: &'static [Argument],
    skip: &'static [Argument],
    duplex: &'static [Argument],
    booklet: &'static [Argument],
    zine: &'static [Argument],
    notes: &'static [Argument],
    poster: &'static [Argument],
    selection: &'static [Argument],
    specs: &'static [Argument],
    turn: &'static [Argument],
    look: &'static [Argument],
    pages: &'static [Argument],
    common: &'static [Argument],
}

impl OptionTable {
    /// The table. clap gets the arguments of each group, and finds these subcommands in command lines.
    pub fn new() -> OptionTable
        ensures arguments { (g : Group) → map rule_in (arguments_of result g) ≡ rules_in g }
        ensures commands { fold with_app (on_top with_top (new_app (codes "impose"))) result.commands.now ≡ impose }
    {
        OptionTable {
            commands: &SUBCOMMANDS,
            count: arguments_in(Group::Count),
            copies: arguments_in(Group::Copies),
            bound_cells: arguments_in(Group::BoundCells),
            cells: arguments_in(Group::Cells),
            skip: arguments_in(Group::Skip),
            duplex: arguments_in(Group::Duplex),
            booklet: arguments_in(Group::Booklet),
            zine: arguments_in(Group::Zine),
            notes: arguments_in(Group::Notes),
            poster: arguments_in(Group::Poster),
            selection: arguments_in(Group::Selection),
            specs: arguments_in(Group::Specs),
            turn: arguments_in(Group::Turn),
            look: arguments_in(Group::Look),
            pages: arguments_in(Group::Pages),
            common: arguments_in(Group::Common),
        }
    }

    fn arguments(&self, group: Group) -> &'static [Argument]
        ensures { result.now ≡ arguments_of self.now group }
    {
        match group {
            Group::Count => self.count,
            Group::Copies => self.copies,
            Group::BoundCells => self.bound_cells,
            Group::Cells => self.cells,
            Group::Skip => self.skip,
            Group::Duplex => self.duplex,
            Group::Booklet => self.booklet,
            Group::Zine => self.zine,
            Group::Notes => self.notes,
            Group::Poster => self.poster,
            Group::Selection => self.selection,
            Group::Specs => self.specs,
            Group::Turn => self.turn,
            Group::Look => self.look,
            Group::Pages => self.pages,
            Group::Common => self.common,
        }
    }
}

/// Whether a command line asks for the table of options: `--options` is its only word after the program's name.
pub fn asks_for_options(words: &[String]) -> bool
    ensures { result ≡ meaning.asks_for_options (map string_bytes words.now) }
{
    match words {
        [_, word] => word.as_str() == "--options",
        _ => false,
    }
}

/// The commands with the options that their help offers, and the papers with their sizes in points, as one JSON text.
pub fn options_text(alloc: Global, table: &OptionTable) -> Result<Vec<u8>, AllocError>
    ensures { IfOk result (λ text. text.items ≡ options_json table.now) }
{
    let mut text = front_text(alloc)?;
    push_commands(&mut text, table)?;
    text.extend_from_slice(
        b"{\"name\": \"help\", \"help\": \"Print this message or the help of the given subcommand(s)\", \"arguments\": []}\n]}\n",
    )?;
    Ok(text)
}

/// The text before the commands.
fn front_text(alloc: Global) -> Result<Vec<u8>, AllocError>
    ensures { IfOk result (λ text. text.items ≡ front_json) }
{
    let mut text = Vec::new(alloc);
    text.extend_from_slice(b"{\"version\": 1, \"program\": \"impose\", \"papers\": {")?;
    text.extend_from_slice(papers_text().as_bytes())?;
    text.extend_from_slice(b"}, \"commands\": [\n")?;
    Ok(text)
}

fn push_commands(text: &mut Vec<u8>, table: &OptionTable) -> Result<(), AllocError>
    ensures { OnOk result (text.new.items ≡ fold (with_command table.now) text.old.items table.now.commands.now) }
{
    for row in table.commands {
        push_command(text, table, row)?;
    }
    Ok(())
}

fn push_command(text: &mut Vec<u8>, table: &OptionTable, row: &Subcommand) -> Result<(), AllocError>
    ensures { OnOk result (text.new.items ≡ with_command table.now text.old.items row.now) }
{
    push_string(text, b"{\"name\": \"", row.name)?;
    push_string(text, b", \"help\": \"", row.about)?;
    text.extend_from_slice(b", \"arguments\": [\n")?;
    push_groups(text, table, row)?;
    text.extend_from_slice(
        b"{\"form\": \"option\", \"short\": \"h\", \"name\": \"help\", \"label\": \"\", \"kind\": \"flag\", \"choices\": \"\", \"help\": \"Print help\"}]},\n",
    )
}

fn push_groups(text: &mut Vec<u8>, table: &OptionTable, row: &Subcommand) -> Result<(), AllocError>
    ensures { OnOk result (text.new.items ≡ fold (with_group table.now row.now.hidden.now) text.old.items row.now.groups.now) }
{
    for group in row.groups {
        push_arguments(text, table.arguments(*group), row.hidden)?;
    }
    Ok(())
}

/// Appends these arguments, except those whose names are in `hidden`.
fn push_arguments(
    text: &mut Vec<u8>,
    arguments: &[Argument],
    hidden: &[&str],
) -> Result<(), AllocError>
    ensures { OnOk result (text.new.items ≡ fold (with_shown hidden.now) text.old.items arguments.now) }
{
    for argument in arguments {
        push_shown(text, *argument, hidden)?;
    }
    Ok(())
}

fn push_shown(text: &mut Vec<u8>, argument: Argument, hidden: &[&str]) -> Result<(), AllocError>
    ensures { OnOk result (text.new.items ≡ with_shown hidden.now text.old.items argument) }
{
    if hidden.contains(&argument.id()) {
        Ok(())
    } else {
        push_argument(text, argument)
    }
}

fn push_argument(text: &mut Vec<u8>, argument: Argument) -> Result<(), AllocError>
    ensures { OnOk result (text.new.items ≡ with_argument text.old.items argument) }
{
    match argument {
        Argument::Required(id, name, help) => push_valued(text, "required", None, id, name, help),
        Argument::Positional(id, name, help) => push_valued(text, "optional", None, id, name, help),
        Argument::Valued(id, name, help) => push_valued(text, "option", None, id, name, help),
        Argument::LetteredValued(letter, id, name, help) => {
            push_valued(text, "option", Some(letter), id, name, help)
        }
        Argument::Chosen(id, name, help, choices) => {
            push_head(text, "option", None, id)?;
            push_value(text, name, "choice", choices)?;
            push_help(text, help)
        }
        Argument::Flag(id, help) => push_flag(text, None, id, help),
        Argument::LetteredFlag(letter, id, help) => push_flag(text, Some(letter), id, help),
    }
}

fn push_valued(
    text: &mut Vec<u8>,
    form: &str,
    letter: Option<u8>,
    id: &str,
    name: &str,
    help: &str,
) -> Result<(), AllocError>
    ensures { OnOk result (text.new.items ≡ with_valued text.old.items form.now letter id.now name.now help.now) }
{
    push_head(text, form, letter, id)?;
    push_value(text, name, kind_of(name), "")?;
    push_help(text, help)
}

fn push_flag(text: &mut Vec<u8>, letter: Option<u8>, id: &str, help: &str) -> Result<(), AllocError>
    ensures { OnOk result (text.new.items ≡ with_flag text.old.items letter id.now help.now) }
{
    push_head(text, "option", letter, id)?;
    push_value(text, "", "flag", "")?;
    push_help(text, help)
}

fn push_head(text: &mut Vec<u8>, form: &str, letter: Option<u8>, id: &str) -> Result<(), AllocError>
    ensures { OnOk result (text.new.items ≡ with_head text.old.items form.now letter id.now) }
{
    push_string(text, b"{\"form\": \"", form)?;
    push_letter(text, letter)?;
    push_string(text, b"\", \"name\": \"", id)
}

fn push_letter(text: &mut Vec<u8>, letter: Option<u8>) -> Result<(), AllocError>
    ensures { OnOk result (text.new.items ≡ with_letter text.old.items letter) }
{
    text.extend_from_slice(b", \"short\": \"")?;
    match letter {
        Some(letter) => text.extend_from_slice(&[letter]),
        None => Ok(()),
    }
}

fn push_value(text: &mut Vec<u8>, name: &str, kind: &str, choices: &str) -> Result<(), AllocError>
    ensures { OnOk result (text.new.items ≡ with_value text.old.items name.now kind.now choices.now) }
{
    push_string(text, b", \"label\": \"", name)?;
    push_string(text, b", \"kind\": \"", kind)?;
    push_string(text, b", \"choices\": \"", choices)
}

fn push_help(text: &mut Vec<u8>, help: &str) -> Result<(), AllocError>
    ensures { OnOk result (text.new.items ≡ with_help text.old.items help.now) }
{
    push_string(text, b", \"help\": \"", help)?;
    text.extend_from_slice(b"},\n")
}

/// Appends `before`, which ends in a quote, this value, and a quote after it.
fn push_string(text: &mut Vec<u8>, before: &[u8], value: &str) -> Result<(), AllocError>
    ensures { OnOk result (text.new.items ≡ with_string text.old.items before.now value.now) }
{
    text.extend_from_slice(before)?;
    text.extend_from_slice(value.as_bytes())?;
    text.extend_from_slice(b"\"")
}

/// The kind of the values that the help calls by this name.
fn kind_of(name: &str) -> &'static str
    ensures { result.now ≡ meaning.kind_of name.now }
{
    match name {
        "N" | "CxR" => "count",
        "PAGES" | "NUMBER" | "CELLS" => "number",
        "LENGTH" | "SIZE" | "WIDTH" => "length",
        "LENGTHS" => "lengths",
        "PAPER" => "paper",
        "RANGES" => "ranges",
        "SCALE" => "scale",
        "FILE" | "INFILE" | "OUTFILE" => "file",
        _ => "text",
    }
}

/// The papers by their names, with their widths and heights in points.
fn papers_text() -> &'static str
    ensures { result.now ≡ papers_json papers }
{
    "\"a0\": [2384, 3370], \"a1\": [1684, 2384], \"a2\": [1191, 1684], \"a3\": [842, 1191], \"a4\": [595, 842], \"a5\": [420, 595], \"a6\": [298, \
     420], \"a7\": [210, 298], \"b0\": [2835, 4008], \"b1\": [2004, 2835], \"b2\": [1417, 2004], \"b3\": [1001, 1417], \"b4\": [709, 1001], \
     \"b5\": [499, 709], \"b6\": [354, 499], \"c4\": [649, 918], \"c5\": [459, 649], \"c6\": [323, 459], \"dl\": [312, 624], \"jisb4\": [729, \
     1032], \"jisb5\": [516, 729], \"ra3\": [865, 1219], \"ra4\": [609, 865], \"sra3\": [907, 1276], \"sra4\": [638, 907], \"letter\": [612, \
     792], \"legal\": [612, 1008], \"tabloid\": [792, 1224], \"ledger\": [1224, 792], \"statement\": [396, 612], \"executive\": [522, 756], \
     \"folio\": [612, 936], \"quarto\": [610, 780], \"10x14\": [720, 1008]"
}
