//! Reads the words of a command line into a request.
ghost use Rattle.std.specs.Prelude.{◌≡◌, [], ◌∷◌, IfErr, IfOk, IfSome, MatchOption, None, Option, Some, codes, false, is_some, map, option_map, string_bytes, true};
ghost use Rattle.std.specs.Fn.{FnOnceReturnsAt};
ghost use Rattle.std.specs.Option.{ok_or};
ghost use Rattle.clap.specs.Words.{Text, fault_of, is_simple, subcommand_of, subcommand_rows_of};
ghost use Rattle.lengths.specs.Lengths.{a4};
ghost use Rattle.impose_words.specs.Command.{impose};
ghost use Rattle.impose_words.specs.Words.{AsksFor, ChoosesBy, Entered, MakesBy, NamesPicture, ReadsRequest, ReadsSizes, SpacesBy};
ghost use Rattle.impose_words.specs.Words.{cells_of_command as cells_by, command_name, file_asked, first_found, given, has_numbers, is_outfile, length_found};
ghost use Rattle.impose_words.specs.Words.{lines_found, marks_found, numbers_found, order_found, ranges_id, rows_in, skip_found};
ghost use Rattle.impose_words.specs.Products.{is_plan, is_specification, picture_in};
ghost use Rattle.impose_words.specs.Spacings.{keeps_room};
ghost use Rattle.impose_words.specs.Faults.{NoValue, ParseRefuses, RefusesCommand, RefusesFound, SaysWrong, Wrong, wrong_among, wrong_cells};
ghost use Rattle.impose_words.specs.Faults.{wrong_choice, wrong_for, wrong_in, wrong_layout, wrong_lines, wrong_marks, wrong_numbers, wrong_order};
ghost use Rattle.impose_words.specs.Faults.{wrong_product, wrong_sizes, wrong_skip, wrong_spacing, wrong_specs};
ghost use Rattle.impose_words.specs.declared.fault.OptionId.TheVariants as opt;

use crate::arguments::command;
use crate::arranging::{
    NO_MARKS, booklet_marks_named, cells_named, cut_marks_named, note_count_named,
    number_size_named, run_named, turn_named, turned_named,
};
use crate::edges::{Margins, gaps_named, margins_named};
use crate::fault::{CellCommand, OptionId, ProductOption, RequestFault};
use crate::poster_size::poster_size_named;
use crate::request::{ImposeRequest, Layout, PageChoice, Product, Spacing, Turning};
use crate::signature::{signing_named, whole_number};
use crate::sizes::{border_with_unit, length_with_unit, parse_number, size_named};
use clap::ArgMatches;
use clap::error::ErrorKind;
use command_words::{is_set, owned, text_of};
use dressing::{Marks, Numbering};
use layouts::{FillOrder, Free, Order, Turned};
use lengths::{Grains, Paper, a4};
use pagespec::Turn;
use rows::{Part, Signing};
use std::alloc::Global;

/// The request that a command line makes. The first of the words is the program's name. The default paper of the request is a4, for the caller to
/// replace with the user's.
///
/// The fault is `Words` if clap refuses the command line, or if the command line asks for help or for the version. Refused memory is `NoMemory`.
/// Otherwise the first of these faults is reported:
///
/// The sizes: an unknown paper after `--paper`, then after `--sheet`; a border that isn't a length, or is negative; an unknown turn.
///
/// The layout: a missing argument; a number or grid that the command doesn't take; a signature that leaves can't have; a value of `--skip` that isn't
/// a number below the number of a sheet's cells.
///
/// The spacing: margins or gaps in none of the forms of these options; a trim, creep or overlap that isn't a length.
///
/// The order and scale: an unknown order; an unknown side after `--turned`; a scale that isn't a number.
///
/// The marks: marks that the layout doesn't have; a value of `--numbers` that isn't a length from a tenth of a point to 72 points; a value of
/// `--numbers-from` that isn't a whole number, or this option without `--numbers`.
///
/// The pages and files: both `--odd` and `--even`; an OUTFILE other than `-` that begins with a minus sign; two of `--print-spec`, `--plan` and
/// `--preview`; a file after `--preview`, other than `-`, whose name doesn't end in `.svg`.
#[tactic(auto, using(crate::proofs::Commands::impose_is_simple))]
pub fn read_command(alloc: Global, words: &[String]) -> Result<ImposeRequest, RequestFault>
    // The command takes the command line, and the request is made from the values in it.
    ensures read { IfOk result (λ request.
        Entered (map string_bytes words.now) (λ name found. ReadsRequest name found request)) }
    ensures home { IfOk result (λ request. request.default_paper ≡ a4) }
    // No fault comes before the one that is reported.
    ensures refused { IfErr result (RefusesCommand (map string_bytes words.now)) }
    // The command is simple: the words alone decide whether the command takes them, and which values it finds in them.
    ensures simple { is_simple impose ≡ true }
{
    let matches = parse_words(alloc, words)?;
    match matches.subcommand() {
        Some((name, found)) => subcommand_request(alloc, name, found),
        None => Err(RequestFault::Lacking),
    }
}

/// The values that clap finds in the command line. The error is `NoMemory` if memory is refused, otherwise `Words`.
fn parse_words<'a>(alloc: Global, words: &'a [String]) -> Result<ArgMatches<'a>, RequestFault>
    ensures taken { IfOk result (λ _. fault_of impose (map string_bytes words.entry.now) ≡ []) }
    ensures found { IfOk result (λ m. subcommand_rows_of m ≡ subcommand_of impose (map string_bytes words.entry.now)) }
    ensures refused { IfErr result (ParseRefuses (map string_bytes words.entry.now)) }
{
    let command = command(alloc)?;
    match command.try_get_matches_from(words) {
        Ok(matches) => Ok(matches),
        Err(error) => {
            if error.kind() == ErrorKind::OutOfMemory {
                Err(RequestFault::NoMemory)
            } else {
                Err(RequestFault::Words(error))
            }
        }
    }
}

/// The request that the subcommand `name` makes from the values that clap found for it.
fn subcommand_request(
    alloc: Global,
    name: &str,
    found: &ArgMatches<'_>,
) -> Result<ImposeRequest, RequestFault>
    ensures read { IfOk result (ReadsRequest name.now (rows_in found.now)) }
    ensures home { IfOk result (λ request. request.default_paper ≡ a4) }
    ensures refused { IfErr result (RefusesFound name.now (rows_in found.now)) }
{
    let sizes = match sizes_of(found) {
        Ok(sizes) => sizes,
        Err(option) => return Err(bad_value(alloc, found, option)),
    };
    let layout = layout_of(alloc, name, found)?;
    request_for(alloc, sizes, layout, found)
}

/// The request for this layout, with the papers, border and turn in `sizes`. The remaining values are read in the order in which `read_command` names
/// their faults, and the first fault is reported.
fn request_for(
    alloc: Global,
    sizes: Sizes,
    layout: Layout,
    found: &ArgMatches<'_>,
) -> Result<ImposeRequest, RequestFault>
    requires sizes { ReadsSizes (rows_in found.now) sizes.page_paper sizes.sheet_paper sizes.border sizes.turn }
    ensures read { (name : Text) → AsksFor name (rows_in found.now) layout
        → IfOk result (ReadsRequest name (rows_in found.now)) }
    ensures home { IfOk result (λ request. request.default_paper ≡ a4) }
    ensures refused { IfErr result (λ f. SaysWrong (rows_in found.now) f (wrong_for layout (rows_in found.now))) }
{
    let spacing = match spacing_of(&layout, found) {
        Ok(spacing) => spacing,
        Err(option) => return Err(bad_value(alloc, found, option)),
    };
    let marks = match marks_of(&layout, found) {
        Ok(marks) => marks,
        Err(option) => return Err(bad_value(alloc, found, option)),
    };
    let choice = choice_of(alloc, &layout, found)?;
    let infile = owned(alloc, file_named(text_of(found, "infile")))?;
    let outfile = outfile_of(alloc, found)?;
    let product = product_of(alloc, found)?;
    Ok(ImposeRequest {
        layout,
        spacing,
        choice,
        last_at_back: is_set(found, "cover"),
        turn: sizes.turn,
        page_paper: sizes.page_paper,
        default_paper: a4(),
        sheet_paper: sizes.sheet_paper,
        border: sizes.border,
        marks,
        is_guarded: !is_set(found, "unguarded"),
        product,
        is_quiet: is_set(found, "quiet"),
        infile,
        outfile,
        replaces: is_set(found, "replace"),
    })
}

/// The requested papers, border and turn.
#[derive(Clone, Copy, Drop)]
struct Sizes {
    page_paper: Option<Paper>,
    sheet_paper: Option<Paper>,
    border: Option<Grains>,
    turn: Turning,
}

/// Reads the papers, the border and the turn, in this order. A border of width 0 is no border. The error is the first option that has an invalid
/// value.
fn sizes_of(found: &ArgMatches<'_>) -> Result<Sizes, OptionId>
    ensures read { IfOk result (λ sizes.
        ReadsSizes (rows_in found.now) sizes.page_paper sizes.sheet_paper sizes.border sizes.turn) }
    ensures wrong { wrong_sizes (rows_in found.now) ≡ wrong_in result }
{
    let page_paper = value(found, OptionId::Paper, size_named)?;
    let sheet_paper = value(found, OptionId::Sheet, size_named)?;
    let border = value(found, OptionId::Border, border_with_unit)?;
    let turn = value(found, OptionId::Turn, turn_named)?;
    Ok(Sizes {
        page_paper,
        sheet_paper,
        border: border.unwrap_or(None),
        turn: turn.unwrap_or(Turning::All(Turn::None)),
    })
}

/// The fault for an invalid value of this option or argument: `BadValue`, or `NoMemory` if memory for the value is refused.
fn bad_value(alloc: Global, found: &ArgMatches<'_>, option: OptionId) -> RequestFault
    ensures { (wrong : Option Wrong) → wrong ≡ Some (NoValue option) → SaysWrong (rows_in found.now) result wrong }
{
    let text = text_of(found, option.id()).unwrap_or("");
    match String::from_str(alloc, text) {
        Ok(text) => RequestFault::BadValue(option, text),
        Err(_) => RequestFault::NoMemory,
    }
}

/// The value of this option, as `parse` reads its text. `None` without the option. The error is the option, if `parse` finds no value in the text.
fn value<T, F: FnOnce(&str) -> Option<T>>(
    found: &ArgMatches<'_>,
    option: OptionId,
    parse: F,
) -> Result<Option<T>, OptionId>
    requires { F.IsAlwaysCallable parse }
    ensures { MatchOption (given option (rows_in found.now)) (result ≡ Ok None)
        (λ text. (value : _) × FnOnceReturnsAt F.FnOnce parse text value × (result ≡ ok_or (option_map (λ v. Some v) value) option)) }
{
    text_of(found, option.id())
        .map(|text| parse(text).ok_or(option))
        .transpose()
}

/// The layout that the subcommand of this name asks for.
fn layout_of(alloc: Global, name: &str, found: &ArgMatches<'_>) -> Result<Layout, RequestFault>
    ensures read { IfOk result (AsksFor name.now (rows_in found.now)) }
    ensures refused { IfErr result (λ f. SaysWrong (rows_in found.now) f (wrong_layout name.now (rows_in found.now))) }
{
    match name {
        "nup" => cells_layout(alloc, CellCommand::NUp, found),
        "booklet" => booklet_of(alloc, found),
        "zine" => Ok(Layout::Zine),
        "cards" => cells_layout(alloc, CellCommand::Cards, found),
        "stack" => cells_layout(alloc, CellCommand::Stack, found),
        "notes" => cells_layout(alloc, CellCommand::Notes, found),
        "poster" => cells_layout(alloc, CellCommand::Poster, found),
        "select" => selection_of(found),
        "spec" => spec_of(alloc, found),
        _ => Err(RequestFault::Lacking),
    }
}

/// The layout of a command whose first argument names cells or, for a poster, sheets.
fn cells_layout(
    alloc: Global,
    command: CellCommand,
    found: &ArgMatches<'_>,
) -> Result<Layout, RequestFault>
    ensures read { IfOk result (AsksFor (command_name command) (rows_in found.now)) }
    ensures refused { IfErr result (λ f. SaysWrong (rows_in found.now) f (wrong_cells command (rows_in found.now))) }
{
    let Some(count) = text_of(found, "count") else {
        return Err(RequestFault::Lacking);
    };
    match layout_in(command, count, found) {
        Some(layout) => Ok(layout),
        None => Err(bad_value(alloc, found, OptionId::Count(command))),
    }
}

/// The layout of this command, with the cells that its first argument `count` names. For notes the argument is a number of pages. For a poster it is
/// its size. `None` if the command doesn't take the argument.
fn layout_in(command: CellCommand, count: &str, found: &ArgMatches<'_>) -> Option<Layout>
    requires { given (opt.Count command) (rows_in found.now) ≡ Some count.now }
    ensures read { IfSome result (AsksFor (command_name command) (rows_in found.now)) }
    ensures taken { is_some result ≡ is_some (cells_by command count.now) }
{
    Some(match command {
        CellCommand::NUp => Layout::NUp(cells_named(count)?),
        CellCommand::Cards => Layout::Cards(cells_named(count)?),
        CellCommand::Stack => Layout::Stack {
            cells: cells_named(count)?,
            duplex: is_set(found, "duplex"),
        },
        CellCommand::Notes => Layout::Notes {
            pages: note_count_named(count)?,
        },
        CellCommand::Poster => Layout::Poster(poster_size_named(count)?),
    })
}

fn booklet_of(alloc: Global, found: &ArgMatches<'_>) -> Result<Layout, RequestFault>
    ensures read { IfOk result (AsksFor (codes "booklet") (rows_in found.now)) }
    ensures refused { IfErr result (λ f.
        SaysWrong (rows_in found.now) f (wrong_among (opt.Signature ∷ []) (rows_in found.now))) }
{
    match value(found, OptionId::Signature, signing_named) {
        Ok(signing) => Ok(Layout::Booklet {
            signing: signing.unwrap_or(Signing::InOne),
            long_edge: is_set(found, "long-edge"),
        }),
        Err(option) => Err(bad_value(alloc, found, option)),
    }
}

fn selection_of(found: &ArgMatches<'_>) -> Result<Layout, RequestFault>
    ensures read { IfOk result (AsksFor (codes "select") (rows_in found.now)) }
    ensures refused { IfErr result (λ f.
        SaysWrong (rows_in found.now) f (wrong_layout (codes "select") (rows_in found.now))) }
{
    match text_of(found, "ranges") {
        Some(_) => Ok(Layout::Selection),
        None => Err(RequestFault::Lacking),
    }
}

fn spec_of(alloc: Global, found: &ArgMatches<'_>) -> Result<Layout, RequestFault>
    ensures read { IfOk result (AsksFor (codes "spec") (rows_in found.now)) }
    ensures refused { IfErr result (λ f. SaysWrong (rows_in found.now) f (wrong_specs (rows_in found.now))) }
{
    let specs = match text_of(found, "specs") {
        Some(specs) => String::from_str(alloc, specs)?,
        None => return Err(RequestFault::Lacking),
    };
    match value(found, OptionId::Signature, signing_named) {
        Ok(signing) => Ok(Layout::Spec { specs, signing }),
        Err(option) => Err(bad_value(alloc, found, option)),
    }
}

/// The number of cells of the first sheet that are used already; 0 without `--skip`, and for layouts that don't take it. The error is the option
/// `--skip`, if its value isn't a number below the number of a sheet's cells.
fn skipped_of(layout: &Layout, found: &ArgMatches<'_>) -> Result<u32, OptionId>
    ensures read { IfOk result (λ skipped. skip_found layout.now (rows_in found.now) ≡ Some skipped) }
    ensures wrong { wrong_skip layout.now (rows_in found.now) ≡ wrong_in result }
{
    let cells = match layout {
        Layout::NUp(cells) | Layout::Cards(cells) => cells.count(),
        _ => return Ok(0),
    };
    let skipped = value(found, OptionId::Skip(cells), |text| {
        whole_number(text).filter(|skipped| u64::from(*skipped) < cells)
    })?;
    Ok(skipped.unwrap_or(0))
}

/// The number of skipped cells, the requested margins, gaps, trim, creep and overlap, the order in which cells are filled, and the scale of pages. A
/// layout that takes none of these has them as in `Spacing::none()`. The error is the first option that has an invalid value.
fn spacing_of(layout: &Layout, found: &ArgMatches<'_>) -> Result<Spacing, OptionId>
    ensures read { IfOk result (SpacesBy (keeps_room layout.now) (rows_in found.now)) }
    ensures skipped { IfOk result (λ spacing. skip_found layout.now (rows_in found.now) ≡ Some spacing.skipped) }
    ensures wrong { wrong_spacing layout.now (rows_in found.now) ≡ wrong_in result }
{
    let skipped = skipped_of(layout, found)?;
    if !layout.keeps_room() {
        return Ok(Spacing {
            skipped,
            ..Spacing::none()
        });
    }
    let margins = value(found, OptionId::Margin, margins_named)?;
    let gaps = value(found, OptionId::Gap, gaps_named)?;
    let trim = length_of(found, OptionId::Trim)?;
    let creep = length_of(found, OptionId::Creep)?;
    let overlap = length_of(found, OptionId::Overlap)?;
    let order = order_of(found)?;
    let scale = value(found, OptionId::Scale, parse_number)?;
    let Margins { free, inner } = margins.unwrap_or(Margins::of(Free::none()));
    let Free { across, up, .. } = gaps.unwrap_or(Free::none());
    Ok(Spacing {
        free: Free {
            across,
            up,
            trim,
            ..free
        },
        inner,
        creep,
        overlap,
        order,
        scale,
        same_scale: is_set(found, "same-scale"),
        skipped,
    })
}

/// The length that an option names; 0 without the option. The error is the option, if its value isn't a length.
fn length_of(found: &ArgMatches<'_>, option: OptionId) -> Result<Grains, OptionId>
    ensures { result ≡ ok_or (length_found option (rows_in found.now)) option }
{
    let length = value(found, option, length_with_unit)?;
    Ok(length.unwrap_or(Grains::ZERO))
}

/// The order in which cells are filled, and the side to which a sheet is turned to read its pages. With `--rtl`, any order runs from right to left.
/// The error is the first option that has an invalid value.
fn order_of(found: &ArgMatches<'_>) -> Result<Order, OptionId>
    ensures read { IfOk result (λ order. order_found (rows_in found.now) ≡ Some order) }
    ensures wrong { wrong_order (rows_in found.now) ≡ wrong_in result }
{
    let run = value(found, OptionId::Order, run_named)?;
    let turned = value(found, OptionId::Turned, turned_named)?;
    let (run, from_right) = run.unwrap_or((FillOrder::Rows, false));
    Ok(Order {
        run,
        right_to_left: from_right || is_set(found, "rtl"),
        turned: turned.unwrap_or(Turned::Upright),
    })
}

/// The requested marks and page numbers that the layout can have, and the ruled lines that sheets with cells for notes always have. The error is the
/// first option that has an invalid value.
fn marks_of(layout: &Layout, found: &ArgMatches<'_>) -> Result<Marks, OptionId>
    ensures read { IfOk result (λ marks. marks_found layout.now (rows_in found.now) ≡ Some marks) }
    ensures wrong { wrong_marks layout.now (rows_in found.now) ≡ wrong_in result }
{
    let lines = lines_of(layout, found)?;
    let numbers = numbering_option(layout, found)?;
    Ok(Marks { numbers, ..lines })
}

/// The requested fold and cut marks that the layout can have, or the ruled lines that sheets with cells for notes always have. The error is the
/// option that has an invalid value.
fn lines_of(layout: &Layout, found: &ArgMatches<'_>) -> Result<Marks, OptionId>
    ensures read { IfOk result (λ marks. lines_found layout.now (rows_in found.now) ≡ Some marks) }
    ensures wrong { wrong_lines layout.now (rows_in found.now) ≡ wrong_in result }
{
    match (layout, text_of(found, "marks")) {
        (Layout::Booklet { .. }, Some(text)) => {
            booklet_marks_named(text).ok_or(OptionId::BookletMarks)
        }
        (
            Layout::NUp(_) | Layout::Cards(_) | Layout::Stack { .. } | Layout::Poster(_),
            Some(text),
        ) => { cut_marks_named(text).ok_or(OptionId::CutMarks) }
        (Layout::Notes { .. }, _) => Ok(Marks {
            ruled: true,
            ..NO_MARKS
        }),
        _ => Ok(NO_MARKS),
    }
}

/// The requested page numbers: their size, and the number of the first page. `None` without `--numbers`, and for a layout that can't have page
/// numbers. The error is the first option that has an invalid value, or `--numbers-from` without `--numbers`.
fn numbering_option(layout: &Layout, found: &ArgMatches<'_>) -> Result<Option<Numbering>, OptionId>
    ensures read { IfOk result (λ numbers. numbers_found layout.now (rows_in found.now) ≡ Some numbers) }
    ensures wrong { wrong_numbers (has_numbers layout.now) (rows_in found.now) ≡ wrong_in result }
{
    if !layout.has_numbers() {
        return Ok(None);
    }
    let size = value(found, OptionId::Numbers, number_size_named)?;
    let first = first_of(found).ok_or(OptionId::NumbersFrom)?;
    Ok(size.map(|size| Numbering { size, first }))
}

/// The number that is drawn on the first page; 1 without `--numbers-from`. `None` if that option's value isn't a whole number, or if the option is
/// given without `--numbers`.
fn first_of(found: &ArgMatches<'_>) -> Option<u32>
    ensures { result ≡ first_found (rows_in found.now) }
{
    match (text_of(found, "numbers"), text_of(found, "numbers-from")) {
        (_, None) => Some(1),
        (None, Some(_)) => None,
        (Some(_), Some(text)) => whole_number(text),
    }
}

/// The pages of the document that are laid out, and their order. `--odd` and `--even` together are refused.
fn choice_of(
    alloc: Global,
    layout: &Layout,
    found: &ArgMatches<'_>,
) -> Result<PageChoice, RequestFault>
    ensures read { IfOk result (ChoosesBy (ranges_id layout.now) (rows_in found.now)) }
    ensures refused { IfErr result (λ f.
        SaysWrong (rows_in found.now) f (wrong_choice (rows_in found.now))) }
{
    match layout {
        Layout::Selection => choice_by(alloc, "ranges", found),
        _ => choice_by(alloc, "pages", found),
    }
}

/// The pages that the argument `id` names by ranges, or all pages without it, with the effect of `--odd`, `--even` and `--reverse`. `--odd` and
/// `--even` together are refused.
fn choice_by(alloc: Global, id: &str, found: &ArgMatches<'_>) -> Result<PageChoice, RequestFault>
    ensures read { IfOk result (ChoosesBy id.now (rows_in found.now)) }
    ensures refused { IfErr result (λ f.
        SaysWrong (rows_in found.now) f (wrong_choice (rows_in found.now))) }
{
    let part = match (is_set(found, "odd"), is_set(found, "even")) {
        (false, false) => Part::All,
        (true, false) => Part::Odd,
        (false, true) => Part::Even,
        (true, true) => return Err(RequestFault::OddAndEven),
    };
    Ok(PageChoice {
        ranges: owned(alloc, text_of(found, id))?,
        part,
        backwards: is_set(found, "reverse"),
    })
}

/// The name of the output file. `None` for standard output. A name other than `-` that begins with a minus sign is refused, because it is most likely
/// a misplaced option.
fn outfile_of(alloc: Global, found: &ArgMatches<'_>) -> Result<Option<String>, RequestFault>
    ensures asked { IfOk result (λ outfile.
        file_asked (given opt.Outfile (rows_in found.now)) ≡ option_map string_bytes outfile) }
    ensures no_option { IfOk result (λ outfile. is_outfile (option_map string_bytes outfile) ≡ true) }
    ensures refused { IfErr result (λ f.
        SaysWrong (rows_in found.now) f (wrong_among (opt.Outfile ∷ []) (rows_in found.now))) }
{
    match file_named(text_of(found, "outfile")) {
        Some(name) if name.as_bytes().starts_with(b"-") => {
            Err(bad_value(alloc, found, OptionId::Outfile))
        }
        name => Ok(owned(alloc, name)?),
    }
}

/// The requested kind of output. Any two of `--print-spec`, `--plan` and `--preview` are refused.
fn product_of(alloc: Global, found: &ArgMatches<'_>) -> Result<Product, RequestFault>
    ensures read { IfOk result (MakesBy (rows_in found.now)) }
    ensures refused { IfErr result (λ f. SaysWrong (rows_in found.now) f (wrong_product (rows_in found.now))) }
{
    let printed = is_set(found, "print-spec");
    match (printed, is_set(found, "plan"), text_of(found, "preview")) {
        (_, false, None) => Ok(specification_if(printed)),
        (false, true, None) => Ok(Product::Plan),
        (false, false, Some(name)) => picture_of(alloc, name, found),
        (true, true, _) => Err(RequestFault::TwoProducts(
            ProductOption::PrintSpec,
            ProductOption::Plan,
        )),
        (true, false, Some(_)) => Err(RequestFault::TwoProducts(
            ProductOption::PrintSpec,
            ProductOption::Preview,
        )),
        (false, true, Some(_)) => Err(RequestFault::TwoProducts(
            ProductOption::Plan,
            ProductOption::Preview,
        )),
    }
}

/// The kind of output without `--plan` and `--preview`: the specification if `printed`, otherwise the sheets.
fn specification_if(printed: bool) -> Product
    ensures specification { is_specification result ≡ printed }
    ensures plan { is_plan result ≡ false }
    ensures picture { picture_in result ≡ None }
{
    if printed {
        Product::Specification
    } else {
        Product::Sheets
    }
}

/// The kind of output for `--preview`: a drawing in the file `name`, or on standard output for `-`. Any other name must end in `.svg`.
fn picture_of(alloc: Global, name: &str, found: &ArgMatches<'_>) -> Result<Product, RequestFault>
    requires { given opt.Preview (rows_in found.now) ≡ Some name.now }
    ensures picture { IfOk result (NamesPicture name.now) }
    ensures refused { IfErr result (λ f.
        SaysWrong (rows_in found.now) f (wrong_among (opt.Preview ∷ []) (rows_in found.now))) }
{
    match file_named(Some(name)) {
        Some(name) if !name.as_bytes().ends_with(b".svg") => {
            Err(bad_value(alloc, found, OptionId::Preview))
        }
        name => Ok(Product::Picture(owned(alloc, name)?)),
    }
}

/// The name of a file. `None` without a name, and for `-`, which means standard input or output.
fn file_named(name: Option<&str>) -> Option<&str>
    ensures { option_map (λ s. s.now) result ≡ file_asked (option_map (λ s. s.now) name.entry) }
{
    name.filter(|name| *name != "-")
}
