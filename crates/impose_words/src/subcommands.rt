//! The table of subcommands with their arguments.
ghost use Rattle.std.specs.Prelude.{◌≡◌, map};
ghost use Rattle.impose_words.specs.Command.{rule_in, rules_in};

use crate::arguments::{Argument, Subcommand};

pub(crate) const SUBCOMMANDS: [Subcommand; 9] = [
    Subcommand {
        name: "nup",
        about: "Several pages on each sheet, as large as they fit",
        groups: &[
            Group::Count,
            Group::BoundCells,
            Group::Skip,
            Group::Turn,
            Group::Look,
            Group::Pages,
            Group::Common,
        ],
        hidden: &["print-spec"],
    },
    Subcommand {
        name: "booklet",
        about: "A booklet, to be printed on both sides, folded and stapled",
        groups: &[
            Group::Booklet,
            Group::Turn,
            Group::Look,
            Group::Pages,
            Group::Common,
        ],
        hidden: &["print-spec"],
    },
    Subcommand {
        name: "zine",
        about: "Eight pages on one sheet, to be folded thrice and cut once",
        groups: &[
            Group::Zine,
            Group::Turn,
            Group::Look,
            Group::Pages,
            Group::Common,
        ],
        hidden: &["print-spec"],
    },
    Subcommand {
        name: "cards",
        about: "Each page several times on a sheet, to be cut",
        groups: &[
            Group::Copies,
            Group::Cells,
            Group::Skip,
            Group::Turn,
            Group::Look,
            Group::Pages,
            Group::Common,
        ],
        hidden: &["print-spec"],
    },
    Subcommand {
        name: "stack",
        about: "Several pages on each sheet: cut the pile, lay its parts on one another, and the pages run on",
        groups: &[
            Group::Count,
            Group::Cells,
            Group::Duplex,
            Group::Turn,
            Group::Look,
            Group::Pages,
            Group::Common,
        ],
        hidden: &["print-spec"],
    },
    Subcommand {
        name: "notes",
        about: "Pages one below another, and beside each of them lines for notes",
        groups: &[
            Group::Notes,
            Group::Turn,
            Group::Look,
            Group::Pages,
            Group::Common,
        ],
        hidden: &["print-spec"],
    },
    Subcommand {
        name: "poster",
        about: "Each page over several sheets, to be glued together",
        groups: &[
            Group::Poster,
            Group::Turn,
            Group::Look,
            Group::Pages,
            Group::Common,
        ],
        hidden: &["print-spec"],
    },
    Subcommand {
        name: "select",
        about: "Some pages, in the order in which they are named, each on a sheet of its own",
        groups: &[Group::Selection, Group::Turn, Group::Look, Group::Common],
        hidden: &["sheet", "print-spec"],
    },
    Subcommand {
        name: "spec",
        about: "Pages as a page specification of pstops places them",
        groups: &[Group::Specs, Group::Look, Group::Pages, Group::Common],
        hidden: &[],
    },
];

/// A group of arguments of one or more subcommands. Each group has its arguments in a constant of its own, because a single constant with all texts
/// would be too long for the prover.
#[derive(Clone, Copy)]
pub(crate) enum Group {
    Count,
    Copies,
    BoundCells,
    Cells,
    Skip,
    Duplex,
    Booklet,
    Zine,
    Notes,
    Poster,
    Selection,
    Specs,
    Turn,
    Look,
    Pages,
    Common,
}

/// The arguments of a group, in the order in which the command gets them.
pub(crate) fn arguments_in(group: Group) -> &'static [Argument]
    ensures { map rule_in result.now ≡ rules_in group }
{
    match group {
        Group::Count => &COUNT,
        Group::Copies => &COPIES,
        Group::BoundCells => &BOUND_CELLS,
        Group::Cells => &CELLS,
        Group::Skip => &SKIP,
        Group::Duplex => &DUPLEX,
        Group::Booklet => &BOOKLET,
        Group::Zine => &ZINE,
        Group::Notes => &NOTES,
        Group::Poster => &POSTER,
        Group::Selection => &SELECTION,
        Group::Specs => &SPECS,
        Group::Turn => &TURN,
        Group::Look => &LOOK,
        Group::Pages => &PAGES,
        Group::Common => &COMMON,
    }
}

const COUNT: [Argument; 1] = [Argument::Required(
    "count",
    "N",
    "The number of pages, from 1 to 1024, or columns and rows, such as 2x4",
)];

const COPIES: [Argument; 1] = [Argument::Required(
    "count",
    "N",
    "The number of copies of each page on a sheet, from 1 to 1024, or columns and rows, such as 2x4",
)];

const DUPLEX: [Argument; 1] = [Argument::Flag(
    "duplex",
    "Arrange the pages for printing on both sides",
)];

/// The options of `nup` that concern cells, apart from `--skip`. The sheets of `nup` have an edge at which they are bound.
const BOUND_CELLS: [Argument; 11] = [
    ORDER,
    TURNED,
    SCALE,
    SAME_SCALE,
    BOUND_MARGIN,
    CELL_GAP,
    TRIM,
    CUT_MARKS,
    NUMBERS,
    NUMBERS_FROM,
    RTL,
];

/// The options that concern cells and that both `cards` and `stack` have.
const CELLS: [Argument; 11] = [
    ORDER,
    TURNED,
    SCALE,
    SAME_SCALE,
    MARGIN,
    CELL_GAP,
    TRIM,
    CUT_MARKS,
    NUMBERS,
    NUMBERS_FROM,
    RTL,
];

const BOOKLET: [Argument; 13] = [
    Argument::Valued(
        "signature",
        "PAGES",
        "Fold the leaves in signatures of this many pages, a multiple of four; auto makes signatures of at most eight leaves [default: one signature]",
    ),
    Argument::Valued(
        "creep",
        "LENGTH",
        "Move the pages of the innermost leaf towards the fold by this length, such as 2mm, and others by less",
    ),
    Argument::Flag(
        "long-edge",
        "Rotate the backs, for a printer that flips sheets on the long edge",
    ),
    Argument::Flag(
        "cover",
        "Keep the last page at the back, with the blanks before it",
    ),
    SCALE,
    SAME_SCALE,
    BOUND_MARGIN,
    Argument::Valued(
        "gap",
        "LENGTHS",
        "Leave a gap at the fold, half of it on each side",
    ),
    TRIM,
    Argument::Chosen(
        "marks",
        "MARKS",
        "Draw short lines at the fold (fold), where the margin is cut off (cut), or both (fold,cut)",
        "fold cut fold,cut",
    ),
    NUMBERS,
    NUMBERS_FROM,
    Argument::Flag("rtl", "Bind the booklet at the right"),
];

const ZINE: [Argument; 4] = [
    SAME_SCALE,
    OPPOSITE_MARGIN,
    Argument::Valued(
        "gap",
        "LENGTHS",
        "Leave a gap at the folds, half of it on each side",
    ),
    Argument::Flag("rtl", "Bind the zine at the right"),
];

const NOTES: [Argument; 7] = [
    Argument::Required("count", "N", "The number of pages, from 1 to 512"),
    SAME_SCALE,
    MARGIN,
    Argument::Valued(
        "gap",
        "LENGTHS",
        "Leave a gap between pages, and before the lines",
    ),
    TRIM,
    NUMBERS,
    NUMBERS_FROM,
];

const POSTER: [Argument; 5] = [
    Argument::Required(
        "count",
        "CxR",
        "Columns and rows of sheets, such as 2x3, at most 1024 sheets in all; auto takes as few as hold the pages at their scale, \
        and a size, such as a2, 60x90cm or 200%, as few as hold the pages in this size",
    ),
    Argument::Valued(
        "scale",
        "SCALE",
        "The scale of the pages, such as 1 [default: as large as the sheets allow; with auto 1]",
    ),
    Argument::Valued(
        "overlap",
        "LENGTH",
        "Print this length of the page, such as 1cm, on both of two neighbouring sheets",
    ),
    EQUAL_MARGIN,
    CUT_MARKS,
];

const SELECTION: [Argument; 3] = [
    Argument::Required("ranges", "RANGES", RANGES_HELP),
    NUMBERS,
    NUMBERS_FROM,
];

const SPECS: [Argument; 2] = [
    Argument::Required(
        "specs",
        "SPECS",
        "A page specification, such as 2:0L@.7(21cm,0)+1L@.7(21cm,14.85cm), of the pages that are chosen",
    ),
    Argument::Valued(
        "signature",
        "PAGES",
        "First order the pages for signatures of this many pages, a multiple of four, or auto",
    ),
];

/// The arguments of every subcommand.
const COMMON: [Argument; 12] = [
    ODD, EVEN, REVERSE, INFILE, OUTFILE, PAPER, SHEET, BORDER, UNGUARDED, REPLACE, PRINT_SPEC,
    QUIET,
];

const ORDER: Argument = Argument::Chosen(
    "order",
    "ORDER",
    "Fill the cells in this order: right-down, down-right, left-down or down-left [default: right-down]",
    "right-down down-right left-down down-left",
);

const TURNED: Argument = Argument::Chosen(
    "turned",
    "SIDE",
    "For pages whose text lies on its side: the sheet is turned to the left or to the right to read it",
    "left right",
);

const SCALE: Argument = Argument::Valued(
    "scale",
    "SCALE",
    "The scale of the pages, such as 0.7 [default: as large as they fit]",
);

const CELL_GAP: Argument = Argument::Valued(
    "gap",
    "LENGTHS",
    "Leave a gap between pages, such as 5mm, or 5mm,1cm side by side and one above another",
);

const CUT_MARKS: Argument = Argument::Chosen(
    "marks",
    "MARKS",
    "Draw short lines where sheets are cut: cut",
    "cut",
);

const RTL: Argument = Argument::Flag("rtl", "Fill the cells from right to left");

const SAME_SCALE: Argument = Argument::Flag(
    "same-scale",
    "Give all pages the same scale, the smallest that any of them gets",
);

const BOUND_MARGIN: Argument = Argument::Valued(
    "margin",
    "LENGTHS",
    "Leave margins along the edges of a sheet: 5mm, X,Y, TOP,RIGHT,BOTTOM,LEFT, left=2cm, or inner=2cm at the edge that is bound",
);

const MARGIN: Argument = Argument::Valued(
    "margin",
    "LENGTHS",
    "Leave margins along the edges of a sheet: 5mm, X,Y, TOP,RIGHT,BOTTOM,LEFT or left=2cm",
);

/// The option `--margin` for zines, whose margins are equal on opposite edges.
const OPPOSITE_MARGIN: Argument = Argument::Valued(
    "margin",
    "LENGTHS",
    "Leave margins along the edges of a sheet: 5mm or X,Y",
);

/// The option `--margin` for posters, whose margins are equal on all edges.
const EQUAL_MARGIN: Argument = Argument::Valued(
    "margin",
    "LENGTH",
    "Leave a margin along all edges of a sheet, such as 5mm",
);

const TRIM: Argument = Argument::Valued(
    "trim",
    "LENGTH",
    "Treat each page as smaller by this length along each side, so that it is printed larger",
);

const NUMBERS: Argument = Argument::Valued(
    "numbers",
    "SIZE",
    "Draw the number of each page at its foot in this size, such as 10pt",
);

const NUMBERS_FROM: Argument = Argument::Valued(
    "numbers-from",
    "NUMBER",
    "The number of the first page [default: 1]",
);

const ODD: Argument = Argument::Flag(
    "odd",
    "Of the chosen pages take the first, the third and so on",
);

const EVEN: Argument = Argument::Flag(
    "even",
    "Of the chosen pages take the second, the fourth and so on",
);

const REVERSE: Argument = Argument::Flag("reverse", "Take the chosen pages in reverse order");

const INFILE: Argument = Argument::Positional(
    "infile",
    "INFILE",
    "The document; - or nothing is standard input",
);

const OUTFILE: Argument = Argument::Positional(
    "outfile",
    "OUTFILE",
    "The sheets; - or nothing is standard output",
);

const PAPER: Argument = Argument::LetteredValued(
    b'p',
    "paper",
    "PAPER",
    "The paper of the pages, such as a4, a5-landscape or 210x297mm [default: the document's]",
);

const SHEET: Argument = Argument::Valued(
    "sheet",
    "PAPER",
    "The paper of the sheets [default: that of the pages]",
);

const BORDER: Argument = Argument::Valued(
    "border",
    "WIDTH",
    "Draw a border round each page, such as 1pt or .5mm",
);

const UNGUARDED: Argument = Argument::Flag(
    "unguarded",
    "Insert no guard, so that the document's own operators stay as they are",
);

const REPLACE: Argument = Argument::Flag(
    "replace",
    "Replace OUTFILE even if it is a document by another program",
);

const PRINT_SPEC: Argument = Argument::Flag(
    "print-spec",
    "Print the specification and a line of pstops for it, and impose nothing",
);

const QUIET: Argument = Argument::LetteredFlag(b'q', "quiet", "Print no report");

const TURN: [Argument; 1] = [Argument::Chosen(
    "turn",
    "SIDE",
    "Turn each page before it is placed: left, right or half; or, with wide, only pages wider than high, to the left",
    "left right half wide",
)];

/// The options that show the sheets in place of writing them.
const LOOK: [Argument; 2] = [
    Argument::Flag(
        "plan",
        "Print which page is where on each sheet, and impose nothing",
    ),
    Argument::Valued(
        "preview",
        "FILE",
        "Draw the sheets into FILE, an SVG, or to standard output for -, and impose nothing",
    ),
];

const SKIP: [Argument; 1] = [Argument::Valued(
    "skip",
    "CELLS",
    "Leave this number of cells empty at the beginning of the first sheet, such as labels that are used already",
)];

const PAGES: [Argument; 1] = [Argument::Valued("pages", "RANGES", RANGES_HELP)];

const RANGES_HELP: &str =
    "Pages, such as 7, 3-9, 9-3, 5- or _1 (the last), and blank for an empty one, with commas between them";
