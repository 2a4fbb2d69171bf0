//! Requests, which are read from command lines.
ghost use Rattle.std.specs.Prelude.{◌≡◌, option_map};
ghost use Rattle.rows.specs.Choices.{choice_of};
ghost use Rattle.impose_words.specs.Arranging.{turn_for};
ghost use Rattle.impose_words.specs.Choices.{choice_in, is_all_pages};
ghost use Rattle.impose_words.specs.Products.{file_to_spare};
ghost use Rattle.impose_words.specs.Spacings.{arrangement_in, binding_in, keeps_room, notes_in, nothing_kept, some_gap as some_gap_of, zine_in};
ghost use Rattle.impose_words.specs.Spacings.{at_fold as free_at_fold, fold_gap as gap_at_fold, on_fronts as free_on_fronts, swaps_margins};
ghost use Rattle.impose_words.specs.PosterSizes.{gives_scale};
ghost use Rattle.impose_words.specs.Words.{has_numbers};

use command_words::name_of;
use dressing::Marks;
use layouts::{Arrangement, Binding, Cells, FillOrder, Free, Order, Turned, grains, is_length};
use lengths::{Grains, Number, Paper};
use pagespec::Turn;
use rows::{Choice, Part, Signing};

/// The way in which pages are laid out on sheets.
#[derive(Drop)]
pub enum Layout {
    /// A page in each of these cells of a sheet, in order.
    NUp(Cells),
    /// The same page in each of these cells of a sheet.
    Cards(Cells),
    /// A page in each of these cells of a sheet. If the printed sheets are cut along the cells and the piles are laid on one another, the pages are
    /// in order. With `duplex` they are for printing on both sides of leaves.
    Stack {
        cells: Cells,
        duplex: bool,
    },
    /// Pages one below another, with a cell for notes beside each.
    Notes {
        pages: u32,
    },
    /// Each page spread over several sheets, to this size.
    Poster(PosterSize),
    /// Two pages on each side of a leaf. The leaves are folded and sewn in the signatures that `signing` gives. With `long_edge`, backs are turned
    /// for printers that flip on the long edge.
    Booklet {
        signing: Signing,
        long_edge: bool,
    },
    /// Eight pages on one sheet, to be folded thrice and cut once.
    Zine,
    /// Each page alone on a sheet of the page's own paper.
    Selection,
    /// A row of pages, placed by a page specification of pstops as if the row were a document. If `signing` names signatures, the row is first put in
    /// their order.
    Spec {
        specs: String,
        signing: Option<Signing>,
    },
}

/// The size of a poster.
#[derive(Clone, Copy, Debug, PartialEq, Eq)]
pub enum PosterSize {
    /// This grid of sheets. `Cells::AtLeast` stands for the grid of the fewest sheets that hold a page of the document's paper at the requested scale.
    Sheets(Cells),
    /// The size of the page at this scale, on the fewest sheets.
    Scaled(Number),
    /// As large as a page fits this paper, upright or on its side, on the fewest sheets.
    Fitting(Paper),
}

impl PosterSize {
    /// Whether the size itself gives the scale of the page.
    pub fn gives_scale(self) -> bool
        ensures { result ≡ gives_scale self }
    {
        !matches!(self, PosterSize::Sheets(_))
    }
}

impl Layout {
    /// Whether the layout takes margins or other settings of `Spacing`.
    pub fn keeps_room(&self) -> bool
        ensures { result ≡ keeps_room self.now }
    {
        !matches!(self, Layout::Selection | Layout::Spec { .. })
    }

    /// Whether page numbers can be drawn on the sheets of this layout.
    pub fn has_numbers(&self) -> bool
        ensures { result ≡ has_numbers self.now }
    {
        !matches!(self, Layout::Zine | Layout::Poster(_) | Layout::Spec { .. })
    }
}

/// The margins and gaps of sheets, the creep of leaves, the overlap of posters, the order in which cells are filled, the cells that are used already,
/// and the scale of pages.
#[derive(Clone, Copy)]
pub struct Spacing {
    /// The margins along the edges of sheets, the gaps between cells, and the trim of pages.
    pub free: Free,
    /// The margin along the edge at which leaves are bound, if the command line names it. In a booklet this edge is the fold. On other sheets it is
    /// the left edge of fronts and the right edge of backs.
    pub inner: Option<Grains>,
    /// The distance by which pages of a booklet's innermost leaves are moved towards the fold.
    pub creep: Grains,
    /// The width of the strip of a page that is on both of two neighbouring sheets of a poster.
    pub overlap: Grains,
    /// The order in which pages fill the cells. If it runs from right to left, a booklet or zine is bound at the right.
    pub order: Order,
    /// The scale of the pages. `None` for pages that are as large as possible. On a poster of the fewest sheets, `None` is the scale 1.
    pub scale: Option<Number>,
    /// Whether all pages have one scale, the least of the scales that they would have otherwise.
    pub same_scale: bool,
    /// The number of cells at the beginning of the first sheet that are used already, and stay empty.
    pub skipped: u32,
}

impl Spacing {
    /// The spacing without margins, gaps, trim, creep and overlap. Cells are filled by rows from the left, and pages are as large as possible.
    pub fn none() -> Spacing
        ensures { result ≡ nothing_kept }
    {
        let plain = Arrangement::plain(Cells::AtLeast(1));
        Spacing {
            free: plain.free,
            inner: None,
            creep: Grains::ZERO,
            overlap: Grains::ZERO,
            order: plain.order,
            scale: None,
            same_scale: false,
            skipped: 0,
        }
    }

    /// The arrangement of these cells on fronts, with this scale and order and these margins and gaps. An inner margin takes the place of the left
    /// margin.
    pub fn arrangement(&self, cells: Cells) -> Arrangement
        ensures { result ≡ arrangement_in self.now cells }
    {
        Arrangement {
            cells,
            free: self.on_fronts(),
            order: self.order,
            scale: self.scale,
        }
    }

    fn on_fronts(&self) -> Free
        ensures { result ≡ free_on_fronts self.now }
    {
        Free {
            left: self.inner.unwrap_or(self.free.left),
            ..self.free
        }
    }

    /// The arrangement of pages with room for notes: two columns of `pages` cells each, with these margins and gaps. Cells are filled by columns, so
    /// that the pages of a sheet fill the left column.
    pub fn notes(&self, pages: u32) -> Arrangement
        ensures { result ≡ notes_in self.now pages }
    {
        let cells = Cells::Exactly {
            columns: 2,
            rows: pages,
        };
        let order = Order {
            run: FillOrder::Columns,
            right_to_left: false,
            turned: Turned::Upright,
        };
        Arrangement {
            order,
            ..self.arrangement(cells)
        }
    }

    /// The arrangement of a zine: two rows of four cells with these margins and gaps, filled from the left, or from the right with `--rtl`. A gap of
    /// 0 counts as one grain, because the two rows are rounded separately.
    pub fn zine(&self) -> Arrangement
        ensures { result ≡ zine_in self.now }
    {
        let cells = Cells::Exactly {
            columns: 4,
            rows: 2,
        };
        let order = Order {
            run: FillOrder::Rows,
            right_to_left: self.order.right_to_left,
            turned: Turned::Upright,
        };
        let plain = Arrangement::plain(cells);
        let free = Free {
            across: some_gap(self.free.across),
            up: some_gap(self.free.up),
            trim: plain.free.trim,
            ..self.free
        };
        Arrangement {
            free,
            order,
            ..plain
        }
    }

    /// The binding of a booklet with this scale, whose leaves have these margins and gaps. With `long_edge`, backs are turned for printers that flip on
    /// the long edge.
    pub fn binding(&self, long_edge: bool) -> Binding
        ensures { result ≡ binding_in self.now long_edge }
    {
        let scale = self.scale;
        Binding {
            free: at_fold(self.inner, self.free),
            right_to_left: self.order.right_to_left,
            long_edge,
            scale,
        }
    }
}

/// The margins and gaps of leaves. An inner margin is added to the gap at the fold twice, once for each half.
fn at_fold(inner: Option<Grains>, free: Free) -> Free
    ensures { result ≡ free_at_fold inner free }
{
    inner.map_or(
        free,
        |inner| Free {
            up: fold_gap(free.up, inner),
            ..free
        },
    )
}

/// The gap plus the margin `inner` on each side of it. If the gap or the margin is out of range, the result is -1 grain, which is also out of range.
fn fold_gap(gap: Grains, inner: Grains) -> Grains
    ensures { result ≡ gap_at_fold gap inner }
{
    if is_length(gap) && is_length(inner) {
        grains(gap.get() + inner.get() + inner.get())
    } else {
        grains(-1)
    }
}

/// This gap, or one grain if the gap is 0.
fn some_gap(gap: Grains) -> Grains
    ensures { result ≡ some_gap_of gap }
{
    if gap.get() == 0 { grains(1) } else { gap }
}

/// The pages to impose, and their order.
#[derive(Drop)]
pub struct PageChoice {
    /// The page ranges, as the command line gives them. `None` for all pages.
    pub ranges: Option<String>,
    /// The part of these pages that is imposed: all of them, every second one from the first on (odd), or every second one from the second on (even).
    pub part: Part,
    /// Whether the order of these pages is reversed.
    pub backwards: bool,
}

impl PageChoice {
    /// Whether the choice has no page ranges, and takes all pages in the document's order.
    pub fn is_whole(&self) -> bool
        ensures { result ≡ is_all_pages self.now }
    {
        self.ranges.is_none() && self.part == Part::All && !self.backwards
    }

    /// This choice in the type of the crate `rows`.
    pub fn as_choice(&self) -> Choice<'_>
        ensures { choice_of result ≡ choice_in self.now }
    {
        Choice {
            ranges: name_of(&self.ranges).map(|ranges| ranges.as_bytes()),
            part: self.part,
            backwards: self.backwards,
        }
    }
}

/// The kind of output that a request asks for.
#[derive(Drop)]
pub enum Product {
    /// The sheets.
    Sheets,
    /// The specification that places pages as the layout does, and a command line of pstops with it, on standard output.
    Specification,
    /// A list of the pages on each sheet, on standard output.
    Plan,
    /// A drawing of the sheets, in the file of this name, or on standard output without a name.
    Picture(Option<String>),
}

/// The pages that are turned before they are placed, and their turn.
#[derive(Clone, Copy, Debug, PartialEq, Eq)]
pub enum Turning {
    /// All pages, by this turn.
    All(Turn),
    /// Pages that are wider than high, by a quarter turn to the left.
    Wide,
}

impl Turning {
    /// The turn of a page of this paper.
    pub fn of(self, paper: &Paper) -> Turn
        ensures { result ≡ turn_for self paper.now }
    {
        match self {
            Turning::All(turn) => turn,
            Turning::Wide if paper.height().get() < paper.width().get() => Turn::Left,
            Turning::Wide => Turn::None,
        }
    }
}

/// The request that a command line makes.
#[derive(Drop)]
pub struct ImposeRequest {
    /// The way in which pages are laid out on sheets.
    pub layout: Layout,
    /// The margins, gaps, order and scale. A selection or a specification has `Spacing::none()`.
    pub spacing: Spacing,
    /// The pages to impose, and their order.
    pub choice: PageChoice,
    /// Whether a booklet's last page is kept at the back, after the blanks that fill up the last signature.
    pub last_at_back: bool,
    /// The pages that are turned before they are placed, and their turn.
    pub turn: Turning,
    /// The paper of the pages, if the command line names it.
    pub page_paper: Option<Paper>,
    /// The paper of the pages if neither the command line nor the document names one: the user's default paper.
    pub default_paper: Paper,
    /// The paper of the sheets, if the command line names it.
    pub sheet_paper: Option<Paper>,
    /// The width of a border round each placed page, in grains, if a border is requested.
    pub border: Option<Grains>,
    /// The marks and numbers that are drawn on the sheets.
    pub marks: Marks,
    /// Whether the guard is inserted into the document (crate `guard`).
    pub is_guarded: bool,
    /// The kind of output: the sheets, or a specification, list or drawing in their place.
    pub product: Product,
    /// Whether the report is left out.
    pub is_quiet: bool,
    /// The name of the input file. `None` for standard input.
    pub infile: Option<String>,
    /// The name of the output file for the sheets. `None` for standard output.
    pub outfile: Option<String>,
    /// Whether the output file is replaced even if it holds a document that shows no mark of impose.
    pub replaces: bool,
}

impl ImposeRequest {
    /// Whether the left and right margins are exchanged on every second sheet, which is the back of a leaf. This is so for `nup` with an inner
    /// margin.
    pub fn swaps_margins(&self) -> bool
        ensures { result ≡ swaps_margins self.now.layout self.now.spacing }
    {
        matches!(self.layout, Layout::NUp(_)) && self.spacing.inner.is_some()
    }

    /// The name of the output file, if the program has to check the file before it replaces it. `None` if `--replace` is given, if the request writes
    /// no sheets, or if it writes them to standard output.
    pub fn file_to_spare(&self) -> Option<&str>
        ensures { option_map (λ n. n.now) result ≡ file_to_spare self.now }
    {
        match self.product {
            Product::Sheets if !self.replaces => name_of(&self.outfile),
            _ => None,
        }
    }
}
