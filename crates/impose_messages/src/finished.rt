//! The results of requests that have been carried out.
use crate::scales::Scales;
use crate::shown::ShownName;
use imposer::Report;
use lengths::Paper;
use papers::{Comment, Cut, Edges, Reach};
use preview::Sides;

/// Where the pages' paper is taken from.
#[derive(Clone, Copy)]
pub enum PaperOrigin {
    /// The command line names the paper.
    Named,
    /// The document gives the paper, in this comment or in its setup.
    ByComment(Comment),
    /// The command line names no paper, and none is found in the document, so the pages have the user's default paper.
    ByDefault,
    /// No imposed page has nearly the size of the paper found for the whole document. Sheets are therefore made for the paper of the first imposed
    /// page.
    FirstPage,
    /// It covers the imposed pages that have nearly the size of the paper found, as a selection puts them on sheets of one paper.
    Covering,
}

/// Why pages depend on the text before them, so that sheets may be wrong.
#[derive(Clone, Copy)]
pub enum Dependence {
    /// Pages by hp2xx undo the document's setup.
    Hp2xx,
    /// Pages by Xcircuit use definitions of earlier pages.
    Xcircuit,
    /// PLplot scales the first page in its setup, and each page undoes this scale.
    Plplot,
    /// Pages by antiword go on with the font of the page before.
    Antiword,
    /// The document's setup scales, turns or moves the pages.
    Setup,
    /// The first page sets a font before it shows text, and another page doesn't.
    Font,
}

/// Facts that a document's comments and its setup state, for the messages about the document.
#[derive(Drop)]
pub struct Claims {
    /// The number of pages that the document declares, if it declares one.
    pub pages: Option<usize>,
    /// Whether the document goes on after its last page, with its trailer.
    pub is_ended: bool,
    /// The name of the document's paper, as messages show it, if no paper of this name is known. `None` if the command line names a paper for the
    /// pages.
    pub unknown: Option<ShownName>,
    /// Why the pages depend on the text before them, if they are known to.
    pub dependence: Option<Dependence>,
    /// Whether the setup asks for copies, but sheets are printed once.
    pub loses_copies: bool,
}

/// Facts that a request finds in a document before sheets are made, for the report.
#[derive(Drop)]
pub struct Findings {
    /// The paper of the pages, before any turn.
    pub page_paper: Paper,
    /// Where `page_paper` is taken from.
    pub origin: PaperOrigin,
    /// The imposed pages that `--paper` cuts. If a specification places the pages, this is `None`, and `reach` includes the cut pages.
    pub cut: Option<Cut>,
    /// The smallest paper that covers the imposed pages, if `--paper` is larger. It is `None` if a specification places the pages.
    pub loose: Option<Paper>,
    /// The imposed pages that reach more than one point beyond the papers by which they are placed on sheets. `None` if no page does.
    pub reach: Option<Reach>,
    /// The number of pages after the document's trailer, which aren't imposed.
    pub after_trailer: usize,
    /// The number of the document's pages that are imposed. A page that is imposed several times counts once.
    pub taken: u32,
    /// The statements that the document makes about itself.
    pub claims: Claims,
}

/// A page that isn't wholly on its sheet.
#[derive(Clone, Copy)]
pub struct Lying {
    /// The page, counted from 0.
    pub page: u32,
    /// The edges of the page on its sheet.
    pub edges: Edges,
    /// The paper of the sheet.
    pub sheet: Paper,
}

/// Facts about the sheets of a run.
#[derive(Clone, Copy)]
pub struct SheetFacts {
    /// The scales of the pages. `None` if no page is placed.
    pub scales: Option<Scales>,
    /// The sides on which the sheets are printed.
    pub sides: Sides,
    /// The first page of which nothing is on its sheet. It is `None` unless a specification places the pages.
    pub beside: Option<Lying>,
    /// The first page that is partly on its sheet, and partly beyond an edge by more than a point. It is `None` unless a specification places the pages.
    pub over: Option<Lying>,
}

/// A request whose sheets have been written.
#[derive(Drop)]
pub struct Finished {
    /// The counts of its run.
    pub report: Report,
    pub sheets: SheetFacts,
    pub findings: Findings,
}

/// The result of a request that has been carried out.
#[derive(Drop)]
pub enum Done {
    /// The pages were imposed.
    Imposed(Finished),
    /// The specification was printed.
    Printed,
    /// The list or drawing of the sheets was written.
    Shown,
}
