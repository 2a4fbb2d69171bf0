//! Laws of a small PostScript machine, and of the pictures that it paints on sheets (docs/PICTURES.md, which lists the
//! premises). A picture is placed by applying the page's matrix last in each transformation, and by clipping it at the
//! edge of the page's paper. Each function states one law in its contract, and does nothing.
ghost use Rattle.pictures.specs.DocumentRun.{PagesArePrinted};
ghost use Rattle.pictures.specs.Documents.{OpeningIsCut, OutputIsPrinted};
ghost use Rattle.pictures.specs.Imposed.{MadeSheetsShowThePages};
ghost use Rattle.pictures.specs.Kept.{KeptRunsAlike, PreambleRunsAlike};
ghost use Rattle.pictures.specs.Readings.{PointsArePut, ReadingFollows};
ghost use Rattle.pictures.specs.Unaware.{OwnPicture, SheetsShowTheDocument, SheetsShowThePages};
ghost use Rattle.pictures.specs.Scanner.{TokensJoin};
ghost use Rattle.pictures.specs.Pictures.{PageIsPlaced, PlacesCompose, PlacingCommutes, SheetsArePrinted};
ghost use Rattle.pictures.specs.AfterGuard.{GuardDefines};
ghost use Rattle.pictures.specs.ByItself.{ByItselfAsTheOperators};
ghost use Rattle.pictures.specs.GuardedImposed.{MadeDocumentIsShown, OnePaperIsReportedAsOne, OwnMadeDocumentIsShown};
ghost use Rattle.pictures.specs.GuardedImposed.{SilencedMadeDocumentIsShown, ReportingIsQuiet};
ghost use Rattle.pictures.specs.NamedPapers.{PaperIsNothing, PapersAreLeft};
ghost use Rattle.pictures.specs.OwnShowpage.{OwnPageIsPlaced, OwnSheetsArePrinted, OwnShowpageIsShown};
ghost use Rattle.pictures.specs.Pages.{GuardIsEnough, GuardedDocumentIsShown, GuardedPageIsPlaced};
ghost use Rattle.pictures.specs.Pages.{GuardedSheetsArePrinted, GuardedSheetsShowThePages, PageBegins};
ghost use Rattle.pictures.specs.Pages.{ShelterCommutes, StaysGuarded};
ghost use Rattle.pictures.specs.Silenced.{ShowpageIsPutBack, SilencedDocumentIsShown};
ghost use Rattle.pictures.specs.Silenced.{SilencedPageIsPlaced, SilencedSheetsArePrinted};
ghost use Rattle.pictures.specs.SheetsOfSheets.{SheetIsComposed, SheetIsPlaced, SheetsOfSheetsArePrinted};
ghost use Rattle.pictures.specs.SheetsOfSheets.{NestsArePrinted, SheetsAreTakenWithin};
ghost use Rattle.pictures.specs.SheetsOfSheets.{GuardTakesSheets, StaysTakingSheets};
ghost use Rattle.pictures.specs.TwoMadeRuns.{TwoMadeRunsAreShown, TwoRunsAreShown};
ghost use Rattle.pictures.specs.Lines.{AskingShows, AsksUserdict, ClipIsThePages, DefaultIsThePages};
ghost use Rattle.pictures.specs.Lines.{DeviceIsHanded, DeviceIsLeft, GraphicsAreThePages, GuardedTwice, LoadedShowpage};
ghost use Rattle.pictures.specs.Lines.{MatrixIsThePages, OuterIsKept, PageIsLeft, SaveSaves, ShowpageStaysAName};

/// If a page by itself takes the machine from one state to another, the placed page takes it from the placed form of
/// the first state to the placed form of the second.
pub fn placing_commutes()
    ensures { PlacingCommutes }
{}

/// A placed page paints on the sheet the picture that it paints by itself, in its place.
pub fn page_is_placed()
    ensures { PageIsPlaced }
{}

/// Each sheet is printed with the pictures of its pages in their places.
pub fn sheets_are_printed()
    ensures { SheetsArePrinted }
{}

/// If a text that ends between tokens is followed by another text, the tokens of both are the tokens of the first,
/// followed by the tokens of the second.
pub fn tokens_join()
    ensures { TokensJoin }
{}

/// The text before a placed page is cut into the tokens that save the state and place the page, and ends between
/// tokens.
pub fn opening_is_cut()
    ensures { OpeningIsCut }
{}

/// A machine that runs an output of a document prints the sheets in order, each with the pictures of its pages in their
/// places.
pub fn output_is_printed()
    ensures { OutputIsPrinted }
{}

/// To read a point through a placed transformation, first read it through the picture's own matrices, and then through
/// the matrices of the place.
pub fn reading_follows()
    ensures { ReadingFollows }
{}

/// A point of a page, if its coordinates are whole numbers, is read on the sheet at the point where the specification's
/// item puts it.
pub fn points_are_put()
    ensures { PointsArePut }
{}

/// The picture that a page prints directly after the preamble is the picture that it paints by itself.
pub fn own_picture()
    ensures { OwnPicture }
{}

/// A machine that runs an output of a document prints, sheet by sheet, the pictures that the document's own pages
/// print, each in its place.
pub fn sheets_show_the_pages()
    ensures { SheetsShowThePages }
{}

/// If the pages of a document are independent, the document prints, page after page, the picture that each page prints
/// directly after the preamble.
pub fn pages_are_printed()
    ensures { PagesArePrinted }
{}

/// If the pages of a document are independent, a machine that runs an output of this document prints, sheet by sheet,
/// the pictures that the document itself prints, each in its place.
pub fn sheets_show_the_document()
    ensures { SheetsShowTheDocument }
{}

/// A picture that is placed, and then placed again, is the same as the picture placed once, in the combined place.
pub fn places_compose()
    ensures { PlacesCompose }
{}

/// The prepared body of a page has the same tokens as the whole page, if the page ends between tokens and each dropped
/// line begins between tokens.
pub fn kept_runs_alike()
    ensures { KeptRunsAlike }
{}

/// Suppose that the preamble of a document and the document's first line end between tokens, and that each dropped line
/// begins between tokens. Then the preamble of an output of this document has the same tokens as the document's
/// preamble.
pub fn preamble_runs_alike()
    ensures { PreambleRunsAlike }
{}

/// If a document is written on made sheets, a machine that runs the output prints, sheet by sheet, the pictures that
/// the document's own pages print, each in its place. The lines added to the sheets must be comments.
pub fn made_sheets_show_the_pages()
    ensures { MadeSheetsShowThePages }
{}

/// After the text of the guard, each name that the guard defines has its new meaning, and everything else is
/// unchanged.
pub fn guard_defines()
    ensures { GuardDefines }
{}

/// If the guard has run, running its text again changes nothing.
pub fn guarded_twice()
    ensures { GuardedTwice }
{}

/// With the guard, `copypage` and `erasepage` leave the sheet as it is.
pub fn page_is_left()
    ensures { PageIsLeft }
{}

/// With the guard, `setpagedevice` in a placed page removes its operand from the stack, and does nothing else.
pub fn device_is_left()
    ensures { DeviceIsLeft }
{}

/// With the guard, `setpagedevice` outside placed pages passes on only the keys that say how a printer treats its
/// paper.
pub fn device_is_handed()
    ensures { DeviceIsHanded }
{}

/// After the text of the guard, each paper name that was defined before means a procedure that does nothing. A paper
/// name that wasn't defined stays undefined.
pub fn papers_are_left()
    ensures { PapersAreLeft }
{}

/// With the guard, a page that names a paper paints the same picture as without the name, both by itself and in its
/// place.
pub fn paper_is_nothing()
    ensures { PaperIsNothing }
{}

/// With the guard, `bind` leaves the name `showpage` in a procedure as it is.
pub fn showpage_stays_a_name()
    ensures { ShowpageStaysAName }
{}

/// The guard's `showpage` does nothing in a placed page, and prints the sheet elsewhere. It does the same under another
/// name, if a program has loaded it and stored it under that name.
pub fn loaded_showpage()
    ensures { LoadedShowpage }
{}

/// With the guard, `initmatrix` sets the transformation with which the page began.
pub fn matrix_is_the_pages()
    ensures { MatrixIsThePages }
{}

/// With the guard, `defaultmatrix` gives the transformation with which the page began.
pub fn default_is_the_pages()
    ensures { DefaultIsThePages }
{}

/// The guard's procedure `ImposeClip` clips to the outline of the page, and to the outlines of all pages in which this
/// page is placed.
pub fn outer_is_kept()
    ensures { OuterIsKept }
{}

/// With the guard, `initclip` clips to the outline of the page, to the outlines of all pages in which this page is
/// placed, and to nothing else. Each element of the current path must be one that `pathforall` lists, and must have
/// been made under the current transformation.
pub fn clip_is_the_pages()
    ensures { ClipIsThePages }
{}

/// With the guard, `initgraphics` sets the transformation with which the page began, and clips to the same outlines as
/// `initclip`. It empties the path, and keeps no setting but the font.
pub fn graphics_are_the_pages()
    ensures { GraphicsAreThePages }
{}

/// With the guard, a document's own `save` still saves the state.
pub fn save_saves()
    ensures { SaveSaves }
{}

/// Suppose that the topmost dictionary on the stack that has a `showpage` is writable and isn't userdict. Then the
/// guard replaces this `showpage` where a page begins. The new procedure looks up the `showpage` of userdict.
pub fn asks_userdict()
    ensures { AsksUserdict }
{}

/// The procedure by which the guard replaces a dictionary's own `showpage` has the same effect as the `showpage` of
/// userdict.
pub fn asking_shows()
    ensures { AskingShows }
{}

/// The sheet's text before a page, together with the guard, brings the machine to the beginning of the page, in the
/// page's place.
pub fn page_begins()
    ensures { PageBegins }
{}

/// Suppose that a page by itself takes the machine from one state to another. Then the placed page, with the guard's
/// procedures, takes the machine from the placed form of the first state to the placed form of the second.
pub fn shelter_commutes()
    ensures { ShelterCommutes }
{}

/// For a page by itself, the guard's `initgraphics`, `initclip`, `initmatrix` and `defaultmatrix` have the effect that
/// the operators of these names have for a page that isn't placed. The guard's `initclip` also makes a matrix, and
/// needs a path as in `clip_is_the_pages`.
pub fn by_itself_as_the_operators()
    ensures { ByItselfAsTheOperators }
{}

/// A placed page of a guarded document paints on the sheet the picture that it paints by itself, in its place.
pub fn guarded_page_is_placed()
    ensures { GuardedPageIsPlaced }
{}

/// Each sheet of a guarded document is printed with the pictures of its pages in their places.
pub fn guarded_sheets_are_printed()
    ensures { GuardedSheetsArePrinted }
{}

/// A machine that runs an output of a guarded document prints, sheet by sheet, the pictures that the pages paint by
/// themselves, each in its place.
pub fn guarded_sheets_show_the_pages()
    ensures { GuardedSheetsShowThePages }
{}

/// After the text of the guard, the machine is in a guarded state, which means that pages can be placed.
pub fn guard_is_enough()
    ensures { GuardIsEnough }
{}

/// A guarded state stays guarded if a name is defined that the guard doesn't need.
pub fn stays_guarded()
    ensures { StaysGuarded }
{}

/// Take the output of impose for a document and a specification. A machine that runs it prints, sheet by sheet, the
/// pictures that the pages paint by themselves, each in its place.
pub fn guarded_document_is_shown()
    ensures { GuardedDocumentIsShown }
{}

/// If all sheets have the same paper, the output reports one paper, in its header.
pub fn one_paper_is_reported_as_one()
    ensures { OnePaperIsReportedAsOne }
{}

/// If all sheets are reported as having one paper, the lines that report this paper are comments.
pub fn reporting_is_quiet()
    ensures { ReportingIsQuiet }
{}

/// A machine that runs the output of impose for a document and any layout prints the pictures that the document's pages
/// paint by themselves, each in its place. The sheets must be reported as having one paper.
pub fn made_document_is_shown()
    ensures { MadeDocumentIsShown }
{}

/// Suppose that a document has a `showpage` of its own in a dictionary on the stack. Then its placed pages paint on the
/// sheet the pictures that they paint by themselves, each in its place.
pub fn own_page_is_placed()
    ensures { OwnPageIsPlaced }
{}

/// Each sheet of a document with a `showpage` of its own is printed with the pictures of its pages in their places.
/// The first sheet must have a page.
pub fn own_sheets_are_printed()
    ensures { OwnSheetsArePrinted }
{}

/// Take the output of impose for a specification and a document with a `showpage` of its own. A machine that runs it
/// prints, sheet by sheet, the pictures that the pages paint by themselves, each in its place. The first sheet must
/// have a page.
pub fn own_showpage_is_shown()
    ensures { OwnShowpageIsShown }
{}

/// The law `own_showpage_is_shown` holds not only for specifications, but also for any layout whose sheets are reported
/// as having one paper.
pub fn own_made_document_is_shown()
    ensures { OwnMadeDocumentIsShown }
{}

/// If the `showpage` of userdict is empty where a page begins, the guard puts its own `showpage` there again.
pub fn showpage_is_put_back()
    ensures { ShowpageIsPutBack }
{}

/// If a document leaves the `showpage` of userdict empty, its placed pages paint on the sheet the pictures that they
/// paint by themselves, each in its place.
pub fn silenced_page_is_placed()
    ensures { SilencedPageIsPlaced }
{}

/// Each sheet of a document that leaves the `showpage` of userdict empty is printed with the pictures of its pages in
/// their places. The first sheet must have a page.
pub fn silenced_sheets_are_printed()
    ensures { SilencedSheetsArePrinted }
{}

/// Take the output of impose for a specification and a document that leaves the `showpage` of userdict empty. A machine
/// that runs it prints, sheet by sheet, the pictures that the pages paint by themselves, each in its place. The first
/// sheet must have a page.
pub fn silenced_document_is_shown()
    ensures { SilencedDocumentIsShown }
{}

/// The law `silenced_document_is_shown` holds not only for specifications, but also for any layout whose sheets are
/// reported as having one paper.
pub fn silenced_made_document_is_shown()
    ensures { SilencedMadeDocumentIsShown }
{}

/// After the text of the guard, the machine is in a state in which sheets of other documents can be placed as pages.
pub fn guard_takes_sheets()
    ensures { GuardTakesSheets }
{}

/// If sheets can be placed as pages in some state, they can still be placed after the definition of a name that neither
/// the guard nor the sheets need.
pub fn stays_taking_sheets()
    ensures { StaysTakingSheets }
{}

/// If a sheet of another document is placed as a page, it paints its own picture, in its place. Each page on that sheet
/// must paint its own picture within the placed sheet.
pub fn sheet_is_placed()
    ensures { SheetIsPlaced }
{}

/// The picture of a sheet that is placed as a page consists of the pictures of the sheet's pages. The place of each is
/// its place on that sheet, combined with the sheet's place.
pub fn sheet_is_composed()
    ensures { SheetIsComposed }
{}

/// If the sheets of one run are imposed again, each new sheet is printed with the pictures of the old sheets on it,
/// each in its place.
pub fn sheets_of_sheets_are_printed()
    ensures { SheetsOfSheetsArePrinted }
{}

/// A machine that runs the output of impose for the output of an earlier run prints the sheets of the earlier run, each
/// in its place. Both runs use specifications.
pub fn two_runs_are_shown()
    ensures { TwoRunsAreShown }
{}

/// The law `two_runs_are_shown` holds not only for specifications, but also for any layouts, if both runs add only
/// comments to their sheets.
pub fn two_made_runs_are_shown()
    ensures { TwoMadeRunsAreShown }
{}

/// If sheets can be placed as pages in some state, they can also be placed within a page that begins in this state.
pub fn sheets_are_taken_within()
    ensures { SheetsAreTakenWithin }
{}

/// If pages are imposed any number of times, each sheet of the last output is printed with the pictures of the sheets
/// on it, each in its place.
pub fn nests_are_printed()
    ensures { NestsArePrinted }
{}
