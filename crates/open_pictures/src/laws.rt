//! Laws of a PostScript machine with further operators, of sheets on several papers and with strokes, and of two real
//! documents. Strokes are marks and lines for notes. The premises are in docs/PICTURES.md, 'Further operators'.
//!
//! An operator is placeless if its result in a placed state is the placed form of its result in the state itself. It is
//! blind if it is placeless and doesn't look up the names that the sheet's text defines. Each function states one law
//! in its contract, and does nothing.
ghost use Rattle.open_pictures.specs.Blindness.{PlacelessRunsPreambles};
ghost use Rattle.open_pictures.specs.Documents.{OpenMadeSheetsShowThePages, OpenOwnPicture, OpenSheetsShowThePages};
ghost use Rattle.open_pictures.specs.DocumentRun.{OpenSheetsShowTheDocument};
ghost use Rattle.open_pictures.specs.Operators.{AnswersAskForNone, TablesAreBlind, TablesArePlaceless};
ghost use Rattle.open_pictures.specs.Sheets.{OpenPageIsPlaced, OpenPlacingCommutes, OpenSheetsArePrinted};
ghost use Rattle.open_pictures.specs.Imposed.{OpenMadeDocumentIsShown};
ghost use Rattle.open_pictures.specs.OwnShowpage.{OpenOwnMadeDocumentIsShown, OpenOwnPageIsPlaced, OpenOwnShowpageIsShown};
ghost use Rattle.open_pictures.specs.Points.{PointIsPlaceless};
ghost use Rattle.open_pictures.specs.Pages.{OpenGuardedDocumentIsShown, OpenGuardedPageIsPlaced, OpenGuardedSheetsShowThePages};
ghost use Rattle.open_pictures.specs.Silenced.{OpenSilencedDocumentIsShown, OpenSilencedMadeDocumentIsShown, OpenSilencedPageIsPlaced};
ghost use Rattle.open_pictures.specs.Stores.{StoresAreBlind, StoresArePlacelessThere, StoresAskForNone, StoresSeeNoMatrices};
ghost use Rattle.open_pictures.specs.Values.{ValuesAreBlind, ValuesArePlacelessThere};
ghost use Rattle.open_pictures.specs.Shelter.{AnswersSeeNoMatrices, OpenShelterCommutes, TablesArePlacelessThere};
ghost use Rattle.open_pictures.specs.DressedDocuments.{DressedDocumentIsShown, OpenDressedDocumentIsShown};
ghost use Rattle.open_pictures.specs.Sizes.{DeviceSizeIsSet};
ghost use Rattle.open_pictures.specs.Unguarded.{DressedSheetsShowThePages, OpenDressedSheetsShowThePages};
ghost use Rattle.open_pictures.specs.Barcode.{BarcodeIsShown};
ghost use Rattle.open_pictures.specs.Groff.{GroffIsShown};

/// Suppose that further operators are placeless. If a page by itself takes the machine from one state to another, the
/// placed page takes it from the placed form of the first state to the placed form of the second.
pub fn open_placing_commutes()
    ensures { OpenPlacingCommutes }
{}

/// With further operators that are placeless, a placed page paints on the sheet the picture that it paints by itself,
/// in its place.
pub fn open_page_is_placed()
    ensures { OpenPageIsPlaced }
{}

/// With further operators that are placeless, each sheet is printed with the pictures of its pages in their places.
pub fn open_sheets_are_printed()
    ensures { OpenSheetsArePrinted }
{}

/// With further operators that are blind, the picture that a page prints directly after the preamble is the picture
/// that it paints by itself.
pub fn open_own_picture()
    ensures { OpenOwnPicture }
{}

/// With further operators that are blind, a machine that runs an output of a document prints, sheet by sheet, the
/// pictures that the document's own pages print, each in its place.
pub fn open_sheets_show_the_pages()
    ensures { OpenSheetsShowThePages }
{}

/// The current point in user space is the same in every place.
pub fn point_is_placeless()
    ensures { PointIsPlaceless }
{}

/// Operators are placeless if they are functions of operands, dictionaries, matrices, settings and the current point in
/// user space.
pub fn tables_are_placeless()
    ensures { TablesArePlaceless }
{}

/// The operators of `tables_are_placeless` are blind if they don't look up the names that the sheet's text defines.
pub fn tables_are_blind()
    ensures { TablesAreBlind }
{}

/// If the result of an operator depends only on its operands and the settings, the operator doesn't look up the names
/// that the sheet's text defines.
pub fn answers_ask_for_none()
    ensures { AnswersAskForNone }
{}

/// The law `open_sheets_show_the_pages` also holds for made sheets, on which each page has a paper of its own. Only
/// comments may be added to the sheets.
pub fn open_made_sheets_show_the_pages()
    ensures { OpenMadeSheetsShowThePages }
{}

/// Operators that are placeless may be used by the preamble as well as by pages.
pub fn placeless_runs_preambles()
    ensures { PlacelessRunsPreambles }
{}

/// Suppose that further operators are blind, and that the pages of a document are independent. Then a machine that runs
/// an output of this document prints, sheet by sheet, the pictures that the document itself prints, each in its place.
pub fn open_sheets_show_the_document()
    ensures { OpenSheetsShowTheDocument }
{}

// Laws of guarded documents.

/// Suppose that further operators are placeless in guarded documents, and that a page by itself takes the machine from
/// one state to another. Then the placed page, with the guard's procedures, takes the machine from the placed form of
/// the first state to the placed form of the second.
pub fn open_shelter_commutes()
    ensures { OpenShelterCommutes }
{}

/// The operators of `tables_are_placeless` are placeless in guarded documents if they don't look at the contents of
/// matrices.
pub fn tables_are_placeless_there()
    ensures { TablesArePlacelessThere }
{}

/// A placed page of a guarded document paints on the sheet the picture that it paints by itself, in its place. The page
/// may have further operators that are placeless in guarded documents.
pub fn open_guarded_page_is_placed()
    ensures { OpenGuardedPageIsPlaced }
{}

/// A machine that runs an output of a document with the guard in its preamble prints the pictures that the pages paint
/// by themselves, each in its place. Pages may have further operators that are placeless in guarded documents.
pub fn open_guarded_sheets_show_the_pages()
    ensures { OpenGuardedSheetsShowThePages }
{}

/// Take the output of impose for a guarded document and a specification. A machine that runs it prints the pictures
/// that the pages paint by themselves, each in its place. Pages may have further operators that are placeless in
/// guarded documents.
pub fn open_guarded_document_is_shown()
    ensures { OpenGuardedDocumentIsShown }
{}

/// The law `open_guarded_document_is_shown` holds not only for specifications, but also for any sheets that are
/// reported as having one paper.
pub fn open_made_document_is_shown()
    ensures { OpenMadeDocumentIsShown }
{}

/// If the result of an operator depends only on its operands and the settings, the operator doesn't look at the
/// contents of matrices.
pub fn answers_see_no_matrices()
    ensures { AnswersSeeNoMatrices }
{}

/// If a document has a `showpage` of its own, its placed pages paint on the sheet the pictures that they paint by
/// themselves, each in its place. Pages may have further operators that are placeless in guarded documents.
pub fn open_own_page_is_placed()
    ensures { OpenOwnPageIsPlaced }
{}

/// Take the output of impose for a specification and a document with a `showpage` of its own. A machine that runs it
/// prints, sheet by sheet, the pictures that the pages paint by themselves, each in its place. Pages may have further
/// operators that are placeless in guarded documents. The first sheet must have a page.
pub fn open_own_showpage_is_shown()
    ensures { OpenOwnShowpageIsShown }
{}

/// The law `open_own_showpage_is_shown` holds not only for specifications, but also for any sheets that are reported as
/// having one paper.
pub fn open_own_made_document_is_shown()
    ensures { OpenOwnMadeDocumentIsShown }
{}

/// If a document leaves the `showpage` of userdict empty, its placed pages paint on the sheet the pictures that they
/// paint by themselves, each in its place. Pages may have further operators that are placeless in guarded documents.
pub fn open_silenced_page_is_placed()
    ensures { OpenSilencedPageIsPlaced }
{}

/// Take the output of impose for a specification and a document that leaves the `showpage` of userdict empty. A machine
/// that runs it prints, sheet by sheet, the pictures that the pages paint by themselves, each in its place. Pages may
/// have further operators that are placeless in guarded documents. The first sheet must have a page.
pub fn open_silenced_document_is_shown()
    ensures { OpenSilencedDocumentIsShown }
{}

/// The law `open_silenced_document_is_shown` holds not only for specifications, but also for any sheets that are
/// reported as having one paper.
pub fn open_silenced_made_document_is_shown()
    ensures { OpenSilencedMadeDocumentIsShown }
{}

// Laws of operators on values.

/// An operator on values sees the entries of dictionaries, except those for names that the sheet's text defines. So it
/// can't look these names up.
pub fn stores_ask_for_none()
    ensures { StoresAskForNone }
{}

/// An operator on values doesn't look at the contents of matrices.
pub fn stores_see_no_matrices()
    ensures { StoresSeeNoMatrices }
{}

/// A table of operators on values is blind. It stays blind if other operators are added that don't look up the names
/// that the sheet's text defines.
pub fn stores_are_blind()
    ensures { StoresAreBlind }
{}

/// A table of operators on values is placeless in guarded documents. It stays placeless if other operators are added
/// that don't look at the contents of matrices.
pub fn stores_are_placeless_there()
    ensures { StoresArePlacelessThere }
{}

/// The project's table of operators on values is blind. It stays blind if operators are added that don't look up the
/// names that the sheet's text defines.
pub fn values_are_blind()
    ensures { ValuesAreBlind }
{}

/// The project's table of operators on values is placeless in guarded documents. It stays placeless if operators are
/// added that don't look at the contents of matrices.
pub fn values_are_placeless_there()
    ensures { ValuesArePlacelessThere }
{}

/// If sheets have several papers, the lines at the start of each sheet call `setpagedevice` with the size of the
/// sheet's own paper. The sheet must not itself be placed as a page.
pub fn device_size_is_set()
    ensures { DeviceSizeIsSet }
{}

/// Take any output of impose, but without page numbers, for a document with the guard. A machine that runs it prints,
/// sheet by sheet, the pictures that the document's pages paint by themselves, each in its place. The strokes of a
/// sheet come after its pages.
pub fn dressed_document_is_shown()
    ensures { DressedDocumentIsShown }
{}

/// The law `dressed_document_is_shown` also holds if pages have further operators that are placeless in guarded
/// documents.
pub fn open_dressed_document_is_shown()
    ensures { OpenDressedDocumentIsShown }
{}

/// Take any output of impose, but without page numbers, for a document without the guard. A machine that runs it
/// prints, sheet by sheet, the pictures that the document's own pages print, each in its place. The strokes of a sheet
/// come after its pages.
pub fn dressed_sheets_show_the_pages()
    ensures { DressedSheetsShowThePages }
{}

/// The law `dressed_sheets_show_the_pages` also holds if pages have further operators that are blind.
pub fn open_dressed_sheets_show_the_pages()
    ensures { OpenDressedSheetsShowThePages }
{}

/// A machine that runs an output of barcode.ps prints the pictures of its three pages, each in its place. Only
/// comments may be added to the sheets.
pub fn barcode_is_shown()
    ensures { BarcodeIsShown }
{}

/// A machine that runs an output of groff.ps prints the pictures of its two pages, each in its place. Only comments
/// may be added to the sheets.
pub fn groff_is_shown()
    ensures { GroffIsShown }
{}
