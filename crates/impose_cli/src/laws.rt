//! Laws of the output of impose. The functions do nothing, but one calls a law on which it rests.
ghost use Rattle.impose_cli.specs.Finished.{OneText};
ghost use Rattle.impose_cli.specs.PosterSizes.{PosterIsOfSize};
ghost use Rattle.impose_cli.specs.Laws.{GuardIsOfFirst, ImposedKeepsPlaces, WroteDocument};

use row_runs::laws::written_keeps_place;

/// The bytes that a finished request appends to its output are a document again, if they have at least one sheet and are at most 2^30 bytes long. The
/// new document has the preamble and the trailer that were written. Its pages are the sheets if the imposed document has a trailer, or if the last
/// page of that document leaves no embedded document open.
pub fn wrote_document()
    ensures { WroteDocument }
{}

/// A finished request that lays a row has written exactly the output of sheets whose pages keep their places: each page is in its cell, and pages are
/// read in the order of the row. If no page is turned, pages are between the margins and apart.
pub fn imposed_keeps_places()
    ensures { ImposedKeepsPlaces }
{
    written_keeps_place();
}

/// The guard sets the page size of the first sheet.
pub fn guard_is_of_first()
    ensures { GuardIsOfFirst }
{}

/// What is written for a request is fixed by the request and the input.
pub fn one_text()
    ensures { OneText }
{}

/// A page of a poster whose size is a paper fits this paper, upright or on its side. At a scale that is larger by 0.01 it doesn't.
pub fn poster_is_of_size()
    ensures { PosterIsOfSize }
{}
