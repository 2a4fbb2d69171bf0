//! What a document states about itself.
ghost use Rattle.std.specs.Prelude.{◌≡◌, ◌∷◌, ◌++◌, [], option_map};
ghost use Rattle.rules.specs.Parts.{bytes_of};
ghost use Rattle.rules.specs.Bytes.{colon};
ghost use Rattle.papers.specs.Media.{comment_value, contents, header};
ghost use Rattle.impose_messages.specs.Said.{shown_name};
ghost use Rattle.impose_cli.specs.Claims as meaning;

use crate::copies::loses_copies;
use crate::fonts::{borrows_font, page_or_nothing};
use dsc::{Document, first_content, header_len, line_end_after};
use guard::places_pages;
use impose_messages::{Claims, Dependence, ShownName};
use impose_words::ImposeRequest;
use lengths::Paper;
use papers::{Comment, document_paper, first_comment, first_name, is_at_end};
use row_runs::declared_page_count;

/// Facts that a document's comments, its setup and its pages state, for the messages about the document. They are the number of pages that it declares
/// and whether it goes on after its last one, its paper's name if no paper of this name is known, why pages depend on the text before them, and whether
/// copies are lost. The paper's name is left out if the command line names a paper for the pages. No memory is allocated.
pub(crate) fn claims_of(request: &ImposeRequest, document: &Document<'_>) -> Claims
    ensures { meaning.AreClaimsOf request.now (bytes_of document.now) document.now result }
{
    let input = document.text();
    let pages = declared_page_count(input);
    let unknown = unknown_paper(request, input);
    Claims {
        pages,
        is_ended: is_ended(document),
        unknown,
        dependence: dependence_of(input, borrows_font(document)),
        loses_copies: loses_copies(input),
    }
}

/// Whether the document goes on after its last page. It doesn't end with the bytes of that page.
fn is_ended(document: &Document<'_>) -> bool
    ensures { result ≡ meaning.is_ended (bytes_of document.now) document.now }
{
    let last = document.pages().saturating_sub(1);
    !document.text().ends_with(page_or_nothing(document, last))
}

/// Why the document's pages depend on the text before them: by the program that made them, by their setup, or by their fonts, if a page borrows one.
fn dependence_of(input: &[u8], is_font_borrowed: bool) -> Option<Dependence>
    ensures { result ≡ meaning.dependence_by input.now is_font_borrowed }
{
    let setup = places_pages(input).then_some(Dependence::Setup);
    let font = is_font_borrowed.then_some(Dependence::Font);
    let by_text = setup.or(font);
    let creator = creator_of(input);
    creator.or(by_text)
}

/// The name of the document's paper, as messages show it, if no paper of this name is known and the command line names no paper for the pages.
fn unknown_paper(request: &ImposeRequest, input: &[u8]) -> Option<ShownName>
    ensures { result
        ≡ option_map shown_name (meaning.unknown_paper request.now.page_paper request.now.default_paper input.now) }
{
    if request.page_paper.is_some() {
        return None;
    }
    unknown_name(&request.default_paper, input).map(|name| ShownName::of(name))
}

/// The first name in the header's `%%DocumentPaperSizes:` (DSC 2.1). `None` if there is no such name, or if the document's paper is found in a
/// comment that names papers or media, or in its setup.
fn unknown_name<'t>(usual: &Paper, input: &'t [u8]) -> Option<&'t [u8]>
    ensures { option_map (λ name. name.now) result ≡ meaning.unknown_name usual.now input.now }
{
    if is_by_name(document_paper(input, usual)) {
        return None;
    }
    claimed_name(header_value(input, b"%%DocumentPaperSizes", b"%%DocumentPaperSizes:")?)
}

/// The name at the start of a comment's value. `None` if there is no name, or if the value is `(atend)`, which leaves the name to the trailer. The
/// trailer isn't read for names.
fn claimed_name(value: &[u8]) -> Option<&[u8]>
    ensures { option_map (λ name. name.now) result ≡ meaning.claimed_name value.now }
{
    if is_at_end(value) {
        None
    } else {
        first_name(value)
    }
}

/// Whether a paper was found in a comment that names papers or media, or in the setup.
fn is_by_name(found: Option<(Paper, Comment)>) -> bool
    ensures { result ≡ meaning.is_by_name found }
{
    match found {
        Some((_, Comment::DocumentMedia | Comment::DocumentPaperSizes | Comment::Setup)) => true,
        Some((_, Comment::BoundingBox)) | None => false,
    }
}

/// The program that made the document, if its pages are known to depend on the text before them. Its name is the first word of `%%Creator:`. None if
/// another program has drawn the document again since.
fn creator_of(input: &[u8]) -> Option<Dependence>
    ensures { result ≡ meaning.creator_of input.now }
{
    let (header, _) = input.split_at(header_len(input));
    if is_drawn_again(header) {
        return None;
    }
    let value = header_value(input, b"%%Creator", b"%%Creator:")?;
    creator_named(first_name(value)?)
}

/// Whether a line begins with `%Produced by`, as pdftops writes before the `%%Creator:` that it copies.
fn is_drawn_again(header: &[u8]) -> bool
    ensures { result ≡ meaning.is_drawn_again (contents header.now) }
{
    let mut rest = header;
    while !rest.is_empty() {
        let content = first_content(rest);
        if content.starts_with(b"%Produced by") {
            return true;
        }
        let (_, others) = rest.split_at(line_end_after(rest, content.len()));
        rest = others;
    }
    false
}

fn creator_named(name: &[u8]) -> Option<Dependence>
    ensures { result ≡ meaning.creator_named name.now }
{
    if name == b"hp2xx".as_slice() {
        Some(Dependence::Hp2xx)
    } else if name == b"Xcircuit".as_slice() || name == b"XCircuit".as_slice() {
        Some(Dependence::Xcircuit)
    } else if name == b"PLplot".as_slice() {
        Some(Dependence::Plplot)
    } else if name == b"antiword".as_slice() {
        Some(Dependence::Antiword)
    } else {
        None
    }
}

/// The value of the first header comment with this key: the text after its colon. None if there is no such comment. `with_colon` is the key followed
/// by a colon.
fn header_value<'t>(input: &'t [u8], key: &[u8], with_colon: &[u8]) -> Option<&'t [u8]>
    requires { with_colon.now ≡ key.now ++ colon ∷ [] }
    ensures { option_map (λ value. value.now) result ≡ comment_value key.now (header input.now) }
{
    let (header, _) = input.split_at(header_len(input));
    match first_comment(header, key, with_colon) {
        Some((value, _)) => Some(value),
        None => None,
    }
}
