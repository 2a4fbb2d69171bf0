//! Papers by name.
ghost use Rattle.std.specs.Prelude.{◌≡◌, ◌<◌, ◌∷◌, [], map, option_map, MatchOption, Some, true};
ghost use Rattle.std.specs.List.{list_all};
ghost use Rattle.std.specs.Char.{to_ascii_lowercase};
ghost use Rattle.rules.specs.Papers.{paper_among, points};
ghost use Rattle.lengths.specs.Reading.{is_empty};
ghost use Rattle.paper_names.specs.Names as meaning;
ghost use Rattle.paper_names.specs.Names.{entry, is_word, letters, listed, paper_named, papers, sides_fit, turned};

use lengths::{Grains, Paper};

/// The names of papers, each with the paper's width and height in points.
const PAPERS: [(&str, u32, u32); 34] = [
    ("a0", 2384, 3370),
    ("a1", 1684, 2384),
    ("a2", 1191, 1684),
    ("a3", 842, 1191),
    ("a4", 595, 842),
    ("a5", 420, 595),
    ("a6", 298, 420),
    ("a7", 210, 298),
    ("b0", 2835, 4008),
    ("b1", 2004, 2835),
    ("b2", 1417, 2004),
    ("b3", 1001, 1417),
    ("b4", 709, 1001),
    ("b5", 499, 709),
    ("b6", 354, 499),
    ("c4", 649, 918),
    ("c5", 459, 649),
    ("c6", 323, 459),
    ("dl", 312, 624),
    ("jisb4", 729, 1032),
    ("jisb5", 516, 729),
    ("ra3", 865, 1219),
    ("ra4", 609, 865),
    ("sra3", 907, 1276),
    ("sra4", 638, 907),
    ("letter", 612, 792),
    ("legal", 612, 1008),
    ("tabloid", 792, 1224),
    ("ledger", 1224, 792),
    ("statement", 396, 612),
    ("executive", 522, 756),
    ("folio", 612, 936),
    ("quarto", 610, 780),
    ("10x14", 720, 1008),
];

/// The number of grains in a point.
const GRAINS_OF_POINT: i128 = 127_000_000_000;

/// The paper with this name, which must be one of `name_list`. Capitals, blanks, minuses and underscores make no difference, and `din`, `iso` or `us`
/// may come first. A final `landscape` or `quer`, in upper or lower case, exchanges width and height; nothing may follow it, not even a blank. None
/// for any other name.
pub fn paper_by_name(name: &[u8]) -> Option<Paper>
    ensures { result ≡ paper_named name.now }
{
    match upright_part(name) {
        Some(front) => turned_paper(upright_paper(front)),
        None => upright_paper(name),
    }
}

/// The names of all known papers, separated by commas.
#[tactic(auto, unfolding(crate::specs::Names::papers))]
pub fn name_list() -> &'static str
    ensures { result.now ≡ listed papers }
{
    "a0, a1, a2, a3, a4, a5, a6, a7, b0, b1, b2, b3, b4, b5, b6, c4, c5, c6, dl, jisb4, jisb5, ra3, ra4, sra3, sra4, \
    letter, legal, tabloid, ledger, statement, executive, folio, quarto, 10x14"
}

/// The paper that `paper_by_name` finds for this name, except that a name that ends with `landscape` or `quer` isn't found.
#[tactic(auto, unfolding(crate::specs::Names::papers))]
pub(crate) fn upright_paper(name: &[u8]) -> Option<Paper>
    ensures { result ≡ meaning.upright_named name.now }
{
    paper_in(&PAPERS, after_maker(name))
}

/// The paper of the first row that has this name, compared as in `is_named`. None if no row has the name.
fn paper_in(rows: &[(&str, u32, u32)], name: &[u8]) -> Option<Paper>
    requires sides { list_all sides_fit rows.now ≡ true }
    ensures { result ≡ paper_among (map entry rows.now) (letters name.now) }
{
    for row in rows {
        let (known, width, height) = *row;
        if is_named(name, known.as_bytes()) {
            return paper_of_points(width, height);
        }
    }
    None
}

/// Whether a text is the name or word `known`, which has no capitals. Capitals, blanks, minuses and underscores in the text make no difference.
pub(crate) fn is_named(text: &[u8], known: &[u8]) -> bool
    ensures { result ≡ is_word known.now text.now }
{
    match after_word(text, known) {
        Some(rest) => has_no_letter(rest),
        None => false,
    }
}

/// Whether a text has only blanks, minuses and underscores, which may come between the letters of a name.
fn has_no_letter(text: &[u8]) -> bool
    ensures { result ≡ is_empty (letters text.now) }
{
    next_letter(text).is_none()
}

/// The name without the `din`, `iso` or `us` that it begins with, compared as in `after_word`. A name that begins with none of them is returned
/// whole.
fn after_maker(name: &[u8]) -> &[u8]
    ensures { letters result.now ≡ meaning.after_maker (letters name.now) }
{
    after_word(name, b"din")
        .or_else(|| after_word(name, b"iso"))
        .or_else(|| after_word(name, b"us"))
        .unwrap_or(name)
}

/// The text after `word`, or None if the text doesn't begin with `word`, which has no capitals. Capitals, blanks, minuses and underscores in the text
/// make no difference.
fn after_word<'t>(text: &'t [u8], word: &[u8]) -> Option<&'t [u8]>
    ensures { option_map (λ rest. letters rest.now) result ≡ meaning.after_word word.now (letters text.now) }
{
    let mut rest = text;
    for letter in word {
        match next_letter(rest) {
            Some((first, others)) => {
                if first.to_ascii_lowercase() != *letter {
                    return None;
                }
                rest = others;
            }
            None => return None,
        }
    }
    Some(rest)
}

/// The first letter of a name, and the text after this letter. Any byte but a blank, a minus or an underscore counts as a letter. None if there is no
/// letter.
fn next_letter(text: &[u8]) -> Option<(u8, &[u8])>
    ensures { MatchOption result (letters text.now ≡ []) (λ p. letters text.now ≡ p.0 ∷ letters p.1.now) }
{
    let mut rest = text;
    while let Some((first, others)) = rest.split_first() {
        if !is_between(*first) {
            return Some((*first, others));
        }
        rest = others;
    }
    None
}

/// Whether a byte may come between the letters of a name: it is a blank, a minus or an underscore.
fn is_between(byte: u8) -> bool
    ensures { result ≡ meaning.is_between byte }
{
    (byte == b' ' || byte == b'\t') || (byte == b'-' || byte == b'_')
}

/// The part of a text before a final `landscape` or `quer`, which exchanges width and height. Capitals make no difference. None if the text ends with
/// neither word.
pub(crate) fn upright_part(text: &[u8]) -> Option<&[u8]>
    ensures { option_map (λ front. front.now) result ≡ meaning.upright_part text.now }
{
    before_ending(text, b"landscape").or_else(|| before_ending(text, b"quer"))
}

/// The text before `ending`, or None if the text doesn't end with `ending`. `ending` has no capitals, and capitals in the text make no difference.
fn before_ending<'t>(text: &'t [u8], ending: &[u8]) -> Option<&'t [u8]>
    requires { map to_ascii_lowercase ending.now ≡ ending.now }
    ensures { option_map (λ front. front.now) result ≡ meaning.before_ending ending.now text.now }
{
    let (front, tail) = text.split_at(text.len().saturating_sub(ending.len()));
    if tail.eq_ignore_ascii_case(ending) {
        Some(front)
    } else {
        None
    }
}

/// The paper with its width and height exchanged, if there is a paper.
fn turned_paper(paper: Option<Paper>) -> Option<Paper>
    ensures { result ≡ option_map turned paper }
{
    Some(paper?.turned())
}

/// The paper that is `width` points wide and `height` points high. The caller has to show that both numbers are above 0 and below 7,200,000, so the
/// result isn't None.
fn paper_of_points(width: u32, height: u32) -> Option<Paper>
    requires width { (0 < width) × (width < 7_200_000) }
    requires height { (0 < height) × (height < 7_200_000) }
    ensures { result ≡ Some (points width height) }
{
    Paper::new(
        Grains::new(i128::from(width) * GRAINS_OF_POINT)?,
        Grains::new(i128::from(height) * GRAINS_OF_POINT)?,
    )
}
