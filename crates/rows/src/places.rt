//! Pages by their number, from the start of a document or from its end.
ghost use Rattle.std.specs.Prelude.{◌≡◌, true, false, min, option_map, MatchOption};
ghost use Rattle.std.specs.List.{list_all};
ghost use Rattle.std.specs.Char.{is_ascii_digit};
ghost use Rattle.rules.specs.Numbers.{number_of};
ghost use Rattle.rules.specs.Ranges.{FromStart, FromEnd, by_digits, is_number as is_number_text, place_at, last_place_at};
ghost use Rattle.rows.specs.Found.{number_found};

/// The number, counted from 1, of the page that a text means in a document with this number of pages. It is 0 if the document doesn't have the page,
/// and None if the text means no page.
pub(crate) fn read_place(pages: u32, text: &[u8]) -> Option<u32>
    ensures { result ≡ option_map (number_found pages) (place_at text.now) }
{
    if text == b"last".as_slice() {
        return Some(pages);
    }
    match text.split_first() {
        Some((first, digits)) if *first == b'_' => from_end(pages, digits),
        _ => from_start(pages, text),
    }
}

/// The number that `read_place` gives for a text, or the number of the last page if the text is empty.
pub(crate) fn read_last_place(pages: u32, text: &[u8]) -> Option<u32>
    ensures { result ≡ option_map (number_found pages) (last_place_at text.now) }
{
    if text.is_empty() {
        Some(pages)
    } else {
        read_place(pages, text)
    }
}

/// The number of the page that digits name, counting from the start of the document. It is 0 if the document doesn't have the page, and None if
/// `digits` is empty or has a byte that isn't a digit.
fn from_start(pages: u32, digits: &[u8]) -> Option<u32>
    ensures { result ≡ option_map (number_found pages) (by_digits FromStart digits.now) }
{
    Some(start_number(pages, number_of_digits(digits)?))
}

/// The number, counted from the start, of the page that digits name, counting from the end of the document. It is 0 if the document doesn't have the
/// page, and None if `digits` is empty or has a byte that isn't a digit.
fn from_end(pages: u32, digits: &[u8]) -> Option<u32>
    ensures { result ≡ option_map (number_found pages) (by_digits FromEnd digits.now) }
{
    Some(end_number(pages, number_of_digits(digits)?))
}

/// `number` if the document has a page with this number, and 0 otherwise.
fn start_number(pages: u32, number: usize) -> u32
    ensures { result ≡ number_found pages (FromStart number) }
{
    if number <= pages as usize {
        number as u32
    } else {
        0
    }
}

/// The number, counted from the start, of the page that has the number `number`, counted from the end. It is 0 if the document doesn't have this
/// page.
fn end_number(pages: u32, number: usize) -> u32
    ensures { result ≡ number_found pages (FromEnd number) }
{
    if 1 <= number && number <= pages as usize {
        pages - (number as u32 - 1)
    } else {
        0
    }
}

/// The value of a text of digits, but at most `usize::MAX`. None if the text is empty, or has a byte that isn't a digit.
fn number_of_digits(text: &[u8]) -> Option<usize>
    ensures { MatchOption result (is_number_text text.now ≡ false) (λ n.
        (is_number_text text.now ≡ true) × (n ≡ min (number_of text.now) usize.MAX)) }
{
    if text.is_empty() {
        return None;
    }
    number_or_zero(text)
}

/// The value of a text of digits, but at most `usize::MAX`. It is 0 if the text is empty. None if the text has a byte that isn't a digit.
fn number_or_zero(text: &[u8]) -> Option<usize>
    ensures { MatchOption result (list_all is_ascii_digit text.now ≡ false) (λ n.
        (list_all is_ascii_digit text.now ≡ true) × (n ≡ min (number_of text.now) usize.MAX)) }
{
    let mut n = 0usize;
    for b in text {
        if !b.is_ascii_digit() {
            return None;
        }
        n = n.saturating_mul(10).saturating_add(usize::from(*b - b'0'));
    }
    Some(n)
}
