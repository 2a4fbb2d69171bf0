//! The sizes of posters, as people write them.
ghost use Rattle.std.specs.Prelude.{◌≡◌};
ghost use Rattle.impose_words.specs.PosterSizes as meaning;
ghost use Rattle.impose_words.specs.Sizes.{size_named as paper_named};

use crate::arranging::tiles_named;
use crate::request::PosterSize;
use crate::sizes::size_named;
use lengths::{Number, read_number};

/// The size of a poster that the text names: columns and rows of sheets with an `x` between them, `auto`, a scale in per cent, or a paper. `None` for
/// another text, for 0 or more than 1,024 sheets, and for a scale below 0 or above 99,999 per cent.
pub fn poster_size_named(text: &str) -> Option<PosterSize>
    ensures { result ≡ meaning.poster_size_named text.now }
{
    match tiles_named(text) {
        Some(cells) => Some(PosterSize::Sheets(cells)),
        None => scale_or_paper(text),
    }
}

/// The size of a poster that a scale in per cent or a paper gives.
fn scale_or_paper(text: &str) -> Option<PosterSize>
    ensures { result ≡ meaning.scale_or_paper (meaning.percent_named text.now) (paper_named text.now) }
{
    match percent_named(text) {
        Some(scale) => Some(PosterSize::Scaled(scale)),
        None => size_named(text).map(|paper| PosterSize::Fitting(paper)),
    }
}

/// The hundredth part of the number before a per cent sign, rounded down to 10^-9. `None` if the text isn't such a number, or if the number is
/// negative.
fn percent_named(text: &str) -> Option<Number>
    ensures { result ≡ meaning.percent_named text.now }
{
    let (number, len) = read_number(text.as_bytes()).ok()?;
    let rest = &text.as_bytes()[len..];
    if rest == b"%".as_slice() {
        hundredth(number)
    } else {
        None
    }
}

/// The hundredth part of a number, rounded down to 10^-9. `None` for a negative number.
fn hundredth(number: Number) -> Option<Number>
    ensures { result ≡ meaning.hundredth number }
{
    let billionths = number.billionths();
    if billionths < 0 {
        None
    } else {
        Number::new(billionths / 100)
    }
}
