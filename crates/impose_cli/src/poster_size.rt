//! Posters of a size.
ghost use Rattle.std.specs.Prelude.{◌≡◌, ◌≤◌, IsTrue, pos};
ghost use Rattle.rules.specs.Numbers.{greatest_number};
ghost use Rattle.rules.specs.Papers.{is_side};
ghost use Rattle.impose_cli.specs.PosterSizes as meaning;

use impose_words::PosterSize;
use layouts::{Cells, extent, scale_e9};
use lengths::{Grains, Number, Paper};
use row_sheets::Poster;

/// This poster in this size. Without a grid, it is on the fewest sheets that hold a page of this paper at its scale.
pub(crate) fn poster_of(size: &PosterSize, page: &Paper, poster: Poster) -> Poster
    ensures { result ≡ meaning.poster_of size.now page.now poster }
{
    match size {
        PosterSize::Sheets(Cells::Exactly { columns, rows }) => Poster {
            columns: *columns,
            rows: *rows,
            ..poster
        },
        PosterSize::Sheets(Cells::AtLeast(_)) => poster.on_fewest_sheets(page),
        PosterSize::Scaled(scale) => at_scale(poster, page, *scale),
        PosterSize::Fitting(paper) => {
            let scale = scale_on(paper, page, &poster);
            at_scale(poster, page, scale)
        }
    }
}

/// This poster on the fewest sheets that hold a page of this paper at this scale.
fn at_scale(poster: Poster, page: &Paper, scale: Number) -> Poster
    ensures { result ≡ meaning.at_scale page.now poster scale }
{
    Poster {
        scale: Some(scale),
        ..poster
    }
    .on_fewest_sheets(page)
}

/// The scale of a poster whose size is this paper. A page fits the paper at this scale, upright or on its side. The scale is the largest one, or it is
/// rounded down to a whole percentage if the poster then takes fewer sheets.
fn scale_on(size: &Paper, page: &Paper, poster: &Poster) -> Number
    ensures { result ≡ pos (meaning.scale_on size.now page.now poster.now) }
{
    let exact = exact_scale(size, page);
    let whole = in_percent(exact);
    if sheets_at(poster, page, whole) < sheets_at(poster, page, exact) {
        scale_e9(whole)
    } else {
        scale_e9(exact)
    }
}

/// The scale rounded down to a whole percentage. Both are in 10^-9.
fn in_percent(scale: u64) -> u64
    ensures value { result ≡ meaning.in_percent scale }
    ensures in_range { result ≤ scale }
{
    scale / 10_000_000 * 10_000_000
}

/// The largest scale, in 10^-9, at which a page fits the paper `size`, upright or on its side. It is at most 99,999.999999999.
fn exact_scale(size: &Paper, page: &Paper) -> u64
    ensures value { result ≡ meaning.exact_scale size.now page.now }
    ensures in_range { result ≤ greatest_number }
{
    let upright = scale_within(size.width(), size.height(), page);
    let on_side = scale_within(size.height(), size.width(), page);
    upright.max(on_side).min(99_999_999_999_999) as u64
}

/// The largest scale, in 10^-9, at which a page isn't wider than `width` and not higher than `height`.
fn scale_within(width: Grains, height: Grains, page: &Paper) -> u128
    requires width { IsTrue (is_side width) }
    requires height { IsTrue (is_side height) }
    ensures { result ≡ meaning.scale_within width height page.now }
{
    scale_along(width, page.width()).min(scale_along(height, page.height()))
}

/// The largest scale, in 10^-9, at which `side` isn't longer than `longest`.
fn scale_along(longest: Grains, side: Grains) -> u128
    requires longest { IsTrue (is_side longest) }
    requires side { IsTrue (is_side side) }
    ensures { result ≡ meaning.scale_along longest side }
{
    1_000_000_000 * u128::from(extent(longest)) / u128::from(extent(side))
}

/// The number of sheets of the poster of a page at this scale, which is in 10^-9.
fn sheets_at(poster: &Poster, page: &Paper, scale: u64) -> u64
    requires { scale ≤ greatest_number }
    ensures { result ≡ meaning.sheets_at page.now poster.now scale }
{
    let poster = at_scale(*poster, page, scale_e9(scale));
    u64::from(poster.rows) * u64::from(poster.columns)
}
