//! Lengths as users write them: a number and a unit.
ghost use Rattle.std.specs.Prelude.{◌≡◌};
ghost use Rattle.lengths.specs.Lengths.{length_named};

use super::convert::to_grains;
use super::grains::Grains;
use super::paper::Paper;
use super::read::read_number;
use super::unit::unit_by_name;

/// The length that a text names: a number, positive or negative, and its unit, which is `pt`, `cm`, `mm` or `in`. Without a unit the number is in
/// points. None if the text has any other form, or if the integer part of the number is over 99,999. The paper has no effect, because none of these
/// units depends on it.
pub fn length_named(paper: &Paper, text: &[u8]) -> Option<Grains>
    ensures { result ≡ length_named paper.now text.now }
{
    let (number, len) = read_number(text).ok()?;
    let unit = unit_by_name(&text[len..])?;
    Some(to_grains(number, unit, paper))
}
