//! Reads the width of a border.
ghost use Rattle.std.specs.Prelude.{◌≡◌, option_map};
ghost use Rattle.command_words.specs.Borders as meaning;

use lengths::{Grains, Paper, length_named};

/// Reads the width of a border: a number with its unit (`pt`, `cm`, `mm` or `in`), or a number alone, which is in points. `Some(None)` means no
/// border: no width is given, or the width is 0. None if the text isn't a length, or if the length is below 0. The paper has no effect.
pub fn border_named(paper: &Paper, width: Option<&str>) -> Option<Option<Grains>>
    ensures { result ≡ meaning.border_named paper.now (option_map (λ s. s.now) width.entry) }
{
    match width {
        None => Some(None),
        Some(width) => border_width(length_named(paper, width.as_bytes())?),
    }
}

fn border_width(width: Grains) -> Option<Option<Grains>>
    ensures { result ≡ meaning.border_of width }
{
    if width.get() >= 1 {
        Some(Some(width))
    } else if width.get() >= 0 {
        Some(None)
    } else {
        None
    }
}
