//! Papers by name.
ghost use Rattle.std.specs.Prelude.{◌≡◌, ◌<◌, ◌≤◌, map, IsTrue, ◌↔◌};
ghost use Rattle.std.specs.Str.{bytes_eq};
ghost use Rattle.rules.specs.Papers.{paper_with_name, points, small};
ghost use Rattle.lengths.specs.Lengths.{a4};

use super::paper::Paper;

/// The names of papers, each with the paper's width and height in points.
const PAPERS: [(&str, u32, u32); 8] = [
    ("a3", 842, 1191),
    ("a4", 595, 842),
    ("a5", 420, 595),
    ("letter", 612, 792),
    ("legal", 612, 1008),
    ("tabloid", 792, 1224),
    ("statement", 396, 612),
    ("10x14", 720, 1008),
];

/// The paper with this name: a3, a4, a5, letter, legal, tabloid, statement or 10x14, in upper or lower case. None for any other name.
pub fn paper_by_name(name: &str) -> Option<Paper>
    ensures { result ≡ paper_with_name name.now }
{
    for (known, width, height) in PAPERS {
        if name.eq_ignore_ascii_case(known) {
            return Some(Paper::of_points(width, height));
        }
    }
    None
}

/// The paper a4, which is 595 points wide and 842 points high.
pub fn a4() -> Paper
    ensures { result ≡ a4 }
{
    Paper::of_points(595, 842)
}
