//! Units of length.
ghost use Rattle.std.specs.Prelude.{◌≡◌, option_map};
ghost use Rattle.lengths.specs.Lengths.{unit_named};
ghost use Rattle.lengths.specs.Units.{length_unit};

/// A unit of length in a page specification. An inch is 72 points, 2.54 cm or 25.4 mm.
#[derive(Clone, Copy, Debug, PartialEq, Eq, Hash)]
pub enum Unit {
    /// Points.
    Pt,
    /// Centimetres.
    Cm,
    /// Millimetres.
    Mm,
    /// Inches.
    In,
    /// The width of the paper.
    W,
    /// The height of the paper.
    H,
}

/// The unit with this name, which is `pt`, `cm`, `mm` or `in`. An empty name means points. None for any other name.
pub fn unit_by_name(name: &[u8]) -> Option<Unit>
    ensures { option_map length_unit result ≡ unit_named name.now }
{
    if name.is_empty() || name == b"pt".as_slice() {
        Some(Unit::Pt)
    } else if name == b"cm".as_slice() {
        Some(Unit::Cm)
    } else if name == b"mm".as_slice() {
        Some(Unit::Mm)
    } else if name == b"in".as_slice() {
        Some(Unit::In)
    } else {
        None
    }
}
