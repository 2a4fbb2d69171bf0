//! The row of pages to which a specification is applied.
ghost use Rattle.std.specs.Prelude.{◌≡◌, ◌+◌, ◌*◌, ◌/◌, ◌%◌, ◌^◌, ◌<◌, ◌↔◌, IsTrue, Some};
ghost use Rattle.rules.specs.Signatures.{AreSides, AreSidesIfGiven, entry_in, row_len, page_in_signature as page_in};

const MOST_SIDES: u32 = 1_000_000;

/// Whether a signature may have this number of sides. The number must be a positive multiple of four, because each leaf has four sides, and at most
/// 1,000,000.
pub fn are_sides(sides: u32) -> bool
    ensures { IsTrue result ↔ AreSides sides }
{
    sides > 0 && sides % 4 == 0 && sides <= MOST_SIDES
}

/// Pages in the order of their numbers if `sides` is None, or else in signatures with this number of sides each. The last signature is filled up with
/// blanks.
#[derive(Clone, Copy)]
pub struct Row {
    pub pages: u32,
    pub sides: Option<u32>,
}

impl Row {
    /// The number of entries of the row, including blanks.
    pub fn len(self) -> u64
        requires { AreSidesIfGiven self.sides }
        ensures { result ≡ row_len self.sides self.pages }
    {
        match self.sides {
            Some(sides) => filled_len(self.pages, sides),
            None => u64::from(self.pages),
        }
    }

    /// The page at an entry, both counted from 0. None if the entry is blank or comes after the end of the row.
    pub fn page_at(self, entry: u32) -> Option<u32>
        requires sides { AreSidesIfGiven self.sides }
        requires few { entry < 2 ^ 31 }
        ensures { result ≡ entry_in self.sides self.pages entry }
    {
        let page = match self.sides {
            Some(sides) => page_of_entry(sides, entry),
            None => entry,
        };
        if page < self.pages { Some(page) } else { None }
    }
}

/// The number of entries of all signatures. The last signature is filled up with blanks.
fn filled_len(pages: u32, sides: u32) -> u64
    requires { AreSides sides }
    ensures { result ≡ row_len (Some sides) pages }
{
    u64::from(pages.div_ceil(sides)) * u64::from(sides)
}

/// The page that an entry of the row of signatures names. If the number of this page isn't below the number of pages, the entry is blank.
fn page_of_entry(sides: u32, entry: u32) -> u32
    requires sides { AreSides sides }
    requires few { entry < 2 ^ 31 }
    ensures { result ≡ entry / sides * sides + page_in sides (entry % sides) }
{
    let position = entry % sides;
    entry - position + page_in_signature(sides, position)
}

/// The page at a position of a signature in psbook's order. The page and the position are counted from 0 in the signature.
pub fn page_in_signature(sides: u32, position: u32) -> u32
    requires sides { AreSides sides }
    requires position { position < sides }
    ensures value { result ≡ page_in sides position }
    ensures within { result < sides }
{
    let leaf = position / 4;
    match position % 4 {
        0 => sides - 1 - 2 * leaf,
        1 => 2 * leaf,
        2 => 2 * leaf + 1,
        _ => sides - 2 - 2 * leaf,
    }
}
