//! Entries of a row.
ghost use Rattle.std.specs.Prelude.{◌≡◌};
ghost use Rattle.rules.specs.Signatures.{entry_of};

/// The entry of a row with this index, counted from 0. Every entry after the end of the row is blank.
pub fn entry_at(row: &[Option<u32>], entry: u128) -> Option<u32>
    ensures { result ≡ entry_of row.now entry }
{
    if entry < row.len() as u128 {
        row[entry as usize]
    } else {
        None
    }
}
