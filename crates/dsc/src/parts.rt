//! The bytes at which the parts of a document begin, without its text.
ghost use Rattle.std.specs.Prelude.{◌≡◌, ℕ, ◌+◌, ◌<◌, ◌≤◌, length, map, slice_index_or};
ghost use Rattle.rules.specs.Run.{most_input_bytes};
ghost use Rattle.dsc.specs.Later.{later, later_found};

/// The bytes at which the pages of a document, their prepared bodies and the trailer begin. `Document::from_parts` uses
/// them to make a document of another text, which may differ from the first text only before the first page. The other
/// text isn't cut again.
#[derive(Drop)]
pub struct Parts {
    /// The number of bytes of the document.
    pub(crate) len: usize,
    /// For each page, the byte at which it begins.
    pub(crate) starts: Vec<u32>,
    /// For each page, the byte at which its prepared body begins, or 0 if this isn't known.
    pub(crate) bodies: Vec<u32>,
    /// The byte at which the trailer begins, or the length of the document if it has no trailer.
    pub(crate) stop: usize,
}

/// Adds this number of bytes to the start of each page.
pub(crate) fn move_starts(starts: &mut Vec<u32>, by: u32)
    requires room { (p : ℕ) → p < length starts.old.items → slice_index_or starts.old.items p 0 + by ≤ most_input_bytes }
    ensures { starts.new.items ≡ map (later by) starts.old.items }
{
    for start in starts.iter_mut() {
        *start += by;
    }
}

/// Adds this number of bytes to the start of each body. A start of 0 stays 0, because it means that the start isn't
/// known.
pub(crate) fn move_bodies(bodies: &mut Vec<u32>, by: u32)
    requires room { (p : ℕ) → p < length bodies.old.items → slice_index_or bodies.old.items p 0 + by ≤ most_input_bytes }
    ensures { bodies.new.items ≡ map (later_found by) bodies.old.items }
{
    for body in bodies.iter_mut() {
        *body = later_found(by, *body);
    }
}

/// The start of a body that is moved by `by` bytes. A start of 0 stays 0.
fn later_found(by: u32, at: u32) -> u32
    requires { at + by ≤ most_input_bytes }
    ensures { result ≡ later_found by at }
{
    if at == 0 { 0 } else { at + by }
}
