//! Cutting of texts at a byte.
ghost use Rattle.std.specs.Prelude.{◌≡◌, ◌==◌, ◌+◌, ◌∷◌, length, IfSome, position};
ghost use Rattle.std.specs.List.{slice_split};
ghost use Rattle.rows.specs.Found.{parts_left};

/// The text before the first occurrence of `byte`, and the text after it. If the byte doesn't occur, the first of these is the whole text, and the
/// second is None.
pub(crate) fn split_at_byte(byte: u8, text: &[u8]) -> (&[u8], Option<&[u8]>)
    ensures parts { slice_split (λ b. b == byte) text.now ≡ result.0.now ∷ parts_left byte result.1 }
    ensures whole { IfSome result.1 (λ rest. length text.now ≡ length result.0.now + 1 + length rest.now) }
{
    match first_at(byte, text) {
        Some(at) => {
            let (part, from) = text.split_at(at);
            let (_, rest) = from.split_at(1);
            (part, Some(rest))
        }
        None => (text, None),
    }
}

/// The index of the first occurrence of `byte` in a text.
fn first_at(byte: u8, text: &[u8]) -> Option<usize>
    ensures { result ≡ position (λ b. b == byte) text.now }
{
    text.iter().position(|b| *b == byte)
}
