//! Reads the fields of a line. Blanks (spaces and tabs) separate fields.
ghost use Rattle.std.specs.Prelude.{◌≡◌, ◌≤◌, length, MatchOption, min, [], ◌∷◌, true, false, not};
ghost use Rattle.std.specs.List.{list_all, prefix_len};
ghost use Rattle.std.specs.Char.{is_ascii_digit};
ghost use Rattle.rules.specs.Units.{is_blank};
ghost use Rattle.rules.specs.Numbers.{number_of};
ghost use Rattle.dsc.specs.Fields.{fields_in};

/// The number of blanks (spaces and tabs) at the start of the bytes.
fn blanks_at(text: &[u8]) -> usize
    ensures value { result ≡ prefix_len is_blank text.now }
    ensures within { result ≤ length text.now }
{
    text.iter()
        .take_while(|b| **b == b' ' || **b == b'\t')
        .count()
}

/// The length of the field at the start of the bytes. It is 0 if they begin with a blank, or if there are none.
fn field_at(text: &[u8]) -> usize
    ensures value { result ≡ prefix_len (λ b. not (is_blank b)) text.now }
    ensures within { result ≤ length text.now }
{
    text.iter()
        .take_while(|b| !(**b == b' ' || **b == b'\t'))
        .count()
}

/// The first field of a text, and the text after it. Spaces and tabs separate fields. None if the text has no field.
pub fn next_field(text: &[u8]) -> Option<(&[u8], &[u8])>
    ensures { MatchOption result (fields_in text.now ≡ []) (λ p. fields_in text.now ≡ p.0.now ∷ fields_in p.1.now) }
{
    let (_, from) = text.split_at(blanks_at(text));
    let len = field_at(from);
    if len == 0 {
        return None;
    }
    Some(from.split_at(len))
}

/// The value of a field of digits, or `usize::MAX` if the value is larger. It is 0 if there are no digits. None if a
/// byte isn't a digit.
pub(crate) fn count_in(field: &[u8]) -> Option<usize>
    ensures { MatchOption result (list_all is_ascii_digit field.now ≡ false) (λ n.
        (list_all is_ascii_digit field.now ≡ true) × (n ≡ min (number_of field.now) usize.MAX)) }
{
    let mut n = 0usize;
    for b in field {
        if !b.is_ascii_digit() {
            return None;
        }
        n = n.saturating_mul(10).saturating_add(usize::from(*b - b'0'));
    }
    Some(n)
}
