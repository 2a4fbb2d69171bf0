//! Signatures, as the option `--signature` names them.
ghost use Rattle.std.specs.Prelude.{◌≡◌};
ghost use Rattle.command_words.specs.Matches.{u32_of};
ghost use Rattle.impose_words.specs.Signatures.{signing_named as signing_by, whole_number};

use rows::Signing;

/// The signatures that this word names: `auto`, or how many pages each signature has, a multiple of four from 4 to 1,000,000. `None` for another word.
pub fn signing_named(text: &str) -> Option<Signing>
    ensures { result ≡ signing_by text.now }
{
    if text == "auto" {
        return Some(Signing::Auto);
    }
    whole_number(text)
        .filter(|sides| 4 <= *sides && *sides <= 1_000_000 && *sides % 4 == 0)
        .map(|sides| Signing::OfSides(sides))
}

/// The whole number that a text of digits gives. `None` for any other text, such as one with a sign, and for a number above 2^32 - 1.
pub fn whole_number(text: &str) -> Option<u32>
    ensures { result ≡ whole_number text.now }
{
    if text.as_bytes().starts_with(b"+") {
        None
    } else {
        parsed(text)
    }
}

/// The whole number that a text of digits gives. A plus sign may come before the digits. `None` for any other text, and for a number above 2^32 - 1.
fn parsed(text: &str) -> Option<u32>
    ensures { result ≡ u32_of text.now }
{
    match text.parse::<u32>() {
        Ok(number) => Some(number),
        Err(_) => None,
    }
}
