//! Items as they are parsed. A parsed item keeps enough to find its faults or, if it has none, to make the item.
ghost use Rattle.std.specs.Prelude.{◌≡◌, ◌∷◌, ◌++◌, [], List, Some, length, MatchResult, not, int_le, pos};
ghost use Rattle.rules.specs.Specification.{IsItem, Modifier as WrittenModifier};
ghost use Rattle.pagespec.specs.Places.{StuckIn, StuckAfter, AreSomeModifiers};
ghost use Rattle.pagespec.specs.Reading.{is_minus_first, past_minus, modifiers_at, item_at};
ghost use Rattle.pagespec.specs.Views.{StandsFor};
ghost use Rattle.pagespec.specs.Parsed.{Summarizes, ModifiersRead, ItemRead};

use crate::item::Measure;
use crate::scan::{Modifier, ParseStop, Rest, read_modifier, rest_at};
use lengths::{Number, read_digits};

/// The meaning of an item's modifiers, as far as they were read.
#[derive(Clone, Copy)]
pub(crate) struct Modifiers {
    /// The number of quarter turns to the left, modulo 4.
    pub quarters: u8,
    /// The scale that is written first, if any. Likewise, `offset` is the offset that is written first.
    pub scale: Option<Number>,
    pub offset: Option<(Measure, Measure)>,
    /// Whether the integer part of a number is over 99,999. If so, only this field and `quarters` are reliable.
    pub too_large: bool,
    /// Whether a scale isn't greater than zero.
    pub scale_zero: bool,
    /// Whether there is a second scale or a second offset.
    pub repeated: bool,
}

impl Modifiers {
    /// The meaning of an item without modifiers.
    const NONE: Modifiers = Modifiers {
        quarters: 0,
        scale: None,
        offset: None,
        too_large: false,
        scale_zero: false,
        repeated: false,
    };

    /// These modifiers, followed by one more.
    fn and(self, modifier: Modifier) -> Modifiers
        ensures { (ms : List WrittenModifier) (m : WrittenModifier)
            → Summarizes ms self → StandsFor modifier m → Summarizes (ms ++ m ∷ []) result }
    {
        match modifier {
            Modifier::Turn(n) => Modifiers {
                quarters: (self.quarters % 4 + n % 4) % 4,
                ..self
            },
            Modifier::Scale(v) => Modifiers {
                scale: self.scale.or(Some(v)),
                scale_zero: self.scale_zero | !is_above_zero(v),
                repeated: self.repeated | self.scale.is_some(),
                ..self
            },
            Modifier::Offset(x, y) => Modifiers {
                offset: self.offset.or(Some((x, y))),
                repeated: self.repeated | self.offset.is_some(),
                ..self
            },
            Modifier::TooLarge => Modifiers {
                too_large: true,
                ..self
            },
        }
    }
}

fn is_above_zero(v: Number) -> bool
    ensures { result ≡ not (int_le v (pos 0)) }
{
    v.billionths() > 0
}

/// An item as it is written in a text.
#[derive(Clone, Copy)]
pub(crate) struct ParsedItem {
    pub from_end: bool,
    /// The page number, or 100,000 if it is larger.
    pub page: u32,
    pub modifiers: Modifiers,
}

/// Reads the item at the start of a text, and also returns the text after it. If there is no page number, the error is the place where reading stops.
pub(crate) fn read_item(bytes: &[u8]) -> Result<(ParsedItem, Rest<'_>), ParseStop>
    ensures { MatchResult result (λ x. ItemRead bytes.now x.0 x.1.text.now
        × StuckAfter IsItem item_at bytes.now x.1.text.now x.1.stuck.left)
        (λ stuck. StuckIn IsItem item_at bytes.now stuck.left) }
{
    let (from_end, body) = split_minus(bytes);
    match read_digits(body) {
        Some((page, after)) => {
            let (modifiers, rest) = read_modifiers(after);
            let item = ParsedItem {
                from_end,
                page,
                modifiers,
            };
            Ok((item, rest))
        }
        None => Err(ParseStop { left: body.len() }),
    }
}

/// Whether a text begins with a minus, and the text after that minus. A text that begins with no minus is returned whole.
pub(crate) fn split_minus(bytes: &[u8]) -> (bool, &[u8])
    ensures minus { result.0 ≡ is_minus_first bytes.now }
    ensures rest { result.1.now ≡ past_minus bytes.now }
{
    match bytes {
        [b'-', rest @ ..] => (true, rest),
        _ => (false, bytes),
    }
}

/// Reads the modifiers at the start of a text, and also returns the text after them.
pub(crate) fn read_modifiers(bytes: &[u8]) -> (Modifiers, Rest<'_>)
    ensures read { ModifiersRead bytes.now result.0 result.1.text.now }
    ensures stuck { StuckAfter AreSomeModifiers (λ t. Some (modifiers_at (length t) t))
        bytes.now result.1.text.now result.1.stuck.left }
{
    let mut modifiers = Modifiers::NONE;
    let mut rest = bytes;
    for _ in 0..bytes.len() {
        match read_modifier(rest) {
            Ok((modifier, after)) => {
                modifiers = modifiers.and(modifier);
                rest = after;
            }
            Err(stuck) => return (modifiers, Rest { text: rest, stuck }),
        }
    }
    (modifiers, rest_at(rest))
}
