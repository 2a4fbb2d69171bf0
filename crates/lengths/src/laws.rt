//! Laws of reading and printing. Each function states one law in its `ensures`, and has an empty body.
ghost use Rattle.rules.specs.Numbers.{scale_text, number_text};
ghost use Rattle.lengths.specs.Lengths.{LengthsAreNumbers};
ghost use Rattle.lengths.specs.Printed.{IsReadAgain};

/// Reading the text that `print_scale` prints for a number gives that number, and uses the whole text.
pub fn printed_scale_is_read()
    ensures { IsReadAgain scale_text }
{}

/// Reading the text that `print_number` prints for a number gives that number, and uses the whole text.
pub fn printed_number_is_read()
    ensures { IsReadAgain number_text }
{}

/// A text is accepted as a length exactly if it is a number with an integer part of at most 99,999, alone or followed by `pt`, `cm`, `mm` or `in`.
/// The number may be negative.
pub fn lengths_are_numbers_and_units()
    ensures { LengthsAreNumbers }
{}
