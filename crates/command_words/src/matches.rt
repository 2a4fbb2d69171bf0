//! Reads the values that clap finds among the words of a command line.
ghost use Rattle.std.specs.Prelude.{◌≡◌, IfOk, is_some, option_map, string_bytes};
ghost use Rattle.clap.specs.Words.{first_of, first_value, found_of, one_of, rows_of};
ghost use Rattle.command_words.specs.Matches.{has_true, number_named};

use clap::ArgMatches;
use std::alloc::{AllocError, Global};

/// The value of an argument, as text; None if the argument isn't given.
pub fn text_of<'a>(matches: &ArgMatches<'a>, id: &str) -> Option<&'a str>
    ensures text { option_map (λ s. s.now) result ≡ first_of id.now (rows_of (found_of matches.now)) }
    ensures given { is_some result ≡ is_some (first_value (found_of matches.now) id.now) }
{
    matches.get_str(id)
}

/// The value of an argument that takes a whole number; None if the argument isn't given.
pub fn number_of(matches: &ArgMatches<'_>, id: &str) -> Option<u32>
    ensures { result ≡ number_named (one_of id.now (rows_of (found_of matches.now))) }
{
    matches.get_one::<u32>(id)
}

/// Whether a flag is given. Clap finds the text `true` for a flag that is given.
pub fn is_set(matches: &ArgMatches<'_>, id: &str) -> bool
    ensures { result ≡ has_true (first_of id.now (rows_of (found_of matches.now))) }
{
    text_of(matches, id).is_some_and(|text| text == "true")
}

/// A copy of this text that the caller owns, or None if there is no text. Fails only if memory is refused.
pub fn owned(alloc: Global, text: Option<&str>) -> Result<Option<String>, AllocError>
    ensures { IfOk result (λ own. option_map string_bytes own ≡ option_map (λ s. s.now) text.entry) }
{
    match text {
        None => Ok(None),
        Some(text) => Ok(Some(String::from_str(alloc, text)?)),
    }
}
