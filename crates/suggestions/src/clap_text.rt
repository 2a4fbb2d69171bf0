//! The text with which clap describes a mistake in the command line. A clap error has only a kind and this text, so all code that depends on clap's
//! wording is in this module. Two examples of the text:
//!
//!     error: unexpected argument '--bodrer' found           error: unrecognized subcommand 'bookelt'
//!
//!       tip: a similar argument exists: '--border'            tip: a similar subcommand exists: 'booklet'
//!       tip: to pass '--bodrer' as a value, use '-- --bodrer'
//!
//!     Usage: impose nup --border <LENGTH> <N> [INFILE [OUTFILE]]

use clap::error::ErrorKind;

/// The words that clap's text has in quotes.
#[derive(Clone, Copy)]
pub(crate) struct Quoted<'t> {
    /// The word that clap refuses as an unknown argument or subcommand. It is empty for other kinds of mistakes.
    pub(crate) refused: &'t str,
    /// The option that clap suggests in place of an unknown one, if it suggests exactly one. Clap's usage line is then about this option.
    pub(crate) meant: Option<&'t str>,
}

/// The words that clap's text about a mistake of this kind has in quotes.
pub(crate) fn quoted_words(kind: ErrorKind, text: &str) -> Quoted<'_> {
    let word = between_quotes(text).unwrap_or("");
    let (refused, meant) = match kind {
        ErrorKind::UnknownArgument => {
            let similar = text.split_once(SIMILAR_OPTION);
            (word, similar.and_then(|(_, tip)| between_quotes(tip)))
        }
        ErrorKind::InvalidSubcommand => (word, None),
        _ => ("", None),
    };
    Quoted { refused, meant }
}

const SIMILAR_OPTION: &str = "  tip: a similar argument exists: ";

/// Whether a line is one of clap's tips that the message leaves out. Such a tip names a similar word, or advises putting an option after `--`, where
/// it would be taken for a file.
pub(crate) fn is_tip_left_out(line: &str) -> bool {
    line.starts_with("  tip: to pass ")
        || line.starts_with("  tip: a similar ")
        || line.starts_with("  tip: some similar ")
}

/// The beginning of clap's usage line.
pub(crate) const USAGE: &str = "Usage:";

/// The beginning of the last line of clap's text.
pub(crate) const POINTER: &str = "For more information";

/// The text between the first two single quotes, if there are two.
fn between_quotes(text: &str) -> Option<&str> {
    let (_, after) = text.split_once("'")?;
    let (word, _) = after.split_once("'")?;
    Some(word)
}
