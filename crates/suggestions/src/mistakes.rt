//! Messages about words of the command line that the command doesn't take.
use crate::clap_text::{POINTER, Quoted, USAGE, is_tip_left_out, quoted_words};
use crate::nearest::{COMMANDS, distance, nearest_command};
use crate::other_programs::{FOR_COMMANDS, tip_on_other};
use crate::shown::{is_shown_whole, push_line, shown_word};
use crate::stray_words::{count_of, tip_on_file};
use crate::tips::{
    FOR_BOOKLETS, FOR_CARDS, FOR_POSTERS, FOR_SELECTIONS, FOR_SPECIFICATIONS, FOR_STACKS,
    FOR_ZINES, MISSING, OF_COMMANDS, RANGES_AFTER_PAGES, SIGNS, Tip, tip_in,
};
use crate::words::looks_like_file;
use clap::Error;
use clap::error::ErrorKind;
use impose_words::size_named;
use std::alloc::{AllocError, Global};

/// The message about a command line with words that the command doesn't take. `words` is the whole command line, with the program's name first. The
/// message is clap's text without clap's own tips, and with a tip on the mistake if one is known. Hidden characters are escaped, and long words are
/// cut. The only error is running out of memory.
pub fn words_text(alloc: Global, error: &Error, words: &[String]) -> Result<String, AllocError> {
    let mut text = format!(in alloc; "{error}")?;
    for word in words {
        let word = word.as_str();
        text = with_shown(alloc, text, word)?;
        // Clap may also quote only what comes after an equals sign or after `-p`, so this part is replaced too.
        text = match word.split_once("=") {
            Some((_, value)) => with_shown(alloc, text, value)?,
            None => with_shown(alloc, text, word.strip_prefix("-p").unwrap_or(word))?,
        };
    }
    let text = text.as_str();
    let quoted = quoted_words(error.kind(), text);
    match tip(error.kind(), quoted.refused, words) {
        Some(tip) => with_tip(alloc, text, tip, quoted.meant.is_none()),
        None => {
            let tip = likeness(alloc, error.kind(), quoted)?;
            let keeps_usage = quoted.meant.is_none() || !tip.is_empty();
            with_tip(alloc, text, tip.as_str(), keeps_usage)
        }
    }
}

/// The text, with a word replaced wherever it occurs by the form in which messages show it.
fn with_shown(alloc: Global, text: String, word: &str) -> Result<String, AllocError> {
    if is_shown_whole(word) {
        return Ok(text);
    }
    let shown = shown_word(alloc, word)?;
    text.as_str().replace(alloc, word, shown.as_str())
}

/// Clap's text with `tip` inserted above the usage, or above the last line if the usage is missing or left out. An empty tip isn't inserted. Clap's
/// own tips are left out, and so is the usage unless `keeps_usage` is true. Of blank lines that then follow one another, only the first is kept.
fn with_tip(alloc: Global, text: &str, tip: &str, keeps_usage: bool) -> Result<String, AllocError> {
    let mut out = String::new(alloc);
    let tip_line = format!(in alloc; "  tip: {tip}")?;
    let mut is_told = tip.is_empty();
    let mut follows_blank = false;
    for line in text.lines() {
        let is_usage = line.starts_with(USAGE);
        if is_tip_left_out(line) || line.is_empty() && follows_blank || is_usage && !keeps_usage {
            continue;
        }
        if !is_told && (is_usage || line.starts_with(POINTER)) {
            push_line(&mut out, tip_line.as_str())?;
            push_line(&mut out, "")?;
            is_told = true;
        }
        push_line(&mut out, line)?;
        follows_blank = line.is_empty();
    }
    Ok(out)
}

/// The tip that names a similar command or option. It is empty if none has a similar name.
fn likeness(alloc: Global, kind: ErrorKind, quoted: Quoted<'_>) -> Result<String, AllocError> {
    let word = quoted.refused;
    let (what, like) = match kind {
        ErrorKind::InvalidSubcommand => ("subcommand", nearest_command(alloc, word)?),
        ErrorKind::UnknownArgument => ("argument", quoted.meant),
        _ => ("", None),
    };
    match like {
        Some(name) if distance(alloc, word, name)?.is_some() => {
            format!(in alloc; "a similar {what} exists: '{name}'")
        }
        _ => Ok(String::new(alloc)),
    }
}

/// The tip on a mistake of this kind, if one is known that is better than clap's. `word` is the word that clap refuses, and `words` is the command
/// line.
fn tip(kind: ErrorKind, word: &str, words: &[String]) -> Option<&'static str> {
    let [_, command, after @ ..] = words else {
        return None;
    };
    let command = command.as_str();
    match kind {
        ErrorKind::InvalidSubcommand => tip_on_command(word),
        ErrorKind::UnknownArgument if !COMMANDS.contains(&command) => tip_on_command(word),
        ErrorKind::UnknownArgument if word.starts_with("-") => {
            tip_on_option(command, after, word)
        }
        ErrorKind::UnknownArgument => Some(tip_on_file(command, after)),
        ErrorKind::MissingRequiredArgument => tip_in(MISSING, command),
        ErrorKind::TooManyValues => Some(
            "the option has no value: leave out the equals sign and what comes after it",
        ),
        ErrorKind::ArgumentConflict if count_of(after, "--pages") > 1 => Some(RANGES_AFTER_PAGES),
        _ => None,
    }
}

/// The tip on a word in the place of the command, if one is known.
fn tip_on_command(word: &str) -> Option<&'static str> {
    if begins_with_digit(word.strip_prefix("-").unwrap_or(word)) {
        Some("a command comes before its number, as in: impose nup 2 in.ps out.ps")
    } else if word.starts_with("-") {
        let own = "options come after the command, as in: impose nup 2 -q in.ps out.ps";
        Some(
            tip_in(FOR_COMMANDS, word)
                .or(tip_on_other(word))
                .unwrap_or(own),
        )
    } else if looks_like_file(word) {
        Some("a command comes before the files, as in: impose booklet in.ps out.ps")
    } else if is_command_and_number(word) {
        Some("a blank is between a command and its number, as in: impose nup 2 in.ps out.ps")
    } else if size_named(word).is_some() {
        Some("pages are put on another paper by: impose nup 1 --sheet a4 in.ps out.ps")
    } else {
        tip_in(FOR_COMMANDS, word)
    }
}

pub(crate) fn begins_with_digit(word: &str) -> bool {
    word.starts_with(|letter: char| letter.is_ascii_digit())
}

fn is_command_and_number(word: &str) -> bool {
    COMMANDS.iter().any(|name| {
        let rest = word.strip_prefix(*name).unwrap_or("");
        begins_with_digit(rest.trim_start_matches(|sign: char| matches!(sign, '=' | ':' | '-')))
    })
}

/// The tip on an unknown option, if one is known. `word` is the option as clap names it, and `after` has the words after the command.
fn tip_on_option(command: &str, after: &[String], word: &str) -> Option<&'static str> {
    let (before, whole) = in_place(after, word);
    let value = whole.strip_prefix("-").unwrap_or("");
    if begins_with_digit(value) || value.starts_with(".") {
        return tip_in(SIGNS, before).or(tip_in(SIGNS, command));
    }
    if begins_with_digit(value.strip_prefix("-").unwrap_or("")) {
        return Some(
            "a number comes after the command without signs, as in: impose nup 2x3 in.ps out.ps",
        );
    }
    if after.iter().any(|whole| is_long_name(whole.as_str(), word)) {
        return Some("an option of several letters begins with two minus signs, as in: --quiet");
    }
    let own = tip_in(tips_for(command), word);
    if own.is_some() {
        return own;
    }
    if matches!(
        word,
        "-o" | "--out" | "--outfile" | "--output" | "--output-file"
    ) {
        return Some(
            "the sheets go to the second file, without an option: impose nup 2 in.ps out.ps",
        );
    }
    if looks_like_file(whole) && !whole.contains("=") {
        return Some("a file whose name begins with a minus is written with its folder: ./-in.ps");
    }
    tip_in(OF_COMMANDS, word).or(tip_on_other(word))
}

/// The tips on options that are for this command alone.
fn tips_for(command: &str) -> &'static [Tip] {
    match command {
        "booklet" => FOR_BOOKLETS,
        "stack" => FOR_STACKS,
        "cards" => FOR_CARDS,
        "zine" => FOR_ZINES,
        "poster" => FOR_POSTERS,
        "select" => FOR_SELECTIONS,
        "spec" => FOR_SPECIFICATIONS,
        _ => &[],
    }
}

/// Whether a word looks like an option's long name after a single minus sign, such as `-quiet`, in which clap refuses this letter, such as `-u`. A
/// word such as `-pa4` is excluded, because a paper follows `-p`.
fn is_long_name(word: &str, letter: &str) -> bool {
    let (Some(name), Some(letter)) = (word.strip_prefix("-"), letter.strip_prefix("-")) else {
        return false;
    };
    name.len() > 2
        && !name.starts_with(|first: char| matches!(first, '-' | 'p'))
        && name.contains(letter)
        && name
            .chars()
            .all(|letter| letter.is_ascii_lowercase() || letter == '-')
}

/// Finds the word of the command line that begins with an option as clap names it, such as `-d1` for `-d` and `--frame=1` for `--frame`. Returns the
/// word before it and the word itself. Both are empty if no word begins with the option: in `-qd1`, the option `-d` comes after another letter.
fn in_place<'w>(after: &'w [String], option: &str) -> (&'w str, &'w str) {
    let is_option = |word: &String| match word.as_str().strip_prefix(option) {
        Some(rest) => !option.starts_with("--") || rest.is_empty() || rest.starts_with("="),
        None => false,
    };
    match after.iter().position(is_option) {
        Some(0) => ("", after[0].as_str()),
        Some(place) => (after[place - 1].as_str(), after[place].as_str()),
        None => ("", ""),
    }
}
