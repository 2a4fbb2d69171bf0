//! Tips on words that follow the two words that clap takes for the names of files.
use crate::tips::{NO_VALUE, RANGES_AFTER_PAGES, tip_in};
use crate::words::{is_range, looks_like_file};
use impose_words::{length_with_unit, size_named};

/// The tip on a word that clap can't take for the name of a file, because two words are taken for names already. `after` has the words after the
/// command.
pub(crate) fn tip_on_file(command: &str, after: &[String]) -> &'static str {
    let first = after.first().map_or("", |word| word.as_str());
    let second = after.get(1).map_or("", |word| word.as_str());
    let ranges = after.iter().filter(|word| is_range(word.as_str())).count();
    if after.iter().any(|word| word
        .as_str()
        .starts_with(|sign: char| matches!(sign, '–' | '—')))
    {
        "an option of several letters begins with two minus signs, not with a dash, as in: --quiet"
    } else if matches!(command, "booklet" | "zine") && is_range(first) {
        "no number comes after booklet or zine, as in: impose zine in.ps out.ps; leaves are folded some at a time by --signature 16"
    } else if command == "select" && ranges > 1 {
        "ranges are one word, as in: impose select 1,3,5-8 in.ps out.ps"
    } else if ranges > 1 && count_of(after, "--pages") > 0 {
        RANGES_AFTER_PAGES
    } else if command != "spec" && is_range(first) && (is_range(second) || is_cross(second)) {
        "columns and rows are one word, as in: impose nup 2x3 in.ps out.ps"
    } else {
        tip_on_piece(after).unwrap_or(
            "there are two files at most, INFILE and OUTFILE; put a name with blanks in quotes",
        )
    }
}

/// The tip on a word that is most likely a part of a value, or a value without its option.
fn tip_on_piece(after: &[String]) -> Option<&'static str> {
    if after.iter().any(|word| matches!(word.as_str(), "landscape" | "portrait" | "quer")) {
        Some("a sheet on its side is named by one word, as in: --sheet a4-landscape")
    } else if has_stray_paper(after) {
        Some("the paper of the sheets comes after --sheet, as in: --sheet a4")
    } else if after
        .iter()
        .any(|word| matches!(word.as_str(), "pt" | "mm" | "cm" | "in"))
    {
        Some("a number and its unit are one word, as in: --gap 5mm")
    } else if has_piece_of_list(after) {
        Some("a list is one word, as in: --margin left=2cm,top=1cm or --gap 5mm,1cm")
    } else if has_stray_range(after) {
        Some("pages are named after --pages, as in: impose nup 2 --pages 1-4 in.ps out.ps")
    } else {
        tip_on_value(after).or(tip_on_several(after))
    }
}

/// The tip on the word after an option without a value, if that word isn't the name of a file. After `--cover`, people expect such a name, too.
fn tip_on_value(after: &[String]) -> Option<&'static str> {
    let place = after.iter().enumerate().position(|(place, word)| {
        let (option, word) = (word_before(after, place), word.as_str());
        tip_in(NO_VALUE, option).is_some()
            && !word.starts_with("-")
            && (option == "--cover" || !looks_like_file(word))
    })?;
    tip_in(NO_VALUE, word_before(after, place))
}

/// The tip on several documents: three words or more look like the names of files.
fn tip_on_several(after: &[String]) -> Option<&'static str> {
    let files = after
        .iter()
        .filter(|word| looks_like_file(word.as_str()))
        .count();
    (files > 2).then_some(
        "one document is read: join several by: gs -q -sDEVICE=ps2write -o both.ps one.ps two.ps; PDFs are joined by impose-pdf itself",
    )
}

/// The number of times that a word is among these words.
pub(crate) fn count_of(words: &[String], word: &str) -> usize {
    words.iter().filter(|other| other.as_str() == word).count()
}

/// Whether a word is a sign that people write between columns and rows.
fn is_cross(word: &str) -> bool {
    matches!(word, "x" | "X" | "*" | "×")
}

/// Whether a word is most likely a part of a list: it ends with a comma, or is a length and follows another word than an option.
fn has_piece_of_list(words: &[String]) -> bool {
    words.iter().enumerate().any(|(place, word)| {
        let (before, word) = (word_before(words, place), word.as_str());
        let follows_word = !before.is_empty() && !before.starts_with("-");
        word.ends_with(",") || follows_word && length_with_unit(word).is_some()
    })
}

/// Whether a range comes right after the name of a file.
fn has_stray_range(words: &[String]) -> bool {
    words.iter().enumerate().any(|(place, word)| {
        is_range(word.as_str()) && looks_like_file(word_before(words, place))
    })
}

/// Whether a word after the command names a paper, but doesn't follow an option that takes a paper.
fn has_stray_paper(words: &[String]) -> bool {
    words.iter().enumerate().any(|(place, word)| {
        let before = word_before(words, place);
        size_named(word.as_str()).is_some() && !matches!(before, "-p" | "--paper" | "--sheet")
    })
}

/// The word before this place. It is empty for the first place.
fn word_before(words: &[String], place: usize) -> &str {
    words
        .get(place.wrapping_sub(1))
        .map_or("", |word| word.as_str())
}
