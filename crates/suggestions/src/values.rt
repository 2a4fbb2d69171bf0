//! Messages about values that options and arguments don't take.
use crate::cell_values::cells_wording;
use crate::length_values::{UNITS_IN_LISTS, length_wording, margin_wording, may_be_list};
use crate::mistakes::begins_with_digit;
use crate::paper_values::{paper_wording, ranges_wording};
use crate::shown::shown_word;
use crate::wordings::{Wording, name_and_advice, refusal};
use crate::words::{has_file_ending, is_range};
use impose_words::{
    OptionId, gaps_named, length_with_unit, margins_named, parse_number, size_named, whole_number,
};
use std::alloc::{AllocError, Global};

/// The message about a text that the option or argument doesn't take as its value. The message shows this text as `shown_word` does.
pub fn value_text(alloc: Global, option: OptionId, text: &str) -> Result<String, AllocError> {
    let Wording { before, after } = wording_for(alloc, option, text)?;
    let shown = shown_word(alloc, text)?;
    format!(in alloc; "{before}{shown}{after}")
}

/// The wording about a text that the option or argument doesn't take.
fn wording_for(alloc: Global, option: OptionId, text: &str) -> Result<Wording, AllocError> {
    let pointed = with_points(alloc, text)?;
    if pointed.as_str() != text && is_value(option, pointed.as_str()) {
        return decimals_wording(alloc, option, pointed.as_str());
    }
    let may_be_file = matches!(
        option,
        OptionId::Count(_) | OptionId::Outfile | OptionId::Preview
    );
    if has_file_ending(text) && !may_be_file {
        return no_value_wording(alloc, option);
    }
    match option {
        OptionId::Count(command) => cells_wording(alloc, command, text),
        OptionId::Outfile => outfile_wording(alloc, text),
        OptionId::Skip(cells) => skip_wording(alloc, option, cells),
        OptionId::Paper if is_range(text) && (text.contains("-") || text.contains(",")) =>
            ranges_wording(alloc, text),
        OptionId::Paper | OptionId::Sheet => paper_wording(alloc, option, text),
        OptionId::Margin => margin_wording(alloc, text),
        OptionId::Border | OptionId::Trim | OptionId::Creep => length_wording(alloc, option, text),
        OptionId::Overlap | OptionId::Gap | OptionId::Numbers => length_wording(
            alloc, option, text,
        ),
        OptionId::CutMarks if text.contains("fold") => fold_marks_wording(alloc),
        OptionId::Scale if matches!(text, "fit" | "auto" | "max") => fit_wording(alloc),
        OptionId::Signature => signature_wording(alloc, text),
        OptionId::NumbersFrom if whole_number(text).is_some() => first_number_wording(alloc, text),
        _ => refusal(alloc, option),
    }
}

/// The wording that an option lacks its value, because the name of a file comes after the option.
fn no_value_wording(alloc: Global, option: OptionId) -> Result<Wording, AllocError> {
    let id = option.id();
    let (_, advice) = name_and_advice(option);
    Ok(Wording {
        before: format!(in alloc; "the value of --{id} is missing before '")?,
        after: format!(in alloc; "': {advice}")?,
    })
}

/// The text, with a point in place of each comma between two digits.
fn with_points(alloc: Global, text: &str) -> Result<String, AllocError> {
    let mut pointed = String::new(alloc);
    for (place, part) in text.split(',').enumerate() {
        if place > 0 {
            let follows_digit = pointed
                .as_str()
                .ends_with(|letter: char| letter.is_ascii_digit());
            let is_decimal = follows_digit && begins_with_digit(part);
            pointed.push(if is_decimal { '.' } else { ',' })?;
        }
        pointed.push_str(part)?;
    }
    Ok(pointed)
}

/// Whether a text is a size, a scale, a length or a list of lengths that the option takes. False for options that take other values.
fn is_value(option: OptionId, text: &str) -> bool {
    match option {
        OptionId::Paper | OptionId::Sheet => size_named(text).is_some(),
        OptionId::Margin => margins_named(text).is_some(),
        OptionId::Gap => gaps_named(text).is_some(),
        OptionId::Border | OptionId::Trim | OptionId::Creep => length_with_unit(text).is_some(),
        OptionId::Overlap | OptionId::Numbers => length_with_unit(text).is_some(),
        OptionId::Scale => parse_number(text).is_some(),
        _ => false,
    }
}

/// The wording about a text that has commas where decimal points belong. `pointed` is the text with points, which would be a value.
fn decimals_wording(alloc: Global, option: OptionId, pointed: &str) -> Result<Wording, AllocError> {
    let id = option.id();
    let pointed = shown_word(alloc, pointed)?;
    let units = if may_be_list(option) {
        UNITS_IN_LISTS
    } else {
        ""
    };
    let after = format!(in alloc;
        "' after --{id}: decimals come after a point, so write {pointed}{units}"
    )?;
    Wording::new(alloc, "'", after)
}

/// The wording about a word after `--scale` that asks for pages as large as they fit.
fn fit_wording(alloc: Global) -> Result<Wording, AllocError> {
    let after = String::from_str(
        alloc,
        "' is no scale: leave --scale out, and pages are as large as they fit",
    )?;
    Wording::new(alloc, "'", after)
}

/// The wording about a number after `--numbers-from` that comes without `--numbers`.
fn first_number_wording(alloc: Global, text: &str) -> Result<Wording, AllocError> {
    let shown = shown_word(alloc, text)?;
    let after = format!(in alloc;
        " is for numbers, which have a size: give --numbers 10pt --numbers-from {shown}"
    )?;
    Wording::new(alloc, "--numbers-from ", after)
}

/// The wording about an output file whose name begins with a minus, as options do.
fn outfile_wording(alloc: Global, text: &str) -> Result<Wording, AllocError> {
    let shown = shown_word(alloc, text)?;
    let after = format!(in alloc;
        "' begins with a minus, as options do: options come before --, and a file of this name is written ./{shown}"
    )?;
    Wording::new(alloc, "OUTFILE '", after)
}

/// The wording about fold marks for sheets that aren't folded.
fn fold_marks_wording(alloc: Global) -> Result<Wording, AllocError> {
    let after = String::from_str(alloc, " asks too much here: give --marks cut")?;
    Wording::new(alloc, "only a booklet is folded, so --marks ", after)
}

/// The wording about a text that isn't the number of pages in a signature. For a number between 4 and 1,000,000 the message names the two nearest
/// multiples of four.
fn signature_wording(alloc: Global, text: &str) -> Result<Wording, AllocError> {
    match whole_number(text) {
        Some(pages) if 4 < pages && pages < 1_000_000 => {
            let below = pages - pages % 4;
            let above = below + 4;
            let after = format!(in alloc;
                " pages can't be folded: take a multiple of four, as {below} or {above}, or auto"
            )?;
            Wording::new(alloc, "a signature of ", after)
        }
        _ => refusal(alloc, OptionId::Signature),
    }
}

/// The wording about a text after `--skip` that isn't a number below the number of cells on a sheet. If a sheet has one cell, the message says to
/// leave the option out.
fn skip_wording(alloc: Global, option: OptionId, cells: u64) -> Result<Wording, AllocError> {
    if cells < 2 {
        let after = String::from_str(alloc, ": a sheet has one cell, so leave --skip out")?;
        return Wording::new(alloc, "--skip ", after);
    }
    let most = cells - 1;
    let advice = format!(in alloc; "a sheet has {cells} cells, so give one from 1 to {most}")?;
    Wording::refusing(alloc, "bad number", option, advice.as_str())
}
