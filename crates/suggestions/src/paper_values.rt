//! Messages about values that aren't papers.
use crate::mistakes::begins_with_digit;
use crate::nearest::{nearest_papers, plain};
use crate::shown::shown_word;
use crate::tips::{Tip, tip_in, tips};
use crate::wordings::Wording;
use impose_words::OptionId;
use papers::{PaperError, read_paper};
use std::alloc::{AllocError, Global};

/// The wording about page ranges after `-p` or `--paper`. `-p` is psselect's option for page ranges, but here it names a paper. psselect takes `-5`
/// for the pages up to the fifth; `select` wants their first page, too.
pub(crate) fn ranges_wording(alloc: Global, text: &str) -> Result<Wording, AllocError> {
    let first = if text.starts_with("-") { "1" } else { "" };
    let shown = shown_word(alloc, text)?;
    let after = format!(in alloc;
        "' after --paper is no paper: pages come after select, as in: impose select {first}{shown} in.ps out.ps"
    )?;
    Wording::new(alloc, "'", after)
}

/// The wording about a text that isn't a paper: that its unit is missing, that one of its sides isn't possible, or that no paper has this name.
pub(crate) fn paper_wording(
    alloc: Global,
    option: OptionId,
    text: &str,
) -> Result<Wording, AllocError> {
    match read_paper(text.as_bytes()) {
        Err(PaperError::NoUnit) if may_have_unit(alloc, text)? => {
            no_size_unit_wording(alloc, option, text)
        }
        Err(PaperError::NoUnit) | Err(PaperError::NoSuchSize) => {
            Wording::refusing(
                alloc,
                "size",
                option,
                "a side is zero, negative or too long",
            )
        }
        Err(PaperError::Unknown) | Ok(_) => {
            let advice = paper_advice(alloc, text)?;
            Wording::refusing(alloc, "unknown paper", option, advice.as_str())
        }
    }
}

/// Whether the text would be a size if a unit followed it.
fn may_have_unit(alloc: Global, text: &str) -> Result<bool, AllocError> {
    let with_unit = format!(in alloc; "{text}mm")?;
    Ok(read_paper(with_unit.as_str().as_bytes()).is_ok())
}

/// The wording about a size without a unit.
fn no_size_unit_wording(
    alloc: Global,
    option: OptionId,
    text: &str,
) -> Result<Wording, AllocError> {
    let id = option.id();
    let shown = shown_word(alloc, text)?;
    let after = format!(in alloc;
        "' after --{id} has no unit at its end: write {shown}mm, {shown}in or {shown}pt"
    )?;
    Wording::new(alloc, "size '", after)
}

/// The phrase that says which papers or sizes to name in place of a text that isn't the name of a paper.
fn paper_advice(alloc: Global, text: &str) -> Result<String, AllocError> {
    if begins_with_digit(text) {
        return String::from_str(
            alloc,
            "name a size such as 210x297mm, or a paper such as a4",
        );
    }
    if text.contains("landsc") || text.contains("portrait") || text.contains("quer") {
        return String::from_str(
            alloc,
            "name the paper by one word, as a4-landscape, or a4, which is upright",
        );
    }
    let name = plain(alloc, text)?;
    if let Some(size) = tip_in(SIZES, name.as_str()) {
        return format!(in alloc; "name it {size}");
    }
    match nearest_papers(alloc, name.as_str())? {
        Some(names) => format!(in alloc;
            "name {names}, another paper of impose --help, or a size such as 210x297mm"
        ),
        None => String::from_str(
            alloc,
            "name its size such as 210x297mm, or a paper of impose --help",
        ),
    }
}

/// The sizes of papers that have no names in `impose`, and the names of those that have another one there. The words are as `plain` writes them.
const SIZES: &[Tip] = tips! {
    "b4jis" => "jisb4",
    "b5jis" => "jisb5",
    "hagaki" | "postcard" | "japanesepostcard" => "100x148mm",
    "com10" | "no10" | "env10" | "envelope10" | "number10" => "4.125x9.5in",
    "ansia" => "8.5x11in",
    "ansib" => "11x17in",
    "ansic" => "17x22in",
    "ansid" => "22x34in",
    "ansie" => "34x44in",
    "archa" => "9x12in",
    "archb" => "12x18in",
    "archc" => "18x24in",
    "archd" => "24x36in",
    "arche" => "36x48in",
    "a3+" | "superb" | "superb3" => "329x483mm",
    "a8" => "52x74mm",
    "c3" => "324x458mm",
    "c7" => "81x114mm",
    "monarch" => "3.875x7.5in",
    "halfletter" => "5.5x8.5in",
    "governmentletter" => "8x10.5in",
};
