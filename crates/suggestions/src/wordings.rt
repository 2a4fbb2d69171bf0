//! What messages about refused values say before and after these values.
use impose_words::OptionId;
use std::alloc::{AllocError, Global};

/// What a message says before and after the text that it is about.
#[derive(Drop)]
pub(crate) struct Wording {
    pub(crate) before: String,
    pub(crate) after: String,
}

impl Wording {
    pub(crate) fn new(alloc: Global, before: &str, after: String) -> Result<Wording, AllocError> {
        let before = String::from_str(alloc, before)?;
        Ok(Wording { before, after })
    }

    /// The wording that calls the text `what`, refuses it after the option, and gives advice.
    pub(crate) fn refusing(
        alloc: Global,
        what: &str,
        option: OptionId,
        advice: &str,
    ) -> Result<Wording, AllocError> {
        let id = option.id();
        Ok(Wording {
            before: format!(in alloc; "{what} '")?,
            after: format!(in alloc; "' after --{id}: {advice}")?,
        })
    }
}

/// The wording that the option doesn't take this text.
pub(crate) fn refusal(alloc: Global, option: OptionId) -> Result<Wording, AllocError> {
    let (name, advice) = name_and_advice(option);
    Wording::refusing(alloc, name, option, advice)
}

/// What messages call a refused value of this option or argument, and the advice on its values.
pub(crate) fn name_and_advice(option: OptionId) -> (&'static str, &'static str) {
    match option {
        OptionId::Paper | OptionId::Sheet => ("unknown paper", "name a paper such as a4"),
        OptionId::Skip(_) => (
            "bad number",
            "give the number of cells that are used already, such as 3",
        ),
        OptionId::Border => ("bad length", "give it as 1pt, .5mm or .02in"),
        OptionId::Margin => ("bad length", MARGIN_ADVICE),
        OptionId::Gap => (
            "bad length",
            "give it as 5mm, or 5mm,1cm; units are cm, mm, in and pt",
        ),
        OptionId::Numbers => ("bad length", "give it as 10pt or 4mm, from .1pt to 72pt"),
        OptionId::Trim => (
            "bad length",
            "give one length for all edges, such as 5mm, .2in or 14pt",
        ),
        OptionId::Creep | OptionId::Overlap => ("bad length", "give it as 5mm, .2in or 14pt"),
        OptionId::Signature => (
            "bad signature",
            "give a multiple of four, as 16, up to 1000000, or auto",
        ),
        OptionId::Order => (
            "unknown order",
            "give right-down, down-right, left-down or down-left",
        ),
        OptionId::Turn => (
            "unknown turn",
            "give left (by 90 degrees), right, half or wide",
        ),
        OptionId::Turned => ("unknown side", "give left or right"),
        OptionId::Scale => ("bad scale", "give a number as 0.7"),
        OptionId::NumbersFrom => ("bad number", FIRST_NUMBER_ADVICE),
        OptionId::Preview => ("bad file", PREVIEW_ADVICE),
        OptionId::BookletMarks => ("unknown marks", "give fold, cut or fold,cut"),
        OptionId::CutMarks => ("unknown marks", "give cut"),
        OptionId::Count(_) | OptionId::Outfile => ("bad value", "see impose --help"),
    }
}

const MARGIN_ADVICE: &str =
    "give it as 5mm, X,Y, TOP,RIGHT,BOTTOM,LEFT, left=2cm,top=1cm or inner=2cm; units are cm, mm, in and pt";

const FIRST_NUMBER_ADVICE: &str =
    "give a whole one without a sign, and the size too, as --numbers 10pt --numbers-from 3";

const PREVIEW_ADVICE: &str = "it is an SVG, so name it as sheets.svg, or - for standard output";
