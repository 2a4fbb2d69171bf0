//! Messages about values that aren't lengths, margins or gaps.
use crate::shown::shown_word;
use crate::wordings::{Wording, refusal};
use impose_words::{OptionId, lacks_unit};
use std::alloc::{AllocError, Global};

pub(crate) const UNITS_IN_LISTS: &str = "; in a list each length has its unit, 0 too";

/// Whether the option takes lists of lengths.
pub(crate) fn may_be_list(option: OptionId) -> bool {
    matches!(option, OptionId::Margin | OptionId::Gap)
}

/// The wording about a text that isn't a length or a list of lengths. If only a unit is missing, the message says where.
pub(crate) fn length_wording(
    alloc: Global,
    option: OptionId,
    text: &str,
) -> Result<Wording, AllocError> {
    if matches!(text, "none" | "no" | "off") {
        let id = option.id();
        let after = format!(in alloc; "' is no length: leave --{id} out")?;
        return Wording::new(alloc, "'", after);
    }
    match part_without_unit(text, may_be_list(option)) {
        Some(part) => no_unit_wording(alloc, option, text, part),
        None => refusal(alloc, option),
    }
}

/// The part of the text that only lacks its unit, if there is one: the whole text or, in a list, the first such length. In a list, a length may stand
/// alone or after the name of an edge. A length with a minus sign isn't such a part.
fn part_without_unit(text: &str, may_be_list: bool) -> Option<&str> {
    if lacks_unit(text, false) && !text.starts_with("-") {
        return Some(text);
    }
    if !may_be_list {
        return None;
    }
    text.split(',')
        .map(|part| part.split_once('=').map_or(part, |(_, length)| length))
        .find(|length| lacks_unit(*length, true) && !length.starts_with("-"))
}

/// The wording about a text in which `part` lacks a unit.
fn no_unit_wording(
    alloc: Global,
    option: OptionId,
    text: &str,
    part: &str,
) -> Result<Wording, AllocError> {
    let id = option.id();
    let shown = shown_word(alloc, part)?;
    let units = if text.contains(",") {
        UNITS_IN_LISTS
    } else {
        ""
    };
    let before = if part == text {
        String::from_str(alloc, "length '")?
    } else {
        format!(in alloc; "{shown} in '")?
    };
    let after = if option == OptionId::Numbers {
        format!(in alloc; "' after --{id} has no unit: write {shown}pt")?
    } else {
        format!(in alloc;
            "' after --{id} has no unit: write {shown}cm, {shown}mm, {shown}in or {shown}pt{units}"
        )?
    };
    Ok(Wording { before, after })
}

/// The wording about a text that doesn't give margins. If the text names an edge twice, the message names this edge.
pub(crate) fn margin_wording(alloc: Global, text: &str) -> Result<Wording, AllocError> {
    let Some(edge) = edge_named_twice(text) else {
        return length_wording(alloc, OptionId::Margin, text);
    };
    let edge = shown_word(alloc, edge)?;
    let after = format!(in alloc; "' after --margin names {edge} twice: name each edge once")?;
    Wording::new(alloc, "'", after)
}

/// The first edge that a text names twice. `None` if there is no such edge.
fn edge_named_twice(text: &str) -> Option<&str> {
    text.split(',').enumerate().find_map(|(place, part)| {
        let edge = edge_of(part)?;
        let mut after = text.split(',').skip(place).skip(1);
        after
            .any(|part| edge_of(part) == Some(edge))
            .then_some(edge)
    })
}

/// The name before the equals sign, if there is one.
fn edge_of(part: &str) -> Option<&str> {
    let (edge, _) = part.split_once('=')?;
    Some(edge)
}
