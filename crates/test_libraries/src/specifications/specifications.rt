//! Commands that read specifications, and print their items, their refusals and their canonical texts.
use crate::answer::Answer;
use crate::words::{specification, word};
use pagespec::{Item, Measure, NoMemory, Spec, SpecError, read_spec, write_spec};
use std::alloc::Global;

pub fn run(out: &mut Answer, words: &[String]) -> Option<()> {
    match word(words, 0)? {
        "read_spec" => {
            if let Some(spec) = specification(out, words, 1) {
                items(out, &spec);
            }
        }
        "write_spec" => {
            if let Some(spec) = specification(out, words, 1) {
                written(out, &spec);
            }
        }
        "syntax" => syntax(out, word(words, 1)?),
        "no_memory_for_a_specification" => out.line(SpecError::NoMemory),
        _ => return None,
    }
    Some(())
}

/// Prints the modulo of a specification, and the items of each group.
fn items(out: &mut Answer, spec: &Spec) {
    out.labelled("modulo", spec.modulo());
    for (number, group) in spec.groups().iter().enumerate() {
        out.labelled("group", number);
        for item in group.iter() {
            item_line(out, item);
        }
    }
}

fn item_line(out: &mut Answer, item: &Item) {
    out.show(format_args!("  page {}", item.page));
    out.text(if item.from_end { " from the end" } else { "" });
    let scale = item.scale.billionths();
    out.show(format_args!(", {:?}, scale {scale}, offset", item.turn));
    measure(out, item.offset.0);
    measure(out, item.offset.1);
    out.text("\n");
}

fn measure(out: &mut Answer, measure: Measure) {
    let number = measure.number.billionths();
    out.show(format_args!(" {number} {:?}", measure.unit));
}

/// Prints the canonical text of a specification.
fn written(out: &mut Answer, spec: &Spec) {
    match write_spec(out.alloc, spec) {
        Ok(text) => out.line(text.as_str()),
        Err(_) => out.note(false),
    }
}

/// Prints the byte at which the syntax of a text is refused, once as the refusal gives it and once as a slow search finds it. Another refusal, or
/// `taken`, is printed in place of the first of the two.
fn syntax(out: &mut Answer, text: &str) {
    match read_spec(out.alloc, text) {
        Err(SpecError::Syntax(place)) => out.show(place),
        Err(error) => out.refusal(error),
        Ok(_) => out.text("taken"),
    }
    match longest_prefix(out.alloc, text) {
        Ok(longest) => out.labelled("", longest),
        Err(_) => out.note(false),
    }
}

/// The length, in bytes, of the longest prefix of a text that begins some specification. It is found by trying each ending that a prefix may need.
fn longest_prefix(alloc: Global, text: &str) -> Result<usize, NoMemory> {
    let mut longest = 0;
    for k in 0..text.len() + 1 {
        if let Some(prefix) = text.get(..k) {
            if goes_on(alloc, prefix)? {
                longest = k;
            }
        }
    }
    Ok(longest)
}

/// Whether some ending completes the prefix to a specification that has no syntax error.
fn goes_on(alloc: Global, prefix: &str) -> Result<bool, NoMemory> {
    for end in [
        "", "0", "0,0)", ",0)", "t,0)", "m,0)", "n,0)", "0)", ")", "t)", "m)", "n)",
    ] {
        if !is_stuck(alloc, prefix, end)? {
            return Ok(true);
        }
    }
    Ok(false)
}

/// Whether the prefix followed by this ending has a syntax error.
fn is_stuck(alloc: Global, prefix: &str, end: &str) -> Result<bool, NoMemory> {
    let whole = [prefix, end].concat(alloc)?;
    match read_spec(alloc, whole.as_str()) {
        Err(SpecError::Syntax(_)) => Ok(true),
        Err(SpecError::NoMemory) => Err(NoMemory),
        _ => Ok(false),
    }
}
