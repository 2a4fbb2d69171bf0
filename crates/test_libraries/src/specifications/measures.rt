//! Numbers, lengths and papers.
use crate::answer::Answer;
use crate::words::{billionths, length, paper, word};
use lengths::{
    Grains, Number, NumberError, Unit, paper_by_name, print_number, print_scale, read_digits,
    read_number, to_grains, unit_by_name,
};

pub fn run(out: &mut Answer, words: &[String]) -> Option<()> {
    let text = word(words, 1).unwrap_or("");
    match word(words, 0)? {
        "read_number" => number_at_start(out, text),
        "read_digits" => digits_at_start(out, text),
        "to_grains" => return in_grains(out, words),
        "print_number" => printed(out, billionths(text)?),
        "print_points" => points(out, length(text, 1)?),
        "paper_by_name" => named(out, text),
        "numbers" => numbers(out),
        "is_number" => out.verdict(billionths(text).is_some()),
        "is_length" => out.verdict(length(text, 1).is_some()),
        "is_paper" => out.verdict(paper(words, 1).is_some()),
        _ => return None,
    }
    Some(())
}

fn number_at_start(out: &mut Answer, text: &str) {
    match read_number(text.as_bytes()) {
        Ok((number, len)) => out.pair(number.billionths(), len),
        Err(error) => out.refusal::<NumberError>(error),
    }
}

fn digits_at_start(out: &mut Answer, text: &str) {
    match read_digits(text.as_bytes()) {
        Some((value, rest)) => out.pair(value, rest.len()),
        None => out.text("none\n"),
    }
}

fn in_grains(out: &mut Answer, words: &[String]) -> Option<()> {
    let number = billionths(word(words, 1)?)?;
    let length = to_grains(number, unit(words)?, &paper(words, 3)?);
    out.line(length.get());
    Some(())
}

fn unit(words: &[String]) -> Option<Unit> {
    match word(words, 2)? {
        "w" => Some(Unit::W),
        "h" => Some(Unit::H),
        "Pt" => Some(Unit::Pt),
        "Cm" => Some(Unit::Cm),
        "Mm" => Some(Unit::Mm),
        "In" => Some(Unit::In),
        name => unit_by_name(name.as_bytes()),
    }
}

/// Prints a number twice, each time after an `@`: with a zero before the dot (`print_scale`), and as page specifications write it, without that zero
/// (`print_number`).
fn printed(out: &mut Answer, number: Number) {
    out.text("@");
    let before = out.bytes.len();
    let added = print_scale(number, &mut out.bytes);
    out.note_appended(before, added.is_ok());
    out.text(" @");
    let before = out.bytes.len();
    let added = print_number(number, &mut out.bytes);
    out.note_appended(before, added.is_ok());
    out.text("\n");
}

fn points(out: &mut Answer, length: Grains) {
    out.points(length);
    out.text("\n");
}

/// Prints the width and the height of the paper with this name, rounded down to whole points, or `none` if no paper has the name.
fn named(out: &mut Answer, name: &str) {
    match paper_by_name(name) {
        Some(paper) => {
            let width = paper.width().get() / 127_000_000_000;
            let height = paper.height().get() / 127_000_000_000;
            out.line(format_args!("{width} x {height}"));
        }
        None => out.text("none\n"),
    }
}

fn numbers(out: &mut Answer) {
    let (zero, one) = (Number::ZERO.billionths(), Number::ONE.billionths());
    let less = (-Number::ONE).billionths();
    out.line(format_args!("{zero} {one} {less}"));
}
