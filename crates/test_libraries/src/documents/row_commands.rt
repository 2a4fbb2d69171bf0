//! Commands that make rows, and sheets from rows.
use crate::answer::Answer;
use crate::documents::named_rows::{chosen, imposed, named, sewn, sides_for};
use crate::documents::sheets::{by_specification, on_their_own};
use crate::words::word;

pub fn run(out: &mut Answer, words: &[String]) -> Option<()> {
    match word(words, 0)? {
        "read_row" => named(out, words),
        "chosen_row" => chosen(out, words),
        "imposed_row" => imposed(out, words),
        "auto_sides" => sides_for(out, words),
        "in_signatures" => sewn(out, words),
        "select" => on_their_own(out, words),
        "spec_sheets" => by_specification(out, words),
        _ => None,
    }
}
