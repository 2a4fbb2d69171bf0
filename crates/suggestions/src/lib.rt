//! Messages and tips about words and values that the command doesn't take.
#![tactic(auto)]

mod cell_values;
mod clap_text;
mod length_values;
mod mistakes;
mod nearest;
mod other_programs;
mod paper_values;
mod shown;
mod stray_words;
mod tips;
mod values;
mod wordings;
mod words;

pub use mistakes::words_text;
pub use shown::{MOST_SHOWN, shown_word};
pub use values::value_text;
pub use words::{is_range, looks_like_file};
