//! Functions that the commands of both programs share. They read the width of a border and the values that clap finds among words, show the place of
//! a fault, and write words for a shell.
#![tactic(auto)]

mod borders;
mod caret;
mod files;
mod matches;
mod shell;

pub use borders::border_named;
pub use caret::{caret_below, group_place, item_place, large_place, range_place};
pub use files::name_of;
pub use matches::{is_set, number_of, owned, text_of};
pub use shell::{
    append_border_option, append_files, append_if, append_length, append_sides, begins_with_minus,
    is_hidden,
};
