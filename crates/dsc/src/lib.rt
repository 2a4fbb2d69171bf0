//! Cuts a PostScript document that follows the Document Structuring Conventions (DSC 3.0) into preamble, pages and
//! trailer, and filters each of these parts for the output.
#![tactic(auto)]

mod bodies;
mod body_starts;
mod boxes;
mod comments;
mod document;
mod errors;
mod fields;
mod filters;
mod header;
mod keys;
pub mod laws;
mod lines;
mod page_lines;
mod parts;
mod plain;
mod scan;
mod strings;
mod units;
mod walk;

pub use bodies::Body;
pub use boxes::trailer_box;
pub use comments::comment_value;
pub use document::Document;
pub use errors::DscError;
pub use fields::next_field;
pub use filters::{end_line, prepare};
pub use header::{first_content, header_len, is_header};
pub use keys::key_of;
pub use lines::{content_end, line_end_after};
pub use parts::Parts;
pub use std::alloc::AllocError as NoMemory;
pub use strings::{string_characters, string_len};
